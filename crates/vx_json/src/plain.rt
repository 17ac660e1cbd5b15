ghost use Rattle.std.specs.Prelude.{◌≡◌, ◌+◌, ◌≤◌, true, length, take, IfOk, IfSome};
ghost use Rattle.std.specs.Str.Lossy.{utf8_lossy};
ghost use Rattle.vx_json.specs.Openings.{IsQuoted};
ghost use Rattle.vx_json.specs.Runs.{is_plain, are_plain, IsClosed};
ghost use Rattle.vx_json.specs.Walks.{IsNamed};

use std::alloc::Global;
use std::str;
use vx_value::{Text, WantOfMemory};

/// Whether a byte inside a text is a character that stands for itself.
fn is_plain(b: u8) -> bool
    ensures { result ≡ is_plain b }
{
    b >= 32 && (b < 128 && (b != b'"' && b != b'\\'))
}

/// How many bytes at the front are characters that stand for themselves.
pub fn plain_len(bytes: &[u8]) -> usize
    ensures within { result ≤ length bytes.now }
    ensures plain { are_plain (take result bytes.now) ≡ true }
{
    for (i, b) in bytes.iter().enumerate() {
        if !is_plain(*b) {
            return i;
        }
    }
    bytes.len()
}

/// The text of bytes that stand for themselves, which need no look for UTF-8.
pub fn plain_text(alloc: Global, bytes: &[u8]) -> Result<Text, WantOfMemory>
    requires { are_plain bytes.now ≡ true }
    ensures { IfOk result (λ text. text ≡ utf8_lossy bytes.now) }
{
    Text::copy_of(alloc, unsafe { str::from_utf8_unchecked(bytes) })
}

/// The text of the first `n` bytes, where a quote comes behind them.
pub fn closed(alloc: Global, bytes: &[u8], n: usize) -> Result<Option<Text>, WantOfMemory>
    requires within { n ≤ length bytes.now }
    requires plain { are_plain (take n bytes.now) ≡ true }
    ensures within { IfOk result (λ o. IfSome o (λ _. n + 1 ≤ length bytes.now)) }
    ensures closed { IfOk result (λ o. IfSome o (IsClosed (take (n + 1) bytes.now))) }
{
    if n == bytes.len() || bytes[n] != b'"' {
        return Ok(None);
    }
    let text = plain_text(alloc, &bytes[..n])?;
    Ok(Some(text))
}

/// A text in quotes at the front, of characters that stand for themselves, and how many bytes it takes. `None` where there
/// is none.
#[inline(always)]
pub fn quoted(alloc: Global, bytes: &[u8]) -> Result<Option<(Text, usize)>, WantOfMemory>
    ensures within { IfOk result (λ o. IfSome o (λ p. p.1 ≤ length bytes.now)) }
    ensures quoted { IfOk result (λ o. IfSome o (λ p. IsQuoted (take p.1 bytes.now) p.0)) }
{
    if bytes.is_empty() || bytes[0] != b'"' {
        return Ok(None);
    }
    let rest = &bytes[1..];
    let n = plain_len(rest);
    match closed(alloc, rest, n)? {
        Some(text) => Ok(Some((text, n + 2))),
        None => Ok(None),
    }
}

/// A name in quotes at the front with the colon behind it, and how many bytes that takes. `None` where there is none.
#[inline(always)]
pub fn named(alloc: Global, bytes: &[u8]) -> Result<Option<(Text, usize)>, WantOfMemory>
    ensures within { IfOk result (λ o. IfSome o (λ p. p.1 ≤ length bytes.now)) }
    ensures named { IfOk result (λ o. IfSome o (λ p. IsNamed (take p.1 bytes.now) p.0)) }
{
    match quoted(alloc, bytes)? {
        Some((name, n)) => {
            if n < bytes.len() && bytes[n] == b':' {
                Ok(Some((name, n + 1)))
            } else {
                Ok(None)
            }
        }
        None => Ok(None),
    }
}
