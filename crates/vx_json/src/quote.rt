ghost use Rattle.std.specs.Prelude.{◌≡◌, ◌+◌, ◌++◌, ◌∷◌, [], ◌<◌, ◌≤◌, take, drop, length, IsTrue, OnOk, OnErr, IfOk};
ghost use Rattle.vx_json.specs.Growth.{Keeps};
ghost use Rattle.vx_json.specs.Written.{hex_digit, escaped, escapes, quoted};

use vx_value::{Bytes, WantOfMemory};

/// Whether a byte of a text stands for itself.
#[tactic(auto, unfolding(crate::specs::Written::escaped))]
fn is_plain(b: u8) -> bool
    ensures { IsTrue result → escaped b ≡ b ∷ [] }
{
    b >= 32 && b != b'"' && b != b'\\'
}

/// A digit of base 16.
fn hex_digit(n: u8) -> u8
    requires { n < 16 }
    ensures { result ≡ hex_digit n }
{
    if n < 10 { b'0' + n } else { b'a' - 10 + n }
}

/// Adds what stands for a byte of a text.
#[tactic(auto, unfolding(crate::specs::Written::escaped))]
fn push_escaped(b: u8, out: &mut Bytes) -> Result<(), WantOfMemory>
    ensures ok { OnOk result (out.new ≡ out.old ++ escaped b) }
    ensures err { OnErr result (out.new ≡ out.old) }
{
    match b {
        b'"' | b'\\' => out.push_slice(&[b'\\', b]),
        8 => out.push_slice(b"\\b"),
        12 => out.push_slice(b"\\f"),
        b'\n' => out.push_slice(b"\\n"),
        b'\r' => out.push_slice(b"\\r"),
        b'\t' => out.push_slice(b"\\t"),
        0..=31 => out.push_slice(&[
            b'\\',
            b'u',
            b'0',
            b'0',
            hex_digit(b / 16),
            hex_digit(b % 16),
        ]),
        _ => out.push_slice(&[b]),
    }
}

/// How many bytes at the front of a text stand for themselves.
fn plain_len(text: &[u8]) -> usize
    ensures within { result ≤ length text.now }
    ensures plain { escapes (take result text.now) ≡ take result text.now }
{
    for (i, b) in text.iter().enumerate() {
        if !is_plain(*b) {
            return i;
        }
    }
    text.len()
}

/// Adds the bytes at the front of a text that stand for themselves, and gives the rest of it.
fn push_plain<'a>(text: &'a [u8], out: &mut Bytes) -> Result<&'a [u8], WantOfMemory>
    ensures ok { IfOk result (λ rest. out.new ++ escapes rest.now ≡ out.old ++ escapes text.now) }
    ensures within { IfOk result (λ rest. length rest.now ≤ length text.now) }
    ensures grown { IfOk result (λ _. Keeps out.old out.new) }
    ensures err { OnErr result (out.new ≡ out.old) }
{
    let (plain, rest) = text.split_at(plain_len(text));
    out.push_slice(plain)?;
    Ok(rest)
}

/// Adds the bytes of a text, each as it is written.
fn push_escapes(text: &[u8], out: &mut Bytes) -> Result<(), WantOfMemory>
    ensures ok { OnOk result (out.new ≡ out.old ++ escapes text.now) }
    ensures err { OnErr result (Keeps out.old out.new) }
{
    let mut rest = text;
    while let Some((b, behind)) = push_plain(rest, out)?.split_first() {
        push_escaped(*b, out)?;
        rest = behind;
    }
    Ok(())
}

/// Adds a text in quotes.
pub fn push_quoted(text: &str, out: &mut Bytes) -> Result<(), WantOfMemory>
    ensures ok { OnOk result (out.new ≡ out.old ++ quoted text.now) }
    ensures err { OnErr result (Keeps out.old out.new) }
{
    out.push_slice(b"\"")?;
    push_escapes(text.as_bytes(), out)?;
    out.push_slice(b"\"")
}
