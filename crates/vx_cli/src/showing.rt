ghost use Rattle.std.specs.Prelude.{◌≡◌, IfOk, string_bytes};
ghost use Rattle.vx_cli.specs.Shown.{is_hidden, shown, shown_char};

use std::alloc::{AllocError, Global};
use vx_value::Text;

/// How many bytes of a text are printed at most, before the two dots of a cut.
const ROOM: usize = 256;

/// A name, path or input as it is printed: hidden characters by their codes, in 256 bytes at most, or cut there with two
/// dots behind. A text that is cut isn't read to its end.
pub(crate) fn shown(alloc: Global, text: &Text) -> Result<String, AllocError>
    ensures { IfOk result (λ line. string_bytes line ≡ shown text.now) }
{
    shown_text(alloc, text.as_str())
}

/// The same of a text that is borrowed.
fn shown_text(alloc: Global, text: &str) -> Result<String, AllocError>
    ensures { IfOk result (λ line. string_bytes line ≡ shown text.now) }
{
    let mut line = String::new(alloc);
    for c in text.chars() {
        let piece = shown_char(alloc, c)?;
        if piece.len() > ROOM - line.len() {
            line.push_str("..")?;
            return Ok(line);
        }
        line.push_str(piece.as_str())?;
    }
    Ok(line)
}

/// A character as it is printed.
#[tactic(auto, unfolding(crate::specs::Shown::shown_char))]
fn shown_char(alloc: Global, c: char) -> Result<String, AllocError>
    ensures { IfOk result (λ piece. string_bytes piece ≡ shown_char c) }
{
    if is_hidden(c) {
        let code = c as u32;
        return format!(in alloc; "\\u{{{code:x}}}");
    }
    let mut piece = String::new(alloc);
    piece.push(c)?;
    Ok(piece)
}

/// Whether a character could end a line, or change how the rest of it looks.
fn is_hidden(c: char) -> bool
    ensures { result ≡ is_hidden c }
{
    c.is_control()
        || matches!(c, '\u{61c}' | '\u{200e}' | '\u{200f}' | '\u{2028}'..='\u{202e}' | '\u{2066}'..='\u{2069}')
}
