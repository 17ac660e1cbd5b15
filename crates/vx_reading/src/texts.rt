ghost use Rattle.std.specs.Prelude.{◌≡◌, IfOk};
ghost use Rattle.std.specs.List.{list_all};
ghost use Rattle.vx_value.specs.Texts.{same_text, text_lt};
ghost use Rattle.vx_reading.specs.Made.{is_unbroken};
ghost use Rattle.vx_reading.specs.Options.{is_name, is_name_byte, is_route_name};
ghost use Rattle.vx_reading.specs.Judging.{has_byte, is_pattern, is_template, path_spelled};

use std::alloc::Global;
use std::cmp::Ordering;
use vx_value::{Path, PathFault, WantOfMemory};

/// The longest name of a component, in bytes.
const LONGEST_NAME: usize = 64;

/// Whether two texts are the same.
#[tactic(auto, using(vx_value::proofs::Order::answer_equal))]
pub(crate) fn same_text(a: &str, b: &str) -> bool
    ensures { result ≡ same_text a.now b.now }
{
    a == b
}

/// Whether a text comes before another by its bytes.
#[tactic(auto, using(vx_value::proofs::Order::answer_less))]
pub(crate) fn text_lt(a: &str, b: &str) -> bool
    ensures { result ≡ text_lt a.now b.now }
{
    match a.cmp(b) {
        Ordering::Less => true,
        Ordering::Equal => false,
        Ordering::Greater => false,
    }
}

/// Whether a byte may stand in the name of a component.
fn is_name_byte(byte: u8) -> bool
    ensures { result ≡ is_name_byte byte }
{
    (b'A' <= byte && byte <= b'Z')
        || (b'a' <= byte && byte <= b'z')
        || (b'0' <= byte && byte <= b'9')
        || byte == b'_'
        || byte == b'-'
}

/// Whether all of some bytes may stand in the name of a component.
fn are_name_bytes(bytes: &[u8]) -> bool
    ensures { result ≡ list_all is_name_byte bytes.now }
{
    for byte in bytes {
        if !is_name_byte(*byte) {
            return false;
        }
    }
    true
}

/// Whether a text may name a component: 1 to 64 letters and digits of ASCII, `_` and `-`.
pub(crate) fn is_name(name: &str) -> bool
    ensures { result ≡ is_name name.now }
{
    1 <= name.len() && name.len() <= LONGEST_NAME && are_name_bytes(name.as_bytes())
}

/// Whether a text may name a port of a route: a name that isn't that of the last port.
pub(crate) fn is_route_name(name: &str) -> bool
    ensures { result ≡ is_route_name name.now }
{
    is_name(name) && !same_text(name, "_unmatched")
}

/// Whether a text has no line feed.
pub(crate) fn is_unbroken(text: &str) -> bool
    ensures { result ≡ is_unbroken text.now }
{
    for byte in text.as_bytes() {
        if *byte == b'\n' {
            return false;
        }
    }
    true
}

/// Whether a byte stands in a text.
fn has_byte(byte: u8, text: &str) -> bool
    ensures { result ≡ has_byte byte text.now }
{
    for other in text.as_bytes() {
        if *other == byte {
            return true;
        }
    }
    false
}

/// Whether a text is a pattern, which may stand for many files: `*`, `?` or `[` stands in it.
pub(crate) fn is_pattern(text: &str) -> bool
    ensures { result ≡ is_pattern text.now }
{
    has_byte(b'*', text) || has_byte(b'?', text) || has_byte(b'[', text)
}

/// Whether a text is a template, which each event may fill in: `{` stands in it.
pub(crate) fn is_template(text: &str) -> bool
    ensures { result ≡ is_template text.now }
{
    has_byte(b'{', text)
}

/// How many names the path of a field may have.
const MOST_NAMES: usize = 31;

/// The path that a text spells; `None` where it is none, or has more than 31 names.
pub(crate) fn path_spelled(alloc: Global, text: &str) -> Result<Option<Path>, WantOfMemory>
    ensures { IfOk result (λ path. path ≡ path_spelled text.now) }
{
    match Path::read(alloc, text) {
        Ok(path) if path.names().len() <= MOST_NAMES => Ok(Some(path)),
        Ok(_) | Err(PathFault::Syntax { .. } | PathFault::Long) => Ok(None),
        Err(PathFault::WantOfMemory) => Err(WantOfMemory),
    }
}
