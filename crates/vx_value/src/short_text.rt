ghost use Rattle.std.specs.Prelude.{◌≡◌, ◌≤◌, length};

use std::marker::Model;
use std::str;

/// A text of at most 30 bytes, which lie in the value itself, so that it takes no memory. Contracts see the list of its bytes.
#[derive(Drop)]
pub(crate) struct ShortText {
    bytes: [u8; 30],
    len: u8,
}

impl Model for ShortText {
    ghost use Rattle.std.specs.Prelude.{List, ℕ, ◌≤◌, take, IsUtf8};

    ghost Value = { List ℕ };

    ghost view = { λ t. take t.len t.bytes };

    ghost invariant = { λ t. (t.len ≤ 30) × ∥ IsUtf8 (take t.len t.bytes) ∥₁ };
}

impl ShortText {
    /// The longest such text, in bytes.
    pub(crate) const LONGEST: usize = 30;

    /// A copy of a text that is short enough.
    pub(crate) fn of(text: &str) -> Self
        requires { length text.now ≤ 30 }
        ensures { result ≡ text.now }
    {
        let mut bytes = [0u8; 30];
        let len = text.len();
        bytes[..len].copy_from_slice(text.as_bytes());
        ShortText {
            bytes,
            len: len as u8,
        }
    }

    /// The text.
    pub(crate) fn as_str(&self) -> &str
        ensures { result.now ≡ self.now }
    {
        unsafe { str::from_utf8_unchecked(&self.bytes[..self.len as usize]) }
    }
}
