ghost use Rattle.std.specs.Prelude.{◌≡◌, ℕ, ◌≤◌, List, length, IfOk, IsOk, string_bytes};
ghost use Rattle.std.specs.Str.{IsUtf8};
ghost use Rattle.std.specs.Str.Lossy.{utf8_lossy};
ghost use Rattle.vx_value.specs.Replacement.{StandsFor};

use crate::bytes::Bytes;
use crate::item_list::ItemList;
use crate::short_text::ShortText;
use crate::want_of_memory::WantOfMemory;
use std::alloc::Global;
use std::marker::Model;
use std::str;

/// How a text is kept.
#[derive(Drop)]
enum Kept {
    /// In the value itself.
    Short(ShortText),
    /// In memory of its own.
    Long(String),
}

/// A text in UTF-8. Contracts see it as the list of its bytes.
///
/// A copy of at most 30 bytes takes no memory.
#[derive(Drop)]
pub struct Text {
    kept: Kept,
}

/// A list of texts.
pub type TextList = ItemList<Text>;

impl Model for Text {
    ghost use Rattle.std.specs.Prelude.{List, ℕ};

    ghost Value = { List ℕ };

    ghost use Rattle.vx_value.specs.KeptTexts.{kept_bytes};

    ghost view = { λ t. kept_bytes t.kept };
}

impl Text {
    /// A copy of a text. Want of memory comes only where it has more than 30 bytes.
    pub fn copy_of(alloc: Global, text: &str) -> Result<Self, WantOfMemory>
        ensures copy { IfOk result (λ copy. copy ≡ text.now) }
        ensures short { length text.now ≤ 30 → IsOk result }
    {
        if text.len() <= ShortText::LONGEST {
            return Ok(Text {
                kept: Kept::Short(ShortText::of(text)),
            });
        }
        match String::from_str(alloc, text) {
            Ok(text) => Ok(Text::from_string(text)),
            Err(_) => Err(WantOfMemory),
        }
    }

    /// The text of some bytes, in which U+FFFD stands for each longest part that is no UTF-8.
    pub fn lossy(alloc: Global, bytes: &[u8]) -> Result<Self, WantOfMemory>
        ensures lossy { IfOk result (λ text. text ≡ utf8_lossy bytes.now) }
        ensures stands { IfOk result (λ text. StandsFor bytes.now text) }
        ensures only { (text : List ℕ) → StandsFor bytes.now text →
            IfOk result (λ made. made ≡ text) }
    {
        let text = Text::decoded(alloc, bytes)?;
        Ok(text)
    }

    /// The text that `lossy` makes of some bytes. Bytes that are UTF-8 become the text as they stand, which takes no memory.
    pub fn from_bytes(alloc: Global, bytes: Bytes) -> Result<Self, WantOfMemory>
        ensures lossy { IfOk result (λ text. text ≡ utf8_lossy bytes) }
        ensures whole { IsUtf8 bytes → IsOk result }
    {
        match String::from_utf8(bytes.into_vec()) {
            Ok(text) => Ok(Text::from_string(text)),
            Err(fault) => Text::replaced(alloc, fault.as_bytes()),
        }
    }

    // The text that stands for some bytes.
    fn decoded(alloc: Global, bytes: &[u8]) -> Result<Self, WantOfMemory>
        ensures { IfOk result (λ text. text ≡ utf8_lossy bytes.now) }
    {
        match str::from_utf8(bytes) {
            Ok(text) => Text::copy_of(alloc, text),
            Err(_) => Text::replaced(alloc, bytes),
        }
    }

    // The text that stands for some bytes, which takes memory.
    fn replaced(alloc: Global, bytes: &[u8]) -> Result<Self, WantOfMemory>
        ensures { IfOk result (λ text. text ≡ utf8_lossy bytes.now) }
    {
        match String::from_utf8_lossy(alloc, bytes) {
            Ok(text) => Ok(Text::from_string(text)),
            Err(_) => Err(WantOfMemory),
        }
    }

    // The text of bytes that are UTF-8. It takes no memory.
    pub(crate) fn from_utf8(bytes: Vec<u8>) -> Self
        requires { IsUtf8 bytes.items }
        ensures { result ≡ bytes.items }
    {
        match String::from_utf8(bytes) {
            Ok(text) => Text::from_string(text),
            Err(_) => unreachable!(),
        }
    }

    /// The text of a string. It takes no memory.
    pub fn from_string(text: String) -> Self
        ensures { result ≡ string_bytes text }
    {
        Text {
            kept: Kept::Long(text),
        }
    }

    /// The text.
    pub fn as_str(&self) -> &str
        ensures { result.now ≡ self.now }
    {
        match &self.kept {
            Kept::Short(text) => text.as_str(),
            Kept::Long(text) => text.as_str(),
        }
    }

    /// The same text once more. Want of memory comes only where it has more than 30 bytes.
    pub fn copy(&self, alloc: Global) -> Result<Self, WantOfMemory>
        ensures copy { IfOk result (λ copy. copy ≡ self.now) }
        ensures short { length self.now ≤ 30 → IsOk result }
    {
        Text::copy_of(alloc, self.as_str())
    }
}

impl ItemList<Text> {
    /// The same texts once more.
    pub fn copy(&self, alloc: Global) -> Result<TextList, WantOfMemory>
        ensures { IfOk result (λ copy. copy ≡ self.now) }
    {
        let mut texts = ItemList::with_room(alloc, self.len())?;
        for text in self.as_slice() {
            match texts.push(text.copy(alloc)?) {
                Ok(()) => {}
                Err(_) => return Err(WantOfMemory),
            }
        }
        Ok(texts)
    }
}
