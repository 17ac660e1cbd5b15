use crate::number_place::NumberPlace;
use crate::text_place::TextPlace;
use crate::word_place::WordPlace;

/// Where a judge stands that keeps no values.
#[derive(Clone, Copy)]
pub enum ProbeMode {
    /// Before a value.
    Before,
    /// Behind an opening bracket.
    FirstItem,
    /// Behind an opening brace.
    FirstName,
    /// Behind a comma of an object.
    NextName,
    /// In a name.
    InName(TextPlace),
    /// Behind a name.
    Colon,
    /// Behind a value, which is an object or is none.
    Behind(bool),
    /// In a word.
    InWord(WordPlace),
    /// In a number.
    InNumber(NumberPlace),
    /// In a text.
    InText(TextPlace),
}
