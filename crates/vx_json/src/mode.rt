use crate::number_place::NumberPlace;
use crate::object_builder::ObjectBuilder;
use crate::text_place::TextPlace;
use crate::word_place::WordPlace;
use vx_value::{Text, Value};

/// Where a reader stands.
#[derive(Drop)]
pub enum Mode {
    /// Before a value.
    Before,
    /// Behind an opening bracket.
    FirstItem,
    /// Behind an opening brace.
    FirstName,
    /// Behind a comma of an object, with its fields so far.
    NextName(ObjectBuilder),
    /// In a name, with the bytes that it has so far.
    InName(ObjectBuilder, TextPlace, Vec<u8>),
    /// Behind a name.
    Colon(ObjectBuilder, Text),
    /// Behind a value.
    Behind(Value),
    /// In a word.
    InWord(WordPlace),
    /// In a number, with its spelling so far.
    InNumber(NumberPlace, Vec<u8>),
    /// In a text, with the bytes that it has so far.
    InText(TextPlace, Vec<u8>),
}
