use crate::call::Call;
use crate::comparison::Comparison;
use crate::expected::Expected;
use crate::fixed_word::FixedWord;
use crate::operator::{Equality, Operator};
use crate::predicate::Predicate;
use vx_value::{ItemList, Path, PathMode, TextList};

/// What stands behind a fixed word.
#[derive(Drop)]
pub enum Behind {
    /// What the text has to go on with.
    Wants(Expected),
    /// The word completes a predicate.
    Done(Predicate),
}

/// Of what a path is the beginning.
#[derive(Clone, Copy)]
pub enum PathUse {
    /// Of a comparison.
    Compared,
    /// Of the arguments of a call.
    Called(Call),
}

/// Of what a text in quotes is the end.
#[derive(Drop)]
pub enum TextUse {
    /// Of a comparison.
    Literal(Path, Equality),
    /// Of the arguments of `contains`.
    Part(Path),
}

/// Where a reader of a condition stands.
#[derive(Drop)]
pub enum Mode {
    /// Before everything.
    Start,
    /// Before what is expected.
    Expects(Expected),
    /// Directly behind an operand.
    Complete,
    /// In a fixed word, of which some letters were read.
    Word(FixedWord, usize, Behind),
    /// In a path: where in it, the bytes of the name that has begun, and the names before it.
    Path(PathUse, PathMode, ItemList<u8>, TextList),
    /// In a text in quotes: whether behind a backslash, and the bytes of the text so far.
    Text(TextUse, bool, ItemList<u8>),
    /// Behind the `r` of a pattern.
    Mark(Path),
    /// In a pattern: its bytes so far.
    Pattern(Path, ItemList<u8>),
    /// Behind the `-` of a number.
    Minus(Path, Operator),
    /// In a number: whether it is negative, and its size so far.
    Whole(Path, Operator, bool, u64),
    /// Behind a `<` or `>`, after which a `=` may come.
    Angle(Path, Comparison),
}
