use crate::call::{Call, Search};
use crate::operator::Operator;
use crate::predicate::Predicate;
use vx_value::Path;

/// What the text has to go on with, behind any blanks.
#[derive(Drop)]
pub enum Expected {
    /// A term.
    Operand,
    /// An operator behind a path.
    Operator(Path),
    /// A literal behind a path and an operator.
    Literal(Path, Operator),
    /// The bracket of a call, or a `!` before it where something is looked for.
    Open(Call),
    /// The bracket of a call.
    Bracket(Call),
    /// The path of a call.
    Path(Call),
    /// The comma behind it.
    Comma(Search, Path),
    /// What is looked for.
    Argument(Search, Path),
    /// The closing bracket of a call.
    Close(Predicate),
    /// `&&`, `||` or a closing bracket behind an operand.
    Joint,
}
