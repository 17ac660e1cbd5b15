use crate::place::Place;
use crate::shape::Shape;

/// An option of a table: where it stands, what its value has to be, and whether it has to be there.
#[derive(Clone, Copy)]
pub(crate) struct Row {
    pub place: Place<'static>,
    pub shape: Shape,
    pub required: bool,
}
