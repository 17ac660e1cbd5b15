use vx_value::ItemList;

/// A place in a stream: the number of its bytes up to there.
#[derive(Clone, Copy, PartialEq, Eq, Debug)]
pub struct Position {
    pub stream: u64,
    pub end: u64,
}

/// Some positions.
pub type PositionList = ItemList<Position>;
