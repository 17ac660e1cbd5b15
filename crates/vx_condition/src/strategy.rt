use crate::how::How;
use vx_value::{ItemList, Text};

/// How a field of an event is merged.
#[derive(Drop)]
pub struct Strategy {
    /// The name of the field.
    pub field: Text,
    pub how: How,
}

/// Strategies in order. Of two for one field the first counts.
pub type StrategyList = ItemList<Strategy>;
