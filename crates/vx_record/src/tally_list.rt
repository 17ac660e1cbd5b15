use crate::tally::Tally;
use vx_value::ItemList;

/// The counts of several instances, in order.
pub type TallyList = ItemList<Tally>;
