use vx_value::{Event, ItemList, NumberList};

/// A parcel that a transform puts out.
#[derive(Drop)]
pub struct Output {
    /// The bits of the ports on which it is put out.
    pub ports: u128,
    /// Its copies: one parcel's, or those of several that were joined, in order.
    pub copies: NumberList,
    pub event: Event,
}

/// Outputs in the order in which they are put out.
pub type OutputList = ItemList<Output>;
