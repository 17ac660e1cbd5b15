use crate::parcel::Parcel;
use vx_value::ItemList;

/// A parcel on its way to one target.
pub struct Child {
    /// The number of the instance that is to get it.
    pub target: u32,
    pub parcel: Parcel,
}

/// A list of children.
pub type ChildList = ItemList<Child>;
