use vx_value::{ItemList, NumberList};

/// What a split makes for one target.
#[derive(Drop)]
pub struct Child {
    /// The number of the target's instance.
    pub target: u32,
    /// The copies that it gets, in the order of those that were split.
    pub copies: NumberList,
}

/// The children of a split, in the order of the targets.
pub type ChildList = ItemList<Child>;
