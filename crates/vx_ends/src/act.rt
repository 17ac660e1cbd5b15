use vx_value::ItemList;

/// How a port in memory meets a start, a give, a finish or a confirm.
#[derive(Clone, Copy, PartialEq, Eq, Debug)]
pub enum Act {
    /// It does what it is asked to.
    Pass,
    /// A give takes over at most so many bytes, and at least one. Other calls pass.
    Part(u32),
    /// It fails.
    Fail,
    /// A give or a finish is refused. Other calls pass.
    Refuse,
}

/// Acts, in the order in which they are used.
pub type ActList = ItemList<Act>;
