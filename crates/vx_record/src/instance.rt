use vx_value::{ItemList, Text};

/// What an install makes of an instance.
#[derive(Clone, Copy, PartialEq, Eq, Debug)]
pub enum Start {
    /// It runs on.
    Kept,
    /// It begins.
    New,
    /// It takes in nothing new, and ends when it has sent what it has.
    Draining,
}

/// An instance as an install names it.
#[derive(Drop)]
pub struct Instance {
    /// The name of its component.
    pub name: Text,
    pub number: u32,
    pub start: Start,
}

/// The instances of an install.
pub type InstanceList = ItemList<Instance>;
