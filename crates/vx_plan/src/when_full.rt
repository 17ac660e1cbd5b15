/// What a full stage of a buffer does with one more event.
#[derive(Clone, Copy, PartialEq, Eq, Debug)]
pub enum WhenFull {
    /// The event waits, and with it the component that sends it.
    Block,
    /// The event is dropped.
    DropNewest,
    /// The event goes to the next stage.
    Overflow,
}
