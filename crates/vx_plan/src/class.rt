/// The table of a configuration in which a component stands.
#[derive(Clone, Copy, PartialEq, Eq, Debug)]
pub enum Class {
    /// It takes in bytes and makes events of them.
    Source,
    /// It makes events of events.
    Transform,
    /// It writes events out.
    Sink,
}
