/// How a sink writes an event.
#[derive(Clone, Copy, PartialEq, Eq, Debug)]
pub enum Codec {
    /// The event as JSON, and a line feed.
    Json,
    /// Its message, and a line feed.
    Text,
}
