/// How a source makes an event of a line.
#[derive(Clone, Copy, PartialEq, Eq, Debug)]
pub enum Decoding {
    /// The line is the message.
    Bytes,
    /// The line is the event, as JSON.
    Json,
}
