use vx_value::Bytes;

/// What a read took from its port.
#[derive(Drop)]
pub enum Taken {
    /// Bytes of the stream.
    Bytes(Bytes),
    /// The end of the stream.
    StreamEnded,
    /// The end of every stream.
    AllEnded,
}
