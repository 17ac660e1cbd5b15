use vx_sourcecore::Prefix;

/// How far a source has come.
#[derive(Drop)]
pub struct Progress {
    /// How many of its batches have no notice yet.
    pub unnoticed: u64,
    /// Which of its batches may be confirmed.
    pub prefix: Prefix,
}
