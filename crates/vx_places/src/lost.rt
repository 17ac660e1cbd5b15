use vx_ledger::Finalizer;

/// A copy that was taken from a parcel, to spend it.
pub struct Lost {
    pub copy: Finalizer,
    /// Whether no other copy of the parcel is left.
    pub last: bool,
}
