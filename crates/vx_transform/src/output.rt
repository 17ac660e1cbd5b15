use vx_ledger::Parcel;

/// A parcel that is put out.
pub struct Output {
    /// The bits of the ports on which it is put out.
    pub ports: u128,
    pub parcel: Parcel,
}
