use vx_ledger::Parcel;

/// No memory was found for a parcel. It comes back whole.
pub struct Back {
    pub parcel: Parcel,
}
