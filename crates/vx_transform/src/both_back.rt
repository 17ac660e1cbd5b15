use vx_ledger::Parcel;

/// No memory was found for two parcels. Both come back whole.
pub struct BothBack {
    pub first: Parcel,
    pub second: Parcel,
}
