use crate::group_key::GroupKey;
use vx_ledger::Parcel;

// A parcel that found no place among groups, and the key that it came with.
pub(crate) struct Refused {
    pub(crate) key: GroupKey,
    pub(crate) parcel: Parcel,
}
