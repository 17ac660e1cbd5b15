use crate::group_key::GroupKey;
use vx_ledger::SharedEvent;

// What is to become of an event.
pub(crate) struct Plan {
    // Whether there is a group of its key.
    pub(crate) found: bool,
    pub(crate) starts: bool,
    pub(crate) ends: bool,
    pub(crate) key: GroupKey,
    // The event that its group is merged to with it.
    pub(crate) event: SharedEvent,
}
