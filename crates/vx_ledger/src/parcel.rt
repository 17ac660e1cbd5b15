use crate::finalizers::Finalizers;
use crate::shared_event::SharedEvent;

/// An event, and the finalizers of the copies that stand behind it.
pub struct Parcel {
    pub event: SharedEvent,
    pub finalizers: Finalizers,
}
