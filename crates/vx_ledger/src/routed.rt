use crate::child::ChildList;
use crate::parcel::Parcel;

/// What became of a parcel that was put on some ports of an outlet.
pub enum Routed {
    /// One child for each target.
    Children(ChildList),
    /// None of the ports has a target. The parcel comes back whole.
    NoConsumer(Parcel),
}
