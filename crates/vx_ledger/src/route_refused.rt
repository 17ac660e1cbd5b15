use crate::parcel::Parcel;
use crate::short::Short;

/// A route that was not made, and the parcel that was to be routed.
pub struct RouteRefused {
    pub cause: Short,
    pub parcel: Parcel,
}
