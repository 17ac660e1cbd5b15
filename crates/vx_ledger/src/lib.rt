//! The ledger of copies: finalizers, which must be spent, and the open batches that they belong to.
#![tactic(auto)]

mod alone;
mod batches;
mod child;
mod children;
mod finalizer;
mod finalizers;
mod merge_refused;
mod notice;
mod open_batch;
mod outlet;
mod parcel;
mod route;
mod route_refused;
mod routed;
mod rows;
mod shared_event;
mod short;
mod split_refused;

pub use batches::Batches;
pub use child::{Child, ChildList};
pub use finalizer::Finalizer;
pub use finalizers::{Finalizers, FinalizersList};
pub use merge_refused::MergeRefused;
pub use notice::Notice;
pub use open_batch::OpenBatch;
pub use outlet::Outlet;
pub use parcel::Parcel;
pub use route_refused::RouteRefused;
pub use routed::Routed;
pub use shared_event::{SharedEvent, SharedEventList};
pub use short::Short;
pub use split_refused::SplitRefused;
