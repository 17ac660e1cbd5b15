//! What an instance keeps whose transform takes several parcels at once: the groups of a reduce, or the way to a transform that the
//! program hands in.
#![tactic(auto)]

mod giving;
mod host_list;
mod host_transform;
mod hosted;
mod hosting;
mod hosts;
mod keeper;
mod laws;
mod line_transform;
mod losing;
mod maker;
mod named_hosts;
mod numbering;
mod store;

pub use host_list::HostList;
pub use host_transform::HostTransform;
pub use hosted::Hosted;
pub use hosts::Hosts;
pub use keeper::Keeper;
pub use laws::keeping_laws;
pub use line_transform::LineTransform;
pub use named_hosts::NamedHosts;
pub use numbering::Numbering;
