//! The engine of a run: it leases work out, lands it, moves parcels on, and gives a run up, each change an entry of the record.
#![tactic(auto)]

mod beginning;
mod checks;
mod collecting;
mod dropping;
mod due;
mod ending;
mod fatal;
mod hub;
mod land;
mod laws;
mod leasing;
mod making;
mod merging;
mod parts;
mod pushing;
mod ready;
mod remains;
mod reporting;
mod slots;

pub use fatal::Fatal;
pub use hub::Hub;
pub use laws::engine_laws;
pub use making::merges;
pub use parts::{
    KeeperList, Named, NamedList, NewRefused, Numbered, NumberedList, Parts, PickerList,
};
pub use remains::Remains;
pub use slots::end_keepers;
