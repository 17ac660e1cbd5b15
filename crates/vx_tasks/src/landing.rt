use crate::confirming::Confirmed;
use crate::task::Task;
use std::snapshot::Snapshot;
use vx_ends::Reply;
use vx_ledger::Parcel;
use vx_places::Line;
use vx_sourcecore::Turned;
use vx_value::{Bytes, ItemList};

/// Sets of ports, each as a number with their bits.
pub type PortsList = ItemList<u128>;

/// What the port did in a call of `work`, beside the confirm.
#[derive(Drop)]
pub enum Done {
    /// There was nothing to do, or nothing that the instance can do.
    Nothing,
    /// A source took something, or didn't.
    Read(Turned),
    /// A sink gave the first `sent` of these bytes, and the device answered.
    Attempted {
        all: Snapshot<Bytes>,
        sent: u64,
        reply: Reply,
    },
    /// A transform judged what it holds, each parcel by its event: the bits of the ports on which it is put out, in order, 0 where it
    /// is discarded.
    Judged(PortsList),
    /// The port is closed.
    Closed,
    /// No memory was found to confirm, to read, to write or to judge, and nothing was confirmed, taken, given or put out for want of
    /// it.
    OutOfMemory,
    /// No memory was found in the midst of an attempt. The port was given the first bytes of it, at least one, which no entry tells,
    /// and is closed.
    Starved,
}

/// A task that comes back, with what was done, and what the instance holds.
pub struct Landing<P> {
    pub instance: u32,
    pub worker: u32,
    pub task: Task<P>,
    pub held: Line<Parcel>,
    /// The confirm that was made before, or failed. There is none where none was asked, or no memory was found for it.
    pub confirmed: Option<Confirmed>,
    pub done: Done,
}
