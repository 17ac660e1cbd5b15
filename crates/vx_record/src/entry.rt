use crate::abandon_cause::AbandonCause;
use crate::child::ChildList;
use crate::instance::InstanceList;
use crate::output::OutputList;
use crate::taken::Taken;
use vx_ends::{PositionList, Reply};
use vx_plan::Plan;
use vx_status::{BatchStatus, Outcome};
use vx_value::{Bytes, Event, EventList, NumberList};

/// An entry of the record: one atomic step of a run. Moments are in milliseconds of the run's clock.
#[derive(Drop)]
pub enum Entry {
    /// A plan came into force. `version` counts the installs from 0.
    Install {
        version: u64,
        plan: Plan,
        once: bool,
        instances: InstanceList,
        now: u64,
    },
    /// An instance was handed out to a worker. `polls` counts the polls of the control so far.
    Lease {
        instance: u32,
        worker: u32,
        now: u64,
        polls: u64,
    },
    /// It came back.
    Home {
        instance: u32,
    },
    /// A source took bytes, or was told an end.
    Read {
        instance: u32,
        stream: u64,
        taken: Taken,
    },
    /// A source's port had nothing, or failed to start.
    Idle {
        instance: u32,
        start_failed: bool,
    },
    /// A source was lost after so many bytes.
    SourceLost {
        instance: u32,
        at: u64,
        start_failed: bool,
    },
    /// A source made a batch of events, which ends at a position of a stream.
    Born {
        instance: u32,
        batch: u64,
        place: u64,
        copies: NumberList,
        events: EventList,
        waits: bool,
        stream: u64,
        end: u64,
    },
    /// An output was replaced by children for its targets. The bits of `ports` are the ports on which it was put out.
    Split {
        instance: u32,
        ports: u128,
        copies: NumberList,
        event: Event,
        children: ChildList,
    },
    /// A child entered a stage of its target's buffer.
    Push {
        instance: u32,
        target: u32,
        stage: u32,
        copies: NumberList,
    },
    /// An instance took from a stage of its buffer.
    Take {
        instance: u32,
        stage: u32,
        copies: NumberList,
    },
    /// The moment came at which a transform acts by itself.
    Tick {
        instance: u32,
        now: u64,
    },
    /// A transform answered what it took since its last answer, and the tick: what it puts out, and the copies that it
    /// discards and those that it keeps. Where it was given nothing since then, it was flushed.
    Answer {
        instance: u32,
        outputs: OutputList,
        discarded: NumberList,
        kept: NumberList,
    },
    /// A sink gave bytes for the copies that it holds.
    Attempt {
        instance: u32,
        copies: NumberList,
        bytes: Bytes,
        reply: Reply,
    },
    /// A copy was spent, at the instance that held it.
    Spent {
        instance: u32,
        copy: u64,
        outcome: Outcome,
    },
    /// The last live copy of a batch was just spent.
    Notice {
        batch: u64,
        status: BatchStatus,
    },
    /// Positions were confirmed to a source's port, if it was `made`.
    Confirm {
        instance: u32,
        positions: PositionList,
        made: bool,
    },
    /// An instance's port was closed.
    Closed {
        instance: u32,
    },
    /// An instance ended.
    Retired {
        instance: u32,
    },
    /// The run was abandoned.
    Abandon {
        cause: AbandonCause,
    },
}
