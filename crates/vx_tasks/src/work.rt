ghost use Rattle.std.specs.Prelude.{◌≡◌, ◌⊎◌, ◌<◌, ◌++◌, ℕ, List, length, IfOk, OnOk, true, false};
ghost use Rattle.vx_record.specs.Records.{Record};
ghost use Rattle.vx_record.specs.Legal.{IsLegal};
ghost use Rattle.vx_record.specs.Installs.{device_at};
ghost use Rattle.vx_ledger.specs.declared.parcel.Parcel.{Parcel};
ghost use Rattle.vx_sourcecore.specs.declared.source.SourceCore.{SourceCore};
ghost use Rattle.vx_sourcecore.specs.Abreast.{HasTurned};
ghost use Rattle.vx_sourcecore.specs.Generators.{HasMade};
ghost use Rattle.vx_tasks.specs.Observing.{IsObserved};
ghost use Rattle.vx_tasks.specs.Out.{HasLeft, HasDone, ReportsDone, HasActed, HasRoleTurned, is_unfit, lacks_cut};
ghost use Rattle.vx_ends.specs.Observation.{Observation};
ghost use Rattle.vx_plan.specs.declared.settings.Settings.{Settings};
ghost use Rattle.vx_plan.specs.Options.{conditions_of};
ghost use Rattle.vx_pick.specs.Picks.{Picks, StandsFor, AreMeant};
ghost use Rattle.vx_value.specs.declared.event.Event.{Event};
ghost use Rattle.vx_tasks.specs.Doing.{MayAct, written, events_in, AllPicked};
ghost use Rattle.vx_tasks.specs.Jobs.{DoesJob, IsPortedAs, LacksConfirm, KeepsRole, NoneFell, ShowsAlone, ShowsDone, ShowsWork, StartsNone, StartsOnce};
ghost use Rattle.vx_tasks.specs.declared.landing.Done.{Done};
ghost use Rattle.vx_tasks.specs.declared.task.Role.{Role};
ghost use Rattle.vx_tasks.specs.declared.work.Job.{Job};

use crate::confirming::confirm;
use crate::landing::{Done, Landing, PortsList};
use crate::sending::attempt;
use crate::task::{Role, Task};
use crate::writer::Writer;
use std::alloc::Global;
use std::snapshot::Snapshot;
use vx_ends::{Clock, Port, PositionList, Reply};
use vx_json::{Codec, encode_event};
use vx_ledger::Parcel;
use vx_pick::Picker;
use vx_places::Line;
use vx_sourcecore::{Generator, SourceCore, Turned};
use vx_value::{Bytes, WantOfMemory};

/// What a leased instance has to do.
#[derive(Clone, Copy, PartialEq, Eq, Debug)]
pub enum Job {
    /// Read its port.
    Read,
    /// Nothing but to confirm what is due.
    Confirm,
    /// Wait for more parcels.
    Collect,
    /// Write its sink batch.
    Attempt,
    /// Judge what it holds.
    Judge,
    /// Close its port.
    Close,
}

/// An instance that is out: its task, what it holds, and what is to be done.
pub struct Work<P> {
    pub instance: u32,
    pub worker: u32,
    pub task: Task<P>,
    pub held: Line<Parcel>,
    /// What is confirmed before that.
    pub positions: Option<PositionList>,
    pub job: Job,
}

impl<P: Port> Work<P> {
    /// Does the work, without the hub: confirms what is due, and then reads, writes or closes the port, as the job says, or does
    /// nothing where the instance can't do that job. Where no memory is found for the confirm, nothing else is done. What the instance
    /// holds comes back as it left. docs/DEFINITIONS.md has what is meant by a task as it left and as it comes back.
    pub fn work<C: Clock>(self, alloc: Global, _clock: &C) -> Landing<P>
        ensures instance { result.instance ≡ self.instance }
        ensures worker { result.worker ≡ self.worker }
        ensures held { result.held ≡ self.held }
        ensures does { DoesJob self.job self.task.role result.done
            ⊎ LacksConfirm self.positions result.confirmed result.done }
        ensures role { KeepsRole self.task.role result.task.role result.done }
        ensures counts { NoneFell (P.observed self.task.port) (P.observed result.task.port) }
        ensures starts { StartsOnce (P.observed self.task.port) (P.observed result.task.port) }
        ensures shows { ShowsWork self.task.role (P.observed self.task.port)
            (P.observed result.task.port) result.done }
        ensures done { (h : Record) → IsLegal h → HasLeft P.observed h self → HasDone P.observed h result }
    {
        let Work {
            instance,
            worker,
            task,
            held,
            positions,
            job,
        } = self;
        let Task { mut port, role } = task;
        let (confirmed, work_result) = match confirm(&mut port, positions) {
            Ok(confirmed) => (confirmed, act(alloc, job, &mut port, role, &held)),
            Err(WantOfMemory) => (
                None,
                WorkResult {
                    role,
                    done: Done::OutOfMemory,
                },
            ),
        };
        Landing {
            instance,
            worker,
            task: Task {
                port,
                role: work_result.role,
            },
            held,
            confirmed,
            done: work_result.done,
        }
    }
}

/// What an instance does with its port from now on, and what was done.
#[derive(Drop)]
struct WorkResult {
    role: Role,
    done: Done,
}

/// Does a job with a port.
fn act<P: Port>(
    alloc: Global,
    job: Job,
    port: &mut P,
    role: Role,
    held: &Line<Parcel>,
) -> WorkResult
    ensures observed { (h : Record) (i : ℕ) → IsPortedAs (device_at h i) role →
        IsObserved (P.observed port.old) h i → ReportsDone (P.observed port.new) h i held.now.items result.done }
    ensures acted { (h : Record) (i : ℕ) → MayAct (P.observed port.old) h i role held.now.items job →
        HasActed (P.observed port.new) h i result.role result.done }
    ensures does { DoesJob job role result.done }
    ensures keeps { KeepsRole role result.role result.done }
    ensures counts { NoneFell (P.observed port.old) (P.observed port.new) }
    ensures starts { StartsOnce (P.observed port.old) (P.observed port.new) }
    ensures shows { ShowsWork role (P.observed port.old) (P.observed port.new) result.done }
{
    match (job, role) {
        (Job::Read, Role::Source(core)) => read(port, core),
        (Job::Read, Role::Generator(generator)) => make(generator),
        (Job::Attempt, Role::Sink(writer)) => send(alloc, port, writer, held),
        (Job::Attempt, Role::Blackhole) => WorkResult {
            role: Role::Blackhole,
            done: write_nothing(alloc),
        },
        (Job::Judge, Role::Transform(picker)) => judge(alloc, picker, held),
        (Job::Close, role) => WorkResult {
            role,
            done: close(port),
        },
        (_, role) => WorkResult {
            role,
            done: Done::Nothing,
        },
    }
}

/// Judges what a transform holds. Where no memory was found nothing is put out, though what it keeps may stand for some of that.
fn judge(alloc: Global, picker: Picker, held: &Line<Parcel>) -> WorkResult
    ensures observed { (observed : Observation) (h : Record) (i : ℕ) → IsObserved observed h i →
        ReportsDone observed h i held.now.items result.done }
    ensures acted { (observed : Observation) (h : Record) (i : ℕ) →
        MayAct observed h i (Role.Transform picker) held.now.items Job.Judge →
        HasActed observed h i result.role result.done }
    ensures does { DoesJob Job.Judge (Role.Transform picker) result.done }
    ensures keeps { KeepsRole (Role.Transform picker) result.role result.done }
    ensures shows { (observed : Observation) → ShowsDone observed observed result.done }
{
    let mut picker = picker;
    let done = match judge_all(alloc, &mut picker, held) {
        Ok(ports) => Done::Judged(ports),
        Err(WantOfMemory) => Done::OutOfMemory,
    };
    WorkResult {
        role: Role::Transform(picker),
        done,
    }
}

/// The ports on which each of some parcels is put out, in order, by their events and those that came before.
fn judge_all(
    alloc: Global,
    picker: &mut Picker,
    parcels: &Line<Parcel>,
) -> Result<PortsList, WantOfMemory>
    ensures ports { IfOk result
        (λ ports. (settings : Settings) (earlier : List Event) → Picks settings picker.old →
        StandsFor picker.old earlier →
        AllPicked settings earlier (events_in parcels.now.items) ports) }
    ensures meant { OnOk result
        ((settings : Settings) → Picks settings picker.old → 0 < length parcels.now.items →
        AreMeant (conditions_of settings)) }
    ensures stands { OnOk result
        ((earlier : List Event) → StandsFor picker.old earlier →
        StandsFor picker.new (earlier ++ events_in parcels.now.items)) }
    ensures picks { (settings : Settings) → Picks settings picker.old → Picks settings picker.new }
{
    let mut ports = PortsList::new(alloc);
    for i in 0..parcels.len() {
        if let Some(parcel) = parcels.get(i) {
            let on = picker.ports_for(alloc, parcel.event.get())?;
            let Ok(()) = ports.push(on) else {
                return Err(WantOfMemory);
            };
        }
    }
    Ok(ports)
}

/// Takes from a source's port. Where no memory was found to cut what was taken, the source is of no use any more.
fn read<P: Port>(port: &mut P, core: SourceCore) -> WorkResult
    ensures observed { (h : Record) (i : ℕ) (parcels : List Parcel) → device_at h i ≡ true →
        IsObserved (P.observed port.old) h i → ReportsDone (P.observed port.new) h i parcels result.done }
    ensures acted { (h : Record) (i : ℕ) (parcels : List Parcel) →
        MayAct (P.observed port.old) h i (Role.Source core) parcels Job.Read →
        HasActed (P.observed port.new) h i result.role result.done }
    ensures does { DoesJob Job.Read (Role.Source core) result.done }
    ensures keeps { KeepsRole (Role.Source core) result.role result.done }
    ensures counts { NoneFell (P.observed port.old) (P.observed port.new) }
    ensures starts { StartsOnce (P.observed port.old) (P.observed port.new) }
    ensures shows { ShowsDone (P.observed port.old) (P.observed port.new) result.done }
{
    let mut core = core;
    match core.turn(port) {
        Ok(turned) => WorkResult {
            role: role_behind(core, &turned),
            done: Done::Read(turned),
        },
        Err(WantOfMemory) => WorkResult {
            role: Role::Source(core),
            done: Done::OutOfMemory,
        },
    }
}

/// Makes the next lines of a source that needs no port. Where no memory was found to cut what was made, the source is of no use any
/// more.
fn make(generator: Generator) -> WorkResult
    ensures observed { (observed : Observation) (h : Record) (i : ℕ) (parcels : List Parcel) →
        device_at h i ≡ false → IsObserved observed h i → ReportsDone observed h i parcels result.done }
    ensures acted { (observed : Observation) (h : Record) (i : ℕ) (parcels : List Parcel) →
        MayAct observed h i (Role.Generator generator) parcels Job.Read →
        HasActed observed h i result.role result.done }
    ensures does { DoesJob Job.Read (Role.Generator generator) result.done }
    ensures keeps { KeepsRole (Role.Generator generator) result.role result.done }
    ensures shows { (observed : Observation) → ShowsAlone observed observed result.done }
{
    let mut generator = generator;
    match generator.turn() {
        Ok(turned) => WorkResult {
            role: role_of_made(generator, &turned),
            done: Done::Read(turned),
        },
        Err(WantOfMemory) => WorkResult {
            role: Role::Generator(generator),
            done: Done::OutOfMemory,
        },
    }
}

/// What a source does that made these lines.
fn role_of_made(generator: Generator, turned: &Turned) -> Role
    ensures made { (h : Record) (i : ℕ) → device_at h i ≡ false → HasMade h i generator turned.now →
        HasRoleTurned h i result turned.now }
    ensures keeps { (old : Generator) →
        KeepsRole (Role.Generator old) result (Done.Read turned.now) }
    ensures fit { is_unfit result ≡ lacks_cut turned.now }
{
    if is_uncut(turned) {
        Role::Unfit
    } else {
        Role::Generator(generator)
    }
}

/// Takes what a black hole holds: nothing of it is written.
fn write_nothing(alloc: Global) -> Done
    ensures observed { (observed : Observation) (h : Record) (i : ℕ) (parcels : List Parcel) →
        device_at h i ≡ false → IsObserved observed h i → ReportsDone observed h i parcels result }
    ensures acted { (observed : Observation) (h : Record) (i : ℕ) (parcels : List Parcel) →
        MayAct observed h i Role.Blackhole parcels Job.Attempt →
        HasActed observed h i Role.Blackhole result }
    ensures does { DoesJob Job.Attempt Role.Blackhole result }
    ensures shows { (observed : Observation) → ShowsAlone observed observed result }
{
    let none = Bytes::new(alloc);
    Done::Attempted {
        all: Snapshot::of(&none),
        sent: 0,
        reply: Reply::Ok,
    }
}

/// What an instance does that took this turn.
fn role_behind(core: SourceCore, turned: &Turned) -> Role
    ensures turned { (h : Record) (i : ℕ) → device_at h i ≡ true → HasTurned h i core turned.now →
        HasRoleTurned h i result turned.now }
    ensures keeps { (old : SourceCore) → KeepsRole (Role.Source old) result (Done.Read turned.now) }
    ensures fit { is_unfit result ≡ lacks_cut turned.now }
{
    if is_uncut(turned) {
        Role::Unfit
    } else {
        Role::Source(core)
    }
}

/// Whether something was taken, and no memory was found to cut it.
fn is_uncut(turned: &Turned) -> bool
    ensures { result ≡ lacks_cut turned.now }
{
    match turned {
        Turned::Lines { cut, .. }
        | Turned::StreamEnded { cut, .. }
        | Turned::AllEnded { cut, .. } => cut.is_none(),
        Turned::Idle | Turned::Failed { .. } => false,
    }
}

/// Closes a port.
fn close<P: Port>(port: &mut P) -> Done
    ensures closed { result ≡ Done.Closed }
    ensures observed { (h : Record) (i : ℕ) → IsObserved (P.observed port.old) h i →
        IsObserved (P.observed port.new) h i }
    ensures shut { (P.observed port.new).started ≡ false }
    ensures counts { NoneFell (P.observed port.old) (P.observed port.new) }
    ensures starts { StartsNone (P.observed port.old) (P.observed port.new) }
{
    port.close();
    Done::Closed
}

/// Writes a sink batch, in the memory of the one before.
fn send<P: Port>(alloc: Global, port: &mut P, writer: Writer, held: &Line<Parcel>) -> WorkResult
    ensures observed { (h : Record) (i : ℕ) → device_at h i ≡ true → IsObserved (P.observed port.old) h i →
        ReportsDone (P.observed port.new) h i held.now.items result.done }
    ensures acted { (h : Record) (i : ℕ) →
        MayAct (P.observed port.old) h i (Role.Sink writer) held.now.items Job.Attempt →
        HasActed (P.observed port.new) h i result.role result.done }
    ensures does { DoesJob Job.Attempt (Role.Sink writer) result.done }
    ensures keeps { KeepsRole (Role.Sink writer) result.role result.done }
    ensures counts { NoneFell (P.observed port.old) (P.observed port.new) }
    ensures starts { StartsOnce (P.observed port.old) (P.observed port.new) }
    ensures shows { ShowsDone (P.observed port.old) (P.observed port.new) result.done }
{
    let codec = writer.codec();
    let Ok(bytes) = encode(codec, held, writer.into_room()) else {
        return WorkResult {
            role: Role::Sink(Writer::new(alloc, codec)),
            done: Done::OutOfMemory,
        };
    };
    let all = Snapshot::of(&bytes);
    let answer = attempt(port, bytes.as_slice());
    let role = Role::Sink(Writer::behind(alloc, codec, bytes));
    match answer {
        Ok(attempted) => WorkResult {
            role,
            done: Done::Attempted {
                all,
                sent: attempted.sent,
                reply: attempted.reply,
            },
        },
        Err(short) if short.sent == 0 => WorkResult {
            role,
            done: Done::OutOfMemory,
        },
        Err(_) => WorkResult {
            role,
            done: Done::Starved,
        },
    }
}

/// What parcels are written as in some room: each of their events by a codec, the oldest first.
fn encode(codec: Codec, parcels: &Line<Parcel>, room: Bytes) -> Result<Bytes, WantOfMemory>
    ensures { IfOk result (λ bytes. bytes ≡ written codec parcels.now.items) }
{
    let mut out = room;
    out.clear();
    for i in 0..parcels.len() {
        if let Some(parcel) = parcels.get(i) {
            encode_event(codec, parcel.event.get(), &mut out)?;
        }
    }
    Ok(out)
}
