ghost use Rattle.std.specs.Prelude.{◌≡◌, ◌==◌, ◌<◌, ◌+◌, ◌⊎◌, ◌||◌, ◌&&◌, not, if◌then◌else◌, ℕ, Bool, true, false, List, [], ◌∷◌, length, IfOk, IfSome, IfNone, IsSome, Some, None, is_some, slice_get, count_by};
ghost use Rattle.vx_value.specs.Texts.{ByteString, is_empty};
ghost use Rattle.vx_record.specs.Records.{Record, capped};
ghost use Rattle.vx_record.specs.Legal.{IsLegal};
ghost use Rattle.vx_record.specs.Installs.{source_at};
ghost use Rattle.vx_record.specs.Reads.{bytes_taken, bytes_of, is_end};
ghost use Rattle.vx_record.specs.Parcels.{first_copy};
ghost use Rattle.vx_record.specs.Tallies.{is_batch_of, is_first, is_newest, is_unread};
ghost use Rattle.vx_record.specs.Turns.{lease_now};
ghost use Rattle.vx_record.specs.SinkBatches.{is_failed as is_failed_by};
ghost use Rattle.vx_record.specs.Shifts.{at};
ghost use Rattle.vx_record.specs.Places.Place.{Outputs, Waiting, Held};
ghost use Rattle.vx_plan.specs.declared.class.Class.TheVariants.{Sink};
ghost use Rattle.vx_status.specs.declared.outcome.Outcome.TheVariants.{NewestDropped, NoConsumer};
ghost use Rattle.vx_counts.specs.Classes.{class_at, IsGiver};
ghost use Rattle.vx_counts.specs.Spends.{WasPutIn};
ghost use Rattle.vx_record.specs.declared.output.Output.{Output};
ghost use Rattle.vx_record.specs.declared.taken.Taken.{Taken};
ghost use Rattle.vx_ends.specs.declared.position.Position.{Position};
ghost use Rattle.vx_value.specs.declared.event.Event.{Event};
ghost use Rattle.vx_record.specs.declared.entry.Entry.TheVariants as Entry;
ghost use Rattle.vx_counts.specs.Meets.{Meets};
ghost use Rattle.vx_sourcecore.specs.NewLines.{AreNew};
ghost use Rattle.vx_tasks.specs.Out.{AreDue};
ghost use Rattle.vx_record.specs.declared.entry.Entry.TheVariants.{Lease, Home, Read, Idle, SourceLost, Born, Take, Answer, Attempt, Spent, Confirm, Closed, Retired};
ghost use Rattle.vx_plan.specs.declared.plan.Plan.{Plan};
ghost use Rattle.vx_plan.specs.Accepted.{IsPlan};
ghost use Rattle.vx_record.specs.Wirings.{begun};
ghost use Rattle.vx_instances.specs.Beginning.{AreFresh};
ghost use Rattle.vx_instances.specs.Knowing.{Knows};
ghost use Rattle.vx_instances.specs.Staying.{EachState, OneState, Stays, IsLeft, IsShut, HasRead};
ghost use Rattle.vx_instances.specs.Calls.{CountsAt, IsSettledAt, IsShutAt, HadUnleasedTask, HadNobody, HasTaskBack, HasPlaceFor};

use crate::state::{InstanceState, shut_port, take_task};
use std::alloc::Global;
use std::marker::Model;
use vx_counts::Counts;
use vx_ends::{Port, Position, PositionList, Reply};
use vx_ledger::Notice;
use vx_plan::Class;
use vx_sourcecore::{Ends, NewLines};
use vx_status::Outcome;
use vx_tasks::Task;
use vx_value::WantOfMemory;

/// What is known of all instances, by their numbers.
///
/// Contracts see the states. `Knows` says that they are as a record has them: what a call ensures is that they are so with its
/// entry. `Stays` says what a call leaves of each state: what its component says, its task, and whether what it owes, what it counts
/// and what its port gave is known; `leave`, `arrive`, `read`, `shut`, `owed` and `mark_starved` say what they change of that.
#[derive(Drop)]
pub struct InstanceStates<P: Port> {
    states: Vec<InstanceState<P>>,
}

impl<P: Port> Model for InstanceStates<P> {
    ghost use Rattle.std.specs.Prelude.{List};
    ghost use Rattle.std.specs.Coded.{codes};
    ghost use Rattle.vx_value.specs.DatumCode.{coded_datum};
    ghost use Rattle.vx_instances.specs.declared.state.InstanceState.{InstanceState};

    ghost Value = { List (InstanceState P) };

    ghost coded = { Prim.hlevel (codes, coded_datum) };

    ghost view = { λ s. s.states.items };
}

impl<P: Port> InstanceStates<P> {
    /// States as they begin. Where they are fresh for a plan that may be installed, they are as a record has them that begins with it.
    pub fn new(states: Vec<InstanceState<P>>) -> Self
        ensures size { length result ≡ length states.items }
        ensures same { result ≡ states.items }
        ensures knows { (plan : Plan) → (once : Bool) → (now : ℕ) → IsPlan plan →
            AreFresh P.observed plan once states.items → Knows P.observed result (begun plan once now) }
    {
        InstanceStates { states }
    }

    /// How many instances there are.
    pub fn len(&self) -> usize
        ensures { result ≡ length self.now }
    {
        self.states.len()
    }

    /// What is known of an instance.
    pub fn get(&self, i: u32) -> &InstanceState<P>
        requires { i < length self.now }
        ensures { slice_get self.now i ≡ Some result.now }
    {
        &self.states[i as usize]
    }

    /// Takes the task of an instance along, with what is to be confirmed to its port, if it is unleased. It is leased with that at
    /// a moment, in milliseconds.
    pub fn leave(&mut self, i: u32, now: u64) -> Option<(Task<P>, Option<PositionList>)>
        requires { i < length self.old }
        ensures size { length self.new ≡ length self.old }
        ensures left { IfSome result (λ r. OneState (IsLeft r.0) i self.old self.new) }
        ensures unleased { IfSome result
            (λ r. (h : Record) → Knows P.observed self.old h → HadUnleasedTask P.observed self.old h i r.0) }
        ensures due { IfSome result
            (λ r. (h : Record) → (worker polls : ℕ) → IsSettledAt self.old i →
            Knows P.observed self.old h → IsLegal (Lease i worker now polls ∷ h) →
            AreDue (Lease i worker now polls ∷ h) i r.1) }
        ensures knows { IfSome result
            (λ r. (h : Record) → (worker polls : ℕ) → Knows P.observed self.old h →
            IsLegal (Lease i worker now polls ∷ h) →
            Knows P.observed self.new (Lease i worker now polls ∷ h)) }
        ensures nobody { IfNone result (HadNobody self.old i) }
        ensures same { IfNone result (self.new ≡ self.old) }
    {
        take_task(&mut self.states[i as usize], now)
    }

    /// Brings the task of an instance back.
    pub fn arrive(&mut self, i: u32, task: Task<P>)
        requires { i < length self.old }
        ensures size { length self.new ≡ length self.old }
        ensures back { OneState (λ was is. is ≡ record was { task = Some task }) i self.old
            self.new }
        ensures knows { (h : Record) → HasTaskBack P.observed self.old h i task →
            Knows P.observed self.old h → IsLegal (Home i ∷ h) → Knows P.observed self.new (Home i ∷ h) }
    {
        self.states[i as usize].task = Some(task);
    }

    /// A source took so many bytes, or was told an end, and that completed some lines; or memory was wanting for these, and then what
    /// it counts isn't known any more. `all` tells the end of all. The source rests for its interval from its lease on.
    pub fn read(&mut self, i: u32, bytes: u64, new: Option<NewLines>, all: bool)
        requires { i < length self.old }
        ensures size { length self.new ≡ length self.old }
        ensures stays { OneState (HasRead (not (is_some new))) i self.old self.new }
        ensures knows { (h : Record) → (stream : ℕ) → (took : Taken) →
            bytes ≡ capped (length (bytes_of took)) → all ≡ is_end took →
            IfSome new (AreNew h i stream took) → Knows P.observed self.old h →
            IsLegal (Read i stream took ∷ h) → Knows P.observed self.new (Read i stream took ∷ h) }
    {
        let state = &mut self.states[i as usize];
        let counted = count_read(&mut state.counts, bytes, new);
        state.facts.behind = either(!counted, state.facts.behind);
        state.facts.over = either(all, state.facts.over);
        state.facts.failed_starts = 0;
        state.facts.reads_from = state.facts.leased_at.saturating_add(state.interval);
    }

    /// Takes the memory for one batch more of a source, which ends at a position, and for its notice.
    pub fn prepare(
        &mut self,
        i: u32,
        alloc: Global,
        position: Position,
    ) -> Result<Ends, WantOfMemory>
        requires { i < length self.old }
        ensures size { length self.new ≡ length self.old }
        ensures stays { EachState Stays self.old self.new }
        ensures ready { IfOk result (HasPlaceFor self.new i position) }
        ensures knows { (h : Record) → Knows P.observed self.old h → Knows P.observed self.new h }
    {
        self.states[i as usize]
            .progress
            .prefix
            .prepare(alloc, position)
    }

    /// A source created a batch of so many events, for which memory was taken.
    pub fn born(&mut self, i: u32, batch: u64, ends: Ends, events: u64)
        requires within { i < length self.old }
        requires ready { (position : Position) × HasPlaceFor self.old i position ends }
        ensures size { length self.new ≡ length self.old }
        ensures stays { EachState Stays self.old self.new }
        ensures knows { (h : Record) → (place stream end : ℕ) → (copies : List ℕ) →
            (made : List Event) → (waits : Bool) →
            HasPlaceFor self.old i (record { stream = stream; end = end }) ends →
            events ≡ capped (length made) → Knows P.observed self.old h →
            IsLegal (Born i batch place copies made waits stream end ∷ h) →
            Knows P.observed self.new (Born i batch place copies made waits stream end ∷ h) }
    {
        let state = &mut self.states[i as usize];
        state.counts.created_batch(events);
        state.progress.unnoticed = state.progress.unnoticed.saturating_add(1);
        state.progress.prefix.born(batch, ends);
    }

    /// A batch has its notice. The notice is told to the instance that created it.
    pub fn noticed(&mut self, notice: Notice)
        requires { notice.instance < length self.old }
        ensures size { length self.new ≡ length self.old }
        ensures stays { EachState Stays self.old self.new }
        ensures knows { (h : Record) → is_batch_of h notice.instance notice.batch ≡ true →
            Knows P.observed self.old h → IsLegal (Entry.Notice notice.batch notice.status ∷ h) →
            Knows P.observed self.new (Entry.Notice notice.batch notice.status ∷ h) }
    {
        let state = &mut self.states[notice.instance as usize];
        state.counts.noticed(notice.status);
        state.progress.unnoticed = state.progress.unnoticed.saturating_sub(1);
        state.progress.prefix.notice(notice);
    }

    /// The port of an instance is closed for good. It isn't started.
    pub fn closed(&mut self, i: u32)
        requires { i < length self.old }
        ensures size { length self.new ≡ length self.old }
        ensures stays { EachState Stays self.old self.new }
        ensures knows { (h : Record) → IsShutAt P.observed self.old i → Knows P.observed self.old h →
            IsLegal (Closed i ∷ h) → Knows P.observed self.new (Closed i ∷ h) }
    {
        self.states[i as usize].facts.closed = true;
    }

    /// Closes the port of an instance, if it is unleased.
    pub fn shut(&mut self, i: u32)
        requires { i < length self.old }
        ensures size { length self.new ≡ length self.old }
        ensures shut { IsShutAt P.observed self.new i }
        ensures stays { OneState IsShut i self.old self.new }
        ensures knows { (h : Record) → Knows P.observed self.old h → Knows P.observed self.new h }
    {
        shut_port(&mut self.states[i as usize]);
    }

    /// An instance ended.
    pub fn retired(&mut self, i: u32)
        requires { i < length self.old }
        ensures size { length self.new ≡ length self.old }
        ensures stays { EachState Stays self.old self.new }
        ensures knows { (h : Record) → Knows P.observed self.old h → IsLegal (Retired i ∷ h) →
            Knows P.observed self.new (Retired i ∷ h) }
    {
        self.states[i as usize].facts.retired = true;
    }

    /// A source found nothing, or its port failed to start. It rests from its lease on.
    pub fn idle(&mut self, i: u32, failed: bool)
        requires { i < length self.old }
        ensures size { length self.new ≡ length self.old }
        ensures stays { EachState Stays self.old self.new }
        ensures knows { (h : Record) → Knows P.observed self.old h → IsLegal (Idle i failed ∷ h) →
            Knows P.observed self.new (Idle i failed ∷ h) }
    {
        let facts = &mut self.states[i as usize].facts;
        facts.failed_starts = starts_after(facts.failed_starts, failed);
        facts.reads_from = facts.leased_at.saturating_add(rest_after(failed));
    }

    /// A source is lost. Answers after how many bytes, at most 2^64 - 1.
    pub fn lost(&mut self, i: u32) -> u64
        requires { i < length self.old }
        ensures size { length self.new ≡ length self.old }
        ensures stays { EachState Stays self.old self.new }
        ensures after { (h : Record) → CountsAt self.old i → source_at h i ≡ true →
            Knows P.observed self.old h → result ≡ capped (bytes_taken h i) }
        ensures knows { (h : Record) → (failed : Bool) → Knows P.observed self.old h →
            IsLegal (SourceLost i result failed ∷ h) →
            Knows P.observed self.new (SourceLost i result failed ∷ h) }
    {
        let state = &mut self.states[i as usize];
        let after = state.counts.tally.read;
        state.facts.lost = Some(after);
        after
    }

    /// An instance took a parcel at a moment, in milliseconds, that of its lease. `first` says that it held none before.
    pub fn took(&mut self, i: u32, now: u64, first: bool)
        requires { i < length self.old }
        ensures size { length self.new ≡ length self.old }
        ensures stays { EachState Stays self.old self.new }
        ensures knows { (h : Record) → (s : ℕ) → (copies : List ℕ) →
            first ≡ is_empty (at h (Held i)) → now ≡ lease_now h i → Knows P.observed self.old h →
            IsLegal (Take i s copies ∷ h) → Knows P.observed self.new (Take i s copies ∷ h) }
    {
        let state = &mut self.states[i as usize];
        state.counts.took();
        state.facts.since = number_after(state.facts.since, now, first);
        state.facts.failures = number_after(state.facts.failures, 0, first);
        state.facts.failed_at = number_after(state.facts.failed_at, 0, first);
    }

    /// A transform answered: it put out so many parcels, each once whatever its ports, and discarded so many of those that it took.
    pub fn answered(&mut self, i: u32, sent: u64, dropped: u64)
        requires { i < length self.old }
        ensures size { length self.new ≡ length self.old }
        ensures stays { EachState Stays self.old self.new }
        ensures knows { (h : Record) → (outputs : List Output) → (discarded kept : List ℕ) →
            sent ≡ capped (length outputs) → dropped ≡ capped (count_by (is_first h i) discarded) →
            Knows P.observed self.old h → IsLegal (Answer i outputs discarded kept ∷ h) →
            Knows P.observed self.new (Answer i outputs discarded kept ∷ h) }
    {
        self.states[i as usize].counts.answered(sent, dropped);
    }

    /// A copy was spent that an instance held, as answered, discarded or given up. Of a sink `first` says that it came first in the
    /// parcel that was taken: its other copies don't count.
    pub fn spent(&mut self, i: u32, outcome: Outcome, first: bool)
        requires { i < length self.old }
        ensures size { length self.new ≡ length self.old }
        ensures stays { EachState Stays self.old self.new }
        ensures knows { (h : Record) → (c : ℕ) → is_newest outcome ≡ false →
            is_unread outcome ≡ false →
            (class_at h i ≡ Some Sink → first ≡ is_first h i c) → Knows P.observed self.old h →
            IsLegal (Spent i c outcome ∷ h) → Knows P.observed self.new (Spent i c outcome ∷ h) }
    {
        let state = &mut self.states[i as usize];
        let sink = is_sink(state.class);
        count_spent(&mut state.counts, sink, first, outcome);
    }

    /// A copy that an instance put out was spent for want of a reader. `first` says that it came first in the parcel that was put
    /// out: its other copies don't count.
    pub fn unread(&mut self, i: u32, first: bool)
        requires { i < length self.old }
        ensures size { length self.new ≡ length self.old }
        ensures stays { EachState Stays self.old self.new }
        ensures knows { (h : Record) → (c : ℕ) → (copies : List ℕ) →
            WasPutIn h (Outputs i) copies c → first ≡ (c == first_copy copies) →
            Knows P.observed self.old h → IsLegal (Spent i c NoConsumer ∷ h) →
            Knows P.observed self.new (Spent i c NoConsumer ∷ h) }
    {
        let state = &mut self.states[i as usize];
        let sink = is_sink(state.class);
        count_unread(&mut state.counts, sink, first);
    }

    /// A copy that waited for a target was dropped as the newest. `first` says that it came first in the parcel that waited: its other
    /// copies don't count.
    pub fn dropped(&mut self, target: u32, first: bool)
        requires { target < length self.old }
        ensures size { length self.new ≡ length self.old }
        ensures stays { EachState Stays self.old self.new }
        ensures knows { (h : Record) → (i c : ℕ) → (copies : List ℕ) →
            WasPutIn h (Waiting i target) copies c → first ≡ (c == first_copy copies) →
            Knows P.observed self.old h → IsLegal (Spent i c NewestDropped ∷ h) →
            Knows P.observed self.new (Spent i c NewestDropped ∷ h) }
    {
        let state = &mut self.states[target as usize];
        let sink = is_sink(state.class);
        count_dropped(&mut state.counts, sink, first);
    }

    /// A batch that a source read can't be born, or memory was wanting before a confirm, a read or an attempt: what the instance owes
    /// isn't known any more.
    pub fn owed(&mut self, i: u32)
        requires { i < length self.old }
        ensures size { length self.new ≡ length self.old }
        ensures owing { OneState
            (λ was is. is ≡ record was { facts = record was.facts { owing = true } }) i self.old
            self.new }
        ensures knows { (h : Record) → Knows P.observed self.old h → Knows P.observed self.new h }
    {
        self.states[i as usize].facts.owing = true;
    }

    /// Memory was wanting in the midst of an attempt: the port of the instance may have given bytes that no entry tells.
    pub fn mark_starved(&mut self, i: u32)
        requires { i < length self.old }
        ensures size { length self.new ≡ length self.old }
        ensures starved { OneState
            (λ was is. is ≡ record was { facts = record was.facts { starved = true } }) i self.old
            self.new }
        ensures knows { (h : Record) → Knows P.observed self.old h → Knows P.observed self.new h }
    {
        self.states[i as usize].facts.starved = true;
    }

    /// A sink gave its port so many bytes, and was answered.
    pub fn attempted(&mut self, i: u32, bytes: u64, reply: Reply)
        requires { i < length self.old }
        ensures size { length self.new ≡ length self.old }
        ensures stays { EachState Stays self.old self.new }
        ensures knows { (h : Record) → (copies : List ℕ) → (gave : ByteString) →
            bytes ≡ capped (length gave) → Knows P.observed self.old h →
            IsLegal (Attempt i copies gave reply ∷ h) →
            Knows P.observed self.new (Attempt i copies gave reply ∷ h) }
    {
        let state = &mut self.states[i as usize];
        let failed = is_failed(reply);
        state.counts.attempted(bytes);
        state.facts.failures = failures_after(state.facts.failures, failed);
        state.facts.failed_at = number_after(state.facts.failed_at, state.facts.leased_at, failed);
    }

    /// Positions were confirmed to the port of a source, if that was `made`.
    pub fn confirmed(&mut self, i: u32, positions: &PositionList, made: bool)
        requires { i < length self.old }
        ensures size { length self.new ≡ length self.old }
        ensures stays { EachState Stays self.old self.new }
        ensures knows { (h : Record) → Knows P.observed self.old h →
            IsLegal (Confirm i positions.now made ∷ h) →
            Knows P.observed self.new (Confirm i positions.now made ∷ h) }
    {
        let state = &mut self.states[i as usize];
        state.facts.confirm_failed = !made;
        count_confirm(&mut state.counts, positions, made);
    }
}

/// How often in a row a port failed to start, after one more time or a time when it had nothing.
fn starts_after(before: u32, failed: bool) -> u32
    ensures { before < 4 ⊎ (failed ≡ false) → result ≡ (if failed then before + 1 else 0) }
{
    if failed { before.saturating_add(1) } else { 0 }
}

/// How long a source rests that found nothing, or whose port failed to start, in milliseconds.
fn rest_after(failed: bool) -> u64
    ensures { result ≡ (if failed then 1000 else 20) }
{
    if failed { 1000 } else { 20 }
}

/// Whether an attempt failed.
fn is_failed(reply: Reply) -> bool
    ensures { result ≡ is_failed_by reply }
{
    matches!(reply, Reply::Failed)
}

/// How often an attempt of what is held failed, after one more attempt.
fn failures_after(before: u64, failed: bool) -> u64
    ensures { result ≡ capped (before + (if failed then 1 else 0)) }
{
    if failed {
        before.saturating_add(1)
    } else {
        before
    }
}

/// Whether one of two holds.
fn either(a: bool, b: bool) -> bool
    ensures { result ≡ (a || b) }
{
    a || b
}

/// Whether two hold.
fn both(a: bool, b: bool) -> bool
    ensures { result ≡ (a && b) }
{
    a && b
}

/// Whether a class is that of sinks.
fn is_sink(class: Class) -> bool
    ensures yes { result ≡ true → class ≡ Sink }
    ensures no { result ≡ false → class ≡ Sink → ⊥ }
{
    matches!(class, Class::Sink)
}

/// A number that is kept, or the one that is set in its place.
fn number_after(before: u64, now: u64, set: bool) -> u64
    ensures { result ≡ (if set then now else before) }
{
    if set { now } else { before }
}

/// Counts a spend of a copy that was held, if it is that of a sink's first copy.
fn count_spent(counts: &mut Counts, sink: bool, first: bool, outcome: Outcome)
    ensures { (h : Record) → (i c : ℕ) → is_newest outcome ≡ false → is_unread outcome ≡ false →
        IsLegal (Spent i c outcome ∷ h) → (sink ≡ true → class_at h i ≡ Some Sink) →
        (sink ≡ false → class_at h i ≡ Some Sink → ⊥) →
        (class_at h i ≡ Some Sink → first ≡ is_first h i c) →
        Meets i h counts.old.tally → Meets i (Spent i c outcome ∷ h) counts.new.tally }
{
    if both(sink, first) {
        counts.spent(outcome);
    }
}

/// Counts a spend for want of a reader, if it is that of its parcel's first copy.
fn count_unread(counts: &mut Counts, sink: bool, first: bool)
    ensures { (h : Record) → (i c : ℕ) → (copies : List ℕ) → IsLegal (Spent i c NoConsumer ∷ h) →
        (sink ≡ true → class_at h i ≡ Some Sink) → (sink ≡ false → IsGiver (class_at h i)) →
        WasPutIn h (Outputs i) copies c → first ≡ (c == first_copy copies) →
        Meets i h counts.old.tally → Meets i (Spent i c NoConsumer ∷ h) counts.new.tally }
{
    if both(!sink, first) {
        counts.unread();
    }
}

/// Counts a drop of the newest for a sink, if it is that of its parcel's first copy.
fn count_dropped(counts: &mut Counts, sink: bool, first: bool)
    ensures { (h : Record) → (i j c : ℕ) → (copies : List ℕ) →
        IsLegal (Spent i c NewestDropped ∷ h) → (sink ≡ true → class_at h j ≡ Some Sink) →
        (sink ≡ false → class_at h j ≡ Some Sink → ⊥) → WasPutIn h (Waiting i j) copies c →
        first ≡ (c == first_copy copies) → Meets j h counts.old.tally →
        Meets j (Spent i c NewestDropped ∷ h) counts.new.tally }
{
    if both(sink, first) {
        counts.dropped_newest();
    }
}

/// Counts a read, if its lines were counted. Answers whether they were.
fn count_read(counts: &mut Counts, bytes: u64, new: Option<NewLines>) -> bool
    ensures observed { result ≡ is_some new }
    ensures counts { result ≡ true → (h : Record) → (i stream : ℕ) → (took : Taken) →
        IsLegal (Read i stream took ∷ h) → bytes ≡ capped (length (bytes_of took)) →
        IfSome new (AreNew h i stream took) → Meets i h counts.old.tally →
        Meets i (Read i stream took ∷ h) counts.new.tally }
{
    match new {
        Some(new) => {
            counts.read(bytes, new);
            true
        }
        None => false,
    }
}

/// Counts a confirm, if it was made.
fn count_confirm(counts: &mut Counts, positions: &PositionList, made: bool)
    ensures { (h : Record) → (i : ℕ) → IsLegal (Confirm i positions.now made ∷ h) →
        Meets i h counts.old.tally → Meets i (Confirm i positions.now made ∷ h) counts.new.tally }
{
    if made {
        counts.confirmed(positions.as_slice());
    }
}
