// Parcels go on from where an instance put them out.
ghost use Rattle.std.specs.Prelude.{◌≡◌, ◌<◌, ◌≤◌, ℕ, Option, length, true, false, unwrap_or, Ok, IfSome, IfNone, IfOk, IfErr, OnOk, OnErr, IsTrue};
ghost use Rattle.vx_record.specs.Abandoning.{abandoned};
ghost use Rattle.vx_record.specs.Additions.{OnlyAdds};
ghost use Rattle.vx_record.specs.Stages.{stages_of, last_drops};
ghost use Rattle.vx_record.specs.Turns.{is_out};
ghost use Rattle.vx_places.specs.Calls.{NoneWaits, IsOldestFor};
ghost use Rattle.vx_places.specs.Looks.{HasOutput, IsFirstRoom};
ghost use Rattle.vx_moves.specs.Stands.{Stands};
ghost use Rattle.vx_hub.specs.Failures.{HasReason, fatal_of};
ghost use Rattle.vx_hub.specs.Pushing.{IsMoveOf, HasMoved, HaveEntered, Grew, CanPass, CanMove, NoneMovesBelow, NoneMoves};
ghost use Rattle.vx_instances.specs.Staying.{EachState};
ghost use Rattle.vx_hub.specs.Standing.{IsHub, SameTask};

use crate::dropping::drops_newest;
use crate::fatal::Fatal;
use crate::hub::Hub;
use vx_ends::Port;
use vx_ledger::Short;
use vx_moves::EngineState;

/// How many steps one call makes at the most.
const STEPS: u32 = 64;

/// A waiting child, the oldest for its target, and the first stage of the target's buffer that has room for it: none where all are
/// full, and the last drops what comes.
#[derive(Clone, Copy)]
struct Pushable {
    child: usize,
    target: u32,
    stage: Option<usize>,
}

impl<P: Port> Hub<P> {
    /// The least unleased instance that can move a parcel on: a child of it waits for a target that has room or drops what comes, or
    /// none waits and there is an output. `None` exactly where there is no such instance, after a call that answered `Fatal`, or where
    /// the run was given up.
    pub fn pending(&self) -> Option<u32>
        requires hub { IsHub P.observed self.now }
        ensures some { IfSome result (λ i. i < length self.now.engine.states) }
        ensures work { IfSome result (λ i. CanMove self.now.engine i) }
        ensures unleased { IfSome result (λ i. is_out self.now.engine.log i ≡ false) }
        ensures going { IfSome result (λ i. abandoned self.now.engine.log ≡ false) }
        ensures fatal { IfSome result (λ i. self.now.fatal ≡ false) }
        ensures least { IfSome result (λ i. NoneMovesBelow i self.now.engine) }
        ensures none { IfNone result
            (self.now.fatal ≡ false → abandoned self.now.engine.log ≡ false →
            NoneMoves self.now.engine) }
    {
        if self.fatal {
            return None;
        }
        let mut from = 0;
        while let Some(i) = self.engine.places.next_unsent(from) {
            if is_pending(&self.engine, i as u32) {
                return Some(i as u32);
            }
            from = i + 1;
        }
        None
    }

    /// Moves the parcels of an instance on, in at most 64 steps, and in one at least where it can: a waiting child enters its target's
    /// buffer, or loses a copy where that is full and drops what comes; where none waits, the oldest output is split, or loses a copy
    /// where nobody reads it. Gives how many children entered a buffer: none where the instance is out, and none where the run was
    /// given up.
    ///
    /// `Fatal` comes where a split found no numbers or no memory.
    pub fn push_pending(&mut self, instance: u32) -> Result<u32, Fatal>
        requires hub { IsHub P.observed self.old }
        requires within { instance < length self.old.engine.states }
        ensures hub { IsHub P.observed self.new }
        ensures only { OnlyAdds (IsMoveOf instance) self.old.engine.log self.new.engine.log }
        ensures fatal { OnErr result (self.new.fatal ≡ true) }
        ensures sound { OnOk result (self.new.fatal ≡ self.old.fatal) }
        ensures short { self.new.engine.run.out_of_memory ≡ self.old.engine.run.out_of_memory }
        ensures latest { self.new.engine.run.latest ≡ self.old.engine.run.latest }
        ensures tasks { EachState SameTask self.old.engine.states self.new.engine.states }
        ensures reason { IfErr result (HasReason self.new.engine.log) }
        ensures entered { IfOk result (λ n. HaveEntered n self.old.engine.log self.new.engine.log) }
        ensures moves { OnOk result
            (abandoned self.old.engine.log ≡ false → is_out self.old.engine.log instance ≡ false →
            CanMove self.old.engine instance → Grew self.old.engine.log self.new.engine.log) }
        ensures out { is_out self.old.engine.log instance ≡ true →
            (result ≡ Ok 0) × (self.new ≡ self.old) }
        ensures over { abandoned self.old.engine.log ≡ true →
            (result ≡ Ok 0) × (self.new ≡ self.old) }
    {
        if !is_free(&self.engine, instance) {
            return Ok(0);
        }
        match push_steps(&mut self.engine, instance) {
            Ok(pushed) => Ok(pushed),
            Err(short) => {
                self.fatal = true;
                Err(Fatal::from(short))
            }
        }
    }
}

/// Whether an unleased instance can move a parcel on, in a run that goes on.
fn is_pending<P: Port>(engine: &EngineState<P>, i: u32) -> bool
    requires stands { Stands P.observed engine.now }
    requires within { i < length engine.now.states }
    ensures unleased { IsTrue result → is_out engine.now.log i ≡ false }
    ensures going { IsTrue result → abandoned engine.now.log ≡ false }
    ensures work { IsTrue result → CanMove engine.now i }
    ensures none { result ≡ false → abandoned engine.now.log ≡ false →
        is_out engine.now.log i ≡ false → CanMove engine.now i → ⊥ }
{
    if !is_free(engine, i) {
        return false;
    }
    if can_split(engine, i) {
        return true;
    }
    match find_pushable(engine, i) {
        Some(_next) => true,
        None => false,
    }
}

/// Whether an instance is unleased, in a run that goes on.
fn is_free<P: Port>(engine: &EngineState<P>, i: u32) -> bool
    requires stands { Stands P.observed engine.now }
    requires within { i < length engine.now.states }
    ensures unleased { IsTrue result → is_out engine.now.log i ≡ false }
    ensures going { IsTrue result → abandoned engine.now.log ≡ false }
    ensures none { result ≡ false → abandoned engine.now.log ≡ false →
        is_out engine.now.log i ≡ false → ⊥ }
{
    engine.run.abandoned.is_none() && engine.states.get(i).task.is_some()
}

/// Whether an instance has an output, and no child of it waits.
fn can_split<P: Port>(engine: &EngineState<P>, i: u32) -> bool
    requires stands { Stands P.observed engine.now }
    requires within { i < length engine.now.states }
    ensures none_waits { IsTrue result → NoneWaits engine.now.places i }
    ensures some { IsTrue result → HasOutput engine.now.places i }
    ensures none { result ≡ false → NoneWaits engine.now.places i → HasOutput engine.now.places i →
        ⊥ }
{
    engine.places.none_waits(i) && engine.places.has_output(i)
}

/// The first stage of an instance's buffer that has room, or none where all are full and the last drops what comes. `None` exactly
/// where nothing can come.
fn room_of<P: Port>(engine: &EngineState<P>, target: u32) -> Option<Option<usize>>
    requires stands { Stands P.observed engine.now }
    ensures there { IfSome result (λ stage. target < length engine.now.states) }
    ensures first { IfSome result (λ stage. IsFirstRoom engine.now.places target stage) }
    ensures drops { IfSome result
        (λ stage. IfNone stage (last_drops (stages_of engine.now.log target) ≡ true)) }
    ensures none { IfNone result
        ((stage : Option ℕ) → IsFirstRoom engine.now.places target stage →
        IfNone stage (last_drops (stages_of engine.now.log target) ≡ true) → ⊥) }
{
    if target as usize >= engine.places.len() {
        return None;
    }
    if let Some(stage) = engine.places.first_room(target) {
        return Some(Some(stage));
    }
    if drops_newest(engine, target) {
        return Some(None);
    }
    None
}

/// A waiting child of an instance, where it is the oldest for its target, and that has room or drops what comes. `None` exactly where
/// it is not so, or there is no such child.
fn pushable_at<P: Port>(engine: &EngineState<P>, i: u32, child: usize) -> Option<Pushable>
    requires stands { Stands P.observed engine.now }
    requires within { i < length engine.now.states }
    ensures oldest { IfSome result (λ next. IsOldestFor engine.now.places i next.target next.child) }
    ensures there { IfSome result (λ next. next.target < length engine.now.states) }
    ensures room { IfSome result (λ next. IsFirstRoom engine.now.places next.target next.stage) }
    ensures drops { IfSome result
        (λ next. IfNone next.stage (last_drops (stages_of engine.now.log next.target) ≡ true)) }
    ensures none { IfNone result ((pass : CanPass engine.now i) → pass.child ≡ child → ⊥) }
{
    let target = engine.places.target_at(i, child)?;
    let stage = room_of(engine, target)?;
    // The room is asked for first: a look at all children before it costs more.
    let _oldest = engine.places.oldest_at(i, child)?;
    Some(Pushable {
        child,
        target,
        stage,
    })
}

/// The first waiting child of an instance, among those that are the oldest for their targets, whose target has room or drops what
/// comes. `None` exactly where there is none.
fn find_pushable<P: Port>(engine: &EngineState<P>, i: u32) -> Option<Pushable>
    requires stands { Stands P.observed engine.now }
    requires within { i < length engine.now.states }
    ensures oldest { IfSome result (λ next. IsOldestFor engine.now.places i next.target next.child) }
    ensures there { IfSome result (λ next. next.target < length engine.now.states) }
    ensures room { IfSome result (λ next. IsFirstRoom engine.now.places next.target next.stage) }
    ensures drops { IfSome result
        (λ next. IfNone next.stage (last_drops (stages_of engine.now.log next.target) ≡ true)) }
    ensures none { IfNone result (CanPass engine.now i → ⊥) }
{
    for k in 0..engine.places.count_waiting(i) {
        if let Some(next) = pushable_at(engine, i, k) {
            return Some(next);
        }
    }
    None
}

/// Splits the oldest output of an instance, or spends a copy of it where nobody reads it.
fn part<P: Port>(engine: &mut EngineState<P>, i: u32) -> Result<(), Short>
    requires stands { Stands P.observed engine.old }
    requires within { i < length engine.old.states }
    requires going { abandoned engine.old.log ≡ false }
    requires unleased { is_out engine.old.log i ≡ false }
    requires none_waits { NoneWaits engine.old.places i }
    requires some { HasOutput engine.old.places i }
    ensures moved { HasMoved P.observed i engine.old engine.new }
    ensures entered { HaveEntered 0 engine.old.log engine.new.log }
    ensures grew { OnOk result (Grew engine.old.log engine.new.log) }
    ensures reason { IfErr result (λ short. HasReason engine.new.log (fatal_of short)) }
{
    match engine.split(i) {
        Ok(true) => Ok(()),
        Ok(false) => {
            engine.spend_unread(i);
            Ok(())
        }
        Err(short) => Err(short),
    }
}

/// Lets a waiting child of an instance enter its target's buffer, or lose a copy where that drops what comes.
/// Gives how many children entered a buffer.
fn pass<P: Port>(engine: &mut EngineState<P>, i: u32, next: Pushable) -> u32
    requires stands { Stands P.observed engine.old }
    requires within { i < length engine.old.states }
    requires going { abandoned engine.old.log ≡ false }
    requires unleased { is_out engine.old.log i ≡ false }
    requires there { next.target < length engine.old.states }
    requires oldest { IsOldestFor engine.old.places i next.target next.child }
    requires room { IsFirstRoom engine.old.places next.target next.stage }
    requires drops { IfNone next.stage (last_drops (stages_of engine.old.log next.target) ≡ true) }
    ensures moved { HasMoved P.observed i engine.old engine.new }
    ensures entered { HaveEntered result engine.old.log engine.new.log }
    ensures one { result ≤ 1 }
    ensures grew { Grew engine.old.log engine.new.log }
{
    match next.stage {
        Some(stage) => {
            engine.push(i, next.child, next.target, stage);
            1
        }
        None => {
            engine.spend_newest(i, next.child, next.target);
            0
        }
    }
}

/// Moves one parcel of an instance on. Gives how many children entered a buffer, and `None` exactly where there was nothing to do.
fn move_one<P: Port>(engine: &mut EngineState<P>, i: u32) -> Result<Option<u32>, Short>
    requires stands { Stands P.observed engine.old }
    requires within { i < length engine.old.states }
    requires going { abandoned engine.old.log ≡ false }
    requires unleased { is_out engine.old.log i ≡ false }
    ensures moved { HasMoved P.observed i engine.old engine.new }
    ensures entered { IfOk result (λ n. HaveEntered (unwrap_or n 0) engine.old.log engine.new.log) }
    ensures one { IfOk result (λ n. unwrap_or n 0 ≤ 1) }
    ensures grew { IfOk result (λ n. IfSome n (λ entered. Grew engine.old.log engine.new.log)) }
    ensures none { IfOk result (λ n. IfNone n (CanMove engine.old i → ⊥)) }
    ensures reason { IfErr result (λ short. HasReason engine.new.log (fatal_of short)) }
{
    if let Some(next) = find_pushable(engine, i) {
        return Ok(Some(pass(engine, i, next)));
    }
    if !can_split(engine, i) {
        return Ok(None);
    }
    match part(engine, i) {
        Ok(()) => Ok(Some(0)),
        Err(short) => Err(short),
    }
}

/// Moves parcels of an instance on, one at least where it can. Gives how many children entered a buffer.
fn push_steps<P: Port>(engine: &mut EngineState<P>, i: u32) -> Result<u32, Short>
    requires stands { Stands P.observed engine.old }
    requires within { i < length engine.old.states }
    requires going { abandoned engine.old.log ≡ false }
    requires unleased { is_out engine.old.log i ≡ false }
    ensures moved { HasMoved P.observed i engine.old engine.new }
    ensures entered { IfOk result (λ n. HaveEntered n engine.old.log engine.new.log) }
    ensures moves { OnOk result (CanMove engine.old i → Grew engine.old.log engine.new.log) }
    ensures reason { IfErr result (λ short. HasReason engine.new.log (fatal_of short)) }
{
    let mut pushed: u32 = 0;
    for _ in 0..STEPS {
        match move_one(engine, i)? {
            Some(entered) => pushed += entered,
            None => return Ok(pushed),
        }
    }
    Ok(pushed)
}
