// How a run ends.
ghost use Rattle.std.specs.Prelude.{◌≡◌, ◌<◌, ◌⊎◌, ◌∷◌, ◌↔◌, length, true, false, None, Some, IsTrue, IfSome, IfNone};
ghost use Rattle.vx_record.specs.declared.entry.Entry.TheVariants.{Retired};
ghost use Rattle.vx_record.specs.Additions.{OnlyAdds};
ghost use Rattle.vx_record.specs.Abandoning.{abandoned};
ghost use Rattle.vx_record.specs.Ceasing.{cause_of};
ghost use Rattle.vx_record.specs.Ending.{MayRetire, HasReason};
ghost use Rattle.vx_record.specs.Lists.{is_bare as is_bare_at};
ghost use Rattle.vx_record.specs.Turns.{is_out};
ghost use Rattle.vx_moves.specs.Stands.{Stands};
ghost use Rattle.vx_ready.specs.Asking.{IsServed};
ghost use Rattle.vx_instances.specs.Staying.{EachState};
ghost use Rattle.vx_hub.specs.Standing.{IsHub, IsWell, SameTask};
ghost use Rattle.vx_hub.specs.Ending.{IsOver, NoneRetires, IsClosing, GivesUp, AreGivenUp, ClosesDown, GivesUpAt, GivesUpBelow};

use crate::hub::Hub;
use vx_ends::Port;
use vx_moves::EngineState;
use vx_ready::{has_device, is_done, is_settled};
use vx_record::AbandonCause;

impl<P: Port> Hub<P> {
    /// Gives the run up: spends every copy that stands at an unleased instance as abandoned, and closes its port, if it has one,
    /// for good. An instance that is out is given up when it lands. It takes no memory.
    pub fn abandon(&mut self, cause: AbandonCause)
        requires hub { IsHub P.observed self.old }
        requires going { cause_of self.old.engine.log ≡ None }
        requires reason { HasReason self.old.engine.log cause }
        ensures hub { IsHub P.observed self.new }
        ensures cause { cause_of self.new.engine.log ≡ Some cause }
        ensures only { OnlyAdds (GivesUp cause) self.old.engine.log self.new.engine.log }
        ensures up { AreGivenUp self.new.engine.log }
        ensures rest { self.new ≡ record self.old { engine = self.new.engine } }
        ensures short { self.new.engine.run.out_of_memory ≡ self.old.engine.run.out_of_memory }
        ensures latest { self.new.engine.run.latest ≡ self.old.engine.run.latest }
    {
        self.engine.abandon(cause);
        give_up_all(&mut self.engine);
    }

    /// Ends the first unleased instance whose port, if it has one, is closed for good and that has nothing more to do, or at which
    /// nothing stands where the run was given up. Its port stays with it until the hub ends. `None` where no instance may end;
    /// behind a call that answered `Fatal`, until the run is given up, it may also come where one may.
    pub fn retire(&mut self) -> Option<u32>
        requires hub { IsHub P.observed self.old }
        ensures hub { IsHub P.observed self.new }
        ensures some { IfSome result (λ i. MayRetire self.old.engine.log i) }
        ensures noted { IfSome result (λ i. self.new.engine.log ≡ Retired i ∷ self.old.engine.log) }
        ensures none { (self.old.fatal ≡ false) ⊎ (abandoned self.old.engine.log ≡ true) →
            IfNone result (NoneRetires self.old.engine.log) }
        ensures run { self.new.engine.run ≡ self.old.engine.run }
        ensures tasks { EachState SameTask self.old.engine.states self.new.engine.states }
        ensures rest { self.new ≡ record self.old { engine = self.new.engine } }
        ensures unchanged { IfNone result (self.new ≡ self.old) }
    {
        let i = first_over(&self.engine)?;
        self.engine.retire(i);
        Some(i)
    }

    /// Whether each instance ended.
    pub fn over(&self) -> bool
        requires hub { IsHub P.observed self.now }
        ensures { IsTrue result ↔ IsOver self.now.engine.log }
    {
        for i in 0..self.engine.states.len() as u32 {
            if !self.engine.states.get(i).facts.retired {
                return false;
            }
        }
        true
    }
}

/// Gives up each unleased instance.
fn give_up_all<P: Port>(engine: &mut EngineState<P>)
    requires stands { Stands P.observed engine.old }
    requires served { IsServed engine.old }
    requires over { abandoned engine.old.log ≡ true }
    ensures { GivesUpBelow P.observed (length engine.old.states) engine.old engine.new }
{
    for i in 0..engine.states.len() as u32 {
        give_up_at(engine, i);
    }
}

/// Gives up what stands at an instance, and closes its port, if it has one, for good, if the instance is unleased.
pub(crate) fn give_up_at<P: Port>(engine: &mut EngineState<P>, i: u32)
    requires stands { Stands P.observed engine.old }
    requires within { i < length engine.old.states }
    requires served { IsServed engine.old }
    requires over { abandoned engine.old.log ≡ true }
    ensures { GivesUpAt P.observed i engine.old engine.new }
{
    if !engine.states.get(i).task.is_some() {
        return;
    }
    engine.give_up(i);
    close_down(engine, i);
}

/// Closes the port of an instance for good, if it has one and that wasn't done before.
fn close_down<P: Port>(engine: &mut EngineState<P>, i: u32)
    requires stands { Stands P.observed engine.old }
    requires within { i < length engine.old.states }
    requires unleased { is_out engine.old.log i ≡ false }
    requires served { IsServed engine.old }
    requires over { abandoned engine.old.log ≡ true }
    ensures { ClosesDown P.observed i engine.old engine.new }
{
    if !has_device(engine, i) || engine.states.get(i).facts.closed {
        return;
    }
    engine.states.shut(i);
    engine.close(i);
}

/// The first instance that may end.
fn first_over<P: Port>(engine: &EngineState<P>) -> Option<u32>
    requires stands { Stands P.observed engine.now }
    requires served { IsServed engine.now }
    ensures within { IfSome result (λ i. i < length engine.now.states) }
    ensures may { IfSome result (λ i. MayRetire engine.now.log i) }
    ensures none { IsWell engine.now ⊎ (abandoned engine.now.log ≡ true) →
        IfNone result (NoneRetires engine.now.log) }
{
    for i in 0..engine.states.len() as u32 {
        if may_retire(engine, i) {
            return Some(i);
        }
    }
    None
}

/// Whether an instance may end.
fn may_retire<P: Port>(engine: &EngineState<P>, i: u32) -> bool
    requires stands { Stands P.observed engine.now }
    requires within { i < length engine.now.states }
    requires served { IsServed engine.now }
    ensures may { IsTrue result → MayRetire engine.now.log i }
    ensures not { result ≡ false → IsWell engine.now ⊎ (abandoned engine.now.log ≡ true) →
        MayRetire engine.now.log i → ⊥ }
{
    if !is_closing(engine, i) {
        return false;
    }
    if engine.run.abandoned.is_some() {
        return is_bare(engine, i);
    }
    if !is_settled(engine, i) {
        return false;
    }
    is_done(engine, i)
}

/// Whether nothing stands at an unleased instance.
fn is_bare<P: Port>(engine: &EngineState<P>, i: u32) -> bool
    requires stands { Stands P.observed engine.now }
    requires within { i < length engine.now.states }
    requires unleased { is_out engine.now.log i ≡ false }
    ensures { result ≡ is_bare_at engine.now.log i }
{
    if engine.merges(i) {
        engine.places.is_clear(i) && engine.keeps_none(i)
    } else {
        engine.places.is_bare(i)
    }
}

/// Whether the task of an instance is unleased, its port, if it has one, is closed for good, and it hasn't ended.
fn is_closing<P: Port>(engine: &EngineState<P>, i: u32) -> bool
    requires stands { Stands P.observed engine.now }
    requires within { i < length engine.now.states }
    requires served { IsServed engine.now }
    ensures yes { IsTrue result → IsClosing engine.now i }
    ensures no { result ≡ false → IsClosing engine.now i → ⊥ }
{
    let state = engine.states.get(i);
    if !state.task.is_some() || state.facts.retired {
        return false;
    }
    state.facts.closed || !has_device(engine, i)
}
