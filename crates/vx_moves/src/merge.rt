ghost use Rattle.std.specs.Prelude.{◌≡◌, ◌≢◌, ◌<◌, ◌≤◌, ◌+◌, ◌∷◌, ℕ, List, [], length, true, false, OnOk, OnErr, IfSome, IsSomeAnd, IsTrue, ◌↔◌};
ghost use Rattle.vx_value.specs.Texts.{is_empty};
ghost use Rattle.vx_record.specs.Places.Place.{Held};
ghost use Rattle.vx_record.specs.Shifts.{at};
ghost use Rattle.vx_record.specs.Additions.{OnlyAdds};
ghost use Rattle.vx_record.specs.Answering.{MayFlush};
ghost use Rattle.vx_record.specs.Inputs.{Input as NotedInput, ticks_wait, unanswered, to_answer};
ghost use Rattle.vx_record.specs.Transforms.{IsTickDue};
ghost use Rattle.vx_tasks.specs.Joining.{joins_at};
ghost use Rattle.vx_keeping.specs.Keeping.{taken_in, OwesOnly, RunsHost};
ghost use Rattle.vx_moves.specs.Leaving.{Leaves};
ghost use Rattle.vx_moves.specs.Keepers.{keeper_at, IsKeeper, CanAnswer, OneKeeper, StaysFit, GetsUnfit, FailsShort};
ghost use Rattle.vx_status.specs.declared.outcome.Outcome.TheVariants.{Filtered};
ghost use Rattle.vx_moves.specs.Spends.{IsSpendOf, unspent};
ghost use Rattle.vx_moves.specs.Merging.{StandsMade, StandsDiscarding, SpendsDiscarded, answer_of, discarded_of, HasRoomForMade, MayMerge, MayNoteMade, IsMergeOf, HasNotedMade, HasAnswered, HasTicked, HasFlushed};
ghost use Rattle.vx_moves.specs.Stands.{Stands};

use crate::engine::EngineState;
use crate::keeping;
use crate::settle::settle;
use std::alloc::Global;
use vx_ends::Port;
use vx_history::History;
use vx_keeping::{Hosts, Keeper};
use vx_record::Entry;
use vx_status::Outcome;
use vx_transform::Output;
use vx_value::{ItemList, WantOfMemory};

impl<P: Port> EngineState<P> {
    /// Whether an instance merges.
    pub fn merges(&self, i: u32) -> bool
        requires stands { Stands P.observed self.now }
        requires within { i < length self.now.states }
        ensures { result ≡ joins_at self.now.log i }
    {
        keeping::is_there(&self.keepers, i as usize)
    }

    /// Whether an instance that merges holds nothing.
    pub fn keeps_none(&self, i: u32) -> bool
        requires stands { Stands P.observed self.now }
        requires within { i < length self.now.states }
        requires joins { joins_at self.now.log i ≡ true }
        ensures { result ≡ is_empty (at self.now.log (Held i)) }
    {
        keeping::keeps_none(&self.keepers, i as usize)
    }

    /// Whether the keeper of an instance that merges has room for one more parcel.
    pub fn has_kept_room(&self, i: u32) -> bool
        requires stands { Stands P.observed self.now }
        requires within { i < length self.now.states }
        requires joins { joins_at self.now.log i ≡ true }
        ensures { IsTrue result ↔
            IsKeeper (λ k. length k.taken.items < k.taken.room) self.now.keepers.items i }
    {
        keeping::has_room(&self.keepers, i as usize)
    }

    /// The moment in milliseconds from which on an instance that merges, and answered all that it took, is to act by itself. `None` of a
    /// reduce without a group, and of one that isn't fit. When a transform acts that the program hands in, that one says alone.
    pub fn check_due<H: Hosts>(&self, hosts: &H, i: u32) -> Option<u64>
        requires stands { Stands P.observed self.now }
        requires within { i < length self.now.states }
        requires joins { joins_at self.now.log i ≡ true }
        ensures due { IfSome result (λ moment. (now : ℕ) → moment ≤ now → IsTickDue self.now.log i now) }
        ensures none { IfSome result (λ moment. taken_in self.now.log i ≡ []) }
        ensures only { IsKeeper CanAnswer self.now.keepers.items i →
            (RunsHost self.now.log i → ⊥) → taken_in self.now.log i ≡ [] →
            (now : ℕ) → IsTickDue self.now.log i now →
            IsSomeAnd result (λ moment. moment ≤ now) }
    {
        keeping::due(&self.keepers, hosts, i)
    }

    /// Has an instance that merges and is out answer what it took, at the moment of its lease in milliseconds. What it discards is spent.
    ///
    /// For want of memory nothing has changed in the record, and its keeper answers nothing any more.
    pub fn merge_taken<H: Hosts>(
        &mut self,
        alloc: Global,
        hosts: &mut H,
        i: u32,
        now: u64,
    ) -> Result<(), WantOfMemory>
        requires stands { Stands P.observed self.old }
        requires within { i < length self.old.states }
        requires may { MayMerge self.old.log i now }
        requires holds { at self.old.log (Held i) ≢ [] }
        requires took { unanswered self.old.log i ≢ [] }
        ensures stands { Stands P.observed self.new }
        ensures only { OnlyAdds (IsMergeOf i) self.old.log self.new.log }
        ensures noted { OnOk result (HasAnswered i self.old.log self.new.log) }
        ensures answered { OnOk result (unanswered self.new.log i ≡ []) }
        ensures fit { OnOk result
            (OneKeeper StaysFit i self.old.keepers.items self.new.keepers.items) }
        ensures unfit { OnErr result
            (OneKeeper GetsUnfit i self.old.keepers.items self.new.keepers.items) }
        ensures leaves { Leaves self.old self.new }
        ensures unchanged { OnErr result (self.new.log ≡ self.old.log) }
        ensures size { length self.new.states ≡ length self.old.states }
    {
        keeping::answer(&mut self.keepers, alloc, hosts, i, now)?;
        self.reserve_made(i)?;
        self.note_made(i);
        self.spend_discarded(i);
        Ok(())
    }

    /// Has an instance that merges and is out act by itself, at the moment of its lease in milliseconds, where it took nothing since its
    /// last answer and its next check is due.
    ///
    /// For want of memory nothing has changed in the record, and its keeper answers nothing any more.
    pub fn merge_tick<H: Hosts>(
        &mut self,
        alloc: Global,
        hosts: &mut H,
        i: u32,
        now: u64,
    ) -> Result<(), WantOfMemory>
        requires stands { Stands P.observed self.old }
        requires within { i < length self.old.states }
        requires may { MayMerge self.old.log i now }
        requires none { taken_in self.old.log i ≡ [] }
        requires due { IsTickDue self.old.log i now }
        ensures stands { Stands P.observed self.new }
        ensures only { OnlyAdds (IsMergeOf i) self.old.log self.new.log }
        ensures noted { OnOk result (HasTicked i now self.old.log self.new.log) }
        ensures answered { OnOk result (unanswered self.new.log i ≡ []) }
        ensures fit { OnOk result
            (OneKeeper StaysFit i self.old.keepers.items self.new.keepers.items) }
        ensures unfit { OnErr result
            (OneKeeper GetsUnfit i self.old.keepers.items self.new.keepers.items) }
        ensures leaves { Leaves self.old self.new }
        ensures unchanged { OnErr result (self.new.log ≡ self.old.log) }
        ensures size { length self.new.states ≡ length self.old.states }
    {
        keeping::tick(&mut self.keepers, alloc, hosts, i, now)?;
        self.reserve_made(i)?;
        self.log.note(&(i, now));
        self.note_made(i);
        self.spend_discarded(i);
        Ok(())
    }

    /// Has an instance that merges and is out put out all that it holds, where it took nothing since its last answer, and nothing can
    /// come any more.
    ///
    /// For want of memory nothing has changed in the record, and its keeper answers nothing any more.
    pub fn merge_flush<H: Hosts>(
        &mut self,
        alloc: Global,
        hosts: &mut H,
        i: u32,
        now: u64,
    ) -> Result<(), WantOfMemory>
        requires stands { Stands P.observed self.old }
        requires within { i < length self.old.states }
        requires may { MayMerge self.old.log i now }
        requires holds { at self.old.log (Held i) ≢ [] }
        requires none { unanswered self.old.log i ≡ [] }
        requires last { MayFlush self.old.log i [] }
        ensures stands { Stands P.observed self.new }
        ensures only { OnlyAdds (IsMergeOf i) self.old.log self.new.log }
        ensures noted { OnOk result (HasFlushed i self.old.log self.new.log) }
        ensures answered { OnOk result (unanswered self.new.log i ≡ []) }
        ensures fit { OnOk result
            (OneKeeper StaysFit i self.old.keepers.items self.new.keepers.items) }
        ensures unfit { OnErr result
            (OneKeeper GetsUnfit i self.old.keepers.items self.new.keepers.items) }
        ensures leaves { Leaves self.old self.new }
        ensures unchanged { OnErr result (self.new.log ≡ self.old.log) }
        ensures size { length self.new.states ≡ length self.old.states }
    {
        keeping::flush(&mut self.keepers, alloc, hosts, i)?;
        self.reserve_made(i)?;
        self.note_made(i);
        self.spend_discarded(i);
        Ok(())
    }

    // Makes room for what a keeper made. Where no memory is found for that, it answers nothing any more.
    fn reserve_made(&mut self, i: u32) -> Result<(), WantOfMemory>
        requires within { i < length self.old.states }
        requires rows { length self.old.places ≡ length self.old.states }
        requires slots { length self.old.keepers.items ≡ length self.old.places }
        requires fit { IsKeeper (λ k. k.fit ≡ true) self.old.keepers.items i }
        ensures made { OnOk result
            ((given : List NotedInput) → StandsMade P.observed i given self.old →
            StandsMade P.observed i given self.new) }
        ensures room { OnOk result (HasRoomForMade i self.new) }
        ensures kept { OnOk result (self.new.keepers.items ≡ self.old.keepers.items) }
        ensures short { OnErr result
            ((given : List NotedInput) → StandsMade P.observed i given self.old →
            ticks_wait self.old.log i ≡ false → Stands P.observed self.new) }
        ensures fails { OnErr result
            (OneKeeper FailsShort i self.old.keepers.items self.new.keepers.items) }
        ensures leaves { Leaves self.old self.new }
        ensures unchanged { self.new.log ≡ self.old.log }
        ensures size { length self.new.states ≡ length self.old.states }
    {
        let n = keeping::outputs(&self.keepers, i as usize);
        match self.places.reserve_outputs(i, n) {
            Ok(()) => Ok(()),
            Err(WantOfMemory) => {
                keeping::fail(&mut self.keepers, i as usize);
                Err(WantOfMemory)
            }
        }
    }

    // Notes what a keeper made as the answer of its instance, for which there is room.
    fn note_made(&mut self, i: u32)
        requires made { StandsMade P.observed i (to_answer self.old.log i) self.old }
        requires within { i < length self.old.states }
        requires room { HasRoomForMade i self.old }
        requires may { MayNoteMade i self.old }
        ensures stands { StandsDiscarding P.observed i self.new }
        ensures noted { HasNotedMade i self.old.keepers.items self.old.log self.new.log }
        ensures answered { unanswered self.new.log i ≡ [] }
        ensures fit { OneKeeper StaysFit i self.old.keepers.items self.new.keepers.items }
        ensures leaves { Leaves self.old self.new }
        ensures size { length self.new.states ≡ length self.old.states }
    {
        let dropped = keeping::dropped(&self.keepers, i as usize);
        let outputs = keeping::put_out(&mut self.keepers, i as usize);
        note_outputs(&mut self.log, i, &outputs, &self.keepers);
        self.states.answered(i, outputs.len() as u64, dropped);
        self.places.put_out(i, outputs);
    }

    // Spends all that the last answer of an instance discarded, and gives the notices that are due then.
    fn spend_discarded(&mut self, i: u32)
        requires stands { StandsDiscarding P.observed i self.old }
        requires within { i < length self.old.states }
        requires joins { joins_at self.old.log i ≡ true }
        ensures stands { Stands P.observed self.new }
        ensures only { OnlyAdds (IsSpendOf i Filtered) self.old.log self.new.log }
        ensures spent { OwesOnly self.new.log i [] }
        ensures fit { OneKeeper StaysFit i self.old.keepers.items self.new.keepers.items }
        ensures leaves { Leaves self.old self.new }
        ensures size { length self.new.states ≡ length self.old.states }
    {
        while self.spend_next_discarded(i) {}
    }

    // Spends a copy that the last answer of an instance discarded, and gives the notice that is due then. Whether one was left; where
    // none was, nothing has changed in the record.
    fn spend_next_discarded(&mut self, i: u32) -> bool
        requires stands { StandsDiscarding P.observed i self.old }
        requires within { i < length self.old.states }
        requires joins { joins_at self.old.log i ≡ true }
        ensures spent { SpendsDiscarded P.observed i self.old self.new }
        ensures fewer { IsTrue result → unspent self.new.log + 1 ≡ unspent self.old.log }
        ensures none { result ≡ false → IsKeeper (λ k. k.discarded ≡ []) self.new.keepers.items i }
    {
        let Some(copy) = keeping::next_discarded(&mut self.keepers, i as usize) else {
            return false;
        };
        self.states.spent(i, Outcome::Filtered, false);
        settle(
            &mut self.states,
            &mut self.balance,
            &mut self.log,
            i,
            copy,
            Outcome::Filtered,
        );
        true
    }
}

// Notes the answer of an instance, of which these outputs were taken off its keeper, which still has what that discards.
fn note_outputs(
    log: &mut History<Entry>,
    i: u32,
    outputs: &ItemList<Output>,
    keepers: &Vec<Option<Keeper>>,
)
    ensures { log.new ≡ answer_of log.old i outputs.now (discarded_of (keeper_at keepers.now.items i))
        ∷ log.old }
{
    log.note(&(i, outputs, keepers));
}
