ghost use Rattle.std.specs.Prelude.{◌≡◌, ◌<◌, ◌+◌, ℕ, [], length, true, false, IsTrue};
ghost use Rattle.vx_status.specs.declared.outcome.Outcome.TheVariants.{Abandoned};
ghost use Rattle.vx_record.specs.Abandoning.{abandoned};
ghost use Rattle.vx_record.specs.Places.{Place, owner};
ghost use Rattle.vx_record.specs.Places.Place.{Outputs, Waiting, Contents, Held};
ghost use Rattle.vx_record.specs.Shifts.{at};
ghost use Rattle.vx_record.specs.Turns.{is_out};
ghost use Rattle.vx_tasks.specs.Joining.{joins_at};
ghost use Rattle.vx_moves.specs.Spends.{HasSpent, OnlySpends, unspent};
ghost use Rattle.vx_moves.specs.Stands.{Stands};

use crate::engine::EngineState;
use crate::keeping;
use crate::settle::settle;
use vx_ends::Port;
use vx_places::Lost;
use vx_status::Outcome;

impl<P: Port> EngineState<P> {
    /// Gives up a copy of the oldest output of an unleased instance, where the run is given up. Whether there was one; where
    /// there was none, nothing has changed.
    pub fn give_up_output(&mut self, i: u32) -> bool
        requires stands { Stands P.observed self.old }
        requires within { i < length self.old.states }
        requires over { abandoned self.old.log ≡ true }
        requires unleased { is_out self.old.log i ≡ false }
        ensures spent { IsTrue result → HasSpent P.observed (Outputs i) Abandoned self.old self.new }
        ensures none { result ≡ false → at self.old.log (Outputs i) ≡ [] }
        ensures unchanged { result ≡ false → self.new ≡ self.old }
    {
        let Some(lost) = self.places.spend_output(i) else {
            return false;
        };
        let Lost { copy, last: _ } = lost;
        settle(
            &mut self.states,
            &mut self.balance,
            &mut self.log,
            i,
            copy,
            Outcome::Abandoned,
        );
        true
    }

    /// Gives up a copy of a waiting child of an unleased instance, the oldest for its target, where the run is given up. Whether
    /// one waited; where none did, nothing has changed.
    pub fn give_up_waiting(&mut self, i: u32) -> bool
        requires stands { Stands P.observed self.old }
        requires within { i < length self.old.states }
        requires over { abandoned self.old.log ≡ true }
        requires unleased { is_out self.old.log i ≡ false }
        ensures spent { IsTrue result →
            (target : ℕ) × HasSpent P.observed (Waiting i target) Abandoned self.old self.new }
        ensures none { result ≡ false → (target : ℕ) → at self.old.log (Waiting i target) ≡ [] }
        ensures unchanged { result ≡ false → self.new ≡ self.old }
    {
        let Some(target) = self.places.first_waiting(i) else {
            return false;
        };
        let Some(lost) = self.places.spend_waiting(i, 0, target) else {
            unreachable!();
        };
        let Lost { copy, last: _ } = lost;
        settle(
            &mut self.states,
            &mut self.balance,
            &mut self.log,
            i,
            copy,
            Outcome::Abandoned,
        );
        true
    }

    /// Gives up a copy of the oldest parcel in a stage of an instance's buffer, where the run is given up and the instance is unleased. Whether there was one; where there was none, nothing has changed.
    pub fn give_up_buffered(&mut self, i: u32) -> bool
        requires stands { Stands P.observed self.old }
        requires within { i < length self.old.states }
        requires over { abandoned self.old.log ≡ true }
        requires unleased { is_out self.old.log i ≡ false }
        ensures spent { IsTrue result →
            (stage : ℕ) × HasSpent P.observed (Contents i stage) Abandoned self.old self.new }
        ensures none { result ≡ false → (stage : ℕ) → at self.old.log (Contents i stage) ≡ [] }
        ensures unchanged { result ≡ false → self.new ≡ self.old }
    {
        let Some(stage) = self.places.first_filled(i) else {
            return false;
        };
        let Some(lost) = self.places.spend_buffered(i, stage) else {
            unreachable!();
        };
        let Lost { copy, last: _ } = lost;
        settle(
            &mut self.states,
            &mut self.balance,
            &mut self.log,
            i,
            copy,
            Outcome::Abandoned,
        );
        true
    }

    /// Gives up all that stands at an unleased instance, where the run is given up, and gives the notices that are due then.
    pub fn give_up(&mut self, i: u32)
        requires stands { Stands P.observed self.old }
        requires within { i < length self.old.states }
        requires over { abandoned self.old.log ≡ true }
        requires unleased { is_out self.old.log i ≡ false }
        ensures spent { OnlySpends P.observed i Abandoned self.old self.new }
        ensures bare { (p : Place) → owner p ≡ i → at self.new.log p ≡ [] }
    {
        self.give_up_outputs(i);
        self.give_up_children(i);
        self.give_up_buffer(i);
        self.give_up_held(i);
    }

    /// Gives up all that an instance holds.
    fn give_up_held(&mut self, i: u32)
        requires stands { Stands P.observed self.old }
        requires within { i < length self.old.states }
        requires over { abandoned self.old.log ≡ true }
        requires unleased { is_out self.old.log i ≡ false }
        ensures spent { OnlySpends P.observed i Abandoned self.old self.new }
        ensures none { at self.new.log (Held i) ≡ [] }
    {
        if self.merges(i) {
            self.give_up_keeper(i);
        } else {
            self.spend_all_held(i, Outcome::Abandoned);
        }
    }

    /// Gives up a copy of what an unleased instance keeps that merges. Whether there was one.
    fn give_up_kept(&mut self, i: u32) -> bool
        requires stands { Stands P.observed self.old }
        requires within { i < length self.old.states }
        requires joins { joins_at self.old.log i ≡ true }
        requires over { abandoned self.old.log ≡ true }
        requires unleased { is_out self.old.log i ≡ false }
        ensures spent { OnlySpends P.observed i Abandoned self.old self.new }
        ensures fewer { IsTrue result → unspent self.new.log + 1 ≡ unspent self.old.log }
        ensures none { result ≡ false → at self.new.log (Held i) ≡ [] }
        ensures over { abandoned self.new.log ≡ true }
        ensures unleased { is_out self.new.log i ≡ false }
        ensures joins { joins_at self.new.log i ≡ true }
    {
        let Some(copy) = keeping::lose(&mut self.keepers, i as usize) else {
            return false;
        };
        self.states.spent(i, Outcome::Abandoned, false);
        settle(
            &mut self.states,
            &mut self.balance,
            &mut self.log,
            i,
            copy,
            Outcome::Abandoned,
        );
        true
    }

    /// Gives up all that an instance keeps that merges.
    fn give_up_keeper(&mut self, i: u32)
        requires stands { Stands P.observed self.old }
        requires within { i < length self.old.states }
        requires joins { joins_at self.old.log i ≡ true }
        requires over { abandoned self.old.log ≡ true }
        requires unleased { is_out self.old.log i ≡ false }
        ensures spent { OnlySpends P.observed i Abandoned self.old self.new }
        ensures none { at self.new.log (Held i) ≡ [] }
    {
        while self.give_up_kept(i) {}
    }

    /// Gives up all outputs of an instance.
    fn give_up_outputs(&mut self, i: u32)
        requires stands { Stands P.observed self.old }
        requires within { i < length self.old.states }
        requires over { abandoned self.old.log ≡ true }
        requires unleased { is_out self.old.log i ≡ false }
        ensures spent { OnlySpends P.observed i Abandoned self.old self.new }
        ensures over { abandoned self.new.log ≡ true }
        ensures unleased { is_out self.new.log i ≡ false }
        ensures none { at self.new.log (Outputs i) ≡ [] }
    {
        while self.give_up_output(i) {}
    }

    /// Gives up all children of an instance that wait.
    fn give_up_children(&mut self, i: u32)
        requires stands { Stands P.observed self.old }
        requires within { i < length self.old.states }
        requires over { abandoned self.old.log ≡ true }
        requires unleased { is_out self.old.log i ≡ false }
        ensures spent { OnlySpends P.observed i Abandoned self.old self.new }
        ensures over { abandoned self.new.log ≡ true }
        ensures unleased { is_out self.new.log i ≡ false }
        ensures none { (target : ℕ) → at self.new.log (Waiting i target) ≡ [] }
    {
        while self.give_up_waiting(i) {}
    }

    /// Gives up all that is in an instance's buffer.
    fn give_up_buffer(&mut self, i: u32)
        requires stands { Stands P.observed self.old }
        requires within { i < length self.old.states }
        requires over { abandoned self.old.log ≡ true }
        requires unleased { is_out self.old.log i ≡ false }
        ensures spent { OnlySpends P.observed i Abandoned self.old self.new }
        ensures over { abandoned self.new.log ≡ true }
        ensures unleased { is_out self.new.log i ≡ false }
        ensures none { (stage : ℕ) → at self.new.log (Contents i stage) ≡ [] }
    {
        while self.give_up_buffered(i) {}
    }
}
