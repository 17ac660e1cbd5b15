ghost use Rattle.std.specs.Prelude.{◌≡◌, ◌<◌, [], length, false, IsTrue, IsSome};
ghost use Rattle.vx_status.specs.declared.outcome.Outcome.TheVariants.{NewestDropped, NoConsumer};
ghost use Rattle.vx_record.specs.Places.{Place, same_place};
ghost use Rattle.vx_record.specs.Places.Place.{Outputs, Waiting, Held};
ghost use Rattle.vx_record.specs.Shifts.{at};
ghost use Rattle.vx_places.specs.Calls.{IsOldestFor};
ghost use Rattle.vx_places.specs.Views.{parcels_here};
ghost use Rattle.vx_moves.specs.Spends.{MaySpendFrom, MaySpendAll, HasSpent, OnlySpends};
ghost use Rattle.vx_moves.specs.Stands.{Stands};

use crate::engine::EngineState;
use crate::settle::settle;
use vx_ends::Port;
use vx_places::Lost;
use vx_status::Outcome;

impl<P: Port> EngineState<P> {
    /// Spends a copy of the oldest parcel that an instance holds, and gives the notice that is due then. Whether there was
    /// one; where there was none, nothing has changed.
    pub fn spend_held(&mut self, i: u32, outcome: Outcome) -> bool
        requires stands { Stands P.observed self.old }
        requires within { i < length self.old.states }
        requires kept { IsSome (parcels_here self.old.places (Held i)) }
        requires may { MaySpendFrom self.old.log (Held i) outcome }
        ensures spent { IsTrue result → HasSpent P.observed (Held i) outcome self.old self.new }
        ensures kept { IsSome (parcels_here self.new.places (Held i)) }
        ensures none { result ≡ false → at self.old.log (Held i) ≡ [] }
        ensures unchanged { result ≡ false → self.new ≡ self.old }
    {
        let Some(lost) = self.places.spend_held(i) else {
            return false;
        };
        let Lost { copy, last } = lost;
        self.states.spent(i, outcome, last);
        settle(
            &mut self.states,
            &mut self.balance,
            &mut self.log,
            i,
            copy,
            outcome,
        );
        true
    }

    /// Spends all that an instance holds so, and gives the notices that are due then.
    pub fn spend_all_held(&mut self, i: u32, outcome: Outcome)
        requires stands { Stands P.observed self.old }
        requires within { i < length self.old.states }
        requires kept { IsSome (parcels_here self.old.places (Held i)) }
        requires may { MaySpendAll self.old.log (Held i) outcome }
        ensures spent { OnlySpends P.observed i outcome self.old self.new }
        ensures others { (q : Place) → same_place (Held i) q ≡ false →
            at self.new.log q ≡ at self.old.log q }
        ensures kept { IsSome (parcels_here self.new.places (Held i)) }
        ensures none { at self.new.log (Held i) ≡ [] }
    {
        while self.spend_held(i, outcome) {}
    }

    /// Spends a copy of the oldest output of an instance, which nobody reads, and gives the notice that is due then.
    /// Whether there was one; where there was none, nothing has changed.
    pub fn spend_unread(&mut self, i: u32) -> bool
        requires stands { Stands P.observed self.old }
        requires within { i < length self.old.states }
        requires may { MaySpendFrom self.old.log (Outputs i) NoConsumer }
        ensures spent { IsTrue result → HasSpent P.observed (Outputs i) NoConsumer self.old self.new }
        ensures none { result ≡ false → at self.old.log (Outputs i) ≡ [] }
        ensures unchanged { result ≡ false → self.new ≡ self.old }
    {
        let Some(lost) = self.places.spend_output(i) else {
            return false;
        };
        let Lost { copy, last } = lost;
        self.states.unread(i, last);
        settle(
            &mut self.states,
            &mut self.balance,
            &mut self.log,
            i,
            copy,
            Outcome::NoConsumer,
        );
        true
    }

    /// Spends a copy of a waiting child of an instance, the oldest for its target, which is full and drops the newest, and
    /// gives the notice that is due then.
    pub fn spend_newest(&mut self, i: u32, child: usize, target: u32)
        requires stands { Stands P.observed self.old }
        requires within { i < length self.old.states }
        requires there { target < length self.old.states }
        requires oldest { IsOldestFor self.old.places i target child }
        requires may { MaySpendFrom self.old.log (Waiting i target) NewestDropped }
        ensures spent { HasSpent P.observed (Waiting i target) NewestDropped self.old self.new }
    {
        let Some(lost) = self.places.spend_waiting(i, child, target) else {
            unreachable!();
        };
        let Lost { copy, last } = lost;
        self.states.dropped(target, last);
        settle(
            &mut self.states,
            &mut self.balance,
            &mut self.log,
            i,
            copy,
            Outcome::NewestDropped,
        );
    }
}
