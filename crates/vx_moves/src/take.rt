ghost use Rattle.std.specs.Prelude.{◌≡◌, ◌<◌, length, true, Some, IsSome};
ghost use Rattle.vx_record.specs.declared.entry.Entry.TheVariants.{Take};
ghost use Rattle.vx_record.specs.Places.Place.{Contents, Held};
ghost use Rattle.vx_record.specs.Shifts.{at};
ghost use Rattle.vx_record.specs.Spending.{oldest};
ghost use Rattle.vx_record.specs.Turns.{lease_now};
ghost use Rattle.vx_places.specs.Calls.{HasHeldRoom};
ghost use Rattle.vx_places.specs.Looks.{IsFirstFilled};
ghost use Rattle.vx_places.specs.Views.{parcels_here};
ghost use Rattle.vx_tasks.specs.Joining.{joins_at};
ghost use Rattle.vx_moves.specs.Keepers.{IsKeeper, OneKeeper, StaysFit};
ghost use Rattle.vx_moves.specs.Leaving.{Leaves};
ghost use Rattle.vx_moves.specs.Taking.{MayTakeNow};
ghost use Rattle.vx_moves.specs.Stands.{Stands, Steps};

use crate::engine::EngineState;
use crate::keeping;
use vx_ends::Port;

impl<P: Port> EngineState<P> {
    /// Moves the oldest parcel of the first stage that has one, of the buffer of an instance that is out, behind those that it
    /// holds, at the moment of its lease in milliseconds. It takes no memory.
    pub fn take(&mut self, i: u32, stage: usize, now: u64)
        requires stands { Stands P.observed self.old }
        requires within { i < length self.old.states }
        requires first { IsFirstFilled self.old.places i (Some stage) }
        requires room { HasHeldRoom self.old.places i }
        requires may { MayTakeNow self.old.log i }
        requires moment { now ≡ lease_now self.old.log i }
        ensures steps { Steps P.observed
            (Take i stage (oldest (at self.old.log (Contents i stage)))) self.old self.new }
        ensures leaves { Leaves self.old self.new }
        ensures kept { IsSome (parcels_here self.new.places (Held i)) }
    {
        let first = self.places.holds(i) == 0;
        self.places.take(i, stage);
        self.states.took(i, now, first);
        self.log.note(&(i, stage));
    }
    /// Moves the oldest parcel of the first stage that has one, of the buffer of an instance that merges and is out, to its keeper,
    /// which has room for it, at the moment of its lease in milliseconds. It takes no memory.
    pub fn take_kept(&mut self, i: u32, stage: usize, now: u64)
        requires stands { Stands P.observed self.old }
        requires within { i < length self.old.states }
        requires first { IsFirstFilled self.old.places i (Some stage) }
        requires joins { joins_at self.old.log i ≡ true }
        requires room { IsKeeper (λ k. length k.taken.items < k.taken.room)
            self.old.keepers.items i }
        requires may { MayTakeNow self.old.log i }
        requires moment { now ≡ lease_now self.old.log i }
        ensures steps { Steps P.observed
            (Take i stage (oldest (at self.old.log (Contents i stage)))) self.old self.new }
        ensures fit { OneKeeper StaysFit i self.old.keepers.items self.new.keepers.items }
        ensures leaves { Leaves self.old self.new }
    {
        let first = keeping::keeps_none(&self.keepers, i as usize);
        let parcel = self.places.take_away(i, stage);
        keeping::keep(&mut self.keepers, i as usize, parcel);
        self.states.took(i, now, first);
        self.log.note(&(i, stage));
    }
}
