ghost use Rattle.std.specs.Prelude.{◌≡◌, ◌<◌, length, true, false, None, IsSome};
ghost use Rattle.vx_record.specs.Turns.{is_out};
ghost use Rattle.vx_record.specs.Places.Place.{Held};
ghost use Rattle.vx_places.specs.Capacities.{LendsCapacity};
ghost use Rattle.vx_places.specs.Views.{parcels_here};
ghost use Rattle.vx_tasks.specs.Joining.{joins_at};
ghost use Rattle.vx_tasks.specs.Out.{IsHeld};
ghost use Rattle.vx_moves.specs.Capacities.{IsHeldLimitOf};
ghost use Rattle.vx_moves.specs.Stands.{Stands};

use crate::engine::EngineState;
use vx_ends::Port;
use vx_ledger::Parcel;
use vx_places::Line;

impl<P: Port> EngineState<P> {
    /// Lends what an instance that is out holds to its worker, with its room. It takes no memory.
    pub fn lend(&mut self, i: u32) -> Line<Parcel>
        requires stands { Stands P.observed self.old }
        requires within { i < length self.old.states }
        requires out { is_out self.old.log i ≡ true }
        requires kept { IsSome (parcels_here self.old.places (Held i)) }
        ensures stands { Stands P.observed self.new }
        ensures held { IsHeld self.old.log i result.items }
        ensures room { IsHeldLimitOf self.old.log i result.room }
        ensures lent { parcels_here self.new.places (Held i) ≡ None }
        ensures capacities { LendsCapacity i result.room self.old.places self.new.places }
        ensures log { self.new.log ≡ self.old.log }
        ensures states { self.new.states ≡ self.old.states }
        ensures run { self.new.run ≡ self.old.run }
    {
        self.places.lend(i)
    }

    /// Takes back what was lent by an instance that doesn't merge, where it is what the record has it hold. It takes no memory.
    pub fn give_back(&mut self, i: u32, held: Line<Parcel>)
        requires stands { Stands P.observed self.old }
        requires within { i < length self.old.states }
        requires lent { parcels_here self.old.places (Held i) ≡ None }
        requires alone { joins_at self.old.log i ≡ false }
        requires held { IsHeld self.old.log i held.items }
        requires room { IsHeldLimitOf self.old.log i held.room }
        ensures stands { Stands P.observed self.new }
        ensures kept { IsSome (parcels_here self.new.places (Held i)) }
        ensures capacities { LendsCapacity i held.room self.new.places self.old.places }
        ensures log { self.new.log ≡ self.old.log }
        ensures states { self.new.states ≡ self.old.states }
        ensures run { self.new.run ≡ self.old.run }
    {
        self.places.give_back(i, held);
    }
}
