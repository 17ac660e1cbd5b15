ghost use Rattle.std.specs.Prelude.{◌≡◌, IfOk};

use std::alloc::Global;
use std::marker::Model;
use std::sync::Arc;
use vx_value::{Event, ItemList, WantOfMemory};

/// An event that the parcels of several targets have together, since none of them changes it. Contracts see the event.
#[derive(Drop)]
pub struct SharedEvent {
    event: Arc<Event, Global>,
}

/// A list of events that parcels may have together.
pub type SharedEventList = ItemList<SharedEvent>;

impl Model for SharedEvent {
    ghost use Rattle.std.specs.Arc.{arc_value};
    ghost use Rattle.std.specs.Coded.{codes};
    ghost use Rattle.vx_value.specs.DatumCode.{coded_datum};
    ghost use Rattle.vx_value.specs.declared.event.Event.{Event};

    ghost Value = { Event };

    ghost coded = { Prim.hlevel (codes, coded_datum) };

    ghost view = { λ s. arc_value s.event };
}

impl SharedEvent {
    /// An event that nobody else has.
    pub fn new(alloc: Global, event: Event) -> Result<Self, WantOfMemory>
        ensures { IfOk result (λ shared. shared ≡ event) }
    {
        match Arc::new(alloc, event) {
            Ok(event) => Ok(SharedEvent { event }),
            Err(_) => Err(WantOfMemory),
        }
    }

    /// The same event for one more parcel. It isn't copied. Want of memory comes where 2^63 - 1 parcels have it already.
    pub fn share(&self) -> Result<Self, WantOfMemory>
        ensures { IfOk result (λ shared. shared ≡ self.now) }
    {
        match Arc::try_clone(&self.event) {
            Ok(event) => Ok(SharedEvent { event }),
            Err(_) => Err(WantOfMemory),
        }
    }

    /// The event.
    pub fn get(&self) -> &Event
        ensures { result.now ≡ self.now }
    {
        &self.event
    }
}
