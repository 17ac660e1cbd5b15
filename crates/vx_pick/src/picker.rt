ghost use Rattle.std.specs.Prelude.{◌≡◌, [], ◌∷◌, ◌++◌, List, IfOk, OnOk, OnErr};
ghost use Rattle.vx_value.specs.declared.event.Event.{Event};
ghost use Rattle.vx_plan.specs.declared.settings.Settings.{Settings};
ghost use Rattle.vx_plan.specs.Options.{conditions_of};
ghost use Rattle.vx_pick.specs.Picks.{Picks, StandsFor, AreMeant, ArePicked};

use crate::dedupe::Dedupe;
use crate::filter::Filter;
use crate::route::Route;
use crate::sample::Sample;
use std::alloc::Global;
use vx_value::{Event, WantOfMemory};

/// A transform that judges event by event, by those that came before.
#[derive(Drop)]
pub enum Picker {
    Filter(Filter),
    Route(Route),
    Sample(Sample),
    Dedupe(Dedupe),
}

impl Picker {
    /// The bits of the ports on which the next event is put out; 0 where it is discarded. Where the settings of a component are what it
    /// does, and it saw the events that came before, the ports are those that these settings say, their conditions mean something, and
    /// it saw this event too then. For want of memory all is as before. A filter and a route, and a sample, need memory only for a
    /// condition with `match` in it, and a dedupe for each key.
    pub fn ports_for(&mut self, alloc: Global, event: &Event) -> Result<u128, WantOfMemory>
        ensures ports { IfOk result
            (λ ports. (settings : Settings) (earlier : List Event) → Picks settings self.old →
            StandsFor self.old earlier → ArePicked settings earlier event.now ports) }
        ensures meant { OnOk result
            ((settings : Settings) → Picks settings self.old → AreMeant (conditions_of settings)) }
        ensures stands { OnOk result
            ((earlier : List Event) → StandsFor self.old earlier →
            StandsFor self.new (earlier ++ event.now ∷ [])) }
        ensures picks { (settings : Settings) → Picks settings self.old → Picks settings self.new }
        ensures same { OnErr result (self.new ≡ self.old) }
    {
        match self {
            Picker::Filter(filter) => filter.ports_for(alloc, event),
            Picker::Route(route) => route.ports_for(alloc, event),
            Picker::Sample(sample) => sample.ports_for(alloc, event),
            Picker::Dedupe(dedupe) => dedupe.ports_for(alloc, event),
        }
    }
}
