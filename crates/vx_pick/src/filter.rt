ghost use Rattle.std.specs.Prelude.{◌≡◌, ◌<◌, ◌^◌, List, [], ◌∷◌, OnOk, IfOk};
ghost use Rattle.vx_value.specs.declared.event.Event.{Event};
ghost use Rattle.vx_condition.specs.Steps.{Test};
ghost use Rattle.vx_condition.specs.Picking.{filter_passes};
ghost use Rattle.vx_record.specs.Transforms.{Means, passing, port_bits};
ghost use Rattle.vx_pick.specs.Picks.{AreMeant};

use crate::answer::{answer, bits_for};
use std::alloc::Global;
use std::marker::Model;
use vx_condition::Condition;
use vx_ledger::Parcel;
use vx_transform::{Back, Immediate, Shelf};
use vx_value::{Event, WantOfMemory};

/// Passes the events of which a condition holds, and discards all others. Contracts see its condition's text.
#[derive(Drop)]
pub struct Filter {
    condition: Condition,
}

impl Model for Filter {
    ghost use Rattle.vx_value.specs.Texts.{ByteString};

    ghost Value = { ByteString };

    ghost view = { λ f. f.condition };
}

impl Filter {
    /// The filter by a condition. It takes no memory.
    pub fn new(condition: Condition) -> Self
        ensures { result ≡ condition }
    {
        Filter { condition }
    }

    /// The bits of the ports on which an event is put out: that of port 0 where the condition holds of it, and elsewhere none.
    pub fn ports_for(&mut self, alloc: Global, event: &Event) -> Result<u128, WantOfMemory>
        ensures ports { IfOk result
            (λ ports. (test : Test) (earlier : List Event) → Means self.old test →
            ports ≡ port_bits (passing (filter_passes test) earlier event.now)) }
        ensures below { IfOk result (λ ports. ports < 2 ^ 1) }
        ensures meant { OnOk result (AreMeant (self.old ∷ [])) }
        ensures same { self.new ≡ self.old }
    {
        let holds = self.condition.holds(alloc, event)?;
        Ok(bits_for(holds))
    }
}

impl Immediate for Filter {
    ghost use Rattle.vx_pick.specs.Judged.{Filtered};

    ghost width = { λ _. 1 };

    ghost answers = { Filtered };

    fn width(&self) -> u32 {
        1
    }

    /// Puts the parcel out on port 0 where the condition holds of its event, and discards it elsewhere.
    fn answer(&mut self, alloc: Global, parcel: Parcel, shelf: &mut Shelf) -> Result<(), Back> {
        match self.ports_for(alloc, parcel.event.get()) {
            Ok(ports) => answer(shelf, ports, parcel),
            Err(WantOfMemory) => Err(Back { parcel }),
        }
    }
}
