ghost use Rattle.std.specs.Prelude.{◌≡◌, ◌+◌, ◌<◌, ◌≤◌, ◌^◌, List, length, OnOk, IfOk};
ghost use Rattle.vx_condition.specs.Steps.{Test};
ghost use Rattle.vx_condition.specs.Picking.{accepting_ports, route_ports};
ghost use Rattle.vx_record.specs.Transforms.{AllMean, port_bits};
ghost use Rattle.vx_pick.specs.Routes.{ways_ports};
ghost use Rattle.vx_pick.specs.Picks.{AreMeant};

use crate::answer::answer;
use std::alloc::Global;
use std::marker::Model;
use vx_condition::{Condition, ConditionList};
use vx_ledger::Parcel;
use vx_transform::{Back, Immediate, Shelf};
use vx_value::{Event, WantOfMemory};

/// Puts each event out on every port whose condition holds of it. Where none holds, it goes to the last port, or is
/// discarded, as the route was made.
///
/// Contracts see the texts of the conditions, and whether what none of them accepts goes to the last port.
#[derive(Drop)]
pub struct Route {
    conditions: Vec<Condition>,
    reroute: bool,
}

impl Model for Route {
    ghost use Rattle.std.specs.Prelude.{◌≤◌, length};
    ghost use Rattle.vx_pick.specs.Routes.{Ways};

    ghost Value = { Ways };

    ghost view = { λ r. record { conditions = r.conditions.items; reroute = r.reroute } };

    ghost invariant = { λ r. length r.conditions.items ≤ 64 };
}

impl Route {
    /// The route by some conditions, the first of which is that of port 0. It takes no memory.
    pub fn new(conditions: ConditionList, reroute: bool) -> Self
        requires { length conditions ≤ 64 }
        ensures conditions { result.conditions ≡ conditions }
        ensures reroute { result.reroute ≡ reroute }
    {
        Route {
            conditions: conditions.into_vec(),
            reroute,
        }
    }

    /// The bits of the ports on which an event is put out: those whose conditions hold of it. Where none holds, that of the last
    /// port, or none, as the route was made.
    pub fn ports_for(&mut self, alloc: Global, event: &Event) -> Result<u128, WantOfMemory>
        ensures ports { IfOk result
            (λ ports. (tests : List Test) → AllMean self.old.conditions tests →
            ports ≡ port_bits (route_ports tests self.old.reroute event.now)) }
        ensures below { IfOk result (λ ports. ports < 2 ^ ways_ports self.old) }
        ensures meant { OnOk result (AreMeant self.old.conditions) }
        ensures same { self.new ≡ self.old }
    {
        ports(&mut self.conditions, self.reroute, alloc, event)
    }
}

impl Immediate for Route {
    ghost use Rattle.vx_pick.specs.Routes.{ways_ports};
    ghost use Rattle.vx_pick.specs.Judged.{Routed};

    ghost width = { ways_ports };

    ghost answers = { Routed };

    fn width(&self) -> u32 {
        self.conditions.len() as u32 + 1
    }

    /// Puts the parcel out, once, on each port whose condition holds of its event. Where none holds, puts it out on the
    /// last port, or discards it.
    fn answer(&mut self, alloc: Global, parcel: Parcel, shelf: &mut Shelf) -> Result<(), Back> {
        match self.ports_for(alloc, parcel.event.get()) {
            Ok(ports) => answer(shelf, ports, parcel),
            Err(WantOfMemory) => Err(Back { parcel }),
        }
    }
}

// The bits of the ports on which an event is put out; none where it is discarded.
fn ports(
    conditions: &mut Vec<Condition>,
    reroute: bool,
    alloc: Global,
    event: &Event,
) -> Result<u128, WantOfMemory>
    requires { length conditions.old.items ≤ 64 }
    ensures ports { IfOk result (λ ports. (tests : List Test) → AllMean conditions.old.items tests →
        ports ≡ port_bits (route_ports tests reroute event.now)) }
    ensures below { IfOk result (λ ports. ports < 2 ^ (length conditions.old.items + 1)) }
    ensures meant { OnOk result (AreMeant conditions.old.items) }
    ensures same { conditions.new.items ≡ conditions.old.items }
{
    let (accepting, behind) = accepting(conditions, alloc, event)?;
    Ok(if accepting == 0 && reroute {
        behind
    } else {
        accepting
    })
}

// The bits of the ports whose conditions hold of an event, and the bit of the port behind them all.
fn accepting(
    conditions: &mut Vec<Condition>,
    alloc: Global,
    event: &Event,
) -> Result<(u128, u128), WantOfMemory>
    requires { length conditions.old.items ≤ 64 }
    ensures accepting { IfOk result
        (λ bits. (tests : List Test) → AllMean conditions.old.items tests →
        bits.0 ≡ port_bits (accepting_ports 0 tests event.now)) }
    ensures behind { IfOk result (λ bits. bits.1 ≡ 2 ^ length conditions.old.items) }
    ensures below { IfOk result (λ bits. bits.0 < bits.1) }
    ensures meant { OnOk result (AreMeant conditions.old.items) }
    ensures same { conditions.new.items ≡ conditions.old.items }
{
    let mut accepting: u128 = 0;
    let mut bit: u128 = 1;
    for condition in conditions.iter_mut() {
        if condition.holds(alloc, event)? {
            accepting += bit;
        }
        bit *= 2;
    }
    Ok((accepting, bit))
}
