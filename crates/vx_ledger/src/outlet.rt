ghost use Rattle.std.specs.Prelude.{◌≡◌, ℕ, ◌+◌, ◌-◌, ◌*◌, ◌^◌, ◌<◌, ◌≤◌, ◌↔◌, ◌==◌, [], ◌∷◌, ◌++◌, List, length, take, min, replicate, slice_get, slice_set, All, IfOk, IfErr, IfSome, OnErr, OnOk, IsErr, IsTrue, vec_capacity};
ghost use Rattle.std.specs.Int.{bit_at};
ghost use Rattle.std.specs.Option.{option_copied};
ghost use Rattle.vx_ledger.specs.Ledger.{AreLive, Exchanges, IsKept, IsShort, grown_rows};
ghost use Rattle.vx_ledger.specs.Routing.{targets_of, child_of, children_for, copies_in, IfChildren, IfNoConsumer, IsNoConsumer};

use crate::batches::{Batches, numbers_left};
use crate::child::Child;
use crate::parcel::Parcel;
use crate::route;
use crate::route_refused::RouteRefused;
use crate::routed::Routed;
use crate::short::Short;
use std::alloc::Global;
use std::marker::Model;
use vx_value::{ItemList, NumberList, WantOfMemory};

/// The ports of an instance, with the numbers of the instances that each of them goes to.
///
/// Contracts see the list of targets of each port.
#[derive(Drop)]
pub struct Outlet {
    ports: Vec<NumberList>,
}

impl Model for Outlet {
    ghost use Rattle.std.specs.Prelude.{List, ℕ, ◌<◌, ◌^◌, All};

    ghost Value = { List (List ℕ) };

    ghost view = { λ o. o.ports.items };

    ghost invariant = { λ o. All (λ targets. All (λ t. t < 2 ^ 32) targets) o.ports.items };
}

impl Outlet {
    /// An outlet with that many ports, none of which has a target.
    pub fn new(alloc: Global, ports: u32) -> Result<Self, WantOfMemory>
        ensures { IfOk result (λ outlet. outlet ≡ replicate ports []) }
    {
        let mut lists = Vec::with_capacity(alloc, ports as usize)?;
        for _ in 0..ports {
            lists.push_reserved(ItemList::new(alloc));
        }
        Ok(Outlet { ports: lists })
    }

    /// Gives a port other targets. It takes no memory.
    pub fn rewire(&mut self, port: u32, targets: NumberList)
        requires exists { port < length self.old }
        requires instances { All (λ t. t < 2 ^ 32) targets }
        ensures { self.new ≡ slice_set self.old port targets }
    {
        self.ports[port as usize] = targets;
    }

    /// The numbers of the instances that a port goes to. `None` exactly where there is no such port.
    pub fn port_targets(&self, port: u32) -> Option<&NumberList>
        ensures { option_copied result ≡ slice_get self.now port }
    {
        self.ports.get(port as usize)
    }

    /// Splits a parcel to all targets of a set of ports, which has the bit of each port that it names. Gives one
    /// child for each target of each port, in port order, or the parcel where none of the ports has a target.
    /// The list of the children lies in the memory of an empty list, as far as that has room.
    ///
    /// The copies of the children are numbered as `Batches::split` numbers them. Each child has the parcel's
    /// event. `Numbers` comes exactly where the numbers would pass 2^63, and before memory is asked for. A
    /// refusal hands the parcel back, and nothing has changed.
    pub fn route(
        &self,
        ports: u128,
        parcel: Parcel,
        batches: &mut Batches,
        room: Vec<Child>,
    ) -> Result<Routed, RouteRefused>
        requires live { AreLive batches.old parcel.finalizers }
        requires empty { room.items ≡ [] }

        ensures children { IfChildren result
            (λ children. children
            ≡ children_for (targets_of ports self.now) batches.old.next parcel) }
        ensures next { IfChildren result
            (λ _. batches.new.next
            ≡ batches.old.next + length (targets_of ports self.now) * length parcel.finalizers) }
        ensures rows { IfChildren result
            (λ _. batches.new.open_rows
            ≡ grown_rows
            (length (targets_of ports self.now) - 1) parcel.finalizers batches.old.open_rows) }
        ensures exchange { IfChildren result
            (λ children. Exchanges batches.old parcel.finalizers batches.new (copies_in children)) }
        ensures kept { IsKept batches.new }

        ensures no_consumer { IsNoConsumer result ↔ (targets_of ports self.now ≡ []) }
        ensures whole { IfNoConsumer result (λ back. back ≡ parcel) }
        ensures unmoved { IfNoConsumer result (λ _. batches.new ≡ batches.old) }

        ensures numbers { 2 ^ 63 < batches.old.next + length
            (targets_of ports self.now) * length parcel.finalizers → IsErr result }
        ensures cause { IfErr result
            (λ refused. IsShort batches.old.next
            (length (targets_of ports self.now) * length parcel.finalizers) refused.cause) }
        ensures back { IfErr result (λ refused. refused.parcel ≡ parcel) }
        ensures unchanged { OnErr result (batches.new ≡ batches.old) }
    {
        let count = self.count(ports);
        let next = batches.next();
        if count == 0 {
            room.destroy_empty();
            return Ok(Routed::NoConsumer(parcel));
        }
        let wanted = parcel.finalizers.len().saturating_mul(count);
        if wanted > numbers_left(next) {
            room.destroy_empty();
            return Err(RouteRefused {
                cause: Short::Numbers { next, wanted },
                parcel,
            });
        }
        let Ok((others, target)) = self.others(ports, count, &parcel, next, room) else {
            return Err(RouteRefused {
                cause: Short::WantOfMemory,
                parcel,
            });
        };
        let Parcel { event, finalizers } = parcel;
        let finalizers = batches.replace(finalizers, count);
        let last = Child {
            target,
            parcel: Parcel { event, finalizers },
        };
        Ok(Routed::Children(route::with_last(others, last)))
    }

    // The children for all targets but the last, and the last target. It is told how many targets there are.
    fn others(
        &self,
        ports: u128,
        count: u64,
        parcel: &Parcel,
        first: u64,
        room: Vec<Child>,
    ) -> Result<(Vec<Child>, u32), WantOfMemory>
        requires empty { room.items ≡ [] }
        requires some { 0 < length (targets_of ports self.now) }
        requires fits { first + length (targets_of ports self.now) * length parcel.now.finalizers
            ≤ 2 ^ 63 }
        ensures children { IfOk result
            (λ r. children_for (targets_of ports self.now) first parcel.now ≡ r.0.items
            ++ child_of r.1
            (first + (length (targets_of ports self.now) - 1) * length parcel.now.finalizers)
            parcel.now ∷ []) }
        ensures room { IfOk result (λ r. length r.0.items < vec_capacity r.0) }
        ensures few { OnOk result (length (targets_of ports self.now) < 2 ^ 63) }
    {
        let alloc = *self.ports.allocator();
        if let Some(targets) = self.only_targets(ports) {
            return route::others(alloc, targets.as_slice(), parcel, first, room);
        }
        match self.targets(ports, count) {
            Ok(targets) => route::others(alloc, targets.as_slice(), parcel, first, room),
            Err(WantOfMemory) => {
                room.destroy_empty();
                Err(WantOfMemory)
            }
        }
    }

    // The targets of the ports, where the outlet has a single port and that is one of them.
    fn only_targets(&self, ports: u128) -> Option<&NumberList>
        ensures targets { IfSome result (λ targets. targets.now ≡ targets_of ports self.now) }
        ensures instances { IfSome result (λ targets. All (λ t. t < 2 ^ 32) targets.now) }
    {
        if self.ports.len() != 1 || !is_named(ports, 0) {
            return None;
        }
        Some(&self.ports[0])
    }

    // How many targets the ports have, or 2^64 - 1 where they are more.
    fn count(&self, ports: u128) -> u64
        ensures { result ≡ min (length (targets_of ports self.now)) (2 ^ 64 - 1) }
    {
        let mut count: u64 = 0;
        for port in 0..self.ports.len() {
            if is_named(ports, port) {
                count = count.saturating_add(self.ports[port].len() as u64);
            }
        }
        count
    }

    // The targets of the ports, in port order, in room for so many.
    fn targets(&self, ports: u128, count: u64) -> Result<Vec<u64>, WantOfMemory>
        ensures targets { IfOk result (λ targets. targets.items ≡ targets_of ports self.now) }
        ensures instances { IfOk result (λ targets. All (λ t. t < 2 ^ 32) targets.items) }
    {
        let mut targets = Vec::with_capacity(*self.ports.allocator(), count as usize)?;
        for port in 0..self.ports.len() {
            if is_named(ports, port) {
                targets.extend_from_slice(self.ports[port].as_slice())?;
            }
        }
        Ok(targets)
    }
}

// Whether the set of ports has the bit of the port.
fn is_named(ports: u128, port: usize) -> bool
    ensures { result ≡ (bit_at ports port == 1) }
{
    port < 128 && (ports >> port) & 1 == 1
}
