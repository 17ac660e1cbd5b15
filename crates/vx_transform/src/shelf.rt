ghost use Rattle.std.specs.Prelude.{◌≡◌, ◌↔◌, [], ◌∷◌, ◌++◌, OnOk, OnErr, IfErr, IfSome, IfNone, IsNone};
ghost use Rattle.vx_transform.specs.Shelves.{put, discard, copies_on, copies_put_out, copies_dropped};

use crate::back::Back;
use crate::both_back::BothBack;
use crate::output::Output;
use std::alloc::Global;
use std::collections::VecDeque;
use std::marker::Model;
use vx_ledger::{Finalizers, MergeRefused, Parcel, SharedEvent};

/// What a transform gave, until somebody takes it: parcels that it put out, and parcels that it discarded.
///
/// Contracts see both lists, each the oldest first. A shelf can't be dropped: `end` ends it.
pub struct Shelf {
    outputs: VecDeque<Output>,
    dropped: VecDeque<Parcel>,
}

impl Model for Shelf {
    ghost use Rattle.std.specs.Coded.{codes};
    ghost use Rattle.vx_value.specs.DatumCode.{coded_datum};
    ghost use Rattle.vx_transform.specs.Shelves.{Shelved};

    ghost Value = { Shelved };

    ghost coded = { Prim.hlevel (codes, coded_datum) };

    ghost view = { λ s. record { outputs = s.outputs.items; dropped = s.dropped.items } };
}

impl Shelf {
    /// An empty shelf. It takes no memory.
    pub fn new(alloc: Global) -> Self
        ensures outputs { result.outputs ≡ [] }
        ensures dropped { result.dropped ≡ [] }
    {
        Shelf {
            outputs: VecDeque::new(alloc),
            dropped: VecDeque::new(alloc),
        }
    }

    /// Puts a parcel out on some ports, whose bits are set. For want of memory it comes back, and the shelf is as
    /// before.
    pub fn put(&mut self, ports: u128, parcel: Parcel) -> Result<(), Back>
        ensures ok { OnOk result
            (self.new ≡ put self.old (record { ports = ports; parcel = parcel })) }
        ensures err { OnErr result (self.new ≡ self.old) }
        ensures back { IfErr result (λ refused. refused.parcel ≡ parcel) }
    {
        match self.outputs.push_back(Output { ports, parcel }) {
            Ok(()) => Ok(()),
            Err(full) => {
                let Output { ports: _, parcel } = full.value;
                Err(Back { parcel })
            }
        }
    }

    /// Puts two parcels out on some ports, one behind the other. For want of memory both come back, and the shelf is as
    /// before.
    pub fn put_both(&mut self, ports: u128, first: Parcel, second: Parcel) -> Result<(), BothBack>
        ensures ok { OnOk result
            (self.new
            ≡ put (put self.old (record { ports = ports; parcel = first }))
            (record { ports = ports; parcel = second })) }
        ensures err { OnErr result (self.new ≡ self.old) }
        ensures first { IfErr result (λ refused. refused.first ≡ first) }
        ensures second { IfErr result (λ refused. refused.second ≡ second) }
    {
        match self.outputs.reserve(2) {
            Ok(()) => {}
            Err(_) => return Err(BothBack { first, second }),
        }
        let parcel = first;
        match self.outputs.push_back(Output { ports, parcel }) {
            Ok(()) => {}
            Err(_) => unreachable!(),
        }
        let parcel = second;
        match self.outputs.push_back(Output { ports, parcel }) {
            Ok(()) => Ok(()),
            Err(_) => unreachable!(),
        }
    }

    /// Puts an event out on some ports with the copies of two lists, one behind the other. For want of memory both lists
    /// come back, and the shelf is as before.
    pub fn put_joined(
        &mut self,
        ports: u128,
        event: SharedEvent,
        first: Finalizers,
        second: Finalizers,
    ) -> Result<(), MergeRefused>
        ensures ok { OnOk result
            (self.new
            ≡ put self.old
            (record {
              ports = ports;
              parcel = record { event = event; finalizers = first ++ second };
            })) }
        ensures err { OnErr result (self.new ≡ self.old) }
        ensures first { IfErr result (λ refused. refused.first ≡ first) }
        ensures second { IfErr result (λ refused. refused.second ≡ second) }
    {
        match self.outputs.reserve(1) {
            Ok(()) => {}
            Err(_) => return Err(MergeRefused { first, second }),
        }
        let finalizers = match Finalizers::merge(first, second) {
            Ok(finalizers) => finalizers,
            Err(refused) => return Err(refused),
        };
        let parcel = Parcel { event, finalizers };
        match self.outputs.push_back(Output { ports, parcel }) {
            Ok(()) => Ok(()),
            Err(_) => unreachable!(),
        }
    }

    /// Discards a parcel. For want of memory it comes back, and the shelf is as before.
    pub fn discard(&mut self, parcel: Parcel) -> Result<(), Back>
        ensures ok { OnOk result (self.new ≡ discard self.old parcel) }
        ensures err { OnErr result (self.new ≡ self.old) }
        ensures back { IfErr result (λ refused. refused.parcel ≡ parcel) }
    {
        match self.dropped.push_back(parcel) {
            Ok(()) => Ok(()),
            Err(full) => Err(Back { parcel: full.value }),
        }
    }

    /// Takes the oldest output. `None` exactly where there is none. It takes no memory.
    pub fn take_output(&mut self) -> Option<Output>
        ensures some { IfSome result (λ output. self.old.outputs ≡ output ∷ self.new.outputs) }
        ensures none { IsNone result ↔ (self.old.outputs ≡ []) }
        ensures empty { IfNone result (self.new ≡ self.old) }
        ensures dropped { self.new.dropped ≡ self.old.dropped }
    {
        self.outputs.pop_front()
    }

    /// Takes the oldest parcel that was discarded. `None` exactly where there is none. It takes no memory.
    pub fn take_dropped(&mut self) -> Option<Parcel>
        ensures some { IfSome result (λ parcel. self.old.dropped ≡ parcel ∷ self.new.dropped) }
        ensures none { IsNone result ↔ (self.old.dropped ≡ []) }
        ensures empty { IfNone result (self.new ≡ self.old) }
        ensures outputs { self.new.outputs ≡ self.old.outputs }
    {
        self.dropped.pop_front()
    }

    /// Ends a shelf on which no copy stands. It takes no memory.
    pub fn end(self)
        requires { copies_on self ≡ [] }
    {
        let Shelf { outputs, dropped } = self;
        end_outputs(outputs);
        end_parcels(dropped);
    }
}

// Ends outputs that have no copies.
fn end_outputs(outputs: VecDeque<Output>)
    requires { copies_put_out outputs.items ≡ [] }
{
    let mut rest = outputs;
    while let Some(output) = rest.pop_front() {
        let Output { ports: _, parcel } = output;
        end_parcel(parcel);
    }
    rest.destroy_empty();
}

// Ends parcels that have no copies.
fn end_parcels(parcels: VecDeque<Parcel>)
    requires { copies_dropped parcels.items ≡ [] }
{
    let mut rest = parcels;
    while let Some(parcel) = rest.pop_front() {
        end_parcel(parcel);
    }
    rest.destroy_empty();
}

// Ends a parcel that has no copies.
fn end_parcel(parcel: Parcel)
    requires { parcel.finalizers ≡ [] }
{
    let Parcel {
        event: _,
        finalizers,
    } = parcel;
    finalizers.end();
}
