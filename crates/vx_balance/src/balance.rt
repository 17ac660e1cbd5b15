ghost use Rattle.std.specs.Prelude.{◌≡◌, ℕ, ◌+◌, ◌*◌, ◌^◌, ◌<◌, ◌≤◌, ◌↔◌, [], ◌∷◌, length, IfOk, IfErr, OnErr, IfSome, IfNone, IsErr, IsTrue};
ghost use Rattle.vx_ledger.specs.Copies.{joined, each_alone};
ghost use Rattle.vx_ledger.specs.Ledger.{IsShort};
ghost use Rattle.vx_ledger.specs.Routing.{targets_of, IfChildren, IsNoConsumer, IfNoConsumer};
ghost use Rattle.vx_record.specs.Records.{Record};
ghost use Rattle.vx_record.specs.Copies.{next_copy};
ghost use Rattle.vx_balance.specs.Balances.{Balances, HasHeld};
ghost use Rattle.vx_balance.specs.Promises.{CreatesBatch, Splits, Routes, LeavesOpen, ClosesBatch};

use std::alloc::Global;
use std::marker::Model;
use vx_ledger::{
    Batches, Child, Finalizer, Finalizers, FinalizersList, Notice, Outlet, Parcel, RouteRefused,
    Routed, Short, SplitRefused,
};
use vx_status::Outcome;
use vx_value::WantOfMemory;

/// The open batches of a run, as its record has them.
///
/// Contracts see the next number and the open batches. `Balances` says that these are the record's: what a call ensures
/// is that it leads from every record that was balanced to the one with its entry more.
#[derive(Drop)]
pub struct Balance {
    batches: Batches,
}

impl Model for Balance {
    ghost use Rattle.vx_ledger.specs.Ledger.{Ledger};

    ghost Value = { Ledger };

    ghost view = { λ b. b.batches };
}

impl Balance {
    /// No batch is open, as at the beginning of a record.
    pub fn new(alloc: Global) -> Result<Self, WantOfMemory>
        ensures { IfOk result (λ b. Balances b []) }
    {
        let batches = Batches::new(alloc)?;
        Ok(Balance { batches })
    }

    /// The number of the next copy.
    pub fn next(&self) -> u64
        ensures number { result ≡ self.now.next }
    {
        self.batches.next()
    }

    /// Whether no batch is open: every copy is spent, and every batch noticed.
    pub fn is_settled(&self) -> bool
        ensures { IsTrue result ↔ (self.now.open_rows ≡ []) }
    {
        self.batches.is_settled()
    }

    /// Creates a batch of `n` copies for an instance. Gives its number and the copies in order, each in a list of its own.
    ///
    /// `Numbers` comes exactly where their numbers would pass 2^63, and before memory is asked for. After a refusal nothing
    /// has changed.
    pub fn start_batch(&mut self, instance: u32, n: u32) -> Result<(u64, FinalizersList), Short>
        requires { 0 < n }
        ensures creates { IfOk result (λ r. CreatesBatch instance n r.0 (joined r.1) self.old self.new) }
        ensures each { IfOk result (λ r. r.1 ≡ each_alone (joined r.1)) }
        ensures numbers { 2 ^ 63 < self.old.next + n → IsErr result }
        ensures cause { IfErr result (IsShort self.old.next n) }
        ensures unchanged { OnErr result (self.new ≡ self.old) }
    {
        self.batches.born_each(instance, n)
    }

    /// Replaces each copy in hand by a child for each of `k` targets. Gives one list a target.
    ///
    /// `Numbers` comes exactly where their numbers would pass 2^63, and before memory is asked for. A refusal hands the
    /// copies back, and nothing has changed.
    pub fn split(&mut self, parent: Finalizers, k: u32) -> Result<FinalizersList, SplitRefused>
        requires targets { 0 < k }
        requires held { HasHeld self.old parent }
        ensures splits { IfOk result (λ children. Splits k parent children self.old self.new) }
        ensures numbers { 2 ^ 63 < self.old.next + k * length parent → IsErr result }
        ensures cause { IfErr result
            (λ refused. IsShort self.old.next (k * length parent) refused.cause) }
        ensures back { IfErr result (λ refused. refused.finalizers ≡ parent) }
        ensures unchanged { OnErr result (self.new ≡ self.old) }
    {
        self.batches.split(parent, k)
    }

    /// Splits a parcel in hand to all targets of some ports of an outlet. Gives one child for each target of each port, in
    /// port order, or the parcel where none of the ports has a target. The list of the children lies in the memory of an empty list,
    /// as far as that has room.
    ///
    /// Each child has the parcel's event. `Numbers` comes exactly where the numbers would pass 2^63, and before memory is
    /// asked for. A refusal hands the parcel back, and nothing has changed.
    pub fn route(
        &mut self,
        outlet: &Outlet,
        ports: u128,
        parcel: Parcel,
        room: Vec<Child>,
    ) -> Result<Routed, RouteRefused>
        requires held { HasHeld self.old parcel.finalizers }
        requires empty { room.items ≡ [] }
        ensures routes { IfChildren result
            (λ children. Routes (targets_of ports outlet.now) parcel children self.old self.new) }
        ensures no_consumer { IsNoConsumer result ↔ (targets_of ports outlet.now ≡ []) }
        ensures whole { IfNoConsumer result (λ back. back ≡ parcel) }
        ensures unmoved { IfNoConsumer result (λ _. self.new ≡ self.old) }
        ensures numbers { 2 ^ 63 < self.old.next + length
            (targets_of ports outlet.now) * length parcel.finalizers → IsErr result }
        ensures cause { IfErr result
            (λ refused. IsShort self.old.next
            (length (targets_of ports outlet.now) * length parcel.finalizers) refused.cause) }
        ensures back { IfErr result (λ refused. refused.parcel ≡ parcel) }
        ensures unchanged { OnErr result (self.new ≡ self.old) }
    {
        outlet.route(ports, parcel, &mut self.batches, room)
    }

    /// Spends a copy in hand. Tells the notice of its batch exactly where it was the batch's last live copy. It takes no
    /// memory.
    pub fn spend(&mut self, finalizer: Finalizer, outcome: Outcome) -> Option<Notice>
        requires { HasHeld self.old (finalizer ∷ []) }
        ensures leaves { IfNone result (LeavesOpen finalizer outcome self.old self.new) }
        ensures closes { IfSome result (ClosesBatch finalizer outcome self.old self.new) }
    {
        self.batches.spend(finalizer, outcome)
    }
}
