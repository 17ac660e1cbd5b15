ghost use Rattle.std.specs.Prelude.{◌≡◌, ℕ, ◌+◌, ◌-◌, ◌*◌, ◌^◌, ◌<◌, ◌≤◌, ◌↔◌, [], ◌∷◌, ◌++◌, List, length, OnOk, IfOk, IfErr, OnErr, IfSome, IsSome, IsErr, IsTrue, Some, slice_get};
ghost use Rattle.vx_ledger.specs.Copies.{numbered, renumbered, children_of, joined, each_alone};
ghost use Rattle.vx_ledger.specs.Ledger.{AreLive, Exchanges, IsKept, IsShort, live_count, grown_rows, spent_rows, notice_of};

use crate::finalizer::Finalizer;
use crate::finalizers::{Finalizers, FinalizersList};
use crate::notice::Notice;
use crate::open_batch::OpenBatch;
use crate::short::Short;
use crate::split_refused::SplitRefused;
use crate::{alone, children, rows};
use std::alloc::Global;
use std::collections::VecDeque;
use std::marker::Model;
use vx_status::{BatchStatus, Outcome};
use vx_value::{ItemList, WantOfMemory};

// No copy has this number or a greater one.
const LIMIT: u64 = 1 << 63;

// For how many open batches there is room from the start.
const ROOM: usize = 64;

// How many copies can still have numbers.
pub(crate) fn numbers_left(next: u64) -> u64
    requires { next ≤ 2 ^ 63 }
    ensures { result + next ≡ 2 ^ 63 }
{
    LIMIT - next
}

/// The open batches of a run, and the number of the next copy.
///
/// Contracts see the next number, and the open batches in order of birth, each with its number, its
/// place, the instance that gave birth to it, its count of live copies, and the status of the copies that
/// were spent.
#[derive(Drop)]
pub struct Batches {
    next: u64,
    rows: VecDeque<OpenBatch>,
}

impl Model for Batches {
    ghost use Rattle.vx_ledger.specs.Ledger.{Ledger, IsKept};

    ghost Value = { Ledger };

    ghost view = { λ b. record { next = b.next; open_rows = b.rows.items } };

    ghost invariant = { λ b. IsKept (record { next = b.next; open_rows = b.rows.items }) };
}

impl Batches {
    /// No batch. The first copy will have the number 0.
    pub fn new(alloc: Global) -> Result<Self, WantOfMemory>
        ensures next { IfOk result (λ b. b.next ≡ 0) }
        ensures rows { IfOk result (λ b. b.open_rows ≡ []) }
        ensures kept { IfOk result IsKept }
    {
        let rows = VecDeque::with_capacity(alloc, ROOM)?;
        Ok(Batches { next: 0, rows })
    }

    /// The number of the next copy.
    pub fn next(&self) -> u64
        ensures next { result ≡ self.now.next }
        ensures kept { IsKept self.now }
    {
        self.next
    }

    /// Whether no batch is open: every copy is spent.
    pub fn is_settled(&self) -> bool
        ensures settled { IsTrue result ↔ (self.now.open_rows ≡ []) }
        ensures kept { IsKept self.now }
    {
        self.rows.is_empty()
    }

    /// Opens a batch of `n` copies, one an event. Gives its number, which is that of its first copy, and the
    /// copies.
    ///
    /// `Numbers` comes exactly where their numbers would pass 2^63, and before memory is asked for. After a
    /// refusal nothing has changed.
    pub fn born(&mut self, instance: u32, n: u32) -> Result<(u64, Finalizers), Short>
        requires { 0 < n }

        // The copies have the next numbers, and their batch is the last of the open ones.
        ensures number { IfOk result (λ r. r.0 ≡ self.old.next) }
        ensures copies { IfOk result
            (λ r. r.1 ≡ numbered n self.old.next self.old.next self.old.next) }
        ensures next { OnOk result (self.new.next ≡ self.old.next + n) }
        ensures rows { OnOk result
            (self.new.open_rows ≡ self.old.open_rows
            ++ record {
              number = self.old.next;
              place = self.old.next;
              instance = instance;
              count = n;
              status = BatchStatus.Delivered;
            } ∷ []) }
        ensures exchange { IfOk result (λ r. Exchanges self.old [] self.new r.1) }
        ensures kept { IsKept self.new }

        ensures numbers { 2 ^ 63 < self.old.next + n → IsErr result }
        ensures cause { IfErr result (IsShort self.old.next n) }
        ensures unchanged { OnErr result (self.new ≡ self.old) }
    {
        let first = match self.first_of(n) {
            Ok(first) => first,
            Err(short) => return Err(short),
        };
        let Ok(copies) = Finalizers::numbered(self.allocator(), first, n) else {
            return Err(Short::WantOfMemory);
        };
        match self.add_row(instance, n) {
            Ok(()) => Ok((first, copies)),
            Err(_) => {
                copies.destroy_unspent();
                Err(Short::WantOfMemory)
            }
        }
    }

    /// Opens a batch of `n` copies, one an event. Gives its number, which is that of its first copy, and the
    /// copies in order, each in a list of its own.
    ///
    /// The copies have the numbers that `born` gives, and all memory is taken before the batch is opened. `Numbers`
    /// comes exactly where their numbers would pass 2^63, and before memory is asked for. After a refusal nothing has
    /// changed.
    pub fn born_each(&mut self, instance: u32, n: u32) -> Result<(u64, FinalizersList), Short>
        requires { 0 < n }

        // The copies have the next numbers, and their batch is the last of the open ones.
        ensures number { IfOk result (λ r. r.0 ≡ self.old.next) }
        ensures singly { IfOk result
            (λ r. r.1 ≡ each_alone (numbered n self.old.next self.old.next self.old.next)) }
        ensures next { OnOk result (self.new.next ≡ self.old.next + n) }
        ensures rows { OnOk result
            (self.new.open_rows ≡ self.old.open_rows
            ++ record {
              number = self.old.next;
              place = self.old.next;
              instance = instance;
              count = n;
              status = BatchStatus.Delivered;
            } ∷ []) }
        ensures exchange { IfOk result (λ r. Exchanges self.old [] self.new (joined r.1)) }
        ensures kept { IsKept self.new }

        ensures numbers { 2 ^ 63 < self.old.next + n → IsErr result }
        ensures cause { IfErr result (IsShort self.old.next n) }
        ensures unchanged { OnErr result (self.new ≡ self.old) }
    {
        let first = match self.first_of(n) {
            Ok(first) => first,
            Err(short) => return Err(short),
        };
        let Ok(lists) = alone::each_numbered(self.allocator(), first, n) else {
            return Err(Short::WantOfMemory);
        };
        match self.add_row(instance, n) {
            Ok(()) => Ok((first, ItemList::from_vec(lists))),
            Err(_) => {
                children::destroy_all_unspent(lists);
                Err(Short::WantOfMemory)
            }
        }
    }

    // The number of the first of `n` new copies, where there are numbers for all of them.
    fn first_of(&self, n: u32) -> Result<u64, Short>
        ensures first { IfOk result (λ first. first ≡ self.now.next) }
        ensures fits { OnOk result (self.now.next + n ≤ 2 ^ 63) }
        ensures cause { IfErr result (IsShort self.now.next n) }
        ensures kept { IsKept self.now }
    {
        let wanted = u64::from(n);
        if wanted > numbers_left(self.next) {
            return Err(Short::Numbers {
                next: self.next,
                wanted,
            });
        }
        Ok(self.next)
    }

    // Opens a batch of the next `n` copies. For want of memory nothing has changed.
    fn add_row(&mut self, instance: u32, n: u32) -> Result<(), WantOfMemory>
        requires some { 0 < n }
        requires fits { self.old.next + n ≤ 2 ^ 63 }
        ensures next { OnOk result (self.new.next ≡ self.old.next + n) }
        ensures rows { OnOk result
            (self.new.open_rows ≡ self.old.open_rows
            ++ record {
              number = self.old.next;
              place = self.old.next;
              instance = instance;
              count = n;
              status = BatchStatus.Delivered;
            } ∷ []) }
        ensures exchange { OnOk result
            (Exchanges self.old [] self.new
            (numbered n self.old.next self.old.next self.old.next)) }
        ensures kept { IsKept self.new }
        ensures unchanged { OnErr result (self.new ≡ self.old) }
    {
        let count = u64::from(n);
        let row = OpenBatch {
            number: self.next,
            place: self.next,
            instance,
            count,
            status: BatchStatus::Delivered,
        };
        match self.rows.push_back(row) {
            Ok(()) => {
                self.next += count;
                Ok(())
            }
            Err(_) => Err(WantOfMemory),
        }
    }

    /// Replaces each copy of a list by a child for each of `k` targets, with fresh numbers. Gives one list a
    /// target.
    ///
    /// With `m` copies, the child of the copy at `j` for the target at `t` has the number
    /// `next + t * m + j`. `Numbers` comes exactly where their numbers would pass 2^63, and before memory is
    /// asked for. A refusal hands the list back, and nothing has changed.
    pub fn split(&mut self, parent: Finalizers, k: u32) -> Result<FinalizersList, SplitRefused>
        requires targets { 0 < k }
        requires live { AreLive self.old parent }

        // The children, as a whole, and for the target at t.
        ensures children { IfOk result (λ children. children ≡ children_of k self.old.next parent) }
        ensures child { IfOk result
            (λ children. (t : ℕ) → t < k →
            slice_get children t ≡ Some (renumbered (self.old.next + t * length parent) parent)) }
        ensures next { OnOk result (self.new.next ≡ self.old.next + k * length parent) }
        ensures rows { OnOk result
            (self.new.open_rows ≡ grown_rows (k - 1) parent self.old.open_rows) }
        ensures exchange { IfOk result
            (λ children. Exchanges self.old parent self.new (joined children)) }
        ensures kept { IsKept self.new }

        ensures numbers { 2 ^ 63 < self.old.next + k * length parent → IsErr result }
        ensures cause { IfErr result
            (λ refused. IsShort self.old.next (k * length parent) refused.cause) }
        ensures back { IfErr result (λ refused. refused.finalizers ≡ parent) }
        ensures unchanged { OnErr result (self.new ≡ self.old) }
    {
        let wanted = parent.len().saturating_mul(u64::from(k));
        let next = self.next();
        if wanted > numbers_left(next) {
            return Err(SplitRefused {
                cause: Short::Numbers { next, wanted },
                finalizers: parent,
            });
        }
        let Ok(children) = children::for_first(self.allocator(), &parent, next, k - 1) else {
            return Err(SplitRefused {
                cause: Short::WantOfMemory,
                finalizers: parent,
            });
        };
        let last = self.replace(parent, u64::from(k));
        Ok(children::with_last(children, last))
    }

    // Counts the children of live copies for `k` targets, and gives those for the last target, which are the
    // copies themselves with other numbers. Those for the other targets have the numbers before theirs.
    pub(crate) fn replace(&mut self, parent: Finalizers, k: u64) -> Finalizers
        requires targets { 0 < k }
        requires live { AreLive self.old parent }
        requires fits { self.old.next + k * length parent ≤ 2 ^ 63 }
        ensures last { result ≡ renumbered (self.old.next + (k - 1) * length parent) parent }
        ensures next { self.new.next ≡ self.old.next + k * length parent }
        ensures rows { self.new.open_rows ≡ grown_rows (k - 1) parent self.old.open_rows }
        ensures kept { IsKept self.new }
    {
        let more = k - 1;
        rows::grow(&mut self.rows, &parent, more);
        let mut last = parent;
        let first = self.next + more * last.len();
        self.next = first + last.len();
        last.renumber(first);
        last
    }

    // Whence the ledger takes its memory.
    fn allocator(&self) -> Global {
        *self.rows.allocator()
    }

    /// Ends a live copy with an outcome. Tells the notice of its batch exactly where it was the batch's last
    /// live copy. It takes no memory.
    pub fn spend(&mut self, finalizer: Finalizer, outcome: Outcome) -> Option<Notice>
        requires { AreLive self.old (finalizer ∷ []) }
        ensures exchange { Exchanges self.old (finalizer ∷ []) self.new [] }
        ensures next { self.new.next ≡ self.old.next }
        ensures rows { self.new.open_rows
            ≡ spent_rows finalizer.batch finalizer.place outcome self.old.open_rows }
        ensures last { IsSome result
            ↔ (live_count finalizer.batch finalizer.place self.new.open_rows ≡ 0) }
        ensures notice { result ≡ notice_of finalizer.batch finalizer.place outcome
            self.old.open_rows }
        ensures kept { IsKept self.new }
    {
        let (batch, place) = (finalizer.batch(), finalizer.place());
        finalizer.destroy_unspent();
        rows::spend(&mut self.rows, batch, place, outcome)
    }
}
