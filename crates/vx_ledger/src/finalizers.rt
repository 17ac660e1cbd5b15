ghost use Rattle.std.specs.Prelude.{◌≡◌, ℕ, ◌+◌, ◌^◌, ◌<◌, ◌≤◌, ◌↔◌, [], ◌∷◌, ◌++◌, List, length, IfOk, IfErr, OnOk, OnErr, IfSome, IfNone, IsNone, IsTrue, slice_get, slice_index_or};
ghost use Rattle.std.specs.Option.{option_copied, option_to_list};
ghost use Rattle.vx_ledger.specs.Copies.{numbered, renumbered};

use crate::finalizer::Finalizer;
use crate::merge_refused::MergeRefused;
use std::alloc::Global;
use std::marker::Model;
use vx_value::{ItemList, WantOfMemory};

/// How finalizers are kept.
enum Kept {
    /// At most one, in the value itself.
    Few(Option<Finalizer>),
    /// Any number, in memory of their own.
    Many(Vec<Finalizer>),
}

/// A list of finalizers, which takes no memory where it was made of a single one. It can't be dropped: `pop` takes them out,
/// and `end` ends it.
pub struct Finalizers {
    alloc: Global,
    kept: Kept,
}

/// A list of lists of finalizers.
pub type FinalizersList = ItemList<Finalizers>;

impl Model for Finalizers {
    ghost use Rattle.std.specs.Prelude.{List};
    ghost use Rattle.vx_ledger.specs.Copies.{Copy};

    ghost Value = { List Copy };

    ghost use Rattle.vx_ledger.specs.KeptCopies.{kept_copies};

    ghost view = { λ f. kept_copies f.kept };
}

impl Finalizers {
    /// How many finalizers there are.
    pub fn len(&self) -> u64
        ensures { result ≡ length self.now }
    {
        match &self.kept {
            Kept::Few(None) => 0,
            Kept::Few(Some(_)) => 1,
            Kept::Many(items) => items.len() as u64,
        }
    }

    /// Whether there is no finalizer.
    pub fn is_empty(&self) -> bool
        ensures { IsTrue result ↔ (self.now ≡ []) }
    {
        match &self.kept {
            Kept::Few(None) => true,
            Kept::Few(Some(_)) => false,
            Kept::Many(items) => items.is_empty(),
        }
    }

    /// The finalizer at an index, counted from 0. `None` exactly where the index isn't below the length.
    pub fn get(&self, i: u64) -> Option<&Finalizer>
        ensures { option_copied result ≡ slice_get self.now i }
    {
        match &self.kept {
            Kept::Few(one) => {
                if i > 0 {
                    return None;
                }
                one.as_ref()
            }
            Kept::Many(items) => items.get(i as usize),
        }
    }

    /// Takes the last finalizer. `None` exactly where the list is empty.
    pub fn pop(&mut self) -> Option<Finalizer>
        ensures some { IfSome result (λ f. self.old ≡ self.new ++ f ∷ []) }
        ensures none { IsNone result ↔ (self.old ≡ []) }
        ensures empty { IfNone result (self.new ≡ []) }
    {
        match &mut self.kept {
            Kept::Few(one) => one.take(),
            Kept::Many(items) => items.pop(),
        }
    }

    /// Takes the last finalizer into a list of its own. `None` exactly where the list is empty. For want of memory the
    /// list is as before.
    pub fn take_last(&mut self, alloc: Global) -> Result<Option<Self>, WantOfMemory>
        ensures some { IfOk result (λ taken. IfSome taken (λ last. self.old ≡ self.new ++ last)) }
        ensures one { IfOk result (λ taken. IfSome taken (λ last. length last ≡ 1)) }
        ensures none { IfOk result (λ taken. IsNone taken ↔ (self.old ≡ [])) }
        ensures empty { IfOk result (λ taken. IfNone taken (self.new ≡ [])) }
        ensures err { OnErr result (self.new ≡ self.old) }
    {
        match self.pop() {
            Some(finalizer) => Ok(Some(Finalizers::of(alloc, finalizer))),
            None => Ok(None),
        }
    }

    /// The first list with the second behind it. For want of memory both come back.
    pub fn merge(first: Finalizers, second: Finalizers) -> Result<Finalizers, MergeRefused>
        ensures merged { IfOk result (λ merged. merged ≡ first ++ second) }
        ensures first { IfErr result (λ refused. refused.first ≡ first) }
        ensures second { IfErr result (λ refused. refused.second ≡ second) }
    {
        let mut front = match first.into_vec() {
            Ok(front) => front,
            Err(first) => return Err(MergeRefused { first, second }),
        };
        match add_all(&mut front, second) {
            Ok(()) => Ok(Finalizers::of_vec(front)),
            Err(second) => Err(MergeRefused {
                first: Finalizers::of_vec(front),
                second,
            }),
        }
    }

    /// Ends an empty list.
    pub fn end(self)
        requires { self ≡ [] }
    {
        let Finalizers { alloc: _, kept } = self;
        match kept {
            Kept::Few(None) => {}
            Kept::Few(Some(finalizer)) => {
                finalizer.destroy_unspent();
                unreachable!();
            }
            Kept::Many(items) => items.destroy_empty(),
        }
    }

    // A list of a single finalizer. It takes no memory.
    fn of(alloc: Global, finalizer: Finalizer) -> Self
        ensures { result ≡ finalizer ∷ [] }
    {
        Finalizers {
            alloc,
            kept: Kept::Few(Some(finalizer)),
        }
    }

    // The list of a vector's finalizers. It takes no memory.
    fn of_vec(items: Vec<Finalizer>) -> Self
        ensures { result ≡ items.items }
    {
        Finalizers {
            alloc: *items.allocator(),
            kept: Kept::Many(items),
        }
    }

    // The finalizers in a vector. For want of memory the list comes back.
    fn into_vec(self) -> Result<Vec<Finalizer>, Finalizers>
        ensures vector { IfOk result (λ items. items.items ≡ self) }
        ensures back { IfErr result (λ back. back ≡ self) }
    {
        let Finalizers { alloc, kept } = self;
        match kept {
            Kept::Few(one) => in_vec(alloc, one),
            Kept::Many(items) => Ok(items),
        }
    }

    // The first `n` copies of the batch that begins at the number `first`.
    pub(crate) fn numbered(alloc: Global, first: u64, n: u32) -> Result<Self, WantOfMemory>
        requires { first + n ≤ 2 ^ 63 }
        ensures { IfOk result (λ f. f ≡ numbered n first first first) }
    {
        let mut items = Vec::with_capacity(alloc, n as usize)?;
        for i in 0..n {
            items.push_reserved(Finalizer::make(first, first + u64::from(i), first));
        }
        Ok(Finalizers::of_vec(items))
    }

    // One copy of the batch that has the number `batch`, in a list of its own. It takes no memory.
    pub(crate) fn alone(alloc: Global, batch: u64, number: u64) -> Self
        ensures { result ≡ record { batch = batch; number = number; place = batch } ∷ [] }
    {
        Finalizers::of(alloc, Finalizer::make(batch, number, batch))
    }

    // The same copies with fresh numbers, from `first` on, in a list of their own. A single copy takes no memory.
    pub(crate) fn renumbered(&self, alloc: Global, first: u64) -> Result<Self, WantOfMemory>
        requires { first + length self.now ≤ 2 ^ 63 }
        ensures { IfOk result (λ f. f ≡ renumbered first self.now) }
    {
        let count = self.len();
        if count == 1 {
            let single = self.at(0);
            let again = Finalizer::make(single.batch(), first, single.place());
            return Ok(Finalizers::of(alloc, again));
        }
        let mut items = Vec::with_capacity(alloc, count as usize)?;
        for i in 0..count {
            let copy = self.at(i);
            items.push_reserved(Finalizer::make(copy.batch(), first + i, copy.place()));
        }
        Ok(Finalizers::of_vec(items))
    }

    pub(crate) fn at(&self, i: u64) -> &Finalizer
        requires { i < length self.now }
        ensures { result.now ≡ slice_index_or self.now i result.now }
    {
        match &self.kept {
            Kept::Few(Some(finalizer)) => finalizer,
            Kept::Few(None) => unreachable!(),
            Kept::Many(items) => &items[i as usize],
        }
    }

    // Gives each copy a fresh number, from `first` on.
    pub(crate) fn renumber(&mut self, first: u64)
        requires { first + length self.old < 2 ^ 64 }
        ensures { self.new ≡ renumbered first self.old }
    {
        match &mut self.kept {
            Kept::Few(None) => {}
            Kept::Few(Some(finalizer)) => finalizer.set_number(first),
            Kept::Many(items) => renumber_all(items, first),
        }
    }

    // Only the ledger ends finalizers that aren't spent: copies that were never handed out.
    pub(crate) fn destroy_unspent(self) {
        let mut rest = self;
        while let Some(finalizer) = rest.pop() {
            finalizer.destroy_unspent();
        }
        rest.end();
    }
}

// At most one finalizer in a vector. For want of memory it comes back.
fn in_vec(alloc: Global, one: Option<Finalizer>) -> Result<Vec<Finalizer>, Finalizers>
    ensures vector { IfOk result (λ items. items.items ≡ option_to_list one) }
    ensures back { IfErr result (λ back. back ≡ option_to_list one) }
{
    let Ok(items) = Vec::with_capacity(alloc, 1) else {
        let kept = Kept::Few(one);
        return Err(Finalizers { alloc, kept });
    };
    let mut items = items;
    match one {
        Some(finalizer) => items.push_reserved(finalizer),
        None => {}
    }
    Ok(items)
}

// Adds finalizers behind those of a vector. For want of memory they come back, and the vector is as before.
fn add_all(items: &mut Vec<Finalizer>, more: Finalizers) -> Result<(), Finalizers>
    ensures ok { OnOk result (items.new.items ≡ items.old.items ++ more) }
    ensures err { OnErr result (items.new.items ≡ items.old.items) }
    ensures back { IfErr result (λ back. back ≡ more) }
{
    let Finalizers { alloc, kept } = more;
    match kept {
        Kept::Few(None) => Ok(()),
        Kept::Few(Some(finalizer)) => match items.push(finalizer) {
            Ok(()) => Ok(()),
            Err(full) => Err(Finalizers::of(alloc, full.value)),
        },
        Kept::Many(mut more) => match items.append(&mut more) {
            Ok(()) => {
                more.destroy_empty();
                Ok(())
            }
            Err(_) => Err(Finalizers::of_vec(more)),
        },
    }
}

fn renumber_all(items: &mut Vec<Finalizer>, first: u64)
    requires { first + length items.old.items < 2 ^ 64 }
    ensures { items.new.items ≡ renumbered first items.old.items }
{
    let mut number = first;
    for finalizer in items.iter_mut() {
        finalizer.set_number(number);
        number += 1;
    }
}
