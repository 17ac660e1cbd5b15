ghost use Rattle.std.specs.Prelude.{◌≡◌, ◌<◌, ◌≤◌, ◌↔◌, ℕ, true, false, [], ◌∷◌, ◌++◌, List, None, length, OnOk, OnErr, IfOk, IfSome, IfNone, IsNone, IsTrue, count_by};
ghost use Rattle.vx_ledger.specs.Copies.{numbers_of};
ghost use Rattle.vx_transform.specs.Shelves.{copies_put_out};
ghost use Rattle.vx_condition.specs.Steps.{ticks};
ghost use Rattle.vx_record.specs.Records.{Record};
ghost use Rattle.vx_record.specs.Turns.{lease_now};
ghost use Rattle.vx_record.specs.Places.Place.{Held};
ghost use Rattle.vx_record.specs.Inputs.{Input as NotedInput, inputs, to_answer, flush};
ghost use Rattle.vx_record.specs.Tallies.{is_first};
ghost use Rattle.vx_record.specs.Shifts.{at};
ghost use Rattle.vx_record.specs.Legal.{IsLegal};
ghost use Rattle.vx_record.specs.declared.entry.Entry.TheVariants.{Take, Answer};
ghost use Rattle.vx_places.specs.Holding.{AreKnown};
ghost use Rattle.vx_keeping.specs.Kept.{loose_copies, copies_kept, HoldsNone};
ghost use Rattle.vx_keeping.specs.Given.{SameCopies};
ghost use Rattle.vx_keeping.specs.Stored.{copies_stored, IsSettled};
ghost use Rattle.vx_keeping.specs.Keeping.{taken_in, RunsWith, RunsHost, Accounts, Keeps, HasMade};
ghost use Rattle.vx_keeping.specs.Answers.{notes_of, IsDueBehind, GivesUp, TakesOut};

use crate::hosts::Hosts;
use crate::maker::Maker;
use crate::store::Store;
use std::alloc::Global;
use std::marker::Model;
use std::mem;
use vx_ledger::{Finalizer, Parcel};
use vx_reduce::{Reduce, ReduceSettings};
use vx_transform::Output;
use vx_value::{ItemList, WantOfMemory};

/// What an instance keeps from one answer to the next that reduces, or runs a transform that the program hands in: the groups that its
/// reduce holds, the parcels that it took since the last answer, what it puts out and discards as the next one, and what is left of what
/// the last one discarded. It can't be dropped, since it holds copies: `end` ends one that has none.
///
/// `Keeps` says that this is what a record has, and `HasMade` that so much was given behind what is answered, and that what this has
/// it put out waits for its Answer. What a call ensures is that it leads from each record of which one of the two is so to that with
/// an entry more, or from the one to the other.
///
/// It is fit until no memory is found for an answer, or its copies are given up. From then on only these are accounted for.
pub struct Keeper {
    store: Store,
    // Once it isn't fit, the copy that is given up next. None exactly where it has none then.
    loose: Option<Finalizer>,
    fit: bool,
}

impl Model for Keeper {
    ghost use Rattle.std.specs.Coded.{codes};
    ghost use Rattle.vx_value.specs.DatumCode.{coded_datum};
    ghost use Rattle.vx_keeping.specs.Kept.{Kept};
    ghost use Rattle.vx_keeping.specs.Stored.{kept_of, IsSettled};

    ghost Value = { Kept };

    ghost coded = { Prim.hlevel (codes, coded_datum) };

    ghost view = { λ k. kept_of k.store k.loose k.fit };

    ghost invariant = { λ k. IsSettled k.store k.loose k.fit };
}

impl Keeper {
    /// A keeper that has nothing, with room for at least so many parcels. It is that of each record in which the instance reduces by
    /// these settings, was given nothing and holds nothing.
    pub fn reducing(
        alloc: Global,
        settings: ReduceSettings,
        room: usize,
    ) -> Result<Self, WantOfMemory>
        ensures keeps { IfOk result
            (λ k. (h : Record) (i : ℕ) → RunsWith h i settings → inputs h i ≡ [] →
            at h (Held i) ≡ [] → Keeps k h i) }
        ensures fit { IfOk result (λ k. k.fit ≡ true) }
        ensures room { IfOk result (λ k. room ≤ k.taken.room) }
        ensures none { IfOk result (λ k. copies_kept k ≡ []) }
        ensures discarded { IfOk result (λ k. k.discarded ≡ []) }
    {
        let reduce = Reduce::new(settings)?;
        let store = Store::new(alloc, Maker::Reduce(reduce), room)?;
        Ok(Keeper {
            store,
            loose: None,
            fit: true,
        })
    }

    /// A keeper that has nothing, with room for at least so many parcels. It is that of each record in which the instance runs a
    /// transform that the program hands in, was given nothing and holds nothing.
    pub fn hosting(alloc: Global, room: usize) -> Result<Self, WantOfMemory>
        ensures keeps { IfOk result
            (λ k. (h : Record) (i : ℕ) → RunsHost h i → inputs h i ≡ [] →
            at h (Held i) ≡ [] → Keeps k h i) }
        ensures fit { IfOk result (λ k. k.fit ≡ true) }
        ensures room { IfOk result (λ k. room ≤ k.taken.room) }
        ensures none { IfOk result (λ k. copies_kept k ≡ []) }
        ensures discarded { IfOk result (λ k. k.discarded ≡ []) }
    {
        let store = Store::new(alloc, Maker::Host, room)?;
        Ok(Keeper {
            store,
            loose: None,
            fit: true,
        })
    }

    /// Whether it is fit.
    pub fn is_fit(&self) -> bool
        ensures { result ≡ self.now.fit }
    {
        self.fit
    }

    /// Whether there is room for one more parcel.
    pub fn has_room(&self) -> bool
        ensures { IsTrue result ↔ (length self.now.taken.items < self.now.taken.room) }
    {
        !self.store.taken.is_full()
    }

    /// Whether a parcel was taken since the last answer.
    pub fn has_taken(&self) -> bool
        ensures items { IsTrue result ↔ (0 < length self.now.taken.items) }
        ensures exact { self.now.fit ≡ true → (h : Record) (i : ℕ) → Keeps self.now h i →
            (result ≡ false) ↔ (taken_in h i ≡ []) }
    {
        !self.store.taken.is_empty()
    }

    /// Takes a parcel, for which there is room, as a Take says. What is discarded stays so while it is fit. It takes no memory.
    pub fn take(&mut self, parcel: Parcel)
        requires { length self.old.taken.items < self.old.taken.room }
        ensures keeps { (h : Record) (i stage : ℕ) → Keeps self.old h i →
            IsLegal (Take i stage (numbers_of parcel.finalizers) ∷ h) → AreKnown h (parcel ∷ []) →
            Keeps self.new (Take i stage (numbers_of parcel.finalizers) ∷ h) i }
        ensures same { SameCopies
            (copies_kept self.old ++ parcel.finalizers) (copies_kept self.new) }
        ensures discarded { self.old.fit ≡ true → self.new.discarded ≡ self.old.discarded }
        ensures fit { self.new.fit ≡ self.old.fit }
        ensures room { self.new.taken.room ≡ self.old.taken.room }
    {
        self.store.taken.push(parcel);
        if !self.fit {
            find_next(&mut self.store, &mut self.loose);
        }
    }

    /// Gives its maker all that was taken, in order, at the moment of the instance's last Lease. What that puts out and discards may be
    /// noted as the answer then, or behind a tick. What the last answer discarded is spent before.
    ///
    /// For want of memory it may have given some first ones, and isn't fit any more. One that wasn't fit answers the same.
    pub fn answer<H: Hosts>(
        &mut self,
        alloc: Global,
        hosts: &mut H,
        instance: u32,
        now: u64,
    ) -> Result<(), WantOfMemory>
        ensures made { OnOk result
            ((h : Record) (i : ℕ) → now ≡ lease_now h i → Keeps self.old h i →
            self.old.discarded ≡ [] → HasMade self.new h i (taken_in h i)) }
        ensures had { OnOk result (self.old.fit ≡ true) }
        ensures fit { OnOk result (self.new.fit ≡ true) }
        ensures short { OnErr result
            ((h : Record) (i : ℕ) → Accounts self.old h i → Keeps self.new h i) }
        ensures same { SameCopies (copies_kept self.old) (copies_kept self.new) }
        ensures unfit { OnErr result (self.new.fit ≡ false) }
        ensures room { self.new.taken.room ≡ self.old.taken.room }
    {
        if !self.fit {
            return Err(WantOfMemory);
        }
        match self.store.answer(alloc, hosts, instance, now) {
            Ok(()) => Ok(()),
            Err(WantOfMemory) => {
                make_unfit(&mut self.store, &mut self.loose, &mut self.fit);
                Err(WantOfMemory)
            }
        }
    }

    /// Has its maker act by itself at a moment, behind what it was given, as a Tick says.
    ///
    /// For want of memory it may have put out a part, and isn't fit any more. One that wasn't fit answers the same.
    pub fn tick<H: Hosts>(
        &mut self,
        alloc: Global,
        hosts: &mut H,
        instance: u32,
        now: u64,
    ) -> Result<(), WantOfMemory>
        ensures made { OnOk result
            ((h : Record) (i : ℕ) (given : List NotedInput) → HasMade self.old h i given →
            HasMade self.new h i (given ++ record { step = ticks now; copies = [] } ∷ [])) }
        ensures had { OnOk result (self.old.fit ≡ true) }
        ensures fit { OnOk result (self.new.fit ≡ true) }
        ensures short { OnErr result
            ((h : Record) (i : ℕ) → Accounts self.old h i → Keeps self.new h i) }
        ensures same { SameCopies (copies_kept self.old) (copies_kept self.new) }
        ensures unfit { OnErr result (self.new.fit ≡ false) }
        ensures room { self.new.taken.room ≡ self.old.taken.room }
    {
        if !self.fit {
            return Err(WantOfMemory);
        }
        match self.store.tick(alloc, hosts, instance, now) {
            Ok(()) => Ok(()),
            Err(WantOfMemory) => {
                make_unfit(&mut self.store, &mut self.loose, &mut self.fit);
                Err(WantOfMemory)
            }
        }
    }

    /// Has its maker put out all that it holds, behind what it was given, since nothing comes any more.
    ///
    /// For want of memory it may have put out a part, and isn't fit any more. One that wasn't fit answers the same.
    pub fn flush<H: Hosts>(
        &mut self,
        alloc: Global,
        hosts: &mut H,
        instance: u32,
    ) -> Result<(), WantOfMemory>
        ensures made { OnOk result
            ((h : Record) (i : ℕ) (given : List NotedInput) → HasMade self.old h i given →
            HasMade self.new h i (given ++ flush ∷ [])) }
        ensures had { OnOk result (self.old.fit ≡ true) }
        ensures fit { OnOk result (self.new.fit ≡ true) }
        ensures emptied { OnOk result (HoldsNone self.new.maker) }
        ensures short { OnErr result
            ((h : Record) (i : ℕ) → Accounts self.old h i → Keeps self.new h i) }
        ensures same { SameCopies (copies_kept self.old) (copies_kept self.new) }
        ensures unfit { OnErr result (self.new.fit ≡ false) }
        ensures room { self.new.taken.room ≡ self.old.taken.room }
    {
        if !self.fit {
            return Err(WantOfMemory);
        }
        match self.store.flush(alloc, hosts, instance) {
            Ok(()) => Ok(()),
            Err(WantOfMemory) => {
                make_unfit(&mut self.store, &mut self.loose, &mut self.fit);
                Err(WantOfMemory)
            }
        }
    }

    /// From now on it isn't fit. It is for a caller that found no memory for what stands behind an answer.
    pub fn fail(&mut self)
        ensures keeps { (h : Record) (i : ℕ) → Accounts self.old h i → Keeps self.new h i }
        ensures same { SameCopies (copies_kept self.old) (copies_kept self.new) }
        ensures unfit { self.new.fit ≡ false }
        ensures room { self.new.taken.room ≡ self.old.taken.room }
    {
        make_unfit(&mut self.store, &mut self.loose, &mut self.fit);
    }

    /// How many outputs it has.
    pub fn outputs(&self) -> usize
        ensures { self.now.fit ≡ true → result ≡ length self.now.shelf.outputs }
    {
        self.store.ready.len()
    }

    /// How many parcels the copies came first in that the next answer discards.
    pub fn dropped(&self) -> u64
        ensures { (h : Record) (i : ℕ) (given : List NotedInput) → IsLegal h →
            HasMade self.now h i given →
            result ≡ count_by (is_first h i) (numbers_of self.now.discarded) }
    {
        self.store.dropped
    }

    /// Takes the outputs off, the oldest first, as an Answer says that was to all that was to be answered. What it discards is taken out
    /// behind it. It takes no memory: what made them found it.
    pub fn put_out(&mut self) -> ItemList<Output>
        ensures outputs { self.old.fit ≡ true → result ≡ self.old.shelf.outputs }
        ensures keeps { (h : Record) (i : ℕ) (kept : List ℕ) →
            HasMade self.old h i (to_answer h i) →
            IsLegal (Answer i (notes_of result) (numbers_of self.old.discarded) kept ∷ h) →
            Keeps self.new
            (Answer i (notes_of result) (numbers_of self.old.discarded) kept ∷ h) i }
        ensures same { SameCopies
            (copies_kept self.old) (copies_put_out result ++ copies_kept self.new) }
        ensures discarded { self.new.discarded ≡ self.old.discarded }
        ensures fit { self.new.fit ≡ self.old.fit }
        ensures room { self.new.taken.room ≡ self.old.taken.room }
    {
        self.store.put_out()
    }

    /// Takes a copy out that the last answer discarded, to be spent. `None` exactly where none is left. It takes no memory.
    pub fn next_discarded(&mut self) -> Option<Finalizer>
        ensures some { IfSome result (λ copy. TakesOut copy self.old self.new) }
        ensures none { IsNone result ↔ (self.old.discarded ≡ []) }
        ensures same { IfNone result (self.new ≡ self.old) }
        ensures fit { self.new.fit ≡ self.old.fit }
        ensures room { self.new.taken.room ≡ self.old.taken.room }
    {
        self.store.discarded.pop()
    }

    /// Takes a copy out, to be spent. `None` exactly where it has none. From then on it isn't fit. It takes no memory.
    pub fn give_up(&mut self) -> Option<Finalizer>
        ensures some { IfSome result (λ copy. GivesUp copy self.old self.new) }
        ensures none { IsNone result ↔ (copies_kept self.old ≡ []) }
        ensures empty { IfNone result (copies_kept self.new ≡ []) }
        ensures unfit { self.new.fit ≡ false }
        ensures room { self.new.taken.room ≡ self.old.taken.room }
    {
        make_unfit(&mut self.store, &mut self.loose, &mut self.fit);
        let copy = self.loose.take();
        find_next(&mut self.store, &mut self.loose);
        copy
    }

    /// Whether it has no copy: exactly where the record has the instance hold nothing.
    pub fn is_empty(&self) -> bool
        ensures none { IsTrue result → copies_kept self.now ≡ [] }
        ensures exact { (h : Record) (i : ℕ) → IsLegal h → Keeps self.now h i →
            IsTrue result ↔ (at h (Held i) ≡ []) }
    {
        if self.fit {
            self.store.is_empty()
        } else {
            self.loose.is_none()
        }
    }

    /// The moment of a reduce's next check, while it has a group, or that at which a host is to be ticked.
    pub fn due<H: Hosts>(&self, hosts: &H, instance: u32) -> Option<u64>
        ensures made { (h : Record) (i : ℕ) (given : List NotedInput) → HasMade self.now h i given →
            IsDueBehind result h i given }
        ensures keeps { self.now.fit ≡ true → (h : Record) (i : ℕ) → Keeps self.now h i →
            IsDueBehind result h i [] }
    {
        self.store.maker.due(hosts, instance)
    }

    /// Ends a keeper that has no copy. It takes no memory.
    pub fn end(self)
        requires { copies_kept self ≡ [] }
    {
        let Keeper {
            store,
            loose,
            fit: _,
        } = self;
        match loose {
            None => store.end(),
            Some(_) => unreachable!(),
        }
    }
}

// From now on a keeper of these isn't fit, and has the copy that is given up next.
fn make_unfit(store: &mut Store, loose: &mut Option<Finalizer>, fit: &mut bool)
    requires { 0 < store.old.taken.room }
    ensures settled { IsSettled store.new loose.new fit.new }
    ensures unfit { fit.new ≡ false }
    ensures same { SameCopies (loose_copies loose.old ++ copies_stored store.old)
        (loose_copies loose.new ++ copies_stored store.new) }
    ensures room { store.new.taken.room ≡ store.old.taken.room }
{
    *fit = false;
    find_next(store, loose);
}

// Finds the copy that is given up next, unless that was found before. None exactly where there is none.
fn find_next(store: &mut Store, loose: &mut Option<Finalizer>)
    requires { 0 < store.old.taken.room }
    ensures same { SameCopies (loose_copies loose.old ++ copies_stored store.old)
        (loose_copies loose.new ++ copies_stored store.new) }
    ensures none { loose.new ≡ None → copies_stored store.new ≡ [] }
    ensures room { store.new.taken.room ≡ store.old.taken.room }
{
    if loose.is_none() {
        match mem::replace(loose, store.lose_copy()) {
            None => {}
            Some(_) => unreachable!(),
        }
    }
}
