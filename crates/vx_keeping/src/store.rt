ghost use Rattle.std.specs.Prelude.{◌≡◌, ◌<◌, ◌≤◌, [], ◌∷◌, ◌++◌, ◌↔◌, ◌≢◌, None, OnOk, IfOk, IfSome, IfNone, IsTrue, count_by};
ghost use Rattle.vx_reduce.specs.Inputs.{ticked, at_end};
ghost use Rattle.vx_ledger.specs.Copies.{numbers_of};
ghost use Rattle.vx_keeping.specs.Given.{SameCopies, Makes, Drops, arrived_all, firsts_of, is_among};
ghost use Rattle.vx_keeping.specs.Kept.{nothing, copies_made, HoldsNone};

use crate::giving::gather;
use crate::hosting::{count_among, first_numbers, take_off};
use crate::hosts::Hosts;
use crate::losing::{end_copies, end_outputs, end_parcels, next_parcel, take_copy};
use crate::maker::Maker;
use std::alloc::Global;
use std::mem;
use vx_ledger::{Finalizer, Parcel};
use vx_places::Line;
use vx_transform::{Output, Shelf};
use vx_value::{ItemList, WantOfMemory};

// A maker, the parcels that it is given next, and what it put out and discarded.
pub(crate) struct Store {
    pub(crate) maker: Maker,
    // What was taken since the last answer, the oldest first.
    pub(crate) taken: Line<Parcel>,
    // What is put out, the oldest first, and was taken off the shelf.
    pub(crate) ready: Vec<Output>,
    // What the maker put out that couldn't be taken off yet.
    pub(crate) shelf: Shelf,
    // What the next answer discards, or the last one did and isn't spent yet.
    pub(crate) discarded: Vec<Finalizer>,
    // How many parcels the copies that the next answer discards came first in.
    pub(crate) dropped: u64,
}

impl Store {
    ghost use Rattle.vx_keeping.specs.Making.{made_of};
    ghost use Rattle.vx_keeping.specs.Stored.{shelf_of, copies_stored, IsBare, GathersFrom};

    // A store without a copy, with room for at least so many parcels, and for one.
    pub(crate) fn new(alloc: Global, maker: Maker, room: usize) -> Result<Self, WantOfMemory>
        requires { HoldsNone (made_of maker) }
        ensures maker { IfOk result (λ store. made_of store.maker ≡ made_of maker) }
        ensures taken { IfOk result (λ store. store.taken.items ≡ []) }
        ensures shelf { IfOk result (λ store. shelf_of store ≡ nothing) }
        ensures bare { IfOk result (λ store. store.shelf ≡ nothing) }
        ensures discarded { IfOk result (λ store. store.discarded.items ≡ []) }
        ensures dropped { IfOk result (λ store. store.dropped ≡ 0) }
        ensures room { IfOk result (λ store. room ≤ store.taken.room) }
        ensures some { IfOk result (λ store. 0 < store.taken.room) }
    {
        match Line::with_room(alloc, room.max(1)) {
            Ok(taken) => Ok(Store {
                maker,
                taken,
                ready: Vec::new(alloc),
                shelf: Shelf::new(alloc),
                discarded: Vec::new(alloc),
                dropped: 0,
            }),
            Err(WantOfMemory) => {
                maker.end();
                Err(WantOfMemory)
            }
        }
    }

    // Gives the maker all that was taken, in order, at a moment, and takes off what it puts out and discards.
    pub(crate) fn answer<H: Hosts>(
        &mut self,
        alloc: Global,
        hosts: &mut H,
        i: u32,
        now: u64,
    ) -> Result<(), WantOfMemory>
        requires { 0 < self.old.taken.room }
        ensures made { OnOk result (self.old.shelf ≡ nothing →
            Makes (arrived_all now self.old.taken.items) self.old.taken.items
            (made_of self.old.maker) (made_of self.new.maker)
            (shelf_of self.old) (shelf_of self.new)
            self.old.discarded.items self.new.discarded.items) }
        ensures dropped { OnOk result
            (Drops (made_of self.old.maker) self.old.taken.items self.new.discarded.items
            self.old.dropped self.new.dropped) }
        ensures none { OnOk result (self.new.taken.items ≡ []) }
        ensures bare { OnOk result (self.old.shelf ≡ nothing → self.new.shelf ≡ nothing) }
        ensures same { SameCopies (copies_stored self.old) (copies_stored self.new) }
        ensures room { self.new.taken.room ≡ self.old.taken.room }
    {
        let firsts = self.first_numbers(alloc)?;
        self.maker.answer(
            alloc,
            hosts,
            i,
            &mut self.taken,
            now,
            &mut self.shelf,
            &mut self.discarded,
        )?;
        self.gather_made()?;
        self.dropped = self.count_dropped(&firsts);
        Ok(())
    }

    // The numbers of the copies that came first in what was taken, for a host.
    fn first_numbers(&self, alloc: Global) -> Result<Vec<u64>, WantOfMemory>
        ensures { IfOk result (λ numbers. made_of self.now.maker ≡ None →
            numbers.items ≡ firsts_of self.now.taken.items) }
    {
        if self.maker.is_host() {
            first_numbers(alloc, &self.taken)
        } else {
            Ok(Vec::new(alloc))
        }
    }

    // How many of the copies that a host discards came first; of a reduce it stays.
    fn count_dropped(&self, firsts: &[u64]) -> u64
        ensures host { made_of self.now.maker ≡ None →
            result ≡ count_by (is_among firsts.now) (numbers_of self.now.discarded.items) }
        ensures reduce { made_of self.now.maker ≢ None → result ≡ self.now.dropped }
    {
        if self.maker.is_host() {
            count_among(firsts, &self.discarded)
        } else {
            self.dropped
        }
    }

    // Takes off what the maker made. For want of memory some stays.
    fn gather_made(&mut self) -> Result<(), WantOfMemory>
        requires { 0 < self.old.taken.room }
        ensures gathers { OnOk result
            (GathersFrom (made_of self.old.maker) self.old self.new) }
        ensures same { SameCopies (copies_stored self.old) (copies_stored self.new) }
        ensures maker { self.new.maker ≡ self.old.maker }
        ensures dropped { self.new.dropped ≡ self.old.dropped }
        ensures room { self.new.taken.room ≡ self.old.taken.room }
    {
        if self.maker.is_host() {
            take_off(
                &mut self.taken,
                &mut self.shelf,
                &mut self.ready,
                &mut self.discarded,
            )
        } else {
            gather(&mut self.shelf, &mut self.ready)
        }
    }

    // Ticks the maker, and takes off what it puts out.
    pub(crate) fn tick<H: Hosts>(
        &mut self,
        alloc: Global,
        hosts: &mut H,
        i: u32,
        now: u64,
    ) -> Result<(), WantOfMemory>
        requires { 0 < self.old.taken.room }
        ensures made { OnOk result (self.old.shelf ≡ nothing → self.old.taken.items ≡ [] →
            Makes (ticked now ∷ []) [] (made_of self.old.maker) (made_of self.new.maker)
            (shelf_of self.old) (shelf_of self.new)
            self.old.discarded.items self.new.discarded.items) }
        ensures discarded { OnOk result (self.old.shelf ≡ nothing → self.old.taken.items ≡ [] →
            self.new.discarded.items ≡ self.old.discarded.items) }
        ensures dropped { self.new.dropped ≡ self.old.dropped }
        ensures none { OnOk result (self.old.taken.items ≡ [] → self.new.taken.items ≡ []) }
        ensures bare { OnOk result (self.old.shelf ≡ nothing → self.new.shelf ≡ nothing) }
        ensures same { SameCopies (copies_stored self.old) (copies_stored self.new) }
        ensures room { self.new.taken.room ≡ self.old.taken.room }
    {
        self.maker.tick(alloc, hosts, i, now, &mut self.shelf)?;
        self.gather_made()
    }

    // Flushes the maker, and takes off what it puts out.
    pub(crate) fn flush<H: Hosts>(
        &mut self,
        alloc: Global,
        hosts: &mut H,
        i: u32,
    ) -> Result<(), WantOfMemory>
        requires { 0 < self.old.taken.room }
        ensures made { OnOk result (self.old.shelf ≡ nothing → self.old.taken.items ≡ [] →
            Makes (at_end ∷ []) [] (made_of self.old.maker) (made_of self.new.maker)
            (shelf_of self.old) (shelf_of self.new)
            self.old.discarded.items self.new.discarded.items) }
        ensures discarded { OnOk result (self.old.shelf ≡ nothing → self.old.taken.items ≡ [] →
            self.new.discarded.items ≡ self.old.discarded.items) }
        ensures emptied { OnOk result (HoldsNone (made_of self.new.maker)) }
        ensures dropped { self.new.dropped ≡ self.old.dropped }
        ensures none { OnOk result (self.old.taken.items ≡ [] → self.new.taken.items ≡ []) }
        ensures bare { OnOk result (self.old.shelf ≡ nothing → self.new.shelf ≡ nothing) }
        ensures same { SameCopies (copies_stored self.old) (copies_stored self.new) }
        ensures room { self.new.taken.room ≡ self.old.taken.room }
    {
        self.maker.flush(alloc, hosts, i, &mut self.shelf)?;
        self.gather_made()
    }

    // Takes a copy out. `None` exactly where there is none; then the maker holds nothing any more.
    pub(crate) fn lose_copy(&mut self) -> Option<Finalizer>
        requires { 0 < self.old.taken.room }
        ensures some { IfSome result
            (λ copy. SameCopies (copies_stored self.old) (copy ∷ copies_stored self.new)) }
        ensures none { IfNone result (copies_stored self.old ≡ []) }
        ensures empty { IfNone result (copies_stored self.new ≡ []) }
        ensures room { self.new.taken.room ≡ self.old.taken.room }
    {
        loop {
            if let Some(copy) = take_copy(&mut self.taken) {
                return Some(copy);
            }
            match next_parcel(&mut self.ready, &mut self.shelf) {
                Some(parcel) => self.taken.push(parcel),
                None => return self.lose_kept(),
            }
        }
    }

    // Takes a copy that is discarded, or that the maker holds. `None` exactly where there is none.
    fn lose_kept(&mut self) -> Option<Finalizer>
        ensures some { IfSome result
            (λ copy. SameCopies (copies_made (made_of self.old.maker) ++ self.old.discarded.items)
            (copy ∷ (copies_made (made_of self.new.maker) ++ self.new.discarded.items))) }
        ensures none { IfNone result
            (copies_made (made_of self.old.maker) ++ self.old.discarded.items ≡ []) }
        ensures empty { IfNone result
            (copies_made (made_of self.new.maker) ++ self.new.discarded.items ≡ []) }
        ensures taken { self.new.taken ≡ self.old.taken }
        ensures ready { self.new.ready ≡ self.old.ready }
        ensures shelf { self.new.shelf ≡ self.old.shelf }
    {
        if let Some(copy) = self.discarded.pop() {
            return Some(copy);
        }
        self.maker.surrender()
    }

    // Takes the outputs, for which memory was found.
    pub(crate) fn put_out(&mut self) -> ItemList<Output>
        ensures outputs { result ≡ self.old.ready.items }
        ensures ready { self.new.ready.items ≡ [] }
        ensures maker { self.new.maker ≡ self.old.maker }
        ensures taken { self.new.taken ≡ self.old.taken }
        ensures shelf { self.new.shelf ≡ self.old.shelf }
        ensures discarded { self.new.discarded ≡ self.old.discarded }
        ensures dropped { self.new.dropped ≡ 0 }
    {
        self.dropped = 0;
        let alloc = *self.ready.allocator();
        ItemList::from_vec(mem::replace(&mut self.ready, Vec::new(alloc)))
    }

    // Whether there is no parcel, no output that was taken off the shelf, nothing that is discarded, and the maker holds nothing.
    pub(crate) fn is_empty(&self) -> bool
        ensures { IsTrue result ↔ IsBare self.now }
    {
        self.taken.is_empty()
            && self.ready.is_empty()
            && self.discarded.is_empty()
            && self.maker.holds_none()
    }

    // Ends a store that has no copy.
    pub(crate) fn end(self)
        requires { copies_stored self ≡ [] }
    {
        let Store {
            mut maker,
            taken,
            ready,
            shelf,
            discarded,
            dropped: _,
        } = self;
        end_parcels(taken);
        end_outputs(ready);
        shelf.end();
        end_copies(discarded);
        match maker.surrender() {
            None => maker.end(),
            Some(_) => unreachable!(),
        }
    }
}
