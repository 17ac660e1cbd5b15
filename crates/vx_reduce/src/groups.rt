ghost use Rattle.std.specs.List.Sorted.{IsPermutation};
ghost use Rattle.std.specs.Prelude.{◌≡◌, ℕ, Bool, is_some, filter, Option, Some, None, [], ◌∷◌, ◌++◌, OnOk, OnErr, IfOk, IfErr, IfSome, IfNone, IsNone, IsSome, IsTrue, ◌↔◌, if◌then◌else◌};
ghost use Rattle.std.specs.Option.{option_copied};
ghost use Rattle.std.specs.Ordering.{nat_cmp};
ghost use Rattle.std.specs.Map.{lookup, remove_entry};
ghost use Rattle.std.specs.BTreeMap.{is_at, insert_entry};
ghost use Rattle.vx_reduce.specs.Groups.{put_all, output_found};
ghost use Rattle.vx_reduce.specs.Indexes.{keys_under, all_below};
ghost use Rattle.vx_value.specs.Datum.{Datum};
ghost use Rattle.vx_value.specs.Orders.{datum_cmp};

use crate::entries::{join_at, place_at, put_out_at, put_out_with_at, take_back_at};
use crate::expiry::{old_numbers, put_out_numbers, take_copy_from};
use crate::group::{Ending, Group, copies_of};
use crate::group_key::GroupKey;
use crate::refused::Refused;
use std::alloc::Global;
use std::collections::BTreeMap;
use std::marker::Model;
use vx_ledger::{Finalizer, Finalizers, Parcel, SharedEvent};
use vx_transform::Shelf;
use vx_value::WantOfMemory;

// Groups of different keys, in the order of their first events. Contracts see them as a list.
//
// They stand under numbers that rise, so that one in the midst is taken out without a look at the others, and an index tells
// the number of each key.
pub(crate) struct Groups {
    index: BTreeMap<GroupKey, u64>,
    entries: BTreeMap<u64, Group>,
    next: u64,
}

impl Model for Groups {
    ghost use Rattle.std.specs.Prelude.{List};
    ghost use Rattle.std.specs.Coded.{codes};
    ghost use Rattle.std.specs.Map.{values_of};
    ghost use Rattle.vx_value.specs.DatumCode.{coded_datum};
    ghost use Rattle.vx_reduce.specs.declared.group.Group.{Group};
    ghost use Rattle.vx_reduce.specs.Indexes.{IsIndexed};

    ghost Value = { List Group };

    ghost coded = { Prim.hlevel (codes, coded_datum) };

    ghost view = { λ g. values_of g.entries.entries };

    ghost invariant = { λ g. IsIndexed g.index.entries g.entries.entries g.next };
}

// The number of a key's group.
fn number_in(index: &BTreeMap<GroupKey, u64>, key: &GroupKey) -> Option<u64>
    ensures { result ≡ lookup (is_at (datum_cmp key.now)) index.now.entries }
{
    index.get(key).copied()
}

// Takes a key out.
pub(crate) fn forget(index: &mut BTreeMap<GroupKey, u64>, key: GroupKey)
    ensures { (q : Datum) →
        lookup (is_at (datum_cmp q)) index.new.entries
        ≡ (if is_at (datum_cmp key) q then None else lookup
        (is_at (datum_cmp q)) index.old.entries) }
{
    index.remove(&key);
}

// Takes a key in with a number.
fn renumber(index: &mut BTreeMap<GroupKey, u64>, key: GroupKey, number: u64)
    requires { IsSome (lookup (is_at (datum_cmp key)) index.old.entries) }
    ensures { (q : Datum) →
        lookup (is_at (datum_cmp q)) index.new.entries
        ≡ (if is_at (datum_cmp key) q then Some number else lookup
        (is_at (datum_cmp q)) index.old.entries) }
{
    match index.insert(key, number) {
        Ok(_) => {}
        Err(_) => unreachable!(),
    }
}

// Adds a group under a number and a key that none has. For want of memory its parcel comes back, and all is as before.
fn enter(
    index: &mut BTreeMap<GroupKey, u64>,
    entries: &mut BTreeMap<u64, Group>,
    number: u64,
    key: GroupKey,
    own: GroupKey,
    moment: u64,
    parcel: Parcel,
) -> Result<(), Parcel>
    requires number { lookup (is_at (nat_cmp number)) entries.old.entries ≡ None }
    requires key { lookup (is_at (datum_cmp key)) index.old.entries ≡ None }
    requires alike { own ≡ key }
    ensures entries { OnOk result
        (entries.new.entries
        ≡ insert_entry nat_cmp entries.old.entries number
        (record { key = key; moment = moment; parcel = Some parcel })) }
    ensures index { OnOk result
        ((q : Datum) →
        lookup (is_at (datum_cmp q)) index.new.entries
        ≡ (if is_at (datum_cmp key) q then Some number else lookup
        (is_at (datum_cmp q)) index.old.entries)) }
    ensures err_entries { OnErr result (entries.new.entries ≡ entries.old.entries) }
    ensures err_index { OnErr result
        ((q : Datum) →
        lookup (is_at (datum_cmp q)) index.new.entries
        ≡ lookup (is_at (datum_cmp q)) index.old.entries) }
    ensures back { IfErr result (λ refused. refused ≡ parcel) }
{
    match index.insert(key, number) {
        Ok(_) => {}
        Err(_) => return Err(parcel),
    }
    match place_at(entries, number, own, moment, parcel) {
        Ok(()) => Ok(()),
        Err(refused) => {
            let Refused { key, parcel } = refused;
            forget(index, key);
            Err(parcel)
        }
    }
}

// Puts a group out, says its key, and adds another one under a number that none has. For want of memory the other's parcel
// comes back, and all is as before.
fn exchange(
    entries: &mut BTreeMap<u64, Group>,
    number: u64,
    next: u64,
    key: GroupKey,
    moment: u64,
    parcel: Parcel,
    shelf: &mut Shelf,
) -> Result<GroupKey, Parcel>
    requires there { IsSome (lookup (is_at (nat_cmp number)) entries.old.entries) }
    requires last { IsTrue (all_below next (keys_under entries.old.entries)) }
    ensures entries { OnOk result
        (entries.new.entries ≡ remove_entry (is_at (nat_cmp number)) entries.old.entries
        ++ (next, record { key = key; moment = moment; parcel = Some parcel }) ∷ []) }
    ensures put_out { OnOk result
        (shelf.new
        ≡ put_all shelf.old (output_found (lookup (is_at (nat_cmp number)) entries.old.entries))) }
    ensures key { IfOk result
        (λ key. IfSome (lookup (is_at (nat_cmp number)) entries.old.entries) (λ g. key ≡ g.key)) }
    ensures err { OnErr result (entries.new.entries ≡ entries.old.entries) }
    ensures back { IfErr result (λ refused. refused ≡ parcel) }
    ensures shelf { OnErr result (shelf.new ≡ shelf.old) }
{
    match place_at(entries, next, key, moment, parcel) {
        Ok(()) => {}
        Err(refused) => {
            let Refused { key: _, parcel } = refused;
            return Err(parcel);
        }
    }
    match put_out_at(entries, number, shelf) {
        Ok(key) => Ok(key),
        Err(WantOfMemory) => Err(take_back_at(entries, next)),
    }
}

impl Groups {
    ghost use Rattle.vx_value.specs.Texts.{is_empty};
    ghost use Rattle.vx_reduce.specs.Expiries.{is_old, HasPutOut};
    ghost use Rattle.vx_reduce.specs.Groups.{copies_held, new_group, joined_group, group_of, changed, without};
    ghost use Rattle.vx_reduce.specs.Endings.{ending_outputs};

    // No groups. It takes no memory.
    pub(crate) fn new(alloc: Global) -> Self
        ensures { result ≡ [] }
    {
        Groups {
            index: BTreeMap::new(alloc),
            entries: BTreeMap::new(alloc),
            next: 0,
        }
    }

    // The group of a key.
    pub(crate) fn get(&self, key: &GroupKey) -> Option<&Group>
        ensures { option_copied result ≡ group_of key.now self.now }
    {
        match number_in(&self.index, key) {
            Some(number) => self.entries.get(&number),
            None => None,
        }
    }

    // Whether there is a group of a key.
    pub(crate) fn holds(&self, key: &GroupKey) -> bool
        ensures { result ≡ is_some (group_of key.now self.now) }
    {
        self.get(key).is_some()
    }

    // Takes more copies to the group of a key, with an event in place of its own. For want of memory the copies come back,
    // and the groups are as before.
    pub(crate) fn join(
        &mut self,
        key: &GroupKey,
        event: SharedEvent,
        copies: Finalizers,
        moment: u64,
    ) -> Result<(), Finalizers>
        requires { IsSome (group_of key.now self.old) }
        ensures ok { OnOk result
            (self.new ≡ changed key.now (joined_group event copies moment) self.old) }
        ensures err { OnErr result (self.new ≡ self.old) }
        ensures back { IfErr result (λ refused. refused ≡ copies) }
    {
        match number_in(&self.index, key) {
            Some(number) => join_at(&mut self.entries, number, event, copies, moment),
            None => unreachable!(),
        }
    }

    // Begins the group of a key that has none, with one event. For want of memory the copies come back, and the groups are as
    // before.
    pub(crate) fn begin(
        &mut self,
        alloc: Global,
        key: GroupKey,
        event: SharedEvent,
        copies: Finalizers,
        moment: u64,
    ) -> Result<(), Finalizers>
        requires { group_of key self.old ≡ None }
        ensures ok { OnOk result (self.new ≡ self.old ++ new_group key event copies moment ∷ []) }
        ensures err { OnErr result (self.new ≡ self.old) }
        ensures back { IfErr result (λ refused. refused ≡ copies) }
    {
        let finalizers = copies;
        let Some(next) = self.next.checked_add(1) else {
            return Err(finalizers);
        };
        let own = match key.copy(alloc) {
            Ok(own) => own,
            Err(_) => return Err(finalizers),
        };
        let parcel = Parcel { event, finalizers };
        match enter(
            &mut self.index,
            &mut self.entries,
            self.next,
            key,
            own,
            moment,
            parcel,
        ) {
            Ok(()) => {
                self.next = next;
                Ok(())
            }
            Err(parcel) => Err(copies_of(parcel)),
        }
    }

    // Puts the group of a key out, and begins another one with one event. For want of memory its copies come back, and all is
    // as before.
    pub(crate) fn restart(
        &mut self,
        key: GroupKey,
        event: SharedEvent,
        copies: Finalizers,
        moment: u64,
        shelf: &mut Shelf,
    ) -> Result<(), Finalizers>
        requires { IsSome (group_of key self.old) }
        ensures ok { OnOk result
            (self.new ≡ without key self.old ++ new_group key event copies moment ∷ []) }
        ensures put_out { OnOk result
            (shelf.new ≡ put_all shelf.old (output_found (group_of key self.old))) }
        ensures err { OnErr result (self.new ≡ self.old) }
        ensures back { IfErr result (λ refused. refused ≡ copies) }
        ensures shelf { OnErr result (shelf.new ≡ shelf.old) }
    {
        let finalizers = copies;
        let Some(next) = self.next.checked_add(1) else {
            return Err(finalizers);
        };
        let Some(number) = number_in(&self.index, &key) else {
            unreachable!()
        };
        let parcel = Parcel { event, finalizers };
        match exchange(
            &mut self.entries,
            number,
            self.next,
            key,
            moment,
            parcel,
            shelf,
        ) {
            Ok(key) => {
                renumber(&mut self.index, key, self.next);
                self.next = next;
                Ok(())
            }
            Err(parcel) => Err(copies_of(parcel)),
        }
    }

    // Puts the group of a key out with an event that ends it. For want of memory the event's copies come back, and all is as
    // before.
    pub(crate) fn put_out_with(
        &mut self,
        key: &GroupKey,
        ending: Ending,
        event: SharedEvent,
        copies: Finalizers,
        shelf: &mut Shelf,
    ) -> Result<(), Finalizers>
        requires { IsSome (group_of key.now self.old) }
        ensures ok { OnOk result (self.new ≡ without key.now self.old) }
        ensures put_out { OnOk result
            (shelf.new
            ≡ put_all shelf.old
            (ending_outputs ending (group_of key.now self.old) event copies)) }
        ensures err { OnErr result (self.new ≡ self.old) }
        ensures back { IfErr result (λ refused. refused ≡ copies) }
        ensures shelf { OnErr result (shelf.new ≡ shelf.old) }
    {
        let Some(number) = number_in(&self.index, key) else {
            unreachable!()
        };
        match put_out_with_at(&mut self.entries, number, ending, event, copies, shelf) {
            Ok(key) => {
                forget(&mut self.index, key);
                Ok(())
            }
            Err(copies) => Err(copies),
        }
    }

    // Whether there is no group.
    pub(crate) fn is_empty(&self) -> bool
        ensures { result ≡ is_empty self.now }
    {
        self.entries.is_empty()
    }

    // Puts the groups out, in order, whose last events came so long ago. For want of memory it may have put out some first
    // ones.
    pub(crate) fn put_out_old(
        &mut self,
        alloc: Global,
        expire_after: u64,
        now: u64,
        shelf: &mut Shelf,
    ) -> Result<(), WantOfMemory>
        ensures put_out { HasPutOut
            (is_old expire_after now) self.old self.new shelf.old shelf.new }
        ensures all { OnOk result (filter (is_old expire_after now) self.new ≡ []) }
    {
        let numbers = old_numbers(alloc, &self.entries, expire_after, now)?;
        put_out_numbers(&mut self.index, &mut self.entries, numbers, shelf)
    }

    // Takes a copy of the first group that has one, and lets those before it go. `None` exactly where there is no copy; then
    // there is no group any more. It takes no memory.
    pub(crate) fn take_copy(&mut self) -> Option<Finalizer>
        ensures some { IfSome result
            (λ copy. IsPermutation (copies_held self.old) (copy ∷ copies_held self.new)) }
        ensures none { IfNone result (copies_held self.old ≡ []) }
        ensures empty { IfNone result (self.new ≡ []) }
    {
        take_copy_from(&mut self.index, &mut self.entries)
    }

    // Ends what holds no group. It takes no memory.
    pub(crate) fn end(self)
        requires { self ≡ [] }
    {
        let Groups {
            index: _,
            entries,
            next: _,
        } = self;
        entries.destroy_empty();
    }
}
