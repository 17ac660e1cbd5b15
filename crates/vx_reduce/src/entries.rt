// Groups under numbers.
ghost use Rattle.std.specs.Prelude.{◌≡◌, ℕ, Option, Some, None, OnOk, OnErr, IfOk, IfErr, IfSome, IsSome};
ghost use Rattle.std.specs.Ordering.{nat_cmp};
ghost use Rattle.std.specs.Map.{lookup, remove_entry, set_value};
ghost use Rattle.std.specs.BTreeMap.{is_at, insert_entry};
ghost use Rattle.vx_reduce.specs.Groups.{output_found, put_all, joined_group};
ghost use Rattle.vx_reduce.specs.Endings.{ending_outputs, IsTakenOut};
ghost use Rattle.vx_reduce.specs.Indexes.{IsHollow, IsFull};

use crate::group::{Ending, Group};
use crate::group_key::GroupKey;
use crate::refused::Refused;
use std::collections::BTreeMap;
use vx_ledger::{Finalizers, Parcel, SharedEvent};
use vx_transform::Shelf;
use vx_value::WantOfMemory;

// Takes more copies to a group. For want of memory they come back, and the group is as before.
pub(crate) fn join_at(
    entries: &mut BTreeMap<u64, Group>,
    number: u64,
    event: SharedEvent,
    copies: Finalizers,
    moment: u64,
) -> Result<(), Finalizers>
    requires { IsSome (lookup (is_at (nat_cmp number)) entries.old.entries) }
    ensures ok { OnOk result
        ((g : Group) → lookup (is_at (nat_cmp number)) entries.old.entries ≡ Some g →
        entries.new.entries
        ≡ set_value (is_at (nat_cmp number)) entries.old.entries
        (joined_group event copies moment g)) }
    ensures err { OnErr result (entries.new.entries ≡ entries.old.entries) }
    ensures back { IfErr result (λ refused. refused ≡ copies) }
{
    match entries.get_mut(&number) {
        Some(group) => group.join(event, copies, moment),
        None => unreachable!(),
    }
}

// Takes a group out whose parcel is gone, and says its key.
fn remove_hollow(entries: &mut BTreeMap<u64, Group>, number: u64) -> GroupKey
    requires { IsHollow (lookup (is_at (nat_cmp number)) entries.old.entries) }
    ensures { IsTakenOut number result entries.old.entries entries.new.entries }
{
    match entries.remove(&number) {
        Some(group) => group.end(),
        None => unreachable!(),
    }
}

// Puts a group out, and says its key. For want of memory all is as before.
pub(crate) fn put_out_at(
    entries: &mut BTreeMap<u64, Group>,
    number: u64,
    shelf: &mut Shelf,
) -> Result<GroupKey, WantOfMemory>
    requires { IsSome (lookup (is_at (nat_cmp number)) entries.old.entries) }
    ensures taken { IfOk result
        (λ key. IsTakenOut number key entries.old.entries entries.new.entries) }
    ensures put_out { OnOk result
        (shelf.new
        ≡ put_all shelf.old (output_found (lookup (is_at (nat_cmp number)) entries.old.entries))) }
    ensures err { OnErr result (entries.new.entries ≡ entries.old.entries) }
    ensures shelf { OnErr result (shelf.new ≡ shelf.old) }
{
    match entries.get_mut(&number) {
        Some(group) => group.put_out(shelf)?,
        None => unreachable!(),
    }
    Ok(remove_hollow(entries, number))
}

// Puts a group out with an event that ends it, and says its key. For want of memory the event's copies come back, and all is as
// before.
pub(crate) fn put_out_with_at(
    entries: &mut BTreeMap<u64, Group>,
    number: u64,
    ending: Ending,
    event: SharedEvent,
    copies: Finalizers,
    shelf: &mut Shelf,
) -> Result<GroupKey, Finalizers>
    requires { IsSome (lookup (is_at (nat_cmp number)) entries.old.entries) }
    ensures taken { IfOk result
        (λ key. IsTakenOut number key entries.old.entries entries.new.entries) }
    ensures put_out { OnOk result
        (shelf.new
        ≡ put_all shelf.old
        (ending_outputs ending (lookup (is_at (nat_cmp number)) entries.old.entries) event copies)) }
    ensures err { OnErr result (entries.new.entries ≡ entries.old.entries) }
    ensures back { IfErr result (λ refused. refused ≡ copies) }
    ensures shelf { OnErr result (shelf.new ≡ shelf.old) }
{
    match entries.get_mut(&number) {
        Some(group) => match group.put_out_with(ending, event, copies, shelf) {
            Ok(()) => {}
            Err(copies) => return Err(copies),
        },
        None => unreachable!(),
    }
    Ok(remove_hollow(entries, number))
}

// Adds a group under a number that none has. For want of memory key and parcel come back, and the groups are as before.
pub(crate) fn place_at(
    entries: &mut BTreeMap<u64, Group>,
    number: u64,
    key: GroupKey,
    moment: u64,
    parcel: Parcel,
) -> Result<(), Refused>
    requires { lookup (is_at (nat_cmp number)) entries.old.entries ≡ None }
    ensures ok { OnOk result
        (entries.new.entries
        ≡ insert_entry nat_cmp entries.old.entries number
        (record { key = key; moment = moment; parcel = Some parcel })) }
    ensures err { OnErr result (entries.new.entries ≡ entries.old.entries) }
    ensures key { IfErr result (λ refused. refused.key ≡ key) }
    ensures parcel { IfErr result (λ refused. refused.parcel ≡ parcel) }
{
    let group = Group {
        key,
        moment,
        parcel: Some(parcel),
    };
    match entries.insert(number, group) {
        Ok(old) => match old {
            None => Ok(()),
            Some(_) => unreachable!(),
        },
        Err(failed) => {
            let (_number, group) = failed.value;
            Err(group.refused())
        }
    }
}

// Takes back the parcel of a group.
pub(crate) fn take_back_at(entries: &mut BTreeMap<u64, Group>, number: u64) -> Parcel
    requires { IsFull (lookup (is_at (nat_cmp number)) entries.old.entries) }
    ensures entries { entries.new.entries
        ≡ remove_entry (is_at (nat_cmp number)) entries.old.entries }
    ensures parcel { IfSome (lookup (is_at (nat_cmp number)) entries.old.entries)
        (λ g. g.parcel ≡ Some result) }
{
    match entries.remove(&number) {
        Some(group) => {
            let Refused { key: _, parcel } = group.refused();
            parcel
        }
        None => unreachable!(),
    }
}
