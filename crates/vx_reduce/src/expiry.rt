// Groups that leave by themselves: those whose last events came long ago, and those whose copies are given up.
ghost use Rattle.std.specs.Prelude.{◌≡◌, ℕ, Bool, Some, [], ◌∷◌, drop, filter, OnOk, OnErr, IfOk, IfSome, IfNone, MatchOption};
ghost use Rattle.std.specs.List.Sorted.{IsPermutation};
ghost use Rattle.std.specs.Ordering.{nat_cmp};
ghost use Rattle.std.specs.Map.{lookup, remove_entry, keys_of, values_of};
ghost use Rattle.std.specs.BTreeMap.{is_at};
ghost use Rattle.vx_reduce.specs.declared.group.Group.{Group};
ghost use Rattle.vx_reduce.specs.Groups.{copies_held, output_in, put_all};
ghost use Rattle.vx_reduce.specs.Indexes.{IsIndexed, BeginsAt, BeginsBare, TakesCopy};
ghost use Rattle.vx_reduce.specs.Expiries.{old_numbers, HasPutOut};

use crate::entries::put_out_at;
use crate::group::Group;
use crate::group_key::GroupKey;
use crate::groups::forget;
use std::alloc::Global;
use std::collections::BTreeMap;
use vx_ledger::Finalizer;
use vx_transform::Shelf;
use vx_value::WantOfMemory;

// The numbers of the groups whose last events came so long ago, in order.
pub(crate) fn old_numbers(
    alloc: Global,
    entries: &BTreeMap<u64, Group>,
    expire_after: u64,
    now: u64,
) -> Result<Vec<u64>, WantOfMemory>
    ensures { IfOk result
        (λ numbers. numbers.items ≡ old_numbers expire_after now entries.now.entries) }
{
    let mut numbers = Vec::new(alloc);
    for (number, group) in entries {
        if expire_after <= now.saturating_sub(group.moment) {
            numbers.push(*number)?;
        }
    }
    Ok(numbers)
}

// Puts the group with a number out, if there is one. For want of memory all is as before.
fn put_out_number(
    index: &mut BTreeMap<GroupKey, u64>,
    entries: &mut BTreeMap<u64, Group>,
    number: u64,
    shelf: &mut Shelf,
) -> Result<(), WantOfMemory>
    ensures indexed { (next : ℕ) → IsIndexed index.old.entries entries.old.entries next →
        IsIndexed index.new.entries entries.new.entries next }
    ensures entries { OnOk result
        ((g : Group) → lookup (is_at (nat_cmp number)) entries.old.entries ≡ Some g →
        entries.new.entries ≡ remove_entry (is_at (nat_cmp number)) entries.old.entries) }
    ensures put_out { OnOk result
        ((g : Group) → lookup (is_at (nat_cmp number)) entries.old.entries ≡ Some g →
        shelf.new ≡ put_all shelf.old (output_in g.parcel)) }
    ensures err { OnErr result (entries.new.entries ≡ entries.old.entries) }
    ensures shelf { OnErr result (shelf.new ≡ shelf.old) }
{
    if !entries.contains_key(&number) {
        return Ok(());
    }
    let key = put_out_at(entries, number, shelf)?;
    forget(index, key);
    Ok(())
}

// Puts the groups with some numbers out, in order. For want of memory it may have put out some first ones.
pub(crate) fn put_out_numbers(
    index: &mut BTreeMap<GroupKey, u64>,
    entries: &mut BTreeMap<u64, Group>,
    numbers: Vec<u64>,
    shelf: &mut Shelf,
) -> Result<(), WantOfMemory>
    ensures indexed { (next : ℕ) → IsIndexed index.old.entries entries.old.entries next →
        IsIndexed index.new.entries entries.new.entries next }
    ensures put_out { (p : Group → Bool) (next : ℕ) →
        IsIndexed index.old.entries entries.old.entries next →
        keys_of (filter (λ (e : ℕ × Group). p e.1) entries.old.entries) ≡ numbers.items →
        HasPutOut p (values_of entries.old.entries)
        (values_of entries.new.entries) shelf.old shelf.new }
    ensures all { OnOk result
        ((p : Group → Bool) (next : ℕ) → IsIndexed index.old.entries entries.old.entries next →
        keys_of (filter (λ (e : ℕ × Group). p e.1) entries.old.entries) ≡ numbers.items →
        filter p (values_of entries.new.entries) ≡ []) }
{
    for number in numbers.as_slice() {
        put_out_number(index, entries, *number, shelf)?;
    }
    Ok(())
}

// The number of the first group.
fn first_number(entries: &BTreeMap<u64, Group>) -> Option<u64>
    ensures { MatchOption result (entries.now.entries ≡ []) (λ n. BeginsAt n entries.now.entries) }
{
    match entries.first_key_value() {
        Some((number, _group)) => Some(*number),
        None => None,
    }
}

// Takes the last copy of the first group, whose number it is.
fn take_copy_at(entries: &mut BTreeMap<u64, Group>, number: u64) -> Option<Finalizer>
    requires { BeginsAt number entries.old.entries }
    ensures some { IfSome result (λ copy. TakesCopy copy entries.old.entries entries.new.entries) }
    ensures none { IfNone result (BeginsBare entries.old.entries) }
    ensures same { IfNone result (entries.new.entries ≡ entries.old.entries) }
{
    match entries.get_mut(&number) {
        Some(group) => group.take_copy(),
        None => unreachable!(),
    }
}

// Lets the first group go, which has no copies.
fn end_first(index: &mut BTreeMap<GroupKey, u64>, entries: &mut BTreeMap<u64, Group>)
    requires { BeginsBare entries.old.entries }
    ensures entries { entries.new.entries ≡ drop 1 entries.old.entries }
    ensures indexed { (next : ℕ) → IsIndexed index.old.entries entries.old.entries next →
        IsIndexed index.new.entries entries.new.entries next }
{
    match entries.pop_first() {
        Some((_number, group)) => forget(index, group.end()),
        None => unreachable!(),
    }
}

// Takes a copy of the first group that has one, and lets those before it go.
pub(crate) fn take_copy_from(
    index: &mut BTreeMap<GroupKey, u64>,
    entries: &mut BTreeMap<u64, Group>,
) -> Option<Finalizer>
    ensures indexed { (next : ℕ) → IsIndexed index.old.entries entries.old.entries next →
        IsIndexed index.new.entries entries.new.entries next }
    ensures some { IfSome result
        (λ copy. IsPermutation (copies_held (values_of entries.old.entries))
        (copy ∷ copies_held (values_of entries.new.entries))) }
    ensures none { IfNone result (copies_held (values_of entries.old.entries) ≡ []) }
    ensures empty { IfNone result (entries.new.entries ≡ []) }
{
    'groups: while let Some(number) = first_number(entries) {
        if let Some(copy) = take_copy_at(entries, number) {
            return Some(copy);
        }
        end_first(index, entries);
    }
    None
}
