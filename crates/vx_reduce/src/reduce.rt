ghost use Rattle.std.specs.Prelude.{◌≡◌, ◌+◌, ℕ, Bool, Option, Some, None, List, [], ◌∷◌, ◌++◌, filter, OnOk, OnErr, IfOk, IfErr, IfSome, IfNone, IsNone, IsOk, is_some, ◌↔◌, if◌then◌else◌};
ghost use Rattle.std.specs.Option.{option_copied};
ghost use Rattle.std.specs.List.Sorted.{IsPermutation};
ghost use Rattle.vx_transform.specs.Moves.{Moves};
ghost use Rattle.vx_reduce.specs.Groups.{copies_held, outputs_of, put_all, group_of};
ghost use Rattle.vx_reduce.specs.Expiries.{is_old, HasPutOut};
ghost use Rattle.vx_reduce.specs.Reducers.{SaysOf, due_of, since_after, is_due_at, IsPlanned, HasAnswered, HasChecked};
ghost use Rattle.vx_condition.specs.Reducing.{Settings};
ghost use Rattle.vx_reduce.specs.Inputs.{arrived, ticked, at_end};
ghost use Rattle.vx_reduce.specs.Standing.{AreMeant, IsAt, GoesOn, PutsOut, IsMeant, IsDueAt};

use crate::answer::answer;
use crate::group::Group;
use crate::group_key::GroupKey;
use crate::groups::Groups;
use crate::merge_rules::MergeRules;
use crate::plan::Plan;
use crate::reduce_settings::ReduceSettings;
use std::alloc::Global;
use vx_condition::Condition;
use vx_ledger::{Finalizer, Parcel};
use vx_transform::{Back, Shelf, Transform};
use vx_value::{Event, ItemList, WantOfMemory};

/// Merges events into groups, and puts each group out as one event with the copies of all.
///
/// It stands for the events, ticks and flushes that it was given (`IsAt`): a new one for none, and after each call that ended
/// well for one more (`GoesOn`). Such a call puts out what has to be put out then (`PutsOut`). An event for which no memory was
/// found leaves it as it was.
///
/// It can't be dropped, since it holds copies: `end` ends it once it holds no group.
pub struct Reduce {
    rules: MergeRules,
    starts_when: Option<Condition>,
    ends_when: Option<Condition>,
    expire_after_ms: u64,
    flush_period_ms: u64,
    groups: Groups,
    since: u64,
}

impl Reduce {
    ghost use Rattle.vx_reduce.specs.Keys.{key_datum};
    ghost use Rattle.vx_reduce.specs.Groups.{group_of};
    ghost use Rattle.vx_reduce.specs.Merges.{fields_found, merged_event};
    /// A reduce that holds nothing. It takes no memory.
    pub fn new(settings: ReduceSettings) -> Result<Self, WantOfMemory>
        ensures ok { IsOk result }
        ensures rules { IfOk result
            (λ reduce. reduce.rules
            ≡ record { group_by = settings.group_by; strategies = settings.strategies }) }
        ensures starts { IfOk result (λ reduce. reduce.starts_when ≡ settings.starts_when) }
        ensures ends { IfOk result (λ reduce. reduce.ends_when ≡ settings.ends_when) }
        ensures expire { IfOk result (λ reduce. reduce.expire_after_ms ≡ settings.expire_after_ms) }
        ensures period { IfOk result (λ reduce. reduce.flush_period_ms ≡ settings.flush_period_ms) }
        ensures groups { IfOk result (λ reduce. reduce.groups ≡ []) }
        ensures since { IfOk result (λ reduce. reduce.since ≡ 0) }
        ensures stands { IfOk result
            (λ reduce. (s : Settings) → AreMeant s settings → IsAt s [] reduce) }
    {
        let ReduceSettings {
            group_by,
            starts_when,
            ends_when,
            expire_after_ms,
            flush_period_ms,
            strategies,
        } = settings;
        let paths = group_by.into_vec();
        let alloc = *paths.allocator();
        let group_by = ItemList::from_vec(paths);
        Ok(Reduce {
            rules: MergeRules {
                group_by,
                strategies,
            },
            starts_when,
            ends_when,
            expire_after_ms,
            flush_period_ms,
            groups: Groups::new(alloc),
            since: 0,
        })
    }

    /// Ends a reduce that holds no group. It takes no memory.
    pub fn end(self)
        requires { self.groups ≡ [] }
    {
        let Reduce {
            rules: _,
            starts_when: _,
            ends_when: _,
            expire_after_ms: _,
            flush_period_ms: _,
            groups,
            since: _,
        } = self;
        groups.end();
    }

    // What is to become of an event.
    fn plan(&mut self, alloc: Global, event: &Event) -> Result<Plan, WantOfMemory>
        ensures planned { IfOk result
            (λ plan. IsPlanned self.old event.now plan.found plan.starts plan.ends plan.key
            plan.event) }
        ensures same { self.new ≡ self.old }
    {
        let starts = holds_of(&mut self.starts_when, alloc, event)?;
        let ends = holds_of(&mut self.ends_when, alloc, event)?;
        let key = GroupKey::of(alloc, &self.rules.group_by, event)?;
        let found = self.groups.holds(&key);
        let event = self
            .rules
            .merged_event(alloc, self.so_far(starts, &key), event)?;
        Ok(Plan {
            found,
            starts,
            ends,
            key,
            event,
        })
    }

    // The group into which an event is merged, if there is one: that of its key, unless it begins one.
    fn so_far(&self, starts: bool, key: &GroupKey) -> Option<&Group>
        ensures { option_copied result
            ≡ (if starts then None else group_of key.now self.now.groups) }
    {
        if starts { None } else { self.groups.get(key) }
    }

    // Does with an event and its copies what was planned. For want of memory they come back, and all is as before.
    fn carry_out(
        &mut self,
        alloc: Global,
        plan: Plan,
        parcel: Parcel,
        now: u64,
        shelf: &mut Shelf,
    ) -> Result<(), Back>
        requires { IsPlanned self.old parcel.event plan.found plan.starts plan.ends plan.key
            plan.event }
        ensures answered { OnOk result
            (HasAnswered self.old self.new parcel now shelf.old shelf.new) }
        ensures back { IfErr result (λ refused. refused.parcel ≡ parcel) }
        ensures unchanged { OnErr result (self.new ≡ self.old) }
        ensures shelf { OnErr result (shelf.new ≡ shelf.old) }
    {
        let since = self.since_then(now);
        let Parcel { event, finalizers } = parcel;
        match answer(alloc, &mut self.groups, plan, finalizers, now, shelf) {
            Ok(()) => {
                self.since = since;
                Ok(())
            }
            Err(finalizers) => {
                let parcel = Parcel { event, finalizers };
                Err(Back { parcel })
            }
        }
    }

    // Puts each group out, in order, whose last event came so long ago. For want of memory it may have put out some first
    // ones.
    fn check(&mut self, alloc: Global, now: u64, shelf: &mut Shelf) -> Result<(), WantOfMemory>
        ensures put_out { HasPutOut
            (is_old self.old.expire_after_ms now) self.old.groups self.new.groups shelf.old
            shelf.new }
        ensures all { OnOk result
            (filter (is_old self.old.expire_after_ms now) self.new.groups ≡ []) }
        ensures state { OnOk result
            (self.new ≡ record self.old { groups = self.new.groups; since = now }) }
    {
        self.groups
            .put_out_old(alloc, self.expire_after_ms, now, shelf)?;
        self.since = now;
        Ok(())
    }

    // The moment from which the period of checks goes on once an event came.
    fn since_then(&self, now: u64) -> u64
        ensures { result ≡ since_after self.now now }
    {
        if self.groups.is_empty() {
            now
        } else {
            self.since
        }
    }

    // Whether a check is due at a moment.
    fn is_due(&self, now: u64) -> bool
        ensures { result ≡ is_due_at (due_of self.now) now }
    {
        match self.next_check() {
            Some(moment) => moment <= now,
            None => false,
        }
    }

    // The moment of the next check, while there is a group.
    fn next_check(&self) -> Option<u64>
        ensures { result ≡ due_of self.now }
    {
        if self.groups.is_empty() {
            None
        } else {
            Some(self.since.saturating_add(self.flush_period_ms))
        }
    }
}

// Whether a condition holds of an event. Without one it never does.
fn holds_of(
    condition: &mut Option<Condition>,
    alloc: Global,
    event: &Event,
) -> Result<bool, WantOfMemory>
    ensures says { IfOk result (SaysOf condition.old event.now) }
    ensures same { condition.new ≡ condition.old }
{
    match condition {
        Some(condition) => condition.holds(alloc, event),
        None => Ok(false),
    }
}

impl Transform for Reduce {
    ghost port_count = { λ _. 1 };

    ghost held = { λ r. copies_held r.groups };

    ghost due_at = { due_of };

    fn ports(&self) -> u32 {
        1
    }

    /// Takes an event into the group of its key, or puts it out with it, as the conditions say.
    fn apply(
        &mut self,
        alloc: Global,
        parcel: Parcel,
        now: u64,
        shelf: &mut Shelf,
    ) -> Result<(), Back>
        ensures goes_on { OnOk result (GoesOn self.old self.new (arrived parcel now)) }
        ensures puts_out { OnOk result (PutsOut self.old (arrived parcel now) shelf.old shelf.new) }
        ensures meant { OnOk result (IsMeant self.old) }
        ensures answered { OnOk result
            (HasAnswered self.old self.new parcel now shelf.old shelf.new) }
        ensures moves { OnOk result
            (Moves 1 (copies_held self.old.groups ++ parcel.finalizers)
            (copies_held self.new.groups) shelf.old shelf.new) }
        ensures back { IfErr result (λ refused. refused.parcel ≡ parcel) }
        ensures unchanged { OnErr result (self.new ≡ self.old) }
        ensures shelf { OnErr result (shelf.new ≡ shelf.old) }
    {
        match self.plan(alloc, parcel.event.get()) {
            Ok(plan) => self.carry_out(alloc, plan, parcel, now, shelf),
            Err(WantOfMemory) => Err(Back { parcel }),
        }
    }

    /// Where a check is due, puts each group out, in order, whose last event came so long ago.
    fn tick(&mut self, alloc: Global, now: u64, shelf: &mut Shelf) -> Result<(), WantOfMemory>
        ensures goes_on { OnOk result (GoesOn self.old self.new (ticked now)) }
        ensures puts_out { OnOk result (PutsOut self.old (ticked now) shelf.old shelf.new) }
        ensures checked { OnOk result (HasChecked self.old self.new now shelf.old shelf.new) }
        ensures moves { Moves 1 (copies_held self.old.groups)
            (copies_held self.new.groups) shelf.old shelf.new }
    {
        if self.is_due(now) {
            self.check(alloc, now, shelf)
        } else {
            Ok(())
        }
    }

    /// Puts all groups out, in order.
    fn flush(&mut self, alloc: Global, shelf: &mut Shelf) -> Result<(), WantOfMemory>
        ensures goes_on { OnOk result (GoesOn self.old self.new at_end) }
        ensures puts_out { OnOk result (PutsOut self.old at_end shelf.old shelf.new) }
        ensures flushed { OnOk result (shelf.new ≡ put_all shelf.old (outputs_of self.old.groups)) }
        ensures groups { OnOk result (self.new ≡ record self.old { groups = [] }) }
        ensures moves { Moves 1 (copies_held self.old.groups)
            (copies_held self.new.groups) shelf.old shelf.new }
        ensures emptied { OnOk result (copies_held self.new.groups ≡ []) }
    {
        self.groups.put_out_old(alloc, 0, 0, shelf)
    }

    /// The moment of the next check while it holds a group, and else none.
    fn due(&self) -> Option<u64>
        ensures moment { result ≡ due_of self.now }
        ensures stands { IsDueAt self.now result }
    {
        self.next_check()
    }

    fn surrender(&mut self) -> Option<Finalizer>
        ensures some { IfSome result
            (λ copy. IsPermutation (copies_held self.old.groups)
            (copy ∷ copies_held self.new.groups)) }
        ensures none { IsNone result ↔ (copies_held self.old.groups ≡ []) }
        ensures empty { IfNone result (copies_held self.new.groups ≡ []) }
        ensures groups { IfNone result (self.new.groups ≡ []) }
    {
        self.groups.take_copy()
    }
}
