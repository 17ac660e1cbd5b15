ghost use Rattle.std.specs.Prelude.{◌≡◌, ◌+◌, ◌<◌, [], ◌∷◌, Option, Some, None, option_map, length, map, IfOk, IfSome, IfNone, IsTrue};
ghost use Rattle.std.specs.Option.{option_copied};
ghost use Rattle.vx_value.specs.Events.{names_rise};
ghost use Rattle.vx_value.specs.Values.{datum_of, named_datum};
ghost use Rattle.vx_condition.specs.Merging.{strategy_of, is_grouping, merged_value, merged_with};
ghost use Rattle.vx_reduce.specs.Merges.{fields_in, fields_found, merged_event};

use crate::combine::{begun, combined};
use crate::group::Group;
use crate::merge_step::{MergeStep, keep};
use std::alloc::Global;
use std::cmp::Ordering;
use vx_condition::{How, PathList, StrategyList};
use vx_ledger::SharedEvent;
use vx_value::{Event, Field, FieldList, Value, WantOfMemory};

// By what fields are merged: paths whose first names keep their first values, and strategies.
#[derive(Drop)]
pub(crate) struct MergeRules {
    pub(crate) group_by: PathList,
    pub(crate) strategies: StrategyList,
}

impl MergeRules {
    // The strategy of a field: the first with its name.
    fn how_of(&self, name: &str) -> Option<How>
        ensures { result ≡ strategy_of self.now.strategies name.now }
    {
        for strategy in self.strategies.as_slice() {
            if strategy.field.as_str() == name {
                return Some(strategy.how);
            }
        }
        None
    }

    // Whether a name is the first of some path.
    fn is_grouping(&self, name: &str) -> bool
        ensures { result ≡ is_grouping self.now.group_by name.now }
    {
        for path in self.group_by.as_slice() {
            if path.names()[0].as_str() == name {
                return true;
            }
        }
        false
    }

    // The value of a field in a group that has this one or none so far.
    fn value_of(
        &self,
        alloc: Global,
        field: &Field,
        so_far: Option<&Value>,
    ) -> Result<Value, WantOfMemory>
        ensures { IfOk result
            (λ value. datum_of value
            ≡ merged_value self.now.group_by self.now.strategies (named_datum field.now)
            (option_map datum_of (option_copied so_far.entry))) }
    {
        let keeps = self.is_grouping(field.name.as_str());
        let how = self.how_of(field.name.as_str());
        match so_far {
            None => {
                if keeps {
                    field.value.copy(alloc)
                } else {
                    begun(alloc, how, &field.value)
                }
            }
            Some(so_far) => {
                if keeps {
                    so_far.copy(alloc)
                } else {
                    combined(alloc, how, so_far, &field.value)
                }
            }
        }
    }

    // The field of an event in a group that has this value under its name or none so far.
    fn field_of(
        &self,
        alloc: Global,
        field: &Field,
        so_far: Option<&Value>,
    ) -> Result<Field, WantOfMemory>
        ensures name { IfOk result (λ merged. merged.name ≡ field.now.name) }
        ensures value { IfOk result
            (λ merged. datum_of merged.value
            ≡ merged_value self.now.group_by self.now.strategies (named_datum field.now)
            (option_map datum_of (option_copied so_far.entry))) }
    {
        let name = field.name.copy(alloc)?;
        let value = self.value_of(alloc, field, so_far)?;
        Ok(Field { name, value })
    }

    // The first field of what a group's fields and an event's are merged to. `None` exactly where both have none.
    fn step<'a>(
        &self,
        alloc: Global,
        group: &'a [Field],
        event: &'a [Field],
    ) -> Result<Option<MergeStep<'a>>, WantOfMemory>
        requires group { IsTrue (names_rise (map named_datum group.now)) }
        requires event { IsTrue (names_rise (map named_datum event.now)) }
        ensures some { IfOk result
            (λ step. IfSome step
            (λ step. merged_with self.now.group_by self.now.strategies (map named_datum group.now)
            (map named_datum event.now) ≡ named_datum step.field
            ∷ merged_with self.now.group_by self.now.strategies (map named_datum step.group.now)
            (map named_datum step.event.now))) }
        ensures none { IfOk result
            (λ step. IfNone step
            (merged_with self.now.group_by self.now.strategies (map named_datum group.now)
            (map named_datum event.now) ≡ [])) }
        ensures group { IfOk result
            (λ step. IfSome step (λ step. IsTrue (names_rise (map named_datum step.group.now)))) }
        ensures event { IfOk result
            (λ step. IfSome step (λ step. IsTrue (names_rise (map named_datum step.event.now)))) }
        ensures less { IfOk result
            (λ step. IfSome step
            (λ step. length step.group.now + length step.event.now
            < length group.now + length event.now)) }
    {
        let Some((comes, later)) = event.split_first() else {
            return keep(alloc, group, event);
        };
        let Some((first, rest)) = group.split_first() else {
            let field = self.field_of(alloc, comes, None)?;
            return Ok(Some(MergeStep {
                field,
                group,
                event: later,
            }));
        };
        match first.name.as_str().cmp(comes.name.as_str()) {
            Ordering::Less => keep(alloc, group, event),
            Ordering::Equal => {
                let field = self.field_of(alloc, comes, Some(&first.value))?;
                Ok(Some(MergeStep {
                    field,
                    group: rest,
                    event: later,
                }))
            }
            Ordering::Greater => {
                let field = self.field_of(alloc, comes, None)?;
                Ok(Some(MergeStep {
                    field,
                    group,
                    event: later,
                }))
            }
        }
    }

    // A group's fields with those of an event, which are merged with the ones of their names.
    pub(crate) fn merged(
        &self,
        alloc: Global,
        group: &FieldList,
        event: &FieldList,
    ) -> Result<FieldList, WantOfMemory>
        ensures { IfOk result
            (λ fields. fields
            ≡ merged_with self.now.group_by self.now.strategies group.now event.now) }
    {
        let mut fields = FieldList::new(alloc);
        let mut group = group.as_slice();
        let mut event = event.as_slice();
        'steps: while let Some(step) = self.step(alloc, group, event)? {
            match fields.push(step.field) {
                Ok(()) => {}
                Err(_) => return Err(WantOfMemory),
            }
            group = step.group;
            event = step.event;
        }
        Ok(fields)
    }

    // The fields of an event, merged with those of a group.
    fn merged_in(
        &self,
        alloc: Global,
        group: &Group,
        event: &Event,
    ) -> Result<FieldList, WantOfMemory>
        ensures { IfOk result
            (λ fields. fields
            ≡ merged_with self.now.group_by self.now.strategies
            (fields_in group.now.parcel) event.now.fields) }
    {
        match &group.parcel {
            Some(parcel) => self.merged(alloc, &parcel.event.get().fields, &event.fields),
            None => self.merged(alloc, &FieldList::new(alloc), &event.fields),
        }
    }

    // The event that an event is merged to with what a group has, if there is one.
    pub(crate) fn merged_event(
        &self,
        alloc: Global,
        group: Option<&Group>,
        event: &Event,
    ) -> Result<SharedEvent, WantOfMemory>
        ensures { IfOk result
            (λ merged. merged
            ≡ merged_event self.now.group_by self.now.strategies
            (fields_found (option_copied group.entry)) event.now) }
    {
        let fields = match group {
            Some(group) => self.merged_in(alloc, group, event)?,
            None => self.merged(alloc, &FieldList::new(alloc), &event.fields)?,
        };
        SharedEvent::new(alloc, Event { fields })
    }
}
