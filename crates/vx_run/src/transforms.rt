// What the transforms of a plan work by.
ghost use Rattle.std.specs.Prelude.{◌≡◌, ◌≤◌, [], ◌∷◌, length, map, true, Some, None, IfOk, IfSome, OnErr, vec_capacity};
ghost use Rattle.std.specs.List.{list_all};
ghost use Rattle.vx_value.specs.Texts.{ByteString};
ghost use Rattle.vx_hub.specs.Making.{IsPickerFor, ArePickers, IsSlotFor, AreSlots, AreBare};
ghost use Rattle.vx_hub.specs.Standing.{merges as merges_by};
ghost use Rattle.vx_pick.specs.declared.picker.Picker.TheVariants as Picker;
ghost use Rattle.vx_reading.specs.Conditions.{conditions_by};
ghost use Rattle.vx_reading.specs.Made.{is_made};
ghost use Rattle.vx_keeping.specs.Kept.{copies_kept};

use crate::merging::reduce_settings_of;
use std::alloc::Global;
use vx_condition::{Condition, ConditionList};
use vx_hub::{KeeperList, PickerList, end_keepers, merges};
use vx_keeping::Keeper;
use vx_pick::{Dedupe, Filter, Picker, Route, Sample};
use vx_plan::{Component, Plan, Settings};
use vx_reading::ConditionLists;
use vx_value::WantOfMemory;

/// How many parcels a transform that merges takes before it answers.
const HAND: usize = 64;

/// What each component of a plan picks by or keeps, in order.
pub(crate) struct Transforms {
    pub pickers: PickerList,
    pub keepers: KeeperList,
}

/// What one component picks by or keeps.
struct Transform {
    picker: Option<Picker>,
    keeper: Option<Keeper>,
}

/// What each component of a plan picks by or keeps, in order, if it is a transform.
pub(crate) fn make_transforms(
    alloc: Global,
    plan: &Plan,
    conditions: ConditionLists,
) -> Result<Transforms, WantOfMemory>
    requires conditions { conditions ≡ map conditions_by plan.now.components }
    requires made { list_all is_made plan.now.components ≡ true }
    ensures pickers { IfOk result (λ made. ArePickers plan.now.components made.pickers) }
    ensures keepers { IfOk result (λ made. AreSlots plan.now.components made.keepers) }
    ensures bare { IfOk result (λ made. AreBare made.keepers) }
{
    let pickers = Vec::with_capacity(alloc, plan.components.len())?;
    let keepers = Vec::with_capacity(alloc, plan.components.len())?;
    fill(alloc, plan, conditions, pickers, keepers)
}

/// The same, with room for all.
fn fill(
    alloc: Global,
    plan: &Plan,
    conditions: ConditionLists,
    pickers: Vec<Option<Picker>>,
    keepers: Vec<Option<Keeper>>,
) -> Result<Transforms, WantOfMemory>
    requires conditions { conditions ≡ map conditions_by plan.now.components }
    requires made { list_all is_made plan.now.components ≡ true }
    requires none { pickers.items ≡ [] }
    requires nothing { keepers.items ≡ [] }
    requires room { length plan.now.components ≤ vec_capacity pickers }
    requires slots { length plan.now.components ≤ vec_capacity keepers }
    ensures pickers { IfOk result (λ made. ArePickers plan.now.components made.pickers) }
    ensures keepers { IfOk result (λ made. AreSlots plan.now.components made.keepers) }
    ensures bare { IfOk result (λ made. AreBare made.keepers) }
{
    let (mut pickers, mut keepers) = (pickers, keepers);
    let mut conditions = conditions.into_vec();
    conditions.as_mut_slice().reverse();
    for component in plan.components.as_slice() {
        let Some(list) = conditions.pop() else {
            unreachable!();
        };
        match transform_of(alloc, component, list) {
            Ok(Transform { picker, keeper }) => {
                pickers.push_reserved(picker);
                keepers.push_reserved(keeper);
            }
            Err(WantOfMemory) => {
                end_keepers(KeeperList::from_vec(keepers));
                return Err(WantOfMemory);
            }
        }
    }
    Ok(Transforms {
        pickers: PickerList::from_vec(pickers),
        keepers: KeeperList::from_vec(keepers),
    })
}

/// What a component picks by or keeps that has these conditions, if it is a transform.
fn transform_of(
    alloc: Global,
    component: &Component,
    conditions: ConditionList,
) -> Result<Transform, WantOfMemory>
    requires conditions { conditions ≡ conditions_by component.now }
    requires made { is_made component.now ≡ true }
    ensures picker { IfOk result (λ made. IsPickerFor component.now made.picker) }
    ensures keeper { IfOk result (λ made. IsSlotFor component.now made.keeper) }
    ensures bare { IfOk result (λ made. IfSome made.keeper (λ k. copies_kept k ≡ [])) }
{
    if merges(component) {
        let keeper = keeper_of(alloc, component, conditions)?;
        return Ok(Transform {
            picker: None,
            keeper,
        });
    }
    let picker = picker_of(alloc, component, conditions)?;
    Ok(Transform {
        picker,
        keeper: None,
    })
}

/// What a component that merges keeps as it begins.
fn keeper_of(
    alloc: Global,
    component: &Component,
    conditions: ConditionList,
) -> Result<Option<Keeper>, WantOfMemory>
    requires conditions { conditions ≡ conditions_by component.now }
    requires merges { merges_by component.now ≡ true }
    ensures keeper { IfOk result (λ keeper. IsSlotFor component.now keeper) }
    ensures bare { IfOk result (λ keeper. IfSome keeper (λ k. copies_kept k ≡ [])) }
{
    match reduce_settings_of(alloc, component, conditions)? {
        Some(settings) => Ok(Some(Keeper::reducing(alloc, settings, HAND)?)),
        None => Ok(Some(Keeper::hosting(alloc, HAND)?)),
    }
}

/// What a component picks by that has these conditions, if it is a transform that judges.
fn picker_of(
    alloc: Global,
    component: &Component,
    conditions: ConditionList,
) -> Result<Option<Picker>, WantOfMemory>
    requires conditions { conditions ≡ conditions_by component.now }
    requires made { is_made component.now ≡ true }
    ensures { IfOk result (IsPickerFor component.now) }
{
    match component.settings.copy(alloc)? {
        Settings::Filter { .. } => Ok(filter_of(conditions)),
        Settings::Route {
            reroute_unmatched,
            ..
        } => Ok(Some(Picker::Route(Route::new(conditions, reroute_unmatched)))),
        Settings::Sample { rate, .. } => {
            let exclude = last_of(conditions);
            Ok(Some(Picker::Sample(Sample::new(rate, exclude))))
        }
        Settings::Dedupe {
            fields,
            cache_num_events,
        } => {
            let dedupe = Dedupe::new(alloc, fields, cache_num_events)?;
            Ok(Some(Picker::Dedupe(dedupe)))
        }
        _ => Ok(None),
    }
}

/// The last of some conditions, if there is one.
fn last_of(conditions: ConditionList) -> Option<Condition>
    ensures some { (text : ByteString) → conditions ≡ text ∷ [] → result ≡ Some text }
    ensures none { conditions ≡ [] → result ≡ None }
{
    let mut conditions = conditions;
    conditions.pop()
}

/// The filter by the last of some conditions, if there is one.
fn filter_of(conditions: ConditionList) -> Option<Picker>
    ensures { (text : ByteString) → conditions ≡ text ∷ [] → result ≡ Some (Picker.Filter text) }
{
    match last_of(conditions) {
        Some(condition) => Some(Picker::Filter(Filter::new(condition))),
        None => None,
    }
}
