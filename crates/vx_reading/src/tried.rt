// The conditions of some components are read, each once.
ghost use Rattle.std.specs.Prelude.{◌≡◌, ◌++◌, ◌∷◌, [], IfOk, OnOk, map};
ghost use Rattle.vx_plan.specs.Options.{conditions_of};
ghost use Rattle.vx_reading.specs.Conditions.{all_conditions, conditions_by, is_memory};
ghost use Rattle.vx_reading.specs.Trying.{Tries};

use crate::adding::push;
use crate::placed::placed_in;
use std::alloc::Global;
use vx_condition::{ConditionFault, ConditionList, parse};
use vx_plan::{Component, ComponentList, Settings};
use vx_value::{ItemList, Text, TextList, WantOfMemory};

/// The conditions of each of some components, in their order.
pub type ConditionLists = ItemList<ConditionList>;

/// The conditions of some components: the texts that are refused, and if there are none, those of each component.
#[derive(Drop)]
pub(crate) struct Tried {
    pub refused: TextList,
    pub conditions: ConditionLists,
}

/// Keeps a text that is refused behind others.
fn refuse(alloc: Global, refused: &mut TextList, text: &Text) -> Result<(), WantOfMemory>
    ensures { OnOk result (refused.new ≡ refused.old ++ text.now ∷ []) }
{
    push(refused, text.copy(alloc)?)
}

/// Whether a text was refused for want of memory alone.
fn is_memory(fault: &ConditionFault) -> bool
    ensures { result ≡ is_memory fault.now }
{
    match fault {
        ConditionFault::Syntax { .. }
        | ConditionFault::Deep { .. }
        | ConditionFault::BadPattern { .. } => false,
        ConditionFault::WantOfMemory => true,
    }
}

/// Reads one condition.
fn try_one(
    alloc: Global,
    text: &Text,
    refused: &mut TextList,
    conditions: &mut ConditionList,
) -> Result<(), WantOfMemory>
    ensures { OnOk result
        (Tries (text.now ∷ [])
        (text.now ∷ []) refused.old refused.new conditions.old conditions.new) }
{
    match parse(alloc, text.as_str()) {
        Ok(condition) => push(conditions, condition),
        Err(fault) => {
            if is_memory(&fault) {
                return Err(WantOfMemory);
            }
            refuse(alloc, refused, text)
        }
    }
}

/// Reads the conditions of a component's options.
fn try_settings(
    alloc: Global,
    settings: &Settings,
    refused: &mut TextList,
    conditions: &mut ConditionList,
) -> Result<(), WantOfMemory>
    ensures { OnOk result
        (Tries (conditions_of settings.now)
        (conditions_of settings.now) refused.old refused.new conditions.old conditions.new) }
{
    let all = placed_in(alloc, settings)?;
    for placed in all.as_slice() {
        try_one(alloc, placed.text, refused, conditions)?;
    }
    Ok(())
}

/// Reads the conditions of a component.
fn try_component(
    alloc: Global,
    component: &Component,
    refused: &mut TextList,
    lists: &mut ConditionLists,
) -> Result<(), WantOfMemory>
    ensures { OnOk result
        (Tries (conditions_by component.now)
        (conditions_by component.now ∷ []) refused.old refused.new lists.old lists.new) }
{
    let mut conditions = ConditionList::new(alloc);
    try_settings(alloc, &component.settings, refused, &mut conditions)?;
    push(lists, conditions)
}

/// Reads the conditions of some components.
pub(crate) fn try_all(alloc: Global, components: &ComponentList) -> Result<Tried, WantOfMemory>
    ensures { IfOk result
        (λ tried. Tries (all_conditions components.now)
        (map conditions_by components.now) [] tried.refused [] tried.conditions) }
{
    let mut refused = TextList::new(alloc);
    let mut conditions = ConditionLists::new(alloc);
    for component in components.as_slice() {
        try_component(alloc, component, &mut refused, &mut conditions)?;
    }
    Ok(Tried {
        refused,
        conditions,
    })
}
