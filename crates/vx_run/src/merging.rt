// By what a component merges events.
ghost use Rattle.std.specs.Prelude.{◌≡◌, ◌++◌, List, IfOk};
ghost use Rattle.vx_value.specs.Texts.{ByteString};
ghost use Rattle.vx_plan.specs.Options.{if_any};
ghost use Rattle.vx_reading.specs.Conditions.{conditions_by};
ghost use Rattle.vx_run.specs.Merging.{merging_of};

use std::alloc::Global;
use vx_condition::{Condition, ConditionList};
use vx_plan::{Component, Settings};
use vx_reduce::ReduceSettings;
use vx_value::{Text, WantOfMemory};

/// By what a component merges events that has these conditions, if it does.
pub(crate) fn reduce_settings_of(
    alloc: Global,
    component: &Component,
    conditions: ConditionList,
) -> Result<Option<ReduceSettings>, WantOfMemory>
    requires { conditions ≡ conditions_by component.now }
    ensures { IfOk result (λ settings. settings ≡ merging_of component.now.settings) }
{
    match component.settings.copy(alloc)? {
        Settings::Reduce {
            group_by,
            starts_when,
            ends_when,
            expire_after_ms,
            flush_period_ms,
            merge_strategies,
        } => {
            let mut conditions = conditions;
            let starts_when = last_for(&mut conditions, &starts_when);
            let ends_when = last_for(&mut conditions, &ends_when);
            Ok(Some(ReduceSettings {
                group_by,
                starts_when,
                ends_when,
                expire_after_ms,
                flush_period_ms,
                strategies: merge_strategies,
            }))
        }
        _ => Ok(None),
    }
}

/// The last of some conditions, where there is a text that is its; otherwise none, and all stay.
fn last_for(conditions: &mut ConditionList, text: &Option<Text>) -> Option<Condition>
    ensures { (others : List ByteString) → conditions.old ≡ others ++ if_any text.now →
        (result ≡ text.now) × (conditions.new ≡ others) }
{
    match text {
        Some(_) => conditions.pop(),
        None => None,
    }
}
