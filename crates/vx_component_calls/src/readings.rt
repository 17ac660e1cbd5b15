//! Configurations whose one transform merges events or is handed in, as they are read.

use std::alloc::Global;
use std::process::Abort;
use std::test::Fail;
use vx_condition::{How, Strategy};
use vx_plan::{Component, Settings};
use vx_reading::{PlanFault, ReadPlan, read_plan};
use vx_value::{Path, Text, VariableList};

/// What stands before the options of the transform, which is the second component.
const BEFORE: &str = "sources.in = { type = 'stdin' }
sinks.out = { type = 'console', inputs = ['in'], encoding.codec = 'text' }

[transforms.joined]
type = 'reduce'
inputs = ['in']
";

/// The plan with a transform of these options, or why there is none.
fn read(alloc: Global, options: &str) -> Result<Result<ReadPlan, PlanFault>, Fail> {
    let text = format!(in alloc; "{BEFORE}{options}")?;
    Ok(read_plan(alloc, text.as_bytes(), &VariableList::new(alloc)))
}

/// The plan with a transform of these options.
fn planned(alloc: Global, options: &str) -> Result<ReadPlan, Fail> {
    match read(alloc, options)? {
        Ok(read) => Ok(read),
        Err(_) => Err(Fail::new("refused")),
    }
}

/// The options of the transform.
fn options_of(read: &ReadPlan) -> Option<&Settings> {
    Some(&read.plan.components.get(1)?.settings)
}

/// Checks that a text is this, or that both are missing.
fn is_text(rt: &impl Abort, text: &Option<Text>, want: Option<&str>) {
    match text {
        Some(text) => assert!(rt; want == Some(text.as_str())),
        None => assert!(rt; want.is_none()),
    }
}

/// Checks that a path has these names.
fn is_path(rt: &impl Abort, path: Option<&Path>, want: &[&str]) {
    let Some(path) = path else {
        panic!(rt; "no path");
    };
    let names = path.names();
    assert_eq!(rt; names.len(), want.len());
    for k in 0..want.len() {
        match (names.get(k), want.get(k)) {
            (Some(name), Some(other)) => assert_eq!(rt; name.as_str(), *other),
            _ => panic!(rt; "no name"),
        }
    }
}

/// The name of a way to merge.
fn name_of(how: How) -> &'static str {
    match how {
        How::Discard => "discard",
        How::Retain => "retain",
        How::Sum => "sum",
        How::Max => "max",
        How::Min => "min",
        How::Concat => "concat",
        How::ConcatNewline => "concat_newline",
        How::ConcatRaw => "concat_raw",
        How::Array => "array",
    }
}

/// Checks how a field is merged.
fn is_strategy(rt: &impl Abort, strategy: Option<&Strategy>, field: &str, how: &str) {
    let Some(strategy) = strategy else {
        panic!(rt; "no strategy");
    };
    assert_eq!(rt; strategy.field.as_str(), field);
    assert_eq!(rt; name_of(strategy.how), how);
}

/// Checks how many conditions the transform has.
fn has_conditions(rt: &impl Abort, read: &ReadPlan, count: usize) {
    let Some(conditions) = read.conditions.get(1) else {
        panic!(rt; "no conditions");
    };
    assert_eq!(rt; conditions.len(), count);
}

/// Each option, but for one of the two conditions. A path has a dot in front or none, and names of fields are read by their bytes.
const WHOLE: &str = "group_by = [\".host\", \"request.id\"]
starts_when = \"match(.message, r'^[^ ]')\"
expire_after_ms = 5000
flush_period_ms = 9007199254740992
merge_strategies.message = \"concat_newline\"
merge_strategies.count = \"sum\"
";

/// Checks that these are the options of `WHOLE`.
fn is_whole(rt: &impl Abort, options: &Settings) {
    let Settings::Reduce {
        group_by,
        starts_when,
        ends_when,
        expire_after_ms,
        flush_period_ms,
        merge_strategies,
    } = options
    else {
        panic!(rt; "no reduce");
    };
    assert_eq!(rt; group_by.len(), 2);
    is_path(rt, group_by.get(0), &["host"]);
    is_path(rt, group_by.get(1), &["request", "id"]);
    is_text(rt, starts_when, Some("match(.message, r'^[^ ]')"));
    is_text(rt, ends_when, None);
    assert_eq!(rt; *expire_after_ms, 5000);
    assert_eq!(rt; *flush_period_ms, 9007199254740992);
    assert_eq!(rt; merge_strategies.len(), 2);
    is_strategy(rt, merge_strategies.get(0), "count", "sum");
    is_strategy(rt, merge_strategies.get(1), "message", "concat_newline");
}

#[test]
fn each_option_is_read(rt: HostRuntime) -> Result<(), Fail> {
    let read = planned(rt.alloc(), WHOLE)?;
    match options_of(&read) {
        Some(options) => is_whole(&rt, options),
        None => panic!(&rt; "no transform"),
    }
    has_conditions(&rt, &read, 1);
    Ok(())
}

/// Checks that these are the options of a transform that says none.
fn is_default(rt: &impl Abort, options: &Settings) {
    let Settings::Reduce {
        group_by,
        starts_when,
        ends_when,
        expire_after_ms,
        flush_period_ms,
        merge_strategies,
    } = options
    else {
        panic!(rt; "no reduce");
    };
    assert!(rt; group_by.is_empty());
    is_text(rt, starts_when, None);
    is_text(rt, ends_when, None);
    assert_eq!(rt; *expire_after_ms, 30000);
    assert_eq!(rt; *flush_period_ms, 1000);
    assert!(rt; merge_strategies.is_empty());
}

#[test]
fn no_option_has_to_be_there(rt: HostRuntime) -> Result<(), Fail> {
    let read = planned(rt.alloc(), "")?;
    match options_of(&read) {
        Some(options) => is_default(&rt, options),
        None => panic!(&rt; "no transform"),
    }
    has_conditions(&rt, &read, 0);
    Ok(())
}

/// Checks that groups end by a condition, and begin by none.
fn ends_by(rt: &impl Abort, options: &Settings, want: &str) {
    let Settings::Reduce {
        starts_when,
        ends_when,
        ..
    } = options
    else {
        panic!(rt; "no reduce");
    };
    is_text(rt, starts_when, None);
    is_text(rt, ends_when, Some(want));
}

#[test]
fn a_condition_may_be_a_table(rt: HostRuntime) -> Result<(), Fail> {
    let read = planned(
        rt.alloc(),
        "ends_when = { type = \"vrl\", source = \"exists(.last)\" }\n",
    )?;
    match options_of(&read) {
        Some(options) => ends_by(&rt, options, "exists(.last)"),
        None => panic!(&rt; "no transform"),
    }
    has_conditions(&rt, &read, 1);
    Ok(())
}

/// The ways to merge a field.
const WAYS: &[&str] = &[
    "discard",
    "retain",
    "sum",
    "max",
    "min",
    "concat",
    "concat_newline",
    "concat_raw",
    "array",
];

/// Checks that one field is merged in a way.
fn merges_by(rt: &impl Abort, options: &Settings, field: &str, how: &str) {
    let Settings::Reduce {
        merge_strategies,
        ..
    } = options
    else {
        panic!(rt; "no reduce");
    };
    assert_eq!(rt; merge_strategies.len(), 1);
    is_strategy(rt, merge_strategies.get(0), field, how);
}

/// Checks that a field may be merged in a way, whatever its name is.
fn is_way(rt: &impl Abort, alloc: Global, way: &str) -> Result<(), Fail> {
    let options = format!(in alloc; "merge_strategies.\"a b.c\" = \"{way}\"\n")?;
    let read = planned(alloc, options.as_str())?;
    match options_of(&read) {
        Some(options) => merges_by(rt, options, "a b.c", way),
        None => panic!(rt; "no transform"),
    }
    Ok(())
}

#[test]
fn each_way_to_merge_has_its_name(rt: HostRuntime) -> Result<(), Fail> {
    for way in WAYS {
        is_way(&rt, rt.alloc(), *way)?;
    }
    Ok(())
}

/// Options of which a value isn't what it may be, and where that is told.
const BAD: &[(&str, &str)] = &[
    ("expire_after_ms = 0\n", "expire_after_ms"),
    ("flush_period_ms = 9007199254740993\n", "flush_period_ms"),
    ("group_by = \"host\"\n", "group_by"),
    ("group_by = [\"host\", \"a..b\"]\n", "group_by"),
    ("ends_when = \"exists(.last\"\n", "ends_when"),
    (
        "starts_when = \"exists(.a)\"\nends_when = \"exists(.b)\"\n",
        "starts_when",
    ),
    (
        "merge_strategies.message = \"append\"\n",
        "merge_strategies.message",
    ),
    ("merge_strategies = \"sum\"\n", "merge_strategies"),
    ("merge_strategies.a.b = \"sum\"\n", "merge_strategies.a"),
];

/// Checks that options are refused for a value at a path.
fn is_bad(rt: &impl Abort, alloc: Global, options: &str, path: &str) -> Result<(), Fail> {
    let want = format!(in alloc; "transforms.joined.{path}")?;
    match read(alloc, options)? {
        Err(PlanFault::BadValue { path }) => assert_eq!(rt; path.as_str(), want.as_str()),
        _ => panic!(rt; "no bad value"),
    }
    Ok(())
}

#[test]
fn a_bad_value_is_reported_at_its_option(rt: HostRuntime) -> Result<(), Fail> {
    for (options, path) in BAD {
        is_bad(&rt, rt.alloc(), *options, *path)?;
    }
    Ok(())
}

/// A transform that is handed in, between a source and a sink.
const HANDED_IN: &str = "sources.in = { type = 'stdin' }
transforms.mine = { type = 'host', inputs = ['in'] }
sinks.out = { type = 'console', inputs = ['mine'], encoding.codec = 'text' }
";

/// Checks that a component is a transform that is handed in, which reads one other.
fn is_handed_in(rt: &impl Abort, component: &Component, name: &str, input: &str) {
    match component.settings {
        Settings::Host => {}
        _ => panic!(rt; "no host"),
    }
    assert_eq!(rt; component.name.as_str(), name);
    assert_eq!(rt; component.inputs.len(), 1);
    match component.inputs.get(0) {
        Some(read) => assert_eq!(rt; read.as_str(), input),
        None => panic!(rt; "no input"),
    }
}

#[test]
fn a_transform_may_be_handed_in(rt: HostRuntime) -> Result<(), Fail> {
    let alloc = rt.alloc();
    let Ok(read) = read_plan(alloc, HANDED_IN.as_bytes(), &VariableList::new(alloc)) else {
        panic!(&rt; "refused");
    };
    match read.plan.components.get(1) {
        Some(component) => is_handed_in(&rt, component, "mine", "in"),
        None => panic!(&rt; "no transform"),
    }
    has_conditions(&rt, &read, 0);
    Ok(())
}
