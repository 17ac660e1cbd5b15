ghost use Rattle.std.specs.Prelude.{◌≡◌, ◌≤◌, ◌++◌, ◌∷◌, [], IfOk, OnOk, map};
ghost use Rattle.std.specs.Option.{option_map};
ghost use Rattle.std.specs.List.{flat_map};
ghost use Rattle.toml.specs.View.{view, items_view};
ghost use Rattle.vx_reading.specs.Judging.{items_in, pairs_in as pairs_in_view};
ghost use Rattle.vx_reading.specs.Options.{most_seconds};
ghost use Rattle.vx_reading.specs.Plans.{truth_in, truth_either, acknowledgements_of, global_of, text_of, texts_at, inputs_for, target_named, include_of, path_of, decoding_named, codec_named, condition_of, condition_at, condition_given, way_of, ways_of, is_rerouted, is_numbered, demo_of, keys_of, whole_within, retries_of, sink_of, settings_of, component, component_of};
ghost use Rattle.vx_reading.specs.Views.{pair_view, part_view, parts_view};

use crate::adding::push;
use crate::fields::fields_of;
use crate::kind::Kind;
use crate::merging::{group_by_of, strategies_of};
use crate::options::{
    MOST_BATCH, MOST_KEYS, MOST_LENGTH, MOST_PERIOD, MOST_PRINT_INTERVAL, MOST_SECONDS, MOST_WHOLE,
};
use crate::pair::{Pair, pairs_in};
use crate::part::{Part, kind_of};
use crate::stages::buffer_of;
use crate::texts::same_text;
use crate::values::{list_at, text_at, text_within, truth_at, whole_at, whole_within};
use std::alloc::Global as Allocator;
use toml::Value;
use vx_plan::{
    Class, Codec, Component, ComponentList, Compression, ConsoleTarget, Decoding, DemoSettings,
    Global, ReadFrom, Route, RouteList, Settings, SinkSettings,
};
use vx_value::{Text, TextList, WantOfMemory};

/// The length of the longest line where a source doesn't say, without its line feed.
const LINE_LIMIT: u64 = 102_400;

/// The folder in which checkpoints are kept where a configuration doesn't say.
const DATA_DIR: &str = "/var/lib/vector/";

/// The truth that a value is, or that a table has under a name.
fn truth_in(name: &str, value: &Value) -> Option<bool>
    ensures { result ≡ truth_in name.now (view value.now) }
{
    match value.as_bool() {
        Some(truth) => Some(truth),
        None => truth_at(name, value),
    }
}

/// The truth under a name of a table, or under another in a table that stands there.
fn truth_either(group: &str, name: &str, table: &Value) -> Option<bool>
    ensures { result ≡ truth_either group.now name.now (view table.now) }
{
    match table.get(group) {
        Some(value) => truth_in(name, value),
        None => None,
    }
}

/// Whether sinks acknowledge: as a table says, and otherwise as is said elsewhere.
fn acknowledgements_of(otherwise: bool, table: &Value) -> bool
    ensures { result ≡ acknowledgements_of otherwise (view table.now) }
{
    match truth_either("acknowledgements", "enabled", table) {
        Some(truth) => truth,
        None => otherwise,
    }
}

/// The global options: sinks don't acknowledge where the configuration doesn't say.
pub(crate) fn global_of(alloc: Allocator, root: &Value) -> Result<Global, WantOfMemory>
    ensures { IfOk result (λ global. global ≡ global_of (view root.now)) }
{
    let data_dir = match text_at("data_dir", root) {
        Some(text) => Text::copy_of(alloc, text)?,
        None => Text::copy_of(alloc, DATA_DIR)?,
    };
    Ok(Global {
        data_dir,
        acknowledgements: acknowledgements_of(false, root),
    })
}

/// Adds a value that is a text.
fn push_text(alloc: Allocator, texts: &mut TextList, value: &Value) -> Result<(), WantOfMemory>
    ensures { OnOk result (texts.new ≡ texts.old ++ text_of (view value.now)) }
{
    let Some(text) = value.as_str() else {
        return Ok(());
    };
    push(texts, Text::copy_of(alloc, text)?)
}

/// The texts among some values.
pub(crate) fn texts_of(alloc: Allocator, values: &[Value]) -> Result<TextList, WantOfMemory>
    ensures { IfOk result (λ texts. texts ≡ flat_map text_of (items_in (items_view values.now))) }
{
    let mut texts = TextList::new(alloc);
    for value in values {
        push_text(alloc, &mut texts, value)?;
    }
    Ok(texts)
}

/// The texts of the list under a name of a table.
fn texts_at(alloc: Allocator, name: &str, table: &Value) -> Result<TextList, WantOfMemory>
    ensures { IfOk result (λ texts. texts ≡ texts_at name.now (view table.now)) }
{
    match list_at(name, table) {
        Some(values) => texts_of(alloc, values),
        None => Ok(TextList::new(alloc)),
    }
}

/// The inputs of a component of a type; a source has none.
fn inputs_for(alloc: Allocator, kind: Kind, table: &Value) -> Result<TextList, WantOfMemory>
    ensures { IfOk result (λ inputs. inputs ≡ inputs_for kind (view table.now)) }
{
    match kind.class() {
        Class::Source => Ok(TextList::new(alloc)),
        Class::Transform | Class::Sink => texts_at(alloc, "inputs", table),
    }
}

/// Where a console writes: to standard output where it doesn't say.
fn target_named(name: Option<&str>) -> ConsoleTarget
    ensures { result ≡ target_named (option_map (λ t. t.now) name.entry) }
{
    match name {
        Some(text) if same_text(text, "stderr") => ConsoleTarget::Stderr,
        _ => ConsoleTarget::Stdout,
    }
}

/// How a source makes an event of a line: the line is the message where it doesn't say.
fn decoding_named(name: Option<&str>) -> Decoding
    ensures { result ≡ decoding_named (option_map (λ t. t.now) name.entry) }
{
    match name {
        Some(text) if same_text(text, "json") => Decoding::Json,
        _ => Decoding::Bytes,
    }
}

/// How a sink writes an event; it has to say.
fn codec_named(name: Option<&str>) -> Codec
    ensures { result ≡ codec_named (option_map (λ t. t.now) name.entry) }
{
    match name {
        Some(text) if same_text(text, "json") => Codec::Json,
        _ => Codec::Text,
    }
}

/// The file that a source reads: the first of its list, which has one.
fn include_of(alloc: Allocator, table: &Value) -> Result<Text, WantOfMemory>
    ensures { IfOk result (λ path. path ≡ include_of (view table.now)) }
{
    let texts = texts_at(alloc, "include", table)?;
    match texts.get(0) {
        Some(text) => text.copy(alloc),
        None => Text::copy_of(alloc, ""),
    }
}

/// The file to which a sink appends.
fn path_of(alloc: Allocator, table: &Value) -> Result<Text, WantOfMemory>
    ensures { IfOk result (λ path. path ≡ path_of (view table.now)) }
{
    match text_at("path", table) {
        Some(text) => Text::copy_of(alloc, text),
        None => Text::copy_of(alloc, ""),
    }
}

/// The condition that a value is: a text, or that under `source` in a table; the empty text, which is no condition, elsewhere.
fn condition_of(value: &Value) -> &str
    ensures { result.now ≡ condition_of (view value.now) }
{
    match value.as_str() {
        Some(text) => text,
        None => match text_at("source", value) {
            Some(text) => text,
            None => "",
        },
    }
}

/// The condition under a name of a table; the empty text, which is no condition, where there is none.
fn condition_at<'a>(name: &str, table: &'a Value) -> &'a str
    ensures { result.now ≡ condition_at name.now (view table.now) }
{
    match table.get(name) {
        Some(value) => condition_of(value),
        None => "",
    }
}

/// The condition under a name of a table, if there is one.
fn condition_given(
    alloc: Allocator,
    name: &str,
    table: &Value,
) -> Result<Option<Text>, WantOfMemory>
    ensures { IfOk result (λ condition. condition ≡ condition_given name.now (view table.now)) }
{
    match table.get(name) {
        Some(value) => Ok(Some(Text::copy_of(alloc, condition_of(value))?)),
        None => Ok(None),
    }
}

/// Adds a way of a route: the name of its port, and its condition.
fn push_way(alloc: Allocator, ways: &mut RouteList, pair: Pair<'_>) -> Result<(), WantOfMemory>
    ensures { OnOk result (ways.new ≡ ways.old ++ way_of (pair_view pair.entry) ∷ []) }
{
    let way = Route {
        name: Text::copy_of(alloc, pair.name)?,
        condition: Text::copy_of(alloc, condition_of(pair.value))?,
    };
    push(ways, way)
}

/// The ways of a route that a table has, by the bytes of their names.
fn ways_in(alloc: Allocator, table: &Value) -> Result<RouteList, WantOfMemory>
    ensures { IfOk result (λ ways. ways ≡ map way_of (pairs_in_view (view table.now))) }
{
    let pairs = pairs_in(alloc, table)?;
    let mut ways = RouteList::new(alloc);
    for pair in pairs.as_slice() {
        push_way(alloc, &mut ways, *pair)?;
    }
    Ok(ways)
}

/// The ways of a route.
fn ways_of(alloc: Allocator, table: &Value) -> Result<RouteList, WantOfMemory>
    ensures { IfOk result (λ ways. ways ≡ ways_of (view table.now)) }
{
    match table.get("route") {
        Some(inner) => ways_in(alloc, inner),
        None => Ok(RouteList::new(alloc)),
    }
}

/// Whether what no condition of a route accepts has a port of its own: it has where it doesn't say.
fn is_rerouted(table: &Value) -> bool
    ensures { result ≡ is_rerouted (view table.now) }
{
    match truth_at("reroute_unmatched", table) {
        Some(truth) => truth,
        None => true,
    }
}

/// Whether numbers stand before the lines of a source: they don't where it doesn't say.
fn is_numbered(table: &Value) -> bool
    ensures { result ≡ is_numbered (view table.now) }
{
    match truth_at("sequence", table) {
        Some(truth) => truth,
        None => false,
    }
}

/// What the lines of a source are made of.
fn demo_of(alloc: Allocator, table: &Value) -> Result<DemoSettings, WantOfMemory>
    ensures { IfOk result (λ demo. demo ≡ demo_of (view table.now)) }
{
    Ok(DemoSettings {
        lines: texts_at(alloc, "lines", table)?,
        sequence: is_numbered(table),
        count: whole_at("count", 0, MOST_WHOLE, MOST_WHOLE, table),
        seed: whole_at("seed", 0, MOST_WHOLE, 0, table),
    })
}

/// How many keys a transform that discards repeats keeps: 5,000 where it doesn't say.
fn keys_of(table: &Value) -> u32
    ensures { result ≡ keys_of (view table.now) }
{
    whole_within("cache", "num_events", 1, MOST_KEYS, 5_000, table) as u32
}

/// A number of seconds, one at least, under a name of a table that stands under another name; where there is none, another.
fn seconds_within(group: &str, name: &str, otherwise: u32, table: &Value) -> u32
    requires { otherwise ≤ most_seconds }
    ensures { result ≡ whole_within group.now name.now 1 most_seconds otherwise (view table.now) }
{
    whole_within(group, name, 1, MOST_SECONDS, otherwise as u64, table) as u32
}

/// How often a sink makes a failed attempt again: as often as an option may say where it doesn't say.
fn retries_of(table: &Value) -> u64
    ensures { result ≡ retries_of (view table.now) }
{
    let most = MOST_WHOLE;
    whole_within("request", "retry_attempts", 0, most, most, table)
}

/// The options that every sink has: it acknowledges as the global option says where it doesn't say itself.
fn sink_of(alloc: Allocator, global: &Global, table: &Value) -> Result<SinkSettings, WantOfMemory>
    ensures { IfOk result (λ sink. sink ≡ sink_of global.now (view table.now)) }
{
    let first_wait = seconds_within("request", "retry_initial_backoff_secs", 1, table);
    let longest_wait = seconds_within("request", "retry_max_duration_secs", 30, table);
    Ok(SinkSettings {
        acknowledgements: acknowledgements_of(global.acknowledgements, table),
        buffer: buffer_of(alloc, table)?,
        batch_max_events: whole_within("batch", "max_events", 1, MOST_BATCH, 1, table) as u32,
        batch_timeout_secs: seconds_within("batch", "timeout_secs", 1, table),
        request_retry_attempts: retries_of(table),
        request_retry_initial_backoff_secs: first_wait,
        request_retry_max_duration_secs: longest_wait,
    })
}

/// The settings of a component of a type.
fn settings_of(
    alloc: Allocator,
    global: &Global,
    table: &Value,
    kind: Kind,
) -> Result<Settings, WantOfMemory>
    ensures { IfOk result (λ settings. settings ≡ settings_of global.now (view table.now) kind) }
{
    match kind {
        Kind::Stdin => Ok(Settings::Stdin {
            max_length: whole_at("max_length", 1, MOST_LENGTH, LINE_LIMIT, table) as u32,
            decoding_codec: decoding_named(text_within("decoding", "codec", table)),
        }),
        Kind::FileIn => Ok(Settings::FileIn {
            max_line_bytes: whole_at("max_line_bytes", 1, MOST_LENGTH, LINE_LIMIT, table) as u32,
            include: include_of(alloc, table)?,
            read_from: ReadFrom::Beginning,
            decoding_codec: decoding_named(text_within("decoding", "codec", table)),
        }),
        Kind::DemoLogs => Ok(Settings::DemoLogs {
            demo: demo_of(alloc, table)?,
            interval: whole_at("interval", 0, MOST_SECONDS, 1, table) as u32,
        }),
        Kind::Filter => Ok(Settings::Filter {
            condition: Text::copy_of(alloc, condition_at("condition", table))?,
        }),
        Kind::Route => Ok(Settings::Route {
            routes: ways_of(alloc, table)?,
            reroute_unmatched: is_rerouted(table),
        }),
        Kind::Sample => Ok(Settings::Sample {
            rate: whole_at("rate", 1, MOST_WHOLE, 1, table),
            exclude: condition_given(alloc, "exclude", table)?,
        }),
        Kind::Dedupe => Ok(Settings::Dedupe {
            fields: fields_of(alloc, table)?,
            cache_num_events: keys_of(table),
        }),
        Kind::Reduce => Ok(Settings::Reduce {
            group_by: group_by_of(alloc, table)?,
            starts_when: condition_given(alloc, "starts_when", table)?,
            ends_when: condition_given(alloc, "ends_when", table)?,
            expire_after_ms: whole_at("expire_after_ms", 1, MOST_PERIOD, 30_000, table),
            flush_period_ms: whole_at("flush_period_ms", 1, MOST_PERIOD, 1_000, table),
            merge_strategies: strategies_of(alloc, table)?,
        }),
        Kind::Host => Ok(Settings::Host),
        Kind::Console => Ok(Settings::Console {
            target: target_named(text_at("target", table)),
            encoding_codec: codec_named(text_within("encoding", "codec", table)),
            sink: sink_of(alloc, global, table)?,
        }),
        Kind::FileOut => Ok(Settings::FileOut {
            path: path_of(alloc, table)?,
            compression: Compression::None,
            encoding_codec: codec_named(text_within("encoding", "codec", table)),
            sink: sink_of(alloc, global, table)?,
        }),
        Kind::Blackhole => Ok(Settings::Blackhole {
            print_interval_secs: whole_at("print_interval_secs", 0, MOST_PRINT_INTERVAL, 0, table),
            sink: sink_of(alloc, global, table)?,
        }),
    }
}

/// The component of a type.
fn make_component(
    alloc: Allocator,
    global: &Global,
    part: Part<'_>,
    kind: Kind,
) -> Result<Component, WantOfMemory>
    ensures { IfOk result (λ made. made ≡ component global.now (part_view part.entry) kind) }
{
    Ok(Component {
        name: Text::copy_of(alloc, part.name)?,
        class: part.class,
        inputs: inputs_for(alloc, kind, part.value)?,
        settings: settings_of(alloc, global, part.value, kind)?,
    })
}

/// Adds the component that a part of a document stands for.
fn push_component(
    alloc: Allocator,
    components: &mut ComponentList,
    global: &Global,
    part: Part<'_>,
) -> Result<(), WantOfMemory>
    ensures { OnOk result
        (components.new ≡ components.old ++ component_of global.now (part_view part.entry)) }
{
    let Some(kind) = kind_of(part) else {
        return Ok(());
    };
    push(components, make_component(alloc, global, part, kind)?)
}

/// The components that the parts of a document stand for.
pub(crate) fn components_of(
    alloc: Allocator,
    global: &Global,
    all: &[Part<'_>],
) -> Result<ComponentList, WantOfMemory>
    ensures { IfOk result
        (λ components. components ≡ flat_map (component_of global.now) (parts_view all.now)) }
{
    let mut components = ComponentList::new(alloc);
    for part in all {
        push_component(alloc, &mut components, global, *part)?;
    }
    Ok(components)
}
