ghost use Rattle.std.specs.Prelude.{◌≡◌};
ghost use Rattle.std.specs.Option.{option_map};
ghost use Rattle.vx_reading.specs.Components.{section_name};
ghost use Rattle.vx_reading.specs.Diagnostics.{section_number, is_section};
ghost use Rattle.vx_reading.specs.Options.{global_rows, rows_of, stage_rows, exclusion_of, kind_named};
ghost use Rattle.vx_reading.specs.Views.{rows_view, exclusion_view};

use crate::exclusion::Exclusion;
use crate::item::Item;
use crate::kind::Kind;
use crate::place::Place::{self, Alone, Any, Each, Either, Within};
use crate::row::Row;
use crate::shape::Shape::{
    AnyText, Condition, FixedText, ListOf, OneFile, OneOf, Stages, Texts, Truth, Whole,
};
use crate::texts::same_text;
use vx_plan::Class;

/// An option that may be there.
macro_rules! optional {
    ($place:expr, $shape:expr) => {
        Row {
            place: $place,
            shape: $shape,
            required: false,
        }
    };
}

/// An option that has to be there.
macro_rules! mandatory {
    ($place:expr, $shape:expr) => {
        Row {
            place: $place,
            shape: $shape,
            required: true,
        }
    };
}

/// How many inputs a component may have.
const MOST_INPUTS: usize = 256;

/// Whether sinks acknowledge: a global option, and one of every sink.
const ACKNOWLEDGEMENTS_ROW: Row = optional!(Either("acknowledgements", "enabled"), Truth);

/// The global options.
static GLOBAL_ROWS: [Row; 2] = [optional!(Alone("data_dir"), AnyText), ACKNOWLEDGEMENTS_ROW];

/// An option of every component.
const TYPE_ROW: Row = mandatory!(Alone("type"), AnyText);

/// The longest line that a source may allow, in bytes, without its line feed.
pub(crate) const MOST_LENGTH: u64 = 16_777_216;

/// How a source makes an event of a line: an option of every source that reads.
const DECODING_ROW: Row = optional!(Within("decoding", "codec"), OneOf(&["bytes", "json"]));

/// The options of a source that reads standard input.
static STDIN_ROWS: [Row; 3] = [
    TYPE_ROW,
    optional!(Alone("max_length"), Whole(1, MOST_LENGTH)),
    DECODING_ROW,
];

/// The options of a source that reads a file.
static FILE_IN_ROWS: [Row; 5] = [
    TYPE_ROW,
    optional!(Alone("max_line_bytes"), Whole(1, MOST_LENGTH)),
    mandatory!(Alone("include"), OneFile),
    optional!(Alone("read_from"), OneOf(&["beginning"])),
    DECODING_ROW,
];

/// The largest whole number that a text can say: 2^63 - 1.
pub(crate) const MOST_WHOLE: u64 = 0x7fff_ffff_ffff_ffff;

/// How many seconds an option may say: a day.
pub(crate) const MOST_SECONDS: u64 = 86_400;

/// The options of a source that makes its lines of some texts.
static DEMO_LOGS_ROWS: [Row; 7] = [
    TYPE_ROW,
    mandatory!(Alone("format"), OneOf(&["shuffle"])),
    mandatory!(Alone("lines"), ListOf(Item::Line, 1)),
    optional!(Alone("sequence"), Truth),
    optional!(Alone("count"), Whole(0, MOST_WHOLE)),
    optional!(Alone("interval"), Whole(0, MOST_SECONDS)),
    optional!(Alone("seed"), Whole(0, MOST_WHOLE)),
];

/// An option of every component that reads others.
const INPUTS_ROW: Row = optional!(Alone("inputs"), Texts(MOST_INPUTS));

/// How many routes there may be.
const MOST_ROUTES: usize = 64;

/// The options of a transform that passes what its condition accepts.
static FILTER_ROWS: [Row; 3] = [
    TYPE_ROW,
    INPUTS_ROW,
    mandatory!(Alone("condition"), Condition),
];

/// The options of a transform that puts events out by conditions.
static ROUTE_ROWS: [Row; 4] = [
    TYPE_ROW,
    INPUTS_ROW,
    mandatory!(Each("route", MOST_ROUTES), Condition),
    optional!(Alone("reroute_unmatched"), Truth),
];

/// The options of a transform that passes one of some events.
static SAMPLE_ROWS: [Row; 4] = [
    TYPE_ROW,
    INPUTS_ROW,
    mandatory!(Alone("rate"), Whole(1, MOST_WHOLE)),
    optional!(Alone("exclude"), Condition),
];

/// The values by which events repeat each other.
const MATCH_PLACE: Place<'static> = Within("fields", "match");

/// The fields that don't count for that.
const IGNORE_PLACE: Place<'static> = Within("fields", "ignore");

/// How many keys a transform that discards repeats may keep.
pub(crate) const MOST_KEYS: u64 = 1_000_000;

/// The options of a transform that discards repeats.
static DEDUPE_ROWS: [Row; 5] = [
    TYPE_ROW,
    INPUTS_ROW,
    optional!(MATCH_PLACE, ListOf(Item::Path, 1)),
    optional!(IGNORE_PLACE, ListOf(Item::Text, 0)),
    optional!(Within("cache", "num_events"), Whole(1, MOST_KEYS)),
];

/// The events that begin a group.
const STARTS_PLACE: Place<'static> = Alone("starts_when");

/// Or those that end one.
const ENDS_PLACE: Place<'static> = Alone("ends_when");

/// How many milliseconds a transform that merges events may say: 2^53.
pub(crate) const MOST_PERIOD: u64 = 0x20_0000_0000_0000;

/// The options of a transform that merges events into groups.
static REDUCE_ROWS: [Row; 8] = [
    TYPE_ROW,
    INPUTS_ROW,
    optional!(Alone("group_by"), ListOf(Item::Path, 0)),
    optional!(STARTS_PLACE, Condition),
    optional!(ENDS_PLACE, Condition),
    optional!(Alone("expire_after_ms"), Whole(1, MOST_PERIOD)),
    optional!(Alone("flush_period_ms"), Whole(1, MOST_PERIOD)),
    optional!(
        Any("merge_strategies"),
        OneOf(&[
            "discard",
            "retain",
            "sum",
            "max",
            "min",
            "concat",
            "concat_newline",
            "concat_raw",
            "array"
        ])
    ),
];

/// The options of a transform that is handed in.
static HOST_ROWS: [Row; 2] = [TYPE_ROW, INPUTS_ROW];

/// How many stages a buffer may have.
const MOST_STAGES: usize = 8;

/// For how many events a stage may have room, and all stages of all sinks together.
pub(crate) const MOST_CAPACITY: u64 = 1_000_000;

/// The options of a stage of a buffer.
static STAGE_ROWS: [Row; 3] = [
    optional!(Alone("type"), OneOf(&["memory"])),
    optional!(Alone("max_events"), Whole(1, MOST_CAPACITY)),
    optional!(
        Alone("when_full"),
        OneOf(&["block", "drop_newest", "overflow"])
    ),
];

/// The stages of a sink's buffer: an option of every sink.
const BUFFER_ROW: Row = optional!(Alone("buffer"), Stages(MOST_STAGES));

/// How many parcels a batch of a sink may have.
pub(crate) const MOST_BATCH: u64 = 10_000;

/// With how many parcels a batch is closed: an option of every sink.
const BATCH_EVENTS_ROW: Row = optional!(Within("batch", "max_events"), Whole(1, MOST_BATCH));

/// How many seconds behind its first parcel a batch is closed: an option of every sink.
const BATCH_TIMEOUT_ROW: Row = optional!(Within("batch", "timeout_secs"), Whole(1, MOST_SECONDS));

/// How often a failed attempt is made again: an option of every sink.
const RETRIES_ROW: Row = optional!(Within("request", "retry_attempts"), Whole(0, MOST_WHOLE));

/// How many seconds a sink waits behind its first failed attempt: an option of every sink.
const FIRST_WAIT_ROW: Row = optional!(
    Within("request", "retry_initial_backoff_secs"),
    Whole(1, MOST_SECONDS)
);

/// How many seconds it waits at the most: an option of every sink.
const LONGEST_WAIT_ROW: Row = optional!(
    Within("request", "retry_max_duration_secs"),
    Whole(1, MOST_SECONDS)
);

/// How a sink writes an event: an option of every sink that writes.
const CODEC_ROW: Row = mandatory!(Within("encoding", "codec"), OneOf(&["text", "json"]));

/// The options of a type of sinks: those of every sink, and its own.
macro_rules! sink_rows {
    ($($own:expr),* $(,)?) => {
        [
            TYPE_ROW,
            INPUTS_ROW,
            $($own,)*
            ACKNOWLEDGEMENTS_ROW,
            BUFFER_ROW,
            BATCH_EVENTS_ROW,
            BATCH_TIMEOUT_ROW,
            RETRIES_ROW,
            FIRST_WAIT_ROW,
            LONGEST_WAIT_ROW,
        ]
    };
}

/// The options of a sink that writes to standard output or standard error.
static CONSOLE_ROWS: [Row; 11] = sink_rows![
    optional!(Alone("target"), OneOf(&["stdout", "stderr"])),
    CODEC_ROW,
];

/// The options of a sink that appends to a file.
static FILE_OUT_ROWS: [Row; 12] = sink_rows![
    mandatory!(Alone("path"), FixedText),
    optional!(Alone("compression"), OneOf(&["none"])),
    CODEC_ROW,
];

/// How many seconds a sink that writes nothing may say: 2^53.
pub(crate) const MOST_PRINT_INTERVAL: u64 = 0x20_0000_0000_0000;

/// A number of seconds without effect.
const PRINT_INTERVAL_ROW: Row = optional!(
    Alone("print_interval_secs"),
    Whole(0, MOST_PRINT_INTERVAL)
);

/// The options of a sink that writes nothing.
static BLACKHOLE_ROWS: [Row; 10] = sink_rows![PRINT_INTERVAL_ROW];

/// The global options.
pub(crate) fn global_rows() -> &'static [Row]
    ensures { rows_view result.now ≡ global_rows }
{
    &GLOBAL_ROWS
}

/// The options of a type.
pub(crate) fn rows_of(kind: Kind) -> &'static [Row]
    ensures { rows_view result.now ≡ rows_of kind }
{
    match kind {
        Kind::Stdin => &STDIN_ROWS,
        Kind::FileIn => &FILE_IN_ROWS,
        Kind::DemoLogs => &DEMO_LOGS_ROWS,
        Kind::Filter => &FILTER_ROWS,
        Kind::Route => &ROUTE_ROWS,
        Kind::Sample => &SAMPLE_ROWS,
        Kind::Dedupe => &DEDUPE_ROWS,
        Kind::Reduce => &REDUCE_ROWS,
        Kind::Host => &HOST_ROWS,
        Kind::Console => &CONSOLE_ROWS,
        Kind::FileOut => &FILE_OUT_ROWS,
        Kind::Blackhole => &BLACKHOLE_ROWS,
    }
}

/// The two options of a type that exclude each other, if it has such.
pub(crate) fn exclusion_of(kind: Kind) -> Option<Exclusion>
    ensures { option_map exclusion_view result ≡ exclusion_of kind }
{
    match kind {
        Kind::Dedupe => Some(Exclusion {
            earlier: IGNORE_PLACE,
            later: MATCH_PLACE,
        }),
        Kind::Reduce => Some(Exclusion {
            earlier: ENDS_PLACE,
            later: STARTS_PLACE,
        }),
        _ => None,
    }
}

/// The options of a stage of a buffer.
pub(crate) fn stage_rows() -> &'static [Row]
    ensures { rows_view result.now ≡ stage_rows }
{
    &STAGE_ROWS
}

/// The type of that name in the table of a class.
pub(crate) fn kind_named(class: Class, name: &str) -> Option<Kind>
    ensures { result ≡ kind_named class name.now }
{
    match class {
        Class::Source if same_text("stdin", name) => Some(Kind::Stdin),
        Class::Source if same_text("file", name) => Some(Kind::FileIn),
        Class::Source if same_text("demo_logs", name) => Some(Kind::DemoLogs),
        Class::Transform if same_text("filter", name) => Some(Kind::Filter),
        Class::Transform if same_text("route", name) => Some(Kind::Route),
        Class::Transform if same_text("sample", name) => Some(Kind::Sample),
        Class::Transform if same_text("dedupe", name) => Some(Kind::Dedupe),
        Class::Transform if same_text("reduce", name) => Some(Kind::Reduce),
        Class::Transform if same_text("host", name) => Some(Kind::Host),
        Class::Sink if same_text("console", name) => Some(Kind::Console),
        Class::Sink if same_text("file", name) => Some(Kind::FileOut),
        Class::Sink if same_text("blackhole", name) => Some(Kind::Blackhole),
        _ => None,
    }
}

/// The name of the table of a class.
pub(crate) fn section_name(class: Class) -> &'static str
    ensures { result.now ≡ section_name class }
{
    match class {
        Class::Source => "sources",
        Class::Transform => "transforms",
        Class::Sink => "sinks",
    }
}

/// The place of the table of a class among the parts of a configuration.
pub(crate) fn section_number(class: Class) -> u8
    ensures { result ≡ section_number class }
{
    match class {
        Class::Source => 1,
        Class::Transform => 2,
        Class::Sink => 3,
    }
}

/// Whether a name is that of one of the three tables.
pub(crate) fn is_section(name: &str) -> bool
    ensures { result ≡ is_section name.now }
{
    same_text(name, section_name(Class::Source))
        || same_text(name, section_name(Class::Transform))
        || same_text(name, section_name(Class::Sink))
}
