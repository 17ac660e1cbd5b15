ghost use Rattle.std.specs.Prelude.{◌≡◌, ◌++◌, OnOk, OnErr, IfOk, string_bytes};
ghost use Rattle.vx_cli.specs.Shown.{shown};
ghost use Rattle.vx_cli.specs.Summaries.{source_line, transform_line, sink_line, summary_line, lines_text, batches_text, attempts_text, outcomes_text};

use crate::showing::shown;
use std::alloc::{AllocError, Global};
use vx_plan::Class;
use vx_record::Tally;
use vx_value::{Bytes, Text, WantOfMemory};

/// Appends what an instance counted: one line that ends with a line feed, with the class and the name of its component, and then each
/// count of that class by its name.
///
/// Where no memory is found `out` is as before.
pub fn summary_line(
    alloc: Global,
    class: Class,
    name: &Text,
    tally: &Tally,
    out: &mut Bytes,
) -> Result<(), WantOfMemory>
    ensures ok { OnOk result (out.new ≡ out.old ++ summary_line class name.now tally.now) }
    ensures err { OnErr result (out.new ≡ out.old) }
{
    let name = shown(alloc, name)?;
    let line = match class {
        Class::Source => source_line(alloc, name.as_str(), tally)?,
        Class::Transform => transform_line(alloc, name.as_str(), tally)?,
        Class::Sink => sink_line(alloc, name.as_str(), tally)?,
    };
    out.push_slice(line.as_str().as_bytes())
}

/// What a source counted.
fn source_line(alloc: Global, name: &str, tally: &Tally) -> Result<String, AllocError>
    ensures { IfOk result (λ line. string_bytes line ≡ source_line name.now tally.now) }
{
    let lines = lines_text(alloc, tally)?;
    let batches = batches_text(alloc, tally)?;
    let outcomes = outcomes_text(alloc, tally)?;
    let confirmed = tally.confirmed;
    format!(in alloc; "source {name}{lines}{batches}{outcomes} confirmed={confirmed}\n")
}

/// What a transform counted.
fn transform_line(alloc: Global, name: &str, tally: &Tally) -> Result<String, AllocError>
    ensures { IfOk result (λ line. string_bytes line ≡ transform_line name.now tally.now) }
{
    format!(in alloc;
        "transform {name} taken={} sent={} dropped={} unread={}\n",
        tally.taken, tally.sent, tally.dropped, tally.unread
    )
}

/// What a sink counted.
fn sink_line(alloc: Global, name: &str, tally: &Tally) -> Result<String, AllocError>
    ensures { IfOk result (λ line. string_bytes line ≡ sink_line name.now tally.now) }
{
    let attempts = attempts_text(alloc, tally)?;
    let outcomes = outcomes_text(alloc, tally)?;
    let bytes = tally.bytes;
    format!(in alloc; "sink {name}{attempts}{outcomes} bytes={bytes}\n")
}

/// The bytes and lines that a source took.
fn lines_text(alloc: Global, tally: &Tally) -> Result<String, AllocError>
    ensures { IfOk result (λ text. string_bytes text ≡ lines_text tally.now) }
{
    format!(in alloc;
        " read={} lines={} overlong={} undecodable={}",
        tally.read, tally.lines, tally.overlong, tally.undecodable
    )
}

/// The events and batches that a source made.
fn batches_text(alloc: Global, tally: &Tally) -> Result<String, AllocError>
    ensures { IfOk result (λ text. string_bytes text ≡ batches_text tally.now) }
{
    format!(in alloc;
        " events={} unread={} batches={}",
        tally.events, tally.unread, tally.batches
    )
}

/// What a sink took and tried.
fn attempts_text(alloc: Global, tally: &Tally) -> Result<String, AllocError>
    ensures { IfOk result (λ text. string_bytes text ≡ attempts_text tally.now) }
{
    format!(in alloc;
        " taken={} newest={} attempts={}",
        tally.taken, tally.newest, tally.attempts
    )
}

/// What became of a source's batches or a sink's events.
fn outcomes_text(alloc: Global, tally: &Tally) -> Result<String, AllocError>
    ensures { IfOk result (λ text. string_bytes text ≡ outcomes_text tally.now) }
{
    format!(in alloc;
        " delivered={} errored={} rejected={}",
        tally.delivered, tally.errored, tally.rejected
    )
}
