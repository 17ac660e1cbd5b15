ghost use Rattle.std.specs.Prelude.{◌≡◌, IfOk};
ghost use Rattle.vx_plan.specs.First.{default_global, default_sink, first_source, first_sink, first_plan};

use crate::class::Class;
use crate::component::{Component, ComponentList};
use crate::console_target::ConsoleTarget;
use crate::global::Global;
use crate::plan::Plan;
use crate::settings::Settings;
use crate::sink_settings::SinkSettings;
use crate::stage::{Stage, StageList};
use crate::when_full::WhenFull;
use std::alloc::Global as Allocator;
use vx_codec::{Codec, Decoding};
use vx_value::{Text, TextList, WantOfMemory};

/// The plan of standard input to standard output, as text: a source named `in`, and a sink named `out` that reads it.
///
/// Nothing but their types, names, inputs and codec is said; what isn't has its default.
pub fn first_plan(alloc: Allocator) -> Result<Plan, WantOfMemory>
    ensures { IfOk result (λ plan. plan ≡ first_plan) }
{
    let mut components = ComponentList::new(alloc);
    components
        .push(first_source(alloc)?)
        .map_err(|_| WantOfMemory)?;
    components
        .push(first_sink(alloc)?)
        .map_err(|_| WantOfMemory)?;
    Plan::new(alloc, default_global(alloc)?, components)
}

/// Standard input, named `in`.
fn first_source(alloc: Allocator) -> Result<Component, WantOfMemory>
    ensures { IfOk result (λ source. source ≡ first_source) }
{
    Ok(Component {
        name: Text::copy_of(alloc, "in")?,
        class: Class::Source,
        inputs: TextList::new(alloc),
        settings: Settings::Stdin {
            max_length: 102_400,
            decoding_codec: Decoding::Bytes,
        },
    })
}

/// Standard output as text, named `out`, which reads `in`.
fn first_sink(alloc: Allocator) -> Result<Component, WantOfMemory>
    ensures { IfOk result (λ sink. sink ≡ first_sink) }
{
    let mut inputs = TextList::new(alloc);
    inputs
        .push(Text::copy_of(alloc, "in")?)
        .map_err(|_| WantOfMemory)?;
    Ok(Component {
        name: Text::copy_of(alloc, "out")?,
        class: Class::Sink,
        inputs,
        settings: Settings::Console {
            target: ConsoleTarget::Stdout,
            encoding_codec: Codec::Text,
            sink: default_sink(alloc)?,
        },
    })
}

/// The options of a sink that says none.
fn default_sink(alloc: Allocator) -> Result<SinkSettings, WantOfMemory>
    ensures { IfOk result (λ sink. sink ≡ default_sink) }
{
    let mut buffer = StageList::new(alloc);
    let stage = Stage {
        max_events: 500,
        when_full: WhenFull::Block,
    };
    buffer.push(stage).map_err(|_| WantOfMemory)?;
    Ok(SinkSettings {
        acknowledgements: false,
        buffer,
        batch_max_events: 1,
        batch_timeout_secs: 1,
        request_retry_attempts: 0x7fff_ffff_ffff_ffff,
        request_retry_initial_backoff_secs: 1,
        request_retry_max_duration_secs: 30,
    })
}

/// The global options of a configuration that says none.
fn default_global(alloc: Allocator) -> Result<Global, WantOfMemory>
    ensures { IfOk result (λ global. global ≡ default_global) }
{
    Ok(Global {
        data_dir: Text::copy_of(alloc, "/var/lib/vector/")?,
        acknowledgements: false,
    })
}
