// Whether a full buffer drops what comes.
ghost use Rattle.std.specs.Prelude.{◌≡◌};
ghost use Rattle.vx_plan.specs.Components.{stages, sink_stages};
ghost use Rattle.vx_record.specs.Stages.{stages_of, drops_newest as drops_newest_at, last_drops as last_drops_of};
ghost use Rattle.vx_moves.specs.Stands.{Stands};

use vx_ends::Port;
use vx_moves::EngineState;
use vx_plan::{Class, Component, Settings, StageList, WhenFull};

/// Whether the last stage of an instance's buffer drops what comes while it is full.
pub(crate) fn drops_newest<P: Port>(engine: &EngineState<P>, target: u32) -> bool
    requires stands { Stands P.observed engine.now }
    ensures { result ≡ last_drops_of (stages_of engine.now.log target) }
{
    match engine.run.plan.components.get(target as usize) {
        Some(component) => does_component(component),
        None => false,
    }
}

/// Whether the last stage of a component's buffer does.
fn does_component(component: &Component) -> bool
    ensures { result ≡ last_drops_of (stages component.now) }
{
    match component.class {
        Class::Source | Class::Transform => false,
        Class::Sink => do_settings(&component.settings),
    }
}

/// Whether the last stage of a sink's buffer does, by its options.
fn do_settings(settings: &Settings) -> bool
    ensures { result ≡ last_drops_of (sink_stages settings.now) }
{
    match settings.sink() {
        Some(sink) => does_last(&sink.buffer),
        None => false,
    }
}

/// Whether the last of some stages does.
fn does_last(stages: &StageList) -> bool
    ensures { result ≡ last_drops_of stages.now }
{
    let many = stages.len();
    if many == 0 {
        return false;
    }
    match stages.get(many - 1) {
        Some(stage) => does_full(stage.when_full),
        None => false,
    }
}

/// Whether a full stage does.
fn does_full(when_full: WhenFull) -> bool
    ensures { result ≡ drops_newest_at when_full }
{
    matches!(when_full, WhenFull::DropNewest)
}
