// What is asked of an instance by itself.
ghost use Rattle.std.specs.Prelude.{◌≡◌, ◌<◌, ◌&&◌, ◌||◌, not, length};
ghost use Rattle.vx_record.specs.Installs.{source_at, transform_at, sink_at, device_at};
ghost use Rattle.vx_record.specs.Confirms.{is_confirm_due as is_confirm_due_at};
ghost use Rattle.vx_record.specs.Owing.{all_noticed as all_noticed_at};
ghost use Rattle.vx_record.specs.Ready.{can_read as can_read_at};
ghost use Rattle.vx_record.specs.Routing.{is_sent as is_sent_at, is_dry as is_dry_at};
ghost use Rattle.vx_moves.specs.Stands.{Stands};
ghost use Rattle.vx_ready.specs.Asking.{source_class, transform_class, sink_class, IsSettled};

use vx_ends::Port;
use vx_moves::EngineState;
use vx_plan::Class;

/// Whether an instance is a source.
pub fn is_source<P: Port>(engine: &EngineState<P>, i: u32) -> bool
    requires stands { Stands P.observed engine.now }
    requires within { i < length engine.now.states }
    ensures { result ≡ source_at engine.now.log i }
{
    is_source_class(engine.states.get(i).class)
}

/// Whether an instance is a sink.
pub fn is_sink<P: Port>(engine: &EngineState<P>, i: u32) -> bool
    requires stands { Stands P.observed engine.now }
    requires within { i < length engine.now.states }
    ensures { result ≡ sink_at engine.now.log i }
{
    is_sink_class(engine.states.get(i).class)
}

/// Whether an instance is a transform.
pub fn is_transform<P: Port>(engine: &EngineState<P>, i: u32) -> bool
    requires stands { Stands P.observed engine.now }
    requires within { i < length engine.now.states }
    ensures { result ≡ transform_at engine.now.log i }
{
    is_transform_class(engine.states.get(i).class)
}

/// Whether an instance works with a port.
pub fn has_device<P: Port>(engine: &EngineState<P>, i: u32) -> bool
    requires stands { Stands P.observed engine.now }
    requires within { i < length engine.now.states }
    ensures { result ≡ device_at engine.now.log i }
{
    engine.states.get(i).device
}

/// Whether a class is that of sources.
fn is_source_class(class: Class) -> bool
    ensures { result ≡ source_class class }
{
    matches!(class, Class::Source)
}

/// Whether a class is that of transforms.
fn is_transform_class(class: Class) -> bool
    ensures { result ≡ transform_class class }
{
    matches!(class, Class::Transform)
}

/// Whether a class is that of sinks.
fn is_sink_class(class: Class) -> bool
    ensures { result ≡ sink_class class }
{
    matches!(class, Class::Sink)
}

/// Whether all that an instance put out is on its way: it has neither an output nor a waiting child.
pub fn is_sent<P: Port>(engine: &EngineState<P>, i: u32) -> bool
    requires stands { Stands P.observed engine.now }
    requires within { i < length engine.now.states }
    ensures { result ≡ is_sent_at engine.now.log i }
{
    engine.places.is_sent(i)
}

/// Whether an instance is a source that takes no more: it was told the end of all, or was lost.
pub fn is_dry<P: Port>(engine: &EngineState<P>, i: u32) -> bool
    requires stands { Stands P.observed engine.now }
    requires within { i < length engine.now.states }
    ensures { result ≡ is_dry_at engine.now.log i }
{
    let state = engine.states.get(i);
    takes_none(state.class, state.facts.over, state.facts.lost.is_some())
}

/// Whether a class is that of sources, and one of two holds.
fn takes_none(class: Class, over: bool, lost: bool) -> bool
    ensures { result ≡ (source_class class && (over || lost)) }
{
    is_source_class(class) && (over || lost)
}

/// Whether a confirm is due at an instance that owes nothing. Where it works with no port, none is.
pub fn is_confirm_due<P: Port>(engine: &EngineState<P>, i: u32) -> bool
    requires stands { Stands P.observed engine.now }
    requires within { i < length engine.now.states }
    requires settled { IsSettled engine.now i }
    ensures { result ≡ is_confirm_due_at engine.now.log i }
{
    let state = engine.states.get(i);
    both(state.device, state.progress.prefix.is_due())
}

/// Whether each batch of an instance has its notice.
pub fn all_noticed<P: Port>(engine: &EngineState<P>, i: u32) -> bool
    requires stands { Stands P.observed engine.now }
    requires within { i < length engine.now.states }
    ensures { result ≡ all_noticed_at engine.now.log i }
{
    engine.states.get(i).progress.unnoticed == 0
}

/// Whether an instance that is a source can be read at a moment, in milliseconds: it isn't dry, all that it put out is on its way, and
/// it has rested.
pub fn can_read<P: Port>(engine: &EngineState<P>, i: u32, now: u64) -> bool
    requires stands { Stands P.observed engine.now }
    requires within { i < length engine.now.states }
    ensures { result ≡ can_read_at engine.now.log i now }
{
    let rested = engine.states.get(i).facts.reads_from <= now;
    both(gives_more(engine, i), rested)
}

/// Whether an instance that is a source can be read once it has rested: it isn't dry, and all that it put out is on its way.
pub(crate) fn gives_more<P: Port>(engine: &EngineState<P>, i: u32) -> bool
    requires stands { Stands P.observed engine.now }
    requires within { i < length engine.now.states }
    ensures { result ≡ (is_sent_at engine.now.log i && not (is_dry_at engine.now.log i)) }
{
    both(is_sent(engine, i), !is_dry(engine, i))
}

/// Whether two hold.
pub(crate) fn both(a: bool, b: bool) -> bool
    ensures { result ≡ (a && b) }
{
    a && b
}

/// Whether one of two holds.
pub(crate) fn either(a: bool, b: bool) -> bool
    ensures { result ≡ (a || b) }
{
    a || b
}
