// Whether an instance has nothing more to do.
ghost use Rattle.std.specs.Prelude.{◌≡◌, ◌<◌, ◌&&◌, length, true, false};
ghost use Rattle.vx_record.specs.Installs.{source_at};
ghost use Rattle.vx_record.specs.Lists.{buffered, held};
ghost use Rattle.vx_record.specs.Owing.{is_source_done as is_source_done_at, is_worker_done as is_worker_done_at, is_done as is_done_at};
ghost use Rattle.vx_record.specs.Routing.{is_sent as is_sent_at};
ghost use Rattle.vx_value.specs.Texts.{is_empty};
ghost use Rattle.vx_tasks.specs.Joining.{joins_at};
ghost use Rattle.vx_moves.specs.Stands.{Stands};
ghost use Rattle.vx_ready.specs.Asking.{IsServed, IsSettled};

use crate::ending::is_ending;
use crate::sources::{all_noticed, both, is_confirm_due, is_dry, is_sent, is_source};
use vx_ends::Port;
use vx_moves::EngineState;

/// Whether an instance that owes nothing has nothing more to do.
pub fn is_done<P: Port>(engine: &EngineState<P>, i: u32) -> bool
    requires stands { Stands P.observed engine.now }
    requires within { i < length engine.now.states }
    requires served { IsServed engine.now }
    requires settled { IsSettled engine.now i }
    ensures { result ≡ is_done_at engine.now.log i }
{
    if is_source(engine, i) {
        is_source_done(engine, i)
    } else {
        is_worker_done(engine, i)
    }
}

/// Whether a source takes no more, all that it put out is on its way, each of its batches has its notice, and no confirm is due.
fn is_source_done<P: Port>(engine: &EngineState<P>, i: u32) -> bool
    requires stands { Stands P.observed engine.now }
    requires within { i < length engine.now.states }
    requires settled { IsSettled engine.now i }
    requires source { source_at engine.now.log i ≡ true }
    ensures { result ≡ is_source_done_at engine.now.log i }
{
    let sent = both(is_dry(engine, i), is_sent(engine, i));
    let confirmed = both(all_noticed(engine, i), !is_confirm_due(engine, i));
    both(sent, confirmed)
}

/// Whether nothing more comes to a transform or a sink, and nothing stands at it.
fn is_worker_done<P: Port>(engine: &EngineState<P>, i: u32) -> bool
    requires stands { Stands P.observed engine.now }
    requires within { i < length engine.now.states }
    requires served { IsServed engine.now }
    requires settled { IsSettled engine.now i }
    ensures { result ≡ is_worker_done_at engine.now.log i }
{
    is_vacant(engine, i) && is_ending(engine, i)
}

/// Whether nothing stands at an instance.
fn is_vacant<P: Port>(engine: &EngineState<P>, i: u32) -> bool
    requires stands { Stands P.observed engine.now }
    requires within { i < length engine.now.states }
    requires settled { IsSettled engine.now i }
    ensures { result
        ≡ (is_empty (buffered engine.now.log i) && is_sent_at engine.now.log i
        && is_empty (held engine.now.log i)) }
{
    let sent = both(is_unbuffered(engine, i), is_sent(engine, i));
    let none = holds_none(engine, i);
    both(sent, none)
}

/// Whether no stage of an instance's buffer has a parcel.
pub(crate) fn is_unbuffered<P: Port>(engine: &EngineState<P>, i: u32) -> bool
    requires stands { Stands P.observed engine.now }
    requires within { i < length engine.now.states }
    ensures { result ≡ is_empty (buffered engine.now.log i) }
{
    engine.places.is_empty_buffer(i)
}

/// Whether an unleased instance holds nothing.
pub fn holds_none<P: Port>(engine: &EngineState<P>, i: u32) -> bool
    requires stands { Stands P.observed engine.now }
    requires within { i < length engine.now.states }
    requires settled { IsSettled engine.now i }
    ensures { result ≡ is_empty (held engine.now.log i) }
{
    if engine.merges(i) {
        engine.keeps_none(i)
    } else {
        count_held(engine, i) == 0
    }
}

/// How many parcels an unleased instance holds that doesn't merge.
pub(crate) fn count_held<P: Port>(engine: &EngineState<P>, i: u32) -> usize
    requires stands { Stands P.observed engine.now }
    requires within { i < length engine.now.states }
    requires settled { IsSettled engine.now i }
    requires alone { joins_at engine.now.log i ≡ false }
    ensures { result ≡ length (held engine.now.log i) }
{
    engine.places.holds(i)
}
