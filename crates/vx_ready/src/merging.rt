// What an instance has to do that merges.
ghost use Rattle.std.specs.Prelude.{◌≡◌, ◌<◌, ◌⊎◌, ◌||◌, [], length, not, true, false, IsTrue};
ghost use Rattle.vx_value.specs.Texts.{is_empty};
ghost use Rattle.vx_record.specs.Lists.{buffered};
ghost use Rattle.vx_record.specs.Ready.{is_flush_due, is_ready, is_transform_ready, IsTickReady};
ghost use Rattle.vx_record.specs.Transforms.{IsTickDue};
ghost use Rattle.vx_tasks.specs.Joining.{joins_at};
ghost use Rattle.vx_keeping.specs.Keeping.{taken_in, RunsHost};
ghost use Rattle.vx_moves.specs.Keepers.{CanAnswer, IsKeeper};
ghost use Rattle.vx_moves.specs.Stands.{Stands};
ghost use Rattle.vx_ready.specs.Asking.{IsServed, IsSettled, IsOpen};
ghost use Rattle.vx_ready.specs.Jobs.{IsLeasable};

use crate::ending::is_ending;
use crate::finishing::is_unbuffered;
use crate::jobs::{is_open, is_settled};
use crate::sources::is_sent;
use vx_ends::Port;
use vx_keeping::Hosts;
use vx_moves::EngineState;

/// Whether an instance that merges has something to do at a moment, in milliseconds, once all that it put out is on its way: something
/// is buffered, it is to act by itself, or it is to put out all that it holds since nothing more can come. It has nothing to do where
/// it is leased, or may owe something for want of memory, where it ended, and where the run was given up.
pub fn can_merge<P: Port, H: Hosts>(engine: &EngineState<P>, hosts: &H, i: u32, now: u64) -> bool
    requires stands { Stands P.observed engine.now }
    requires within { i < length engine.now.states }
    requires served { IsServed engine.now }
    requires joins { joins_at engine.now.log i ≡ true }
    ensures leasable { IsTrue result → IsLeasable engine.now i now }
    ensures settled { IsTrue result → IsSettled engine.now i }
    ensures none { result ≡ false → IsSettled engine.now i → IsOpen engine.now i →
        is_transform_ready engine.now.log i ≡ false }
    ensures unready { result ≡ false → IsSettled engine.now i → IsOpen engine.now i →
        is_ready engine.now.log i now ≡ false }
    ensures early { result ≡ false → IsSettled engine.now i → IsOpen engine.now i →
        IsKeeper CanAnswer engine.now.keepers.items i → (RunsHost engine.now.log i → ⊥) →
        IsTickReady engine.now.log i now → ⊥ }
{
    if !is_settled(engine, i) {
        return false;
    }
    if !is_open(engine, i) {
        return false;
    }
    is_sent(engine, i) && has_inputs(engine, hosts, i, now)
}

/// Whether there is something for an instance that merges to answer: what is buffered, a tick that is due at a moment, or the flush.
fn has_inputs<P: Port, H: Hosts>(engine: &EngineState<P>, hosts: &H, i: u32, now: u64) -> bool
    requires stands { Stands P.observed engine.now }
    requires within { i < length engine.now.states }
    requires served { IsServed engine.now }
    requires joins { joins_at engine.now.log i ≡ true }
    ensures some { IsTrue result →
        ((not (is_empty (buffered engine.now.log i)) || is_flush_due engine.now.log i) ≡ true)
        ⊎ IsTickDue engine.now.log i now }
    ensures none { result ≡ false →
        (not (is_empty (buffered engine.now.log i)) || is_flush_due engine.now.log i) ≡ false }
    ensures early { result ≡ false → IsKeeper CanAnswer engine.now.keepers.items i →
        (RunsHost engine.now.log i → ⊥) → taken_in engine.now.log i ≡ [] →
        IsTickDue engine.now.log i now → ⊥ }
{
    if !is_unbuffered(engine, i) {
        return true;
    }
    if is_check_due(engine, hosts, i, now) {
        return true;
    }
    must_flush(engine, i)
}

/// Whether an instance that merges is to act by itself at a moment, in milliseconds. It isn't while it took something that it hasn't
/// answered, nor once no memory was found for an answer. When a transform acts that the program hands in, that one says alone.
pub fn is_check_due<P: Port, H: Hosts>(engine: &EngineState<P>, hosts: &H, i: u32, now: u64) -> bool
    requires stands { Stands P.observed engine.now }
    requires within { i < length engine.now.states }
    requires joins { joins_at engine.now.log i ≡ true }
    ensures due { IsTrue result → IsTickDue engine.now.log i now }
    ensures none { IsTrue result → taken_in engine.now.log i ≡ [] }
    ensures early { result ≡ false → IsKeeper CanAnswer engine.now.keepers.items i →
        (RunsHost engine.now.log i → ⊥) → taken_in engine.now.log i ≡ [] →
        IsTickDue engine.now.log i now → ⊥ }
{
    match engine.check_due(hosts, i) {
        Some(moment) => moment <= now,
        None => false,
    }
}

/// Whether an instance that merges is to put out all that it holds: nothing more can come to it, nothing is buffered, and it holds
/// something.
pub fn must_flush<P: Port>(engine: &EngineState<P>, i: u32) -> bool
    requires stands { Stands P.observed engine.now }
    requires within { i < length engine.now.states }
    requires served { IsServed engine.now }
    requires joins { joins_at engine.now.log i ≡ true }
    ensures { result ≡ is_flush_due engine.now.log i }
{
    if engine.keeps_none(i) {
        return false;
    }
    if !is_unbuffered(engine, i) {
        return false;
    }
    is_ending(engine, i)
}
