// Whether anything can still come to an instance.
ghost use Rattle.std.specs.Prelude.{◌≡◌, ◌<◌, ◌≤◌, ◌&&◌, length, not};
ghost use Rattle.vx_record.specs.Copies.{contains};
ghost use Rattle.vx_record.specs.Installs.{source_at, is_retired};
ghost use Rattle.vx_record.specs.Lists.{waiting};
ghost use Rattle.vx_record.specs.Routing.{is_dry as is_dry_at, all_dry, all_ports, routes, names as names_at, is_named as is_named_at, is_ending as is_ending_at};
ghost use Rattle.vx_value.specs.Texts.{is_empty};
ghost use Rattle.vx_moves.specs.Stands.{Stands};
ghost use Rattle.vx_ready.specs.Asking.{IsServed, goes_on, goes_to, is_among as is_among_by};

use crate::sources::{both, is_dry, is_sent, is_source};
use vx_ends::Port;
use vx_ledger::Outlet;
use vx_moves::EngineState;
use vx_value::NumberList;

/// Whether an instance is a transform or a sink that nothing more can reach: every source is dry, and no instance that hasn't ended
/// sends to it or has a child that waits for it.
pub fn is_ending<P: Port>(engine: &EngineState<P>, i: u32) -> bool
    requires stands { Stands P.observed engine.now }
    requires within { i < length engine.now.states }
    requires served { IsServed engine.now }
    ensures { result ≡ is_ending_at engine.now.log i }
{
    if is_source(engine, i) {
        return false;
    }
    if !are_all_dry(engine) {
        return false;
    }
    !is_named(engine, i)
}

/// Whether every source is dry.
fn are_all_dry<P: Port>(engine: &EngineState<P>) -> bool
    requires stands { Stands P.observed engine.now }
    requires served { IsServed engine.now }
    ensures { result ≡ all_dry engine.now.log }
{
    for j in 0..engine.states.len() as u32 {
        if gives(engine, j) {
            return false;
        }
    }
    true
}

/// Whether an instance is a source that isn't dry.
fn gives<P: Port>(engine: &EngineState<P>, j: u32) -> bool
    requires stands { Stands P.observed engine.now }
    requires within { j < length engine.now.states }
    ensures { result ≡ (source_at engine.now.log j && not (is_dry_at engine.now.log j)) }
{
    is_source(engine, j) && !is_dry(engine, j)
}

/// Whether an instance that hasn't ended can still send to another one.
fn is_named<P: Port>(engine: &EngineState<P>, i: u32) -> bool
    requires stands { Stands P.observed engine.now }
    requires served { IsServed engine.now }
    ensures { result ≡ is_named_at engine.now.log i }
{
    for j in 0..engine.states.len() as u32 {
        if may_send(engine, j, i) {
            return true;
        }
    }
    false
}

/// Whether it can, of one.
fn may_send<P: Port>(engine: &EngineState<P>, j: u32, i: u32) -> bool
    requires stands { Stands P.observed engine.now }
    requires within { j < length engine.now.states }
    requires served { IsServed engine.now }
    ensures { result ≡ (not (is_retired engine.now.log j) && names_at engine.now.log j i) }
{
    !is_ended(engine, j) && (sends(engine, j, i) || waits(engine, j, i))
}

/// Whether an instance has ended.
fn is_ended<P: Port>(engine: &EngineState<P>, j: u32) -> bool
    requires stands { Stands P.observed engine.now }
    requires within { j < length engine.now.states }
    ensures { result ≡ is_retired engine.now.log j }
{
    engine.states.get(j).facts.retired
}

/// Whether a child of an instance waits for another one.
fn waits<P: Port>(engine: &EngineState<P>, j: u32, i: u32) -> bool
    requires stands { Stands P.observed engine.now }
    requires within { j < length engine.now.states }
    ensures { result ≡ not (is_empty (waiting engine.now.log j i)) }
{
    engine.places.awaits(j, i)
}

/// Whether an instance sends what it puts out to another one. A dry source that sent everything sends to none.
fn sends<P: Port>(engine: &EngineState<P>, j: u32, i: u32) -> bool
    requires stands { Stands P.observed engine.now }
    requires within { j < length engine.now.states }
    requires served { IsServed engine.now }
    ensures { result ≡ contains (routes engine.now.log j (all_ports engine.now.log j)) i }
{
    let over = both(is_dry(engine, j), is_sent(engine, j));
    both(!over, is_target(&engine.states.get(j).outlet, i))
}

/// How many ports an instance may have.
const MOST_PORTS: u32 = 65;

/// Whether an instance is among the targets of one of some ports.
fn is_target(outlet: &Outlet, i: u32) -> bool
    requires few { length outlet.now ≤ 65 }
    ensures { result ≡ goes_to i outlet.now }
{
    for port in 0..MOST_PORTS {
        if is_target_of(outlet, port, i) {
            return true;
        }
    }
    false
}

/// Whether it is among those of one.
fn is_target_of(outlet: &Outlet, port: u32, i: u32) -> bool
    ensures { result ≡ goes_on i port outlet.now }
{
    match outlet.port_targets(port) {
        Some(targets) => is_among(targets, i),
        None => false,
    }
}

/// Whether an instance is among some targets.
fn is_among(targets: &NumberList, i: u32) -> bool
    ensures { result ≡ is_among_by i targets.now }
{
    targets.as_slice().iter().any(|target| *target == i as u64)
}
