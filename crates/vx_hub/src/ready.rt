// Which instance has work.
ghost use Rattle.std.specs.Prelude.{◌≡◌, ◌<◌, ◌≤◌, ℕ, length, slice_get, IfSome, IfNone, true, false};
ghost use Rattle.vx_record.specs.Routing.{all_dry};
ghost use Rattle.vx_moves.specs.Stands.{Stands};
ghost use Rattle.vx_ready.specs.Asking.{IsServed};
ghost use Rattle.vx_hub.specs.Leases.{IsReadyFor, NoneReady, NoneFoundAt, NoneFound, NoneFilled, GoesFirst, class_test};
ghost use Rattle.vx_hub.specs.Standing.{AreSources};

use vx_ends::Port;
use vx_moves::EngineState;
use vx_plan::Class;
use vx_ready::{first_job, is_dry, is_sink, is_source, is_transform};
use vx_tasks::Job;

/// An unleased instance that has work.
#[derive(Clone, Copy)]
pub(crate) struct Ready {
    pub instance: u32,
    pub job: Job,
}

/// The first instance that has work at a moment: a sink, or where none has, a transform, or where none has, another. `None` where none
/// unleased has. While a source may give more, nobody is asked but sources and those in whose buffer or among whose held parcels
/// something may stand.
pub(crate) fn first_ready<P: Port>(
    engine: &EngineState<P>,
    sources: &[u32],
    now: u64,
) -> Option<Ready>
    requires stands { Stands P.observed engine.now }
    requires served { IsServed engine.now }
    requires sources { AreSources engine.now.run.plan.components
        (length engine.now.states) sources.now }
    requires latest { engine.now.run.latest ≤ now }
    ensures some { IfSome result (λ ready. IsReadyFor engine.now now ready.instance ready.job) }
    ensures first { IfSome result (λ ready. GoesFirst engine.now now ready.instance) }
    ensures none { IfNone result (NoneReady engine.now now) }
{
    if let Some(ready) = filled_of(engine, Class::Sink, now) {
        return Some(ready);
    }
    if are_dry(engine, sources) {
        return ready_at_end(engine, now);
    }
    if let Some(ready) = filled_of(engine, Class::Transform, now) {
        return Some(ready);
    }
    ready_source(engine, sources, now)
}

/// The same, where nothing more may come.
fn ready_at_end<P: Port>(engine: &EngineState<P>, now: u64) -> Option<Ready>
    requires stands { Stands P.observed engine.now }
    requires served { IsServed engine.now }
    requires latest { engine.now.run.latest ≤ now }
    ensures some { IfSome result (λ ready. IsReadyFor engine.now now ready.instance ready.job) }
    ensures first { IfSome result (λ ready. GoesFirst engine.now now ready.instance) }
    ensures none { IfNone result (NoneReady engine.now now) }
{
    if let Some(ready) = first_of(engine, Class::Sink, now) {
        return Some(ready);
    }
    if let Some(ready) = first_of(engine, Class::Transform, now) {
        return Some(ready);
    }
    ready_any(engine, now)
}

/// The first instance of a class that has work, among those in whose buffer or among whose held parcels something may stand.
pub(crate) fn filled_of<P: Port>(engine: &EngineState<P>, class: Class, now: u64) -> Option<Ready>
    requires stands { Stands P.observed engine.now }
    requires served { IsServed engine.now }
    ensures some { IfSome result (λ ready. IsReadyFor engine.now now ready.instance ready.job) }
    ensures class { IfSome result (λ ready. class_test class engine.now.log ready.instance ≡ true) }
    ensures none { IfNone result
        (NoneFilled (class_test class) engine.now now (length engine.now.states)) }
{
    let mut from = 0;
    while let Some(i) = engine.places.next_filled(from) {
        if let Some(ready) = ready_of(engine, i as u32, class, now) {
            return Some(ready);
        }
        from = i + 1;
    }
    None
}

/// Whether each source takes no more.
fn are_dry<P: Port>(engine: &EngineState<P>, sources: &[u32]) -> bool
    requires stands { Stands P.observed engine.now }
    requires sources { AreSources engine.now.run.plan.components
        (length engine.now.states) sources.now }
    ensures { result ≡ false → all_dry engine.now.log ≡ false }
{
    for k in 0..sources.len() {
        if !is_dry(engine, sources[k]) {
            return false;
        }
    }
    true
}

/// The first source that has work.
fn ready_source<P: Port>(engine: &EngineState<P>, sources: &[u32], now: u64) -> Option<Ready>
    requires stands { Stands P.observed engine.now }
    requires served { IsServed engine.now }
    requires sources { AreSources engine.now.run.plan.components
        (length engine.now.states) sources.now }
    ensures some { IfSome result (λ ready. IsReadyFor engine.now now ready.instance ready.job) }
    ensures none { IfNone result
        ((k : ℕ) → IfSome (slice_get sources.now k) (NoneFoundAt engine.now now)) }
{
    for k in 0..sources.len() {
        let source = sources[k];
        if let Some(ready) = job_of(engine, source, now) {
            return Some(ready);
        }
    }
    None
}

/// The first instance of a class that has work.
fn first_of<P: Port>(engine: &EngineState<P>, class: Class, now: u64) -> Option<Ready>
    requires stands { Stands P.observed engine.now }
    requires served { IsServed engine.now }
    ensures some { IfSome result (λ ready. IsReadyFor engine.now now ready.instance ready.job) }
    ensures class { IfSome result (λ ready. class_test class engine.now.log ready.instance ≡ true) }
    ensures none { IfNone result
        (NoneFound (class_test class) engine.now now (length engine.now.states)) }
{
    for i in 0..engine.states.len() as u32 {
        if let Some(ready) = ready_of(engine, i, class, now) {
            return Some(ready);
        }
    }
    None
}

/// An instance, where it is of a class and has work.
fn ready_of<P: Port>(engine: &EngineState<P>, i: u32, class: Class, now: u64) -> Option<Ready>
    requires stands { Stands P.observed engine.now }
    requires within { i < length engine.now.states }
    requires served { IsServed engine.now }
    ensures some { IfSome result (λ ready. IsReadyFor engine.now now ready.instance ready.job) }
    ensures class { IfSome result (λ ready. class_test class engine.now.log ready.instance ≡ true) }
    ensures none { IfNone result
        (class_test class engine.now.log i ≡ true → NoneFoundAt engine.now now i) }
{
    if is_of(engine, i, class) {
        job_of(engine, i, now)
    } else {
        None
    }
}

/// Whether an instance is of a class.
fn is_of<P: Port>(engine: &EngineState<P>, i: u32, class: Class) -> bool
    requires stands { Stands P.observed engine.now }
    requires within { i < length engine.now.states }
    ensures { result ≡ class_test class engine.now.log i }
{
    match class {
        Class::Source => is_source(engine, i),
        Class::Transform => is_transform(engine, i),
        Class::Sink => is_sink(engine, i),
    }
}

/// An instance, where it has work.
fn job_of<P: Port>(engine: &EngineState<P>, i: u32, now: u64) -> Option<Ready>
    requires stands { Stands P.observed engine.now }
    requires within { i < length engine.now.states }
    requires served { IsServed engine.now }
    ensures some { IfSome result (λ ready. IsReadyFor engine.now now ready.instance ready.job) }
    ensures instance { IfSome result (λ ready. ready.instance ≡ i) }
    ensures none { IfNone result (NoneFoundAt engine.now now i) }
{
    match first_job(engine, i, now) {
        Some(job) => Some(Ready { instance: i, job }),
        None => None,
    }
}

/// The first instance that has work.
fn ready_any<P: Port>(engine: &EngineState<P>, now: u64) -> Option<Ready>
    requires stands { Stands P.observed engine.now }
    requires served { IsServed engine.now }
    requires latest { engine.now.run.latest ≤ now }
    ensures some { IfSome result (λ ready. IsReadyFor engine.now now ready.instance ready.job) }
    ensures none { IfNone result (NoneReady engine.now now) }
{
    for i in 0..engine.states.len() as u32 {
        if let Some(ready) = job_of(engine, i, now) {
            return Some(ready);
        }
    }
    None
}
