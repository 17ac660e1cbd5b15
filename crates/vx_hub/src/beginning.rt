// What each instance begins with, but for its port.
ghost use Rattle.std.specs.Prelude.{◌≡◌, ◌∷◌, [], ◌<◌, ◌≤◌, ◌*◌, ◌^◌, ◌==◌, if◌then◌else◌, true, length, map, All, IfOk, IsSome};
ghost use Rattle.vx_plan.specs.Numbers.{reader_numbers};
ghost use Rattle.vx_record.specs.Copies.{counting};
ghost use Rattle.vx_plan.specs.Components.{port_names, sink_stages, batch_max_events, batch_timeout};
ghost use Rattle.vx_plan.specs.Options.{file_read, decoding, reading_interval, type_name};
ghost use Rattle.vx_instances.specs.Beginning.{AreNew};
ghost use Rattle.vx_instances.specs.Knowing.{batching_of, schedule_of};
ghost use Rattle.vx_hub.specs.Making.{is_served, all_served};
ghost use Rattle.vx_moves.specs.Capacities.{held_limit_of};
ghost use Rattle.vx_hub.specs.Beginning.{IsBegun, IsSourceFor, IsRoleBut, IsWorkerFor, is_working, AreFor, capacities_of, capacities_in};

use crate::making::merges;
use std::alloc::Global;
use vx_counts::Counts;
use vx_demo::DemoSettings;
use vx_ends::Port;
use vx_instances::{Batching, Facts, InstanceState, Progress};
use vx_json::Decoding;
use vx_ledger::Outlet;
use vx_plan::{Class, Component, Plan, Settings, StageList};
use vx_sinkcore::Schedule;
use vx_sourcecore::{Generator, Prefix, SourceCore};
use vx_tasks::{Role, Writer};
use vx_value::{NumberList, Text, WantOfMemory};

/// The greatest number that an instance may have.
const MOST_INSTANCES: u64 = 0xffff_ffff;

/// For how many parcels the buffer of a transform has room.
const TRANSFORM_CAPACITY: usize = 100;

/// The states of the components of a plan, without tasks.
pub(crate) fn make_states<P: Port>(
    alloc: Global,
    plan: &Plan,
) -> Result<Vec<InstanceState<P>>, WantOfMemory>
    ensures begun { IfOk result
        (λ states. AreFor (IsBegun plan.now) plan.now.components states.items) }
    ensures size { IfOk result (λ states. length states.items ≡ length plan.now.components) }
{
    let mut states = Vec::with_capacity(alloc, plan.components.len())?;
    for component in plan.components.as_slice() {
        let state = make_state(alloc, plan, component)?;
        states.push_reserved(state);
    }
    Ok(states)
}

/// The state of a component, without a task.
fn make_state<P: Port>(
    alloc: Global,
    plan: &Plan,
    component: &Component,
) -> Result<InstanceState<P>, WantOfMemory>
    ensures { IfOk result (λ state. IsBegun plan.now state component.now) }
{
    let name = component.name.copy(alloc)?;
    let outlet = make_outlet(alloc, plan, component)?;
    let waits = plan.acknowledged(component.name.as_str());
    Ok(InstanceState {
        name,
        class: component.class,
        device: component.settings.has_device(),
        outlet,
        batching: batching(component),
        interval: interval(&component.settings),
        facts: first_facts(),
        progress: Progress {
            unnoticed: 0,
            prefix: Prefix::new(alloc, waits),
        },
        counts: Counts::none(),
        task: None,
    })
}

/// What is known of an instance to which nothing happened yet.
fn first_facts() -> Facts
    ensures { AreNew result }
{
    Facts {
        over: false,
        lost: None,
        failed_starts: 0,
        confirm_failed: false,
        closed: false,
        retired: false,
        leased_at: 0,
        reads_from: 0,
        since: 0,
        failures: 0,
        failed_at: 0,
        owing: false,
        behind: false,
        starved: false,
    }
}

/// The outlet of a component: for each of its ports, in order, the instances that read it.
fn make_outlet(alloc: Global, plan: &Plan, component: &Component) -> Result<Outlet, WantOfMemory>
    ensures { IfOk result
        (λ outlet. outlet
        ≡ map (reader_numbers plan.now component.now.name)
        (counting 0 (length (port_names component.now)))) }
{
    let Ok(ports) = u32::try_from(component.ports()) else {
        return Err(WantOfMemory);
    };
    let mut outlet = Outlet::new(alloc, ports)?;
    for port in 0..ports {
        let readers = readers(alloc, plan, &component.name, port)?;
        outlet.rewire(port, readers);
    }
    Ok(outlet)
}

/// The numbers of the instances that read a port of a component, which are the places of their components in the plan.
fn readers(alloc: Global, plan: &Plan, name: &Text, port: u32) -> Result<NumberList, WantOfMemory>
    ensures readers { IfOk result (λ readers. readers ≡ reader_numbers plan.now name.now port) }
    ensures few { IfOk result (λ readers. All (λ t. t < 2 ^ 32) readers) }
{
    let readers = plan.readers(alloc, name.as_str(), port)?;
    if readers
        .as_slice()
        .iter()
        .any(|reader| *reader > MOST_INSTANCES)
    {
        return Err(WantOfMemory);
    }
    Ok(readers)
}

/// How a component collects, if it is a sink.
fn batching(component: &Component) -> Option<Batching>
    ensures { result ≡ batching_of component.now }
{
    match component.class {
        Class::Source | Class::Transform => None,
        Class::Sink => Some(Batching {
            max_events: most_events(&component.settings),
            timeout: timeout(&component.settings),
            retries: schedule(&component.settings),
        }),
    }
}

/// How many parcels a transform holds at the most: those that one lease takes.
const TRANSFORM_HELD_LIMIT: u32 = 64;

/// How many parcels a component holds at the most: a sink those of a batch, and a transform those that one lease takes.
pub(crate) fn held_limit(component: &Component) -> u32
    ensures { result ≡ held_limit_of component.now }
{
    match component.class {
        Class::Source => 0,
        Class::Transform => TRANSFORM_HELD_LIMIT,
        Class::Sink => most_events(&component.settings),
    }
}

/// How many parcels a batch may have; 0 where no sink makes one.
fn most_events(settings: &Settings) -> u32
    ensures { result ≡ batch_max_events settings.now }
{
    match settings.sink() {
        Some(sink) => sink.batch_max_events,
        None => 0,
    }
}

/// How long a batch waits for more parcels, in milliseconds; 0 where no sink makes one.
fn timeout(settings: &Settings) -> u64
    ensures { result ≡ batch_timeout settings.now }
{
    match settings.sink() {
        Some(sink) => to_millis(sink.batch_timeout_secs),
        None => 0,
    }
}

/// How often a sink makes a failed attempt again, and how long it waits before; never where there is no sink.
fn schedule(settings: &Settings) -> Schedule
    ensures { result ≡ schedule_of settings.now }
{
    match settings.sink() {
        Some(sink) => Schedule::new(
            sink.request_retry_initial_backoff_secs,
            sink.request_retry_max_duration_secs,
            sink.request_retry_attempts,
        ),
        None => Schedule::new(0, 0, 0),
    }
}

/// How long a source rests behind a read, in milliseconds.
fn interval(settings: &Settings) -> u64
    ensures { result ≡ reading_interval settings.now }
{
    match settings {
        Settings::DemoLogs { interval, .. } => to_millis(*interval),
        _ => 0,
    }
}

/// The milliseconds of some seconds.
fn to_millis(seconds: u32) -> u64
    ensures { result ≡ seconds * 1000 }
{
    u64::from(seconds) * 1000
}

/// What the components of a plan do, but for what transforms pick by.
pub(crate) fn make_roles(alloc: Global, plan: &Plan) -> Result<Vec<Role>, WantOfMemory>
    requires { all_served plan.now.components ≡ true }
    ensures begun { IfOk result (λ roles. AreFor IsRoleBut plan.now.components roles.items) }
    ensures size { IfOk result (λ roles. length roles.items ≡ length plan.now.components) }
{
    let mut roles = Vec::with_capacity(alloc, plan.components.len())?;
    for component in plan.components.as_slice() {
        let role = make_role(alloc, component)?;
        roles.push_reserved(role);
    }
    Ok(roles)
}

/// What a component does, but for what a transform picks by.
fn make_role(alloc: Global, component: &Component) -> Result<Role, WantOfMemory>
    requires { is_served component.now ≡ true }
    ensures { IfOk result (λ role. IsRoleBut role component.now) }
{
    if merges(component) {
        return Ok(Role::Merge);
    }
    match component.class {
        Class::Transform => Ok(Role::Unfit),
        Class::Source | Class::Sink => make_worker(alloc, &component.settings),
    }
}

/// What a component with these settings does, unless it is a transform.
fn make_worker(alloc: Global, settings: &Settings) -> Result<Role, WantOfMemory>
    requires { is_working settings.now ≡ true }
    ensures { IfOk result (IsWorkerFor settings.now) }
{
    match settings {
        Settings::Stdin { .. } | Settings::FileIn { .. } => {
            Ok(Role::Source(make_source(alloc, settings)?))
        }
        Settings::DemoLogs { demo, interval } => {
            let core = make_source(alloc, settings)?;
            let texts = copy_demo(alloc, demo)?;
            Ok(Role::Generator(Generator::new(core, texts, lines_at_once(*interval))))
        }
        Settings::Console { encoding_codec, .. } | Settings::FileOut { encoding_codec, .. } => {
            Ok(Role::Sink(Writer::new(alloc, *encoding_codec)))
        }
        Settings::Blackhole { .. } => Ok(Role::Blackhole),
        Settings::Filter { .. }
        | Settings::Route { .. }
        | Settings::Sample { .. }
        | Settings::Dedupe { .. }
        | Settings::Reduce { .. }
        | Settings::Host => unreachable!(),
    }
}

/// What cuts the lines that a component reads or makes.
fn make_source(alloc: Global, settings: &Settings) -> Result<SourceCore, WantOfMemory>
    requires { IsSome (decoding settings.now) }
    ensures { IfOk result (IsSourceFor settings.now) }
{
    let limit = settings.line_limit().unwrap_or(0);
    let decoding = settings.decoding().unwrap_or(Decoding::Bytes);
    let name = Text::copy_of(alloc, source_type(settings))?;
    let file = file_of(alloc, settings)?;
    SourceCore::new(alloc, limit, decoding, name, file)
}

/// The path of the file that a component reads, once more, if it reads one.
fn file_of(alloc: Global, settings: &Settings) -> Result<Option<Text>, WantOfMemory>
    ensures { IfOk result (λ file. file ≡ file_read settings.now) }
{
    match settings.file() {
        Some(path) => Ok(Some(path.copy(alloc)?)),
        None => Ok(None),
    }
}

/// The name of a source's type.
fn source_type(settings: &Settings) -> &str
    requires { IsSome (decoding settings.now) }
    ensures { result.now ≡ type_name settings.now }
{
    match settings {
        Settings::Stdin { .. } => "stdin",
        Settings::FileIn { .. } => "file",
        Settings::DemoLogs { .. } => "demo_logs",
        _ => unreachable!(),
    }
}

/// What generated lines are made of, once more.
fn copy_demo(alloc: Global, demo: &DemoSettings) -> Result<DemoSettings, WantOfMemory>
    ensures { IfOk result (λ copy. copy ≡ demo.now) }
{
    Ok(DemoSettings {
        lines: demo.lines.copy(alloc)?,
        sequence: demo.sequence,
        count: demo.count,
        seed: demo.seed,
    })
}

/// How many lines a source makes at once where no time lies between two.
const LINES_AT_ONCE: u32 = 64;

/// How many lines a source makes at once, by the seconds that lie between two.
fn lines_at_once(interval: u32) -> u32
    ensures at_once { result ≡ (if interval * 1000 == 0 then 64 else 1) }
    ensures some { 0 < result }
    ensures few { result ≤ 64 }
{
    if interval == 0 { LINES_AT_ONCE } else { 1 }
}

/// For how many parcels each stage of a component's buffer has room.
pub(crate) fn stage_capacities(
    alloc: Global,
    component: &Component,
) -> Result<Vec<usize>, WantOfMemory>
    ensures { IfOk result (λ capacities. capacities.items ≡ capacities_of component.now) }
{
    match component.class {
        Class::Source => Ok(Vec::new(alloc)),
        Class::Transform => one_capacity(alloc),
        Class::Sink => sink_capacities(alloc, &component.settings),
    }
}

/// For how many parcels the stage of a transform's buffer has room.
fn one_capacity(alloc: Global) -> Result<Vec<usize>, WantOfMemory>
    ensures { IfOk result (λ capacities. capacities.items ≡ 100 ∷ []) }
{
    let mut capacities = Vec::new(alloc);
    capacities.push(TRANSFORM_CAPACITY)?;
    Ok(capacities)
}

/// For how many parcels each stage of a sink's buffer has room.
fn sink_capacities(alloc: Global, settings: &Settings) -> Result<Vec<usize>, WantOfMemory>
    ensures { IfOk result (λ capacities. capacities.items ≡ capacities_in (sink_stages settings.now)) }
{
    match settings.sink() {
        Some(sink) => each_capacity(alloc, &sink.buffer),
        None => Ok(Vec::new(alloc)),
    }
}

/// For how many parcels each of some stages has room.
fn each_capacity(alloc: Global, stages: &StageList) -> Result<Vec<usize>, WantOfMemory>
    ensures { IfOk result (λ capacities. capacities.items ≡ capacities_in stages.now) }
{
    let mut capacities = Vec::with_capacity(alloc, stages.len())?;
    for stage in stages.as_slice() {
        capacities.push_reserved(stage.max_events as usize);
    }
    Ok(capacities)
}
