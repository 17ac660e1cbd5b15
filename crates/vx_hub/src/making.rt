ghost use Rattle.std.specs.Prelude.{◌≡◌, ◌<◌, ◌+◌, ◌^◌, [], length, true, false, slice_set, IfOk, IfErr, OnOk, OnErr};
ghost use Rattle.vx_tasks.specs.declared.task.Role.{Role};
ghost use Rattle.vx_plan.specs.Accepted.{IsPlan};
ghost use Rattle.vx_tasks.specs.Joining.{is_joining};
ghost use Rattle.vx_record.specs.Wirings.{begun};
ghost use Rattle.vx_places.specs.Holding.{Holds};
ghost use Rattle.vx_hub.specs.Beginning.{AddsPlace, IsAllocatedFor, HaveCapacities, AreRoledFrom, AreTaskedFrom};
ghost use Rattle.vx_plan.specs.Ports.{port_of};
ghost use Rattle.vx_hub.specs.Making.{all_served, AreUntouched, ArePickers, AreSlots};
ghost use Rattle.vx_hub.specs.Standing.{AreThose, IsHub, merges as merges_by};
ghost use Rattle.vx_hub.specs.Kinds.{kind_test};

use crate::beginning::{held_limit, make_roles, make_states, stage_capacities};
use crate::hub::Hub;
use crate::parts::{Named, NewRefused, Numbered, Parts};
use std::alloc::Global;
use vx_balance::Balance;
use vx_ends::Port;
use vx_history::History;
use vx_instances::{InstanceState, InstanceStates};
use vx_moves::{EngineState, Run};
use vx_pick::Picker;
use vx_places::Places;
use vx_plan::{Class, Component, Plan, Settings};
use vx_tasks::{Role, Task};
use vx_value::WantOfMemory;

/// What a hub needs memory for.
pub struct Allocated<P> {
    pub states: Vec<InstanceState<P>>,
    pub roles: Vec<Role>,
    pub balance: Balance,
    pub ports: Vec<Numbered<P>>,
    pub places: Places,
    pub sources: Vec<u32>,
    pub mergers: Vec<u32>,
}

impl<P: Port> Hub<P> {
    /// A hub with one instance for each component of a plan, whose record has their install. Each component works with a port, judges
    /// event by event, merges as a reduce or a transform that is handed in does, makes its lines itself, or takes what comes and writes
    /// nothing.
    ///
    /// It is refused for want of memory alone, and then gives back what it was to be made of.
    pub fn new(alloc: Global, parts: Parts<P>, now: u64) -> Result<Self, NewRefused<P>>
        requires ports { length parts.ports ≡ length parts.plan.components }
        requires few { length parts.plan.components < 2 ^ 32 }
        requires untouched { AreUntouched P.observed
            (port_of parts.once parts.plan.global.data_dir) parts.plan.components parts.ports }
        requires accepted { IsPlan parts.plan }
        requires served { all_served parts.plan.components ≡ true }
        requires pickers { ArePickers parts.plan.components parts.pickers }
        requires keepers { AreSlots parts.plan.components parts.keepers }
        ensures hub { IfOk result (IsHub P.observed) }
        ensures first { IfOk result (λ hub. hub.engine.log ≡ begun parts.plan parts.once now) }
        ensures sound { IfOk result (λ hub. hub.fatal ≡ false) }
        ensures fed { IfOk result (λ hub. hub.engine.run.out_of_memory ≡ false) }
        ensures latest { IfOk result (λ hub. hub.engine.run.latest ≡ now) }
        ensures refused { IfErr result (λ refused. refused.parts ≡ parts) }
    {
        match allocate(alloc, &parts.plan) {
            Ok(room) => Ok(begin(alloc, parts, room, now)),
            Err(WantOfMemory) => Err(NewRefused { parts }),
        }
    }
}

/// What a hub needs memory for, for the instances of a plan.
fn allocate<P: Port>(alloc: Global, plan: &Plan) -> Result<Allocated<P>, WantOfMemory>
    requires served { all_served plan.now.components ≡ true }
    requires few { length plan.now.components < 2 ^ 32 }
    ensures { IfOk result (IsAllocatedFor plan.now) }
{
    let states = make_states(alloc, plan)?;
    let roles = make_roles(alloc, plan)?;
    let balance = Balance::new(alloc)?;
    let ports = Vec::with_capacity(alloc, plan.components.len())?;
    let sources = numbers_of(alloc, plan, Kind::Source)?;
    let mergers = numbers_of(alloc, plan, Kind::Merger)?;
    let places = make_places(alloc, plan)?;
    Ok(Allocated {
        states,
        roles,
        balance,
        ports,
        places,
        sources,
        mergers,
    })
}

/// Of which instances the numbers are kept.
#[derive(Clone, Copy)]
pub(crate) enum Kind {
    Source,
    Merger,
}

/// The instances of a plan that are of a kind, in order.
fn numbers_of(alloc: Global, plan: &Plan, kind: Kind) -> Result<Vec<u32>, WantOfMemory>
    requires { length plan.now.components < 2 ^ 32 }
    ensures { IfOk result
        (λ those. AreThose (kind_test kind) plan.now.components (length plan.now.components)
        those.items) }
{
    let mut those = Vec::new(alloc);
    let components = plan.components.as_slice();
    for i in 0..components.len() {
        if is_of(&components[i], kind) {
            match those.push(i as u32) {
                Ok(()) => {}
                Err(_) => return Err(WantOfMemory),
            }
        }
    }
    Ok(those)
}

/// Whether a component is of a kind.
fn is_of(component: &Component, kind: Kind) -> bool
    ensures { result ≡ kind_test kind component.now }
{
    match kind {
        Kind::Source => matches!(component.class, Class::Source),
        Kind::Merger => merges(component),
    }
}

/// Whether a component is a transform that merges: a reduce, or one that the program hands in.
pub fn merges(component: &Component) -> bool
    ensures { result ≡ merges_by component.now }
{
    matches!(component.class, Class::Transform) && joins(&component.settings)
}

/// Whether a transform of these settings merges.
fn joins(settings: &Settings) -> bool
    ensures { result ≡ is_joining settings.now }
{
    matches!(settings, Settings::Reduce { .. } | Settings::Host)
}

/// The places of the instances of a plan, at which nothing stands.
fn make_places(alloc: Global, plan: &Plan) -> Result<Places, WantOfMemory>
    ensures holds { IfOk result (λ places. Holds places []) }
    ensures capacities { IfOk result (HaveCapacities plan.now.components) }
    ensures size { IfOk result (λ places. length places ≡ length plan.now.components) }
{
    let mut places = Places::new(alloc);
    for component in plan.components.as_slice() {
        match add_place(alloc, &mut places, component) {
            Ok(()) => {}
            Err(WantOfMemory) => {
                places.end();
                return Err(WantOfMemory);
            }
        }
    }
    Ok(places)
}

/// Adds the places of the instance of a component. For want of memory nothing has changed.
fn add_place(alloc: Global, places: &mut Places, component: &Component) -> Result<(), WantOfMemory>
    ensures holds { OnOk result (Holds places.old [] → Holds places.new []) }
    ensures size { OnOk result (length places.new ≡ length places.old + 1) }
    ensures adds { OnOk result (AddsPlace component.now places.old places.new) }
    ensures unchanged { OnErr result (places.new ≡ places.old) }
{
    let capacities = stage_capacities(alloc, component)?;
    if merges(component) {
        return places.add_keeper(alloc, capacities.as_slice());
    }
    places.add(alloc, capacities.as_slice(), held_limit(component) as usize)
}

/// The hub of some parts, whose record has their install. It takes no memory.
fn begin<P: Port>(alloc: Global, parts: Parts<P>, room: Allocated<P>, now: u64) -> Hub<P>
    requires ports { length parts.ports ≡ length parts.plan.components }
    requires few { length parts.plan.components < 2 ^ 32 }
    requires untouched { AreUntouched P.observed
        (port_of parts.once parts.plan.global.data_dir) parts.plan.components parts.ports }
    requires accepted { IsPlan parts.plan }
    requires served { all_served parts.plan.components ≡ true }
    requires pickers { ArePickers parts.plan.components parts.pickers }
    requires keepers { AreSlots parts.plan.components parts.keepers }
    requires room { IsAllocatedFor parts.plan room }
    ensures hub { IsHub P.observed result }
    ensures first { result.engine.log ≡ begun parts.plan parts.once now }
    ensures sound { result.fatal ≡ false }
    ensures fed { result.engine.run.out_of_memory ≡ false }
    ensures latest { result.engine.run.latest ≡ now }
{
    let Parts {
        plan,
        once,
        ports,
        pickers,
        keepers,
    } = parts;
    let Allocated {
        states,
        roles,
        balance,
        ports: port_slots,
        places,
        sources,
        mergers,
    } = room;
    let states = InstanceStates::new(give_tasks(
        states,
        role_all(roles, pickers.into_vec()),
        ports.into_vec(),
    ));
    let mut log = History::new();
    log.note(&(&plan, once, now));
    let run = Run {
        plan,
        abandoned: None,
        latest: now,
        out_of_memory: false,
    };
    Hub {
        alloc,
        engine: EngineState {
            places,
            keepers: keepers.into_vec(),
            states,
            balance,
            run,
            log,
        },
        fatal: false,
        ports: port_slots,
        sources,
        mergers,
    }
}

/// The roles, where each transform has what it picks by. It takes no memory.
fn role_all(roles: Vec<Role>, pickers: Vec<Option<Picker>>) -> Vec<Role>
    requires pickers { length pickers.items ≡ length roles.items }
    ensures size { length result.items ≡ length roles.items }
    ensures roles { AreRoledFrom 0 roles.items pickers.items result.items }
{
    let (mut roles, mut pickers) = (roles, pickers);
    while let Some(picker) = pickers.pop() {
        let i = pickers.len();
        if let Some(picker) = picker {
            pick_by(&mut roles, i, picker);
        }
    }
    roles
}

/// Gives a transform what it picks by.
fn pick_by(roles: &mut Vec<Role>, i: usize, picker: Picker)
    requires { i < length roles.old.items }
    ensures { roles.new.items ≡ slice_set roles.old.items i (Role.Transform picker) }
{
    roles[i] = Role::Transform(picker);
}

/// Gives each state the role and the port in its place, the last first. It takes no memory.
fn give_tasks<P: Port>(
    states: Vec<InstanceState<P>>,
    roles: Vec<Role>,
    ports: Vec<Named<P>>,
) -> Vec<InstanceState<P>>
    requires roles { length roles.items ≡ length states.items }
    requires ports { length ports.items ≡ length states.items }
    ensures size { length result.items ≡ length states.items }
    ensures tasked { AreTaskedFrom 0 states.items roles.items ports.items result.items }
{
    let (mut states, mut roles, mut ports) = (states, roles, ports);
    while let Some(named) = ports.pop() {
        let Some(role) = roles.pop() else {
            unreachable!();
        };
        let i = ports.len();
        let port = unnamed(named);
        give_task(&mut states[i], Task { port, role });
    }
    states
}

/// A port without the name of its component.
fn unnamed<P: Port>(named: Named<P>) -> P
    ensures { result ≡ named.port }
{
    named.port
}

/// Gives a state its task.
fn give_task<P: Port>(state: &mut InstanceState<P>, task: Task<P>)
    ensures { state.new ≡ record state.old { task = Some task } }
{
    state.task = Some(task);
}
