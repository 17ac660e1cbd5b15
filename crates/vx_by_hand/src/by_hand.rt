//! The engine driven by hand: three tasks are out at once, and come back in each order, with parcels moved between; and runs that are
//! given up in the midst.
ghost use Rattle.std.specs.Prelude.{◌≡◌, ◌<◌, ◌^◌, length, true, None, IfOk};
ghost use Rattle.vx_ends.specs.Silent.{observed_if};
ghost use Rattle.vx_record.specs.Additions.{OnlyAdds};
ghost use Rattle.vx_record.specs.Ceasing.{cause_of};
ghost use Rattle.vx_record.specs.Makers.{IsBy, IsFor};
ghost use Rattle.vx_record.specs.Installs.{started};
ghost use Rattle.vx_hub.specs.Ending.{IsOver};
ghost use Rattle.vx_hub.specs.Standing.{IsHub};
ghost use Rattle.vx_by_hand.specs.ByHand.{IsAway, IsBack, AreBack, SparesEach, SparesOthers};

use std::alloc::Global;
use std::process::Abort;
use std::test::Fail;
use vx_ends::{Clock, ConfigList, MemoryClock, MemoryPort, MemoryWorld, Port, ScriptedList, World};
use vx_fixtures::{Play, TWO_SINKS, add, config, script, steps};
use vx_hub::{Hub, NewRefused, Numbered, NumberedList, Remains};
use vx_keeping::HostList;
use vx_plan::Class;
use vx_record::{AbandonCause, Tally};
use vx_run::prepare;
use vx_tasks::{Landing, Work};
use vx_value::{Text, VariableList, WantOfMemory};

/// In which order three tasks come back: the letters stand for those that were leased first, second and third.
#[derive(Clone, Copy, Debug)]
enum Order {
    Abc,
    Acb,
    Bac,
    Bca,
    Cab,
    Cba,
}

/// Hands out a task to a worker, that of the wanted instance.
fn leased<R: Abort, P: Port>(rt: &R, hub: &mut Hub<P>, worker: u32, wanted: u32) -> Work<P>
    requires { IsHub P.observed hub.old }
    ensures hub { IsHub P.observed hub.new }
    ensures away { IsAway P.observed hub.new.engine.log result }
    ensures worker { result.worker ≡ worker }
    ensures only { OnlyAdds (IsBy worker) hub.old.engine.log hub.new.engine.log }
{
    let work = hub.lease(worker, 0).expect(rt, "a task");
    assert_eq!(rt; work.instance, wanted);
    work
}

/// Does the work of a task that is out. The hub isn't asked: it is there for what is known of its record.
fn done<P: Port, C: Clock>(alloc: Global, _hub: &Hub<P>, work: Work<P>, clock: &C) -> Landing<P>
    requires hub { IsHub P.observed _hub.now }
    requires away { IsAway P.observed _hub.now.engine.log work }
    ensures back { IsBack P.observed _hub.now.engine.log result }
    ensures instance { result.instance ≡ work.instance }
    ensures worker { result.worker ≡ work.worker }
{
    work.work(alloc, clock)
}

/// Brings a task back.
fn land<R: Abort, P: Port>(rt: &R, hub: &mut Hub<P>, landing: Landing<P>)
    requires hub { IsHub P.observed hub.old }
    requires back { IsBack P.observed hub.old.engine.log landing }
    ensures hub { IsHub P.observed hub.new }
    ensures only { OnlyAdds (IsFor landing.instance) hub.old.engine.log hub.new.engine.log }
{
    hub.land(landing).expect(rt, "a landing");
}

/// Moves the parcels of an instance on, if it is unleased.
fn push<R: Abort, P: Port>(rt: &R, hub: &mut Hub<P>, instance: u32)
    requires hub { IsHub P.observed hub.old }
    requires within { instance < length (started hub.old.engine.log) }
    ensures hub { IsHub P.observed hub.new }
    ensures size { length (started hub.new.engine.log) ≡ length (started hub.old.engine.log) }
    ensures spares { SparesEach hub.old.engine.log hub.new.engine.log }
{
    hub.push_pending(instance).expect(rt, "a push");
}

/// Moves the parcels of every instance on that is unleased.
fn push_all<R: Abort, P: Port>(rt: &R, hub: &mut Hub<P>)
    requires { IsHub P.observed hub.old }
    ensures hub { IsHub P.observed hub.new }
    ensures spares { SparesEach hub.old.engine.log hub.new.engine.log }
{
    for instance in 0..hub.instances() {
        push(rt, hub, instance);
    }
}

/// Brings a task back, and moves on what can move.
fn land_and_push<R: Abort, P: Port>(rt: &R, hub: &mut Hub<P>, landing: Landing<P>)
    requires hub { IsHub P.observed hub.old }
    requires back { IsBack P.observed hub.old.engine.log landing }
    ensures hub { IsHub P.observed hub.new }
    ensures spares { SparesOthers landing.instance hub.old.engine.log hub.new.engine.log }
{
    land(rt, hub, landing);
    push_all(rt, hub);
}

/// Brings three tasks back, one by one, and moves on what can move behind each.
fn land_three<R: Abort, P: Port>(
    rt: &R,
    hub: &mut Hub<P>,
    a: Landing<P>,
    b: Landing<P>,
    c: Landing<P>,
)
    requires hub { IsHub P.observed hub.old }
    requires back { AreBack P.observed hub.old.engine.log a b c }
    ensures { IsHub P.observed hub.new }
{
    land_and_push(rt, hub, a);
    land_and_push(rt, hub, b);
    land_and_push(rt, hub, c);
}

/// The same, in an order.
fn land_in<R: Abort, P: Port>(
    rt: &R,
    hub: &mut Hub<P>,
    order: Order,
    a: Landing<P>,
    b: Landing<P>,
    c: Landing<P>,
)
    requires hub { IsHub P.observed hub.old }
    requires back { AreBack P.observed hub.old.engine.log a b c }
    ensures { IsHub P.observed hub.new }
{
    match order {
        Order::Abc => land_three(rt, hub, a, b, c),
        Order::Acb => land_three(rt, hub, a, c, b),
        Order::Bac => land_three(rt, hub, b, a, c),
        Order::Bca => land_three(rt, hub, b, c, a),
        Order::Cab => land_three(rt, hub, c, a, b),
        Order::Cba => land_three(rt, hub, c, b, a),
    }
}

/// Leases the two sinks and the source to three workers, does the work of each, the last one first, and brings them back in an
/// order.
fn three_out<R: Abort, P: Port, C: Clock>(
    rt: &R,
    alloc: Global,
    hub: &mut Hub<P>,
    clock: &C,
    order: Order,
)
    requires { IsHub P.observed hub.old }
    ensures { IsHub P.observed hub.new }
{
    let a = leased(rt, hub, 0, 1);
    let b = leased(rt, hub, 1, 2);
    let c = leased(rt, hub, 2, 0);
    let c = done(alloc, hub, c, clock);
    let b = done(alloc, hub, b, clock);
    let a = done(alloc, hub, a, clock);
    land_in(rt, hub, order, a, b, c);
}

/// Gives the run up, as one does that finds no memory.
fn give_up<P: Port>(hub: &mut Hub<P>)
    requires hub { IsHub P.observed hub.old }
    requires going { cause_of hub.old.engine.log ≡ None }
    ensures hub { IsHub P.observed hub.new }
    ensures spares { SparesEach hub.old.engine.log hub.new.engine.log }
{
    hub.abandon(AbandonCause::WantOfMemory);
}

/// Leases the two sinks to two workers, gives the run up, and only then does the work of each and brings it back.
fn two_given_up<R: Abort, P: Port, C: Clock>(rt: &R, alloc: Global, hub: &mut Hub<P>, clock: &C)
    requires { IsHub P.observed hub.old }
    ensures { IsHub P.observed hub.new }
{
    let a = leased(rt, hub, 0, 1);
    let b = leased(rt, hub, 1, 2);
    assert!(rt; hub.abandoned().is_none());
    give_up(hub);
    let b = done(alloc, hub, b, clock);
    let a = done(alloc, hub, a, clock);
    land(rt, hub, b);
    land(rt, hub, a);
}

/// Leases the wanted instance, does its work, and brings it back, with nothing else out.
fn one_out<R: Abort, P: Port, C: Clock>(
    rt: &R,
    alloc: Global,
    hub: &mut Hub<P>,
    clock: &C,
    wanted: u32,
)
    requires { IsHub P.observed hub.old }
    ensures { IsHub P.observed hub.new }
{
    let work = leased(rt, hub, 0, wanted);
    let landing = done(alloc, hub, work, clock);
    land_and_push(rt, hub, landing);
}

/// One turn with one worker: ends an instance, or moves parcels, or does an instance's work.
fn turn<R: Abort, P: Port, C: Clock>(rt: &R, alloc: Global, hub: &mut Hub<P>, clock: &C)
    requires { IsHub P.observed hub.old }
    ensures { IsHub P.observed hub.new }
{
    if let Some(_ended) = hub.retire() {
        return;
    }
    push_all(rt, hub);
    if let Some(work) = hub.lease(0, 0) {
        let landing = work.work(alloc, clock);
        hub.land(landing).expect(rt, "a landing");
    }
}

/// How many turns are enough for each run here.
const TURNS: u32 = 100;

/// Turns a hub until each instance ended.
fn drive<R: Abort, P: Port, C: Clock>(rt: &R, alloc: Global, hub: &mut Hub<P>, clock: &C)
    requires { IsHub P.observed hub.old }
    ensures hub { IsHub P.observed hub.new }
    ensures over { IsOver hub.new.engine.log }
{
    for _ in 0..TURNS {
        turn(rt, alloc, hub, clock);
    }
    assert!(rt; hub.over());
}

/// The counts of an instance that did nothing.
const NOTHING: Tally = Tally {
    read: 0,
    lines: 0,
    overlong: 0,
    undecodable: 0,
    events: 0,
    unread: 0,
    batches: 0,
    delivered: 0,
    errored: 0,
    rejected: 0,
    confirmed: 0,
    taken: 0,
    sent: 0,
    dropped: 0,
    newest: 0,
    attempts: 0,
    bytes: 0,
};

/// A source that read four lines of two bytes each in two pieces.
const FOUR_READ: Tally = Tally {
    read: 8,
    lines: 4,
    events: 4,
    batches: 2,
    delivered: 2,
    confirmed: 8,
    ..NOTHING
};

/// A sink that wrote them, one after the other.
const FOUR_WRITTEN: Tally = Tally {
    taken: 4,
    attempts: 4,
    delivered: 4,
    bytes: 8,
    ..NOTHING
};

/// Checks what an instance counted.
fn counted<R: Abort, P: Port>(rt: &R, hub: &Hub<P>, instance: u32, wanted: &Tally)
    requires { IsHub P.observed hub.now }
{
    assert!(rt; instance < hub.instances());
    assert!(rt; hub.tally(instance) == *wanted);
}

/// A run in which the source reads once, and then is out together with both sinks. Every batch is delivered. The ports at its end.
fn by_hand<R: Abort, P: Port, C: Clock>(
    rt: &R,
    alloc: Global,
    hub: Hub<P>,
    clock: &C,
    order: Order,
) -> NumberedList<P>
    requires { IsHub P.observed hub }
{
    let mut hub = hub;
    one_out(rt, alloc, &mut hub, clock, 0);
    three_out(rt, alloc, &mut hub, clock, order);
    drive(rt, alloc, &mut hub, clock);
    counted(rt, &hub, 0, &FOUR_READ);
    counted(rt, &hub, 1, &FOUR_WRITTEN);
    counted(rt, &hub, 2, &FOUR_WRITTEN);
    let Remains { ports, history: _ } = hub.end();
    ports
}

/// A run that is given up while both sinks are out, behind one read of the source. The ports at its end.
fn given_up<R: Abort, P: Port, C: Clock>(
    rt: &R,
    alloc: Global,
    hub: Hub<P>,
    clock: &C,
) -> NumberedList<P>
    requires { IsHub P.observed hub }
{
    let mut hub = hub;
    assert!(rt; 0 < hub.instances());
    assert!(rt; matches!(hub.class_of(0), Class::Source));
    one_out(rt, alloc, &mut hub, clock, 0);
    assert!(rt; hub.unspent());
    two_given_up(rt, alloc, &mut hub, clock);
    assert!(rt; !hub.unspent());
    drive(rt, alloc, &mut hub, clock);
    let Remains { ports, history: _ } = hub.end();
    ports
}

/// The hub of the configuration of a world, between its ports.
fn hub_of<W: World>(alloc: Global, world: &mut W) -> Result<Hub<Option<W::Port>>, WantOfMemory>
    ensures { IfOk result (IsHub (observed_if W.Port.observed)) }
{
    let file = Text::copy_of(alloc, "first.toml")?;
    let Ok(parts) = prepare(
        alloc,
        &file,
        false,
        &VariableList::new(alloc),
        world,
        &HostList::new(alloc),
    ) else {
        return Err(WantOfMemory);
    };
    match Hub::new(alloc, parts, 0) {
        Ok(hub) => Ok(hub),
        Err(NewRefused { parts }) => {
            let _ports = parts.into_ports();
            Err(WantOfMemory)
        }
    }
}

/// A world with a configuration, whose `in` gives these answers.
fn world(alloc: Global, text: &str, plays: &[Play]) -> Result<MemoryWorld, WantOfMemory> {
    let pieces = steps(alloc, plays)?;
    let mut scripts = ScriptedList::new(alloc);
    add(&mut scripts, script(alloc, "in", pieces, &[])?)?;
    let mut configs = ConfigList::new(alloc);
    add(&mut configs, config(alloc, "first.toml", text)?)?;
    Ok(MemoryWorld::new(alloc, configs, scripts))
}

/// Two lines, and two more.
const TWICE_TWO: &[Play] = &[Play::Piece(0, "a\nb\n"), Play::Piece(0, "c\nd\n")];

/// Checks what a sink's port was given.
fn was_given(
    rt: &impl Abort,
    ports: &NumberedList<Option<MemoryPort>>,
    instance: usize,
    wanted: &[u8],
) {
    match ports.get(instance) {
        Some(
            Numbered {
                port: Some(port),
                ..
            },
        ) => assert!(rt; port.given() == wanted),
        _ => assert!(rt; false),
    }
}

/// Drives a run in which three tasks come back in an order, and checks what its sinks were given.
fn lands_in_order<R: Abort>(rt: &R, alloc: Global, order: Order) -> Result<(), Fail> {
    let mut world = world(alloc, TWO_SINKS, TWICE_TWO)?;
    let hub = hub_of(alloc, &mut world)?;
    let ports = by_hand(rt, alloc, hub, &MemoryClock::new(), order);
    was_given(rt, &ports, 1, b"a\nb\nc\nd\n");
    was_given(rt, &ports, 2, b"a\nb\nc\nd\n");
    Ok(())
}

#[test]
fn sinks_before_the_source(rt: HostRuntime) -> Result<(), Fail> {
    lands_in_order(&rt, rt.alloc(), Order::Abc)?;
    lands_in_order(&rt, rt.alloc(), Order::Bac)
}

#[test]
fn the_source_between_the_sinks(rt: HostRuntime) -> Result<(), Fail> {
    lands_in_order(&rt, rt.alloc(), Order::Acb)?;
    lands_in_order(&rt, rt.alloc(), Order::Bca)
}

#[test]
fn the_source_before_the_sinks(rt: HostRuntime) -> Result<(), Fail> {
    lands_in_order(&rt, rt.alloc(), Order::Cab)?;
    lands_in_order(&rt, rt.alloc(), Order::Cba)
}

#[test]
fn two_sinks_out_when_the_run_is_given_up(rt: HostRuntime) -> Result<(), Fail> {
    let mut world = world(rt.alloc(), TWO_SINKS, TWICE_TWO)?;
    let hub = hub_of(rt.alloc(), &mut world)?;
    let ports = given_up(&rt, rt.alloc(), hub, &MemoryClock::new());
    was_given(&rt, &ports, 1, b"a\n");
    was_given(&rt, &ports, 2, b"a\n");
    Ok(())
}

/// A console whose buffer has a stage for one event, which overflows, and one for two, which blocks.
const TWO_STAGES: &str = "sources.in = { type = 'stdin' }
sinks.out = { type = 'console', inputs = ['in'], encoding.codec = 'text', buffer = [{ max_events = 1, when_full = 'overflow' }, { max_events = 2 }] }
";

/// A run in which the source reads once, before anything is taken, and then each task goes out alone. The ports at its end.
fn overflowing<R: Abort, P: Port, C: Clock>(
    rt: &R,
    alloc: Global,
    hub: Hub<P>,
    clock: &C,
) -> NumberedList<P>
    requires { IsHub P.observed hub }
{
    let mut hub = hub;
    one_out(rt, alloc, &mut hub, clock, 0);
    assert!(rt; hub.pending().is_none());
    assert!(rt; hub.unspent());
    drive(rt, alloc, &mut hub, clock);
    let Remains { ports, history: _ } = hub.end();
    ports
}

#[test]
fn chain_overflows_to_a_second_stage(rt: HostRuntime) -> Result<(), Fail> {
    let mut world = world(rt.alloc(), TWO_STAGES, &[Play::Piece(0, "a\nb\nc\nd\n")])?;
    let hub = hub_of(rt.alloc(), &mut world)?;
    let ports = overflowing(&rt, rt.alloc(), hub, &MemoryClock::new());
    was_given(&rt, &ports, 1, b"a\nd\nb\nc\n");
    Ok(())
}

/// A reduce before a console.
const ONE_REDUCE: &str = "sources.in = { type = 'stdin' }
transforms.r = { type = 'reduce', inputs = ['in'] }
sinks.out = { type = 'console', inputs = ['r'], encoding.codec = 'text' }
";

/// What the reduce counted that took two lines and put out nothing.
const TWO_TAKEN: Tally = Tally {
    taken: 2,
    ..NOTHING
};

/// Has the instance that merges do what there is to do.
fn merge_once<R: Abort, P: Port>(rt: &R, alloc: Global, hub: &mut Hub<P>)
    requires { IsHub P.observed hub.old }
    ensures { IsHub P.observed hub.new }
{
    let mut hosts = HostList::new(alloc);
    let did = hub.merge(&mut hosts, 0, 0).expect(rt, "a merge");
    assert!(rt; did);
}

/// A run that is given up while a reduce holds a group of two lines, whose check is due a second later. The ports at its end.
fn group_given_up<R: Abort, P: Port, C: Clock>(
    rt: &R,
    alloc: Global,
    hub: Hub<P>,
    clock: &C,
) -> NumberedList<P>
    requires { IsHub P.observed hub }
{
    let mut hub = hub;
    one_out(rt, alloc, &mut hub, clock, 0);
    merge_once(rt, alloc, &mut hub);
    assert_eq!(rt; hub.next_check(&HostList::new(alloc)), Some(1_000));
    assert!(rt; hub.unspent());
    assert!(rt; hub.abandoned().is_none());
    give_up(&mut hub);
    assert!(rt; !hub.unspent());
    drive(rt, alloc, &mut hub, clock);
    counted(rt, &hub, 1, &TWO_TAKEN);
    let Remains { ports, history: _ } = hub.end();
    ports
}

#[test]
fn a_group_is_held_when_the_run_is_given_up(rt: HostRuntime) -> Result<(), Fail> {
    let mut world = world(rt.alloc(), ONE_REDUCE, TWICE_TWO)?;
    let hub = hub_of(rt.alloc(), &mut world)?;
    let ports = group_given_up(&rt, rt.alloc(), hub, &MemoryClock::new());
    was_given(&rt, &ports, 2, b"");
    Ok(())
}
