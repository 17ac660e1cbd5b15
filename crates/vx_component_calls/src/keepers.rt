//! Keepers that are driven by hand.
ghost use Rattle.std.specs.Prelude.{◌≡◌, []};
ghost use Rattle.vx_ledger.specs.Ledger.{AreLive, Exchanges};
ghost use Rattle.vx_transform.specs.Shelves.{copies_put_out};
ghost use Rattle.vx_keeping.specs.Given.{SameCopies};
ghost use Rattle.vx_keeping.specs.Kept.{copies_kept};

use std::alloc::Global;
use std::process::Abort;
use std::test::Fail;
use vx_condition::parse;
use vx_fixtures::{event_of_wholes, one, with};
use vx_keeping::{HostList, Hosts, Keeper};
use vx_ledger::{Batches, Finalizers, Parcel, SharedEvent};
use vx_reduce::ReduceSettings;
use vx_status::Outcome;
use vx_transform::Output;
use vx_value::{ItemList, Path, Value};

// Settings by `.id`, whose groups end with a field `last`, expire after 10 ms and are looked at each 5 ms.
fn settings(alloc: Global) -> Result<ReduceSettings, Fail> {
    let path = Path::read(alloc, ".id")?;
    Ok(ReduceSettings {
        group_by: one(alloc, path)?,
        starts_when: None,
        ends_when: Some(parse(alloc, "exists(.last)")?),
        expire_after_ms: 10,
        flush_period_ms: 5,
        strategies: ItemList::new(alloc),
    })
}

/// An event with an identity and a number.
pub(crate) fn event(alloc: Global, id: i64, n: i64) -> Result<SharedEvent, Fail> {
    let event = event_of_wholes(alloc, &[(".id", id), (".n", n)])?;
    let shared = SharedEvent::new(alloc, event)?;
    Ok(shared)
}

// The same as the last one of its group.
fn last(alloc: Global, id: i64, n: i64) -> Result<SharedEvent, Fail> {
    let event = event_of_wholes(alloc, &[(".id", id), (".n", n)])?;
    let last = with(alloc, event, ".last", Value::Truth(true))?;
    let shared = SharedEvent::new(alloc, last)?;
    Ok(shared)
}

/// Has a keeper take an event of a batch of its own.
pub(crate) fn take<R: Abort>(rt: &R, keeper: &mut Keeper, batches: &mut Batches, event: SharedEvent)
    requires { AreLive batches.old (copies_kept keeper.old) }
    ensures { AreLive batches.new (copies_kept keeper.new) }
{
    let Ok((_, finalizers)) = batches.born(0, 1) else {
        panic!(rt; "no memory");
    };
    assert!(rt; keeper.has_room());
    keeper.take(Parcel { event, finalizers });
    assert!(rt; keeper.has_taken());
}

/// What comes behind an answer.
#[derive(Clone, Copy)]
pub(crate) enum Behind {
    Nothing,
    Tick,
    Flush,
}

/// Has the keeper of an instance answer at a moment, and do what comes behind that. Whether it found memory.
pub(crate) fn answer_by<H: Hosts>(
    alloc: Global,
    keeper: &mut Keeper,
    hosts: &mut H,
    i: u32,
    now: u64,
    behind: Behind,
) -> bool
    ensures { SameCopies (copies_kept keeper.old) (copies_kept keeper.new) }
{
    if keeper.answer(alloc, hosts, i, now).is_err() {
        return false;
    }
    match behind {
        Behind::Nothing => true,
        Behind::Tick => keeper.tick(alloc, hosts, i, now).is_ok(),
        Behind::Flush => keeper.flush(alloc, hosts, i).is_ok(),
    }
}

// The same of a keeper that reduces.
fn answer(alloc: Global, keeper: &mut Keeper, now: u64, behind: Behind) -> bool
    ensures { SameCopies (copies_kept keeper.old) (copies_kept keeper.new) }
{
    let mut hosts = HostList::new(alloc);
    answer_by(alloc, keeper, &mut hosts, 0, now, behind)
}

// The moment of the next check of a keeper that reduces.
fn due(alloc: Global, keeper: &Keeper) -> Option<u64> {
    let hosts = HostList::new(alloc);
    keeper.due(&hosts, 0)
}

// Spends all copies of a list.
fn spend_all(batches: &mut Batches, copies: Finalizers)
    requires { AreLive batches.old copies }
    ensures { Exchanges batches.old copies batches.new [] }
{
    let mut rest = copies;
    while let Some(copy) = rest.pop() {
        batches.spend(copy, Outcome::Delivered);
    }
    rest.end();
}

/// Spends the copies of outputs, all on port 0.
pub(crate) fn spend_outputs<R: Abort>(rt: &R, batches: &mut Batches, outputs: ItemList<Output>)
    requires { AreLive batches.old (copies_put_out outputs) }
    ensures { Exchanges batches.old (copies_put_out outputs) batches.new [] }
{
    let mut rest = outputs;
    while let Some(output) = rest.pop() {
        let Output { ports, parcel } = output;
        assert_eq!(rt; ports, 1);
        let Parcel {
            event: _,
            finalizers,
        } = parcel;
        spend_all(batches, finalizers);
    }
    rest.end();
}

/// Takes off the outputs, all on port 0, and spends their copies.
pub(crate) fn put_out<R: Abort>(rt: &R, keeper: &mut Keeper, batches: &mut Batches)
    requires { AreLive batches.old (copies_kept keeper.old) }
    ensures { AreLive batches.new (copies_kept keeper.new) }
{
    let outputs = keeper.put_out();
    spend_outputs(rt, batches, outputs);
}

// Has a keeper answer, by which it puts out so many parcels, whose copies are spent.
fn answers<R: Abort>(
    rt: &R,
    alloc: Global,
    keeper: &mut Keeper,
    batches: &mut Batches,
    now: u64,
    behind: Behind,
    want: usize,
)
    requires { AreLive batches.old (copies_kept keeper.old) }
    ensures { AreLive batches.new (copies_kept keeper.new) }
{
    assert!(rt; answer(alloc, keeper, now, behind));
    assert!(rt; !keeper.has_taken());
    assert_eq!(rt; keeper.outputs(), want);
    put_out(rt, keeper, batches);
    assert_eq!(rt; keeper.outputs(), 0);
}

// Gives up all copies of a keeper, one after the other.
fn give_up_all<R: Abort>(rt: &R, keeper: &mut Keeper, batches: &mut Batches)
    requires { AreLive batches.old (copies_kept keeper.old) }
    ensures { copies_kept keeper.new ≡ [] }
{
    let mut empty = keeper.is_empty();
    while let Some(copy) = keeper.give_up() {
        assert!(rt; !empty);
        batches.spend(copy, Outcome::Abandoned);
        empty = keeper.is_empty();
    }
    assert!(rt; empty);
    assert!(rt; !keeper.is_fit());
}

/// Ends a keeper that holds nothing, and a ledger of which no copy is live.
pub(crate) fn end_both<R: Abort>(rt: &R, keeper: Keeper, batches: Batches) {
    assert!(rt; keeper.is_empty());
    assert!(rt; batches.is_settled());
    keeper.end();
}

#[test]
fn a_kept_group_ends(rt: HostRuntime) -> Result<(), Fail> {
    let alloc = rt.alloc();
    let first = event(alloc, 1, 2)?;
    let second = last(alloc, 1, 3)?;
    let mut batches = Batches::new(alloc)?;
    let settings = settings(alloc)?;
    let mut keeper = Keeper::reducing(alloc, settings, 2)?;
    assert!(&rt; keeper.is_fit() && keeper.is_empty() && !keeper.has_taken());
    assert_eq!(&rt; due(alloc, &keeper), None);
    take(&rt, &mut keeper, &mut batches, first);
    take(&rt, &mut keeper, &mut batches, second);
    assert!(&rt; !keeper.has_room() && !keeper.is_empty());
    answers(&rt, alloc, &mut keeper, &mut batches, 1, Behind::Nothing, 1);
    end_both(&rt, keeper, batches);
    Ok(())
}

#[test]
fn kept_groups_expire(rt: HostRuntime) -> Result<(), Fail> {
    let alloc = rt.alloc();
    let first = event(alloc, 2, 7)?;
    let other = event(alloc, 3, 7)?;
    let mut batches = Batches::new(alloc)?;
    let settings = settings(alloc)?;
    let mut keeper = Keeper::reducing(alloc, settings, 2)?;
    take(&rt, &mut keeper, &mut batches, first);
    answers(&rt, alloc, &mut keeper, &mut batches, 3, Behind::Nothing, 0);
    assert_eq!(&rt; due(alloc, &keeper), Some(8));
    answers(&rt, alloc, &mut keeper, &mut batches, 8, Behind::Tick, 0);
    assert_eq!(&rt; due(alloc, &keeper), Some(13));
    answers(&rt, alloc, &mut keeper, &mut batches, 13, Behind::Tick, 1);
    assert_eq!(&rt; due(alloc, &keeper), None);
    take(&rt, &mut keeper, &mut batches, other);
    answers(
        &rt,
        alloc,
        &mut keeper,
        &mut batches,
        20,
        Behind::Nothing,
        0,
    );
    assert!(&rt; !keeper.is_empty());
    answers(&rt, alloc, &mut keeper, &mut batches, 21, Behind::Flush, 1);
    end_both(&rt, keeper, batches);
    Ok(())
}

#[test]
fn kept_copies_are_given_up(rt: HostRuntime) -> Result<(), Fail> {
    let alloc = rt.alloc();
    let first = event(alloc, 4, 1)?;
    let second = event(alloc, 4, 2)?;
    let third = event(alloc, 5, 1)?;
    let mut batches = Batches::new(alloc)?;
    let settings = settings(alloc)?;
    let mut keeper = Keeper::reducing(alloc, settings, 3)?;
    take(&rt, &mut keeper, &mut batches, first);
    answers(
        &rt,
        alloc,
        &mut keeper,
        &mut batches,
        30,
        Behind::Nothing,
        0,
    );
    take(&rt, &mut keeper, &mut batches, second);
    take(&rt, &mut keeper, &mut batches, third);
    keeper.fail();
    assert!(&rt; !keeper.is_fit() && !keeper.is_empty());
    assert!(&rt; !answer(alloc, &mut keeper, 31, Behind::Nothing));
    give_up_all(&rt, &mut keeper, &mut batches);
    end_both(&rt, keeper, batches);
    Ok(())
}

// Events of five groups, of which some end one.
fn events(alloc: Global) -> Result<Vec<SharedEvent>, Fail> {
    let mut events = Vec::new(alloc);
    for i in 0..24i64 {
        let event = if i % 7 == 6 {
            last(alloc, i % 5, i)?
        } else {
            event(alloc, i % 5, i)?
        };
        events.push(event)?;
    }
    Ok(events)
}

/// Has a keeper take an event of a batch of two copies, where it has room for it and memory is found.
pub(crate) fn take_two(keeper: &mut Keeper, batches: &mut Batches, event: SharedEvent)
    requires { AreLive batches.old (copies_kept keeper.old) }
    ensures { AreLive batches.new (copies_kept keeper.new) }
{
    if !keeper.has_room() {
        return;
    }
    if let Ok((_, finalizers)) = batches.born(0, 2) {
        keeper.take(Parcel { event, finalizers });
    }
}

// Gives a keeper events, and has it answer behind each fourth one. Whether it found memory.
fn feed<R: Abort>(
    rt: &R,
    alloc: Global,
    keeper: &mut Keeper,
    batches: &mut Batches,
    events: &mut Vec<SharedEvent>,
) -> bool
    requires { AreLive batches.old (copies_kept keeper.old) }
    ensures { AreLive batches.new (copies_kept keeper.new) }
{
    for i in 0..24u64 {
        let Some(event) = events.pop() else {
            return true;
        };
        take_two(keeper, batches, event);
        let behind = match i % 12 {
            3 => Behind::Nothing,
            7 => Behind::Tick,
            11 => Behind::Flush,
            _ => continue,
        };
        if !answer(alloc, keeper, i * 3, behind) {
            return false;
        }
        put_out(rt, keeper, batches);
    }
    true
}

#[test]
fn a_keeper_runs_short(rt: HostRuntime) -> Result<(), Fail> {
    let alloc = rt.alloc();
    let mut events = events(alloc)?;
    let mut batches = Batches::new(alloc)?;
    let settings = settings(alloc)?;
    let mut keeper = Keeper::reducing(alloc, settings, 4)?;
    let fine = feed(&rt, alloc, &mut keeper, &mut batches, &mut events);
    assert_eq!(&rt; keeper.is_fit(), fine);
    give_up_all(&rt, &mut keeper, &mut batches);
    end_both(&rt, keeper, batches);
    if fine {
        Ok(())
    } else {
        Err(Fail::new("no memory"))
    }
}
