//! A ledger of two events, and the routes of a parcel.
ghost use Rattle.std.specs.Prelude.{◌≡◌, ◌∷◌, ◌++◌, [], IfOk};
ghost use Rattle.vx_ledger.specs.Ledger.{AreLive, Exchanges};
ghost use Rattle.vx_ledger.specs.Routing.{copies_in};

use std::alloc::Global;
use std::process::Abort;
use std::test::Fail;
use vx_fixtures::{one, two};
use vx_ledger::{
    Batches, Child, ChildList, Finalizer, Finalizers, Notice, Outlet, Parcel, Routed, SharedEvent,
};
use vx_status::{BatchStatus, Outcome};
use vx_value::Event;

// Takes the last copy of a list, which has this number.
fn take<R: Abort>(rt: &R, copies: &mut Finalizers, number: u64) -> Finalizer
    ensures { copies.old ≡ copies.new ++ result ∷ [] }
{
    let Some(copy) = copies.pop() else {
        panic!(rt; "a copy");
    };
    assert_eq!(rt; copy.number(), number);
    copy
}

// Checks the number of the first copy of a list.
fn begins_with<R: Abort>(rt: &R, copies: &Finalizers, number: u64) {
    let Some(copy) = copies.get(0) else {
        panic!(rt; "a copy");
    };
    assert_eq!(rt; copy.number(), number);
}

// The copies of a batch of two events, each in a list of its own.
fn two_copies<R: Abort>(
    rt: &R,
    alloc: Global,
    batches: &mut Batches,
) -> Result<(Finalizers, Finalizers), Fail>
    ensures { IfOk result (λ lists. Exchanges batches.old [] batches.new (lists.0 ++ lists.1)) }
{
    let (batch, mut first) = batches.born(7, 2)?;
    assert_eq!(rt; batch, 0);
    let Ok(Some(second)) = first.take_last(alloc) else {
        panic!(rt; "two copies");
    };
    begins_with(rt, &second, 1);
    Ok((first, second))
}

// Splits a list to two targets.
fn halves<R: Abort>(rt: &R, batches: &mut Batches, copies: Finalizers) -> (Finalizers, Finalizers)
    requires { AreLive batches.old copies }
    ensures { Exchanges batches.old copies batches.new (result.0 ++ result.1) }
{
    let mut children = match batches.split(copies, 2) {
        Ok(children) => children,
        Err(_refused) => panic!(rt; "refused"),
    };
    assert_eq!(rt; batches.next(), 4);
    let Some(right) = children.pop() else {
        panic!(rt; "two lists");
    };
    let Some(left) = children.pop() else {
        panic!(rt; "two lists");
    };
    assert!(rt; children.is_empty());
    children.end();
    (left, right)
}

// The first list with the second behind it.
fn merged<R: Abort>(rt: &R, first: Finalizers, second: Finalizers) -> Finalizers
    ensures { result ≡ first ++ second }
{
    match Finalizers::merge(first, second) {
        Ok(merged) => merged,
        Err(_refused) => panic!(rt; "refused"),
    }
}

// Checks that the second of two copies has the number 1.
fn is_second<R: Abort>(rt: &R, copies: &Finalizers) {
    let Some(one) = copies.get(1) else {
        panic!(rt; "two copies");
    };
    assert_eq!(rt; copies.len(), 2);
    assert_eq!(rt; one.number(), 1);
    assert_eq!(rt; one.batch(), 0);
    assert_eq!(rt; one.place(), 0);
}

// Checks the notice of the batch.
fn is_due<R: Abort>(rt: &R, notice: Option<Notice>) {
    let due = Notice {
        batch: 0,
        instance: 7,
        status: BatchStatus::Rejected,
    };
    assert_eq!(rt; notice, Some(due));
}

// Ends both lists, which are empty.
fn end_both<R: Abort>(rt: &R, first: Finalizers, second: Finalizers) {
    assert!(rt; first.is_empty() && second.is_empty());
    first.end();
    second.end();
}

// Spends the copies of a batch of which the first was split to two targets.
fn spend_three<R: Abort>(rt: &R, batches: &mut Batches, left: Finalizers, right: Finalizers)
    requires { AreLive batches.old (left ++ right) }
{
    let (mut left, mut right) = (left, right);
    let three = take(rt, &mut right, 3);
    let one = take(rt, &mut left, 1);
    let two = take(rt, &mut left, 2);
    end_both(rt, left, right);
    assert!(rt; batches.spend(three, Outcome::Delivered).is_none());
    assert!(rt; batches.spend(two, Outcome::Refusal).is_none());
    is_due(rt, batches.spend(one, Outcome::Filtered));
}

#[test]
fn ledger_of_two_events(rt: HostRuntime) -> Result<(), Fail> {
    let mut batches = Batches::new(rt.alloc())?;
    assert!(rt; batches.is_settled());
    let (first, second) = two_copies(&rt, rt.alloc(), &mut batches)?;
    let (left, right) = halves(&rt, &mut batches, first);
    let left = merged(&rt, left, second);
    is_second(&rt, &left);
    spend_three(&rt, &mut batches, left, right);
    assert!(rt; batches.is_settled());
    Ok(())
}

// Spends all copies, and tells their numbers, the last one first.
fn spend_all<R: Abort>(rt: &R, observed: &mut Vec<u64>, batches: &mut Batches, copies: Finalizers)
    requires { AreLive batches.old copies }
    ensures { Exchanges batches.old copies batches.new [] }
{
    let mut rest = copies;
    while let Some(copy) = rest.pop() {
        assert!(rt; observed.push(copy.number()).is_ok());
        batches.spend(copy, Outcome::Delivered);
    }
    rest.end();
}

// Spends the copies of a parcel.
fn spend_parcel<R: Abort>(rt: &R, observed: &mut Vec<u64>, batches: &mut Batches, parcel: Parcel)
    requires { AreLive batches.old parcel.finalizers }
    ensures { Exchanges batches.old parcel.finalizers batches.new [] }
{
    let Parcel {
        event: _,
        finalizers,
    } = parcel;
    spend_all(rt, observed, batches, finalizers);
}

// Spends the copies of children. Tells for each its target and the numbers of its copies, all of it from the last to
// the first.
fn spend_children<R: Abort>(
    rt: &R,
    observed: &mut Vec<u64>,
    batches: &mut Batches,
    children: ChildList,
)
    requires { AreLive batches.old (copies_in children) }
{
    let mut rest = children;
    while let Some(child) = rest.pop() {
        let Child { target, parcel } = child;
        assert!(rt; observed.push(u64::from(target)).is_ok());
        spend_parcel(rt, observed, batches, parcel);
    }
    rest.end();
}

// A parcel with the copies 0 and 1.
fn parcel_of_two(alloc: Global, batches: &mut Batches) -> Result<Parcel, Fail>
    ensures { IfOk result (λ parcel. Exchanges batches.old [] batches.new parcel.finalizers) }
{
    let event = SharedEvent::new(alloc, Event::new(alloc))?;
    let (_, finalizers) = batches.born(0, 2)?;
    Ok(Parcel { event, finalizers })
}

// Routes a parcel with the copies 0 and 1, and tells of its children as above; or the numbers alone, where there is no
// consumer.
fn routed<R: Abort>(rt: &R, alloc: Global, outlet: &Outlet, ports: u128) -> Result<Vec<u64>, Fail> {
    let mut observed = Vec::new(alloc);
    let mut batches = Batches::new(alloc)?;
    let parcel = parcel_of_two(alloc, &mut batches)?;
    match outlet.route(ports, parcel, &mut batches, Vec::new(alloc)) {
        Ok(Routed::Children(children)) => spend_children(rt, &mut observed, &mut batches, children),
        Ok(Routed::NoConsumer(back)) => spend_parcel(rt, &mut observed, &mut batches, back),
        Err(_refused) => panic!(rt; "refused"),
    }
    assert!(rt; batches.is_settled());
    Ok(observed)
}

// Checks what a route tells.
fn has_route<R: Abort>(
    rt: &R,
    alloc: Global,
    outlet: &Outlet,
    ports: u128,
    want: &[u64],
) -> Result<(), Fail> {
    let observed = routed(rt, alloc, outlet, ports)?;
    assert_eq!(rt; observed.as_slice(), want);
    Ok(())
}

#[test]
fn routes(rt: HostRuntime) -> Result<(), Fail> {
    let mut outlet = Outlet::new(rt.alloc(), 2)?;
    has_route(&rt, rt.alloc(), &outlet, 0b11, &[1, 0])?;
    outlet.rewire(1, two(rt.alloc(), 5, 6)?);
    has_route(&rt, rt.alloc(), &outlet, 0b10, &[6, 5, 4, 5, 3, 2])?;
    has_route(&rt, rt.alloc(), &outlet, 0b11, &[6, 5, 4, 5, 3, 2])?;
    has_route(&rt, rt.alloc(), &outlet, 0b01, &[1, 0])?;
    outlet.rewire(0, one(rt.alloc(), 6)?);
    has_route(&rt, rt.alloc(), &outlet, 0b11, &[6, 7, 6, 5, 5, 4, 6, 3, 2])
}
