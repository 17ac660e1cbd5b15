//! Transforms that a program hands in, behind keepers that are driven by hand.
ghost use Rattle.vx_ledger.specs.Ledger.{AreLive};
ghost use Rattle.vx_keeping.specs.Kept.{copies_kept};

use crate::keepers::{Behind, answer_by, end_both, event, put_out, spend_outputs, take, take_two};
use crate::parcels::{bare, close, end};
use std::alloc::Global;
use std::process::Abort;
use std::test::Fail;
use vx_fixtures::event_of_wholes;
use vx_keeping::{HostList, HostTransform, Hosted, Hosts, Keeper, Numbering};
use vx_ledger::Batches;
use vx_status::Outcome;
use vx_transform::{Output, Shelf, Transform};
use vx_value::{Event, ItemList, Text};

// An event with an identity and a number, as a numbering puts it out.
fn numbered(alloc: Global, id: i64, n: i64, number: i64) -> Result<Event, Fail> {
    event_of_wholes(alloc, &[(".id", id), (".n", n), (".number", number)])
}

// Checks that the output at a place has an event.
fn has_event(rt: &impl Abort, outputs: &ItemList<Output>, place: usize, want: &Event) {
    let Some(output) = outputs.get(place) else {
        panic!(rt; "no output");
    };
    assert!(rt; output.parcel.event.get().is_same(want));
}

// Takes off two outputs with such events, all on port 0, and spends their copies.
fn put_out_two<R: Abort>(
    rt: &R,
    keeper: &mut Keeper,
    batches: &mut Batches,
    first: &Event,
    second: &Event,
)
    requires { AreLive batches.old (copies_kept keeper.old) }
    ensures { AreLive batches.new (copies_kept keeper.new) }
{
    let outputs = keeper.put_out();
    assert_eq!(rt; outputs.len(), 2);
    has_event(rt, &outputs, 0, first);
    has_event(rt, &outputs, 1, second);
    spend_outputs(rt, batches, outputs);
}

// Spends the next copy that a keeper discarded.
fn spend_discarded<R: Abort>(rt: &R, keeper: &mut Keeper, batches: &mut Batches)
    requires { AreLive batches.old (copies_kept keeper.old) }
    ensures { AreLive batches.new (copies_kept keeper.new) }
{
    let Some(copy) = keeper.next_discarded() else {
        panic!(rt; "no copy");
    };
    batches.spend(copy, Outcome::Filtered);
}

// Checks that a keeper has no copy left that it discarded.
fn has_spent(rt: &impl Abort, keeper: &mut Keeper) {
    if let Some(_copy) = keeper.next_discarded() {
        panic!(rt; "a copy more");
    }
}

// Checks that the instance 3 numbers a line of two events.
fn numbers_a_line<R: Abort, H: Hosts>(rt: &R, alloc: Global, hosts: &mut H) -> Result<(), Fail> {
    let first = event(alloc, 1, 2)?;
    let second = event(alloc, 1, 5)?;
    let first_out = numbered(alloc, 1, 2, 0)?;
    let second_out = numbered(alloc, 1, 5, 1)?;
    let mut batches = Batches::new(alloc)?;
    let mut keeper = Keeper::hosting(alloc, 2)?;
    take(rt, &mut keeper, &mut batches, first);
    take(rt, &mut keeper, &mut batches, second);
    assert!(rt; answer_by(alloc, &mut keeper, hosts, 3, 7, Behind::Tick));
    assert_eq!(rt; keeper.dropped(), 0);
    assert_eq!(rt; keeper.due(hosts, 3), None);
    put_out_two(rt, &mut keeper, &mut batches, &first_out, &second_out);
    end_both(rt, keeper, batches);
    Ok(())
}

// A numbering, which the instance 3 runs.
fn one_numbering(rt: &impl Abort, alloc: Global) -> Result<HostList, Fail> {
    let numbering = Box::new(alloc, Hosted::new(Numbering::new()))?;
    let own = Text::copy_of(alloc, "numbering")?;
    let name = own.copy(alloc)?;
    let mut hosts = HostList::new(alloc);
    hosts.push(HostTransform::new(own, numbering))?;
    assert!(rt; hosts.has(&name));
    hosts.assign(&name, 3);
    Ok(hosts)
}

#[test]
fn a_host_numbers_a_line(rt: HostRuntime) -> Result<(), Fail> {
    let alloc = rt.alloc();
    let mut hosts = one_numbering(&rt, alloc)?;
    numbers_a_line(&rt, alloc, &mut hosts)
}

#[test]
fn an_instance_without_a_host_discards(rt: HostRuntime) -> Result<(), Fail> {
    let alloc = rt.alloc();
    let mut hosts = one_numbering(&rt, alloc)?;
    hosts.release();
    let first = event(alloc, 1, 2)?;
    let second = event(alloc, 1, 5)?;
    let mut batches = Batches::new(alloc)?;
    let mut keeper = Keeper::hosting(alloc, 2)?;
    take(&rt, &mut keeper, &mut batches, first);
    take_two(&mut keeper, &mut batches, second);
    assert!(&rt; answer_by(alloc, &mut keeper, &mut hosts, 3, 7, Behind::Flush));
    assert_eq!(&rt; keeper.outputs(), 0);
    assert_eq!(&rt; keeper.dropped(), 2);
    put_out(&rt, &mut keeper, &mut batches);
    spend_discarded(&rt, &mut keeper, &mut batches);
    spend_discarded(&rt, &mut keeper, &mut batches);
    spend_discarded(&rt, &mut keeper, &mut batches);
    has_spent(&rt, &mut keeper);
    end_both(&rt, keeper, batches);
    Ok(())
}

#[test]
fn a_numbering_numbers_an_event(rt: HostRuntime) -> Result<(), Fail> {
    let alloc = rt.alloc();
    let want = numbered(alloc, 1, 2, 0)?;
    let event = event_of_wholes(alloc, &[(".id", 1), (".n", 2)])?;
    let parcel = bare(&rt, alloc, event)?;
    let mut shelf = Shelf::new(alloc);
    let mut numbering = Numbering::new();
    assert_eq!(&rt; numbering.ports(), 1);
    assert_eq!(&rt; numbering.due(), None);
    if let Err(_back) = numbering.apply(alloc, parcel, 0, &mut shelf) {
        panic!(&rt; "no memory");
    }
    let Some(output) = shelf.take_output() else {
        panic!(&rt; "no output");
    };
    let Output { ports, parcel } = output;
    assert_eq!(&rt; ports, 1);
    assert!(&rt; end(&rt, parcel).get().is_same(&want));
    close(&rt, shelf);
    Ok(())
}
