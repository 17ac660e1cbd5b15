ghost use Rattle.std.specs.Prelude.{◌≡◌, None, Some, [], ◌∷◌, ◌++◌, OnOk, OnErr, IfErr, IfSome, IfNone, IsSome};
ghost use Rattle.vx_reduce.specs.Groups.{copies_in, passed, output_in, put_all, joined_group};
ghost use Rattle.vx_reduce.specs.Endings.{ending_outputs};

use crate::group_key::GroupKey;
use crate::refused::Refused;
use vx_ledger::{Finalizer, Finalizers, MergeRefused, Parcel, SharedEvent};
use vx_transform::{Back, BothBack, Shelf};
use vx_value::WantOfMemory;

// The bit of the one port.
const PASSED: u128 = 1;

// How an event that ends a group goes out.
#[derive(Clone, Copy)]
pub(crate) enum Ending {
    // Behind the group, as a parcel of its own.
    Apart,
    // In place of the group's event, with the group's copies before its own.
    Joined,
}

// The copies of a parcel.
pub(crate) fn copies_of(parcel: Parcel) -> Finalizers
    ensures { result ≡ parcel.finalizers }
{
    let Parcel {
        event: _,
        finalizers,
    } = parcel;
    finalizers
}

// Puts an event out with its copies. For want of memory the copies come back, and the shelf is as before.
pub(crate) fn pass(
    event: SharedEvent,
    copies: Finalizers,
    shelf: &mut Shelf,
) -> Result<(), Finalizers>
    ensures ok { OnOk result
        (shelf.new
        ≡ put_all shelf.old (passed (record { event = event; finalizers = copies }) ∷ [])) }
    ensures err { OnErr result (shelf.new ≡ shelf.old) }
    ensures back { IfErr result (λ refused. refused ≡ copies) }
{
    let finalizers = copies;
    match shelf.put(PASSED, Parcel { event, finalizers }) {
        Ok(()) => Ok(()),
        Err(back) => {
            let Back { parcel } = back;
            Err(copies_of(parcel))
        }
    }
}

// The events of a key, merged: their parcel, and the moment of the last one. The parcel is gone only while it's on its
// way out.
pub(crate) struct Group {
    pub(crate) key: GroupKey,
    pub(crate) moment: u64,
    pub(crate) parcel: Option<Parcel>,
}

impl Group {
    // Takes more copies behind its own, and an event in place of its own. For want of memory the copies come back, and the
    // group is as before.
    pub(crate) fn join(
        &mut self,
        event: SharedEvent,
        copies: Finalizers,
        moment: u64,
    ) -> Result<(), Finalizers>
        ensures ok { OnOk result (self.new ≡ joined_group event copies moment self.old) }
        ensures err { OnErr result (self.new ≡ self.old) }
        ensures back { IfErr result (λ refused. refused ≡ copies) }
    {
        let finalizers = match self.parcel.take() {
            None => copies,
            Some(own) => {
                let Parcel {
                    event: so_far,
                    finalizers: first,
                } = own;
                match Finalizers::merge(first, copies) {
                    Ok(joined) => joined,
                    Err(refused) => {
                        let MergeRefused { first, second } = refused;
                        self.fill(Parcel {
                            event: so_far,
                            finalizers: first,
                        });
                        return Err(second);
                    }
                }
            }
        };
        self.fill(Parcel { event, finalizers });
        self.moment = moment;
        Ok(())
    }

    // Puts a parcel in place of the one that is gone.
    fn fill(&mut self, parcel: Parcel)
        requires { self.old.parcel ≡ None }
        ensures { self.new ≡ record self.old { parcel = Some parcel } }
    {
        match self.parcel.replace(parcel) {
            None => {}
            Some(_) => unreachable!(),
        }
    }

    // Puts its parcel out. For want of memory group and shelf are as before.
    pub(crate) fn put_out(&mut self, shelf: &mut Shelf) -> Result<(), WantOfMemory>
        ensures ok { OnOk result (shelf.new ≡ put_all shelf.old (output_in self.old.parcel)) }
        ensures hollow { OnOk result (self.new.parcel ≡ None) }
        ensures key { self.new.key ≡ self.old.key }
        ensures err { OnErr result (self.new ≡ self.old) }
        ensures shelf { OnErr result (shelf.new ≡ shelf.old) }
    {
        let Some(parcel) = self.parcel.take() else {
            return Ok(());
        };
        match shelf.put(PASSED, parcel) {
            Ok(()) => Ok(()),
            Err(back) => {
                let Back { parcel } = back;
                self.fill(parcel);
                Err(WantOfMemory)
            }
        }
    }

    // Puts its parcel out with an event that ends it. For want of memory the event's copies come back, and group and shelf are
    // as before.
    pub(crate) fn put_out_with(
        &mut self,
        ending: Ending,
        event: SharedEvent,
        copies: Finalizers,
        shelf: &mut Shelf,
    ) -> Result<(), Finalizers>
        ensures ok { OnOk result
            (shelf.new ≡ put_all shelf.old (ending_outputs ending (Some self.old) event copies)) }
        ensures hollow { OnOk result (self.new.parcel ≡ None) }
        ensures key { self.new.key ≡ self.old.key }
        ensures err { OnErr result (self.new ≡ self.old) }
        ensures back { IfErr result (λ refused. refused ≡ copies) }
        ensures shelf { OnErr result (shelf.new ≡ shelf.old) }
    {
        let Some(own) = self.parcel.take() else {
            return pass(event, copies, shelf);
        };
        match ending {
            Ending::Apart => {
                let finalizers = copies;
                match shelf.put_both(PASSED, own, Parcel { event, finalizers }) {
                    Ok(()) => Ok(()),
                    Err(refused) => {
                        let BothBack { first, second } = refused;
                        self.fill(first);
                        Err(copies_of(second))
                    }
                }
            }
            Ending::Joined => {
                let Parcel {
                    event: so_far,
                    finalizers: first,
                } = own;
                match shelf.put_joined(PASSED, event, first, copies) {
                    Ok(()) => Ok(()),
                    Err(refused) => {
                        let MergeRefused { first, second } = refused;
                        self.fill(Parcel {
                            event: so_far,
                            finalizers: first,
                        });
                        Err(second)
                    }
                }
            }
        }
    }

    // Its key and its parcel.
    fn parts(self) -> (GroupKey, Option<Parcel>)
        ensures key { result.0 ≡ self.key }
        ensures parcel { result.1 ≡ self.parcel }
    {
        let Group {
            key,
            moment: _,
            parcel,
        } = self;
        (key, parcel)
    }

    // The key and the parcel of a group that found no place.
    pub(crate) fn refused(self) -> Refused
        requires { IsSome self.parcel }
        ensures key { result.key ≡ self.key }
        ensures parcel { self.parcel ≡ Some result.parcel }
    {
        let (key, parcel) = self.parts();
        match parcel {
            Some(parcel) => Refused { key, parcel },
            None => unreachable!(),
        }
    }

    // Takes its last copy. `None` exactly where it has none.
    pub(crate) fn take_copy(&mut self) -> Option<Finalizer>
        ensures some { IfSome result
            (λ copy. copies_in self.old.parcel ≡ copies_in self.new.parcel ++ copy ∷ []) }
        ensures none { IfNone result (copies_in self.old.parcel ≡ []) }
        ensures same { IfNone result (self.new ≡ self.old) }
        ensures key { self.new.key ≡ self.old.key }
    {
        match &mut self.parcel {
            Some(parcel) => parcel.finalizers.pop(),
            None => None,
        }
    }

    // The key of a group that has no copies, which ends.
    pub(crate) fn end(self) -> GroupKey
        requires { copies_in self.parcel ≡ [] }
        ensures { result ≡ self.key }
    {
        let (key, parcel) = self.parts();
        match parcel {
            Some(parcel) => copies_of(parcel).end(),
            None => {}
        }
        key
    }
}
