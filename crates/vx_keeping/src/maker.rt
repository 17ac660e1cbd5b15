ghost use Rattle.std.specs.Prelude.{◌≡◌, ◌↔◌, None, [], ◌∷◌, ◌++◌, OnOk, IfSome, IfNone, IsTrue};
ghost use Rattle.vx_transform.specs.Shelves.{copies_dropped, copies_on};
ghost use Rattle.vx_reduce.specs.Inputs.{ticked, at_end};
ghost use Rattle.vx_keeping.specs.Given.{SameCopies, arrived_all};

use crate::giving::give_all;
use crate::hosts::Hosts;
use std::alloc::Global;
use vx_ledger::{Finalizer, Parcel};
use vx_places::Line;
use vx_reduce::Reduce;
use vx_transform::{Shelf, Transform};
use vx_value::WantOfMemory;

// What makes the answers of an instance: a reduce, or a transform that the program handed in, which stands among those.
pub(crate) enum Maker {
    Reduce(Reduce),
    Host,
}

impl Maker {
    ghost use Rattle.vx_keeping.specs.Kept.{copies_made, HoldsNone};
    ghost use Rattle.vx_keeping.specs.Making.{made_of, IsDueOf, Gives};

    // Whether it is a host.
    pub(crate) fn is_host(&self) -> bool
        ensures { IsTrue result ↔ (made_of self.now ≡ None) }
    {
        match self {
            Maker::Reduce(_) => false,
            Maker::Host => true,
        }
    }

    // Gives it the parcels of a line, the oldest first, at a moment. A host leaves over copies, behind some others. For want of memory it
    // may have been given some first ones.
    pub(crate) fn answer<H: Hosts>(
        &mut self,
        alloc: Global,
        hosts: &mut H,
        i: u32,
        taken: &mut Line<Parcel>,
        now: u64,
        shelf: &mut Shelf,
        left: &mut Vec<Finalizer>,
    ) -> Result<(), WantOfMemory>
        ensures given { OnOk result
            (Gives (arrived_all now taken.old.items) (made_of self.old) (made_of self.new)
            shelf.old shelf.new left.old.items left.new.items) }
        ensures none { OnOk result (taken.new.items ≡ []) }
        ensures same { SameCopies
            (copies_made (made_of self.old) ++ (copies_dropped taken.old.items ++
            (copies_on shelf.old ++ left.old.items)))
            (copies_made (made_of self.new) ++ (copies_dropped taken.new.items ++
            (copies_on shelf.new ++ left.new.items))) }
        ensures room { taken.new.room ≡ taken.old.room }
    {
        match self {
            Maker::Reduce(reduce) => give_all(reduce, alloc, taken, now, shelf),
            Maker::Host => hosts.answer(alloc, i, taken, now, shelf, left),
        }
    }

    // Lets it act by itself at a moment. For want of memory it may have done a part.
    pub(crate) fn tick<H: Hosts>(
        &mut self,
        alloc: Global,
        hosts: &mut H,
        i: u32,
        now: u64,
        shelf: &mut Shelf,
    ) -> Result<(), WantOfMemory>
        ensures given { OnOk result
            (Gives (ticked now ∷ []) (made_of self.old) (made_of self.new) shelf.old shelf.new
            [] []) }
        ensures same { SameCopies
            (copies_made (made_of self.old) ++ copies_on shelf.old)
            (copies_made (made_of self.new) ++ copies_on shelf.new) }
    {
        match self {
            Maker::Reduce(reduce) => reduce.tick(alloc, now, shelf),
            Maker::Host => hosts.tick(alloc, i, now, shelf),
        }
    }

    // Has it put out all that it holds. For want of memory it may have done a part.
    pub(crate) fn flush<H: Hosts>(
        &mut self,
        alloc: Global,
        hosts: &mut H,
        i: u32,
        shelf: &mut Shelf,
    ) -> Result<(), WantOfMemory>
        ensures given { OnOk result
            (Gives (at_end ∷ []) (made_of self.old) (made_of self.new) shelf.old shelf.new
            [] []) }
        ensures emptied { OnOk result (HoldsNone (made_of self.new)) }
        ensures same { SameCopies
            (copies_made (made_of self.old) ++ copies_on shelf.old)
            (copies_made (made_of self.new) ++ copies_on shelf.new) }
    {
        match self {
            Maker::Reduce(reduce) => reduce.flush(alloc, shelf),
            Maker::Host => hosts.flush(alloc, i, shelf),
        }
    }

    // Whether it holds nothing.
    pub(crate) fn holds_none(&self) -> bool
        ensures { IsTrue result ↔ HoldsNone (made_of self.now) }
    {
        match self {
            Maker::Reduce(reduce) => reduce.due().is_none(),
            Maker::Host => true,
        }
    }

    // The moment of a reduce's next check, while it has a group, or that at which a host is to be ticked.
    pub(crate) fn due<H: Hosts>(&self, hosts: &H, i: u32) -> Option<u64>
        ensures { IsDueOf (made_of self.now) result }
    {
        match self {
            Maker::Reduce(reduce) => reduce.due(),
            Maker::Host => hosts.due(i),
        }
    }

    // Takes a copy that it holds. `None` exactly where there is none.
    pub(crate) fn surrender(&mut self) -> Option<Finalizer>
        ensures some { IfSome result
            (λ copy. SameCopies (copies_made (made_of self.old))
            (copy ∷ copies_made (made_of self.new))) }
        ensures none { IfNone result (copies_made (made_of self.old) ≡ []) }
        ensures empty { IfNone result (HoldsNone (made_of self.new)) }
    {
        match self {
            Maker::Reduce(reduce) => reduce.surrender(),
            Maker::Host => None,
        }
    }

    // Ends one that holds nothing.
    pub(crate) fn end(self)
        requires { HoldsNone (made_of self) }
    {
        match self {
            Maker::Reduce(reduce) => reduce.end(),
            Maker::Host => {}
        }
    }
}
