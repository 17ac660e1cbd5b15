ghost use Rattle.std.specs.Prelude.{◌≡◌};
ghost use Rattle.vx_hub.specs.Making.{AreBare};

use crate::slots::end_keepers;
use vx_keeping::Keeper;
use vx_pick::Picker;
use vx_plan::Plan;
use vx_value::{ItemList, Text};

/// A port, and the name of its component.
#[derive(Drop)]
pub struct Named<P> {
    pub name: Text,
    pub port: P,
}

/// Some ports with their components' names.
pub type NamedList<P> = ItemList<Named<P>>;

/// A port, and the number of its instance.
#[derive(Drop)]
pub struct Numbered<P> {
    pub instance: u32,
    pub port: P,
}

/// Some ports with their instances' numbers.
pub type NumberedList<P> = ItemList<Numbered<P>>;

/// What each component of a plan picks by, in their order, if it is a transform.
pub type PickerList = ItemList<Option<Picker>>;

/// What each component of a plan keeps as it begins, in their order, if it merges. It can't be dropped: `end_keepers` ends it.
pub type KeeperList = ItemList<Option<Keeper>>;

/// What a hub is made of: the plan, and for each component, in the order of the components, a port, what it picks by and what it
/// keeps. In the place of a component that needs no port, as a transform, a source that makes its lines itself or a black hole, stands
/// one that is made for none. It can't be dropped: a keeper can't.
pub struct Parts<P> {
    pub plan: Plan,
    /// Whether files end where they end now.
    pub once: bool,
    pub ports: NamedList<P>,
    pub pickers: PickerList,
    pub keepers: KeeperList,
}

impl<P> Parts<P> {
    /// The ports alone, where no keeper has a copy. It takes no memory.
    pub fn into_ports(self) -> NamedList<P>
        requires { AreBare self.keepers }
        ensures { result ≡ self.ports }
    {
        let Parts {
            plan: _,
            once: _,
            ports,
            pickers: _,
            keepers,
        } = self;
        end_keepers(keepers);
        ports
    }
}

/// A hub that wasn't made for want of memory, and what it was to be made of.
pub struct NewRefused<P> {
    pub parts: Parts<P>,
}
