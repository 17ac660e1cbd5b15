use vx_graph::GraphFault;
use vx_value::{Text, WantOfMemory};

/// Why a text is no configuration. Each comes only where none that stands before it here does.
///
/// A path is the names of the tables and of the option, joined by dots.
#[derive(Drop)]
pub enum PlanFault {
    /// A variable that has no default isn't in the environment: its name, and the place of its `$`, counted in
    /// bytes from 0. Of several it is the first in the text.
    MissingVariable { name: Text, at: u64 },
    /// The text, with its variables replaced, is no TOML document, or the bytes are no UTF-8.
    NotToml,
    /// The type of a component isn't one of its table.
    UnknownKind { path: Text },
    /// There is no such option.
    UnknownOption { path: Text },
    /// An option has to be there and isn't.
    MissingOption { path: Text },
    /// A value isn't what its option takes, or a component's name isn't one.
    BadValue { path: Text },
    /// There are more of something than may be.
    TooMany { path: Text, found: u64, limit: u64 },
    /// The components don't make a graph that may stand.
    Graph(GraphFault),
    /// No memory was found.
    WantOfMemory,
}

impl From<WantOfMemory> for PlanFault {
    ghost use Rattle.vx_reading.specs.declared.plan_fault.PlanFault.TheVariants.{WantOfMemory};
    ghost use Rattle.std.specs.Prelude.{◌≡◌};

    ghost from_gives = { λ _ fault. fault ≡ WantOfMemory };

    fn from(_want: WantOfMemory) -> PlanFault {
        PlanFault::WantOfMemory
    }
}
