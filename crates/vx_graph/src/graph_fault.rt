use vx_value::{Text, TextList, WantOfMemory};

/// Why a graph is refused. Each comes only where none that stands before it here does.
#[derive(Drop)]
pub enum GraphFault {
    /// No component is a source.
    NoSources,
    /// No component is a sink.
    NoSinks,
    /// A transform or sink has no input; of several the least by the bytes of its name.
    NoInputs(Text),
    /// An input means no output: of the least component by the bytes of its name the first.
    UnknownInput { name: Text, input: Text },
    /// Distinct components, each read by the next and the last by the first, beginning with the least.
    Cycle(TextList),
    /// No memory was found.
    WantOfMemory,
}

impl From<WantOfMemory> for GraphFault {
    ghost use Rattle.vx_graph.specs.declared.graph_fault.GraphFault.TheVariants.{WantOfMemory};
    ghost use Rattle.std.specs.Prelude.{◌≡◌};

    ghost from_gives = { λ _ fault. fault ≡ WantOfMemory };

    fn from(_want: WantOfMemory) -> GraphFault {
        GraphFault::WantOfMemory
    }
}
