ghost use Rattle.std.specs.Prelude.{◌≡◌};
ghost use Rattle.vx_reading.specs.Options.{kind_class};

use vx_plan::Class;

/// What a component is: the meaning of its `type`.
#[derive(Clone, Copy, PartialEq, Eq, Debug)]
pub(crate) enum Kind {
    /// A source that reads standard input.
    Stdin,
    /// A source that reads a file.
    FileIn,
    /// A source that makes its lines of some texts.
    DemoLogs,
    /// A transform that passes what its condition accepts.
    Filter,
    /// A transform that puts events out by conditions.
    Route,
    /// A transform that passes one of some events.
    Sample,
    /// A transform that discards repeats.
    Dedupe,
    /// A transform that merges events into groups.
    Reduce,
    /// A transform that is handed in.
    Host,
    /// A sink that writes to standard output or standard error.
    Console,
    /// A sink that appends to a file.
    FileOut,
    /// A sink that writes nothing.
    Blackhole,
}

impl Kind {
    /// The class in whose table the type stands.
    pub(crate) fn class(self) -> Class
        ensures { result ≡ kind_class self }
    {
        match self {
            Kind::Stdin | Kind::FileIn | Kind::DemoLogs => Class::Source,
            Kind::Filter | Kind::Route | Kind::Sample | Kind::Dedupe | Kind::Reduce | Kind::Host =>
                Class::Transform,
            Kind::Console | Kind::FileOut | Kind::Blackhole => Class::Sink,
        }
    }
}
