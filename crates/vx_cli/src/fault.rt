ghost use Rattle.std.specs.Prelude.{◌≡◌};
ghost use Rattle.vx_cli.specs.Statuses.{status_of};

use vx_graph::GraphFault;
use vx_reading::PlanFault;
use vx_value::Text;

/// Why a run didn't end well.
#[derive(Drop)]
pub enum Fault {
    /// The words are no command.
    Usage,
    /// The configuration at that path wasn't read.
    ConfigRead { path: Text },
    /// The configuration was read, and isn't accepted.
    ConfigRefused(PlanFault),
    /// That name of a `host` component has no unused transform that the program hands in. Of several such names it is the least in byte
    /// order.
    UnknownHost(Text),
    /// The numbers of copies are used up: `next` is the next one, and `wanted` more were asked for.
    Numbers { next: u64, wanted: u64 },
    /// The port of that source failed after it had taken `at` bytes.
    SourceFailed { name: Text, at: u64 },
    /// The last confirm that was due at that source failed.
    ConfirmFailed { name: Text },
    /// What a configuration was judged to be, or what the instances of a run counted, couldn't be printed to standard output.
    PrintFailed,
    /// No memory was found.
    WantOfMemory,
}

impl Fault {
    /// The exit status of a run that ends with this fault, by the numbers of BSD's `sysexits`.
    pub fn status(&self) -> u8
        ensures { result ≡ status_of self.now }
    {
        match self {
            Fault::Usage => 64,
            Fault::SourceFailed { name: _, at: _ } => 69,
            Fault::Numbers { next: _, wanted: _ } => 70,
            Fault::WantOfMemory => 71,
            Fault::ConfigRead { path: _ } => 74,
            Fault::ConfirmFailed { name: _ } => 74,
            Fault::PrintFailed => 74,
            Fault::ConfigRefused(PlanFault::WantOfMemory) => 71,
            Fault::ConfigRefused(PlanFault::Graph(GraphFault::WantOfMemory)) => 71,
            Fault::ConfigRefused(_) => 78,
            Fault::UnknownHost(_) => 78,
        }
    }
}
