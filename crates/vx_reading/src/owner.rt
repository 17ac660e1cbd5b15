ghost use Rattle.std.specs.Prelude.{◌≡◌};
ghost use Rattle.vx_reading.specs.Diagnostics.{owner_in};
ghost use Rattle.vx_reading.specs.Views.{owner_view};

use crate::options::section_number;
use vx_plan::Class;

/// The part of a configuration to which a fault belongs.
#[derive(Clone, Copy)]
pub(crate) struct Owner<'a> {
    /// 0 for the global options, 1 for sources, 2 for transforms, 3 for sinks.
    pub section: u8,
    /// The name of the component; empty for what belongs to none.
    pub name: &'a str,
}

/// The owner that has a name in the table of a class.
pub(crate) fn owner_in<'a>(class: Class, name: &'a str) -> Owner<'a>
    ensures { owner_view result ≡ owner_in class name.now }
{
    Owner {
        section: section_number(class),
        name,
    }
}
