ghost use Rattle.std.specs.Prelude.{◌≡◌, pos, IfOk};
ghost use Rattle.vx_keeping.specs.Numbers.{numbered, IsNumbered};

use std::alloc::Global;
use vx_ledger::{Parcel, SharedEvent};
use vx_transform::{Back, Immediate, Shelf};
use vx_value::{Event, Text, Value, WantOfMemory};

/// A transform that puts into each event, as its field `number`, how many came before it, and puts it out on port 0. The number stays
/// at 2^63 - 1.
#[derive(Drop)]
pub struct Numbering {
    /// The number of the next event.
    pub next: i64,
}

impl Numbering {
    /// One to which no event came yet.
    pub fn new() -> Self
        ensures { result.next ≡ pos 0 }
    {
        Numbering { next: 0 }
    }
}

impl Immediate for Numbering {
    ghost width = { λ _. 1 };

    ghost answers = { λ parcel before behind old new. IsNumbered parcel before behind old.next new.next };

    fn width(&self) -> u32 {
        1
    }

    /// Puts the parcel out on port 0 with its number, and counts it. It copies the event; for want of memory the parcel comes back, and
    /// isn't counted.
    fn answer(&mut self, alloc: Global, parcel: Parcel, shelf: &mut Shelf) -> Result<(), Back> {
        let event = match with_number(alloc, parcel.event.get(), self.next) {
            Ok(event) => event,
            Err(WantOfMemory) => return Err(Back { parcel }),
        };
        let Parcel {
            event: before,
            finalizers,
        } = parcel;
        match shelf.put(1, Parcel { event, finalizers }) {
            Ok(()) => {
                self.next = self.next.saturating_add(1);
                Ok(())
            }
            Err(back) => {
                let Back { parcel } = back;
                let Parcel {
                    event: _,
                    finalizers,
                } = parcel;
                Err(Back {
                    parcel: Parcel {
                        event: before,
                        finalizers,
                    },
                })
            }
        }
    }
}

// A copy of an event with a number.
fn with_number(alloc: Global, event: &Event, number: i64) -> Result<SharedEvent, WantOfMemory>
    ensures { IfOk result (λ shared. shared ≡ numbered number event.now) }
{
    let name = Text::copy_of(alloc, "number")?;
    let mut changed = event.copy(alloc)?;
    changed.fields.put_under(name, Value::Whole(number))?;
    SharedEvent::new(alloc, changed)
}
