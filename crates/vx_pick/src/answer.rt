// What becomes of a parcel.
ghost use Rattle.std.specs.Prelude.{◌≡◌, ◌<◌, ◌^◌, ℕ, List, [], OnOk, OnErr, IfErr, if◌then◌else◌};
ghost use Rattle.vx_record.specs.Transforms.{port_bits};
ghost use Rattle.vx_transform.specs.Moves.{Moves};
ghost use Rattle.vx_pick.specs.Answers.{answered_on};

use vx_ledger::Parcel;
use vx_transform::{Back, Shelf};

// The bits of the ports on which a transform with one port puts an event out: that of port 0 where it passes, and elsewhere none.
pub(crate) fn bits_for(passes: bool) -> u128
    ensures { result ≡ (if passes then 1 else 0) }
{
    if passes { 1 } else { 0 }
}

// Puts a parcel out on the ports whose bits are set, or discards it where none is.
pub(crate) fn answer(shelf: &mut Shelf, ports: u128, parcel: Parcel) -> Result<(), Back>
    ensures answered { OnOk result
        ((named : List ℕ) → ports ≡ port_bits named →
        shelf.new ≡ answered_on named shelf.old parcel) }
    ensures moves { OnOk result
        ((count : ℕ) → ports < 2 ^ count → Moves count parcel.finalizers [] shelf.old shelf.new) }
    ensures err { OnErr result (shelf.new ≡ shelf.old) }
    ensures back { IfErr result (λ refused. refused.parcel ≡ parcel) }
{
    if ports == 0 {
        shelf.discard(parcel)
    } else {
        shelf.put(ports, parcel)
    }
}
