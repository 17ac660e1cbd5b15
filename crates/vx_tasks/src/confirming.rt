ghost use Rattle.std.specs.Prelude.{◌≡◌, ℕ, ◌++◌, IfOk, OnErr, IsSome};
ghost use Rattle.vx_record.specs.Records.{Record};
ghost use Rattle.vx_tasks.specs.Observing.{IsObserved};
ghost use Rattle.vx_tasks.specs.Out.{AreDue, IsConfirmedSo, confirm_entries};
ghost use Rattle.vx_tasks.specs.Jobs.{NoneFell, StartsNone};
ghost use Rattle.vx_tasks.specs.declared.landing.Done.{Done};

use vx_ends::{Port, PositionList, Trouble};
use vx_value::WantOfMemory;

/// Positions that were confirmed to a port, if the confirm was `made`; else it failed.
#[derive(Drop)]
pub struct Confirmed {
    pub positions: PositionList,
    pub made: bool,
}

/// Confirms positions to a port, if there are any to confirm. Where no memory is found nothing is confirmed.
pub(crate) fn confirm<P: Port>(
    port: &mut P,
    positions: Option<PositionList>,
) -> Result<Option<Confirmed>, WantOfMemory>
    ensures observed { IfOk result
        (λ confirmed. (h : Record) (i : ℕ) → IsObserved (P.observed port.old) h i →
        IsObserved (P.observed port.new) (confirm_entries i confirmed ++ h) i) }
    ensures short { OnErr result
        ((h : Record) (i : ℕ) → IsObserved (P.observed port.old) h i → IsObserved (P.observed port.new) h i) }
    ensures counts { NoneFell (P.observed port.old) (P.observed port.new) }
    ensures starts { StartsNone (P.observed port.old) (P.observed port.new) }
    ensures started { (P.observed port.new).started ≡ (P.observed port.old).started }
    ensures asked { OnErr result (IsSome positions) }
    ensures due { IfOk result
        (λ confirmed. (h : Record) (i : ℕ) (done : Done) → AreDue h i positions →
        IsConfirmedSo h i done confirmed) }
{
    let Some(positions) = positions else {
        return Ok(None);
    };
    match port.confirm(&positions) {
        Ok(()) => Ok(Some(Confirmed {
            positions,
            made: true,
        })),
        Err(Trouble::WantOfMemory) => Err(WantOfMemory),
        Err(_) => Ok(Some(Confirmed {
            positions,
            made: false,
        })),
    }
}
