//! What holds of the states beside their calls. The function does nothing: what it ensures is proved.

ghost use Rattle.vx_instances.specs.Laws.{AsideKnown, GivenUpKnown, NoticedAll, ConfirmDue, StaysKnown};

use vx_ends::Port;

/// Entries of which no state keeps anything leave what is known, and so does the spend of a copy that is given up and isn't held. All
/// batches of an instance have their notice exactly where none is counted without. Where an instance is unleased, all that it owes
/// is known and done, and the run isn't given up, a confirm is due exactly where it has a device and something is to be confirmed.
/// What is known of an instance beside the record stays known behind a call that leaves it.
pub fn states_laws<P: Port>()
    ensures aside { AsideKnown P.observed }
    ensures given_up { GivenUpKnown P.observed }
    ensures noticed { NoticedAll P.observed }
    ensures due { ConfirmDue P.observed }
    ensures stays { StaysKnown P.observed }
{}
