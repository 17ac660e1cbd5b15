// What every spend has in common: its entry, and the notice of its batch directly behind where that is due.
ghost use Rattle.std.specs.Prelude.{◌≡◌, ◌∷◌, true, length};
ghost use Rattle.vx_record.specs.declared.entry.Entry.TheVariants as entry;
ghost use Rattle.vx_record.specs.Legal.{IsLegal};
ghost use Rattle.vx_record.specs.Tallies.{is_batch_of};
ghost use Rattle.vx_balance.specs.Balances.{Balances};
ghost use Rattle.vx_balance.specs.Owned.{IsOfBatch};
ghost use Rattle.vx_instances.specs.Knowing.{Knows};
ghost use Rattle.vx_instances.specs.Staying.{EachState, Stays};
ghost use Rattle.vx_moves.specs.Spends.{IsSettled};

use vx_balance::Balance;
use vx_ends::Port;
use vx_history::History;
use vx_instances::InstanceStates;
use vx_ledger::{Finalizer, Notice};
use vx_record::Entry;
use vx_status::Outcome;

// Notes the spend of a copy that was taken from its place, of which the states know, and the notice of its batch where it was the
// last live one of that.
pub(crate) fn settle<P: Port>(
    states: &mut InstanceStates<P>,
    balance: &mut Balance,
    log: &mut History<Entry>,
    i: u32,
    copy: Finalizer,
    outcome: Outcome,
)
    requires of_batch { IsOfBatch log.old copy }
    requires legal { IsLegal (entry.Spent i copy.number outcome ∷ log.old) }
    requires balances { Balances balance.old log.old }
    requires knows { Knows P.observed states.old (entry.Spent i copy.number outcome ∷ log.old) }
    ensures settled { IsSettled P.observed
        (entry.Spent i copy.number outcome) log.old log.new balance.new states.new }
    ensures size { length states.new ≡ length states.old }
    ensures stays { EachState Stays states.old states.new }
{
    log.note(&(i, &copy, outcome));
    match balance.spend(copy, outcome) {
        Some(notice) => give_notice(states, log, notice),
        None => {}
    }
}

// Notes a notice that is due, and tells it to the instance that created the batch.
fn give_notice<P: Port>(states: &mut InstanceStates<P>, log: &mut History<Entry>, notice: Notice)
    requires creator { is_batch_of log.old notice.instance notice.batch ≡ true }
    requires legal { IsLegal (entry.Notice notice.batch notice.status ∷ log.old) }
    requires knows { Knows P.observed states.old log.old }
    ensures noted { log.new ≡ entry.Notice notice.batch notice.status ∷ log.old }
    ensures knows { Knows P.observed states.new log.new }
    ensures size { length states.new ≡ length states.old }
    ensures stays { EachState Stays states.old states.new }
{
    log.note(&notice);
    states.noticed(notice);
}
