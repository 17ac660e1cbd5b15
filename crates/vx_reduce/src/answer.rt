// What becomes of an event.
ghost use Rattle.std.specs.Prelude.{◌≡◌, is_some, OnOk, OnErr, IfErr};
ghost use Rattle.vx_reduce.specs.Groups.{put_all, group_of};
ghost use Rattle.vx_reduce.specs.Answers.{groups_after, outputs_after};

use crate::group::{Ending, pass};
use crate::groups::Groups;
use crate::plan::Plan;
use std::alloc::Global;
use vx_ledger::Finalizers;
use vx_transform::Shelf;

// Does with an event and its copies what was planned. For want of memory the copies come back, and all is as before.
pub(crate) fn answer(
    alloc: Global,
    groups: &mut Groups,
    plan: Plan,
    copies: Finalizers,
    now: u64,
    shelf: &mut Shelf,
) -> Result<(), Finalizers>
    requires { plan.found ≡ is_some (group_of plan.key groups.old) }
    ensures groups { OnOk result
        (groups.new
        ≡ groups_after plan.found plan.starts plan.ends plan.key plan.event copies now groups.old) }
    ensures outputs { OnOk result
        (shelf.new
        ≡ put_all shelf.old
        (outputs_after plan.found plan.starts plan.ends plan.key plan.event copies groups.old)) }
    ensures err { OnErr result (groups.new ≡ groups.old) }
    ensures back { IfErr result (λ refused. refused ≡ copies) }
    ensures shelf { OnErr result (shelf.new ≡ shelf.old) }
{
    let Plan {
        found,
        starts,
        ends,
        key,
        event,
    } = plan;
    if !found {
        return if ends {
            pass(event, copies, shelf)
        } else {
            groups.begin(alloc, key, event, copies, now)
        };
    }
    if starts {
        return if ends {
            groups.put_out_with(&key, Ending::Apart, event, copies, shelf)
        } else {
            groups.restart(key, event, copies, now, shelf)
        };
    }
    if ends {
        groups.put_out_with(&key, Ending::Joined, event, copies, shelf)
    } else {
        groups.join(&key, event, copies, now)
    }
}
