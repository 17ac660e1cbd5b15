// The lists of one copy each that a birth makes.
ghost use Rattle.std.specs.Prelude.{◌≡◌, ◌+◌, ◌^◌, ◌≤◌, IfOk};
ghost use Rattle.vx_ledger.specs.Copies.{numbered, each_alone};

use crate::finalizers::Finalizers;
use std::alloc::Global;
use vx_value::WantOfMemory;

// The first `n` copies of the batch that begins at the number `first`, each in a list of its own.
pub(crate) fn each_numbered(
    alloc: Global,
    first: u64,
    n: u32,
) -> Result<Vec<Finalizers>, WantOfMemory>
    requires { first + n ≤ 2 ^ 63 }
    ensures { IfOk result (λ lists. lists.items ≡ each_alone (numbered n first first first)) }
{
    let mut lists = Vec::with_capacity(alloc, n as usize)?;
    for i in 0..n {
        lists.push_reserved(Finalizers::alone(alloc, first, first + u64::from(i)));
    }
    Ok(lists)
}
