ghost use Rattle.std.specs.Prelude.{◌≡◌, [], ◌∷◌, map, IfOk, IfSome, IfNone};
ghost use Rattle.vx_value.specs.Values.{named_datum};

use std::alloc::Global;
use vx_value::{Field, WantOfMemory};

// The first field of what fields are merged to, and what is left to merge of both sides.
#[derive(Drop)]
pub(crate) struct MergeStep<'a> {
    pub(crate) field: Field,
    pub(crate) group: &'a [Field],
    pub(crate) event: &'a [Field],
}

// The step by which a group's first field stays as it is. `None` exactly where the group has none.
pub(crate) fn keep<'a>(
    alloc: Global,
    group: &'a [Field],
    event: &'a [Field],
) -> Result<Option<MergeStep<'a>>, WantOfMemory>
    ensures some { IfOk result
        (λ step. IfSome step
        (λ step. map named_datum group.now ≡ named_datum step.field
        ∷ map named_datum step.group.now)) }
    ensures event { IfOk result (λ step. IfSome step (λ step. step.event.now ≡ event.now)) }
    ensures none { IfOk result (λ step. IfNone step (group.now ≡ [])) }
{
    let [first, rest @ ..] = group else {
        return Ok(None);
    };
    let field = first.copy(alloc)?;
    Ok(Some(MergeStep {
        field,
        group: rest,
        event,
    }))
}
