ghost use Rattle.std.specs.Prelude.{◌≡◌, ◌++◌, ◌∷◌, [], OnOk};

use vx_value::{ItemList, WantOfMemory};

/// Adds an item to a list.
pub(crate) fn push<T: Drop>(list: &mut ItemList<T>, item: T) -> Result<(), WantOfMemory>
    ensures { OnOk result (list.new ≡ list.old ++ item ∷ []) }
{
    match list.push(item) {
        Ok(()) => Ok(()),
        Err(_) => Err(WantOfMemory),
    }
}
