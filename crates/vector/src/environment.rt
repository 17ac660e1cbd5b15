use std::alloc::Global;
use std::env::{Env, FillError};
use vx_value::{Text, Variable, VariableList, WantOfMemory};

/// How many bytes of a variable are read at first.
const FIRST_ROOM: usize = 256;

/// The variables of this process, in order.
///
/// One whose bytes aren't UTF-8 is left out, and so is one without a name: no configuration can ask for it.
pub fn read(rt: &HostRuntime, alloc: Global) -> Result<VariableList, WantOfMemory> {
    let mut variables = VariableList::new(alloc);
    for i in 0..usize::MAX {
        let Some(entry) = entry(rt, alloc, i)? else {
            break;
        };
        push(alloc, &mut variables, entry.as_slice())?;
    }
    Ok(variables)
}

/// The bytes of a variable by its place; `None` where there are no more.
fn entry(rt: &HostRuntime, alloc: Global, i: usize) -> Result<Option<Vec<u8>>, WantOfMemory> {
    let mut room = FIRST_ROOM;
    for _ in 0..usize::BITS {
        let mut bytes = Vec::new(alloc);
        bytes.resize(room, 0u8).map_err(|_| WantOfMemory)?;
        match rt.var_at(i, bytes.as_mut_slice()) {
            Ok(length) => {
                bytes.truncate(length);
                return Ok(Some(bytes));
            }
            Err(FillError::NotPresent) => return Ok(None),
            Err(FillError::TooLong) => room = room.saturating_add(room),
        }
    }
    Err(WantOfMemory)
}

/// Adds the variable that `NAME=value` is.
fn push(alloc: Global, variables: &mut VariableList, entry: &[u8]) -> Result<(), WantOfMemory> {
    let Ok(text) = std::str::from_utf8(entry) else {
        return Ok(());
    };
    match text.split_once('=') {
        Some((name, value)) if !name.is_empty() => {
            let variable = Variable {
                name: Text::copy_of(alloc, name)?,
                value: Text::copy_of(alloc, value)?,
            };
            variables.push(variable).map_err(|_| WantOfMemory)
        }
        _ => Ok(()),
    }
}
