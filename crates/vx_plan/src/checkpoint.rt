ghost use Rattle.std.specs.Prelude.{◌≡◌, ◌++◌, IfOk, OnOk, string_bytes};
ghost use Rattle.vx_plan.specs.Ports.{ends_in_slash, checkpoint_path};

use std::alloc::Global;
use vx_value::{Text, WantOfMemory};

/// The path of the checkpoint of a source: in a folder, under the name of the source.
pub(crate) fn checkpoint_path(alloc: Global, folder: &str, name: &str) -> Result<Text, WantOfMemory>
    ensures { IfOk result (λ path. path ≡ checkpoint_path folder.now name.now) }
{
    let mut path = String::new(alloc);
    push(&mut path, folder)?;
    if !ends_in_slash(folder) {
        push(&mut path, "/")?;
    }
    push(&mut path, name)?;
    push(&mut path, ".checkpoint.json")?;
    Text::copy_of(alloc, path.as_str())
}

/// Whether a slash stands at the end of a text.
fn ends_in_slash(text: &str) -> bool
    ensures { result ≡ ends_in_slash text.now }
{
    match text.as_bytes().last() {
        Some(byte) => *byte == b'/',
        None => false,
    }
}

/// Adds a part to a path.
fn push(path: &mut String, part: &str) -> Result<(), WantOfMemory>
    ensures { OnOk result (string_bytes path.new ≡ string_bytes path.old ++ part.now) }
{
    match path.push_str(part) {
        Ok(()) => Ok(()),
        Err(_) => Err(WantOfMemory),
    }
}
