use std::alloc::Global;
use std::env;
use std::io::ErrorKind;
use vx_value::{Text, TextList, WantOfMemory};

/// The words that the program was called with, without its own name.
///
/// Where one of them isn't UTF-8 there are none: no words are no command, and so the program says how it is called.
pub fn read(rt: &HostRuntime, alloc: Global) -> Result<TextList, WantOfMemory> {
    let mut words = TextList::new(alloc);
    let args = match env::args(rt) {
        Ok(args) => args,
        Err(error) if error.kind() == ErrorKind::OutOfMemory => return Err(WantOfMemory),
        Err(_) => return Ok(words),
    };
    for arg in args.skip(1) {
        let word = Text::copy_of(alloc, arg.as_str())?;
        words.push(word).map_err(|_| WantOfMemory)?;
    }
    Ok(words)
}
