//! The program `vector`: it runs a pipeline between the real ends of this process.
#![tactic(auto)]

mod environment;
mod words;

use std::process::ExitCode;
use vx_ends_os::{HeldStreams, OsClock, OsPrinter, OsWorld};
use vx_keeping::{HostList, HostTransform, Hosted, Numbering};
use vx_value::Text;

/// The status where not even the words, the environment or the transforms that are handed in find memory.
const WANT_OF_MEMORY: u8 = 71;

/// Runs what the words ask for, and ends with the status of that run.
fn main(rt: HostRuntime) -> ExitCode {
    let _held = HeldStreams::new(rt);
    let alloc = rt.alloc();
    let Ok(words) = words::read(&rt, alloc) else {
        return ExitCode::from(WANT_OF_MEMORY);
    };
    let Ok(environment) = environment::read(&rt, alloc) else {
        return ExitCode::from(WANT_OF_MEMORY);
    };
    let Ok(name) = Text::copy_of(alloc, "numbering") else {
        return ExitCode::from(WANT_OF_MEMORY);
    };
    let Ok(numbering) = Box::new(alloc, Hosted::new(Numbering::new())) else {
        return ExitCode::from(WANT_OF_MEMORY);
    };
    let mut hosts = HostList::new(alloc);
    let Ok(()) = hosts.push(HostTransform::new(name, numbering)) else {
        return ExitCode::from(WANT_OF_MEMORY);
    };
    let world = OsWorld::new(rt);
    let clock = OsClock::new(rt);
    let mut out = OsPrinter::new(rt, false);
    let mut err = OsPrinter::new(rt, true);
    let ended = vx_run::vector(
        &rt,
        alloc,
        &words,
        &environment,
        world,
        &clock,
        hosts,
        &mut out,
        &mut err,
    );
    ExitCode::from(ended.status)
}
