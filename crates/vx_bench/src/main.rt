//! The program `vx_bench`: it cuts, reads or copies what standard input brings, or judges a plan of many layers, so that this can be timed.
#![tactic(auto)]

mod batch;
mod bench_fault;
mod layers;
mod run;
mod task;

use bench_fault::BenchFault;
use run::run;
use std::env;
use std::process::ExitCode;
use task::Task;

/// What the program is asked for. `None` where the words are no task.
fn asked(rt: &HostRuntime) -> Option<Task> {
    match env::args(rt) {
        Ok(words) => {
            let mut words = words.skip(1);
            let word = words.next()?;
            Task::named(word.as_str())
        }
        Err(_) => None,
    }
}

/// Does the task that the words name.
fn main(rt: HostRuntime) -> ExitCode {
    let done = match asked(&rt) {
        Some(task) => run(&rt, task),
        None => Err(BenchFault::Usage),
    };
    match done {
        Ok(()) => ExitCode::SUCCESS,
        Err(fault) => {
            let _ = eprintln!(&rt; "vx_bench: {fault}");
            ExitCode::from(fault.status())
        }
    }
}
