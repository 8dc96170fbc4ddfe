//! The generalized planner `bfgp`: searches for a smallest program that solves planning instances, and
//! runs programs on them.
#![tactic(auto)]

use bfgp_jobs::run_process;
use bfgp_outside::{RealShelf, RealSink};
use std::process::ExitCode;
use std::{env, io};

fn main(rt: HostRuntime) -> ExitCode {
    let mut shelf = RealShelf::new(&rt);
    let mut sink = RealSink::new(&rt);
    run_process(rt.alloc(), words(&rt), &mut shelf, &mut sink)
}

// The words of the command, without the program's own name.
fn words(rt: &(impl std::rt::Env + AllocGlobal)) -> io::Result<Vec<String>> {
    env::args(rt)?
        .skip(1)
        .collect(rt.alloc())
        .map_err(io::Error::from)
}
