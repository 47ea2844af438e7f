//! Welgutan: a controller and packet enforcer for BGP Flow Specification.
#![tactic(auto)]

use fs_base::{RealClock, RealFiles, RealGate, RealOut, RealWire};
use fs_cli::{run_live, status};
use std::env;
use std::io::ErrorKind;
use std::process::ExitCode;

fn main(rt: HostRuntime) -> ExitCode {
    let alloc = rt.alloc();
    let words = match env::args(&rt) {
        Ok(words) => words.skip(1).collect::<Vec<String>>(alloc),
        Err(error) if error.kind() == ErrorKind::OutOfMemory => return ExitCode::from(
            status::MEMORY,
        ),
        Err(_) => return ExitCode::from(status::NO_COMMAND),
    };
    let Ok(words) = words else {
        return ExitCode::from(status::MEMORY);
    };
    let mut files = RealFiles::new(alloc, &rt);
    let mut out = RealOut::new(rt.stdout());
    let mut wire = RealWire::new(&rt);
    let mut clock = RealClock::new(&rt);
    let mut gate = RealGate::new(alloc, &rt);
    ExitCode::from(run_live(
        alloc, &words, &mut files, &mut out, &mut wire, &mut clock, &mut gate,
    ))
}
