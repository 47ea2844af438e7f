//! Runs of the whole program, as case files name them: what a run must write and its status stand there, and are compared
//! with what came. Its files, output, wire, clock and gate lie in memory, or are those of the system. Each argument is the name
//! of a case file; the head of the first one says how such a file is written.
#![tactic(auto)]

mod answered_wire;
mod case_files;
mod cues;
mod fault;
mod fields;
mod making;
mod message;
mod named;
mod noted_gate;
mod noted_wire;
mod octets;
mod outcome;
mod records;
mod runner;
mod shape;
mod tally;
mod terms;
mod turning_files;

use case_files::CaseFiles;
use fault::Fault;
use std::process::ExitCode;
use std::{env, fs};

/// Reads the case files that the arguments name, one after the other, and answers whether each could be followed.
fn read_all(rt: &HostRuntime, case_files: &mut CaseFiles) -> Result<bool, Fault> {
    let mut is_well = true;
    for name in env::args(rt)?.skip(1) {
        is_well = read_one(rt, case_files, name.as_str()).is_ok() && is_well;
    }
    Ok(is_well)
}

fn read_one(rt: &HostRuntime, case_files: &mut CaseFiles, name: &str) -> Result<(), Fault> {
    let text = fs::read_to_string(rt, name)?;
    case_files.read(rt, name, text.as_str())
}

fn main(rt: HostRuntime) -> ExitCode {
    let mut case_files = CaseFiles::new(rt.alloc());
    match read_all(&rt, &mut case_files) {
        Ok(true) => ExitCode::SUCCESS,
        _ => ExitCode::FAILURE,
    }
}
