//! Public calls, made over ample memory by the names of their crates, with the types of their answers, and what they
//! answer compared; structs are read field by field. The first argument names the table, whose head says how its lines
//! are written, the second one the configuration.
//!
//! `try_runs` makes the other objects of the outside, and calls `run_live_within` and by it `run_within`; `welgutan`
//! calls `run_live`. No program calls `run`.
#![tactic(auto)]

mod call;
mod streams;
mod surface;

ghost use Rattle.std.specs.Prelude.{◌≡◌, ◌<◌};

use call::Call;
use fs_base::{Config, Steps};
use fs_conf::{ConfFault, read_config};
use std::marker::Brand;
use std::sync::ledger::{Blank, Ledger};
use std::{env, fs};
use surface::answer;

/// Makes the calls of the table, and prints how many it has, and each that answers something else than is due.
fn make<'a, L: Ledger>(rt: &HostRuntime, text: &'a str, config: &'a Config, steps: &mut Steps<L>) {
    let (mut calls, mut differ) = (0u64, 0u64);
    let alloc = rt.alloc();
    let mut call = Call {
        alloc,
        config,
        out: Vec::new(alloc),
        told: String::new(alloc),
        rest: "",
    };
    for line in text.lines() {
        if let (false, Some((words, due))) = (line.starts_with('#'), line.split_once(" = ")) {
            call.rest = words;
            call.told.clear();
            let _ = answer(&mut call, steps);
            let came = call.told.trim();
            calls = calls.saturating_add(1);
            differ = differ.saturating_add((came != due).into());
            if came != due {
                let _ = println!(rt; "{words}: expected {due}, came {came}");
            }
        }
    }
    let _ = println!(rt; "{calls} calls, {differ} differ");
}

/// The file that the argument of that number names.
fn file(rt: &HostRuntime, number: usize) -> Option<String> {
    let name = env::args(rt).ok()?.nth(number)?;
    fs::read_to_string(rt, name.as_str()).ok()
}

fn run<L: Ledger>(blank: Blank, rt: &HostRuntime) -> Option<()>
    requires name { blank.name ≡ L.name }
    requires parts { blank.parts ≡ L.parts }
    requires some { 0 < L.parts }
{
    let mut steps = Steps::<L>::new(blank);
    let (text, peers) = (file(rt, 1)?, file(rt, 2)?);
    let config: Result<Config, ConfFault> = read_config(rt.alloc(), peers.as_bytes());
    make(rt, text.as_str(), &config.ok()?, &mut steps);
    Some(())
}

fn main(rt: HostRuntime) {
    let _ = run::<Brand>(Blank::new(1), &rt);
}
