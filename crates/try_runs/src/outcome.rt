//! One run, and how it ended.

use crate::answered_wire::{AnsweredWire, Peer};
use crate::fault::Fault;
use crate::fields::size;
use crate::named::NamedFiles;
use crate::noted_gate::NotedGate;
use crate::noted_wire::NotedWire;
use crate::octets::Octets;
use crate::terms::Terms;
use crate::turning_files::TurningFiles;
use fs_base::{
    CalmGate, MemClock, MemFiles, MemSink, MemWire, RealClock, RealFiles, RealOut, RealWire, Wire,
};
use fs_cli::{run_live, run_live_within};
use std::alloc::Global;
use std::fs;

/// More than any run writes through an end of the wire.
const ROOM: usize = 1 << 20;

/// The file that a run over the real outside writes.
const WRITTEN: &str = "written";

/// How a run ended: its status, what it wrote, what it wrote through each end of the wire, its calls on the wire, and what
/// it asked of the gate.
#[derive(Drop)]
pub struct Outcome {
    pub status: u8,
    pub written: Octets,
    pub first: Octets,
    pub second: Octets,
    pub called: Octets,
    pub asked: Octets,
}

/// Adds the files that the words name.
fn add_files(
    alloc: Global,
    named: &NamedFiles,
    words: &[String],
    files: &mut MemFiles,
) -> Result<(), Fault> {
    for word in words {
        add_file(alloc, named, word.as_str(), files)?;
    }
    Ok(())
}

/// Adds the file of this name, if there is one.
fn add_file(
    alloc: Global,
    named: &NamedFiles,
    name: &str,
    files: &mut MemFiles,
) -> Result<(), Fault> {
    let Some(content) = named.content(name) else {
        return Ok(());
    };
    match files.add(name, Vec::from_slice(alloc, content)?) {
        Ok(()) => Ok(()),
        Err(_) => Err(Fault::Memory),
    }
}

/// Runs the words over the files that they name, with output, a wire, a clock and a gate in memory.
pub fn run_in_memory(
    alloc: Global,
    named: &NamedFiles,
    words: &[String],
    terms: &Terms,
) -> Result<Outcome, Fault> {
    let mut files = MemFiles::new(alloc, Vec::from_slice(alloc, &terms.failing.files)?);
    files.narrow(size(terms.most.read).max(1));
    add_files(alloc, named, words, &mut files)?;
    let other = terms.turn.other.as_str();
    add_file(alloc, named, other, &mut files)?;
    let mut files = TurningFiles::new(files, terms.turn.name.as_str(), other);
    run_over_files(alloc, words, terms, &mut files)
}

fn run_over_files(
    alloc: Global,
    words: &[String],
    terms: &Terms,
    files: &mut TurningFiles<'_, MemFiles>,
) -> Result<Outcome, Fault> {
    let failing = Vec::from_slice(alloc, &terms.failing.output)?;
    let Ok(mut sink) = MemSink::new(alloc, size(terms.room), failing) else {
        return Err(Fault::Memory);
    };
    sink.narrow(size(terms.most.written).max(1));
    run_into_sink(alloc, words, terms, files, &mut sink)
}

fn run_into_sink(
    alloc: Global,
    words: &[String],
    terms: &Terms,
    files: &mut TurningFiles<'_, MemFiles>,
    sink: &mut MemSink,
) -> Result<Outcome, Fault> {
    let failing = Vec::from_slice(alloc, &terms.failing.wire)?;
    let Ok(mut wire) = MemWire::new(alloc, ROOM, failing) else {
        return Err(Fault::Memory);
    };
    wire.narrow(size(terms.most.moved).max(1));
    let given = give(alloc, terms, &mut wire);
    let mut wire = NotedWire::new(alloc, wire);
    match given {
        Ok(()) => run_over_wire(alloc, words, terms, files, sink, &mut wire),
        Err(fault) => Err(fault),
    }
}

fn give(alloc: Global, terms: &Terms, wire: &mut MemWire) -> Result<(), Fault> {
    wire.give(0, Vec::from_slice(alloc, terms.first.given.as_slice())?);
    wire.give(1, Vec::from_slice(alloc, terms.second.given.as_slice())?);
    Ok(())
}

fn run_over_wire(
    alloc: Global,
    words: &[String],
    terms: &Terms,
    files: &mut TurningFiles<'_, MemFiles>,
    sink: &mut MemSink,
    noted: &mut NotedWire<MemWire>,
) -> Result<Outcome, Fault> {
    let mut clock = MemClock::new(Vec::from_slice(alloc, &terms.moments)?);
    let limit = terms.limit.max(1);
    let failing = Vec::from_slice(alloc, &terms.failing.gate)?;
    let mut gate = NotedGate::new(alloc, terms.cues.gate(alloc, failing)?);
    let status = run_live_within(
        alloc, words, limit, files, sink, noted, &mut clock, &mut gate,
    );
    let mut outcome = Outcome::new(alloc, status);
    outcome.note(sink.text(), noted);
    outcome.asked.append(gate.asked.as_slice());
    noted.calls.check()?;
    gate.asked.check()?;
    Ok(outcome)
}

impl Outcome {
    /// A run that ended with this status and wrote nothing.
    fn new(alloc: Global, status: u8) -> Outcome {
        Outcome {
            status,
            written: Octets::new(alloc),
            first: Octets::new(alloc),
            second: Octets::new(alloc),
            called: Octets::new(alloc),
            asked: Octets::new(alloc),
        }
    }

    /// What it wrote, and its calls on the wire.
    fn note(&mut self, written: &[u8], noted: &NotedWire<MemWire>) {
        self.written.append(written);
        self.first.append(noted.wire.written(0));
        self.second.append(noted.wire.written(1));
        self.called.append(noted.calls.as_slice());
    }
}

/// Writes the files that the words name to the folder that the program runs in.
fn write_files(rt: &HostRuntime, named: &NamedFiles, words: &[String]) -> Result<(), Fault> {
    for word in words {
        if let Some(content) = named.content(word.as_str()) {
            fs::write(rt, word.as_str(), content)?;
        }
    }
    Ok(())
}

/// Runs the words over the files of the system, into a file, with the clock of the system and over this wire, beside a gate
/// at which nothing comes.
fn run_for_real<W: Wire>(rt: &HostRuntime, words: &[String], wire: &mut W) -> Result<u8, Fault> {
    let mut out = RealOut::new(fs::create(rt, WRITTEN)?);
    let mut files = RealFiles::new(rt.alloc(), rt);
    let mut clock = RealClock::new(rt);
    let (files, out, clock) = (&mut files, &mut out, &mut clock);
    Ok(run_live(
        rt.alloc(),
        words,
        files,
        out,
        wire,
        clock,
        &mut CalmGate::new(),
    ))
}

/// The same in a folder in which the files that the words name stand. Of what goes through a connection what a peer in the
/// same thread hears is seen.
fn run_through<W: Wire>(
    rt: &HostRuntime,
    named: &NamedFiles,
    words: &[String],
    wire: &mut AnsweredWire<'_, W>,
) -> Result<Outcome, Fault> {
    write_files(rt, named, words)?;
    let status = run_for_real(rt, words, wire)?;
    wire.check()?;
    let written = fs::read(rt, WRITTEN)?;
    let mut outcome = Outcome::new(rt.alloc(), status);
    outcome.written.append(&written);
    wire.tell(&mut outcome.second, &mut outcome.called);
    Ok(outcome)
}

/// Runs the words over the real outside, in which the files that they name stand, with this peer at the other end of the
/// connection, if there is one.
pub fn run_outside(
    rt: &HostRuntime,
    named: &NamedFiles,
    words: &[String],
    peer: Option<Peer>,
) -> Result<Outcome, Fault> {
    let mut wire = RealWire::new(rt);
    run_through(rt, named, words, &mut AnsweredWire::new(&mut wire, peer))
}

/// Runs the words, and behind them the address of a peer that gives what the terms say, over the real outside: what the
/// peer heard to the connection's end is seen.
pub fn run_dialling(
    rt: &HostRuntime,
    named: &NamedFiles,
    words: &[String],
    terms: &Terms,
) -> Result<Outcome, Fault> {
    let peer = Peer::new(rt, terms)?;
    let mut dialling = Vec::new(rt.alloc());
    match append_dialling(words, &peer, &mut dialling) {
        Ok(()) => run_outside(rt, named, &dialling, Some(peer)),
        Err(fault) => Err(fault),
    }
}

/// The words, and behind them the peer's address.
fn append_dialling(words: &[String], peer: &Peer, made: &mut Vec<String>) -> Result<(), Fault> {
    for word in words {
        made.push(word.clone()?)?;
    }
    made.push(peer.address()?)?;
    Ok(())
}
