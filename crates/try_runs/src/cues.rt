//! What comes at the gate of a run, and what its readings find.

use crate::fault::Fault;
use crate::fields::{halves, number, word_of};
use crate::named::NamedFiles;
use crate::octets::Octets;
use fs_base::{Address, Cue, Held, MemGate};
use std::alloc::Global;

/// What comes: a connection from an address of IPv4, one that was dialled, octets of one, its end, or nothing.
#[derive(Drop)]
enum Coming {
    Taken { line: u64, from: u32 },
    Made { line: u64 },
    Gave { line: u64, octets: Octets },
    Ended { line: u64 },
    Nothing,
}

/// What comes, at a moment and a time.
#[derive(Drop)]
struct Timed {
    moment: u64,
    time: u64,
    coming: Coming,
}

/// What comes at a gate, in order, and what its readings find: the octets of a file, or none.
#[derive(Drop)]
pub struct Cues {
    list: Vec<Timed>,
    readings: Vec<Option<Octets>>,
}

impl Cues {
    /// Nothing comes.
    pub fn new(alloc: Global) -> Cues {
        Cues {
            list: Vec::new(alloc),
            readings: Vec::new(alloc),
        }
    }

    /// One more: its moment, its time, and what it is.
    pub fn add(&mut self, named: &NamedFiles, rest: &str) -> Result<(), Fault> {
        let (moment, rest) = word_of(rest)?;
        let (time, rest) = word_of(rest)?;
        let (moment, time) = (number(moment)?, number(time)?);
        let coming = coming_of(named, rest)?;
        self.list.push(Timed {
            moment,
            time,
            coming,
        })?;
        Ok(())
    }

    /// One reading more: it finds the file of this name, or none where the name is empty.
    pub fn hold(&mut self, named: &NamedFiles, name: &str) -> Result<(), Fault> {
        if name.is_empty() {
            self.readings.push(None)?;
            return Ok(());
        }
        let octets = named.octets(name);
        octets.check()?;
        self.readings.push(Some(octets))?;
        Ok(())
    }

    /// A gate at which this comes. Its calls of these numbers fail.
    pub fn gate(&self, alloc: Global, failing: Vec<u64>) -> Result<MemGate, Fault> {
        let mut gate = MemGate::new(alloc, failing);
        match self.fill(alloc, &mut gate) {
            Ok(()) => Ok(gate),
            Err(fault) => Err(fault),
        }
    }

    fn fill(&self, alloc: Global, gate: &mut MemGate) -> Result<(), Fault> {
        fill(alloc, &self.list, gate)?;
        for reading in &self.readings {
            if gate.hold(held(alloc, reading)?).is_err() {
                return Err(Fault::Memory);
            }
        }
        Ok(())
    }
}

fn held(alloc: Global, reading: &Option<Octets>) -> Result<Held, Fault> {
    match reading {
        Some(octets) => Ok(Held::Octets(Vec::from_slice(alloc, octets.as_slice())?)),
        None => Ok(Held::Absent),
    }
}

fn fill(alloc: Global, list: &[Timed], gate: &mut MemGate) -> Result<(), Fault> {
    for timed in list {
        let cue = cue_of(alloc, &timed.coming)?;
        if gate.cue(timed.moment, timed.time, cue).is_err() {
            return Err(Fault::Memory);
        }
    }
    Ok(())
}

fn cue_of(alloc: Global, coming: &Coming) -> Result<Cue, Fault> {
    match coming {
        Coming::Taken { line, from } => Ok(Cue::Taken {
            line: *line,
            from: Address::V4(*from),
        }),
        Coming::Made { line } => Ok(Cue::Made { line: *line }),
        Coming::Gave { line, octets } => Ok(Cue::Octets {
            line: *line,
            octets: Vec::from_slice(alloc, octets.as_slice())?,
        }),
        Coming::Ended { line } => Ok(Cue::Ended { line: *line }),
        Coming::Nothing => Ok(Cue::Nothing),
    }
}

/// `took LINE ADDRESS`, `made LINE`, `gave LINE OCTETS`, `ended LINE` or `nothing`.
fn coming_of(named: &NamedFiles, text: &str) -> Result<Coming, Fault> {
    let (word, rest) = halves(text);
    match word {
        "took" => taken(named, rest),
        "made" => Ok(Coming::Made {
            line: number(rest)?,
        }),
        "gave" => gave(named, rest),
        "ended" => Ok(Coming::Ended {
            line: number(rest)?,
        }),
        "nothing" => Ok(Coming::Nothing),
        _ => Err(Fault::NoWord),
    }
}

fn taken(named: &NamedFiles, rest: &str) -> Result<Coming, Fault> {
    let (line, field) = word_of(rest)?;
    let line = number(line)?;
    match named.octets(field).as_slice() {
        [a, b, c, d] => Ok(Coming::Taken {
            line,
            from: u32::from_be_bytes([*a, *b, *c, *d]),
        }),
        _ => Err(Fault::NoField),
    }
}

fn gave(named: &NamedFiles, rest: &str) -> Result<Coming, Fault> {
    let (line, field) = word_of(rest)?;
    let line = number(line)?;
    let octets = named.octets(field);
    match octets.check() {
        Ok(()) => Ok(Coming::Gave { line, octets }),
        Err(fault) => Err(fault),
    }
}
