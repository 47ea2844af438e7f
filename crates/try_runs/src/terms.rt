//! What a run is given beside its words and files, and what it must answer.

use crate::cues::Cues;
use crate::fault::Fault;
use crate::fields::number;
use crate::octets::Octets;
use std::alloc::Global;

/// A limit above each file.
const AMPLE: u64 = 1 << 40;

/// More than any run writes to its output.
const ROOM: u64 = 200_000;

/// The numbers of the calls that fail.
#[derive(Drop)]
pub struct Failing {
    pub files: Vec<u64>,
    pub output: Vec<u64>,
    pub wire: Vec<u64>,
    pub gate: Vec<u64>,
}

/// A file of another content: from its second opening on the file of this name is that of the other.
#[derive(Drop)]
pub struct Turn {
    pub name: String,
    pub other: String,
}

/// How many octets a call moves at most.
#[derive(Clone, Copy, Drop)]
pub struct Most {
    pub read: u64,
    pub written: u64,
    pub moved: u64,
}

/// What must come, if that is said.
#[derive(Drop)]
pub struct Due {
    pub octets: Octets,
    pub is_said: bool,
}

/// An end of the wire: what it gives, and what must be written through it.
#[derive(Drop)]
pub struct End {
    pub given: Octets,
    pub said: Due,
}

/// What a run is given: the limit, the room of its output, the calls that fail, the most octets of a call, what the clock
/// answers, a file of another content, the ends of the wire and what comes at the gate. And what it must write, the calls
/// that it must make on the wire, what it must ask of the gate, and the status that is due where calls fail in turn.
#[derive(Drop)]
pub struct Terms {
    pub limit: u64,
    pub room: u64,
    pub due: u64,
    pub most: Most,
    pub failing: Failing,
    pub moments: Vec<u64>,
    pub turn: Turn,
    pub first: End,
    pub second: End,
    pub called: Due,
    pub cues: Cues,
    pub asked: Due,
    pub written: Octets,
}

impl Failing {
    /// No call fails.
    pub fn new(alloc: Global) -> Failing {
        Failing {
            files: Vec::new(alloc),
            output: Vec::new(alloc),
            wire: Vec::new(alloc),
            gate: Vec::new(alloc),
        }
    }
}

impl Due {
    /// It isn't said.
    fn new(alloc: Global) -> Due {
        Due {
            octets: Octets::new(alloc),
            is_said: false,
        }
    }

    /// More of it.
    pub fn open(&mut self) -> &mut Octets {
        self.is_said = true;
        &mut self.octets
    }
}

impl End {
    /// It gives nothing, and what is written through it isn't said.
    fn new(alloc: Global) -> End {
        End {
            given: Octets::new(alloc),
            said: Due::new(alloc),
        }
    }
}

impl Terms {
    /// An ample limit and room, no call that fails, ends that give nothing, and a clock that stands at 0; nothing is to be
    /// written.
    pub fn new(alloc: Global) -> Terms {
        Terms {
            limit: AMPLE,
            room: ROOM,
            due: 0,
            most: Most {
                read: u64::MAX,
                written: u64::MAX,
                moved: u64::MAX,
            },
            failing: Failing::new(alloc),
            moments: Vec::new(alloc),
            turn: Turn {
                name: String::new(alloc),
                other: String::new(alloc),
            },
            first: End::new(alloc),
            second: End::new(alloc),
            called: Due::new(alloc),
            cues: Cues::new(alloc),
            asked: Due::new(alloc),
            written: Octets::new(alloc),
        }
    }

    /// Sets the number of this word, or adds it to those of the word. Answers whether the word is that of a number.
    pub fn set(&mut self, word: &str, digits: &str) -> Result<bool, Fault> {
        if let Some(place) = self.number(word) {
            *place = number(digits)?;
            return Ok(true);
        }
        if let Some(list) = self.list(word) {
            list.push(number(digits)?)?;
            return Ok(true);
        }
        Ok(false)
    }

    fn number(&mut self, word: &str) -> Option<&mut u64> {
        match word {
            "limit" => Some(&mut self.limit),
            "room" => Some(&mut self.room),
            "due" => Some(&mut self.due),
            "narrow" => Some(&mut self.most.moved),
            "narrow_files" => Some(&mut self.most.read),
            "narrow_output" => Some(&mut self.most.written),
            _ => None,
        }
    }

    fn list(&mut self, word: &str) -> Option<&mut Vec<u64>> {
        match word {
            "fail_file" => Some(&mut self.failing.files),
            "fail_write" => Some(&mut self.failing.output),
            "fail_wire" => Some(&mut self.failing.wire),
            "fail_gate" => Some(&mut self.failing.gate),
            "moment" => Some(&mut self.moments),
            _ => None,
        }
    }

    /// The end of this number, 0 or 1.
    pub fn end(&mut self, digits: &str) -> Result<&mut End, Fault> {
        match digits {
            "0" => Ok(&mut self.first),
            "1" => Ok(&mut self.second),
            _ => Err(Fault::NoName),
        }
    }
}
