//! What is to come at a gate in memory.

ghost use Rattle.std.specs.Prelude.{◌≡◌, ◌+◌, ◌-◌, ◌^◌, [], IfSome, MatchResult, is_some, length, min};
ghost use Rattle.fs_outside.specs.{Gate.{FitsIn, what_from}};

use crate::remaining::Remaining;
use crate::{Address, Came, Event, Found, Memory, Reading};
use std::alloc::Global;
use std::marker::Model;

/// What is to come at a gate in memory.
#[derive(Debug, Drop)]
pub enum Cue {
    /// A connection from this address is taken.
    Taken { line: u64, from: Address },
    /// A connection that was dialled is made.
    Made { line: u64 },
    /// A connection gives these octets.
    Octets { line: u64, octets: Vec<u8> },
    /// A connection ends.
    Ended { line: u64 },
    /// Nothing comes for a while.
    Nothing,
}

/// What a name holds in memory.
#[derive(Debug, Drop)]
pub enum Held {
    /// A file of these octets.
    Octets(Vec<u8>),
    /// No file has that name.
    Absent,
}

/// A cue, at a moment and a time.
#[derive(Drop)]
pub(crate) struct TimedCue {
    moment: u64,
    time: u64,
    cue: Cue,
}

/// What is to come, what the file holds at each reading, the moment and the time of the last event, and how many
/// connections were dialled.
#[derive(Drop)]
pub(crate) struct Script {
    cues: Remaining<TimedCue>,
    contents: Remaining<Held>,
    moment: u64,
    time: u64,
    dialled: u64,
}

impl Model for Script {
    ghost use Rattle.std.specs.Prelude.{map};
    ghost use Rattle.fs_outside.specs.Scripts.{Scripted, coming_of, held_of};

    ghost Value = { Scripted };

    ghost view = { λ script. record {
      events = map coming_of script.cues;
      contents = map held_of script.contents;
      moment = script.moment;
      time = script.time;
      dialled = script.dialled;
    } };
}

impl Cue {
    ghost use Rattle.fs_outside.specs.Scripts.{fits_in, what_of};

    /// What comes by a cue. `None`: it gives no octets, or more than `into` has room for.
    fn give(&self, into: &mut [u8]) -> Option<Came>
        ensures fits { is_some result ≡ fits_in (what_of self.now) (length into.old) }
        ensures gives { IfSome result (λ came. what_from came into.new ≡ what_of self.now) }
        ensures bound { IfSome result (λ came. FitsIn came into.new) }
    {
        match self {
            Cue::Taken { line, from } => Some(Came::Taken {
                line: *line,
                from: *from,
            }),
            Cue::Made { line } => Some(Came::Made { line: *line }),
            Cue::Octets { line, octets } => {
                let count = octets.len();
                if count == 0 || into.len() < count {
                    return None;
                }
                into[..count].copy_from_slice(octets);
                Some(Came::Octets { line: *line, count })
            }
            Cue::Ended { line } => Some(Came::Ended { line: *line }),
            Cue::Nothing => Some(Came::Nothing),
        }
    }
}

impl Held {
    ghost use Rattle.fs_outside.specs.Scripts.{HasContent, held_of};

    /// What a reading finds, up to a limit; octets that are found come into `into`, which is empty before.
    fn read(&self, limit: u64, into: &mut Vec<u8>) -> Result<Found, Memory>
        requires { into.old.items ≡ [] }
        ensures { MatchResult result
            (λ found. HasContent found limit into.new.items (held_of self.now))
            (λ _. into.new.items ≡ []) }
    {
        match self {
            Held::Absent => Ok(Found::Absent),
            Held::Octets(octets) if (octets.len() as u64) < limit => {
                into.extend_from_slice(octets)?;
                Ok(Found::Whole)
            }
            Held::Octets(_) => Ok(Found::TooLong),
        }
    }
}

impl Script {
    ghost use Rattle.fs_outside.specs.Scripts.{AddsContent, AddsEvent, Gives, GivesReading, comes, coming, dialled_once, held_of, new_script};
    ghost use Rattle.fs_outside.specs.Scripts.{reading_at, what_of};

    /// Nothing is to come, and the file isn't there.
    pub fn new(alloc: Global) -> Script
        ensures { result ≡ new_script }
    {
        Script {
            cues: Remaining::new(alloc),
            contents: Remaining::new(alloc),
            moment: 0,
            time: 0,
            dialled: 0,
        }
    }

    /// This is to come after all that is to come before it.
    ///
    /// # Errors
    ///
    /// `Memory`: nothing was added.
    pub fn cue(&mut self, moment: u64, time: u64, cue: Cue) -> Result<(), Memory>
        ensures { AddsEvent result (coming moment time (what_of cue)) self.old self.new }
    {
        self.cues.push(TimedCue { moment, time, cue })
    }

    /// This is what the file holds at the reading after those that are known.
    ///
    /// # Errors
    ///
    /// `Memory`: nothing was added.
    pub fn hold(&mut self, held: Held) -> Result<(), Memory>
        ensures { AddsContent result (held_of held) self.old self.new }
    {
        self.contents.push(held)
    }

    /// The next event, where there is one that fits into `into`.
    #[tactic(auto, using(crate::proofs::Scripting::front_of, crate::proofs::Scripting::no_front))]
    pub fn next(&mut self, into: &mut [u8]) -> Option<Event>
        ensures gives { Gives result into.new self.old self.new }
        ensures fits { is_some result ≡ comes (length into.old) self.old.events }
        ensures bound { IfSome result (λ event. FitsIn event.came into.new) }
    {
        let TimedCue { moment, time, cue } = self.cues.first()?;
        let came = cue.give(into)?;
        self.moment = *moment;
        self.time = *time;
        self.cues.pass();
        Some(Event {
            moment: self.moment,
            time: self.time,
            came,
        })
    }

    /// Reads the file, at the moment and the time of the last event.
    ///
    /// # Errors
    ///
    /// `Memory`: the file was not read.
    #[tactic(auto, using(crate::proofs::Scripting::front_of, crate::proofs::Scripting::no_front))]
    pub fn reread(&mut self, limit: u64, into: &mut Vec<u8>) -> Result<Found, Memory>
        requires { into.old.items ≡ [] }
        ensures { GivesReading result limit into.new.items self.old self.new }
    {
        let found = match self.contents.first() {
            Some(held) => held.read(limit, into)?,
            None => Found::Absent,
        };
        if self.contents.len() > 1 {
            self.contents.pass();
        }
        Ok(found)
    }

    /// The number of a connection that is dialled: they are counted from 1.
    pub fn dial(&mut self) -> u64
        ensures line { result ≡ min (self.old.dialled + 1) (2 ^ 64 - 1) }
        ensures dials { self.new ≡ dialled_once self.old }
    {
        self.dialled = self.dialled.saturating_add(1);
        self.dialled
    }

    /// An event of now: the moment and the time of the last one.
    pub fn reading(&self, found: Found) -> Reading
        ensures { result ≡ reading_at self.now found }
    {
        Reading {
            moment: self.moment,
            time: self.time,
            found,
        }
    }
}
