//! What the lines of a case file make: the files of the runs, what a run is given, and what it must write.

use crate::fault::Fault;
use crate::fields::{halves, number, parts, size, status, word_of};
use crate::making::make;
use crate::named::NamedFiles;
use crate::octets::Octets;
use crate::outcome::{Outcome, run_dialling, run_in_memory, run_outside};
use crate::shape::fill_number;
use crate::tally::Tally;
use crate::terms::{Due, Failing, Terms};
use std::alloc::Global;

/// The most calls that are made to fail in turn.
const CALLS: u64 = 1000;

/// Whose calls are made to fail.
#[derive(Clone, Copy, Drop)]
enum Called {
    Files,
    Output,
    Wire,
}

/// How a run ended of which a call failed.
#[derive(Clone, Copy, Drop)]
enum Ended {
    Whole,
    Front,
    Otherwise,
}

/// Files, the words of the next run and its terms, and the counts of the cases.
#[derive(Drop)]
pub struct Runner {
    alloc: Global,
    named: NamedFiles,
    words: Vec<String>,
    terms: Terms,
    case: String,
    pub tally: Tally,
}

impl Runner {
    pub fn new(alloc: Global) -> Runner {
        Runner {
            alloc,
            named: NamedFiles::new(alloc),
            words: Vec::new(alloc),
            terms: Terms::new(alloc),
            case: String::new(alloc),
            tally: Tally::new(),
        }
    }

    /// Follows a line. `times N` before a line is that line N times, with the numbers from 1 in place of its `#`.
    pub fn line(&mut self, rt: &HostRuntime, line: &str) -> Result<(), Fault> {
        let Some((word, rest)) = parts(line) else {
            return Ok(());
        };
        if word != "times" {
            return self.follow(rt, word, rest);
        }
        let (times, line) = word_of(rest)?;
        let (word, rest) = word_of(line)?;
        for place in 0..number(times)? {
            self.numbered(rt, word, rest, place.saturating_add(1))?;
        }
        Ok(())
    }

    fn numbered(
        &mut self,
        rt: &HostRuntime,
        word: &str,
        rest: &str,
        number: u64,
    ) -> Result<(), Fault> {
        let mut made = Octets::new(self.alloc);
        fill_number(rest, number, &mut made);
        match made.as_text() {
            Ok(text) => self.follow(rt, word, text),
            Err(fault) => Err(fault),
        }
    }

    fn follow(&mut self, rt: &HostRuntime, word: &str, rest: &str) -> Result<(), Fault> {
        match word {
            "ends" | "stops" | "real" | "dials" => self.end_case(rt, word, rest),
            "calls" => self.count_calls(rt, rest),
            "wire_calls" => self.count_wire_calls(rt, rest),
            _ => self.prepare(word, rest),
        }
    }

    /// What the next run is given and must answer.
    fn prepare(&mut self, word: &str, rest: &str) -> Result<(), Fault> {
        match word {
            "case" => self.begin_case(rest),
            "out" => self.expect(rest),
            "octets" => self.expect_octets(rest),
            "words" => self.take_words(rest),
            "word" => self.take_word(rest),
            "turns" => self.turn(rest),
            "gives" => self.give(rest),
            "said" => self.expect_said(rest),
            "called" => self.expect_calls(rest),
            "cue" => self.terms.cues.add(&self.named, rest),
            "holds" => self.terms.cues.hold(&self.named, rest),
            "asks" => self.expect_asked(rest),
            _ => self.fill(word, rest),
        }
    }

    /// A number of the terms, or what the files have.
    fn fill(&mut self, word: &str, rest: &str) -> Result<(), Fault> {
        if self.terms.set(word, rest)? {
            return Ok(());
        }
        match word {
            "file" => self.named.begin(rest),
            "let" => self.define(rest),
            "put" => self.put(rest),
            _ => self.append(word, rest),
        }
    }

    fn begin_case(&mut self, name: &str) -> Result<(), Fault> {
        self.case.clear();
        self.case.push_str(name)?;
        Ok(())
    }

    /// Something is written: a line, or nothing.
    fn expect(&mut self, text: &str) -> Result<(), Fault> {
        if text.is_empty() {
            return Ok(());
        }
        let mut made = Octets::new(self.alloc);
        self.named.append_words(text, &mut made);
        self.terms.written.text(made.as_slice());
        self.terms.written.append(b"\n");
        made.check()
    }

    /// These octets are written.
    fn expect_octets(&mut self, field: &str) -> Result<(), Fault> {
        self.named.append_octets(field, &mut self.terms.written);
        self.terms.written.check()
    }

    fn take_words(&mut self, words: &str) -> Result<(), Fault> {
        self.words.clear();
        if words.is_empty() {
            return Ok(());
        }
        for word in words.split(' ') {
            self.take_word(word)?;
        }
        Ok(())
    }

    /// One word more, spaces and all.
    fn take_word(&mut self, word: &str) -> Result<(), Fault> {
        let mut made = Octets::new(self.alloc);
        self.named.append_words(word, &mut made);
        match made.as_text() {
            Ok(text) => self.add_word(text),
            Err(fault) => Err(fault),
        }
    }

    fn add_word(&mut self, word: &str) -> Result<(), Fault> {
        let word = String::from_str(self.alloc, word)?;
        self.words.push(word)?;
        Ok(())
    }

    /// A file that has another content when it is opened again: its name, and that of the other.
    fn turn(&mut self, rest: &str) -> Result<(), Fault> {
        let (name, other) = word_of(rest)?;
        self.terms.turn.name.push_str(name)?;
        self.terms.turn.other.push_str(other)?;
        Ok(())
    }

    /// What an end of the wire gives: the end and the octets.
    fn give(&mut self, rest: &str) -> Result<(), Fault> {
        let (digits, field) = halves(rest);
        let end = self.terms.end(digits)?;
        self.named.append_octets(field, &mut end.given);
        end.given.check()
    }

    /// What is written through an end of the wire: the end and the octets.
    fn expect_said(&mut self, rest: &str) -> Result<(), Fault> {
        let (digits, field) = halves(rest);
        let said = self.terms.end(digits)?.said.open();
        self.named.append_octets(field, said);
        said.check()
    }

    /// Calls on the wire, with commas between them.
    fn expect_calls(&mut self, calls: &str) -> Result<(), Fault> {
        let called = self.terms.called.open();
        if !calls.is_empty() {
            called.word(calls);
            called.word(", ");
        }
        called.check()
    }

    /// What is asked of the gate.
    fn expect_asked(&mut self, text: &str) -> Result<(), Fault> {
        let asked = self.terms.asked.open();
        if !text.is_empty() {
            self.named.append_words(text, asked);
            asked.word(", ");
        }
        asked.check()
    }

    /// A file, in one line: its name and its octets.
    fn define(&mut self, rest: &str) -> Result<(), Fault> {
        let (name, field) = word_of(rest)?;
        let made = self.named.octets(field);
        self.named.begin(name)?;
        self.named.append(&made)
    }

    /// Octets over others: the place and the octets.
    fn put(&mut self, rest: &str) -> Result<(), Fault> {
        let (place, field) = word_of(rest)?;
        let place = size(number(place)?);
        let made = self.named.octets(field);
        self.named.put(place, &made)
    }

    /// Appends what a word makes to the open file.
    fn append(&mut self, word: &str, rest: &str) -> Result<(), Fault> {
        let mut made = Octets::new(self.alloc);
        if let Err(fault) = make(&self.named, word, rest, &mut made) {
            made.fail(fault);
        }
        self.named.append(&made)
    }

    /// Runs the words, and compares how the run ends. One that stops may have written a front of what is expected.
    fn end_case(&mut self, rt: &HostRuntime, word: &str, digits: &str) -> Result<(), Fault> {
        let due = status(digits)?;
        let outcome = self.run(rt, word)?;
        let compared = self.compare(rt, &outcome, due, word == "stops");
        self.begin_next();
        compared
    }

    fn run(&self, rt: &HostRuntime, word: &str) -> Result<Outcome, Fault> {
        match word {
            "real" => run_outside(rt, &self.named, &self.words, None),
            "dials" => run_dialling(rt, &self.named, &self.words, &self.terms),
            _ => run_in_memory(self.alloc, &self.named, &self.words, &self.terms),
        }
    }

    fn compare(
        &mut self,
        rt: &HostRuntime,
        outcome: &Outcome,
        due: u8,
        may_stop: bool,
    ) -> Result<(), Fault> {
        let whole = self.terms.written.as_slice();
        let written = outcome.written.as_slice();
        let is_front = may_stop && whole.starts_with(written);
        let is_right = outcome.status == due && (is_front || written == whole);
        if self.tally.differs(is_right) {
            let (due, came) = (Some(due), Some(outcome.status));
            tell(rt, self.case.as_str(), (due, whole), (came, written))?;
        }
        self.compare_wire(rt, outcome)
    }

    /// Compares what was written through the ends of the wire, the calls on it, and what was asked of the gate, where that is
    /// said.
    fn compare_wire(&mut self, rt: &HostRuntime, outcome: &Outcome) -> Result<(), Fault> {
        let (case, tally, terms) = (self.case.as_str(), &mut self.tally, &self.terms);
        let first = compare_due(rt, tally, case, &terms.first.said, &outcome.first);
        let second = compare_due(rt, tally, case, &terms.second.said, &outcome.second);
        let called = compare_due(rt, tally, case, &terms.called, &outcome.called);
        let asked = compare_due(rt, tally, case, &terms.asked, &outcome.asked);
        first.and(second).and(called).and(asked)
    }

    /// The next run has the same words, and the rest as at first.
    fn begin_next(&mut self) {
        self.terms = Terms::new(self.alloc);
    }

    /// Lets each call of the files fail in turn until no call is left, and then each of the output.
    fn count_calls(&mut self, rt: &HostRuntime, counts: &str) -> Result<(), Fault> {
        let (files, output) = word_of(counts)?;
        let is_right = self.has_calls(rt, Called::Files, files)?;
        let is_right = self.has_calls(rt, Called::Output, output)? && is_right;
        self.end_count(is_right);
        Ok(())
    }

    /// Lets each call of the wire fail in turn until no call is left.
    fn count_wire_calls(&mut self, rt: &HostRuntime, count: &str) -> Result<(), Fault> {
        let is_right = self.has_calls(rt, Called::Wire, count)?;
        self.end_count(is_right);
        Ok(())
    }

    fn end_count(&mut self, is_right: bool) {
        self.tally.differs(is_right);
        self.begin_next();
    }

    /// Whether as many calls can fail as the digits say. It is printed where they aren't.
    fn has_calls(&mut self, rt: &HostRuntime, called: Called, digits: &str) -> Result<bool, Fault> {
        let count = number(digits)?;
        let calls = self.calls(called)?;
        if calls == Some(count) {
            return Ok(true);
        }
        let mut line = Octets::new(self.alloc);
        line.word(self.case.as_str());
        line.word(": calls that can fail: expected ");
        line.word(digits);
        line.word(", came ");
        line.show(&calls);
        line.print(rt)?;
        Ok(false)
    }

    /// How many calls can fail: with each of them the run ends with 1 and has written a front of what it must write, of
    /// whole lines where a call of the files fails, and behind the last it ends with the status that is due and has
    /// written all. None where a run ends otherwise.
    fn calls(&mut self, called: Called) -> Result<Option<u64>, Fault> {
        for call in 0..CALLS {
            match self.ended(called, call + 1)? {
                Ended::Whole => return Ok(Some(call)),
                Ended::Front => (),
                Ended::Otherwise => return Ok(None),
            }
        }
        Ok(None)
    }

    /// How the run ends of which the call of this number, from 1, fails.
    fn ended(&mut self, called: Called, call: u64) -> Result<Ended, Fault> {
        self.terms.failing = Failing::new(self.alloc);
        match called {
            Called::Files => self.terms.failing.files.push(call)?,
            Called::Output => self.terms.failing.output.push(call)?,
            Called::Wire => self.terms.failing.wire.push(call)?,
        }
        let outcome = run_in_memory(self.alloc, &self.named, &self.words, &self.terms)?;
        Ok(self.judge(called, &outcome))
    }

    fn judge(&self, called: Called, outcome: &Outcome) -> Ended {
        let whole = self.terms.written.as_slice();
        let written = outcome.written.as_slice();
        if u64::from(outcome.status) == self.terms.due && written == whole {
            return Ended::Whole;
        }
        if outcome.status == 1 && may_stop(called, written, whole) {
            return Ended::Front;
        }
        Ended::Otherwise
    }
}

/// Compares what came with what is due, where that is said.
fn compare_due(
    rt: &HostRuntime,
    tally: &mut Tally,
    case: &str,
    due: &Due,
    came: &Octets,
) -> Result<(), Fault> {
    let (said, came) = (due.octets.as_slice(), came.as_slice());
    if due.is_said && tally.differs(said == came) {
        return tell(rt, case, (None, said), (None, came));
    }
    Ok(())
}

/// Whether a run that must write the whole may have stopped behind this, as a call of these failed.
fn may_stop(called: Called, written: &[u8], whole: &[u8]) -> bool {
    let within = match called {
        Called::Files => is_of_lines(whole) && !is_of_lines(written),
        Called::Output | Called::Wire => false,
    };
    whole.starts_with(written) && !within
}

/// Whether this is lines, each with its end; none too.
fn is_of_lines(octets: &[u8]) -> bool {
    match octets.last() {
        Some(octet) => *octet == b'\n',
        None => true,
    }
}

/// Prints what was expected and what came, each a status where there is one, and what was written.
fn tell(
    rt: &HostRuntime,
    case: &str,
    expected: (Option<u8>, &[u8]),
    came: (Option<u8>, &[u8]),
) -> Result<(), Fault> {
    let mut line = Octets::new(rt.alloc());
    line.word(case);
    line.word(": expected ");
    append_ended(expected.0, expected.1, &mut line);
    line.word(", came ");
    append_ended(came.0, came.1, &mut line);
    line.print(rt)
}

fn append_ended(status: Option<u8>, written: &[u8], line: &mut Octets) {
    if let Some(status) = status {
        line.show(&status);
        line.word(" ");
    }
    line.show_octets(written);
}
