//! A case file, from its first line to its last.

use crate::fault::Fault;
use crate::fields::{halves, number, word_of};
use crate::octets::Octets;
use crate::runner::Runner;
use crate::shape::fill;
use crate::tally::Tally;
use std::alloc::Global;
use std::ops::Range;

/// What the case files so far have made. The files that one defines stay for the next.
#[derive(Drop)]
pub struct CaseFiles {
    alloc: Global,
    runner: Runner,
    shape: Octets,
    in_shape: bool,
}

impl CaseFiles {
    pub fn new(alloc: Global) -> CaseFiles {
        CaseFiles {
            alloc,
            runner: Runner::new(alloc),
            shape: Octets::new(alloc),
            in_shape: false,
        }
    }

    /// Follows the lines of a case file, and prints how many cases it had and how many of them differ.
    ///
    /// # Errors
    ///
    /// A line that says nothing, with its number, those of printing, and want of memory.
    pub fn read(&mut self, rt: &HostRuntime, name: &str, text: &str) -> Result<(), Fault> {
        self.runner.tally = Tally::new();
        let mut place = 0u64;
        match self.lines(rt, text, &mut place) {
            Ok(()) => self.runner.tally.finish(rt, name),
            Err(fault) => tell(rt, name, place, fault),
        }
    }

    /// Follows the lines, and counts them.
    fn lines(&mut self, rt: &HostRuntime, text: &str, place: &mut u64) -> Result<(), Fault> {
        for line in text.lines() {
            *place = place.saturating_add(1);
            self.line(rt, line.trim_start())?;
        }
        Ok(())
    }

    fn line(&mut self, rt: &HostRuntime, line: &str) -> Result<(), Fault> {
        if self.in_shape {
            return self.shape_line(line);
        }
        let (word, rest) = halves(line);
        match word {
            "shape" => {
                self.shape = Octets::new(self.alloc);
                self.in_shape = true;
                Ok(())
            }
            "row" => self.row(rt, rest),
            "rows" => self.rows(rt, rest),
            _ => self.runner.line(rt, line),
        }
    }

    fn shape_line(&mut self, line: &str) -> Result<(), Fault> {
        self.in_shape = line != "end";
        if self.in_shape {
            self.shape.word(line);
            self.shape.word("\n");
        }
        self.shape.check()
    }

    /// The lines of the shape, with these fields.
    fn row(&mut self, rt: &HostRuntime, row: &str) -> Result<(), Fault> {
        let mut lines = Octets::new(self.alloc);
        fill(self.shape.as_text()?, row, &mut lines);
        match lines.as_text() {
            Ok(text) => self.follow(rt, text),
            Err(fault) => Err(fault),
        }
    }

    fn follow(&mut self, rt: &HostRuntime, lines: &str) -> Result<(), Fault> {
        for line in lines.lines() {
            self.runner.line(rt, line)?;
        }
        Ok(())
    }

    /// A row for each number from the first to the last, which is its first field.
    fn rows(&mut self, rt: &HostRuntime, rows: &str) -> Result<(), Fault> {
        let (range, others) = rows.split_once(';').ok_or(Fault::NoField)?;
        for place in range_of(range.trim())? {
            self.numbered_row(rt, place, others)?;
        }
        Ok(())
    }

    fn numbered_row(&mut self, rt: &HostRuntime, place: u64, others: &str) -> Result<(), Fault> {
        let mut row = Octets::new(self.alloc);
        row.show(&place);
        row.word(";");
        row.word(others);
        match row.as_text() {
            Ok(text) => self.row(rt, text),
            Err(fault) => Err(fault),
        }
    }
}

/// The numbers from the first to the last.
fn range_of(range: &str) -> Result<Range<u64>, Fault> {
    let (first, last) = word_of(range)?;
    Ok(number(first)?..number(last)?.saturating_add(1))
}

/// Prints what is wrong with a line, and hands it on.
fn tell(rt: &HostRuntime, name: &str, place: u64, fault: Fault) -> Result<(), Fault> {
    let mut line = Octets::new(rt.alloc());
    line.word(name);
    line.word(", line ");
    line.show(&place);
    line.word(": ");
    line.show(&fault);
    line.print(rt).and(Err(fault))
}
