//! Which rules of a long run a packet may match.

ghost use Rattle.std.specs.{Prelude.{◌≡◌, ℕ, ◌+◌, ◌-◌, ◌*◌, ◌^◌, ◌<◌, ◌≤◌, false, true, IfOk, IfSome, List, get_or, length, min}, Int.{bit_at}};
ghost use Rattle.fs_ranges.specs.declared.Fast.{Fast};
ghost use Rattle.fs_compile.specs.{Filters.{AreFilters, AreRows, IsFilter, IsInside, first_at, front_of, word_of}, Search.{Scanned, tests_of}};

use crate::columns::{Column, PortRows, Run, words_of};
use crate::tested::Tested;
use fs_base::{Memory, Steps};
use fs_ranges::Field;
use std::alloc::Global;
use std::sync::ledger::Ledger;

/// A run of so many rules, or fewer, is searched rule by rule.
pub(crate) const FEW_RULES: usize = 32;

/// The rules from the number `first` on before `end`, by the fields in which most rules differ.
#[derive(Drop)]
pub(crate) struct Filter {
    pub(crate) first: usize,
    pub(crate) end: usize,
    pub(crate) source: Column,
    pub(crate) protocol: Column,
    pub(crate) destination_port: Column,
    pub(crate) source_port: Column,
    pub(crate) length: Column,
    pub(crate) ports: PortRows,
}

/// The filters of the long runs of a family's rules, in order.
#[derive(Drop)]
pub(crate) struct Filters {
    pub(crate) runs: Vec<Filter>,
}

impl Filters {
    /// The filter of the run in which the rules from `from` on before `to` are, if there is one.
    pub(crate) fn of(&self, from: usize, to: usize) -> Option<&Filter>
        ensures { (rules : List Fast)
            → AreFilters rules self.now
            → IfSome result (λ filter. IsFilter rules filter.now × (filter.now.first ≤ from) × (to ≤ filter.now.end)) }
    {
        let place = self.runs.partition_point(|filter| filter.end < to);
        match self.runs.get(place) {
            Some(filter) if filter.first <= from && to <= filter.end => Some(filter),
            _ => None,
        }
    }

    /// The first rule that matches of those from `from` on before `to`, by the filter of their run if there is one. As
    /// many steps at most as rules up to that one.
    #[inline(never)]
    pub(crate) fn scan<L: Ledger>(
        &self,
        tested: Tested<'_>,
        from: usize,
        to: usize,
        steps: &mut Steps<L>,
    ) -> Option<usize>
        requires within { to ≤ length tested.rules.now }
        requires few { length tested.rules.now < 2 ^ 32 }
        requires filters { AreFilters tested.rules.now self.now }
        ensures { Scanned (tests_of tested.entry) from to to steps.old steps.new result }
    {
        match self.of(from, to) {
            Some(filter) => filter.rows(&tested).scan(&tested, from, to, steps),
            None => tested.scan(from, to, steps),
        }
    }
}

/// The rows of a packet's classes, for the rules from the number `first` on.
#[derive(Clone, Copy, Drop)]
pub(crate) struct Rows<'a> {
    pub(crate) first: usize,
    pub(crate) source: &'a [u64],
    pub(crate) protocol: &'a [u64],
    pub(crate) destination_port: &'a [u64],
    pub(crate) source_port: &'a [u64],
    pub(crate) length: &'a [u64],
    pub(crate) to_port: &'a [u64],
    pub(crate) from_port: &'a [u64],
}

impl<'a> Rows<'a> {
    /// The first rule that matches of those from `from` on before `to`, of which only those are tested whose bits are set.
    fn scan<L: Ledger>(
        &self,
        tested: &Tested<'_>,
        from: usize,
        to: usize,
        steps: &mut Steps<L>,
    ) -> Option<usize>
        requires rows { AreRows (tests_of tested.now) to self.now }
        requires first { self.now.first ≤ from }
        requires to { to ≤ length tested.now.rules.now }
        requires few { length tested.now.rules.now < 2 ^ 32 }
        ensures { Scanned (tests_of tested.now) from to to steps.old steps.new result }
    {
        let mut place = (from - self.first) / 64;
        'words: while self.first + place * 64 < to {
            let start = from.max(self.first + place * 64);
            match self.scan_word(tested, place, start, to, steps) {
                Some(number) => return Some(number),
                None => place = self.next_front(place + 1, words_of(to - self.first)),
            }
        }
        None
    }

    /// The first rule that matches of those from `from` on before `to` among the 64 of the place, of which only those are
    /// tested whose bits are set in the words there.
    #[inline(always)]
    fn scan_word<L: Ledger>(
        &self,
        tested: &Tested<'_>,
        place: usize,
        from: usize,
        to: usize,
        steps: &mut Steps<L>,
    ) -> Option<usize>
        requires start { (first_at self.now place ≤ from) × (from < first_at self.now place + 64) }
        requires low { first_at self.now place < length tested.now.rules.now }
        requires to { to ≤ length tested.now.rules.now }
        requires few { length tested.now.rules.now < 2 ^ 32 }
        requires inside { IsInside place self.now }
        requires marked { (k : ℕ)
            → from ≤ k
            → k < min to (first_at self.now place + 64)
            → get_or (tests_of tested.now) k false ≡ true
            → bit_at (word_of self.now place) (k - first_at self.now place) ≡ 1 }
        ensures { Scanned (tests_of tested.now) from (min to (first_at self.now place + 64)) to steps.old steps.new result }
    {
        if self.front(place) == 0 {
            return None;
        }
        let start = self.first + place * 64;
        let end = to.min(start + 64);
        let mut rest = self.word(place) >> (from - start);
        let mut number = from;
        'candidates: while rest != 0 {
            let clear = rest.trailing_zeros();
            number += clear as usize;
            if number >= end {
                return None;
            }
            if tested.rules[number].test_facts(tested.facts, steps) {
                return Some(number);
            }
            number += 1;
            rest = rest >> clear >> 1;
        }
        None
    }

    /// The bits of 64 rules that are set in the rows of sources and ports, in which most are clear.
    #[inline(always)]
    fn front(&self, place: usize) -> u64
        requires { IsInside place self.now }
        ensures { result ≡ front_of self.now place }
    {
        self.source[place] & self.destination_port[place] & self.source_port[place]
    }

    /// The first place, of those from one on before another, at which bits of the front are set, or that other.
    #[inline(always)]
    fn next_front(&self, from: usize, to: usize) -> usize
        requires ordered { from ≤ to }
        requires inside { (place : ℕ) → place < to → IsInside place self.now }
        ensures within { (from ≤ result) × (result ≤ to) }
        ensures clear { (place : ℕ) → from ≤ place → place < result → front_of self.now place ≡ 0 }
    {
        // of equal lengths, so that no place is tested against each
        let source = &self.source[..to];
        let into = &self.destination_port[..to];
        let out_of = &self.source_port[..to];
        let mut place = from;
        'clear: while place < to && source[place] & into[place] & out_of[place] == 0 {
            place += 1;
        }
        place
    }

    /// The bits of 64 rules that are set in all rows.
    #[inline(always)]
    fn word(&self, place: usize) -> u64
        requires { IsInside place self.now }
        ensures { result ≡ word_of self.now place }
    {
        self.front(place)
            & self.protocol[place]
            & self.length[place]
            & (self.to_port[place] | self.from_port[place])
    }
}

impl Filter {
    /// Of the rules of the run.
    pub(crate) fn of(alloc: Global, run: Run<'_>) -> Result<Filter, Memory>
        requires some { run.first < run.end }
        requires within { run.end ≤ length run.rules.now }
        requires few { length run.rules.now < 2 ^ 32 }
        ensures { IfOk result (IsFilter run.entry.rules.now) }
    {
        let source = run.rules[run.first].source_field();
        let destination_port = Column::of(alloc, run, Field::DestinationPort)?;
        let source_port = Column::of(alloc, run, Field::SourcePort)?;
        let ports = PortRows::of(alloc, run, &destination_port.bounds, &source_port.bounds)?;
        Ok(Filter {
            first: run.first,
            end: run.end,
            source: Column::of(alloc, run, source)?,
            protocol: Column::of(alloc, run, Field::Protocol)?,
            destination_port,
            source_port,
            length: Column::of(alloc, run, Field::Length)?,
            ports,
        })
    }

    /// The filter of the same rules where they stand from the number `first` on.
    pub(crate) fn moved(self, first: usize) -> Filter
        requires ordered { self.first ≤ self.end }
        requires fits { first + (self.end - self.first) < 2 ^ 64 }
        ensures { result ≡ record self { first = first; end = first + (self.end - self.first) } }
    {
        Filter {
            first,
            end: first + (self.end - self.first),
            ..self
        }
    }

    /// The rows of the packet's classes.
    #[inline(always)]
    fn rows(&self, tested: &Tested<'_>) -> Rows<'_>
        requires filter { IsFilter tested.now.rules.now self.now }
        requires few { length tested.now.rules.now < 2 ^ 32 }
        ensures rows { AreRows (tests_of tested.now) self.now.end result }
        ensures first { result.first ≡ self.now.first }
    {
        let facts = tested.facts;
        let words = words_of(self.end - self.first);
        let source = self.source.class(facts.key(self.source.field));
        let protocol = self.protocol.class(facts.number(Field::Protocol));
        let into = self
            .destination_port
            .class(facts.number(Field::DestinationPort));
        let out_of = self.source_port.class(facts.number(Field::SourcePort));
        let length = self.length.class(facts.number(Field::Length));
        let (to_port, from_port) = self.ports.rows(into, out_of, words);
        Rows {
            first: self.first,
            source: self.source.row(source, words),
            protocol: self.protocol.row(protocol, words),
            destination_port: self.destination_port.row(into, words),
            source_port: self.source_port.row(out_of, words),
            length: self.length.row(length, words),
            to_port,
            from_port,
        }
    }
}
