//! The numbers of a field in classes, and which rules of a run a packet may match whose number is of a class.

ghost use Rattle.std.specs.{Prelude.{◌≡◌, ℕ, ◌+◌, ◌-◌, ◌*◌, ◌/◌, ◌^◌, ◌<◌, ◌≤◌, IfOk, List, get_or, length}, Int.{bit_at}};
ghost use Rattle.fs_buckets.specs.Buckets.{AreRising};
ghost use Rattle.fs_compile.specs.Columns.{ArePortRows, AreRowsOf, Grown, IsClass, IsColumn, IsEither, IsMarked, IsRow, bit_in, bit_of, words_for};
ghost use Rattle.fs_compile.specs.Search.{hits};
ghost use Rattle.fs_ranges.specs.{Limits.{allows}, Facts.{Facts, key_of, number_of}, Spans.{is_in}};
ghost use Rattle.fs_ranges.specs.declared.Field.TheVariants.{DestinationPort, SourcePort};

use fs_base::Memory;
use fs_ranges::{Fast, Field, Limit};
use std::alloc::Global;

/// The most classes but the last.
const MOST_BOUNDS: usize = 63;

/// Of a run of more rules, only so many are asked where classes may end.
const MOST_ASKED: usize = 1024;

/// The rules from the number `first` on before `end`.
#[derive(Clone, Copy, Drop)]
pub(crate) struct Run<'a> {
    pub(crate) rules: &'a [Fast],
    pub(crate) first: usize,
    pub(crate) end: usize,
}

/// The numbers of a field in classes, with a row of bits for each class: a bit for each rule of a run, which is set where
/// the rule may match a packet whose number is of the class.
#[derive(Drop)]
pub(crate) struct Column {
    pub(crate) field: Field,
    /// The last number of each class but the last.
    pub(crate) bounds: Vec<u64>,
    /// The rows, one behind the other.
    pub(crate) rows: Vec<u64>,
}

impl Column {
    /// Of the rules of the run.
    pub(crate) fn of(alloc: Global, run: Run<'_>, field: Field) -> Result<Column, Memory>
        requires ordered { run.first ≤ run.end }
        requires within { run.end ≤ length run.rules.now }
        requires few { length run.rules.now < 2 ^ 32 }
        ensures column { IfOk result (IsColumn run.entry.rules.now run.entry.first run.entry.end) }
        ensures field { IfOk result (λ column. column.field ≡ field) }
    {
        let bounds = bounds_of(alloc, run, field)?;
        let shape = Shape {
            bounds: &bounds,
            words: words_of(run.end - run.first),
        };
        let mut rows = shape.empty(alloc)?;
        let marks = rows.as_mut_slice();
        for number in run.first..run.end {
            let limit = run.rules[number].limit(field);
            shape.mark(marks, number - run.first, limit);
        }
        Ok(Column {
            field,
            bounds,
            rows,
        })
    }

    /// The class of a packet's number.
    #[inline(always)]
    pub(crate) fn class(&self, number: u64) -> usize
        requires { AreRising self.now.bounds.items }
        ensures { IsClass self.now.bounds.items number result }
    {
        class_of(&self.bounds, number)
    }

    /// The row of the class of a packet's number, where rows have so many words.
    #[inline(always)]
    pub(crate) fn row(&self, class: usize, words: usize) -> &[u64]
        requires shaped { AreRowsOf self.now.bounds.items self.now.rows.items words }
        requires within { class ≤ length self.now.bounds.items }
        ensures { (facts : Facts) (rules : List Fast) (first end : ℕ)
            → words ≡ words_for (end - first)
            → IsClass self.now.bounds.items (key_of facts self.now.field) class
            → IsColumn rules first end self.now
            → IsRow (hits facts rules) first end result.now }
    {
        row_of(&self.rows, words, class)
    }
}

/// The rows of either port's classes: where a rule of a run may match a packet, its bit is set in the row of the
/// packet's destination port or in that of its source port.
#[derive(Drop)]
pub(crate) struct PortRows {
    pub(crate) to: Vec<u64>,
    pub(crate) from: Vec<u64>,
}

impl PortRows {
    /// Of the rules of the run, by the classes of these columns.
    pub(crate) fn of(
        alloc: Global,
        run: Run<'_>,
        destination: &[u64],
        source: &[u64],
    ) -> Result<PortRows, Memory>
        requires ordered { run.first ≤ run.end }
        requires within { run.end ≤ length run.rules.now }
        requires few { length run.rules.now < 2 ^ 32 }
        requires destination { AreRising destination.now × (length destination.now ≤ 63) }
        requires source { AreRising source.now × (length source.now ≤ 63) }
        ensures { IfOk result (ArePortRows run.entry.rules.now run.entry.first run.entry.end destination.now source.now) }
    {
        let words = words_of(run.end - run.first);
        let into = Shape {
            bounds: destination,
            words,
        };
        let out_of = Shape {
            bounds: source,
            words,
        };
        let mut to = into.empty(alloc)?;
        let mut from = out_of.empty(alloc)?;
        let (to_marks, from_marks) = (to.as_mut_slice(), from.as_mut_slice());
        for number in run.first..run.end {
            let limit = run.rules[number].ports_limit();
            into.mark(to_marks, number - run.first, limit);
            out_of.mark(from_marks, number - run.first, limit);
        }
        Ok(PortRows { to, from })
    }

    /// The rows of the classes of a packet's ports, where rows have so many words.
    #[inline(always)]
    pub(crate) fn rows(&self, to: usize, from: usize, words: usize) -> (&[u64], &[u64])
        requires to { (to + 1) * words ≤ length self.now.to.items }
        requires from { (from + 1) * words ≤ length self.now.from.items }
        ensures { (facts : Facts) (rules : List Fast) (first end : ℕ) (destination source : List ℕ)
            → words ≡ words_for (end - first)
            → IsClass destination (number_of facts DestinationPort) to
            → IsClass source (number_of facts SourcePort) from
            → ArePortRows rules first end destination source self.now
            → IsEither (hits facts rules) first end result.0.now result.1.now }
    {
        let to_row = row_of(&self.to, words, to);
        (to_row, row_of(&self.from, words, from))
    }
}

/// The shape of rows that stand one behind the other: one of so many words for each class.
#[derive(Clone, Copy, Drop)]
struct Shape<'a> {
    /// The last number of each class but the last.
    bounds: &'a [u64],
    words: usize,
}

impl Shape<'_> {
    /// Rows without a bit set.
    fn empty(self, alloc: Global) -> Result<Vec<u64>, Memory>
        requires { (length self.bounds.now ≤ 63) × (self.words < 2 ^ 32) }
        ensures { IfOk result (λ rows. length rows.items ≡ (length self.entry.bounds.now + 1) * self.entry.words) }
    {
        Ok(vec![in alloc; 0u64; (self.bounds.len() + 1) * self.words]?)
    }

    /// Sets the bit of a rule in the rows of all classes that have a number of the limit's.
    fn mark(self, rows: &mut [u64], rule: usize, limit: Limit<'_>)
        requires shaped { AreRowsOf self.bounds.now rows.old self.words }
        requires rule { rule / 64 < self.words }
        ensures grown { Grown rows.old rows.new }
        ensures marked { IsMarked self.entry.bounds.now rows.new self.entry.words rule (allows limit.entry) }
    {
        match limit {
            Limit::Any => self.mark_classes(rows, 0, self.bounds.len(), rule),
            Limit::Range(low, high) => self.mark_range(rows, rule, (low, high)),
            Limit::Ranges(ranges) => {
                for &range in ranges {
                    self.mark_range(rows, rule, range);
                }
            }
        }
    }

    fn mark_range(self, rows: &mut [u64], rule: usize, range: (u64, u64))
        requires shaped { AreRowsOf self.bounds.now rows.old self.words }
        requires rule { rule / 64 < self.words }
        ensures grown { Grown rows.old rows.new }
        ensures marked { IsMarked self.entry.bounds.now rows.new self.entry.words rule (λ number. is_in number range) }
    {
        let low = class_of(self.bounds, range.0);
        let high = class_of(self.bounds, range.1);
        self.mark_classes(rows, low, high, rule);
    }

    /// Sets the bit of a rule in the rows from one class up to another, this too.
    fn mark_classes(self, rows: &mut [u64], low: usize, high: usize, rule: usize)
        requires room { (high + 1) * self.words ≤ length rows.old }
        requires rule { rule / 64 < self.words }
        ensures grown { Grown rows.old rows.new }
        ensures marked { (class : ℕ) → low ≤ class → class ≤ high → bit_in rows.new self.entry.words class rule ≡ 1 }
    {
        for class in low..high + 1 {
            set_bit(rows, class * self.words + rule / 64, rule % 64);
        }
    }
}

/// How many words have a bit for each of so many rules.
pub(crate) fn words_of(count: usize) -> usize
    requires { count < 2 ^ 32 }
    ensures { result ≡ words_for count }
{
    (count + 63) / 64
}

/// The class of a number.
#[inline(always)]
fn class_of(bounds: &[u64], number: u64) -> usize
    requires { AreRising bounds.now }
    ensures { IsClass bounds.now number result }
{
    let mut class = 0;
    let mut size = bounds.len();
    'halves: while size > 0 {
        let half = (size + 1) / 2;
        class += half * (bounds[class + half - 1] < number) as usize;
        size /= 2;
    }
    class
}

/// The row of a class.
fn row_of(rows: &[u64], words: usize, class: usize) -> &[u64]
    requires { (class + 1) * words ≤ length rows.now }
    ensures size { length result.now ≡ words }
    ensures row { (rule : ℕ) → rule / 64 < words → bit_of result.now rule ≡ bit_in rows.now words class rule }
{
    &rows[class * words..][..words]
}

fn set_bit(rows: &mut [u64], word: usize, bit: usize)
    requires { (word < length rows.old) × (bit < 64) }
    ensures grown { Grown rows.old rows.new }
    ensures set { bit_at (get_or rows.new word 0) bit ≡ 1 }
{
    rows[word] |= 1 << bit;
}

/// Where classes of the field's numbers end: at ends of the rules' ranges.
fn bounds_of(alloc: Global, run: Run<'_>, field: Field) -> Result<Vec<u64>, Memory>
    requires ordered { run.first ≤ run.end }
    requires within { run.end ≤ length run.rules.now }
    ensures rising { IfOk result (λ bounds. AreRising bounds.items) }
    ensures few { IfOk result (λ bounds. length bounds.items ≤ 63) }
{
    let mut ends = ends_of(alloc, &run.rules[run.first..run.end], field)?;
    ends.sort_unstable();
    let most = MOST_BOUNDS.min((run.end - run.first) / 2);
    thinned(alloc, &ends, ends.len() / (most + 1) + 1, most)
}

/// Every so many of the numbers, if it's above the last one taken, but not more than `most`.
fn thinned(alloc: Global, numbers: &[u64], step: usize, most: usize) -> Result<Vec<u64>, Memory>
    requires { 0 < step }
    ensures rising { IfOk result (λ taken. AreRising taken.items) }
    ensures few { IfOk result (λ taken. length taken.items ≤ most) }
{
    let mut taken = Vec::new(alloc);
    let mut last = 0;
    let mut left = step;
    for &number in numbers {
        left -= 1;
        if left == 0 {
            left = step;
            if number > last && taken.len() < most {
                taken.push(number)?;
                last = number;
            }
        }
    }
    Ok(taken)
}

/// The numbers before the rules' ranges, and their last ones. Those of either port's ranges are among each port's.
fn ends_of(alloc: Global, rules: &[Fast], field: Field) -> Result<Vec<u64>, Memory> {
    let mut ends = Vec::new(alloc);
    let step = rules.len() / MOST_ASKED + 1;
    for rule in rules.iter().step_by(step) {
        push_limit(&mut ends, rule.limit(field))?;
        match field {
            Field::DestinationPort | Field::SourcePort => {
                push_limit(&mut ends, rule.ports_limit())?
            }
            _ => {}
        }
    }
    Ok(ends)
}

fn push_limit(ends: &mut Vec<u64>, limit: Limit<'_>) -> Result<(), Memory> {
    match limit {
        Limit::Any => Ok(()),
        Limit::Range(low, high) => push_range(ends, (low, high)),
        Limit::Ranges(ranges) => push_ranges(ends, ranges),
    }
}

fn push_ranges(ends: &mut Vec<u64>, ranges: &[(u64, u64)]) -> Result<(), Memory> {
    for &range in ranges {
        push_range(ends, range)?;
    }
    Ok(())
}

fn push_range(ends: &mut Vec<u64>, range: (u64, u64)) -> Result<(), Memory> {
    ends.push(range.0.saturating_sub(1))?;
    ends.push(range.1)?;
    Ok(())
}
