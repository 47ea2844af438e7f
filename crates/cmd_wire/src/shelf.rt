//! A file that is read again and again.

ghost use Rattle.std.specs.Prelude.{◌≡◌, option_map};
ghost use Rattle.fs_base.specs.Gate.{content_from};
ghost use Rattle.cmd_wire.specs.Holding.{content_of};
ghost use Rattle.cmd_wire.specs.Shelf.{changed_by, empty_shelf, is_due, is_lasting, is_same, is_same_as, kept_by, settled_by, settles, shelved};

use fs_base::Found;
use std::marker::Model;

/// So many milliseconds lie between two readings, and between two of the same before a change counts.
const SECOND: u64 = 1000;

/// What a reading found.
#[derive(Drop)]
pub(crate) enum Holding {
    /// A file that was read whole, with these octets.
    Whole(Vec<u8>),
    /// No file.
    Absent,
    /// A file that could not be read.
    Unread,
    /// A file with as many octets as the limit.
    TooLong,
}

impl Holding {
    /// What a reading found, whose octets are these.
    pub fn new(found: Found, octets: Vec<u8>) -> Holding
        ensures { content_of result ≡ content_from found octets.items }
    {
        match found {
            Found::Whole => Holding::Whole(octets),
            Found::Absent => Holding::Absent,
            Found::Failed => Holding::Unread,
            Found::TooLong => Holding::TooLong,
        }
    }
}

/// What a file holds, as its readings have it: at first what the first one finds; then what two of them find that are a
/// second apart, so that a file which is being written doesn't count.
#[derive(Drop)]
pub(crate) struct Shelf {
    settled: Option<Holding>,
    changed: Option<Holding>,
    since: u64,
    read_at: u64,
}

impl Model for Shelf {
    ghost use Rattle.std.specs.Prelude.{option_map};
    ghost use Rattle.cmd_wire.specs.{Holding.{content_of}, Shelf.{Shelf}};

    ghost Value = { Shelf };

    ghost view = { λ s. record {
      settled = option_map content_of s.settled;
      changed = option_map content_of s.changed;
      since = s.since;
      read_at = s.read_at;
    } };
}

impl Shelf {
    /// No reading yet.
    pub fn new() -> Shelf
        ensures { result ≡ empty_shelf }
    {
        Shelf {
            settled: None,
            changed: None,
            since: 0,
            read_at: 0,
        }
    }

    /// Whether the next reading is due.
    pub fn is_due(&self, time: u64) -> bool
        ensures { result ≡ is_due self.now time }
    {
        SECOND <= time.saturating_sub(self.read_at)
    }

    /// What counts as held.
    pub fn settled(&self) -> Option<&Holding>
        ensures { option_map (λ holding. content_of holding.now) result ≡ self.now.settled }
    {
        self.settled.as_ref()
    }

    /// Takes a reading at a time, in milliseconds; answers whether it changes what counts.
    pub fn put(&mut self, reading: Holding, time: u64) -> bool
        ensures answered { result ≡ settles self.old (content_of reading) time }
        ensures shelved { self.new ≡ shelved (content_of reading) time self.old }
    {
        if self.settles(&reading, time) {
            self.settle(reading, time);
            return true;
        }
        if is_same_as(&self.settled, &reading) {
            self.keep(time);
        } else {
            self.note(reading, time);
        }
        false
    }

    /// Whether a reading changes what counts: it is the first one, or finds what an earlier one found, a second ago or more.
    fn settles(&self, reading: &Holding, time: u64) -> bool
        ensures { result ≡ settles self.now (content_of reading.now) time }
    {
        match &self.settled {
            None => true,
            Some(settled) => !is_same(settled, reading) && self.is_lasting(reading, time),
        }
    }

    /// Whether an earlier reading, a second ago or more, found the same change.
    fn is_lasting(&self, reading: &Holding, time: u64) -> bool
        ensures { result ≡ is_lasting self.now (content_of reading.now) time }
    {
        is_same_as(&self.changed, reading) && SECOND <= time.saturating_sub(self.since)
    }

    /// From now on what a reading found counts.
    fn settle(&mut self, reading: Holding, time: u64)
        ensures { self.new ≡ settled_by (content_of reading) time self.old }
    {
        self.settled = Some(reading);
        self.changed = None;
        self.read_at = time;
    }

    /// A reading found what counts.
    fn keep(&mut self, time: u64)
        ensures { self.new ≡ kept_by time self.old }
    {
        self.changed = None;
        self.read_at = time;
    }

    /// A reading found a change, for the first time or again.
    fn note(&mut self, reading: Holding, time: u64)
        ensures { self.new ≡ changed_by (content_of reading) time self.old }
    {
        self.read_at = time;
        if !is_same_as(&self.changed, &reading) {
            self.changed = Some(reading);
            self.since = time;
        }
    }
}

/// Whether a reading was noted that found the same.
fn is_same_as(noted: &Option<Holding>, reading: &Holding) -> bool
    ensures { result ≡ is_same_as (option_map content_of noted.now) (content_of reading.now) }
{
    match noted {
        Some(noted) => is_same(noted, reading),
        None => false,
    }
}

/// Whether two readings found the same.
fn is_same(reading: &Holding, other: &Holding) -> bool
    ensures { result ≡ is_same (content_of reading.now) (content_of other.now) }
{
    match (reading, other) {
        (Holding::Whole(octets), Holding::Whole(others)) => octets == others,
        (Holding::Absent, Holding::Absent)
        | (Holding::Unread, Holding::Unread)
        | (Holding::TooLong, Holding::TooLong) => true,
        _ => false,
    }
}
