//! The records of a dump, and what each is.
ghost use Rattle.std.specs.Prelude.{◌≡◌, ◌≤◌, ◌+◌, [], None, IfOk, length};
ghost use Rattle.fs_base.specs.Parts.{with_part};
ghost use Rattle.fs_input.specs.{NextRecord.{GivesNext}, Reading.{Grows}, Reads.{Scans}};
ghost use Rattle.fs_mrt.specs.{Notes.{note_body, note_ends, noted_none}, Record.{ends_size}, Shape.{states_size}, declared.fault.DumpReason.TheVariants.{Cut}};

use crate::fault::{DumpFault, DumpReason};
use crate::peers::{is_same, number_at};
use crate::record::{Front, Head, Rest, ends_size, take_address, take_front, take_heard};
use crate::records::{HEAD_SIZE, read_head};
use crate::shape::Shape;
use byteorder::{BigEndian, ByteOrder};
use fs_base::{Address, Config, Counted, Files, Peer};
use fs_input::{Ended, Parts, next_part, skip_octets};
use std::marker::Model;

/// What a record of a dump is.
#[derive(Clone, Copy, Debug, PartialEq, Eq, Drop)]
pub enum Note {
    /// One of a type and subtype that aren't read.
    Skipped {
        kind: u16,
        subtype: u16,
    },
    /// A message, or a change of state, of a peer with this address and AS number. `number` is the lowest of the
    /// configured peers of the address.
    Spoke {
        address: Address,
        asn: u32,
        number: Option<u16>,
        message: bool,
    },
}

impl Note {
    ghost use Rattle.fs_mrt.specs.Notes.{same_note};

    /// Whether both are of peers with one address and AS number, or of one type and subtype that aren't read.
    pub fn is_like(self, other: Note) -> bool
        ensures { result ≡ same_note self other }
    {
        match (self, other) {
            (
                Note::Skipped { kind, subtype },
                Note::Skipped {
                    kind: other_kind,
                    subtype: other_subtype,
                },
            ) => kind == other_kind && subtype == other_subtype,
            (
                Note::Spoke { address, asn, .. },
                Note::Spoke {
                    address: other_address,
                    asn: other_asn,
                    ..
                },
            ) => is_same(address, other_address) && asn == other_asn,
            _ => false,
        }
    }
}

/// Where the records of a dump stand of which each is noted: what a record is doesn't depend on those before it.
#[derive(Drop)]
pub(crate) struct Notes {}

impl Parts for Notes {
    ghost use Rattle.std.specs.Prelude.{⊤};
    ghost use Rattle.fs_mrt.specs.{Notes.{note_record}, declared.{fault.DumpReason.TheVariants.{Cut}, notes.Note.{Note}}};

    type Given = Config;

    type Told = Note;

    type Reason = DumpReason;

    ghost Part = { Note };

    ghost first = { 12 };

    ghost behind = { λ config. note_record config.peers };

    ghost cut = { Cut };

    ghost part_of = { λ into note. note };

    ghost most = { 65536 };

    ghost Moves = { λ old now told. ⊤ };

    fn first_size(&self, _config: &Config) -> usize {
        HEAD_SIZE
    }

    fn cut(&self) -> DumpReason {
        DumpReason::Cut
    }

    fn take_behind<F: Files>(
        &mut self,
        config: &Config,
        octets: &[u8],
        counted: &mut Counted,
        files: &mut F,
        into: &mut [u8],
    ) -> Result<Option<Note>, DumpFault> {
        let head = read_head(counted.taken - 4, octets);
        let kind = BigEndian::read_u16(&octets[4..]);
        let subtype = BigEndian::read_u16(&octets[6..]);
        let peers = config.peers.as_slice();
        take_note(peers, kind, subtype, head, counted, files, into)
    }

    ghost stays = { λ now. tt };

    ghost joins = { λ first middle last told one other. tt };
}

/// Reads a body, and tells what its record is.
fn take_note<F: Files>(
    peers: &[Peer],
    kind: u16,
    subtype: u16,
    head: Head,
    counted: &mut Counted,
    files: &mut F,
    into: &mut [u8],
) -> Result<Option<Note>, DumpFault>
    requires room { 65536 ≤ length into.old }
    requires none { counted.old.back ≡ [] }
    ensures none { counted.new.back ≡ [] }
    ensures room { length into.new ≡ length into.old }
    ensures grows { IfOk result (λ _. counted.old.taken ≤ counted.new.taken) }
    ensures reads { Scans F.Files files.old files.new (note_body peers.now kind subtype head head.shape) Cut
        counted.old counted.new (λ note. note) result }
{
    let Some(shape) = head.shape else {
        return match skip_octets(DumpReason::Cut, head.size as u64, counted, files, into) {
            Ok(()) => Ok(Some(Note::Skipped { kind, subtype })),
            Err(fault) => Err(fault),
        };
    };
    match take_front(head, shape, counted, files) {
        Ok(front) => take_ends(
            peers,
            head.size as usize,
            shape,
            front,
            counted,
            files,
            into,
        ),
        Err(fault) => Err(fault),
    }
}

/// Reads what stands behind the front of a body of so many octets, and tells who speaks.
fn take_ends<F: Files>(
    peers: &[Peer],
    size: usize,
    shape: Shape,
    front: Front,
    counted: &mut Counted,
    files: &mut F,
    into: &mut [u8],
) -> Result<Option<Note>, DumpFault>
    requires fits { ends_size shape front.family + states_size shape ≤ size }
    requires most { size ≤ 65536 }
    requires room { 65536 ≤ length into.old }
    requires none { counted.old.back ≡ [] }
    ensures none { counted.new.back ≡ [] }
    ensures room { length into.new ≡ length into.old }
    ensures grows { IfOk result (λ _. counted.old.taken ≤ counted.new.taken) }
    ensures reads { Scans F.Files files.old files.new (note_ends peers.now size shape front) Cut counted.old counted.new
        (λ note. note) result }
{
    let address = match take_address(front.family, counted, files) {
        Ok(address) => address,
        Err(fault) => return Err(fault),
    };
    let number = number_at(peers, address);
    let rest = Rest {
        moment: 0,
        size: size - ends_size(shape, front.family),
        shape,
    };
    match take_heard(rest, number, counted, files, into) {
        Ok(_heard) => Ok(Some(Note::Spoke {
            address,
            asn: front.asn,
            number,
            message: !shape.change,
        })),
        Err(fault) => Err(fault),
    }
}

/// A dump that is read from a slot, of which each record is told.
#[derive(Drop)]
pub struct NotedDump {
    counted: Counted,
    end: Option<Ended<DumpReason>>,
    notes: Notes,
}

impl Model for NotedDump {
    ghost use Rattle.fs_mrt.specs.Notes.{NotedState};

    ghost Value = { NotedState };

    ghost view = { λ dump.
        record {
          slot = dump.counted.slot;
          limit = dump.counted.limit;
          place = dump.counted.taken;
          back = dump.counted.back;
          end = dump.end;
          notes = dump.notes;
        } };
}

impl NotedDump {
    ghost use Rattle.fs_mrt.specs.Notes.{notes_coming};

    /// A dump of which nothing was read yet. Octets of its front may have been put back; `next` reads these first.
    pub fn begin(counted: Counted) -> NotedDump
        requires start { counted.taken ≡ 0 }
        ensures { result ≡ noted_none counted.slot counted.limit counted.back }
    {
        NotedDump {
            counted,
            end: None,
            notes: Notes {},
        }
    }

    /// Reads the next record. `None`: the dump ended where a record would begin. After that, and after any fault, each
    /// call answers the same again and reads nothing.
    ///
    /// # Errors
    ///
    /// As those of `Dump::next`.
    pub fn next<F: Files>(
        &mut self,
        files: &mut F,
        config: &Config,
        into: &mut [u8],
    ) -> Result<Option<Note>, DumpFault>
        requires { 65536 ≤ length into.old }
        ensures room { length into.new ≡ length into.old }
        ensures gives { GivesNext F.Files files.old files.new self.old.slot self.new.slot self.old.limit self.new.limit
            self.old.end self.new.end (self.new ≡ self.old)
            (notes_coming config.now self.old (F.left files.old self.old.slot))
            (λ note. with_part note (notes_coming config.now self.new (F.left files.new self.old.slot)))
            result }
        ensures grows { self.old.end ≡ None → Grows self.old.place self.new.place self.new.limit result }
    {
        next_part(
            config,
            &mut self.notes,
            &mut self.counted,
            &mut self.end,
            files,
            into,
        )
    }
}
