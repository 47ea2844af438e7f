//! A tape of the second version, written record by record as things happen.

ghost use Rattle.std.specs.{Prelude.{◌≡◌, ◌≤◌, ◌<◌, ◌+◌, IfOk, OnOk, OnErr, drop, length}, Result.{IsErrOf}};
ghost use Rattle.fs_base.specs.{Outside.{Rose}, Sink.{Grew, GrewPart}};
ghost use Rattle.fs_tape.specs.{Laws.{record_text}, Magic.{magic_of}, declared.magic.Version.TheVariants.{Two}};
ghost use Rattle.fs_recorder.specs.Tapes.{begun, code_of, longer_by, passed};

use crate::stop::Stop;
use byteorder::{BigEndian, ByteOrder};
use fs_base::{Sink, write_all};
use std::marker::Model;

/// The octets of a record before its payload.
pub const HEAD_SIZE: usize = 15;

/// The octets that a tape of the second version begins with.
const MAGIC: [u8; 8] = *b"FSTAPE2\n";

/// What a record says of its peer.
#[derive(Clone, Copy, Debug, PartialEq, Eq, Drop)]
pub(crate) enum Kind {
    /// It came up.
    Up,
    /// It sent the payload.
    Received,
    /// It was lost.
    Lost,
}

/// Where a tape stands that is written: the moment of its next record (nanoseconds from 1970), how many octets it has, and
/// how many are too many.
#[derive(Drop)]
pub(crate) struct Scribe {
    moment: u64,
    written: u64,
    limit: u64,
}

impl Model for Scribe {
    ghost use Rattle.std.specs.Prelude.{◌<◌};
    ghost use Rattle.fs_recorder.specs.Tapes.{Scribed};

    ghost Value = { Scribed };

    ghost view = { λ s. record { moment = s.moment; written = s.written; limit = s.limit } };

    ghost invariant = { λ s. s.written < s.limit };
}

impl Scribe {
    /// Writes the magic.
    ///
    /// # Errors
    ///
    /// `Limit` where it is as long as the limit; `Failed` where the sink failed.
    pub fn begin<S: Sink>(limit: u64, sink: &mut S) -> Result<Scribe, Stop>
        ensures later { S.faults sink.old ≤ S.faults sink.new }
        ensures failed { IsErrOf result Stop.Failed → Rose (S.faults sink.old) (S.faults sink.new) }
        ensures limit { IsErrOf result Stop.Limit → limit ≤ 8 }
        ensures begun { IfOk result (λ scribe. scribe ≡ begun limit) }
        ensures below { OnOk result (8 < limit) }
        ensures written { OnOk result (Grew (S.written sink.old) (S.written sink.new) (magic_of Two)) }
        ensures err { OnErr result (GrewPart (S.written sink.old) (S.written sink.new) (magic_of Two)) }
    {
        let written = MAGIC.len() as u64;
        if limit <= written {
            return Err(Stop::Limit);
        }
        write_all(sink, &MAGIC)?;
        Ok(Scribe {
            moment: 0,
            written,
            limit,
        })
    }

    /// The clock on the wall says this moment. Where it says less than before, the earlier moment stands.
    pub fn pass(&mut self, moment: u64)
        ensures { self.new ≡ passed moment self.old }
    {
        self.moment = self.moment.max(moment);
    }

    /// Writes a record of this kind in one piece. `piece` begins with room for the head; behind it stands the payload.
    ///
    /// # Errors
    ///
    /// `Limit` where the record would make the tape as long as the limit; nothing was written then. `Failed` where the sink
    /// failed; a front of the record was written then.
    pub fn write<S: Sink>(
        &mut self,
        kind: Kind,
        peer: u16,
        piece: &mut [u8],
        sink: &mut S,
    ) -> Result<(), Stop>
        requires head { 15 ≤ length piece.old }
        requires long { length piece.old ≤ 65551 }
        ensures later { S.faults sink.old ≤ S.faults sink.new }
        ensures failed { IsErrOf result Stop.Failed → Rose (S.faults sink.old) (S.faults sink.new) }
        ensures limit { IsErrOf result Stop.Limit → self.old.limit ≤ self.old.written + length piece.old }
        ensures longer { OnOk result (self.new ≡ longer_by (length piece.old) self.old) }
        ensures room { OnOk result (self.new.written < self.new.limit) }
        ensures written { OnOk result (Grew (S.written sink.old) (S.written sink.new)
            (record_text Two (code_of kind) peer self.old.moment (drop 15 piece.old))) }
        ensures err { OnErr result (GrewPart (S.written sink.old) (S.written sink.new)
            (record_text Two (code_of kind) peer self.old.moment (drop 15 piece.old))) }
        ensures size { length piece.new ≡ length piece.old }
        ensures payload { drop 15 piece.new ≡ drop 15 piece.old }
    {
        let size = piece.len();
        if self.limit - self.written <= size as u64 {
            return Err(Stop::Limit);
        }
        self.put_head(kind, peer, piece);
        write_all(sink, piece)?;
        self.written += size as u64;
        Ok(())
    }

    /// Fills in the head of a record.
    fn put_head(&self, kind: Kind, peer: u16, piece: &mut [u8])
        requires head { 15 ≤ length piece.old }
        requires long { length piece.old ≤ 65551 }
        ensures { piece.new ≡ record_text Two (code_of kind) peer self.now.moment (drop 15 piece.old) }
    {
        let size = (piece.len() - HEAD_SIZE) as u32;
        piece[0] = code_of(kind);
        BigEndian::write_u16(&mut piece[1..], peer);
        BigEndian::write_u64(&mut piece[3..], self.moment);
        BigEndian::write_u32(&mut piece[11..], size);
    }
}

/// The octet that tells a kind.
fn code_of(kind: Kind) -> u8
    ensures { result ≡ code_of kind }
{
    match kind {
        Kind::Up => 1,
        Kind::Received => 2,
        Kind::Lost => 3,
    }
}
