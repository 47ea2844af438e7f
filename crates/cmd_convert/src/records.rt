//! The records of a tape of the second version, as they are written.

ghost use Rattle.std.specs.Prelude.{◌≡◌, ◌≤◌, ◌∷◌, ◌++◌, length};
ghost use Rattle.byteorder.specs.Endian.{big_bytes};
ghost use Rattle.fs_line.specs.Output.{Sends};
ghost use Rattle.fs_tape.specs.{Laws.{record_text}, Magic.{magic_of}, declared.magic.Version.TheVariants.{Two}};

use byteorder::{BigEndian, ByteOrder};
use fs_base::{Failed, Sink};
use fs_line::Output;

/// The kind of a record that tells that a peer came up.
pub(crate) const UP: u8 = 1;

/// The kind of a record that has octets of a peer.
pub(crate) const RECEIVED: u8 = 2;

/// The kind of a record that tells that a peer was lost.
pub(crate) const LOST: u8 = 3;

/// The octets of a record's head.
const HEAD_SIZE: usize = 15;

/// The peer that a record is of, by its number, and the record's moment, in nanoseconds since the start of 1970.
#[derive(Clone, Copy, Debug, PartialEq, Eq, Drop)]
pub(crate) struct Stamp {
    pub(crate) peer: u16,
    pub(crate) moment: u64,
}

/// Writes what a tape of the second version begins with.
pub(crate) fn write_magic<S: Sink>(output: &mut Output, sink: &mut S) -> Result<(), Failed>
    ensures { Sends S.Sink sink.old sink.new output.old output.new (magic_of Two) result }
{
    output.put(sink, b"FSTAPE2\n")
}

/// Writes a record of this kind.
pub(crate) fn write_record<S: Sink>(
    output: &mut Output,
    sink: &mut S,
    kind: u8,
    stamp: Stamp,
    payload: &[u8],
) -> Result<(), Failed>
    requires { length payload.now ≤ 65536 }
    ensures { Sends S.Sink sink.old sink.new output.old output.new
        (record_text Two kind stamp.peer stamp.moment payload.now) result }
{
    output.put(sink, &head_octets(kind, stamp, payload.len() as u32))?;
    output.put(sink, payload)
}

/// The octets of a record's head.
fn head_octets(kind: u8, stamp: Stamp, size: u32) -> [u8; HEAD_SIZE]
    ensures { result ≡ kind ∷ (big_bytes 2 stamp.peer ++ (big_bytes 8 stamp.moment ++ big_bytes 4 size)) }
{
    let mut head = [kind; HEAD_SIZE];
    BigEndian::write_u16(&mut head[1..], stamp.peer);
    BigEndian::write_u64(&mut head[3..], stamp.moment);
    BigEndian::write_u32(&mut head[11..], size);
    head
}
