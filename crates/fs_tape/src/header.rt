//! The fields of a record's head, each judged as soon as it stands whole.
ghost use Rattle.std.specs.Prelude.{◌≡◌, ◌≤◌, ◌+◌, length};
ghost use Rattle.fs_input.specs.NextRecord.{IsHeadWithin, IsKnown};
ghost use Rattle.fs_tape.specs.Header.{IsSaid, allows, head_size, kind_of, longest_payload, moment_field, peer_field, size_field};

use crate::fault::TapeReason;
use crate::item::Kind;
use crate::magic::Version;
use byteorder::{BigEndian, ByteOrder};
use fs_base::Config;
use fs_input::{Head, Heads};
use std::marker::Model;

/// The octets of the longest payload of a record.
pub const LONGEST_PAYLOAD: usize = 65536;

/// What a head says beside the payload's length. The moment counts nanoseconds since the start of 1970.
#[derive(Clone, Copy, Debug, PartialEq, Eq, Drop)]
pub(crate) struct Said {
    pub(crate) kind: Kind,
    pub(crate) peer: u16,
    pub(crate) moment: u64,
}

/// What the reading of a head depends on: the configured peers, the tape's version, and the moment of the record
/// before.
#[derive(Drop)]
pub(crate) struct Context<'a> {
    pub(crate) config: &'a Config,
    pub(crate) version: Version,
    pub(crate) moment: u64,
}

impl<'a> Model for Context<'a> {
    ghost use Rattle.fs_tape.specs.Header.{Stands};

    ghost Value = { Stands };

    ghost view = { λ context.
        record { config = context.config.now; version = context.version; moment = context.moment } };
}

impl<'a> Heads for Context<'a> {
    ghost use Rattle.std.{specs.Prelude.{◌<◌}, proofs.Common.{rules}};
    ghost use Rattle.fs_tape.specs.{declared.magic.Version.TheVariants.{One, Two}, Header.{head_size, longest_payload, IsSaid}, Tape.{Timed, records}};

    type Said = Said;

    type Reason = TapeReason;

    ghost Item = { Timed };

    ghost format = { records };

    ghost most = { longest_payload };

    ghost Known = { IsSaid };

    fn head_size(&self) -> usize {
        match self.version {
            Version::One => 7,
            Version::Two => 15,
        }
    }

    fn read_head(&self, octets: &[u8]) -> Head<Said, TapeReason> {
        let [octet, rest @ ..] = octets else {
            return Head::Partial;
        };
        match read_kind(*octet) {
            Some(kind) => self.read_peer(kind, rest),
            None => Head::Wrong {
                reason: TapeReason::Kind,
                offset: 0,
            },
        }
    }

    fn cut(&self) -> TapeReason {
        TapeReason::Cut
    }

    ghost some = { λ now. elim now.version as (λ version. 0 < head_size version) [
      | One ↦ Prim.search rules
      | Two ↦ Prim.search rules
    ] };
}

impl<'a> Context<'a> {
    /// Goes on behind the kind.
    fn read_peer(&self, kind: Kind, octets: &[u8]) -> Head<Said, TapeReason>
        ensures exact { result ≡ peer_field self.now.config self.now.version self.now.moment kind octets.now }
        ensures within { IsHeadWithin (head_size self.now.version) longest_payload (1 + length octets.now) result }
        ensures known { IsKnown (IsSaid self.now) result }
    {
        if octets.len() < 2 {
            return Head::Partial;
        }
        let peer = BigEndian::read_u16(octets);
        if self.config.peer(peer).is_none() {
            return Head::Wrong {
                reason: TapeReason::Peer,
                offset: 1,
            };
        }
        match self.version {
            Version::One => read_size(3, kind, peer, 0, &octets[2..]),
            Version::Two => read_moment(self.moment, kind, peer, &octets[2..]),
        }
    }
}

fn read_kind(octet: u8) -> Option<Kind>
    ensures { result ≡ kind_of octet }
{
    match octet {
        1 => Some(Kind::Up),
        2 => Some(Kind::Received),
        3 => Some(Kind::Lost),
        _ => None,
    }
}

/// Goes on behind the peer's number, where a moment stands.
fn read_moment(last: u64, kind: Kind, peer: u16, octets: &[u8]) -> Head<Said, TapeReason>
    ensures exact { result ≡ moment_field last kind peer octets.now }
    ensures within { IsHeadWithin 15 65536 (3 + length octets.now) result }
    ensures known { IsKnown (λ said. (said.peer ≡ peer) × (last ≤ said.moment)) result }
{
    if octets.len() < 8 {
        return Head::Partial;
    }
    let moment = BigEndian::read_u64(octets);
    if moment < last {
        return Head::Wrong {
            reason: TapeReason::Moment,
            offset: 3,
        };
    }
    read_size(11, kind, peer, moment, &octets[8..])
}

/// Goes on with the length, at this place in the head.
fn read_size(place: u8, kind: Kind, peer: u16, moment: u64, octets: &[u8]) -> Head<Said, TapeReason>
    ensures exact { result ≡ size_field place kind peer moment octets.now }
    ensures within { IsHeadWithin (place + 4) 65536 (place + length octets.now) result }
    ensures known { IsKnown (λ said. (said.peer ≡ peer) × (said.moment ≡ moment)) result }
{
    if octets.len() < 4 {
        return Head::Partial;
    }
    let size = BigEndian::read_u32(octets) as usize;
    if !is_allowed(kind, size) {
        return Head::Wrong {
            reason: TapeReason::Length,
            offset: place,
        };
    }
    Head::Whole {
        said: Said { kind, peer, moment },
        size,
    }
}

fn is_allowed(kind: Kind, size: usize) -> bool
    ensures { result ≡ allows kind size }
{
    match kind {
        Kind::Received => size <= LONGEST_PAYLOAD,
        Kind::Up | Kind::Lost => size == 0,
    }
}
