//! The records of a dump, as its parts.
ghost use Rattle.std.specs.Prelude.{◌≡◌, ◌≤◌, length};
ghost use Rattle.byteorder.specs.Endian.{big_number};
ghost use Rattle.fs_mrt.specs.Record.{head_of};

use crate::fault::{DumpFault, DumpReason};
use crate::heard::Heard;
use crate::peers::number_at;
use crate::record::{Head, take_body};
use crate::shape::{Shape, address_of, address_size, family_of, shape_of};
use byteorder::{BigEndian, ByteOrder};
use fs_base::{Config, Counted, Files, Peer};
use fs_input::Parts;
use std::marker::Model;

/// The octets of a record's head.
pub(crate) const HEAD_SIZE: usize = 12;

/// Where the records of a dump stand: the moment of the last one of a configured peer, 0 before the first.
#[derive(Drop)]
pub(crate) struct Records {
    moment: u64,
}

impl Model for Records {
    ghost use Rattle.std.specs.Prelude.{ℕ};

    ghost Value = { ℕ };

    ghost view = { λ records. records.moment };
}

impl Records {
    /// Before the first record.
    pub(crate) fn start() -> Records
        ensures { result ≡ 0 }
    {
        Records { moment: 0 }
    }
}

impl Parts for Records {
    ghost use Rattle.std.{specs.Prelude.{Some, None}, proofs.Common.{rules, refl}};
    ghost use Rattle.fs_mrt.specs.{Dump.{Moves, spoken_from}, Record.{Spoken, record_behind}, declared.fault.DumpReason.TheVariants.{Cut}};

    type Given = Config;

    type Told = Heard;

    type Reason = DumpReason;

    ghost Part = { Spoken };

    ghost first = { 12 };

    ghost behind = { λ config. record_behind config.peers };

    ghost cut = { Cut };

    ghost part_of = { λ into heard. spoken_from heard into };

    ghost most = { 65536 };

    ghost Moves = { Moves };

    fn first_size(&self, _config: &Config) -> usize {
        HEAD_SIZE
    }

    fn cut(&self) -> DumpReason {
        DumpReason::Cut
    }

    fn take_behind<F: Files>(
        &mut self,
        config: &Config,
        octets: &[u8],
        counted: &mut Counted,
        files: &mut F,
        into: &mut [u8],
    ) -> Result<Option<Heard>, DumpFault> {
        let head = read_head(counted.taken - 4, octets);
        match take_body(
            config.peers.as_slice(),
            self.moment,
            head,
            counted,
            files,
            into,
        ) {
            Ok(Some(heard)) => {
                self.moment = heard.moment;
                Ok(Some(heard))
            }
            Ok(None) => Ok(None),
            Err(fault) => Err(fault),
        }
    }

    ghost stays = { λ moment. refl };

    ghost joins = { λ first middle last told.
        elim told as (λ told. Moves first middle None → Moves middle last told → Moves first last told) [
          | None ↦ Prim.search rules
          | Some heard ↦ Prim.search rules
        ] };
}

/// What the octets of a head say whose length stands at this place.
pub(crate) fn read_head(spot: u64, octets: &[u8]) -> Head
    requires { 12 ≤ length octets.now }
    ensures { result ≡ head_of spot octets.now }
{
    Head {
        spot,
        seconds: BigEndian::read_u32(octets),
        size: BigEndian::read_u32(&octets[8..]),
        shape: shape_of(
            BigEndian::read_u16(&octets[4..]),
            BigEndian::read_u16(&octets[6..]),
        ),
    }
}

/// Whether a record of a configured peer stands whole in these octets, behind whole ones that tell nothing.
pub(crate) fn is_heard_within(peers: &[Peer], octets: &[u8]) -> bool {
    let mut rest = octets;
    'records: while HEAD_SIZE <= rest.len() {
        let head = read_head(0, rest);
        let size = head.size as usize;
        let behind = &rest[HEAD_SIZE..];
        if behind.len() < size {
            return false;
        }
        if is_of_peer(peers, head.shape, &behind[..size]) {
            return true;
        }
        rest = &behind[size..];
    }
    false
}

/// Whether a body of this shape is one of a configured peer.
fn is_of_peer(peers: &[Peer], shape: Option<Shape>, body: &[u8]) -> bool {
    let Some(shape) = shape else {
        return false;
    };
    let first = shape.front_size();
    if body.len() < first + 2 {
        return false;
    }
    let Some(family) = family_of(BigEndian::read_u16(&body[first..])) else {
        return false;
    };
    let addresses = &body[first + 2..];
    address_size(family) <= addresses.len()
        && number_at(peers, address_of(family, addresses)).is_some()
}
