//! The blocks of a capture, as its parts.

use crate::block::take_block;
use crate::caught::Seen;
use crate::fault::{Got, NgReason};
use crate::section::Section;
use fs_base::{Counted, Files};
use fs_input::Parts;

/// The octets of a block's type.
const KIND_SIZE: usize = 4;

impl Parts for Section {
    ghost use Rattle.std.{specs.Prelude.{Some, None}, proofs.Common.{rules}};
    ghost use Rattle.fs_pcap.specs.Head.{longest_record};
    ghost use Rattle.fs_pcapng.specs.{Block.{Packet, kind_behind}, Pcapng.{Moves, seen_from}, declared.fault.NgReason.TheVariants.{Cut}};

    type Given = ();

    type Told = Seen;

    type Reason = NgReason;

    ghost Part = { Packet };

    ghost first = { 4 };

    ghost behind = { λ _. kind_behind };

    ghost cut = { Cut };

    ghost part_of = { seen_from };

    ghost most = { longest_record };

    ghost Moves = { Moves };

    fn first_size(&self, _given: &()) -> usize {
        KIND_SIZE
    }

    fn cut(&self) -> NgReason {
        NgReason::Cut
    }

    fn take_behind<F: Files>(
        &mut self,
        _given: &(),
        kind: &[u8],
        counted: &mut Counted,
        files: &mut F,
        into: &mut [u8],
    ) -> Got<Option<Seen>> {
        take_block(counted.taken - 4, kind, self, counted, files, into)
    }

    ghost stays = { λ now. Prim.search rules };

    ghost joins = { λ first middle last told.
        elim told as (λ told. Moves first middle None → Moves middle last told → Moves first last told) [
          | None ↦ Prim.search rules
          | Some seen ↦ Prim.search rules
        ] };
}
