//! Lists of bitmask operators (RFC 8955 section 4.2.1.2).

ghost use Rattle.std.specs.Prelude.{◌≡◌, ◌≤◌, length, take, Err, IfOk, IfErr};
ghost use Rattle.fs_ops.specs.{Operator.{Bitmask}, OperatorList.{Spells, first_joins}, Fault.{CanBeWide, IsFault, barred_at}, Evaluation.{holds, masks}};

use crate::evaluation;
use crate::fault::Answer;
use crate::kind::{Kind, MaskKind};
use crate::list::OperatorList;
use std::alloc::Global;

/// A list of bitmask operators and values.
pub type MaskList = OperatorList<MaskKind>;

impl OperatorList<MaskKind> {
    /// Reads the list that stands at the front of the octets, with values of the widths whose codes these are
    /// (0 is one octet, 1 two, 2 four, 3 eight), and answers how many octets it takes, as `decode_within` does.
    pub fn decode(alloc: Global, octets: &[u8], widths: &[u8]) -> Answer<(MaskList, usize)>
        ensures taken { IfOk result (λ read. read.1 ≤ length octets.now) }
        ensures found { IfOk result (λ read. Spells Bitmask widths.now (take read.1 octets.now) read.0) }
        ensures fault { CanBeWide widths.now → IfErr result (IsFault widths.now octets.now) }
        ensures barred { (CanBeWide widths.now → ⊥) → result ≡ Err (barred_at octets.now) }
    {
        MaskList::decode_within(alloc, octets, widths)
    }

    /// Whether the list holds of the number: it is an OR of groups, each an AND of its pairs.
    pub fn eval(&self, datum: u64) -> bool
        ensures { result ≡ holds (masks datum) self.now }
    {
        evaluation::eval(self.pairs(), Kind::Bitmask, datum)
    }
}
