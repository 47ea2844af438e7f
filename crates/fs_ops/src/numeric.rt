//! Lists of numeric operators (RFC 8955 section 4.2.1.1).

ghost use Rattle.std.specs.Prelude.{◌≡◌, ◌≤◌, length, take, IfOk, IfErr};
ghost use Rattle.fs_ops.specs.{Operator.{Numeric}, OperatorList.{Spells, first_joins}, Fault.{IsFault, all_widths}, Evaluation.{holds, compares}};

use crate::evaluation;
use crate::fault::Answer;
use crate::kind::{Kind, NumKind};
use crate::list::OperatorList;
use std::alloc::Global;

/// A list of numeric operators and values.
pub type NumList = OperatorList<NumKind>;

impl OperatorList<NumKind> {
    /// Reads the list that stands at the front of the octets, with values of 1, 2, 4 or 8 octets, and
    /// answers how many octets it takes.
    pub fn decode(alloc: Global, octets: &[u8]) -> Answer<(NumList, usize)>
        ensures taken { IfOk result (λ read. read.1 ≤ length octets.now) }
        ensures found { IfOk result (λ read. Spells Numeric all_widths (take read.1 octets.now) read.0) }
        ensures fault { IfErr result (IsFault all_widths octets.now) }
    {
        NumList::decode_within(alloc, octets, &[0, 1, 2, 3])
    }

    /// Whether the list holds of the number: it is an OR of groups, each an AND of its pairs.
    pub fn eval(&self, datum: u64) -> bool
        ensures { result ≡ holds (compares datum) self.now }
    {
        evaluation::eval(self.pairs(), Kind::Numeric, datum)
    }
}
