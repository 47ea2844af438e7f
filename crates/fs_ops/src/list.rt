//! Lists of operators and values (RFC 8955 section 4.2.1), of either kind.

ghost use Rattle.std.specs.Prelude.{◌≡◌, ◌≤◌, ◌<◌, ◌^◌, ◌++◌, length, take, map, bit_and, Err, IfOk, IfErr, IfSome, IfNone, OnOk, OnErr};
ghost use Rattle.fs_ops.specs.{OperatorList.{Spells, IsNormal, canonical}, Fault.{CanBeWide, IsFault, barred_at}};

use crate::fault::Answer;
use crate::kind::OfKind;
use crate::pairs::PairList;
use crate::{making, reading, writing};
use fs_base::Memory;
use std::alloc::Global;
use std::marker::{Model, PhantomData};

/// A list of operators of one kind and values in normal form: reserved bits and the first operator's AND bit
/// are clear. It is never empty.
#[derive(Debug, Drop)]
pub struct OperatorList<K: OfKind> {
    list: PairList,
    kind: PhantomData<K>,
}

impl<K: OfKind> Model for OperatorList<K> {
    ghost use Rattle.std.specs.Prelude.{ℕ, List};
    ghost use Rattle.fs_ops.specs.OperatorList.{IsNormal};

    ghost Value = { List (ℕ × ℕ) };

    ghost view = { λ a. a.list };

    ghost invariant = { λ a. IsNormal K.KIND a.list };
}

impl<K: OfKind> PartialEq for OperatorList<K> {
    ghost use Rattle.fs_ops.specs.Same.{same_pairs, same_pairs_law};
    ghost use Rattle.std.specs.Cmp.{partial_equiv_from_equiv};

    ghost eq = { same_pairs };

    ghost laws = { partial_equiv_from_equiv same_pairs_law };

    fn eq(&self, other: &OperatorList<K>) -> bool {
        self.pairs() == other.pairs()
    }
}

impl<K: OfKind> Eq for OperatorList<K> {
    ghost use Rattle.fs_ops.specs.Same.{same_pairs_law};

    ghost laws = { same_pairs_law };
}

impl<K: OfKind> OperatorList<K> {
    fn new(list: PairList) -> OperatorList<K>
        requires { IsNormal K.KIND list }
        ensures { result ≡ list }
    {
        OperatorList {
            list,
            kind: PhantomData,
        }
    }

    /// Reads the list that stands at the front of the octets, and answers how many octets it takes. The
    /// width codes allowed are those of `widths`: code 0 is one octet, 1 two, 2 four, 3 eight. Where none of
    /// these is among them, the answer is `Width` at the first octet, or `Cut` where there are no octets.
    pub fn decode_within(
        alloc: Global,
        octets: &[u8],
        widths: &[u8],
    ) -> Answer<(OperatorList<K>, usize)>
        ensures taken { IfOk result (λ read. read.1 ≤ length octets.now) }
        ensures found { IfOk result (λ read. Spells K.KIND widths.now (take read.1 octets.now) read.0) }
        ensures fault { CanBeWide widths.now → IfErr result (IsFault widths.now octets.now) }
        ensures barred { (CanBeWide widths.now → ⊥) → result ≡ Err (barred_at octets.now) }
    {
        let (list, taken) = reading::read(alloc, K::KIND, octets, widths)?;
        Ok((OperatorList::new(list), taken))
    }

    /// The list of these pairs. None exactly where they aren't in normal form.
    pub fn from_pairs(pairs: Vec<(u8, u64)>) -> Option<OperatorList<K>>
        ensures some { IfSome result (λ list. list ≡ pairs.items) }
        ensures none { IfNone result (IsNormal K.KIND pairs.items → ⊥) }
    {
        if !making::is_normal(K::KIND, &pairs) {
            return None;
        }
        Some(OperatorList::new(PairList::new(pairs)))
    }

    /// The operator octets, each with its value.
    pub fn pairs(&self) -> &[(u8, u64)]
        ensures value { result.now ≡ self.now }
        ensures normal { IsNormal K.KIND self.now }
    {
        self.list.as_slice()
    }

    /// How many octets `encode` appends.
    pub fn encoded_len(&self) -> usize
        ensures value { result ≡ length (canonical self.now) }
        ensures small { result < 2 ^ 63 }
    {
        writing::encoded_len(self.list.as_slice())
    }

    /// Appends the list's octets; after want of memory `out` is as it was.
    pub fn encode(&self, out: &mut Vec<u8>) -> Result<(), Memory>
        ensures ok { OnOk result (out.new.items ≡ out.old.items ++ canonical self.now) }
        ensures err { OnErr result (out.new.items ≡ out.old.items) }
    {
        writing::write(self.list.as_slice(), out)
    }

    /// Clears the other bits of each value.
    pub fn keep_bits(&mut self, bits: u64)
        ensures { self.new ≡ map (λ pair. (pair.0, bit_and pair.1 bits)) self.old }
    {
        self.list.keep_bits(bits);
    }

    /// An equal list.
    pub fn copy(&self) -> Result<OperatorList<K>, Memory>
        ensures { IfOk result (λ list. list ≡ self.now) }
    {
        Ok(OperatorList::new(self.list.copy()?))
    }
}
