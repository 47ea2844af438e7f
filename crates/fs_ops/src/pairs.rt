//! The pairs of a list, as they are kept.

ghost use Rattle.std.specs.Prelude.{◌≡◌, ◌∷◌, [], map, bit_and, IfOk};

use fs_base::Memory;
use std::marker::Model;
use std::slice;

/// The pairs of a list. A list of one pair, as most are, holds it in itself and takes no memory.
#[derive(Debug, Drop)]
pub struct PairList {
    kept: Stored,
}

#[derive(Debug, Drop)]
enum Stored {
    One((u8, u64)),
    Many(Vec<(u8, u64)>),
}

impl Model for PairList {
    ghost use Rattle.std.specs.Prelude.{ℕ, List};
    ghost use Rattle.fs_ops.specs.Pairs.{kept_pairs};

    ghost Value = { List (ℕ × ℕ) };

    ghost view = { λ a. kept_pairs a.kept };
}

impl PairList {
    /// This pair alone.
    pub fn single(pair: (u8, u64)) -> PairList
        ensures { result ≡ pair ∷ [] }
    {
        PairList {
            kept: Stored::One(pair),
        }
    }

    /// These pairs, with no room for more.
    pub fn new(mut pairs: Vec<(u8, u64)>) -> PairList
        ensures { result ≡ pairs.items }
    {
        if let [pair] = pairs.as_slice() {
            return PairList::single(*pair);
        }
        pairs.shrink_to_fit();
        PairList {
            kept: Stored::Many(pairs),
        }
    }

    pub fn as_slice(&self) -> &[(u8, u64)]
        ensures { result.now ≡ self.now }
    {
        match &self.kept {
            Stored::One(pair) => slice::from_ref(pair),
            Stored::Many(pairs) => pairs.as_slice(),
        }
    }

    /// Clears the other bits of each value.
    pub fn keep_bits(&mut self, bits: u64)
        ensures { self.new ≡ map (λ pair. (pair.0, bit_and pair.1 bits)) self.old }
    {
        match &mut self.kept {
            Stored::One((_, value)) => *value &= bits,
            Stored::Many(pairs) => keep_bits(pairs, bits),
        }
    }

    /// Equal pairs.
    pub fn copy(&self) -> Result<PairList, Memory>
        ensures { IfOk result (λ pairs. pairs ≡ self.now) }
    {
        let kept = match &self.kept {
            Stored::One(pair) => Stored::One(*pair),
            Stored::Many(pairs) => Stored::Many(pairs.clone()?),
        };
        Ok(PairList { kept })
    }
}

/// Clears the other bits of each value.
fn keep_bits(pairs: &mut [(u8, u64)], bits: u64)
    ensures { pairs.new ≡ map (λ pair. (pair.0, bit_and pair.1 bits)) pairs.old }
{
    for (_, value) in pairs.iter_mut() {
        *value &= bits;
    }
}
