//! Where a search among addresses that rise is likely to end.

ghost use Rattle.std.specs.Prelude.{◌<◌};

use crate::addresses::Addresses;
use fs_base::Memory;
use std::alloc::Global;

/// Of more addresses, only so many are looked at.
const MOST_ASKED: usize = 1024;

/// The most marks.
const MOST_MARKS: usize = 512;

/// Of each stretch of first bits, from which place on up to which an address is likely to stand that begins with some of
/// these. The stretches have equal lengths. These are guesses: who takes one tests it.
#[derive(Drop)]
pub struct Marks {
    /// The first bits of the first address.
    first: u64,
    /// Each stretch has so many first bits, as a power of two.
    shift: u32,
    places: Vec<(u32, u32)>,
    ghost small: { shift < 64 },
}

impl Marks {
    /// Of these addresses, one mark for two of them at most.
    pub(crate) fn of(alloc: Global, list: &Addresses) -> Result<Marks, Memory> {
        let mut places = Vec::new(alloc);
        let count = list.len();
        if count == 0 {
            return Ok(Marks {
                first: 0,
                shift: 0,
                places,
            });
        }
        let first = list.front(0);
        let span = list.front(count - 1).saturating_sub(first);
        let shift = shift_of(span, MOST_MARKS.min(count / 2));
        let from = put_places(&mut places, list, first, shift)?;
        places.push((from, narrow(count)))?;
        Ok(Marks {
            first,
            shift,
            places,
        })
    }

    /// From which place on up to which, of so many addresses, one with these first bits is likely to stand.
    #[inline(always)]
    pub(crate) fn guess(&self, bits: u64, count: usize) -> (usize, usize) {
        let stretch = bits.wrapping_sub(self.first) >> self.shift;
        match self.places.get(stretch as usize) {
            Some(&(from, to)) => (from as usize, to as usize),
            None if bits < self.first => (0, 0),
            None => (count, count),
        }
    }
}

/// By how many bits a span is to be shifted so that about so many stretches come out of it.
fn shift_of(span: u64, most: usize) -> u32
    ensures { result < 64 }
{
    (64 - (span / (most as u64).max(1)).leading_zeros()).min(63)
}

/// Adds the places of all stretches before that of the last address. Answers from which place on it may stand.
fn put_places(
    places: &mut Vec<(u32, u32)>,
    list: &Addresses,
    first: u64,
    shift: u32,
) -> Result<u32, Memory>
    requires { shift < 64 }
{
    let step = list.len() / MOST_ASKED + 1;
    let mut place = 0usize;
    let mut from = 0;
    let mut before = 0;
    'asked: while place < list.len() {
        let stretch = list.front(place).saturating_sub(first) >> shift;
        from = put_before(places, stretch as usize, from, before, narrow(place))?;
        before = narrow(place);
        place = place.saturating_add(step);
    }
    Ok(from)
}

/// Adds the places of the stretches before one, in which the address at `to` stands. The one before it stands at `before`,
/// and the first of these stretches begins at `from`. Answers from which place on the stretch may begin.
fn put_before(
    places: &mut Vec<(u32, u32)>,
    stretch: usize,
    from: u32,
    before: u32,
    to: u32,
) -> Result<u32, Memory> {
    let mut from = from;
    'stretches: while places.len() < stretch {
        places.push((from, to))?;
        from = before;
    }
    Ok(from)
}

fn narrow(place: usize) -> u32 {
    place.min(0xffff_ffff) as u32
}
