//! Ranges of a packet's fields.

ghost use Rattle.std.specs.Prelude.{◌≡◌, ℕ, ◌<◌, true, IfSome};
ghost use Rattle.fs_ranges.specs.{Limits.{allows}, Facts.{Facts, number_of}, Spans.{is_in}};
ghost use Rattle.fs_ranges.specs.Ranges.{is_in_range, free_ranges, range_at, range_holds, ranges_hold, with_range};

use crate::facts::Facts;
use crate::field::Field;
use crate::limits::Limit;

/// From which number to which a field lies. No absent field's does: its number is above each `high`.
#[derive(Clone, Copy)]
pub(crate) struct Range {
    pub(crate) field: Field,
    pub(crate) low: u32,
    pub(crate) high: u32,
}

impl Range {
    pub(crate) fn holds(&self, facts: &Facts<'_>) -> bool
        ensures { result ≡ range_holds facts.now self.now }
    {
        is_in_range(self.field, self.low, self.high, facts)
    }
}

/// How many ranges stand within a rule.
pub(crate) const PLACES: usize = 4;

/// The four ranges that stand within a rule. In a free place stands that of no field from 0 to 0, which always holds, so
/// that the places are tested without a count. The fields stand apart from the bounds, so that they take no padding.
#[derive(Drop)]
pub(crate) struct Ranges {
    fields: [Field; 4],
    bounds: [(u32, u32); 4],
}

impl Ranges {
    /// All places free.
    pub(crate) fn free() -> Ranges
        ensures { result ≡ free_ranges }
    {
        Ranges {
            fields: [Field::Zero; 4],
            bounds: [(0, 0); 4],
        }
    }

    /// Puts a range before the others, of which the last, that of a free place, goes. So the later components, in which
    /// rules differ most, are tested first, and the destination last, which mostly holds where a rule is tested.
    pub(crate) fn put(&mut self, range: Range)
        ensures { self.new ≡ with_range self.old range }
    {
        let (fields, bounds) = (self.fields, self.bounds);
        self.fields = [range.field, fields[0], fields[1], fields[2]];
        self.bounds = [(range.low, range.high), bounds[0], bounds[1], bounds[2]];
    }

    /// Whether all four hold.
    #[inline(always)]
    pub(crate) fn hold(&self, facts: &Facts<'_>) -> bool
        ensures { result ≡ ranges_hold facts.now self.now }
    {
        self.holds_at(0, facts)
            && self.holds_at(1, facts)
            && self.holds_at(2, facts)
            && self.holds_at(3, facts)
    }

    /// Within which numbers the field is where all four hold.
    pub(crate) fn limit(&self, field: Field) -> Limit<'_>
        ensures { (facts : Facts)
            → ranges_hold facts self.now ≡ true
            → allows result (number_of facts field) ≡ true }
    {
        match self.of(field) {
            Some((low, high)) => Limit::Range(low.into(), high.into()),
            None => Limit::Any,
        }
    }

    /// The range of the field.
    fn of(&self, field: Field) -> Option<(u32, u32)>
        ensures { (facts : Facts)
            → ranges_hold facts self.now ≡ true
            → IfSome result (λ range. is_in (number_of facts field) range ≡ true) }
    {
        for place in 0..PLACES {
            if self.fields[place].kind() == field.kind() {
                return Some(self.bounds[place]);
            }
        }
        None
    }

    #[inline(always)]
    fn holds_at(&self, place: usize, facts: &Facts<'_>) -> bool
        requires { place < 4 }
        ensures { result ≡ range_at facts.now self.now place }
    {
        let (low, high) = self.bounds[place];
        is_in_range(self.fields[place], low, high, facts)
    }
}

#[inline(always)]
pub(crate) fn is_in_range(field: Field, low: u32, high: u32, facts: &Facts<'_>) -> bool
    ensures { result ≡ is_in_range facts.now field low high }
{
    let number = facts.number(field);
    low as u64 <= number && number <= high as u64
}
