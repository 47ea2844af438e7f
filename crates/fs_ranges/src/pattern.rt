//! Prefixes of IPv6 with an offset.

ghost use Rattle.std.specs.Prelude.{◌<◌};

/// The addresses whose bits from `offset` on, as a number of 128 bits, lie from `low` to `high`.
#[derive(Clone, Copy)]
pub(crate) struct Pattern {
    pub(crate) low: u128,
    pub(crate) high: u128,
    pub(crate) offset: u8,
    pub(crate) ghost small: { offset < 128 },
}
