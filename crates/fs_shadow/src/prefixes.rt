//! Prefixes of IPv6 with an offset.

ghost use Rattle.std.specs.Prelude.{◌<◌, ◌≤◌};

/// The addresses of which the bits from `offset` up to `length` are known: they are the first of the 128 of `pattern`.
#[derive(Clone, Copy)]
pub(crate) struct Known {
    pub(crate) length: u8,
    pub(crate) offset: u8,
    pub(crate) pattern: u128,
    pub(crate) ghost short: { length ≤ 128 },
    pub(crate) ghost some: { offset < 128 },
    pub(crate) ghost order: { offset ≤ length },
}
