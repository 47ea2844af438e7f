//! What a rule asks of one field, as far as ranges of the field's numbers say it.

/// Numbers of a field: any, those of one range, from a first to a last, or those of several.
#[derive(Clone, Copy)]
pub enum Limit<'a> {
    Any,
    Range(u64, u64),
    Ranges(&'a [(u64, u64)]),
}
