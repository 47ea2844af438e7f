//! A law of lists, proved as the contract of a function that does nothing.

ghost use Rattle.fs_ops.specs.Same.{OnlySame};

/// `==` of two lists, numeric or bitmask, holds exactly where their pairs are the same.
pub fn equal_where_same()
    ensures { OnlySame }
{}
