//! The two kinds of operator lists.

/// What a list's operators are: comparisons with a value (RFC 8955 section 4.2.1.1), or tests of bits
/// (section 4.2.1.2).
#[derive(Clone, Copy)]
pub enum Kind {
    Numeric,
    Bitmask,
}

/// A kind of list as a type: what the type parameter of `OperatorList` says.
pub trait OfKind {
    ghost use Rattle.fs_ops.specs.Operator.{Kind};

    ghost KIND: { Kind };

    /// The same as a value.
    const KIND: Kind;
}

/// The kind of `NumList`.
#[derive(Debug, Drop)]
pub struct NumKind;

impl OfKind for NumKind {
    ghost use Rattle.fs_ops.specs.Operator.{Numeric};

    ghost KIND = { Numeric };

    const KIND: Kind = Kind::Numeric;
}

/// The kind of `MaskList`.
#[derive(Debug, Drop)]
pub struct MaskKind;

impl OfKind for MaskKind {
    ghost use Rattle.fs_ops.specs.Operator.{Bitmask};

    ghost KIND = { Bitmask };

    const KIND: Kind = Kind::Bitmask;
}
