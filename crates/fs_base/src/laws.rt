//! The order of prefixes, in words.

ghost use Rattle.fs_base.specs.{Prefix.{prefix_cmp}, Laws.{IsPrecedence}};

/// A law of the order of `Prefix`: IPv4 stands before IPv6; of two nested prefixes the longer stands first; of
/// others of a family that with the lower address. The order is total, and equal for the same prefix alone.
pub fn precedence()
    ensures { IsPrecedence prefix_cmp }
{}
