//! Which unicast routes the validity of a flow route depends on.

ghost use Rattle.fs_validate.specs.Laws.{Locality};

/// The locality law: lists of unicast routes that agree on those whose prefix covers a flow route's destination or
/// lies under it give the route the same validity, and a route without a destination depends on none.
pub fn agree()
    ensures { Locality }
{}
