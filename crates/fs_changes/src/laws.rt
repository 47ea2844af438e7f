//! Laws of the lines.

ghost use Rattle.fs_changes.specs.{Along.{Follows}, Changes.{Leads, SaysNothing}};

/// A law of the lines from one list to another: whoever applies them, one after the other, holds the new list, and what
/// a line takes away stands at its place.
pub fn leads()
    ensures { Leads }
{}

/// A law of the lines: where a list stays as it is there are none.
pub fn says_nothing()
    ensures { SaysNothing }
{}

/// A law of the lines, one change of the held routes after the other: whoever begins with no rule and applies those of
/// any number of first changes holds exactly the rules that are admitted after the last of them, in their order, with
/// their actions.
pub fn follows()
    ensures { Follows }
{}
