//! Laws of the definitions.

ghost use Rattle.fs_attrs.specs.{Laws.{IsTheOutcome}, Same.{OnlySamePrefixes, OnlySameRules}};

/// What is read of a field of flow specification NLRI is the outcome that the grammar of flow rules gives it; it has
/// only one.
pub fn rules_are_the_outcome()
    ensures { IsTheOutcome }
{}

/// `==` of two lists of prefixes, or of rules, holds exactly where they are the same.
pub fn equal_where_same()
    ensures prefixes { OnlySamePrefixes }
    ensures rules { OnlySameRules }
{}
