//! A law of texts, proved as the contract of a function that does nothing.

ghost use Rattle.fs_text.specs.Laws.{EachHasOnePair};

/// A text is that of one rule with one list of actions at most.
pub fn each_text_has_one_pair()
    ensures { EachHasOnePair }
{}
