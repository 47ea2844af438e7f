//! Laws of rules and frames, each proved as the contract of a function that does nothing.

ghost use Rattle.fs_nlri.specs.Laws.{NoFrameGoesOn, CanonicalIsFrame, CanonicalIsOwn, CanonicalTells, EachBeginsSomehow, EachIsAField, BeginsOneWay};
ghost use Rattle.fs_nlri.specs.Laws.{IsOneField, NormalMakes};
ghost use Rattle.fs_nlri.specs.Same.{OnlySameParts, OnlySameRules};

/// No frame of a family is a proper prefix of another.
pub fn no_frame_goes_on()
    ensures { NoFrameGoesOn }
{}

/// The canonical frame of a rule is a frame of it, and of no other rule of its family. By the contract of
/// `decode` it is therefore read as this rule, whatever follows it.
pub fn canonical_is_frame()
    ensures frame { CanonicalIsFrame }
    ensures own { CanonicalIsOwn }
{}

/// Two frames of a family say one rule exactly where the canonical frames of what they say are equal.
pub fn canonical_tells()
    ensures { CanonicalTells }
{}

/// Whatever octets are, they begin with a frame of a rule or have a first fault; and they are frames of rules, one
/// after the other, or have a first faulty frame.
pub fn every_outcome()
    ensures frame { EachBeginsSomehow }
    ensures field { EachIsAField }
{}

/// No octets have two such outcomes.
pub fn one_outcome()
    ensures frame { BeginsOneWay }
    ensures field { IsOneField }
{}

/// Components in normal form make the rule of themselves, unless their value is too long for a frame.
pub fn normal_makes()
    ensures { NormalMakes }
{}

/// `==` of two components, or of two rules, holds exactly where they are the same.
pub fn equal_where_same()
    ensures components { OnlySameParts }
    ensures rules { OnlySameRules }
{}
