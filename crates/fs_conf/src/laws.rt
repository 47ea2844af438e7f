//! Laws of the definitions.

ghost use Rattle.fs_conf.specs.Laws.{AcceptsNumbers, AcceptsRules, NamesTheFault, NamesTheRulesFault};

/// The AS numbers of a configuration that a file writes, its identifier and its peers' numbers aren't 0 and fit the
/// octets that messages and tapes have for them; its hold time is 0, or 3 to 65535 seconds (RFC 4271, section 4.2).
pub fn accepts_numbers()
    ensures { AcceptsNumbers }
{}

/// What a rules file says is to be sent has an identifier and AS numbers of four octets, these at most 255, and rules
/// and actions in normal form; each rule's UPDATE to the peer that rules are sent for fits the 4096 octets of a
/// message.
pub fn accepts_rules()
    ensures { AcceptsRules }
{}

/// A document has a fault as a configuration exactly where it isn't accepted, octets that have a fault are no
/// configuration, and a key that a document doesn't have is named before one that it lacks.
pub fn names_the_fault()
    ensures { NamesTheFault }
{}

/// A document has a fault as a rules file beside a configuration exactly where it isn't accepted, octets that have a
/// fault are no rules file, and a key that a document doesn't have is named before one that it lacks.
pub fn names_the_rules_fault()
    ensures { NamesTheRulesFault }
{}
