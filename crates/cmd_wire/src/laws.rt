//! Laws of the definitions.

ghost use Rattle.cmd_wire.specs.{KeepingLaws.{KeptExactly}, Laws.{AcceptedArrive}};

/// What an accepted rules file says is to be sent can arrive at the other end: the numbers of both OPENs fit, and each
/// rule's UPDATE is read as the rule's update, where the file's identifier isn't 0.0.0.0.
pub fn accepted_rules_arrive()
    ensures { AcceptedArrive }
{}

/// Whatever comes while `keep` runs: where a connection was told rules, they are those that the file was accepted as
/// last, and what was said through it leaves the other end exactly them, where no file's identifier is 0.0.0.0 and the
/// other end's OPEN has the capability for AS numbers of four octets (RFC 6793, section 3).
pub fn kept_rules_are_exact()
    ensures { KeptExactly }
{}
