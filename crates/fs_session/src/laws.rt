//! Laws of the definitions.

ghost use Rattle.fs_session.specs.Laws.{TakesFirst, StopsLast, WaitsThere, RulesArrive, RulesComeBack, HandsOn, HandsLast, HandsNothing};
ghost use Rattle.fs_session.specs.Laws.{HandsUpdates, HandsReplies, HandsBoth, HandsBothReplies, FrontsFirst};

/// The steps that either end of a session takes, one after the other, make the session of all octets, however these
/// were cut: a step that takes a message is the session's first, whatever follows; one that closes is its last; and
/// octets that wait for more leave it where it stood.
pub fn steps_make_the_session()
    ensures takes { TakesFirst }
    ensures stops { StopsLast }
    ensures waits { WaitsThere }
{}

/// What an announcing end says is, at the receiving end, exactly its rules' updates in their order, and both are
/// then Established. Each UPDATE is to be read as the update of its rule, as `rules_come_back` says.
pub fn rules_arrive()
    ensures { RulesArrive }
{}

/// The UPDATE of a rule, as octets say rules, is read as the update that announces it, where it fits the 4096 octets
/// of a message and its path has at most 255 AS numbers of four octets.
pub fn rules_come_back()
    ensures { RulesComeBack }
{}

/// What an end comes to that is handed octets at a moment is made by the same steps, one after the other; and
/// whatever the moments are, it takes the updates of the session and answers its replies.
pub fn steps_make_what_is_handed()
    ensures takes { HandsOn }
    ensures stops { HandsLast }
    ensures waits { HandsNothing }
    ensures updates { HandsUpdates }
    ensures replies { HandsReplies }
{}

/// Pieces that are handed to an open end one after the other, at whatever moments, give the updates and the replies
/// of their octets at once. So the updates of whatever front was taken are the first ones of all, in their order.
pub fn pieces_join()
    ensures updates { HandsBoth }
    ensures replies { HandsBothReplies }
    ensures fronts { FrontsFirst }
{}
