//! Laws of the definitions.

ghost use Rattle.fs_base.specs.Parts.{Shrinks, Stable};
ghost use Rattle.fs_message.specs.{Stream.{first_message}, Laws.{FaultStays, TextIsFirst, OpenIsRead, UnnamedIsRefused}};

/// A message of a stream has octets, and it stands there whatever follows it; so does a fault. So the
/// messages and the fault of a stream are those of its pieces, one after the other.
pub fn messages_stay()
    ensures shrinks { Shrinks first_message }
    ensures stable { Stable first_message }
    ensures fault { FaultStays }
{}

/// A message that is written is the first message of any octets that begin with it.
pub fn texts_are_first()
    ensures { TextIsFirst }
{}

/// Our own OPEN is read as what it says, by who expects its AS; with the identifier 0 it is refused for that alone.
pub fn own_open_is_read()
    ensures read { OpenIsRead }
    ensures unnamed { UnnamedIsRefused }
{}
