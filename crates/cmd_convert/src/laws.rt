//! Laws of the definitions.

ghost use Rattle.cmd_convert.specs.Laws.{KeepsLives, ReadsBackConverted};

/// The tape that a dump's records make gives exactly their items again, and is done, where it lies below the limit, and
/// only there.
pub fn reads_back_converted()
    ensures { ReadsBackConverted }
{}

/// The lives of the peers by which a dump's items are made stand, after each front of the records, exactly where the
/// items so far leave a peer up: a life is ended where one stands, and begun where none does.
pub fn keeps_lives()
    ensures { KeepsLives }
{}
