//! Laws of the definitions.

ghost use Rattle.fs_recorder.specs.Laws.{Alternates, ReadsBackRecorded, Replays};

use fs_desk::same_desks;
use fs_tape::reads_back;

/// Whatever happens, the tape of it, where it is shorter than the limit, gives exactly what was told, and is done.
pub fn reads_back_recorded()
    ensures { ReadsBackRecorded }
{
    reads_back();
}

/// A desk that plays the tape so far holds the routes that the recorder's desk holds, and stands as it does with every
/// peer.
pub fn replays()
    ensures { Replays }
{
    same_desks();
}

/// Where no line is taken twice it is told of each peer that it came up, what it sent, and that it was lost, again and again.
pub fn alternates()
    ensures { Alternates }
{}
