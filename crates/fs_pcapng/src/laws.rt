//! A law of the definitions.

ghost use Rattle.fs_pcapng.specs.Laws.{ReadsBack};

/// A capture gives these packets and is done exactly where it is the text of blocks that give them, one behind the other,
/// the first of them a section header, and lies below the limit.
pub fn reads_back()
    ensures { ReadsBack }
{}
