//! What is counted of the records of a dump.

ghost use Rattle.std.specs.{Prelude.{◌≡◌, ◌≤◌, ◌<◌, ◌+◌, ◌^◌, OnOk}, List.{AllByRecursion}};
ghost use Rattle.cmd_convert.specs.Survey.{note_place, weight, with_note};

use fs_base::Memory;
use fs_mrt::Note;

/// A peer, or a type of records that aren't read, by the first of its records; and how many of its messages, or of its
/// records, there are.
#[derive(Clone, Copy, Debug, PartialEq, Eq, Drop)]
pub(crate) struct NoteCount {
    pub(crate) note: Note,
    pub(crate) count: u64,
}

/// How much a record counts: a change of state only tells who speaks.
fn weight(note: Note) -> u64
    ensures exact { result ≡ weight note }
    ensures few { result ≤ 1 }
{
    match note {
        Note::Skipped { .. } => 1,
        Note::Spoke { message, .. } => { if message { 1 } else { 0 } }
    }
}

/// Where the count of a record stands.
fn place_of(counts: &[NoteCount], note: Note) -> Option<usize>
    ensures { result ≡ note_place note counts.now }
{
    counts.iter().position(|count| count.note.is_like(note))
}

/// Counts one record more. The counts stand in the order of the first records.
pub(crate) fn add_note(counts: &mut Vec<NoteCount>, note: Note) -> Result<(), Memory>
    requires { AllByRecursion (λ (count : NoteCount). count.count + 1 < 2 ^ 64) counts.old.items }
    ensures { OnOk result (counts.new.items ≡ with_note note counts.old.items) }
{
    let weight = weight(note);
    match place_of(counts, note) {
        Some(place) => counts[place].count += weight,
        None => counts.push(NoteCount {
            note,
            count: weight,
        })?,
    }
    Ok(())
}
