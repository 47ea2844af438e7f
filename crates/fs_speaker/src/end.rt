//! Either end of a session, as what is handed to it leaves it.

ghost use Rattle.std.specs.Prelude.{◌≡◌, ◌≢◌, ◌<◌, ◌≤◌, ◌++◌, [], length, IfOk, OnOk};
ghost use Rattle.fs_session.specs.{Handed.{updates_with}, Line.{closed_after, StaysOver, FeedsOpen, TicksOpen, Lined}, Transition.{Machine}};
ghost use Rattle.fs_speaker.specs.End.{Own, HandsOver, TicksOver};

use fs_attrs::Update;
use fs_base::Memory;
use fs_session::{Announcer, Closed, Fed, Session};

/// An end that takes octets message by message.
pub trait End {
    /// Which end it is.
    ghost machine: { Self → Machine };

    /// Whose it is, and what it has said unasked.
    ghost own: { Self → Own };

    /// What it keeps of the other's octets.
    ghost line: { Self → Lined };

    /// Takes octets at a moment, up to and with the end of the first message that ends in the piece, else all of them.
    ///
    /// # Errors
    ///
    /// How it has closed.
    fn take(&mut self, moment: u64, piece: &[u8], out: &mut Vec<u8>) -> Fed
        ensures same { machine self.new ≡ machine self.old }
        ensures own { own self.new ≡ own self.old }
        ensures again { StaysOver (line self.old) (line self.new) result out.old.items out.new.items }
        ensures closed { (line self.new).closed ≡ closed_after result }
        ensures some { IfOk result (λ fed. (fed.0 ≤ length piece.now) × (0 < length piece.now → 0 < fed.0)) }
        ensures exact { FeedsOpen (machine self.old) moment (line self.old) (line self.new) piece.now out.old.items
            out.new.items result };

    /// The clock, at a moment.
    ///
    /// # Errors
    ///
    /// How it has closed.
    fn wake(&mut self, moment: u64, out: &mut Vec<u8>) -> Result<(), Closed>
        ensures same { machine self.new ≡ machine self.old }
        ensures own { own self.new ≡ own self.old }
        ensures again { StaysOver (line self.old) (line self.new) result out.old.items out.new.items }
        ensures closed { (line self.new).closed ≡ closed_after result }
        ensures exact { TicksOpen moment (line self.old) (line self.new) out.old.items out.new.items result };
}

impl<'a> End for Session<'a> {
    ghost use Rattle.fs_session.specs.{Side.{receiver}, Session.{line_of}};
    ghost use Rattle.fs_speaker.specs.End.{own_of_taker};

    ghost machine = { λ session. receiver session.config session.peer };

    ghost own = { own_of_taker };

    ghost line = { line_of };

    fn take(&mut self, moment: u64, piece: &[u8], out: &mut Vec<u8>) -> Fed {
        self.feed_at(moment, piece, out)
    }

    fn wake(&mut self, moment: u64, out: &mut Vec<u8>) -> Result<(), Closed> {
        self.tick(moment, out)
    }
}

impl<'a> End for Announcer<'a> {
    ghost use Rattle.fs_session.specs.Announcer.{machine_in};
    ghost use Rattle.fs_speaker.specs.End.{own_of_teller};

    ghost machine = { machine_in };

    ghost own = { own_of_teller };

    ghost line = { λ end. end.line };

    fn take(&mut self, moment: u64, piece: &[u8], out: &mut Vec<u8>) -> Fed {
        without_update(self.feed_at(moment, piece, out))
    }

    fn wake(&mut self, moment: u64, out: &mut Vec<u8>) -> Result<(), Closed> {
        self.tick(moment, out)
    }
}

ghost use Rattle.fs_session.specs.Announcer.{without_update};

/// The announcing end takes no update.
fn without_update(fed: Result<usize, Closed>) -> Fed
    ensures { result ≡ without_update fed }
{
    match fed {
        Ok(count) => Ok((count, None)),
        Err(why) => Err(why),
    }
}

/// Hands a piece to an end at a moment: it takes all of it, or up to what closes it. The updates that it takes are
/// appended to `taken`, and what it answers to `out`.
///
/// # Errors
///
/// `Memory` where the machine refused memory.
pub fn hand<E: End>(
    end: &mut E,
    moment: u64,
    piece: &[u8],
    taken: &mut Vec<Update>,
    out: &mut Vec<u8>,
) -> Result<(), Memory>
    ensures same { E.machine end.new ≡ E.machine end.old }
    ensures own { E.own end.new ≡ E.own end.old }
    ensures hands { OnOk result (HandsOver
        (E.machine end.old) moment (E.line end.old) (E.line end.new) piece.now taken.old.items taken.new.items
        out.old.items out.new.items) }
{
    let mut rest = piece;
    loop {
        let fed = end.take(moment, rest, out);
        match fed {
            Ok((count, update)) => {
                keep(update, taken)?;
                rest = &rest[count..];
            }
            Err(why) => return closes(why),
        }
        if rest.is_empty() {
            return Ok(());
        }
    }
}

/// Appends an update, where there is one.
fn keep(update: Option<Update>, taken: &mut Vec<Update>) -> Result<(), Memory>
    ensures { OnOk result (taken.new.items ≡ taken.old.items ++ updates_with update []) }
{
    if let Some(update) = update {
        taken.push(update)?;
    }
    Ok(())
}

/// An end that has closed takes no more; for want of memory nothing more is said of it.
pub(crate) fn closes(why: Closed) -> Result<(), Memory>
    ensures { OnOk result (why ≢ Closed.Memory) }
{
    match why {
        Closed::Memory => Err(Memory),
        Closed::Fault { .. } | Closed::Notified { .. } | Closed::NoFamily => Ok(()),
    }
}

/// The clock at an end, at a moment.
///
/// # Errors
///
/// `Memory` where the machine refused memory.
pub fn tick<E: End>(end: &mut E, moment: u64, out: &mut Vec<u8>) -> Result<(), Memory>
    ensures same { E.machine end.new ≡ E.machine end.old }
    ensures own { E.own end.new ≡ E.own end.old }
    ensures ticks { OnOk result (TicksOver
        (E.machine end.old) moment (E.line end.old) (E.line end.new) out.old.items out.new.items) }
{
    match end.wake(moment, out) {
        Ok(()) => Ok(()),
        Err(why) => closes(why),
    }
}
