//! The command `enforce`.

ghost use Rattle.std.specs.Prelude.{◌≡◌, ◌≢◌, ◌≤◌, IsTrue};
ghost use Rattle.fs_base.specs.Happened.{happened};
ghost use Rattle.cmd_enforce.specs.Command.{Enforces, Unopened, Wants, openings_of, shown};
ghost use Rattle.cmd_stages.specs.{Load.{OpensFront}, Play.{HasVersion}, Refusal.{answered}};
ghost use Rattle.fs_tape.specs.declared.magic.Version.TheVariants.{Two};

use crate::judge::judge_capture;
use crate::packets::open_capture;
use cmd_stages::{Player, Refusal, load_config};
use fs_base::{Files, Sink};
use std::alloc::Global;

/// The names of the files that `enforce` reads.
#[derive(Clone, Copy, Drop)]
pub struct InputNames<'w> {
    pub config: &'w str,
    pub tape: &'w str,
    pub capture: &'w str,
}

/// Plays the tape, and writes a line for each packet of the capture: by the rules that a tape of the first version
/// leaves admitted, and by those that one of the second version admits at the packet's moment. That one is read twice.
///
/// # Errors
///
/// The first of these, in this order of work: the configuration's, the tape's, the capture's. What is written before
/// the capture is read is nothing. Over a tape of the first version no memory is taken after the first packet; over
/// one of the second version, at want of memory the lines of the packets before are written.
pub fn enforce<F: Files, S: Sink>(
    alloc: Global,
    files: &mut F,
    sink: &mut S,
    names: &InputNames<'_>,
    limit: u64,
) -> Result<(), Refusal>
    ensures files_later { F.faults files.old ≤ F.faults files.new }
    ensures sink_later { S.faults sink.old ≤ S.faults sink.new }
    ensures possible { (answered result ≢ 8) × (answered result ≢ 10) }
    ensures opens { OpensFront (openings_of names.now.config.now names.now.tape.now names.now.capture.now)
        (F.opened files.old) (F.opened files.new) (answered result) }
    ensures quiet { answered result ≡ 3 → sink.new ≡ sink.old }
    ensures still { IsTrue F.tells → answered result ≡ 4 → sink.new ≡ sink.old }
    ensures unopened { IsTrue F.tells → answered result ≡ 4
        → Unopened names.now.config.now names.now.tape.now names.now.capture.now
        (F.opened files.old) (F.opened files.new) }
    ensures unwritten { IsTrue F.tells → answered result ≡ 6
        → (HasVersion limit (F.holds files.old) names.now.tape.now Two → ⊥) → sink.new ≡ sink.old }

    ensures enforces { IsTrue F.tells
        → Enforces limit (F.holds files.old) names.now.config.now names.now.tape.now names.now.capture.now
        (happened F.Files S.Sink files.old files.new sink.old sink.new)
        (answered result) }
    ensures wanting { IsTrue F.tells
        → answered result ≡ 6
        → Wants limit (F.holds files.old) names.now.config.now names.now.tape.now names.now.capture.now
        (shown F.opened F.left files.old files.new)
        (happened F.Files S.Sink files.old files.new sink.old sink.new) }
{
    let config = load_config(alloc, files, names.config, limit)?;
    let whole = Player::read_whole(alloc, files, &config, names.tape, limit)?;
    let mut capture = open_capture(files, names.capture, limit)?;
    match whole {
        Some(player) => judge_capture(alloc, files, sink, &mut capture, player),
        None => {
            // the second version is read again, and played along the capture
            let player = Player::begin(alloc, files, &config, names.tape, limit)?;
            judge_capture(alloc, files, sink, &mut capture, player)
        }
    }
}
