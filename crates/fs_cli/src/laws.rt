//! What is told of the changes along a tape without running it.

ghost use Rattle.std.specs.Prelude.{◌≡◌, ℕ, List};
ghost use Rattle.fs_base.specs.declared.config.Config.{Config};
ghost use Rattle.fs_changes.specs.Tape.{HoldAfter, changes_of};
ghost use Rattle.fs_rules.specs.Table.{Held};
ghost use Rattle.fs_tape.specs.Tape.{Timed};
ghost use Rattle.fs_cli.specs.Changes.{LeaveSameAfter};

use fs_desk::same_routes;

/// Tapes whose items have the same moments, one after the other, and leave the same routes after each have one text of
/// what they change: it takes nothing of a tape but these.
pub fn same_changes()
    ensures { (config : Config) (items other : List Timed) (held kept : ℕ → Held)
        → LeaveSameAfter config items other
        → HoldAfter config items held
        → HoldAfter config other kept
        → changes_of held items ≡ changes_of kept other }
{
    same_routes();
}
