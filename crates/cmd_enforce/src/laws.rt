//! What is told of tapes without running them.

ghost use Rattle.std.specs.Prelude.{◌≡◌, ℕ, List};
ghost use Rattle.fs_base.specs.declared.config.Config.{Config};
ghost use Rattle.cmd_enforce.specs.{Capture.{Recorded}, Judge.{output_of}, Moments.{HoldAt, LeaveSameAt}};
ghost use Rattle.fs_rules.specs.Table.{Held};
ghost use Rattle.fs_tape.specs.Tape.{Timed};

use fs_desk::same_routes;

/// Tapes that hold the same routes at the moments of a capture's packets print the same lines for them: the lines take
/// nothing of a tape but the routes that it holds then.
pub fn same_lines()
    ensures { (config : Config)
        → (items other : List Timed)
        → (held kept : ℕ → Held)
        → (capture : Recorded)
        → LeaveSameAt config items other capture.packets
        → HoldAt config items held capture.packets
        → HoldAt config other kept capture.packets
        → output_of held capture ≡ output_of kept capture }
{
    same_routes();
}
