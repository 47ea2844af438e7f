//! What is told of tapes without running them.

ghost use Rattle.std.specs.Prelude.{◌≡◌, ℕ, Bool, false, List};
ghost use Rattle.fs_base.specs.declared.config.Config.{Config};
ghost use Rattle.fs_rules.specs.Table.{Held};
ghost use Rattle.fs_tape.specs.Tape.{Item};
ghost use Rattle.fs_desk.specs.{Desk.{Desked, Played, PlayedBut, standing_at_desk}, Laws.{LeaveSame}, Leaves.{Leaves}};

/// Tapes that leave the same routes leave one list of held routes, and so print the same lines: the lines take nothing
/// of a tape but the routes that it leaves held.
pub fn same_routes()
    ensures { (config : Config) (items other : List Item) (held kept : Held)
        → LeaveSame config items other
        → Leaves config items held
        → Leaves config other kept
        → held ≡ kept }
{}

/// Where the clock has closed no session, what was played holds of every peer. A loss of a peer, or a new session,
/// ends that the clock has closed its session.
pub fn none_expired()
    ensures { (expired : ℕ → Bool) (config : Config) (items : List Item) (desk : Desked)
        → PlayedBut expired config items desk
        → ((number : ℕ) → expired number ≡ false)
        → Played config items desk }
{}

/// Desks that stand as the same items leave them hold the same routes, and stand alike with every peer: a tape of what
/// happened at one desk gives another just like it.
pub fn same_desks()
    ensures { (expired : ℕ → Bool) (config : Config) (items : List Item) (desk other : Desked)
        → PlayedBut expired config items desk
        → PlayedBut expired config items other
        → (desk.held ≡ other.held)
        × ((number : ℕ) → standing_at_desk desk number ≡ standing_at_desk other number) }
{}
