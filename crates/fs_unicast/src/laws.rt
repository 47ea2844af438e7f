//! What holds of the best of some routes.

ghost use Rattle.std.specs.Prelude.{ℕ, List};
ghost use Rattle.fs_base.specs.declared.path.Path.{Path};
ghost use Rattle.fs_unicast.specs.{Laws.{IsBest}, Preference.{best_of}};

/// The law of the best: of some routes it is one of them, and none of them is preferred to it; of none there is none.
pub fn best_is_preferred()
    ensures { (routes : List (ℕ × Path)) → IsBest routes (best_of routes) }
{}
