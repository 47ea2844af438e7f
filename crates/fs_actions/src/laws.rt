//! Laws of the definitions.

ghost use Rattle.std.specs.Prelude.{ℕ, List};
ghost use Rattle.fs_actions.specs.{Actions.{actions_of}, Laws.{AreListed}, Same.{OnlySame}};

/// The actions of a field are exactly its listed communities in normal form, each once, by rising octets.
pub fn actions_are_the_listed()
    ensures { (octets : List ℕ) → AreListed octets (actions_of octets) }
{}

/// `==` of two lists of actions holds exactly where they are the same.
pub fn equal_where_same()
    ensures { OnlySame }
{}
