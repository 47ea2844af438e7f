//! Lists of routes, which contracts see as lists.

ghost use Rattle.std.specs.Prelude.{◌≡◌, ◌==◌, length, map};
ghost use Rattle.fs_nlri.specs.Rule.{shown};

use fs_base::{Items, Prefix};
use fs_nlri::Rule;
use std::marker::Model;

/// Unicast prefixes. A contract sees each as its family, bits and length.
#[derive(Debug, Drop)]
pub struct PrefixList {
    items: Vec<Prefix>,
}

impl Model for PrefixList {
    ghost use Rattle.std.specs.Prelude.{ℕ, List, map};
    ghost use Rattle.fs_base.specs.declared.prefix.Family.{Family};
    ghost use Rattle.fs_nlri.specs.Rule.{shown};

    ghost Value = { List (Family × ℕ × ℕ) };

    ghost view = { λ a. map shown a.items.items };
}

impl PartialEq for PrefixList {
    ghost use Rattle.std.specs.Cmp.{partial_equiv_from_equiv};
    ghost use Rattle.fs_attrs.specs.Same.{same_prefixes, same_prefixes_law};

    ghost eq = { same_prefixes };

    ghost laws = { partial_equiv_from_equiv same_prefixes_law };

    fn eq(&self, other: &PrefixList) -> bool {
        self.items == other.items
    }
}

impl Eq for PrefixList {
    ghost use Rattle.fs_attrs.specs.Same.{same_prefixes_law};

    ghost laws = { same_prefixes_law };
}

impl PrefixList {
    ghost use Rattle.std.specs.Prelude.{All};
    ghost use Rattle.fs_attrs.specs.Lists.{IsPrefix};

    /// The list of these prefixes, in their order.
    pub fn new(items: Vec<Prefix>) -> PrefixList
        ensures { result ≡ map shown items.items }
    {
        PrefixList { items }
    }

    /// Whether no route is listed.
    pub fn is_empty(&self) -> bool
        ensures { result ≡ (length self.now == 0) }
    {
        self.items.is_empty()
    }

    /// The prefixes; each has no bits past its length.
    pub fn as_slice(&self) -> &[Prefix]
        ensures value { map shown result.now ≡ self.now }
        ensures prefixes { All IsPrefix self.now }
    {
        self.items.as_slice()
    }

    /// The prefixes, in their order.
    pub fn into_vec(self) -> Vec<Prefix>
        ensures { map shown result.items ≡ self }
    {
        self.items
    }
}

/// Rules, as an UPDATE lists them.
pub type RuleList = Items<Rule>;
