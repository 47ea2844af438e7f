//! Equality of components and of rules.

ghost use Rattle.std.specs.Prelude.{◌≡◌};
ghost use Rattle.fs_nlri.specs.{Component.{content_body}, Same.{same_body}};

use crate::component::{Component, Content};
use crate::rule::Rule;

/// Whether the same stands behind two types.
fn have_same_body(a: Content<'_>, b: Content<'_>) -> bool
    ensures { result ≡ same_body (content_body a.entry) (content_body b.entry) }
{
    match (a, b) {
        (Content::Prefix(form), Content::Prefix(other)) => form == other,
        (Content::Numbers(list), Content::Numbers(other)) => list.pairs() == other.pairs(),
        (Content::Numbers(list), Content::Masks(other)) => list.pairs() == other.pairs(),
        (Content::Masks(list), Content::Numbers(other)) => list.pairs() == other.pairs(),
        (Content::Masks(list), Content::Masks(other)) => list.pairs() == other.pairs(),
        (Content::Prefix(_), Content::Numbers(_) | Content::Masks(_)) => false,
        (Content::Numbers(_) | Content::Masks(_), Content::Prefix(_)) => false,
    }
}

impl PartialEq for Component {
    ghost use Rattle.std.specs.{Ordering.{on}, Cmp.{on_equiv, partial_equiv_from_equiv}};
    ghost use Rattle.fs_nlri.specs.{Component.{part_of}, Same.{same_part, same_part_law}};

    ghost eq = { on part_of same_part };

    ghost laws = { partial_equiv_from_equiv (on_equiv part_of same_part_law) };

    fn eq(&self, other: &Component) -> bool {
        self.kind() == other.kind() && have_same_body(self.content(), other.content())
    }
}

impl Eq for Component {
    ghost use Rattle.std.specs.Cmp.{on_equiv};
    ghost use Rattle.fs_nlri.specs.{Component.{part_of}, Same.{same_part_law}};

    ghost laws = { on_equiv part_of same_part_law };
}

impl PartialEq for Rule {
    ghost use Rattle.std.specs.Cmp.{partial_equiv_from_equiv};
    ghost use Rattle.fs_nlri.specs.Same.{same_rule, same_rule_law};

    ghost eq = { same_rule };

    ghost laws = { partial_equiv_from_equiv same_rule_law };

    fn eq(&self, other: &Rule) -> bool {
        self.family == other.family && self.components == other.components
    }
}

impl Eq for Rule {
    ghost use Rattle.fs_nlri.specs.Same.{same_rule_law};

    ghost laws = { same_rule_law };
}
