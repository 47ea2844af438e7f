//! Rules as keys of ordered maps.

use crate::comparison::compare;
use fs_nlri::Rule;
use std::cmp::Ordering;

/// A rule, ordered as rules are applied: the first in order is applied first. Only the same rule is equal.
#[derive(Debug, Drop)]
pub struct Ranked {
    pub rule: Rule,
}

impl PartialEq for Ranked {
    ghost use Rattle.std.specs.{Ordering.{on, eq_by_cmp}, Cmp.{on_equiv, partial_equiv_from_equiv}};
    ghost use Rattle.fs_order.specs.{Comparison.{rule_cmp}, Ranked.{rule_equivalence}, declared.ranked.Ranked.{Ranked}};

    ghost eq = { on (λ r. r.rule) (eq_by_cmp rule_cmp) };

    ghost laws = { partial_equiv_from_equiv (on_equiv (λ (r : Ranked). r.rule) rule_equivalence) };

    fn eq(&self, other: &Ranked) -> bool {
        compare(&self.rule, &other.rule).is_eq()
    }
}

impl Eq for Ranked {
    ghost use Rattle.std.specs.Cmp.{on_equiv};
    ghost use Rattle.fs_order.specs.{Ranked.{rule_equivalence}, declared.ranked.Ranked.{Ranked}};

    ghost laws = { on_equiv (λ (r : Ranked). r.rule) rule_equivalence };
}

impl PartialOrd for Ranked {
    ghost use Rattle.std.specs.{Ordering.{on, as_partial_cmp}, Cmp.{on_total, partial_order_from_total}};
    ghost use Rattle.fs_order.specs.{Comparison.{rule_cmp}, Ranked.{rule_total}, declared.ranked.Ranked.{Ranked}};

    ghost partial_cmp = { as_partial_cmp (on (λ r. r.rule) rule_cmp) };

    ghost laws = { partial_order_from_total (on_total (λ (r : Ranked). r.rule) rule_total) };

    fn partial_cmp(&self, other: &Ranked) -> Option<Ordering> {
        Some(self.cmp(other))
    }
}

impl Ord for Ranked {
    ghost use Rattle.std.specs.{Prelude.{refl}, Ordering.{on}, Cmp.{on_total}};
    ghost use Rattle.fs_order.specs.{Comparison.{rule_cmp}, Ranked.{rule_total}, declared.ranked.Ranked.{Ranked}};

    ghost cmp = { on (λ r. r.rule) rule_cmp };

    ghost total = { on_total (λ (r : Ranked). r.rule) rule_total };

    ghost matches_partial_cmp = { λ _ _. refl };

    ghost matches_eq = { λ _ _. refl };

    fn cmp(&self, other: &Ranked) -> Ordering {
        compare(&self.rule, &other.rule)
    }
}
