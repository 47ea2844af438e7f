//! Laws of the order of rules.

ghost use Rattle.std.specs.{Prelude.{◌≡◌, ◌↔◌}, declared.cmp.Ordering.TheVariants.{Less, Equal}};
ghost use Rattle.fs_nlri.specs.{Parts.{Ruled}, Rule.{IsRule}};
ghost use Rattle.fs_order.specs.{Comparison.{rule_cmp, Before}, Laws.{DestinationsFirst}};

/// A law of the order: only the same rule is equal.
pub fn equal_only_itself()
    ensures { (a b : Ruled) → IsRule a → IsRule b → (rule_cmp a b ≡ Equal) ↔ (a ≡ b) }
{}

/// A law of the order: within a family rules are in the order of their destination prefixes, of IPv6 those of offset
/// 0, and rules without one come last.
pub fn destinations_first()
    ensures { DestinationsFirst }
{}

/// A law of the order: the lesser rule is the one that the standards put first.
pub fn precedence()
    ensures { (a b : Ruled) → IsRule a → IsRule b → (rule_cmp a b ≡ Less) ↔ Before a b }
{}
