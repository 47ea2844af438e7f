//! Rules.

use crate::component::Component;
use crate::size::frame_len;
use fs_base::Family;
use std::marker::Model;

/// A flow specification: a family, and components of that family by strictly rising types, each in normal
/// form: every bit that is to be ignored is 0. Its value has at most 4095 octets (RFC 8955 section 4.1).
#[derive(Debug, Drop)]
pub struct Rule {
    pub(crate) family: Family,
    pub(crate) components: Vec<Component>,
}

impl Model for Rule {
    ghost use Rattle.fs_nlri.specs.{Parts.{Ruled, ruled}, Component.{parts_of}, Rule.{IsRule}};

    ghost Value = { Ruled };

    ghost view = { λ rule. ruled rule.family (parts_of rule.components.items) };

    ghost invariant = { λ rule. IsRule (ruled rule.family (parts_of rule.components.items)) };
}

impl Rule {
    ghost use Rattle.std.specs.Prelude.{◌≡◌, ◌≤◌, length};
    ghost use Rattle.fs_nlri.specs.{Component.{parts_of}, Rule.{IsRule, canonical_frame}, Sound.{AreSound}};

    /// The family.
    pub fn family(&self) -> Family
        ensures { result ≡ self.now.family }
    {
        self.family
    }

    /// The components, by rising types.
    pub fn components(&self) -> &[Component]
        ensures parts { parts_of result.now ≡ self.now.parts }
        ensures rule { IsRule self.now }
        ensures sound { AreSound self.now.parts }
    {
        self.components.as_slice()
    }

    /// How many octets its canonical frame has.
    pub fn frame_len(&self) -> usize
        ensures value { result ≡ length (canonical_frame self.now) }
        ensures small { result ≤ 4097 }
    {
        frame_len(&self.components)
    }
}
