//! Rules made of components, their copies and their destination.

use crate::clearing::clear_all;
use crate::component::Component;
use crate::copying::copy_all;
use crate::fault::RuleFault;
use crate::given::fault_in;
use crate::rule::Rule;
use crate::size::fits;
use fs_base::{Family, Memory, Prefix};
use std::alloc::Global;

impl Rule {
    ghost use Rattle.std.specs.{Prelude.{◌≡◌, IfOk}, Option.{option_map}};
    ghost use Rattle.fs_nlri.specs.{Component.{parts_of}, Rule.{IsRule, shown, destination_of}, Making.{rule_of, Makes}};

    /// The rule of these components. The bits that normal form clears are cleared. The faults are tested in the
    /// order of `RuleFault`.
    pub fn new(alloc: Global, family: Family, components: Vec<Component>) -> Result<Rule, RuleFault>
        ensures { Makes result (rule_of family (parts_of components.items)) }
    {
        if let Some(fault) = fault_in(family, &components) {
            return Err(fault);
        }
        let components = clear_all(alloc, family, components)?;
        if !fits(&components) {
            return Err(RuleFault::TooLong);
        }
        Ok(Rule { family, components })
    }

    /// An equal rule.
    pub fn copy(&self) -> Result<Rule, Memory>
        ensures { IfOk result (λ copy. copy ≡ self.now) }
    {
        Ok(Rule {
            family: self.family,
            components: copy_all(*self.components.allocator(), &self.components)?,
        })
    }

    /// The destination prefix, or None where there is none, or in IPv6 none with offset 0.
    pub fn destination(&self) -> Option<Prefix>
        ensures shown { option_map shown result ≡ destination_of self.now }
        ensures rule { IsRule self.now }
    {
        match self.components.as_slice().first() {
            Some(component) => component.destination(),
            None => None,
        }
    }
}
