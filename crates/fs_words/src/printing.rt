//! The text of a rule and its actions.

ghost use Rattle.std.specs.{Prelude.{◌≡◌, ◌++◌, ◌∷◌, [], OnOk, OnErr}, String.{string_bytes}, List.{AllByRecursion}};
ghost use Rattle.fs_nlri.specs.{Component.{part_of, parts_of}, Sound.{AreSound, IsSoundBody}};
ghost use Rattle.fs_actions.specs.Community.{IsAction};
ghost use Rattle.fs_words.specs.{Actions.{action_name, action_text}, Values.{component_name, value_text}};
ghost use Rattle.fs_words.specs.Printed.{action_words, component_words, family_word, spaced, text_of, then_words};

use crate::{action_name, component_name, print_action, print_value};
use fs_actions::{Action, Actions};
use fs_base::{Family, Memory};
use fs_nlri::{Component, Rule};

fn family_word(family: Family) -> &'static str
    ensures { result.now ≡ family_word family }
{
    match family {
        Family::V4 => "v4",
        Family::V6 => "v6",
    }
}

/// Appends a space and a word.
fn print_word(word: &str, out: &mut String) -> Result<(), Memory>
    ensures { OnOk result (string_bytes out.new ≡ string_bytes out.old ++ spaced (word.now ∷ [])) }
{
    out.push_str(" ")?;
    out.push_str(word)?;
    Ok(())
}

/// Appends the name and the value of a component.
fn print_component(component: &Component, out: &mut String) -> Result<(), Memory>
    requires { IsSoundBody (part_of component.now).body }
    ensures { OnOk result (string_bytes out.new
        ≡ string_bytes out.old ++ spaced (component_words (part_of component.now ∷ []))) }
{
    print_word(component_name(component.kind()), out)?;
    out.push_str(" ")?;
    print_value(component, out)
}

fn print_components(components: &[Component], out: &mut String) -> Result<(), Memory>
    requires { AreSound (parts_of components.now) }
    ensures { OnOk result (string_bytes out.new
        ≡ string_bytes out.old ++ spaced (component_words (parts_of components.now))) }
{
    for component in components {
        print_component(component, out)?;
    }
    Ok(())
}

/// Appends the name of an action and what it says.
fn print_one_action(action: &Action, out: &mut String) -> Result<(), Memory>
    requires { IsAction action.now }
    ensures { OnOk result (string_bytes out.new ≡ string_bytes out.old ++ spaced (action_words (action.now ∷ []))) }
{
    print_word(action_name(action), out)?;
    out.push_str(" ")?;
    print_action(action, out)
}

fn print_each_action(actions: &[Action], out: &mut String) -> Result<(), Memory>
    requires { AllByRecursion IsAction actions.now }
    ensures { OnOk result (string_bytes out.new ≡ string_bytes out.old ++ spaced (action_words actions.now)) }
{
    for action in actions {
        print_one_action(action, out)?;
    }
    Ok(())
}

/// Appends the actions, if there are any, and the word before them.
fn print_actions(actions: &[Action], out: &mut String) -> Result<(), Memory>
    requires { AllByRecursion IsAction actions.now }
    ensures { OnOk result (string_bytes out.new ≡ string_bytes out.old ++ spaced (then_words actions.now)) }
{
    if actions.is_empty() {
        return Ok(());
    }
    print_word("then", out)?;
    print_each_action(actions, out)
}

/// Appends the whole text, up to want of memory.
fn print_whole(rule: &Rule, actions: &Actions, out: &mut String) -> Result<(), Memory>
    ensures { OnOk result (string_bytes out.new ≡ string_bytes out.old ++ text_of rule.now actions.now) }
{
    out.push_str(family_word(rule.family()))?;
    print_components(rule.components(), out)?;
    print_actions(actions.as_slice(), out)
}

/// Appends the text of a rule and its actions: words joined by single spaces, first `v4` or `v6`, then the name and the
/// value of each component, and where there are actions `then` and the name of each with what it says.
///
/// After `Memory` `out` is as it was.
pub fn print(rule: &Rule, actions: &Actions, out: &mut String) -> Result<(), Memory>
    ensures ok { OnOk result (string_bytes out.new ≡ string_bytes out.old ++ text_of rule.now actions.now) }
    ensures err { OnErr result (string_bytes out.new ≡ string_bytes out.old) }
{
    let mut text = String::new(*out.allocator());
    print_whole(rule, actions, &mut text)?;
    out.push_str(&text)?;
    Ok(())
}
