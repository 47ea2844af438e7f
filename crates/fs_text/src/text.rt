//! Whole texts, read: a rule and its actions.

ghost use Rattle.std.specs.Prelude.{◌≡◌, ◌≤◌, [], ℕ, List, IfErr, IfNone, IfOk, IfSome, length, map};
ghost use Rattle.fs_base.specs.declared.prefix.Family.{Family as AnyFamily};
ghost use Rattle.fs_nlri.specs.{Component.{parts_of}, Parts.{Part, Ruled}, Rule.{AreNormal, IsRule}};
ghost use Rattle.fs_words.specs.Printed.{family_word, text_of};
ghost use Rattle.fs_text.specs.{Text.{AreActions, IsTextFault, IsWhole, IsWordFault, Makes, ReadsAs, ReadsWords, words_in}, Progress.{Acts, AreAll, Led}};

use crate::fault::TextFault;
use crate::steps::{at_end, next_action, next_component, word_at};
use fs_actions::Actions;
use fs_base::Family;
use fs_nlri::{Component, Rule, RuleFault, normal_makes};
use std::alloc::{AllocError, Global};

/// The words of a text, which stand between its spaces.
fn words_of(alloc: Global, text: &str) -> Result<Vec<&str>, AllocError>
    ensures { IfOk result (λ words. map (λ w. w.now) words.items ≡ words_in text.now) }
{
    text.split(' ').collect(alloc)
}

/// The family of this name.
fn family_named(word: &str) -> Option<Family>
    ensures some { IfSome result (λ family. word.now ≡ family_word family) }
    ensures none { IfNone result ((family : AnyFamily) → family_word family ≡ word.now → ⊥) }
{
    match word {
        "v4" => Some(Family::V4),
        "v6" => Some(Family::V6),
        _ => None,
    }
}

/// The family that the first word names.
fn read_family(words: &[&str]) -> Result<Family, TextFault>
    ensures found { IfOk result (λ family. Led (map (λ w. w.now) words.now) family [] 0 1) }
    ensures within { IfOk result (λ _. 1 ≤ length words.now) }
    ensures fault { IfErr result (IsWordFault (map (λ w. w.now) words.now)) }
{
    match word_at(words, 0) {
        Some(word) => match family_named(word) {
            Some(family) => Ok(family),
            None => Err(TextFault::Bad { word: 0 }),
        },
        None => Err(TextFault::Bad { word: 0 }),
    }
}

/// The components behind the first word, and the place behind them.
fn read_components(
    alloc: Global,
    family: Family,
    words: &[&str],
) -> Result<(Vec<Component>, usize), TextFault>
    requires within { 1 ≤ length words.now }
    requires family { Led (map (λ w. w.now) words.now) family [] 0 1 }
    ensures found { IfOk result (λ read.
        AreAll (map (λ w. w.now) words.now) family (parts_of read.0.items) read.1) }
    ensures within { IfOk result (λ read. read.1 ≤ length words.now) }
    ensures fault { IfErr result (IsWordFault (map (λ w. w.now) words.now)) }
{
    let mut components = Vec::new(alloc);
    let mut last = 0;
    let mut place = 1;
    while !at_end(words, place) {
        let component = next_component(alloc, family, words, place, last)?;
        last = component.kind();
        components.push(component)?;
        place += 2;
    }
    Ok((components, place))
}

/// The actions from the place on, one or more.
fn read_some_actions(alloc: Global, words: &[&str], start: usize) -> Result<Actions, TextFault>
    requires { start ≤ length words.now }
    ensures found { (family : AnyFamily) → (parts : List Part)
        → Acts (map (λ w. w.now) words.now) family parts [] start
        → IfOk result (λ actions. IsWhole (map (λ w. w.now) words.now) family parts actions) }
    ensures fault { (family : AnyFamily) → (parts : List Part)
        → Acts (map (λ w. w.now) words.now) family parts [] start
        → IfErr result (IsWordFault (map (λ w. w.now) words.now)) }
{
    let mut actions = Actions::none(alloc);
    let mut place = start;
    loop {
        let action = next_action(alloc, words, place, &actions)?;
        actions.push(action)?;
        place += 2;
        if place == words.len() {
            return Ok(actions);
        }
    }
}

/// The actions behind the components, which end before the place.
fn read_actions(alloc: Global, words: &[&str], place: usize) -> Result<Actions, TextFault>
    requires { place ≤ length words.now }
    ensures found { (family : AnyFamily) → (parts : List Part)
        → AreAll (map (λ w. w.now) words.now) family parts place
        → IfOk result (λ actions. IsWhole (map (λ w. w.now) words.now) family parts actions) }
    ensures fault { (family : AnyFamily) → (parts : List Part)
        → AreAll (map (λ w. w.now) words.now) family parts place
        → IfErr result (IsWordFault (map (λ w. w.now) words.now)) }
{
    if place == words.len() {
        return Ok(Actions::none(alloc));
    }
    read_some_actions(alloc, words, place + 1)
}

/// The rule of components in normal form.
fn rule_of(alloc: Global, family: Family, components: Vec<Component>) -> Result<Rule, TextFault>
    requires { AreNormal family 0 (parts_of components.items) }
    ensures { Makes family (parts_of components.items) result }
{
    normal_makes();
    match Rule::new(alloc, family, components) {
        Ok(rule) => Ok(rule),
        Err(RuleFault::TooLong) => Err(TextFault::TooLong),
        Err(RuleFault::Memory) => Err(TextFault::Memory),
        Err(RuleFault::NotOfFamily) => unreachable!(),
        Err(RuleFault::Order) => unreachable!(),
    }
}

/// The rule and the actions of these words.
fn read_words(alloc: Global, words: &[&str]) -> Result<(Rule, Actions), TextFault>
    ensures { ReadsWords (map (λ w. w.now) words.now) result }
{
    let family = read_family(words)?;
    let (components, place) = read_components(alloc, family, words)?;
    let actions = read_actions(alloc, words, place)?;
    let rule = rule_of(alloc, family, components)?;
    Ok((rule, actions))
}

/// The rule and the actions whose text this is: `v4` or `v6`, the name and the value of each component, and where there
/// are actions `then` and the name of each with what it says, as `fs_words::print` writes them (RFC 8955 sections 4.2.2
/// and 7, RFC 8956 section 3).
///
/// A pair of a rule and actions is answered exactly where the text is the pair's, so what is printed is read back.
///
/// # Errors
///
/// `Bad` with the first word with which no text goes on, counted from 0, whatever the length of the rule's value, or
/// with the count of words where all of them begin a text; `TooLong` where the text is one in all but that the value
/// has more than 4095 octets; `Memory`.
pub fn read(alloc: Global, text: &str) -> Result<(Rule, Actions), TextFault>
    ensures found { IfOk result (λ read.
        IsRule read.0 × AreActions read.1 × (text.now ≡ text_of read.0 read.1)) }
    ensures exact { (rule : Ruled) → (actions : List (List ℕ)) → IsRule rule → AreActions actions
        → text.now ≡ text_of rule actions → ReadsAs rule actions result }
    ensures fault { IfErr result (IsTextFault text.now) }
{
    let words = words_of(alloc, text)?;
    read_words(alloc, &words)
}
