//! The next component and the next action among the words of a text.

ghost use Rattle.std.specs.Prelude.{◌≡◌, ◌<◌, ◌≤◌, ◌+◌, ◌∷◌, [], ℕ, List, codes, drop, false, length, map, true, Some, IfErr, IfNone, IfOk, IfSome};
ghost use Rattle.fs_nlri.specs.{Component.{part_of}, Parts.{Part}};
ghost use Rattle.fs_text.specs.{ActionWord.{IsNamed}, Components.{IsPart}};
ghost use Rattle.fs_text.specs.Steps.{CanStand, GoesOn, HasGreatest, IsActionFault, IsEnd, IsNextAction, IsNextPart, IsNoEnd, IsPartFault};
ghost use Rattle.fs_text.specs.Steps.{ReadsAbove, StandsBehind};

use crate::actions::read_action;
use crate::fault::TextFault;
use crate::values::{component_type, read_component};
use fs_actions::{Action, Actions};
use fs_base::Family;
use fs_nlri::Component;
use std::alloc::Global;

/// Whether this is the word behind the components.
fn is_then(word: &str) -> bool
    ensures yes { result ≡ true → word.now ≡ codes "then" }
    ensures no { result ≡ false → word.now ≡ codes "then" → ⊥ }
{
    match word {
        "then" => true,
        _ => false,
    }
}

/// The word at the place; None where there is none.
pub(crate) fn word_at<'a>(words: &[&'a str], place: usize) -> Option<&'a str>
    ensures some { IfSome result (λ word.
        drop place (map (λ w. w.now) words.now) ≡ word.now ∷ drop (place + 1) (map (λ w. w.now) words.now)) }
    ensures within { IfSome result (λ _. place < length words.now) }
    ensures none { IfNone result (drop place (map (λ w. w.now) words.now) ≡ []) }
{
    if place < words.len() {
        Some(words[place])
    } else {
        None
    }
}

/// Whether the components end before the place.
pub(crate) fn at_end(words: &[&str], place: usize) -> bool
    ensures yes { result ≡ true → IsEnd (drop place (map (λ w. w.now) words.now)) }
    ensures no { result ≡ false → IsNoEnd (drop place (map (λ w. w.now) words.now)) }
    ensures within { result ≡ false → place < length words.now }
{
    match word_at(words, place) {
        Some(word) => is_then(word),
        None => true,
    }
}

/// Whether components of this name can stand behind one of this type.
fn goes_on(family: Family, last: u8, name: &str) -> bool
    ensures yes { result ≡ true → GoesOn family last name.now }
    ensures no { result ≡ false → (own : Part) → IsPart family name.now own → last < own.kind → ⊥ }
{
    match component_type(family, name) {
        Some(kind) => last < kind,
        None => false,
    }
}

/// The component whose name and value stand at the place, behind one of type `last`.
pub(crate) fn next_component(
    alloc: Global,
    family: Family,
    words: &[&str],
    place: usize,
    last: u8,
) -> Result<Component, TextFault>
    requires { place < length words.now }
    ensures found { IfOk result (λ component. IsNextPart family last (drop place (map (λ w. w.now) words.now))
        (drop (place + 2) (map (λ w. w.now) words.now)) (part_of component)) }
    ensures within { IfOk result (λ _. place + 2 ≤ length words.now) }
    ensures fault { IfErr result (IsPartFault family last (drop place (map (λ w. w.now) words.now)) place) }
{
    let Some(name) = word_at(words, place) else {
        return Err(TextFault::Bad { word: place });
    };
    if !goes_on(family, last, name) {
        return Err(TextFault::Bad { word: place });
    }
    let Some(value) = word_at(words, place + 1) else {
        return Err(TextFault::Bad { word: place + 1 });
    };
    match read_component(alloc, family, name, value)? {
        Some(component) => Ok(component),
        None => Err(TextFault::Bad { word: place + 1 }),
    }
}

/// The action of this name whose octets are the highest; None where no action has the name.
fn greatest(name: &str) -> Option<Action>
    ensures { HasGreatest name.now result }
{
    match name {
        "bytes" => Action::of(&[0x80, 0x06, 0xff, 0xff, 0xff, 0xff, 0xff, 0xff]),
        "packets" => Action::of(&[0x80, 0x0c, 0xff, 0xff, 0xff, 0xff, 0xff, 0xff]),
        "control" => Action::of(&[0x80, 0x07, 0, 0, 0, 0, 0, 0x03]),
        "mark" => Action::of(&[0x80, 0x09, 0, 0, 0, 0, 0, 0x3f]),
        "redirect" => Action::of(&[0x82, 0x08, 0xff, 0xff, 0xff, 0xff, 0xff, 0xff]),
        _ => None,
    }
}

/// The action, if it can stand behind these.
fn above(actions: &Actions, action: Action) -> Option<Action>
    ensures some { IfSome result (λ same. (same ≡ action) × StandsBehind actions.now action) }
    ensures none { IfNone result (StandsBehind actions.now action → ⊥) }
{
    if actions.goes_behind(&action) {
        Some(action)
    } else {
        None
    }
}

/// Whether some action of this name can stand behind these.
fn can_stand(actions: &Actions, name: &str) -> bool
    ensures yes { result ≡ true → CanStand actions.now name.now }
    ensures no { result ≡ false → (action : List ℕ) → IsNamed name.now action → StandsBehind actions.now action → ⊥ }
{
    match greatest(name) {
        Some(action) => actions.goes_behind(&action),
        None => false,
    }
}

/// The action of this name and this word, if it can stand behind these.
fn said_above(
    alloc: Global,
    actions: &Actions,
    name: &str,
    word: &str,
) -> Result<Option<Action>, TextFault>
    ensures read { IfOk result (ReadsAbove actions.now name.now word.now) }
    ensures fault { IfErr result (λ fault. fault ≡ TextFault.Memory) }
{
    match read_action(alloc, name, word)? {
        Some(action) => Ok(above(actions, action)),
        None => Ok(None),
    }
}

/// The action whose name and word stand at the place, behind these.
pub(crate) fn next_action(
    alloc: Global,
    words: &[&str],
    place: usize,
    actions: &Actions,
) -> Result<Action, TextFault>
    requires { place ≤ length words.now }
    ensures found { IfOk result (IsNextAction actions.now (drop place (map (λ w. w.now) words.now))
        (drop (place + 2) (map (λ w. w.now) words.now))) }
    ensures within { IfOk result (λ _. place + 2 ≤ length words.now) }
    ensures fault { IfErr result (IsActionFault actions.now (drop place (map (λ w. w.now) words.now)) place) }
{
    let Some(name) = word_at(words, place) else {
        return Err(TextFault::Bad { word: place });
    };
    if !can_stand(actions, name) {
        return Err(TextFault::Bad { word: place });
    }
    let Some(value) = word_at(words, place + 1) else {
        return Err(TextFault::Bad { word: place + 1 });
    };
    match said_above(alloc, actions, name, value)? {
        Some(action) => Ok(action),
        None => Err(TextFault::Bad { word: place + 1 }),
    }
}
