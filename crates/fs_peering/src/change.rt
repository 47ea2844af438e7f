//! What takes a router from old rules to new ones.

ghost use Rattle.std.specs.Prelude.{◌≡◌, ◌+◌, ◌-◌, ◌++◌, ◌∷◌, [], ◌<◌, ◌≤◌, ◌^◌, true, length, map, flat_map, None, Some, IfOk, IfSome, OnOk};
ghost use Rattle.std.specs.{List.{list_all}, Option.{option_copied}};
ghost use Rattle.fs_base.specs.declared.prefix.Family.TheVariants.{V4, V6};
ghost use Rattle.fs_nlri.specs.Rule.{canonical_frame};
ghost use Rattle.fs_attrs.specs.{Texts.{rules_text}, Writable.{are_rules_of}};
ghost use Rattle.fs_message.specs.Write.{AppendsWhole};
ghost use Rattle.fs_speaker.specs.Sending.{is_short, text_by};
ghost use Rattle.fs_peering.specs.Keeper.{change_text, fitting, fresh, gone, news_told, of_family, packs, room_for_rules, texts, withdrawal};
ghost use Rattle.fs_peering.specs.Keeper.{withdrawal_text, withdrawals};
ghost use Rattle.fs_peering.specs.Keeping.{MayBeSaid};
ghost use Rattle.fs_peering.specs.Change.{Adds, AreSaid, Keeps, Notes, fits_alone, has_rule, joined, unkept, unsaid};

use crate::keeper::News;
use fs_actions::Actions;
use fs_attrs::{PrefixList, Routes, RuleList, Terms, Update, WriteFault, write_update};
use fs_base::{Family, Memory, Numbers};
use fs_nlri::{Rule, encode};
use fs_order::Ranked;
use fs_speaker::{Sending, Sent, append_rule};
use std::alloc::Global;
use std::collections::BTreeSet;

/// So many octets of rules an UPDATE has room for beside its head and the attribute's (RFC 4271, section 4.3; RFC 4760,
/// section 4).
const ROOM: usize = 4066;

/// Appends what takes an end from the old rules, or from none, to the new ones: those that are gone are withdrawn, several
/// in an UPDATE, and those that are new or have another path or other actions are announced, in their order. Answers how
/// many they are.
///
/// # Errors
///
/// `Memory` where the machine refused memory.
pub(crate) fn append_change(
    terms: &Terms,
    old: Option<&Sending>,
    new: &Sending,
    out: &mut Vec<u8>,
) -> Result<News, Memory>
    requires old { IfSome (option_copied old) (MayBeSaid terms.now) }
    requires new { MayBeSaid terms.now new.now }
    ensures text { OnOk result (out.new.items ≡ out.old.items ++ change_text terms.now (option_copied old.entry) new.now) }
    ensures news { IfOk result (λ news. news ≡ news_told terms.now (option_copied old.entry) new.now) }
{
    match old {
        Some(old) => append_between(terms, old, new, out),
        None => append_all(terms, new, out),
    }
}

/// Appends the UPDATEs of all rules.
#[tactic(auto, using(crate::proofs::ChangeParts::all_texts))]
fn append_all(terms: &Terms, new: &Sending, out: &mut Vec<u8>) -> Result<News, Memory>
    requires { MayBeSaid terms.now new.now }
    ensures text { OnOk result (out.new.items ≡ out.old.items ++ change_text terms.now None new.now) }
    ensures news { IfOk result (λ news. news ≡ news_told terms.now None new.now) }
{
    append_rules(terms, &new.as_path, new.rules.as_slice(), out)?;
    Ok(News::Told {
        announced: new.rules.as_slice().len(),
        withdrawn: 0,
    })
}

/// Appends the withdrawals of the rules that are gone, and the UPDATEs of those that are fresh.
fn append_between(
    terms: &Terms,
    old: &Sending,
    new: &Sending,
    out: &mut Vec<u8>,
) -> Result<News, Memory>
    requires old { MayBeSaid terms.now old.now }
    requires new { MayBeSaid terms.now new.now }
    ensures text { OnOk result (out.new.items ≡ out.old.items ++ change_text terms.now (Some old.now) new.now) }
    ensures news { IfOk result (λ news. news ≡ news_told terms.now (Some old.now) new.now) }
{
    let withdrawn = append_gone(terms, old, new, out)?;
    let announced = append_fresh(terms, old, new, out)?;
    Ok(News::Told {
        announced,
        withdrawn,
    })
}

/// Appends the UPDATEs of these rules.
fn append_rules(
    terms: &Terms,
    numbers: &Numbers,
    rules: &[Sent],
    out: &mut Vec<u8>,
) -> Result<(), Memory>
    requires few { length numbers.now ≤ 255 }
    requires fit { list_all (is_short terms.now numbers.now) rules.now ≡ true }
    ensures { OnOk result (out.new.items ≡ out.old.items ++ flat_map (text_by terms.now numbers.now) rules.now) }
{
    let mut rest = rules;
    while let [first, others @ ..] = rest {
        append_rule(terms, numbers, first, out)?;
        rest = others;
    }
    Ok(())
}

/// Appends the withdrawals of the rules that are there no more, those of IPv4 first, and answers how many they are.
fn append_gone(
    terms: &Terms,
    old: &Sending,
    new: &Sending,
    out: &mut Vec<u8>,
) -> Result<usize, Memory>
    requires { MayBeSaid terms.now old.now }
    ensures text { OnOk result (out.new.items ≡ out.old.items
        ++ (withdrawals terms.now V4 (gone old.now.rules new.now.rules) ++ withdrawals terms.now V6 (gone old.now.rules new.now.rules))) }
    ensures count { IfOk result (λ count. count ≡ length (gone old.now.rules new.now.rules)) }
{
    let kept = ranked(*out.allocator(), new.rules.as_slice())?;
    let rules = old.rules.as_slice();
    let v4 = append_unkept(terms, Family::V4, &kept, rules, out)?;
    let v6 = append_unkept(terms, Family::V6, &kept, rules, out)?;
    Ok(v4 + v6)
}

/// The rules, to be looked up.
fn ranked(alloc: Global, rules: &[Sent]) -> Result<BTreeSet<Ranked>, Memory>
    ensures { IfOk result (λ kept. Keeps kept rules.now) }
{
    let mut kept = BTreeSet::new(alloc);
    let mut rest = rules;
    while let [first, others @ ..] = rest {
        note(&mut kept, first)?;
        rest = others;
    }
    Ok(kept)
}

/// Notes a rule.
fn note(kept: &mut BTreeSet<Ranked>, sent: &Sent) -> Result<(), Memory>
    ensures { OnOk result (Notes kept.old kept.new sent.now) }
{
    let rule = sent.rule.copy()?;
    kept.insert(Ranked { rule })?;
    Ok(())
}

/// Appends the withdrawals of the rules of a family that aren't kept, and answers how many they are.
fn append_unkept(
    terms: &Terms,
    family: Family,
    kept: &BTreeSet<Ranked>,
    old: &[Sent],
    out: &mut Vec<u8>,
) -> Result<usize, Memory>
    requires { list_all (λ sent. fits_alone sent.rule) old.now ≡ true }
    ensures text { OnOk result (out.new.items ≡ out.old.items ++ withdrawals terms.now family (unkept kept.now old.now)) }
    ensures count { IfOk result (λ count. count ≡ length (of_family family (unkept kept.now old.now))) }
    ensures small { IfOk result (λ count. count < 2 ^ 63) }
{
    let rules = unkept_of(*out.allocator(), family, kept, old)?;
    append_withdrawals(terms, family, &rules, out)?;
    Ok(rules.len())
}

/// The rules of a family that aren't kept.
fn unkept_of(
    alloc: Global,
    family: Family,
    kept: &BTreeSet<Ranked>,
    old: &[Sent],
) -> Result<Vec<Rule>, Memory>
    ensures { IfOk result (λ rules. rules.items ≡ of_family family (unkept kept.now old.now)) }
{
    let mut rules = Vec::new(alloc);
    let mut rest = old;
    while let [first, others @ ..] = rest {
        push_unkept(family, kept, first, &mut rules)?;
        rest = others;
    }
    Ok(rules)
}

/// Appends a rule, where it is of the family and isn't kept.
fn push_unkept(
    family: Family,
    kept: &BTreeSet<Ranked>,
    sent: &Sent,
    rules: &mut Vec<Rule>,
) -> Result<(), Memory>
    ensures { OnOk result (rules.new.items ≡ rules.old.items ++ of_family family (unkept kept.now (sent.now ∷ []))) }
{
    if sent.rule.family() != family || is_kept(kept, sent)? {
        return Ok(());
    }
    rules.push(sent.rule.copy()?)?;
    Ok(())
}

/// Whether a rule is kept.
fn is_kept(kept: &BTreeSet<Ranked>, sent: &Sent) -> Result<bool, Memory>
    ensures { IfOk result (λ yes. yes ≡ has_rule kept.now sent.now.rule) }
{
    let ranked = Ranked {
        rule: sent.rule.copy()?,
    };
    Ok(kept.contains(&ranked))
}

/// Appends withdrawals of rules of a family, as many of them in an UPDATE as fit.
fn append_withdrawals(
    terms: &Terms,
    family: Family,
    rules: &[Rule],
    out: &mut Vec<u8>,
) -> Result<(), Memory>
    requires of_family { are_rules_of family rules.now ≡ true }
    requires fit { list_all fits_alone rules.now ≡ true }
    ensures { OnOk result (out.new.items ≡ out.old.items ++ flat_map (withdrawal_text terms.now family) (packs rules.now)) }
{
    let mut rest = rules;
    while let [first, others @ ..] = rest {
        let count = pack_size(*out.allocator(), first, others)?;
        let (pack, behind) = rest.split_at(count);
        append_withdrawal(terms, family, pack, out)?;
        rest = behind;
    }
    Ok(())
}

/// How many rules go into an UPDATE: the first one, and those behind it that fit.
fn pack_size(alloc: Global, first: &Rule, others: &[Rule]) -> Result<usize, Memory>
    ensures size { IfOk result (λ count. count ≡ 1 + fitting (room_for_rules - length (canonical_frame first.now)) others.now) }
    ensures within { IfOk result (λ count. count ≤ 1 + length others.now) }
{
    let room = ROOM.saturating_sub(size_of(alloc, first)?);
    Ok(1 + fitting(alloc, room, others)?)
}

/// How many of the rules fit in so much room.
fn fitting(alloc: Global, room: usize, rules: &[Rule]) -> Result<usize, Memory>
    ensures count { IfOk result (λ count. count ≡ fitting room rules.now) }
    ensures within { IfOk result (λ count. count ≤ length rules.now) }
{
    let mut left = room;
    let mut count = 0;
    let mut rest = rules;
    while let [first, others @ ..] = rest {
        let size = size_of(alloc, first)?;
        if left < size {
            return Ok(count);
        }
        left -= size;
        count += 1;
        rest = others;
    }
    Ok(count)
}

/// How many octets a rule's NLRI has.
fn size_of(alloc: Global, rule: &Rule) -> Result<usize, Memory>
    ensures { IfOk result (λ size. size ≡ length (canonical_frame rule.now)) }
{
    let mut octets = Vec::new(alloc);
    encode(rule, &mut octets)?;
    Ok(octets.len())
}

/// Appends the UPDATE that withdraws these rules of a family. After `Memory` `out` is as it was.
fn append_withdrawal(
    terms: &Terms,
    family: Family,
    rules: &[Rule],
    out: &mut Vec<u8>,
) -> Result<(), Memory>
    requires some { 0 < length rules.now }
    requires of_family { are_rules_of family rules.now ≡ true }
    requires room { length (rules_text rules.now) ≤ room_for_rules }
    ensures { AppendsWhole result out.old.items out.new.items (withdrawal_text terms.now family rules.now) }
{
    let update = withdrawal(*out.allocator(), family, rules)?;
    match write_update(&update, terms, out) {
        Ok(()) => Ok(()),
        Err(WriteFault::TooLong) => unreachable!(),
        Err(WriteFault::Memory) => Err(Memory),
    }
}

/// The update that withdraws them.
fn withdrawal(alloc: Global, family: Family, rules: &[Rule]) -> Result<Update, Memory>
    ensures { IfOk result (λ update. update ≡ withdrawal family rules.now) }
{
    Ok(Update {
        classic_out: PrefixList::new(Vec::new(alloc)),
        unreach: Some(Routes::Flow(family, RuleList::new(copied(alloc, rules)?))),
        reach: None,
        classic_in: PrefixList::new(Vec::new(alloc)),
        path: None,
        actions: Actions::none(alloc),
        as_withdraw: false,
    })
}

/// Copies of the rules.
fn copied(alloc: Global, rules: &[Rule]) -> Result<Vec<Rule>, Memory>
    ensures { IfOk result (λ copies. copies.items ≡ rules.now) }
{
    let mut copies = Vec::new(alloc);
    let mut rest = rules;
    while let [first, others @ ..] = rest {
        copies.push(first.copy()?)?;
        rest = others;
    }
    Ok(copies)
}

/// Appends the UPDATEs of the rules that weren't said so, and answers how many they are.
fn append_fresh(
    terms: &Terms,
    old: &Sending,
    new: &Sending,
    out: &mut Vec<u8>,
) -> Result<usize, Memory>
    requires old { MayBeSaid terms.now old.now }
    requires new { MayBeSaid terms.now new.now }
    ensures text { OnOk result (out.new.items ≡ out.old.items ++ joined (fresh (texts terms.now old.now) (texts terms.now new.now))) }
    ensures count { IfOk result (λ count. count ≡ length (fresh (texts terms.now old.now) (texts terms.now new.now))) }
{
    let said = said_of(*out.allocator(), terms, &old.as_path, old.rules.as_slice())?;
    append_unsaid(&said, terms, &new.as_path, new.rules.as_slice(), out)
}

/// The messages of the rules, to be looked up.
fn said_of(
    alloc: Global,
    terms: &Terms,
    numbers: &Numbers,
    rules: &[Sent],
) -> Result<BTreeSet<Vec<u8>>, Memory>
    requires few { length numbers.now ≤ 255 }
    requires fit { list_all (is_short terms.now numbers.now) rules.now ≡ true }
    ensures { IfOk result (λ said. AreSaid said (map (text_by terms.now numbers.now) rules.now)) }
{
    let mut said = BTreeSet::new(alloc);
    let mut rest = rules;
    while let [first, others @ ..] = rest {
        add(&mut said, text_of(alloc, terms, numbers, first)?)?;
        rest = others;
    }
    Ok(said)
}

/// Adds a message.
#[tactic(auto, using(crate::proofs::ChangeParts::added_text))]
fn add(said: &mut BTreeSet<Vec<u8>>, text: Vec<u8>) -> Result<(), Memory>
    ensures { OnOk result (Adds said.old said.new text.items) }
{
    said.insert(text)?;
    Ok(())
}

/// The message of a rule.
fn text_of(alloc: Global, terms: &Terms, numbers: &Numbers, sent: &Sent) -> Result<Vec<u8>, Memory>
    requires few { length numbers.now ≤ 255 }
    requires fits { is_short terms.now numbers.now sent.now ≡ true }
    ensures { IfOk result (λ text. text.items ≡ text_by terms.now numbers.now sent.now) }
{
    let mut text = Vec::new(alloc);
    append_rule(terms, numbers, sent, &mut text)?;
    Ok(text)
}

/// Appends the messages of those rules that weren't said so, and answers how many they are.
fn append_unsaid(
    said: &BTreeSet<Vec<u8>>,
    terms: &Terms,
    numbers: &Numbers,
    rules: &[Sent],
    out: &mut Vec<u8>,
) -> Result<usize, Memory>
    requires few { length numbers.now ≤ 255 }
    requires fit { list_all (is_short terms.now numbers.now) rules.now ≡ true }
    ensures text { OnOk result (out.new.items ≡ out.old.items ++ joined (unsaid said.now (map (text_by terms.now numbers.now) rules.now))) }
    ensures count { IfOk result (λ count. count ≡ length (unsaid said.now (map (text_by terms.now numbers.now) rules.now))) }
{
    let mut count = 0;
    let mut rest = rules;
    while let [first, others @ ..] = rest {
        let text = text_of(*out.allocator(), terms, numbers, first)?;
        count += append_unless(said, &text, out)?;
        rest = others;
    }
    Ok(count)
}

/// Appends a message, unless it is among these; answers how many it appended.
fn append_unless(
    said: &BTreeSet<Vec<u8>>,
    text: &Vec<u8>,
    out: &mut Vec<u8>,
) -> Result<usize, Memory>
    ensures text { OnOk result (out.new.items ≡ out.old.items ++ joined (unsaid said.now (text.now.items ∷ []))) }
    ensures count { IfOk result (λ count. count ≡ length (unsaid said.now (text.now.items ∷ []))) }
{
    if said.contains(text) {
        return Ok(0);
    }
    out.extend_from_slice(text)?;
    Ok(1)
}
