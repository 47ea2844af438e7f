//! The parts of a packet's line, kept back where room was made for them.

ghost use Rattle.std.specs.{Prelude.{◌≡◌, ◌≤◌, ◌+◌, ◌*◌, [], ◌++◌, codes, decimal, length}, Int.{to_be_bytes, w32}, Option.{option_map_or}};
ghost use Rattle.hex.specs.Hex.{encode_lower};
ghost use Rattle.fs_actions.specs.{Actions.{first_of}, Community.{mark_of, redirect_of}};
ghost use Rattle.fs_line.specs.Line.{address_text, discarded_line, line_of, mark_text, numbered, numbers_text, others_text, rate_text, rates_text};
ghost use Rattle.fs_line.specs.Line.{redirect_text, sample_text, unread_line_of, verdict_text};
ghost use Rattle.fs_line.specs.Walked.{actions_walked, entries, numbers_walked};

use crate::output::{CAPACITY, LONGEST_NUMBER, Output};
use crate::walked::{Walked, discards, first_mark, first_redirect, samples};
use fs_actions::{Actions, Rate, Redirect};
use itoa::Integer;

/// The most octets of a verdict.
const VERDICT: usize = 8;

/// The octets of the word before the numbers of the rules walked.
const RULES: usize = 7;

/// The most octets of a rule's number, with the comma before it.
pub(crate) const RULE: usize = 1 + LONGEST_NUMBER;

/// The most octets of a marking.
const MARK: usize = 6 + LONGEST_NUMBER;

/// The most octets of an IPv4 address, with the words for a redirect before it.
const ADDRESS: usize = 13 + 4 * RULE;

/// The most octets of a redirect.
const REDIRECT: usize = ADDRESS + RULE;

/// The octets of the word for sampling.
const SAMPLE: usize = 7;

/// The most octets of what the rules walked say beside verdict and rates.
const EFFECTS: usize = MARK + REDIRECT + SAMPLE;

/// The most octets of a rate.
pub(crate) const RATE: usize = 17;

/// The most octets of a line without the numbers of the rules walked and their rates.
pub(crate) const LINE: usize = LONGEST_NUMBER + VERDICT + RULES + EFFECTS + 1;

/// Keeps back the line of a packet that walked no rule.
pub(crate) fn keep_passed(output: &mut Output, number: u64)
    requires { length output.old + LINE ≤ CAPACITY }
    ensures { output.new ≡ output.old ++ line_of number [] }
{
    output.keep_number(number);
    output.keep_word(*b" pass\n");
}

/// Keeps back the line of a packet that walked one rule, which discards it and says no more.
pub(crate) fn keep_discarded(output: &mut Output, number: u64, rule: usize)
    requires { length output.old + LINE ≤ CAPACITY }
    ensures { output.new ≡ output.old ++ discarded_line number rule }
{
    output.keep_number(number);
    output.keep_word(*b" discard rules ");
    output.keep_decimal(rule);
    output.keep_back(b"\n");
}

/// Keeps back the line of a packet part by part.
pub(crate) fn keep_whole_line(output: &mut Output, number: u64, walked: &[Walked<'_>])
    requires { length output.old
        + (LINE + (RULE * length walked.now + RATE * length (actions_walked (entries walked.now)))) ≤ CAPACITY }
    ensures { output.new ≡ output.old ++ line_of number (entries walked.now) }
{
    keep_verdict(output, number, walked);
    keep_rules(output, walked);
    keep_effects(output, walked);
    keep_rates(output, walked);
    output.keep_back(b"\n");
}

/// Keeps back the line of a packet that can't be judged.
pub(crate) fn keep_unread(output: &mut Output, number: u64, reason: u8)
    requires { length output.old + LINE ≤ CAPACITY }
    ensures { output.new ≡ output.old ++ unread_line_of number reason }
{
    output.keep_number(number);
    keep_numbered(output, b" unread ", reason);
    output.keep_back(b"\n");
}

/// Keeps back the record's number and what becomes of the packet.
#[inline(always)]
pub(crate) fn keep_verdict(output: &mut Output, number: u64, walked: &[Walked<'_>])
    requires { length output.old + (LONGEST_NUMBER + VERDICT) ≤ CAPACITY }
    ensures text { output.new
        ≡ output.old ++ (decimal number ++ verdict_text (actions_walked (entries walked.now))) }
    ensures short { length output.new ≤ length output.old + (LONGEST_NUMBER + VERDICT) }
{
    output.keep_number(number);
    output.keep_back(verdict(walked));
}

/// What becomes of the packet: it passes unless some rule drops it.
fn verdict(walked: &[Walked<'_>]) -> &'static [u8]
    ensures text { result.now ≡ verdict_text (actions_walked (entries walked.now)) }
    ensures short { length result.now ≤ VERDICT }
{
    if discards(walked) {
        b" discard"
    } else {
        b" pass"
    }
}

/// Keeps back the numbers of the rules walked, from 1.
fn keep_rules(output: &mut Output, walked: &[Walked<'_>])
    requires { length output.old + (RULES + RULE * length walked.now) ≤ CAPACITY }
    ensures text { output.new ≡ output.old ++ numbers_text (numbers_walked (entries walked.now)) }
    ensures short { length output.new ≤ length output.old + (RULES + RULE * length walked.now) }
{
    let [first, others @ ..] = walked else {
        return;
    };
    keep_first(output, first.number);
    keep_others(output, others);
}

/// Keeps back the numbers, from 1, of the rules walked after the first.
fn keep_others(output: &mut Output, others: &[Walked<'_>])
    requires { length output.old + RULE * length others.now ≤ CAPACITY }
    ensures text { output.new ≡ output.old ++ others_text (numbers_walked (entries others.now)) }
    ensures short { length output.new ≤ length output.old + RULE * length others.now }
{
    for rule in others {
        keep_other(output, rule.number);
    }
}

/// Keeps back the number of the first rule walked, with the word before it.
pub(crate) fn keep_first(output: &mut Output, rule: usize)
    requires { length output.old + (RULES + LONGEST_NUMBER) ≤ CAPACITY }
    ensures text { output.new ≡ output.old ++ numbered (codes " rules ") rule }
    ensures short { length output.new ≤ length output.old + (RULES + LONGEST_NUMBER) }
{
    keep_numbered(output, b" rules ", rule);
}

/// Keeps back the number of a rule walked after the first, with the comma before it.
pub(crate) fn keep_other(output: &mut Output, rule: usize)
    requires { length output.old + RULE ≤ CAPACITY }
    ensures text { output.new ≡ output.old ++ numbered (codes ",") rule }
    ensures short { length output.new ≤ length output.old + RULE }
{
    keep_numbered(output, b",", rule);
}

/// Keeps back what the rules walked say beside the verdict, without their rates.
#[inline(always)]
pub(crate) fn keep_effects(output: &mut Output, walked: &[Walked<'_>])
    requires { length output.old + EFFECTS ≤ CAPACITY }
    ensures text { output.new ≡ output.old
        ++ (option_map_or mark_text (first_of mark_of (actions_walked (entries walked.now))) []
        ++ (option_map_or redirect_text (first_of redirect_of (actions_walked (entries walked.now))) []
        ++ sample_text (actions_walked (entries walked.now)))) }
    ensures short { length output.new ≤ length output.old + EFFECTS }
{
    keep_mark(output, first_mark(walked));
    keep_redirect(output, first_redirect(walked));
    output.keep_back(sampling(walked));
}

/// Keeps back a marking, if there is one.
fn keep_mark(output: &mut Output, mark: Option<u8>)
    requires { length output.old + MARK ≤ CAPACITY }
    ensures text { output.new ≡ output.old ++ option_map_or mark_text mark [] }
    ensures short { length output.new ≤ length output.old + MARK }
{
    match mark {
        Some(mark) => keep_numbered(output, b" mark ", mark),
        None => {}
    }
}

/// Keeps back a redirect, if there is one.
fn keep_redirect(output: &mut Output, redirect: Option<Redirect>)
    requires { length output.old + REDIRECT ≤ CAPACITY }
    ensures text { output.new ≡ output.old ++ option_map_or redirect_text redirect [] }
    ensures short { length output.new ≤ length output.old + REDIRECT }
{
    match redirect {
        Some(Redirect::As2 { asn, number }) => keep_pair(output, b" redirect as2:", asn, number),
        Some(Redirect::Ip4 { address, number }) => keep_address_pair(output, address, number),
        Some(Redirect::As4 { asn, number }) => keep_pair(output, b" redirect as4:", asn, number),
        None => {}
    }
}

/// Keeps back a word and two numbers with a colon between them.
fn keep_pair<A: Integer, B: Integer>(output: &mut Output, word: &[u8], first: A, second: B)
    requires { length output.old + (length word.now + (RULE + LONGEST_NUMBER)) ≤ CAPACITY }
    ensures text { output.new ≡ output.old ++ ((word.now ++ A.text first) ++ (codes ":" ++ B.text second)) }
    ensures short { length output.new ≤ length output.old + (length word.now + (RULE + LONGEST_NUMBER)) }
{
    keep_numbered(output, word, first);
    keep_numbered(output, b":", second);
}

/// Keeps back a redirect to an IPv4 address and a number.
fn keep_address_pair(output: &mut Output, address: u32, number: u16)
    requires { length output.old + REDIRECT ≤ CAPACITY }
    ensures text { output.new ≡ output.old
        ++ ((codes " redirect ip4:" ++ address_text address) ++ numbered (codes ":") number) }
    ensures short { length output.new ≤ length output.old + REDIRECT }
{
    keep_address(output, address);
    keep_numbered(output, b":", number);
}

/// Keeps back the words for a redirect to an IPv4 address, and the address.
fn keep_address(output: &mut Output, address: u32)
    requires { length output.old + ADDRESS ≤ CAPACITY }
    ensures text { output.new ≡ output.old ++ (codes " redirect ip4:" ++ address_text address) }
    ensures short { length output.new ≤ length output.old + ADDRESS }
{
    let [first, second, third, fourth] = address.to_be_bytes();
    keep_numbered(output, b" redirect ip4:", first);
    keep_numbered(output, b".", second);
    keep_numbered(output, b".", third);
    keep_numbered(output, b".", fourth);
}

/// The word for sampling, where some rule has the packet sampled.
fn sampling(walked: &[Walked<'_>]) -> &'static [u8]
    ensures text { result.now ≡ sample_text (actions_walked (entries walked.now)) }
    ensures short { length result.now ≤ SAMPLE }
{
    if samples(walked) { b" sample" } else { b"" }
}

/// Keeps back each rate of the rules walked that lets something pass.
fn keep_rates(output: &mut Output, walked: &[Walked<'_>])
    requires { length output.old + RATE * length (actions_walked (entries walked.now)) ≤ CAPACITY }
    ensures text { output.new ≡ output.old ++ rates_text (actions_walked (entries walked.now)) }
    ensures short { length output.new ≤ length output.old + RATE * length (actions_walked (entries walked.now)) }
{
    for rule in walked {
        keep_rates_of(output, rule.actions);
    }
}

/// Keeps back each rate of one rule that lets something pass.
fn keep_rates_of(output: &mut Output, actions: &Actions)
    requires { length output.old + RATE * length actions.now ≤ CAPACITY }
    ensures text { output.new ≡ output.old ++ rates_text actions.now }
    ensures short { length output.new ≤ length output.old + RATE * length actions.now }
{
    for action in actions.as_slice() {
        if let Some(rate) = action.limit() {
            keep_rate(output, rate);
        }
    }
}

/// Keeps back a rate by its four octets.
pub(crate) fn keep_rate(output: &mut Output, rate: Rate)
    requires { length output.old + RATE ≤ CAPACITY }
    ensures text { output.new ≡ output.old ++ rate_text rate }
    ensures short { length output.new ≤ length output.old + RATE }
{
    match rate {
        Rate::Bytes(figure) => keep_figure(output, b" bytes ", figure),
        Rate::Packets(figure) => keep_figure(output, b" packets ", figure),
    }
}

/// Keeps back a word and eight hexadecimal digits.
fn keep_figure(output: &mut Output, word: &[u8], figure: u32)
    requires { length output.old + (length word.now + 8) ≤ CAPACITY }
    ensures text { output.new ≡ output.old ++ (word.now ++ encode_lower (to_be_bytes w32 figure)) }
    ensures short { length output.new ≤ length output.old + (length word.now + 8) }
{
    let mut digits = [0u8; 8];
    let Ok(()) = hex::encode_to_slice(figure.to_be_bytes(), &mut digits) else {
        unreachable!()
    };
    output.keep_back(word);
    output.keep_back(&digits);
}

/// Keeps back a word and a number directly after it.
fn keep_numbered<N: Integer>(output: &mut Output, word: &[u8], number: N)
    requires { length output.old + (length word.now + LONGEST_NUMBER) ≤ CAPACITY }
    ensures text { output.new ≡ output.old ++ (word.now ++ N.text number) }
    ensures short { length output.new ≤ length output.old + (length word.now + LONGEST_NUMBER) }
{
    output.keep_back(word);
    output.keep_decimal(number);
}
