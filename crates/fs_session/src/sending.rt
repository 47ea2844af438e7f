//! The rules that an announcing end is to send.

ghost use Rattle.std.specs.{Prelude.{◌≡◌, ◌≤◌, nat_lt, true, length, IfOk}, List.{list_all}, Option.{option_copied}};
ghost use Rattle.fs_base.specs.Bits.{afi_of};
ghost use Rattle.fs_attrs.specs.Write.{Writes};
ghost use Rattle.fs_message.specs.Write.{AppendsWhole};
ghost use Rattle.fs_session.specs.Sending.{is_lowest, sender_of, has_family, segments_sent, path_by, update_by, body_by, text_by, is_short};

use crate::side::{Needs, terms};
use crate::size::is_short;
use fs_actions::Actions;
use fs_attrs::{PrefixList, Routes, RuleList, Terms, Update, WriteFault, write_update};
use fs_base::{AS_SEQUENCE, Config, Family, Items, Memory, Numbers, Path, Peer, Segment, Segments};
use fs_nlri::Rule;
use std::alloc::Global;

/// A rule, and the actions that are sent with it.
#[derive(Debug, PartialEq, Eq, Drop)]
pub struct Sent {
    pub rule: Rule,
    pub actions: Actions,
}

/// Rules with their actions, in the order in which they are announced.
pub type SentList = Items<Sent>;

/// What is sent: under this BGP identifier and these AS numbers as one AS_SEQUENCE the rules, one UPDATE for each.
#[derive(Debug, PartialEq, Eq, Drop)]
pub struct Sending {
    pub id: u32,
    pub as_path: Numbers,
    pub rules: SentList,
}

impl Sending {
    ghost use Rattle.std.specs.Prelude.{◌≡◌, IfOk};
    ghost use Rattle.fs_session.specs.Sending.{needs_of, is_sending};

    /// The families of the rules.
    pub fn needs(&self) -> Needs
        ensures { result ≡ needs_of self.now.rules }
    {
        let rules = self.rules.as_slice();
        Needs {
            v4: has_family(rules, Family::V4),
            v6: has_family(rules, Family::V6),
        }
    }

    /// Whether it may be sent for this peer: it has at most 255 AS numbers, none of them is 0, and the UPDATE of
    /// each rule fits the 4096 octets of a message, with AS numbers of four octets.
    pub fn may_be_sent(&self, config: &Config, peer: &Peer) -> bool
        ensures { result ≡ is_sending config.now peer.now self.now }
    {
        let numbers = self.as_path.as_slice();
        if numbers.len() > 255 || !are_positive(numbers) {
            return false;
        }
        let terms = terms(config, peer, true);
        are_short(&terms, &self.as_path, self.rules.as_slice())
    }
}

fn has_family(rules: &[Sent], family: Family) -> bool
    ensures { result ≡ has_family (afi_of family) rules.now }
{
    rules.iter().any(|sent| sent.rule.family() == family)
}

/// The peer of the configuration that rules are sent for: the one with the lowest number.
pub fn sender(config: &Config) -> Option<&Peer>
    ensures { option_copied result ≡ sender_of config.now.peers }
{
    let peers = config.peers.as_slice();
    peers.iter().find(|peer| is_lowest(peers, peer))
}

fn is_lowest(peers: &[Peer], peer: &Peer) -> bool
    ensures { result ≡ is_lowest peers.now peer.now }
{
    peers.iter().all(|other| peer.number <= other.number)
}

/// Whether the UPDATE of each rule fits the 4096 octets of a message.
fn are_short(terms: &Terms, numbers: &Numbers, rules: &[Sent]) -> bool
    requires { length numbers.now ≤ 255 }
    ensures { result ≡ list_all (is_short terms.now numbers.now) rules.now }
{
    let mut rest = rules;
    while let [first, others @ ..] = rest {
        if !is_short(terms, numbers, first) {
            return false;
        }
        rest = others;
    }
    true
}

fn are_positive(numbers: &[u32]) -> bool
    ensures { result ≡ list_all (λ asn. nat_lt 0 asn) numbers.now }
{
    numbers.iter().all(|asn| 0 < *asn)
}

/// Appends the UPDATE of a rule that fits, as it is sent on these terms under these AS numbers. After `Memory` `out` is as
/// it was.
pub fn append_rule(
    terms: &Terms,
    numbers: &Numbers,
    sent: &Sent,
    out: &mut Vec<u8>,
) -> Result<(), Memory>
    requires few { length numbers.now ≤ 255 }
    requires fits { is_short terms.now numbers.now sent.now ≡ true }
    ensures { AppendsWhole result out.old.items out.new.items (text_by terms.now numbers.now sent.now) }
{
    match write_rule(terms, numbers, sent, out) {
        Ok(()) => Ok(()),
        Err(WriteFault::TooLong) => unreachable!(),
        Err(WriteFault::Memory) => Err(Memory),
    }
}

/// Appends the UPDATE of a rule, unless it is too long.
fn write_rule(
    terms: &Terms,
    numbers: &Numbers,
    sent: &Sent,
    out: &mut Vec<u8>,
) -> Result<(), WriteFault>
    requires { length numbers.now ≤ 255 }
    ensures { Writes result (body_by terms.now numbers.now sent.now) out.old.items out.new.items }
{
    let update = update_of(*out.allocator(), terms, numbers, sent)?;
    write_update(&update, terms, out)
}

/// The update that announces a rule.
fn update_of(alloc: Global, terms: &Terms, numbers: &Numbers, sent: &Sent) -> Result<Update, Memory>
    ensures { IfOk result (λ update. update ≡ update_by terms.now numbers.now sent.now) }
{
    let rules = vec![in alloc; sent.rule.copy()?]?;
    Ok(Update {
        classic_out: PrefixList::new(Vec::new(alloc)),
        unreach: None,
        reach: Some(Routes::Flow(sent.rule.family(), RuleList::new(rules))),
        classic_in: PrefixList::new(Vec::new(alloc)),
        path: Some(path_of(alloc, terms, numbers)?),
        actions: sent.actions.copy()?,
        as_withdraw: false,
    })
}

/// ORIGIN IGP, the numbers as one AS_SEQUENCE, and LOCAL_PREF 100.
fn path_of(alloc: Global, terms: &Terms, numbers: &Numbers) -> Result<Path, Memory>
    ensures { IfOk result (λ path. path ≡ path_by terms.now numbers.now) }
{
    Ok(Path {
        origin: 0,
        segments: Segments::new(segments_of(alloc, numbers)?),
        local_pref: 100,
        originator: None,
        external: terms.external,
    })
}

fn segments_of(alloc: Global, numbers: &Numbers) -> Result<Vec<Segment>, Memory>
    ensures { IfOk result (λ segments. segments.items ≡ segments_sent numbers.now) }
{
    if numbers.as_slice().is_empty() {
        return Ok(Vec::new(alloc));
    }
    let segment = Segment {
        form: AS_SEQUENCE,
        numbers: numbers.copy()?,
    };
    Ok(vec![in alloc; segment]?)
}
