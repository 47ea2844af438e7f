//! The public surface, as a program uses it that knows crates, names and types: each word of the table makes the calls of
//! one subject. What is no stream of octets stands here: lists, rules, routes, tables, packets.

ghost use Rattle.std.specs.Prelude.{◌≡◌, ◌≤◌, ◌+◌, [], IfOk, OnOk, filter, length};
ghost use Rattle.fs_rules.specs.Table.{has_related};
ghost use Rattle.try_calls.specs.Counter.{HasOneMore, IsCountedBy, loss_of};

use crate::call::{Call, same};
use crate::streams;
use fs_actions::{ActionFault, Actions, Rate, Redirect, from_communities};
use fs_base::{Address, Family, Memory, Path, Prefix, Segments, Steps};
use fs_compile::{Compiled, Fast, Spans};
use fs_nlri::{Component, Feed, NlriFault, Reason, Rule, RuleFault, decode, encode};
use fs_ops::{MaskList, NumList, OpsFault};
use fs_order::{Ranked, precedes};
use fs_packet::{Link, Unread, View, matches, view};
use fs_rules::{Admitted, HeldFlow, Table};
use fs_shadow::{confirm, report};
use fs_text::{TextFault, print, read};
use fs_unicast::{Held, Unicast};
use fs_validate::{FlowRoute, Validity, destination, valid};
use std::alloc::Global;
use std::sync::ledger::Ledger;

/// Makes the calls of a line.
pub fn answer<L: Ledger>(call: &mut Call<'_>, steps: &mut Steps<L>) -> Option<()> {
    match call.word() {
        "routes" => routes(call, steps),
        "table" => table(call, steps),
        "packet" => packet(call, steps),
        "desk" => streams::desk(call),
        "expiry" => streams::expiry(call),
        "session" => streams::session(call),
        "announce" => streams::announce(call),
        "joint" => streams::joint(call),
        "calm" => streams::calm(call),
        "input" => streams::input(call),
        "numbers" => numbers(call),
        "masks" => masks(call),
        "rule" => rule(call),
        "made" => made(call),
        "order" => order(call),
        "text" => text(call),
        "actions" => actions(call),
        "write" => streams::write(call),
        "message" => streams::message(call),
        "update" => streams::update(call),
        _ => None,
    }
}

fn numbers_of(call: &mut Call<'_>) -> Option<(NumList, usize)> {
    let list: Result<(NumList, usize), OpsFault> = NumList::decode(call.alloc, &call.octets());
    call.good(list)
}

/// OCTETS OCTETS DATUM
fn numbers(call: &mut Call<'_>) -> Option<()> {
    let (list, taken) = numbers_of(call)?;
    let (other, _) = numbers_of(call)?;
    let one: Result<Spans, Memory> = Spans::of(call.alloc, &list);
    if let (Ok(one), Ok(other)) = (one, Spans::of(call.alloc, &other)) {
        call.show::<bool>(&one.within(&other));
    }
    let holds: bool = list.eval(call.number());
    call.show(&(taken, list.pairs(), holds, same(&list, &list)));
    let encoded: Result<(), Memory> = list.encode(&mut call.out);
    call.written(encoded)
}

/// OCTETS DATUM
fn masks(call: &mut Call<'_>) -> Option<()> {
    let octets = call.octets();
    let list: Result<(MaskList, usize), OpsFault> = MaskList::decode(call.alloc, &octets, &[0, 1]);
    let (list, taken) = call.good(list)?;
    let holds: bool = list.eval(call.number());
    call.show(&(taken, list.pairs(), holds, same(&list, &list)));
    let encoded: Result<(), Memory> = list.encode(&mut call.out);
    call.written(encoded)
}

/// FAMILY OCTETS: the rule, and then how these are fed octet by octet.
fn rule(call: &mut Call<'_>) -> Option<()> {
    let family = call.family();
    let octets = call.octets();
    feed(call, family, &octets);
    let (rule, taken) = call.good::<(Rule, usize), NlriFault>(decode(call.alloc, family, &octets))?;
    let (family, parts): (Family, &[Component]) = (rule.family(), rule.components());
    call.show::<(usize, Family, usize)>(&(taken, family, parts.len()));
    show_rule(call, &rule);
    let copy: Result<Rule, Memory> = rule.copy();
    call.show::<(Option<Prefix>, bool)>(&(rule.destination(), same(&copy, &Ok(rule))))
}

/// The rule's canonical NLRI.
fn show_rule(call: &mut Call<'_>, rule: &Rule) -> Option<()> {
    let encoded: Result<(), Memory> = encode(rule, &mut call.out);
    call.written(encoded)
}

fn feed(call: &mut Call<'_>, family: Family, octets: &[u8]) -> Option<()> {
    let mut feed = call.good::<Feed, Memory>(Feed::new(call.alloc, family))?;
    let mut rules = Vec::new(call.alloc);
    for octet in octets {
        let fed: Result<(), NlriFault> = feed.feed(&[*octet], &mut rules);
        call.show(&(fed.is_ok(), rules.len()));
    }
    match feed.end() {
        Err(NlriFault::Bad { reason, place }) => call.show::<(Reason, usize)>(&(reason, place)),
        ended => call.good::<(), NlriFault>(ended),
    }
}

/// FAMILY OCTETS: the rule of the flow labels of a list.
fn made(call: &mut Call<'_>) -> Option<()> {
    let family = call.family();
    let (list, _) = numbers_of(call)?;
    let parts = vec![in call.alloc; Component::FlowLabel(list)].ok()?;
    let rule = call.good::<Rule, RuleFault>(Rule::new(call.alloc, family, parts))?;
    show_rule(call, &rule)
}

/// RULE RULE
fn order(call: &mut Call<'_>) -> Option<()> {
    let (rule, other) = (call.rules().pop()?, call.rules().pop()?);
    let (comes_first, contains): (bool, bool) = (precedes(&rule, &other), confirm(&rule, &other));
    let (first, second) = (Ranked { rule }, Ranked { rule: other });
    let is_same = same(&first.rule, &second.rule) && same(&first, &second);
    call.show(&(comes_first, first.cmp(&second), contains, is_same))
}

/// The text that is left on the line, read and printed.
fn text(call: &mut Call<'_>) -> Option<()> {
    let (rule, actions) = call.good::<(Rule, Actions), TextFault>(read(call.alloc, call.rest))?;
    let mut out = String::new(call.alloc);
    call.good::<(), Memory>(print(&rule, &actions, &mut out));
    call.tell(out.as_str())
}

/// OCTETS
fn actions(call: &mut Call<'_>) -> Option<()> {
    let octets = call.octets();
    let actions = call.good::<Actions, ActionFault>(from_communities(call.alloc, &octets))?;
    call.show::<[bool; 3]>(&[actions.discards(), actions.more(), actions.sample()]);
    call.show::<(Option<u8>, Option<Redirect>)>(&(actions.mark(), actions.redirect()));
    let encoded: Result<(), Memory> = actions.to_communities(&mut call.out);
    call.written(encoded);
    let (copy, rate): (Result<Actions, Memory>, Option<Rate>) = (actions.copy(), actions.rate(0));
    call.show(&(rate, same(&copy, &Ok(actions))))
}

/// The path of a peer's own routes, with which each of its rules is valid.
fn empty_path(alloc: Global) -> Path {
    Path {
        origin: 0,
        segments: Segments::new(Vec::new(alloc)),
        local_pref: 100,
        originator: None,
        external: false,
    }
}

/// PREFIX PREFIX RULE: how the prefixes stand to each other; the validity of peer 1's rule before and behind routes of
/// peers 1 and 2 at them, and the best of these.
fn routes<L: Ledger>(call: &mut Call<'_>, steps: &mut Steps<L>) -> Option<()> {
    let (wide, narrow): (Prefix, Prefix) = (call.prefix()?, call.prefix()?);
    call.show(&(wide.covers(&narrow), wide.cmp(&narrow), wide.first_under()));
    let route = FlowRoute {
        peer: 1,
        rule: call.rules().pop()?,
        path: empty_path(call.alloc),
        actions: Actions::none(call.alloc),
    };
    let mut unicast: Unicast = Unicast::new(call.alloc);
    let before: Validity = valid(&unicast, call.config, &route, steps);
    let first: Result<(), Memory> = unicast.put(1, wide, empty_path(call.alloc));
    let second: Result<(), Memory> = unicast.put(2, narrow, empty_path(call.alloc));
    let behind: Validity = valid(&unicast, call.config, &route, steps);
    call.show(&(before, first, second, behind, same(&route, &route)));
    let best: Option<Held<'_>> = unicast.best(&wide, steps);
    if let Some(it) = unicast.best_match(&narrow, steps) {
        call.show::<(u16, &Path, bool)>(&(it.peer, it.path, same(&best, &Some(it))));
    }
    let others: bool = unicast.others_under(&wide, 65000, None);
    call.show::<(bool, bool)>(&(others, unicast.remove(2, &narrow)));
    Some(())
}

/// LINK OCTETS RULES: the packet's fields; whether it matches the first rule, compiled by itself and not; the first
/// match among all of them, compiled and by the table, and the next one.
fn packet<L: Ledger>(call: &mut Call<'_>, steps: &mut Steps<L>) -> Option<()> {
    let link: Link = Link::of(call.number())?;
    let octets = call.octets();
    let view = call.good::<View<'_>, Unread>(view(link, &octets))?;
    show_fields(call, &view);
    let rules = call.rules();
    test(call, &view, rules.first()?, steps);
    let mut table = Table::new(call.alloc, call.config);
    call.good(put_rules(call.alloc, &rules, &mut table, steps));
    walk(call, &view, &table, steps);
    Some(())
}

/// The fields of a packet.
fn show_fields(call: &mut Call<'_>, view: &View<'_>) {
    call.show::<(Family, Address, Address)>(&(view.family(), view.source(), view.destination()));
    call.show::<[Option<u8>; 3]>(&[view.protocol(), view.icmp_type(), view.icmp_code()]);
    let ports: [Option<u16>; 2] = [view.source_port(), view.destination_port()];
    call.show::<([Option<u16>; 2], Option<u16>)>(&(ports, view.tcp_octets()));
    call.show::<(Option<u32>, u32)>(&(view.flow_label(), view.length()));
    call.show::<(u8, u8, bool)>(&(view.dscp(), view.fragment(), same(view, view)));
}

fn test<L: Ledger>(call: &mut Call<'_>, view: &View<'_>, rule: &Rule, steps: &mut Steps<L>) {
    if let Some(fast) = call.good::<Fast, Memory>(Fast::of(call.alloc, rule)) {
        call.show::<(bool, bool)>(&(fast.test(view, steps), matches(rule, view)));
    }
}

fn walk<L: Ledger>(call: &mut Call<'_>, view: &View<'_>, table: &Table<'_>, steps: &mut Steps<L>) {
    if let Some(it) = call.good::<Compiled, Memory>(Compiled::build(call.alloc, table)) {
        call.show::<[Option<usize>; 2]>(&[it.first(view, steps), it.next(view, 0, steps)]);
        call.show::<[Option<usize>; 2]>(&[table.walk(view, 0), table.walk(view, 1)]);
    }
}

/// PREFIX PREFIX RULES: what a table shows with peer 1's routes of the rules; how many tests the puts of these take at
/// most, then its unicast routes at both prefixes and its loss; how many rules are admitted and held then.
pub fn table<L: Ledger>(call: &mut Call<'_>, steps: &mut Steps<L>) -> Option<()> {
    let nets = (call.prefix()?, call.prefix()?);
    let mut rules = call.rules();
    let mut table: Table<'_> = Table::new(call.alloc, call.config);
    if let Ok(destinations) = put_rules(call.alloc, &rules, &mut table, steps) {
        show(call, &table);
        change(call, &mut table, &destinations, nets, steps);
    }
    call.show(&(table.count(Family::V4), table.held_by(1)));
    if let Some(rule) = rules.pop() {
        take(call, &mut table, rule, steps);
    }
    Some(())
}

fn change<L: Ledger>(
    call: &mut Call<'_>,
    table: &mut Table<'_>,
    destinations: &[Option<Prefix>],
    nets: (Prefix, Prefix),
    steps: &mut Steps<L>,
) -> Option<()>
    requires counted { IsCountedBy table.old destinations.now }
    requires unicast { table.old.unicast ≡ [] }
{
    let first = put_net(call.alloc, table, destinations, nets.0, steps).ok()?;
    let second = put_net(call.alloc, table, destinations, nets.1, steps).ok()?;
    let most = first as u128 + second as u128;
    lose_peer(table, most, steps);
    call.show(&(destinations.len(), first, second, most))
}

/// A route of the rule and one of its destination come and go.
fn take<L: Ledger>(call: &mut Call<'_>, table: &mut Table<'_>, rule: Rule, steps: &mut Steps<L>) {
    if let Some(net) = rule.destination() {
        let flow: Result<Option<Prefix>, Memory> = put_rule(call.alloc, &rule, table, steps);
        let unicast: Result<(), Memory> = table.put_unicast(1, net, empty_path(call.alloc), steps);
        let gone: bool = table.withdraw_unicast(1, &net, steps);
        let flow_gone: bool = table.withdraw_flow(1, &Ranked { rule }, steps);
        call.show(&(flow, unicast, gone, flow_gone));
    }
}

/// The first rule of a table that is admitted, and the first that is held; how many there are, and what covers what.
fn show(call: &mut Call<'_>, table: &Table<'_>) -> Option<()> {
    call.show::<Result<Vec<(usize, usize)>, Memory>>(&report(call.alloc, table, Family::V4));
    call.show(&(table.count(Family::V4), table.held_by(1)));
    let first: Admitted<'_> = table.rule(Family::V4, 0)?;
    let held: HeldFlow<'_> = table.held_flow(Family::V4, 0)?;
    let (rule, peer, actions): (&Rule, u16, &Actions) = (first.rule, first.peer, first.actions);
    let (same_rule, by, validity): (&Rule, u16, Validity) = (held.rule, held.peer, held.validity);
    let is_same = same(&first, &first) && same(&held, &held) && same(rule, same_rule);
    call.show(&(peer, actions.discards(), by, validity, is_same));
    show_rule(call, rule)
}

/// Puts peer 1's route of a rule, and answers the rule's destination. At most one step.
fn put_rule<L: Ledger>(
    alloc: Global,
    rule: &Rule,
    table: &mut Table<'_>,
    steps: &mut Steps<L>,
) -> Result<Option<Prefix>, Memory>
    ensures unicast { OnOk result (table.new.unicast ≡ table.old.unicast) }
    ensures related { IfOk result (HasOneMore table.old table.new) }
    ensures steps { OnOk result (steps.new ≤ steps.old + 1) }
{
    let rule = rule.copy()?;
    let destination = destination(&rule);
    table.put_flow(1, rule, empty_path(alloc), Actions::none(alloc), steps)?;
    Ok(destination)
}

/// Puts peer 1's route of each rule, and answers the destinations. At most one step for each.
fn put_rules<L: Ledger>(
    alloc: Global,
    rules: &[Rule],
    table: &mut Table<'_>,
    steps: &mut Steps<L>,
) -> Result<Vec<Option<Prefix>>, Memory>
    requires { table.old.flows ≡ [] }
    ensures unicast { OnOk result (table.new.unicast ≡ table.old.unicast) }
    ensures related { IfOk result (λ ds. IsCountedBy table.new ds.items) }
    ensures steps { IfOk result (λ ds. steps.new ≤ steps.old + length ds.items) }
{
    let mut destinations = Vec::new(alloc);
    for rule in rules {
        let destination = put_rule(alloc, rule, table, steps)?;
        destinations.push(destination)?;
    }
    Ok(destinations)
}

/// Whether the destination covers the prefix or is covered by it.
fn is_related(destination: &Option<Prefix>, prefix: &Prefix) -> bool
    ensures { result ≡ has_related prefix.now destination.now }
{
    match destination {
        Some(destination) => destination.covers(prefix) || prefix.covers(destination),
        None => false,
    }
}

fn count_related(destinations: &[Option<Prefix>], net: &Prefix) -> usize
    ensures { result ≡ length (filter (has_related net.now) destinations.now) }
{
    destinations.iter().filter(|d| is_related(d, net)).count()
}

/// Puts peer 1's unicast route at a prefix, and answers how many of the destinations are related to it. At most so many
/// steps.
fn put_net<L: Ledger>(
    alloc: Global,
    table: &mut Table<'_>,
    destinations: &[Option<Prefix>],
    prefix: Prefix,
    steps: &mut Steps<L>,
) -> Result<usize, Memory>
    requires { IsCountedBy table.old destinations.now }
    ensures flows { OnOk result (table.new.flows ≡ table.old.flows) }
    ensures sum { IfOk result (λ n. loss_of table.new ≤ loss_of table.old + n) }
    ensures steps { IfOk result (λ n. steps.new ≤ steps.old + n) }
{
    let related = count_related(destinations, &prefix);
    table.put_unicast(1, prefix, empty_path(alloc), steps)?;
    Ok(related)
}

/// Peer 1 is lost. At most as many steps as its unicast routes together have related rules.
fn lose_peer<L: Ledger>(table: &mut Table<'_>, most: u128, steps: &mut Steps<L>)
    requires { loss_of table.old ≤ most }
    ensures { steps.new ≤ steps.old + most }
{
    table.lose(1, steps);
}
