//! What an update of a peer does to the table.

ghost use Rattle.std.specs.{Prelude.{◌≡◌, ◌++◌, [], None, map, OnOk, if◌then◌else◌}, List.{AllByRecursion}};
ghost use Rattle.fs_nlri.specs.Rule.{shown};
ghost use Rattle.fs_attrs.specs.{Lists.{IsPrefix}, Update.{unicast_in, flows_in, gives_prefixes}};
ghost use Rattle.fs_desk.specs.Apply.{Applies, Announces, Changes, Withdraws, same, taken_of, given_at, rules_taken, rules_given};
ghost use Rattle.fs_desk.specs.{Idle.{IsIdle}, Watched.{Tells}};

use crate::watched::Watched;
use fs_attrs::{PrefixList, Routes, RuleList, Update};
use fs_base::{Memory, Path, Prefix, Steps};
use fs_order::Ranked;
use fs_rules::Given;
use fs_unicast::SharedPath;
use std::sync::ledger::Ledger;

/// Takes away what the update takes, and then keeps what it gives. What it gives is taken away too where it is to be
/// treated as a withdrawal (RFC 7606 section 2).
pub(crate) fn apply<L: Ledger>(
    watched: &mut Watched<'_>,
    peer: u16,
    update: Update,
    steps: &mut Steps<L>,
) -> Result<(), Memory>
    ensures applied { OnOk result (Applies peer update watched.old.table watched.new.table) }
    ensures prefixes { OnOk result (AllByRecursion IsPrefix (gives_prefixes update)) }
    ensures told { OnOk result (Tells watched.old watched.new) }
    ensures idle { IsIdle update → OnOk result (watched.new ≡ watched.old) }
{
    withdraw(watched, peer, update.classic_out, update.unreach, steps);
    let Some(path) = path_given(update.path, update.as_withdraw) else {
        withdraw(watched, peer, update.classic_in, update.reach, steps);
        return Ok(());
    };
    let given = watched.table.given(path, update.actions)?;
    give(watched, peer, update.classic_in, update.reach, given, steps)
}

/// The path of the routes that an update gives. It gives none where its routes are to be treated as withdrawn.
fn path_given(path: Option<Path>, as_withdraw: bool) -> Option<Path>
    ensures { result ≡ (if as_withdraw then None else path) }
{
    if as_withdraw { None } else { path }
}

fn withdraw<L: Ledger>(
    watched: &mut Watched<'_>,
    peer: u16,
    prefixes: PrefixList,
    routes: Option<Routes>,
    steps: &mut Steps<L>,
)
    ensures changes { Withdraws peer (prefixes ++ unicast_in routes) (flows_in routes)
        watched.old.table watched.new.table }
    ensures prefixes { AllByRecursion IsPrefix (prefixes ++ unicast_in routes) }
    ensures told { Tells watched.old watched.new }
    ensures idle { prefixes ++ unicast_in routes ≡ [] → flows_in routes ≡ [] → watched.new ≡ watched.old }
{
    withdraw_prefixes(watched, peer, &prefixes, steps);
    withdraw_routes(watched, peer, routes, steps);
}

fn withdraw_routes<L: Ledger>(
    watched: &mut Watched<'_>,
    peer: u16,
    routes: Option<Routes>,
    steps: &mut Steps<L>,
)
    ensures changes { Withdraws peer (unicast_in routes) (flows_in routes) watched.old.table watched.new.table }
    ensures prefixes { AllByRecursion IsPrefix (unicast_in routes) }
    ensures told { Tells watched.old watched.new }
    ensures idle { unicast_in routes ≡ [] → flows_in routes ≡ [] → watched.new ≡ watched.old }
{
    match routes {
        Some(Routes::Unicast(_, prefixes)) => withdraw_prefixes(watched, peer, &prefixes, steps),
        Some(Routes::Flow(_, rules)) => withdraw_rules(watched, peer, rules),
        None => {}
    }
}

/// Gives the peer these prefixes, and behind them the routes, if there are any.
fn give<L: Ledger>(
    watched: &mut Watched<'_>,
    peer: u16,
    prefixes: PrefixList,
    routes: Option<Routes>,
    given: Given,
    steps: &mut Steps<L>,
) -> Result<(), Memory>
    ensures changes { OnOk result (Announces peer (prefixes ++ unicast_in routes) (flows_in routes)
        given.path given.actions watched.old.table watched.new.table) }
    ensures prefixes { OnOk result (AllByRecursion IsPrefix (prefixes ++ unicast_in routes)) }
    ensures told { OnOk result (Tells watched.old watched.new) }
    ensures idle { prefixes ++ unicast_in routes ≡ [] → flows_in routes ≡ [] → OnOk result (watched.new ≡ watched.old) }
{
    give_prefixes(watched, peer, &prefixes, &given.path, steps)?;
    match routes {
        Some(Routes::Unicast(_, more)) => give_prefixes(watched, peer, &more, &given.path, steps),
        Some(Routes::Flow(_, rules)) => give_rules(watched, peer, rules, given, steps),
        None => Ok(()),
    }
}

fn withdraw_prefixes<L: Ledger>(
    watched: &mut Watched<'_>,
    peer: u16,
    prefixes: &PrefixList,
    steps: &mut Steps<L>,
)
    ensures changes { Changes peer (taken_of prefixes.now) same watched.old.table watched.new.table }
    ensures prefixes { AllByRecursion IsPrefix prefixes.now }
    ensures told { Tells watched.old watched.new }
    ensures idle { prefixes.now ≡ [] → watched.new ≡ watched.old }
{
    withdraw_each(watched, peer, prefixes.as_slice(), steps);
}

fn withdraw_each<L: Ledger>(
    watched: &mut Watched<'_>,
    peer: u16,
    prefixes: &[Prefix],
    steps: &mut Steps<L>,
)
    ensures changes { Changes peer (taken_of (map shown prefixes.now)) same watched.old.table watched.new.table }
    ensures told { Tells watched.old watched.new }
    ensures idle { map shown prefixes.now ≡ [] → watched.new ≡ watched.old }
{
    for prefix in prefixes {
        watched
            .table
            .withdraw_unicast_telling(peer, prefix, &mut watched.changes, steps);
    }
}

/// Gives the peer the prefixes, all with one shared path.
fn give_prefixes<L: Ledger>(
    watched: &mut Watched<'_>,
    peer: u16,
    prefixes: &PrefixList,
    path: &SharedPath,
    steps: &mut Steps<L>,
) -> Result<(), Memory>
    ensures changes { OnOk result
        (Changes peer (given_at prefixes.now path.now) same watched.old.table watched.new.table) }
    ensures prefixes { OnOk result (AllByRecursion IsPrefix prefixes.now) }
    ensures told { OnOk result (Tells watched.old watched.new) }
    ensures idle { prefixes.now ≡ [] → OnOk result (watched.new ≡ watched.old) }
{
    give_each(watched, peer, prefixes.as_slice(), path, steps)
}

fn give_each<L: Ledger>(
    watched: &mut Watched<'_>,
    peer: u16,
    prefixes: &[Prefix],
    path: &SharedPath,
    steps: &mut Steps<L>,
) -> Result<(), Memory>
    ensures changes { OnOk result
        (Changes peer (given_at (map shown prefixes.now) path.now) same watched.old.table watched.new.table) }
    ensures told { OnOk result (Tells watched.old watched.new) }
    ensures idle { map shown prefixes.now ≡ [] → OnOk result (watched.new ≡ watched.old) }
{
    for prefix in prefixes {
        watched
            .table
            .put_unicast_telling(peer, *prefix, path.share()?, &mut watched.changes, steps)?;
    }
    Ok(())
}

fn withdraw_rules(watched: &mut Watched<'_>, peer: u16, rules: RuleList)
    ensures changes { Changes peer same (rules_taken rules) watched.old.table watched.new.table }
    ensures told { Tells watched.old watched.new }
    ensures idle { rules ≡ [] → watched.new ≡ watched.old }
{
    for rule in rules.into_vec() {
        watched
            .table
            .withdraw_flow_telling(peer, &Ranked { rule }, &mut watched.changes);
    }
}

/// Gives the peer the rules, all with one shared path and shared actions.
fn give_rules<L: Ledger>(
    watched: &mut Watched<'_>,
    peer: u16,
    rules: RuleList,
    given: Given,
    steps: &mut Steps<L>,
) -> Result<(), Memory>
    ensures changes { OnOk result
        (Changes peer same (rules_given rules given.path given.actions) watched.old.table watched.new.table) }
    ensures told { OnOk result (Tells watched.old watched.new) }
    ensures idle { rules ≡ [] → OnOk result (watched.new ≡ watched.old) }
{
    let given = watched.table.share(given)?;
    watched.changes.make_room()?;
    for rule in rules.into_vec() {
        watched
            .table
            .put_flow_telling(peer, rule, &given, &mut watched.changes, steps)?;
    }
    Ok(())
}
