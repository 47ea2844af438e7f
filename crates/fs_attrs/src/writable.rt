//! Which updates can be written.

ghost use Rattle.std.specs.{Prelude.{◌≡◌, ◌==◌}, List.{list_all}};
ghost use Rattle.fs_base.specs.Bits.{afi_of};
ghost use Rattle.fs_attrs.specs.Writable.{are_prefixes_of, are_rules_of, are_attribute_routes, if_routes, is_path_of_session, is_written_path};
ghost use Rattle.fs_attrs.specs.Writable.{announces, has_its_path, is_writable};
ghost use Rattle.fs_attrs.specs.Segments.{is_written_segment};

use crate::lists::{PrefixList, RuleList};
use crate::segments::is_written;
use crate::update::{Routes, Terms, Update};
use fs_base::{Family, Path, Prefix, Segment};

impl Update {
    /// Whether [`write_update`](crate::write_update) can write the update on these terms: it doesn't say
    /// treat-as-withdraw; each list is of its family, and none in an attribute is empty; IPv4 unicast routes
    /// stand outside the attributes; a path stands exactly where routes are announced, and actions only beside
    /// it; the path is of the session's kind, with an origin of at most 2 and segments of 1 to 255 numbers; and
    /// to an external peer it has no confederation segment, no ORIGINATOR_ID and a LOCAL_PREF of 100.
    pub fn is_writable(&self, terms: &Terms) -> bool
        ensures { result ≡ is_writable terms.now self.now }
    {
        !self.as_withdraw
            && are_of(Family::V4, &self.classic_out)
            && are_of(Family::V4, &self.classic_in)
            && are_in_attribute(&self.reach)
            && are_in_attribute(&self.unreach)
            && has_its_path(self, terms)
    }
}

fn are_of(family: Family, prefixes: &PrefixList) -> bool
    ensures { result ≡ are_prefixes_of family prefixes.now }
{
    are_all_of(family, prefixes.as_slice())
}

fn are_all_of(family: Family, prefixes: &[Prefix]) -> bool
    ensures { result ≡ list_all (λ prefix. afi_of prefix.family == afi_of family) prefixes.now }
{
    prefixes.iter().all(|prefix| prefix.family == family)
}

fn are_rules_of(family: Family, rules: &RuleList) -> bool
    ensures { result ≡ are_rules_of family rules.now }
{
    rules.as_slice().iter().all(|rule| rule.family() == family)
}

fn are_in_attribute(routes: &Option<Routes>) -> bool
    ensures { result ≡ if_routes routes.now }
{
    match routes {
        Some(Routes::Unicast(Family::V4, _)) => false,
        Some(Routes::Unicast(Family::V6, prefixes)) => !prefixes.is_empty()
            && are_of(Family::V6, prefixes),
        Some(Routes::Flow(family, rules)) => !rules.is_empty() && are_rules_of(*family, rules),
        None => true,
    }
}

/// Whether a path stands exactly where it is to, and actions only beside one.
fn has_its_path(update: &Update, terms: &Terms) -> bool
    ensures { result ≡ has_its_path terms.now update.now update.now.path }
{
    let announces = update.reach.is_some() || !update.classic_in.is_empty();
    match &update.path {
        Some(path) => announces && is_path(path, terms),
        None => !announces && update.actions.as_slice().is_empty(),
    }
}

fn is_path(path: &Path, terms: &Terms) -> bool
    ensures { result ≡ is_written_path terms.now path.now }
{
    is_of_session(path, terms)
        && path.origin <= 2
        && are_segments(path.segments.as_slice(), terms.external)
}

fn are_segments(segments: &[Segment], external: bool) -> bool
    ensures { result ≡ list_all (is_written_segment external) segments.now }
{
    segments.iter().all(|segment| is_written(segment, external))
}

fn is_of_session(path: &Path, terms: &Terms) -> bool
    ensures { result ≡ is_path_of_session terms.now path.now }
{
    if terms.external {
        return path.external && path.local_pref == 100 && path.originator.is_none();
    }
    !path.external
}
