//! Paths that the routes beside one another share.

ghost use Rattle.std.specs.Prelude.{◌≡◌, ◌↔◌, Some, IfOk, IfSome, IsTrue, option_map};
ghost use Rattle.fs_unicast.specs.{Neighbour.{neighbour}, Turns.{entry_now}};

use crate::beside::Lent;
use crate::neighbour::neighbour;
use fs_base::{Memory, Path, Segment};
use std::alloc::Global;
use std::marker::Model;
use std::rc::Rc;

/// A path that many routes may hold: a peer's routes beside one another mostly have the same.
#[derive(Drop)]
pub struct SharedPath {
    path: Rc<Path>,
}

impl Model for SharedPath {
    ghost use Rattle.fs_base.specs.declared.path.Path.{Path};

    ghost Value = { Path };

    ghost view = { λ a. a.path.value };
}

impl SharedPath {
    /// A path of one route.
    pub fn new(alloc: Global, path: Path) -> Result<SharedPath, Memory>
        ensures { IfOk result (λ shared. shared ≡ path) }
    {
        let path = Rc::new(alloc, path)?;
        Ok(SharedPath { path })
    }

    /// Whether this is the path.
    pub fn is(&self, path: &Path) -> bool
        ensures { IsTrue result ↔ self.now ≡ path.now }
    {
        is_same_path(self.path(), path)
    }

    /// The same path once more.
    pub fn share(&self) -> Result<SharedPath, Memory>
        ensures { IfOk result (λ shared. shared ≡ self.now) }
    {
        let path = self.path.clone()?;
        Ok(SharedPath { path })
    }

    /// The path.
    pub fn path(&self) -> &Path
        ensures { result.now ≡ self.now }
    {
        self.path.as_ref()
    }

    /// The neighbouring AS that the path names; None where only confederation segments stand in it.
    pub fn neighbour(&self) -> Option<u32>
        ensures { result ≡ neighbour self.now.segments }
    {
        neighbour(self.path().segments.as_slice())
    }
}

/// The path as one of the routes beside it has it, else as it is.
pub(crate) fn share_beside(
    path: SharedPath,
    before: Option<Lent<'_>>,
    after: Option<Lent<'_>>,
) -> Result<SharedPath, Memory>
    ensures { IfOk result (λ shared. shared ≡ path) }
{
    if let Some(held) = same_path(before, &path) {
        return held.share();
    }
    if let Some(held) = same_path(after, &path) {
        return held.share();
    }
    Ok(path)
}

/// The route's path, if it is this one.
fn same_path<'a>(route: Option<Lent<'a>>, path: &SharedPath) -> Option<&'a SharedPath>
    ensures { IfSome result (λ held. held.now ≡ path.now) }
{
    match route {
        Some((_, held)) if held.is(path.path()) => Some(held),
        _ => None,
    }
}

/// Whether there is a route, and it has this path.
pub(crate) fn has_path(route: Option<Lent<'_>>, path: &SharedPath) -> bool
    ensures { IsTrue result ↔ option_map (λ r. r.1) (option_map entry_now route.entry) ≡ Some path.now }
{
    match route {
        Some((_, held)) => held.is(path.path()),
        None => false,
    }
}

/// Whether the two paths are the same.
fn is_same_path(one: &Path, other: &Path) -> bool
    ensures { IsTrue result ↔ one.now ≡ other.now }
{
    one.origin == other.origin
        && one.local_pref == other.local_pref
        && one.originator == other.originator
        && one.external == other.external
        && are_same_segments(one.segments.as_slice(), other.segments.as_slice())
}

fn are_same_segments(ones: &[Segment], others: &[Segment]) -> bool
    ensures { IsTrue result ↔ ones.now ≡ others.now }
{
    if ones.len() != others.len() {
        return false;
    }
    for (place, one) in ones.iter().enumerate() {
        if !is_same_segment(one, &others[place]) {
            return false;
        }
    }
    true
}

fn is_same_segment(one: &Segment, other: &Segment) -> bool
    ensures { IsTrue result ↔ one.now ≡ other.now }
{
    one.form == other.form && one.numbers.as_slice() == other.numbers.as_slice()
}
