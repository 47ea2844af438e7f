//! The path attributes of a route that validation and preference read.

ghost use Rattle.std.specs.Prelude.{◌≡◌, IfOk};

use crate::Memory;
use crate::items::Items;
use std::alloc::Global;

/// The AS numbers of one segment, in the order of the AS_PATH.
pub type Numbers = Items<u32>;

impl Items<u32> {
    /// An equal list.
    pub fn copy(&self) -> Result<Numbers, Memory>
        ensures { IfOk result (λ copy. copy ≡ self.now) }
    {
        Ok(Items {
            values: Vec::from_slice(*self.values.allocator(), &self.values)?,
        })
    }
}

/// The form of an AS_SET (RFC 4271 section 4.3).
pub const AS_SET: u8 = 1;

/// The form of an AS_SEQUENCE (RFC 4271 section 4.3).
pub const AS_SEQUENCE: u8 = 2;

/// The form of an AS_CONFED_SEQUENCE (RFC 5065 section 3).
pub const AS_CONFED_SEQUENCE: u8 = 3;

/// The form of an AS_CONFED_SET (RFC 5065 section 3).
pub const AS_CONFED_SET: u8 = 4;

/// One segment of an AS_PATH. Its form is that of one of the four kinds, `AS_SET` to `AS_CONFED_SET`.
#[derive(Debug, PartialEq, Eq, Drop)]
pub struct Segment {
    pub form: u8,
    pub numbers: Numbers,
}

impl Segment {
    /// An equal segment.
    pub fn copy(&self) -> Result<Segment, Memory>
        ensures { IfOk result (λ copy. copy ≡ self.now) }
    {
        Ok(Segment {
            form: self.form,
            numbers: self.numbers.copy()?,
        })
    }
}

/// The segments of an AS_PATH, in order.
pub type Segments = Items<Segment>;

impl Items<Segment> {
    /// An equal list.
    pub fn copy(&self) -> Result<Segments, Memory>
        ensures { IfOk result (λ copy. copy ≡ self.now) }
    {
        Ok(Items {
            values: copy_segments(*self.values.allocator(), &self.values)?,
        })
    }
}

fn copy_segments(alloc: Global, segments: &[Segment]) -> Result<Vec<Segment>, Memory>
    ensures { IfOk result (λ copy. copy.items ≡ segments.now) }
{
    let mut copies = Vec::with_capacity(alloc, segments.len())?;
    for segment in segments {
        copies.push(segment.copy()?)?;
    }
    Ok(copies)
}

/// What a route's attributes say. `origin` is 0 for IGP, 1 for EGP, 2 for INCOMPLETE (RFC 4271 section
/// 5.1.1). `local_pref` is 100 where no LOCAL_PREF counts. `originator` is the ORIGINATOR_ID (RFC 4456
/// section 8) in host order. `external` tells whether the route came from an external peer.
#[derive(Debug, PartialEq, Eq, Drop)]
pub struct Path {
    pub segments: Segments,
    pub local_pref: u32,
    pub originator: Option<u32>,
    pub origin: u8,
    pub external: bool,
}

impl Path {
    /// An equal path.
    pub fn copy(&self) -> Result<Path, Memory>
        ensures { IfOk result (λ copy. copy ≡ self.now) }
    {
        Ok(Path {
            origin: self.origin,
            segments: self.segments.copy()?,
            local_pref: self.local_pref,
            originator: self.originator,
            external: self.external,
        })
    }
}
