//! Flow specification NLRI of both families (RFC 8955 section 4, RFC 8956 section 3): components, rules, the
//! frames that spell them, and their first faults.
#![tactic(auto)]

mod body;
mod clearing;
mod component;
mod copying;
mod counting;
mod equality;
mod fault;
mod feed;
mod frame;
mod given;
mod laws;
mod making;
mod rule;
mod size;
mod value;
mod writing;

pub use body::left_aligned;
pub use component::{Component, Content, PrefixForm};
pub use fault::{NlriFault, Reason, RuleFault};
pub use feed::Feed;
pub use frame::decode;
pub use laws::{
    canonical_is_frame, canonical_tells, equal_where_same, every_outcome, no_frame_goes_on,
    normal_makes, one_outcome,
};
pub use rule::Rule;
pub use writing::encode;
