//! Reading inputs part by part: lists of records, a head that tells what follows and a payload; and chains of
//! fields, each judged as soon as it stands whole.
#![tactic(auto)]

mod fault;
mod fields;
mod head;
mod judging;
mod opening;
mod parts;
mod reading;
mod record;

pub use fault::{Ended, Fault};
pub use fields::{skip_octets, take_again, take_first, take_octets};
pub use head::{Found, Head, Heads, MOST_HEAD};
pub use judging::{Judged, settle};
pub use opening::opened;
pub use parts::{MOST_FIRST, Parts};
pub use reading::next_part;
pub use record::{answer, ended_by, next_record, short};
