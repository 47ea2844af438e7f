//! A packet's fields as numbers, lists of numbers as ranges, and a rule as ranges of the fields. A packet is tested on a
//! rule by a few comparisons of numbers.
#![tactic(auto)]

mod components;
mod facts;
mod fast;
mod field;
mod gaps;
mod groups;
mod limits;
mod pattern;
mod ranges;
mod singles;
mod spans;
mod tests;

pub use facts::Facts;
pub use fast::Fast;
pub use field::Field;
pub use limits::Limit;
pub use spans::Spans;
