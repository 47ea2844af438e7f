//! Lists of operators and values in the components of a flow specification (RFC 8955 section 4.2.1):
//! reading with exact faults, writing, and evaluation.
#![tactic(auto)]

mod bitmask;
mod evaluation;
mod fault;
mod kind;
mod laws;
mod list;
mod making;
mod numeric;
mod operator;
mod pairs;
mod reading;
mod writing;

pub use bitmask::MaskList;
pub use fault::OpsFault;
pub use kind::{Kind, MaskKind, NumKind, OfKind};
pub use laws::equal_where_same;
pub use list::OperatorList;
pub use numeric::NumList;
pub use operator::{width_code_of, width_of};
