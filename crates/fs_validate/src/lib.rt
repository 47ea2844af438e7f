//! The validation of flow specification routes against unicast routes (RFC 8955 section 6, RFC 9117 section 4).
#![tactic(auto)]

mod basis;
mod laws;
mod originator;
mod route;
mod swap;
mod validity;

pub use basis::{Basis, basis_of, judged};
pub use laws::agree;
pub use route::{FlowRoute, destination};
pub use swap::stays;
pub use validity::{Validity, valid, validity_of};
