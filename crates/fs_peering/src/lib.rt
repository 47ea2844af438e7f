//! The ends of a session over a wire: the loop that carries what an end hears and says, the end that announces rules, the
//! end that receives them, and both joined.
#![tactic(auto)]

mod buffers;
mod change;
mod fault;
mod hearer;
mod joined;
mod keeper;
mod laws;
mod link;
mod listen;
mod listening;
mod pair;
mod round;
mod speaker;
mod steps;
mod tell;
mod teller;

pub use buffers::Buffers;
pub use fault::TalkFault;
pub use hearer::Hearer;
pub use joined::{InFlight, Talk, exchange};
pub use keeper::{Keeper, News};
pub use laws::{
    closes_unnamed, expires_late, keeps_equal, never_expires, opens_the_session, sends_a_front,
    sends_all,
};
pub use listen::listen_over;
pub use listening::{Stopped, hear_out};
pub use pair::pair_over;
pub use round::say_all;
pub use speaker::Speaker;
pub use steps::{closes, is_established, is_settled, say, start, sum};
pub use tell::{Ending, announce_over};
pub use teller::Teller;
