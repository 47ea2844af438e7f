//! Prefixes, routes' paths, the configuration, link types, and all of `fs_outside`, by which the program meets the outside.
#![tactic(auto)]

mod back;
mod bits;
pub mod config;
mod counted;
mod filling;
mod items;
mod laws;
mod link;
mod path;
mod prefix;
mod steps;
mod whole;
mod writes;

pub use back::Back;
pub use config::{Address, Config, Peer, Peers};
pub use counted::{Counted, Stop};
pub use filling::fill;
pub use fs_outside::{
    CalmFiles, CalmGate, CalmSink, CalmWire, Came, Clock, Cue, Event, Failed, Files, Found, Gate,
    Held, MemClock, MemFiles, MemGate, MemSink, MemWire, Memory, Opening, Reading, RealClock,
    RealFiles, RealGate, RealOut, RealWire, Sink, StillClock, Wire,
};
pub use items::Items;
pub use laws::precedence;
pub use link::Link;
pub use path::{
    AS_CONFED_SEQUENCE, AS_CONFED_SET, AS_SEQUENCE, AS_SET, Numbers, Path, Segment, Segments,
};
pub use prefix::{Family, Prefix};
pub use steps::Steps;
pub use whole::{ReadStop, Whole, read_whole};
pub use writes::write_all;
