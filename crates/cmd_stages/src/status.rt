//! The statuses with which the process ends.

/// The job is done.
pub const DONE: u8 = 0;

/// A call on the outside failed, or a file that the words name isn't there.
pub const OUTSIDE: u8 = 1;

/// The words ask for no command.
pub const NO_COMMAND: u8 = 2;

/// The configuration or the rules file isn't accepted.
pub const FILES: u8 = 3;

/// The tape has a fault.
pub const TAPE: u8 = 4;

/// The capture has a fault.
pub const CAPTURE: u8 = 5;

/// The machine refused memory.
pub const MEMORY: u8 = 6;

/// An input, or what an end of a wire gave, has at least as many octets as the limit allows.
pub const LIMIT: u8 = 7;

/// The session of a command that speaks over a wire closed, or ended before it was established.
pub const SESSION: u8 = 8;

/// What `check` is to say of isn't accepted: NLRI, a text, or a file.
pub const NLRI: u8 = 9;

/// The dump has a fault.
pub const DUMP: u8 = 10;
