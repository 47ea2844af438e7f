//! The first fault of a configuration file, and of a rules file.

ghost use Rattle.std.specs.Prelude.{◌≡◌};
ghost use Rattle.fs_conf.specs.RuleFault.{octet_reason_name};

use fs_base::Memory;
use fs_nlri::Reason;
use std::fmt;

/// Why what stands at a key of a configuration isn't accepted.
#[derive(Clone, Copy, Debug, PartialEq, Eq, Drop)]
pub enum KeyReason {
    /// The document, or the peer, has no such key.
    Unknown,
    /// The key is missing.
    Missing,
    /// The value is of another kind, as a string where a number has to stand.
    Kind,
    /// The value is of the kind, and is none that is taken.
    Value,
    /// An earlier peer has the same number.
    Repeated,
}

/// The first fault of a configuration file, in the order in which it is judged.
#[derive(Debug, Drop)]
pub enum ConfigFault {
    /// The octets are no document of TOML in UTF-8. The line, and the character in it, at which reading ended, both
    /// counted from 1.
    Text { line: usize, column: usize },
    /// What stands at a key isn't accepted. The key is told as a user writes it, behind the array's key and the item's
    /// place, counted from 1, where it is an item's: `local_as`, `peer 2 adress`.
    Key { place: String, reason: KeyReason },
    /// The machine refused memory.
    Memory,
}

/// The first fault of a rules file, in the order in which it is judged. Rules are counted from 1.
#[derive(Debug, Drop)]
pub enum RulesFault {
    /// The octets are no document of TOML in UTF-8, as of [`ConfigFault::Text`].
    Text {
        line: usize,
        column: usize,
    },
    /// What stands at a key isn't accepted, as of [`ConfigFault::Key`]. `Repeated`: the rule is an earlier one too;
    /// `Value` of a whole rule: its UPDATE doesn't fit a message.
    Key {
        place: String,
        reason: KeyReason,
    },
    /// The `text` of a rule is none: with this word, counted from 1, no text goes on (see [`fs_text::TextFault`]).
    Word {
        rule: usize,
        word: usize,
    },
    /// The `text` of a rule is one in all but that the rule's value has more octets than a frame can hold.
    TooLong {
        rule: usize,
    },
    /// The `nlri` of a rule has this fault at this place (see [`fs_nlri::NlriFault`]).
    Nlri {
        rule: usize,
        reason: Reason,
        place: usize,
    },
    /// The machine refused memory.
    Memory,
}

/// The octets are no document of TOML in UTF-8, where they stop to be one; or memory was refused.
#[derive(Clone, Copy, Drop)]
pub(crate) enum Unread {
    At { line: usize, column: usize },
    Memory,
}

impl From<Unread> for ConfigFault {
    ghost use Rattle.std.specs.Prelude.{◌≡◌};
    ghost use Rattle.fs_conf.specs.Fault.{unread_config};

    ghost from_gives = { λ e r. r ≡ unread_config e };

    fn from(error: Unread) -> ConfigFault {
        match error {
            Unread::At { line, column } => ConfigFault::Text { line, column },
            Unread::Memory => ConfigFault::Memory,
        }
    }
}

impl From<Unread> for RulesFault {
    ghost use Rattle.std.specs.Prelude.{◌≡◌};
    ghost use Rattle.fs_conf.specs.RuleFault.{unread_rules};

    ghost from_gives = { λ e r. r ≡ unread_rules e };

    fn from(error: Unread) -> RulesFault {
        match error {
            Unread::At { line, column } => RulesFault::Text { line, column },
            Unread::Memory => RulesFault::Memory,
        }
    }
}

impl From<Memory> for RulesFault {
    ghost use Rattle.std.specs.Prelude.{◌≡◌};
    ghost use Rattle.fs_conf.specs.declared.fault.RulesFault.TheVariants.{Memory as NoMemory};

    ghost from_gives = { λ e r. r ≡ NoMemory };

    fn from(_error: Memory) -> RulesFault {
        RulesFault::Memory
    }
}

impl From<Memory> for ConfigFault {
    ghost use Rattle.std.specs.Prelude.{◌≡◌};
    ghost use Rattle.fs_conf.specs.declared.fault.ConfigFault.TheVariants.{Memory as NoMemory};

    ghost from_gives = { λ e r. r ≡ NoMemory };

    fn from(_error: Memory) -> ConfigFault {
        ConfigFault::Memory
    }
}

impl fmt::Display for KeyReason {
    ghost use Rattle.std.specs.Prelude.{Some};
    ghost use Rattle.fs_conf.specs.Fault.{reason_name};

    ghost output = { λ reason. Some (reason_name reason) };

    fn fmt<W: fmt::Write>(&self, f: &mut fmt::Formatter<W>) -> fmt::Result {
        match self {
            KeyReason::Unknown => f.write_str("Unknown"),
            KeyReason::Missing => f.write_str("Missing"),
            KeyReason::Kind => f.write_str("Kind"),
            KeyReason::Value => f.write_str("Value"),
            KeyReason::Repeated => f.write_str("Repeated"),
        }
    }
}

impl fmt::Display for ConfigFault {
    ghost use Rattle.std.specs.Prelude.{Some};
    ghost use Rattle.fs_conf.specs.Fault.{fault_text};

    ghost output = { λ fault. Some (fault_text fault) };

    fn fmt<W: fmt::Write>(&self, f: &mut fmt::Formatter<W>) -> fmt::Result {
        match self {
            ConfigFault::Text { line, column } => write!(f, "line {line} column {column}"),
            ConfigFault::Key { place, reason } => write!(f, "{place} {reason}"),
            ConfigFault::Memory => f.write_str("out of memory"),
        }
    }
}

impl std::error::Error for ConfigFault {}

/// The printed name of a reason.
fn name_of(reason: Reason) -> &'static str
    ensures { result.now ≡ octet_reason_name reason }
{
    match reason {
        Reason::Cut => "Cut",
        Reason::NoType => "Type",
        Reason::Order => "Order",
        Reason::PrefixLength => "PrefixLength",
        Reason::Offset => "Offset",
        Reason::Width => "Width",
        Reason::Length => "Length",
    }
}

impl fmt::Display for RulesFault {
    ghost use Rattle.std.specs.Prelude.{Some};
    ghost use Rattle.fs_conf.specs.RuleFault.{rules_fault_text};

    ghost output = { λ fault. Some (rules_fault_text fault) };

    fn fmt<W: fmt::Write>(&self, f: &mut fmt::Formatter<W>) -> fmt::Result {
        match self {
            RulesFault::Text { line, column } => write!(f, "line {line} column {column}"),
            RulesFault::Key { place, reason } => write!(f, "{place} {reason}"),
            RulesFault::Word { rule, word } => write!(f, "rule {rule} text at word {word}"),
            RulesFault::TooLong { rule } => write!(f, "rule {rule} text too long"),
            RulesFault::Nlri {
                rule,
                reason,
                place,
            } => {
                let name = name_of(*reason);
                write!(f, "rule {rule} nlri {name} at {place}")
            }
            RulesFault::Memory => f.write_str("out of memory"),
        }
    }
}

impl std::error::Error for RulesFault {}
