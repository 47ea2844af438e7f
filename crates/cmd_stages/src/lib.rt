//! The stages that commands are made of: files opened, the configuration and the rules file read, a tape played into a
//! desk, a text written; and why a run ends before its job is done.
#![tactic(auto)]

mod items;
mod load;
mod play;
mod player;
mod refusal;
mod said;
pub mod status;
mod writing;

pub use items::ItemPlayer;
pub use load::{
    CAPTURE_SLOT, CONFIG_SLOT, RULES_SLOT, TAPE_SLOT, load_config, load_file, load_rules, open,
};
pub use play::{next_item, open_tape, play_whole};
pub use player::Player;
pub use refusal::Refusal;
pub use said::Said;
pub use writing::{write_made, write_text};
