//! What is said of a file that is checked.

/// What is said of a file, and the status: 0, or that of a fault.
#[derive(Drop)]
pub struct Said {
    pub status: u8,
    pub text: String,
}
