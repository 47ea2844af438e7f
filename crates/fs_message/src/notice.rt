//! NOTIFICATION (RFC 4271, section 4.5).

ghost use Rattle.std.specs.Prelude.{◌≡◌, ◌≤◌, length};
ghost use Rattle.fs_message.specs.Notice.{notice_of};

/// The codes of a NOTIFICATION.
#[derive(Clone, Copy, Debug, PartialEq, Eq, Drop)]
pub struct Notice {
    pub code: u8,
    pub subcode: u8,
}

impl Notice {
    /// Reads a NOTIFICATION's body. Its data, if any, is not read.
    pub fn read(body: &[u8]) -> Notice
        requires { 2 ≤ length body.now }
        ensures { result ≡ notice_of body.now }
    {
        Notice {
            code: body[0],
            subcode: body[1],
        }
    }
}
