//! The two ends of a session, and what each is given.

ghost use Rattle.std.specs.Prelude.{◌≡◌};
ghost use Rattle.fs_message.specs.Write.{AppendsWhole};
ghost use Rattle.fs_session.specs.{Line.{Refuses}, Side.{reply_to, lacks_of, machine_of, ClosesAs}, Transition.{terms_of}};
ghost use Rattle.fs_session.specs.declared.state.State.TheVariants.{WaitOpen};

use crate::state::{Closed, State};
use fs_attrs::Terms;
use fs_base::{Config, Memory, Peer};
use fs_message::{Open, write_keepalive, write_notice, write_open};

/// The families of flow specification routes that are to be sent.
#[derive(Clone, Copy, Debug, PartialEq, Eq, Drop)]
pub struct Needs {
    pub v4: bool,
    pub v6: bool,
}

/// What an end of a session does: it takes the peer's routes, or it announces rules of these families.
#[derive(Clone, Copy, Drop)]
pub enum Role {
    Receiver,
    Announcer(Needs),
}

/// One end of a session of a configuration: with a peer, or as that peer with us.
#[derive(Clone, Copy, Drop)]
pub struct Side<'a> {
    pub config: &'a Config,
    pub peer: Peer,
    pub role: Role,
}

impl Side<'_> {
    /// The AS that the other end is to have.
    pub fn expected(&self) -> u32
        ensures { result ≡ (machine_of self.now).expected }
    {
        match self.role {
            Role::Receiver => self.peer.asn,
            Role::Announcer(_) => self.config.local_as,
        }
    }

    /// The hold time that this end offers, in seconds.
    pub fn offer(&self) -> u16
        ensures { result ≡ (machine_of self.now).offer }
    {
        self.config.hold_time
    }

    /// Whether an OPEN lacks a family that this end needs.
    pub fn lacks(&self, found: &Open) -> bool
        ensures { result ≡ (machine_of self.now).lacks found.now }
    {
        match &self.role {
            Role::Receiver => false,
            Role::Announcer(needs) => is_lacking(needs, found),
        }
    }

    /// The terms on which UPDATEs between the two are read and written.
    pub fn terms(&self, four: bool) -> Terms
        ensures { result ≡ terms_of self.now.config.now self.now.peer four }
    {
        terms(self.config, &self.peer, four)
    }

    /// Answers a message that was taken in this state: an OPEN by a KEEPALIVE, which at the receiving end stands
    /// behind its own OPEN. After `Memory` `out` is as before.
    pub fn reply(&self, state: State, out: &mut Vec<u8>) -> Result<(), Memory>
        ensures { AppendsWhole result out.old.items out.new.items ((machine_of self.now).answer state) }
    {
        if state != State::WaitOpen {
            return Ok(());
        }
        match self.role {
            Role::Receiver => open_back(self.config, out),
            Role::Announcer(_) => write_keepalive(out),
        }
    }

    /// Closes: the receiving end answers a fault with a NOTIFICATION, the announcing end with nothing.
    pub fn close(&self, why: Closed, out: &mut Vec<u8>) -> Closed
        ensures { ClosesAs (machine_of self.now) why out.old.items out.new.items result }
    {
        match (self.role, why) {
            (Role::Receiver, Closed::Fault { code, subcode }) => refuse(code, subcode, out),
            (_, other) => other,
        }
    }
}

fn is_lacking(needs: &Needs, found: &Open) -> bool
    ensures { result ≡ lacks_of needs.now found.now }
{
    needs.v4 && !found.v4_flow || needs.v6 && !found.v6_flow
}

/// The terms on which a peer's UPDATEs are read and written.
pub(crate) fn terms(config: &Config, peer: &Peer, four: bool) -> Terms
    ensures { result ≡ terms_of config.now peer.now four }
{
    Terms {
        external: peer.asn != config.local_as,
        four,
        address: peer.address,
    }
}

/// Appends our OPEN and a KEEPALIVE.
fn open_back(config: &Config, out: &mut Vec<u8>) -> Result<(), Memory>
    ensures { AppendsWhole result out.old.items out.new.items (reply_to config.now WaitOpen) }
{
    let start = out.len();
    write_open(config.local_as, config.hold_time, config.local_id, out)?;
    if write_keepalive(out).is_err() {
        out.truncate(start);
        return Err(Memory);
    }
    Ok(())
}

/// Answers with a NOTIFICATION.
pub(crate) fn refuse(code: u8, subcode: u8, out: &mut Vec<u8>) -> Closed
    ensures { Refuses code subcode out.old.items out.new.items result }
{
    match write_notice(code, subcode, out) {
        Ok(()) => Closed::Fault { code, subcode },
        Err(Memory) => Closed::Memory,
    }
}
