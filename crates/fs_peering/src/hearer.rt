//! The receiving end: a desk of which one peer is up.

ghost use Rattle.std.specs.Prelude.{◌≡◌, [], false, IfOk, IsSome};
ghost use Rattle.fs_base.specs.Config.{peer_of};
ghost use Rattle.fs_peering.specs.{Hearer.{Receives, is_ended}, Listen.{is_settled}};

use crate::speaker::Speaker;
use crate::steps::{is_established, sum};
use fs_base::{Config, Memory};
use fs_desk::Desk;
use fs_speaker::Standing;
use std::alloc::Global;

/// The receiving end of the session with one peer of the configuration: the desk that holds its routes. At each piece
/// it first hears the clock.
#[derive(Drop)]
pub struct Hearer<'a> {
    desk: Desk<'a>,
    peer: u16,
    count: u64,
}

impl<'a> Hearer<'a> {
    ghost use Rattle.fs_desk.specs.Desk.{standing_at_desk};

    /// The peer is up and has sent nothing yet.
    ///
    /// # Errors
    ///
    /// `Memory` where the machine refused memory.
    pub fn new(alloc: Global, config: &'a Config, peer: u16) -> Result<Hearer<'a>, Memory>
        requires { IsSome (peer_of peer config.now.peers) }
        ensures fresh { IfOk result (λ made.
            (made.desk.config ≡ config.now) × ((made.peer ≡ peer) × ((made.count ≡ 0)
            × (Receives made.desk made.peer made.count [] [])))) }
        ensures open { IfOk result (λ made. is_ended (standing_at_desk made.desk made.peer) ≡ false) }
    {
        let mut desk = Desk::new(alloc, config)?;
        desk.up(peer)?;
        Ok(Hearer {
            desk,
            peer,
            count: 0,
        })
    }

    /// The desk, as the octets left it that came so far.
    pub fn desk(&self) -> &Desk<'a>
        ensures { result.now ≡ self.now.desk }
    {
        &self.desk
    }

    /// How it stands with the peer.
    pub fn standing(&self) -> Standing
        ensures { result ≡ standing_at_desk self.now.desk self.now.peer }
    {
        self.desk.state(self.peer)
    }
}

impl<'a> Speaker for Hearer<'a> {
    ghost use Rattle.std.specs.Prelude.{true};
    ghost use Rattle.fs_desk.specs.Desk.{standing_at_desk};
    ghost use Rattle.fs_peering.specs.Hearer.{bare};

    ghost stands = { λ h heard said. Receives h.desk h.peer h.count heard said };

    ghost over = { λ h. is_ended (standing_at_desk h.desk h.peer) };

    ghost shut = { λ h. is_ended (standing_at_desk h.desk h.peer) };

    ghost ready = { λ h. false };

    ghost count = { λ h. h.count };

    ghost ahead = { λ h. 0 };

    ghost begun = { λ h. true };

    ghost sent = { λ h. 0 };

    ghost own = { λ h. record { desk = bare h.desk; peer = h.peer; count = 0 } };

    fn hear(&mut self, moment: u64, piece: &[u8], out: &mut Vec<u8>) -> Result<(), Memory> {
        self.count = sum(self.count, piece.len())?;
        self.desk.tick(self.peer, moment, out)?;
        if self.is_over() {
            return Ok(());
        }
        self.desk.octets(self.peer, piece, out)
    }

    fn next(&mut self, _out: &mut Vec<u8>) -> Result<bool, Memory> {
        Ok(false)
    }

    fn is_over(&self) -> bool {
        is_ended(self.standing())
    }

    fn is_ready(&self) -> bool {
        false
    }

    fn count(&self) -> u64 {
        self.count
    }
}

/// Whether a session has closed.
fn is_ended(standing: Standing) -> bool
    ensures { result ≡ is_ended standing }
{
    match standing {
        Standing::Ended(_) => true,
        Standing::Live(_) | Standing::Down => false,
    }
}

/// Whether a session is established.
pub(crate) fn is_settled(standing: Standing) -> bool
    ensures { result ≡ is_settled standing }
{
    match standing {
        Standing::Live(state) => is_established(state),
        Standing::Ended(_) | Standing::Down => false,
    }
}
