//! A session that is kept to an address through a gate: where it ends it is dialled again, and it is told what the rules are.

ghost use Rattle.std.specs.{Prelude.{◌≡◌, ◌∷◌, ℕ, [], None, true, not, IfOk, IfSome, OnErr, OnOk}, Option.{option_copied}};
ghost use Rattle.fs_base.specs.{Gate.{FitsIn, shut, what_from}, Sink.{Grew}};
ghost use Rattle.fs_speaker.specs.{Announcer.{CanSend}, Sending.{sender_of}};
ghost use Rattle.fs_peering.specs.Keeper.{accepts, at_line, begins, checks, dials, ends, follows, hears, receives, speaks, tells_all};
ghost use Rattle.fs_peering.specs.Keeping.{BreaksSo, TellsSo, TookQuietly, TookSo, is_told, is_untold, let_go};

use crate::link::Link;
use fs_base::{Came, Config, Event, Gate, Memory};
use fs_speaker::Sending;
use std::alloc::Global;
use std::marker::Model;
use std::mem::replace;

/// The longest time between two connections, in milliseconds.
const MOST_WAIT: u64 = 60_000;

/// The time behind the first end, in milliseconds.
const FIRST_WAIT: u64 = 1000;

/// What there is to tell of a session that is kept.
#[derive(Clone, Copy, Debug, PartialEq, Eq, Drop)]
pub enum News {
    /// It is established.
    Up,
    /// The other end was told the rules: so many were announced, and so many withdrawn.
    Told { announced: usize, withdrawn: usize },
    /// It was closed with this NOTIFICATION (RFC 4271, section 4.5).
    Closed { code: u8, subcode: u8 },
    /// The other end closed it with this one.
    Notified { code: u8, subcode: u8 },
    /// Its connection has ended.
    Ended,
    /// A connection could not be made.
    Unreached,
}

/// Keeps a session to an address, as the peer with the lowest number: it dials, says its OPEN, keeps the session alive, and
/// says what the rules are and how they change. Where the session ends it waits, from one second up to a minute, and dials
/// again.
#[derive(Drop)]
pub struct Keeper<'a> {
    config: &'a Config,
    rules: Option<Sending>,
    since: u64,
    wait: u64,
    delay: u64,
    link: Option<Link<'a>>,
    out: Vec<u8>,
}

impl<'a> Model for Keeper<'a> {
    ghost use Rattle.fs_peering.specs.Keeping.{Fits, Keeping};

    ghost Value = { Keeping };

    ghost view = { λ k. record { config = k.config.now; rules = k.rules; since = k.since; wait = k.wait; delay = k.delay; link = k.link } };

    ghost invariant = { λ k. Fits k.config.now k.rules k.link };
}

impl<'a> Keeper<'a> {
    ghost use Rattle.fs_peering.specs.{Keeper.{at_first}, Keeping.{Stands}};

    /// Keeps no rules yet, and dials nothing.
    pub fn new(alloc: Global, config: &'a Config) -> Keeper<'a>
        ensures stands { Stands at_first result }
        ensures config { result.config ≡ config.now }
    {
        Keeper {
            config,
            rules: None,
            since: 0,
            wait: 0,
            delay: FIRST_WAIT,
            link: None,
            out: Vec::new(alloc),
        }
    }

    /// The configuration.
    pub fn config(&self) -> &'a Config
        ensures { result.now ≡ self.now.config }
    {
        self.config
    }

    /// Hears an event of the gate, whose octets stand at the front of `into`; answers what there is to tell of it.
    ///
    /// # Errors
    ///
    /// `Memory` where the machine refused memory; a front of what is due was asked of the gate then, here and below.
    pub fn hear<G: Gate>(
        &mut self,
        event: &Event,
        into: &[u8],
        gate: &mut G,
    ) -> Result<Option<News>, Memory>
        requires { FitsIn event.now.came into.now }
        ensures still { G.faults gate.new ≡ G.faults gate.old }
        ensures took { IfOk result (λ news. TookSo (hears self.old.config event.now.time (what_from event.now.came into.now)) news
            self.old self.new (G.turns gate.old) (G.turns gate.new)) }
        ensures breaks { OnErr result (BreaksSo (hears self.old.config event.now.time (what_from event.now.came into.now))
            self.old (G.turns gate.old) (G.turns gate.new)) }
    {
        let closed = self.check(event.time, gate)?;
        if closed.is_some() {
            return Ok(closed);
        }
        self.follow(event, into, gate)
    }

    /// Dials the address where no connection is there, there are rules, and it is time.
    ///
    /// # Errors
    ///
    /// `Memory` where the machine refused memory; nothing was dialled then.
    #[tactic(auto, using(crate::proofs::Following::asked_none))]
    pub fn dial<G: Gate>(&mut self, time: u64, address: &str, gate: &mut G) -> Result<(), Memory>
        ensures still { G.faults gate.new ≡ G.faults gate.old }
        ensures took { OnOk result ((line : ℕ) × TookSo (dials self.old.config line time address.now) None
            self.old self.new (G.turns gate.old) (G.turns gate.new)) }
        ensures breaks { OnErr result (Grew (G.turns gate.old) (G.turns gate.new) []) }
    {
        if self.link.is_some() || time.saturating_sub(self.since) < self.wait {
            return Ok(());
        }
        let Some(rules) = &self.rules else {
            return Ok(());
        };
        let mut link = Link::new(*self.out.allocator(), self.config, rules, time)?;
        link.line = gate.dial(address);
        self.link = Some(link);
        Ok(())
    }

    /// Keeps these rules from now on, which may be sent for the peer with the lowest number. A session that was told the
    /// earlier ones is told what changed; answers what there is to tell of that.
    ///
    /// # Errors
    ///
    /// `Memory` where the machine refused memory.
    pub fn accept<G: Gate>(
        &mut self,
        time: u64,
        rules: Sending,
        gate: &mut G,
    ) -> Result<Option<News>, Memory>
        requires { CanSend self.old.config (sender_of self.old.config.peers) rules }
        ensures still { G.faults gate.new ≡ G.faults gate.old }
        ensures took { IfOk result (λ news. TookSo (accepts self.old.config time rules) news
            self.old self.new (G.turns gate.old) (G.turns gate.new)) }
        ensures breaks { OnErr result (BreaksSo (accepts self.old.config time rules) self.old (G.turns gate.old) (G.turns gate.new)) }
    {
        let old = replace(&mut self.rules, Some(rules));
        if !self.is_told() {
            return Ok(None);
        }
        self.tell(time, old.as_ref(), gate)
    }

    /// Tells a session that came up, and was told nothing yet, all rules.
    ///
    /// # Errors
    ///
    /// `Memory` where the machine refused memory.
    pub fn tell_all<G: Gate>(&mut self, time: u64, gate: &mut G) -> Result<Option<News>, Memory>
        ensures still { G.faults gate.new ≡ G.faults gate.old }
        ensures took { IfOk result (λ news. TookSo (tells_all self.old.config time) news
            self.old self.new (G.turns gate.old) (G.turns gate.new)) }
        ensures breaks { OnErr result (BreaksSo (tells_all self.old.config time) self.old (G.turns gate.old) (G.turns gate.new)) }
    {
        if !self.is_untold() {
            return Ok(None);
        }
        self.tell(time, None, gate)
    }

    /// What an event calls for itself.
    fn follow<G: Gate>(
        &mut self,
        event: &Event,
        into: &[u8],
        gate: &mut G,
    ) -> Result<Option<News>, Memory>
        requires { FitsIn event.now.came into.now }
        ensures still { G.faults gate.new ≡ G.faults gate.old }
        ensures took { IfOk result (λ news. TookSo (follows self.old.config event.now.time (what_from event.now.came into.now)) news
            self.old self.new (G.turns gate.old) (G.turns gate.new)) }
        ensures breaks { OnErr result (Grew (G.turns gate.old) (G.turns gate.new) []) }
    {
        match event.came {
            Came::Made { line } => self.begin(line, event.time, gate),
            Came::Octets { line, count } => self.receive(line, event.time, &into[..count], gate),
            Came::Ended { line } => Ok(self.end(line, event.time)),
            Came::Taken { .. } | Came::Nothing => Ok(None),
        }
    }

    /// Whether a connection was told the rules.
    fn is_told(&self) -> bool
        ensures { result ≡ is_told self.now.link }
    {
        match &self.link {
            Some(link) => link.told,
            None => false,
        }
    }

    /// Whether a connection is up, and was told nothing yet.
    fn is_untold(&self) -> bool
        ensures { result ≡ is_untold self.now.link }
    {
        match &self.link {
            Some(link) => !link.told && link.is_up(),
            None => false,
        }
    }

    /// Tells the connection the rules, beyond the old ones.
    #[tactic(auto, using(crate::proofs::Following::fits_on, crate::proofs::Following::asked_none))]
    fn tell<G: Gate>(
        &mut self,
        time: u64,
        old: Option<&Sending>,
        gate: &mut G,
    ) -> Result<Option<News>, Memory>
        requires { IfSome (option_copied old) (CanSend self.old.config (sender_of self.old.config.peers)) }
        ensures still { G.faults gate.new ≡ G.faults gate.old }
        ensures tells { IfOk result (λ news. TellsSo time (option_copied old.entry) news
            self.old self.new (G.turns gate.old) (G.turns gate.new)) }
        ensures breaks { OnErr result (Grew (G.turns gate.old) (G.turns gate.new) []) }
    {
        let Some(link) = &mut self.link else {
            return Ok(None);
        };
        let Some(rules) = &self.rules else {
            return Ok(None);
        };
        self.out.clear();
        let line = link.line;
        let (news, closes) = link.tell(old, rules, &mut self.out)?;
        say(line, &self.out, gate);
        if closes {
            self.shut(line, time, gate);
        }
        Ok(Some(news))
    }

    /// The clock, where a connection is made.
    #[tactic(auto, using(crate::proofs::Following::fits_on, crate::proofs::Following::asked_none))]
    fn check<G: Gate>(&mut self, time: u64, gate: &mut G) -> Result<Option<News>, Memory>
        ensures still { G.faults gate.new ≡ G.faults gate.old }
        ensures took { IfOk result (λ news. TookSo (checks time) news
            self.old self.new (G.turns gate.old) (G.turns gate.new)) }
        ensures breaks { OnErr result (Grew (G.turns gate.old) (G.turns gate.new) []) }
    {
        let Some(link) = &mut self.link else {
            return Ok(None);
        };
        if !link.made {
            return Ok(None);
        }
        self.out.clear();
        let line = link.line;
        let closed = link.wake(time, &mut self.out)?;
        say(line, &self.out, gate);
        if closed.is_some() {
            self.shut(line, time, gate);
        }
        Ok(closed)
    }

    /// Says the OPEN through a connection that is made.
    #[tactic(auto, using(crate::proofs::Following::fits_on, crate::proofs::Following::asked_none))]
    fn begin<G: Gate>(&mut self, line: u64, time: u64, gate: &mut G) -> Result<Option<News>, Memory>
        ensures still { G.faults gate.new ≡ G.faults gate.old }
        ensures took { IfOk result (λ news. TookSo (at_line line (λ connection. not connection.made) (begins self.old.config time)) news
            self.old self.new (G.turns gate.old) (G.turns gate.new)) }
        ensures breaks { OnErr result (Grew (G.turns gate.old) (G.turns gate.new) []) }
    {
        let Some(link) = &mut self.link else {
            return Ok(None);
        };
        if !link.is_due_at(line) {
            return Ok(None);
        }
        self.out.clear();
        link.begin(time, &mut self.out)?;
        say(line, &self.out, gate);
        Ok(None)
    }

    /// Octets of the connection.
    #[tactic(auto, using(crate::proofs::Following::fits_on, crate::proofs::Following::asked_none))]
    fn receive<G: Gate>(
        &mut self,
        line: u64,
        time: u64,
        piece: &[u8],
        gate: &mut G,
    ) -> Result<Option<News>, Memory>
        ensures still { G.faults gate.new ≡ G.faults gate.old }
        ensures took { IfOk result (λ news. TookSo
            (at_line line (λ connection. connection.made) (receives self.old.config time piece.now)) news
            self.old self.new (G.turns gate.old) (G.turns gate.new)) }
        ensures breaks { OnErr result (Grew (G.turns gate.old) (G.turns gate.new) []) }
    {
        let Some(link) = &mut self.link else {
            return Ok(None);
        };
        if !link.is_made_at(line) {
            return Ok(None);
        }
        let was_up = link.is_up();
        self.out.clear();
        let closed = link.take(time, piece, &mut self.out)?;
        say(line, &self.out, gate);
        if closed.is_some() {
            self.shut(line, time, gate);
            return Ok(closed);
        }
        if !link.came_up(was_up) {
            return Ok(None);
        }
        self.delay = FIRST_WAIT;
        Ok(Some(News::Up))
    }

    /// The end of a connection.
    fn end(&mut self, line: u64, time: u64) -> Option<News>
        ensures { TookQuietly (at_line line (λ connection. true) (ends time)) result self.old self.new }
    {
        let Some(link) = &self.link else {
            return None;
        };
        if link.line != line {
            return None;
        }
        let news = if link.made {
            News::Ended
        } else {
            News::Unreached
        };
        self.let_go(time);
        Some(news)
    }

    /// Closes the connection, and lets it go.
    fn shut<G: Gate>(&mut self, line: u64, time: u64, gate: &mut G)
        ensures still { G.faults gate.new ≡ G.faults gate.old }
        ensures shut { Grew (G.turns gate.old) (G.turns gate.new) (shut line ∷ []) }
        ensures gone { self.new ≡ let_go time self.old }
    {
        gate.close(line);
        self.let_go(time);
    }

    /// Lets the connection go, and waits.
    fn let_go(&mut self, time: u64)
        ensures { self.new ≡ let_go time self.old }
    {
        self.link = None;
        self.since = time;
        self.wait = self.delay;
        self.delay = self.delay.saturating_mul(2).min(MOST_WAIT);
    }
}

/// Sends octets, if there are some.
fn say<G: Gate>(line: u64, octets: &[u8], gate: &mut G)
    ensures still { G.faults gate.new ≡ G.faults gate.old }
    ensures said { Grew (G.turns gate.old) (G.turns gate.new) (speaks line octets.now) }
{
    if !octets.is_empty() {
        gate.send(line, octets);
    }
}
