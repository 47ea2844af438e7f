//! A connection of a session that is kept.

ghost use Rattle.std.specs.{Prelude.{◌≡◌, ◌≢◌, ◌++◌, ◌-◌, ◌==◌, ◌&&◌, Some, false, true, not, nat_lt, IfOk, IfSome, OnOk}, Option.{option_copied}};
ghost use Rattle.fs_speaker.specs.Announcer.{CanSend, announcing, has_started, is_established, machine_in, open_sent};
ghost use Rattle.fs_speaker.specs.{Line.{fresh, state_in}, Sending.{sender_of}, Side.{notice_text}};
ghost use Rattle.fs_peering.specs.Keeper.{exceeds, news_of, open_time, parting, received, woken};
ghost use Rattle.fs_peering.specs.Keeping.{KeepsOwn, LinkSays, LinkTells, MayBeSaid, terms_in};

use crate::change::append_change;
use crate::keeper::News;
use crate::steps::{is_established, start};
use crate::teller::{take, wake};
use fs_base::{Config, Memory};
use fs_message::write_notice;
use fs_speaker::{Announcer, Closed, Needs, Sending, Sent, SentList};
use std::alloc::Global;
use std::marker::Model;

/// A session that isn't established so many milliseconds after its connection was made closes (RFC 4271, section 8.2.2).
const OPEN_TIME: u64 = 240_000;

/// The codes of NOTIFICATIONs (RFC 4271, section 4.5; RFC 4486, section 4; RFC 5492, section 5).
const HOLD_TIMER_EXPIRED: u8 = 4;

const OPEN_ERROR: u8 = 2;

const UNSUPPORTED_CAPABILITY: u8 = 7;

const CEASE: u8 = 6;

const OTHER_CONFIGURATION: u8 = 6;

/// A connection: its line, whether it is made and since when, whether it was told the rules, and its end of the session.
#[derive(Drop)]
pub(crate) struct Link<'a> {
    pub line: u64,
    pub made: bool,
    pub since: u64,
    pub told: bool,
    pub announcer: Announcer<'a>,
}

impl<'a> Model for Link<'a> {
    ghost use Rattle.fs_peering.specs.Keeping.{Linked};

    ghost Value = { Linked };

    ghost view = { λ l. record { line = l.line; made = l.made; since = l.since; end = l.announcer; told = l.told } };
}

impl<'a> Link<'a> {
    /// One that is to be made, for these rules. Its line is still to be had.
    ///
    /// # Errors
    ///
    /// `Memory` where the machine refused memory.
    pub fn new(
        alloc: Global,
        config: &'a Config,
        rules: &Sending,
        time: u64,
    ) -> Result<Link<'a>, Memory>
        requires { CanSend config.now (sender_of config.now.peers) rules.now }
        ensures made { IfOk result (λ link. IfSome (sender_of config.now.peers) (λ peer. link ≡ record {
          line = 0;
          made = false;
          since = time;
          told = false;
          end = announcing config.now peer rules.now fresh false 0;
        })) }
    {
        Ok(Link {
            line: 0,
            made: false,
            since: time,
            told: false,
            announcer: Announcer::new(alloc, config, copied(alloc, rules)?)?,
        })
    }

    /// It is made at a time: appends its OPEN (RFC 4271, section 4.2).
    ///
    /// # Errors
    ///
    /// `Memory` where the machine refused memory.
    pub fn begin(&mut self, time: u64, out: &mut Vec<u8>) -> Result<(), Memory>
        ensures begins { OnOk result (self.old.end.started ≡ false
            → (self.new ≡ record self.old { made = true; since = time; end = has_started self.old.end })
            × (out.new.items ≡ out.old.items ++ open_sent self.old.end.config self.old.end.peer self.old.end.sending)) }
        ensures own { KeepsOwn self.old self.new }
    {
        start(&mut self.announcer, out)?;
        self.made = true;
        self.since = time;
        Ok(())
    }

    /// Whether it is this line's, and isn't made yet.
    pub fn is_due_at(&self, line: u64) -> bool
        ensures { result ≡ ((self.now.line == line) && not self.now.made) }
    {
        self.line == line && !self.made
    }

    /// Whether it is this line's, and is made.
    pub fn is_made_at(&self, line: u64) -> bool
        ensures { result ≡ ((self.now.line == line) && self.now.made) }
    {
        self.line == line && self.made
    }

    /// Whether its session is established.
    pub fn is_up(&self) -> bool
        ensures { result ≡ is_established (state_in self.now.end.line) }
    {
        is_established(self.announcer.state())
    }

    /// Whether its session is established, and wasn't.
    pub fn came_up(&self, was_up: bool) -> bool
        ensures { result ≡ (is_established (state_in self.now.end.line) && not was_up) }
    {
        self.is_up() && !was_up
    }

    /// The clock, in milliseconds: appends what it says, and answers how the session closes then, if it does.
    ///
    /// # Errors
    ///
    /// `Memory` where the machine refused memory.
    pub fn wake(&mut self, time: u64, out: &mut Vec<u8>) -> Result<Option<News>, Memory>
        ensures says { IfOk result (λ news. LinkSays (woken time self.old.since) news self.old self.new out.old.items out.new.items) }
        ensures own { KeepsOwn self.old self.new }
    {
        wake(&mut self.announcer, time, out)?;
        if let Some(why) = self.announcer.closed() {
            return Ok(news_of(why));
        }
        if is_late(&self.announcer, self.since, time) {
            return part(HOLD_TIMER_EXPIRED, 0, out);
        }
        Ok(None)
    }

    /// Takes octets message by message: appends what answers them, and where they close the session its NOTIFICATION;
    /// answers how it closes then.
    ///
    /// # Errors
    ///
    /// `Memory` where the machine refused memory.
    pub fn take(
        &mut self,
        time: u64,
        piece: &[u8],
        out: &mut Vec<u8>,
    ) -> Result<Option<News>, Memory>
        ensures says { IfOk result (λ news. LinkSays (received (machine_in self.old.end) time piece.now) news
            self.old self.new out.old.items out.new.items) }
        ensures own { KeepsOwn self.old self.new }
    {
        take(&mut self.announcer, true, time, piece, out)?;
        if let Some(why) = self.announcer.closed() {
            return parting(why, out);
        }
        Ok(None)
    }

    /// Tells it the rules, beyond the old ones: appends their UPDATEs. Where they need a family that wasn't asked for, it
    /// appends the NOTIFICATION that closes the session instead, and answers true (RFC 4486, section 4).
    ///
    /// # Errors
    ///
    /// `Memory` where the machine refused memory.
    pub fn tell(
        &mut self,
        old: Option<&Sending>,
        rules: &Sending,
        out: &mut Vec<u8>,
    ) -> Result<(News, bool), Memory>
        requires old { IfSome (option_copied old) (MayBeSaid (terms_in self.old.end)) }
        requires new { MayBeSaid (terms_in self.old.end) rules.now }
        ensures tells { IfOk result (λ done. LinkTells (option_copied old.entry) rules.now done
            self.old self.new out.old.items out.new.items) }
        ensures own { KeepsOwn self.old self.new }
    {
        if exceeds(self.announcer.needs(), rules.needs()) {
            write_notice(CEASE, OTHER_CONFIGURATION, out)?;
            let news = News::Closed {
                code: CEASE,
                subcode: OTHER_CONFIGURATION,
            };
            return Ok((news, true));
        }
        let news = append_change(&self.announcer.terms(), old, rules, out)?;
        self.told = true;
        Ok((news, false))
    }
}

/// Whether the session of a connection that was made then should have been established by now.
fn is_late(announcer: &Announcer<'_>, since: u64, time: u64) -> bool
    ensures { result ≡ (not (is_established (state_in announcer.now.line)) && not (nat_lt (time - since) open_time)) }
{
    !is_established(announcer.state()) && time.saturating_sub(since) >= OPEN_TIME
}

/// Whether a family is needed that wasn't asked for.
fn exceeds(asked: Needs, needs: Needs) -> bool
    ensures { result ≡ exceeds asked needs }
{
    needs.v4 && !asked.v4 || needs.v6 && !asked.v6
}

/// Appends a NOTIFICATION, and answers what there is to tell of it.
fn part(code: u8, subcode: u8, out: &mut Vec<u8>) -> Result<Option<News>, Memory>
    ensures { IfOk result (λ news. (news ≡ Some (News.Closed code subcode)) × (out.new.items ≡ out.old.items ++ notice_text code subcode)) }
{
    write_notice(code, subcode, out)?;
    Ok(Some(News::Closed { code, subcode }))
}

/// Appends the NOTIFICATION of a closing by octets, and answers what there is to tell of it.
fn parting(why: Closed, out: &mut Vec<u8>) -> Result<Option<News>, Memory>
    ensures says { IfOk result (λ news. (news ≡ news_of why) × (out.new.items ≡ out.old.items ++ parting why)) }
    ensures other { OnOk result (why ≢ Closed.Memory) }
{
    match why {
        Closed::Fault { code, subcode } if code != HOLD_TIMER_EXPIRED => part(code, subcode, out),
        Closed::NoFamily => part(OPEN_ERROR, UNSUPPORTED_CAPABILITY, out),
        Closed::Memory => Err(Memory),
        Closed::Fault { .. } | Closed::Notified { .. } => Ok(news_of(why)),
    }
}

/// What there is to tell of a closing.
fn news_of(why: Closed) -> Option<News>
    ensures { result ≡ news_of why }
{
    match why {
        Closed::Fault { code, subcode } => Some(News::Closed { code, subcode }),
        Closed::Notified { code, subcode } => Some(News::Notified { code, subcode }),
        Closed::NoFamily => Some(News::Closed {
            code: OPEN_ERROR,
            subcode: UNSUPPORTED_CAPABILITY,
        }),
        Closed::Memory => None,
    }
}

/// A copy of what is to be sent.
fn copied(alloc: Global, sending: &Sending) -> Result<Sending, Memory>
    ensures { IfOk result (λ copy. copy ≡ sending.now) }
{
    Ok(Sending {
        id: sending.id,
        as_path: sending.as_path.copy()?,
        rules: SentList::new(copy_all(alloc, sending.rules.as_slice())?),
    })
}

/// Copies of rules, in their order.
fn copy_all(alloc: Global, rules: &[Sent]) -> Result<Vec<Sent>, Memory>
    ensures { IfOk result (λ copies. copies.items ≡ rules.now) }
{
    let mut copies = Vec::with_capacity(alloc, rules.len())?;
    for sent in rules {
        copies.push(copy_of(sent)?)?;
    }
    Ok(copies)
}

/// A copy of a rule with its actions.
fn copy_of(sent: &Sent) -> Result<Sent, Memory>
    ensures { IfOk result (λ copy. copy ≡ sent.now) }
{
    Ok(Sent {
        rule: sent.rule.copy()?,
        actions: sent.actions.copy()?,
    })
}
