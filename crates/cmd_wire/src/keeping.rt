//! The command `keep`.

ghost use Rattle.std.specs.{Prelude.{◌≡◌, ◌≤◌, ◌<◌, ◌⊎◌, IfOk, IsTrue, OnErr, OnOk, Some, ◌||◌, [], ℕ, true, false, length}, Result.{IsErrOf}};
ghost use Rattle.fs_base.specs.{Gate.{FitsIn, content_from, what_from}, Happened.{happened}, Outside.{Rose}, Sink.{Grew}};
ghost use Rattle.fs_peering.specs.Keeper.{accepts, dials, hears, tells_all};
ghost use Rattle.fs_speaker.specs.{Announcer.{CanSend}, Sending.{sender_of}};
ghost use Rattle.cmd_stages.specs.{Load.{OpensFront, config_alone, config_stage}, Refusal.{Stopped, answered}, declared.refusal.Refusal.{Refusal as Cause}};
ghost use Rattle.cmd_wire.specs.Judged.{MayBeKept, judged_as};
ghost use Rattle.cmd_wire.specs.Keeping.{Begins, BreaksHearing, BreaksLooking, BreaksOne, BreaksReading, BreaksSo, BreaksFollowing, BreaksShelving};
ghost use Rattle.cmd_wire.specs.Keeping.{ContinuesSo, DialsSo, EndsKeeping, Fills, FollowsSo, HearsOne, HearsSo, IsMissing, IsOfKeeping, IsUnbegun};
ghost use Rattle.cmd_wire.specs.Keeping.{IsUpSo, KeepsAll, KeepsSo, Looks, Reads, Shelves, StandsAt, TookSo, at_first, count_of, is_missing, is_over};
ghost use Rattle.cmd_wire.specs.Keeping.{is_up, judges, keeps, order_by, passed_by, tells_if};
ghost use Rattle.cmd_wire.specs.{Recording.{at_gate}, Shelf.{is_due}};

use crate::judged::{Judged, judge};
use crate::news::{write_kept, write_news};
use crate::recording::refusal_by;
use crate::shelf::{Holding, Shelf};
use cmd_stages::{Refusal, load_config};
use fs_base::{Came, Config, Event, Files, Found, Gate, Reading, Sink};
use fs_peering::{Keeper, News};
use fs_recorder::Stop;
use fs_speaker::Sending;
use std::alloc::Global;
use std::marker::Model;

/// Octets come in pieces of at most so many.
const PIECE: usize = 65536;

/// What is to be kept where: the names of the configuration and the rules file, the address of the other end, and the most
/// octets, plus one, that a file or the other end may give.
#[derive(Clone, Copy, Drop)]
pub struct Upkeep<'w> {
    pub config: &'w str,
    pub rules: &'w str,
    pub address: &'w str,
    pub limit: u64,
}

/// Keeps a session to the address as the configuration's peer with the lowest number, tells it the rules of the file, and
/// how they change, and writes a line at each event of that. It ends only with an error.
///
/// # Errors
///
/// The first of these, in this order of work: the configuration's; `Outside` where the rules file isn't there or can't be
/// read at first; and then `Outside` where the gate or the sink failed, `Memory` where the machine refused memory, `Limit`
/// where the other end gave as many octets as the limit, or behind 2^64 - 1 events.
#[tactic(auto, using(crate::proofs::FromStages::config_opened))]
pub fn keep_rules<F: Files, S: Sink, G: Gate>(
    alloc: Global,
    files: &mut F,
    sink: &mut S,
    gate: &mut G,
    order: &Upkeep<'_>,
) -> Result<(), Refusal>
    ensures possible { IsOfKeeping (answered result) }
    ensures unused { answered result ≡ 3 → (sink.new ≡ sink.old) × (gate.new ≡ gate.old) }
    ensures stopped { IsTrue F.tells
        → (refusal : Cause) → config_stage order.now.limit (F.holds files.old) order.now.config.now ≡ Stopped refusal
        → (sink.new ≡ sink.old) × (gate.new ≡ gate.old) }
    ensures opens { OpensFront (config_alone order.now.config.now)
        (F.opened files.old) (F.opened files.new) (answered result) }
    ensures ends { IsTrue F.tells
        → EndsKeeping order.now.limit (F.holds files.old) order.now.config.now order.now.rules.now order.now.address.now
        (happened F.Files S.Sink files.old files.new sink.old sink.new) (at_gate G.Gate gate.old gate.new)
        (answered result) }
    ensures keeps { IsTrue F.tells
        → KeepsSo order.now.limit (F.holds files.old) order.now.config.now order.now.rules.now order.now.address.now
        (happened F.Files S.Sink files.old files.new sink.old sink.new) (at_gate G.Gate gate.old gate.new) }
{
    let config = load_config(alloc, files, order.config, order.limit)?;
    match follow(alloc, &config, order, gate, sink) {
        Ok(()) => Ok(()),
        Err(stop) => Err(refusal_by(stop)),
    }
}

/// Reads the rules file, and then hears what comes at the gate.
fn follow<G: Gate, S: Sink>(
    alloc: Global,
    config: &Config,
    order: &Upkeep<'_>,
    gate: &mut G,
    sink: &mut S,
) -> Result<(), Stop>
    ensures unending { IfOk result (λ _. ⊥) }
    ensures later { (G.faults gate.old ≤ G.faults gate.new) × (S.faults sink.old ≤ S.faults sink.new) }
    ensures failed { IsErrOf result Stop.Failed
        → (Rose (S.faults sink.old) (S.faults sink.new) ⊎ Rose (G.faults gate.old) (G.faults gate.new))
        ⊎ IsMissing order.now.rules.now (G.turns gate.old) (G.turns gate.new) }
    ensures keeps { KeepsAll (order_by order.now.rules.now order.now.address.now order.now.limit config.now)
        (G.turns gate.old) (G.turns gate.new) (S.written sink.old) (S.written sink.new) }
    ensures full { IsErrOf result Stop.Limit
        → Fills (order_by order.now.rules.now order.now.address.now order.now.limit config.now)
        (G.turns gate.old) (G.turns gate.new) }
{
    let mut buffer = vec![in alloc; 0u8; PIECE]?;
    let mut station = Station::new(alloc, config, order);
    station.read_first(gate, sink)?;
    hear_all(&mut station, &mut buffer, gate, sink)
}

/// Hears event by event.
fn hear_all<G: Gate, S: Sink>(
    station: &mut Station<'_>,
    buffer: &mut [u8],
    gate: &mut G,
    sink: &mut S,
) -> Result<(), Stop>
    requires { 0 < length buffer.old }
    ensures unending { IfOk result (λ _. ⊥) }
    ensures later { (G.faults gate.old ≤ G.faults gate.new) × (S.faults sink.old ≤ S.faults sink.new) }
    ensures failed { IsErrOf result Stop.Failed
        → Rose (S.faults sink.old) (S.faults sink.new) ⊎ Rose (G.faults gate.old) (G.faults gate.new) }
    ensures continues { ContinuesSo (IsErrOf result Stop.Limit) station.old
        (G.turns gate.old) (G.turns gate.new) (S.written sink.old) (S.written sink.new) }
{
    for _ in 0..u64::MAX {
        hear_next(station, buffer, gate, sink)?;
    }
    Err(Stop::Limit)
}

/// Hears the next event.
fn hear_next<G: Gate, S: Sink>(
    station: &mut Station<'_>,
    buffer: &mut [u8],
    gate: &mut G,
    sink: &mut S,
) -> Result<(), Stop>
    requires { 0 < length buffer.old }
    ensures size { length buffer.new ≡ length buffer.old }
    ensures later { (G.faults gate.old ≤ G.faults gate.new) × (S.faults sink.old ≤ S.faults sink.new) }
    ensures failed { IsErrOf result Stop.Failed
        → Rose (S.faults sink.old) (S.faults sink.new) ⊎ Rose (G.faults gate.old) (G.faults gate.new) }
    ensures hears { OnOk result (HearsOne station.old station.new
        (G.turns gate.old) (G.turns gate.new) (S.written sink.old) (S.written sink.new)) }
    ensures breaks { OnErr result (BreaksOne (IsErrOf result Stop.Limit) station.old
        (G.turns gate.old) (G.turns gate.new) (S.written sink.old) (S.written sink.new)) }
{
    let event = gate.next(buffer)?;
    station.hear(&event, buffer, gate, sink)
}

/// Where keeping stands: the keeper, the file, the greatest moment so far, and how many octets the other end gave.
#[derive(Drop)]
struct Station<'a> {
    alloc: Global,
    order: &'a Upkeep<'a>,
    keeper: Keeper<'a>,
    shelf: Shelf,
    moment: u64,
    heard: u64,
}

impl<'a> Model for Station<'a> {
    ghost use Rattle.cmd_wire.specs.Keeping.{Stationed, order_by};

    ghost Value = { Stationed };

    ghost view = { λ s. record {
      order = order_by s.order.now.rules.now s.order.now.address.now s.order.now.limit s.keeper.config;
      keeping = s.keeper;
      shelf = s.shelf;
      moment = s.moment;
      heard = s.heard;
    } };
}

impl<'a> Station<'a> {
    fn new(alloc: Global, config: &'a Config, order: &'a Upkeep<'a>) -> Station<'a>
        ensures stands { StandsAt at_first result }
        ensures order { result.order ≡ order_by order.now.rules.now order.now.address.now order.now.limit config.now }
    {
        Station {
            alloc,
            order,
            keeper: Keeper::new(alloc, config),
            shelf: Shelf::new(),
            moment: 0,
            heard: 0,
        }
    }

    /// The first reading of the file, which has to be there.
    fn read_first<G: Gate, S: Sink>(&mut self, gate: &mut G, sink: &mut S) -> Result<(), Stop>
        requires { StandsAt at_first self.old }
        ensures later { (G.faults gate.old ≤ G.faults gate.new) × (S.faults sink.old ≤ S.faults sink.new) }
        ensures failed { IsErrOf result Stop.Failed
            → (Rose (S.faults sink.old) (S.faults sink.new) ⊎ Rose (G.faults gate.old) (G.faults gate.new))
            ⊎ IsMissing self.old.order.rules (G.turns gate.old) (G.turns gate.new) }
        ensures unlimited { IsErrOf result Stop.Limit → ⊥ }
        ensures begins { OnOk result (Begins self.old self.new
            (G.turns gate.old) (G.turns gate.new) (S.written sink.old) (S.written sink.new)) }
        ensures breaks { OnErr result (IsUnbegun self.old.order
            (G.turns gate.old) (G.turns gate.new) (S.written sink.old) (S.written sink.new)) }
    {
        let mut octets = Vec::new(self.alloc);
        let reading = gate.reread(self.order.rules, self.order.limit, &mut octets)?;
        if is_missing(reading.found) {
            return Err(Stop::Failed);
        }
        self.shelve(&reading, octets, gate, sink)
    }

    /// An event at the gate; and behind it the next dialling and the next reading, where they are due.
    fn hear<G: Gate, S: Sink>(
        &mut self,
        event: &Event,
        into: &[u8],
        gate: &mut G,
        sink: &mut S,
    ) -> Result<(), Stop>
        requires { FitsIn event.now.came into.now }
        ensures later { (G.faults gate.old ≤ G.faults gate.new) × (S.faults sink.old ≤ S.faults sink.new) }
        ensures failed { IsErrOf result Stop.Failed → Rose (S.faults sink.old) (S.faults sink.new) }
        ensures hears { OnOk result (HearsSo event.now.moment event.now.time (what_from event.now.came into.now) self.old self.new
            (G.turns gate.old) (G.turns gate.new) (S.written sink.old) (S.written sink.new)) }
        ensures breaks { OnErr result (BreaksHearing (IsErrOf result Stop.Limit)
            event.now.moment event.now.time (what_from event.now.came into.now) self.old
            (G.turns gate.old) (G.turns gate.new) (S.written sink.old) (S.written sink.new)) }
    {
        self.pass(event)?;
        self.follow(event, into, gate, sink)
    }

    /// Counts the octets of the other end, which stay fewer than the limit, and passes the event's moment.
    fn pass(&mut self, event: &Event) -> Result<(), Stop>
        ensures limited { OnErr result (IsErrOf result Stop.Limit) }
        ensures over { OnErr result (is_over self.old.order.limit self.old.heard (count_of event.now.came) ≡ true) }
        ensures below { OnOk result (is_over self.old.order.limit self.old.heard (count_of event.now.came) ≡ false) }
        ensures passed { OnOk result (self.new ≡ passed_by event.now.moment (count_of event.now.came) self.old) }
    {
        let count = octets_of(event.came);
        let heard = self.heard.saturating_add(count);
        if count != 0 && self.order.limit <= heard {
            return Err(Stop::Limit);
        }
        self.heard = heard;
        self.moment = self.moment.max(event.moment);
        Ok(())
    }

    /// What an event whose moment has passed calls for.
    fn follow<G: Gate, S: Sink>(
        &mut self,
        event: &Event,
        into: &[u8],
        gate: &mut G,
        sink: &mut S,
    ) -> Result<(), Stop>
        requires { FitsIn event.now.came into.now }
        ensures later { (G.faults gate.old ≤ G.faults gate.new) × (S.faults sink.old ≤ S.faults sink.new) }
        ensures failed { IsErrOf result Stop.Failed → Rose (S.faults sink.old) (S.faults sink.new) }
        ensures unlimited { IsErrOf result Stop.Limit → ⊥ }
        ensures follows { OnOk result (FollowsSo event.now.time (what_from event.now.came into.now) self.old self.new
            (G.turns gate.old) (G.turns gate.new) (S.written sink.old) (S.written sink.new)) }
        ensures breaks { OnErr result (BreaksFollowing event.now.time (what_from event.now.came into.now) self.old
            (G.turns gate.old) (G.turns gate.new) (S.written sink.old) (S.written sink.new)) }
    {
        let is_up = self.attend(event, into, gate, sink)?;
        self.dial(event.time, gate)?;
        self.look(is_up, event.time, gate, sink)
    }

    /// The session hears an event. Answers whether it came up.
    fn attend<G: Gate, S: Sink>(
        &mut self,
        event: &Event,
        into: &[u8],
        gate: &mut G,
        sink: &mut S,
    ) -> Result<bool, Stop>
        requires { FitsIn event.now.came into.now }
        ensures still { G.faults gate.new ≡ G.faults gate.old }
        ensures later { S.faults sink.old ≤ S.faults sink.new }
        ensures failed { IsErrOf result Stop.Failed → Rose (S.faults sink.old) (S.faults sink.new) }
        ensures unlimited { IsErrOf result Stop.Limit → ⊥ }
        ensures up { IfOk result (λ answer.
            IsUpSo (hears self.old.order.config event.now.time (what_from event.now.came into.now)) answer self.old) }
        ensures took { OnOk result (TookSo
            (keeps (hears self.old.order.config event.now.time (what_from event.now.came into.now))) self.old self.new
            (G.turns gate.old) (G.turns gate.new) (S.written sink.old) (S.written sink.new)) }
        ensures breaks { OnErr result (BreaksSo
            (keeps (hears self.old.order.config event.now.time (what_from event.now.came into.now))) self.old
            (G.turns gate.old) (G.turns gate.new) (S.written sink.old) (S.written sink.new)) }
    {
        let news = self.keeper.hear(event, into, gate)?;
        write_news(self.alloc, self.moment, news, sink)?;
        Ok(is_up(news))
    }

    /// Dials where it is due.
    fn dial<G: Gate>(&mut self, time: u64, gate: &mut G) -> Result<(), Stop>
        ensures still { G.faults gate.new ≡ G.faults gate.old }
        ensures memory { OnErr result (IsErrOf result Stop.Memory) }
        ensures dials { OnOk result (DialsSo time self.old self.new (G.turns gate.old) (G.turns gate.new)) }
        ensures breaks { OnErr result (Grew (G.turns gate.old) (G.turns gate.new) []) }
    {
        self.keeper.dial(time, self.order.address, gate)?;
        Ok(())
    }

    /// Reads the file where that is due, and then tells a session that came up all rules.
    fn look<G: Gate, S: Sink>(
        &mut self,
        is_up: bool,
        time: u64,
        gate: &mut G,
        sink: &mut S,
    ) -> Result<(), Stop>
        ensures later { (G.faults gate.old ≤ G.faults gate.new) × (S.faults sink.old ≤ S.faults sink.new) }
        ensures failed { IsErrOf result Stop.Failed → Rose (S.faults sink.old) (S.faults sink.new) }
        ensures unlimited { IsErrOf result Stop.Limit → ⊥ }
        ensures looks { OnOk result (Looks is_up time self.old self.new
            (G.turns gate.old) (G.turns gate.new) (S.written sink.old) (S.written sink.new)) }
        ensures breaks { OnErr result (BreaksLooking is_up time self.old
            (G.turns gate.old) (G.turns gate.new) (S.written sink.old) (S.written sink.new)) }
    {
        if !self.is_read(is_up, time) {
            return Ok(());
        }
        self.read(gate, sink)?;
        self.tell_if(is_up, time, gate, sink)
    }

    /// Whether the file is to be read.
    fn is_read(&self, is_up: bool, time: u64) -> bool
        ensures { result ≡ is_up || is_due self.now.shelf time }
    {
        is_up || self.shelf.is_due(time)
    }

    /// Tells a session that came up all rules.
    fn tell_if<G: Gate, S: Sink>(
        &mut self,
        is_up: bool,
        time: u64,
        gate: &mut G,
        sink: &mut S,
    ) -> Result<(), Stop>
        ensures still { G.faults gate.new ≡ G.faults gate.old }
        ensures later { S.faults sink.old ≤ S.faults sink.new }
        ensures failed { IsErrOf result Stop.Failed → Rose (S.faults sink.old) (S.faults sink.new) }
        ensures unlimited { IsErrOf result Stop.Limit → ⊥ }
        ensures took { OnOk result (TookSo (tells_if self.old.order time is_up) self.old self.new
            (G.turns gate.old) (G.turns gate.new) (S.written sink.old) (S.written sink.new)) }
        ensures breaks { OnErr result (BreaksSo (tells_if self.old.order time is_up) self.old
            (G.turns gate.old) (G.turns gate.new) (S.written sink.old) (S.written sink.new)) }
    {
        if !is_up {
            return Ok(());
        }
        let news = self.keeper.tell_all(time, gate)?;
        write_news(self.alloc, self.moment, news, sink)
    }

    /// Reads the file again.
    fn read<G: Gate, S: Sink>(&mut self, gate: &mut G, sink: &mut S) -> Result<(), Stop>
        ensures later { (G.faults gate.old ≤ G.faults gate.new) × (S.faults sink.old ≤ S.faults sink.new) }
        ensures failed { IsErrOf result Stop.Failed → Rose (S.faults sink.old) (S.faults sink.new) }
        ensures unlimited { IsErrOf result Stop.Limit → ⊥ }
        ensures reads { OnOk result (Reads self.old self.new
            (G.turns gate.old) (G.turns gate.new) (S.written sink.old) (S.written sink.new)) }
        ensures breaks { OnErr result (BreaksReading self.old
            (G.turns gate.old) (G.turns gate.new) (S.written sink.old) (S.written sink.new)) }
    {
        let mut octets = Vec::new(self.alloc);
        let reading = gate.reread(self.order.rules, self.order.limit, &mut octets)?;
        self.shelve(&reading, octets, gate, sink)
    }

    /// What a reading found; where it changes what the file counts as holding, that is judged.
    fn shelve<G: Gate, S: Sink>(
        &mut self,
        reading: &Reading,
        octets: Vec<u8>,
        gate: &mut G,
        sink: &mut S,
    ) -> Result<(), Stop>
        ensures still { G.faults gate.new ≡ G.faults gate.old }
        ensures later { S.faults sink.old ≤ S.faults sink.new }
        ensures failed { IsErrOf result Stop.Failed → Rose (S.faults sink.old) (S.faults sink.new) }
        ensures unlimited { IsErrOf result Stop.Limit → ⊥ }
        ensures shelves { OnOk result (Shelves reading.now.moment reading.now.time
            (content_from reading.now.found octets.items) self.old self.new
            (G.turns gate.old) (G.turns gate.new) (S.written sink.old) (S.written sink.new)) }
        ensures breaks { OnErr result (BreaksShelving reading.now.moment reading.now.time
            (content_from reading.now.found octets.items) self.old
            (G.turns gate.old) (G.turns gate.new) (S.written sink.old) (S.written sink.new)) }
    {
        self.moment = self.moment.max(reading.moment);
        let holding = Holding::new(reading.found, octets);
        if !self.shelf.put(holding, reading.time) {
            return Ok(());
        }
        let judged = judge(self.alloc, &self.shelf, self.keeper.config())?;
        self.settle(reading.time, judged, gate, sink)
    }

    /// Keeps the rules of a file that is accepted from now on, or writes why it isn't.
    fn settle<G: Gate, S: Sink>(
        &mut self,
        time: u64,
        judged: Judged,
        gate: &mut G,
        sink: &mut S,
    ) -> Result<(), Stop>
        requires { MayBeKept self.old.order.config (judged_as judged) }
        ensures still { G.faults gate.new ≡ G.faults gate.old }
        ensures later { S.faults sink.old ≤ S.faults sink.new }
        ensures failed { IsErrOf result Stop.Failed → Rose (S.faults sink.old) (S.faults sink.new) }
        ensures unlimited { IsErrOf result Stop.Limit → ⊥ }
        ensures took { OnOk result (TookSo (judges self.old.order time (Some (judged_as judged))) self.old self.new
            (G.turns gate.old) (G.turns gate.new) (S.written sink.old) (S.written sink.new)) }
        ensures breaks { OnErr result (BreaksSo (judges self.old.order time (Some (judged_as judged))) self.old
            (G.turns gate.old) (G.turns gate.new) (S.written sink.old) (S.written sink.new)) }
    {
        match judged {
            Judged::Accepted(rules) => self.accept(time, rules, gate, sink),
            Judged::Refused(reason) => write_kept(self.alloc, self.moment, &reason, sink),
        }
    }

    /// Keeps these rules from now on.
    fn accept<G: Gate, S: Sink>(
        &mut self,
        time: u64,
        rules: Sending,
        gate: &mut G,
        sink: &mut S,
    ) -> Result<(), Stop>
        requires { CanSend self.old.order.config (sender_of self.old.order.config.peers) rules }
        ensures still { G.faults gate.new ≡ G.faults gate.old }
        ensures later { S.faults sink.old ≤ S.faults sink.new }
        ensures failed { IsErrOf result Stop.Failed → Rose (S.faults sink.old) (S.faults sink.new) }
        ensures unlimited { IsErrOf result Stop.Limit → ⊥ }
        ensures took { OnOk result (TookSo (keeps (accepts self.old.order.config time rules)) self.old self.new
            (G.turns gate.old) (G.turns gate.new) (S.written sink.old) (S.written sink.new)) }
        ensures breaks { OnErr result (BreaksSo (keeps (accepts self.old.order.config time rules)) self.old
            (G.turns gate.old) (G.turns gate.new) (S.written sink.old) (S.written sink.new)) }
    {
        let news = self.keeper.accept(time, rules, gate)?;
        write_news(self.alloc, self.moment, news, sink)
    }
}

/// So many octets a connection gave.
fn octets_of(came: Came) -> u64
    ensures { result ≡ count_of came }
{
    match came {
        Came::Octets { count, .. } => count as u64,
        Came::Taken { .. } | Came::Made { .. } | Came::Ended { .. } | Came::Nothing => 0,
    }
}

/// Whether a file wasn't there, or couldn't be read.
fn is_missing(found: Found) -> bool
    ensures { result ≡ is_missing found }
{
    match found {
        Found::Absent | Found::Failed => true,
        Found::Whole | Found::TooLong => false,
    }
}

/// Whether there is to tell that a session came up.
fn is_up(news: Option<News>) -> bool
    ensures { result ≡ is_up news }
{
    match news {
        Some(News::Up) => true,
        Some(_) | None => false,
    }
}
