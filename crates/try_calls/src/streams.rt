//! Messages and UPDATEs (RFC 4271 section 4, RFC 4760), sessions (section 8), a desk; the outside in memory, and the
//! readers of inputs.

ghost use Rattle.std.specs.Prelude.{◌≤◌, IfSome};
ghost use Rattle.fs_speaker.specs.{Announcer.{CanSend}, Joint.{IsEnd}, Sending.{sender_of}};

use crate::call::{Call, same};
use fs_actions::Actions;
use fs_attrs::{
    PrefixList, Routes, RuleList, Terms, Update, UpdateFault, WriteFault, read_update, write_update,
};
use fs_base::{
    Address, CalmFiles, CalmSink, CalmWire, Clock, Config, Counted, Failed, Family, Files, Memory,
    Opening, Path, Peer, Segment, Sink, StillClock, Stop, Wire,
};
use fs_cli::{Desk, Standing};
use fs_conf::{ConfFault, read_rules};
use fs_message::{
    Deframer, Frame, MessageFault, Notice, Open, write_keepalive, write_notice, write_open,
    write_update_frame,
};
use fs_mrt::{Dump, DumpFault, Heard, What};
use fs_packet::{Link, view};
use fs_pcap::{Capture, CaptureFault, Caught};
use fs_pcapng::{Ng, NgCaught, NgFault};
use fs_rules::Table;
use fs_speaker::{Announcer, Closed, Event, Joint, Sending, Sent, Session, State, sender};
use fs_tape::{Tape, TapeFault, TapeItem};
use std::alloc::Global;

/// OPEN, KEEPALIVE, an UPDATE that says nothing and a NOTIFICATION (RFC 4271 section 4).
pub fn write(call: &mut Call<'_>) -> Option<()> {
    let opened: Result<(), Memory> = write_open(65001, 3, 0xc633_6401, &mut call.out);
    let kept: Result<(), Memory> = write_keepalive(&mut call.out);
    let said: Result<(), Memory> = write_update_frame(&[0, 0, 0, 0], &mut call.out);
    let told: Result<(), Memory> = write_notice(6, 2, &mut call.out);
    call.written(opened.and(kept).and(said).and(told))
}

/// OCTETS: the first message in them, its body as that of an OPEN of AS 65001, and its first two octets as those of a
/// NOTIFICATION.
pub fn message(call: &mut Call<'_>) -> Option<()> {
    let mut deframer = call.good::<Deframer, Memory>(Deframer::new(call.alloc))?;
    let fed: Result<(usize, bool), MessageFault> = deframer.feed(&call.octets());
    call.show(&fed);
    let frame: Option<Frame<'_>> = deframer.message();
    show_frame(call, frame?)
}

fn show_frame(call: &mut Call<'_>, frame: Frame<'_>) -> Option<()> {
    let (kind, body): (u8, &[u8]) = (frame.kind, frame.body);
    call.show(&(kind, body.len(), same(&frame, &frame)));
    if body.len() < 10 {
        return Some(());
    }
    let notice: Notice = Notice::read(body);
    call.show::<(u8, u8)>(&(notice.code, notice.subcode));
    let open = call.good::<Open, MessageFault>(Open::read(body, 65001))?;
    call.show::<(u32, u16, u32, bool)>(&(open.asn, open.hold_time, open.id, open.four));
    call.show::<[bool; 4]>(&[open.v4_unicast, open.v4_flow, open.v6_unicast, open.v6_flow])
}

/// OCTETS: the update that a body says, of an external peer at 198.51.100.1 with AS numbers of four octets, and its
/// message.
pub fn update(call: &mut Call<'_>) -> Option<()> {
    let terms = Terms {
        external: true,
        four: true,
        address: Address::V4(0xc633_6401),
    };
    let update: Result<Update, UpdateFault> = read_update(call.alloc, &call.octets(), &terms);
    let update: Update = call.good(update)?;
    show_update(call, &update);
    if update.is_writable(&terms) {
        let written: Result<(), WriteFault> = write_update(&update, &terms, &mut call.out);
        call.written(written);
    }
    Some(())
}

fn show_update(call: &mut Call<'_>, update: &Update) -> Option<()> {
    let (out, given): (&PrefixList, &PrefixList) = (&update.classic_out, &update.classic_in);
    let (unreach, reach): (&Option<Routes>, &Option<Routes>) = (&update.unreach, &update.reach);
    let (treated, actions): (bool, &Actions) = (update.as_withdraw, &update.actions);
    call.show(&(out.as_slice().len(), given.as_slice().len(), unreach));
    call.show(&(treated, actions.discards()));
    if let Some(Routes::Flow(family, rules)) = reach {
        let (family, rules): (&Family, &RuleList) = (family, rules);
        call.show(&(*family, rules.as_slice().len()));
    }
    let path: &Path = update.path.as_ref()?;
    call.show::<(u8, u32, bool)>(&(path.origin, path.local_pref, path.external));
    call.show::<Option<u32>>(&path.originator);
    let segment: &Segment = path.segments.as_slice().first()?;
    call.show::<(u8, &[u32])>(&(segment.form, segment.numbers.as_slice()));
    let copy = call.good::<Path, Memory>(path.copy())?;
    call.show(&(same(path, &copy), same(update, update)))
}

/// The rule to TCP port 25 of 192.0.2.0/24, with the action to discard, that AS 65001 announces under 198.51.100.1.
const RULES: &[u8] = b"id = \"198.51.100.1\"\nas_path = [65001]\n[[rule]]\nfamily = \"v4\"\n\
    nlri = \"0b0118c00002038106048119\"\nactions = \"8006fde900000000\"\n";

/// What the rules file says, where it may be sent.
fn sending(alloc: Global, config: &Config) -> Option<Sending>
    ensures { IfSome result (CanSend config.now (sender_of config.now.peers)) }
{
    let sending: Result<Sending, ConfFault> = read_rules(alloc, RULES, config);
    let sending = sending.ok()?;
    if !sending.may_be_sent(config, sender(config)?) {
        return None;
    }
    Some(sending)
}

/// OCTETS OCTETS that peer 1's session hears, the second ones at 1000; it ticks at 2000, and ceases.
pub fn session(call: &mut Call<'_>) -> Option<()> {
    call.config.peer(1)?;
    let mut session = call.good::<Session<'_>, Memory>(Session::new(call.alloc, call.config, 1))?;
    let opened = session.feed(&call.octets(), &mut call.out);
    call.show::<Result<(usize, Option<Update>), Closed>>(&opened);
    let kept = session.feed_at(1000, &call.octets(), &mut call.out);
    call.show::<Result<(usize, Option<Update>), Closed>>(&kept);
    let ticked: Result<(), Closed> = session.tick(2000, &mut call.out);
    let state: State = session.state();
    let ceased: Result<(), Closed> = session.cease(4, &mut call.out);
    let closed: Option<Closed> = session.closed();
    call.show(&(ticked, state, ceased, closed));
    call.written(ceased)
}

/// OCTETS OCTETS that the announcing end hears: what it answers, how it stands, and what it wrote.
pub fn announce(call: &mut Call<'_>) -> Option<()> {
    let config = call.config;
    let sending = sending(call.alloc, config)?;
    let (id, rules): (u32, &[Sent]) = (sending.id, sending.rules.as_slice());
    let path: &[u32] = sending.as_path.as_slice();
    call.show(&(id, path, rules.len(), same(&sending, &sending)));
    let announcer = Announcer::new(call.alloc, config, sending);
    let mut announcer = call.good::<Announcer<'_>, Memory>(announcer)?;
    let started: Result<(), Closed> = announcer.start(&mut call.out);
    let opened: Result<usize, Closed> = announcer.feed(&call.octets(), &mut call.out);
    let kept: Result<usize, Closed> = announcer.feed_at(1000, &call.octets(), &mut call.out);
    let said: Result<bool, Closed> = announcer.next_message(&mut call.out);
    let ticked: Result<(), Closed> = announcer.tick(2000, &mut call.out);
    let state: State = announcer.state();
    call.show(&(started, opened, kept, said, state));
    call.written(ticked)
}

/// Both ends joined: the update is taken with its last octet, and the receiving end's hold time passes.
pub fn joint(call: &mut Call<'_>) -> Option<()> {
    let config = call.config;
    let sending = sending(call.alloc, config)?;
    let mut joint = call.good::<Joint<'_>, Memory>(Joint::new(call.alloc, config, sending))?;
    deliver(call, &mut joint, 0, 61);
    deliver(call, &mut joint, 1, 80);
    deliver(call, &mut joint, 0, 19);
    step(call, &mut joint, Event::Send);
    deliver(call, &mut joint, 0, 66);
    deliver(call, &mut joint, 0, 1);
    let (end, moment) = (0, 3000);
    step(call, &mut joint, Event::Tick { end, moment });
    step(call, &mut joint, Event::Cut)
}

fn deliver(call: &mut Call<'_>, joint: &mut Joint<'_>, to: u8, count: usize) -> Option<()>
    requires { to ≤ 1 }
{
    let moment = 0;
    step(call, joint, Event::Deliver { to, count, moment })
}

fn step(call: &mut Call<'_>, joint: &mut Joint<'_>, event: Event) -> Option<()>
    requires { IsEnd event }
{
    let stepped: Result<(), Memory> = joint.step(event);
    let taken: Option<&Update> = joint.taken(0);
    let closed: (Option<&Closed>, Option<&Closed>) = (joint.closed(0), joint.closed(1));
    call.show(&(stepped, taken.is_some(), closed))
}

// As a library
/// Peer 1 comes up at a desk and sends these octets; what it is answered is appended.
fn hear(desk: &mut Desk<'_>, octets: &[u8], replies: &mut Vec<u8>) -> Option<()> {
    desk.config().peer(1)?;
    desk.up(1).ok()?;
    desk.octets(1, octets, replies).ok()
}

/// Whether an IP packet is discarded by the first admitted rule that it matches.
fn is_discarded(table: &Table<'_>, packet: &[u8]) -> Option<bool> {
    let view = view(Link::Raw, packet).ok()?;
    let number = table.walk(&view, 0)?;
    let rule = table.rule(view.family(), number)?;
    Some(rule.actions.discards())
}
// end

/// OCTETS OCTETS: the configuration and the peer; how peer 1 of a desk stands that sends the first octets, also once it is
/// lost, and what it is answered; whether the second octets, a packet, are discarded while it is up.
pub fn desk(call: &mut Call<'_>) -> Option<()> {
    let config: &Config = call.config;
    call.show::<(u32, u32, u16)>(&(config.local_as, config.local_id, config.hold_time));
    call.show::<[bool; 2]>(&[config.allow_no_destination, config.empty_path_valid]);
    let peer: &Peer = config.peer(1)?;
    call.show::<(u16, Address, u32)>(&(peer.number, peer.address, peer.asn));
    call.show::<(Option<u32>, bool)>(&(peer.max_routes, same(config, config)));
    let mut desk = call.good::<Desk<'_>, Memory>(Desk::new(call.alloc, config))?;
    let heard = hear(&mut desk, &call.octets(), &mut call.out);
    call.show::<(Option<()>, Standing)>(&(heard, desk.state(1)));
    let discarded = is_discarded(desk.table(), &call.octets());
    desk.lost(1);
    call.show(&(discarded, same(&desk.state(1), &Standing::Down)));
    call.written::<Memory>(Ok(()))
}

/// The peer comes up at a desk and sends these octets at a moment; what it is answered is appended.
fn begin(
    desk: &mut Desk<'_>,
    peer: u16,
    moment: u64,
    octets: &[u8],
    replies: &mut Vec<u8>,
) -> Option<()> {
    desk.config().peer(peer)?;
    desk.up(peer).ok()?;
    desk.tick(peer, moment, replies).ok()?;
    desk.octets(peer, octets, replies).ok()
}

/// OCTETS OCTETS OCTETS OCTETS: peer 1 of a desk sends the first octets at 0, and peer 2 the second ones at 2 seconds;
/// whether the last ones, a packet, are discarded. At 3.5 seconds, where the hold time of 3 has passed at peer 1 alone:
/// what two ticks answer, how both stand, how many octets were answered to each, and the packet. Peer 2 sends the third
/// octets, and peer 1 its first ones again: how many octets that answers, the packet, how many routes each holds. Peer 1
/// comes up again: how it stands.
pub fn expiry(call: &mut Call<'_>) -> Option<()> {
    let mut desk = call.good::<Desk<'_>, Memory>(Desk::new(call.alloc, call.config))?;
    let (first, second) = (call.octets(), call.octets());
    let (third, packet) = (call.octets(), call.octets());
    begin(&mut desk, 1, 0, &first, &mut call.out)?;
    begin(&mut desk, 2, 2000, &second, &mut call.out)?;
    call.out.clear();
    call.show(&is_discarded(desk.table(), &packet));
    expire(call, &mut desk, &packet)?;
    let heard: Result<(), Memory> = desk.octets(2, &third, &mut call.out);
    let skipped: Result<(), Memory> = desk.octets(1, &first, &mut call.out);
    let answered = call.out.len();
    call.show(&(heard, skipped, answered));
    call.show(&is_discarded(desk.table(), &packet));
    call.show(&[desk.table().held_by(1), desk.table().held_by(2)]);
    begin(&mut desk, 1, 4000, &[], &mut call.out)?;
    call.show(&(desk.state(1), desk.state(2)))
}

fn expire(call: &mut Call<'_>, desk: &mut Desk<'_>, packet: &[u8]) -> Option<()> {
    for peer in 1..3 {
        let ticked: Result<(), Memory> = desk.tick(peer, 3500, &mut call.out);
        let answered = call.out.len();
        call.out.clear();
        call.show(&(ticked, desk.state(peer), answered));
    }
    call.show(&is_discarded(desk.table(), packet))
}

/// OCTETS that are written into room for three and go through joined ends with as much, in memory that never fails; the
/// moment of a clock that stands still.
pub fn calm(call: &mut Call<'_>) -> Option<()> {
    let mut sink = call.good::<CalmSink, Memory>(CalmSink::new(call.alloc, 3))?;
    let mut wire = call.good::<CalmWire, Memory>(CalmWire::new(call.alloc, 3))?;
    let octets = call.octets();
    let written: Result<usize, Failed> = sink.write(&octets);
    let moment: u64 = StillClock::new().now();
    call.show(&(written, sink.text(), moment));
    exchange(call, &mut wire, &octets);
    call.show(&wire.written(0))
}

fn exchange<W: Wire>(call: &mut Call<'_>, wire: &mut W, octets: &[u8]) {
    let opened: Result<(), Failed> = wire.open_end(Opening::Both);
    let written: Result<usize, Failed> = wire.write(0, octets);
    let heard: Result<usize, Failed> = wire.read(1, &mut [0u8; 4]);
    let closed: Result<(), Failed> = wire.close(0);
    call.show(&(opened, written, heard, closed));
    let listens: Result<(), Failed> = wire.open_end(Opening::Listen(""));
    call.show(&(listens, wire.open_end(Opening::Dial(""))));
}

/// `octets|tape|capture|dump|pcapng` OCTETS of a file in memory that never fails: what its reader begins with, and its
/// first record.
pub fn input(call: &mut Call<'_>) -> Option<()> {
    let asked = call.word();
    let octets = call.octets();
    let mut files = CalmFiles::new(call.alloc);
    call.good::<(), Memory>(files.add("input", octets));
    call.show::<Result<bool, Failed>>(&files.open_file(0, "input"));
    match asked {
        "octets" => octets_of(call, &mut files),
        "tape" => tape(call, &mut files),
        "capture" => capture(call, &mut files),
        "dump" => dump(call, &mut files),
        _ => pcapng(call, &mut files),
    }
}

/// Of four octets that are read the first is put back; then as many are as the limit, 6, lets through.
fn octets_of(call: &mut Call<'_>, files: &mut CalmFiles) -> Option<()> {
    let mut counted = Counted::new(0, 6);
    let mut into = [0u8; 4];
    let first: Result<usize, Stop> = counted.read(files, &mut into);
    if let Ok(4) = first {
        counted.put_back(&into[..1]);
    }
    call.show::<(u8, u64, u64)>(&(counted.slot, counted.limit, counted.taken));
    call.show(&(counted.read(files, &mut into), into[0]));
    let last = counted.read(files, &mut into);
    call.show(&(last, counted.read(files, &mut into)))
}

fn tape(call: &mut Call<'_>, files: &mut CalmFiles) -> Option<()> {
    let mut tape = call.good::<Tape, TapeFault>(Tape::begin(Counted::new(0, 999), files))?;
    let mut into = [0u8; 65536];
    let item: Result<Option<TapeItem>, TapeFault> = tape.next(files, call.config, &mut into);
    call.show(&item);
    call.show::<(u8, u64)>(&(tape.version(), tape.moment()))
}

fn capture(call: &mut Call<'_>, files: &mut CalmFiles) -> Option<()> {
    let mut into = vec![in call.alloc; 0u8; 262144].ok()?;
    let mut read = call.good::<Capture, CaptureFault>(Capture::begin(Counted::new(0, 999), files))?;
    let it = call.good::<Option<Caught>, CaptureFault>(read.next(files, &mut into))??;
    call.show::<(u32, u32, u64)>(&(it.seconds, it.fraction, it.moment));
    call.show::<(u32, usize, u32)>(&(read.link(), it.taken, it.original))
}

fn dump(call: &mut Call<'_>, files: &mut CalmFiles) -> Option<()> {
    let mut dump = call.good::<Dump, DumpFault>(Dump::begin(Counted::new(0, 999), files))?;
    let mut into = [0u8; 65536];
    let it = call.good::<Option<Heard>, DumpFault>(dump.next(files, call.config, &mut into))??;
    call.show::<(u16, u64, bool, What)>(&(it.peer, it.moment, it.wide, it.what))
}

fn pcapng(call: &mut Call<'_>, files: &mut CalmFiles) -> Option<()> {
    let mut into = vec![in call.alloc; 0u8; 262144].ok()?;
    let mut ng = call.good::<Ng, NgFault>(Ng::begin(Counted::new(0, 999), files))?;
    let it = call.good::<Option<NgCaught>, NgFault>(ng.next(files, &mut into))??;
    let link: Option<Link> = ng.link();
    call.show::<(Option<Link>, u64, usize, u32)>(&(link, it.moment, it.taken, it.original))
}
