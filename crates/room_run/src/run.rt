//! A run of the network, and what it writes.
ghost use Rattle.std.specs.Prelude.{◌≡◌, ℕ, ◌<◌, ◌≤◌, List, length, true, Ok, Err, IfOk, IfErr, OnOk, OnErr, MatchResult, All};
ghost use Rattle.std.specs.Io.KnownBytes.{Appends};
ghost use Rattle.line_wave.specs.Bounds.{latest_event, latest_instant};
ghost use Rattle.room_script.specs.Script.{IsSchedule};
ghost use Rattle.room_net.specs.Sound.{EndsEarly};
ghost use Rattle.room_net.specs.State.{first_net};
ghost use Rattle.room_run.specs.declared.run.Totals.{Totals as TotalsRecord};
ghost use Rattle.text_core.specs.Cut.{CutOff};
ghost use Rattle.room_run.specs.Run.{HasAddressReported, IsRunText, event_turn, first_time, round_turn, start, turn_of};

use crate::line_text::write_line;
use crate::objects_text::write_objects;
use crate::trace_text::write_trace;
use capture_forms::CaptureForm;
use edid_core::Edid;
use edid_tree::Tree;
use line_rounds::Wire;
use line_wire::EdgeWire;
use room_net::Net;
use room_script::{Script, TimedEvent};
use room_trace::RoomTexts;
use std::alloc::{AllocError, Global};
use text_core::{Sink, WriteFault};

/// What a run did.
#[derive(Clone, Copy, Debug, Default, PartialEq, Eq)]
pub struct Totals {
    /// How many rounds the wire carried.
    pub rounds: u64,
    /// How many of them were read whole.
    pub complete: u64,
    /// How many events were refused.
    pub refused: u64,
}

/// What a run writes.
#[derive(Drop)]
pub enum Reporting<'a> {
    /// Its trace, with the EDID that ports pass on, where it is given.
    Trace(Option<Edid>),
    /// The objects of its trace, with the same, and where its room is given with those of the room.
    Objects(Option<Edid>, Option<RoomTexts<'a>>),
    /// Its line, in a format.
    Line(CaptureForm),
}

/// What comes next in a run.
#[derive(Clone, Copy, Debug, PartialEq, Eq)]
pub enum Turn {
    Stop,
    Apply(u64),
    Round(u64),
}

// The next round, where it begins before the end.
fn round_turn(end: u64, begin: Option<u64>) -> Turn
    ensures { result ≡ round_turn end begin }
{
    match begin {
        Some(begin) if begin < end => Turn::Round(begin),
        _ => Turn::Stop,
    }
}

fn event_turn(end: u64, at: u64) -> Turn
    ensures { result ≡ event_turn end at }
{
    if at < end {
        Turn::Apply(at)
    } else {
        Turn::Stop
    }
}

/// What comes next, where the next event has this time.
pub fn next_turn<W>(end: u64, net: &Net<W>, time: Option<u64>) -> Turn
    ensures { result ≡ turn_of end net.now time }
{
    let begin = net.next_start();
    let Some(time) = time else {
        return round_turn(end, begin);
    };
    let at = net.close().max(time);
    match begin {
        Some(begin) if begin < at => round_turn(end, Some(begin)),
        _ => event_turn(end, at),
    }
}

/// The time of the next event.
pub fn first_time(events: &[TimedEvent]) -> Option<u64>
    ensures { result ≡ first_time events.now }
{
    match events.first() {
        None => None,
        Some(event) => Some(event.at),
    }
}

/// What a run did, where all of its text was written.
pub fn told(written: Result<u128, WriteFault>, totals: Totals) -> Result<Totals, WriteFault>
    ensures { MatchResult written (λ _. result ≡ Ok totals) (λ fault. result ≡ Err fault) }
{
    match written {
        Ok(_) => Ok(totals),
        Err(fault) => Err(fault),
    }
}

/// The network at the start of a run, on the heap: it is large.
///
/// # Errors
///
/// Want of memory.
pub fn started_net(
    alloc: Global,
    tree: Tree<15>,
    script: &Script,
) -> Result<Box<Net<EdgeWire>>, AllocError>
    requires some { 0 < length tree }
    requires early { All (λ p. p.from ≤ latest_instant) script.now.pulses.items }
    requires ends { All EndsEarly script.now.pulses.items }
    ensures { IfOk result (λ net. net.value ≡ first_net tree script.now.pulses.items) }
{
    Net::on_heap(alloc, tree, &script.pulses)
}

/// Runs a network to `end`, at most 1,000,000,000,000 microseconds, and writes its trace, the objects of its trace,
/// or its line in a format. The EDID that ports pass on, where it is given, has an HDMI block. The events stand in the order of their
/// times, all before `end`, and name devices of the tree.
///
/// # Errors
///
/// A `put` took none. Its count, which stays at its greatest value, says how much of the text was written.
#[tactic(auto, using(crate::proofs::Whole::written_ok, crate::proofs::Whole::written_same, crate::proofs::Whole::written_stuck))]
pub fn run<S: Sink, W: Wire>(
    out: &mut S,
    net: &mut Net<W>,
    reporting: &Reporting<'_>,
    events: &[TimedEvent],
    end: u64,
) -> Result<Totals, WriteFault>
    requires addressed { HasAddressReported reporting.now }
    requires early { end ≤ latest_event }
    requires fresh { (net.old.close ≤ latest_event) × (net.old.rest ≤ latest_event) }
    requires schedule { IsSchedule (length net.old.tree) end 0 events.now }
    ensures ok { IfOk result (λ totals. (text : List ℕ) × IsRunText reporting.now end (start net.old events.now) text totals × Appends (S.contents out.old) (S.contents out.new) text) }
    ensures same { OnOk result (S.is_stuck out.new ≡ S.is_stuck out.old) }
    ensures cut { IfErr result (λ fault. (text : List ℕ) (totals : TotalsRecord) → IsRunText reporting.now end (start net.old events.now) text totals
        → CutOff (S.contents out.old) (S.contents out.new) text fault) }
    ensures stuck { OnErr result (S.is_stuck out.new ≡ true) }
{
    match reporting {
        Reporting::Trace(edid) => write_trace(out, net, edid, events, end),
        Reporting::Objects(edid, room) => write_objects(out, net, edid, room, events, end),
        Reporting::Line(format) => write_line(out, net, *format, events, end),
    }
}
