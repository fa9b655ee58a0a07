//! Rounds from a generator against their definition computed plainly: a line is a set of stretches, all of it is laid
//! out by what was read of it, and read again, until it stays as it is. Times count from the round's begin.
ghost use Rattle.std.specs.Prelude.{◌<◌, length};

use crate::driven::Driven;
use arrayvec::ArrayVec;
use line_frames::{Addr, Ending, Frame};
use line_rounds::{Loser, Outcome, Seat};
use line_wave::{Edge, Stretch};
use line_wire::EdgeWire;
use std::alloc::Global;
use std::process::Abort;

const ROUNDS: usize = 400;

const BEGIN: u64 = 1_000_000;

// ---- who takes part

// A device on the wire or not: its addresses, and the bytes that it sends, if any.
#[derive(Default, Drop)]
struct Device {
    plugged: bool,
    held: ArrayVec<u8, 2>,
    bytes: ArrayVec<u8, 3>,
}

impl Device {
    fn holds(&self, address: u8) -> bool {
        for held in &self.held {
            if *held == address {
                return address < 15;
            }
        }
        false
    }

    // The bits of its frame: eight a block, the end of the message, and the acknowledge slot as a 1.
    fn sent(&self) -> ArrayVec<bool, 30> {
        let mut sent = ArrayVec::new();
        for place in 0..self.bytes.len() {
            let mut weight: u8 = 128;
            for _bit in 0..8 {
                let _ = sent.try_push(self.bytes[place] & weight != 0);
                weight >>= 1;
            }
            let _ = sent.try_push(self.bytes.len() - place == 1);
            let _ = sent.try_push(true);
        }
        sent
    }
}

// Another bit where they first differ, acknowledge slots left out: the one that sends 0 there wins.
fn is_beaten(sent: &[bool], other: &[bool]) -> bool {
    for place in 0..sent.len() {
        if place % 10 != 9 && bit_at(sent, place) != bit_at(other, place) {
            return bit_at(sent, place);
        }
    }
    false
}

fn wins(device: &Device, devices: &[Device]) -> bool {
    for other in devices {
        if !other.bytes.is_empty() && is_beaten(&device.sent(), &other.sent()) {
            return false;
        }
    }
    !device.bytes.is_empty()
}

fn anybody_sends(devices: &[Device]) -> bool {
    for device in devices {
        if !device.bytes.is_empty() {
            return true;
        }
    }
    false
}

// ---- what is read of a line

fn bit_at(bits: &[bool], place: usize) -> bool {
    bits.get(place).copied().unwrap_or(false)
}

fn is_low(line: &[Stretch], at: u64) -> bool {
    for stretch in line {
        if stretch.from <= at && at < stretch.to {
            return true;
        }
    }
    false
}

fn falls_at(line: &[Stretch], at: u64) -> bool {
    is_low(line, at) && (at == 0 || !is_low(line, at - 1))
}

// The first microsecond of these in which the line falls.
fn first_fall(line: &[Stretch], from: u64, to: u64) -> Option<u64> {
    let mut first = to;
    for stretch in line {
        let at = stretch.from;
        if from <= at && at < first && falls_at(line, at) {
            first = at;
        }
    }
    if first < to { Some(first) } else { None }
}

// The first microsecond of these in which it is high.
fn first_high(line: &[Stretch], from: u64, to: u64) -> Option<u64> {
    let mut first = if is_low(line, from) { to } else { from };
    for stretch in line {
        let at = stretch.to;
        if from <= at && at < first && !is_low(line, at) {
            first = at;
        }
    }
    if first < to { Some(first) } else { None }
}

// How a reading ended, and the last microsecond that belongs to it.
#[derive(Drop)]
struct End {
    ending: Ending,
    at: u64,
    until: u64,
}

// It ended in a microsecond that belongs to it.
fn ended(ending: Ending, at: u64) -> End {
    End {
        ending,
        at,
        until: at,
    }
}

// It ended since the line stayed as it was.
fn waited(ending: Ending, at: u64) -> End {
    End {
        ending,
        at,
        until: at.saturating_sub(1),
    }
}

#[derive(Drop)]
struct Read {
    falls: ArrayVec<u64, 160>,
    bits: ArrayVec<bool, 160>,
    end: End,
}

// The fall of the first slot.
fn read_start(line: &[Stretch]) -> Result<u64, End> {
    let Some(rise) = first_high(line, 1, 3901) else {
        return Err(ended(Ending::BadStart, 3901));
    };
    if rise < 3500 {
        return Err(ended(Ending::BadStart, rise));
    }
    let Some(fall) = first_fall(line, rise, 4701) else {
        return Err(waited(Ending::BadStart, 4701));
    };
    if fall < 4300 {
        return Err(ended(Ending::BadStart, fall));
    }
    Ok(fall)
}

// How the slot after these bits ends a reading that nothing breaks.
fn last_ending(bits: &[bool]) -> Option<Ending> {
    if bits.len() % 10 == 9 && bits.last() == Some(&true) {
        Some(Ending::Complete)
    } else if bits.len() == 159 {
        Some(Ending::Long)
    } else {
        None
    }
}

// The fall of the slot after the one that falls here, which adds its bit.
fn read_slot(line: &[Stretch], fall: u64, bits: &mut ArrayVec<bool, 160>) -> Result<u64, End> {
    let sample = fall.saturating_add(1050);
    let after = sample.saturating_add(1);
    if let Some(early) = first_fall(line, fall.saturating_add(1), after) {
        return Err(ended(Ending::Short, early));
    }
    let last = last_ending(bits);
    let _ = bits.try_push(!is_low(line, sample));
    if let Some(ending) = last {
        return Err(ended(ending, sample));
    }
    let silent = fall.saturating_add(2751);
    let Some(next) = first_fall(line, after, silent) else {
        return Err(waited(Ending::Silent, silent));
    };
    if next < fall.saturating_add(2050) {
        return Err(ended(Ending::Short, next));
    }
    Ok(next)
}

fn reading_of(rt: &impl Abort, line: &[Stretch]) -> Read {
    let mut falls = ArrayVec::new();
    let mut bits = ArrayVec::new();
    let mut slot = read_start(line);
    for _slot in 0..161 {
        let fall = match slot {
            Ok(fall) => fall,
            Err(end) => return Read { falls, bits, end },
        };
        let _ = falls.try_push(fall);
        slot = read_slot(line, fall, &mut bits);
    }
    panic!(rt; "a reading of more than 160 slots")
}

fn nothing_read() -> Read {
    Read {
        falls: ArrayVec::new(),
        bits: ArrayVec::new(),
        end: ended(Ending::Open, u64::MAX),
    }
}

// ---- who goes by it, and how

impl Read {
    // What of it is known before a microsecond.
    fn before(&self, t: u64) -> Read {
        let mut known = nothing_read();
        for fall in &self.falls {
            if *fall < t {
                let _ = known.falls.try_push(*fall);
            }
        }
        for (bit, fall) in self.bits.iter().zip(self.falls.iter()) {
            if fall.saturating_add(1050) < t {
                let _ = known.bits.try_push(*bit);
            }
        }
        if self.end.until < t {
            known.end = End {
                ending: self.end.ending,
                at: self.end.at,
                until: self.end.until,
            };
        }
        known
    }

    fn destination(&self) -> u8 {
        let mut destination = 0;
        for place in 4..8 {
            let bit = u8::from(bit_at(&self.bits, place));
            destination = (destination << 1) | bit;
        }
        destination
    }

    fn is_whole(&self) -> bool {
        self.end.ending == Ending::Complete || self.end.ending == Ending::Long
    }

    // The slot at this place tells a sender of these bits to stop.
    fn stops(&self, sent: &[bool], place: usize) -> bool {
        let bit = bit_at(&self.bits, place);
        if place % 10 != 9 {
            return bit != bit_at(sent, place);
        }
        let ends = self.is_whole() && place.saturating_add(1) == self.bits.len();
        !ends && bit != (self.bits.len() >= 8 && self.destination() == 15)
    }

    // The place of the first slot that tells it to stop.
    fn out_at(&self, sent: &[bool]) -> Option<usize> {
        for place in 0..self.bits.len() {
            if self.stops(sent, place) {
                return Some(place);
            }
        }
        None
    }

    // A device is sending when the slot at this place falls.
    fn sends_in(&self, device: &Device, place: usize) -> bool {
        if device.bytes.is_empty() {
            return false;
        }
        match self.out_at(&device.sent()) {
            None => true,
            Some(out) => place <= out,
        }
    }

    // The last microsecond in which it pulls.
    fn stops_at(&self, sent: &[bool]) -> u64 {
        match self.out_at(sent) {
            None => self.end.at,
            Some(place) => match self.falls.get(place) {
                None => self.end.at,
                Some(fall) => fall.saturating_add(1050),
            },
        }
    }

    fn is_acknowledged(&self, devices: &[Device], place: usize) -> bool {
        let destination = self.destination();
        for device in devices {
            if device.plugged && device.holds(destination) && !self.sends_in(device, place) {
                return true;
            }
        }
        false
    }

    // Somebody on the wire follows a reading that ends too short.
    fn is_broken(&self, devices: &[Device]) -> bool {
        for device in devices {
            if device.plugged && !self.sends_in(device, self.bits.len()) {
                return self.end.ending == Ending::Short;
            }
        }
        false
    }
}

type Line = ArrayVec<Stretch, 192>;

fn lay(line: &mut Line, from: u64, to: u64) {
    if from < to {
        let _ = line.try_push(Stretch { from, to });
    }
}

// What a sender pulls that stops after a microsecond.
fn lay_frame(line: &mut Line, sent: &[bool], last: u64) {
    let end = last.saturating_add(1);
    lay(line, 0, end.min(3700));
    let mut fall: u64 = 4500;
    for bit in sent {
        let width = if *bit { 600 } else { 1500 };
        lay(line, fall, end.min(fall.saturating_add(width)));
        fall = fall.saturating_add(2400);
    }
}

// The line by what was read of it. Who answers a fall pulls from the microsecond after it.
fn line_by(devices: &[Device], pulses: &[Stretch], seen: &Read) -> Line {
    let mut line = ArrayVec::new();
    for device in devices {
        if wins(device, devices) {
            let sent = device.sent();
            lay_frame(&mut line, &sent, seen.stops_at(&sent));
        }
    }
    for place in 0..seen.falls.len() {
        if place % 10 == 9 && seen.is_acknowledged(devices, place) {
            let fall = seen.falls[place];
            lay(&mut line, fall.saturating_add(1), fall.saturating_add(1500));
        }
    }
    if seen.is_broken(devices) {
        let at = seen.end.at;
        lay(&mut line, at.saturating_add(1), at.saturating_add(3600));
    }
    for pulse in pulses {
        let from = pulse.from;
        if from <= seen.end.until || is_low(&line, from - 1) {
            lay(&mut line, from, pulse.to);
        }
    }
    line
}

// This microsecond, if it is sooner than the first one so far and one of them is low in it and the other high.
fn sooner(line: &[Stretch], other: &[Stretch], first: u64, at: u64) -> u64 {
    if at < first && is_low(line, at) != is_low(other, at) {
        at
    } else {
        first
    }
}

// The first microsecond in which one of them is low and the other high.
fn first_difference(line: &[Stretch], other: &[Stretch]) -> Option<u64> {
    let mut first = u64::MAX;
    for stretch in line.iter().chain(other.iter()) {
        first = sooner(line, other, first, stretch.from);
        first = sooner(line, other, first, stretch.to);
    }
    if first < u64::MAX { Some(first) } else { None }
}

// The one line that is as it is by what is read of it, and that reading. A line that is not is right up to the first
// microsecond that comes out otherwise, and is laid out again by what it told before that.
fn fixed(rt: &impl Abort, devices: &[Device], pulses: &[Stretch]) -> (Line, Read) {
    let mut line = line_by(devices, pulses, &nothing_read());
    for _pass in 0..200 {
        let seen = reading_of(rt, &line);
        let next = line_by(devices, pulses, &seen);
        let Some(wrong) = first_difference(&line, &next) else {
            return (line, seen);
        };
        line = line_by(devices, pulses, &seen.before(wrong));
    }
    panic!(rt; "no line stays as it is")
}

// ---- rounds from a generator

// A linear congruential generator.
#[derive(Drop)]
struct Generator {
    state: u64,
}

impl Generator {
    fn below(&mut self, count: usize) -> usize
        requires { 0 < count }
        ensures { result < count }
    {
        self.state = self
            .state
            .wrapping_mul(6_364_136_223_846_793_005)
            .wrapping_add(1_442_695_040_888_963_407);
        (self.state >> 33) as usize % count
    }

    fn pick(&mut self, values: &[u8]) -> u8
        requires { 0 < length values.now }
    {
        let place = self.below(values.len());
        values[place]
    }

    fn frame(&mut self) -> ArrayVec<u8, 3> {
        let mut bytes = ArrayVec::new();
        let header = 16 * (self.pick(&[0, 4, 4, 5]) % 16);
        let _ = bytes.try_push(header | self.pick(&[0, 1, 4, 5, 15, 15]));
        for _byte in 0..self.below(3) {
            let _ = bytes.try_push(self.pick(&[0x04, 0x82, 0x8f, 0x00, 0xff]));
        }
        bytes
    }

    fn device(&mut self) -> Device {
        let mut held = ArrayVec::new();
        for _unit in 0..self.below(3) {
            let _ = held.try_push(self.pick(&[0, 1, 4, 5, 15]));
        }
        let plugged = self.below(8) != 0;
        let bytes = if plugged && self.below(3) != 0 {
            self.frame()
        } else {
            ArrayVec::new()
        };
        Device {
            plugged,
            held,
            bytes,
        }
    }

    fn devices(&mut self) -> ArrayVec<Device, 5> {
        let mut devices = ArrayVec::new();
        for _device in 0..1 + self.below(4) {
            let device = self.device();
            let _ = devices.try_push(device);
        }
        devices
    }

    // A pulse from an instant on.
    fn pulse(&mut self, from: u64) -> Stretch {
        const WIDTHS: [u64; 6] = [1, 100, 400, 1500, 3700, 10_000];
        let place = self.below(6);
        let width = WIDTHS[place].saturating_sub(self.below(3) as u64).max(1);
        Stretch {
            from,
            to: from.saturating_add(width),
        }
    }

    // Sparse pulses. Where nobody sends the first begins with the round.
    fn pulses(&mut self, somebody_sends: bool) -> ArrayVec<Stretch, 3> {
        let mut pulses = ArrayVec::new();
        let (mut from, least) = if somebody_sends {
            (self.below(30_000) as u64, 0)
        } else {
            (0, 1)
        };
        for _pulse in 0..least + self.below(3) {
            let pulse = self.pulse(from);
            let gap = 25_000 + self.below(20_000) as u64;
            from = pulse.to.saturating_add(gap);
            let _ = pulses.try_push(pulse);
        }
        pulses
    }
}

// ---- the wire

// The address that a device holds at this place.
fn address(device: &Device, place: usize) -> Option<Addr> {
    match device.held.get(place) {
        None => None,
        Some(held) => Some(Addr::new(*held % 16)),
    }
}

fn seat(rt: &impl Abort, device: &Device) -> Seat {
    let sends = if device.bytes.is_empty() {
        None
    } else {
        Some(Frame::new(&device.bytes).expect(rt, "a frame"))
    };
    Seat {
        plugged: device.plugged,
        holds: [address(device, 0), address(device, 1), None, None],
        sends,
    }
}

// The edges of a round, which is handed each pulse until it has begun, and what it gave.
fn run(rt: &impl Abort, alloc: Global, wire: Driven, pulses: &[Stretch]) -> (Vec<Edge>, Outcome) {
    let mut wire = wire;
    let mut edges = Vec::new(alloc);
    for _edge in 0..400 {
        match wire.edge(rt, pulses) {
            None => return (edges, wire.finish(rt)),
            Some(edge) => {
                let _ = edges.push(edge);
            }
        }
    }
    panic!(rt; "no end")
}

// An instant of a round on the wire.
fn on_wire(at: u64) -> u64 {
    BEGIN.wrapping_add(at)
}

// Its edges in order.
fn edges_of(alloc: Global, line: &[Stretch]) -> Vec<Edge> {
    let mut edges = Vec::new(alloc);
    let mut from = 0;
    for _stretch in line {
        let Some(fall) = first_fall(line, from, u64::MAX) else {
            return edges;
        };
        let rise = first_high(line, fall, u64::MAX).unwrap_or(u64::MAX);
        let _ = edges.push(Edge {
            at: on_wire(fall),
            low: true,
        });
        let _ = edges.push(Edge {
            at: on_wire(rise),
            low: false,
        });
        from = rise;
    }
    edges
}

// The end of the last low stretch that begins by the ending.
fn rest(edges: &[Edge], until: u64) -> u64 {
    let mut rest = 0;
    let mut is_within = true;
    for edge in edges {
        if edge.low {
            is_within = edge.at <= until;
        } else if is_within {
            rest = edge.at;
        }
    }
    rest
}

// Who still sends, and who has stopped, by what was read.
fn senders(devices: &[Device], seen: &Read) -> (ArrayVec<usize, 15>, ArrayVec<Loser, 15>) {
    let mut survivors = ArrayVec::new();
    let mut losers = ArrayVec::new();
    for seat in 0..devices.len() {
        let device = &devices[seat];
        if !device.bytes.is_empty() {
            match seen.out_at(&device.sent()) {
                None => {
                    let _ = survivors.try_push(seat);
                }
                Some(place) => {
                    let slot = place.saturating_add(1);
                    let _ = losers.try_push(Loser { seat, slot });
                }
            }
        }
    }
    (survivors, losers)
}

// What was reported of the seats is what was read.
fn has_senders(outcome: &Outcome, devices: &[Device], seen: &Read) -> bool {
    let (survivors, losers) = senders(devices, seen);
    outcome.survivors.as_slice() == survivors.as_slice()
        && outcome.losers.as_slice() == losers.as_slice()
}

// What was reported of the reading is what was read.
fn has_reading(outcome: &Outcome, seen: &Read) -> bool {
    outcome.reading.begin == BEGIN
        && outcome.reading.at == on_wire(seen.end.at)
        && outcome.reading.ending == seen.end.ending
        && outcome.reading.bits.as_slice() == seen.bits.as_slice()
}

fn seats_of(rt: &impl Abort, devices: &[Device]) -> ArrayVec<Seat, 15> {
    let mut seats = ArrayVec::new();
    for device in devices {
        let _ = seats.try_push(seat(rt, device));
    }
    seats
}

fn handed(pulses: &[Stretch]) -> ArrayVec<Stretch, 3> {
    let mut handed = ArrayVec::new();
    for pulse in pulses {
        let _ = handed.try_push(Stretch {
            from: on_wire(pulse.from),
            to: on_wire(pulse.to),
        });
    }
    handed
}

// A round on the wire, from edge to edge.
fn driven(
    rt: &impl Abort,
    alloc: Global,
    devices: &[Device],
    pulses: &[Stretch],
) -> (Vec<Edge>, Outcome) {
    let wire = Driven::begin(EdgeWire::new(), &seats_of(rt, devices), BEGIN);
    run(rt, alloc, wire, &handed(pulses))
}

// What was reported is right.
fn expect(rt: &impl Abort, right: bool, what: &str) {
    assert!(rt; right, "{what}");
}

// One round on the wire is as it is plainly. Answers how it ended.
fn check_round(rt: &impl Abort, alloc: Global, devices: &[Device], pulses: &[Stretch]) -> Ending {
    let (edges, outcome) = driven(rt, alloc, devices, pulses);
    let (line, seen) = fixed(rt, devices, pulses);
    let expected = edges_of(alloc, &line);
    let rest = rest(&expected, on_wire(seen.end.until));
    expect(rt, edges.as_slice() == expected.as_slice(), "edges");
    expect(rt, has_reading(&outcome, &seen), "reading");
    expect(rt, outcome.rest == rest, "rest");
    expect(rt, has_senders(&outcome, devices, &seen), "senders");
    seen.end.ending
}

#[test]
fn goes_as_it_is_defined(rt: HostRuntime) {
    let mut generator = Generator { state: 1 };
    let (mut complete, mut short, mut silent, mut bad) = (false, false, false, false);
    for _round in 0..ROUNDS {
        let devices = generator.devices();
        let pulses = generator.pulses(anybody_sends(&devices));
        match check_round(&rt, rt.alloc(), &devices, &pulses) {
            Ending::Complete => complete = true,
            Ending::Short => short = true,
            Ending::Silent => silent = true,
            _ => bad = true,
        }
    }
    assert!(rt; complete && short && silent && bad);
}
