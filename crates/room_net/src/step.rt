//! One round: who contends in it for arbitration (CEC 9), and what it leaves of each device.
ghost use Rattle.std.specs.Prelude.{◌≡◌, not, ◌&&◌, ◌||◌, ◌≤◌, ◌<◌, length, map, All, IsSome, is_some, true};
ghost use Rattle.line_wave.specs.Bounds.{latest_rest};
ghost use Rattle.device_features.specs.Kinds.{is_outside};
ghost use Rattle.device_core.specs.Place.{front_of, is_on_wire};
ghost use Rattle.line_frames.specs.Blocks.{frame_in};
ghost use Rattle.room_net.specs.Start.{contends};
ghost use Rattle.room_net.specs.Sound.{IsReadyBy};
ghost use Rattle.room_net.specs.Step.{seat_of, is_address, holds_one, is_among, followed_unless, after_fate, device_after, is_contended, devices_after, OneStep};

use crate::start::start_of;
use crate::wiring::DEVICES;
use arrayvec::ArrayVec;
use device_core::{Device, Fate};
use line_frames::{Addr, Frame};
use line_rounds::{Outcome, Seat};

/// A round that was run: when it began, and what it gave. Its seats are the devices' numbers.
#[derive(Debug, Drop)]
pub struct RoundReport {
    pub begin: u64,
    pub outcome: Outcome,
}

/// Whether a device contends in the round that begins at `begin`.
fn contends(device: &Device<16>, rest: u64, begin: u64) -> bool
    requires ready { IsReadyBy latest_rest device.now }
    requires rest { rest ≤ latest_rest }
    ensures { result ≡ contends rest begin device.now }
{
    match start_of(device, rest) {
        None => false,
        Some(start) => start == begin,
    }
}

fn is_address(held: &Option<Addr>) -> bool
    ensures { result ≡ is_address held.now }
{
    match held {
        None => false,
        Some(address) => address.value() < Addr::BROADCAST,
    }
}

fn holds_one(device: &Device<16>) -> bool
    ensures { result ≡ holds_one device.now }
{
    device.all_held().iter().any(|held| is_address(held))
}

// Whether a device answers what it hears, where it contends or not. One from outside that holds no address and does not
// contend answers nothing: what its firmware answers, pulls say.
fn answers(device: &Device<16>, contends: bool) -> bool
    ensures { result ≡ (is_on_wire device.now && (not (is_outside device.now.kind) || (holds_one device.now || contends))) }
{
    device.is_on_wire() && (!device.kind().is_outside() || holds_one(device) || contends)
}

fn seat_of(device: &Device<16>, rest: u64, begin: u64) -> Seat
    requires ready { IsReadyBy latest_rest device.now }
    requires rest { rest ≤ latest_rest }
    ensures { result ≡ seat_of rest begin device.now }
{
    let contends = contends(device, rest, begin);
    let sends = if contends { device.queue_front() } else { None };
    Seat {
        plugged: answers(device, contends),
        holds: device.all_held(),
        sends,
    }
}

/// The seats of the round that begins at `begin`.
pub(crate) fn seats_of(devices: &[Device<16>], rest: u64, begin: u64) -> ArrayVec<Seat, DEVICES>
    requires few { length devices.now ≤ 15 }
    requires ready { All (IsReadyBy latest_rest) devices.now }
    requires rest { rest ≤ latest_rest }
    ensures { result.items ≡ map (seat_of rest begin) devices.now }
{
    let mut seats = ArrayVec::new();
    for device in devices {
        seats.push(seat_of(device, rest, begin));
    }
    seats
}

// Whether some device contends.
fn is_contended(devices: &[Device<16>], rest: u64, begin: u64) -> bool
    requires ready { All (IsReadyBy latest_rest) devices.now }
    requires rest { rest ≤ latest_rest }
    ensures { result ≡ is_contended rest begin devices.now }
{
    for device in devices {
        if contends(device, rest, begin) {
            return true;
        }
    }
    false
}

// Whether a frame was sent: some device contends, or a frame was read whole.
fn is_sent(devices: &[Device<16>], rest: u64, begin: u64, frame: &Option<Frame>) -> bool
    requires ready { All (IsReadyBy latest_rest) devices.now }
    requires rest { rest ≤ latest_rest }
    ensures { result ≡ (is_contended rest begin devices.now || is_some frame.now) }
{
    is_contended(devices, rest, begin) || frame.is_some()
}

fn is_among(seats: &[usize], seat: usize) -> bool
    ensures { result ≡ is_among seats.now seat }
{
    seats.iter().any(|other| *other == seat)
}

// Who was not still sending follows a frame that was read whole.
fn follow(device: &mut Device<16>, frame: &Option<Frame>, sends: bool, at: u64)
    ensures { device.new ≡ followed_unless sends frame.now at device.old }
{
    if let Some(frame) = frame {
        if !sends {
            device.follow(frame, at);
        }
    }
}

// Who contended learns what became of its frame; where a frame was sent by others, who did not has waited.
fn inform(device: &mut Device<16>, own: bool, others: bool, fate: Fate, at: u64)
    requires { own ≡ true → IsSome (front_of device.old) }
    ensures { device.new ≡ after_fate own others fate at device.old }
{
    if own {
        device.sent(fate, at);
    } else if others {
        device.waited();
    }
}

// What a round does to a device, where `frame` is the one that was read whole.
fn end_at(
    device: &mut Device<16>,
    own: bool,
    others: bool,
    outcome: &Outcome,
    frame: &Option<Frame>,
    number: usize,
)
    requires contends { own ≡ true → IsSome (front_of device.old) }
    requires frame { frame.now ≡ frame_in outcome.now.reading }
    ensures { device.new ≡ device_after own others outcome.now number device.old }
{
    if !device.is_on_wire() {
        return;
    }
    let close = outcome.close();
    let sends = is_among(&outcome.survivors, number);
    follow(device, frame, sends, close);
    inform(device, own, others, outcome.fate(number), close);
}

/// Lets each device follow the frame that was read, and then learn what became of its own.
pub(crate) fn end_round(devices: &mut [Device<16>], rest: u64, begin: u64, outcome: &Outcome)
    requires ready { All (IsReadyBy latest_rest) devices.old }
    requires rest { rest ≤ latest_rest }
    ensures { devices.new ≡ devices_after rest begin outcome.now devices.old }
{
    let frame = outcome.reading.frame();
    let others = is_sent(devices, rest, begin, &frame);
    for number in 0..devices.len() {
        let device = &mut devices[number];
        let own = contends(device, rest, begin);
        end_at(device, own, others, outcome, &frame, number);
    }
}

/// The next round is the same, and leads to the same state, over whichever wire it is run.
pub fn one_step()
    ensures { OneStep }
{}
