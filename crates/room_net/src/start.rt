//! When devices start to send: the signal free time (CEC 9.1).
ghost use Rattle.std.specs.Prelude.{◌≡◌, ◌+◌, ◌≤◌, ◌<◌, All};
ghost use Rattle.line_wave.specs.Bounds.{latest_rest, latest_heard};
ghost use Rattle.room_net.specs.Start.{next_turn, start_of, sooner, least_start, first_onset, StartIsLeast};
ghost use Rattle.room_net.specs.Sound.{IsReadyBy};

use device_core::Device;
use line_wave::Stretch;

/// The turns of allocation: a device starts a poll of its own in one of sixteen microseconds.
const TURNS: u64 = 16;

// The first instant from `at` on whose remainder by 16 is the number.
fn next_turn(number: u8, at: u64) -> u64
    requires { at ≤ latest_heard }
    ensures { result ≡ next_turn number at }
{
    at + (u64::from(number) + TURNS - at % TURNS) % TURNS
}

/// The instant at which a device starts, where the line is high since `rest`. A device that is off the wire,
/// or has nothing to send, has none.
pub(crate) fn start_of(device: &Device<16>, rest: u64) -> Option<u64>
    requires ready { IsReadyBy latest_rest device.now }
    requires rest { rest ≤ latest_rest }
    ensures { result ≡ start_of rest device.now }
{
    if !device.is_on_wire() {
        return None;
    }
    let ready = device.ready_at()?;
    let earliest = ready.max(rest + device.class().micros());
    if device.is_allocating() {
        Some(next_turn(device.number(), earliest))
    } else {
        Some(earliest)
    }
}

/// The lesser of two instants, where there are two.
pub(crate) fn sooner(one: Option<u64>, other: Option<u64>) -> Option<u64>
    ensures { result ≡ sooner one other }
{
    match (one, other) {
        (None, other) => other,
        (Some(one), None) => Some(one),
        (Some(one), Some(other)) => Some(one.min(other)),
    }
}

/// The least start instant of these devices.
pub(crate) fn least_start(devices: &[Device<16>], rest: u64) -> Option<u64>
    requires ready { All (IsReadyBy latest_rest) devices.now }
    requires rest { rest ≤ latest_rest }
    ensures { result ≡ least_start rest devices.now }
{
    match devices.split_first() {
        None => None,
        Some((device, devices)) => sooner(start_of(device, rest), least_start(devices, rest)),
    }
}

/// The onset of the next pulse.
pub(crate) fn first_onset(pulses: &[Stretch]) -> Option<u64>
    ensures { result ≡ first_onset pulses.now }
{
    pulses.first().map(|pulse| pulse.from)
}

/// A device starts as soon as it may, and one that has no start instant never may.
pub fn start_is_least()
    ensures { StartIsLeast }
{}
