//! Names in the header block of a frame that is handed in.
ghost use Rattle.std.specs.Prelude.{◌≡◌, ◌<◌, length, IfSome};
ghost use Rattle.device_core.specs.State.{held_by};
ghost use Rattle.room_event.specs.Events.{AreNamed};
ghost use Rattle.room_net.specs.Apply.{first_of, address_for, named_frame, nameless};

use device_core::{Device, SubmitError, frame_of};
use line_frames::{Addr, Frame};
use room_event::HeaderNames;

// The first address below 15.
fn first_of(held: &[Option<Addr>]) -> Option<Addr>
    ensures { result ≡ first_of held.now }
{
    let [first, others @ ..] = held else {
        return None;
    };
    match first {
        Some(address) if address.value() < Addr::BROADCAST => *first,
        _ => first_of(others),
    }
}

fn held_first(device: &Device<16>) -> Option<Addr>
    ensures { result ≡ first_of (held_by device.now) }
{
    first_of(&device.all_held())
}

// The address that stands for a name, the first one that its device holds. Where there is no name, the frame's own.
fn address_for(devices: &[Device<16>], name: Option<usize>, own: Addr) -> Option<Addr>
    requires { IfSome name (λ number. number < length devices.now) }
    ensures { result ≡ address_for devices.now name own }
{
    match name {
        None => Some(own),
        Some(number) => held_first(&devices[number]),
    }
}

/// The frame with addresses in its header block for the names. There is none where a device of a name holds no address.
pub(crate) fn named_frame(
    devices: &[Device<16>],
    names: HeaderNames,
    frame: &Frame,
) -> Option<Frame>
    requires { AreNamed (length devices.now) names }
    ensures { result ≡ named_frame devices.now names frame.now }
{
    let Some(from) = address_for(devices, names.initiator, frame.initiator()) else {
        return None;
    };
    let Some(to) = address_for(devices, names.destination, frame.destination()) else {
        return None;
    };
    let (_header, rest) = frame.bytes().split_at(1);
    Some(frame_of(from, to, rest))
}

/// Why a device can't send a frame with a name that stands for no address.
pub(crate) fn nameless(device: &Device<16>) -> SubmitError
    ensures { result ≡ nameless device.now }
{
    if device.is_on_wire() {
        SubmitError::NoAddress
    } else {
        SubmitError::OffWire
    }
}
