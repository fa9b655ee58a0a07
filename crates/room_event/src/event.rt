//! What happens to the network from outside.
use device_core::{Act, KeyError, SubmitError, Ticket};
use device_features::Key;
use edid_tree::{PlugError, UnplugError};
use line_frames::Frame;

/// The devices whose names stand in the header of a frame that is handed in, each by its number. Where there is none, the frame's
/// own digit counts.
#[derive(Clone, Copy, Debug, PartialEq, Eq)]
pub struct HeaderNames {
    pub initiator: Option<usize>,
    pub destination: Option<usize>,
}

/// An event of a script. Devices go by their numbers.
#[derive(Drop)]
pub enum Event {
    /// A device is plugged into a port of another one.
    Plug {
        child: usize,
        parent: usize,
        port: u8,
    },
    /// A device is unplugged.
    Unplug {
        child: usize,
    },
    /// A key is pressed or released.
    Key {
        device: usize,
        key: Key,
        press: bool,
    },
    /// A device is given a frame to send.
    Send {
        device: usize,
        frame: Frame,
        ticket: Ticket,
    },
    /// A device is given a frame to send in whose header names stand for addresses: for each the first address that the device of
    /// that name holds when the event is applied.
    SendNamed {
        device: usize,
        names: HeaderNames,
        frame: Frame,
        ticket: Ticket,
    },
    /// A device from outside is told what it holds, or to drop what it has to send.
    Outside {
        device: usize,
        act: Act,
    },
}

impl Event {
    ghost use Rattle.std.specs.Prelude.{◌≡◌};

    /// The same event again.
    pub fn copy(&self) -> Self
        ensures { result ≡ self.now }
    {
        match self {
            Event::Plug {
                child,
                parent,
                port,
            } => Event::Plug {
                child: *child,
                parent: *parent,
                port: *port,
            },
            Event::Unplug { child } => Event::Unplug { child: *child },
            Event::Key { device, key, press } => Event::Key {
                device: *device,
                key: *key,
                press: *press,
            },
            Event::Send {
                device,
                frame,
                ticket,
            } => Event::Send {
                device: *device,
                frame: frame.copy(),
                ticket: *ticket,
            },
            Event::SendNamed {
                device,
                names,
                frame,
                ticket,
            } => Event::SendNamed {
                device: *device,
                names: *names,
                frame: frame.copy(),
                ticket: *ticket,
            },
            Event::Outside { device, act } => Event::Outside {
                device: *device,
                act: *act,
            },
        }
    }
}

/// Why an event is refused. What a device from outside is told is refused as a key is. A frame with names is refused as one
/// without, and with `NoAddress` where a device of a name holds no address.
#[derive(Clone, Copy, PartialEq, Eq)]
pub enum EventError {
    Plug(PlugError),
    Unplug(UnplugError),
    Key(KeyError),
    Send(SubmitError),
}

impl From<PlugError> for EventError {
    ghost use Rattle.std.specs.Prelude.{◌≡◌};
    ghost use Rattle.room_event.specs.declared.event.EventError.TheVariants.{Plug};

    ghost from_gives = { λ error given. given ≡ Plug error };

    fn from(error: PlugError) -> Self {
        EventError::Plug(error)
    }
}

impl From<UnplugError> for EventError {
    ghost use Rattle.std.specs.Prelude.{◌≡◌};
    ghost use Rattle.room_event.specs.declared.event.EventError.TheVariants.{Unplug};

    ghost from_gives = { λ error given. given ≡ Unplug error };

    fn from(error: UnplugError) -> Self {
        EventError::Unplug(error)
    }
}

impl From<KeyError> for EventError {
    ghost use Rattle.std.specs.Prelude.{◌≡◌};
    ghost use Rattle.room_event.specs.declared.event.EventError.TheVariants.{Key};

    ghost from_gives = { λ error given. given ≡ Key error };

    fn from(error: KeyError) -> Self {
        EventError::Key(error)
    }
}

impl From<SubmitError> for EventError {
    ghost use Rattle.std.specs.Prelude.{◌≡◌};
    ghost use Rattle.room_event.specs.declared.event.EventError.TheVariants.{Send};

    ghost from_gives = { λ error given. given ≡ Send error };

    fn from(error: SubmitError) -> Self {
        EventError::Send(error)
    }
}
