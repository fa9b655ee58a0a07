//! Who drives the slots of a frame.
ghost use Rattle.std.specs.Prelude.{◌≡◌};
ghost use Rattle.capture_replay.specs.Sides.{nobody, sides_by, sides_of, taker_by};

use audit_judged::{destination_of, initiator_of};
use audit_pieces::Slot;
use line_frames::Addr;

/// Who sends a frame, and who alone acknowledges it, by their addresses, where the line tells.
#[derive(Clone, Copy)]
pub(crate) struct Sides {
    pub(crate) sender: Option<u8>,
    pub(crate) taker: Option<u8>,
}

// Nobody is known.
fn nobody() -> Sides
    ensures { result ≡ nobody }
{
    Sides {
        sender: None,
        taker: None,
    }
}

// A broadcast is acknowledged by all. A poll of the sender's own address is acknowledged by who has it already.
fn taker_by(from: u8, to: u8) -> Option<u8>
    ensures { result ≡ taker_by from to }
{
    if to == Addr::BROADCAST || to == from {
        None
    } else {
        Some(to)
    }
}

fn sides_by(from: Option<u8>, to: Option<u8>) -> Sides
    ensures { result ≡ sides_by from to }
{
    match from {
        None => nobody(),
        Some(from) => match to {
            None => nobody(),
            Some(to) => Sides {
                sender: Some(from),
                taker: taker_by(from, to),
            },
        },
    }
}

/// Those of a frame with these slots.
pub(crate) fn sides_of(slots: &[Slot]) -> Sides
    ensures { result ≡ sides_of slots.now }
{
    sides_by(initiator_of(slots), destination_of(slots))
}
