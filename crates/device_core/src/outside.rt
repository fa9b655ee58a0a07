//! What a device from outside is told.
ghost use Rattle.std.specs.Prelude.{◌≡◌, Some, None, MatchResult};
ghost use Rattle.device_core.specs.Outside.{act_fault, after_act, acted_by, class_after_drop};

use crate::device::Device;
use crate::keys::KeyError;
use crate::place::Place;
use arrayvec::ArrayVec;
use line_frames::{Addr, FreeTime};

/// What a device from outside holds beside the addresses that a device of two units may hold.
#[derive(Clone, Copy, Debug, PartialEq, Eq)]
pub struct MoreHeld {
    pub third: Option<Addr>,
    pub fourth: Option<Addr>,
}

/// What the driver of a device from outside makes it do.
#[derive(Clone, Copy)]
pub enum Act {
    /// It holds these addresses from now on. 15 is none.
    Hold {
        first: Addr,
        second: Option<Addr>,
        more: MoreHeld,
    },
    /// It drops what it has to send.
    Empty,
}

fn class_after_drop(class: FreeTime) -> FreeTime
    ensures { result ≡ class_after_drop class }
{
    match class {
        FreeTime::Retry => FreeTime::PresentInitiator,
        class => class,
    }
}

impl<const Q: usize> Device<Q> {
    // Does what it is told.
    fn take(&mut self, act: Act)
        ensures { self.new ≡ acted_by self.old None act }
    {
        match act {
            Act::Hold {
                first,
                second,
                more,
            } => {
                self.place = Place::Settled { first, second };
                self.more = more;
            }
            Act::Empty => {
                self.queue = ArrayVec::new();
                self.attempts = 0;
                self.class = class_after_drop(self.class);
            }
        }
    }

    /// It holds other addresses, or drops what it has queued. It is refused with `OffWire`, and then with `NotForKind`
    /// where the device is not from outside. A refusal changes nothing.
    pub fn act(&mut self, act: Act) -> Result<(), KeyError>
        ensures answer { MatchResult result (λ _. act_fault self.old ≡ None) (λ fault. act_fault self.old ≡ Some fault) }
        ensures state { self.new ≡ after_act self.old act }
    {
        if self.place == Place::Off {
            return Err(KeyError::OffWire);
        }
        if !self.kind.is_outside() {
            return Err(KeyError::NotForKind);
        }
        self.take(act);
        Ok(())
    }
}
