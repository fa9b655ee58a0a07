//! Keys of a device that are pressed or released.
ghost use Rattle.std.specs.Prelude.{◌≡◌, Some, None, MatchResult};
ghost use Rattle.device_core.specs.Keys.{own_doing, key_fault, after_key};

use crate::device::Device;
use crate::place::Place;
use device_features::{Heard, Key, has_key};
use line_frames::Addr;
use thiserror::Error;

/// Why a key is refused, or what a device from outside is told.
#[derive(Clone, Copy, Debug, Drop, PartialEq, Eq, Error)]
pub enum KeyError {
    #[error("the device has no such key")]
    NotForKind,
    #[error("the device is off the wire")]
    OffWire,
}

// What it does by itself answers no frame.
fn own_doing(at: u64) -> Heard
    ensures { result ≡ own_doing at }
{
    Heard {
        from: Addr::new(15),
        to: Addr::new(15),
        opcode: 0,
        first: 0,
        at,
    }
}

impl<const Q: usize> Device<Q> {
    /// A key is pressed or released, at `at` microseconds. It is refused with `OffWire`, and then with
    /// `NotForKind` where the device has no such key. A refusal changes nothing.
    pub fn key(&mut self, key: Key, press: bool, at: u64) -> Result<(), KeyError>
        ensures answer { MatchResult result (λ _. key_fault self.old key ≡ None) (λ fault. key_fault self.old key ≡ Some fault) }
        ensures state { self.new ≡ after_key Q self.old key press at }
    {
        if self.place == Place::Off {
            return Err(KeyError::OffWire);
        }
        if !has_key(self.kind, self.ports, &key) {
            return Err(KeyError::NotForKind);
        }
        let me = self.identity();
        let says = if press {
            self.record.press_key(me, key)
        } else {
            self.record.release_key(self.kind, &key)
        };
        self.say_all(&own_doing(at), says.as_slice());
        Ok(())
    }
}
