//! Frames that a device follows.
ghost use Rattle.std.specs.Prelude.{◌≡◌};
ghost use Rattle.message_table.specs.Table.{decoded_of};
ghost use Rattle.device_features.specs.Effects.{heard_of};
ghost use Rattle.device_core.specs.Effects.{by_decoded, after_frame, is_for};

use crate::device::Device;
use device_features::{Heard, Identity, refuse};
use line_frames::{Addr, Frame};
use message_table::{Decoded, Reason, decode, rule};

fn heard_of(header: u8, opcode: u8, operands: &[u8], at: u64) -> Heard
    ensures { result ≡ heard_of header opcode operands.now at }
{
    Heard {
        from: Addr::new(header / 16),
        to: Addr::new(header % 16),
        opcode,
        first: match operands {
            [first, ..] => *first,
            [] => 0,
        },
        at,
    }
}

impl<const Q: usize> Device<Q> {
    /// What it is, as the tables go by it.
    pub(crate) fn identity(&self) -> Identity
        ensures { result ≡ record { kind = self.now.kind; phys = self.now.phys; ports = self.now.ports } }
    {
        Identity {
            kind: self.kind,
            phys: self.phys,
            ports: self.ports,
        }
    }

    // A directly addressed frame is followed by who holds its destination, a broadcast by all, and each only as the opcode
    // may go. A device from outside follows none.
    fn is_for(&self, to: Addr, opcode: u8) -> bool
        ensures { result ≡ is_for self.now to opcode }
    {
        if self.kind.is_outside() {
            return false;
        }
        let rule = rule(opcode);
        if to.value() == 15 {
            rule.broadcast
        } else {
            rule.direct && self.holds(to)
        }
    }

    // Too few operands are ignored, and an opcode with no name is refused.
    fn obey(&mut self, heard: &Heard, frame: &Frame)
        ensures { self.new ≡ by_decoded Q heard.now self.old (decoded_of frame.now) }
    {
        let me = self.identity();
        match decode(frame) {
            Decoded::Known(message) => {
                let says = self.record.obey(me, self.name.as_slice(), heard, &message);
                self.say_all(heard, says.as_slice());
            }
            Decoded::Unknown(_) => {
                let says = refuse(Reason::Unrecognized);
                self.say_all(heard, says.as_slice());
            }
            Decoded::Poll | Decoded::Short(_) => {}
        }
    }

    /// Follows a frame that came whole, by the opcode table, at `at` microseconds: a direct one where it holds
    /// the destination, and a broadcast. What it answers is ready at that time.
    pub fn follow(&mut self, frame: &Frame, at: u64)
        ensures { self.new ≡ after_frame Q self.old frame.now at }
    {
        let [header, opcode, operands @ ..] = frame.bytes() else {
            return;
        };
        let heard = heard_of(*header, *opcode, operands, at);
        if !self.is_for(heard.to, *opcode) {
            return;
        }
        self.obey(&heard, frame);
    }
}
