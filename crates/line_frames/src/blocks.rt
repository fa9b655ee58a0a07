//! The frame of a reading.
ghost use Rattle.std.specs.Prelude.{◌≡◌, ◌+◌, ◌*◌, ◌≤◌, ◌++◌, length};
ghost use Rattle.line_frames.specs.Blocks.{bit_value, bytes_of, frame_in};
ghost use Rattle.line_frames.specs.Bits.{most_bits};

use crate::{Ending, Frame, Reading};
use arrayvec::ArrayVec;

fn bit_value(weight: u8, bit: bool) -> u8
    ensures value { result ≡ bit_value weight bit }
    ensures within { result ≤ weight }
{
    if bit { weight } else { 0 }
}

// The bytes of the blocks that were read.
fn push_bytes(bits: &[bool], bytes: &mut ArrayVec<u8, 16>)
    requires { length bits.now + 10 * length bytes.old.items ≤ most_bits }
    ensures { bytes.new.items ≡ bytes.old.items ++ bytes_of bits.now }
{
    let [a, b, c, d, e, f, g, h, _last, _ack, bits @ ..] = bits else {
        return;
    };
    let high = bit_value(128, *a) + bit_value(64, *b) + bit_value(32, *c) + bit_value(16, *d);
    let low = bit_value(8, *e) + bit_value(4, *f) + bit_value(2, *g) + bit_value(1, *h);
    bytes.push(high + low);
    push_bytes(bits, bytes);
}

impl Reading {
    /// The frame that was read, where the reading is Complete.
    pub fn frame(&self) -> Option<Frame>
        ensures { result ≡ frame_in self.now }
    {
        if self.ending != Ending::Complete {
            return None;
        }
        let mut bytes = ArrayVec::new();
        push_bytes(&self.bits, &mut bytes);
        Frame::new(&bytes).ok()
    }
}
