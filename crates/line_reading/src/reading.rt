//! What the bits of a reading say.
ghost use Rattle.std.specs.Prelude.{◌≡◌, ◌≤◌, length};
ghost use Rattle.line_frames.specs.Bits.{most_bits};
ghost use Rattle.line_reading.specs.Reading.{last_ending};
ghost use Rattle.line_reading.specs.Sending.{destination};

use arrayvec::ArrayVec;
use line_frames::{Ending, MOST_BITS};

/// A copy of the bits of a reading.
pub fn copied_bits(bits: &[bool]) -> ArrayVec<bool, MOST_BITS>
    requires { length bits.now ≤ most_bits }
    ensures { result.items ≡ bits.now }
{
    match ArrayVec::try_from(bits) {
        Ok(copy) => copy,
        Err(_) => unreachable!(),
    }
}

/// The destination of a frame, in slots 5 to 8 (CEC 6.1).
pub fn destination(bits: &[bool]) -> u8
    requires { 8 ≤ length bits.now }
    ensures { result ≡ destination bits.now }
{
    8 * u8::from(bits[4]) + 4 * u8::from(bits[5]) + 2 * u8::from(bits[6]) + u8::from(bits[7])
}

/// How the slot after these bits ends the reading where nothing breaks it, if it is a last one: the
/// acknowledge slot of a block whose end-of-message bit was read 1 (CEC 6.1), or slot 160.
pub(crate) fn ending_of(bits: &[bool]) -> Option<Ending>
    ensures { result ≡ last_ending bits.now }
{
    if bits.len() % 10 != 9 {
        None
    } else if bits[bits.len() - 1] {
        Some(Ending::Complete)
    } else if bits.len() == 159 {
        Some(Ending::Long)
    } else {
        None
    }
}
