//! Names.
ghost use Rattle.std.specs.Prelude.{◌≡◌, ◌≤◌, ◌%◌, length};
ghost use Rattle.room_named.specs.Names.{bit_text, lead_text, said_text};

use arrayvec::ArrayVec;
use line_frames::{Ending, Reading};
use message_text::{reading_reported, reading_verdict};

/// The bits of a block (CEC 6.1).
const BLOCK: u8 = 10;

fn lead(ending: Ending) -> &'static str
    ensures text { result.now ≡ lead_text ending }
    ensures short { length result.now ≤ 10 }
{
    match ending {
        Ending::Complete => "",
        Ending::Short => "short ",
        Ending::Silent => "silent ",
        Ending::BadStart => "bad-start ",
        Ending::Long => "long ",
        Ending::Open => "open ",
    }
}

/// What is read in a round: of a complete reading its frame and whether it was taken, of another one how it ended and its bits.
#[tactic(auto, using(crate::proofs::Short::verdict_short))]
pub fn said_text(reading: &Reading) -> ArrayVec<u8, 200>
    ensures { result.items ≡ said_text reading.now }
{
    let mut text = ArrayVec::new();
    let _ = text.try_extend_from_slice(lead(reading.ending).as_bytes());
    let _ = text.try_extend_from_slice(&reading_reported(reading));
    let _ = text.try_extend_from_slice(reading_verdict(reading).as_bytes());
    text
}

/// The name of a bit by its number in the reading, from 0.
pub(crate) fn bit_name(number: u8, bit: bool) -> &'static str
    ensures { result.now ≡ bit_text number bit }
{
    match (number % BLOCK, bit) {
        (8, false) => "EOM=0",
        (8, true) => "EOM=1",
        (9, false) => "ACK=0",
        (9, true) => "ACK=1",
        (_, false) => "0",
        (_, true) => "1",
    }
}
