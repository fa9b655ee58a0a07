//! What became of a frame that was sent.
ghost use Rattle.std.specs.Prelude.{◌≡◌, Some, None};
ghost use Rattle.line_reading.specs.Parts.{ArePartsOfSender};
ghost use Rattle.line_reading.specs.declared.sender.Sender.{Sender as SenderValue};
ghost use Rattle.line_frames.specs.declared.Reading.{Reading as ReadingValue};
ghost use Rattle.line_rounds.specs.Round.{fate_by};
ghost use Rattle.library_answers.specs.declared.code.Code.TheVariants.{State};
ghost use Rattle.library_wire.specs.Fate.{fate_code, fate_number, fate_reported, fate_stopped, known_fate};
ghost use Rattle.library_wire.specs.Readings.{reading_in};
ghost use Rattle.library_wire.specs.Sender.{IsNoSender};

use crate::readings::{ReadingParts, reading_in};
use arrayvec::ArrayVec;
use library_answers::Code;
use line_frames::{Ending, Fate, Reading};
use line_reading::{Sender, SenderParts, SenderState};
use line_rounds::{Loser, Outcome};
use line_wave::Wave;

/// What became of a sender's frame.
#[repr(C)]
#[derive(Clone, Copy, Debug, PartialEq, Eq)]
pub struct SentFate {
    /// The number of a `Code`: 0 where it is known.
    pub code: u32,
    /// 1 delivered, 2 not acknowledged or refused, 3 lost to another initiator, 4 broken; 0 where it is not known.
    pub fate: u8,
}

fn fate_number(fate: Fate) -> u8
    ensures { result ≡ fate_number fate }
{
    match fate {
        Fate::Delivered => 1,
        Fate::Unacked => 2,
        Fate::Lost => 3,
        Fate::Broken => 4,
    }
}

fn known_fate(fate: Fate) -> SentFate
    ensures { result ≡ known_fate fate }
{
    SentFate {
        code: Code::Done.number(),
        fate: fate_number(fate),
    }
}

fn fate_refused(code: Code) -> SentFate
    ensures { result ≡ fate_code code }
{
    SentFate {
        code: code.number(),
        fate: 0,
    }
}

// The fate in a round that gave this reading and in which one seat sends, which was out at this slot, if it was.
fn fate_by(reading: Reading, out: Option<usize>) -> Fate
    ensures { result ≡ fate_by reading.ending reading.bits.items out }
{
    let mut losers = ArrayVec::new();
    if let Some(slot) = out {
        losers.push(Loser { seat: 0, slot });
    }
    let outcome = Outcome {
        reading,
        survivors: ArrayVec::new(),
        losers,
        rest: 0,
        wave: Wave::new(),
    };
    outcome.fate(0)
}

// The fate of a sender that stopped when this reading ended.
fn fate_stopped(reading: Reading) -> SentFate
    ensures { result ≡ fate_stopped reading.ending reading }
{
    match reading.ending {
        Ending::Open => fate_refused(Code::Absent),
        _ => known_fate(fate_by(reading, None)),
    }
}

fn fate_reported(state: SenderState, reading: Reading) -> SentFate
    ensures { result ≡ fate_reported state reading }
{
    match state {
        SenderState::Sending => fate_refused(Code::Absent),
        SenderState::Out(slot) => known_fate(fate_by(reading, Some(slot))),
        SenderState::Stopped => fate_stopped(reading),
    }
}

/// What became of the frame of a sender that has stopped, by the reading that it began (CEC 9).
///
/// Refused where the state is no sender's, then where the numbers are no reading's, and absent where it sends still or the
/// reading has not ended.
pub fn sender_fate(sender: &SenderParts, reading: &ReadingParts) -> SentFate
    ensures reported { (s : SenderValue) → (r : ReadingValue) → ArePartsOfSender s sender.now → reading_in reading.now ≡ Some r → result ≡ fate_reported s.state r }
    ensures spoilt { IsNoSender sender.now → result ≡ fate_code State }
    ensures nothing { (s : SenderValue) → ArePartsOfSender s sender.now → reading_in reading.now ≡ None → result ≡ fate_code State }
{
    let Some(sender) = Sender::of_parts(sender) else {
        return fate_refused(Code::State);
    };
    let Some(reading) = reading_in(reading) else {
        return fate_refused(Code::State);
    };
    fate_reported(sender.state(), reading)
}
