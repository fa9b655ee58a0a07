//! Laws of frames.
ghost use Rattle.line_frames.specs.Arbitration.{AcksDecideNothing, SameWinners};
ghost use Rattle.line_frames.specs.Bits.{AcknowledgeSlots, EndOfMessageSlots, TenSlotsABlock};
ghost use Rattle.line_frames.specs.Blocks.{FramesAreRead, OwnBitsAreRead};

/// Arbitration (CEC 9) goes by all slots but the acknowledge slots: these decide nothing. With them left out, frames come
/// in the same order, and the same ones win.
pub fn acknowledge_slots_decide_nothing()
    ensures order { AcksDecideNothing }
    ensures winners { SameWinners }
{}

/// The bytes of a frame's bits are that frame, whatever its acknowledge slots were read as.
pub fn frames_are_read()
    ensures own { OwnBitsAreRead }
    ensures read { FramesAreRead }
{}

/// A frame has ten slots for each block: slot k, from 1, is place (k - 1) % 10 of block (k - 1) / 10. The ninth place of a
/// block is its end-of-message bit, which is 1 in the last block, and the tenth its acknowledge bit, sent as 1 (CEC 6).
pub fn slots_have_their_places()
    ensures count { TenSlotsABlock }
    ensures end_of_message { EndOfMessageSlots }
    ensures acknowledge { AcknowledgeSlots }
{}
