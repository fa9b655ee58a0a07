//! The numbers of what is wrong with frames, their texts and EDIDs.
ghost use Rattle.std.specs.Prelude.{◌≡◌};
ghost use Rattle.library_answers.specs.Faults.{edid_code, ext_code, frame_code, text_code};

use crate::code::Code;
use edid_base::BaseError;
use edid_core::EdidError;
use line_frames::FrameError;
use message_text::AssembleError;

/// Why bytes are no frame.
pub fn frame_code(error: FrameError) -> Code
    ensures { result ≡ frame_code error }
{
    match error {
        FrameError::Empty => Code::FrameEmpty,
        FrameError::TooLong => Code::FrameTooLong,
    }
}

/// Why a text is no frame's.
pub fn text_code(error: AssembleError) -> Code
    ensures { result ≡ text_code error }
{
    match error {
        AssembleError::Name => Code::TextName,
        AssembleError::Operand => Code::TextOperand,
        AssembleError::Count => Code::TextCount,
        AssembleError::Address => Code::TextAddress,
        AssembleError::TooLong => Code::TextTooLong,
    }
}

// The sum of an extension is wrong.
fn ext_code(number: u8) -> Code
    ensures { result ≡ ext_code number }
{
    match number {
        1 => Code::EdidFirst,
        2 => Code::EdidSecond,
        _ => Code::EdidThird,
    }
}

/// Why bytes are no EDID.
pub fn edid_code(error: EdidError) -> Code
    ensures { result ≡ edid_code error }
{
    match error {
        EdidError::Length => Code::EdidLength,
        EdidError::Count => Code::EdidCount,
        EdidError::Base(BaseError::Header) => Code::EdidHeader,
        EdidError::Base(BaseError::Checksum) => Code::EdidChecksum,
        EdidError::Base(BaseError::Revision) => Code::EdidRevision,
        EdidError::Base(BaseError::Maker) => Code::EdidMaker,
        EdidError::Ext(number, _) => ext_code(number),
    }
}
