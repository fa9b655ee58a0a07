//! Laws of frames in hex.
ghost use Rattle.message_hex.specs.Spelling.{AssembledFramesAreRead, SpellingsAreRead};

/// What is read of a text is what it spells by the grammar of bytes in hex, and nothing else: parts one after another, each a
/// mark, two digits, or `0x` and two digits. All spellings of the same bytes are read alike.
pub fn spellings_are_read()
    ensures { SpellingsAreRead }
{}

/// The hex that `asm_lines` writes of a frame is read as the bytes of that frame.
pub fn assembled_frames_are_read()
    ensures { AssembledFramesAreRead }
{}
