//! Laws of the verdict of lines on which frames are sent with the nominal times.
ghost use Rattle.verdict_laws.specs.Frames.{SentFramesArePieces, SentLinesAreFrames};
ghost use Rattle.verdict_laws.specs.Verdicts.{SentLinesAreFine};

/// A frame of whole blocks that is sent with the nominal times (CEC 5.2) is one piece of the wide reading, whatever line follows
/// 6,000 microseconds after the fall of its final bit. No width of it is out of its window, and how it ends has no remark.
pub fn sent_frames_are_pieces()
    ensures { SentFramesArePieces }
{}

/// The pieces of a line on which such frames are sent one after another are those frames, in order, each once.
pub fn sent_lines_are_frames()
    ensures { SentLinesAreFrames }
{}

/// The verdict of a capture with the edges of such a line, whatever its end, is `fine` with each frame in order; `idle` where nobody sends, and
/// `empty` where it takes no time either.
pub fn sent_lines_are_fine()
    ensures { SentLinesAreFine }
{}
