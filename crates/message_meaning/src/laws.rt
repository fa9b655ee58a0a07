//! Laws of the sentences, and of the records.
ghost use Rattle.message_meaning.specs.Laws.{FrameLines, FramesAreReadBack, MeaningLines, MeaningsAreReadBack};
ghost use Rattle.message_meaning.specs.Named.{NamedOpcodesHaveSentences};

/// Each opcode with a name has a sentence, and no other one.
pub fn named_opcodes_have_sentences()
    ensures { NamedOpcodesHaveSentences }
{}

/// The line of a frame's record is its text, and that of what it means is its meaning.
pub fn records_have_the_lines()
    ensures frames { FrameLines }
    ensures meanings { MeaningLines }
{}

/// In an object of JSON stands the line that is written without objects.
pub fn objects_have_the_lines()
    ensures frames { FramesAreReadBack }
    ensures meanings { MeaningsAreReadBack }
{}
