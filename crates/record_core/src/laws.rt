//! Laws of records.
ghost use Rattle.record_core.specs.Records.{LinesHaveParts};
ghost use Rattle.record_core.specs.ReadBack.{LinesAreReadBack, OneLineAnObject};

/// The line of a record is read back from its object.
pub fn lines_are_read_back()
    ensures { LinesAreReadBack }
{}

/// Two records with one object have one line.
pub fn one_line_an_object()
    ensures { OneLineAnObject }
{}

/// The line of cells is what stands before each word, and the word, one after another.
pub fn lines_have_parts()
    ensures { LinesHaveParts }
{}
