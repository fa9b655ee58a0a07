//! A law of texts of lines.
ghost use Rattle.std.specs.Prelude.{◌≡◌, All, List, ℕ};
ghost use Rattle.text_core.specs.Lines.{lines_of};
ghost use Rattle.live_incoming.specs.Incoming.{IsWhole, text_of_lines};

/// The lines of a text of lines are those lines, where none of them has an end in it.
pub fn texts_of_lines_have_those_lines()
    ensures { (lines : List (List ℕ)) → All IsWhole lines → lines_of (text_of_lines lines) ≡ lines }
{}
