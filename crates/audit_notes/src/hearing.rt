//! What hears the lines of an audit, or of readings, one after another.

use crate::note::AuditNote;
use crate::reading::ReadingGroup;
use line_frames::Reading;

/// What hears lines one after another: it writes them, counts them or keeps them.
pub trait LineHearer {
    ghost use Rattle.std.specs.Prelude.{[], ◌∷◌, ◌++◌, List};
    ghost use Rattle.line_reading.specs.Reports.{listed_as};
    ghost use Rattle.audit_notes.specs.Lines.{AuditLine};

    /// What it is after these lines.
    ghost hears: { Self → List AuditLine → Self → Type 0 };

    /// Hears a reading.
    fn reading(&mut self, reading: &Reading)
        ensures { hears self.old (AuditLine.Reading (listed_as reading.now) ∷ []) self.new };

    /// Hears a line that stands for several readings.
    fn group(&mut self, group: ReadingGroup)
        ensures { hears self.old (AuditLine.Group group ∷ []) self.new };

    /// Hears what the standard calls what a reading leaves as bytes.
    fn word(&mut self, word: &str)
        ensures { hears self.old (AuditLine.Word word.now ∷ []) self.new };

    /// Hears what else is said.
    fn note(&mut self, note: AuditNote)
        ensures { hears self.old (AuditLine.Note note ∷ []) self.new };

    /// Without lines it stays.
    ghost nothing: { (a : Self) → hears a [] a };

    /// Lines after lines.
    ghost then: { (a b c : Self) (xs ys : List AuditLine) → hears a xs b → hears b ys c → hears a (xs ++ ys) c };
}
