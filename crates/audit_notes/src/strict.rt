//! Whether a line says that the standard has something otherwise.

use crate::hearing::LineHearer;
use crate::note::AuditNote;
use crate::reading::ReadingGroup;
use line_frames::Reading;

/// What hears lines and notes whether one of them is a remark.
#[derive(Drop)]
pub struct Strict<H> {
    pub hearer: H,
    pub remarked: bool,
}

impl<H: LineHearer> LineHearer for Strict<H> {
    ghost use Rattle.std.specs.Prelude.{◌≡◌, ◌||◌};
    ghost use Rattle.audit_notes.specs.Lines.{has_remark};
    ghost use Rattle.audit_notes.specs.Hearing.{both_found, none_found};

    ghost hears = { λ old lines new. H.hears old.hearer lines new.hearer × (new.remarked ≡ (old.remarked || has_remark lines)) };

    fn reading(&mut self, reading: &Reading) {
        self.hearer.reading(reading);
    }

    fn group(&mut self, group: ReadingGroup) {
        self.hearer.group(group);
    }

    fn word(&mut self, word: &str) {
        self.hearer.word(word);
    }

    fn note(&mut self, note: AuditNote) {
        self.hearer.note(note);
        self.remarked = self.remarked || note.kind().is_remark();
    }

    ghost nothing = { λ a. (H.nothing a.hearer, none_found a.remarked) };

    ghost then = { λ a b c xs ys first second. (H.then a.hearer b.hearer c.hearer xs ys first.0 second.0, both_found a.remarked b.remarked c.remarked xs ys first.1 second.1) };
}
