//! Lines that are written as they are heard.

use crate::hearing::LineHearer;
use crate::note::AuditNote;
use crate::reading::{ReadingGroup, add_any_reading, add_group};
use crate::records::{add_note, add_word};
use line_frames::Reading;
use record_core::Form;
use text_core::{Counted, Sink};

/// A text: each line is added to it.
impl<'a, S: Sink> LineHearer for Counted<'a, S> {
    ghost use Rattle.text_core.specs.Adds.{Adds};
    ghost use Rattle.record_core.specs.declared.cell.Form.TheVariants.{Text};
    ghost use Rattle.audit_notes.specs.Lines.{lines_text};
    ghost use Rattle.audit_notes.specs.Hearing.{both_written, none_written};

    ghost hears = { λ old lines new. Adds old new (lines_text Text lines) };

    fn reading(&mut self, reading: &Reading) {
        add_any_reading(self, Form::Text, reading);
    }

    fn group(&mut self, group: ReadingGroup) {
        add_group(self, Form::Text, group);
    }

    fn word(&mut self, word: &str) {
        add_word(self, Form::Text, word);
    }

    fn note(&mut self, note: AuditNote) {
        add_note(self, Form::Text, note);
    }

    ghost nothing = { none_written Text };

    ghost then = { both_written Text };
}

/// What writes lines, or their objects.
#[derive(Drop)]
pub struct LineWriter<'a, S: Sink> {
    pub form: Form,
    pub out: Counted<'a, S>,
}

impl<'a, S: Sink> LineHearer for LineWriter<'a, S> {
    ghost use Rattle.std.specs.Prelude.{◌≡◌};
    ghost use Rattle.text_core.specs.Adds.{Adds};
    ghost use Rattle.audit_notes.specs.Lines.{lines_text};
    ghost use Rattle.audit_notes.specs.Hearing.{both_by, none_by};

    ghost hears = { λ old lines new. (new.form ≡ old.form) × Adds old.out new.out (lines_text old.form lines) };

    fn reading(&mut self, reading: &Reading) {
        add_any_reading(&mut self.out, self.form, reading);
    }

    fn group(&mut self, group: ReadingGroup) {
        add_group(&mut self.out, self.form, group);
    }

    fn word(&mut self, word: &str) {
        add_word(&mut self.out, self.form, word);
    }

    fn note(&mut self, note: AuditNote) {
        add_note(&mut self.out, self.form, note);
    }

    ghost nothing = { λ a. none_by a.form a.out };

    ghost then = { λ a b c xs ys. both_by a.form b.form c.form a.out b.out c.out xs ys };
}
