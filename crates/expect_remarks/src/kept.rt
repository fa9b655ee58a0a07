//! The remarks of an audit, as they are heard.
ghost use Rattle.std.specs.Prelude.{◌≡◌, ◌∷◌, ◌++◌, IfOk, [], false};
ghost use Rattle.expect_remarks.specs.Kept.{audit_remarks};

use audit_core::{AuditOptions, hear_audit};
use audit_notes::{AuditNote, LineHearer, ReadingGroup};
use capture_core::Capture;
use line_frames::Reading;
use line_reading::STANDARD;
use std::alloc::{AllocError, Global};

/// What keeps the remarks of an audit, and notes whether memory ran out.
#[derive(Drop)]
struct Remarks {
    notes: Vec<AuditNote>,
    full: bool,
}

impl Remarks {
    // None yet.
    fn none(alloc: Global) -> Self
        ensures { result.notes.items ≡ [] }
    {
        Remarks {
            notes: Vec::new(alloc),
            full: false,
        }
    }

    fn keep(&mut self, note: AuditNote)
        ensures { self.new.full ≡ false → (self.old.full ≡ false) × (self.new.notes.items ≡ self.old.notes.items ++ note ∷ []) }
    {
        match self.notes.push(note) {
            Ok(()) => {}
            Err(_) => self.full = true,
        }
    }

    // All of them, where memory did not run out.
    fn all(self) -> Result<Vec<AuditNote>, AllocError>
        ensures { IfOk result (λ notes. (self.full ≡ false) × (notes.items ≡ self.notes.items)) }
    {
        if self.full {
            return Err(AllocError);
        }
        Ok(self.notes)
    }
}

impl LineHearer for Remarks {
    ghost use Rattle.expect_remarks.specs.Kept.{KeepsRemarks, both_kept, none_kept};

    ghost hears = { λ old lines new. KeepsRemarks old.notes.items old.full lines new.notes.items new.full };

    fn reading(&mut self, _reading: &Reading) {}

    fn group(&mut self, _group: ReadingGroup) {}

    fn word(&mut self, _word: &str) {}

    fn note(&mut self, note: AuditNote) {
        if !note.kind().is_remark() {
            return;
        }
        self.keep(note);
    }

    ghost nothing = { λ a. none_kept a.notes.items a.full };

    ghost then = { λ a b c xs ys first second. both_kept a.notes.items b.notes.items c.notes.items a.full b.full c.full xs ys first second };
}

/// The remarks of the audit of a capture, in order.
///
/// # Errors
///
/// Want of memory.
#[tactic(auto, using(line_reading::proofs::Standard::standard_are))]
pub fn audit_remarks(alloc: Global, capture: &Capture) -> Result<Vec<AuditNote>, AllocError>
    ensures { IfOk result (λ notes. notes.items ≡ audit_remarks capture.now) }
{
    let mut remarks = Remarks::none(alloc);
    hear_audit(
        capture,
        STANDARD,
        AuditOptions { timing: false },
        &mut remarks,
    );
    let notes = remarks.all()?;
    Ok(notes)
}
