//! Whether the audit of a capture has a remark.
ghost use Rattle.std.specs.Prelude.{◌≡◌, false};
ghost use Rattle.line_reading.specs.Windows.{standard};
ghost use Rattle.capture_monitor.specs.Watch.{captured_by};
ghost use Rattle.audit_notes.specs.Lines.{has_remark};
ghost use Rattle.audit_core.specs.Audit.{audit_lines};

use audit_core::{AuditOptions, hear_audit};
use audit_notes::{AuditNote, LineHearer, ReadingGroup, Strict};
use capture_core::Capture;
use line_frames::Reading;
use line_reading::STANDARD;

/// What hears lines, and keeps none.
#[derive(Drop)]
struct Unheeding {}

impl LineHearer for Unheeding {
    ghost hears = { λ old lines new. Unit {0} };

    fn reading(&mut self, _reading: &Reading) {}

    fn group(&mut self, _group: ReadingGroup) {}

    fn word(&mut self, _word: &str) {}

    fn note(&mut self, _note: AuditNote) {}

    ghost nothing = { λ a. tt };

    ghost then = { λ a b c xs ys first second. tt };
}

/// Whether the audit of a capture has a remark.
#[tactic(auto, using(line_reading::proofs::Standard::standard_are))]
pub(crate) fn is_remarked(capture: &Capture) -> bool
    ensures { result ≡ has_remark (audit_lines false capture.now (captured_by standard capture.now)) }
{
    let mut lines = Strict {
        hearer: Unheeding {},
        remarked: false,
    };
    hear_audit(
        capture,
        STANDARD,
        AuditOptions { timing: false },
        &mut lines,
    );
    lines.remarked
}
