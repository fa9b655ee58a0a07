//! The readings of a capture, as they are heard.
ghost use Rattle.std.specs.Prelude.{◌≡◌, ◌∷◌, ◌++◌, map, IfOk, [], false};
ghost use Rattle.expect_judge.specs.Told.{kept_as};
ghost use Rattle.expect_told.specs.Said.{reading_told};
ghost use Rattle.audit_expect.specs.Marks.{rounds_told};

use audit_core::hear_readings;
use audit_notes::{AuditNote, LineHearer, ReadingGroup};
use capture_core::Capture;
use expect_judge::KeptRound;
use expect_told::reading_kept;
use line_frames::Reading;
use line_reading::STANDARD;
use record_core::Form;
use std::alloc::{AllocError, Global};

/// What keeps readings, and notes whether memory ran out.
#[derive(Drop)]
struct Readings {
    rounds: Vec<KeptRound>,
    alloc: Global,
    // how they are shown below a test that failed
    form: Form,
    full: bool,
}

impl Readings {
    // None yet.
    fn none(alloc: Global, form: Form) -> Self
        ensures { (result.rounds.items ≡ []) × (result.form ≡ form) }
    {
        Readings {
            rounds: Vec::new(alloc),
            alloc,
            form,
            full: false,
        }
    }

    fn keep(&mut self, reading: &Reading)
        ensures same { self.new.form ≡ self.old.form }
        ensures kept { self.new.full ≡ false → (self.old.full ≡ false) × (map kept_as self.new.rounds.items ≡ map kept_as self.old.rounds.items ++ reading_told self.old.form reading.now ∷ []) }
    {
        let Ok(round) = reading_kept(self.alloc, self.form, reading) else {
            self.full = true;
            return;
        };
        match self.rounds.push(round) {
            Ok(()) => {}
            Err(_) => self.full = true,
        }
    }

    // All of them, where memory did not run out.
    fn all(self) -> Result<Vec<KeptRound>, AllocError>
        ensures { IfOk result (λ rounds. (self.full ≡ false) × (rounds.items ≡ self.rounds.items)) }
    {
        if self.full {
            return Err(AllocError);
        }
        Ok(self.rounds)
    }
}

impl LineHearer for Readings {
    ghost use Rattle.std.specs.Prelude.{map};
    ghost use Rattle.expect_judge.specs.Told.{kept_as};
    ghost use Rattle.audit_expect.specs.Heard.{KeepsReadings, both_kept, none_kept};

    ghost hears = { λ old lines new. (new.form ≡ old.form) × KeepsReadings old.form (map kept_as old.rounds.items) old.full lines (map kept_as new.rounds.items) new.full };

    fn reading(&mut self, reading: &Reading) {
        self.keep(reading);
    }

    fn group(&mut self, _group: ReadingGroup) {}

    fn word(&mut self, _word: &str) {}

    fn note(&mut self, _note: AuditNote) {}

    ghost nothing = { λ a. none_kept a.form (map kept_as a.rounds.items) a.full };

    ghost then = { λ a b c xs ys first second. both_kept a.form b.form c.form (map kept_as a.rounds.items) (map kept_as b.rounds.items) (map kept_as c.rounds.items) a.full b.full c.full xs ys first second };
}

/// The readings of a capture, in order, as rounds that are shown in a form.
///
/// # Errors
///
/// Want of memory.
#[tactic(auto, using(line_reading::proofs::Standard::standard_are))]
pub(crate) fn rounds_told(
    alloc: Global,
    form: Form,
    capture: &Capture,
) -> Result<Vec<KeptRound>, AllocError>
    ensures { IfOk result (λ rounds. map kept_as rounds.items ≡ rounds_told form capture.now) }
{
    let mut readings = Readings::none(alloc, form);
    hear_readings(capture, STANDARD, &mut readings);
    let rounds = readings.all()?;
    Ok(rounds)
}
