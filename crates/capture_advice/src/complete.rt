//! How many readings of a capture are complete.
ghost use Rattle.std.specs.Prelude.{◌≡◌, ◌≤◌};
ghost use Rattle.line_reading.specs.Windows.{most_margin};
ghost use Rattle.capture_advice.specs.Counts.{capped, complete_at, count_of, most_count};

use audit_core::hear_readings;
use audit_notes::{AuditNote, LineHearer, ReadingGroup};
use capture_core::Capture;
use line_frames::{Ending, Reading};
use line_reading::Windows;

/// What hears readings and counts the complete ones.
#[derive(Drop)]
struct Complete {
    count: u64,
}

fn count_of(ending: Ending) -> u64
    ensures { result ≡ count_of ending }
{
    match ending {
        Ending::Complete => 1,
        Ending::Short | Ending::Silent | Ending::BadStart | Ending::Long | Ending::Open => 0,
    }
}

impl LineHearer for Complete {
    ghost use Rattle.capture_advice.specs.Counts.{Counts};
    ghost use Rattle.capture_advice.specs.Counting.{both_counted, none_counted};

    ghost hears = { λ old lines new. Counts old.count lines new.count };

    fn reading(&mut self, reading: &Reading) {
        self.count = self.count.saturating_add(count_of(reading.ending));
    }

    fn group(&mut self, _group: ReadingGroup) {}

    fn word(&mut self, _word: &str) {}

    fn note(&mut self, _note: AuditNote) {}

    ghost nothing = { λ a. none_counted a.count };

    ghost then = { λ a b c xs ys. both_counted a.count b.count c.count xs ys };
}

/// How many readings of a capture are complete, by windows that are so much wider at either side, in microseconds.
pub fn complete_by(capture: &Capture, margin: u64) -> u64
    requires { margin ≤ most_margin }
    ensures counted { capped result ≡ capped (complete_at margin capture.now) }
    ensures within { result ≤ most_count }
{
    let mut complete = Complete { count: 0 };
    let windows = Windows::wider(margin);
    hear_readings(capture, windows, &mut complete);
    complete.count
}
