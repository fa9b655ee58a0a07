//! The low stretches of a reading with what of each is measured.
ghost use Rattle.std.specs.Prelude.{◌≡◌, ◌+◌, ◌++◌, ◌≤◌, length};
ghost use Rattle.line_wave.specs.Bounds.{most_sent};
ghost use Rattle.audit_core.specs.Measured.{own_of, owned, waits_in, waits_unless};

use crate::lines::LastSlot;
use arrayvec::ArrayVec;
use audit_remarks::{Request, WAITING};
use audit_widths::Low;
use line_wave::MOST_SENT;

impl LastSlot {
    // A low stretch with those of its widths that are its own: without its rise it has no low time, without the next fall no total.
    fn own_of(self, low: Low) -> Low
        ensures { result ≡ own_of self low }
    {
        match self {
            LastSlot::Own => low,
            LastSlot::Followed => Low {
                fall: low.fall,
                rise: low.rise,
                next: None,
            },
            LastSlot::Driven => Low {
                fall: low.fall,
                rise: None,
                next: None,
            },
        }
    }
}

/// Pushes the low stretches of a reading whose last slot is so, with what of each is measured.
pub(crate) fn push_owned(last: LastSlot, lows: &[Low], kept: &mut ArrayVec<Low, MOST_SENT>)
    requires { length kept.old.items + length lows.now ≤ most_sent }
    ensures { kept.new.items ≡ kept.old.items ++ owned last lows.now }
{
    let [low, lows @ ..] = lows else {
        return;
    };
    kept.push(last.slot_by(lows.len()).own_of(*low));
    push_owned(last, lows, kept);
}

fn push_unless(answers: bool, wait: u64, waits: &mut ArrayVec<u64, WAITING>)
    requires { length waits.old.items + 1 ≤ 16 }
    ensures { waits.new.items ≡ waits.old.items ++ waits_unless answers wait }
{
    if !answers {
        return;
    }
    waits.push(wait);
}

/// Pushes how long those of the requests had waited that a frame answers, whose first attempt begins then.
pub(crate) fn push_waits(
    begin: u64,
    frame: &[u8],
    waiting: &[Request],
    waits: &mut ArrayVec<u64, WAITING>,
)
    requires { length waits.old.items + length waiting.now ≤ 16 }
    ensures { waits.new.items ≡ waits.old.items ++ waits_in begin frame.now waiting.now }
{
    let [request, waiting @ ..] = waiting else {
        return;
    };
    push_unless(
        request.is_answer(begin, frame),
        request.waited(begin),
        waits,
    );
    push_waits(begin, frame, waiting, waits);
}
