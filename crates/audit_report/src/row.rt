//! What is told of one logical address.
ghost use Rattle.std.specs.Prelude.{◌≡◌, ◌≤◌, length};
ghost use Rattle.audit_widths.specs.Spreads.{with_width};
ghost use Rattle.audit_report.specs.Rows.{with_attempt, with_column, with_kind_of, with_short, with_taken_time, with_time, with_told};
ghost use Rattle.audit_report.specs.Rows.Told.{Answered, Noted, Sent, Took, Waited};
ghost use Rattle.line_wave.specs.Bounds.{most_sent};

use crate::kinds::{KindCounts, NO_KINDS, count_kind};
use crate::widths::{WidthOuts, add_own, add_taken};
use audit_notes::AuditNote;
use audit_remarks::{Failure, FrameCount, FreeTaken, TooSoon};
use audit_widths::{Low, Spread, Widths};
use line_frames::{Ending, FreeTime};

/// The first attempt, and five retransmissions (CEC 7.1).
const ATTEMPTS: u64 = 6;

/// Free times, and how many of them were too short.
#[derive(Clone, Copy)]
pub struct FreeColumn {
    pub(crate) taken: Spread,
    pub(crate) short: u64,
}

/// The free times before the frames of an address, by which one was due.
#[derive(Clone, Copy)]
pub struct FreeTimes {
    pub(crate) retry: FreeColumn,
    pub(crate) new_initiator: FreeColumn,
    pub(crate) present_initiator: FreeColumn,
}

/// What is told of one logical address.
#[derive(Clone, Copy)]
pub struct Row {
    pub(crate) frames: FrameCount,
    /// The attempts past the sixth.
    pub(crate) past: u64,
    /// The widths that it drove as the initiator.
    pub(crate) widths: Widths,
    /// The low times of acknowledge slots, as a follower.
    pub(crate) acks: Widths,
    pub(crate) outs: WidthOuts,
    pub(crate) free: FreeTimes,
    /// How long its answers took, how many were late, and how many did not come.
    pub(crate) answers: Spread,
    pub(crate) late: u64,
    pub(crate) missing: u64,
    pub(crate) remarks: KindCounts,
}

// One more, as `Widths` has it.
fn with_width(spread: Spread, width: u64) -> Spread
    ensures { result ≡ with_width width spread }
{
    let is_first = spread.count == 0;
    Spread {
        count: spread.count.saturating_add(1),
        sum: spread.sum.saturating_add(width),
        least: if is_first {
            width
        } else {
            spread.least.min(width)
        },
        greatest: if is_first {
            width
        } else {
            spread.greatest.max(width)
        },
    }
}

impl FreeColumn {
    const NONE: FreeColumn = FreeColumn {
        taken: Spread::NONE,
        short: 0,
    };

    fn add(&mut self, free: u64)
        ensures { self.new ≡ with_time free self.old }
    {
        self.taken = with_width(self.taken, free);
    }
}

impl FreeTimes {
    const NONE: FreeTimes = FreeTimes {
        retry: FreeColumn::NONE,
        new_initiator: FreeColumn::NONE,
        present_initiator: FreeColumn::NONE,
    };

    fn add(&mut self, taken: FreeTaken)
        ensures { self.new ≡ with_taken_time taken self.old }
    {
        match taken.due {
            FreeTime::Retry => self.retry.add(taken.free),
            FreeTime::NewInitiator => self.new_initiator.add(taken.free),
            FreeTime::PresentInitiator => self.present_initiator.add(taken.free),
        }
    }

    // One was too short: by how long it was to be.
    fn add_short(&mut self, soon: TooSoon)
        ensures { self.new ≡ with_short soon self.old }
    {
        if soon.due == FreeTime::Retry.micros() {
            self.retry.short = self.retry.short.saturating_add(1);
        } else if soon.due == FreeTime::NewInitiator.micros() {
            self.new_initiator.short = self.new_initiator.short.saturating_add(1);
        } else {
            self.present_initiator.short = self.present_initiator.short.saturating_add(1);
        }
    }
}

impl Row {
    /// Nothing is told.
    pub(crate) const NONE: Row = Row {
        frames: FrameCount {
            taken: 0,
            untaken: 0,
            broken: 0,
        },
        past: 0,
        widths: Widths::NONE,
        acks: Widths::NONE,
        outs: WidthOuts::NONE,
        free: FreeTimes::NONE,
        answers: Spread::NONE,
        late: 0,
        missing: 0,
        remarks: NO_KINDS,
    };

    /// A reading of its frame, with these low stretches.
    pub(crate) fn add_sent(&mut self, ending: Ending, bits: &[bool], lows: &[Low])
        requires { length lows.now ≤ most_sent }
        ensures { self.new ≡ with_told (Sent ending bits.now lows.now) self.old }
    {
        add_own(&mut self.widths, ending, bits, 0, lows);
    }

    /// A reading of a frame to it.
    pub(crate) fn add_taken(&mut self, ending: Ending, bits: &[bool], lows: &[Low])
        requires { length lows.now ≤ most_sent }
        ensures { self.new ≡ with_told (Took ending bits.now lows.now) self.old }
    {
        add_taken(&mut self.acks, ending, bits, 0, lows);
    }

    /// A free time before a frame of it.
    pub(crate) fn add_free(&mut self, taken: FreeTaken)
        ensures { self.new ≡ with_told (Waited taken) self.old }
    {
        self.free.add(taken);
    }

    /// An answer of it, after so long.
    pub(crate) fn add_answer(&mut self, wait: u64)
        ensures { self.new ≡ with_told (Answered wait) self.old }
    {
        self.answers = with_width(self.answers, wait);
    }

    fn add_attempt(&mut self, failure: Failure)
        ensures { self.new ≡ with_attempt failure self.old }
    {
        if ATTEMPTS < failure.attempt {
            self.past = self.past.saturating_add(1);
        }
    }

    // What a note counts for besides its kind.
    fn add_column(&mut self, note: AuditNote)
        ensures { self.new ≡ with_column note self.old }
    {
        match note {
            AuditNote::Misfit(misfit) => self.outs.add(misfit),
            AuditNote::Free(soon) => self.free.add_short(soon),
            AuditNote::LateAnswer(_) => self.late = self.late.saturating_add(1),
            AuditNote::NoAnswer(_) => self.missing = self.missing.saturating_add(1),
            AuditNote::Attempt(failure) => self.add_attempt(failure),
            AuditNote::Sender(_, frames) => self.frames = frames,
            AuditNote::BadStarts(_)
            | AuditNote::LowDrive(_)
            | AuditNote::DriveWithin(_)
            | AuditNote::Unfinished(_)
            | AuditNote::GoesOn(_, _)
            | AuditNote::Ending(_, _)
            | AuditNote::Cause(_)
            | AuditNote::Moved(_, _)
            | AuditNote::Receivers(_)
            | AuditNote::Operands(_)
            | AuditNote::Unreported(_)
            | AuditNote::Read(_)
            | AuditNote::Summary
            | AuditNote::Widths(_, _) => {}
        }
    }

    fn add_kind(&mut self, note: AuditNote)
        ensures { self.new ≡ with_kind_of note self.old }
    {
        let kind = note.kind();
        if kind.is_remark() {
            count_kind(kind, &mut self.remarks);
        }
    }

    /// A note of the audit.
    pub(crate) fn add_note(&mut self, note: AuditNote)
        ensures { self.new ≡ with_told (Noted note) self.old }
    {
        self.add_column(note);
        self.add_kind(note);
    }
}
