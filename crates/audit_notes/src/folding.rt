//! Bad starts one after another as one line.
ghost use Rattle.std.specs.Prelude.{◌≡◌, ◌∷◌, [], List, None, Some};
ghost use Rattle.line_reading.specs.Reports.{listed_as};
ghost use Rattle.audit_notes.specs.Lines.{AuditLine};

use crate::hearing::LineHearer;
use crate::note::AuditNote;
use crate::reading::{BadStartRun, ReadingGroup};
use arrayvec::ArrayVec;
use audit_remarks::is_bad_start;
use line_frames::Reading;

/// Bad starts one after another: the first, the ending of the last, and how many there are.
#[derive(Drop)]
pub struct HeldRun {
    first: Reading,
    to: u64,
    count: u64,
}

/// What hears lines, bad starts one after another as one.
#[derive(Drop)]
pub struct Folding<H> {
    pub hearer: H,
    /// What is held: it goes on where another hearer takes it.
    pub run: Option<HeldRun>,
}

// The same reading again.
fn copy_of(reading: &Reading) -> Reading
    ensures { listed_as result ≡ listed_as reading.now }
{
    let mut bits = ArrayVec::new();
    let _ = bits.try_extend_from_slice(&reading.bits);
    Reading {
        begin: reading.begin,
        at: reading.at,
        ending: reading.ending,
        bits,
    }
}

impl<H: LineHearer> Folding<H> {
    ghost use Rattle.audit_notes.specs.Folded.{closed, folded_after, held_as, run_as, run_line, with_bad};

    /// Nothing was heard yet.
    pub fn new(hearer: H) -> Self
        ensures hearer { result.hearer ≡ hearer }
        ensures none { result.run ≡ None }
    {
        Folding { hearer, run: None }
    }

    // Has the line of a run heard: of one bad start its own.
    fn hear_run(&mut self, run: &HeldRun)
        ensures heard { H.hears self.old.hearer (run_line (run_as run.now) ∷ []) self.new.hearer }
        ensures run { self.new.run ≡ self.old.run }
    {
        if run.count == 1 {
            self.hearer.reading(&run.first);
        } else {
            self.hearer.group(ReadingGroup::BadStarts(BadStartRun {
                from: run.first.begin,
                to: run.to,
                count: run.count,
            }));
        }
    }

    // Has the line of what was held heard, if there is something.
    fn close(&mut self)
        ensures heard { H.hears self.old.hearer (closed (held_as self.old.run)) self.new.hearer }
        ensures none { self.new.run ≡ None }
    {
        let Some(run) = self.run.take() else {
            return;
        };
        self.hear_run(&run);
    }

    // Holds a bad start, with those before it.
    fn hold(&mut self, reading: &Reading)
        ensures held { held_as self.new.run ≡ Some (with_bad (held_as self.old.run) (AuditLine.Reading (listed_as reading.now))) }
        ensures hearer { self.new.hearer ≡ self.old.hearer }
    {
        let held = match self.run.take() {
            None => HeldRun {
                first: copy_of(reading),
                to: reading.at,
                count: 1,
            },
            Some(run) => HeldRun {
                first: run.first,
                to: reading.at,
                count: run.count.saturating_add(1),
            },
        };
        self.run = Some(held);
    }

    /// No line is left.
    pub fn finish(self) -> H
        ensures { H.hears self.hearer (closed (held_as self.run)) result }
    {
        let mut folding = self;
        folding.close();
        folding.hearer
    }
}

impl<H: LineHearer> LineHearer for Folding<H> {
    ghost use Rattle.std.specs.Prelude.{◌++◌};
    ghost use Rattle.audit_notes.specs.Folded.{folded_after, held_as};
    ghost use Rattle.audit_notes.specs.Hearing.{fold_both, fold_none};

    ghost hears = { λ old lines new. (done : List AuditLine) × H.hears old.hearer done new.hearer × ((rest : List AuditLine) → folded_after (held_as old.run) (lines ++ rest) ≡ done ++ folded_after (held_as new.run) rest) };

    fn reading(&mut self, reading: &Reading) {
        if is_bad_start(reading.ending) {
            self.hold(reading);
        } else {
            self.close();
            self.hearer.reading(reading);
        }
    }

    fn group(&mut self, group: ReadingGroup) {
        self.close();
        self.hearer.group(group);
    }

    fn word(&mut self, word: &str) {
        self.close();
        self.hearer.word(word);
    }

    fn note(&mut self, note: AuditNote) {
        self.close();
        self.hearer.note(note);
    }

    ghost nothing = { λ a. ([], H.nothing a.hearer, fold_none (held_as a.run)) };

    ghost then = { λ a b c xs ys first second. (first.0 ++ second.0, H.then a.hearer b.hearer c.hearer first.0 second.0 first.1 second.1, fold_both (held_as a.run) (held_as b.run) (held_as c.run) xs ys first.0 second.0 first.2 second.2) };
}
