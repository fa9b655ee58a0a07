//! What hears the lines of an audit, and counts them.
ghost use Rattle.std.specs.Prelude.{◌≡◌, ◌++◌};
ghost use Rattle.line_reading.specs.Reports.{listed_as};
ghost use Rattle.audit_core.specs.Audit.{tape_at};
ghost use Rattle.audit_report.specs.Charges.{measured_charges, no_rows, rows_with};
ghost use Rattle.audit_report.specs.Parties.{nobody, parties_of};

use crate::charges::{
    Rows, charge_answers, charge_free, charge_note, charge_sent, charge_taken, no_rows,
};
use crate::parties::Parties;
use audit_core::Auditor;
use audit_notes::{AuditNote, LineHearer, ReadingGroup};
use line_frames::Reading;
use line_wave::Edge;

/// The rows so far, and who sends the reading below which lines stand.
#[derive(Drop)]
pub struct Tally {
    pub(crate) parties: Parties,
    pub(crate) rows: Rows,
}

impl Tally {
    /// Nothing was heard.
    pub(crate) fn new() -> Tally
        ensures { result.rows ≡ no_rows }
    {
        Tally {
            parties: Parties::NOBODY,
            rows: no_rows(),
        }
    }

    /// No reading is left: what follows is said of all.
    pub(crate) fn leave(&mut self)
        ensures parties { self.new.parties ≡ nobody }
        ensures rows { self.new.rows ≡ self.old.rows }
    {
        self.parties = Parties::NOBODY;
    }

    /// Counts what is measured of the next reading of an auditor. `edges` are those of the capture from its fall on.
    pub(crate) fn measure(&mut self, auditor: &Auditor, reading: &Reading, edges: &[Edge])
        ensures parties { self.new.parties ≡ parties_of reading.now.bits.items }
        ensures rows { self.new.rows ≡ rows_with (measured_charges (tape_at edges.now auditor.now) (listed_as reading.now)) self.old.rows }
    {
        let parties = Parties::of(&reading.bits);
        let lows = auditor.measured(reading, edges);
        let waits = auditor.waits(reading);
        charge_sent(
            &mut self.rows,
            parties.sender,
            reading.ending,
            &reading.bits,
            lows.as_slice(),
        );
        charge_taken(
            &mut self.rows,
            parties.taker,
            reading.ending,
            &reading.bits,
            lows.as_slice(),
        );
        charge_free(&mut self.rows, parties.sender, auditor.free_taken(reading));
        charge_answers(&mut self.rows, parties.sender, waits.as_slice());
        self.parties = parties;
    }
}

impl LineHearer for Tally {
    ghost use Rattle.std.specs.Prelude.{◌≡◌};
    ghost use Rattle.audit_report.specs.Charges.{lines_charges, rows_with};
    ghost use Rattle.audit_report.specs.Hearing.{both_counted, none_counted};

    ghost hears = { λ old lines new. (new.parties ≡ old.parties) × (new.rows ≡ rows_with (lines_charges old.parties lines) old.rows) };

    fn reading(&mut self, _reading: &Reading) {}

    fn group(&mut self, _group: ReadingGroup) {}

    fn word(&mut self, _word: &str) {}

    fn note(&mut self, note: AuditNote) {
        let who = self.parties.charged(note);
        charge_note(&mut self.rows, who, note);
    }

    ghost nothing = { λ a. none_counted a.parties a.rows };

    ghost then = { λ a b c xs ys. both_counted a.parties b.parties c.parties a.rows b.rows c.rows xs ys };
}
