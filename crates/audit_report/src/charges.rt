//! The rows of a report, one for each logical address and one for nobody.
ghost use Rattle.std.specs.Prelude.{◌≡◌, ◌≤◌, map, length};
ghost use Rattle.std.specs.Option.{option_to_list};
ghost use Rattle.line_wave.specs.Bounds.{most_sent};
ghost use Rattle.audit_report.specs.Charges.{answers_of, free_charges, no_rows, place_of, rows_with, with_charge};
ghost use Rattle.audit_report.specs.Rows.Told.{Answered, Noted, Sent, Took};

use crate::row::Row;
use audit_notes::AuditNote;
use audit_remarks::FreeTaken;
use audit_widths::Low;
use line_frames::Ending;

/// The logical addresses (CEC 10.2).
const ADDRESSES: usize = 16;

/// The rows of the addresses 0 to 15, and of nobody.
pub(crate) type Rows = [Row; 17];

/// Nothing is told.
pub(crate) fn no_rows() -> Rows
    ensures { result ≡ no_rows }
{
    [Row::NONE; 17]
}

// Where the row of somebody stands.
fn place_of(who: Option<u8>) -> usize
    ensures value { result ≡ place_of who }
    ensures within { result ≤ 16 }
{
    match who {
        None => ADDRESSES,
        Some(address) => (address as usize).min(ADDRESSES),
    }
}

/// A reading of a frame of somebody.
pub(crate) fn charge_sent(
    rows: &mut Rows,
    who: Option<u8>,
    ending: Ending,
    bits: &[bool],
    lows: &[Low],
)
    requires { length lows.now ≤ most_sent }
    ensures { rows.new ≡ with_charge who (Sent ending bits.now lows.now) rows.old }
{
    let place = place_of(who);
    let mut row = rows[place];
    row.add_sent(ending, bits, lows);
    rows[place] = row;
}

/// A reading of a frame to somebody.
pub(crate) fn charge_taken(
    rows: &mut Rows,
    who: Option<u8>,
    ending: Ending,
    bits: &[bool],
    lows: &[Low],
)
    requires { length lows.now ≤ most_sent }
    ensures { rows.new ≡ with_charge who (Took ending bits.now lows.now) rows.old }
{
    let place = place_of(who);
    let mut row = rows[place];
    row.add_taken(ending, bits, lows);
    rows[place] = row;
}

/// The free time before a frame of somebody, if there is one.
pub(crate) fn charge_free(rows: &mut Rows, who: Option<u8>, taken: Option<FreeTaken>)
    ensures { rows.new ≡ rows_with (free_charges who taken) rows.old }
{
    let Some(taken) = taken else {
        return;
    };
    let place = place_of(who);
    let mut row = rows[place];
    row.add_free(taken);
    rows[place] = row;
}

fn charge_answer(rows: &mut Rows, who: Option<u8>, wait: u64)
    ensures { rows.new ≡ with_charge who (Answered wait) rows.old }
{
    let place = place_of(who);
    let mut row = rows[place];
    row.add_answer(wait);
    rows[place] = row;
}

/// Answers of somebody, by how long each took.
pub(crate) fn charge_answers(rows: &mut Rows, who: Option<u8>, waits: &[u64])
    ensures { rows.new ≡ rows_with (answers_of who waits.now) rows.old }
{
    let [wait, waits @ ..] = waits else {
        return;
    };
    charge_answer(rows, who, *wait);
    charge_answers(rows, who, waits);
}

/// What the audit says of somebody.
pub(crate) fn charge_note(rows: &mut Rows, who: Option<u8>, note: AuditNote)
    ensures { rows.new ≡ with_charge who (Noted note) rows.old }
{
    let place = place_of(who);
    let mut row = rows[place];
    row.add_note(note);
    rows[place] = row;
}
