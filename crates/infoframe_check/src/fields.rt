//! The records of the fields of an InfoFrame.
ghost use Rattle.std.specs.Prelude.{◌≡◌, ◌≤◌, codes, length, map};
ghost use Rattle.edid_fields.specs.Forms.{field_in_code};
ghost use Rattle.infoframe_check.specs.Found.{frame_fields};
ghost use Rattle.infoframe_check.specs.Records.{byte_of, field_cells, field_record, fields_text, found_of, lead_of, part_of};
ghost use Rattle.record_core.specs.Records.{record_text};
ghost use Rattle.text_core.specs.Adds.{Adds};

use crate::header::{own_part, table_of};
use edid_fields::{Report, is_reserved, walk, word_of};
use record_core::{Form, Value, add_record, cells};
use text_core::{Counted, Piece, Sink};

fn add_cells<'a, S: Sink>(
    out: &mut Counted<'_, S>,
    form: Form,
    part: &'a str,
    byte: u64,
    high: u64,
    low: u64,
    name: &'a str,
    value: u64,
    lead: &'a str,
    meaning: &'a str,
    found: &'a str,
)
    ensures { Adds out.old out.new (record_text form (codes "infoframe-field") (field_cells part.now byte high low name.now value lead.now meaning.now found.now)) }
{
    let cells = cells![
        both("", "part", Value::One(Piece::Text(part))),
        both("", "byte", Value::One(Piece::Decimal(byte))),
        both(" bits ", "high", Value::One(Piece::Decimal(high))),
        both("-", "low", Value::One(Piece::Decimal(low))),
        both(" ", "name", Value::One(Piece::Text(name))),
        both(" ", "value", Value::One(Piece::Decimal(value))),
        both(lead, "meaning", Value::One(Piece::Text(meaning))),
        hidden("found", Value::One(Piece::Text(found))),
    ];
    add_record(out, form, "infoframe-field", &cells);
}

fn part_of(byte: usize) -> &'static str
    ensures { result.now ≡ part_of byte }
{
    if byte < 3 { "HB" } else { "PB" }
}

fn byte_of(byte: usize) -> usize
    ensures { result ≡ byte_of byte }
{
    if byte < 3 { byte } else { byte - 3 }
}

fn lead_of(meaning: &[u8]) -> &'static str
    ensures { result.now ≡ lead_of meaning.now }
{
    match meaning {
        [] => "",
        [_, ..] => " ",
    }
}

fn found_of(reserved: bool) -> &'static str
    ensures { result.now ≡ found_of reserved }
{
    if reserved { "reserved" } else { "" }
}

fn add_field<S: Sink>(out: &mut Counted<'_, S>, form: Form, report: &Report)
    ensures { Adds out.old out.new (field_record form (field_in_code report.now)) }
{
    let bit = report.at % 8;
    let meaning = word_of(report);
    add_cells(
        out,
        form,
        part_of(report.at / 8),
        byte_of(report.at / 8) as u64,
        (7 - bit) as u64,
        (8 - bit).saturating_sub(report.width) as u64,
        report.row.1,
        u64::from(report.value),
        lead_of(meaning.as_bytes()),
        meaning,
        found_of(is_reserved(report)),
    );
}

#[tactic(auto, using(text_core::proofs::Adding::nothing))]
fn add_reports<S: Sink>(out: &mut Counted<'_, S>, form: Form, reports: &[Report])
    ensures { Adds out.old out.new (fields_text form (map field_in_code reports.now)) }
{
    if let [report, others @ ..] = reports {
        add_field(out, form, report);
        add_reports(out, form, others);
    }
}

/// Adds a record for each field of an InfoFrame.
#[inline(never)]
pub(crate) fn add_fields<S: Sink>(out: &mut Counted<'_, S>, form: Form, frame: &[u8])
    requires few { length frame.now ≤ 31 }
    ensures { Adds out.old out.new (fields_text form (frame_fields frame.now)) }
{
    let walked = walk(table_of(frame), own_part(frame));
    add_reports(out, form, walked.fields.as_slice());
}
