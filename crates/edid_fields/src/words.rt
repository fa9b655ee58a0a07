//! What a field says, and the findings: a value that is reserved, bytes that are cut or left over.
ghost use Rattle.std.specs.Prelude.{◌≡◌, ◌≤◌, codes, length, map, option_map, IsTrue};
ghost use Rattle.std.specs.List.{list_any};
ghost use Rattle.edid_fields.specs.Fields.{is_table};
ghost use Rattle.edid_fields.specs.Forms.{code_in_code, field_in_code, table_in_code};
ghost use Rattle.edid_fields.specs.Words.{code_of, cut_of, is_reserved, left_of, some_reserved, word_of};

use crate::tables::{Code, Part};
use crate::walking::{Place, Report, walk};

/// The word for a value that the standard keeps reserved.
const RESERVED: &str = "reserved";

#[tactic(auto, unfolding(crate::specs::Words::code_of))]
fn code_of(list: &[Code], value: u8) -> Option<Code>
    ensures { option_map code_in_code result ≡ code_of (map code_in_code list.now) value }
{
    match list {
        [code, rest @ ..] => {
            if code.0 <= value && value <= code.1 {
                return Some(*code);
            }
            code_of(rest, value)
        }
        _ => None,
    }
}

/// Whether the value of a field is reserved.
pub fn is_reserved(report: &Report) -> bool
    ensures { result ≡ is_reserved (field_in_code report.now) }
{
    match code_of(report.row.2, report.value) {
        None => true,
        Some(_) => false,
    }
}

/// What a field says of its value.
pub fn word_of(report: &Report) -> &'static str
    ensures { result.now ≡ word_of (field_in_code report.now) }
{
    match code_of(report.row.2, report.value) {
        None => RESERVED,
        Some(code) => code.2,
    }
}

/// How many bytes a block has too few.
pub fn cut_of(payload: &[u8], end: Place) -> usize
    ensures { result ≡ cut_of payload.now end }
{
    end.need.saturating_sub(payload.len())
}

/// How many bytes of a block are left over.
pub fn left_of(payload: &[u8], end: Place) -> usize
    ensures { result ≡ left_of payload.now end }
{
    payload.len().saturating_sub(end.at)
}

fn are_some_reserved(reports: &[Report]) -> bool
    ensures { result ≡ list_any is_reserved (map field_in_code reports.now) }
{
    match reports {
        [report, rest @ ..] => is_reserved(report) || are_some_reserved(rest),
        _ => false,
    }
}

/// Whether some field of a block of at most 31 bytes has a reserved value, by its table.
pub fn some_reserved(table: &[Part], payload: &[u8]) -> bool
    requires few { length payload.now ≤ 31 }
    requires table { IsTrue (is_table (table_in_code table.now)) }
    ensures { result ≡ some_reserved (table_in_code table.now) payload.now }
{
    let walked = walk(table, payload);
    are_some_reserved(walked.fields.as_slice())
}
