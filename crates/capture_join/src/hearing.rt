//! Readings that are heard, those that begin before an instant as one line.
ghost use Rattle.std.specs.Prelude.{◌≡◌, ◌||◌, false, map, option_map};
ghost use Rattle.std.specs.Option.{option_to_list};
ghost use Rattle.line_reading.specs.Reports.{listed_as};
ghost use Rattle.audit_notes.specs.Lines.{AuditLine};
ghost use Rattle.capture_join.specs.Joined.{has_begun, has_joined, joined_lines, lines_from, opened};

use audit_notes::{LineHearer, ReadingGroup};
use line_frames::Reading;

/// Whether a reading is joined, or one was before it.
pub fn has_joined(reading: &Option<Reading>, joined_at: u64, is_reported: bool) -> bool
    ensures { result ≡ (is_reported || has_joined joined_at (option_to_list (option_map listed_as reading.now))) }
{
    match reading {
        None => is_reported,
        Some(reading) => is_reported || reading.begin < joined_at,
    }
}

// Hears a reading, if there is one.
fn hear_reading<H: LineHearer>(out: &mut H, reading: &Option<Reading>)
    ensures { H.hears out.old (map AuditLine.Reading (option_to_list (option_map listed_as reading.now))) out.new }
{
    match reading {
        None => {}
        Some(reading) => out.reading(reading),
    }
}

/// Hears it, or the line that stands for all that are joined.
pub fn hear_joined<H: LineHearer>(
    out: &mut H,
    reading: &Option<Reading>,
    joined_at: u64,
    is_reported: bool,
)
    ensures { H.hears out.old (joined_lines joined_at is_reported (option_to_list (option_map listed_as reading.now))) out.new }
{
    if !has_joined(reading, joined_at, false) {
        hear_reading(out, reading);
        return;
    }
    if is_reported {
        return;
    }
    out.group(ReadingGroup::Joined(joined_at));
}

/// Whether a reading has ended that is joined, or one before it was. Where the instant is not known yet each one is.
pub fn has_begun(reading: &Option<Reading>, start: Option<u64>, is_held: bool) -> bool
    ensures { result ≡ (is_held || has_begun start (option_to_list (option_map listed_as reading.now))) }
{
    match start {
        None => is_held || reading.is_some(),
        Some(start) => has_joined(reading, start, is_held),
    }
}

/// Hears a reading where the instant is known.
pub fn hear_known<H: LineHearer>(
    out: &mut H,
    reading: &Option<Reading>,
    start: Option<u64>,
    is_held: bool,
)
    ensures { H.hears out.old (lines_from start is_held (option_to_list (option_map listed_as reading.now))) out.new }
{
    match start {
        None => {}
        Some(start) => hear_joined(out, reading, start, is_held),
    }
}

/// Hears the line that stands for the readings before, where the instant is known now.
pub fn hear_opened<H: LineHearer>(out: &mut H, before: Option<u64>, now: Option<u64>, is_held: bool)
    ensures { H.hears out.old (opened before now is_held) out.new }
{
    if before.is_some() || !is_held {
        return;
    }
    match now {
        None => {}
        Some(start) => out.group(ReadingGroup::Joined(start)),
    }
}
