//! What is said of EDIDs on standard error, beside what is written of them.
use crate::edid::origin_of;
use crate::edid_given::{given_of, halves, kept_count};
use crate::edid_read::bytes_for;
use crate::edid_told::told;
use arrayvec::ArrayString;
use cli_choice::{CommandChoice, EdidReading, Recipient, Source};
use edid_as_source::{mended, write_mend_notes, write_notes};
use edid_dump::{dump_count, nth_dump_bytes};
use edid_merge::{MergeError, Table, Unfit, write_merge_notes};
use rules_explain::{explain_counted, explain_findings, explain_no_hdmi};
use std::alloc::{AllocError, Global};
use std::fmt::Write;
use text_core::{Sink, put_all};

// The count that byte 126 keeps, where the HDMI Forum's override counts the extensions.
fn count_beside(reading: EdidReading, source: Source, given: &[u8]) -> Option<u8> {
    match reading {
        EdidReading::Overridden => Some(kept_count(source, given)),
        EdidReading::MendedOverridden => match mended(true, given) {
            Ok(bytes) => Some(kept_count(source, bytes.as_slice())),
            Err(_) => None,
        },
        EdidReading::Strict | EdidReading::AsSource | EdidReading::Mended => None,
    }
}

/// What each rule asks that the EDID of an input breaks, for a device, and the values at fault. Of no EDID there is nothing.
pub fn explain_rules(
    alloc: Global,
    source: Option<Source>,
    reading: EdidReading,
    place: Recipient,
    input: &[u8],
) -> Result<String, AllocError> {
    let source = told(source, input);
    let Ok(bytes) = bytes_for(alloc, source, reading, place, input) else {
        return Ok(String::new(alloc));
    };
    let count = match given_of(alloc, source, input) {
        Ok(given) => count_beside(reading, source, &given),
        Err(_) => None,
    };
    match count {
        Some(count) => explain_counted(alloc, origin_of(place), count, &bytes),
        None => explain_findings(alloc, origin_of(place), &bytes),
    }
}

/// What would be right in place of what keeps two EDIDs from being made one.
pub fn explain_merge(alloc: Global, error: MergeError) -> Result<String, AllocError> {
    let text = match error {
        MergeError::Display(Unfit::Cta) | MergeError::Receiver(Unfit::Cta) => {
            "  one extension of each EDID has data blocks: a CTA block of revision 3\n"
        }
        MergeError::Display(Unfit::Edid(_)) => {
            "  `edid` tells of the display's EDID alone what is wrong with it\n"
        }
        MergeError::Receiver(Unfit::Edid(_)) => {
            "  `edid` tells of the receiver's EDID alone what is wrong with it\n"
        }
        MergeError::Long => {
            "  the data blocks of an extension are at most 123 bytes long; `--rows` says of each kind whose are taken\n"
        }
    };
    String::from_str(alloc, text)
}

/// What would be right in place of what keeps the speakers of an amplifier out.
pub fn explain_speakers(alloc: Global) -> Result<String, AllocError> {
    String::from_str(
        alloc,
        "  the extension with the HDMI block has zeros after its timings, four of them where it has no speakers\n",
    )
}

/// Why the EDID of an input has no HDMI block, in indented lines. Of one that has a block there is nothing.
pub fn explain_lack(
    alloc: Global,
    source: Option<Source>,
    reading: EdidReading,
    input: &[u8],
) -> Result<String, AllocError> {
    let source = told(source, input);
    let mut text = String::new(alloc);
    if let Ok(bytes) = bytes_for(alloc, source, reading, Recipient::Own, input) {
        let explanation = explain_no_hdmi(alloc, &bytes)?;
        for line in explanation.as_str().lines() {
            text.push_str("  ")?;
            text.push_str(line)?;
            text.push_str("\n")?;
        }
    }
    Ok(text)
}

// Of a text with the dumps of several EDIDs, which one is read.
fn name_one<E: Sink>(nth: u64, input: &[u8], err: &mut E) {
    let count = dump_count(input);
    if count > 1 {
        let mut text = ArrayString::<256>::new();
        let _ = writeln!(text, "hdminet: EDID {nth} of {count}");
        let _ = put_all(err, text.as_bytes());
    }
}

// Of a text with the dumps of more than two EDIDs, which are read.
fn name_two<E: Sink>(input: &[u8], err: &mut E) {
    let count = dump_count(input);
    if count > 2 {
        let mut text = ArrayString::<256>::new();
        let _ = writeln!(text, "hdminet: EDIDs 1 and 2 of {count}");
        let _ = put_all(err, text.as_bytes());
    }
}

// What of a receiver's product has no place in what it answers with.
#[inline(never)]
fn name_unplaced<E: Sink>(table: &Table, display: &[u8], own: &[u8], err: &mut E) {
    let _ = write_merge_notes(table, display, own, err);
}

// Of a text with the dumps of two EDIDs or more, which are read, and what of the receiver's product has no place.
fn name_dumps<E: Sink>(table: &Table, input: &[u8], err: &mut E) {
    name_two(input, err);
    if let Ok(display) = nth_dump_bytes(input, 1) {
        if let Ok(own) = nth_dump_bytes(input, 2) {
            name_unplaced(table, display.as_slice(), own.as_slice(), err);
        }
    }
}

// Of two EDIDs one after the other, what of the receiver's product has no place.
fn name_halves<E: Sink>(table: &Table, input: &[u8], err: &mut E) {
    let (display, own) = halves(input);
    name_unplaced(table, display, own, err);
}

// What a source mends and passes over of an input.
fn name_mended<E: Sink>(alloc: Global, source: Source, input: &[u8], err: &mut E) {
    if let Ok(given) = given_of(alloc, source, input) {
        let _ = write_notes(&given, err);
    }
}

// What of an input is set right.
fn name_set_right<E: Sink>(
    alloc: Global,
    overridden: bool,
    source: Source,
    input: &[u8],
    err: &mut E,
) {
    if let Ok(given) = given_of(alloc, source, input) {
        let _ = write_mend_notes(overridden, &given, err);
    }
}

// What is mended of an input, and passed over, as it is read.
fn name_changed<E: Sink>(
    alloc: Global,
    reading: EdidReading,
    source: Source,
    input: &[u8],
    err: &mut E,
) {
    match reading {
        EdidReading::Strict | EdidReading::Overridden => {}
        EdidReading::AsSource => name_mended(alloc, source, input, err),
        EdidReading::Mended => name_set_right(alloc, false, source, input, err),
        EdidReading::MendedOverridden => name_set_right(alloc, true, source, input, err),
    }
}

/// Writes which of several EDIDs of a dump is read, what of a receiver's product has no place in what it answers with, what a
/// source mends and passes over, and what is set right.
pub fn name_read<E: Sink>(alloc: Global, choice: CommandChoice, input: &[u8], err: &mut E) {
    let (source, reading) = match choice {
        CommandChoice::Edid {
            source,
            reading,
            ..
        }
        | CommandChoice::InfoFrame {
            source,
            reading,
            ..
        } => (told(source, input), reading),
        CommandChoice::EdidDiff { dumps: true, .. } => {
            name_two(input, err);
            return;
        }
        _ => return,
    };
    match source {
        Source::Dump { nth } => name_one(nth, input, err),
        Source::Pair { dumps: true, table } => name_dumps(&table, input, err),
        Source::Pair {
            dumps: false,
            table,
        } => name_halves(&table, input, err),
        Source::Bytes | Source::Text | Source::Words => {}
    }
    name_changed(alloc, reading, source, input, err);
}
