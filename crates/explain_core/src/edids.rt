//! What is said of EDIDs.
use arrayvec::ArrayVec;
use edid_as_source::{as_source, counted, mended};
use edid_base::BaseError;
use edid_core::{EdidCause, EdidError, read_parts};
use edid_dump::{dump_bytes, dump_count};
use explain_lists::Draft;
use explain_marks::InputLine;
use rules_explain::explain_no_hdmi;
use std::alloc::AllocError;

/// The bytes of a block.
const BLOCK: usize = 128;
/// The bytes of a block that its last one makes up for.
const FRONT: usize = 127;
/// The bytes that an EDID begins with.
const HEADER: [u8; 8] = [0x00, 0xff, 0xff, 0xff, 0xff, 0xff, 0xff, 0x00];

/// How long an input is that is no EDID by its length: whole blocks and more, or a count of bytes that is none's.
pub fn add_length(draft: &mut Draft, length: usize) {
    let more = length % 128;
    let blocks = length.saturating_sub(more);
    if blocks == 0 || more == 0 {
        writeln!(
            draft,
            "  the input has {length} bytes; an EDID has 128, 256, 384 or 512"
        );
    } else {
        writeln!(draft, "  the input has {blocks} bytes and {more} more");
    }
}

// The last byte of a block with which its sum is 0 (E-EDID Release A, section 3).
fn right_sum(block: &[u8]) -> u8 {
    let mut sum = 0_u8;
    for byte in block.iter().take(FRONT) {
        sum = sum.wrapping_add(*byte);
    }
    sum.wrapping_neg()
}

// The block with a number, from 0 on, where it is there whole.
fn block_of(bytes: &[u8], number: u8) -> Option<&[u8]> {
    let begin = usize::from(number) * BLOCK;
    bytes.get(begin..begin.saturating_add(BLOCK))
}

// The last byte of a block, and the one that would be right, where it is another.
fn add_sum(draft: &mut Draft, bytes: &[u8], number: u8) {
    let Some(block) = block_of(bytes, number) else {
        return;
    };
    let Some(last) = block.get(FRONT).copied() else {
        return;
    };
    let right = right_sum(block);
    if right == last || !bytes.starts_with(HEADER.as_slice()) {
        return;
    }
    if number == 0 {
        writeln!(
            draft,
            "  byte 127 of the base block is {last:02x}; {right:02x} would be right"
        );
    } else {
        writeln!(
            draft,
            "  byte 127 of extension {number} is {last:02x}; {right:02x} would be right"
        );
    }
}

// The checksum of an EDID at fault.
fn add_sum_of(draft: &mut Draft, error: EdidError, bytes: &[u8]) {
    match error {
        EdidError::Base(BaseError::Checksum) => add_sum(draft, bytes, 0),
        EdidError::Ext(number, _) => add_sum(draft, bytes, number),
        EdidError::Base(_) | EdidError::Count | EdidError::Length => {}
    }
}

// Whether bytes are an EDID once the HDMI Forum's override counts its extensions.
#[inline(never)]
fn is_counted(bytes: &[u8]) -> bool {
    let mut extensions = ArrayVec::new();
    match counted(bytes) {
        Ok(mended) => read_parts(mended.as_slice(), &mut extensions).is_ok(),
        Err(_) => false,
    }
}

// The flags with which bytes are taken whose extensions are not those that byte 126 counts.
fn add_readings(draft: &mut Draft, bytes: &[u8]) {
    if is_counted(bytes) {
        draft.add_line("`--eeodb` takes it, which goes by the HDMI Forum's count of extensions");
    }
    if as_source(bytes).is_ok() {
        draft.add_line("`--as-source` takes it, as a source does");
    }
}

// Whether bytes are an EDID once their checksums and their count are right.
#[inline(never)]
fn is_mended(bytes: &[u8]) -> bool {
    let mut extensions = ArrayVec::new();
    match mended(false, bytes) {
        Ok(made) => read_parts(made.as_slice(), &mut extensions).is_ok(),
        Err(_) => false,
    }
}

// The flag with which bytes are taken whose checksums are wrong.
fn add_mending(draft: &mut Draft, bytes: &[u8]) {
    if is_mended(bytes) {
        draft.add_line("`--mend` takes it, and sets its checksums right");
    }
}

// What is at fault in the bytes that are to be an EDID, and the flags with which they are one.
fn add_fault_of(draft: &mut Draft, error: EdidError, bytes: &[u8]) {
    add_sum_of(draft, error, bytes);
    match error {
        EdidError::Count => add_readings(draft, bytes),
        EdidError::Base(BaseError::Checksum) | EdidError::Ext(_, _) => add_mending(draft, bytes),
        EdidError::Base(_) | EdidError::Length => {}
    }
}

/// What is at fault in an input that is to be the bytes of an EDID, or a dump of it.
pub fn add_edid_fault(draft: &mut Draft, cause: EdidCause, is_dump: bool, input: &[u8]) {
    let EdidCause::Edid(error) = cause else {
        return;
    };
    if !is_dump {
        add_fault_of(draft, error, input);
        return;
    }
    if dump_count(input) == 1 {
        if let Ok(bytes) = dump_bytes(input) {
            add_fault_of(draft, error, bytes.as_slice());
        }
    }
}

// Why the EDID of some bytes has no HDMI block.
fn add_lack_of(draft: &mut Draft, bytes: &[u8]) {
    match explain_no_hdmi(draft.alloc(), bytes) {
        Ok(reported) => {
            for line in reported.as_str().lines() {
                draft.add_line(line);
            }
        }
        Err(AllocError) => draft.fail(),
    }
}

/// What is at fault in the EDID of a topology's line: why it has no HDMI block, or which checksum is wrong.
pub fn add_line_fault(draft: &mut Draft, cause: EdidCause, place: InputLine<'_>) {
    if let Some(digits) = place.line.strip_prefix(b"edid ") {
        if let Ok(bytes) = hex::decode(draft.alloc(), digits) {
            match cause {
                EdidCause::NoHdmiBlock => add_lack_of(draft, &bytes),
                EdidCause::Edid(error) => add_sum_of(draft, error, &bytes),
            }
        }
    }
}
