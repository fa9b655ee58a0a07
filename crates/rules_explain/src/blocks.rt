//! Extensions and data blocks at fault.
use edid_cta::{BlockKind, DataBlock, Ext};
use edid_fields::{is_reserved, walk};
use edid_tables::{body_of, layout_of, left_of, parts_of};
use rules_check::Rule;
use rules_contents::{
    SORTS, Slip, Sort, count_of_sort, has_slip, is_override, some_other_revision, some_overrun,
    some_unknown, some_wrong_section,
};
use rules_values::blocks_of;
use std::alloc::{AllocError, Global};

/// Whether one extension breaks a rule for extensions that are kept as they are.
fn is_ill(rule: Rule, one: &[Ext]) -> bool {
    match rule {
        Rule::CtaForm => some_overrun(one),
        Rule::CtaRevision => some_other_revision(one),
        Rule::SectionSum => some_wrong_section(one),
        _ => some_unknown(one),
    }
}

/// The first extension that breaks such a rule, from 1, and its first three bytes.
pub fn extension_reported(
    alloc: Global,
    rule: Rule,
    extensions: &[Ext],
) -> Result<Option<String>, AllocError> {
    let mut number = 0_u8;
    for one in extensions.chunks(1) {
        number = number.saturating_add(1);
        if is_ill(rule, one) {
            if let [Ext::Raw(raw)] = one {
                let (tag, revision, place) = (raw.bytes[0], raw.bytes[1], raw.bytes[2]);
                return Ok(Some(format!(in alloc;
                    "extension {number} begins with {tag:02x} {revision:02x} {place:02x}"
                )?));
            }
        }
    }
    Ok(None)
}

fn kind_word(kind: BlockKind) -> &'static str {
    match kind {
        BlockKind::Tag0 => "tag 0",
        BlockKind::Audio => "audio",
        BlockKind::Video => "video",
        BlockKind::Vendor => "vendor",
        BlockKind::Speakers => "speakers",
        BlockKind::Tag5 => "tag 5",
        BlockKind::Tag6 => "tag 6",
        BlockKind::Extended => "extended",
    }
}

/// What kind of block it is, and its bytes.
pub fn bytes_reported(alloc: Global, block: &DataBlock) -> Result<String, AllocError> {
    let kind = kind_word(block.kind);
    let mut text = format!(in alloc; "{kind} ")?;
    if block.payload.is_empty() {
        text.push_str("-")?;
    }
    for byte in block.payload.as_slice() {
        let digits = format!(in alloc; "{byte:02x}")?;
        text.push_str(digits.as_str())?;
    }
    Ok(text)
}

/// The first field of a data block whose value is reserved, after the block: its name, its place, its value.
fn field_reported(alloc: Global, block: &DataBlock) -> Result<String, AllocError> {
    let bytes = bytes_reported(alloc, block)?;
    if let Some(layout) = layout_of(block) {
        let walked = walk(parts_of(layout.2), body_of(block, layout));
        for report in walked.fields.as_slice() {
            if is_reserved(report) {
                let (name, value) = (report.row.1, report.value);
                let byte = report.at / 8 + layout.1.len();
                return format!(in alloc; "{bytes}, byte {byte}: {name} {value}");
            }
        }
    }
    Ok(bytes)
}

/// Whether a data block is too short or too long, after the block.
fn length_reported(alloc: Global, block: &DataBlock) -> Result<String, AllocError> {
    let bytes = bytes_reported(alloc, block)?;
    match left_of(block) {
        0 => format!(in alloc; "{bytes}, too short"),
        left => format!(in alloc; "{bytes}, bytes after its fields: {left}"),
    }
}

/// What is wrong in a data block.
fn block_reported(alloc: Global, slip: Slip, block: &DataBlock) -> Result<String, AllocError> {
    match slip {
        Slip::Reserved => field_reported(alloc, block),
        Slip::Bytes => length_reported(alloc, block),
        _ => bytes_reported(alloc, block),
    }
}

/// The first data block in which this is wrong.
pub fn slip_reported(
    alloc: Global,
    slip: Slip,
    extensions: &[Ext],
) -> Result<Option<String>, AllocError> {
    for ext in extensions {
        for block in blocks_of(ext) {
            if has_slip(slip, block) {
                return Ok(Some(block_reported(alloc, slip, block)?));
            }
        }
    }
    Ok(None)
}

fn sort_word(sort: Sort) -> &'static str {
    match sort {
        Sort::VideoCapability => "video capability",
        Sort::Colorimetry => "colorimetry",
        Sort::HdrStatic => "static HDR",
        Sort::Map => "4:2:0 map",
        Sort::Speakers => "speakers",
        Sort::Forum => "HDMI Forum",
    }
}

/// The first sort of blocks of which an extension has more than one.
pub fn repeated_block_reported(
    alloc: Global,
    extensions: &[Ext],
) -> Result<Option<String>, AllocError> {
    for ext in extensions {
        for sort in &SORTS {
            let count = count_of_sort(*sort, blocks_of(ext));
            if 1 < count {
                let name = sort_word(*sort);
                return Ok(Some(format!(in alloc; "{count} blocks of {name}")?));
            }
        }
    }
    Ok(None)
}

/// Whether a place is that of the first data block of the first extension.
fn is_first(number: u8, place: u8) -> bool {
    number == 1 && place == 1
}

/// Where an override of the count of extensions stands that is not the first data block.
pub fn override_reported(alloc: Global, extensions: &[Ext]) -> Result<Option<String>, AllocError> {
    let mut number = 0_u8;
    for ext in extensions {
        number = number.saturating_add(1);
        let mut place = 0_u8;
        for block in blocks_of(ext) {
            place = place.saturating_add(1);
            if is_override(block) && !is_first(number, place) {
                return Ok(Some(format!(in alloc; "data block {place} of extension {number}")?));
            }
        }
    }
    Ok(None)
}

/// The first data block, and the count of the base block.
pub fn override_count_reported(
    alloc: Global,
    count: u8,
    extensions: &[Ext],
) -> Result<Option<String>, AllocError> {
    for ext in extensions {
        for block in blocks_of(ext) {
            let bytes = bytes_reported(alloc, block)?;
            return Ok(Some(format!(in alloc; "{bytes}, byte 126 is {count}")?));
        }
    }
    Ok(None)
}
