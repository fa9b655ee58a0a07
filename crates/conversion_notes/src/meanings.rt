//! What stands below a line. meaning_words says how the meaning of one more kind of line is added; here it is an arm of
//! `append_bytes`, and the same arm of `bytes_meanings`; of a kind of data block, of `append_block` and `block_meanings`.
ghost use Rattle.std.specs.Prelude.{◌≡◌, ◌≤◌, ◌++◌, length, flat_map};
ghost use Rattle.arrayvec.specs.ArrayVec.{array_vec_len};
ghost use Rattle.meaning_words.specs.Notes.{own_line};
ghost use Rattle.conversion_notes.specs.Meanings.{block_meanings, bytes_meanings, numbers_meanings, fields_meanings, line_with_meaning, ext_lines, raw_lines, section_meanings};

use edid_base::{Base, append};
use edid_cta::BlockKind;
use edid_text_lines::{Fields, Keyword, Line};
use meaning_base::{
    append_chroma, append_descriptor, append_established, append_ext, append_features,
    append_gamma, append_input, append_made, append_range, append_raw, append_size,
    append_standard,
};
use meaning_cta::{append_audio, append_flags, append_hdmi, append_speakers};
use meaning_displayid::append_displayid;
use meaning_extended::{append_extended, append_vendor};
use meaning_words::{Page, append_timing, append_video, byte_at};

/// The tag of a section of DisplayID.
const DISPLAYID: u8 = 0x70;

/// Appends what a descriptor of no other form means: its tag, and what that one's own form says.
fn append_raw_lines(page: &mut Page, bytes: &[u8])
    requires few { length bytes.now ≤ 128 }
    requires room { array_vec_len page.old ≤ 300 }
    ensures { page.new.items ≡ page.old.items ++ flat_map own_line (raw_lines bytes.now) }
{
    append_raw(page, bytes);
    append_descriptor(page, bytes);
}

/// Appends what an extension that is kept as it is means: its kind, and what a section of DisplayID says.
fn append_ext_lines(page: &mut Page, bytes: &[u8])
    requires few { length bytes.now ≤ 128 }
    requires room { array_vec_len page.old ≤ 300 }
    ensures { page.new.items ≡ page.old.items ++ flat_map own_line (ext_lines bytes.now) }
{
    append_ext(page, bytes);
    append_section(page, bytes);
}

fn append_section(page: &mut Page, bytes: &[u8])
    requires few { length bytes.now ≤ 128 }
    requires room { array_vec_len page.old ≤ 900 }
    ensures { page.new.items ≡ page.old.items ++ flat_map own_line (section_meanings bytes.now) }
{
    if byte_at(bytes, 0) == DISPLAYID {
        append_displayid(page, bytes);
    }
}

/// Appends what a data block means.
fn append_block(page: &mut Page, codes: &[u8], kind: BlockKind, bytes: &[u8])
    requires few { length bytes.now ≤ 128 }
    requires room { array_vec_len page.old ≤ 300 }
    ensures { page.new.items ≡ page.old.items ++ flat_map own_line (block_meanings codes.now kind bytes.now) }
{
    match kind {
        BlockKind::Audio => append_audio(page, bytes),
        BlockKind::Video => append_video(page, bytes),
        BlockKind::Speakers => append_speakers(page, bytes),
        BlockKind::Vendor => append_vendor(page, bytes),
        BlockKind::Extended => append_extended(page, codes, bytes),
        _ => {}
    }
}

/// Appends what bytes after a word mean.
fn append_bytes(page: &mut Page, base: &Base, codes: &[u8], word: Keyword, bytes: &[u8])
    requires few { length bytes.now ≤ 128 }
    requires room { array_vec_len page.old ≤ 300 }
    ensures { page.new.items ≡ page.old.items ++ flat_map own_line (bytes_meanings base.now codes.now word bytes.now) }
{
    match word {
        Keyword::Input => append_input(page, base.revision, bytes),
        Keyword::Features => append_features(page, base.revision, base.input, bytes),
        Keyword::Established => append_established(page, bytes),
        Keyword::Range => append_range(page, base.revision, base.features, bytes),
        Keyword::Raw => append_raw_lines(page, bytes),
        Keyword::Cta | Keyword::CtaNone => append_flags(page, bytes),
        Keyword::Block(kind) => append_block(page, codes, kind, bytes),
        Keyword::Ext => append_ext_lines(page, bytes),
        _ => {}
    }
}

/// Appends what numbers after a word mean.
fn append_numbers(page: &mut Page, base: &Base, word: Keyword, numbers: &[u32])
    requires { array_vec_len page.old ≤ 300 }
    ensures { page.new.items ≡ page.old.items ++ flat_map own_line (numbers_meanings base.now word numbers.now) }
{
    match word {
        Keyword::Made => append_made(page, base.revision, numbers),
        Keyword::Size => append_size(page, base.revision, numbers),
        Keyword::Gamma => append_gamma(page, numbers),
        Keyword::Chroma => append_chroma(page, numbers),
        Keyword::Standard => append_standard(page, numbers),
        _ => {}
    }
}

/// Appends what the fields after a word mean.
fn append_fields(page: &mut Page, base: &Base, codes: &[u8], word: Keyword, fields: &Fields)
    requires { array_vec_len page.old ≤ 300 }
    ensures { page.new.items ≡ page.old.items ++ flat_map own_line (fields_meanings base.now codes.now word fields.now) }
{
    match fields {
        Fields::Numbers(numbers) => append_numbers(page, base, word, numbers.as_slice()),
        Fields::Timed(numbers, flags) => append_timing(page, numbers.as_slice(), *flags),
        Fields::Bytes(bytes) => append_bytes(page, base, codes, word, bytes.as_slice()),
        Fields::Address(_, bytes) => append_hdmi(page, codes, bytes.as_slice()),
        _ => {}
    }
}

/// Puts a line as it stands in a text, and below it what it means, in place of what stood on a page.
pub(crate) fn fill_page(page: &mut Page, base: &Base, codes: &[u8], line: &Line)
    ensures { page.new.items ≡ line_with_meaning base.now codes.now line.now }
{
    page.clear();
    append(page, line.write().as_slice());
    append_fields(page, base, codes, line.word, &line.fields);
}
