//! What the bytes of a video data block mean.
ghost use Rattle.std.specs.Prelude.{◌≡◌, ◌≤◌, ◌+◌, ◌*◌, ◌++◌, length, flat_map};
ghost use Rattle.arrayvec.specs.ArrayVec.{array_vec_len};
ghost use Rattle.meaning_words.specs.Notes.{own_line};
ghost use Rattle.meaning_words.specs.Videos.{aspect_text, scan_text, picture_text, format_text, code_text, is_native, code_of, native_text, video_text, video_meanings};

use crate::formats::{Aspect, VideoFormat, format_of};
use crate::notes::{NOTE, Note, PAGE, Page, append_decimal, append_line};
use arrayvec::ArrayVec;
use edid_base::append;

fn aspect_text(aspect: Aspect) -> &'static str
    ensures value { result.now ≡ aspect_text aspect }
    ensures short { length result.now ≤ 7 }
{
    match aspect {
        Aspect::FourThirds => "4:3",
        Aspect::SixteenNinths => "16:9",
        Aspect::SixtyFourTwentySevenths => "64:27",
        Aspect::Cinema => "256:135",
    }
}

fn scan_text(interlaced: bool) -> &'static str
    ensures value { result.now ≡ scan_text interlaced }
    ensures short { length result.now ≤ 5 }
{
    if interlaced { "i at " } else { " at " }
}

fn append_picture(note: &mut Note, format: VideoFormat)
    requires { array_vec_len note.old + 46 ≤ NOTE }
    ensures items { note.new.items ≡ note.old.items ++ picture_text format }
    ensures len { array_vec_len note.new ≤ array_vec_len note.old + 46 }
{
    append_decimal(note, u64::from(format.width));
    append(note, b"x");
    append_decimal(note, u64::from(format.height));
    append(note, scan_text(format.interlaced).as_bytes());
}

fn append_format(note: &mut Note, format: VideoFormat)
    requires { array_vec_len note.old + 77 ≤ NOTE }
    ensures items { note.new.items ≡ note.old.items ++ format_text format }
    ensures len { array_vec_len note.new ≤ array_vec_len note.old + 77 }
{
    append_picture(note, format);
    append_decimal(note, u64::from(format.rate));
    append(note, b" Hz ");
    append(note, aspect_text(format.aspect).as_bytes());
}

/// Appends the format that a video identification code stands for, or `reserved` (CTA-861-G, table 3).
pub fn append_code(note: &mut Note, code: u8)
    requires { array_vec_len note.old + 77 ≤ NOTE }
    ensures items { note.new.items ≡ note.old.items ++ code_text code }
    ensures len { array_vec_len note.new ≤ array_vec_len note.old + 77 }
{
    match format_of(code) {
        None => append(note, b"reserved"),
        Some(format) => append_format(note, format),
    }
}

fn is_native(svd: u8) -> bool
    ensures { result ≡ is_native svd }
{
    128 < svd && svd < 193
}

fn code_of(svd: u8) -> u8
    ensures { result ≡ code_of svd }
{
    if is_native(svd) { svd - 128 } else { svd }
}

fn native_text(svd: u8) -> &'static str
    ensures value { result.now ≡ native_text svd }
    ensures short { length result.now ≤ 9 }
{
    if is_native(svd) { " native: " } else { ": " }
}

fn video_note(svd: u8) -> Note
    ensures value { result.items ≡ video_text svd }
    ensures len { array_vec_len result ≤ 106 }
{
    let mut note = ArrayVec::new();
    let code = code_of(svd);
    append_decimal(&mut note, u64::from(code));
    append(&mut note, native_text(svd).as_bytes());
    append_code(&mut note, code);
    note
}

/// Appends a line for each byte of a video data block: its video identification code, whether that is marked as native, and
/// its format (CTA-861-G, section 7.5.1).
pub fn append_video(page: &mut Page, payload: &[u8])
    requires { array_vec_len page.old + 109 * length payload.now ≤ PAGE }
    ensures { page.new.items ≡ page.old.items ++ flat_map own_line (video_meanings payload.now) }
{
    if let [svd, rest @ ..] = payload {
        append_line(page, video_note(*svd).as_slice());
        append_video(page, rest);
    }
}
