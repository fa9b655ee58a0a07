//! The pictures that an EDID marks as native.
ghost use Rattle.std.specs.Prelude.{◌≡◌, ◌≤◌, ◌+◌, ◌++◌, length, flat_map, map, take};
ghost use Rattle.std.specs.List.{list_any};
ghost use Rattle.arrayvec.specs.ArrayVec.{array_vec_len};
ghost use Rattle.rules_values.specs.ExtParts.{native_count};
ghost use Rattle.rules_native.specs.Natives.{timing_picture, format_pictures, marked_pictures, native_pictures, is_same_scan, differs, are_mixed, has_mixed_natives};

use crate::picture::Picture;
use arrayvec::ArrayVec;
use edid_base::{Base, Timing};
use edid_cta::Ext;
use meaning_words::{VideoFormat, format_of};
use rules_values::{native_count, svds, timings_of};

/// The most native pictures: 15 timings, as far as four bits count, and the codes that three extensions have room for.
pub const MAX_PICTURES: usize = 384;
/// Flags from here on say that a picture is two fields.
const INTERLACED: u8 = 128;

fn timing_picture(timing: &Timing) -> Picture
    ensures { result ≡ timing_picture timing.now }
{
    if timing.flags < INTERLACED {
        Picture {
            width: timing.horizontal_active,
            height: timing.vertical_active,
            interlaced: false,
        }
    } else {
        Picture {
            width: timing.horizontal_active,
            height: 2 * timing.vertical_active,
            interlaced: true,
        }
    }
}

/// Appends the picture of a format.
fn append_format(pictures: &mut ArrayVec<Picture, MAX_PICTURES>, format: Option<VideoFormat>)
    requires { array_vec_len pictures.old + 1 ≤ MAX_PICTURES }
    ensures items { pictures.new.items ≡ pictures.old.items ++ format_pictures format }
    ensures len { array_vec_len pictures.new ≤ array_vec_len pictures.old + 1 }
{
    if let Some(format) = format {
        pictures.push(Picture {
            width: format.width,
            height: format.height,
            interlaced: format.interlaced,
        });
    }
}

/// Appends the picture of a video code that is marked as native.
fn append_marked(pictures: &mut ArrayVec<Picture, MAX_PICTURES>, svd: u8)
    requires { array_vec_len pictures.old + 1 ≤ MAX_PICTURES }
    ensures items { pictures.new.items ≡ pictures.old.items ++ marked_pictures svd }
    ensures len { array_vec_len pictures.new ≤ array_vec_len pictures.old + 1 }
{
    if 128 < svd && svd < 193 {
        append_format(pictures, format_of(svd - 128));
    }
}

/// Appends the pictures of bytes of video data blocks.
fn append_codes(pictures: &mut ArrayVec<Picture, MAX_PICTURES>, svds: &[u8])
    requires { array_vec_len pictures.old + length svds.now ≤ MAX_PICTURES }
    ensures items { pictures.new.items ≡ pictures.old.items ++ flat_map marked_pictures svds.now }
    ensures len { array_vec_len pictures.new ≤ array_vec_len pictures.old + length svds.now }
{
    if let [svd, rest @ ..] = svds {
        append_marked(pictures, *svd);
        append_codes(pictures, rest);
    }
}

/// Appends the pictures of timings.
fn append_timings(pictures: &mut ArrayVec<Picture, MAX_PICTURES>, timings: &[Timing])
    requires { array_vec_len pictures.old + length timings.now ≤ MAX_PICTURES }
    ensures items { pictures.new.items ≡ pictures.old.items ++ map timing_picture timings.now }
    ensures len { array_vec_len pictures.new ≡ array_vec_len pictures.old + length timings.now }
{
    for timing in timings {
        pictures.push(timing_picture(timing));
    }
}

/// The first timings, so many of them as there are.
fn front(timings: &[Timing], count: usize) -> &[Timing]
    ensures value { result.now ≡ take count timings.now }
    ensures few { length result.now ≤ count }
{
    if count <= timings.len() {
        &timings[..count]
    } else {
        timings
    }
}

/// The pictures that are native where so many timings are: those of the first timings, and of the video codes that are marked.
pub fn native_pictures(
    count: usize,
    timings: &[Timing],
    extensions: &[Ext],
) -> ArrayVec<Picture, MAX_PICTURES>
    requires few { length extensions.now ≤ 3 }
    requires small { count ≤ 15 }
    ensures { result.items ≡ native_pictures count timings.now extensions.now }
{
    let mut pictures = ArrayVec::new();
    append_timings(&mut pictures, front(timings, count));
    append_codes(&mut pictures, svds(extensions).as_slice());
    pictures
}

fn is_same_scan(left: bool, right: bool) -> bool
    ensures { result ≡ is_same_scan left right }
{
    if left { right } else { !right }
}

/// Whether two pictures, both of two fields or both of one, are not as wide or not as high.
pub fn differs(left: Picture, right: Picture) -> bool
    ensures { result ≡ differs left right }
{
    is_same_scan(left.interlaced, right.interlaced)
        && !(left.width == right.width && left.height == right.height)
}

fn some_differs(picture: Picture, others: &[Picture]) -> bool
    ensures { result ≡ list_any (differs picture) others.now }
{
    others.iter().any(|other| differs(picture, *other))
}

/// Whether two pictures of one scan are of two sizes.
fn are_mixed(pictures: &[Picture]) -> bool
    ensures { result ≡ are_mixed pictures.now }
{
    match pictures {
        [] => false,
        [picture, rest @ ..] => some_differs(*picture, rest) || are_mixed(rest),
    }
}

/// Whether the native pictures are of several sizes with as many timings as an extension counts.
fn counts_mixed(ext: &Ext, timings: &[Timing], extensions: &[Ext]) -> bool
    requires { length extensions.now ≤ 3 }
    ensures { result ≡ are_mixed (native_pictures (native_count ext.now) timings.now extensions.now) }
{
    are_mixed(native_pictures(native_count(ext), timings, extensions).as_slice())
}

/// Whether the pictures that an EDID marks as native are of several sizes, those of two fields and those of one each by
/// themselves. Native are the first detailed timings, as many as the flags of an extension count (CTA-861-D, section 7.5), and
/// the video codes that are marked (section 7.5.1).
pub fn has_mixed_natives(base: &Base, extensions: &[Ext]) -> bool
    requires { length extensions.now ≤ 3 }
    ensures { result ≡ has_mixed_natives base.now extensions.now }
{
    let timings = timings_of(base, extensions);
    extensions
        .iter()
        .any(|ext| counts_mixed(ext, timings.as_slice(), extensions))
}
