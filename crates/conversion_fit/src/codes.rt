//! Video codes that the link carries, and the map of those that are there in 4:2:0 too.
ghost use Rattle.std.specs.Prelude.{◌≡◌, ◌≤◌, ◌+◌, ◌*◌, ◌++◌, length};
ghost use Rattle.arrayvec.specs.ArrayVec.{array_vec_len};
ghost use Rattle.conversion_fit.specs.Blocks.{fitted_map, keeps, kept_codes, kept_marks, mark, mark_at, marks_byte, packed};

use arrayvec::ArrayVec;
use edid_cta::Ext;
use rules_link::is_code_beyond;
use rules_rates::is_marked;
use rules_values::{MAX_CODES, code_of};
use text_core::byte_at;

/// The most bytes of a data block after its first.
pub const PAYLOAD: usize = 31;

/// Whether the link carries the format of a byte of video codes, in 4:2:0 alone or not.
fn keeps(extensions: &[Ext], is_halved: bool, svd: u8) -> bool
    ensures { result ≡ keeps extensions.now is_halved svd }
{
    !is_code_beyond(extensions, is_halved, code_of(svd))
}

/// Appends those of some bytes of video codes that the link carries.
pub fn add_kept(out: &mut ArrayVec<u8, PAYLOAD>, extensions: &[Ext], is_halved: bool, svds: &[u8])
    requires { array_vec_len out.old + length svds.now ≤ PAYLOAD }
    ensures items { out.new.items ≡ out.old.items ++ kept_codes extensions.now is_halved svds.now }
    ensures len { array_vec_len out.new ≤ array_vec_len out.old + length svds.now }
{
    if let [svd, rest @ ..] = svds {
        if keeps(extensions, is_halved, *svd) {
            out.push(*svd);
        }
        add_kept(out, extensions, is_halved, rest);
    }
}

fn mark(is_marked: bool) -> u8
    ensures { result ≡ mark is_marked }
{
    if is_marked { 1 } else { 0 }
}

/// Appends whether a map marks each of the codes that the link carries, of those from a place on.
fn add_marks(
    marks: &mut ArrayVec<u8, MAX_CODES>,
    extensions: &[Ext],
    bytes: &[u8],
    place: usize,
    svds: &[u8],
)
    requires room { array_vec_len marks.old + length svds.now ≤ MAX_CODES }
    requires small { place + length svds.now ≤ MAX_CODES }
    ensures items { marks.new.items ≡ marks.old.items ++ kept_marks extensions.now bytes.now place svds.now }
    ensures len { array_vec_len marks.new ≤ array_vec_len marks.old + length svds.now }
{
    if let [svd, rest @ ..] = svds {
        if keeps(extensions, false, *svd) {
            marks.push(mark(is_marked(bytes, place)));
        }
        add_marks(marks, extensions, bytes, place + 1, rest);
    }
}

/// A mark by its place, 0 past the last one.
fn mark_at(marks: &[u8], place: usize) -> u8
    ensures value { result ≡ mark_at marks.now place }
    ensures small { result ≤ 1 }
{
    byte_at(marks, place) % 2
}

/// The byte of eight marks.
fn marks_byte(marks: &[u8], place: usize) -> u8
    requires { place ≤ 1000 }
    ensures { result ≡ marks_byte marks.now place }
{
    mark_at(marks, place)
        + mark_at(marks, place + 1) * 2
        + mark_at(marks, place + 2) * 4
        + mark_at(marks, place + 3) * 8
        + mark_at(marks, place + 4) * 16
        + mark_at(marks, place + 5) * 32
        + mark_at(marks, place + 6) * 64
        + mark_at(marks, place + 7) * 128
}

/// Appends so many bytes of marks from a place on.
fn add_packed(out: &mut ArrayVec<u8, PAYLOAD>, count: usize, marks: &[u8], place: usize)
    requires room { array_vec_len out.old + count ≤ PAYLOAD }
    requires small { place + 8 * count ≤ 1000 }
    ensures items { out.new.items ≡ out.old.items ++ packed count marks.now place }
    ensures len { array_vec_len out.new ≡ array_vec_len out.old + count }
{
    if count == 0 {
        return;
    }
    out.push(marks_byte(marks, place));
    add_packed(out, count - 1, marks, place + 8);
}

/// Appends the map of the codes that the link carries, in as many bytes.
pub fn add_map(out: &mut ArrayVec<u8, PAYLOAD>, extensions: &[Ext], svds: &[u8], bytes: &[u8])
    requires room { array_vec_len out.old + length bytes.now ≤ PAYLOAD }
    requires few { length svds.now ≤ MAX_CODES }
    ensures items { out.new.items ≡ out.old.items ++ fitted_map extensions.now svds.now bytes.now }
    ensures len { array_vec_len out.new ≡ array_vec_len out.old + length bytes.now }
{
    let mut marks = ArrayVec::new();
    add_marks(&mut marks, extensions, bytes, 0, svds);
    add_packed(out, bytes.len(), marks.as_slice(), 0);
}
