//! What the descriptor of established timings III means.
ghost use Rattle.std.specs.Prelude.{◌≡◌, ◌≤◌, ◌<◌, ◌+◌, ◌++◌, length, flat_map};
ghost use Rattle.arrayvec.specs.ArrayVec.{array_vec_len};
ghost use Rattle.meaning_words.specs.Notes.{own_line, set_lines};
ghost use Rattle.meaning_base.specs.EstablishedIii.{established_meanings, first_lines, first_rows, second_lines, second_rows, spare_lines, spare_rows, three_bytes};

use meaning_fields::{Field, FieldSays, append_block, field_rows};
use meaning_words::{Bit, PAGE, Page, append_bit_lines, bit_rows, byte_at};

const FIRST: &[Bit] = bit_rows! {
    8388608 "640x350 at 85 Hz";
    4194304 "640x400 at 85 Hz";
    2097152 "720x400 at 85 Hz";
    1048576 "640x480 at 85 Hz";
    524288 "848x480 at 60 Hz";
    262144 "800x600 at 85 Hz";
    131072 "1024x768 at 85 Hz";
    65536 "1152x864 at 75 Hz";
    32768 "1280x768 at 60 Hz, reduced blanking";
    16384 "1280x768 at 60 Hz";
    8192 "1280x768 at 75 Hz";
    4096 "1280x768 at 85 Hz";
    2048 "1280x960 at 60 Hz";
    1024 "1280x960 at 85 Hz";
    512 "1280x1024 at 60 Hz";
    256 "1280x1024 at 85 Hz";
    128 "1360x768 at 60 Hz";
    64 "1440x900 at 60 Hz, reduced blanking";
    32 "1440x900 at 60 Hz";
    16 "1440x900 at 75 Hz";
    8 "1440x900 at 85 Hz";
    4 "1400x1050 at 60 Hz, reduced blanking";
    2 "1400x1050 at 60 Hz";
    1 "1400x1050 at 75 Hz";
};

const SECOND: &[Bit] = bit_rows! {
    8388608 "1400x1050 at 85 Hz";
    4194304 "1680x1050 at 60 Hz, reduced blanking";
    2097152 "1680x1050 at 60 Hz";
    1048576 "1680x1050 at 75 Hz";
    524288 "1680x1050 at 85 Hz";
    262144 "1600x1200 at 60 Hz";
    131072 "1600x1200 at 65 Hz";
    65536 "1600x1200 at 70 Hz";
    32768 "1600x1200 at 75 Hz";
    16384 "1600x1200 at 85 Hz";
    8192 "1792x1344 at 60 Hz";
    4096 "1792x1344 at 75 Hz";
    2048 "1856x1392 at 60 Hz";
    1024 "1856x1392 at 75 Hz";
    512 "1920x1200 at 60 Hz, reduced blanking";
    256 "1920x1200 at 60 Hz";
    128 "1920x1200 at 75 Hz";
    64 "1920x1200 at 85 Hz";
    32 "1920x1440 at 60 Hz";
    16 "1920x1440 at 75 Hz";
    8 "reserved timing 3";
    4 "reserved timing 2";
    2 "reserved timing 1";
    1 "reserved timing 0";
};

const SPARE: &[Field] = field_rows! {
    4 1 1 256 FieldSays::Hex(", byte 5 is ");
    5 1 1 256 FieldSays::Number { before: ", revision ", times: 1, plus: 0, after: "" };
    12 1 1 256 FieldSays::Hex(", byte 13 is ");
    13 1 1 256 FieldSays::Hex(", byte 14 is ");
    14 1 1 256 FieldSays::Hex(", byte 15 is ");
    15 1 1 256 FieldSays::Hex(", byte 16 is ");
    16 1 1 256 FieldSays::Hex(", byte 17 is ");
    17 1 1 256 FieldSays::Hex(", byte 18 is ");
};

fn three_bytes(bytes: &[u8], place: usize) -> u32
    requires { place < 1000 }
    ensures { result ≡ three_bytes bytes.now place }
{
    u32::from(byte_at(bytes, place)) * 65_536
        + u32::from(byte_at(bytes, place + 1)) * 256
        + u32::from(byte_at(bytes, place + 2))
}

fn append_first_bits(page: &mut Page, bits: u32)
    requires { array_vec_len page.old + 984 ≤ PAGE }
    ensures items { page.new.items ≡ page.old.items ++ flat_map own_line (set_lines first_rows bits) }
    ensures len { array_vec_len page.new ≤ array_vec_len page.old + 984 }
{
    append_bit_lines(page, FIRST, bits);
}

fn append_second_bits(page: &mut Page, bits: u32)
    requires { array_vec_len page.old + 984 ≤ PAGE }
    ensures items { page.new.items ≡ page.old.items ++ flat_map own_line (set_lines second_rows bits) }
    ensures len { array_vec_len page.new ≤ array_vec_len page.old + 984 }
{
    append_bit_lines(page, SECOND, bits);
}

fn append_first(page: &mut Page, bytes: &[u8])
    requires { array_vec_len page.old + 984 ≤ PAGE }
    ensures items { page.new.items ≡ page.old.items ++ flat_map own_line (first_lines bytes.now) }
    ensures len { array_vec_len page.new ≤ array_vec_len page.old + 984 }
{
    append_first_bits(page, three_bytes(bytes, 6));
}

fn append_second(page: &mut Page, bytes: &[u8])
    requires { array_vec_len page.old + 984 ≤ PAGE }
    ensures items { page.new.items ≡ page.old.items ++ flat_map own_line (second_lines bytes.now) }
    ensures len { array_vec_len page.new ≤ array_vec_len page.old + 984 }
{
    append_second_bits(page, three_bytes(bytes, 9));
}

fn append_spare(page: &mut Page, bytes: &[u8])
    requires few { length bytes.now ≤ 128 }
    requires room { array_vec_len page.old + 1536 ≤ PAGE }
    ensures items { page.new.items ≡ page.old.items ++ flat_map own_line (spare_lines bytes.now) }
    ensures len { array_vec_len page.new ≤ array_vec_len page.old + 1400 }
{
    append_block(page, b"", SPARE, 18, bytes);
}

/// Appends the revision of a descriptor of established timings III, and a line for each of its timings.
pub(crate) fn append_established(page: &mut Page, bytes: &[u8])
    requires few { length bytes.now ≤ 128 }
    requires room { array_vec_len page.old + 4000 ≤ PAGE }
    ensures { page.new.items ≡ page.old.items ++ flat_map own_line (established_meanings bytes.now) }
{
    append_spare(page, bytes);
    append_first(page, bytes);
    append_second(page, bytes);
}
