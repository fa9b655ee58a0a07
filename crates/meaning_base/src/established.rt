//! What the established timings mean.
ghost use Rattle.std.specs.Prelude.{◌≡◌, ◌≤◌, ◌+◌, ◌%◌, ◌++◌, flat_map, slice_index};
ghost use Rattle.arrayvec.specs.ArrayVec.{array_vec_len};
ghost use Rattle.meaning_words.specs.Notes.{own_line, set_lines};
ghost use Rattle.meaning_base.specs.Established.{established_rows, established_bits, own_text, own_meanings, established_meanings};

use arrayvec::ArrayVec;
use meaning_words::{
    Bit, Note, PAGE, Page, append_bit_lines, append_line, append_named_hex, bit_rows, byte_at,
};

const ESTABLISHED: &[Bit] = bit_rows! {
    8388608 "720x400 at 70 Hz";
    4194304 "720x400 at 88 Hz";
    2097152 "640x480 at 60 Hz";
    1048576 "640x480 at 67 Hz";
    524288 "640x480 at 72 Hz";
    262144 "640x480 at 75 Hz";
    131072 "800x600 at 56 Hz";
    65536 "800x600 at 60 Hz";
    32768 "800x600 at 72 Hz";
    16384 "800x600 at 75 Hz";
    8192 "832x624 at 75 Hz";
    4096 "1024x768i at 87 Hz";
    2048 "1024x768 at 60 Hz";
    1024 "1024x768 at 70 Hz";
    512 "1024x768 at 75 Hz";
    256 "1280x1024 at 75 Hz";
    128 "1152x870 at 75 Hz";
};

fn established_bits(bytes: &[u8]) -> u32
    ensures { result ≡ established_bits bytes.now }
{
    u32::from(byte_at(bytes, 0)) * 65536
        + u32::from(byte_at(bytes, 1)) * 256
        + u32::from(byte_at(bytes, 2))
}

#[tactic(auto, unfolding(crate::specs::Established::own_text))]
fn own_note(bits: u8) -> Note
    ensures value { result.items ≡ own_text bits }
    ensures len { array_vec_len result ≤ 50 }
{
    let mut note = ArrayVec::new();
    append_named_hex(&mut note, b"of the maker's own: ", &[bits]);
    note
}

fn append_own_bits(page: &mut Page, bits: u8)
    requires { array_vec_len page.old + 60 ≤ PAGE }
    ensures { page.new.items ≡ page.old.items ++ flat_map own_line (own_meanings bits) }
{
    if bits != 0 {
        append_line(page, own_note(bits).as_slice());
    }
}

fn append_own(page: &mut Page, bytes: &[u8])
    requires { array_vec_len page.old + 60 ≤ PAGE }
    ensures { page.new.items ≡ page.old.items ++ flat_map own_line (own_meanings (slice_index bytes.now 2 % 128)) }
{
    append_own_bits(page, byte_at(bytes, 2) % 128);
}

fn append_timing_lines(page: &mut Page, bits: u32)
    requires { array_vec_len page.old + 697 ≤ PAGE }
    ensures items { page.new.items ≡ page.old.items ++ flat_map own_line (set_lines established_rows bits) }
    ensures len { array_vec_len page.new ≤ array_vec_len page.old + 697 }
{
    append_bit_lines(page, ESTABLISHED, bits);
}

fn append_timings(page: &mut Page, bytes: &[u8])
    requires { array_vec_len page.old + 697 ≤ PAGE }
    ensures items { page.new.items ≡ page.old.items ++ flat_map own_line (set_lines established_rows (established_bits bytes.now)) }
    ensures len { array_vec_len page.new ≤ array_vec_len page.old + 697 }
{
    append_timing_lines(page, established_bits(bytes));
}

/// Appends a line for each established timing, and one for bits of the maker's own (E-EDID Release A, section 3.8).
#[tactic(auto, unfolding(crate::specs::Established::established_meanings))]
pub fn append_established(page: &mut Page, bytes: &[u8])
    requires { array_vec_len page.old + 757 ≤ PAGE }
    ensures { page.new.items ≡ page.old.items ++ flat_map own_line (established_meanings bytes.now) }
{
    append_timings(page, bytes);
    append_own(page, bytes);
}
