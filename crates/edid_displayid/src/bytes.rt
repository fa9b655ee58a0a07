//! Bytes by their places.
ghost use Rattle.std.specs.Prelude.{◌≡◌, ◌≤◌, ◌<◌, ◌+◌, drop, length, slice_index, take};
ghost use Rattle.edid_displayid.specs.Layouts.{two_at};

/// The byte at a place, or 0 past the end.
pub(crate) fn byte_at(bytes: &[u8], place: usize) -> u64
    ensures value { result ≡ slice_index bytes.now place }
    ensures small { result < 256 }
{
    if place < bytes.len() {
        u64::from(bytes[place])
    } else {
        0
    }
}

/// Two bytes, the lowest first, and 1.
pub(crate) fn two_at(bytes: &[u8], place: usize) -> u64
    requires { place < 1000 }
    ensures value { result ≡ two_at bytes.now place }
    ensures small { result ≤ 65536 }
{
    byte_at(bytes, place) + byte_at(bytes, place + 1) * 256 + 1
}

/// So many bytes from a place on.
pub(crate) fn part(bytes: &[u8], at: usize, len: usize) -> &[u8]
    requires { at + len ≤ length bytes.now }
    ensures value { result.now ≡ take len (drop at bytes.now) }
    ensures len { length result.now ≡ len }
{
    &bytes[at..at + len]
}

/// The bytes from a place on.
pub(crate) fn rest(bytes: &[u8], at: usize) -> &[u8]
    requires { at ≤ length bytes.now }
    ensures value { result.now ≡ drop at bytes.now }
    ensures len { at + length result.now ≡ length bytes.now }
{
    &bytes[at..]
}
