//! Parts of a payload, whatever its length.
ghost use Rattle.std.specs.Prelude.{◌≡◌, ◌<◌, ◌≤◌, length, slice_index, take, drop};

/// The byte at a place, or 0 past the end.
pub fn byte_at(bytes: &[u8], place: usize) -> u8
    ensures { result ≡ slice_index bytes.now place }
{
    if place < bytes.len() { bytes[place] } else { 0 }
}

/// The first bytes.
pub fn before(bytes: &[u8], count: usize) -> &[u8]
    ensures { result.now ≡ take count bytes.now }
{
    if count < bytes.len() {
        &bytes[..count]
    } else {
        bytes
    }
}

/// What stands after the first bytes.
pub fn after(bytes: &[u8], count: usize) -> &[u8]
    ensures rest { result.now ≡ drop count bytes.now }
    ensures shorter { length result.now ≤ length bytes.now }
{
    if count < bytes.len() {
        &bytes[count..]
    } else {
        &[]
    }
}
