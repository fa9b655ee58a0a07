//! The tail of an extension.
ghost use Rattle.std.specs.Prelude.{◌≡◌, ◌≤◌, length, true, false, MatchOption};
ghost use Rattle.edid_cta.specs.Cta.{is_tail};
ghost use Rattle.edid_texts.specs.Tails.{padded_bytes, is_trimmed, fills, ends};

use arrayvec::ArrayVec;

/// The bytes, and zeros after them.
fn padded_bytes(bytes: &[u8], left: usize) -> ArrayVec<u8, 123>
    requires fit { length bytes.now ≤ left }
    requires most { left ≤ 123 }
    ensures { result.items ≡ padded_bytes left bytes.now }
{
    let mut tail = ArrayVec::new();
    let _ = tail.try_extend_from_slice(bytes);
    while tail.len() < left {
        tail.push(0);
    }
    tail
}

/// Whether no timing stands in front.
fn is_tail(bytes: &[u8]) -> bool
    ensures { result ≡ is_tail bytes.now }
{
    bytes.len() < 18 || (bytes[0] == 0 && bytes[1] == 0)
}

fn is_trimmed(bytes: &[u8]) -> bool
    ensures { result ≡ is_trimmed bytes.now }
{
    bytes.is_empty() || bytes[bytes.len() - 1] != 0
}

/// These bytes with zeros, where a text has them so and they are not too many.
pub fn filled(left: usize, bytes: &[u8]) -> Option<ArrayVec<u8, 123>>
    requires { left ≤ 123 }
    ensures { MatchOption result (fills left bytes.now ≡ false) (λ t. (fills left bytes.now ≡ true) × (t.items ≡ padded_bytes left bytes.now)) }
{
    if bytes.len() > left || !is_trimmed(bytes) {
        return None;
    }
    Some(padded_bytes(bytes, left))
}

/// The tail that these bytes and zeros are, where they can be one.
pub fn tail_of(left: usize, bytes: &[u8]) -> Option<ArrayVec<u8, 123>>
    requires { left ≤ 123 }
    ensures { MatchOption result (ends left bytes.now ≡ false) (λ t. (ends left bytes.now ≡ true) × (t.items ≡ padded_bytes left bytes.now)) }
{
    let Some(tail) = filled(left, bytes) else {
        return None;
    };
    if is_tail(tail.as_slice()) {
        Some(tail)
    } else {
        None
    }
}
