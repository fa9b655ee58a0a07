//! Zeros of an extension.
ghost use Rattle.std.specs.Prelude.{◌≡◌, ◌≤◌};
ghost use Rattle.conversion_fit.specs.Zeros.{zeros_after};

use arrayvec::ArrayVec;
use edid_base::append;

/// The bytes between the flags of an extension and its checksum.
const BODY: usize = 123;

/// Zeros after so many bytes.
#[tactic(auto, using(crate::proofs::Zeros::zeros_front))]
pub fn zeros_after(count: usize) -> ArrayVec<u8, BODY>
    requires { count ≤ 123 }
    ensures { result.items ≡ zeros_after count }
{
    let mut tail = ArrayVec::new();
    append(&mut tail, &[0; BODY][..BODY - count]);
    tail
}
