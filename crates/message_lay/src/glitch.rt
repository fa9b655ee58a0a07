//! A pull more among pulls in order.
ghost use Rattle.std.specs.Prelude.{◌≡◌, ◌+◌, ◌≤◌, length};
ghost use Rattle.message_lay.specs.Bits.{most_slots};
ghost use Rattle.message_lay.specs.Faults.{with_pull};

use crate::pulls::LinePulls;
use arrayvec::ArrayVec;
use line_wave::Stretch;

/// The stretches with one more, which is joined with those that it overlaps or touches.
pub fn with_pull(pull: Stretch, stretches: &[Stretch]) -> LinePulls
    requires { length stretches.now ≤ most_slots + 1 }
    ensures { result.items ≡ with_pull pull stretches.now }
{
    let mut pulls = ArrayVec::new();
    let mut own = pull;
    let mut index = 0;
    'passed: while index < stretches.len() && stretches[index].to < own.from {
        pulls.push(stretches[index]);
        index += 1;
    }
    'met: while index < stretches.len() && stretches[index].from <= own.to {
        own = Stretch {
            from: own.from.min(stretches[index].from),
            to: own.to.max(stretches[index].to),
        };
        index += 1;
    }
    pulls.push(own);
    let _ = pulls.try_extend_from_slice(&stretches[index..]);
    pulls
}
