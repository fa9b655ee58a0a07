//! The frames of each initiator.
ghost use Rattle.std.specs.Prelude.{◌≡◌, ◌≤◌, length};
ghost use Rattle.audit_remarks.specs.Counts.{is_cut_off, no_counts, with_frame, with_reading};

use crate::header::{HEADER, failed_block, initiator_of, is_delivered};
use line_frames::Ending;

/// How many frames were taken, were not acknowledged or were refused, and broke. A reading that the end of the capture cuts
/// off is none of these, unless a block of it had failed.
#[derive(Clone, Copy, Debug, PartialEq, Eq)]
pub struct FrameCount {
    pub taken: u64,
    pub untaken: u64,
    pub broken: u64,
}

// Whether the end of the capture cuts a reading off.
fn is_cut_off(ending: Ending) -> bool
    ensures { result ≡ is_cut_off ending }
{
    match ending {
        Ending::Open => true,
        Ending::Complete | Ending::Short | Ending::Silent | Ending::BadStart | Ending::Long =>
            false,
    }
}

impl FrameCount {
    const NONE: FrameCount = FrameCount {
        taken: 0,
        untaken: 0,
        broken: 0,
    };

    fn add(&mut self, ending: Ending, bits: &[bool])
        requires { length bits.now ≤ 160 }
        ensures { self.new ≡ with_frame ending bits.now self.old }
    {
        if is_delivered(ending, bits) {
            self.taken = self.taken.saturating_add(1);
        } else if failed_block(bits).is_some() {
            self.untaken = self.untaken.saturating_add(1);
        } else if !is_cut_off(ending) {
            self.broken = self.broken.saturating_add(1);
        }
    }
}

/// The counts of the initiators 0 to 15.
pub type Counts = [FrameCount; 16];

/// Of no frame.
pub fn no_counts() -> Counts
    ensures { result ≡ no_counts }
{
    [FrameCount::NONE; 16]
}

/// A reading has come.
pub fn count_reading(ending: Ending, bits: &[bool], counts: &mut Counts)
    requires { length bits.now ≤ 160 }
    ensures { counts.new ≡ with_reading ending bits.now counts.old }
{
    if bits.len() < HEADER {
        return;
    }
    let initiator = initiator_of(bits) as usize;
    let mut count = counts[initiator];
    count.add(ending, bits);
    counts[initiator] = count;
}
