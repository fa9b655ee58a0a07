//! Pulls one after another, within the bounds of scripts.
ghost use Rattle.std.specs.Prelude.{◌≡◌};
ghost use Rattle.message_lay.specs.Text.{follow, pull_fault};

use crate::fault::LayCause;
use line_wave::{LATEST_EVENT, Stretch, WIDEST_PULL};
use text_core::{AtWord, at_word};

/// What is wrong with a pull that may begin at an instant or later, if anything is.
fn pull_fault(free: u64, pull: Stretch) -> Option<AtWord<LayCause>>
    ensures { result ≡ pull_fault free pull }
{
    if pull.from < free {
        Some(at_word(0, LayCause::Order))
    } else if pull.from > LATEST_EVENT {
        Some(at_word(0, LayCause::Late))
    } else if pull.to <= pull.from || pull.to - pull.from > WIDEST_PULL {
        Some(at_word(4, LayCause::Width))
    } else {
        None
    }
}

/// From when on a pull may begin after these, of which the first may begin at an instant or later.
///
/// # Errors
///
/// The first pull at fault: `Order` and `Late` at the line's instant, `Width` at the low of its glitch.
pub fn follow(free: u64, pulls: &[Stretch]) -> Result<u64, AtWord<LayCause>>
    ensures { result ≡ follow free pulls.now }
{
    let mut next = free;
    for pull in pulls {
        if let Some(fault) = pull_fault(next, *pull) {
            return Err(fault);
        }
        next = pull.to.saturating_add(1);
    }
    Ok(next)
}
