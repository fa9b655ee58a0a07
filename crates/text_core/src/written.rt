//! Counts of what was written of a text, part by part.
ghost use Rattle.std.specs.Prelude.{◌≡◌, ◌+◌};
ghost use Rattle.text_core.specs.Cut.{reported_count};

use crate::sink::WriteFault;

/// How much is written, with the next part.
pub fn counted(written: u128, count: u128) -> u128
    ensures { result ≡ reported_count (written + count) }
{
    written.saturating_add(count)
}

/// A fault in the next part of a text of which this much was written.
pub fn cut_at(written: u128, fault: WriteFault) -> WriteFault
    ensures { result.count ≡ reported_count (written + fault.count) }
{
    WriteFault {
        count: written.saturating_add(fault.count),
    }
}
