//! The replay of a device, written.
ghost use Rattle.capture_replay.specs.Replay.{IsReplayed};

use crate::counts::ReplayCounts;
use crate::whole::add_replay;
use capture_core::Capture;
use line_frames::Addr;
use text_core::{Counted, Sink, WriteFault};

/// Writes what the device of a logical address drove on a captured line, as lines `pin` of a script at the capture's own times, then a
/// remark that says how many low stretches are left out, and last `end` with the end of the capture. The capture is read wide, as an audit
/// reads it.
///
/// Of a frame whose header was read, the initiator drove the start bit and the slots, and the destination of a frame to it alone the
/// acknowledge slots that are read 0 or fall again; in these the initiator counts as low for 600 microseconds, as a 1 is nominally. What
/// breaks a frame off, what trails behind its end, bits without a start bit, the acknowledge of broadcasts, and what has no whole header
/// are left out, since the line does not tell whose they are.
///
/// A script takes 16,384 lows of the pin, times of 1,000,000,000,000 at most, and as a file a megabyte. A replay is not cut to these
/// limits: `pins` says how many lows it has, and a session takes any number of them, one after another.
///
/// # Errors
///
/// A failed write: then the front of the replay was written, as long as it reports.
pub fn write_replay<S: Sink>(
    capture: &Capture,
    address: Addr,
    out: &mut S,
) -> Result<ReplayCounts, WriteFault>
    ensures { IsReplayed address capture.now (S.contents out.old) (S.contents out.new) (S.is_stuck out.old) (S.is_stuck out.new) result }
{
    let mut text = Counted::new(out);
    let counts = add_replay(&mut text, address.value(), capture.edges(), capture.end());
    let written = text.written();
    // No effect at run time. The proof reads what `out` holds from the sink that comes back.
    let _below = text.into_sink();
    match written {
        Ok(_) => Ok(counts),
        Err(fault) => Err(fault),
    }
}
