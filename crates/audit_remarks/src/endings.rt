//! What is said of how a reading ends, where no width, no low drive and no block says it (CEC 6.1, 7.2).
ghost use Rattle.std.specs.Prelude.{◌≡◌, ◌+◌, ◌-◌, ◌<◌, ◌≤◌, length, false, slice_index_or};
ghost use Rattle.line_reading.specs.Reports.{listed_as};
ghost use Rattle.audit_remarks.specs.Endings.{begun_blocks, ending_of, ends_low, goes_on_after, goes_on_by, initiator_read, is_behind, is_bit, is_measured, is_said, is_stray, last_says, lone_of, may_have_lost, measured_of, party_of, stops_of, unmeasured_of, unsaid_of, width_of, width_says};

use crate::free::{Previous, is_bad_start};
use crate::header::{BLOCK, bit_at, ends_untaken, failed_block, initiator_of, unfinished};
use crate::series::BadStartSeries;
use audit_judged::{Cause, EndingRemark, Party, Said};
use audit_pieces::LONG_FROM;
use audit_widths::{Low, drive_within, low_misfit, total_misfit};
use line_frames::{Ending, FreeTime, Reading};

/// The slots of an initiator's address, within which the line is lost (CEC 7.2).
const ARBITRATION: usize = 4;

fn is_bit(low: Low) -> bool
    ensures { result ≡ is_bit low.fall low.rise }
{
    match low.rise {
        None => false,
        Some(rise) => rise.saturating_sub(low.fall) < LONG_FROM,
    }
}

/// Whether a reading of these low stretches is a bad start of one that is no start bit by its low time.
pub fn is_stray(reading: &Reading, lows: &[Low]) -> bool
    ensures { result ≡ is_stray (listed_as reading.now) lows.now }
{
    let [low, lows @ ..] = lows else {
        return false;
    };
    is_bad_start(reading.ending) && lows.len() == 0 && is_bit(*low)
}

fn is_behind(previous: Previous, reading: &Reading, lows: &[Low]) -> bool
    ensures { result ≡ is_behind previous (listed_as reading.now) lows.now }
{
    is_stray(reading, lows)
        && !previous.is_whole()
        && previous.free_before(reading.begin) < FreeTime::Retry.micros()
}

/// Whether the widths of a reading are judged: of bad starts one after another those of the first one, and none of a bit behind the
/// frame before, which broke, or behind one that the capture begins in.
pub fn is_measured(
    previous: Previous,
    series: BadStartSeries,
    reading: &Reading,
    lows: &[Low],
) -> bool
    ensures { result ≡ is_measured previous series (listed_as reading.now) lows.now }
{
    !((is_bad_start(reading.ending) && series.count > 0) || is_behind(previous, reading, lows))
}

fn ends_low(ending: Ending, low: Low) -> bool
    ensures { result ≡ ends_low ending low }
{
    is_bad_start(ending) || !is_bit(low)
}

fn width_says(ending: Ending, bits: &[bool], slot: u64, low: Low) -> bool
    requires { slot < 1000 }
    ensures { result ≡ width_says ending bits.now slot low }
{
    total_misfit(ending, bits, slot, low).is_some()
        || (ends_low(ending, low) && low_misfit(bits, slot, low).is_some())
}

/// Whether a width of the last of these slots says why a reading ended so, counted from one on. Slot 0 is the start bit.
pub fn last_says(ending: Ending, bits: &[bool], slot: u64, lows: &[Low]) -> bool
    requires { slot + length lows.now < 1000 }
    ensures { result ≡ last_says ending bits.now slot lows.now }
{
    let [low, lows @ ..] = lows else {
        return false;
    };
    if lows.len() == 0 {
        return width_says(ending, bits, slot, *low);
    }
    last_says(ending, bits, slot + 1, lows)
}

// Whether a low drive, a width or a block says why a reading ended.
fn is_said(drive: Option<u64>, reading: &Reading, lows: &[Low]) -> bool
    requires { length lows.now < 1000 }
    ensures { result ≡ is_said drive (listed_as reading.now) lows.now }
{
    drive.is_some()
        || drive_within(lows).is_some()
        || last_says(reading.ending, &reading.bits, 0, lows)
        || unfinished(reading.ending, &reading.bits).is_some()
        || ends_untaken(&reading.bits)
}

fn may_have_lost(bits: &[bool]) -> bool
    ensures { result ≡ may_have_lost bits.now }
{
    bits.len() <= ARBITRATION && !bit_at(bits, bits.len().saturating_sub(1))
}

fn width_of(low: Low) -> u64
    ensures { result ≡ width_of low.fall low.rise }
{
    match low.rise {
        None => 0,
        Some(rise) => rise.saturating_sub(low.fall),
    }
}

fn lone_of(lows: &[Low]) -> Said
    ensures { result ≡ lone_of lows.now }
{
    match lows {
        [] => Said::Remarked(EndingRemark::LoneStart(0)),
        [low, ..] => Said::Remarked(EndingRemark::LoneStart(width_of(*low))),
    }
}

fn stops_of(lows: &[Low], bits: &[bool]) -> Said
    ensures { result ≡ stops_of lows.now bits.now }
{
    match bits {
        [] => lone_of(lows),
        [_, ..] => {
            if may_have_lost(bits) {
                Said::Allowed(Cause::ArbitrationLost)
            } else {
                Said::Remarked(EndingRemark::Stops(bits.len()))
            }
        }
    }
}

fn unsaid_of(ending: Ending, lows: &[Low], bits: &[bool]) -> Said
    ensures { result ≡ unsaid_of ending lows.now bits.now }
{
    match ending {
        Ending::Complete => Said::Nothing,
        Ending::Open => Said::Allowed(Cause::CutByTheEnd),
        Ending::Short | Ending::Silent | Ending::BadStart | Ending::Long => stops_of(lows, bits),
    }
}

fn measured_of(drive: Option<u64>, reading: &Reading, lows: &[Low]) -> Said
    requires { length lows.now < 1000 }
    ensures { result ≡ measured_of drive (listed_as reading.now) lows.now }
{
    if is_said(drive, reading, lows) {
        Said::Nothing
    } else {
        unsaid_of(reading.ending, lows, &reading.bits)
    }
}

fn unmeasured_of(previous: Previous, series: BadStartSeries) -> Said
    ensures { result ≡ unmeasured_of previous series }
{
    if series.count == 0 && previous.is_nothing() {
        Said::Allowed(Cause::MidFrame)
    } else {
        Said::Nothing
    }
}

/// What is said of how a reading of these low stretches ends, where no width, no low drive, which may follow it, and no block says it:
/// the initiator stops, may have lost the line, or the capture cuts it.
pub fn ending_of(
    previous: Previous,
    series: BadStartSeries,
    drive: Option<u64>,
    reading: &Reading,
    lows: &[Low],
) -> Said
    requires { length lows.now < 1000 }
    ensures { result ≡ ending_of previous series drive (listed_as reading.now) lows.now }
{
    if is_measured(previous, series, reading, lows) {
        measured_of(drive, reading, lows)
    } else {
        unmeasured_of(previous, series)
    }
}

// How many blocks were begun.
fn begun_blocks(bits: &[bool]) -> usize
    requires { length bits.now ≤ 160 }
    ensures { result ≡ begun_blocks bits.now }
{
    (bits.len() + BLOCK - 1) / BLOCK
}

fn goes_on_by(bits: &[bool], failed: Option<usize>) -> Option<usize>
    requires { length bits.now ≤ 160 }
    ensures { result ≡ goes_on_by bits.now failed }
{
    match failed {
        None => None,
        Some(block) => {
            if block < begun_blocks(bits) {
                Some(block)
            } else {
                None
            }
        }
    }
}

/// The block that was not taken, after which a frame goes on (CEC 7.1).
pub fn goes_on_after(bits: &[bool]) -> Option<usize>
    requires { length bits.now ≤ 160 }
    ensures { result ≡ goes_on_after bits.now }
{
    goes_on_by(bits, failed_block(bits))
}

/// The initiator, where it was read.
pub fn initiator_read(bits: &[bool]) -> Option<u8>
    ensures { result ≡ initiator_read bits.now }
{
    if bits.len() < ARBITRATION {
        return None;
    }
    Some(initiator_of(bits))
}

/// Who is at fault for how a reading of these bits ends.
pub fn party_of(bits: &[bool], remark: EndingRemark) -> Party
    ensures { result ≡ party_of bits.now remark }
{
    match remark {
        EndingRemark::Stops(_) => Party::Initiator(initiator_read(bits)),
        EndingRemark::Stray(_)
        | EndingRemark::LoneStart(_)
        | EndingRemark::Stuck(_)
        | EndingRemark::LowDrive(_, _, _)
        | EndingRemark::Overrun(_)
        | EndingRemark::Intruder(_, _)
        | EndingRemark::TooLong
        | EndingRemark::Unfinished(_)
        | EndingRemark::AfterEnd(_) => Party::Unknown,
    }
}
