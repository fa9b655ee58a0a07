//! What is said of a reading, part by part.
ghost use Rattle.std.specs.Prelude.{◌≡◌, ◌+◌, ◌<◌, ◌≤◌, length};
ghost use Rattle.std.specs.Option.{option_copied};
ghost use Rattle.line_reading.specs.Reports.{listed_as};
ghost use Rattle.audit_widths.specs.Misfits.{drive_within};
ghost use Rattle.audit_core.specs.Lines.{answer_lines, answers_lines, claims_lines, count_lines, counts_lines, if_answered, if_given_up, if_late, is_followed, last_by, last_of, late_lines, misfit_lines, named_lines, noted, slot_by, slot_low, slot_total, spread_lines, summary_of, unless_reported, widths_lines};

use crate::notes::misfit_note;
use audit_notes::{AuditNote, LineHearer, SpreadKind, WidthSummary};
use audit_remarks::{FrameCount, Mention, Request, Sources, is_stray, stops_untaken};
use audit_widths::{Low, Misfit, Spread, Widths, low_misfit, total_misfit};
use line_frames::{Ending, Reading};

/// Which widths of the last slot of a reading are its own.
#[derive(Clone, Copy, Debug, PartialEq, Eq)]
pub(crate) enum LastSlot {
    /// Both.
    Own,
    /// A low drive follows, or another frame: the time to the next fall is none.
    Followed,
    /// A low drive begins within it: neither is.
    Driven,
}

// The last slot of a reading which something else follows, or within which a low drive of this width begins.
fn last_by(followed: bool, within: Option<u64>) -> LastSlot
    ensures { result ≡ last_by followed within }
{
    match within {
        Some(_) => LastSlot::Driven,
        None => {
            if followed {
                LastSlot::Followed
            } else {
                LastSlot::Own
            }
        }
    }
}

// Whether a low drive of this width follows a reading, or it stops with a block that was not taken.
fn is_followed(drive: Option<u64>, reading: &Reading) -> bool
    ensures { result ≡ is_followed drive (listed_as reading.now) }
{
    drive.is_some() || stops_untaken(reading.ending, &reading.bits)
}

/// The same of a reading of these low stretches: of a bad start that is no start bit by its low time that time alone is its own.
pub(crate) fn last_of(
    drive: Option<u64>,
    within: Option<u64>,
    reading: &Reading,
    lows: &[Low],
) -> LastSlot
    requires { within ≡ drive_within lows.now }
    ensures { result ≡ last_of drive (listed_as reading.now) lows.now }
{
    if is_stray(reading, lows) {
        LastSlot::Followed
    } else {
        last_by(is_followed(drive, reading), within)
    }
}

impl LastSlot {
    /// A slot before so many others. The widths of all but the last one are their own.
    pub(crate) fn slot_by(self, left: usize) -> Self
        ensures { result ≡ slot_by self left }
    {
        if left == 0 { self } else { LastSlot::Own }
    }

    fn slot_low(self, bits: &[bool], slot: u64, low: Low) -> Option<Misfit>
        requires { slot < 1000 }
        ensures { result ≡ slot_low self bits.now slot low }
    {
        match self {
            LastSlot::Own | LastSlot::Followed => low_misfit(bits, slot, low),
            LastSlot::Driven => None,
        }
    }

    fn slot_total(self, ending: Ending, bits: &[bool], slot: u64, low: Low) -> Option<Misfit>
        ensures { result ≡ slot_total self ending bits.now slot low }
    {
        match self {
            LastSlot::Own => total_misfit(ending, bits, slot, low),
            LastSlot::Followed | LastSlot::Driven => None,
        }
    }
}

/// Hears a note, if there is one.
pub(crate) fn hear_noted<H: LineHearer>(out: &mut H, note: Option<AuditNote>)
    ensures { H.hears out.old (noted note) out.new }
{
    let Some(note) = note else {
        return;
    };
    out.note(note);
}

/// Hears what the standard calls what a line leaves as bytes.
pub(crate) fn hear_named<H: LineHearer>(out: &mut H, named: Option<&'static str>)
    ensures { H.hears out.old (named_lines (option_copied named.entry)) out.new }
{
    let Some(text) = named else {
        return;
    };
    out.word(text);
}

/// Hears the widths that are out of their windows, of the slots from one on. Slot 0 is the start bit.
pub(crate) fn hear_misfits<H: LineHearer>(
    out: &mut H,
    last: LastSlot,
    ending: Ending,
    bits: &[bool],
    slot: u64,
    lows: &[Low],
)
    requires { slot + length lows.now < 1000 }
    ensures { H.hears out.old (misfit_lines last ending bits.now slot lows.now) out.new }
{
    let [low, lows @ ..] = lows else {
        return;
    };
    let own = last.slot_by(lows.len());
    hear_noted(out, misfit_note(own.slot_low(bits, slot, *low)));
    hear_noted(out, misfit_note(own.slot_total(ending, bits, slot, *low)));
    hear_misfits(out, last, ending, bits, slot + 1, lows);
}

fn hear_claim<H: LineHearer>(out: &mut H, sources: &Sources, claim: Mention)
    ensures { H.hears out.old (unless_reported sources.now.reported.items claim) out.new }
{
    if !sources.is_unreported(claim.phys) {
        return;
    }
    out.note(AuditNote::Unreported(claim));
}

/// Hears the addresses of active sources that nobody reported.
pub(crate) fn hear_claims<H: LineHearer>(out: &mut H, sources: &Sources, claims: &[Mention])
    ensures { H.hears out.old (claims_lines sources.now.reported.items claims.now) out.new }
{
    let [claim, claims @ ..] = claims else {
        return;
    };
    hear_claim(out, sources, *claim);
    hear_claims(out, sources, claims);
}

fn hear_if_late<H: LineHearer>(out: &mut H, begin: u64, request: Request)
    ensures { H.hears out.old (if_late begin request) out.new }
{
    if !request.is_late(begin) {
        return;
    }
    out.note(AuditNote::NoAnswer(request));
}

fn hear_if_given_up<H: LineHearer>(out: &mut H, begin: u64, frame: &[u8], request: Request)
    ensures { H.hears out.old (if_given_up begin frame.now request) out.new }
{
    if !request.is_given_up(begin, frame) {
        return;
    }
    out.note(AuditNote::NoAnswer(request));
}

fn hear_if_answered<H: LineHearer>(out: &mut H, begin: u64, request: Request)
    ensures { H.hears out.old (if_answered begin request) out.new }
{
    if !request.is_late(begin) {
        return;
    }
    out.note(AuditNote::LateAnswer(request.waited(begin)));
}

fn hear_answer<H: LineHearer>(
    out: &mut H,
    first: u64,
    sent: &[u8],
    begin: u64,
    frame: &[u8],
    request: Request,
)
    ensures { H.hears out.old (answer_lines first sent.now begin frame.now request) out.new }
{
    if request.is_answer(first, sent) {
        hear_if_answered(out, first, request);
        return;
    }
    hear_if_given_up(out, begin, frame, request);
}

/// Hears which requests a frame answers too late that was sent, with a first attempt at `first`, and which stay without an answer, of
/// those that wait when its reading begins, which delivers this frame.
pub(crate) fn hear_answers<H: LineHearer>(
    out: &mut H,
    first: u64,
    sent: &[u8],
    begin: u64,
    frame: &[u8],
    waiting: &[Request],
)
    ensures { H.hears out.old (answers_lines first sent.now begin frame.now waiting.now) out.new }
{
    let [request, waiting @ ..] = waiting else {
        return;
    };
    hear_answer(out, first, sent, begin, frame, *request);
    hear_answers(out, first, sent, begin, frame, waiting);
}

/// Hears the requests that have waited for more than a second at an instant.
pub(crate) fn hear_late<H: LineHearer>(out: &mut H, begin: u64, waiting: &[Request])
    ensures { H.hears out.old (late_lines begin waiting.now) out.new }
{
    let [request, waiting @ ..] = waiting else {
        return;
    };
    hear_if_late(out, begin, *request);
    hear_late(out, begin, waiting);
}

fn summary_of(spread: Spread) -> WidthSummary
    requires { 0 < spread.count }
    ensures { result ≡ summary_of spread }
{
    WidthSummary {
        least: spread.least,
        greatest: spread.greatest,
        mean: spread.sum / spread.count,
        count: spread.count,
    }
}

fn hear_spread<H: LineHearer>(out: &mut H, kind: SpreadKind, spread: Spread)
    ensures { H.hears out.old (spread_lines kind spread) out.new }
{
    if spread.count == 0 {
        return;
    }
    out.note(AuditNote::Widths(kind, summary_of(spread)));
}

/// Hears the widths of readings, a line for each kind of which there are some.
pub(crate) fn hear_widths<H: LineHearer>(out: &mut H, widths: Widths)
    ensures { H.hears out.old (widths_lines widths) out.new }
{
    hear_spread(out, SpreadKind::StartLow, widths.start_low);
    hear_spread(out, SpreadKind::StartTotal, widths.start_total);
    hear_spread(out, SpreadKind::OneLow, widths.one_low);
    hear_spread(out, SpreadKind::ZeroLow, widths.zero_low);
    hear_spread(out, SpreadKind::BitTotal, widths.total);
}

fn hear_count<H: LineHearer>(out: &mut H, initiator: u8, count: FrameCount)
    ensures { H.hears out.old (count_lines initiator count) out.new }
{
    if count.taken == 0 && count.untaken == 0 && count.broken == 0 {
        return;
    }
    out.note(AuditNote::Sender(initiator, count));
}

/// Hears the counts of the initiators from one on, a line for each that sent a frame.
pub(crate) fn hear_counts<H: LineHearer>(out: &mut H, initiator: u8, counts: &[FrameCount])
    requires { initiator + length counts.now ≤ 16 }
    ensures { H.hears out.old (counts_lines initiator counts.now) out.new }
{
    let [count, counts @ ..] = counts else {
        return;
    };
    hear_count(out, initiator, *count);
    hear_counts(out, initiator + 1, counts);
}
