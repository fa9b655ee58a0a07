//! The report of a script's expectations, by what is told of its run.
ghost use Rattle.std.specs.Prelude.{◌≡◌, true, false, not, ◌++◌, ◌==◌, codes, if◌then◌else◌, ℕ, List, OnOk, IfOk, IfSome, Some, map, take};
ghost use Rattle.std.specs.List.{flat_map, list_any};
ghost use Rattle.record_core.specs.Records.{record_text};
ghost use Rattle.text_core.specs.Held.{held_bytes};
ghost use Rattle.text_core.specs.Lines.{lines_of};
ghost use Rattle.expect_judge.specs.Judged.{finding_as, states_for};
ghost use Rattle.expect_judge.specs.Seen.{rounds_seen};
ghost use Rattle.expect_judge.specs.Told.{Told as ToldSpec, event_as, round_as, told_as};
ghost use Rattle.expect_run.specs.Kept.{are_timed, is_unmet, kept};
ghost use Rattle.expect_run.specs.Sifted.{told_kept};
ghost use Rattle.expect_run.specs.States.{said_in, shown_in};
ghost use Rattle.expect_run.specs.Report.{expectation_cells, no_window_cells, plan_cells, refusal_cells, remarks, report, report_as, report_by, report_start, report_with_plan, seen_line, shown_round, shown_text, span_remarks, test_cells, tests, tests_by, verdict_word, version_cells, with_event, with_findings, with_line, with_refusal, with_refusals, with_test, with_word};

use crate::states::StateTexts;
use crate::told::KeptTold;
use expect_judge::{
    EventLine, Expected, Judged, JudgedLine, RoundLine, RoundLines, TimeSpan, Told, all_judged,
    is_seen, rounds_kept,
};
use expect_remarks::append_record;
use expect_text::{ExpectLine, Labels, form_in, unlabelled};
use record_core::{Form, Value, cells};
use std::alloc::{AllocError, Global};
use text_core::{Held, Piece, first_line, put_all};

/// A report that is being made.
#[derive(Drop)]
pub struct ReportDraft {
    pub text: Held,
    /// Whether each of its tests holds, in order.
    pub verdicts: Vec<bool>,
}

/// How many lines of rounds stand below a test that failed, at most.
const SHOWN_MOST: usize = 8;

fn append_bytes(out: &mut Held, bytes: &[u8]) -> Result<(), AllocError>
    ensures { OnOk result (held_bytes out.new ≡ held_bytes out.old ++ bytes.now) }
{
    match put_all(out, bytes) {
        Ok(()) => Ok(()),
        Err(_) => Err(AllocError),
    }
}

fn verdict_word(holds: bool) -> &'static str
    ensures { result.now ≡ verdict_word holds }
{
    if holds { "ok " } else { "not ok " }
}

// Appends the test of an expectation.
fn append_expectation<'a>(
    out: &mut Held,
    form: Form,
    number: u64,
    verdict: &'a str,
    holds: bool,
    line: u64,
    text: &'a [u8],
) -> Result<(), AllocError>
    requires { verdict.now ≡ verdict_word holds }
    ensures { OnOk result (held_bytes out.new ≡ held_bytes out.old ++ record_text form (codes "test") (test_cells number holds line (expectation_cells text.now))) }
{
    let cells = cells![
        line(verdict, Value::Nothing),
        both("", "test", Value::One(Piece::Decimal(number))),
        both(" - line ", "script_line", Value::One(Piece::Decimal(line))),
        hidden("holds", Value::One(Piece::Switch(holds))),
        both(": ", "expectation", Value::Escaped(text)),
        hidden("refused", Value::Nothing),
    ];
    append_record(out, form, "test", &cells)
}

// Appends the test of a refused event that no line expects.
fn append_refusal(
    out: &mut Held,
    form: Form,
    number: u64,
    line: u64,
    word: &[u8],
) -> Result<(), AllocError>
    ensures { OnOk result (held_bytes out.new ≡ held_bytes out.old ++ record_text form (codes "test") (test_cells number false line (refusal_cells word.now))) }
{
    let cells = cells![
        line("not ok ", Value::Nothing),
        both("", "test", Value::One(Piece::Decimal(number))),
        both(" - line ", "script_line", Value::One(Piece::Decimal(line))),
        hidden("holds", Value::One(Piece::Switch(false))),
        hidden("expectation", Value::Nothing),
        both(": refused ", "refused", Value::Escaped(word)),
    ];
    append_record(out, form, "test", &cells)
}

/// Appends the test of an expectation: of a line of this number, with its text.
///
/// # Errors
///
/// Want of memory.
pub fn add_test(
    draft: &mut ReportDraft,
    form: Form,
    holds: bool,
    line: u64,
    text: &[u8],
) -> Result<(), AllocError>
    ensures { OnOk result (report_as draft.new ≡ with_test form (report_as draft.old) holds line text.now) }
{
    let number = draft.verdicts.len() as u64 + 1;
    let verdict = verdict_word(holds);
    append_expectation(&mut draft.text, form, number, verdict, holds, line, text)?;
    draft.verdicts.push(holds)?;
    Ok(())
}

// Appends the test of a refused event that no line expects.
fn add_refusal(
    draft: &mut ReportDraft,
    form: Form,
    line: u64,
    word: &[u8],
) -> Result<(), AllocError>
    ensures { OnOk result (report_as draft.new ≡ with_refusal form (report_as draft.old) line word.now) }
{
    let number = draft.verdicts.len() as u64 + 1;
    append_refusal(&mut draft.text, form, number, line, word)?;
    draft.verdicts.push(false)?;
    Ok(())
}

fn append_shown_round(out: &mut Held, round: &RoundLine) -> Result<(), AllocError>
    ensures { OnOk result (held_bytes out.new ≡ held_bytes out.old ++ shown_round (round_as round.now)) }
{
    append_bytes(out, round.shown)
}

// Appends the first eight lines of those of these rounds that are seen.
fn append_first(
    out: &mut Held,
    rounds: &[RoundLine<'_>],
    span: TimeSpan,
    pattern: &[u8],
) -> Result<(), AllocError>
    ensures { OnOk result (held_bytes out.new ≡ held_bytes out.old ++ flat_map shown_round (take 8 (rounds_seen (map round_as rounds.now) span pattern.now))) }
{
    let mut rest = rounds;
    let mut left = SHOWN_MOST;
    'rounds: while let [round, others @ ..] = rest {
        if left == 0 {
            return Ok(());
        }
        if is_seen(span, pattern, round) {
            append_shown_round(out, round)?;
            left -= 1;
        }
        rest = others;
    }
    Ok(())
}

// Appends the first eight lines of rounds that are seen.
fn append_shown(
    out: &mut Held,
    rounds: &RoundLines<'_>,
    span: TimeSpan,
    pattern: &[u8],
) -> Result<(), AllocError>
    ensures { OnOk result (held_bytes out.new ≡ held_bytes out.old ++ shown_text (map round_as rounds.now.rounds.now) span pattern.now) }
{
    append_first(out, rounds.within(span), span, pattern)
}

// What is looked at below a test that failed.
fn looked_at(count: u64, pattern: &[u8]) -> &[u8]
    ensures { result.now ≡ (if count == 0 then codes "*" else pattern.now) }
{
    if count == 0 { b"*" } else { pattern }
}

// Appends the window.
fn append_window(out: &mut Held, form: Form, count: u64, span: TimeSpan) -> Result<(), AllocError>
    ensures { OnOk result (held_bytes out.new ≡ held_bytes out.old ++ seen_line form count span) }
{
    let cells = cells![
        both("# seen ", "seen", Value::One(Piece::Decimal(count))),
        both(" from ", "from", Value::One(Piece::Decimal(span.from))),
        both(" to ", "to", Value::One(Piece::Decimal(span.to))),
    ];
    append_record(out, form, "window", &cells)
}

// Appends that there is none.
fn append_no_window(out: &mut Held, form: Form) -> Result<(), AllocError>
    ensures { OnOk result (held_bytes out.new ≡ held_bytes out.old ++ record_text form (codes "window") no_window_cells) }
{
    let cells = cells![
        line("# no instant", Value::Nothing),
        hidden("seen", Value::Nothing),
        hidden("from", Value::Nothing),
        hidden("to", Value::Nothing),
    ];
    append_record(out, form, "window", &cells)
}

// Appends the window, and rounds in it.
fn append_span(
    out: &mut Held,
    form: Form,
    rounds: &RoundLines<'_>,
    pattern: &[u8],
    count: u64,
    span: Option<TimeSpan>,
) -> Result<(), AllocError>
    ensures { OnOk result (held_bytes out.new ≡ held_bytes out.old ++ span_remarks form (map round_as rounds.now.rounds.now) pattern.now count span) }
{
    let Some(span) = span else {
        return append_no_window(out, form);
    };
    append_window(out, form, count, span)?;
    append_shown(out, rounds, span, looked_at(count, pattern))
}

// Appends what stands below a test that failed.
fn append_remarks(
    out: &mut Held,
    form: Form,
    rounds: &RoundLines<'_>,
    below: &[u8],
    judged: &Judged,
    line: &[u8],
) -> Result<(), AllocError>
    ensures { OnOk result (held_bytes out.new ≡ held_bytes out.old ++ remarks form (map round_as rounds.now.rounds.now) below.now judged.now line.now) }
{
    match form_in(unlabelled(line).rest) {
        Err(_) => Ok(()),
        Ok(expected) => match expected {
            ExpectLine::Other => Ok(()),
            ExpectLine::Refused { .. } => Ok(()),
            ExpectLine::State { .. } => append_bytes(out, below),
            ExpectLine::Unremarked { .. } => append_bytes(out, below),
            ExpectLine::Rounds { pattern, .. } => {
                append_span(out, form, rounds, pattern, judged.count, judged.span)
            }
        },
    }
}

// Appends the test of a line, where it is an expectation.
fn add_line(
    draft: &mut ReportDraft,
    form: Form,
    rounds: &RoundLines<'_>,
    below: &[u8],
    number: u64,
    line: &[u8],
    judged: &Judged,
) -> Result<(), AllocError>
    ensures { OnOk result (report_as draft.new ≡ with_line form (map round_as rounds.now.rounds.now) below.now (report_as draft.old) number line.now judged.now) }
{
    let Some(holds) = judged.holds else {
        return Ok(());
    };
    add_test(draft, form, holds, number, line)?;
    if holds {
        return Ok(());
    }
    append_remarks(&mut draft.text, form, rounds, below, judged, line)
}

// Appends the tests of the lines of a script, by what is found of those that expect something.
fn add_lines(
    draft: &mut ReportDraft,
    form: Form,
    script: &[u8],
    rounds: &RoundLines<'_>,
    found: &[JudgedLine<'_>],
) -> Result<(), AllocError>
    ensures { OnOk result (report_as draft.new ≡ with_findings form (map round_as rounds.now.rounds.now) (report_as draft.old) 1 (lines_of script.now) (map finding_as found.now)) }
{
    let mut rest = script;
    let mut left = found;
    let mut number = 1u64;
    'lines: while let Some((line, after)) = first_line(rest) {
        let [finding, others @ ..] = left else {
            return Ok(());
        };
        if finding.line == number {
            add_line(
                draft,
                form,
                rounds,
                finding.below,
                number,
                line,
                &finding.judged,
            )?;
            left = others;
        }
        rest = after;
        number += 1;
    }
    Ok(())
}

fn add_word(
    draft: &mut ReportDraft,
    form: Form,
    expected: &Expected<'_>,
    line: u64,
    word: &[u8],
) -> Result<(), AllocError>
    ensures { OnOk result (report_as draft.new ≡ with_word form expected.now.script.now (report_as draft.old) line (Some word.now)) }
{
    if expected.has(line) {
        return Ok(());
    }
    add_refusal(draft, form, line, word)
}

// Appends the test of an event, where it was refused and no line expects it.
fn add_event(
    draft: &mut ReportDraft,
    form: Form,
    expected: &Expected<'_>,
    event: &EventLine,
) -> Result<(), AllocError>
    ensures { OnOk result (report_as draft.new ≡ with_event form expected.now.script.now (report_as draft.old) (event_as event.now)) }
{
    let Some(word) = event.refused else {
        return Ok(());
    };
    add_word(draft, form, expected, event.line, word)
}

// Appends the tests of refused events.
fn add_refusals(
    draft: &mut ReportDraft,
    form: Form,
    expected: &Expected<'_>,
    events: &[EventLine<'_>],
) -> Result<(), AllocError>
    ensures { OnOk result (report_as draft.new ≡ with_refusals form expected.now.script.now (report_as draft.old) (map event_as events.now)) }
{
    let mut rest = events;
    'events: while let [event, others @ ..] = rest {
        add_event(draft, form, expected, event)?;
        rest = others;
    }
    Ok(())
}

fn append_plan(out: &mut Held, form: Form, count: u64) -> Result<(), AllocError>
    ensures { OnOk result (held_bytes out.new ≡ held_bytes out.old ++ record_text form (codes "plan") (plan_cells count)) }
{
    let cells = cells![both("1..", "tests", Value::One(Piece::Decimal(count)))];
    append_record(out, form, "plan", &cells)
}

/// Appends the count of tests, which ends a report.
///
/// # Errors
///
/// Want of memory.
pub fn add_plan(draft: &mut ReportDraft, form: Form) -> Result<(), AllocError>
    ensures { OnOk result (report_as draft.new ≡ report_with_plan form (report_as draft.old)) }
{
    let count = draft.verdicts.len() as u64;
    append_plan(&mut draft.text, form, count)
}

fn append_version(out: &mut Held, form: Form) -> Result<(), AllocError>
    ensures { OnOk result (held_bytes out.new ≡ held_bytes out.old ++ record_text form (codes "version") version_cells) }
{
    let cells = cells![both("TAP version ", "version", Value::One(Piece::Decimal(13)))];
    append_record(out, form, "version", &cells)
}

fn report_start(alloc: Global, form: Form) -> Result<ReportDraft, AllocError>
    ensures { IfOk result (λ draft. report_as draft ≡ report_start form) }
{
    let mut text = Held::new(alloc);
    append_version(&mut text, form)?;
    Ok(ReportDraft {
        text,
        verdicts: Vec::new(alloc),
    })
}

// Whether a test failed whose window no round meets.
fn is_unmet(judged: &Judged) -> bool
    ensures { result ≡ is_unmet judged.now }
{
    match judged.holds {
        None => false,
        Some(holds) => !holds && judged.span.is_some() && judged.count == 0,
    }
}

fn is_any_unmet(found: &[JudgedLine<'_>]) -> bool
    ensures { result ≡ list_any (λ finding. is_unmet finding.judged) (map finding_as found.now) }
{
    let mut rest = found;
    'lines: while let [finding, others @ ..] = rest {
        if is_unmet(&finding.judged) {
            return true;
        }
        rest = others;
    }
    false
}

// The tests by what is found of the lines that expect something.
fn tests_found(
    alloc: Global,
    form: Form,
    labels: &Labels<'_>,
    told: &Told<'_>,
    found: &[JudgedLine<'_>],
) -> Result<ReportDraft, AllocError>
    ensures { IfOk result (λ draft. report_as draft ≡ tests_by form labels.now.script.now (told_as told.now) (map finding_as found.now)) }
{
    let expected = Expected::new(alloc, labels)?;
    let rounds = RoundLines::new(told.rounds);
    let mut draft = report_start(alloc, form)?;
    add_lines(&mut draft, form, labels.script, &rounds, found)?;
    add_refusals(&mut draft, form, &expected, told.events)?;
    Ok(draft)
}

// The report by what is found of the lines that expect something.
fn report_found(
    alloc: Global,
    form: Form,
    labels: &Labels<'_>,
    told: &Told<'_>,
    found: &[JudgedLine<'_>],
) -> Result<ReportDraft, AllocError>
    ensures { IfOk result (λ draft. report_as draft ≡ report_by form labels.now.script.now (told_as told.now) (map finding_as found.now)) }
{
    let mut draft = tests_found(alloc, form, labels, told, found)?;
    add_plan(&mut draft, form)?;
    Ok(draft)
}

/// The report of a script without its last line, the count of tests, by what is told of its run, the state lines of the lines that
/// speak of one, in order, and what stands below the tests of these lines.
///
/// # Errors
///
/// Want of memory.
pub fn open_report(
    alloc: Global,
    form: Form,
    script: &[u8],
    told: &Told<'_>,
    states: &[Vec<u8>],
    texts: &[Vec<u8>],
) -> Result<ReportDraft, AllocError>
    ensures { IfOk result (λ draft. report_as draft ≡ tests form script.now (told_as told.now) (states_for (lines_of script.now) (map (λ state. state.items) states.now)) (states_for (lines_of script.now) (map (λ text. text.items) texts.now))) }
{
    let labels = Labels::new(alloc, script)?;
    let found = all_judged(alloc, &labels, told, states, texts)?;
    let draft = tests_found(alloc, form, &labels, told, &found)?;
    Ok(draft)
}

/// The report of a script, by what is kept of its run, the states of the lines that speak of one, in order, and what stands below the
/// tests of these lines.
pub(crate) fn report_of_told(
    alloc: Global,
    form: Form,
    labels: &Labels<'_>,
    kept: &KeptTold,
    states: &StateTexts,
) -> Result<ReportDraft, AllocError>
    ensures { IfOk result (λ draft. report_as draft ≡ report form labels.now.script.now (told_kept kept.now) (states_for (lines_of labels.now.script.now) (said_in states.now)) (states_for (lines_of labels.now.script.now) (shown_in states.now))) }
{
    let rounds = rounds_kept(alloc, &kept.rounds)?;
    let told = Told {
        rounds: &rounds,
        events: &kept.events,
    };
    let found = all_judged(alloc, labels, &told, &states.said, &states.shown)?;
    let draft = report_found(alloc, form, labels, &told, &found)?;
    Ok(draft)
}

/// The same by what is needed of it. Where a test failed whose window no round meets, that is not enough.
pub(crate) fn report_of_few(
    alloc: Global,
    form: Form,
    labels: &Labels<'_>,
    few: &KeptTold,
    states: &StateTexts,
) -> Result<Option<ReportDraft>, AllocError>
    ensures { IfOk result (λ made. IfSome made (λ draft. (told : ToldSpec) → told_kept few.now ≡ kept labels.now.script.now told → are_timed labels.now.script.now told.events ≡ true
        → report_as draft ≡ report form labels.now.script.now told (states_for (lines_of labels.now.script.now) (said_in states.now)) (states_for (lines_of labels.now.script.now) (shown_in states.now)))) }
{
    let rounds = rounds_kept(alloc, &few.rounds)?;
    let told = Told {
        rounds: &rounds,
        events: &few.events,
    };
    let found = all_judged(alloc, labels, &told, &states.said, &states.shown)?;
    if is_any_unmet(&found) {
        return Ok(None);
    }
    let draft = report_found(alloc, form, labels, &told, &found)?;
    Ok(Some(draft))
}
