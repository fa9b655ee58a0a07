//! What the expectations of rounds of a script look for, and when, as far as that is known before its run.
ghost use Rattle.std.specs.Prelude.{◌≡◌, ◌&&◌, ◌||◌, ℕ, List, map, IfOk, OnOk};
ghost use Rattle.std.specs.List.{list_any};
ghost use Rattle.std.specs.Option.{option_map};
ghost use Rattle.std.specs.Str.{bytes_eq};
ghost use Rattle.expect_text.specs.Names.{meets};
ghost use Rattle.expect_text.specs.Form.{window_of};
ghost use Rattle.expect_run.specs.Groups.{is_sought};
ghost use Rattle.expect_run.specs.Kept.{known_from, known_span, time_at, watch_as, watch_of, watches_by};

use crate::times::{LONGEST_WAIT, Times};
use expect_judge::TimeSpan;
use expect_text::{ExpectLine, ExpectWindow, Labels, form_in, meets, unlabelled};
use std::alloc::{AllocError, Global};
use text_core::first_line;

/// What an expectation of rounds looks for, and the span in which it can be met, where that is known.
#[derive(Clone, Copy)]
pub(crate) struct Watch<'a> {
    pub span: Option<TimeSpan>,
    pub pattern: &'a [u8],
}

// The span from a time on, or later by a wait.
fn known_from(duration: u64, time: Option<u64>) -> Option<TimeSpan>
    ensures { result ≡ known_from duration time }
{
    let time = time?;
    Some(TimeSpan {
        from: time,
        to: time.saturating_add(duration).saturating_add(LONGEST_WAIT),
    })
}

// The span that a window lies in, where it is known.
fn known_span(labels: &Labels<'_>, times: &Times<'_>, window: ExpectWindow) -> Option<TimeSpan>
    ensures { result ≡ known_span labels.now.script.now (time_at times.now.script.now) (window_of window.entry) }
{
    match window {
        ExpectWindow::Within { duration, label } => {
            known_from(duration, times.of_line(labels.line_of(label)))
        }
        ExpectWindow::From { from, to } => Some(TimeSpan { from, to }),
    }
}

// What a line looks for, where it is an expectation of rounds.
fn watch_of<'a>(labels: &Labels<'_>, times: &Times<'_>, line: &'a [u8]) -> Option<Watch<'a>>
    ensures { option_map watch_as result ≡ watch_of labels.now.script.now (time_at times.now.script.now) line.now }
{
    match form_in(unlabelled(line).rest) {
        Err(_) => None,
        Ok(form) => match form {
            ExpectLine::Other => None,
            ExpectLine::Rounds {
                window,
                pattern,
                ..
            } => Some(Watch {
                span: known_span(labels, times, window),
                pattern,
            }),
            ExpectLine::State { .. } => None,
            ExpectLine::Refused { .. } => None,
            ExpectLine::Unremarked { .. } => None,
        },
    }
}

/// What the expectations of a script look for, in order.
///
/// # Errors
///
/// Want of memory.
pub(crate) fn all_watches<'a>(
    alloc: Global,
    labels: &Labels<'a>,
    times: &Times<'_>,
) -> Result<Vec<Watch<'a>>, AllocError>
    ensures { IfOk result (λ watches. map watch_as watches.items ≡ watches_by labels.now.script.now times.now.script.now) }
{
    let mut watches = Vec::new(alloc);
    let mut rest = labels.script;
    'lines: while let Some((line, after)) = first_line(rest) {
        if let Some(watch) = watch_of(labels, times, line) {
            watches.push(watch)?;
        }
        rest = after;
    }
    Ok(watches)
}

// Whether a pattern stands among others.
fn has(texts: &[&[u8]], pattern: &[u8]) -> bool
    ensures { result ≡ list_any (λ text. bytes_eq text.now pattern.now) texts.now }
{
    let mut rest = texts;
    'patterns: while let [text, others @ ..] = rest {
        if *text == pattern {
            return true;
        }
        rest = others;
    }
    false
}

// Adds a pattern, where it is new.
#[tactic(auto, using(crate::proofs::Watching::had_already, crate::proofs::Watching::added))]
fn add_pattern<'a>(texts: &mut Vec<&'a [u8]>, pattern: &'a [u8]) -> Result<(), AllocError>
    ensures { OnOk result ((reported : List ℕ) → list_any (λ text. meets text.now reported) texts.new.items
        ≡ (list_any (λ text. meets text.now reported) texts.old.items || meets pattern.now reported)) }
{
    if has(texts.as_slice(), pattern) {
        return Ok(());
    }
    texts.push(pattern)?;
    Ok(())
}

fn is_sought(timeless: bool, watch: &Watch) -> bool
    ensures { result ≡ is_sought timeless (watch_as watch.now) }
{
    !timeless || watch.span.is_none()
}

// Adds the pattern of what is looked for, where it is sought.
#[tactic(auto, using(crate::proofs::Watching::not_sought, crate::proofs::Watching::sought))]
fn add_sought<'a>(
    texts: &mut Vec<&'a [u8]>,
    timeless: bool,
    watch: &Watch<'a>,
) -> Result<(), AllocError>
    ensures { OnOk result ((reported : List ℕ) → list_any (λ text. meets text.now reported) texts.new.items
        ≡ (list_any (λ text. meets text.now reported) texts.old.items || (is_sought timeless (watch_as watch.now) && meets watch.now.pattern.now reported))) }
{
    if !is_sought(timeless, watch) {
        return Ok(());
    }
    add_pattern(texts, watch.pattern)
}

/// The patterns of what is looked for, each once, or of that alone whose span is not known.
///
/// # Errors
///
/// Want of memory.
#[tactic(auto, using(crate::proofs::Watching::one_more, crate::proofs::Watching::no_more))]
pub(crate) fn patterns_of<'a>(
    alloc: Global,
    timeless: bool,
    watches: &[Watch<'a>],
) -> Result<Vec<&'a [u8]>, AllocError>
    ensures { IfOk result (λ texts. (reported : List ℕ) → list_any (λ text. meets text.now reported) texts.items
        ≡ list_any (λ watch. is_sought timeless watch && meets watch.pattern reported) (map watch_as watches.now)) }
{
    let mut texts = Vec::new(alloc);
    let mut rest = watches;
    'watches: while let [watch, others @ ..] = rest {
        add_sought(&mut texts, timeless, watch)?;
        rest = others;
    }
    Ok(texts)
}

/// Whether a pattern is met.
pub(crate) fn fits_any(texts: &[&[u8]], reported: &[u8]) -> bool
    ensures { result ≡ list_any (λ text. meets text.now reported.now) texts.now }
{
    let mut rest = texts;
    'patterns: while let [text, others @ ..] = rest {
        if meets(text, reported) {
            return true;
        }
        rest = others;
    }
    false
}
