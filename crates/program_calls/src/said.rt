//! What the program says on standard error of what it did.
ghost use Rattle.std.specs.Prelude.{◌<◌};

use crate::explained::{explained, form_in, input_of};
use crate::fault::ProgramFault;
use crate::status::{write_fault, write_fault_of};
use crate::told::Recap;
use capture_forms::CaptureForm;
use capture_scale::AS_IT_IS;
use cli_choice::{Asked, CaptureSummary, CommandChoice, MonChoice, Objects, SummaryChoice, View};
use expect_run::Tally;
use explain_core::{counts, explain};
use program_captures::{MonitorFault, ReadAs, Signs, name_lost, name_verdict, name_wires};
use program_edids::{
    EdidFault, explain_lack, explain_merge, explain_rules, explain_speakers, name_read,
};
use program_input::capture_parts;
use record_core::Form;
use room_run::Totals;
use std::alloc::{AllocError, Global};
use text_core::{Sink, put_all};

// The line of what a run did, for `--explain`.
fn counts_of(alloc: Global, totals: &Totals) -> Result<String, AllocError> {
    counts(alloc, totals.rounds, totals.complete, totals.refused)
}

// Where more of a test is to be seen.
fn more_of(choice: CommandChoice) -> &'static str {
    match choice {
        CommandChoice::CheckCapture { .. } | CommandChoice::Json(Objects::CaptureTest { .. }) => {
            "`hdminet mon --from-start` prints the readings of the capture"
        }
        _ => "with --trace the trace of the run follows the report",
    }
}

// The line of a report whose tests did not all hold, for `--explain`.
fn tests_of(alloc: Global, choice: CommandChoice, tally: Tally) -> Result<String, AllocError> {
    format!(in alloc;
        "  tests {}, failed tests {}; {}\n",
        tally.count,
        tally.failed,
        more_of(choice)
    )
}

// What the rules ask that an EDID breaks, where they are asked for.
#[inline(never)]
fn rules_of(alloc: Global, choice: CommandChoice, input: &[u8]) -> Result<String, AllocError> {
    match choice {
        CommandChoice::Edid {
            source,
            reading,
            view: View::Findings(place, _),
        } => explain_rules(alloc, source, reading, place, input),
        _ => Ok(String::new(alloc)),
    }
}

// Why an EDID has no HDMI block, where that is the fault.
fn lack_of(
    alloc: Global,
    choice: CommandChoice,
    fault: &ProgramFault,
    input: &[u8],
) -> Result<String, AllocError> {
    match (choice, fault) {
        (
            CommandChoice::Edid {
                source,
                reading,
                ..
            }
            | CommandChoice::InfoFrame {
                source,
                reading,
                ..
            },
            ProgramFault::Edid(EdidFault::NoHdmiBlock),
        ) => explain_lack(alloc, source, reading, input),
        _ => Ok(String::new(alloc)),
    }
}

// What to do with a sweep whose tests did not hold at all instants, for `--explain`.
fn stretches_of(alloc: Global) -> Result<String, AllocError> {
    String::from_str(
        alloc,
        "  with an instant of a stretch in the place of the range the report of that run is written\n",
    )
}

// What would be right in place of a fault, and why an EDID has no HDMI block where that is the fault.
fn explanation_of(
    alloc: Global,
    choice: CommandChoice,
    fault: &ProgramFault,
    input: &[u8],
) -> Result<String, AllocError> {
    let Some(typed) = explained(form_in(choice, input), fault) else {
        return Ok(String::new(alloc));
    };
    let mut text = explain(alloc, input_of(choice, input), typed, input)?;
    text.push_str(lack_of(alloc, choice, fault, input)?.as_str())?;
    Ok(text)
}

// What follows the line of a fault with `--explain`.
#[inline(never)]
fn explanation(
    alloc: Global,
    choice: CommandChoice,
    fault: &ProgramFault,
    input: &[u8],
) -> Result<String, AllocError> {
    match fault {
        ProgramFault::EventsRefused(totals) => counts_of(alloc, totals),
        ProgramFault::TestsFailed(tally) => tests_of(alloc, choice, *tally),
        ProgramFault::SweepFailed => stretches_of(alloc),
        ProgramFault::Edid(EdidFault::RuleFails) => rules_of(alloc, choice, input),
        ProgramFault::Edid(EdidFault::Merge(error)) => explain_merge(alloc, *error),
        ProgramFault::Edid(EdidFault::Speakers(_)) => explain_speakers(alloc),
        _ => explanation_of(alloc, choice, fault, input),
    }
}

// Writes lines that only help. Where memory runs out there are none.
fn add_help<E: Sink>(text: Result<String, AllocError>, err: &mut E) {
    if let Ok(text) = text {
        let _ = put_all(err, text.as_bytes());
    }
}

// Names the lines of a capture before which events were lost.
fn name_lost_of<E: Sink>(alloc: Global, choice: CommandChoice, input: &[u8], err: &mut E) {
    match choice {
        CommandChoice::Mon(MonChoice { form, .. })
        | CommandChoice::Summary(SummaryChoice { form, .. })
        | CommandChoice::CapturedLine { form, .. } => name_lost(alloc, form, input, err),
        CommandChoice::CheckCapture { form, .. }
        | CommandChoice::Json(Objects::CaptureTest { form, .. }) => {
            if let Ok((_, taken)) = capture_parts(input) {
                name_lost(alloc, form, taken, err);
            }
        }
        _ => {}
    }
}

// Names them where a test of the capture failed.
fn name_lost_by<E: Sink>(
    alloc: Global,
    choice: CommandChoice,
    fault: &ProgramFault,
    input: &[u8],
    err: &mut E,
) {
    if let ProgramFault::TestsFailed(_) = fault {
        name_lost_of(alloc, choice, input, err);
    }
}

/// Writes the line of a fault, with the name of its file where one is given, and what follows it.
pub fn report<E: Sink>(
    alloc: Global,
    asked: Asked,
    name: Option<&str>,
    fault: &ProgramFault,
    input: &[u8],
    err: &mut E,
) -> u8
    ensures { 0 < result }
{
    name_read(alloc, asked.choice, input, err);
    let status = match name {
        Some(name) => write_fault_of(name, fault, err),
        None => write_fault(fault, err),
    };
    name_lost_by(alloc, asked.choice, fault, input, err);
    if asked.explains {
        add_help(explanation(alloc, asked.choice, fault, input), err);
    }
    status
}

// Names the wires of a capture where nothing was read on the first.
fn name_wires_of<E: Sink>(
    alloc: Global,
    choice: CommandChoice,
    signs: Signs,
    input: &[u8],
    err: &mut E,
) {
    match choice {
        CommandChoice::Mon(_) | CommandChoice::Summary(_) => {
            name_wires(alloc, form_in(choice, input), signs, input, err);
        }
        _ => {}
    }
}

// How the capture of a choice is read, where the choice is no verdict itself.
fn read_by(choice: CommandChoice) -> Option<ReadAs> {
    match choice {
        CommandChoice::Mon(
            MonChoice {
                form,
                inverted,
                scale,
                glitch,
                margin,
                ..
            },
        ) => {
            Some(ReadAs {
                form,
                inverted,
                scale,
                glitch,
                margin,
            })
        }
        CommandChoice::Summary(
            SummaryChoice {
                summary: CaptureSummary::Verdict,
                ..
            },
        ) => None,
        CommandChoice::Summary(
            SummaryChoice {
                form,
                inverted,
                scale,
                glitch,
                margin,
                ..
            },
        ) => {
            Some(ReadAs {
                form,
                inverted,
                scale,
                glitch,
                margin,
            })
        }
        CommandChoice::CheckCapture { form, glitch }
        | CommandChoice::Json(Objects::CaptureTest { form, glitch }) => {
            Some(ReadAs {
                form,
                inverted: false,
                scale: AS_IT_IS,
                glitch,
                margin: 0,
            })
        }
        _ => None,
    }
}

// Says what the line of a capture looks like: with `--explain` of each, else where it is not fine. Of an edge file that `mon` reads with
// no flag it says nothing without `--explain`.
#[inline(never)]
fn name_verdict_of<E: Sink>(alloc: Global, asked: Asked, signal: &[u8], input: &[u8], err: &mut E) {
    if !asked.explains && is_plain(asked.choice, input) {
        return;
    }
    let Some(read) = read_by(asked.choice) else {
        return;
    };
    match asked.choice {
        CommandChoice::CheckCapture { .. } | CommandChoice::Json(_) => {
            if let Ok((_, taken)) = capture_parts(input) {
                name_verdict(alloc, read, signal, asked.explains, taken, err);
            }
        }
        _ => name_verdict(alloc, read, signal, asked.explains, input, err),
    }
}

// Whether a capture is read, and its lines are written, with no flag that says how.
fn has_no_flag(mon: MonChoice) -> bool {
    mon.form.is_none()
        && mon.report.is_none()
        && mon.scale == AS_IT_IS
        && mon.glitch == 0
        && mon.margin == 0
        && !mon.inverted
        && !mon.folded
        && matches!(mon.written, Form::Text)
}

// Whether a capture is an edge file that `mon` reads with no flag.
fn is_plain(choice: CommandChoice, input: &[u8]) -> bool {
    match choice {
        CommandChoice::Mon(mon) => {
            has_no_flag(mon) && matches!(form_in(choice, input), CaptureForm::Edges)
        }
        _ => false,
    }
}

/// Says what the line of a capture looks like whose report was written whole, and is a fault: of a strict audit with a remark, or of
/// expectations that it does not meet.
pub fn remark_fault<E: Sink>(
    alloc: Global,
    asked: Asked,
    signal: &[u8],
    fault: &ProgramFault,
    input: &[u8],
    err: &mut E,
) {
    match fault {
        ProgramFault::TestsFailed(_) | ProgramFault::Capture(MonitorFault::Remarked) => {
            name_verdict_of(alloc, asked, signal, input, err);
        }
        _ => {}
    }
}

/// Writes what there is to say besides of what was done: events that a capture lost, the wires of one on whose first nothing was read,
/// what its line looks like, and with `--explain` the counts of a run, and what the rules ask that an EDID breaks. Of an edge file that
/// `mon` reads with no flag, and of a capture that is as its expectations have it, it says nothing of the line without `--explain`.
pub fn remark<E: Sink>(
    alloc: Global,
    asked: Asked,
    signal: &[u8],
    told: Recap,
    input: &[u8],
    err: &mut E,
) {
    name_lost_of(alloc, asked.choice, input, err);
    name_read(alloc, asked.choice, input, err);
    match told {
        Recap::Run(totals) => {
            if asked.explains {
                add_help(counts_of(alloc, &totals), err);
            }
        }
        Recap::Capture(signs) => {
            name_wires_of(alloc, asked.choice, signs, input, err);
            name_verdict_of(alloc, asked, signal, input, err);
        }
        Recap::Nothing => {
            if asked.explains {
                add_help(rules_of(alloc, asked.choice, input), err);
                name_verdict_of(alloc, asked, signal, input, err);
            }
        }
    }
}
