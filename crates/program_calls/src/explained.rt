//! The faults of the program as they are explained.
use crate::fault::ProgramFault;
use capture_forms::CaptureForm;
use cli_choice::{CapturePair, CommandChoice, MonChoice, Objects, Source, SummaryChoice};
use edid_core::EdidCause;
use expect_run::CheckError;
use explain_marks::{Input, InputFault as Explained, Parting, WholeFault};
use follow_core::LineForm;
use live_dialogue::{ScriptEnd, SessionError};
use message_hex::DisError;
use message_lay::LayError;
use message_text::FrameLinesError;
use program_captures::{MonitorFault, form_of};
use program_edids::{EdidFault, told};
use program_input::{InputError, capture_parts};
use room_run::emulate::EmulateError;
use room_script::ScriptCause;
use text_core::{At, at_word};

/// What an input of a choice is to be.
pub fn input_of(choice: CommandChoice, input: &[u8]) -> Input {
    match choice {
        CommandChoice::Check(_) | CommandChoice::Json(Objects::Test { .. }) => Input::Test,
        CommandChoice::CheckCapture { .. } | CommandChoice::Json(Objects::CaptureTest { .. }) => {
            Input::CaptureTest
        }
        CommandChoice::Run { .. }
        | CommandChoice::Step { .. }
        | CommandChoice::Json(Objects::Trace { .. } | Objects::Room { .. }) => Input::Network,
        CommandChoice::Live { .. } | CommandChoice::Follow(_) => Input::Session,
        CommandChoice::Asm
        | CommandChoice::Dis { .. }
        | CommandChoice::Lay { .. }
        | CommandChoice::Mon(_)
        | CommandChoice::Summary(_)
        | CommandChoice::CaptureDiff(_)
        | CommandChoice::EdidDiff { dumps: true, .. }
        | CommandChoice::CapturedLine { .. } => Input::Lines,
        CommandChoice::EdidDiff { dumps: false, .. } | CommandChoice::Eld { .. } =>
            Input::EdidBytes,
        CommandChoice::Edid { source, .. } | CommandChoice::InfoFrame { source, .. } => match told(
            source, input,
        ) {
            Source::Bytes | Source::Pair { dumps: false, .. } => Input::EdidBytes,
            Source::Dump { .. } | Source::Pair { dumps: true, .. } => Input::Lines,
            Source::Text => Input::EdidText,
            Source::Words => Input::EdidWords,
        },
    }
}

/// The form of the capture that a choice takes from its input.
pub fn form_in(choice: CommandChoice, input: &[u8]) -> CaptureForm {
    match choice {
        CommandChoice::Mon(MonChoice { form, .. })
        | CommandChoice::Summary(SummaryChoice { form, .. })
        | CommandChoice::CaptureDiff(CapturePair { form, .. })
        | CommandChoice::CapturedLine { form, .. } => form_of(form, input),
        CommandChoice::Follow(choice) => match choice.form {
            LineForm::Edges => CaptureForm::Edges,
            LineForm::Pin => CaptureForm::Pin,
            LineForm::Csv => CaptureForm::Csv,
        },
        CommandChoice::CheckCapture { form, .. }
        | CommandChoice::Json(Objects::CaptureTest { form, .. }) => {
            match capture_parts(input) {
                Ok((_, taken)) => form_of(form, taken),
                Err(_) => CaptureForm::Edges,
            }
        }
        _ => CaptureForm::Edges,
    }
}

fn of_run(error: &EmulateError) -> Explained {
    match error {
        EmulateError::Topology { line, cause, word } => Explained::Topology(At {
            line: *line,
            cause: *cause,
            word: *word,
        }),
        EmulateError::Script { line, cause, word } => Explained::Script(At {
            line: *line,
            cause: *cause,
            word: *word,
        }),
        EmulateError::Edid(cause) => Explained::Edid(*cause),
        EmulateError::Write(_) => Explained::Whole(WholeFault::Write),
        EmulateError::Memory => Explained::Whole(WholeFault::Memory),
    }
}

fn of_test(error: &CheckError) -> Explained {
    match error {
        CheckError::Emulate(error) => of_run(error),
        CheckError::Expect(fault) => Explained::Expectation(*fault),
        CheckError::Write(_) => Explained::Whole(WholeFault::Write),
        CheckError::Memory => Explained::Whole(WholeFault::Memory),
    }
}

// No further line was read where the script is at this line.
fn of_end(line: u64, cause: ScriptEnd) -> Explained {
    match cause {
        ScriptEnd::End => Explained::Script(at_word(0, ScriptCause::End).on_line(line)),
        ScriptEnd::TooLong => Explained::Whole(WholeFault::LineTooLong),
    }
}

fn of_session(error: &SessionError) -> Explained {
    match error {
        SessionError::Read => Explained::Whole(WholeFault::Read),
        SessionError::TooLong => Explained::Whole(WholeFault::InputTooLong),
        SessionError::NoScriptLine => Explained::NoParting(Parting::Script),
        SessionError::Topology { line, cause, word } => Explained::Topology(At {
            line: *line,
            cause: *cause,
            word: *word,
        }),
        SessionError::Edid(cause) => Explained::Edid(*cause),
        SessionError::Script { line, cause } => of_end(*line, *cause),
        SessionError::Write(_) => Explained::Whole(WholeFault::Write),
        SessionError::Memory => Explained::Whole(WholeFault::Memory),
    }
}

fn of_frames(error: &FrameLinesError) -> Explained {
    match error {
        FrameLinesError::Line(fault) => Explained::Frame {
            line: fault.line,
            cause: fault.cause,
        },
        FrameLinesError::Write(_) => Explained::Whole(WholeFault::Write),
    }
}

fn of_hex(error: &DisError) -> Explained {
    match error {
        DisError::Line(fault) => Explained::Hex {
            line: fault.line,
            cause: fault.cause,
        },
        DisError::Write(_) => Explained::Whole(WholeFault::Write),
    }
}

fn of_laid(error: &LayError) -> Explained {
    match error {
        LayError::Line(fault) => Explained::Lay {
            line: fault.line,
            cause: fault.cause,
            word: fault.word,
        },
        LayError::Write(_) => Explained::Whole(WholeFault::Write),
    }
}

fn of_input(error: &InputError) -> Explained {
    match error {
        InputError::Read => Explained::Whole(WholeFault::Read),
        InputError::TooLong => Explained::Whole(WholeFault::InputTooLong),
        InputError::NoParting(parting) => Explained::NoParting(*parting),
        InputError::Memory(_) => Explained::Whole(WholeFault::Memory),
    }
}

fn of_capture(form: CaptureForm, fault: &MonitorFault) -> Option<Explained> {
    let explained = match fault {
        MonitorFault::Read => Explained::Whole(WholeFault::Read),
        MonitorFault::TooLong => Explained::Whole(WholeFault::InputTooLong),
        MonitorFault::Line(fault) => Explained::Capture {
            form,
            line: fault.line,
            cause: fault.cause,
            word: fault.word,
        },
        MonitorFault::Write(_) => Explained::Whole(WholeFault::Write),
        MonitorFault::Memory(_) => Explained::Whole(WholeFault::Memory),
        MonitorFault::OtherLine(_)
        | MonitorFault::Scaled
        | MonitorFault::Differ
        | MonitorFault::Remarked => return None,
    };
    Some(explained)
}

fn of_edid(fault: &EdidFault) -> Option<Explained> {
    let explained = match fault {
        EdidFault::Edid(error) => Explained::Edid(EdidCause::Edid(*error)),
        EdidFault::Syntax(line) => Explained::TextSyntax { line: *line as u64 },
        EdidFault::Field { line, word } => Explained::TextField {
            line: *line as u64,
            word: *word,
        },
        EdidFault::Dump(error) => Explained::Whole(WholeFault::Dump(*error)),
        EdidFault::PortRange => Explained::NoPort,
        EdidFault::NoHdmiBlock => Explained::Edid(EdidCause::NoHdmiBlock),
        EdidFault::Write(_) => Explained::Whole(WholeFault::Write),
        EdidFault::Memory(_) => Explained::Whole(WholeFault::Memory),
        EdidFault::RuleFails
        | EdidFault::Merge(_)
        | EdidFault::Speakers(_)
        | EdidFault::First(_)
        | EdidFault::Second(_)
        | EdidFault::Differ
        | EdidFault::InfoFrame(_)
        | EdidFault::NotOffered
        | EdidFault::Eld(_) => return None,
    };
    Some(explained)
}

/// A fault as it is explained, where a capture has this form; None of what was done and is not as it was wanted.
pub fn explained(form: CaptureForm, fault: &ProgramFault) -> Option<Explained> {
    let explained = match fault {
        ProgramFault::NotUtf8 => Explained::Whole(WholeFault::NotUtf8),
        ProgramFault::Input(error) => of_input(error),
        ProgramFault::Emulate(error) => of_run(error),
        ProgramFault::Expect(fault) | ProgramFault::CaptureExpect(fault) => Explained::Expectation(
            *fault,
        ),
        ProgramFault::NoRange => Explained::Whole(WholeFault::NoRange),
        ProgramFault::Range(fault) => Explained::Range(*fault),
        ProgramFault::AtInstant { error, .. } => of_test(error),
        ProgramFault::Session(error) => of_session(error),
        ProgramFault::Steps { line, word } => Explained::Steps {
            line: *line,
            word: *word,
        },
        ProgramFault::Frames(error) => of_frames(error),
        ProgramFault::Dis(error) => of_hex(error),
        ProgramFault::Lay(error) => of_laid(error),
        ProgramFault::Capture(fault) => return of_capture(form, fault),
        ProgramFault::Edid(fault) => return of_edid(fault),
        ProgramFault::Write(_) => Explained::Whole(WholeFault::Write),
        ProgramFault::Memory(_) => Explained::Whole(WholeFault::Memory),
        ProgramFault::Open(_)
        | ProgramFault::EventsRefused(_)
        | ProgramFault::TestsFailed(_)
        | ProgramFault::SweepFailed => return None,
    };
    Some(explained)
}
