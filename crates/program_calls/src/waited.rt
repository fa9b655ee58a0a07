//! What is waited for at a terminal.
use cli_choice::{CommandChoice, Objects};

/// The line of what a choice waits for, where somebody has to type it.
pub(crate) fn waited_for(choice: CommandChoice) -> &'static str {
    match choice {
        CommandChoice::Run { .. }
        | CommandChoice::Check(_)
        | CommandChoice::Step { .. }
        | CommandChoice::Live { .. }
        | CommandChoice::Json(
            Objects::Trace { .. } | Objects::Room { .. } | Objects::Test { .. },
        ) =>
            "hdminet: waits for a topology and a script on standard input (--help explains them)\n",
        CommandChoice::CheckCapture { .. } | CommandChoice::Json(Objects::CaptureTest { .. }) => {
            "hdminet: waits for expectations and a capture on standard input (--help explains them)\n"
        }
        CommandChoice::Asm | CommandChoice::Dis { .. } | CommandChoice::Lay { .. } => {
            "hdminet: waits for frames on standard input (--help explains them)\n"
        }
        CommandChoice::Mon(_)
        | CommandChoice::Summary(_)
        | CommandChoice::Follow(_)
        | CommandChoice::CapturedLine { .. } => {
            "hdminet: waits for a capture on standard input (--help explains it)\n"
        }
        CommandChoice::CaptureDiff(_) => {
            "hdminet: waits for two captures, with a line `capture` between them, on standard input (--help explains them)\n"
        }
        CommandChoice::EdidDiff { .. } => {
            "hdminet: waits for two EDIDs on standard input (--help explains them)\n"
        }
        CommandChoice::Eld { .. } => {
            "hdminet: waits for an ELD on standard input (--help explains it)\n"
        }
        CommandChoice::InfoFrame { .. } | CommandChoice::Edid { .. } => {
            "hdminet: waits for an EDID on standard input (--help explains it)\n"
        }
    }
}
