//! Emulates a living-room HDMI network from texts, and writes its trace; reads captures of its
//! wire; writes frames and EDIDs as texts and bytes.
#![tactic(auto)]

use program_calls::program::program;
use program_calls::{ProgramFault, write_fault};
use program_input::Disk;
use std::env;
use std::process::ExitCode;
use text_core::Writes;

fn words(rt: &HostRuntime) -> Result<Vec<String>, ProgramFault> {
    let words = env::args(rt).map_err(ProgramFault::of_words)?;
    Ok(words.collect(rt.alloc())?)
}

fn main(rt: HostRuntime) -> ExitCode {
    let mut input = rt.stdin();
    let mut err = Writes::new(rt.stderr());
    let status = match words(&rt) {
        Ok(words) => {
            let out = Writes::new(rt.stdout());
            program(
                rt.alloc(),
                &Disk { rt: &rt },
                words,
                &mut input,
                out,
                &mut err,
            )
            .status
        }
        Err(fault) => write_fault(&fault, &mut err),
    };
    ExitCode::from(status)
}
