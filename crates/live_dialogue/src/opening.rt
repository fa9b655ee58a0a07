//! What stands before a session's first line: the topology, and the line `script`.
ghost use Rattle.std.specs.Prelude.{◌≡◌, [], ◌∷◌, ◌++◌, OnOk, codes};
ghost use Rattle.std.specs.Str.{bytes_eq};
ghost use Rattle.std.specs.Result.{result_map_both};
ghost use Rattle.live_dialogue.specs.Dialogue.{IsBegun, IsOpening, IsTopologyLine};

use crate::error::SessionError;
use crate::hearing::RefusalHearer;
use crate::incoming::Incoming;
use crate::limits::LONGEST_TOPOLOGY;
use edid_core::{RootError, root_on_heap};
use live_incoming::IncomingFault;
use live_session::Live;
use record_core::Form;
use room_script::{TopologyError, parse_topology};
use std::alloc::{AllocError, Global};
use std::io::Read;

// Whether a line is the one between the topology and the lines that are answered.
fn is_script(line: &[u8]) -> bool
    ensures { result ≡ bytes_eq line.now (codes "script") }
{
    line == b"script".as_slice()
}

// A line with its end is added to a text.
fn add_line(text: &mut Vec<u8>, line: &[u8]) -> Result<(), AllocError>
    ensures { OnOk result (text.new.items ≡ text.old.items ++ (line.now ++ 10 ∷ [])) }
{
    text.extend_from_slice(line)?;
    text.extend_from_slice(b"\n")
}

// Reads the next line before the line `script`.
fn next_line<R: Read>(incoming: &mut Incoming<'_, R>) -> Result<(), SessionError>
    ensures { IsTopologyLine incoming.old.rest incoming.new.rest incoming.new.line result }
{
    match incoming.next() {
        Ok(more) => {
            if more {
                Ok(())
            } else {
                Err(SessionError::NoScriptLine)
            }
        }
        Err(IncomingFault::Read) => Err(SessionError::Read),
        Err(IncomingFault::TooLong) => Err(SessionError::TooLong),
    }
}

/// Reads the text before the first line `script`, and that line. Each line of the text is heard of.
pub(crate) fn topology_text<R: Read, H: RefusalHearer>(
    alloc: Global,
    incoming: &mut Incoming<'_, R>,
    hearer: &mut H,
) -> Result<Vec<u8>, SessionError>
    ensures { IsOpening incoming.old.rest incoming.new.rest (result_map_both (λ text. text.items) (λ error. error) result) }
{
    let mut text = Vec::new(alloc);
    'lines: while text.len() <= LONGEST_TOPOLOGY {
        match next_line(incoming) {
            Err(error) => return Err(error),
            Ok(()) => {
                let bytes = incoming.last();
                if is_script(bytes) {
                    return Ok(text);
                }
                hearer.note(bytes);
                match add_line(&mut text, bytes) {
                    Ok(()) => {}
                    Err(_) => return Err(SessionError::Memory),
                }
            }
        }
    }
    Err(SessionError::TooLong)
}

/// The run of a topology before its first line, which says lines or objects.
///
/// # Errors
///
/// As the topology and its EDID are refused; no memory.
pub fn begin(alloc: Global, form: Form, text: &[u8]) -> Result<Live, SessionError>
    ensures { IsBegun form text.now result }
{
    let topology = match parse_topology(alloc, text) {
        Ok(topology) => topology,
        Err(TopologyError::At(fault)) => {
            return Err(SessionError::Topology {
                line: fault.line,
                cause: fault.cause,
                word: fault.word,
            });
        }
        Err(TopologyError::Memory) => return Err(SessionError::Memory),
    };
    match root_on_heap(alloc, &topology.edid) {
        Ok(edid) => match Live::new(alloc, form, topology.tree, edid) {
            Ok(live) => Ok(live),
            Err(_) => Err(SessionError::Memory),
        },
        Err(RootError::Cause(cause)) => Err(SessionError::Edid(cause)),
        Err(RootError::Memory) => Err(SessionError::Memory),
    }
}
