//! Lines of topologies, scripts, sessions and steps, read again.
use crate::changed::{Changed, with_line, word_of};
use expect_text::{first_fault, plain_part, plain_script, unlabelled};
use explain_lists::{word_at, word_count};
use explain_marks::{SESSION_ALONE, before_script, is_line_end, length_of_lines, most_fitting};
use room_script::{
    ScriptDraft, ScriptError, ScriptLineError, Topology, TopologyError, parse_script,
    parse_topology, take_line, time_in,
};
use room_step_text::{CommandsError, parse_commands};
use std::alloc::{AllocError, Global};

/// The line between a topology and a script.
const PARTING: &[u8] = b"script";

/// The word at which a line of a topology is refused.
pub fn of_topology(alloc: Global, changed: Changed<'_>) -> Result<Option<usize>, AllocError> {
    if changed.line == PARTING {
        return Ok(None);
    }
    let text = changed.part(alloc)?;
    match parse_topology(alloc, &text) {
        Ok(_) => Ok(None),
        Err(TopologyError::At(fault)) => Ok(word_of(
            changed.number_in_part(),
            fault.line,
            fault.word,
        )),
        Err(TopologyError::Memory) => Err(AllocError),
    }
}

// The topology of a text, where it is one.
fn topology_in(alloc: Global, text: &[u8]) -> Result<Option<Topology>, AllocError> {
    match parse_topology(alloc, text) {
        Ok(topology) => Ok(Some(topology)),
        Err(TopologyError::At(_)) => Ok(None),
        Err(TopologyError::Memory) => Err(AllocError),
    }
}

// Takes a line after others. Returns the word at which it is refused.
fn take_next(
    topology: &Topology,
    draft: &mut ScriptDraft,
    line: &[u8],
) -> Result<Option<usize>, AllocError> {
    let waiting = draft.pulses.len();
    match take_line(&topology.tree, draft, waiting, 1, line) {
        Ok(()) => Ok(None),
        Err(ScriptLineError::Fault(fault)) => Ok(Some(fault.word)),
        Err(ScriptLineError::Memory) => Err(AllocError),
    }
}

// The word at which a line of a plain script is refused, after the lines above of which each is taken that can be.
fn of_plain(
    alloc: Global,
    topology: &Topology,
    above: &[u8],
    line: &[u8],
) -> Result<Option<usize>, AllocError> {
    let mut draft = ScriptDraft::new(alloc);
    for line in above.split(is_line_end) {
        let _ = take_next(topology, &mut draft, plain_part(line))?;
    }
    take_next(topology, &mut draft, line)
}

/// The word at which a line of a script is refused.
pub fn of_script(alloc: Global, changed: Changed<'_>) -> Result<Option<usize>, AllocError> {
    match topology_in(alloc, changed.topology())? {
        Some(topology) => of_plain(alloc, &topology, changed.above_in_part(), changed.line),
        None => Ok(Some(0)),
    }
}

/// The word at which a line of a test's script is refused that is no expectation: what stands after its label is a line of a script.
pub fn of_event(alloc: Global, changed: Changed<'_>) -> Result<Option<usize>, AllocError> {
    let label = if unlabelled(changed.line).label.is_some() {
        2usize
    } else {
        0
    };
    let line = plain_part(changed.line);
    match of_script(alloc, Changed { line, ..changed })? {
        Some(word) => Ok(Some(word.saturating_add(label))),
        None => Ok(None),
    }
}

/// Whether the script of a test is read, with its labels and expectations, that has a line in the place of another one.
pub fn is_whole_read(alloc: Global, changed: Changed<'_>) -> Result<bool, AllocError> {
    let Some(topology) = topology_in(alloc, changed.topology())? else {
        return Ok(false);
    };
    let input = changed.place.input;
    let below = length_of_lines(input, changed.place.number);
    let mut script = changed.part(alloc)?;
    script.extend_from_slice(input.get(below..).unwrap_or(&[]))?;
    if first_fault(alloc, changed.topology(), &script)?.is_some() {
        return Ok(false);
    }
    let plain = plain_script(alloc, &script)?;
    match parse_script(alloc, &topology, &plain) {
        Ok(_) => Ok(true),
        Err(ScriptError::At(_)) => Ok(false),
        Err(ScriptError::Memory) => Err(AllocError),
    }
}

// ---- sessions

// The word of a session's own line that is no value of its place, where all words have theirs.
fn wrong_value(topology: &Topology, line: &str) -> Option<usize> {
    let (number, is_right) = match (word_at(line, 0), word_at(line, 1), word_at(line, 2)) {
        (Some("run"), _, Some(time)) => (2usize, time_in(time.as_bytes()).is_some()),
        (Some("edge" | "wait"), Some(time), _) => (1, time_in(time.as_bytes()).is_some()),
        (Some("show"), Some(name), _) => (1, topology.tree.device_named(name.as_bytes()).is_some()),
        _ => (0, true),
    };
    (!is_right).then_some(number)
}

// The word at which a session's own line is refused.
fn of_own(topology: &Topology, line: &str) -> Option<usize> {
    let most = most_fitting(SESSION_ALONE, line);
    if most < word_count(line) {
        return Some(most);
    }
    wrong_value(topology, line)
}

/// The word at which a line of a session is refused, the times of the lines above aside.
pub fn of_session(alloc: Global, changed: Changed<'_>) -> Result<Option<usize>, AllocError> {
    let Some(topology) = topology_in(alloc, changed.place.input)? else {
        return Ok(Some(0));
    };
    let line = str::from_utf8(changed.line).unwrap_or("");
    if most_fitting(SESSION_ALONE, line) > 0 {
        return Ok(of_own(&topology, line));
    }
    of_plain(alloc, &topology, &[], changed.line)
}

// ---- steps

/// The word at which a step is refused.
pub fn of_steps(alloc: Global, changed: Changed<'_>) -> Result<Option<usize>, AllocError> {
    let input = changed.place.input;
    let length = length_of_lines(input, before_script(input).saturating_sub(1));
    let text = input.get(..length).unwrap_or(input);
    let Some(topology) = topology_in(alloc, text)? else {
        return Ok(Some(0));
    };
    let line = with_line(alloc, &[], changed.line)?;
    match parse_commands(alloc, &topology.tree, &line) {
        Ok(_) => Ok(None),
        Err(CommandsError::At { word, .. }) => Ok(Some(word)),
        Err(CommandsError::Memory) => Err(AllocError),
    }
}
