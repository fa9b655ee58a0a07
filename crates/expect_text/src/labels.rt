//! The labels of a script, read once.
ghost use Rattle.std.specs.Prelude.{◌≡◌, ◌||◌, if◌then◌else◌, true, List, ℕ, IfOk, OnOk, nat_eq};
ghost use Rattle.std.specs.HashMap.{get_by};
ghost use Rattle.std.specs.HashSet.{contains};
ghost use Rattle.std.specs.Option.{option_copied};
ghost use Rattle.std.specs.Str.{bytes_eq};
ghost use Rattle.text_core.specs.Lines.{lines_of};
ghost use Rattle.expect_text.specs.Faults.{event_above, event_labelled, event_meant, is_event_at, is_event_line, is_event_on, line_of_label, labelled_from};
ghost use Rattle.expect_text.specs.Labels.{labelled_on, or_line};

use crate::line::{has_verb, unlabelled};
use std::alloc::{AllocError, Global};
use std::collections::{HashMap, HashSet};
use text_core::first_line;

/// The first line of each label of a script, the first event of each, and which lines are events'.
#[derive(Drop)]
pub struct Labels<'a> {
    pub script: &'a [u8],
    lines: HashMap<&'a [u8], u64>,
    events: HashMap<&'a [u8], u64>,
    event_lines: HashSet<u64>,
    ghost lines_are: { (name : List ℕ) → get_by (λ k. bytes_eq name k.now) lines ≡ line_of_label script.now name },
    ghost events_are: { (name : List ℕ) → get_by (λ k. bytes_eq name k.now) events ≡ event_labelled script.now name },
    ghost event_lines_are: { (number : ℕ) → contains nat_eq event_lines number ≡ is_event_at script.now number },
}

fn is_event_line(line: &[u8]) -> bool
    ensures { result ≡ is_event_line line.now }
{
    has_verb(b"at", unlabelled(line).rest)
}

fn is_looked_for(of_events: bool, line: &[u8]) -> bool
    ensures { result ≡ (if of_events then is_event_line line.now else true) }
{
    !of_events || is_event_line(line)
}

// Notes a name with a number, where none stands there.
#[tactic(auto, using(crate::proofs::Tabled::there_already, crate::proofs::Tabled::put_there))]
fn note<'a>(
    lines: &mut HashMap<&'a [u8], u64>,
    label: &'a [u8],
    number: u64,
) -> Result<(), AllocError>
    ensures { OnOk result ((name : List ℕ) → get_by (λ k. bytes_eq name k.now) lines.new
        ≡ or_line (get_by (λ k. bytes_eq name k.now) lines.old) (if bytes_eq label.now name then Some number else None)) }
{
    if lines.contains_key(label) {
        return Ok(());
    }
    match lines.insert(label, number) {
        Ok(_) => Ok(()),
        Err(_) => Err(AllocError),
    }
}

// Notes the label of a line, where it has one that is looked for.
#[tactic(auto, using(crate::proofs::Tabled::no_label, crate::proofs::Tabled::not_looked_for, crate::proofs::Tabled::looked_for))]
fn note_line<'a>(
    lines: &mut HashMap<&'a [u8], u64>,
    of_events: bool,
    number: u64,
    line: &'a [u8],
) -> Result<(), AllocError>
    ensures { OnOk result ((name : List ℕ) → get_by (λ k. bytes_eq name k.now) lines.new
        ≡ or_line (get_by (λ k. bytes_eq name k.now) lines.old) (labelled_on of_events number line.now name)) }
{
    let Some(label) = unlabelled(line).label else {
        return Ok(());
    };
    if !is_looked_for(of_events, line) {
        return Ok(());
    }
    note(lines, label, number)
}

// The first line of each label of a script, or of events alone.
#[tactic(auto, using(crate::proofs::Tabled::one_more, crate::proofs::Tabled::no_more))]
fn first_lines<'a>(
    alloc: Global,
    of_events: bool,
    script: &'a [u8],
) -> Result<HashMap<&'a [u8], u64>, AllocError>
    ensures { IfOk result (λ lines. (name : List ℕ) → get_by (λ k. bytes_eq name k.now) lines ≡ labelled_from of_events 1 (lines_of script.now) name) }
{
    let mut lines = HashMap::new(alloc);
    let mut rest = script;
    let mut number = 1u64;
    'lines: while let Some((line, after)) = first_line(rest) {
        note_line(&mut lines, of_events, number, line)?;
        rest = after;
        number += 1;
    }
    Ok(lines)
}

// Notes the number of a line, where it is an event's.
#[tactic(auto, using(crate::proofs::Marking::no_more, crate::proofs::Marking::put))]
fn note_event(lines: &mut HashSet<u64>, number: u64, line: &[u8]) -> Result<(), AllocError>
    ensures { OnOk result ((other : ℕ) → contains nat_eq lines.new other ≡ (contains nat_eq lines.old other || is_event_on number line.now other)) }
{
    if !is_event_line(line) {
        return Ok(());
    }
    match lines.insert(number) {
        Ok(_) => Ok(()),
        Err(_) => Err(AllocError),
    }
}

// Which lines of a script are events'.
#[tactic(auto, using(crate::proofs::Marking::one_more, crate::proofs::Marking::all_noted))]
fn event_lines(alloc: Global, script: &[u8]) -> Result<HashSet<u64>, AllocError>
    ensures { IfOk result (λ lines. (number : ℕ) → contains nat_eq lines number ≡ is_event_at script.now number) }
{
    let mut lines = HashSet::new(alloc);
    let mut rest = script;
    let mut number = 1u64;
    'lines: while let Some((line, after)) = first_line(rest) {
        note_event(&mut lines, number, line)?;
        rest = after;
        number += 1;
    }
    Ok(lines)
}

impl<'a> Labels<'a> {
    /// Reads the labels of a script.
    ///
    /// # Errors
    ///
    /// Want of memory.
    pub fn new(alloc: Global, script: &'a [u8]) -> Result<Self, AllocError>
        ensures { IfOk result (λ labels. labels.script.now ≡ script.now) }
    {
        let lines = first_lines(alloc, false, script)?;
        let events = first_lines(alloc, true, script)?;
        let event_lines = event_lines(alloc, script)?;
        Ok(Labels {
            script,
            lines,
            events,
            event_lines,
        })
    }

    /// The first line of the script with this label, counted from 1.
    pub fn line_of(&self, name: &[u8]) -> Option<u64>
        ensures { result ≡ line_of_label self.now.script.now name.now }
    {
        self.lines.get(name).copied()
    }

    /// The first event of the script with this label, by its line.
    pub fn event_of(&self, name: &[u8]) -> Option<u64>
        ensures { result ≡ event_labelled self.now.script.now name.now }
    {
        self.events.get(name).copied()
    }

    // The line above the line of this number, where it is an event's.
    fn event_above(&self, number: u64) -> Option<u64>
        ensures { result ≡ event_above self.now.script.now number }
    {
        let above = number.saturating_sub(1);
        if self.event_lines.contains(&above) {
            Some(above)
        } else {
            None
        }
    }

    /// The event that a line of this number speaks of, by its line: the first one with the label, or else the one above.
    pub fn event_meant(&self, number: u64, label: Option<&[u8]>) -> Option<u64>
        ensures { result ≡ event_meant self.now.script.now number (option_copied label.entry) }
    {
        match label {
            None => self.event_above(number),
            Some(name) => self.event_of(name),
        }
    }
}
