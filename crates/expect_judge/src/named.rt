//! The lines of a script that others speak of, read once.
ghost use Rattle.std.specs.Prelude.{◌≡◌, ◌==◌, ◌&&◌, ◌||◌, ℕ, IfOk, OnOk, nat_eq};
ghost use Rattle.std.specs.HashSet.{contains};
ghost use Rattle.expect_judge.specs.Named.{is_labelled, is_named, is_of_above, names_line};

use expect_text::{ExpectLine, form_in, unlabelled};
use std::alloc::{AllocError, Global};
use std::collections::HashSet;
use text_core::first_line;

/// The lines of a script that have a label, and those of which the line below expects that their event is refused.
#[derive(Drop)]
pub struct NamedLines<'a> {
    pub script: &'a [u8],
    lines: HashSet<u64>,
    ghost lines_are: { (number : ℕ) → contains nat_eq lines number ≡ is_named script.now number },
}

/// Whether a line has a label.
pub(crate) fn is_labelled(line: &[u8]) -> bool
    ensures { result ≡ is_labelled line.now }
{
    unlabelled(line).label.is_some()
}

// Whether a line expects that the event of the line above is refused.
fn is_of_above(line: &[u8]) -> bool
    ensures { result ≡ is_of_above line.now }
{
    match form_in(unlabelled(line).rest) {
        Err(_) => false,
        Ok(form) => match form {
            ExpectLine::Refused { label, .. } => label.is_none(),
            ExpectLine::Other => false,
            ExpectLine::Rounds { .. } => false,
            ExpectLine::State { .. } => false,
            ExpectLine::Unremarked { .. } => false,
        },
    }
}

// Notes a number, where it is one of those that are looked for.
#[tactic(auto, using(crate::proofs::Naming::no_more, crate::proofs::Naming::put))]
fn note_if(lines: &mut HashSet<u64>, is: bool, number: u64) -> Result<(), AllocError>
    ensures { OnOk result ((other : ℕ) → contains nat_eq lines.new other ≡ (contains nat_eq lines.old other || (is && (number == other)))) }
{
    if !is {
        return Ok(());
    }
    match lines.insert(number) {
        Ok(_) => Ok(()),
        Err(_) => Err(AllocError),
    }
}

// Notes the number of a line, where it has a label, and of the one above, where the line speaks of it.
#[tactic(auto, using(crate::proofs::Naming::both_noted))]
fn note_line(lines: &mut HashSet<u64>, number: u64, line: &[u8]) -> Result<(), AllocError>
    ensures { OnOk result ((other : ℕ) → contains nat_eq lines.new other ≡ (contains nat_eq lines.old other || names_line number line.now other)) }
{
    note_if(lines, is_labelled(line), number)?;
    note_if(lines, is_of_above(line), number.saturating_sub(1))
}

impl<'a> NamedLines<'a> {
    /// Reads which lines of a script others speak of.
    ///
    /// # Errors
    ///
    /// Want of memory.
    #[tactic(auto, using(crate::proofs::Naming::one_more, crate::proofs::Naming::all_noted))]
    pub fn new(alloc: Global, script: &'a [u8]) -> Result<Self, AllocError>
        ensures { IfOk result (λ named. named.script.now ≡ script.now) }
    {
        let mut lines = HashSet::new(alloc);
        let mut rest = script;
        let mut number = 1u64;
        'lines: while let Some((line, after)) = first_line(rest) {
            note_line(&mut lines, number, line)?;
            rest = after;
            number += 1;
        }
        Ok(NamedLines { script, lines })
    }

    /// Whether others speak of the line of this number.
    pub fn has(&self, number: u64) -> bool
        ensures { result ≡ is_named self.now.script.now number }
    {
        self.lines.contains(&number)
    }
}
