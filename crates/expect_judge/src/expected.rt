//! The refused events that a script expects, read once.
ghost use Rattle.std.specs.Prelude.{◌≡◌, ◌||◌, ℕ, IfOk, OnOk, nat_eq};
ghost use Rattle.std.specs.HashSet.{contains};
ghost use Rattle.expect_judge.specs.Judged.{is_number, is_refusal_expected, line_expects};

use expect_text::{ExpectLine, Labels, form_in, unlabelled};
use std::alloc::{AllocError, Global};
use std::collections::HashSet;
use text_core::first_line;

/// The lines of a script whose events are expected to be refused.
#[derive(Drop)]
pub struct Expected<'a> {
    pub script: &'a [u8],
    lines: HashSet<u64>,
    ghost lines_are: { (number : ℕ) → contains nat_eq lines number ≡ is_refusal_expected script.now number },
}

// Notes a line, where there is one.
#[tactic(auto, using(crate::proofs::Expecting::no_more, crate::proofs::Expecting::put))]
fn note(lines: &mut HashSet<u64>, line: Option<u64>) -> Result<(), AllocError>
    ensures { OnOk result ((number : ℕ) → contains nat_eq lines.new number ≡ (contains nat_eq lines.old number || is_number number line)) }
{
    let Some(line) = line else {
        return Ok(());
    };
    match lines.insert(line) {
        Ok(_) => Ok(()),
        Err(_) => Err(AllocError),
    }
}

// Notes the line of the event that a line of this number expects to be refused.
#[tactic(auto, using(crate::proofs::Expecting::no_more))]
fn note_line(
    lines: &mut HashSet<u64>,
    labels: &Labels<'_>,
    own: u64,
    line: &[u8],
) -> Result<(), AllocError>
    ensures { OnOk result ((number : ℕ) → contains nat_eq lines.new number ≡ (contains nat_eq lines.old number || line_expects labels.now.script.now own number line.now)) }
{
    match form_in(unlabelled(line).rest) {
        Err(_) => Ok(()),
        Ok(form) => match form {
            ExpectLine::Refused { label, .. } => note(lines, labels.event_meant(own, label)),
            ExpectLine::Other => Ok(()),
            ExpectLine::Rounds { .. } => Ok(()),
            ExpectLine::State { .. } => Ok(()),
            ExpectLine::Unremarked { .. } => Ok(()),
        },
    }
}

impl<'a> Expected<'a> {
    /// Reads which refused events a script expects.
    ///
    /// # Errors
    ///
    /// Want of memory.
    #[tactic(auto, using(crate::proofs::Expecting::one_more, crate::proofs::Expecting::all_noted))]
    pub fn new(alloc: Global, labels: &Labels<'a>) -> Result<Self, AllocError>
        ensures { IfOk result (λ expected. expected.script.now ≡ labels.now.script.now) }
    {
        let mut lines = HashSet::new(alloc);
        let mut rest = labels.script;
        let mut number = 1u64;
        'lines: while let Some((line, after)) = first_line(rest) {
            note_line(&mut lines, labels, number, line)?;
            rest = after;
            number += 1;
        }
        Ok(Expected {
            script: labels.script,
            lines,
        })
    }

    /// Whether a line of the script expects that the event of this line is refused.
    pub fn has(&self, number: u64) -> bool
        ensures { result ≡ is_refusal_expected self.now.script.now number }
    {
        self.lines.contains(&number)
    }
}
