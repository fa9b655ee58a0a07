//! The lines that explain findings.
ghost use Rattle.std.specs.Prelude.{◌≤◌, length};

use crate::asked::asked;
use crate::values::values;
use arrayvec::ArrayVec;
use edid_base::Base;
use edid_core::read_parts;
use edid_cta::Ext;
use rules_check::{Finding, Origin, check, write_findings};
use std::alloc::{AllocError, Global};
use text_core::Writes;

/// The line of a finding.
fn line_of(alloc: Global, finding: Finding) -> Result<String, AllocError> {
    let mut line = Vec::new(alloc);
    let _ = write_findings(&mut Writes::new(&mut line), &[finding]);
    match str::from_utf8(&line) {
        Ok(text) => String::from_str(alloc, text),
        Err(_) => Ok(String::new(alloc)),
    }
}

/// The line of a finding, what its rule asks as another, and the values at fault as a third where they are few.
fn explanation(
    alloc: Global,
    finding: Finding,
    base: &Base,
    extensions: &[Ext],
) -> Result<String, AllocError>
    requires { length extensions.now ≤ 3 }
{
    let line = line_of(alloc, finding)?;
    let rule = asked(finding);
    match values(alloc, finding, base, extensions)? {
        None => format!(in alloc; "{line}  {rule}\n"),
        Some(reported) => format!(in alloc; "{line}  {rule}\n  here: {reported}\n"),
    }
}

// What explains each rule that an EDID of these parts breaks.
fn explanations(
    alloc: Global,
    origin: Origin,
    base: &Base,
    extensions: &[Ext],
) -> Result<String, AllocError>
    requires { length extensions.now ≤ 3 }
{
    let mut text = String::new(alloc);
    let found = check(origin, base, extensions);
    for finding in found.as_slice() {
        let lines = explanation(alloc, *finding, base, extensions)?;
        text.push_str(lines.as_str())?;
    }
    Ok(text)
}

/// What explains each rule that the EDID breaks that some bytes spell, in the order of the findings. Of bytes that are no
/// EDID it is empty.
///
/// # Errors
///
/// Where memory runs out.
pub fn explain_findings(alloc: Global, origin: Origin, bytes: &[u8]) -> Result<String, AllocError> {
    let mut extensions = ArrayVec::new();
    match &read_parts(bytes, &mut extensions) {
        Ok(base) => explanations(alloc, origin, base, extensions.as_slice()),
        Err(_) => Ok(String::new(alloc)),
    }
}

/// The same where byte 126 of the bytes as they came was this count, by which the rules judge.
///
/// # Errors
///
/// Where memory runs out.
pub fn explain_counted(
    alloc: Global,
    origin: Origin,
    count: u8,
    bytes: &[u8],
) -> Result<String, AllocError> {
    let mut extensions = ArrayVec::new();
    match read_parts(bytes, &mut extensions) {
        Ok(mut base) => {
            base.extensions = count;
            explanations(alloc, origin, &base, extensions.as_slice())
        }
        Err(_) => Ok(String::new(alloc)),
    }
}
