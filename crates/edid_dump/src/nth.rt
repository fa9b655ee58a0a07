//! One of several dumps.
ghost use Rattle.std.specs.Prelude.{◌≡◌};
ghost use Rattle.edid_dump.specs.Dump.{Gives};
ghost use Rattle.edid_dump.specs.Nth.{begins, dump_count, later_by, nth_in_dump, shifted};

use crate::dump::{DumpError, dump_bytes, looks_like_dump};
use arrayvec::ArrayVec;
use text_core::first_line;

// Whether an EDID begins with a line.
fn begins(line: &[u8]) -> bool
    ensures { result ≡ begins line.now }
{
    looks_like_dump(line)
}

/// How many lines of a text an EDID begins with.
pub fn dump_count(text: &[u8]) -> usize
    ensures { result ≡ dump_count text.now }
{
    let mut count = 0;
    let mut rest = text;
    'lines: while let Some((line, after)) = first_line(rest) {
        if begins(line) {
            count += 1;
        }
        rest = after;
    }
    count
}

// A number of a line, after so many others. It stays at its greatest value.
fn later_by(passed: u64, line: u64) -> u64
    ensures { result ≡ later_by passed line }
{
    line.saturating_add(passed)
}

// The bytes of the dump that a text begins with, which follows so many lines.
fn bytes_after(passed: u64, text: &[u8]) -> Result<ArrayVec<u8, 512>, DumpError>
    ensures { Gives result (shifted passed text.now) }
{
    match dump_bytes(text) {
        Ok(bytes) => Ok(bytes),
        Err(DumpError::NoDump) => Err(DumpError::NoDump),
        Err(DumpError::Cut(line)) => Err(DumpError::Cut(later_by(passed, line))),
        Err(DumpError::Long(line)) => Err(DumpError::Long(later_by(passed, line))),
    }
}

/// The bytes of the EDID with a number, from 1, among those whose hex dumps stand in a text: that of the dump which begins at
/// the line with this number among the lines that an EDID begins with.
///
/// # Errors
///
/// `NoDump` where not so many lines begin an EDID, and where the number is 0; else as of `dump_bytes`.
#[inline(never)]
pub fn nth_dump_bytes(text: &[u8], nth: u64) -> Result<ArrayVec<u8, 512>, DumpError>
    ensures { Gives result (nth_in_dump nth text.now) }
{
    let mut left = nth;
    let mut passed = 0u64;
    let mut rest = text;
    'lines: while let Some((line, after)) = first_line(rest) {
        if begins(line) {
            if left == 1 {
                return bytes_after(passed, rest);
            }
            left = left.saturating_sub(1);
        }
        passed += 1;
        rest = after;
    }
    Err(DumpError::NoDump)
}
