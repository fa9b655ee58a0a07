//! A detailed timing by its video code, its monitor timing's identifier, or a formula of VESA.
ghost use Rattle.std.specs.Prelude.{◌<◌, ◌≡◌, MatchResult, Ok, Err};
ghost use Rattle.std.specs.Option.{option_copied};
ghost use Rattle.text_core.specs.Words.{words_after};
ghost use Rattle.edid_spelling.specs.Rows.{others_of};
ghost use Rattle.edid_spelling.specs.Timing.{dmt_of, fault_place, formula_named, format_named, mode_in, monitor_named, numbered_by, numbers_of, side_of, sizes_of, timed_by, timing_by, timing_of, value_of, vic_of};

use crate::rows::next_word;
use arrayvec::ArrayVec;
use edid_modes::{Formula, Mode, ModeFault, ModeTiming, code_timing, monitor_timing};
use text_core::{first_word, hex_byte, number_in};

/// The sides of an image, in mm.
#[derive(Clone, Copy)]
pub struct Sides {
    pub across: u32,
    pub down: u32,
}

/// A detailed timing.
#[derive(Drop)]
pub(crate) struct Timed {
    pub numbers: ArrayVec<u32, 13>,
    pub flags: u8,
}

/// The longest side of an image, in mm.
const LONGEST: u64 = 4095;

// The format of a code in digits.
fn format_named(word: &[u8]) -> Option<ModeTiming>
    ensures { result ≡ format_named word.now }
{
    code_timing(number_in(word)?)
}

// The monitor timing of an identifier, two hex digits.
fn monitor_named(word: &[u8]) -> Option<ModeTiming>
    ensures { result ≡ monitor_named word.now }
{
    monitor_timing(u64::from(hex_byte(word)?))
}

// A side of an image in mm.
fn side_of(word: &[u8]) -> Option<u32>
    ensures { result ≡ side_of word.now }
{
    match number_in(word) {
        Some(side) if side <= LONGEST => Some(side as u32),
        _ => None,
    }
}

// The sides of an image, or the number of the word at fault; the first has the number `first`. No words: the image has no size.
fn sizes_in(rest: Option<&[u8]>, first: usize) -> Result<Sides, usize>
    requires { first < 9 }
    ensures { result ≡ sizes_of first (words_after (option_copied rest.entry)) }
{
    let Some(text) = rest else {
        return Ok(Sides { across: 0, down: 0 });
    };
    let (across, more) = first_word(text);
    let Some(across) = side_of(across) else {
        return Err(first);
    };
    let (down, more) = next_word(more);
    let Some(down) = side_of(down) else {
        return Err(first + 1);
    };
    match more {
        None => Ok(Sides { across, down }),
        Some(text) => {
            // No effect at run time. The proof reads from it that one word more is left.
            let (_word, _others) = first_word(text);
            Err(first + 2)
        }
    }
}

fn numbers_of(timing: ModeTiming, sides: Sides) -> ArrayVec<u32, 13>
    ensures { result.items ≡ numbers_of timing sides }
{
    ArrayVec::from([
        timing.clock,
        timing.width,
        timing.horizontal_blanking,
        timing.height,
        timing.vertical_blanking,
        timing.horizontal_offset,
        timing.horizontal_sync,
        timing.vertical_offset,
        timing.vertical_sync,
        sides.across,
        sides.down,
        0,
        0,
    ])
}

// A timing with the sides of its image, of which the first has the number `first`.
fn timed_in(timing: ModeTiming, rest: Option<&[u8]>, first: usize) -> Result<Timed, usize>
    requires { first < 9 }
    ensures { MatchResult result (λ t. timed_by timing (sizes_of first (words_after (option_copied rest.entry))) ≡ Ok (record { numbers = t.numbers.items; flags = t.flags })) (λ k. timed_by timing (sizes_of first (words_after (option_copied rest.entry))) ≡ Err k) }
{
    match sizes_in(rest, first) {
        Ok(sides) => Ok(Timed {
            numbers: numbers_of(timing, sides),
            flags: timing.flags,
        }),
        Err(number) => Err(number),
    }
}

// A timing that a table has, or none, with the sides of its image.
fn numbered_in(timing: Option<ModeTiming>, rest: Option<&[u8]>) -> Result<Timed, usize>
    ensures { MatchResult result (λ t. numbered_by timing (words_after (option_copied rest.entry)) ≡ Ok (record { numbers = t.numbers.items; flags = t.flags })) (λ k. numbered_by timing (words_after (option_copied rest.entry)) ≡ Err k) }
{
    match timing {
        Some(timing) => timed_in(timing, rest, 3),
        None => Err(2),
    }
}

// The timing of a video code.
fn vic_in(rest: Option<&[u8]>) -> Result<Timed, usize>
    ensures { MatchResult result (λ t. vic_of (words_after (option_copied rest.entry)) ≡ Ok (record { numbers = t.numbers.items; flags = t.flags })) (λ k. vic_of (words_after (option_copied rest.entry)) ≡ Err k) }
{
    let (code, more) = next_word(rest);
    numbered_in(format_named(code), more)
}

// The timing of an identifier.
fn dmt_in(rest: Option<&[u8]>) -> Result<Timed, usize>
    ensures { MatchResult result (λ t. dmt_of (words_after (option_copied rest.entry)) ≡ Ok (record { numbers = t.numbers.items; flags = t.flags })) (λ k. dmt_of (words_after (option_copied rest.entry)) ≡ Err k) }
{
    let (identifier, more) = next_word(rest);
    numbered_in(monitor_named(identifier), more)
}

// A formula by its name.
fn formula_named(word: &[u8]) -> Option<Formula>
    ensures { result ≡ formula_named word.now }
{
    if word == b"cvt".as_slice() {
        Some(Formula::Coordinated)
    } else if word == b"cvt-rb".as_slice() {
        Some(Formula::Reduced)
    } else if word == b"gtf".as_slice() {
        Some(Formula::Generalized)
    } else {
        None
    }
}

// A number of a mode; what is no number is 0, which no mode has.
fn value_of(word: &[u8]) -> u64
    ensures { result ≡ value_of word.now }
{
    number_in(word).unwrap_or(0)
}

// A mode of three words, and what is left.
fn mode_in(rest: Option<&[u8]>) -> (Mode, Option<&[u8]>)
    ensures mode { result.0 ≡ mode_in (words_after (option_copied rest.entry)) }
    ensures rest { words_after (option_copied result.1) ≡ others_of (others_of (others_of (words_after (option_copied rest.entry)))) }
{
    let (width, more) = next_word(rest);
    let (height, more) = next_word(more);
    let (rate, more) = next_word(more);
    let mode = Mode {
        width: value_of(width),
        height: value_of(height),
        rate: value_of(rate),
    };
    (mode, more)
}

// The number of the word with a number of a mode.
fn fault_place(fault: ModeFault) -> usize
    ensures { result ≡ fault_place fault }
{
    match fault {
        ModeFault::Width => 2,
        ModeFault::Height => 3,
        ModeFault::Rate => 4,
    }
}

// The timing that a formula gives the mode of some words.
fn timing_by(formula: Formula, rest: Option<&[u8]>) -> Result<Timed, usize>
    ensures { MatchResult result (λ t. timing_by formula (words_after (option_copied rest.entry)) ≡ Ok (record { numbers = t.numbers.items; flags = t.flags })) (λ k. timing_by formula (words_after (option_copied rest.entry)) ≡ Err k) }
{
    let (mode, more) = mode_in(rest);
    match formula.timing(mode) {
        Ok(timing) => timed_in(timing, more, 5),
        Err(fault) => Err(fault_place(fault)),
    }
}

// The timing that the words of a line stand for, or the number of the word at fault; 0 where the first one is none of `vic`, `dmt` and the formulas.
pub(crate) fn timing_in(rest: Option<&[u8]>) -> Result<Timed, usize>
    ensures { MatchResult result (λ t. timing_of (words_after (option_copied rest.entry)) ≡ Ok (record { numbers = t.numbers.items; flags = t.flags })) (λ k. timing_of (words_after (option_copied rest.entry)) ≡ Err k) }
{
    let (word, more) = next_word(rest);
    if word == b"vic".as_slice() {
        vic_in(more)
    } else if word == b"dmt".as_slice() {
        dmt_in(more)
    } else {
        match formula_named(word) {
            Some(formula) => timing_by(formula, more),
            None => Err(0),
        }
    }
}
