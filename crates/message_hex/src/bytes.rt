//! The bytes of a frame in hex, as tools print them.
ghost use Rattle.std.specs.Prelude.{◌≡◌, ◌<◌, ◌++◌, ◌∷◌, [], ℕ, List, Ok, Err, length, MatchOption, MatchResult};
ghost use Rattle.message_hex.specs.Bytes.{after_arrow, byte_of, bytes_from, frame_in, is_arrow, is_digit, is_mark, is_prefix, cause_of_half, step, value_of, whole_frame};
ghost use Rattle.message_hex.specs.Kept.{AreBytes, AreKept};
ghost use Rattle.message_hex.specs.declared.bytes.HexState.TheVariants.{Between};

use arrayvec::ArrayVec;
use line_frames::Frame;
use thiserror::Error;

/// Why a line has no frame.
#[derive(Clone, Copy, Debug, Drop, PartialEq, Eq, Error)]
pub enum DisCause {
    /// Something else than hex digits and the marks between bytes.
    #[error("digit")]
    Digit,
    /// A hex digit that is alone.
    #[error("half")]
    Half,
    /// No byte, or more than 16.
    #[error("length")]
    Length,
}

// Where the reading of a line stands.
#[derive(Clone, Copy, Drop)]
enum HexState {
    /// Between two bytes, and at the begin.
    Between,
    /// After the first digit of a byte.
    High(u8),
    /// After `0x`.
    Prefix,
    /// After the first digit of a byte that `0x` stands before.
    HighAfterPrefix(u8),
}

fn is_mark(character: u8) -> bool
    ensures { result ≡ is_mark character }
{
    character == b' ' || character == b':' || character == b',' || character == b'-'
}

fn is_digit(character: u8) -> bool
    ensures { result ≡ is_digit character }
{
    (b'0' <= character && character <= b'9')
        || (b'A' <= character && character <= b'F')
        || (b'a' <= character && character <= b'f')
}

fn is_prefix(first: u8, second: u8) -> bool
    ensures { result ≡ is_prefix first second }
{
    first == b'0' && (second == b'x' || second == b'X')
}

fn value_of(digit: u8) -> u8
    ensures value { result ≡ value_of digit }
    ensures small { result < 16 }
{
    if digit <= b'9' {
        digit.saturating_sub(b'0') % 16
    } else if digit <= b'F' {
        digit.saturating_sub(b'7') % 16
    } else {
        digit.saturating_sub(b'W') % 16
    }
}

fn byte_of(high: u8, low: u8) -> u8
    ensures { result ≡ byte_of high low }
{
    value_of(high) * 16 + value_of(low)
}

// Why a digit is alone before this character.
fn cause_of_half(character: u8) -> DisCause
    ensures { result ≡ cause_of_half character }
{
    if is_mark(character) {
        DisCause::Half
    } else {
        DisCause::Digit
    }
}

// Where a line stands after one more character, and the byte that it ends.
fn step(place: HexState, character: u8) -> Result<(HexState, Option<u8>), DisCause>
    ensures { result ≡ step place character }
{
    match place {
        HexState::Between => {
            if is_mark(character) {
                Ok((HexState::Between, None))
            } else if is_digit(character) {
                Ok((HexState::High(character), None))
            } else {
                Err(DisCause::Digit)
            }
        }
        HexState::High(high) => {
            if is_digit(character) {
                Ok((HexState::Between, Some(byte_of(high, character))))
            } else if is_prefix(high, character) {
                Ok((HexState::Prefix, None))
            } else {
                Err(cause_of_half(character))
            }
        }
        HexState::Prefix => {
            if is_digit(character) {
                Ok((HexState::HighAfterPrefix(character), None))
            } else {
                Err(cause_of_half(character))
            }
        }
        HexState::HighAfterPrefix(high) => {
            if is_digit(character) {
                Ok((HexState::Between, Some(byte_of(high, character))))
            } else {
                Err(cause_of_half(character))
            }
        }
    }
}

// The bytes that were read: the first sixteen, and whether there are more.
#[derive(Drop)]
struct LineBytes {
    first: ArrayVec<u8, 16>,
    is_long: bool,
}

impl LineBytes {
    fn new() -> Self
        ensures { AreBytes result [] }
    {
        LineBytes {
            first: ArrayVec::new(),
            is_long: false,
        }
    }

    fn push(&mut self, byte: u8)
        ensures { (all : List ℕ) → AreBytes self.old all → AreBytes self.new (all ++ byte ∷ []) }
    {
        if self.first.try_push(byte).is_err() {
            self.is_long = true;
        }
    }

    // Takes the byte that a character ends, if it ends one.
    fn keep(&mut self, byte: Option<u8>)
        ensures { (all : List ℕ) → AreBytes self.old all → AreKept byte all self.new }
    {
        match byte {
            None => {}
            Some(byte) => self.push(byte),
        }
    }
}

// The first character of a text, and the others.
fn first_character(text: &[u8]) -> Option<(u8, &[u8])>
    ensures { MatchOption result (text.now ≡ []) (λ p. text.now ≡ p.0 ∷ p.1.now) }
{
    match text {
        [] => None,
        [first, rest @ ..] => Some((*first, rest)),
    }
}

// The bytes that a text spells.
fn read_bytes(text: &[u8]) -> Result<LineBytes, DisCause>
    ensures { MatchResult result
        (λ bytes. (all : List ℕ) × (bytes_from Between text.now ≡ Ok all) × AreBytes bytes all)
        (λ cause. bytes_from Between text.now ≡ Err cause) }
{
    let mut bytes = LineBytes::new();
    let mut place = HexState::Between;
    let mut rest = text;
    'characters: while let Some((character, more)) = first_character(rest) {
        match step(place, character) {
            Err(cause) => return Err(cause),
            Ok((next, byte)) => {
                bytes.keep(byte);
                place = next;
                rest = more;
            }
        }
    }
    match place {
        HexState::Between => Ok(bytes),
        HexState::High(_) => Err(DisCause::Half),
        HexState::Prefix => Err(DisCause::Half),
        HexState::HighAfterPrefix(_) => Err(DisCause::Half),
    }
}

// The frame of the bytes that a text spells.
fn whole_frame(text: &[u8]) -> Result<Frame, DisCause>
    ensures { result ≡ whole_frame (bytes_from Between text.now) }
{
    match read_bytes(text) {
        Err(cause) => Err(cause),
        Ok(bytes) => {
            if bytes.is_long {
                return Err(DisCause::Length);
            }
            match Frame::new(&bytes.first) {
                Ok(frame) => Ok(frame),
                Err(_) => Err(DisCause::Length),
            }
        }
    }
}

fn is_arrow(first: u8, second: u8) -> bool
    ensures { result ≡ is_arrow first second }
{
    (first == b'>' || first == b'<') && second == first
}

// What stands after the last `>>` or `<<`.
fn after_arrow(line: &[u8]) -> &[u8]
    ensures { result.now ≡ after_arrow line.now }
{
    let mut best = line;
    let mut rest = line;
    'pairs: while let [first, second, more @ ..] = rest {
        if is_arrow(*first, *second) {
            best = more;
        }
        rest = &rest[1..];
    }
    best
}

/// The frame whose bytes a line spells in hex: 1 to 16 bytes, the header first, each as two digits of either case, with
/// `0x` before them or not, and between bytes any number of spaces, `:`, `,` and `-`. What stands before the last `>>` or
/// `<<`, as in the logs of an adapter, is passed over.
///
/// # Errors
///
/// `Digit` or `Half` at the first character that is out of place; then `Length`.
pub fn frame_in(line: &[u8]) -> Result<Frame, DisCause>
    ensures { result ≡ frame_in line.now }
{
    whole_frame(after_arrow(line))
}
