//! An InfoFrame as its bytes.
ghost use Rattle.std.specs.Prelude.{◌≡◌, ◌≤◌, ◌+◌, ◌*◌, ◌++◌, Ok, Err, IfOk, IfErr, length};
ghost use Rattle.std.specs.List.{list_all};
ghost use Rattle.arrayvec.specs.ArrayVec.{array_vec_len};
ghost use Rattle.text_core.specs.Hex.{hex_bytes};
ghost use Rattle.text_core.specs.Phys.{is_hex_digit};
ghost use Rattle.infoframe_tables.specs.Reading.{digits_of, is_mark, lower, read_of, spelled};

use arrayvec::ArrayVec;
use text_core::{hex_bytes, is_hex_digit};
use thiserror::Error;

/// The bytes before the data bytes: the header of three, and the checksum.
const LEAST: usize = 4;
/// The bytes of a packet of HDMI: a header of three, and 28.
const MOST: usize = 31;
/// The digits of the longest InfoFrame.
const MOST_DIGITS: usize = 62;
/// The longest text that is read, marks and all.
const MOST_TEXT: usize = 1000;

/// Why a text is no InfoFrame. The first of these that is so is the one.
#[derive(Clone, Copy, Debug, Drop, PartialEq, Eq, Error)]
pub enum InfoFrameError {
    /// More than 31 bytes.
    #[error("an InfoFrame has at most 31 bytes")]
    Long,
    /// Something else than hex digits and marks between bytes.
    #[error("an InfoFrame is hex digits, two a byte")]
    NoHex,
    /// A hex digit that is alone.
    #[error("an InfoFrame has two hex digits a byte, and one of these has no second")]
    HalfByte,
    /// Fewer than 4 bytes.
    #[error("an InfoFrame has at least 4 bytes: type, version, length and checksum")]
    Short,
}

/// An InfoFrame: its type, its version, its length, its checksum and its data bytes, as they stand in a packet of HDMI.
#[derive(Clone, Copy, Debug)]
pub struct InfoFrame {
    bytes: [u8; 31],
    count: usize,
    ghost whole: { length bytes ≡ 31 },
    ghost least: { 4 ≤ count },
    ghost most: { count ≤ 31 },
}

/// Whether a character stands between bytes.
fn is_mark(byte: u8) -> bool
    ensures { result ≡ is_mark byte }
{
    matches!(byte, b' ' | b',' | b':' | b'-' | b'\n' | b'\r' | b'\t')
}

/// A letter in lower case.
fn lower(byte: u8) -> u8
    ensures { result ≡ lower byte }
{
    if b'A' <= byte && byte <= b'F' {
        byte + 32
    } else {
        byte
    }
}

/// How many characters are no marks.
fn digit_count(text: &[u8]) -> usize
    ensures value { result ≡ length (digits_of text.now) }
    ensures few { result ≤ length text.now }
{
    let [byte, others @ ..] = text else {
        return 0;
    };
    let count = digit_count(others);
    if is_mark(*byte) { count } else { count + 1 }
}

// Adds what is no mark, in lower case.
fn add_digits(out: &mut ArrayVec<u8, MOST_DIGITS>, text: &[u8])
    requires room { array_vec_len out.old + length (digits_of text.now) ≤ MOST_DIGITS }
    ensures items { out.new.items ≡ out.old.items ++ digits_of text.now }
{
    if let [byte, others @ ..] = text {
        if !is_mark(*byte) {
            out.push(lower(*byte));
        }
        add_digits(out, others);
    }
}

fn are_digits(digits: &[u8]) -> bool
    ensures { result ≡ list_all is_hex_digit digits.now }
{
    digits.iter().all(|digit| is_hex_digit(*digit))
}

impl InfoFrame {
    ghost use Rattle.infoframe_tables.specs.Bytes.{frame_bytes};

    // The InfoFrame of so many bytes.
    fn frame_of(bytes: &[u8]) -> InfoFrame
        requires least { LEAST ≤ length bytes.now }
        requires most { length bytes.now ≤ MOST }
        ensures { frame_bytes result ≡ bytes.now }
    {
        let mut kept = [0; MOST];
        kept[..bytes.len()].copy_from_slice(bytes);
        InfoFrame {
            bytes: kept,
            count: bytes.len(),
        }
    }

    // The InfoFrame of digits, of which there are not too many.
    fn spelled(digits: &[u8]) -> Result<InfoFrame, InfoFrameError>
        requires { length digits.now ≤ MOST_DIGITS }
        ensures ok { IfOk result (λ f. spelled digits.now ≡ Ok (frame_bytes f)) }
        ensures err { IfErr result (λ e. spelled digits.now ≡ Err e) }
    {
        if !are_digits(digits) {
            return Err(InfoFrameError::NoHex);
        }
        if digits.len() % 2 == 1 {
            return Err(InfoFrameError::HalfByte);
        }
        if digits.len() < 2 * LEAST {
            return Err(InfoFrameError::Short);
        }
        let bytes: ArrayVec<u8, MOST> = hex_bytes(digits);
        Ok(InfoFrame::frame_of(bytes.as_slice()))
    }

    /// The InfoFrame that a text spells: two hex digits a byte, of either case, with spaces, commas, colons, dashes and ends of lines
    /// between them or none.
    ///
    /// # Errors
    ///
    /// The text spells none: the first cause that is so.
    pub fn read(hex: &[u8]) -> Result<InfoFrame, InfoFrameError>
        ensures ok { IfOk result (λ f. read_of hex.now ≡ Ok (frame_bytes f)) }
        ensures err { IfErr result (λ e. read_of hex.now ≡ Err e) }
    {
        if hex.len() > MOST_TEXT || digit_count(hex) > MOST_DIGITS {
            return Err(InfoFrameError::Long);
        }
        let mut digits = ArrayVec::new();
        add_digits(&mut digits, hex);
        InfoFrame::spelled(digits.as_slice())
    }

    /// Its bytes.
    pub fn bytes(&self) -> &[u8]
        ensures value { result.now ≡ frame_bytes self.now }
        ensures least { 4 ≤ length result.now }
        ensures most { length result.now ≤ 31 }
    {
        &self.bytes[..self.count]
    }
}
