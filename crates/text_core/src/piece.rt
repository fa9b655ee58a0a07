//! Lines made of parts: each line goes to a sink whole, and takes no memory.
ghost use Rattle.std.specs.Prelude.{◌≡◌, ◌+◌, ◌*◌, ◌<◌, ◌-◌, [], ◌∷◌, length, true, false, Some};
ghost use Rattle.std.specs.Fmt.{decimal};
ghost use Rattle.std.specs.List.{flat_map};
ghost use Rattle.text_core.specs.Piece.{hex_text, nibble_text, piece_text};
ghost use Rattle.text_core.specs.Written.{Written, WrittenLine};

use crate::phys::Phys;
use crate::sink::{Sink, WriteFault, put_all};
use arrayvec::ArrayVec;

/// A part of a line.
#[derive(Clone, Copy)]
pub enum Piece<'a> {
    /// A text as it stands.
    Text(&'a str),
    /// Bytes as they stand.
    Bytes(&'a [u8]),
    /// A number in decimal digits.
    Decimal(u64),
    /// The low four bits as a hex digit.
    Nibble(u8),
    /// A byte as two hex digits.
    HexByte(u8),
    /// Bytes, each as two hex digits.
    Hex(&'a [u8]),
    /// Bytes, each as two hex digits, or `-` for none.
    HexOrDash(&'a [u8]),
    /// A physical address, as `1.2.0.0`.
    Phys(Phys),
    /// A physical address, or `-`.
    PhysOrDash(Option<Phys>),
    /// `on` or `off`.
    Switch(bool),
    /// A number in decimal digits, or `-`.
    DecimalOrDash(Option<u64>),
    /// The low four bits as a hex digit, or `-`.
    NibbleOrDash(Option<u8>),
    /// A byte as two hex digits, or `-`.
    HexByteOrDash(Option<u8>),
}

impl Default for Piece<'_> {
    fn default() -> Self {
        Piece::Text("")
    }
}

/// The hex digit, lower case, of a number below 16.
pub fn hex_digit(nibble: u8) -> u8
    requires { nibble < 16 }
    ensures { result ∷ [] ≡ nibble_text nibble }
{
    if nibble < 10 {
        b'0' + nibble
    } else {
        b'a' + (nibble - 10)
    }
}

fn switch_word(is_on: bool) -> &'static str
    ensures { result.now ≡ piece_text (Piece.Switch is_on) }
{
    if is_on { "on" } else { "off" }
}

// Puts a text, and answers its length.
fn put_bytes<S: Sink>(out: &mut S, text: &[u8]) -> Result<u64, WriteFault>
    ensures { Written (S.contents out.old) (S.contents out.new) (S.is_stuck out.old) (S.is_stuck out.new) text.now result }
{
    put_all(out, text)?;
    Ok(text.len() as u64)
}

fn put_decimal<S: Sink>(out: &mut S, number: u64) -> Result<u64, WriteFault>
    ensures { Written (S.contents out.old) (S.contents out.new) (S.is_stuck out.old) (S.is_stuck out.new) (decimal number) result }
{
    let mut digits = itoa::Buffer::new();
    put_bytes(out, digits.format(number).as_bytes())
}

fn put_hex_byte<S: Sink>(out: &mut S, byte: u8) -> Result<u64, WriteFault>
    ensures { Written (S.contents out.old) (S.contents out.new) (S.is_stuck out.old) (S.is_stuck out.new) (hex_text byte) result }
{
    put_bytes(out, &[hex_digit(byte / 16), hex_digit(byte % 16)])
}

// Puts bytes in hex, and answers how long that is.
fn put_hex<S: Sink>(out: &mut S, bytes: &[u8]) -> Result<u64, WriteFault>
    ensures { Written (S.contents out.old) (S.contents out.new) (S.is_stuck out.old) (S.is_stuck out.new) (flat_map hex_text bytes.now) result }
{
    let mut written = 0u64;
    for byte in bytes {
        match put_hex_byte(out, *byte) {
            Ok(_) => written += 2,
            Err(fault) => {
                return Err(WriteFault {
                    count: u128::from(written) + fault.count,
                });
            }
        }
    }
    Ok(written)
}

// Puts a part of a line, and answers its length.
fn put_piece<S: Sink>(out: &mut S, piece: &Piece) -> Result<u64, WriteFault>
    ensures { Written (S.contents out.old) (S.contents out.new) (S.is_stuck out.old) (S.is_stuck out.new) (piece_text piece.now) result }
{
    match *piece {
        Piece::Text(text) => put_bytes(out, text.as_bytes()),
        Piece::Bytes(bytes) => put_bytes(out, bytes),
        Piece::Decimal(number) | Piece::DecimalOrDash(Some(number)) => put_decimal(out, number),
        Piece::Nibble(nibble) | Piece::NibbleOrDash(Some(nibble)) => {
            put_bytes(out, &[hex_digit(nibble % 16)])
        }
        Piece::HexByte(byte) | Piece::HexByteOrDash(Some(byte)) => put_hex_byte(out, byte),
        Piece::Phys(phys) | Piece::PhysOrDash(Some(phys)) => put_bytes(out, &phys.text()),
        Piece::Switch(is_on) => put_bytes(out, switch_word(is_on).as_bytes()),
        Piece::HexOrDash([])
        | Piece::PhysOrDash(None)
        | Piece::DecimalOrDash(None)
        | Piece::NibbleOrDash(None)
        | Piece::HexByteOrDash(None) => put_bytes(out, b"-"),
        Piece::Hex(bytes) | Piece::HexOrDash(bytes) => put_hex(out, bytes),
    }
}

/// Writes a line part by part, and answers its length.
pub fn write_pieces<S: Sink>(out: &mut S, pieces: &[Piece]) -> Result<u128, WriteFault>
    ensures { WrittenLine (S.contents out.old) (S.contents out.new) (S.is_stuck out.old) (S.is_stuck out.new) (flat_map piece_text pieces.now) result }
{
    let mut written = 0u128;
    for piece in pieces {
        match put_piece(out, piece) {
            Ok(count) => written += u128::from(count),
            Err(fault) => {
                return Err(WriteFault {
                    count: written + fault.count,
                });
            }
        }
    }
    Ok(written)
}

/// The most bytes of a line that goes out in one `put`: those of the longest line of a port, an instant of 13 digits,
/// ` port `, a name of 14 bytes, a space, a port of 2 digits, a space, 512 bytes in hex and the line feed.
const LINE_MOST: usize = 1_062;

// A line that is being made of its parts. It takes bytes as long as there is room.
#[derive(Drop)]
struct LineBuffer {
    bytes: ArrayVec<u8, LINE_MOST>,
    stuck: bool,
}

impl Sink for LineBuffer {
    ghost contents = { λ line. Some line.bytes.items };

    ghost is_stuck = { λ line. line.stuck };

    fn put(&mut self, bytes: &[u8]) -> usize {
        if self.bytes.try_extend_from_slice(bytes).is_ok() {
            return bytes.len();
        }
        if !bytes.is_empty() {
            self.stuck = true;
        }
        0
    }
}

/// Writes a line made of these parts, as one `put` where the sink takes it and it is no longer than 1,062
/// bytes, or is one part of bytes. Returns its length.
pub fn write_line<S: Sink>(out: &mut S, pieces: &[Piece]) -> Result<u128, WriteFault>
    ensures { WrittenLine (S.contents out.old) (S.contents out.new) (S.is_stuck out.old) (S.is_stuck out.new) (flat_map piece_text pieces.now) result }
{
    match pieces {
        [Piece::Bytes(bytes)] => Ok(u128::from(put_bytes(out, bytes)?)),
        _ => write_gathered(out, pieces),
    }
}

// The same, gathered first.
fn write_gathered<S: Sink>(out: &mut S, pieces: &[Piece]) -> Result<u128, WriteFault>
    ensures { WrittenLine (S.contents out.old) (S.contents out.new) (S.is_stuck out.old) (S.is_stuck out.new) (flat_map piece_text pieces.now) result }
{
    let mut line = LineBuffer {
        bytes: ArrayVec::new(),
        stuck: false,
    };
    match write_pieces(&mut line, pieces) {
        Ok(length) => {
            put_all(out, &line.bytes)?;
            Ok(length)
        }
        Err(_) => write_pieces(out, pieces),
    }
}
