//! The bytes of an EDID as other programs read them: as an array of C, and as the xml that `edid-decode -o xml` writes.
ghost use Rattle.std.specs.Prelude.{◌≡◌, ◌≤◌, ◌<◌, ◌+◌, ◌*◌, ◌++◌, ◌∷◌, [], codes, length};
ghost use Rattle.std.specs.Fmt.{decimal};
ghost use Rattle.std.specs.List.{flat_map};
ghost use Rattle.arrayvec.specs.ArrayVec.{array_vec_len};
ghost use Rattle.text_core.specs.Written.{WrittenAll};
ghost use Rattle.conversion_calls.specs.Programs.{c_byte, c_row, c_rows, c_text, capital, xml_block, xml_blocks, xml_byte, xml_tag, xml_text};

use arrayvec::ArrayVec;
use edid_base::append;
use text_core::{Sink, WriteFault, hex_digit, put_all};

/// The most bytes of either text.
const MOST: usize = 4_096;

/// The bytes of a row of an array.
const ROW: usize = 16;

/// The bytes of a block.
const BLOCK: usize = 128;

const XML_HEAD: &str =
    "<?xml version=\"1.0\" encoding=\"UTF-8\" standalone=\"no\"?>\n<DATAOBJ>\n    <HEADER TYPE=\"DID\" VERSION=\"1.0\"/>\n    <DATA>\n";

const XML_END: &str = "    </DATA>\n</DATAOBJ>\n";

fn append_c_byte(text: &mut ArrayVec<u8, MOST>, byte: u8)
    requires { array_vec_len text.old + 6 ≤ 4096 }
    ensures items { text.new.items ≡ text.old.items ++ c_byte byte }
    ensures len { array_vec_len text.new ≡ array_vec_len text.old + 6 }
{
    append(text, b" 0x");
    append(text, &[hex_digit(byte / 16), hex_digit(byte % 16)]);
    append(text, b",");
}

fn append_c_bytes(text: &mut ArrayVec<u8, MOST>, bytes: &[u8])
    requires { array_vec_len text.old + 6 * length bytes.now ≤ 4096 }
    ensures items { text.new.items ≡ text.old.items ++ flat_map c_byte bytes.now }
    ensures len { array_vec_len text.new ≡ array_vec_len text.old + 6 * length bytes.now }
{
    for byte in bytes {
        append_c_byte(text, *byte);
    }
}

fn append_c_row(text: &mut ArrayVec<u8, MOST>, row: &[u8])
    requires { array_vec_len text.old + 6 * length row.now + 4 ≤ 4096 }
    ensures items { text.new.items ≡ text.old.items ++ c_row row.now }
    ensures len { array_vec_len text.new ≡ array_vec_len text.old + 6 * length row.now + 4 }
{
    append(text, b"   ");
    append_c_bytes(text, row);
    append(text, b"\n");
}

// So many rows.
#[tactic(auto, using(crate::proofs::RowTexts::c_none, crate::proofs::RowTexts::c_more))]
fn append_c_rows(text: &mut ArrayVec<u8, MOST>, count: usize, bytes: &[u8])
    requires there { 16 * count ≤ length bytes.now }
    requires room { array_vec_len text.old + 100 * count ≤ 4096 }
    ensures items { text.new.items ≡ text.old.items ++ c_rows count bytes.now }
    ensures len { array_vec_len text.new ≡ array_vec_len text.old + 100 * count }
{
    if count == 0 {
        return;
    }
    let (row, others) = bytes.split_at(ROW);
    append_c_row(text, row);
    append_c_rows(text, count - 1, others);
}

fn append_number(text: &mut ArrayVec<u8, MOST>, number: u32)
    requires { array_vec_len text.old + 10 ≤ 4096 }
    ensures items { text.new.items ≡ text.old.items ++ decimal number }
    ensures len { array_vec_len text.new ≤ array_vec_len text.old + 10 }
{
    let mut digits = itoa::Buffer::new();
    append(text, digits.format(number).as_bytes());
}

fn c_text(bytes: &[u8]) -> ArrayVec<u8, MOST>
    requires { length bytes.now ≤ 512 }
    ensures { result.items ≡ c_text bytes.now }
{
    let mut text = ArrayVec::new();
    append(&mut text, b"static const unsigned char edid[");
    append_number(&mut text, bytes.len() as u32);
    append(&mut text, b"] = {\n");
    append_c_rows(&mut text, bytes.len() / ROW, bytes);
    append(&mut text, b"};\n");
    text
}

fn capital(nibble: u8) -> u8
    requires { nibble < 16 }
    ensures { result ≡ capital nibble }
{
    if nibble < 10 {
        b'0' + nibble
    } else {
        b'A' + (nibble - 10)
    }
}

fn append_xml_byte(text: &mut ArrayVec<u8, MOST>, byte: u8)
    requires { array_vec_len text.old + 2 ≤ 4096 }
    ensures items { text.new.items ≡ text.old.items ++ xml_byte byte }
    ensures len { array_vec_len text.new ≡ array_vec_len text.old + 2 }
{
    append(text, &[capital(byte / 16), capital(byte % 16)]);
}

fn append_xml_bytes(text: &mut ArrayVec<u8, MOST>, bytes: &[u8])
    requires { array_vec_len text.old + 2 * length bytes.now ≤ 4096 }
    ensures items { text.new.items ≡ text.old.items ++ flat_map xml_byte bytes.now }
    ensures len { array_vec_len text.new ≡ array_vec_len text.old + 2 * length bytes.now }
{
    for byte in bytes {
        append_xml_byte(text, *byte);
    }
}

fn append_xml_tag(text: &mut ArrayVec<u8, MOST>, begin: &[u8], number: u32)
    requires short { length begin.now ≤ 20 }
    requires room { array_vec_len text.old + 40 ≤ 4096 }
    ensures items { text.new.items ≡ text.old.items ++ xml_tag begin.now number }
    ensures len { array_vec_len text.new ≤ array_vec_len text.old + 40 }
{
    append(text, begin);
    append_number(text, number);
    append(text, b">");
}

fn append_xml_block(text: &mut ArrayVec<u8, MOST>, number: u32, bytes: &[u8])
    requires short { length bytes.now ≤ 128 }
    requires room { array_vec_len text.old + 400 ≤ 4096 }
    ensures items { text.new.items ≡ text.old.items ++ xml_block number bytes.now }
    ensures len { array_vec_len text.new ≤ array_vec_len text.old + 400 }
{
    append_xml_tag(text, b"        <BLOCK", number);
    append_xml_bytes(text, bytes);
    append_xml_tag(text, b"</BLOCK", number);
    append(text, b"\n");
}

// So many blocks, of which the first has this number.
#[tactic(auto, using(crate::proofs::RowTexts::xml_none))]
fn append_xml_blocks(text: &mut ArrayVec<u8, MOST>, count: usize, number: u32, bytes: &[u8])
    requires there { 128 * count ≤ length bytes.now }
    requires few { number + count ≤ 4 }
    requires room { array_vec_len text.old + 400 * count ≤ 4096 }
    ensures items { text.new.items ≡ text.old.items ++ xml_blocks count number bytes.now }
    ensures len { array_vec_len text.new ≤ array_vec_len text.old + 400 * count }
{
    if count == 0 {
        return;
    }
    let (block, others) = bytes.split_at(BLOCK);
    append_xml_block(text, number, block);
    append_xml_blocks(text, count - 1, number + 1, others);
}

fn xml_text(bytes: &[u8]) -> ArrayVec<u8, MOST>
    requires { length bytes.now ≤ 512 }
    ensures { result.items ≡ xml_text bytes.now }
{
    let mut text = ArrayVec::new();
    append(&mut text, XML_HEAD.as_bytes());
    append_xml_blocks(&mut text, bytes.len() / BLOCK, 0, bytes);
    append(&mut text, XML_END.as_bytes());
    text
}

/// Writes the bytes of an EDID as an array of C, sixteen a row.
///
/// # Errors
///
/// A `put` took none. The front of the array was written, as long as the fault's count says.
// The text is large: the frame of the caller is kept free of it.
#[inline(never)]
pub fn write_c<S: Sink>(bytes: &[u8], out: &mut S) -> Result<(), WriteFault>
    requires { length bytes.now ≤ 512 }
    ensures { WrittenAll (S.contents out.old) (S.contents out.new) (S.is_stuck out.old) (S.is_stuck out.new) (c_text bytes.now) result }
{
    put_all(out, c_text(bytes).as_slice())
}

/// Writes the bytes of an EDID as the xml that `edid-decode -o xml` writes, a block a line.
///
/// # Errors
///
/// A `put` took none. The front of the text was written, as long as the fault's count says.
// The text is large: the frame of the caller is kept free of it.
#[inline(never)]
pub fn write_xml<S: Sink>(bytes: &[u8], out: &mut S) -> Result<(), WriteFault>
    requires { length bytes.now ≤ 512 }
    ensures { WrittenAll (S.contents out.old) (S.contents out.new) (S.is_stuck out.old) (S.is_stuck out.new) (xml_text bytes.now) result }
{
    put_all(out, xml_text(bytes).as_slice())
}
