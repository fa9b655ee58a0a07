//! EDIDs as words of a text: their blocks, and what is changed in them.
use edid_core::{Edid, edid_from_bytes, edid_to_bytes};
use std::process::Abort;

/// The base block of a television of Samsung, of revision 3, up to its count of extensions and its checksum.
const TELEVISION: &str =
    "00ffffffffffff004c2d0201010000000a15010380341d780aee91a3544c99260f505400000001010101010101010101010101010101023a801871382d40582c450008222100001e000000fc004c4f554e474520545620303031000000100000000000000000000000000000000000100000000000000000000000000000";

/// The front of an extension with four data blocks, up to its zeros. The last is HDMI's, with the address 0.0.0.0.
const SPEAKING: &str = "020316f143900403230907078301000065030c000000";

/// An EDID with every form of a line but `name`, `dummy`, `raw`, `cta-none` and `ext`.
const EVERY_FORM: &str =
    "00ffffffffffff004c2d0201010000000a15010480341d780aee91a3544c99260f50540102838180d1c0455901010101010101010101023a801871382d40582c45e408222105071e000000fe00434845434b0a20202020202020000000ff00534e2d30303031323334353637000000fd00324b1e5313000a202020202020013a020322f101aa23090707419063d85dc483010000a1bbc0e2004f67030c001000801e023a801871382d40582c45e408222105071e0000990000000000000000000000000000000000000000000000000000000000000000000000000000000000000000000000000000000000000000000000000000000000000000000000003c";

/// The front of a block: a name, or bytes in hex.
fn front_of(rt: &(impl Abort + AllocGlobal), word: &str) -> Vec<u8> {
    let digits = match word {
        "tv" => TELEVISION,
        "speaking" => SPEAKING,
        "every" => EVERY_FORM,
        "map" => "f00202",
        "empty" => "020304f1",
        _ => word,
    };
    hex::decode(rt.alloc(), digits).expect(rt, "hex digits")
}

/// Appends a block of 128 bytes: its front, zeros, and its end.
fn add_block(rt: &impl Abort, bytes: &mut Vec<u8>, front: &[u8], end: &[u8]) {
    bytes.extend_from_slice(front).expect(rt, "a block");
    for _ in front.len()..128usize.saturating_sub(end.len()) {
        bytes.push(0).expect(rt, "a block");
    }
    bytes.extend_from_slice(end).expect(rt, "a block");
}

fn change(rt: &impl Abort, bytes: &mut [u8], word: &str) {
    let (place, digits) = word.split_once('=').expect(rt, "a block");
    let place = usize::from(number(rt, place));
    let changed = u8::from_str_radix(digits, 16).expect(rt, "a byte");
    *bytes.get_mut(place).expect(rt, "such a byte") = changed;
}

fn take_word(rt: &(impl Abort + AllocGlobal), bytes: &mut Vec<u8>, word: &str) {
    match word.split_once("..") {
        Some((front, end)) => {
            let front = front_of(rt, front);
            let end = hex::decode(rt.alloc(), end).expect(rt, "hex digits");
            add_block(rt, bytes, &front, &end);
        }
        None => change(rt, bytes, word),
    }
}

/// The bytes that such words give: `map..0c` is a block, its front, zeros, and its end in hex; `148=21` changes the byte at a
/// place.
pub(crate) fn bytes_of(rt: &(impl Abort + AllocGlobal), words: &str) -> Vec<u8> {
    let mut bytes = Vec::new(rt.alloc());
    for word in words.split(' ') {
        take_word(rt, &mut bytes, word);
    }
    bytes
}

/// So many bytes, the first word, of the blocks that the other words give.
pub(crate) fn first_bytes_of(rt: &(impl Abort + AllocGlobal), words: &str) -> Vec<u8> {
    let (count, blocks) = words.split_once(' ').expect(rt, "a count");
    let count = usize::from_str_radix(count, 10).expect(rt, "a count");
    let mut bytes = bytes_of(rt, blocks);
    bytes.truncate(count);
    bytes
}

/// A text of its own.
pub(crate) fn owned(rt: &(impl Abort + AllocGlobal), words: &str) -> String {
    String::from_str(rt.alloc(), words).expect(rt, "a text")
}

pub(crate) fn edid_of(rt: &(impl Abort + AllocGlobal), words: &str) -> Edid {
    edid_from_bytes(&bytes_of(rt, words)).expect(rt, "an EDID")
}

/// The one block that such words give.
pub(crate) fn block_of(rt: &(impl Abort + AllocGlobal), words: &str) -> [u8; 128] {
    let bytes = bytes_of(rt, words);
    <[u8; 128]>::try_from(bytes.as_slice()).expect(rt, "a block")
}

/// The bytes of an EDID in hex.
pub(crate) fn hex_of(rt: &(impl Abort + AllocGlobal), edid: &Edid) -> String {
    hex::encode(rt.alloc(), edid_to_bytes(edid).as_slice()).expect(rt, "hex digits")
}

/// The answer that is wanted: in place of bytes in hex, words give them.
fn wanted(rt: &(impl Abort + AllocGlobal), words: &str) -> String {
    if words.contains("..") {
        hex::encode(rt.alloc(), &bytes_of(rt, words)).expect(rt, "hex digits")
    } else {
        owned(rt, words)
    }
}

/// Asserts that what is reported of a case is what its text wants.
pub(crate) fn comes_out(rt: &(impl Abort + AllocGlobal), reported: String, want: &str, case: &str) {
    let want = wanted(rt, want);
    holds(rt, reported.as_str() == want.as_str(), case);
}

/// Asserts that a case came out as its text says.
pub(crate) fn holds(rt: &impl Abort, is_right: bool, case: &str) {
    assert!(rt; is_right, "{case}");
}

/// A case and what comes of it.
pub(crate) fn parted<'a>(rt: &impl Abort, case: &'a str) -> (&'a str, &'a str) {
    case.rsplit_once(" => ").expect(rt, case)
}

pub(crate) fn two_numbers(rt: &impl Abort, words: &str) -> (u8, u8) {
    let (first, second) = words.split_once(' ').expect(rt, "two numbers");
    (number(rt, first), number(rt, second))
}

pub(crate) fn number(rt: &impl Abort, word: &str) -> u8 {
    u8::from_str_radix(word, 10).expect(rt, "a number")
}
