//! EDIDs as words of a text.
use std::process::Abort;

/// The base block of a television of Samsung, of revision 3, up to its count of extensions and its checksum.
const TELEVISION: &str =
    "00ffffffffffff004c2d0201010000000a15010380341d780aee91a3544c99260f505400000001010101010101010101010101010101023a801871382d40582c450008222100001e000000fc004c4f554e474520545620303031000000100000000000000000000000000000000000100000000000000000000000000000";

/// The front of an extension with four data blocks, up to its zeros. The last is HDMI's, with the address 0.0.0.0.
const SPEAKING: &str = "020316f143900403230907078301000065030c000000";

/// The front of a block: a name, or bytes in hex.
fn front_of(rt: &(impl Abort + AllocGlobal), word: &str) -> Vec<u8> {
    let digits = match word {
        "tv" => TELEVISION,
        "speaking" => SPEAKING,
        "map" => "f00202",
        "empty" => "020304f1",
        _ => word,
    };
    hex::decode(rt.alloc(), digits).expect(rt, "hex digits")
}

/// Appends a block of 128 bytes: its front, zeros, and its end.
fn add_block(rt: &impl Abort, bytes: &mut Vec<u8>, front: &[u8], end: &[u8]) {
    bytes.extend_from_slice(front).expect(rt, "a block");
    for _ in front.len()..128usize.saturating_sub(end.len()) {
        bytes.push(0).expect(rt, "a block");
    }
    bytes.extend_from_slice(end).expect(rt, "a block");
}

fn change(rt: &impl Abort, bytes: &mut [u8], word: &str) {
    let (place, digits) = word.split_once('=').expect(rt, "a place");
    let place = usize::from_str_radix(place, 10).expect(rt, "a place");
    let changed = u8::from_str_radix(digits, 16).expect(rt, "a byte");
    *bytes.get_mut(place).expect(rt, "such a byte") = changed;
}

fn take_word(rt: &(impl Abort + AllocGlobal), bytes: &mut Vec<u8>, word: &str) {
    match word.split_once("..") {
        Some((front, end)) => {
            let front = front_of(rt, front);
            let end = hex::decode(rt.alloc(), end).expect(rt, "hex digits");
            add_block(rt, bytes, &front, &end);
        }
        None => change(rt, bytes, word),
    }
}

/// The bytes that such words give: `map..0c` is a block, its front, zeros, and its end in hex; `8=6c` changes the byte at a
/// place.
pub(crate) fn bytes_of(rt: &(impl Abort + AllocGlobal), words: &str) -> Vec<u8> {
    let mut bytes = Vec::new(rt.alloc());
    for word in words.split(' ') {
        take_word(rt, &mut bytes, word);
    }
    bytes
}

/// So many bytes, the first word, of the blocks that the other words give.
pub(crate) fn first_bytes_of(rt: &(impl Abort + AllocGlobal), words: &str) -> Vec<u8> {
    let (count, blocks) = words.split_once(' ').expect(rt, "a count");
    let count = usize::from_str_radix(count, 10).expect(rt, "a count");
    let mut bytes = bytes_of(rt, blocks);
    bytes.truncate(count);
    bytes
}
