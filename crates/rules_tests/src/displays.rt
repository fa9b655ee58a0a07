//! EDIDs as words of a text: a display, and what is changed in it.
use std::process::Abort;

/// A television of revision 3 that breaks no rule. Its features are byte 24, the established timings bytes 35 to 37, the
/// first standard timing bytes 38 and 39, the descriptors bytes 54, 72, 90 and 108 on: 1920x1080 and 1280x720 at 60 Hz, the
/// name, the range limits. Of its extension the place after the data blocks is byte 130, the flags byte 131; video stands
/// from byte 132 on, audio from 137, speakers from 141, HDMI from 145, the video capabilities from 151; zeros from 154.
const TELEVISION: &str =
    "00ffffffffffff004c2d0201010000000a15010380341d780eee91a3544c99260f505420000001010101010101010101010101010101023a801871382d40582c450008222100001e011d007251d01e206e28550008222100001e000000fc004c4f554e47452054560a202020000000fd00173d0f440f000a20202020202001d402031af14490040301230907078301000065030c000000e200cf0000000000000000000000000000000000000000000000000000000000000000000000000000000000000000000000000000000000000000000000000000000000000000000000000000000000000000000000000000000000000000000000000000000000b1";

/// Appends a block: its front, and zeros.
fn add_block(rt: &(impl Abort + AllocGlobal), bytes: &mut Vec<u8>, front: &str) {
    let front = hex::decode(rt.alloc(), front).expect(rt, "hex digits");
    bytes.extend_from_slice(&front).expect(rt, "a block");
    for _ in front.len()..128 {
        bytes.push(0).expect(rt, "a block");
    }
}

/// Puts bytes at a place.
fn change(rt: &(impl Abort + AllocGlobal), bytes: &mut [u8], word: &str) {
    let (place, digits) = word.split_once('=').expect(rt, "a change");
    let place = usize::from_str_radix(place, 10).expect(rt, "a place");
    let changed = hex::decode(rt.alloc(), digits).expect(rt, "hex digits");
    for (offset, byte) in changed.iter().enumerate() {
        *bytes
            .get_mut(place.saturating_add(offset))
            .expect(rt, "such a byte") = *byte;
    }
}

fn take_word(rt: &(impl Abort + AllocGlobal), bytes: &mut Vec<u8>, word: &str) {
    match word {
        "tv" => bytes
            .extend_from_slice(&hex::decode(rt.alloc(), TELEVISION).expect(rt, "hex digits"))
            .expect(rt, "a block"),
        "base" => bytes.truncate(128),
        "map" => add_block(rt, bytes, "f00202"),
        "cta" => add_block(rt, bytes, "020304f1"),
        "bare" => add_block(rt, bytes, "020300f1"),
        "other" => add_block(rt, bytes, "70"),
        _ => change(rt, bytes, word),
    }
}

/// What makes the sum of a block's bytes 0 modulo 256.
fn mend(block: &mut [u8]) {
    let mut sum = 0u8;
    for byte in block.iter().take(127) {
        sum = sum.wrapping_add(*byte);
    }
    if let Some(last) = block.get_mut(127) {
        *last = sum.wrapping_neg();
    }
}

/// The bytes that such words give, with their count of extensions and their checksums: `tv` is the television, `base` its
/// base block alone, `map`, `cta`, `bare` and `other` add an extension, and `24=0c` puts bytes at a place.
pub(crate) fn bytes_of(rt: &(impl Abort + AllocGlobal), words: &str) -> Vec<u8> {
    let mut bytes = Vec::new(rt.alloc());
    for word in words.split(' ') {
        take_word(rt, &mut bytes, word);
    }
    let count = (bytes.len() / 128).saturating_sub(1);
    *bytes.get_mut(126).expect(rt, "a base block") = count.min(3) as u8;
    for block in bytes.chunks_mut(128) {
        mend(block);
    }
    bytes
}
