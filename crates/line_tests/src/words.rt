//! The words of a case: numbers, bits, stretches and frames.
use arrayvec::ArrayVec;
use line_frames::Frame;
use line_wave::Stretch;
use std::process::Abort;

/// Asserts that this is told of a case.
pub(crate) fn is_reported(rt: &impl Abort, reported: String, want: &str, case: &str) {
    assert!(rt; reported.as_str() == want, "{case}: {reported}");
}

pub(crate) fn number(rt: &impl Abort, word: &str) -> u32 {
    word.parse().expect(rt, "a number")
}

/// The bits that a word of zeros and ones spells.
pub(crate) fn bits_of(word: &str) -> ArrayVec<bool, 160> {
    let mut bits = ArrayVec::new();
    for digit in word.as_bytes() {
        let _ = bits.try_push(*digit == b'1');
    }
    bits
}

pub(crate) fn bits_text(rt: &(impl Abort + AllocGlobal), bits: &[bool]) -> String {
    let mut text = String::new(rt.alloc());
    for bit in bits {
        let digit = if *bit { '1' } else { '0' };
        text.push(digit).expect(rt, "a text");
    }
    text
}

/// A stretch, as `1000-4700`.
fn stretch_of(rt: &impl Abort, word: &str) -> Stretch {
    let (from, to) = word.split_once('-').expect(rt, "a stretch");
    Stretch {
        from: u64::from(number(rt, from)),
        to: u64::from(number(rt, to)),
    }
}

pub(crate) fn stretches_of(rt: &impl Abort, words: &str) -> ArrayVec<Stretch, 8> {
    let mut stretches = ArrayVec::new();
    for word in words.split(' ') {
        let _ = stretches.try_push(stretch_of(rt, word));
    }
    stretches
}

/// A frame of bytes in hex, as `40,04`.
pub(crate) fn frame_of(rt: &impl Abort, word: &str) -> Frame {
    let mut bytes: ArrayVec<u8, 16> = ArrayVec::new();
    for digits in word.split(',') {
        let _ = bytes.try_push(u8::from_str_radix(digits, 16).expect(rt, "a byte"));
    }
    Frame::new(&bytes).expect(rt, "a frame")
}
