//! What each test over a table says of its cases.
use arrayvec::ArrayVec;
use std::process::Abort;

/// The case holds; otherwise the test ends with the text of the case.
pub(crate) fn case_holds(rt: &impl Abort, holds: bool, case: &str) {
    assert!(rt; holds, "{case}");
}

/// The bytes of words of two hex digits.
pub(crate) fn bytes_of(words: &str) -> ArrayVec<u8, 16> {
    let mut bytes = ArrayVec::new();
    for word in words.split(' ') {
        if let Ok(byte) = u8::from_str_radix(word, 16) {
            let _ = bytes.try_push(byte);
        }
    }
    bytes
}
