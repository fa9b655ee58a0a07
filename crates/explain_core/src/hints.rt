//! What often goes wrong with an input, whatever the fault says.
use edid_dump::looks_like_dump;
use rules_explain::lacks_line_feed;

/// The bytes that some editors put before a text in UTF-8.
const BYTE_ORDER_MARK: [u8; 3] = [0xef, 0xbb, 0xbf];

/// The first bytes of each EDID.
const EDID_HEADER: [u8; 3] = [0x00, 0xff, 0xff];

/// What is said of a hex dump.
const HEX_DUMP: &str = "this looks like a hex dump; `edid --hex` reads it";

/// The header of an EDID in base64, but for its last four bits.
const BASE64_HEADER: &[u8] = b"AP///////w";

/// The same in a string of escapes.
const ESCAPED_HEADER: &[u8] = b"\\x00\\xff\\xff\\xff\\xff\\xff\\xff\\x00";

/// The first bytes of files of other kinds, and what is said of each.
const OTHER_FILES: &[(&[u8], &str)] = &[
    (
        b"\x1f\x8b",
        "this is a file of gzip; `zcat` writes what it holds",
    ),
    (
        b"BZh",
        "this is a file of bzip2; `bzcat` writes what it holds",
    ),
    (
        b"\xfd7zXZ\x00",
        "this is a file of xz; `xzcat` writes what it holds",
    ),
    (
        b"\x28\xb5\x2f\xfd",
        "this is a file of zstd; `zstdcat` writes what it holds",
    ),
    (
        b"PK\x03\x04",
        "this is a zip archive, as sessions of sigrok and of Logic 2 are: `sigrok-cli -i FILE -O vcd` and Logic's Export Data write a capture",
    ),
    (
        b"\x00\x00\x00\x00\x00\x00\x00\x01\x49",
        "this is a file of GTKWave in its form FST; `fst2vcd` writes a dump",
    ),
    (
        b"RIFF",
        "this is a file of sound; a capture has the times at which the line changes",
    ),
    (
        b"\x0a\x0d\x0d\x0a",
        "this is a capture of packets (pcapng); the CEC line has no packets",
    ),
    (
        b"\xd4\xc3\xb2\xa1",
        "this is a capture of packets (pcap); the CEC line has no packets",
    ),
    (b"\x89PNG", "this is a picture"),
    (b"%PDF", "this is a document in PDF"),
];

/// Whether a byte is shown as it is.
pub fn is_shown(byte: u8) -> bool {
    byte == b' ' || byte.is_ascii_graphic()
}

// Whether a byte is a tab or a carriage return, of which there are hints of their own.
fn is_blank(byte: u8) -> bool {
    byte == b'\t' || byte == b'\r'
}

// Whether a byte is no part of a text.
fn is_odd(byte: &u8) -> bool {
    !is_shown(*byte) && !is_blank(*byte)
}

fn is_no_text(line: &[u8]) -> bool {
    line.iter().any(is_odd)
}

/// A line without the carriage return that some editors leave at its end.
pub fn without_return(line: &[u8]) -> &[u8] {
    line.strip_suffix(b"\r").unwrap_or(line)
}

/// What is odd about a line: its bytes, and the text that is shown of it.
pub fn of_line(line: &[u8], shown: &str) -> [Option<&'static str>; 7] {
    [
        line.ends_with(b"\r").then_some(
            "this line ends with a carriage return before its line feed; lines end with a line feed alone",
        ),
        without_return(line).contains(&b'\r').then_some(
            "a carriage return stands within this line; lines end with a line feed",
        ),
        line.contains(&b'\t')
            .then_some("this line has a tab; words stand one space apart"),
        line.ends_with(b" ")
            .then_some("this line ends with a space"),
        line.starts_with(b" ")
            .then_some("this line begins with a space"),
        shown
            .contains("  ")
            .then_some("two spaces stand side by side here"),
        is_no_text(line).then_some(
            "this line has bytes that are no printable text; `.` stands for each",
        ),
    ]
}

// Whether an input begins with the byte order mark of UTF-16.
fn is_wide(input: &[u8]) -> bool {
    input.starts_with(b"\xff\xfe") || input.starts_with(b"\xfe\xff")
}

/// What a file of another kind is, by its first bytes.
pub fn of_file(input: &[u8]) -> Option<&'static str> {
    for (front, said) in OTHER_FILES {
        if input.starts_with(front) {
            return Some(said);
        }
    }
    None
}

/// What is odd about the start of a whole input of lines.
pub fn of_text(input: &[u8]) -> [Option<&'static str>; 4] {
    [
        input.is_empty().then_some("the input is empty"),
        input.starts_with(BYTE_ORDER_MARK.as_slice()).then_some(
            "the input begins with a byte order mark, ef bb bf, which is no part of the text",
        ),
        is_wide(input).then_some("this looks like UTF-16; the text has one byte a character"),
        input.starts_with(EDID_HEADER.as_slice()).then_some(
            "this looks like the bytes of an EDID, which `edid` reads without `--text`",
        ),
    ]
}

/// What is odd about an input that is to be the bytes of an EDID.
pub fn of_edid(input: &[u8]) -> [Option<&'static str>; 3] {
    [
        input.is_empty().then_some("the input is empty"),
        looks_like_dump(input).then_some(HEX_DUMP),
        input.starts_with(b"edid 1.").then_some(
            "this looks like the text of an EDID, which `edid --text` reads",
        ),
    ]
}

// Whether some bytes stand in an input one after the other.
fn has(input: &[u8], part: &[u8]) -> bool {
    !part.is_empty() && input.windows(part.len()).any(|bytes| bytes == part)
}

/// What an input is that has no hex dump of an EDID.
pub fn of_no_dump(input: &[u8]) -> [Option<&'static str>; 8] {
    [
        input.is_empty().then_some("the input is empty"),
        input.starts_with(EDID_HEADER.as_slice()).then_some(
            "these are the bytes of an EDID, which `edid` reads without `--hex`",
        ),
        input.starts_with(b"edid 1.").then_some(
            "this looks like the text of an EDID, which `edid --text` reads",
        ),
        is_wide(input).then_some(
            "this looks like UTF-16; a dump has one byte a character, as `iconv -f utf-16 -t utf-8` writes it",
        ),
        has(input, BASE64_HEADER).then_some(
            "this looks like base64; `base64 -d` writes its bytes, which `edid` reads without `--hex`",
        ),
        input.starts_with(b":").then_some(
            "this looks like Intel HEX; a record whose count, type or sum is wrong is passed over",
        ),
        (input.starts_with(b"S0") || input.starts_with(b"S1")).then_some(
            "this looks like S-records of Motorola; `objcopy -I srec -O binary` writes their bytes, which `edid` reads without `--hex`",
        ),
        has(input, ESCAPED_HEADER).then_some(
            "in a string with escapes each byte is `\\x` and two hex digits; here some stand as characters",
        ),
    ]
}

/// What is odd about an input that is to be the text of an EDID, beside what is odd about any text.
pub fn of_edid_text(input: &[u8]) -> [Option<&'static str>; 2] {
    [
        looks_like_dump(input).then_some(HEX_DUMP),
        lacks_line_feed(input).then_some(
            "the last line has no line feed; each line of an EDID's text ends with one",
        ),
    ]
}
