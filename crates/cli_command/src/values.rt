//! What the value of a flag has to be.
use cli_words::Valued;
use explain_lists::Draft;
use std::alloc::{AllocError, Global};

/// A value is shown up to so many characters.
const MOST_SHOWN: usize = 160;

// A flag, and what its value has to be.
fn row_of(flag: Valued) -> (&'static str, &'static str) {
    match flag {
        Valued::As => ("--as", "vcd, pin or csv"),
        Valued::From => ("--from", "edges, vcd, pin or csv"),
        Valued::Signal => ("--signal", "the name of a wire"),
        Valued::Scale => {
            (
                "--scale",
                "a number above 0 and up to 1000, digits with at most four decimals, and no zero before them but `0.`",
            )
        }
        Valued::Glitch => {
            (
                "--glitch",
                "a number of microseconds, digits alone and no zero before them, 0 to 18446744073709551615",
            )
        }
        Valued::Margin => {
            (
                "--margin",
                "a number of microseconds, digits alone and no zero before them, 0 to 300",
            )
        }
        Valued::Replay => {
            (
                "--replay",
                "the logical address of a device, one digit 0 to 9 or a to e",
            )
        }
        Valued::Address => {
            (
                "--address",
                "a physical address, four hex digits in lower case with dots between them, as 1.0.0.0",
            )
        }
        Valued::Port => (
            "--port",
            "a number, digits alone and no zero before them, 1 to 15",
        ),
        Valued::Below => ("--below", "amp"),
        Valued::Speakers => ("--speakers", "own"),
        Valued::Rows => {
            (
                "--rows",
                "KIND=ROW, a comma apart, 12 at most; product, audio, maker-video, maker-audio and other take keep or own, video link too, hdmi and forum least too, and speakers, capability, colorimetry and hdr keep, own or and",
            )
        }
        Valued::EdidAs => ("--as", "c, xml or firmware"),
        Valued::InfoFrame => {
            (
                "--infoframe",
                "an InfoFrame in hex, 4 to 31 bytes: its type, version, length and checksum, and what it says",
            )
        }
        Valued::Nth => (
            "--nth",
            "a number, digits alone and no zero before them, 1 or more",
        ),
    }
}

// Whether there is no value: nothing, or the next flag in its place.
fn is_missing(value: &str) -> bool {
    value.is_empty() || value.starts_with("--")
}

// Adds a value, cut where it is long, with `.` for characters that are not printable.
fn add_value(draft: &mut Draft, value: &str) {
    let mut room = MOST_SHOWN;
    for character in value.chars() {
        if room == 0 {
            draft.add(" ..");
            return;
        }
        room -= 1;
        draft.add_character(if character.is_control() {
            '.'
        } else {
            character
        });
    }
}

/// A line that names a flag and a value that it does not take, or that is missing, and says what the value has to be.
pub fn value_hint(alloc: Global, flag: Valued, value: &str) -> Result<String, AllocError> {
    let (name, takes) = row_of(flag);
    let mut draft = Draft::new(alloc);
    draft.add_all(&["  `", name]);
    if is_missing(value) {
        draft.add("` lacks its value");
    } else {
        draft.add(" ");
        add_value(&mut draft, value);
        draft.add("`");
    }
    draft.add_all(&[": ", takes, "\n"]);
    draft.finish()
}
