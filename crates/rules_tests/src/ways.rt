//! The ways in which an EDID is written.
use crate::displays::bytes_of;
use conversion_calls::{
    Destination, EdidForm, PassOnError, Passing, check_passed_on, edid_to_text, text_to_edid,
    write_address, write_passed_on,
};
use edid_core::AudioFrom;
use std::io::{self, ErrorKind, Write};
use std::process::Abort;
use text_core::{Phys, Writes};

/// The place that a device stands at, whose audio it is given, the EDID as words, and the words of the one that is passed
/// on, or why none is. A port stands in the first free place of the EDID's own address. The television's audio block of
/// three bytes becomes the amplifier's of six.
pub(crate) const PASSED: &str = "\
3 tv tv => tv 149=3000
15 tv tv 149=1000 => tv 149=1f00
4 tv tv 149=1200 => tv 149=1240
4 tv tv 149=1230 => tv 149=1234
4 tv tv 149=1234 => tv 149=ffff
4 tv tv 149=ffff => tv 149=ffff
4 tv tv 149=1020 => tv 149=1400
4 tv tv 149=0123 => tv 149=4000
2.1.0.0 tv tv => tv 149=2100
0.0.0.0 tv tv 149=1000 => tv
f.f.f.f tv tv => tv 149=ffff
2.1.0.0 amp tv => tv 130=1d 137=260f7f071507508301000065030c002100e200cf
3 amp tv => tv 130=1d 137=260f7f071507508301000065030c003000e200cf
3 amp tv 254=01 => tv 149=3000 254=01
3 tv tv 130=20 154=65030c000000 => tv 130=20 149=3000 154=65030c000000
3 tv tv base other => edid: no-hdmi-block
3 tv tv 8=00 => edid: base maker
0 tv tv => edid: port-range
16 tv tv 0=01 => edid: port-range
";

/// An EDID, and the line of the address in it.
pub(crate) const ADDRESSES: &str = "\
tv => 0.0.0.0;
tv 149=1a00 => 1.a.0.0;
tv 149=ffff => f.f.f.f;
tv 149=1200 130=20 154=65030c003400 => 1.2.0.0;
tv base => edid: no-hdmi-block
tv 146=04 => edid: no-hdmi-block
tv 0=01 => edid: base header
";

/// A place: an address, or the number of a port.
fn place_of(rt: &(impl Abort + AllocGlobal), word: &str) -> Destination {
    match Phys::read(word.as_bytes()) {
        Some(address) => Destination::Address(address),
        None => Destination::Port(u8::from_str_radix(word, 10).expect(rt, "a port")),
    }
}

fn audio_of(word: &str) -> AudioFrom {
    match word {
        "amp" => AudioFrom::Amplifier,
        _ => AudioFrom::Television,
    }
}

fn error_reported(rt: &(impl Abort + AllocGlobal), error: PassOnError) -> String {
    format!(in rt.alloc(); "{error}").expect(rt, "a text")
}

/// What a call wrote, with `;` for each line feed, or why it did not.
pub(crate) fn written_or_why(
    rt: &(impl Abort + AllocGlobal),
    text: Vec<u8>,
    done: Result<(), PassOnError>,
) -> String {
    match done {
        Err(error) => error_reported(rt, error),
        Ok(()) => str::from_utf8(&text)
            .expect(rt, "a text")
            .replace(rt.alloc(), "\n", ";")
            .expect(rt, "a line"),
    }
}

pub(crate) fn address_reported(rt: &(impl Abort + AllocGlobal), words: &str) -> String {
    let mut text = Vec::new(rt.alloc());
    let done = write_address(&bytes_of(rt, words), &mut Writes::new(&mut text));
    written_or_why(rt, text, done)
}

/// What is passed on of the EDID that some words give, in a form.
fn passed(
    rt: &(impl Abort + AllocGlobal),
    words: &str,
    form: EdidForm,
) -> (Vec<u8>, Result<(), PassOnError>) {
    let (place, rest) = words.split_once(' ').expect(rt, "a place");
    let (audio, edid) = rest.split_once(' ').expect(rt, "whose audio");
    let passing = Passing {
        place: place_of(rt, place),
        audio: audio_of(audio),
    };
    let mut written = Vec::new(rt.alloc());
    let done = write_passed_on(
        &bytes_of(rt, edid),
        passing,
        form,
        &mut Writes::new(&mut written),
    );
    (written, done)
}

/// Whether a text is read as these bytes, in hex and as they are, and these bytes have that text.
fn is_text_of(rt: &(impl Abort + AllocGlobal), text: &[u8], bytes: &[u8], digits: &[u8]) -> bool {
    let mut read = Vec::new(rt.alloc());
    let mut hex = Vec::new(rt.alloc());
    let mut again = Vec::new(rt.alloc());
    text_to_edid(
        rt.alloc(),
        text,
        EdidForm::Bytes,
        &mut Writes::new(&mut read),
    )
    .expect(rt, "an EDID");
    text_to_edid(rt.alloc(), text, EdidForm::Hex, &mut Writes::new(&mut hex)).expect(rt, "an EDID");
    edid_to_text(bytes, &mut Writes::new(&mut again)).expect(rt, "an EDID");
    read.as_slice() == bytes && hex.as_slice() == digits && again.as_slice() == text
}

/// The bytes in hex, and a line feed.
fn hex_line(rt: &(impl Abort + AllocGlobal), bytes: &[u8]) -> String {
    let digits = hex::encode(rt.alloc(), bytes).expect(rt, "hex digits");
    format!(in rt.alloc(); "{digits}\n").expect(rt, "a line")
}

/// The bytes of what is passed on in hex, where the other two forms tell the same.
pub(crate) fn passed_reported(rt: &(impl Abort + AllocGlobal), words: &str) -> String {
    let (bytes, done) = passed(rt, words, EdidForm::Bytes);
    if let Err(error) = done {
        return error_reported(rt, error);
    }
    let line = hex_line(rt, &bytes);
    let (digits, _) = passed(rt, words, EdidForm::Hex);
    let (text, _) = passed(rt, words, EdidForm::Text);
    if digits.as_slice() != line.as_str().as_bytes() || !is_text_of(rt, &text, &bytes, &digits) {
        return String::from_str(rt.alloc(), "forms differ").expect(rt, "a text");
    }
    line
}

/// What is wrong with the EDID that is passed on to a place.
pub(crate) fn passed_checked(rt: &(impl Abort + AllocGlobal), words: &str) -> String {
    let (place, edid) = words.split_once(' ').expect(rt, "a place");
    let passing = Passing {
        place: place_of(rt, place),
        audio: AudioFrom::Television,
    };
    let mut text = Vec::new(rt.alloc());
    match check_passed_on(&bytes_of(rt, edid), passing, &mut Writes::new(&mut text)) {
        Err(error) => error_reported(rt, error),
        Ok(_) => written_or_why(rt, text, Ok(())),
    }
}

/// A writer that has room for some bytes, and then takes none.
#[derive(Drop)]
struct Narrow {
    bytes: Vec<u8>,
    room: usize,
}

impl Write for Narrow {
    fn write(&mut self, bytes: &[u8]) -> io::Result<usize> {
        let count = bytes.len().min(self.room.saturating_sub(self.bytes.len()));
        match bytes.get(..count) {
            Some(front) if 0 < count && self.bytes.extend_from_slice(front).is_ok() => Ok(count),
            _ => Err(io::Error::from(ErrorKind::BrokenPipe)),
        }
    }

    fn flush(&mut self) -> io::Result<()> {
        Ok(())
    }
}

/// What each call writes to a writer with so much room, and what it says then.
fn fronts(rt: &(impl Abort + AllocGlobal), room: usize) -> String {
    let tv = bytes_of(rt, "tv 24=0a");
    let passing = Passing {
        place: Destination::Port(3),
        audio: AudioFrom::Television,
    };
    let mut passed = Narrow {
        bytes: Vec::new(rt.alloc()),
        room,
    };
    let on = write_passed_on(&tv, passing, EdidForm::Bytes, &mut Writes::new(&mut passed));
    let mut checked = Narrow {
        bytes: Vec::new(rt.alloc()),
        room,
    };
    let check = check_passed_on(&tv, passing, &mut Writes::new(&mut checked));
    let mut named = Narrow {
        bytes: Vec::new(rt.alloc()),
        room,
    };
    let name = write_address(&tv, &mut Writes::new(&mut named));
    let (passed, checked, named) = (passed.bytes.len(), checked.bytes.len(), named.bytes.len());
    format!(in rt.alloc(); "{on:?} {passed}; {check:?} {checked}; {name:?} {named}").expect(
        rt, "a text",
    )
}

pub(crate) fn fronts_reported(rt: &(impl Abort + AllocGlobal), words: &str) -> String {
    fronts(rt, usize::from_str_radix(words, 10).expect(rt, "a number"))
}

/// How much room a writer has, and what comes of it: 256 bytes, a line of ten and one of eight.
pub(crate) const FRONTS: &str = "\
0 => Err(Write(0)) 0; Err(Write(0)) 0; Err(Write(0)) 0
7 => Err(Write(7)) 7; Err(Write(7)) 7; Err(Write(7)) 7
8 => Err(Write(8)) 8; Err(Write(8)) 8; Ok(()) 8
9 => Err(Write(9)) 9; Err(Write(9)) 9; Ok(()) 8
10 => Err(Write(10)) 10; Ok(true) 10; Ok(()) 8
255 => Err(Write(255)) 255; Ok(true) 10; Ok(()) 8
256 => Ok(()) 256; Ok(true) 10; Ok(()) 8
";
