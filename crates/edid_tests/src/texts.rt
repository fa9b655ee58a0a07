//! The texts of EDIDs: each form there and back, and the line at fault.
use crate::samples::{bytes_of, edid_of, number, owned};
use arrayvec::ArrayVec;
use edid_core::{Edid, edid_from_bytes, edid_to_bytes, read_parts};
use edid_texts::{TextError, parse_text, write_parts, write_text};
use std::process::Abort;
use text_core::Writes;

/// The text of the television's base block.
const BASE_TEXT: &str =
    "edid 1.3\nmaker SAM\nproduct 258\nserial 1\nmade 10 2011\ninput 80\nsize 52 29\ngamma 120\nfeatures 0a\nchroma 655 338 307 614 154 61 320 337\nestablished 000000\nstandard unused\nstandard unused\nstandard unused\nstandard unused\nstandard unused\nstandard unused\nstandard unused\nstandard unused\ntiming 14850 1920 280 1080 45 88 44 4 5 520 290 0 0 1e\nname \"LOUNGE TV 001\"\ndummy\ndummy\n";

/// The text of an extension with four data blocks.
const EXTENSION_TEXT: &str =
    "cta f1\nvideo 900403\naudio 090707\nspeakers 010000\nhdmi 0.0.0.0 -\ntail -\n";

/// A part of the example's text, what stands in its place, with `;` for each line feed, and why the text is refused then; and
/// how the refusals of a line are reported.
pub(crate) const CHANGES: &str = "\
change made 10 2011 => made 10 2300 => field 5 word 2
change made 10 2011 => made 10 1989 => field 5 word 2
change made 10 2011 => made 256 1989 => field 5 word 1
change made 10 2011 => made  2011 => field 5 word 1
change made 10 2011 => made 0 \"2011 x => field 5 word 2
change made 10 2011 => made 10 2011 0 => syntax 5
change made 10 2011; =>  => syntax 5
change features 0a => features 0A => field 9 word 1
change standard unused => standard 256 0 61 => field 12 word 3
change standard unused => standard 640 => field 12 word 1
change standard unused => standard 240 4 60 => field 12 word 1
change standard unused => standard 252 0 60 => field 12 word 1
change standard unused => standard 2296 0 60 => field 12 word 1
change standard unused => standard 2288 3 124 => field 12 word 3
change standard unused => standard 248 3 59 => field 12 word 3
change edid 1.3 => edid 1.5 => field 1 word 1
change maker SAM => maker sam => field 2 word 1
change product 258 => product 65536 => field 3 word 1
change serial 1 => serial 4294967296 => field 4 word 1
change input 80 => input 8 => field 6 word 1
change size 52 29 => size 256 29 => field 7 word 1
change size 52 29 => size 255 256 => field 7 word 2
change size 52 29 => size +52 29 => field 7 word 1
change gamma 120 => gamma 256 => field 8 word 1
change chroma 655 => chroma 1024 => field 10 word 1
change chroma 655 338 => chroma 1023 0338 => field 10 word 2
change 61 320 337 => 61 1024 1024 => field 10 word 7
change 61 320 337 => 61 1023 1024 => field 10 word 8
change established 000000 => established 00000g => field 11 word 1
change edid 1.3 => Edid 1.3 => syntax 1
change made 10 2011 => made 010 2011 => field 5 word 1
change standard unused => standard 640 0 => syntax 12
change standard unused => standard 640 4 60 => field 12 word 2
change timing 14850 1920 280 1080 45 88 44 4 5 520 290 0 0 1e => timing 65536 x 280 1080 45 88 44 4 5 520 290 0 0 1e => field 20 word 1
change timing 14850 1920 280 1080 45 88 44 4 5 520 290 0 0 1e => timing 65535 4096 x 1080 45 88 44 4 5 520 290 0 0 1e => field 20 word 2
change timing 14850 1920 280 1080 45 88 44 4 5 520 290 0 0 1e => timing 65535 4095 4096 x 45 88 44 4 5 520 290 0 0 1e => field 20 word 3
change timing 14850 1920 280 1080 45 88 44 4 5 520 290 0 0 1e => timing 65535 4095 4095 4096 x 88 44 4 5 520 290 0 0 1e => field 20 word 4
change timing 14850 1920 280 1080 45 88 44 4 5 520 290 0 0 1e => timing 65535 4095 4095 4095 4096 x 44 4 5 520 290 0 0 1e => field 20 word 5
change timing 14850 1920 280 1080 45 88 44 4 5 520 290 0 0 1e => timing 65535 4095 4095 4095 4095 1024 x 4 5 520 290 0 0 1e => field 20 word 6
change timing 14850 1920 280 1080 45 88 44 4 5 520 290 0 0 1e => timing 65535 4095 4095 4095 4095 1023 1024 x 5 520 290 0 0 1e => field 20 word 7
change timing 14850 1920 280 1080 45 88 44 4 5 520 290 0 0 1e => timing 65535 4095 4095 4095 4095 1023 1023 64 x 520 290 0 0 1e => field 20 word 8
change timing 14850 1920 280 1080 45 88 44 4 5 520 290 0 0 1e => timing 65535 4095 4095 4095 4095 1023 1023 63 64 x 290 0 0 1e => field 20 word 9
change timing 14850 1920 280 1080 45 88 44 4 5 520 290 0 0 1e => timing 65535 4095 4095 4095 4095 1023 1023 63 63 4096 x 0 0 1e => field 20 word 10
change timing 14850 1920 280 1080 45 88 44 4 5 520 290 0 0 1e => timing 65535 4095 4095 4095 4095 1023 1023 63 63 4095 4096 x 0 1e => field 20 word 11
change timing 14850 1920 280 1080 45 88 44 4 5 520 290 0 0 1e => timing 65535 4095 4095 4095 4095 1023 1023 63 63 4095 4095 256 x 1e => field 20 word 12
change timing 14850 1920 280 1080 45 88 44 4 5 520 290 0 0 1e => timing 65535 4095 4095 4095 4095 1023 1023 63 63 4095 4095 255 256 1e => field 20 word 13
change timing 14850 1920 280 1080 45 88 44 4 5 520 290 0 0 1e => timing 0 1920 280 1080 45 88 44 4 5 520 290 0 0 1e => field 20 word 1
change timing 14850 1920 280 1080 45 88 44 4 5 520 290 0 0 1e => timing 65535 4095 4095 4095 4095 1023 1023 63 63 4095 4095 255 255 1 => field 20 word 14
change timing 14850 1920 280 1080 45 88 44 4 5 520 290 0 0 1e => timing 65535 4095 4095 4095 4095 1023 1023 63 63 4095 4095 255 255 ff => none
change timing 14850 1920 280 1080 45 88 44 4 5 520 290 0 0 1e => timing 1 0 0 0 0 0 0 0 0 0 0 0 0 00 => none
change name \"LOUNGE TV 001\" => name \"A\" B\" => field 21 word 1
change name \"LOUNGE TV 001\" => name A B => syntax 21
change name \"LOUNGE TV 001\" => dummy - => syntax 21
change cta f1 => cta f1f1 => field 24 word 1
change cta f1 => tail - => syntax 24
change name \"LOUNGE TV 001\" => raw 000000fc004c4f554e474520545620303031 => field 21 word 1
change hdmi 0.0.0.0 - => vendor 030c000000 => field 28 word 1
change hdmi 0.0.0.0 - => hdmi 0.0.0 zz => field 28 word 1
change hdmi 0.0.0.0 - => hdmi 0.0.0.0 zz => field 28 word 2
change hdmi 0.0.0.0 - => hdmi A.0.0.0 - => field 28 word 1
change hdmi 0.0.0.0 - => hdmi f.f.f.f 000102030405060708090a0b0c0d0e0f101112131415161718191a => field 28 word 2
change tail - => tail 00 => field 29 word 1
change tail -; => tail - => syntax 29
change tail -; => tail -;cta f1; => syntax 31
change tail -; =>  => syntax 29
change tail -; => tail -;cta-none f1;tail -; => none
change tail -; => tail -;cta-none f1;tail -;cta f1;tail -; => none
change tail -; => tail -;cta-none f1;tail -;cta f1;tail -;cta f1; => syntax 34
change tail -; => tail -;cta-none f1; => syntax 31
change tail -; => tail -;cta-none f1;tail 00; => field 31 word 1
refusals 5 => syntax 5, field 5
refusals 12 => syntax 12, field 12
";

/// Blocks, and their text with `;` for each line feed. `tv;` is the text of the television's base block. Two base blocks have
/// a name that ends in spaces, and a descriptor of no form. The last EDID has every form of a line but `name`, `dummy`,
/// `raw`, `cta-none` and `ext`.
pub(crate) const RETURNED: &str = "\
text tv..0151 speaking..e8 => tv;cta f1;video 900403;audio 090707;speakers 010000;hdmi 0.0.0.0 -;tail -;
text tv..0151 020300f1..0a => tv;cta-none f1;tail -;
text tv..0151 020304f1..06 => tv;cta f1;tail -;
text tv..0151 020300f101..09 => tv;cta-none f1;tail 01;
text tv..0151 020310f165030c00100065030c002000..e2 => tv;cta f1;hdmi 1.0.0.0 -;hdmi 2.0.0.0 -;tail -;
text tv..0151 020306f14390..31 => tv;ext 020306f143900000000000000000000000000000000000000000000000000000000000000000000000000000000000000000000000000000000000000000000000000000000000000000000000000000000000000000000000000000000000000000000000000000000000000000000000000000000000000000000000000031;
text tv..034f map..0c speaking..e8 empty..06 => tv;ext f00202000000000000000000000000000000000000000000000000000000000000000000000000000000000000000000000000000000000000000000000000000000000000000000000000000000000000000000000000000000000000000000000000000000000000000000000000000000000000000000000000000000000c;cta f1;video 900403;audio 090707;speakers 010000;hdmi 0.0.0.0 -;tail -;cta f1;tail -;
text 00ffffffffffff004c2d0201010000000a15010380341d780aee91a3544c99260f505400000001010101010101010101010101010101023a801871382d40582c450008222100001e000000fc0041422020202020202020202020000000100000000000000000000000000000000000100000000000000000000000000000..01b3 speaking..e8 => edid 1.3;maker SAM;product 258;serial 1;made 10 2011;input 80;size 52 29;gamma 120;features 0a;chroma 655 338 307 614 154 61 320 337;established 000000;standard unused;standard unused;standard unused;standard unused;standard unused;standard unused;standard unused;standard unused;timing 14850 1920 280 1080 45 88 44 4 5 520 290 0 0 1e;name \"AB           \";dummy;dummy;cta f1;video 900403;audio 090707;speakers 010000;hdmi 0.0.0.0 -;tail -;
text 00ffffffffffff004c2d0201010000000a15010380341d780aee91a3544c99260f505400000001010101010101010101010101010101023a801871382d40582c450008222100001e000000fc004c4f554e474520545620303031000000f7000a000000000000000000000000000000100000000000000000000000000000..0160 speaking..e8 => edid 1.3;maker SAM;product 258;serial 1;made 10 2011;input 80;size 52 29;gamma 120;features 0a;chroma 655 338 307 614 154 61 320 337;established 000000;standard unused;standard unused;standard unused;standard unused;standard unused;standard unused;standard unused;standard unused;timing 14850 1920 280 1080 45 88 44 4 5 520 290 0 0 1e;name \"LOUNGE TV 001\";raw 000000f7000a000000000000000000000000;dummy;cta f1;video 900403;audio 090707;speakers 010000;hdmi 0.0.0.0 -;tail -;
text every.. => edid 1.4;maker SAM;product 258;serial 1;made 10 2011;input 80;size 52 29;gamma 120;features 0a;chroma 655 338 307 614 154 61 320 337;established 010283;standard 1280 2 60;standard 1920 3 60;standard 800 1 85;standard unused;standard unused;standard unused;standard unused;standard unused;timing 14850 1920 280 1080 45 856 556 20 5 520 290 5 7 1e;text \"CHECK\";serial-text \"SN-0001234567\";range 00324b1e5313000a202020202020;cta f1;tag0 aa;audio 090707;video 90;vendor d85dc4;speakers 010000;tag5 bb;tag6 -;extended 004f;hdmi 1.0.0.0 801e;timing 14850 1920 280 1080 45 856 556 20 5 520 290 5 7 1e;tail 000099;
";

/// The fronts of a text of four blocks: with so many lines they are texts too, after the base block and after each extension.
/// Every other one, cut after a line or in it, is refused at the line that is not there as a whole.
pub(crate) const FRONTS: &str = "\
fronts tv..034f map..0c speaking..e8 empty..06 => 23 24 30 32
";

/// The text of both blocks with one part changed.
fn with_change(rt: &(impl Abort + AllocGlobal), change: &str) -> String {
    let (from, to) = change.split_once(" => ").expect(rt, "a change");
    if let Some((front, after)) = BASE_TEXT.split_once(from) {
        return format!(in rt.alloc(); "{front}{to}{after}{EXTENSION_TEXT}").expect(rt, "a text");
    }
    let (front, after) = EXTENSION_TEXT.split_once(from).expect(rt, "such a part");
    format!(in rt.alloc(); "{BASE_TEXT}{front}{to}{after}").expect(rt, "a text")
}

/// Why a text is refused.
fn refusal_of(rt: &(impl Abort + AllocGlobal), text: &[u8]) -> String {
    match parse_text(rt.alloc(), text) {
        Ok(_) => owned(rt, "none"),
        Err(TextError::Field { line, word }) => {
            format!(in rt.alloc(); "field {line} word {word}").expect(rt, "a text")
        }
        Err(error) => format!(in rt.alloc(); "{error}").expect(rt, "a text"),
    }
}

/// Why the example's text is refused with one part changed.
pub(crate) fn change_reported(rt: &(impl Abort + AllocGlobal), change: &str) -> String {
    let change = change.replace(rt.alloc(), ";", "\n").expect(rt, "lines");
    let text = with_change(rt, change.as_str());
    refusal_of(rt, text.as_str().as_bytes())
}

/// The refusals of a line, in words.
pub(crate) fn refusals_reported(rt: &(impl Abort + AllocGlobal), line: &str) -> String {
    let line = usize::from(number(rt, line));
    let (syntax, field) = (TextError::Syntax(line), TextError::Field { line, word: 1 });
    format!(in rt.alloc(); "{syntax}, {field}").expect(rt, "a text")
}

pub(crate) fn text_of(rt: &(impl Abort + AllocGlobal), edid: &Edid) -> Vec<u8> {
    let mut text = Vec::new(rt.alloc());
    write_text(edid, &mut Writes::new(&mut text)).expect(rt, "a text");
    text
}

/// Whether a text is read as these bytes.
fn is_read_as(rt: &(impl Abort + AllocGlobal), text: &[u8], bytes: &[u8]) -> bool {
    let edid = parse_text(rt.alloc(), text).expect(rt, "an EDID");
    edid_to_bytes(&edid).as_slice() == bytes
}

/// Whether a text is read as these bytes, and their parts have it too.
fn is_text_of(rt: &(impl Abort + AllocGlobal), text: &[u8], bytes: &[u8]) -> bool {
    is_read_as(rt, text, bytes) && text_of_parts(rt, bytes).as_slice() == text
}

/// The text of the parts that some bytes spell.
fn text_of_parts(rt: &(impl Abort + AllocGlobal), bytes: &[u8]) -> Vec<u8> {
    let mut extensions = ArrayVec::new();
    let base = read_parts(bytes, &mut extensions).expect(rt, "parts");
    let mut text = Vec::new(rt.alloc());
    write_parts(&base, &extensions, &mut Writes::new(&mut text)).expect(rt, "a text");
    text
}

/// A text on one line.
fn on_one_line(rt: &(impl Abort + AllocGlobal), text: &str) -> String {
    text.replace(rt.alloc(), "\n", ";").expect(rt, "a line")
}

/// The text of a television, or of another display.
fn shortened(rt: &(impl Abort + AllocGlobal), text: &str) -> String {
    match text.strip_prefix(BASE_TEXT) {
        Some(rest) => format!(in rt.alloc(); "tv;{}", on_one_line(rt, rest)).expect(rt, "a text"),
        None => on_one_line(rt, text),
    }
}

/// The text of an EDID, which is read to the same bytes again, and which its parts have too.
pub(crate) fn text_reported(rt: &(impl Abort + AllocGlobal), words: &str) -> String {
    let bytes = bytes_of(rt, words);
    let edid = edid_from_bytes(&bytes).expect(rt, "an EDID");
    let written = text_of(rt, &edid);
    if is_text_of(rt, &written, &bytes) {
        shortened(rt, str::from_utf8(&written).expect(rt, "a text"))
    } else {
        owned(rt, "other bytes, or another text of the parts")
    }
}

/// What comes of the front of a text that has so many whole lines: their count where it is a text, nothing where it is refused at
/// the next line, and otherwise its length and why it is refused.
fn front_reported(rt: &(impl Abort + AllocGlobal), front: &[u8], lines: usize) -> String {
    let reported = match parse_text(rt.alloc(), front) {
        Ok(_) => format!(in rt.alloc(); " {lines}"),
        Err(TextError::Syntax(line)) if line == lines.saturating_add(1) => return owned(rt, ""),
        Err(error) => format!(in rt.alloc(); " {}: {error}", front.len()),
    };
    reported.expect(rt, "a text")
}

/// With how many lines the fronts of an EDID's text are texts.
pub(crate) fn fronts_reported(rt: &(impl Abort + AllocGlobal), words: &str) -> String {
    let text = text_of(rt, &edid_of(rt, words));
    let mut reported = String::new(rt.alloc());
    let mut lines = 0;
    for end in 0..=text.len() {
        let (front, rest) = text.split_at(end);
        let front = front_reported(rt, front, lines);
        reported.push_str(front.as_str()).expect(rt, "a text");
        if rest.first() == Some(&b'\n') {
            lines = usize::saturating_add(lines, 1);
        }
    }
    owned(rt, reported.as_str().trim_start())
}
