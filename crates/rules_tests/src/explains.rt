//! What explains a rule that is broken, and why an EDID has no HDMI block.
use crate::displays::bytes_of;
use arrayvec::ArrayVec;
use edid_core::read_parts;
use rules_check::Origin;
use rules_explain::{explain_findings, explain_no_hdmi, first_overrun};
use std::process::Abort;

/// What is changed in the television, and what explains the rules that it then breaks, with `/` for each line feed.
pub(crate) const EXPLAINED: &str = "\
tv => none
tv 0=01 => none
tv 113=3d 114=17 => fail limits-reversed/  the greatest rate of range limits is not below the least (E-EDID A, 3.10.3.3)/  here: 61 to 23 Hz, 15 to 68 kHz/
tv 16=36 => fail week-of-1.4/  in 1.3 the week is at most 53; 54, and 255 for a model year, came with 1.4 (E-EDID A, 3.4.4)/  here: week 54/
tv 24=0a => fail srgb/  bit 2 of the features is set exactly where the chromaticities are those of sRGB (E-EDID A, 3.6.4)/  here: features 0a/
tv 93=fe => fail no-name/  a descriptor with tag fc has the product's name (E-EDID A, 3.10.3)/
tv 149=1020 => fail address/  an address has no port after a 0 and is not f.f.f.f, nor 0.0.0.0 in a port (HDMI 1.4, 8.7.2, 8.7.3)/  here: address 1.0.2.0/
tv 131=f2 => fail native-mixed/  native timings and video codes are of one size, those of two fields by themselves (native: CTA-861-D, 7.5, 7.5.1)/  here: 1920x1080 and 1280x720/
tv 134=85 135=86 => fail native-mixed/  native timings and video codes are of one size, those of two fields by themselves (native: CTA-861-D, 7.5, 7.5.1)/  here: 1920x1080 and 1440x480/
tv 133=10 135=90 => fail vic-twice/  a video code is listed once (CTA-861-D, 7.5.1)/  here: video code 16/
tv 72=023a801871382d40582c450008222100001e 131=f3 => fail native-count/  the low four bits of a CTA block's flags are at most the detailed timings (CTA-861-D, 7.5)/  here: 3 native, 2 timings/
tv 131=71 => warn overscan/  bit 7 of a CTA block's flags is set: formats of computers are shown whole (CTA-861-D, 7.5)/  here: flags 71/
tv 62=00 => fail timing 1 timing-zero/  picture, blanking, sync offset and sync width are above 0 (E-EDID A, 3.10.2)/  here: horizontal sync offset 0/
tv 63=00 => fail timing 1 timing-zero/  picture, blanking, sync offset and sync width are above 0 (E-EDID A, 3.10.2)/  here: horizontal sync width 0/
tv 64=40 => fail timing 1 timing-zero/  picture, blanking, sync offset and sync width are above 0 (E-EDID A, 3.10.2)/  here: vertical sync width 0/
tv 64=05 => fail timing 1 timing-zero/  picture, blanking, sync offset and sync width are above 0 (E-EDID A, 3.10.2)/  here: vertical sync offset 0/
tv 254=01 => fail padding/  whole dummy descriptors and zeros follow the timings of a CTA block (CTA-861-D, 7.5; E-EDID A, 3.10.3)/  here: extension 1/
tv 38=0102 => fail standard-unused-form/  a standard timing that is not used is 01 01 (E-EDID A, 3.9)/  here: standard timing 1 is 01 02/
tv 52=0001 => fail standard-unused-form/  a standard timing that is not used is 01 01 (E-EDID A, 3.9)/  here: standard timing 8 is 00 01/
tv 72=000000000000000000000000000000000000 => fail empty-descriptor/  a descriptor that is not used has tag 10 (E-EDID A, 3.10.3)/  here: descriptor 2/
tv 153=8f => warn rgb-quantization/  bit 6 of a video capability block is set: the range of RGB values can be chosen (CTA-861-D, 7.5.6)/  here: video capability 8f/
tv 138=0f 141=a3 => fail speakers/  more than two channels of linear PCM come with a speaker block, of three bytes (CTA-861-D, 7.5.3)/  here: no speaker block/
tv 130=19 141=82010065030c000000e200cf00 => fail speakers/  more than two channels of linear PCM come with a speaker block, of three bytes (CTA-861-D, 7.5.3)/  here: a speaker block of 2 bytes/
tv 130=1c 145=67030c001000b845e200cf => fail tmds-clock/  the clock in an HDMI block is at most 340 MHz, a byte of 68 (HDMI 1.4, 8.3.2)/  here: TMDS clock 345 MHz/
tv 130=20 154=65030c001000 => warn hdmi-twice/  there is one HDMI block: of several the address of the first is read/  here: 2 HDMI blocks/
tv 113=01 115=01 54=e703 => fail timing 1 clock/  the pixel clock is at least 10 MHz/  here: clock 9.99 MHz/
tv 69=4a => fail timing 1 h-back-porch/  some of the horizontal blanking is left after sync offset, sync width and both borders (E-EDID A, 3.10.2)/  here: blanking 280, sync offset 88, sync width 44, borders 2 times 74/
tv 66=12 => fail timing 1 size-differs/  the image is at most 9 mm larger than the display, and not more than 9 mm smaller both ways (E-EDID A, 3.10.2, 3.6.2)/  here: image 530 x 290 mm, display 52 x 29 cm/
tv 116=42 => fail out-of-range/  video codes, established, standard and DisplayID timings are within the range limits (E-EDID A, 3.10.3.3)/  here: video code 16, line rate 67.500 kHz, 1.500 kHz above 66 kHz/fail timing 1 out-of-range/  the field rate, the line rate and the pixel clock are within the range limits (E-EDID A, 3.10.3.3)/  here: line rate 67.500 kHz, 1.500 kHz above 66 kHz/
tv 54=f339 116=42 => fail out-of-range/  video codes, established, standard and DisplayID timings are within the range limits (E-EDID A, 3.10.3.3)/  here: video code 16, line rate 67.500 kHz, 1.500 kHz above 66 kHz/fail timing 1 out-of-range/  the field rate, the line rate and the pixel clock are within the range limits (E-EDID A, 3.10.3.3)/  here: line rate 67.432 kHz, 1.432 kHz above 66 kHz/
tv 130=03 => fail cta-overrun/  the data blocks of a CTA block end where its third byte says, and its timings within it (CTA-861-D, 7.5)/  here: extension 1 begins with 02 03 03/
tv 129=02 => warn cta-revision/  a CTA block is of revision 3, the only one with data blocks (CTA-861-D, 7.5)/  here: extension 1 begins with 02 02 1a/
tv base map other 256=01 => warn unknown-extension/  the first byte of an extension is 02, 10, 40, 50, 60, 70, f0 or ff (E-EDID A, 2.2.1)/  here: extension 2 begins with 01 00 00/
tv 128=7012000300ea => fail displayid-checksum/  the bytes of a DisplayID section after the extension's tag, with its checksum, have the sum 0 modulo 256, and stand within the extension (DisplayID 1.3, 3)/  here: extension 1 begins with 70 12 00/
tv 130=1d 154=e20500 => fail block-length/  an audio block has three bytes a format; after its tag a video capability block has one at least, a colorimetry and an HDR block two (CTA-861-G, 7.5.2, 7.5.5, 7.5.6, 7.5.13)/  here: extended 0500/
tv 130=1b 154=e0 => fail block-length/  an audio block has three bytes a format; after its tag a video capability block has one at least, a colorimetry and an HDR block two (CTA-861-G, 7.5.2, 7.5.5, 7.5.6, 7.5.13)/  here: extended -/
tv 130=22 154=e3050000e3050000 => fail block-twice/  a CTA block has one block at most of video capability, colorimetry, static HDR, 4:2:0 map, speakers and HDMI Forum each (CTA-861-G, 7.5)/  here: 2 blocks of colorimetry/
tv 130=1d 154=e27801 => fail eeodb-place/  the HDMI Forum's override of the count of extensions is the first data block of the first extension (HDMI 2.1, 10.3.7)/  here: data block 6 of extension 1/
tv 130=1d 132=e278004490040301230907078301000065030c000000e200cf => fail eeodb-count/  the HDMI Forum's override of the count of extensions is not below byte 126, and not 0 (HDMI 2.1, 10.3.7)/  here: extended 7800, byte 126 is 1/
tv 130=1c 154=0178 => warn tag-reserved/  no data block has tag 0, which is reserved (CTA-861-G, table 55)/  here: tag 0 78/
tv 138=01 => fail audio-reserved/  bits 6 to 3 of the first byte of an audio format are above 0 (CTA-861-G, table 34)/  here: audio 010707/
tv 130=1e 154=e3061001 => warn hdr-reserved/  bits 7 to 4 of the first byte of an HDR block are clear, and bits 7 to 1 of the second (CTA-861-G, 7.5.13)/  here: extended 061001/
tv 136=de => warn vic-reserved/  a video code is at most 219, the last one of a format (CTA-861-G, table 3)/  here: video 900403de/
tv 130=20 145=6b030c001000b82d20002005e200cf => fail hdmi-vic-reserved/  a code of HDMI's own is 1, 2, 3 or 4 (HDMI 1.4, 8.2.3)/  here: vendor 030c001000b82d20002005/
tv 130=22 154=67d85dc4013c0000 => fail forum-clock/  the clock in an HDMI Forum block is 0, or above 340 MHz and at most 600 MHz: a byte of 69 to 120 (HDMI 2.1, 10.3.2)/  here: vendor d85dc4013c0000/
tv 130=22 154=67d85dc401780010 => fail forum-scdc/  a fixed rate link comes with SCDC, bit 7 of byte 2 of an HDMI Forum block (HDMI 2.1, 10.3.2)/  here: vendor d85dc401780010/
tv 130=25 154=6ad85dc401788000003c32 => fail forum-vrr/  the least rate of variable refresh is at most 48 Hz; the greatest is 0, or 100 Hz and more with a least one (HDMI 2.1, 10.3.2)/  here: vendor d85dc401788000003c32/
tv 113=01ff01ffff 133=61606b6a 130=1d 154=e20f10 => fail map-past-codes/  the 4:2:0 map has a bit for each video code at most (CTA-861-G, 7.5.11)/  here: extended 0f10, 4 video codes/fail link-clock/  the link carries each video code and DisplayID timing: its clock, halved in 4:2:0 alone, is at most that of the HDMI and HDMI Forum blocks, 165 MHz where none is given, or it fits their fixed rate link (HDMI 1.4, 8.3.2; HDMI 2.1, 10.3.2)/  here: video code 97, 594.000 MHz, the link has 165 MHz/
tv 130=1d 154=e20f01 => warn ycc420-slow/  a format in 4:2:0 has a pixel clock of 590 MHz at least (HDMI 2.1, 7.1)/  here: extended 0f01/
tv 153=4f => warn ycc-quantization/  bit 7 of a video capability block is set where the flags have YCbCr: the range of its values can be chosen (CTA-861-G, 7.5.6)/  here: extended 004f/
tv 130=1f 145=6a030c001000b82d80010ce200cf => warn latency-order/  the audio latency of an HDMI block is at most 20 ms above the video latency (HDMI 1.4, 8.3.2)/  here: vendor 030c001000b82d80010c/
tv 136=80 => warn reserved/  no field of a data block has a value that its standard reserves (CTA-861-H, 7.5; HDMI 1.4, 8.3.2; HDMI 2.1, 10.3)/  here: video 90040380, byte 3: SVD 128/
tv 130=22 154=67d85dc402780000 => warn reserved/  no field of a data block has a value that its standard reserves (CTA-861-H, 7.5; HDMI 1.4, 8.3.2; HDMI 2.1, 10.3)/  here: vendor d85dc402780000, byte 3: Version 2/
tv 130=1c 154=e10d => warn length/  a data block has all bytes of its fields, and no others (CTA-861-H, 7.5; HDMI 1.4, 8.3.2; HDMI 2.1, 10.3)/  here: extended 0d, too short/
tv 130=1f 154=e405000000 => warn length/  a data block has all bytes of its fields, and no others (CTA-861-H, 7.5; HDMI 1.4, 8.3.2; HDMI 2.1, 10.3)/  here: extended 05000000, bytes after its fields: 1/
tv 35=a0 => fail out-of-range/  video codes, established, standard and DisplayID timings are within the range limits (E-EDID A, 3.10.3.3)/  here: an established timing, field rate 70.082 Hz, 9.082 Hz above 61 Hz/
tv 114=78 116=fe 117=ff 136=76 => fail out-of-range/  video codes, established, standard and DisplayID timings are within the range limits (E-EDID A, 3.10.3.3)/  here: video code 118, line rate 270.000 kHz, 16.000 kHz above 254 kHz/fail link-clock/  the link carries each video code and DisplayID timing: its clock, halved in 4:2:0 alone, is at most that of the HDMI and HDMI Forum blocks, 165 MHz where none is given, or it fits their fixed rate link (HDMI 1.4, 8.3.2; HDMI 2.1, 10.3.2)/  here: video code 118, 1188.000 MHz, the link has 165 MHz/
tv 113=01ff01ffff 130=25 154=67d85dc401788030e20ec7 => fail link-clock/  the link carries each video code and DisplayID timing: its clock, halved in 4:2:0 alone, is at most that of the HDMI and HDMI Forum blocks, 165 MHz where none is given, or it fits their fixed rate link (HDMI 1.4, 8.3.2; HDMI 2.1, 10.3.2)/  here: video code 199, 1188.000 MHz in 4:2:0 alone, the link has 600 MHz, or 24 Gbit/s/
tv 113=01ff01ffff 130=1e 154=e3230034 => fail link-clock/  the link carries each video code and DisplayID timing: its clock, halved in 4:2:0 alone, is at most that of the HDMI and HDMI Forum blocks, 165 MHz where none is given, or it fits their fixed rate link (HDMI 1.4, 8.3.2; HDMI 2.1, 10.3.2)/  here: a timing of DisplayID, 175.500 MHz, the link has 165 MHz/
tv 130=20 145=6b030c001000b83b20002001e200cf => fail hdmi-vic-without-vic/  a format that an HDMI block lists is listed by its video code too: 1 to 4 are 95, 94, 93 and 98 (HDMI 1.4, 8.2.3)/fail link-clock/  the link carries each video code and DisplayID timing: its clock, halved in 4:2:0 alone, is at most that of the HDMI and HDMI Forum blocks, 165 MHz where none is given, or it fits their fixed rate link (HDMI 1.4, 8.3.2; HDMI 2.1, 10.3.2)/  here: vendor 030c001000b83b20002001, code 1, 297.000 MHz, the link has 295 MHz/
tv 113=01ff01ffff 54=7540 => fail timing 1 link-clock/  the link carries the timing: its clock is at most that of the HDMI and HDMI Forum blocks, 165 MHz where none is given, or it fits their fixed rate link (HDMI 1.4, 8.3.2; HDMI 2.1, 10.3.2)/  here: 165.010 MHz, the link has 165 MHz/
tv 115=2e => fail out-of-range/  video codes, established, standard and DisplayID timings are within the range limits (E-EDID A, 3.10.3.3)/  here: video code 4, line rate 45.000 kHz, 1.000 kHz below 46 kHz/fail timing 2 out-of-range/  the field rate, the line rate and the pixel clock are within the range limits (E-EDID A, 3.10.3.3)/  here: line rate 45.000 kHz, 1.000 kHz below 46 kHz/
tv other => fail block-map/  in 1.3 a block map comes before two and more extensions (E-EDID A, 4.1), but where the first one begins with the HDMI Forum's override of their count (HDMI 2.1, 10.3.7)/  here: 2 extensions/
tv 37=80 => fail out-of-range/  video codes, established, standard and DisplayID timings are within the range limits (E-EDID A, 3.10.3.3)/  here: an established timing, field rate 75.062 Hz, 14.062 Hz above 61 Hz/
tv 52=6142 => fail out-of-range/  video codes, established, standard and DisplayID timings are within the range limits (E-EDID A, 3.10.3.3)/  here: standard timing 8, field rate 62.000 Hz, 1.000 Hz above 61 Hz/
tv 19=04 146=04 118=01 136=61 => warn out-of-range/  video codes, established, standard and DisplayID timings are within the range limits; in 1.4 they may be outside (E-EDID 1.4, 3.10.3.3)/  here: video code 97, line rate 135.000 kHz, 67.000 kHz above 68 kHz; pixel clock 594.000 MHz, 444.000 MHz above 150 MHz/
tv 117=0d 134=10 133=04 => fail out-of-range/  video codes, established, standard and DisplayID timings are within the range limits (E-EDID A, 3.10.3.3)/  here: video code 16, pixel clock 148.500 MHz, 18.500 MHz above 130 MHz/fail timing 1 out-of-range/  the field rate, the line rate and the pixel clock are within the range limits (E-EDID A, 3.10.3.3)/  here: pixel clock 148.500 MHz, 18.500 MHz above 130 MHz/
tv 95=07 => fail text-form/  a name, a text and a serial number are printable characters, with a line feed and spaces after fewer than 13 (E-EDID A, 3.10.3)/  here: descriptor 3/
tv 119=0b => warn descriptor-reserved/  no field of a descriptor has a value that the standard reserves (E-EDID A, 3.10)/  here: descriptor 4/
tv 93=11 => fail no-name/  a descriptor with tag fc has the product's name (E-EDID A, 3.10.3)/warn descriptor-reserved/  no field of a descriptor has a value that the standard reserves (E-EDID A, 3.10)/  here: descriptor 3/
tv 16=3c => fail week-reserved/  a week is at most 54, or 255 (E-EDID 1.4, 3.4.4)/  here: week 60/
tv 17=6e => warn year-late/  a display is made before 2051/  here: year 2100/
tv 23=64 => warn srgb-gamma/  where bit 2 of the features says sRGB, the gamma is 2.2, a byte of 120 (E-EDID A, 3.6.3, 3.6.4)/  here: gamma 100/
tv 19=04 146=04 118=01 20=86 => fail input-reserved/  of a digital input bits 6 to 1 are clear in 1.3; in 1.4 bits 6 to 4 are at most 6, and bits 3 to 0 at most 5 (E-EDID A, 3.6.1; 1.4, 3.6.1)/  here: input 86/
";

pub(crate) fn explained(rt: &(impl Abort + AllocGlobal), words: &str) -> String {
    let text = explain_findings(rt.alloc(), Origin::Display, &bytes_of(rt, words)).expect(
        rt, "memory",
    );
    lines_reported(rt, text)
}

/// Lines with `/` for each line feed, or `none`.
fn lines_reported(rt: &(impl Abort + AllocGlobal), text: String) -> String {
    if text.is_empty() {
        return String::from_str(rt.alloc(), "none").expect(rt, "a text");
    }
    text.replace(rt.alloc(), "\n", "/").expect(rt, "a line")
}

/// What is changed in the television, why it has no HDMI block then, and which extension overruns.
pub(crate) const HINTED: &str = "\
tv => none0
tv 0=01 => none0
tv base => no extension follows the base block/0
tv 146=04 => extension 1 is a CTA-861 block, no data block of which is an HDMI block/0
tv 130=00 => extension 1 is a CTA-861 block without data blocks/0
tv 132=5f => extension 1 is a CTA-861 block whose data blocks or timings overrun: none of them is read/1
tv 130=90 => extension 1 is a CTA-861 block whose data blocks or timings overrun: none of them is read/1
tv 129=02 => extension 1 is a CTA-861 block of another revision than 3: none of its data blocks is read/0
tv base map => extension 1 is no CTA-861 block/0
tv 128=70 => extension 1 is no CTA-861 block/0
tv base other cta 258=05 260=41 => extension 1 is no CTA-861 block/extension 2 is a CTA-861 block whose data blocks or timings overrun: none of them is read/2
tv cta 258=05 260=41 => none2
";

/// The number of the extension that overruns, or 0.
fn overrun(bytes: &[u8]) -> u8 {
    let mut extensions = ArrayVec::new();
    if read_parts(bytes, &mut extensions).is_err() {
        return 0;
    }
    first_overrun(extensions.as_slice()).unwrap_or(0)
}

pub(crate) fn hinted(rt: &(impl Abort + AllocGlobal), words: &str) -> String {
    let bytes = bytes_of(rt, words);
    let text = explain_no_hdmi(rt.alloc(), &bytes).expect(rt, "memory");
    let lines = lines_reported(rt, text);
    let number = overrun(&bytes);
    format!(in rt.alloc(); "{lines}{number}").expect(rt, "a text")
}
