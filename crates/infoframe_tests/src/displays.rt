//! The displays of the rows.
use edid_core::{Edid, edid_from_bytes};
use std::process::Abort;

/// The base block of a television of Samsung, with timings of 1920x1080 and 1280x720 at 60 Hz.
const BASE: &str =
    "00ffffffffffff004c2d0201010000000a15010380341d780eee91a3544c99260f505420000001010101010101010101010101010101023a801871382d40582c450008222100001e011d007251d01e206e28550008222100001e000000fc004c4f554e47452054560a202020000000fd00173d0f440f000a20202020202001d4";

/// The base block of LG's OLED55B6V.
const LG: &str =
    "00ffffffffffff001e6d010001010101011a010380a05a780aee91a3544c99260f5054a108003140454061407140818001010101010108e80030f2705a80b0588a0040846300001e023a801871382d40582c450040846300001e000000fd003a3e1e883c000a202020202020000000fc004c472054560a20202020202020019f";

/// A display, the name of its base block, and the front of its extension up to its zeros: that television; one of LG; one with neither
/// data blocks nor flags; one that has 3D of structures 2, 3, 5 and 8, YCbCr 4:2:0 of the code 97 alone, ALLM, CCBPCI, two colorimetries and
/// MPEG-4 HE AAC.
const DISPLAYS: &str = "\
lounge base 02031af14490040301230907078301000065030c000000e2004f
lg lg 02035df1586160101f0413051403021220212215015d5e5f6566626364293d06c01507500957076e030c001000b83c2000800102030467d85dc401788003e200cfe305c000e3060d01e40f030018ee0146d00024180900ad5244a9230c662150b051001b304070360040846300001e
plain base 020304
stereo base 0203290070030c001000801e20a00600042348140568d85dc40178900002e20e61e305808023790620
";

/// Appends a block of 128 bytes: its front, zeros, and the byte that makes its sum 0.
fn add_block(rt: &impl Abort, bytes: &mut Vec<u8>, front: &[u8]) {
    let mut sum = 0_u8;
    for byte in front {
        sum = sum.wrapping_add(*byte);
        bytes.push(*byte).expect(rt, "a block");
    }
    for _ in front.len()..127 {
        bytes.push(0).expect(rt, "a block");
    }
    bytes.push(sum.wrapping_neg()).expect(rt, "a block");
}

/// The display of a name.
pub(crate) fn display(rt: &(impl Abort + AllocGlobal), name: &str) -> Edid {
    for row in DISPLAYS.lines() {
        let (found, rest) = row.split_once(' ').expect(rt, row);
        if found == name {
            let (base, front) = rest.split_once(' ').expect(rt, row);
            let digits = if base == "lg" { LG } else { BASE };
            let mut bytes = hex::decode(rt.alloc(), digits).expect(rt, "hex digits");
            let front = hex::decode(rt.alloc(), front).expect(rt, "hex digits");
            add_block(rt, &mut bytes, &front);
            return edid_from_bytes(&bytes).expect(rt, "an EDID");
        }
    }
    panic!(rt; "no display")
}
