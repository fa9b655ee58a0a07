//! Blocks and the lines below them.
use crate::codes::SECTION_CODES;
use arrayvec::ArrayVec;
use meaning_displayid::append_displayid;
use meaning_extended::{append_extended, append_vendor};
use meaning_fields::luminance;
use meaning_words::Page;
use std::process::Abort;

/// The video codes of the EDID that a map is of.
const CODES: &[u8] = &[97, 96, 16, 31, 4, 19, 5, 20, 3, 2, 18, 32, 33, 34, 93, 95];

/// The lines below a block, each with `/` after it: a vendor block, an extended block or a section of DisplayID in hex.
fn reported(rt: &(impl Abort + AllocGlobal), block: &str) -> String {
    let (word, digits) = block.split_once(' ').expect(rt, "a block");
    let bytes = hex::decode(rt.alloc(), digits).expect(rt, "hex digits");
    let mut page: Page = ArrayVec::new();
    if bytes.len() <= 128 {
        match word {
            "displayid" => append_displayid(&mut page, &bytes),
            "vendor" => append_vendor(&mut page, &bytes),
            _ => append_extended(&mut page, CODES, &bytes),
        }
    }
    let text = std::str::from_utf8(page.as_slice()).expect(rt, "a text");
    text.replace(rt.alloc(), "\n", "/").expect(rt, "memory")
}

/// A block, and the lines below it.
const ROWS: &str = "\
extended 004f|  video capability/  RGB range selectable, IT formats over- or underscanned, CE formats over- or underscanned/
extended 0096|  video capability/  YCC range selectable, preferred timing overscanned, IT formats overscanned, CE formats underscanned/
extended 003012|  video capability/  preferred timing over- or underscanned, no IT formats, no CE formats, then in hex 12/
extended 05ffff|  colorimetry/  xvYCC601, xvYCC709, sYCC601, opYCC601, opRGB, BT2020cYCC, BT2020YCC, BT2020RGB, DCI-P3, ICtCp, sRGB, default RGB, gamut metadata 0, gamut metadata 1, gamut metadata 2, gamut metadata 3/
extended 05e000|  colorimetry/  BT2020cYCC, BT2020YCC, BT2020RGB/
extended 060f01735a14|  static HDR metadata/  traditional gamma SDR, traditional gamma HDR, SMPTE ST 2084, hybrid log-gamma, static metadata type 1, content up to 604 cd/m2, frames on average up to 351 cd/m2, down to 0.037 cd/m2/
extended 060501|  static HDR metadata/  traditional gamma SDR, SMPTE ST 2084, static metadata type 1/
extended 0d10818291a0a1c1feffdb|  preferred formats/  16: 1920x1080 at 60 Hz 16:9/  detailed timing 1/  detailed timing 2/  further timing 1/  further timing 16/  161: reserved/  193: 5120x2160 at 120 Hz 64:27/  first timing by a code of DMT/  255: reserved/  219: 4096x2160 at 120 Hz 256:135/
extended 0e6160|  formats in 4:2:0 alone/  97: 3840x2160 at 60 Hz 16:9/  96: 3840x2160 at 50 Hz 16:9/
extended 0f|  formats in 4:2:0 too/  each video code also in 4:2:0/
extended 0f0b|  formats in 4:2:0 too/  97: 3840x2160 at 60 Hz 16:9, also in 4:2:0/  96: 3840x2160 at 50 Hz 16:9, also in 4:2:0/  31: 1920x1080 at 50 Hz 16:9, also in 4:2:0/
extended 0f0080|  formats in 4:2:0 too/  95: 3840x2160 at 30 Hz 16:9, also in 4:2:0/
extended 0f0100000000000102|  formats in 4:2:0 too/  97: 3840x2160 at 60 Hz 16:9, also in 4:2:0/  place 49: no code, also in 4:2:0/  place 58: no code, also in 4:2:0/
vendor d85dc40178ff6fff3090ff6310|  HDMI Forum version 1, TMDS up to 600 MHz, SCDC, read request, cable status, CCBPCI, scrambling up to 340 MHz, 3D independent view, 3D dual view, 3D OSD disparity, FRL up to 12 Gbit/s on 4 lanes, UHD VIC, 4:2:0 at 48 bits a pixel, 4:2:0 at 36 bits a pixel, 4:2:0 at 30 bits a pixel/  ALLM, FVA, negative Mvrr, cinema VRR, Mdelta, QMS, FAPA in blanking, FAPA end extended, VRR from 48 to 144 Hz, DSC 1.2a, DSC in 4:2:0, QMS TFR max, QMS TFR min, DSC at each 1/16 bit a pixel, DSC at 16 bits, DSC at 12 bits, DSC at 10 bits/  DSC over FRL at 12 Gbit/s on 4 lanes, DSC in 4 slices up to 340 MHz, DSC chunks of a line up to 17408 bytes/
vendor d85dc40178800002|  HDMI Forum version 1, TMDS up to 600 MHz, SCDC/  ALLM/
vendor d85dc401000000|  HDMI Forum version 1/
vendor d85dc40100001001|  HDMI Forum version 1, FRL up to 3 Gbit/s on 3 lanes/  FAPA in blanking/
vendor d85dc40100002000|  HDMI Forum version 1, FRL up to 6 Gbit/s on 3 lanes/
vendor d85dc40100003000|  HDMI Forum version 1, FRL up to 6 Gbit/s on 4 lanes/
vendor d85dc40100004000|  HDMI Forum version 1, FRL up to 8 Gbit/s on 4 lanes/
vendor d85dc40100005000|  HDMI Forum version 1, FRL up to 10 Gbit/s on 4 lanes/
vendor d85dc40100007000|  HDMI Forum version 1, FRL of a reserved rate/
vendor d85dc401780000003000|  HDMI Forum version 1, TMDS up to 600 MHz/  VRR from 48 Hz on/
vendor d85dc401780000000064|  HDMI Forum version 1, TMDS up to 600 MHz/  VRR up to 100 Hz/
vendor d85dc401780000004000|  HDMI Forum version 1, TMDS up to 600 MHz/  VRR up to 256 Hz/
vendor d85dc40178000000702c|  HDMI Forum version 1, TMDS up to 600 MHz/  VRR from 48 to 300 Hz/
extended 79000001788060023090|  HDMI Forum version 1, TMDS up to 600 MHz, SCDC, FRL up to 12 Gbit/s on 4 lanes/  ALLM, VRR from 48 to 144 Hz/
extended 7900ff01788060023090|  byte 2 is ff/  HDMI Forum version 1, TMDS up to 600 MHz, SCDC, FRL up to 12 Gbit/s on 4 lanes/  ALLM, VRR from 48 to 144 Hz/
extended 790180017880|  byte 1 is 01, byte 2 is 80/  HDMI Forum version 1, TMDS up to 600 MHz, SCDC/
vendor 1a000001012890|  AMD FreeSync version 1.1, from 40 Hz to 144 Hz/
vendor 1a00000201289000|  AMD FreeSync version 2.1, from 40 Hz to 144 Hz/
vendor 1a0000020128900004735a2014|  AMD FreeSync version 2.1, from 40 Hz to 144 Hz, luminances without local dimming, up to 604 cd/m2, down to 0.752 cd/m2, without local dimming up to 100 cd/m2, down to 0.0062 cd/m2/
vendor 1a00000201289007fb00000000aabb|  AMD FreeSync version 2.1, from 40 Hz to 144 Hz, by MCCS with VCP code 07, other bits of byte 6 are fb, then in hex aabb/
vendor 1a0000|  AMD FreeSync/
vendor 4b0400|  NVIDIA/
vendor 4b040001|  NVIDIA, then in hex 01/
vendor 6e0c00|  ASUS/
vendor fa1000|  Apple/
vendor b91400|  MStar/
vendor 46d000|  Dolby/
vendor 46d00012|  Dolby, then in hex 12/
vendor 47e000|  InFocus/
vendor 5c12ca|  Microsoft/
vendor 5c12ca0361|  Microsoft version 3, for the desktop, by others, use case 1, then in hex 0361/
vendor 123456|  maker 563412/
vendor 12345678|  maker 563412, then in hex 78/
vendor 1234|
extended 0146d0000701|  Dolby Vision version 0, then in hex 0701/
extended 0146d0006701|  Dolby Vision version 3, then in hex 6701/
extended 0146d00024180900ad5244a9230c|  Dolby Vision version 1, display management 3.x, up to 700 cd/m2, down to 0.00099 cd/m2, near P3-D65/  red 0.6758 0.3203, green 0.2656 0.6602, blue 0.1367 0.0469/
extended 0146d0002319080aad5244a9230cee|  Dolby Vision version 1, display management 2.x, YCbCr 4:2:2 at 12 bits, 2160p60, global dimming, up to 700 cd/m2, down to 0.00099 cd/m2, near BT.709/  byte 4 is 0a, red 0.6758 0.3203, green 0.2656 0.6602, blue 0.1367 0.0469, then in hex ee/
extended 0146d0002680016a4cfe98|  Dolby Vision version 1, display management 3.x, 2160p60, up to 3300 cd/m2, down to 0 cd/m2, near P3-D65/  latency 2 (reserved), blue 0.1367 0.0391, green 0.1484 0.9961, red 0.6992 0.2500/
extended 0146d000480a9d4a665d4a|  Dolby Vision version 2, display management 4.x, backlight from 75 cd/m2 on, up to 1605 cd/m2, down to 0.00064 cd/m2, low latency, also over HDMI, reserved bits 04/  red 0.6680 0.2852, green 0.1445 0.6992, blue 0.1445 0.0391/
extended 018b849001|  HDR10+ version 1/
extended 018b84908d02|  HDR10+ version 1, other bits of byte 1 are 8c, then in hex 02/
extended 01123456|  video of maker 563412/
extended 11123456aa|  audio of maker 563412, then in hex aa/
extended 1112|
extended 1146d00041|  Dolby audio version 2, height speakers, then in hex 41/
extended 1146d000f280|  Dolby audio version 3, headphones alone, height speakers, surround speakers, centre speaker, then in hex f280/
extended 02aabb|  VESA display device, then in hex aabb/
extended 03|  VESA video timings/
extended 0701|  dynamic HDR metadata, then in hex 01/
extended 0800|  native video resolution, then in hex 00/
extended 1201|  HDMI audio, then in hex 01/
extended 13|  room configuration/
extended 1480|  speaker locations, then in hex 80/
extended 200102|  InfoFrames, then in hex 0102/
extended 22|  DisplayID type VII timing/
extended 2202011b0804ff0e9f002f801f006f083d0002000400|  DisplayID type VII timing/  data block 22, revision and flags 02/  3840x2160 at 59.766 Hz, 531.202 MHz, h blanking 160, offset 48, width 32, +h, v blanking 62, offset 3, width 5, -v, 16:9/
extended 2200|  DisplayID type VII timing/
extended 23005255|  DisplayID type VIII timings/  DMT 52/  DMT 55/
extended 2300|  DisplayID type VIII timings/
extended 2a0002ff0e6f083b|  DisplayID type X timings/  3840x2160 at 60 Hz, CVT with reduced blanking of version 2/
extended 2a00|  DisplayID type X timings/
extended 7803|  count of extensions 3/
extended 78|  count of extensions/
extended 78ff02|  count of extensions 255, then in hex 02/
extended 0403|  extended tag 04, then in hex 03/
extended 0a03|  extended tag 0a, then in hex 03/
extended 2103|  extended tag 21, then in hex 03/
extended 7703|  extended tag 77, then in hex 03/
extended 7a03|  extended tag 7a, then in hex 03/";

/// Each bit and each border of the extended blocks alone.
const EXTENDED_BITS: &str = "\
extended 050100|  colorimetry/  xvYCC601/
extended 050200|  colorimetry/  xvYCC709/
extended 050400|  colorimetry/  sYCC601/
extended 050800|  colorimetry/  opYCC601/
extended 051000|  colorimetry/  opRGB/
extended 052000|  colorimetry/  BT2020cYCC/
extended 054000|  colorimetry/  BT2020YCC/
extended 058000|  colorimetry/  BT2020RGB/
extended 050001|  colorimetry/  gamut metadata 0/
extended 050002|  colorimetry/  gamut metadata 1/
extended 050004|  colorimetry/  gamut metadata 2/
extended 050008|  colorimetry/  gamut metadata 3/
extended 050010|  colorimetry/  default RGB/
extended 050020|  colorimetry/  sRGB/
extended 050040|  colorimetry/  ICtCp/
extended 050080|  colorimetry/  DCI-P3/
extended 060100|  static HDR metadata/  traditional gamma SDR/
extended 060200|  static HDR metadata/  traditional gamma HDR/
extended 060400|  static HDR metadata/  SMPTE ST 2084/
extended 060800|  static HDR metadata/  hybrid log-gamma/
extended 061000|  static HDR metadata/  reserved transfer function 4/
extended 062000|  static HDR metadata/  reserved transfer function 5/
extended 064000|  static HDR metadata/  reserved transfer function 6/
extended 068000|  static HDR metadata/  reserved transfer function 7/
extended 060002|  static HDR metadata/  reserved metadata type 2/
extended 060004|  static HDR metadata/  reserved metadata type 3/
extended 060008|  static HDR metadata/  reserved metadata type 4/
extended 060010|  static HDR metadata/  reserved metadata type 5/
extended 060020|  static HDR metadata/  reserved metadata type 6/
extended 060040|  static HDR metadata/  reserved metadata type 7/
extended 060080|  static HDR metadata/  reserved metadata type 8/
extended 060001|  static HDR metadata/  static metadata type 1/
extended 06000020|  static HDR metadata/  content up to 100 cd/m2/
extended 0600000020|  static HDR metadata/  frames on average up to 100 cd/m2/
extended 060000000020|  static HDR metadata/  least luminance by code 32/
extended 060000ff0001|  static HDR metadata/  content up to 12526 cd/m2, down to 0.0019 cd/m2/
extended 060000ff00ff|  static HDR metadata/  content up to 12526 cd/m2, down to 125.257 cd/m2/
extended 060000200020|  static HDR metadata/  content up to 100 cd/m2, down to 0.016 cd/m2/
extended 060000010001|  static HDR metadata/  content up to 51 cd/m2, down to 0.000008 cd/m2/
extended 060000600080|  static HDR metadata/  content up to 400 cd/m2, down to 1.008 cd/m2/
extended 0040|  video capability/  RGB range selectable, no IT formats, no CE formats/
extended 0080|  video capability/  YCC range selectable, no IT formats, no CE formats/
extended 0010|  video capability/  preferred timing overscanned, no IT formats, no CE formats/
extended 0004|  video capability/  IT formats overscanned, no CE formats/
extended 0001|  video capability/  no IT formats, CE formats overscanned/
extended 0020|  video capability/  preferred timing underscanned, no IT formats, no CE formats/
extended 0008|  video capability/  IT formats underscanned, no CE formats/
extended 0002|  video capability/  no IT formats, CE formats underscanned/
extended 0030|  video capability/  preferred timing over- or underscanned, no IT formats, no CE formats/
extended 000c|  video capability/  IT formats over- or underscanned, no CE formats/
extended 0003|  video capability/  no IT formats, CE formats over- or underscanned/
extended 0f0001|  formats in 4:2:0 too/  3: 720x480 at 60 Hz 16:9, also in 4:2:0/
extended 0f0002|  formats in 4:2:0 too/  2: 720x480 at 60 Hz 4:3, also in 4:2:0/
extended 0f0004|  formats in 4:2:0 too/  18: 720x576 at 50 Hz 16:9, also in 4:2:0/
extended 0f0008|  formats in 4:2:0 too/  32: 1920x1080 at 24 Hz 16:9, also in 4:2:0/
extended 0f0010|  formats in 4:2:0 too/  33: 1920x1080 at 25 Hz 16:9, also in 4:2:0/
extended 0f0020|  formats in 4:2:0 too/  34: 1920x1080 at 30 Hz 16:9, also in 4:2:0/
extended 0f0040|  formats in 4:2:0 too/  93: 3840x2160 at 24 Hz 16:9, also in 4:2:0/
extended 0f0080|  formats in 4:2:0 too/  95: 3840x2160 at 30 Hz 16:9, also in 4:2:0/
extended 0d7f80818f90919f|  preferred formats/  127: 5120x2160 at 100 Hz 64:27/  128: reserved/  detailed timing 1/  detailed timing 15/  detailed timing 16/  further timing 1/  further timing 15/
extended 0da0a1c0c1fdfeff|  preferred formats/  further timing 16/  161: reserved/  192: reserved/  193: 5120x2160 at 120 Hz 64:27/  253: reserved/  first timing by a code of DMT/  255: reserved/";

/// Each bit of the HDMI Forum's block alone.
const FORUM_BITS: &str = "\
vendor d85dc401008000|  HDMI Forum version 1, SCDC/
vendor d85dc401004000|  HDMI Forum version 1, read request/
vendor d85dc401002000|  HDMI Forum version 1, cable status/
vendor d85dc401001000|  HDMI Forum version 1, CCBPCI/
vendor d85dc401000800|  HDMI Forum version 1, scrambling up to 340 MHz/
vendor d85dc401000400|  HDMI Forum version 1, 3D independent view/
vendor d85dc401000200|  HDMI Forum version 1, 3D dual view/
vendor d85dc401000100|  HDMI Forum version 1, 3D OSD disparity/
vendor d85dc401000008|  HDMI Forum version 1, UHD VIC/
vendor d85dc401000004|  HDMI Forum version 1, 4:2:0 at 48 bits a pixel/
vendor d85dc401000002|  HDMI Forum version 1, 4:2:0 at 36 bits a pixel/
vendor d85dc401000001|  HDMI Forum version 1, 4:2:0 at 30 bits a pixel/
vendor d85dc40100000080|  HDMI Forum version 1/  FAPA end extended/
vendor d85dc40100000040|  HDMI Forum version 1/  QMS/
vendor d85dc40100000020|  HDMI Forum version 1/  Mdelta/
vendor d85dc40100000010|  HDMI Forum version 1/  cinema VRR/
vendor d85dc40100000008|  HDMI Forum version 1/  negative Mvrr/
vendor d85dc40100000004|  HDMI Forum version 1/  FVA/
vendor d85dc40100000002|  HDMI Forum version 1/  ALLM/
vendor d85dc40100000001|  HDMI Forum version 1/  FAPA in blanking/
vendor d85dc40100000000000080|  HDMI Forum version 1/  DSC 1.2a/
vendor d85dc40100000000000040|  HDMI Forum version 1/  DSC in 4:2:0/
vendor d85dc40100000000000020|  HDMI Forum version 1/  QMS TFR max/
vendor d85dc40100000000000010|  HDMI Forum version 1/  QMS TFR min/
vendor d85dc40100000000000008|  HDMI Forum version 1/  DSC at each 1/16 bit a pixel/
vendor d85dc40100000000000004|  HDMI Forum version 1/  DSC at 16 bits/
vendor d85dc40100000000000002|  HDMI Forum version 1/  DSC at 12 bits/
vendor d85dc40100000000000001|  HDMI Forum version 1/  DSC at 10 bits/
vendor d85dc4010000000000000010|  HDMI Forum version 1/  DSC over FRL at 3 Gbit/s on 3 lanes/
vendor d85dc4010000000000000052|  HDMI Forum version 1/  DSC over FRL at 10 Gbit/s on 4 lanes, DSC in 2 slices up to 340 MHz/
vendor d85dc4010000000000000027|  HDMI Forum version 1/  DSC over FRL at 6 Gbit/s on 3 lanes, DSC in 16 slices up to 400 MHz/
vendor d85dc4010000000000000035|  HDMI Forum version 1/  DSC over FRL at 6 Gbit/s on 4 lanes, DSC in 8 slices up to 400 MHz/
vendor d85dc4010000000000000044|  HDMI Forum version 1/  DSC over FRL at 8 Gbit/s on 4 lanes, DSC in 8 slices up to 340 MHz/
vendor d85dc4010000000000000066|  HDMI Forum version 1/  DSC over FRL at 12 Gbit/s on 4 lanes, DSC in 12 slices up to 400 MHz/
vendor d85dc401000000000000007f|  HDMI Forum version 1/  DSC rate 7 (reserved), DSC slices 15 (reserved)/
vendor d85dc4010000000000000001c0|  HDMI Forum version 1/  DSC in 1 slice up to 340 MHz, DSC chunks of a line up to 1024 bytes, reserved bits c0/
vendor d85dc401000000000000000001ee|  HDMI Forum version 1/  DSC chunks of a line up to 2048 bytes, then in hex ee/";

/// Sections of DisplayID, without the zeros after their data.
const SECTIONS: &str = "\
displayid 70121700000300144cd00084ff0e9f002f801f006f083d0002000400|  version 1.2, 23 bytes of data, an extension/  3840x2160 at 59.997 Hz, 533.250 MHz, h blanking 160, offset 48, width 32, +h, v blanking 62, offset 3, width 5, -v, preferred, 16:9/
displayid 7020170201220014011b0884ff0e9f002f801f006f083d0002000400|  version 2.0, 23 bytes of data, a generic display, 1 further sections/  3840x2160 at 59.766 Hz, 531.202 MHz, h blanking 160, offset 48, width 32, +h, v blanking 62, offset 3, width 5, -v, preferred, 16:9/
displayid 7012190000120016821010007f076f08000000000044454c341278563412|  version 1.2, 25 bytes of data, an extension/  tiles, in one enclosure, one alone scaled, 2 across, 1 down, column 2, row 1, 1920x2160 pixels/  of the product of DEL, code 4660, serial number 305419896/
displayid 70120f030001000ce803c201000f700891784e79|  version 1.2, 15 bytes of data, a stand-alone display/  parameters, 1000 x 450 in tenths of 1 mm, 3840x2160 pixels, audio, power management, deinterlacing, gamma code 120, aspect 1.7800, native 10 bits a colour, overall 8 bits a colour/
displayid 70120703000f0004a4120103|  version 1.2, 7 bytes of data, a stand-alone display/  display interface, DisplayPort, links 4, version 1.2, then in hex 0103/
displayid 70121c090029001000112233445566778899aabbccddeeff7f0001aa0000000000|  version 1.2, 28 bytes of data, product type 9 (reserved)/  container 00112233445566778899aabbccddeeff/  data block 7f, then in hex aa/
displayid 70121a000000000344454c0700010126000101810002200103000201020300|  version 1.2, 26 bytes of data, an extension/  product, then in hex 44454c/  timings by codes of DMT, then in hex 01/  interface features, then in hex 01/  data blocks of CTA-861, then in hex 2001/  then in hex 0102/  then in hex 0300/
displayid 701214000012000d6a3221c57f076f08010000000001000101|  version 1.2, 20 bytes of data, an extension/  tiles, with bezels, reserved bits 20, some alone at their place, one alone scaled, 4 across, 3 down, column 3, row 2, high bits c5, 1920x2160 pixels, then in hex 0100000000/  data block 01, then in hex 01/
displayid 702020030021011d8813940b000f7008003c8a54cc849968420f004554b05cb060662a9278|  version 2.0, 32 bytes of data, a television/  data block 21, revision and flags 01/  parameters, 5000 x 2964 in tenths of 1 mm, 3840x2160 pixels, left to right, top to bottom, luminances guaranteed, CIE 1931, speakers, 10 bits a colour, LCD, dark theme preferred/  primary 1 0.6396 0.3301, primary 2 0.2998 0.5996, primary 3 0.1504 0.0596, white 0.3125 0.3291/  full coverage up to 300.000 cd/m2, 10% coverage up to 600.000 cd/m2, down to 0.050 cd/m2, gamma 2.2000/
displayid 702020030021801d5802520180073804ca3c8a54cc849968420f00455400600080007c21ff|  version 2.0, 32 bytes of data, a television/  data block 21, revision and flags 80/  parameters, 600 x 338 mm, 1920x1080 pixels, top to bottom, right to left, luminances for guidance, CIE 1976, no speakers, 8 bits a colour, OLED/  primary 1 0.6396 0.3301, primary 2 0.2998 0.5996, primary 3 0.1504 0.0596, white 0.3125 0.3291/  full coverage up to 512.000 cd/m2, reserved luminance 007c/
displayid 70201803002500095f61000f4f0c3078802501095f61000f4f0c302c85|  version 2.0, 24 bytes of data, a television/  dynamic range limits, 24928 to 806672 kHz, 48 to 120 Hz, seamless/  data block 25, revision and flags 01/  dynamic range limits, 24928 to 806672 kHz, 48 to 300 Hz, seamless, reserved bits 04/
displayid 70200d030026000a0e06020407e041000112|  version 2.0, 13 bytes of data, a television/  interface features, RGB 8 10 12 bits, YCbCr 4:4:4 8 10 bits/  YCbCr 4:2:2 10 bits, YCbCr 4:2:0 12 bits, 4:2:0 from 519750 kHz/  audio at 48 44.1 32 kHz, colours sRGB BT.2020/ST 2084, 1 further combinations/  sRGB with BT.601/
displayid 70200f03002b000c150a308f0014120018ef0000|  version 2.0, 15 bytes of data, a television/  Adaptive-Sync/  48 to 144 Hz, native to the panel, fixed average and adaptive v-total, seamless, a frame at most 2500 us longer, a frame at most 5000 us shorter/  24 to 240 Hz, fixed average v-total, seamless, no jitter by longer frames/
displayid 70200f030024000c01ff0e6f083b127f0737043b|  version 2.0, 15 bytes of data, a television/  3840x2160 at 60 Hz, CVT with reduced blanking/  1920x1080 at 60 Hz, CVT with reduced blanking of version 2, also at 1000/1001 of it/
displayid 70201303002a100783ff0e6f08ef2432000602ff0e6f083b|  version 2.0, 19 bytes of data, a television/  data block 2a, revision and flags 10/  3840x2160 at 240 Hz, CVT with reduced blanking of version 3, also in YCbCr 4:2:0, horizontal blanking step 1, 35 us more vertical blanking/  3840x2160 at 60 Hz, CVT with reduced blanking of version 2/
displayid 70200e03002300025255234002106123800101|  version 2.0, 14 bytes of data, a television/  DMT 52/  DMT 55/  data block 23, revision and flags 40/  VIC 16/  VIC 97/  data block 23, revision and flags 80/  HDMI VIC 1/
displayid 7020190300280016c21000007f076f080a010203043a0292341278563412|  version 2.0, 25 bytes of data, a television/  tiles, in one enclosure, with bezels, one alone scaled, 2 across, 1 down, column 1, row 1, 1920x2160 pixels, bezels times 10, top 1, bottom 2, right 3, left 4/  of the product of maker 3a0292, code 4660, serial number 305419896/
displayid 70201403002000110010fa3412785634120a140548656c6c6f|  version 2.0, 20 bytes of data, a television/  product of maker 0010fa, code 4660, serial number 305419896, week 10 of 2020, Hello/
displayid 70201303007e00073a0292814410087f00060010fa0102aa|  version 2.0, 19 bytes of data, a television/  of VESA, DisplayPort, native colours by default, 4 pixels overlap, four streams, then in hex 1008/  of maker 0010fa, then in hex 0102aa/
displayid 7020170300220214011b0884ff0e9f002f801f006f083d0002000400|  version 2.0, 23 bytes of data, a television/  data block 22, revision and flags 02/  3840x2160 at 59.766 Hz, 531.202 MHz, h blanking 160, offset 48, width 32, +h, v blanking 62, offset 3, width 5, -v, also in YCbCr 4:2:0, 16:9/
displayid 701214030000001144454c3412785634120a140548656c6c6f|  version 1.2, 20 bytes of data, a stand-alone display/  product of DEL, code 4660, serial number 305419896, week 10 of 2020, Hello/
displayid 701218030002010d313c8a54cc849968420f0045540201058102004554|  version 1.2, 24 bytes of data, a stand-alone display/  data block 02, revision and flags 01/  colours, spatial, 3 primaries, 1 white points/  0.6396 0.3301/  0.2998 0.5996/  0.1504 0.0596/  0.3125 0.3291/  data block 02, revision and flags 01/  colours, temporal, 0 primaries, 1 white points, BT.709/  0.3125 0.3291/
displayid 70120e030004000bff0f008863101457121b03|  version 1.2, 14 bytes of data, a stand-alone display/  800x600, 40960 kHz, h blanking 72, offset 16, width 40, +h, v blanking 28, offset 1, width 4, -v, preferred/
displayid 701206030005000394ef3b|  version 1.2, 6 bytes of data, a stand-alone display/  1920 pixels a line at 60 Hz, CVT with reduced blanking, 16:9, preferred/
displayid 70120803000601015206410110|  version 1.2, 8 bytes of data, a stand-alone display/  data block 06, revision and flags 01/  DMT 52/  data block 06, revision and flags 41/  VIC 16/
displayid 701212030009000fc30900e9e6001ea05000184b1400f0|  version 1.2, 18 bytes of data, a stand-alone display/  range limits, 25000 to 591140 kHz, lines at 30 to 160 kHz, blanking of 80 pixels, 24 to 75 Hz, blanking of 20 lines, interlaced, CVT, CVT with reduced blanking, discrete frequencies/
displayid 70120f03000a0004414231320b000548656c6c6f|  version 1.2, 15 bytes of data, a stand-alone display/  serial number: AB12/  text: Hello/
displayid 70121003000c000d15587f0737044e10011b1b0885|  version 1.2, 16 bytes of data, a stand-alone display/  display device, LCD, kind 5, transmissive, its own light, backlight can be switched, 1920x1080 pixels, aspect 1.7800, landscape, turns clockwise, first pixel upper left/  RGB vertical stripes, pitch 27 x 27 hundredths of 1 mm, 8 bits a colour, white to black in 5 ms/
displayid 70120903000d0006550a1432140a|  version 1.2, 9 bytes of data, a stand-alone display/  power sequencing, T1 from 5 tenths of 1 ms to 10 ms, T2 up to 20 ms, T3 up to 40 ms, T4 from 500 ms, T5 from 200 ms, T6 from 100 ms/
displayid 70120803000e0105c002100220|  version 1.2, 8 bytes of data, a stand-alone display/  data block 0e, revision and flags 01/  transfer characteristics, the first curve is white, a curve for each primary, then in hex 02100220/
displayid 70120d03000f000aa4120e06020114410000|  version 1.2, 13 bytes of data, a stand-alone display/  display interface, DisplayPort, links 4, version 1.2/  HDCP 1.4, down spread 1 tenths of 1 percent, RGB 8 10 12 bits, YCbCr 4:4:4 8 10 bits/  YCbCr 4:2:2 10 bits, then in hex 0000/
displayid 7012060300100103020101|  version 1.2, 6 bytes of data, a stand-alone display/  data block 10, revision and flags 01/  stereo interface, side by side, then in hex 01/
displayid 70120a030011000780007f0737043b|  version 1.2, 10 bytes of data, a stand-alone display/  1920x1080 at 60 Hz, CVT with reduced blanking of version 2, preferred/
displayid 701211030013000e330d027f8737841757002b2c0304|  version 1.2, 17 bytes of data, a stand-alone display/  1920x1080, 134452 kHz, h blanking low 23, offset low 87, width 44, +h, v blanking 45, offset 4, width 5, +v/
displayid 7020090300080002018125000101|  version 2.0, 9 bytes of data, a television/  timings by codes of CTA-861, then in hex 0181/  data block 25, then in hex 01/";

/// Each code and each bit of a section of DisplayID alone: what it is, its parameters, tiles, interfaces and timings (DisplayID 1.3,
/// sections 3 and 4; of version 2.0 its primary use cases).
const SECTION_BITS: &str = "\
displayid 7012000000|  version 1.2, 0 bytes of data, an extension/
displayid 7012000100|  version 1.2, 0 bytes of data, a test structure/
displayid 7012000200|  version 1.2, 0 bytes of data, a panel/
displayid 7012000300|  version 1.2, 0 bytes of data, a stand-alone display/
displayid 7012000400|  version 1.2, 0 bytes of data, a television receiver/
displayid 7012000500|  version 1.2, 0 bytes of data, a repeater/
displayid 7012000600|  version 1.2, 0 bytes of data, a direct drive monitor/
displayid 7012000700|  version 1.2, 0 bytes of data, product type 7 (reserved)/
displayid 7013000403|  version 1.3, 0 bytes of data, a television receiver, 3 further sections/
displayid 7020000000|  version 2.0, 0 bytes of data, an extension/
displayid 7020000100|  version 2.0, 0 bytes of data, a test structure/
displayid 7020000200|  version 2.0, 0 bytes of data, a generic display/
displayid 7020000300|  version 2.0, 0 bytes of data, a television/
displayid 7020000400|  version 2.0, 0 bytes of data, for desktop work/
displayid 7020000500|  version 2.0, 0 bytes of data, for desktop games/
displayid 7020000600|  version 2.0, 0 bytes of data, for presentations/
displayid 7020000700|  version 2.0, 0 bytes of data, for virtual reality/
displayid 7020000800|  version 2.0, 0 bytes of data, for augmented reality/
displayid 7020000900|  version 2.0, 0 bytes of data, use 9 (reserved)/
displayid 7020000302|  version 2.0, 0 bytes of data, a television, 2 further sections/
displayid 70120403007f0201aa|  version 1.2, 4 bytes of data, a stand-alone display/  data block 7f, revision and flags 02/  data block 7f, then in hex aa/
displayid 70120f030001000ce803c201000f700880784e79|  version 1.2, 15 bytes of data, a stand-alone display/  parameters, 1000 x 450 in tenths of 1 mm, 3840x2160 pixels, audio, gamma code 120, aspect 1.7800, native 10 bits a colour, overall 8 bits a colour/
displayid 70120f030001000ce803c201000f700840784e79|  version 1.2, 15 bytes of data, a stand-alone display/  parameters, 1000 x 450 in tenths of 1 mm, 3840x2160 pixels, separate audio, gamma code 120, aspect 1.7800, native 10 bits a colour, overall 8 bits a colour/
displayid 70120f030001000ce803c201000f700820784e79|  version 1.2, 15 bytes of data, a stand-alone display/  parameters, 1000 x 450 in tenths of 1 mm, 3840x2160 pixels, audio override, gamma code 120, aspect 1.7800, native 10 bits a colour, overall 8 bits a colour/
displayid 70120f030001000ce803c201000f700810784e79|  version 1.2, 15 bytes of data, a stand-alone display/  parameters, 1000 x 450 in tenths of 1 mm, 3840x2160 pixels, power management, gamma code 120, aspect 1.7800, native 10 bits a colour, overall 8 bits a colour/
displayid 70120f030001000ce803c201000f700808784e79|  version 1.2, 15 bytes of data, a stand-alone display/  parameters, 1000 x 450 in tenths of 1 mm, 3840x2160 pixels, fixed timing, gamma code 120, aspect 1.7800, native 10 bits a colour, overall 8 bits a colour/
displayid 70120f030001000ce803c201000f700804784e79|  version 1.2, 15 bytes of data, a stand-alone display/  parameters, 1000 x 450 in tenths of 1 mm, 3840x2160 pixels, fixed format, gamma code 120, aspect 1.7800, native 10 bits a colour, overall 8 bits a colour/
displayid 70120f030001000ce803c201000f700802784e79|  version 1.2, 15 bytes of data, a stand-alone display/  parameters, 1000 x 450 in tenths of 1 mm, 3840x2160 pixels, AI, gamma code 120, aspect 1.7800, native 10 bits a colour, overall 8 bits a colour/
displayid 70120f030001000ce803c201000f700801784e79|  version 1.2, 15 bytes of data, a stand-alone display/  parameters, 1000 x 450 in tenths of 1 mm, 3840x2160 pixels, deinterlacing, gamma code 120, aspect 1.7800, native 10 bits a colour, overall 8 bits a colour/
displayid 701210000012000d802010007f076f080102030405|  version 1.2, 16 bytes of data, an extension/  tiles, in one enclosure, 3 across, 1 down, column 2, row 1, 1920x2160 pixels, then in hex 0102030405/
displayid 701210000012000d402010007f076f080102030405|  version 1.2, 16 bytes of data, an extension/  tiles, with bezels, 3 across, 1 down, column 2, row 1, 1920x2160 pixels, then in hex 0102030405/
displayid 701210000012000d202010007f076f080102030405|  version 1.2, 16 bytes of data, an extension/  tiles, reserved bits 20, 3 across, 1 down, column 2, row 1, 1920x2160 pixels, then in hex 0102030405/
displayid 701210000012000d082010007f076f080102030405|  version 1.2, 16 bytes of data, an extension/  tiles, some alone at their place, 3 across, 1 down, column 2, row 1, 1920x2160 pixels, then in hex 0102030405/
displayid 701210000012000d102010007f076f080102030405|  version 1.2, 16 bytes of data, an extension/  tiles, some alone 2 (reserved), 3 across, 1 down, column 2, row 1, 1920x2160 pixels, then in hex 0102030405/
displayid 701210000012000d182010007f076f080102030405|  version 1.2, 16 bytes of data, an extension/  tiles, some alone 3 (reserved), 3 across, 1 down, column 2, row 1, 1920x2160 pixels, then in hex 0102030405/
displayid 701210000012000d012010007f076f080102030405|  version 1.2, 16 bytes of data, an extension/  tiles, one alone at its place, 3 across, 1 down, column 2, row 1, 1920x2160 pixels, then in hex 0102030405/
displayid 701210000012000d022010007f076f080102030405|  version 1.2, 16 bytes of data, an extension/  tiles, one alone scaled, 3 across, 1 down, column 2, row 1, 1920x2160 pixels, then in hex 0102030405/
displayid 701210000012000d032010007f076f080102030405|  version 1.2, 16 bytes of data, an extension/  tiles, one alone cloned, 3 across, 1 down, column 2, row 1, 1920x2160 pixels, then in hex 0102030405/
displayid 701210000012000d042010007f076f080102030405|  version 1.2, 16 bytes of data, an extension/  tiles, one alone 4 (reserved), 3 across, 1 down, column 2, row 1, 1920x2160 pixels, then in hex 0102030405/
displayid 70120603000f0003021401|  version 1.2, 6 bytes of data, a stand-alone display/  display interface, analog, links 2, version 1.4, then in hex 01/
displayid 70120603000f0003121401|  version 1.2, 6 bytes of data, a stand-alone display/  display interface, LVDS, links 2, version 1.4, then in hex 01/
displayid 70120603000f0003221401|  version 1.2, 6 bytes of data, a stand-alone display/  display interface, TMDS, links 2, version 1.4, then in hex 01/
displayid 70120603000f0003321401|  version 1.2, 6 bytes of data, a stand-alone display/  display interface, RSDS, links 2, version 1.4, then in hex 01/
displayid 70120603000f0003421401|  version 1.2, 6 bytes of data, a stand-alone display/  display interface, DVI-D, links 2, version 1.4, then in hex 01/
displayid 70120603000f0003521401|  version 1.2, 6 bytes of data, a stand-alone display/  display interface, DVI-I analog, links 2, version 1.4, then in hex 01/
displayid 70120603000f0003621401|  version 1.2, 6 bytes of data, a stand-alone display/  display interface, DVI-I digital, links 2, version 1.4, then in hex 01/
displayid 70120603000f0003721401|  version 1.2, 6 bytes of data, a stand-alone display/  display interface, HDMI-A, links 2, version 1.4, then in hex 01/
displayid 70120603000f0003821401|  version 1.2, 6 bytes of data, a stand-alone display/  display interface, HDMI-B, links 2, version 1.4, then in hex 01/
displayid 70120603000f0003921401|  version 1.2, 6 bytes of data, a stand-alone display/  display interface, MDDI, links 2, version 1.4, then in hex 01/
displayid 70120603000f0003a21401|  version 1.2, 6 bytes of data, a stand-alone display/  display interface, DisplayPort, links 2, version 1.4, then in hex 01/
displayid 70120603000f0003b21401|  version 1.2, 6 bytes of data, a stand-alone display/  display interface, a proprietary interface, links 2, version 1.4, then in hex 01/
displayid 70120603000f0003c21401|  version 1.2, 6 bytes of data, a stand-alone display/  display interface, interface 12 (reserved), links 2, version 1.4, then in hex 01/
displayid 70120603000f0003d21401|  version 1.2, 6 bytes of data, a stand-alone display/  display interface, interface 13 (reserved), links 2, version 1.4, then in hex 01/
displayid 70120603000f0003e21401|  version 1.2, 6 bytes of data, a stand-alone display/  display interface, interface 14 (reserved), links 2, version 1.4, then in hex 01/
displayid 70120603000f0003f21401|  version 1.2, 6 bytes of data, a stand-alone display/  display interface, interface 15 (reserved), links 2, version 1.4, then in hex 01/
displayid 70121700000300144cd00080ff0e9f002f801f006f083d0002000400|  version 1.2, 23 bytes of data, an extension/  3840x2160 at 59.997 Hz, 533.250 MHz, h blanking 160, offset 48, width 32, +h, v blanking 62, offset 3, width 5, -v, preferred, 1:1/
displayid 70121700000300144cd00020ff0e9f002f801f006f083d0002000400|  version 1.2, 23 bytes of data, an extension/  3840x2160 at 59.997 Hz, 533.250 MHz, h blanking 160, offset 48, width 32, +h, v blanking 62, offset 3, width 5, -v, stereo, 1:1/
displayid 70121700000300144cd00040ff0e9f002f801f006f083d0002000400|  version 1.2, 23 bytes of data, an extension/  3840x2160 at 59.997 Hz, 533.250 MHz, h blanking 160, offset 48, width 32, +h, v blanking 62, offset 3, width 5, -v, stereo by the user, 1:1/
displayid 70121700000300144cd00060ff0e9f002f801f006f083d0002000400|  version 1.2, 23 bytes of data, an extension/  3840x2160 at 59.997 Hz, 533.250 MHz, h blanking 160, offset 48, width 32, +h, v blanking 62, offset 3, width 5, -v, stereo 3 (reserved), 1:1/
displayid 70121700000300144cd00010ff0e9f002f801f006f083d0002000400|  version 1.2, 23 bytes of data, an extension/  3840x2160 at 59.997 Hz, 533.250 MHz, h blanking 160, offset 48, width 32, +h, v blanking 62, offset 3, width 5, -v, interlaced, 1:1/
displayid 70121700000300144cd00001ff0e9f002f801f006f083d0002000400|  version 1.2, 23 bytes of data, an extension/  3840x2160 at 59.997 Hz, 533.250 MHz, h blanking 160, offset 48, width 32, +h, v blanking 62, offset 3, width 5, -v, 5:4/
displayid 70121700000300144cd00002ff0e9f002f801f006f083d0002000400|  version 1.2, 23 bytes of data, an extension/  3840x2160 at 59.997 Hz, 533.250 MHz, h blanking 160, offset 48, width 32, +h, v blanking 62, offset 3, width 5, -v, 4:3/
displayid 70121700000300144cd00003ff0e9f002f801f006f083d0002000400|  version 1.2, 23 bytes of data, an extension/  3840x2160 at 59.997 Hz, 533.250 MHz, h blanking 160, offset 48, width 32, +h, v blanking 62, offset 3, width 5, -v, 15:9/
displayid 70121700000300144cd00004ff0e9f002f801f006f083d0002000400|  version 1.2, 23 bytes of data, an extension/  3840x2160 at 59.997 Hz, 533.250 MHz, h blanking 160, offset 48, width 32, +h, v blanking 62, offset 3, width 5, -v, 16:9/
displayid 70121700000300144cd00005ff0e9f002f801f006f083d0002000400|  version 1.2, 23 bytes of data, an extension/  3840x2160 at 59.997 Hz, 533.250 MHz, h blanking 160, offset 48, width 32, +h, v blanking 62, offset 3, width 5, -v, 16:10/
displayid 70121700000300144cd00006ff0e9f002f801f006f083d0002000400|  version 1.2, 23 bytes of data, an extension/  3840x2160 at 59.997 Hz, 533.250 MHz, h blanking 160, offset 48, width 32, +h, v blanking 62, offset 3, width 5, -v, 64:27/
displayid 70121700000300144cd00007ff0e9f002f801f006f083d0002000400|  version 1.2, 23 bytes of data, an extension/  3840x2160 at 59.997 Hz, 533.250 MHz, h blanking 160, offset 48, width 32, +h, v blanking 62, offset 3, width 5, -v, 256:135/
displayid 70121700000300144cd00009ff0e9f002f801f006f083d0002000400|  version 1.2, 23 bytes of data, an extension/  3840x2160 at 59.997 Hz, 533.250 MHz, h blanking 160, offset 48, width 32, +h, v blanking 62, offset 3, width 5, -v, aspect 9 (reserved)/";

/// Each bit of Dolby's video block alone, of versions 1 and 2, as `edid-decode` reads it.
const DOLBY_BITS: &str = "\
extended 0146d00040000000000101|  Dolby Vision version 2, display management 2.x, backlight from 25 cd/m2 on, up to 94 cd/m2, down to 0 cd/m2, low latency/  red 0.6250 0.2500, green 0.0000 0.5000, blue 0.1289 0.0352/
extended 0146d00044000000000101|  Dolby Vision version 2, display management 3.x, backlight from 25 cd/m2 on, up to 94 cd/m2, down to 0 cd/m2, low latency/  red 0.6250 0.2500, green 0.0000 0.5000, blue 0.1289 0.0352/
extended 0146d00041000000000101|  Dolby Vision version 2, display management 2.x, YCbCr 4:2:2 at 12 bits, backlight from 25 cd/m2 on, up to 94 cd/m2, down to 0 cd/m2, low latency/  red 0.6250 0.2500, green 0.0000 0.5000, blue 0.1289 0.0352/
extended 0146d00042000000000101|  Dolby Vision version 2, display management 2.x, backlight control, backlight from 25 cd/m2 on, up to 94 cd/m2, down to 0 cd/m2, low latency/  red 0.6250 0.2500, green 0.0000 0.5000, blue 0.1289 0.0352/
extended 0146d00040010000000101|  Dolby Vision version 2, display management 2.x, backlight from 50 cd/m2 on, up to 94 cd/m2, down to 0 cd/m2, low latency/  red 0.6250 0.2500, green 0.0000 0.5000, blue 0.1289 0.0352/
extended 0146d00040030000000101|  Dolby Vision version 2, display management 2.x, backlight from 100 cd/m2 on, up to 94 cd/m2, down to 0 cd/m2, low latency/  red 0.6250 0.2500, green 0.0000 0.5000, blue 0.1289 0.0352/
extended 0146d00040040000000101|  Dolby Vision version 2, display management 2.x, backlight from 25 cd/m2 on, global dimming, up to 94 cd/m2, down to 0 cd/m2, low latency/  red 0.6250 0.2500, green 0.0000 0.5000, blue 0.1289 0.0352/
extended 0146d00040080000000101|  Dolby Vision version 2, display management 2.x, backlight from 25 cd/m2 on, up to 94 cd/m2, down to 0.00064 cd/m2, low latency/  red 0.6250 0.2500, green 0.0000 0.5000, blue 0.1289 0.0352/
extended 0146d00040000800000101|  Dolby Vision version 2, display management 2.x, backlight from 25 cd/m2 on, up to 110 cd/m2, down to 0 cd/m2, low latency/  red 0.6250 0.2500, green 0.0000 0.5000, blue 0.1289 0.0352/
extended 0146d00040000100000101|  Dolby Vision version 2, display management 2.x, backlight from 25 cd/m2 on, up to 94 cd/m2, down to 0 cd/m2, low latency, also over HDMI/  red 0.6250 0.2500, green 0.0000 0.5000, blue 0.1289 0.0352/
extended 0146d00040000200000101|  Dolby Vision version 2, display management 2.x, backlight from 25 cd/m2 on, up to 94 cd/m2, down to 0 cd/m2, standard and low latency/  red 0.6250 0.2500, green 0.0000 0.5000, blue 0.1289 0.0352/
extended 0146d00040000300000101|  Dolby Vision version 2, display management 2.x, backlight from 25 cd/m2 on, up to 94 cd/m2, down to 0 cd/m2, standard and low latency, also over HDMI/  red 0.6250 0.2500, green 0.0000 0.5000, blue 0.1289 0.0352/
extended 0146d00040000400000101|  Dolby Vision version 2, display management 2.x, backlight from 25 cd/m2 on, up to 94 cd/m2, down to 0 cd/m2, low latency, reserved bits 04/  red 0.6250 0.2500, green 0.0000 0.5000, blue 0.1289 0.0352/
extended 0146d00040000001000101|  Dolby Vision version 2, display management 2.x, backlight from 25 cd/m2 on, up to 94 cd/m2, down to 0 cd/m2, low latency, 4:4:4 at 12 bits/  red 0.6250 0.2500, green 0.0000 0.5000, blue 0.1289 0.0352/
extended 0146d00040000000010101|  Dolby Vision version 2, display management 2.x, backlight from 25 cd/m2 on, up to 94 cd/m2, down to 0 cd/m2, low latency, 4:4:4 at 10 bits/  red 0.6250 0.2500, green 0.0000 0.5000, blue 0.1289 0.0352/
extended 0146d000268001684cfe98|  Dolby Vision version 1, display management 3.x, 2160p60, up to 3300 cd/m2, down to 0 cd/m2, near P3-D65/  standard latency, blue 0.1367 0.0391, green 0.1484 0.9961, red 0.6992 0.2500/
extended 0146d000268001694cfe98|  Dolby Vision version 1, display management 3.x, 2160p60, up to 3300 cd/m2, down to 0 cd/m2, near P3-D65/  standard and low latency, blue 0.1367 0.0391, green 0.1484 0.9961, red 0.6992 0.2500/
extended 0146d0002680016b4cfe98|  Dolby Vision version 1, display management 3.x, 2160p60, up to 3300 cd/m2, down to 0 cd/m2, near P3-D65/  latency 3 (reserved), blue 0.1367 0.0391, green 0.1484 0.9961, red 0.6992 0.2500/
extended 0146d000200000|  Dolby Vision version 1, display management 2.x, up to 100 cd/m2, down to 0 cd/m2, near BT.709/
extended 0146d000210000|  Dolby Vision version 1, display management 2.x, YCbCr 4:2:2 at 12 bits, up to 100 cd/m2, down to 0 cd/m2, near BT.709/
extended 0146d000220000|  Dolby Vision version 1, display management 2.x, 2160p60, up to 100 cd/m2, down to 0 cd/m2, near BT.709/
extended 0146d000200100|  Dolby Vision version 1, display management 2.x, global dimming, up to 100 cd/m2, down to 0 cd/m2, near BT.709/
extended 0146d00040080800000101|  Dolby Vision version 2, display management 2.x, backlight from 25 cd/m2 on, up to 110 cd/m2, down to 0.00064 cd/m2, low latency/  red 0.6250 0.2500, green 0.0000 0.5000, blue 0.1289 0.0352/
extended 0146d00040101000000101|  Dolby Vision version 2, display management 2.x, backlight from 25 cd/m2 on, up to 129 cd/m2, down to 0.0022 cd/m2, low latency/  red 0.6250 0.2500, green 0.0000 0.5000, blue 0.1289 0.0352/
extended 0146d00040181800000101|  Dolby Vision version 2, display management 2.x, backlight from 25 cd/m2 on, up to 150 cd/m2, down to 0.0047 cd/m2, low latency/  red 0.6250 0.2500, green 0.0000 0.5000, blue 0.1289 0.0352/
extended 0146d00040202000000101|  Dolby Vision version 2, display management 2.x, backlight from 25 cd/m2 on, up to 175 cd/m2, down to 0.0083 cd/m2, low latency/  red 0.6250 0.2500, green 0.0000 0.5000, blue 0.1289 0.0352/
extended 0146d00040282800000101|  Dolby Vision version 2, display management 2.x, backlight from 25 cd/m2 on, up to 204 cd/m2, down to 0.013 cd/m2, low latency/  red 0.6250 0.2500, green 0.0000 0.5000, blue 0.1289 0.0352/
extended 0146d00040303000000101|  Dolby Vision version 2, display management 2.x, backlight from 25 cd/m2 on, up to 237 cd/m2, down to 0.019 cd/m2, low latency/  red 0.6250 0.2500, green 0.0000 0.5000, blue 0.1289 0.0352/
extended 0146d00040383800000101|  Dolby Vision version 2, display management 2.x, backlight from 25 cd/m2 on, up to 276 cd/m2, down to 0.026 cd/m2, low latency/  red 0.6250 0.2500, green 0.0000 0.5000, blue 0.1289 0.0352/
extended 0146d00040404000000101|  Dolby Vision version 2, display management 2.x, backlight from 25 cd/m2 on, up to 320 cd/m2, down to 0.035 cd/m2, low latency/  red 0.6250 0.2500, green 0.0000 0.5000, blue 0.1289 0.0352/
extended 0146d00040484800000101|  Dolby Vision version 2, display management 2.x, backlight from 25 cd/m2 on, up to 372 cd/m2, down to 0.045 cd/m2, low latency/  red 0.6250 0.2500, green 0.0000 0.5000, blue 0.1289 0.0352/
extended 0146d00040505000000101|  Dolby Vision version 2, display management 2.x, backlight from 25 cd/m2 on, up to 431 cd/m2, down to 0.057 cd/m2, low latency/  red 0.6250 0.2500, green 0.0000 0.5000, blue 0.1289 0.0352/
extended 0146d00040585800000101|  Dolby Vision version 2, display management 2.x, backlight from 25 cd/m2 on, up to 499 cd/m2, down to 0.071 cd/m2, low latency/  red 0.6250 0.2500, green 0.0000 0.5000, blue 0.1289 0.0352/
extended 0146d00040606000000101|  Dolby Vision version 2, display management 2.x, backlight from 25 cd/m2 on, up to 578 cd/m2, down to 0.086 cd/m2, low latency/  red 0.6250 0.2500, green 0.0000 0.5000, blue 0.1289 0.0352/
extended 0146d00040686800000101|  Dolby Vision version 2, display management 2.x, backlight from 25 cd/m2 on, up to 670 cd/m2, down to 0.104 cd/m2, low latency/  red 0.6250 0.2500, green 0.0000 0.5000, blue 0.1289 0.0352/
extended 0146d00040707000000101|  Dolby Vision version 2, display management 2.x, backlight from 25 cd/m2 on, up to 775 cd/m2, down to 0.125 cd/m2, low latency/  red 0.6250 0.2500, green 0.0000 0.5000, blue 0.1289 0.0352/
extended 0146d00040787800000101|  Dolby Vision version 2, display management 2.x, backlight from 25 cd/m2 on, up to 897 cd/m2, down to 0.147 cd/m2, low latency/  red 0.6250 0.2500, green 0.0000 0.5000, blue 0.1289 0.0352/
extended 0146d00040808000000101|  Dolby Vision version 2, display management 2.x, backlight from 25 cd/m2 on, up to 1037 cd/m2, down to 0.173 cd/m2, low latency/  red 0.6250 0.2500, green 0.0000 0.5000, blue 0.1289 0.0352/
extended 0146d00040888800000101|  Dolby Vision version 2, display management 2.x, backlight from 25 cd/m2 on, up to 1200 cd/m2, down to 0.201 cd/m2, low latency/  red 0.6250 0.2500, green 0.0000 0.5000, blue 0.1289 0.0352/
extended 0146d00040909000000101|  Dolby Vision version 2, display management 2.x, backlight from 25 cd/m2 on, up to 1387 cd/m2, down to 0.233 cd/m2, low latency/  red 0.6250 0.2500, green 0.0000 0.5000, blue 0.1289 0.0352/
extended 0146d00040989800000101|  Dolby Vision version 2, display management 2.x, backlight from 25 cd/m2 on, up to 1605 cd/m2, down to 0.267 cd/m2, low latency/  red 0.6250 0.2500, green 0.0000 0.5000, blue 0.1289 0.0352/
extended 0146d00040a0a000000101|  Dolby Vision version 2, display management 2.x, backlight from 25 cd/m2 on, up to 1856 cd/m2, down to 0.305 cd/m2, low latency/  red 0.6250 0.2500, green 0.0000 0.5000, blue 0.1289 0.0352/
extended 0146d00040a8a800000101|  Dolby Vision version 2, display management 2.x, backlight from 25 cd/m2 on, up to 2147 cd/m2, down to 0.347 cd/m2, low latency/  red 0.6250 0.2500, green 0.0000 0.5000, blue 0.1289 0.0352/
extended 0146d00040b0b000000101|  Dolby Vision version 2, display management 2.x, backlight from 25 cd/m2 on, up to 2485 cd/m2, down to 0.393 cd/m2, low latency/  red 0.6250 0.2500, green 0.0000 0.5000, blue 0.1289 0.0352/
extended 0146d00040b8b800000101|  Dolby Vision version 2, display management 2.x, backlight from 25 cd/m2 on, up to 2876 cd/m2, down to 0.443 cd/m2, low latency/  red 0.6250 0.2500, green 0.0000 0.5000, blue 0.1289 0.0352/
extended 0146d00040c0c000000101|  Dolby Vision version 2, display management 2.x, backlight from 25 cd/m2 on, up to 3330 cd/m2, down to 0.497 cd/m2, low latency/  red 0.6250 0.2500, green 0.0000 0.5000, blue 0.1289 0.0352/
extended 0146d00040c8c800000101|  Dolby Vision version 2, display management 2.x, backlight from 25 cd/m2 on, up to 3857 cd/m2, down to 0.556 cd/m2, low latency/  red 0.6250 0.2500, green 0.0000 0.5000, blue 0.1289 0.0352/
extended 0146d00040d0d000000101|  Dolby Vision version 2, display management 2.x, backlight from 25 cd/m2 on, up to 4470 cd/m2, down to 0.621 cd/m2, low latency/  red 0.6250 0.2500, green 0.0000 0.5000, blue 0.1289 0.0352/
extended 0146d00040d8d800000101|  Dolby Vision version 2, display management 2.x, backlight from 25 cd/m2 on, up to 5183 cd/m2, down to 0.690 cd/m2, low latency/  red 0.6250 0.2500, green 0.0000 0.5000, blue 0.1289 0.0352/
extended 0146d00040e0e000000101|  Dolby Vision version 2, display management 2.x, backlight from 25 cd/m2 on, up to 6014 cd/m2, down to 0.766 cd/m2, low latency/  red 0.6250 0.2500, green 0.0000 0.5000, blue 0.1289 0.0352/
extended 0146d00040e8e800000101|  Dolby Vision version 2, display management 2.x, backlight from 25 cd/m2 on, up to 6982 cd/m2, down to 0.847 cd/m2, low latency/  red 0.6250 0.2500, green 0.0000 0.5000, blue 0.1289 0.0352/
extended 0146d00040f0f000000101|  Dolby Vision version 2, display management 2.x, backlight from 25 cd/m2 on, up to 8113 cd/m2, down to 0.935 cd/m2, low latency/  red 0.6250 0.2500, green 0.0000 0.5000, blue 0.1289 0.0352/
extended 0146d00040f8f800000101|  Dolby Vision version 2, display management 2.x, backlight from 25 cd/m2 on, up to 9434 cd/m2, down to 1.029 cd/m2, low latency/  red 0.6250 0.2500, green 0.0000 0.5000, blue 0.1289 0.0352/
extended 0146d000200002|  Dolby Vision version 1, display management 2.x, up to 100 cd/m2, down to 0.000062 cd/m2, near BT.709/
extended 0146d000200006|  Dolby Vision version 1, display management 2.x, up to 100 cd/m2, down to 0.00056 cd/m2, near BT.709/
extended 0146d000200018|  Dolby Vision version 1, display management 2.x, up to 100 cd/m2, down to 0.0089 cd/m2, near BT.709/
extended 0146d00020001a|  Dolby Vision version 1, display management 2.x, up to 100 cd/m2, down to 0.010 cd/m2, near BT.709/
extended 0146d0002000fc|  Dolby Vision version 1, display management 2.x, up to 100 cd/m2, down to 0.984 cd/m2, near BT.709/
extended 0146d0002000fe|  Dolby Vision version 1, display management 2.x, up to 100 cd/m2, down to 1.000 cd/m2, near BT.709/
extended 060000780001|  static HDR metadata/  content up to 673 cd/m2, down to 0.00010 cd/m2/
extended 060000780003|  static HDR metadata/  content up to 673 cd/m2, down to 0.00093 cd/m2/
extended 060000780004|  static HDR metadata/  content up to 673 cd/m2, down to 0.0017 cd/m2/
extended 06000078000a|  static HDR metadata/  content up to 673 cd/m2, down to 0.010 cd/m2/
extended 0600007800ff|  static HDR metadata/  content up to 673 cd/m2, down to 6.727 cd/m2/
vendor 1a0000020128900000735a082f|  AMD FreeSync version 2.1, from 40 Hz to 144 Hz, up to 604 cd/m2, down to 0.752 cd/m2, byte 9 is 08, byte 10 is 2f/
vendor 1a000002012890e601735a0000|  AMD FreeSync version 2.1, from 40 Hz to 144 Hz, by MCCS with VCP code e6, other bits of byte 6 are 01, up to 604 cd/m2, down to 0.752 cd/m2/
extended 0146d000200200|  Dolby Vision version 1, display management 2.x, up to 150 cd/m2, down to 0 cd/m2, near BT.709/";

fn are_reported(rt: &(impl Abort + AllocGlobal), rows: &str) {
    for row in rows.lines() {
        let (block, want) = row.split_once('|').expect(rt, "a row");
        let lines = reported(rt, block);
        assert_eq!(rt; lines.as_str(), want, "{block}");
    }
}

#[test]
fn blocks_are_reported(rt: HostRuntime) {
    are_reported(&rt, ROWS);
}

#[test]
fn sections_are_reported(rt: HostRuntime) {
    are_reported(&rt, SECTIONS);
}

#[test]
fn each_bit_is_reported(rt: HostRuntime) {
    are_reported(&rt, EXTENDED_BITS);
    are_reported(&rt, FORUM_BITS);
    are_reported(&rt, SECTION_BITS);
    are_reported(&rt, SECTION_CODES);
    are_reported(&rt, DOLBY_BITS);
}

/// Codes and their luminances, as `edid-decode` prints them, to the whole number.
const LUMINANCES: &[(u8, u16)] = &[
    (0, 50),
    (1, 51),
    (32, 100),
    (90, 351),
    (96, 400),
    (115, 604),
    (138, 993),
    (255, 12526),
];

#[test]
fn luminances_are_reported(rt: HostRuntime) {
    for (code, want) in LUMINANCES {
        assert_eq!(rt; luminance(*code), *want);
    }
}

/// Blocks of displays and receivers whose every bit is told.
const TOLD: &str = "\
vendor d85dc401788003
extended 00cf
extended 05c000
extended 060d01
extended 0f030018
extended 0146d00024180900ad5244a9230c
extended 1146d0007000
vendor d85dc40178ff6fff3090ff6310
vendor 1a0000020128900004735a2014
extended 018b849001
extended 0146d000480a9d4a665d4a
extended 0146d0002680016a4cfe98
extended 060f01735a14
extended 7803
extended 0d8291
displayid 70121700000300144cd00084ff0e9f002f801f006f083d0002000400
displayid 70120f030001000ce803c201000f700891784e79
displayid 70120703000f0004a4120103
displayid 701214000012000d6a3221c57f076f08010000000001000101
vendor 5c12ca02e5000102030405060708090a0b0c0d0e0f
vendor 5c12ca01
vendor d85dc401
vendor 1a00000201289000
extended 00cf01
extended 05c00001
extended 060d
extended 060d0180
extended 060f01735a1455
extended 0146d00001a5
extended 018b8490017f
extended 02aa55
extended 0355
extended 070401000201
extended 08105500
extended 0daa55
extended 0e6160df
extended 0f0102030405060708090a0b0c0d0e0f1011
extended 1146d00070
extended 1146d000700055
extended 1201000000
extended 13cfffffff
extended 146001
extended 2040aa
extended 220055aa
extended 230055
extended 2a00aa55
extended 780301
extended 79000001788003";

/// The bits of a byte.
const WEIGHTS: &[u8] = &[1, 2, 4, 8, 16, 32, 64, 128];

/// Where the bytes begin that a block's maker or tag does not take.
fn own_bytes(word: &str, bytes: &[u8]) -> usize {
    match bytes.first() {
        Some(1 | 0x11) if word == "extended" => 4,
        _ if word != "vendor" => 1,
        _ => 3,
    }
}

/// A block's lines are others once a bit of it is flipped.
fn are_told(rt: &(impl Abort + AllocGlobal), block: &str) {
    let (word, digits) = block.split_once(' ').expect(rt, "a block");
    let bytes = hex::decode(rt.alloc(), digits).expect(rt, "hex digits");
    let lines = reported(rt, block);
    for place in own_bytes(word, &bytes)..bytes.len() {
        for weight in WEIGHTS {
            let mut other = hex::decode(rt.alloc(), digits).expect(rt, "hex digits");
            if let Some(byte) = other.get_mut(place) {
                *byte ^= *weight;
            }
            let digits = hex::encode(rt.alloc(), &other).expect(rt, "memory");
            let flipped = format!(in rt.alloc(); "{word} {digits}").expect(rt, "memory");
            assert!(rt; reported(rt, &flipped) != lines, "{flipped}");
        }
    }
}

#[test]
fn each_bit_is_told(rt: HostRuntime) {
    for block in TOLD.lines() {
        are_told(&rt, block);
    }
}
