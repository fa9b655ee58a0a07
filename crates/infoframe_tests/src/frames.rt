//! InfoFrames against EDIDs, in rows by hand: values of CTA-861-H, section 6, HDMI 1.4b, section 8.2.3, and HDMI 2.1 (the HDMI Forum's
//! Vendor-Specific InfoFrame).
use crate::displays::display;
use infoframe_check::write_infoframe;
use infoframe_tables::InfoFrame;
use record_core::Form;
use std::process::Abort;
use text_core::Writes;

/// A display, an InfoFrame, what is written of it but its fields, with `/` for each line feed but the last, and whether all is right.
const ROWS: &str = "\
lg|82020d2710280010000000000000000000|avi type 82 version 2 length 13 checksum 27 right cut 0 left 0|yes
lg|82020d8820a8001f000000000000000000|avi type 82 version 2 length 13 checksum 88 right cut 0 left 0|yes
lg|82020dd540580002000000000000000000|avi type 82 version 2 length 13 checksum d5 right cut 0 left 0|yes
lg|82020d0660a80061000000000000000000|avi type 82 version 2 length 13 checksum 06 right cut 0 left 0|yes
lg|82020dff60000010000000000000000000|avi type 82 version 2 length 13 checksum ff right cut 0 left 0/not offered: YCbCr 4:2:0 of video code 16|no
lounge|82020dae60000061000000000000000000|avi type 82 version 2 length 13 checksum ae right cut 0 left 0/not offered: YCbCr 4:2:0 of video code 97|no
lounge|82020d0f60000000000000000000000000|avi type 82 version 2 length 13 checksum 0f right cut 0 left 0/not offered: YCbCr 4:2:0|no
lg|82020d0f60000000000000000000000000|avi type 82 version 2 length 13 checksum 0f right cut 0 left 0|yes
lg|82020d040000006b000000000000000000|avi type 82 version 2 length 13 checksum 04 right cut 0 left 0/not offered: video code 107|no
lg|82020d6e00000001000000000000000000|avi type 82 version 2 length 13 checksum 6e right cut 0 left 0|yes
lounge|82020d6e00000001000000000000000000|avi type 82 version 2 length 13 checksum 6e right cut 0 left 0|yes
lounge|82020d5f00000010000000000000000000|avi type 82 version 2 length 13 checksum 5f right cut 0 left 0|yes
lounge|82020d0e00000061000000000000000000|avi type 82 version 2 length 13 checksum 0e right cut 0 left 0/not offered: video code 97|no
lg|82030da7000000c7000000000000000000|avi type 82 version 3 length 13 checksum a7 right cut 0 left 0/not offered: video code 199|no
lg|82020dee00c06061000000000000000000|avi type 82 version 2 length 13 checksum ee right cut 0 left 0|yes
lg|82020dce20c06061000000000000000000|avi type 82 version 2 length 13 checksum ce right cut 0 left 0|yes
lg|82020dde20c05061000000000000000000|avi type 82 version 2 length 13 checksum de right cut 0 left 0/not offered: colorimetry BT2020cYCC|no
lg|82020d2e20c00061000000000000000000|avi type 82 version 2 length 13 checksum 2e right cut 0 left 0/not offered: colorimetry xvYCC601|no
lg|82020d1e20c01061000000000000000000|avi type 82 version 2 length 13 checksum 1e right cut 0 left 0/not offered: colorimetry xvYCC709|no
lg|82020d0e20c02061000000000000000000|avi type 82 version 2 length 13 checksum 0e right cut 0 left 0/not offered: colorimetry sYCC601|no
lg|82020dfe20c03061000000000000000000|avi type 82 version 2 length 13 checksum fe right cut 0 left 0/not offered: colorimetry opYCC601|no
lg|82020d0e00c04061000000000000000000|avi type 82 version 2 length 13 checksum 0e right cut 0 left 0/not offered: colorimetry opRGB|no
lounge|82020d3f00c06010000000000000000000|avi type 82 version 2 length 13 checksum 3f right cut 0 left 0/not offered: colorimetry BT2020RGB|no
lounge|82020dff40c06010000000000000000000|avi type 82 version 2 length 13 checksum ff right cut 0 left 0/not offered: colorimetry BT2020YCC|no
lg|82040edb00c0706100000000000000000000|avi type 82 version 4 length 14 checksum db right cut 0 left 0/not offered: colorimetry DCI-P3|no
lg|82040ebb00c0706100000000000000000020|avi type 82 version 4 length 14 checksum bb right cut 0 left 0/not offered: colorimetry ICtCp|no
lg|82040eab00c0706100000000000000000030|avi type 82 version 4 length 14 checksum ab right cut 0 left 0/not offered: colorimetry sRGB|no
lg|82040e9b00c0706100000000000000000040|avi type 82 version 4 length 14 checksum 9b right cut 0 left 0/not offered: colorimetry default RGB|no
lg|82020dde00c07061000000000000000000|avi type 82 version 2 length 13 checksum de right cut 0 left 0|no
lg|82020d5700000810000000000000000000|avi type 82 version 2 length 13 checksum 57 right cut 0 left 0|yes
lg|82020d5b00000410000000000000000000|avi type 82 version 2 length 13 checksum 5b right cut 0 left 0|yes
lounge|82020d5700000810000000000000000000|avi type 82 version 2 length 13 checksum 57 right cut 0 left 0|yes
plain|82020d6600000801000000000000000000|avi type 82 version 2 length 13 checksum 66 right cut 0 left 0|yes
plain|82020d6a00000401000000000000000000|avi type 82 version 2 length 13 checksum 6a right cut 0 left 0/not offered: RGB range selectable|no
lounge|82020dff20000010400000000000000000|avi type 82 version 2 length 13 checksum ff right cut 0 left 0/not offered: YCC range selectable|no
lg|82020dff20000010400000000000000000|avi type 82 version 2 length 13 checksum ff right cut 0 left 0|yes
plain|82020d4e20000001000000000000000000|avi type 82 version 2 length 13 checksum 4e right cut 0 left 0/not offered: YCbCr 4:2:2|no
plain|82020d2e40000001000000000000000000|avi type 82 version 2 length 13 checksum 2e right cut 0 left 0/not offered: YCbCr 4:4:4|no
lg|82020ddf80000010000000000000000000|avi type 82 version 2 length 13 checksum df right cut 0 left 0|no
lg|82020d7fe0000010000000000000000000|avi type 82 version 2 length 13 checksum 7f right cut 0 left 0|yes
lg|82020d6000000010000000000000000000|avi type 82 version 2 length 13 checksum 60 wrong due 5f cut 0 left 0|no
lg|82020d5f000000100000000000000000|avi type 82 version 2 length 13 checksum 5f right cut 1 left 0|no
lg|82020d5f000000100000000000000000000000|avi type 82 version 2 length 13 checksum 5f right cut 0 left 2|no
lg|87011a5c0200000000000000000000000000000000000000000000000000|hdr type 87 version 1 length 26 checksum 5c right cut 0 left 0|yes
lg|87011a5e0000000000000000000000000000000000000000000000000000|hdr type 87 version 1 length 26 checksum 5e right cut 0 left 0|yes
lg|87011a5b0300000000000000000000000000000000000000000000000000|hdr type 87 version 1 length 26 checksum 5b right cut 0 left 0|yes
lg|87011a5d0100000000000000000000000000000000000000000000000000|hdr type 87 version 1 length 26 checksum 5d right cut 0 left 0/not offered: EOTF traditional gamma HDR|no
lounge|87011a5c0200000000000000000000000000000000000000000000000000|hdr type 87 version 1 length 26 checksum 5c right cut 0 left 0/not offered: EOTF SMPTE ST 2084/not offered: static metadata type 1|no
lounge|87011a5e0000000000000000000000000000000000000000000000000000|hdr type 87 version 1 length 26 checksum 5e right cut 0 left 0/not offered: EOTF traditional gamma SDR/not offered: static metadata type 1|no
lounge|87011a5b0300000000000000000000000000000000000000000000000000|hdr type 87 version 1 length 26 checksum 5b right cut 0 left 0/not offered: EOTF hybrid log-gamma/not offered: static metadata type 1|no
lg|87011a5a0400000000000000000000000000000000000000000000000000|hdr type 87 version 1 length 26 checksum 5a right cut 0 left 0|no
lg|87011a5b0201000000000000000000000000000000000000000000000000|hdr type 87 version 1 length 26 checksum 5b right cut 0 left 0|no
lg|84010a7001000000000000000000|audio type 84 version 1 length 10 checksum 70 right cut 0 left 0|yes
lg|84010a6c05000000000000000000|audio type 84 version 1 length 10 checksum 6c right cut 0 left 0|yes
lg|84010a6a07000000000000000000|audio type 84 version 1 length 10 checksum 6a right cut 0 left 0/not offered: audio channels 8|no
lg|84010a5c15000000000000000000|audio type 84 version 1 length 10 checksum 5c right cut 0 left 0/not offered: audio channels 6|no
lg|84010a40250c0000000000000000|audio type 84 version 1 length 10 checksum 40 right cut 0 left 0|yes
lg|84010a3825140000000000000000|audio type 84 version 1 length 10 checksum 38 right cut 0 left 0/not offered: audio sampling frequency in Hz 96000|no
lg|84010a4d11130000000000000000|audio type 84 version 1 length 10 checksum 4d right cut 0 left 0/not offered: audio sampling frequency in Hz 88200/not offered: audio sample size in bits 24|no
lg|84010a41111f0000000000000000|audio type 84 version 1 length 10 checksum 41 right cut 0 left 0|yes
lg|84010acca5000000000000000000|audio type 84 version 1 length 10 checksum cc right cut 0 left 0/not offered: audio coding 10/not offered: audio channels 6|no
lg|84010a7df0000400000000000000|audio type 84 version 1 length 10 checksum 7d right cut 0 left 0/not offered: audio coding extension 4|no
lg|84010a81f0000000000000000000|audio type 84 version 1 length 10 checksum 81 right cut 0 left 0|yes
plain|84010a7001000000000000000000|audio type 84 version 1 length 10 checksum 70 right cut 0 left 0/not offered: audio channels 2|no
lounge|84010a5b11050000000000000000|audio type 84 version 1 length 10 checksum 5b right cut 0 left 0|yes
lg|84010a3e01000032000000000000|audio type 84 version 1 length 10 checksum 3e right cut 0 left 0|no
lg|81010549030c002001|hdmi type 81 version 1 length 5 checksum 49 right cut 0 left 0|yes
lg|81010546030c002004|hdmi type 81 version 1 length 5 checksum 46 right cut 0 left 0|yes
lounge|81010549030c002001|hdmi type 81 version 1 length 5 checksum 49 right cut 0 left 0/not offered: HDMI_VIC 1|no
lg|81010545030c002005|hdmi type 81 version 1 length 5 checksum 45 right cut 0 left 0/not offered: HDMI_VIC 5|no
lg|8101046b030c0000|hdmi type 81 version 1 length 4 checksum 6b right cut 0 left 0|yes
lg|8101052a030c004000|hdmi type 81 version 1 length 5 checksum 2a right cut 0 left 0/not offered: 3D_Structure 0|no
lg|810106a9030c00408000|hdmi type 81 version 1 length 6 checksum a9 right cut 0 left 0/not offered: 3D_Structure 8|no
lg|810105aa030c004080|hdmi type 81 version 1 length 5 checksum aa right cut 1 left 0/not offered: 3D_Structure 8|no
lg|8101040b030c0060|hdmi type 81 version 1 length 4 checksum 0b right cut 0 left 0|no
lg|81010548030c002101|hdmi type 81 version 1 length 5 checksum 48 right cut 0 left 0|no
lg|8101057fd85dc40100|hdmi-forum type 81 version 1 length 5 checksum 7f right cut 0 left 0|yes
lg|8101057dd85dc40102|hdmi-forum type 81 version 1 length 5 checksum 7d right cut 0 left 0/not offered: ALLM|no
lg|8101056fd85dc40110|hdmi-forum type 81 version 1 length 5 checksum 6f right cut 0 left 0/not offered: CCBPCI|no
lg|8101057bd85dc40104|hdmi-forum type 81 version 1 length 5 checksum 7b right cut 0 left 0|no
lg|8101061dd85dc4010160|hdmi-forum type 81 version 1 length 6 checksum 1d right cut 0 left 0/not offered: 3D_Structure 6|no
stereo|8101052a030c004000|hdmi type 81 version 1 length 5 checksum 2a right cut 0 left 0|yes
stereo|810105ca030c004060|hdmi type 81 version 1 length 5 checksum ca right cut 0 left 0|yes
stereo|81010699030c00408010|hdmi type 81 version 1 length 6 checksum 99 right cut 0 left 0|yes
stereo|8101050a030c004020|hdmi type 81 version 1 length 5 checksum 0a right cut 0 left 0|yes
stereo|810105fa030c004030|hdmi type 81 version 1 length 5 checksum fa right cut 0 left 0|yes
stereo|810105da030c004050|hdmi type 81 version 1 length 5 checksum da right cut 0 left 0|yes
stereo|810105ea030c004040|hdmi type 81 version 1 length 5 checksum ea right cut 0 left 0/not offered: 3D_Structure 4|no
stereo|8101051a030c004010|hdmi type 81 version 1 length 5 checksum 1a right cut 0 left 0/not offered: 3D_Structure 1|no
stereo|8101057dd85dc40102|hdmi-forum type 81 version 1 length 5 checksum 7d right cut 0 left 0|yes
stereo|8101052dd85dc40152|hdmi-forum type 81 version 1 length 5 checksum 2d right cut 0 left 0|yes
stereo|8101061bd85dc4010360|hdmi-forum type 81 version 1 length 6 checksum 1b right cut 0 left 0|yes
stereo|82020dae60000061000000000000000000|avi type 82 version 2 length 13 checksum ae right cut 0 left 0|yes
stereo|82020d0e00000061000000000000000000|avi type 82 version 2 length 13 checksum 0e right cut 0 left 0/not offered: video code 97|no
stereo|82020d3f00c06010000000000000000000|avi type 82 version 2 length 13 checksum 3f right cut 0 left 0|yes
stereo|82040e2c00c0701000000000000000000000|avi type 82 version 4 length 14 checksum 2c right cut 0 left 0|yes
stereo|82020d1f20c06010000000000000000000|avi type 82 version 2 length 13 checksum 1f right cut 0 left 0/not offered: YCbCr 4:2:2/not offered: colorimetry BT2020YCC|no
stereo|84010a74f1080400000000000000|audio type 84 version 1 length 10 checksum 74 right cut 0 left 0|yes
stereo|84010a7cf0000500000000000000|audio type 84 version 1 length 10 checksum 7c right cut 0 left 0/not offered: audio coding extension 5|no
plain|82020d5f00000010000000000000000000|avi type 82 version 2 length 13 checksum 5f right cut 0 left 0|yes
plain|82020d6b00000004000000000000000000|avi type 82 version 2 length 13 checksum 6b right cut 0 left 0|yes
plain|82020d500000001f000000000000000000|avi type 82 version 2 length 13 checksum 50 right cut 0 left 0/not offered: video code 31|no
plain|82020d6a00000005000000000000000000|avi type 82 version 2 length 13 checksum 6a right cut 0 left 0/not offered: video code 5|no
plain|82020d4d00000022000000000000000000|avi type 82 version 2 length 13 checksum 4d right cut 0 left 0/not offered: video code 34|no
lg|810105da8b84900000|vendor type 81 version 1 length 5 checksum da right cut 0 left 0|yes
lg|8301190a41414141414141414141414141414141414141414141414141|other type 83 version 1 length 25 checksum 0a right cut 0 left 0|yes
lg|050100fa|other type 05 version 1 length 0 checksum fa right cut 0 left 0|no
";

/// What is written of an InfoFrame in hex, and whether all is right.
pub(crate) fn written(
    rt: &(impl Abort + AllocGlobal),
    name: &str,
    hex: &str,
    form: Form,
) -> (String, bool) {
    let edid = display(rt, name);
    let frame = InfoFrame::read(hex.as_bytes()).expect(rt, "an InfoFrame");
    let mut text = Vec::new(rt.alloc());
    let right = write_infoframe(
        &edid.base,
        edid.extensions.as_slice(),
        &frame,
        form,
        &mut Writes::new(&mut text),
    )
    .expect(rt, "room");
    (String::from_utf8(text).expect(rt, "a text"), right)
}

fn is_field(line: &str) -> bool {
    line.starts_with("HB") || line.starts_with("PB")
}

/// The lines but those of fields, with `/` between them, and the verdict.
fn told(rt: &(impl Abort + AllocGlobal), name: &str, hex: &str) -> String {
    let (text, right) = written(rt, name, hex, Form::Text);
    let mut told = String::new(rt.alloc());
    for line in text.lines() {
        if !is_field(line) {
            if !told.is_empty() {
                told.push('/').expect(rt, "memory");
            }
            told.push_str(line).expect(rt, "memory");
        }
    }
    told.push_str(if right { "|yes" } else { "|no" })
        .expect(rt, "memory");
    told
}

#[test]
fn displays_offer_what_is_said(rt: HostRuntime) {
    for row in ROWS.lines() {
        let (name, rest) = row.split_once('|').expect(&rt, row);
        let (hex, want) = rest.split_once('|').expect(&rt, row);
        assert!(rt; told(&rt, name, hex).as_str() == want, "{row}");
    }
}

/// The fields of an AVI InfoFrame in YCbCr 4:2:2, of version 2.
const FIELDS: &str = "\
avi type 82 version 2 length 13 checksum 88 right cut 0 left 0
HB0 bits 7-0 InfoFrame type 130 AVI
HB1 bits 7-0 version 2
HB2 bits 7-5 reserved 0
HB2 bits 4-0 length 13
PB0 bits 7-0 checksum 136
PB1 bits 7-5 Y 1 YCbCr 4:2:2
PB1 bits 4-4 A 0
PB1 bits 3-2 B 0
PB1 bits 1-0 S 0
PB2 bits 7-6 C 2 ITU-R BT.709
PB2 bits 5-4 M 2 16:9
PB2 bits 3-0 R 8 as the picture
PB3 bits 7-7 ITC 0
PB3 bits 6-4 EC 0
PB3 bits 3-2 Q 0
PB3 bits 1-0 SC 0
PB4 bits 7-7 reserved 0
PB4 bits 6-0 VIC 31
PB5 bits 7-6 YQ 0 limited range
PB5 bits 5-4 CN 0
PB5 bits 3-0 PR 0
PB6 bits 7-0 line number of end of top bar, bits 7 to 0 0
PB7 bits 7-0 line number of end of top bar, bits 15 to 8 0
PB8 bits 7-0 line number of start of bottom bar, bits 7 to 0 0
PB9 bits 7-0 line number of start of bottom bar, bits 15 to 8 0
PB10 bits 7-0 pixel number of end of left bar, bits 7 to 0 0
PB11 bits 7-0 pixel number of end of left bar, bits 15 to 8 0
PB12 bits 7-0 pixel number of start of right bar, bits 7 to 0 0
PB13 bits 7-0 pixel number of start of right bar, bits 15 to 8 0
";

/// An InfoFrame of the HDMI Forum with ALLM, whose bit 2 of PB5 is reserved, as objects.
const OBJECTS: &str = "\
{\"line\":\"hdmi-forum type 81 version 1 length 5 checksum 7d wrong due 79 cut 0 left 0\",\"type\":\"infoframe\",\"kind\":\"hdmi-forum\",\"packet_type\":\"81\",\"version\":1,\"length\":5,\"checksum\":\"7d\",\"sum\":\"wrong\",\"due\":\"79\",\"cut\":0,\"left\":0}
{\"line\":\"HB0 bits 7-0 InfoFrame type 129 Vendor-Specific\",\"type\":\"infoframe-field\",\"part\":\"HB\",\"byte\":0,\"high\":7,\"low\":0,\"name\":\"InfoFrame type\",\"value\":129,\"meaning\":\"Vendor-Specific\",\"found\":null}
{\"line\":\"HB1 bits 7-0 version 1\",\"type\":\"infoframe-field\",\"part\":\"HB\",\"byte\":1,\"high\":7,\"low\":0,\"name\":\"version\",\"value\":1,\"meaning\":null,\"found\":null}
{\"line\":\"HB2 bits 7-5 reserved 0\",\"type\":\"infoframe-field\",\"part\":\"HB\",\"byte\":2,\"high\":7,\"low\":5,\"name\":\"reserved\",\"value\":0,\"meaning\":null,\"found\":null}
{\"line\":\"HB2 bits 4-0 length 5\",\"type\":\"infoframe-field\",\"part\":\"HB\",\"byte\":2,\"high\":4,\"low\":0,\"name\":\"length\",\"value\":5,\"meaning\":null,\"found\":null}
{\"line\":\"PB0 bits 7-0 checksum 125\",\"type\":\"infoframe-field\",\"part\":\"PB\",\"byte\":0,\"high\":7,\"low\":0,\"name\":\"checksum\",\"value\":125,\"meaning\":null,\"found\":null}
{\"line\":\"PB1 bits 7-0 IEEE OUI, bits 7 to 0 216\",\"type\":\"infoframe-field\",\"part\":\"PB\",\"byte\":1,\"high\":7,\"low\":0,\"name\":\"IEEE OUI, bits 7 to 0\",\"value\":216,\"meaning\":null,\"found\":null}
{\"line\":\"PB2 bits 7-0 IEEE OUI, bits 15 to 8 93\",\"type\":\"infoframe-field\",\"part\":\"PB\",\"byte\":2,\"high\":7,\"low\":0,\"name\":\"IEEE OUI, bits 15 to 8\",\"value\":93,\"meaning\":null,\"found\":null}
{\"line\":\"PB3 bits 7-0 IEEE OUI, bits 23 to 16 196\",\"type\":\"infoframe-field\",\"part\":\"PB\",\"byte\":3,\"high\":7,\"low\":0,\"name\":\"IEEE OUI, bits 23 to 16\",\"value\":196,\"meaning\":null,\"found\":null}
{\"line\":\"PB4 bits 7-0 Version 1\",\"type\":\"infoframe-field\",\"part\":\"PB\",\"byte\":4,\"high\":7,\"low\":0,\"name\":\"Version\",\"value\":1,\"meaning\":null,\"found\":null}
{\"line\":\"PB5 bits 7-4 CCBPC 0\",\"type\":\"infoframe-field\",\"part\":\"PB\",\"byte\":5,\"high\":7,\"low\":4,\"name\":\"CCBPC\",\"value\":0,\"meaning\":null,\"found\":null}
{\"line\":\"PB5 bits 3-2 reserved 1 reserved\",\"type\":\"infoframe-field\",\"part\":\"PB\",\"byte\":5,\"high\":3,\"low\":2,\"name\":\"reserved\",\"value\":1,\"meaning\":\"reserved\",\"found\":\"reserved\"}
{\"line\":\"PB5 bits 1-1 ALLM_Mode 1 ALLM\",\"type\":\"infoframe-field\",\"part\":\"PB\",\"byte\":5,\"high\":1,\"low\":1,\"name\":\"ALLM_Mode\",\"value\":1,\"meaning\":\"ALLM\",\"found\":null}
{\"line\":\"PB5 bits 0-0 3D_Valid 0\",\"type\":\"infoframe-field\",\"part\":\"PB\",\"byte\":5,\"high\":0,\"low\":0,\"name\":\"3D_Valid\",\"value\":0,\"meaning\":null,\"found\":null}
{\"line\":\"not offered: ALLM\",\"type\":\"unoffered\",\"what\":\"ALLM\",\"number\":null}
";

/// The first and the last object of an InfoFrame of HDMI whose checksum is right, and whose code the display does not offer.
const FIRST: &str = "\
{\"line\":\"hdmi type 81 version 1 length 5 checksum 49 right cut 0 left 0\",\"type\":\"infoframe\",\"kind\":\"hdmi\",\"packet_type\":\"81\",\"version\":1,\"length\":5,\"checksum\":\"49\",\"sum\":\"right\",\"due\":\"49\",\"cut\":0,\"left\":0}
";

const LAST: &str = "\
{\"line\":\"not offered: HDMI_VIC 1\",\"type\":\"unoffered\",\"what\":\"HDMI_VIC\",\"number\":1}
";

#[test]
fn fields_and_objects_are_told(rt: HostRuntime) {
    let (text, right) = written(
        &rt,
        "lg",
        "82 02 0d 88 20 a8 00 1f 00 00 00 00 00 00 00 00 00",
        Form::Text,
    );
    assert!(rt; text.as_str() == FIELDS && right);
    let (text, right) = written(&rt, "lg", "81:01:05:7D:D8:5D:C4:01:06", Form::Json);
    assert!(rt; text.as_str() == OBJECTS && !right);
    let (text, right) = written(&rt, "lounge", "81 01 05 49 03 0c 00 20 01", Form::Json);
    assert!(rt; text.starts_with(FIRST) && text.ends_with(LAST) && !right);
}

/// A writer with less room has the front of the lines.
#[test]
fn a_writer_that_is_full_has_the_front(rt: HostRuntime) {
    let edid = display(&rt, "lg");
    let frame = InfoFrame::read(b"82020d8820a8001f000000000000000000").expect(&rt, "an InfoFrame");
    let mut room = [0_u8; 100];
    let fault = write_infoframe(
        &edid.base,
        edid.extensions.as_slice(),
        &frame,
        Form::Text,
        &mut Writes::new(room.as_mut_slice()),
    );
    assert!(rt; matches!(fault, Err(fault) if fault.count == 100));
    assert!(rt; Some(room.as_slice()) == FIELDS.as_bytes().get(..100));
}
