//! Fields by hand, of CTA-861-H (FR and RID of CTA-861-I), HDMI 1.4b and HDMI 2.1: `= FROM HEX` begins those of an InfoFrame from a byte
//! on. A line is the byte, its bits, the standard's name, and what each value says.

/// Auxiliary Video Information: of version 2 with a byte too many; of version 3 by EC, of IT content; of version 4 with all of its bytes.
pub(crate) const AVI: &str = "\
= 0 82020e000000000000000000000000000000
HB0 7-0 InfoFrame type|0-129 reserved;130 AVI;131-255 reserved
HB1 7-0 version|0-1 reserved;2-3;4-255 reserved
HB2 7-5 reserved|0;1-7 reserved
HB2 4-0 length|0-12 reserved;13;14-31 reserved
PB0 7-0 checksum|0-255
PB1 7-5 Y|0 RGB;1 YCbCr 4:2:2;2 YCbCr 4:4:4;3 YCbCr 4:2:0;4-6 reserved;7 IDO-defined
PB1 4-4 A|0;1 active format
PB1 3-2 B|0;1 vertical bars;2 horizontal bars;3 vertical and horizontal bars
PB1 1-0 S|0;1 overscanned;2 underscanned;3 reserved
PB2 7-6 C|0;1 SMPTE 170M;2 ITU-R BT.709;3 by EC
PB2 5-4 M|0;1 4:3;2 16:9;3 reserved
PB2 3-0 R|0;1 reserved;2 box 16:9 (top);3 box 14:9 (top);4 box above 16:9 (center);5-7 reserved;8 as the picture;9 4:3 (center);10 16:9 (center);11 14:9 (center);12 reserved;13 4:3 (with shoot and protect 14:9 center);14 16:9 (with shoot and protect 14:9 center);15 16:9 (with shoot and protect 4:3 center)
PB3 7-7 ITC|0;1 IT content
PB3 6-4 EC|0-7
PB3 3-2 Q|0;1 limited range;2 full range;3 reserved
PB3 1-0 SC|0;1 scaled horizontally;2 scaled vertically;3 scaled horizontally and vertically
PB4 7-7 reserved|0;1 reserved
PB4 6-0 VIC|0-127
PB5 7-6 YQ|0 limited range;1 full range;2-3 reserved
PB5 5-4 CN|0-3
PB5 3-0 PR|0;1 each pixel 2 times;2 each pixel 3 times;3 each pixel 4 times;4 each pixel 5 times;5 each pixel 6 times;6 each pixel 7 times;7 each pixel 8 times;8 each pixel 9 times;9 each pixel 10 times;10-15 reserved
PB6 7-0 line number of end of top bar, bits 7 to 0|0-255
PB7 7-0 line number of end of top bar, bits 15 to 8|0-255
PB8 7-0 line number of start of bottom bar, bits 7 to 0|0-255
PB9 7-0 line number of start of bottom bar, bits 15 to 8|0-255
PB10 7-0 pixel number of end of left bar, bits 7 to 0|0-255
PB11 7-0 pixel number of end of left bar, bits 15 to 8|0-255
PB12 7-0 pixel number of start of right bar, bits 7 to 0|0-255
PB13 7-0 pixel number of start of right bar, bits 15 to 8|0-255
PB14 7-0 reserved|0;1-255 reserved
= 6 82030d0000c08000000000000000000000
PB3 7-7 ITC|0;1 IT content
PB3 6-4 EC|0 xvYCC601;1 xvYCC709;2 sYCC601;3 opYCC601;4 opRGB;5 BT2020cYCC;6 BT2020RGB or BT2020YCC;7 reserved
PB3 3-2 Q|0;1 limited range;2 full range;3 reserved
PB3 1-0 SC|0;1 scaled horizontally;2 scaled vertically;3 scaled horizontally and vertically
PB4 7-0 VIC|0-127;128-192 reserved;193-219;220-255 reserved
PB5 7-6 YQ|0 limited range;1 full range;2-3 reserved
PB5 5-4 CN|0 graphics;1 photo;2 cinema;3 game
PB5 3-0 PR|0;1 each pixel 2 times;2 each pixel 3 times;3 each pixel 4 times;4 each pixel 5 times;5 each pixel 6 times;6 each pixel 7 times;7 each pixel 8 times;8 each pixel 9 times;9 each pixel 10 times;10-15 reserved
PB6 7-0 line number of end of top bar, bits 7 to 0|0-255
PB7 7-0 line number of end of top bar, bits 15 to 8|0-255
PB8 7-0 line number of start of bottom bar, bits 7 to 0|0-255
PB9 7-0 line number of start of bottom bar, bits 15 to 8|0-255
PB10 7-0 pixel number of end of left bar, bits 7 to 0|0-255
PB11 7-0 pixel number of end of left bar, bits 15 to 8|0-255
PB12 7-0 pixel number of start of right bar, bits 7 to 0|0-255
PB13 7-0 pixel number of start of right bar, bits 15 to 8|0-255
= 0 82040f0000c000000000000000000000000000
HB0 7-0 InfoFrame type|0-129 reserved;130 AVI;131-255 reserved
HB1 7-0 version|0-3 reserved;4;5-255 reserved
HB2 7-5 reserved|0;1-7 reserved
HB2 4-0 length|0-13 reserved;14-15;16-31 reserved
PB0 7-0 checksum|0-255
PB1 7-5 Y|0 RGB;1 YCbCr 4:2:2;2 YCbCr 4:4:4;3 YCbCr 4:2:0;4-6 reserved;7 IDO-defined
PB1 4-4 A|0;1 active format
PB1 3-2 B|0;1 vertical bars;2 horizontal bars;3 vertical and horizontal bars
PB1 1-0 S|0;1 overscanned;2 underscanned;3 reserved
PB2 7-6 C|0;1 SMPTE 170M;2 ITU-R BT.709;3 by EC
PB2 5-4 M|0;1 4:3;2 16:9;3 reserved
PB2 3-0 R|0;1 reserved;2 box 16:9 (top);3 box 14:9 (top);4 box above 16:9 (center);5-7 reserved;8 as the picture;9 4:3 (center);10 16:9 (center);11 14:9 (center);12 reserved;13 4:3 (with shoot and protect 14:9 center);14 16:9 (with shoot and protect 14:9 center);15 16:9 (with shoot and protect 4:3 center)
PB3 7-7 ITC|0;1 IT content
PB3 6-4 EC|0 xvYCC601;1 xvYCC709;2 sYCC601;3 opYCC601;4 opRGB;5 BT2020cYCC;6 BT2020RGB or BT2020YCC;7 by ACE
PB3 3-2 Q|0;1 limited range;2 full range;3 reserved
PB3 1-0 SC|0;1 scaled horizontally;2 scaled vertically;3 scaled horizontally and vertically
PB4 7-0 VIC|0-127;128-192 reserved;193-219;220-255 reserved
PB5 7-6 YQ|0 limited range;1 full range;2-3 reserved
PB5 5-4 CN|0-3
PB5 3-0 PR|0;1 each pixel 2 times;2 each pixel 3 times;3 each pixel 4 times;4 each pixel 5 times;5 each pixel 6 times;6 each pixel 7 times;7 each pixel 8 times;8 each pixel 9 times;9 each pixel 10 times;10-15 reserved
PB6 7-0 line number of end of top bar, bits 7 to 0|0-255
PB7 7-0 line number of end of top bar, bits 15 to 8|0-255
PB8 7-0 line number of start of bottom bar, bits 7 to 0|0-255
PB9 7-0 line number of start of bottom bar, bits 15 to 8|0-255
PB10 7-0 pixel number of end of left bar, bits 7 to 0|0-255
PB11 7-0 pixel number of end of left bar, bits 15 to 8|0-255
PB12 7-0 pixel number of start of right bar, bits 7 to 0|0-255
PB13 7-0 pixel number of start of right bar, bits 15 to 8|0-255
PB14 7-4 ACE|0 SMPTE ST 2113 (P3D65);1 SMPTE ST 2113 (P3DCI);2 ICtCp;3 sRGB;4 default RGB;5-15 reserved
PB14 3-0 FR, bits 3 to 0|0-15
PB15 7-7 FR, bit 4|0-1
PB15 6-6 reserved|0;1 reserved
PB15 5-0 RID|0-63
";

/// Audio: with a byte too many; with its channels by speaker mask; by channel index.
pub(crate) const AUDIO: &str = "\
= 0 84010b000000000000000000000000
HB0 7-0 InfoFrame type|0-131 reserved;132 Audio;133-255 reserved
HB1 7-0 version|0 reserved;1;2-255 reserved
HB2 7-5 reserved|0;1-7 reserved
HB2 4-0 length|0-9 reserved;10;11-31 reserved
PB0 7-0 checksum|0-255
PB1 7-4 CT|0 by the stream;1 linear PCM;2 AC-3;3 MPEG-1;4 MP3;5 MPEG-2;6 AAC LC;7 DTS;8 ATRAC;9 One Bit Audio;10 Enhanced AC-3;11 DTS-HD;12 MAT;13 DST;14 WMA Pro;15 by CXT
PB1 3-3 reserved|0;1 reserved
PB1 2-0 CC|0 by the stream;1 2 channels;2 3 channels;3 4 channels;4 5 channels;5 6 channels;6 7 channels;7 8 channels
PB2 7-5 reserved|0;1-7 reserved
PB2 4-2 SF|0 by the stream;1 32 kHz;2 44.1 kHz;3 48 kHz;4 88.2 kHz;5 96 kHz;6 176.4 kHz;7 192 kHz
PB2 1-0 SS|0 by the stream;1 16 bits;2 20 bits;3 24 bits
PB3 7-5 reserved|0;1-7 reserved
PB3 4-0 CXT|0 by CT;1-3 reserved;4 MPEG-4 HE AAC;5 MPEG-4 HE AAC v2;6 MPEG-4 AAC LC;7 DRA;8 MPEG-4 HE AAC and MPEG Surround;9 reserved;10 MPEG-4 AAC LC and MPEG Surround;11 MPEG-H 3D;12 AC-4;13 linear PCM 3D;14 Auro-Cx;15 MPEG-D USAC;16-31 reserved
PB4 7-0 CA|0-49;50-253 reserved;254 by speaker mask;255 by channel index
PB5 7-7 DM_INH|0;1 down-mix prohibited
PB5 6-3 LSV|0-15
PB5 2-2 reserved|0;1 reserved
PB5 1-0 LFEPBL|0;1 0 dB;2 +10 dB;3 reserved
PB6 7-0 reserved|0;1-255 reserved
PB7 7-0 reserved|0;1-255 reserved
PB8 7-0 reserved|0;1-255 reserved
PB9 7-0 reserved|0;1-255 reserved
PB10 7-0 reserved|0;1-255 reserved
PB11 7-0 reserved|0;1-255 reserved
= 9 84010a00000000fe000000000000
PB6 7-0 speakers or channels 1|0-255
PB7 7-0 speakers or channels 2|0-255
PB8 7-0 speakers or channels 3|0-255
PB9 7-0 speakers or channels 4|0-255
PB10 7-0 reserved|0;1-255 reserved
= 9 84010a00000000ff000000000000
PB6 7-0 speakers or channels 1|0-255
PB7 7-0 speakers or channels 2|0-255
PB8 7-0 speakers or channels 3|0-255
PB9 7-0 speakers or channels 4|0-255
PB10 7-0 reserved|0;1-255 reserved
";

/// Dynamic Range and Mastering, with a byte too many.
pub(crate) const HDR: &str = "\
= 0 87011b00000000000000000000000000000000000000000000000000000000
HB0 7-0 InfoFrame type|0-134 reserved;135 Dynamic Range and Mastering;136-255 reserved
HB1 7-0 version|0 reserved;1;2-255 reserved
HB2 7-5 reserved|0;1-7 reserved
HB2 4-0 length|0-25 reserved;26;27-31 reserved
PB0 7-0 checksum|0-255
PB1 7-3 reserved|0;1-31 reserved
PB1 2-0 EOTF|0 traditional gamma SDR;1 traditional gamma HDR;2 SMPTE ST 2084;3 hybrid log-gamma;4-7 reserved
PB2 7-3 reserved|0;1-31 reserved
PB2 2-0 Static_Metadata_Descriptor_ID|0 static metadata type 1;1-7 reserved
PB3 7-0 display_primaries_x[0], bits 7 to 0|0-255
PB4 7-0 display_primaries_x[0], bits 15 to 8|0-255
PB5 7-0 display_primaries_y[0], bits 7 to 0|0-255
PB6 7-0 display_primaries_y[0], bits 15 to 8|0-255
PB7 7-0 display_primaries_x[1], bits 7 to 0|0-255
PB8 7-0 display_primaries_x[1], bits 15 to 8|0-255
PB9 7-0 display_primaries_y[1], bits 7 to 0|0-255
PB10 7-0 display_primaries_y[1], bits 15 to 8|0-255
PB11 7-0 display_primaries_x[2], bits 7 to 0|0-255
PB12 7-0 display_primaries_x[2], bits 15 to 8|0-255
PB13 7-0 display_primaries_y[2], bits 7 to 0|0-255
PB14 7-0 display_primaries_y[2], bits 15 to 8|0-255
PB15 7-0 white_point_x, bits 7 to 0|0-255
PB16 7-0 white_point_x, bits 15 to 8|0-255
PB17 7-0 white_point_y, bits 7 to 0|0-255
PB18 7-0 white_point_y, bits 15 to 8|0-255
PB19 7-0 max_display_mastering_luminance, bits 7 to 0|0-255
PB20 7-0 max_display_mastering_luminance, bits 15 to 8|0-255
PB21 7-0 min_display_mastering_luminance, bits 7 to 0|0-255
PB22 7-0 min_display_mastering_luminance, bits 15 to 8|0-255
PB23 7-0 Maximum Content Light Level, bits 7 to 0|0-255
PB24 7-0 Maximum Content Light Level, bits 15 to 8|0-255
PB25 7-0 Maximum Frame-average Light Level, bits 7 to 0|0-255
PB26 7-0 Maximum Frame-average Light Level, bits 15 to 8|0-255
PB27 7-0 reserved|0;1-255 reserved
";

/// HDMI's own: of no format; of a code of HDMI's own; in 3D; in 3D with more data and two bytes of metadata; each with a byte too
/// many.
pub(crate) const HDMI: &str = "\
= 0 81010500030c000000
HB0 7-0 InfoFrame type|0-128 reserved;129 Vendor-Specific;130-255 reserved
HB1 7-0 version|0 reserved;1;2-255 reserved
HB2 7-5 reserved|0;1-7 reserved
HB2 4-0 length|0-3 reserved;4-27;28-31 reserved
PB0 7-0 checksum|0-255
PB1 7-0 IEEE OUI, bits 7 to 0|0-255
PB2 7-0 IEEE OUI, bits 15 to 8|0-255
PB3 7-0 IEEE OUI, bits 23 to 16|0-255
PB4 7-5 HDMI_Video_Format|0;1 by HDMI_VIC;2 3D;3-7 reserved
PB4 4-0 reserved|0;1-31 reserved
PB5 7-0 reserved|0;1-255 reserved
= 8 81010600030c00200100
PB5 7-0 HDMI_VIC|0 reserved;1 3840x2160 at 30 Hz;2 3840x2160 at 25 Hz;3 3840x2160 at 24 Hz;4 4096x2160 at 24 Hz;5-255 reserved
PB6 7-0 reserved|0;1-255 reserved
= 8 81010600030c00400000
PB5 7-4 3D_Structure|0 frame packing;1 field alternative;2 line alternative;3 side by side (full);4 L + depth;5 L + depth + graphics + graphics-depth;6 top and bottom;7 reserved;8 side by side (half);9-15 reserved
PB5 3-3 3D_Meta_present|0;1 metadata
PB5 2-0 reserved|0;1-7 reserved
PB6 7-0 reserved|0;1-255 reserved
= 8 81010a00030c0040880002000000
PB5 7-4 3D_Structure|0 frame packing;1 field alternative;2 line alternative;3 side by side (full);4 L + depth;5 L + depth + graphics + graphics-depth;6 top and bottom;7 reserved;8 side by side (half);9-15 reserved
PB5 3-3 3D_Meta_present|0;1 metadata
PB5 2-0 reserved|0;1-7 reserved
PB6 7-4 3D_Ext_Data|0-3 horizontal sub-sampling;4 quincunx, odd left and odd right;5 quincunx, odd left and even right;6 quincunx, even left and odd right;7 quincunx, even left and even right;8-15 reserved
PB6 3-0 reserved|0;1-15 reserved
PB7 7-5 3D_Metadata_type|0 parallax;1-7 reserved
PB7 4-0 3D_Metadata_Length|0-31
PB8 7-0 3D_Metadata|0-255
PB9 7-0 3D_Metadata|0-255
PB10 7-0 reserved|0;1-255 reserved
";

/// The HDMI Forum's, with a byte too many, and in 3D; another vendor's; one of another type.
pub(crate) const VENDORS: &str = "\
= 0 81010600d85dc4010000
HB0 7-0 InfoFrame type|0-128 reserved;129 Vendor-Specific;130-255 reserved
HB1 7-0 version|0 reserved;1;2-255 reserved
HB2 7-5 reserved|0;1-7 reserved
HB2 4-0 length|0-4 reserved;5-27;28-31 reserved
PB0 7-0 checksum|0-255
PB1 7-0 IEEE OUI, bits 7 to 0|0-255
PB2 7-0 IEEE OUI, bits 15 to 8|0-255
PB3 7-0 IEEE OUI, bits 23 to 16|0-255
PB4 7-0 Version|0 reserved;1;2-255 reserved
PB5 7-4 CCBPC|0-15
PB5 3-2 reserved|0;1-3 reserved
PB5 1-1 ALLM_Mode|0;1 ALLM
PB5 0-0 3D_Valid|0;1 3D
PB6 7-0 reserved|0;1-255 reserved
= 7 81010700d85dc401010000
PB4 7-0 Version|0 reserved;1;2-255 reserved
PB5 7-4 CCBPC|0-15
PB5 3-2 reserved|0;1-3 reserved
PB5 1-1 ALLM_Mode|0;1 ALLM
PB5 0-0 3D_Valid|0;1 3D
PB6 7-4 3D_F_Structure|0 frame packing;1 field alternative;2 line alternative;3 side by side (full);4 L + depth;5 L + depth + graphics + graphics-depth;6 top and bottom;7 reserved;8 side by side (half);9-15 reserved
PB6 3-3 3D_AdditionalInfo_present|0;1 additional information
PB6 2-2 3D_DisparityData_present|0;1 disparity data
PB6 1-1 3D_Meta_present|0;1 metadata
PB6 0-0 reserved|0;1 reserved
PB7 7-0 of 3D|0-255
= 0 810105008b84900000
HB0 7-0 InfoFrame type|0-128 reserved;129 Vendor-Specific;130-255 reserved
HB1 7-0 version|0-255
HB2 7-5 reserved|0;1-7 reserved
HB2 4-0 length|0-2 reserved;3-31
PB0 7-0 checksum|0-255
PB1 7-0 IEEE OUI, bits 7 to 0|0-255
PB2 7-0 IEEE OUI, bits 15 to 8|0-255
PB3 7-0 IEEE OUI, bits 23 to 16|0-255
PB4 7-0 payload|0-255
PB5 7-0 payload|0-255
= 0 8301010000
HB0 7-0 InfoFrame type|0-130 reserved;131 Source Product Description;132 reserved;133 MPEG Source;134 NTSC VBI;135-255 reserved
HB1 7-0 version|0-255
HB2 7-5 reserved|0;1-7 reserved
HB2 4-0 length|0-31
PB0 7-0 checksum|0-255
PB1 7-0 payload|0-255
";
