//! The rules for extensions that are kept as they are, and for what stands in data blocks.

/// What is changed in the television, and the lines of what is then wrong, with `;` for each line feed. The third byte of its
/// extension is 26, and 22 bytes of data blocks stand before it. The tags are those of E-EDID.
pub(crate) const EXTENSIONS: &str = "\
tv 132=5f => fail cta-overrun;
tv 130=19 => fail cta-overrun;
tv 130=1b 154=a0 => none
tv 130=03 => fail cta-overrun;
tv 130=c8 => fail cta-overrun;
tv 130=00 => warn no-video-capability;
tv 130=04 132=00000000000000000000000000000000000000000000 => warn no-video-capability;
tv 129=02 => warn cta-revision;
tv 129=01 => warn cta-revision;
tv 129=04 => warn cta-revision;
tv base cta 129=02 => warn cta-revision;
tv 128=00 => warn unknown-extension;
tv 128=01 => warn unknown-extension;
tv 128=20 => warn unknown-extension;
tv 128=80 => warn unknown-extension;
tv 128=fe => warn unknown-extension;
tv 128=10 => none
tv 128=40 => none
tv 128=50 => none
tv 128=60 => none
tv 128=70 => fail displayid-checksum;
tv 128=7012000300eb => none
tv 128=7012000300ea => fail displayid-checksum;
tv 128=7012030300000000e8 => none
tv 128=7012030300000000e9 => fail displayid-checksum;
tv 128=70127a0300 => fail displayid-checksum;
tv 128=7112000300ea => warn unknown-extension;
tv 128=f0 => none
tv 128=ff => none
tv base map other 256=01 => warn unknown-extension;
";

/// The same of data blocks: blocks are put in, or after the others. The audio block of three bytes stands at 137, the speakers at
/// 141, the HDMI block at 145, the video capabilities at 151.
pub(crate) const BLOCKS: &str = "\
tv 130=1b 137=24090707008301000065030c000000e200cf => fail block-length;warn reserved;
tv 130=1c 137=2509070700008301000065030c000000e200cf => fail block-length;warn reserved;
tv 130=1d 137=260907070907078301000065030c000000e200cf => none
tv 130=19 151=e10000 => fail block-length;
tv 130=1b 154=e0 => fail block-length;
tv 130=1c 154=e10d => warn length;
tv 130=1d 154=e20500 => fail block-length;
tv 130=1e 154=e3050000 => none
tv 130=1c 154=e106 => fail block-length;
tv 130=1d 154=e20600 => fail block-length;
tv 130=1e 154=e3060000 => none
tv 130=1d 154=e200cf => fail block-twice;
tv 130=22 154=e3050000e3050000 => fail block-twice;
tv 130=22 154=e3060000e3060000 => fail block-twice;
tv 130=22 154=e3050000e3060000 => none
tv 130=20 154=e20f00e20f00 => fail block-twice;
tv 130=1e 154=83010000 => fail block-twice;
tv 130=2a 154=67d85dc40178000067d85dc401780000 => fail block-twice;
tv 130=2a 154=67d85dc401780000e779000001780000 => fail block-twice;
tv 130=2a 154=67d85dc40178000067d85dc501780000 => none
tv 130=20 154=e20d00e20d00 => warn reserved;
tv 19=04 146=04 118=01 cta 258=07 260=e200cf => none
tv 130=1d 132=e278014490040301230907078301000065030c000000e200cf => none
tv 130=1d 132=e278054490040301230907078301000065030c000000e200cf => none
tv 130=1d 132=e278004490040301230907078301000065030c000000e200cf => fail eeodb-count;
tv 130=1c 132=e1784490040301230907078301000065030c000000e200cf => fail eeodb-count;warn length;
tv other 130=1d 132=e278014490040301230907078301000065030c000000e200cf => fail eeodb-count;
tv other 130=1d 132=e278024490040301230907078301000065030c000000e200cf => none
tv other 130=1d 132=4490040301e27802230907078301000065030c000000e200cf => fail block-map;fail eeodb-place;
tv 130=1d 154=e27801 => fail eeodb-place;
tv 130=20 132=e278014490040301230907078301000065030c000000e200cfe27801 => fail eeodb-place;
tv cta 258=07 260=e27802 => fail block-map;fail eeodb-place;
tv 130=1d 154=e200f8 => fail block-twice;
tv 130=1b 154=00 => warn tag-reserved;
tv 130=1c 154=0178 => warn tag-reserved;
tv 130=1b 154=a0 => none
tv 130=1b 154=c0 => none
tv 138=01 => fail audio-reserved;
tv 138=81 => fail audio-reserved;
tv 138=79 => warn reserved;
tv 130=1d 137=260907070107078301000065030c000000e200cf => fail audio-reserved;
tv 130=1d 137=260907071107078301000065030c000000e200cf => none
tv 130=1e 154=e3060f01 => none
tv 130=1e 154=e3061001 => warn hdr-reserved;
tv 130=1e 154=e3068001 => warn hdr-reserved;
tv 130=1e 154=e3060f02 => warn hdr-reserved;
tv 130=1e 154=e3051002 => none
tv 113=01ff01ffff 136=db => fail link-clock;
tv 136=dc => warn vic-reserved;
tv 136=de => warn vic-reserved;
tv 136=ff => warn vic-reserved;
tv 136=80 => warn reserved;
tv 113=01ff01ffff 130=1d 154=e20edb => fail link-clock;
tv 130=1d 154=e20edc => warn vic-reserved;
tv 130=1d 154=e20ddc => none
tv 130=20 145=6b030c001000b82d20002005e200cf => fail hdmi-vic-reserved;
tv 130=20 145=6b030c001000b82d20002000e200cf => fail hdmi-vic-reserved;
tv 130=20 145=6b030c001000b82d20000005e200cf => warn reserved;
tv 130=22 154=67d85dc401780000 => none
tv 130=22 154=67d85dc401000000 => none
tv 130=22 154=67d85dc401010000 => fail forum-clock;
tv 130=22 154=67d85dc401440000 => fail forum-clock;
tv 130=22 154=67d85dc4013c0000 => fail forum-clock;
tv 130=22 154=67d85dc401450000 => none
tv 130=22 154=67d85dc401790000 => fail forum-clock;
tv 130=22 154=e779000001440000 => fail forum-clock;
tv 130=22 154=67d85dc501440000 => none
tv 130=22 154=67d85dc401788010 => none
tv 130=22 154=67d85dc401780010 => fail forum-scdc;
tv 130=22 154=67d85dc401787f10 => fail forum-scdc;
tv 130=22 154=67d85dc40178000f => none
tv 130=25 154=6ad85dc401788000003064 => none
tv 130=25 154=6ad85dc401788000003164 => fail forum-vrr;
tv 130=25 154=6ad85dc401788000003063 => fail forum-vrr;
tv 130=25 154=6ad85dc401788000003000 => none
tv 130=25 154=6ad85dc401788000000064 => fail forum-vrr;
tv 130=25 154=6ad85dc401788000000000 => none
tv 130=25 154=6ad85dc401788000007000 => none
tv 130=25 154=6ad85dc401788000003c32 => fail forum-vrr;
tv 130=22 154=67d85dc402780000 => warn reserved;
tv 130=22 154=67d85dc401788070 => warn reserved;
tv 130=22 154=67d85dc401788060 => none
tv 144=20 => warn reserved;
tv 144=10 => none
tv 138=89 => warn reserved;
tv 140=08 => warn reserved;
tv 130=1d 154=e20eff => warn vic-reserved;
tv 130=1d 154=e20e80 => warn reserved;
tv 130=1d 154=e20dff => warn reserved;
tv 130=1d 154=e20da1 => none
tv 130=22 154=e70146d0002600000000000000 => warn length;
tv 130=21 154=66d85dc4017800 => warn length;
tv 130=26 154=6bd85dc40178800000000000 => none
tv 130=27 154=6cd85dc4017880000000000000 => none
tv 130=1f 154=e405000000 => warn length;
tv 130=22 154=e7060f0100000000 => warn length;
tv 130=21 154=e6060f01000000 => none
";

/// The same of formats in 4:2:0. The codes are 16, native, 4, 3 and 1; 97, 96, 107 and 106 have a clock of 594 MHz, as 114 and 101
/// have, 95 one of 297. Limits of 0 limit nothing.
pub(crate) const MAPS: &str = "\
tv 113=01ff01ffff 133=61606b6a 130=1d 154=e20f0f => fail link-clock;
tv 113=01ff01ffff 133=61606b6a 130=1d 154=e20f10 => fail map-past-codes;fail link-clock;
tv 113=01ff01ffff 133=61606b6a 130=1d 154=e20f8f => fail map-past-codes;fail link-clock;
tv 113=01ff01ffff 133=61606b6a 130=1e 154=e30f0f01 => fail map-past-codes;fail link-clock;
tv 113=01ff01ffff 133=61606b6a 130=1e 154=e30f0f00 => fail link-clock;
tv 113=01ff01ffff 133=61606b6a 130=1c 154=e10f => fail link-clock;
tv 113=01ff01ffff 133=61606b6a 130=1e 154=e30d0f01 => fail link-clock;
tv base cta 130=07 132=e20f01 => warn no-video-capability;fail map-past-codes;
tv 130=1d 154=e20f00 => none
tv 130=1d 154=e20f01 => warn ycc420-slow;
tv 130=1d 154=e20f02 => warn ycc420-slow;
tv 130=1d 154=e20f08 => warn ycc420-slow;
tv 113=01ff01ffff 133=61606b10 130=1d 154=e20f07 => fail link-clock;
tv 113=01ff01ffff 133=61606b10 130=1d 154=e20f08 => warn ycc420-slow;fail link-clock;
tv 130=1d 154=e20e10 => warn ycc420-slow;
tv 130=1d 154=e20e5f => warn ycc420-slow;
tv 130=1e 154=e30e6104 => warn ycc420-slow;fail link-clock;
tv 130=1e 154=e30e6160 => fail link-clock;
tv 130=1e 154=e30e6572 => fail link-clock;
tv 130=1d 154=e20d10 => none
";

/// The same of latencies, colours, and values of the base block. A latency is half the milliseconds, and 1. The third and fourth
/// descriptors are the name and the range limits, of 23 to 61 Hz, 15 to 68 kHz and 150 MHz.
pub(crate) const VALUES: &str = "\
tv 153=4f => warn ycc-quantization;
tv 153=4f 131=d1 => warn ycc-quantization;
tv 153=4f 131=e1 => warn ycc-quantization;
tv 153=4f 131=c1 => none
tv 130=1f 145=6a030c001000b82d80010be200cf => none
tv 130=1f 145=6a030c001000b82d80010ce200cf => warn latency-order;
tv 130=1f 145=6a030c001000b82d80000ce200cf => none
tv 130=1f 145=6a030c001000b82d8001fbe200cf => warn latency-order;
tv 130=1f 145=6a030c001000b82d8001fce200cf => warn reserved;
tv 130=1f 145=6a030c001000b82d8001ffe200cf => none
tv 130=1f 145=6a030c001000b82d800c01e200cf => none
tv 130=1f 145=6a030c001000b82d00010ce200cf => warn reserved;
tv 130=21 145=6c030c001000b82dc00101010ce200cf => warn latency-order;
tv 130=21 145=6c030c001000b82dc00101010be200cf => none
tv 130=21 145=6c030c001000b82d800101010ce200cf => warn reserved;
tv 130=21 145=6c030c001000b82d400101010ce200cf => warn reserved;
tv 117=0e => none
tv 117=0d => fail out-of-range;fail timing 1 out-of-range;
tv 117=0d 134=10 133=04 54=011d => fail out-of-range;
tv 117=00 => warn descriptor-reserved;
tv 117=ff => none
tv 136=61 => fail out-of-range;fail link-clock;
tv 136=dc => warn vic-reserved;
tv 19=04 146=04 118=01 136=61 => warn out-of-range;
tv 113=01ff01ffff 136=61 => fail link-clock;
tv 35=30 => fail out-of-range;
tv 35=60 => fail out-of-range;
tv 35=21 => none
tv 36=01 => fail out-of-range;
tv 36=08 => none
tv 37=80 => fail out-of-range;
tv 37=7f => none
tv 19=04 146=04 118=01 36=01 => warn out-of-range;
tv 38=6140 => none
tv 38=6141 => none
tv 38=6142 => fail out-of-range;
tv 38=a940 => fail out-of-range;
tv 38=d1c0 => none
tv 52=6142 => fail out-of-range;
tv 19=04 146=04 118=01 38=6142 => warn out-of-range;
tv 95=07 => fail text-form;
tv 93=fe 95=07 => fail no-name;fail text-form;
tv 93=ff 95=07 12=00000000 => fail no-name;fail text-form;
tv 93=fb 95=07 => fail no-name;warn descriptor-reserved;
tv 105=00 => fail text-form;
tv 105=0a => fail text-form;
tv 104=20 => none
tv 104=00 => fail text-form;
tv 95=22 => none
tv 95=7e => none
tv 95=7f => fail text-form;
tv 95=ff => fail text-form;
tv 107=21 => fail text-form;
tv 94=01 => fail text-form;
tv 16=36 19=04 146=04 118=01 => none
tv 16=37 => fail week-reserved;
tv 16=37 19=04 146=04 118=01 => fail week-reserved;
tv 16=fe 19=04 146=04 118=01 => fail week-reserved;
tv 16=ff 19=04 146=04 118=01 => none
tv 17=3c => none
tv 17=3d => warn year-late;
tv 17=6e => warn year-late;
tv 17=ff => warn year-late;
tv 23=64 => warn srgb-gamma;
tv 23=77 => warn srgb-gamma;
tv 23=64 24=0a 27=a2 => none
tv 19=04 146=04 118=01 20=85 => none
tv 19=04 146=04 118=01 20=86 => fail input-reserved;
tv 19=04 146=04 118=01 20=8f => fail input-reserved;
tv 19=04 146=04 118=01 20=e5 => none
tv 19=04 146=04 118=01 20=f5 => fail input-reserved;
tv 19=04 146=04 118=01 20=7f => none
tv 20=81 => none
tv 20=82 => fail input-reserved;
tv 20=c0 => fail input-reserved;
tv 20=7f => none
tv 119=0b => warn descriptor-reserved;
tv 120=00 => warn descriptor-reserved;
tv 125=21 => warn descriptor-reserved;
tv 112=10 => warn descriptor-reserved;
tv 112=01 => warn descriptor-reserved;
tv 112=04 => warn descriptor-reserved;
tv 118=03 => warn descriptor-reserved;
tv 113=00 => warn descriptor-reserved;
tv 93=0f => fail no-name;
tv 93=10 => fail no-name;warn descriptor-reserved;
tv 93=11 => fail no-name;warn descriptor-reserved;
tv 93=f6 => fail no-name;warn descriptor-reserved;
tv 90=000000f700 95=0afffffffffff0000000000000 => fail no-name;
tv 90=000000f700 95=0afffffffffff8000000000000 => fail no-name;warn descriptor-reserved;
tv 90=000000f700 95=0bfffffffffff0000000000000 => fail no-name;warn descriptor-reserved;
";
