//! The rules for an EDID.

/// What is changed in the television, and the lines of what is then wrong, with `;` for each line feed: each rule broken
/// alone, and just kept. A dummy descriptor is 00 00 00 10 and zeros.
pub(crate) const RULES: &str = "\
tv => none
tv base 35=000000 => none
tv 24=0c => fail first-timing-not-preferred;
tv 19=04 24=0c 118=01 => warn hdmi-of-1.3;
tv 131=f0 54=000000100000000000000000000000000000 => fail no-preferred-timing;
tv 131=f0 24=0c 54=000000100000000000000000000000000000 => fail first-timing-not-preferred;
tv 93=fe => fail no-name;
tv 93=fe 72=000000fc00410a2020202020202020202020 => none
tv 111=fb => fail no-range-limits;warn descriptor-reserved;
tv 19=04 146=04 111=fb => warn descriptor-reserved;
tv 19=04 146=04 111=fb 24=0f => fail no-range-limits;warn descriptor-reserved;
tv 19=04 146=04 118=00 => fail gtf-fixed;
tv 19=04 146=04 118=02 => fail gtf-fixed;warn descriptor-reserved;
tv 19=04 146=04 118=04 => fail gtf-fixed;
tv 19=04 146=04 118=01 => none
tv 19=04 146=04 118=03 => warn descriptor-reserved;
tv 19=04 146=04 118=00 24=0f => none
tv 113=3d 114=3c => fail limits-reversed;
tv 113=3d 114=00 => fail limits-reversed;warn descriptor-reserved;
tv 115=44 116=43 => fail limits-reversed;
tv 113=3d 114=17 115=44 116=0f => fail limits-reversed;
tv 19=04 146=04 118=01 113=3d 114=3c => fail limits-reversed;
tv 16=35 => none
tv 16=36 => fail week-of-1.4;
tv 16=fe => fail week-reserved;
tv 16=ff => fail week-of-1.4;
tv 19=04 146=04 118=01 16=36 => none
tv 19=04 146=04 118=01 16=ff => none
tv 24=0a => fail srgb;
tv 24=0a 27=a2 => none
tv 27=a2 => fail srgb;
tv 25=ef => fail srgb;
tv 26=90 => fail srgb;
tv 28=55 => fail srgb;
tv 29=4d => fail srgb;
tv 30=9a => fail srgb;
tv 31=27 => fail srgb;
tv 32=10 => fail srgb;
tv 33=51 => fail srgb;
tv 34=53 => fail srgb;
tv 72=000000000000000000000000000000000000 => fail empty-descriptor;
tv 72=000000100000000000000000000000000000 => none
tv 72=000000000000000000000000000000000001 => none
tv 38=0000 => fail standard-unused-form;
tv 38=0102 => fail standard-unused-form;
tv 52=0001 => fail standard-unused-form;
tv 38=0200 => none
tv cta => fail block-map;
tv base map cta => warn no-video-capability;
tv base cta => warn no-video-capability;
tv 19=04 146=04 118=01 cta => none
tv other => fail block-map;
tv base other => none
tv 19=04 118=01 => warn hdmi-of-1.3;
tv 19=04 118=01 146=04 => none
tv 72=000000ff00310a2020202020202020202020 => warn two-serials;
tv 72=000000ff00310a2020202020202020202020 12=00 => none
tv 72=000000ff00310a2020202020202020202020 12=00000001 => warn two-serials;
tv base 72=000000ff00310a2020202020202020202020 => none
tv 35=00 => none
tv 136=05 => none
tv 131=f0 133=10 136=81 35=00 => none
tv 136=05 35=00 => fail no-640x480;
tv 136=05 35=01 => fail no-640x480;
tv base 35=00 bare => fail no-640x480;warn no-video-capability;
tv 135=04 => fail vic-twice;
tv 133=10 135=90 => fail vic-twice;
tv 135=10 => fail vic-twice;
tv 135=05 => none
tv 113=01ff01ffff 134=c1 135=41 => fail link-clock;
tv 113=01ff01ffff 134=c0 135=40 => fail vic-twice;fail link-clock;
tv 134=80 135=00 => warn reserved;
tv 134=00 135=00 => warn reserved;
tv 134=80 135=80 => fail vic-twice;warn reserved;
tv 72=023a801871382d40582c450008222100001e 131=f2 => none
tv 72=023a801871382d40582c450008222100001e 131=f3 => fail native-count;
tv 72=023a801871382d40582c450008222100001e 131=ff => fail native-count;
tv 131=71 => warn overscan;
tv base 35=20 cta => warn no-video-capability;
tv base 35=20 cta 131=71 => warn overscan;warn no-video-capability;
tv 131=b1 => fail no-basic-audio;
tv 131=b1 137=a3 => fail no-basic-audio;
tv 131=b1 141=a3 => fail no-basic-audio;
tv 131=b1 137=a3 141=a3 => none
tv 131=b1 137=a3 141=e310 => none
tv 131=b1 137=a3 141=e311 => fail no-basic-audio;
tv 131=b1 137=a3 141=e312 => fail no-basic-audio;
tv 131=b1 137=a3 141=e313 => fail no-basic-audio;
tv 131=b1 137=a3 141=e314 => fail no-basic-audio;
tv 131=b1 137=a3 141=e315 => none
tv 131=b1 137=a3 141=c312 => none
tv 138=0f => none
tv 141=a3 => none
tv 138=0f 141=a3 => fail speakers;
tv 138=0a 141=a3 => fail speakers;
tv 138=09 141=a3 => none
tv 138=17 141=a3 => none
tv 130=19 141=82010065030c000000e200cf00 => fail speakers;
tv 137=22 140=a0 => fail block-length;
tv 254=01 => fail padding;
tv 156=01 => fail padding;
tv 157=10 => none
tv 157=11 => fail padding;
tv 156=01 157=10 => fail padding;
tv 157=10 158=01 => fail padding;
tv 157=10 171=01 => fail padding;
tv 157=10 172=01 => fail padding;
tv 175=10 => fail padding;
tv 157=10 175=10 => none
tv 157=10 175=10 193=10 211=10 229=10 => none
tv 157=10 175=10 193=10 211=10 229=10 247=10 => fail padding;
tv base cta 135=10 153=10 171=10 189=10 207=10 225=10 => warn no-video-capability;
tv base cta 135=10 153=10 171=10 189=10 207=10 225=10 243=10 => fail padding;warn no-video-capability;
tv 152=01 => warn no-video-capability;
tv 153=8f => warn rgb-quantization;
tv 153=c0 => none
tv 130=1c 145=67030c001000b844e200cf => none
tv 130=1c 145=67030c001000b845e200cf => fail tmds-clock;
tv 149=0000 => none
tv 149=1234 => none
tv 149=ffff => fail address;
tv 149=fffe => none
tv 149=1020 => fail address;
tv 149=1200 => none
tv 149=1203 => fail address;
tv 149=0100 => fail address;
tv 149=0001 => fail address;
tv 130=20 154=65030c001000 => warn hdmi-twice;
tv 130=20 154=65030c010000 => none
tv 130=20 145=6b030c001000b82d20002001e200cf => fail hdmi-vic-without-vic;fail link-clock;
tv 113=01ff01ffff 130=20 145=6b030c001000b82d20002001e200cf 135=5f => fail link-clock;
tv 130=20 145=6b030c001000b82d20000001e200cf => warn reserved;
tv 130=20 145=6b030c001000b82d00002001e200cf => warn reserved;
tv 113=01ff01ffff 130=21 145=6c030c001000b82d2000400201e200cf 135=5e => fail hdmi-vic-without-vic;fail link-clock;
tv 113=01ff01ffff 130=21 145=6c030c001000b82d2000400201e200cf 135=5e 134=5f => fail link-clock;
tv 130=22 145=6d030c001000b82da00000002004e200cf => fail hdmi-vic-without-vic;fail link-clock;
tv 113=01ff01ffff 130=22 145=6d030c001000b82da00000002004e200cf 135=62 => fail link-clock;
tv 130=24 145=6f030c001000b82de000000000002003e200cf => fail hdmi-vic-without-vic;fail link-clock;
tv 113=01ff01ffff 130=24 145=6f030c001000b82de000000000002003e200cf 135=5d => fail link-clock;
tv 130=22 145=67d85dc40178000065030c000000e200cf => fail hdmi-forum-first;
tv 130=22 145=65030c00000067d85dc401780000e200cf => none
tv 130=22 145=67d85dc50178000065030c000000e200cf => none
";

/// The same of native pictures. The first timing is 1920x1080, the second 1280x720. Codes are 16, native, 4, 3 and 1; the code 31
/// and 64 are 1920x1080, 5 and 20 the same in two fields, 6 is 1440x480 in two fields, 2 and 3 are 720x480, 14 is 1440x480, 17
/// is 720x576. A byte above 192 is a code, and 128 is none.
pub(crate) const NATIVES: &str = "\
tv 131=f2 => fail native-mixed;
tv 133=10 134=84 => fail native-mixed;
tv 131=f0 134=84 => fail native-mixed;
tv 131=f0 133=10 134=84 => none
tv 131=f0 133=10 => none
tv 134=9f => none
tv 113=01ff01ffff 134=c0 => fail link-clock;
tv 113=01ff01ffff 134=c1 => fail link-clock;
tv 136=81 => fail native-mixed;
tv 134=80 => warn reserved;
tv 134=85 => none
tv 134=85 135=94 => none
tv 134=85 135=86 => fail native-mixed;
tv 131=f0 133=82 134=83 135=05 => none
tv 131=f0 133=82 134=91 => fail native-mixed;
tv 131=f0 133=82 134=8e => fail native-mixed;
tv 71=9e 134=85 => fail native-mixed;
tv 54=011d 59=1c 61=20 71=9e 134=85 => none
tv 54=011d 59=1b 61=20 71=9e 134=85 => fail native-mixed;
tv 19=04 146=04 118=01 cta 259=f1 => none
tv 19=04 146=04 118=01 cta 259=f2 => fail native-mixed;
tv 19=04 146=04 118=01 bare 259=f2 => none
";

/// The same of the EDID that a port passes on: the address of the root is wrong there.
pub(crate) const IN_PORTS: &str = "\
1.0.0.0 tv => none
0.0.0.0 tv => fail address;
0.0.0.1 tv => fail address;
1.2.3.4 tv 149=ffff => none
1.0.0.0 tv 130=20 154=65030c000000 => fail address;warn hdmi-twice;
1.0.0.0 tv 130=20 154=65030c001000 => warn hdmi-twice;
3 tv => none
3 tv 149=1000 => none
3 tv 149=1111 => fail address;
3 tv 149=1020 => none
0 tv => edid: port-range
16 tv => edid: port-range
3 tv base => edid: no-hdmi-block
3 tv base 0=01 => edid: base header
";
