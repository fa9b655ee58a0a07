//! The rules for detailed timings.

/// What is changed in the television, whose first timing begins at byte 54, and the lines of what is then wrong. Its size
/// is 52 by 29 cm, its limits are 23 to 61 Hz and 15 to 68 kHz; the first timing has 2200 pixels and 1125 lines at
/// 148.5 MHz, which is 60 Hz and 67.5 kHz, the second 1650 and 750 at 74.25 MHz, 60 Hz and 45 kHz.
pub(crate) const TIMINGS: &str = "\
tv 113=01 115=01 54=e803 => none
tv 113=01 115=01 54=e703 => fail timing 1 clock;
tv 62=00 => fail timing 1 timing-zero;
tv 64=05 => fail timing 1 timing-zero;
tv 64=05 71=9e => none
tv 64=40 => fail timing 1 timing-zero;
tv 63=00 => fail timing 1 timing-zero;
tv 131=f0 54=6207 56=00 58=01 => fail timing 1 timing-zero;
tv 54=a032 57=00 58=70 => fail timing 1 timing-zero;fail timing 1 h-back-porch;
tv 131=f0 115=00 54=5806 57=ff 58=7f 59=00 61=00 => warn descriptor-reserved;fail timing 1 timing-zero;
tv 54=b037 60=00 => fail timing 1 timing-zero;fail timing 1 v-back-porch;
tv 69=49 => none
tv 69=4a => fail timing 1 h-back-porch;
tv 70=11 => none
tv 70=12 => fail timing 1 v-back-porch;
tv 66=00 68=01 => fail timing 1 size-missing;
tv 67=00 68=20 => fail timing 1 size-missing;
tv 66=000000 => fail timing 1 size-missing;
tv 66=000000 21=00 => none
tv 66=0000 68=00 21=00 84=000000 => none
tv 66=11 => none
tv 66=12 => fail timing 1 size-differs;
tv 67=2b => none
tv 67=2c => fail timing 1 size-differs;
tv 66=fe1811 => fail timing 1 size-differs;
tv 66=ff1811 => none
tv 66=fe1911 => none
tv 114=3c => none
tv 114=3b => fail out-of-range;fail timing 1 out-of-range;fail timing 2 out-of-range;
tv 113=3c => none
tv 113=3d => fail out-of-range;fail timing 1 out-of-range;fail timing 2 out-of-range;
tv 116=43 => none
tv 116=42 => fail out-of-range;fail timing 1 out-of-range;
tv 115=20 => none
tv 115=21 => fail out-of-range;
tv 115=2d => fail out-of-range;
tv 115=2e => fail out-of-range;fail timing 2 out-of-range;
tv 114=78 116=ff 117=ff 136=76 => fail link-clock;
tv 114=78 116=fe 117=ff 136=76 => fail out-of-range;fail link-clock;
tv 19=04 146=04 118=01 114=78 116=ff 117=ff 136=76 => warn out-of-range;
tv 54=383180a020e02d10 131=f0 114=ff 116=ff 117=ff => none
tv 54=383180a020e02d10 131=f0 114=fe 116=ff 117=ff => fail timing 1 out-of-range;
tv 19=04 146=04 118=01 114=3b => warn out-of-range;warn timing 1 out-of-range;warn timing 2 out-of-range;
tv 19=04 146=04 118=01 112=02 114=00 => warn descriptor-reserved;
tv 112=02 114=00 => fail limits-reversed;warn descriptor-reserved;
tv 113=00 114=00 => warn descriptor-reserved;
tv 113=00 114=01 => fail out-of-range;warn descriptor-reserved;fail timing 1 out-of-range;fail timing 2 out-of-range;
tv 115=00 116=00 => warn descriptor-reserved;
tv 115=00 116=01 => fail out-of-range;warn descriptor-reserved;fail timing 1 out-of-range;fail timing 2 out-of-range;
tv 19=04 146=04 118=01 112=02 113=3d 114=3c => warn out-of-range;warn timing 1 out-of-range;warn timing 2 out-of-range;
tv 19=04 146=04 118=01 112=03 => warn out-of-range;warn timing 1 out-of-range;warn timing 2 out-of-range;
tv 19=04 146=04 118=01 112=08 116=00 => warn descriptor-reserved;
tv 19=04 146=04 118=01 112=0c => warn out-of-range;warn timing 1 out-of-range;warn timing 2 out-of-range;
tv 154=e703801871382d40582c450008222100001e => fail timing 3 clock;fail timing 3 out-of-range;
tv 130=31 154=f62200f65002047f07170157802b0037042c0003800400 => none
tv 130=31 154=f62200f75002047f07170157802b0037042c0003800400 => fail out-of-range;
tv 130=31 154=f62200f75002147f07170157802b0037042c0003800400 => none
tv 130=30 154=f52200f75002047f07170157802b0037042c00038004 => none
tv 130=31 154=f62300f75002047f07170157802b0037042c0003800400 => fail out-of-range;fail link-clock;
tv 154=023a801871382d40582c450012222100001e => fail timing 3 size-differs;
";

/// The same of formats of DisplayID. 1920x1080 at 60 Hz by CVT with reduced blanking of version 2 has 66.66 kHz, 1920x1200 has 74.1 kHz; the
/// monitor timings 04, 52 and 44 have 31.469, 67.5 and 74.038 kHz. Timings of types I, II, VI and VII have 2200 pixels and 1125 lines, at 151.79
/// MHz and less below 69 kHz; 1600x1200 by CVT has 74.5 kHz. A DisplayID extension stands in the place of the other one, with no link to go by.
pub(crate) const FORMATS: &str = "\
tv 130=1e 154=e3230052 => none
tv 130=1e 154=e3230044 => fail out-of-range;
tv 130=1f 154=e423005244 => fail out-of-range;
tv 130=1e 154=e3234044 => none
tv 130=1f 154=e423080044 => none
tv 130=1c 154=e12a => none
tv 130=23 154=e82a00027f0737043b => none
tv 130=23 154=e82a00027f07af043b => fail out-of-range;
tv 130=23 154=e82a00037f07af043b => none
tv 130=24 154=e92a10027f02df012b00 => none
tv 130=24 154=e92a10027f02df012b01 => fail out-of-range;
tv 130=32 154=f72210f75002047f07170157802b0037042c000380040000 => fail out-of-range;
tv 128=70131703000300144a3b00047f07170157802b0037042c0003800400a5 => none
tv 128=70131703000300144b3b00047f07170157802b0037042c0003800400a4 => fail out-of-range;
tv 128=70130e030004000b4a3b0000ef445337042c2437 => none
tv 128=70130e030004000b4b3b0000ef445337042c2436 => fail out-of-range;
tv 128=70130e030004000b4b3b0010ef445337042c2426 => none
tv 128=7013060300050003027f3b20 => none
tv 128=701306030005000302c73bd8 => fail out-of-range;
tv 128=701306030005000332c73ba8 => none
tv 128=7013050300060002045287 => none
tv 128=701306030006000304524441 => fail out-of-range;
tv 128=701305030006400210612c => fail out-of-range;
tv 128=70130a030011000700007f0737043bcc => none
tv 128=70130a030011000700007f07af043b54 => fail out-of-range;
tv 128=70130a030011000701007f07af043b53 => none
tv 128=701311030013000ef650027f073704172f011f2c020417 => none
tv 128=701311030013000ef750027f073704172f011f2c020416 => fail out-of-range;
tv 128=701311030013000ef750027f073704172f011f2c028496 => none
tv 128=702009030024000600ff03ff023b6c => none
tv 128=7020090300240006017f07af043b35 => fail out-of-range;
tv 128=70200903002a0006027f07af043b2e => fail out-of-range;
tv 128=7020090300320006027f07af043b26 => fail out-of-range;
";

/// The same of each established timing alone (VESA DMT, and the makers' own): limits of its field and line rate, cut to whole Hz and
/// kHz, and a greatest line rate below. The rates are 70.08 Hz and 31.47 kHz, 87.85 and 39.44, 59.94 and 31.47, 66.67 and 35.00, 72.81
/// and 37.86, 75.00 and 37.50, 56.25 and 35.16, 60.32 and 37.88, 72.19 and 48.08, 75.00 and 46.88, 74.55 and 49.73, 86.96 and 35.52
/// (of two fields), 60.00 and 48.36, 70.07 and 56.48, 75.03 and 60.02, 75.02 and 79.98, 75.06 and 68.68. The second detailed timing has
/// 60 Hz and 45 kHz: it is within one of the limits.
pub(crate) const ESTABLISHED: &str = "\
tv base 35=800000 113=46461f1f => fail timing 1 out-of-range;fail timing 2 out-of-range;
tv base 35=800000 113=4646011e => fail out-of-range;fail timing 1 out-of-range;fail timing 2 out-of-range;
tv base 35=400000 113=57572727 => fail timing 1 out-of-range;fail timing 2 out-of-range;
tv base 35=400000 113=57570126 => fail out-of-range;fail timing 1 out-of-range;fail timing 2 out-of-range;
tv base 35=200000 113=3b3b1f1f => fail timing 1 out-of-range;fail timing 2 out-of-range;
tv base 35=200000 113=3b3b011e => fail out-of-range;fail timing 1 out-of-range;fail timing 2 out-of-range;
tv base 35=100000 113=42422323 => fail timing 1 out-of-range;fail timing 2 out-of-range;
tv base 35=100000 113=42420122 => fail out-of-range;fail timing 1 out-of-range;fail timing 2 out-of-range;
tv base 35=080000 113=48482525 => fail timing 1 out-of-range;fail timing 2 out-of-range;
tv base 35=080000 113=48480124 => fail out-of-range;fail timing 1 out-of-range;fail timing 2 out-of-range;
tv base 35=040000 113=4b4b2525 => fail timing 1 out-of-range;fail timing 2 out-of-range;
tv base 35=040000 113=4b4b0124 => fail out-of-range;fail timing 1 out-of-range;fail timing 2 out-of-range;
tv base 35=020000 113=38382323 => fail timing 1 out-of-range;fail timing 2 out-of-range;
tv base 35=020000 113=38380122 => fail out-of-range;fail timing 1 out-of-range;fail timing 2 out-of-range;
tv base 35=010000 113=3c3c2525 => fail timing 1 out-of-range;fail timing 2 out-of-range;
tv base 35=010000 113=3c3c0124 => fail out-of-range;fail timing 1 out-of-range;fail timing 2 out-of-range;
tv base 35=008000 113=48483030 => fail timing 1 out-of-range;fail timing 2 out-of-range;
tv base 35=008000 113=4848012f => fail out-of-range;fail timing 1 out-of-range;fail timing 2 out-of-range;
tv base 35=004000 113=4b4b2e2e => fail timing 1 out-of-range;fail timing 2 out-of-range;
tv base 35=004000 113=4b4b012d => fail out-of-range;fail timing 1 out-of-range;fail timing 2 out-of-range;
tv base 35=002000 113=4a4a3131 => fail timing 1 out-of-range;fail timing 2 out-of-range;
tv base 35=002000 113=4a4a0130 => fail out-of-range;fail timing 1 out-of-range;fail timing 2 out-of-range;
tv base 35=001000 113=56562323 => fail timing 1 out-of-range;fail timing 2 out-of-range;
tv base 35=001000 113=56560122 => fail out-of-range;fail timing 1 out-of-range;fail timing 2 out-of-range;
tv base 35=000800 113=3c3c3030 => fail timing 1 out-of-range;fail timing 2 out-of-range;
tv base 35=000800 113=3c3c012f => fail out-of-range;fail timing 1 out-of-range;
tv base 35=000400 113=46463838 => fail timing 1 out-of-range;fail timing 2 out-of-range;
tv base 35=000400 113=46460137 => fail out-of-range;fail timing 1 out-of-range;fail timing 2 out-of-range;
tv base 35=000200 113=4b4b3c3c => fail timing 1 out-of-range;fail timing 2 out-of-range;
tv base 35=000200 113=4b4b013b => fail out-of-range;fail timing 1 out-of-range;fail timing 2 out-of-range;
tv base 35=000100 113=4b4b4f4f => fail timing 1 out-of-range;fail timing 2 out-of-range;
tv base 35=000100 113=4b4b014e => fail out-of-range;fail timing 1 out-of-range;fail timing 2 out-of-range;
tv base 35=000080 113=4b4b4444 => fail timing 1 out-of-range;fail timing 2 out-of-range;
tv base 35=000080 113=4b4b0143 => fail out-of-range;fail timing 1 out-of-range;fail timing 2 out-of-range;
";
