//! The rule for what a link carries.

/// What is changed in the television, and the lines of what is then wrong, with `;` for each line feed. Its HDMI block gives no clock, and
/// limits of 0 limit nothing. In 1.4 the low digit of the input is 2 for HDMI, 1 for DVI and 5 for DisplayPort. The monitor timings 33 and 34 have 162 and 175.5
/// MHz; 1920x1200 at 60 Hz by CVT with reduced blanking of version 2 has 148.2 MHz, 2560x1440 has 234.59. Codes 84, 85, 63, 97, 118 and 199 have clocks of 165, 198, 297, 594, 1188 and 2376 MHz; 117 has that of 118 and
/// longer lines, 198 that of 199.
pub(crate) const LINKS: &str = "\
tv 113=01ff01ffff 136=54 => none
tv 113=01ff01ffff 136=55 => fail link-clock;
tv 113=01ff01ffff 136=55 148=01 => none
tv 113=01ff01ffff 118=01 19=04 20=a2 136=55 => warn hdmi-of-1.3;fail link-clock;
tv 113=01ff01ffff 118=01 19=04 20=a0 136=55 => warn hdmi-of-1.3;fail link-clock;
tv 113=01ff01ffff 118=01 19=04 20=a5 136=55 54=7540 => warn hdmi-of-1.3;
tv 113=01ff01ffff 118=01 19=04 20=a1 136=55 => warn hdmi-of-1.3;
tv 113=01ff01ffff 20=00 136=55 54=7540 => none
tv 113=01ff01ffff 130=1c 136=55 145=67030c0010008000e200cf => fail link-clock;
tv 113=01ff01ffff 130=1c 136=54 145=67030c0010008000e200cf => none
tv 113=01ff01ffff 130=1c 136=55 145=67030c0010008027e200cf => fail link-clock;
tv 113=01ff01ffff 130=1c 136=55 145=67030c0010008028e200cf => none
tv 113=01ff01ffff 130=1c 136=3f 145=67030c001000811de200cf => fail link-clock;
tv 113=01ff01ffff 130=1c 136=3f 145=67030c001000811ee200cf => none
tv 113=01ff01ffff 130=1c 136=3f 145=67030c001000801ee200cf => fail link-clock;
tv 113=01ff01ffff 130=22 136=61 154=67d85dc401760000 => fail link-clock;
tv 113=01ff01ffff 130=22 136=61 154=67d85dc401770000 => none
tv 113=01ff01ffff 130=22 136=61 154=e779000001770000 => none
tv 113=01ff01ffff 130=22 136=61 154=67d85dc501770000 => fail link-clock;
tv 113=01ff01ffff 130=22 136=61 154=67d85dc401008010 => fail link-clock;
tv 113=01ff01ffff 130=22 136=61 154=67d85dc401008020 => none
tv 113=01ff01ffff 130=22 136=75 154=67d85dc401788020 => fail link-clock;
tv 113=01ff01ffff 130=22 136=75 154=67d85dc401788030 => none
tv 113=01ff01ffff 130=22 136=76 154=67d85dc401788030 => fail link-clock;
tv 113=01ff01ffff 130=22 136=76 154=67d85dc401788040 => none
tv 113=01ff01ffff 130=22 136=c6 154=67d85dc401788050 => fail link-clock;
tv 113=01ff01ffff 130=22 136=c6 154=67d85dc401788060 => none
tv 113=01ff01ffff 130=22 136=c7 154=67d85dc401788060 => fail link-clock;
tv 113=01ff01ffff 130=22 136=c7 154=67d85dc401788070 => warn reserved;
tv 113=01ff01ffff 130=26 136=c7 154=6bd85dc40178801000000080 => fail link-clock;
tv 113=01ff01ffff 130=26 136=c7 154=6bd85dc40178802000000080 => none
tv 113=01ff01ffff 130=25 154=67d85dc401788030e20ec7 => fail link-clock;
tv 113=01ff01ffff 130=25 154=67d85dc401788040e20ec7 => none
tv 130=1f 145=67030c001000803be200cfe20e61 => fail link-clock;
tv 130=1f 145=67030c001000803ce200cfe20e61 => none
tv 130=1f 145=67030c001000803ce200cfe20ee1 => warn vic-reserved;
tv 113=01ff01ffff 130=1f 136=61 145=67030c001000803ce200cfe20f08 => fail link-clock;
tv 113=01ff01ffff 130=20 136=5f 145=6b030c001000b83b20002001e200cf => fail link-clock;
tv 113=01ff01ffff 130=20 136=5f 145=6b030c001000b83c20002001e200cf => none
tv 113=01ff01ffff 54=7440 => none
tv 113=01ff01ffff 54=7540 => fail timing 1 link-clock;
tv 113=01ff01ffff 72=7540 => fail timing 2 link-clock;
tv 113=01ff01ffff 154=7540801871382d40582c450008222100001e => fail timing 3 link-clock;
tv 113=01ff01ffff 130=22 54=60ea 154=67d85dc401780000 => none
tv 113=01ff01ffff 130=22 54=61ea 154=67d85dc401780000 => fail timing 1 link-clock;
tv 113=01ff01ffff 130=22 54=61ea 154=67d85dc401788020 => none
tv 113=01ff01ffff 130=31 154=f62200878402047f07170157802b0037042c0003800400 => none
tv 113=01ff01ffff 130=31 154=f62200888402047f07170157802b0037042c0003800400 => fail link-clock;
tv 113=01ff01ffff 118=01 19=04 20=a5 54=7540 130=31 154=f62200888402047f07170157802b0037042c0003800400 => warn hdmi-of-1.3;
tv 113=01ff01ffff 130=1e 154=e3230033 => none
tv 113=01ff01ffff 130=1e 154=e3230034 => fail link-clock;
tv 113=01ff01ffff 130=23 154=e82a00027f07af043b => none
tv 113=01ff01ffff 130=23 154=e82a0002ff099f053b => fail link-clock;
tv 113=01ff01ffff 136=55 130=1e 154=e3230034 => fail link-clock;
tv other 113=01ff01ffff 256=70200403002300013382 => fail block-map;
tv other 113=01ff01ffff 256=70200403002300013481 => fail block-map;fail link-clock;
tv other 113=01ff01ffff 256=70200403002340015421 => fail block-map;
tv other 113=01ff01ffff 256=70200403002340015520 => fail block-map;fail link-clock;
";
