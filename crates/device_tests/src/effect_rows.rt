//! The opcode table, a line for each opcode and kind. Each frame comes from the tuner at 3 where nothing asks for
//! another initiator; operands are those of CEC 13 and CEC 17.

/// Messages of one to four operands that a direct frame carries.
pub(crate) const DIRECT: &str = "\
tv+amp+player+recorder+combo | - | 3@ 00 41 04 | - | -
tv | power=off | 3@ 04 | power=on | -
amp+player+recorder+combo | power=off | 3@ 04 | - | @3 00 04 00
tv | osd=68_69 power=off | 3@ 0d | power=on osd=- | -
amp+player+recorder+combo | - | 3@ 0d | - | @3 00 0d 00
player+recorder+combo | deck=19 | 3@ 1a 01 | sub=3 | @3 1b 19
player+recorder+combo | sub=3 | 3@ 1a 02 | sub=- | -
player+recorder+combo | - | 3@ 1a 03 | - | @3 1b 1a
player+recorder+combo | - | 3@ 1a 04 | - | @3 00 1a 03
player+recorder+combo | - | f@ 1a 01 | sub=f | -
tv+amp | - | 3@ 1a 01 | - | @3 00 1a 00
tv+amp+player+recorder+combo | - | 3@ 1b 11 | heard=3:1b:11 | -
tv+amp | held=44 | 3@ 36 | power=off held=- | -
player+recorder+combo | menu=on held=44 sub=3 deck=11 | 3@ 36 | power=off menu=off held=- sub=- deck=1a | -
player+recorder+combo | deck=19 | 3@ 36 | power=off | -
player+recorder+combo | power=off | 3@ 41 24 | power=on deck=11 | -
player+recorder+combo | sub=3 | 3@ 41 25 | deck=14 | @3 1b 14
player+recorder+combo | - | 3@ 41 05 | deck=17 | -
player+recorder+combo | - | 3@ 41 06 | deck=17 | -
player+recorder+combo | - | 3@ 41 07 | deck=17 | -
player+recorder+combo | - | 3@ 41 09 | deck=18 | -
player+recorder+combo | - | 3@ 41 0a | deck=18 | -
player+recorder+combo | - | 3@ 41 0b | deck=18 | -
player+recorder+combo | deck=11 sub=3 | 3@ 41 24 | - | -
player+recorder+combo | deck=19 | 3@ 41 24 | - | @3 00 41 01
player+recorder+combo | deck=19 | 3@ 41 08 | - | @3 00 41 03
player+recorder+combo | - | 3@ 41 | - | -
tv+amp | - | 3@ 41 24 | - | @3 00 41 00
player+recorder+combo | sub=3 | 3@ 42 01 | deck=1b | @3 1b 1b
player+recorder+combo | - | 3@ 42 02 | deck=1c | -
player+recorder+combo | deck=11 sub=3 | 3@ 42 03 | deck=1a | @3 1b 1a
player+recorder+combo | sub=3 | 3@ 42 04 | deck=19 | @3 1b 19
player+recorder+combo | deck=19 sub=3 | 3@ 42 04 | - | -
player+recorder+combo | deck=19 | 3@ 42 01 | - | @3 00 42 01
player+recorder+combo | power=off | 3@ 42 04 | - | @3 00 42 01
player+recorder+combo | power=off | 3@ 42 05 | - | @3 00 42 03
tv+amp | - | 3@ 42 01 | - | @3 00 42 00
tv+amp+player+recorder+combo | held=44 | 3@ 45 | held=- | -
tv+amp+player+recorder+combo | - | 3@ 46 | - | @3 47 70 31
tv+amp+player+recorder+combo | - | f@ 46 | - | -
tv+amp+player+recorder+combo | - | 3@ 47 68 69 | heard=3:47:68 | -
tv | - | 3@ 64 00 68 69 | osd=68_69 | -
tv | - | 3@ 64 40 68 69 | osd=68_69 | -
tv | osd=68_69 | 3@ 64 80 | osd=- | -
tv | osd=68_69 | 3@ 64 80 68 | osd=- | -
tv | - | 3@ 64 00 | - | @3 00 64 03
tv | power=off | 3@ 64 00 68 | - | @3 00 64 01
tv | power=off | 3@ 64 80 | - | @3 00 64 01
tv | power=off | 3@ 64 01 68 | - | @3 00 64 03
amp+player+recorder+combo | - | 3@ 64 00 68 | - | @3 00 64 00
amp | power=off | 3@ 70 10 00 | power=on audio=on | @f 72 01
amp | audio=on power=off | 3@ 70 | audio=off | @f 72 00
amp | - | 3@ 70 10 | - | -
tv+player+recorder+combo | - | 3@ 70 | - | @3 00 70 00
amp | volume=35 | 3@ 71 | - | @3 7a 23
amp | mute=on | 3@ 71 | - | @3 7a 94
tv+player+recorder+combo | - | 3@ 71 | - | @3 00 71 00
tv | - | 3@ 72 01 | audio=on | -
tv | audio=on | 3@ 72 00 | audio=off | -
tv | - | 3@ 72 02 | - | @3 00 72 03
amp+player+recorder+combo | - | 3@ 72 01 | - | @3 00 72 00
tv+amp+player+recorder+combo | - | 3@ 7a 94 | heard=3:7a:94 | -
amp | audio=on | 3@ 7d | - | @3 7e 01
amp | - | 3@ 7d | - | @3 7e 00
tv+player+recorder+combo | - | 3@ 7d | - | @3 00 7d 00
tv+amp+player+recorder+combo | - | 3@ 7e 01 | heard=3:7e:01 | -
tv | - | 3@ 83 | - | @f 84 00 00 00
amp | - | 3@ 83 | - | @f 84 10 00 05
player | - | 3@ 83 | - | @f 84 10 00 04
recorder | - | 3@ 83 | - | @f 84 10 00 01
combo | - | 3@ 83 | - | @f 84 10 00 04
tv+amp+player+recorder+combo | - | 3@ 8c | - | @f 87 02 00 00
player+recorder+combo | - | 3@ 8d 00 | menu=on | @3 8e 00
player+recorder+combo | menu=on | 3@ 8d 01 | menu=off | @3 8e 01
player+recorder+combo | menu=on | 3@ 8d 02 | - | @3 8e 00
player+recorder+combo | - | 3@ 8d 02 | - | @3 8e 01
player+recorder+combo | power=off | 3@ 8d 00 | - | @3 00 8d 01
player+recorder+combo | power=off | 3@ 8d 03 | - | @3 00 8d 03
tv+amp | - | 3@ 8d 00 | - | @3 00 8d 00
tv+amp+player+recorder+combo | - | 3@ 8e 01 | heard=3:8e:01 | -
tv+amp+player+recorder+combo | - | 3@ 8f | - | @3 90 00
tv+amp+player+recorder+combo | power=off | 3@ 8f | - | @3 90 01
tv+amp+player+recorder+combo | - | 3@ 90 01 | heard=3:90:01 | -
tv | lang=667261 | 3@ 91 | - | @f 32 66 72 61
amp+player+recorder+combo | - | 3@ 91 | - | @3 00 91 00
tv | active=1000 | 3@ 9d 10 00 | active=- | -
tv | active=1000 | 3@ 9d 11 00 | - | -
amp+player+recorder+combo | active=1000 | 3@ 9d 10 00 | - | @3 00 9d 00
tv+amp+player+recorder+combo | - | 3@ 9e 05 | heard=3:9e:05 | -
tv+amp+player+recorder+combo | - | 3@ 9f | - | @3 9e 05
tv | - | 3@ c0 | arc=on | @3 c1
tv | power=off | 3@ c0 | - | @3 00 c0 01
amp+player+recorder+combo | - | 3@ c0 | - | @3 00 c0 00
amp | - | 3@ c1 | arc=on | -
tv+player+recorder+combo | - | 3@ c1 | - | @3 00 c1 00
amp | arc=on | 3@ c2 | arc=off | -
tv | arc=on | 3@ c2 | - | @3 00 c2 00
player+recorder+combo | - | 3@ c2 | - | @3 00 c2 00
amp | - | 0@ c3 | - | @0 c0
amp | - | 3@ c3 | - | @3 00 c3 04
tv+player+recorder+combo | - | 3@ c3 | - | @3 00 c3 00
amp | - | 0@ c4 | - | @0 c5
amp | - | 3@ c4 | - | @3 00 c4 04
tv+player+recorder+combo | - | 3@ c4 | - | @3 00 c4 00
tv | arc=on | 3@ c5 | arc=off | @3 c2
amp | arc=on | 3@ c5 | - | @3 00 c5 00
player+recorder+combo | - | 3@ c5 | - | @3 00 c5 00
tv+amp+player+recorder+combo | - | 3@ ff | - | @3 00 ff 00";

/// Codes of a remote control, which Section 3 of the profile's tables lists.
pub(crate) const PRESSED: &str = "\
tv+amp+player+recorder+combo | power=off | 3@ 44 40 | power=on held=40 | -
tv+amp+player+recorder+combo | power=off | 3@ 44 6d | power=on held=6d | -
tv+amp+player+recorder+combo | power=off | 3@ 44 44 | - | -
tv+amp+player+recorder+combo | power=off | 3@ 44 6c | - | -
tv+amp | held=01 | 3@ 44 40 | power=off held=- | -
player+recorder+combo | menu=on held=01 sub=3 deck=11 | 3@ 44 40 | power=off menu=off held=- sub=- deck=1a | -
tv+amp | held=01 | 3@ 44 6c | power=off held=- | -
player+recorder+combo | menu=on held=01 sub=3 deck=11 | 3@ 44 6c | power=off menu=off held=- sub=- deck=1a | -
tv+amp+player+recorder+combo | - | 3@ 44 6d | held=6d | -
tv+amp+player+recorder+combo | - | 3@ 44 00 | held=00 | -
tv+amp | - | 3@ 44 41 | held=41 volume=21 | -
tv+amp | volume=100 | 3@ 44 41 | held=41 | -
tv+amp | - | 3@ 44 42 | held=42 volume=19 | -
tv+amp | volume=0 | 3@ 44 42 | held=42 | -
tv+amp | - | 3@ 44 43 | held=43 mute=on | -
tv+amp | mute=on | 3@ 44 43 | held=43 mute=off | -
amp | audio=on | 3@ 44 41 | held=41 volume=21 | @3 7a 15
amp | audio=on mute=on | 3@ 44 42 | held=42 volume=19 | @3 7a 93
amp | audio=on | 3@ 44 43 | held=43 mute=on | @3 7a 94
tv | audio=on | 3@ 44 41 | held=41 volume=21 | -
player+recorder+combo | - | 3@ 44 41 | held=41 | -
player+recorder+combo | - | 3@ 44 42 | held=42 | -
player+recorder+combo | - | 3@ 44 43 | held=43 | -
player+recorder+combo | sub=3 | 3@ 44 44 | held=44 deck=11 | @3 1b 11
player+recorder+combo | deck=11 | 3@ 44 45 | held=45 deck=1a | -
player+recorder+combo | - | 3@ 44 46 | held=46 deck=14 | -
player+recorder+combo | deck=19 | 3@ 44 44 | held=44 | -
player+recorder+combo | deck=19 | 3@ 44 45 | held=45 | -
player+recorder+combo | deck=19 | 3@ 44 46 | held=46 | -
tv+amp | - | 3@ 44 44 | held=44 | -
player+recorder+combo | - | 3@ 44 09 | held=09 menu=on | @0 8e 00
player+recorder+combo | menu=on | 3@ 44 09 | held=09 | -
player+recorder+combo | menu=on | 3@ 44 0d | held=0d menu=off | @0 8e 01
player+recorder+combo | - | 3@ 44 0d | held=0d | -
tv+amp | - | 3@ 44 09 | held=09 | -
tv+amp | - | 3@ 44 0d | held=0d | -";

/// Messages to all. A switch selects by them and says where it leads.
pub(crate) const BROADCAST: &str = "\
amp+player+recorder+combo | - | 0f 32 66 72 61 | lang=667261 | -
amp+player+recorder+combo | - | 3f 32 66 72 61 | - | -
tv+switch | - | 0f 32 66 72 61 | - | -
tv+amp | held=44 | 3f 36 | power=off held=- | -
switch | - | 3f 36 | power=off | -
player+recorder+combo | menu=on held=44 sub=3 deck=11 | 3f 36 | power=off menu=off held=- sub=- deck=1a | -
tv | audio=on | 3f 72 00 | audio=off | -
tv | - | 3f 72 02 | - | -
amp+player+recorder+combo+switch | - | 3f 72 01 | - | -
tv+amp+player+recorder+combo | active=1200 | 3f 80 11 00 12 00 | path=1200 active=- | -
player | - | 3f 80 20 00 10 00 | path=1000 | -
switch | - | 3f 80 20 00 10 00 | path=1000 | ff 81 11 00
switch | sel=2 | 3f 80 20 00 10 00 | path=1000 | ff 81 12 00
switch | active=1100 | 3f 80 10 00 20 00 | path=2000 active=- | -
tv+amp+player+recorder+combo | active=1200 | 3f 81 12 00 | path=1200 active=- | -
switch | active=1100 | 3f 81 10 00 | path=1000 active=- | ff 81 11 00
switch | - | 3f 81 11 00 | path=1100 | -
tv+amp+player+recorder+combo | - | 3f 82 12 00 | active=1200 path=1200 | -
switch | - | 3f 82 12 00 | active=1200 path=1200 sel=2 | -
switch | - | 3f 82 13 21 | active=1321 path=1321 sel=3 | -
switch | - | 3f 82 14 00 | active=1400 path=1400 | -
switch | - | 3f 82 22 00 | active=2200 path=2200 | -
switch | sel=2 | 3f 82 10 00 | active=1000 path=1000 | -
tv+amp+player+recorder+combo+switch | - | 3f 84 10 00 04 | heard=3:84:10 | -
amp+player+recorder+combo | active=1000 | 3f 85 | - | @f 82 10 00
tv | active=0000 | 3f 85 | - | @f 82 00 00
switch | active=1000 | 3f 85 | - | ff 82 10 00
amp+player+recorder+combo | active=1000 power=off | 3f 85 | - | -
tv+amp+player+recorder+combo | active=1100 | 3f 85 | - | -
tv+amp+player+recorder+combo | - | 3f 85 | - | -
amp+player+recorder+combo | power=off | 0f 86 10 00 | path=1000 power=on active=1000 | @f 82 10 00
amp+player+recorder+combo | power=off | 0f 86 12 00 | path=1200 | -
tv | power=off | 3f 86 00 00 | path=0000 | -
switch | power=off | 0f 86 12 00 | path=1200 sel=2 | -
switch | power=off | 0f 86 10 00 | path=1000 | -
tv+amp+player+recorder+combo+switch | - | 3f 87 02 00 00 | heard=3:87:02 | -";

/// What goes the wrong way, to an address that is not the device's, or is a poll.
pub(crate) const IGNORED: &str = "\
tv+amp+player+recorder+combo | - | 3@ 32 66 72 61 | - | -
tv+amp+player+recorder+combo | - | 3@ 80 11 00 12 00 | - | -
tv+amp+player+recorder+combo | - | 3@ 81 11 00 | - | -
tv+amp+player+recorder+combo | - | 3@ 82 11 00 | - | -
tv+amp+player+recorder+combo | - | 3@ 84 11 00 04 | - | -
tv+amp+player+recorder+combo | active=1000 | 3@ 85 | - | -
tv+amp+player+recorder+combo | - | 3@ 86 10 00 | - | -
tv+amp+player+recorder+combo | - | 3@ 87 02 00 00 | - | -
tv | power=off | 3f 04 | - | -
tv | power=off | 3f 0d | - | -
player | - | 3f 1a 01 | - | -
player | - | 3f 1b 11 | - | -
player | - | 3f 41 24 | - | -
player | - | 3f 42 01 | - | -
tv | power=off | 3f 44 40 | - | -
tv | held=44 | 3f 45 | - | -
player | - | 3f 46 | - | -
player | - | 3f 47 68 | - | -
tv | - | 3f 64 00 68 | - | -
amp | - | 3f 70 | - | -
amp | - | 3f 71 | - | -
amp | - | 3f 7a 14 | - | -
amp | - | 3f 7d | - | -
amp | - | 3f 7e 01 | - | -
player | - | 3f 83 | - | -
player | - | 3f 8c | - | -
player | - | 3f 8d 00 | - | -
player | - | 3f 8e 00 | - | -
player | - | 3f 8f | - | -
player | - | 3f 90 00 | - | -
tv | - | 3f 91 | - | -
tv | active=1000 | 3f 9d 10 00 | - | -
player | - | 3f 9e 05 | - | -
player | - | 3f 9f | - | -
tv | - | 3f c0 | - | -
amp | - | 3f c1 | - | -
amp | arc=on | 3f c2 | - | -
amp | - | 0f c3 | - | -
amp | - | 0f c4 | - | -
tv | arc=on | 3f c5 | - | -
player | - | 3f ff | - | -
player | - | 38 46 | - | -
player | - | 34 | - | -
player | - | 3f | - | -
player | - | 3f 33 | - | -
player | - | f4 33 | - | -
player | - | f4 e5 | - | -";

/// A box of a recorder at 1 and a player at 4. What a direct frame makes it say comes from that frame's destination, and
/// all else from 4.
pub(crate) const BOX: &str = "\
combo | - | 31 83 | - | 1f 84 10 00 01
combo | - | 34 83 | - | 4f 84 10 00 04
combo | - | 31 8c | - | 1f 87 02 00 00
combo | - | 31 46 | - | 13 47 70 31
combo | - | 31 04 | - | 13 00 04 00
combo | - | 31 33 | - | 13 00 33 00
combo | sub=3 | 01 41 25 | deck=14 | 13 1b 14
combo | - | 31 1a 01 | sub=3 | 13 1b 1a
combo | - | 31 44 09 | held=09 menu=on | 10 8e 00
combo | - | 31 8d 00 | menu=on | 13 8e 00
combo | sub=4 | 31 41 25 | deck=14 | -
combo | active=1000 | 3f 85 | - | 4f 82 10 00
combo | power=off | 0f 86 10 00 | path=1000 power=on active=1000 | 4f 82 10 00
combo | sub=3 | press eject | deck=19 | 43 1b 19
combo | sub=1 | press eject | deck=19 | -
combo | - | 32 46 | - | -
combo | - | 39 46 | - | -
combo | - | 38 46 | - | -
combo | - | 31 84 11 00 04 | - | -
combo | - | 31 | - | -";

/// Opcodes without a line of their own are refused.
pub(crate) const UNKNOWN: &str = "\
tv+amp+player+recorder+combo | - | 3@ 05 01 | - | @3 00 05 00
tv+amp+player+recorder+combo | - | 3@ 06 | - | @3 00 06 00
tv+amp+player+recorder+combo | - | 3@ 07 | - | @3 00 07 00
tv+amp+player+recorder+combo | - | 3@ 08 | - | @3 00 08 00
tv+amp+player+recorder+combo | - | 3@ 09 | - | @3 00 09 00
tv+amp+player+recorder+combo | - | 3@ 0a | - | @3 00 0a 00
tv+amp+player+recorder+combo | - | 3@ 0b | - | @3 00 0b 00
tv+amp+player+recorder+combo | - | 3@ 0f | - | @3 00 0f 00
tv+amp+player+recorder+combo | - | 3@ 33 | - | @3 00 33 00
tv+amp+player+recorder+combo | - | 3@ 34 | - | @3 00 34 00
tv+amp+player+recorder+combo | - | 3@ 35 | - | @3 00 35 00
tv+amp+player+recorder+combo | - | 3@ 43 | - | @3 00 43 00
tv+amp+player+recorder+combo | - | 3@ 67 | - | @3 00 67 00
tv+amp+player+recorder+combo | - | 3@ 89 | - | @3 00 89 00
tv+amp+player+recorder+combo | - | 3@ 8a | - | @3 00 8a 00
tv+amp+player+recorder+combo | - | 3@ 8b | - | @3 00 8b 00
tv+amp+player+recorder+combo | - | 3@ 92 | - | @3 00 92 00
tv+amp+player+recorder+combo | - | 3@ 93 | - | @3 00 93 00
tv+amp+player+recorder+combo | - | 3@ 97 | - | @3 00 97 00
tv+amp+player+recorder+combo | - | 3@ 99 | - | @3 00 99 00
tv+amp+player+recorder+combo | - | 3@ 9a | - | @3 00 9a 00
tv+amp+player+recorder+combo | - | 3@ a0 | - | @3 00 a0 00
tv+amp+player+recorder+combo | - | 3@ a1 | - | @3 00 a1 00
tv+amp+player+recorder+combo | - | 3@ a2 | - | @3 00 a2 00
tv+amp+player+recorder+combo | - | 3@ e5 | - | @3 00 e5 00
tv+amp+player+recorder+combo | - | 3@ 01 02 | - | @3 00 01 00";
