//! What the calls are given, and what is wanted of them, worked out by hand. Lines are parted by `|`.

/// A television alone. It polls from 12,000 to 39,150 microseconds.
pub(crate) const ALONE: &str = "device tv tv 4";

/// Scripts for it, and their stretches, or why there are none.
pub(crate) const SWEEPS: &str = "\
expect from 0 to 39140..39160 0>0|end 50000 => not: 39140..39149 not-ok|39150..39160 ok|
expect from 0 to 39140..39163/4 0>0|end 50000 => not: 39140..39148 not-ok|39152..39160 ok|
expect from 0 to 39150..39150 0>0|end 50000 => all: 39150..39150 ok|
expect from 11995..12004 to 50000 0>0|end 60000 => not: 11995..12000 ok|12001..12004 not-ok|
expect none from 11995..12004 to 50000 0>0|end 60000 => not: 11995..12000 not-ok|12001..12004 ok|
label a at 7 press tv mute|expect once within 39140..39145 of a 0>0|end 60000 => not: 39140..39142 not-ok|39143..39145 ok|
label a at 11990..12002/3 press tv mute|expect within 27155 of a 0>0|end 60000 => not: 11990..11993 not-ok|11996..11999 ok|12002..12002 not-ok|
at 5..7 press tv eject|expect from 0 to 50000 0>0|end 60000 => not: 5..7 ok not-ok|
at 5..7 press tv mute|end 10 => all: 5..7|
label g pulse 300000..300002 10|expect none within 100 of g 0>0|end 400000 => all: 300000..300002 ok|
expect at most 1 from 11995..12004 to 50000 0>0|end 60000 => all: 11995..12004 ok|
expect exactly 0 from 11995..12004 to 50000 0>0|end 60000 => not: 11995..12000 not-ok|12001..12004 ok|
label a at 7 press tv mute|expect at least 1 within 39140..39145 of a 0>0|end 60000 => not: 39140..39142 not-ok|39143..39145 ok|
expect exactly 1..2 from 0 to 9 short|end 60000 => no range
expect at last 1 from 0..9 to 9 short|end 60000 => no range
at 5 press tv mute|end 10 => no range
label 5..7 at 5 press tv mute|end 10 => no range
at 5.7 press tv mute|end 10 => no range
at 5 send tv 0>f set-osd-name \"at 5..7\"|end 10 => no range
# at 5..7|end 10 => no range
expect from 0 to 9 at 5..7|end 10 => no range
at 5.. press tv mute|end 10 => script line 1: number in word 1
at ..7 press tv mute|end 10 => script line 1: number in word 1
at 05..7 press tv mute|end 10 => script line 1: number in word 1
at 5..x press tv mute|end 10 => script line 1: number in word 1
at 5...7 press tv mute|end 10 => script line 1: number in word 1
at 5..7/0 press tv mute|end 10 => script line 1: number in word 1
at 5..7/ press tv mute|end 10 => script line 1: number in word 1
at 5..7/1/2 press tv mute|end 10 => script line 1: number in word 1
pulse 5..1000000000001 10|end 10 => script line 1: number in word 1
end 1000000000001..1000000000002 => script line 1: number in word 1
at 5..7/1000000000001 press tv mute|end 10 => script line 1: number in word 1
at 5..7/18446744073709551617 press tv mute|end 10 => script line 1: number in word 1
at 5..7/1000000000000 press tv mute|end 10 => all: 5..5|
at 0..1000000 press x mute|end 10 => script line 1: range in word 1
at 0..999999 press x mute|end 1000000 => script line 1: name at 0
at 0..999999 press x mute|end 999999 => script line 1: order with line 2 in word 1
at 0..2000000/2 press x mute|end 10 => script line 1: range in word 1
at 0..1999999/2 press x mute|end 1999999 => script line 1: name at 0
at 0..1999999/2 press x mute|end 1999998 => script line 1: order with line 2 in word 1
at 0..1000000000000 press x mute|end 10 => script line 1: range in word 1
at 5..7 press tv mute|at 0..1000000 press tv mute|end 10 => script line 2: range in word 1
at 7..5 press tv mute|end 10 => script line 1: order in word 1
label a at 5 press tv mute|label b at 7..6 press tv mute|end 10 => script line 2: order in word 3
at 5..7 press tv mute|at 8..9 press tv mute|end 10 => script line 2: range in word 1
at 5..7 press tv mute|end 9..8 => script line 2: order in word 1
at 5..7 press tv mute|pulse 9..x 10|end 10 => script line 2: number in word 1
at 7..5 press tv mute|end x..9 => script line 1: order in word 1
expect from 3..4 to 5..6 short|end 10 => script line 1: range in word 4
expect once within 3..2 of a short|end 10 => script line 1: order in word 3
expect at most 1 within 3..2 of a short|end 10 => script line 1: order in word 5
expect state 3..2 tv on|end 10 => script line 1: order in word 2
at 5..12 press tv mute|end 10 => script line 1: order with line 2 in word 1
at 5..10 press tv mute|end 10 => script line 1: order with line 2 in word 1
at 5..9 press tv mute|end 10 => all: 5..9|
at 5..10/4 press tv mute|end 10 => all: 5..9|
label a at 5..12 press tv mute|end 10 => script line 1: order with line 2 in word 3
at 7 press tv mute|end 5..9 => script line 2: order with line 1 in word 1
at 5 press tv mute|at 3..9 press tv mute|end 10 => script line 2: order with line 1 in word 1
at 5 press tv mute|at 5..9 press tv mute|end 10 => all: 5..9|
at 5..9 press tv mute|at 9 press tv mute|end 10 => all: 5..9|
at 5..9 press tv mute|at 8 press tv mute|end 10 => script line 1: order with line 2 in word 1
at 5 press tv mute|at 3..12 press tv mute|end 10 => script line 2: order with line 1 in word 1
# at 6|at 5..9 press tv mute|expect none from 0 to 3 short|end 10 => all: 5..9 ok|
pulse 0..14990/14990 10|pulse 40000 10|end 50000 => all: 0..14990|
pulse 0..14991/14991 10|pulse 40000 10|end 50000 => script line 1: order with line 2 in word 1
pulse 0 10|at 1 press tv mute|pulse 25009..25011 10|end 50000 => script line 3: order with line 1 in word 1
label g pull 300000..300002 10|expect none within 100 of g 0>0|end 400000 => all: 300000..300002 ok|
pull 5..1000000000001 10|end 10 => script line 1: number in word 1
pull 0..14990/14990 10|pull 15001 10|end 50000 => all: 0..14990|
pull 0..14991/14991 10|pull 15001 10|end 50000 => script line 1: order with line 2 in word 1
pull 0..14990/14990 10|pulse 40000 10|end 50000 => all: 0..14990|
pull 0..14991/14991 10|pulse 40000 10|end 50000 => script line 1: order with line 2 in word 1
pulse 0 10|pull 11..12 10|end 50000 => all: 11..12|
pulse 0 10|pull 10..12 10|end 50000 => script line 2: order with line 1 in word 1
pull 0..1 10000000|pull 10000001 5|end 50000 => script line 1: order with line 2 in word 1
pull 0..1 20000000|pull 10000003 5|end 50000 => script line 1: width at 0
label g pin 300000..300002 0|expect none within 100 of g 0>0|end 400000 => all: 300000..300002 ok|
pin 5..1000000000001 0|end 10 => script line 1: number in word 1
pin 0 0|pin 1..3 1|end 50000 => all: 1..3|
pin 0 0|pin 0..3 1|end 50000 => script line 2: order with line 1 in word 1
pin 5..8 0|pin 9 1|end 50000 => all: 5..8|
pin 5..9 0|pin 9 1|end 50000 => script line 1: order with line 2 in word 1
pin 0 0|pin 9 1|pin 9..11 0|end 50000 => script line 3: order with line 2 in word 1
pin 0 0|pin 5 0|pin 5..7 0|end 50000 => all: 5..7|
pull 0 10|pin 11..12 0|end 50000 => all: 11..12|
pull 0 10|pin 10..12 0|end 50000 => script line 2: order with line 1 in word 1
pull 0 10|pin 10..12 1|end 50000 => all: 10..12|
pull 0 10|pin 9..12 1|end 50000 => script line 2: order with line 1 in word 1
pulse 0 10|pin 10..12 0|end 50000 => script line 2: order with line 1 in word 1
pulse 0 10|pin 9..12 1|end 50000 => script line 2: order with line 1 in word 1
pin 0 0|pin 4..5 1|pull 6 10|end 50000 => all: 4..5|
pin 0 0|pin 5..8 1|pull 6 10|end 50000 => script line 2: order with line 3 in word 1
pin 0 0|pull 6..7 10|end 50000 => script line 2: order at 6
expect state 5..12 tv on|end 10 => script line 1: order with line 2 in word 2
end 5..9|expect state 7 tv on => script line 1: order with line 2 in word 1
at 5..12 press tv mute|end x => script line 2: number at 5
at 5..7 press x mute|end 10 => script line 1: name at 5
expect from 5 to 3..7 short|end 10 => script line 1: order at 3
at 7..5 press x mute => script line 1: order in word 1";

/// Two decks that announce themselves within a frame's time. The first second is for their addresses.
pub(crate) const DECKS: &str =
    "device tv tv 4|device p1 player 0|device p2 player 0|plug p1 tv 1|plug p2 tv 2";

/// The first deck's key comes at 5,000,000, the second one's before it. Later the television asks who is shown.
pub(crate) const RACE: &str = "\
at RANGE press p2 play|\
label key at 5000000 press p1 play|\
expect within 60000 of key 4>0 image-view-on ack|\
label ask at 6000000 send tv 0>f request-active-source|\
expect within 300000 of ask *>f active-source|\
end 7000000";

/// The second deck's key at T is answered by image-view-on, which is read up to T + 51,150 and leaves the line high from T + 51,600
/// on, and by active-source, which begins at T + 68,400, is read up to T + 167,550, and leaves the line high from T + 167,100 on.
///
/// - Up to 4,931,599 that began before the first deck's key, which waits for its end. The first deck may send from T + 179,100 on,
///   and the television has read it at T + 230,250, too late. But the first deck is the active source then, and says so when asked.
/// - Else the first deck has its key before the second one says that it is the active source. It may send from T + 63,600 on, before
///   the second one goes on. Then both say that they are the active source, each hears the other after its own key, and none answers.
///   Its first frame is read in time where the key comes at T + 54,750 or later, up to 4,945,250.
/// - From 4,945,251 on it is read too late.
/// - At 5,000,000 both begin at once, and the first deck, with the lower address, wins: its frame is read at 5,051,150.
pub(crate) const RACES: &str = "\
4840000..5000000/10000 => 4840000..4930000 not-ok ok|4940000..4940000 ok not-ok|4950000..4990000 not-ok not-ok|5000000..5000000 ok not-ok|
4931597..4931602 => 4931597..4931599 not-ok ok|4931600..4931602 ok not-ok|
4945248..4945253 => 4945248..4945250 ok not-ok|4945251..4945253 not-ok not-ok|
4999997..5000000 => 4999997..4999999 not-ok not-ok|5000000..5000000 ok not-ok|";

/// Expectations of a capture, and the line at fault, with its word at fault: its number from 0, or that which a missing word would
/// have.
pub(crate) const FAULTS: &str = "\
label a at 5|expect within 1 of a short => none
label a expect from 1 to 2 short|label b at 7|expect once within 1 of a short => none
label at at 5 => none
expect refused a off-wire => expectations line 1: word in word 1
label a at 5|expect refused a off-wire => expectations line 2: word in word 1
label a at 5|expect refused => expectations line 2: word in word 1
expect state 5 tv on => expectations line 1: word in word 1
label a at 5|expect => expectations line 2: word in word 1
at 5 => expectations line 1: word in word 0
label a at 5 mute tv => expectations line 1: word in word 4
label a at x press tv mute => expectations line 1: number in word 3
label a at 5 press tv mute|at 7 unplug p1|pulse 100 10|expect within 1 of a short|end 10 => none
at x press tv mute => expectations line 1: number in word 1
at 5 mute tv => expectations line 1: word in word 0
label a pulse 100 10 => expectations line 1: word in word 2
at 7 unplug p1|pull 100 10|expect from 1 to 2 short|end 10 => none
label a pull 100 10 => expectations line 1: word in word 2
at 7 unplug p1|pin 100 0|expect from 1 to 2 short|end 10 => none
label a pin 100 0 => expectations line 1: word in word 2
pulses 100 10 => expectations line 1: word in word 0
label a at => expectations line 1: word in word 3
label a expect refused b off-wire => expectations line 1: word in word 3
label a end 10 => expectations line 1: word in word 2
label a label b at 5 => expectations line 1: word in word 2
label a => expectations line 1: word in word 2
label => expectations line 1: word in word 1
label a at 5||expect within 1 of a short => none
# a comment => none
expect no-remark => none
expect no-remark free 9 => none
expect no-remark *-low => none
expect no-remark more => expectations line 1: pattern in word 2
expect no-remark  => expectations line 1: word in word 2
label a expect no-remark => expectations line 1: word in word 3
expect no-remarks => expectations line 1: word in word 1
expect remark => expectations line 1: word in word 2
expect remark free => none
expect remark *-low => none
expect remark bit-low slot * block 2 => none
expect remark fre => expectations line 1: pattern in word 2
expect remark attempt => expectations line 1: pattern in word 2
expect remark * * * * * low => expectations line 1: word in word 2
expect remark free  => expectations line 1: word in word 2
label a expect remark free => expectations line 1: word in word 3
expect remark fre|other => expectations line 1: pattern in word 2
expect none from 1 to 2 4>4 nack by p1 => expectations line 1: pattern in word 8
expect from 1 to 2 short 0 by - out - => expectations line 1: pattern in word 7
expect from 1 to 2 4>f active-source :1000 => expectations line 1: pattern in word 7
expect from 1 to 2 open 00 => none
other|expect remark fre => expectations line 1: word in word 0
end 10 => none
pulse 5 10 => none
label a at x => expectations line 1: number in word 3
label a at 05 => expectations line 1: number in word 3
label a at 18446744073709551615 => none
label a at 18446744073709551616 => expectations line 1: number in word 3
label a at 5|label a at x => expectations line 2: number in word 3
label a at 5|expect within x of a short => expectations line 2: number in word 2
label a at 5|label a at 6 => expectations line 2: label in word 1
label  at 5 => expectations line 1: label in word 1
expect within 1 of a short => expectations line 1: label in word 4
expect within 1 of a short|label a at 5 => expectations line 1: label in word 4
expect from 2 to 1 short => expectations line 1: order in word 4
expect from 2 to 1 short|other => expectations line 1: order in word 4
other|expect from 2 to 1 short => expectations line 1: word in word 0";

/// A start bit, and a bit that is low for 820 microseconds (CEC 5.2.2: 400 to 800), after which the frame stops.
pub(crate) const REMARKED: &str = "\
21000 0
24700 1
25500 0
26320 1
40000 end
";

/// What is expected of its remarks, and of its readings.
pub(crate) const WANTED: &str = "\
expect no-remark
expect remark bit-low

# of any bit in the first block
expect remark *-low slot * block 1
expect remark bit-low slot 2
expect remark free
expect from 0 to 40000 silent 1
expect no-remark free
expect no-remark *-low slot *
";

/// Those of readings, and after them those of remarks; below each that fails stand the remarks.
pub(crate) const REMARKS_REPORT: &str = "\
TAP version 13
ok 1 - line 8: expect from 0 to 40000 silent 1
not ok 2 - line 1: expect no-remark
#   slot 1 block 1 bit 1 low 820 not 400..800
#   stops after slot 1 by initiator -
ok 3 - line 2: expect remark bit-low
ok 4 - line 5: expect remark *-low slot * block 1
not ok 5 - line 6: expect remark bit-low slot 2
#   slot 1 block 1 bit 1 low 820 not 400..800
#   stops after slot 1 by initiator -
not ok 6 - line 7: expect remark free
#   slot 1 block 1 bit 1 low 820 not 400..800
#   stops after slot 1 by initiator -
ok 7 - line 9: expect no-remark free
not ok 8 - line 10: expect no-remark *-low slot *
#   slot 1 block 1 bit 1 low 820 not 400..800
1..8
";

/// When a frame begins, and its bits: a television's poll, a frame to it, and one that is not over at the end.
pub(crate) const FRAMES: &str = "\
12000 0000000011
100000 01000000000000010010
300000 00";

pub(crate) const END: u64 = 309_000;

pub(crate) const EXPECTED: &str = "\
label boot at 0
label on expect within 160000 of boot 4>0 image-view-on ack
expect once from 0 to 39150 0>0 nack
expect none from 0 to 39149 0>0
expect within 5 of on short
label late at 100001
expect within 100000 of late 4>0
expect once from 300000 to 310000 open
expect none within 400000 of boot 4>0 image-view-on
expect at most 2 within 400000 of boot *>0
expect exactly 3 from 0 to 310000 *
";

pub(crate) const REPORT: &str = "\
TAP version 13
ok 1 - line 2: label on expect within 160000 of boot 4>0 image-view-on ack
ok 2 - line 3: expect once from 0 to 39150 0>0 nack
ok 3 - line 4: expect none from 0 to 39149 0>0
not ok 4 - line 5: expect within 5 of on short
# seen 0 from 151150 to 151155
not ok 5 - line 7: expect within 100000 of late 4>0
# seen 0 from 100001 to 200001
ok 6 - line 8: expect once from 300000 to 310000 open
not ok 7 - line 9: expect none within 400000 of boot 4>0 image-view-on
# seen 1 from 0 to 400000
# 100000 151150 complete 4>0 image-view-on ack
ok 8 - line 10: expect at most 2 within 400000 of boot *>0
ok 9 - line 11: expect exactly 3 from 0 to 310000 *
1..9
";

/// The objects of the lines of `REPORT`.
pub(crate) const OBJECTS: &str = "\
{\"line\":\"TAP version 13\",\"type\":\"version\",\"version\":13}
{\"line\":\"ok 1 - line 2: label on expect within 160000 of boot 4>0 image-view-on ack\",\"type\":\"test\",\"test\":1,\"script_line\":2,\"holds\":true,\"expectation\":\"label on expect within 160000 of boot 4>0 image-view-on ack\",\"refused\":null}
{\"line\":\"ok 2 - line 3: expect once from 0 to 39150 0>0 nack\",\"type\":\"test\",\"test\":2,\"script_line\":3,\"holds\":true,\"expectation\":\"expect once from 0 to 39150 0>0 nack\",\"refused\":null}
{\"line\":\"ok 3 - line 4: expect none from 0 to 39149 0>0\",\"type\":\"test\",\"test\":3,\"script_line\":4,\"holds\":true,\"expectation\":\"expect none from 0 to 39149 0>0\",\"refused\":null}
{\"line\":\"not ok 4 - line 5: expect within 5 of on short\",\"type\":\"test\",\"test\":4,\"script_line\":5,\"holds\":false,\"expectation\":\"expect within 5 of on short\",\"refused\":null}
{\"line\":\"# seen 0 from 151150 to 151155\",\"type\":\"window\",\"seen\":0,\"from\":151150,\"to\":151155}
{\"line\":\"not ok 5 - line 7: expect within 100000 of late 4>0\",\"type\":\"test\",\"test\":5,\"script_line\":7,\"holds\":false,\"expectation\":\"expect within 100000 of late 4>0\",\"refused\":null}
{\"line\":\"# seen 0 from 100001 to 200001\",\"type\":\"window\",\"seen\":0,\"from\":100001,\"to\":200001}
{\"line\":\"ok 6 - line 8: expect once from 300000 to 310000 open\",\"type\":\"test\",\"test\":6,\"script_line\":8,\"holds\":true,\"expectation\":\"expect once from 300000 to 310000 open\",\"refused\":null}
{\"line\":\"not ok 7 - line 9: expect none within 400000 of boot 4>0 image-view-on\",\"type\":\"test\",\"test\":7,\"script_line\":9,\"holds\":false,\"expectation\":\"expect none within 400000 of boot 4>0 image-view-on\",\"refused\":null}
{\"line\":\"# seen 1 from 0 to 400000\",\"type\":\"window\",\"seen\":1,\"from\":0,\"to\":400000}
{\"line\":\"# 100000 151150 complete 4>0 image-view-on ack\",\"type\":\"reading\",\"begin\":100000,\"close\":151150,\"ending\":\"complete\",\"frame\":\"4>0 image-view-on\",\"initiator\":\"4\",\"destination\":\"0\",\"bytes\":\"4004\",\"verdict\":\"ack\"}
{\"line\":\"ok 8 - line 10: expect at most 2 within 400000 of boot *>0\",\"type\":\"test\",\"test\":8,\"script_line\":10,\"holds\":true,\"expectation\":\"expect at most 2 within 400000 of boot *>0\",\"refused\":null}
{\"line\":\"ok 9 - line 11: expect exactly 3 from 0 to 310000 *\",\"type\":\"test\",\"test\":9,\"script_line\":11,\"holds\":true,\"expectation\":\"expect exactly 3 from 0 to 310000 *\",\"refused\":null}
{\"line\":\"1..9\",\"type\":\"plan\",\"tests\":9}
";

/// Scripts and the objects of their stretches, as rows of `SWEEPS`.
pub(crate) const OBJECTS_OF_SWEEPS: &str = "\
expect from 0 to 39140..39160 0>0|end 50000 => not: {\"line\":\"39140..39149 not-ok\",\"type\":\"stretch\",\"from\":39140,\"to\":39149,\"holds\":[false]}|{\"line\":\"39150..39160 ok\",\"type\":\"stretch\",\"from\":39150,\"to\":39160,\"holds\":[true]}|
at 5..7 press tv eject|expect from 0 to 50000 0>0|end 60000 => not: {\"line\":\"5..7 ok not-ok\",\"type\":\"stretch\",\"from\":5,\"to\":7,\"holds\":[true,false]}|
at 5..7 press tv mute|end 10 => all: {\"line\":\"5..7\",\"type\":\"stretch\",\"from\":5,\"to\":7,\"holds\":[]}|";
