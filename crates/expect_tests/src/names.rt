//! Names of devices in patterns, worked out by hand.
use crate::cases::{fault_of, holds, report_of, spelled};
use expect_text::{Judged, has_names, is_meetable, meets, named_in};

/// A pattern, what a line says with who holds which address, and whether it is met.
const NAMED: &str = "\
@p1>@tv image-view-on => 4>0 image-view-on ack by p1 out - @tv=0@p1=4@ => met
@p1>@tv image-view-on => 8>0 image-view-on ack by p2 out - @tv=0@p1=4@p2=8@ => not
@p2>0 image-view-on ack => 8>0 image-view-on ack by p2 out - @tv=0@p1=4@p2=8@ => met
*>@tv image-view-on => 8>0 image-view-on ack by p2 out - @tv=0@p1=4@p2=8@ => met
4>@p2 standby => 4>8 standby ack by p1 out - @tv=0@p1=4@p2=8@ => met
4>@p1 standby => 4>8 standby ack by p1 out - @tv=0@p1=4@p2=8@ => not
@p>f active-source => 4>f active-source 1.0.0.0 ok by p1 out - @p1=4@ => not
@1>f active-source => 4>f active-source 1.0.0.0 ok by p1 out - @p1=4@ => not
@box>f active-source => 1>f active-source 1.0.0.0 ok by box out - @box=1@box=8@ => met
@box>f active-source => 8>f active-source 1.0.0.0 ok by box out - @box=1@box=8@ => met
@box>f active-source => 4>f active-source 1.0.0.0 ok by box out - @box=1@box=8@ => not
@p1>@p1 nack => 4>4 nack by p1 out - @ => not
@p1>@p1 nack => 4>4 nack by p1 out - => not
@p1>0 set-osd-name => 4>0 set-osd-name \"@p1=4@\" ack by p1 out - @tv=0@ => not
4>0 set-osd-name \"@p1\" => 4>0 set-osd-name \"@p1\" ack by p1 out - @tv=0@p1=4@ => met
4>0 image-view-on => 4>0 image-view-on ack by p1 out - @tv=0@p1=4@ => met
short 0 => short 0 by p1 out - @p1=4@ => met
@p1 0 => short 0 by p1 out - @p1=4@ => not";

#[test]
fn names_stand_for_addresses(rt: HostRuntime) {
    for line in NAMED.lines() {
        let (asked, want) = line.rsplit_once(" => ").expect(&rt, line);
        let (pattern, text) = asked.split_once(" => ").expect(&rt, line);
        let met = meets(pattern.as_bytes(), text.as_bytes());
        holds(&rt, met == (want == "met"), line);
    }
}

/// Lines of a script, for a topology with `tv` and `p1`, and the first at fault.
const NAME_FAULTS: &str = "\
expect from 1 to 2 @p1>@tv image-view-on|end 10 => none
expect from 1 to 2 @p1>f active-source 1.0.0.0 ok|end 10 => none
expect from 1 to 2 *>@tv|end 10 => none
expect from 1 to 2 4>0 set-osd-name \"@x\"|end 10 => none
expect from 1 to 2 @p2>0 image-view-on|end 10 => line 1: name at 5
expect none from 1 to 2 @tv>@tvv image-view-on|end 10 => line 1: name at 6
expect from 1 to 2 @>0|end 10 => line 1: name at 5
expect from 1 to 2 @p1>@tv@tv|end 10 => line 1: name at 5
label a expect from 2 to 1 @p2>0 film|end 10 => line 1: name at 7
expect within 5 of nosuch @p2>0|end 10 => line 1: name at 5
expect from 01 to 2 @p2>0|end 10 => line 1: number at 2
expect from 2 to 1 @p1>0|end 10 => line 1: order at 4
expect from 1 to 2 @p1>@tv image-view|end 10 => line 1: pattern at 6
expect from 1 to 2 @p1>@tv image-view-on ok|end 10 => line 1: pattern at 7
expect from 1 to 2 @p1|end 10 => line 1: pattern at 5
expect from 1 to 2 4@p1>0|end 10 => line 1: pattern at 5
expect from 1 to 2 4>@tv active-source 1.0.0.0 ok|end 10 => line 1: pattern at 8
expect from 1 to 2 short @p1|end 10 => line 1: pattern at 6";

#[test]
fn names_are_declared(rt: HostRuntime) {
    for line in NAME_FAULTS.lines() {
        let (script, want) = line.rsplit_once(" => ").expect(&rt, line);
        let script = spelled(&rt, script);
        holds(&rt, fault_of(&rt, &script).as_str() == want, line);
    }
}

#[test]
fn names_are_found(rt: HostRuntime) {
    let named = named_in(b"4>@tv standby").expect(&rt, "a name");
    assert!(rt; named.front == b"4>".as_slice() && named.name == b"tv".as_slice());
    assert!(rt; named.rest == b" standby".as_slice());
    assert!(rt; named_in(b"4>0 @tv").is_none());
    assert!(rt; is_meetable(Judged::Capture, b"@a>@b standby ack"));
    assert!(rt; !is_meetable(Judged::Capture, b"@a>@b standby ok"));
    assert!(rt; has_names(b"end 5\nexpect from 0 to 5 *>@tv\n"));
    assert!(rt; !has_names(b"expect from 0 to 5 4>0 set-osd-name \"@tv\"\n"));
}

/// A box with two addresses beside a player: examples/recorder-and-player.net has its rounds with their times.
pub(crate) const TOPOLOGY: &str = "\
device tv tv 2
device p player 0
device box combo 0
plug p tv 1
plug box tv 2
";

pub(crate) const SCRIPT: &str = "\
expect once from 0 to 400000 @p>f report-physical-address 1.0.0.0 playback ok
expect none from 0 to 100000 @p>* nack
expect from 0 to 40000 @tv>0 nack
expect once from 0 to 700000 @box>f report-physical-address 2.0.0.0
expect none from 0 to 800000 @p>f report-physical-address 2.0.0.0
expect once from 400000 to 430000 @p>@p ack
expect from 400000 to 430000 @box>4
expect once from 600000 to 800000 8>f report-physical-address
at 1500000 send tv 0>1 give-osd-name
expect once from 1500000 to 1600000 @tv>@box give-osd-name ack
end 2000000
";

// A poll is sent before its address is held: no name stands for it.
const REPORT: &str = "\
TAP version 13
ok 1 - line 1: expect once from 0 to 400000 @p>f report-physical-address 1.0.0.0 playback ok
ok 2 - line 2: expect none from 0 to 100000 @p>* nack
not ok 3 - line 3: expect from 0 to 40000 @tv>0 nack
# seen 0 from 0 to 40000
# 12000 39150 complete 0>0 nack by tv out -
ok 4 - line 4: expect once from 0 to 700000 @box>f report-physical-address 2.0.0.0
ok 5 - line 5: expect none from 0 to 800000 @p>f report-physical-address 2.0.0.0
ok 6 - line 6: expect once from 400000 to 430000 @p>@p ack
not ok 7 - line 7: expect from 400000 to 430000 @box>4
# seen 0 from 400000 to 430000
# 402322 429472 complete 4>4 ack by box out -
ok 8 - line 8: expect once from 600000 to 800000 8>f report-physical-address
ok 9 - line 10: expect once from 1500000 to 1600000 @tv>@box give-osd-name ack
1..9
";

#[test]
fn expectations_with_names_are_reported(rt: HostRuntime) {
    let (text, counts) = report_of(&rt, TOPOLOGY, SCRIPT);
    holds(&rt, counts.as_str() == "2 of 9", "counts");
    holds(&rt, text.as_str() == REPORT, "report");
}
