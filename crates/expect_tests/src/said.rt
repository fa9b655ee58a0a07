//! Patterns that no round's line can meet, and words that no state line has.
use crate::cases::holds;
use expect_text::{Judged, is_said, is_state_word};
use std::process::Abort;

/// A run of a television and two players.
const ROOM: Judged<'static> = Judged::Run(&[b"tv", b"p1", b"p2"]);

/// Patterns that the line of some round of the room meets.
const MET: &str = r#"4>f active-source
4>f active-source 1.0.0.0 ok by p1 out -
*>f active-source
*
short
short *
short 0
short -
4>0 image-view-on *
4>0 image-view-on ack
0>0 nack
bad-start - by tv
bad-start - by tv,p1 out p2@4
silent 0100 by - out p1@10
4>0 set-osd-name "Blu ray" ack
4>0 set-osd-name "12345678901234" ack
4>0 set-osd-name :0a ack
4>0 set-osd-name : ack
4>0 set-osd-string default "Hello" ack
4>0 set-osd-string default ack
4>0 set-osd-string :01 ack
4>0 set-osd-string :0141 ack
4>0 set-osd-string :000a ack
4>0 set-osd-string default "1234567890123" ack
4>0 feature-abort 82 unrecognized ack
4>0 feature-abort :8205 ack
4>0 op-14 : ack
4>0 vendor-command :0102030405060708090a0b0c0d0e ack
4>0 report-power-status on
4>0 report-power-status :05
4>0 report-power-status : ack
4>0 report-power-status :0000 ack
5>0 report-audio-status sound 20 ack
5>0 report-audio-status mute 100 ack
5>0 report-audio-status sound 7 ack
5>0 report-audio-status :65 ack
5>0 report-audio-status :ff ack
4>0 *-power-* *
4>0 active-source
4>0 active-source 1.0.0.0 ack
4>f active-source :10
4>f active-source :100000
4>f active-source :10*
4>f routing-change 1.0.0.0 2.0.0.0 ok
4>f routing-change :100020 ok
4>f report-physical-address 1.0.0.0 playback ok
4>f report-physical-address :100002 ok
5>0 system-audio-mode-request ack
5>0 system-audio-mode-request 1.0.0.0 ack
5>0 system-audio-mode-request :10 ack
0>f set-menu-language eng ok
0>f set-menu-language :656e67* ok
0>f set-menu-language :454e47 ok
4>f device-vendor-id 0a0b0c ok
4>f device-vendor-id :0a0b ok
4>0 image-view-on :00
4>0 user-control-pressed :03*
4>0 user-control-pressed :60 ack
silent *
silent 1
silent 000000001
silent 0000000001
silent 0000000000000000001
short 1111111101
short 11111111011111111
short 111111111 by
short *1111111111
short *1111111111*
short **1*
s*t 1*0*1
short 000000000000000000000000000000000000000000000000000000000000000000000000000000000000000000000000000000000000000000000000000000000000000000000000000000000000000
silent 000000000000000000000000000000000000000000000000000000000000000000000000000000000000000000000000000000000000000000000000000000000000000000000000000000000000000
long *
long 1*1*1
long *11111111101*
long *0*
long 0000000000000000000000000000000000000000000000000000000000000000000000000000000000000000000000000000000000000000000000000000000000000000000000000000000000000000
l* *
4>4 nack by p1,p2 out tv@1
4>4 nack by p1 out tv@1,p2@160
4>4 nack by * out *@9
4>4 nack by *,* out -
"#;

/// Patterns that the line of none meets.
const UNMET: &str = r#"film
complete 4>f active-source
4>F active-source
4>f active-sourc
4>f active_source
4>f active-source 1.0.0 ok
4>f active-source ack
4>f active-source 1.0.0.0 ack
4>0 image-view-on ok
4>0 active-source 1.0.0.0 ok
4>0 report-power-status onn
short 2
short -0
short 1111111111
short 11111111101
short 0000000010
short 00000000000000000010
short *11111111111
short *11111111111*
short 0000000000000000000000000000000000000000000000000000000000000000000000000000000000000000000000000000000000000000000000000000000000000000000000000000000000000000
short *1000000000000000000000000000000000000000000000000000000000000000000000000000000000000000000000000000000000000000000000000000000000000000000000000000000000000000
silent -
silent -*
silent 0000000010
silent 0000000000000000000000000000000000000000000000000000000000000000000000000000000000000000000000000000000000000000000000000000000000000000000000000000000000000000
silent 000000000000000000000000000000000000000000000000000000000000000000000000000000000000000000000000000000000000000000000000000000000000000000000000000000000000001*1
long -
long 0
long 0*0 by - out - by
long 1*1 0
long 111111111*
long *10
long *111111111011
long *10*11111111111
long 000000000000000000000000000000000000000000000000000000000000000000000000000000000000000000000000000000000000000000000000000000000000000000000000000000000000000
long 00000000000000000000000000000000000000000000000000000000000000000000000000000000000000000000000000000000000000000000000000000000000000000000000000000000000000000
bad-start 1
bad-start *0
4>0 imag*-onn
4>f active-source :1000
4>f active-source :1000 ok
4>f active-source :100
4>0 image-view-on :
4>0 image-view-on : ack
4>0 vendor-command ack
4>0 vendor-command :0102030405060708090a0b0c0d0e0f ack
4>0 report-power-status :00
4>0 report-power-status :01 ack
4>0 feature-abort :8204 ack
4>0 set-osd-name :41 ack
4>0 set-osd-name "123456789012345" ack
4>0 set-osd-name "" ack
4>0 set-osd-string default "12345678901234" ack
4>0 set-osd-string :00 ack
4>0 set-osd-string :0041420 ack
4>0 set-osd-string :004142 ack
5>0 report-audio-status sound 101 ack
5>0 report-audio-status sound 020 ack
5>0 report-audio-status :64 ack
5>0 report-audio-status :e4 ack
4>f routing-change :10002000 ok
4>f report-physical-address :100004 ok
5>0 system-audio-mode-request :1000 ack
5>0 system-audio-mode-request : ack
0>f set-menu-language :656e67 ok
4>f device-vendor-id :0a0b0c ok
4>0 user-control-pressed :44 ack
5>0 set-system-audio-mode :01 ack
4>0 cec-version :05 ack
4>0 menu-request :02 ack
4>0 menu-status :01 ack
4>0 deck-status :1a ack
4>0 give-deck-status :01 ack
4>0 play :24 ack
4>0 deck-control :03 ack
4>4 nack by P1
4>4 nack by @p1
4>4 nack by p3
4>4 nack by p2,p1
4>4 nack by p1,p1
4>4 nack by p1,
4>4 nack by p1 out p2
4>4 nack by p1 out p3@2
4>4 nack by p1 out p2@0
4>4 nack by p1 out p2@161
4>4 nack by p1 out p2@02
4>4 nack by p1 out p2@2,tv@1
4>4 nack by p1 out - -
4>4 nack out -
bad-start 0
open 00
open -
"#;

/// Patterns that the line of some reading of a capture meets, and of none.
const READ: &str = r#"4>f active-source 1.0.0.0 ok
4>4 nack
short 0
bad-start -
open 00
open -
open 000000001
open *1
long *
silent 0*
"#;

const UNREAD: &str = r#"4>4 nack by p1
4>4 nack by
4>4 nack by *
4>4 nack * * out -
4>4 nack * *
short 0 by - out -
open 0000000010
open 0000000010*
open 0000000000000000000000000000000000000000000000000000000000000000000000000000000000000000000000000000000000000000000000000000000000000000000000000000000000000000
long *10
silent -
bad-start 0
4>f active-source :1000
"#;

fn all_are(who: Judged<'static>, patterns: &str, wanted: bool, rt: &impl Abort) {
    for pattern in patterns.lines() {
        holds(rt, is_said(who, pattern.as_bytes()) == wanted, pattern);
    }
}

#[test]
fn patterns_that_lines_meet(rt: HostRuntime) {
    all_are(ROOM, MET, true, &rt);
}

#[test]
fn patterns_that_no_line_meets(rt: HostRuntime) {
    all_are(ROOM, UNMET, false, &rt);
}

#[test]
fn patterns_of_a_capture_name_nobody(rt: HostRuntime) {
    all_are(Judged::Capture, READ, true, &rt);
    all_are(Judged::Capture, UNREAD, false, &rt);
}

// The words of the state line, as docs/run.md has them: values from the least to the greatest.
const STATE_WORDS: &[&[u8]] = &[
    b"tv",
    b"outside",
    b"outside-tv",
    b"on",
    b"standby",
    b"-",
    b"0",
    b"f",
    b"4+8",
    b"4+8+9",
    b"1+4+5+8",
    b"f+4",
    b"1+-",
    b"-+-",
    b"1.2.0.f",
    b"f.f.f.f",
    b"active=1.0.0.0",
    b"path=-",
    b"deck=1a",
    b"menu=off",
    b"audio=-",
    b"volume=0",
    b"volume=20",
    b"volume=100",
    b"volume=-",
    b"sel=1",
    b"sel=15",
    b"sel=-",
    b"lang=656e67",
    b"osd=54",
    b"osd=48656c6c6f",
    b"osd=30313233343536373839616263646566",
    b"osd=-",
    b"held=41",
    b"heard=4:84:10",
    b"sub=5",
    b"queue=0",
    b"queue=16",
    b"dropped=0",
    b"dropped=18446744073709551615",
];

// Each has another spelling than a state line's, or a value that no device has.
const OTHER_WORDS: &[&[u8]] = &[
    b"",
    b"off",
    b"power=on",
    b"power=onn",
    b"player1",
    b"g",
    b"F",
    b"4+",
    b"+4",
    b"-+9",
    b"4+8+9+a+b",
    b"4++8",
    b"1.2.0",
    b"1.2.0.00",
    b"active=",
    b"active=1.0.0.0.0",
    b"activ=1.0.0.0",
    b"active:1.0.0.0",
    b"deck=1A",
    b"deck=1",
    b"menu=yes",
    b"volume=",
    b"volume=2a",
    b"volume=020",
    b"volume=+20",
    b"volume=101",
    b"volume=18446744073709551616",
    b"sel=007",
    b"sel=16",
    b"lang=200",
    b"lang=656e",
    b"lang=656e6700",
    b"lang=656E67",
    b"lang=eng",
    b"osd=",
    b"osd=5",
    b"osd=545",
    b"osd=3031323334353637383961626364656667",
    b"heard=4:84",
    b"heard=4:8:10",
    b"sub=05",
    b"queue=-",
    b"queue=00",
    b"queue=17",
    b"dropped=-",
    b"dropped=01",
    b"dropped=18446744073709551616",
    b"ON",
    b"not",
];

#[test]
fn words_that_state_lines_have(rt: HostRuntime) {
    for word in STATE_WORDS {
        assert!(rt; is_state_word(word));
    }
}

#[test]
fn words_that_no_state_line_has(rt: HostRuntime) {
    for word in OTHER_WORDS {
        assert!(rt; !is_state_word(word));
    }
}
