//! Edge files and what is read of them, worked out by hand.
use capture_monitor::{Monitor, WatchError, watch};
use line_frames::{Ending, Reading};
use line_wave::Edge;
use std::alloc::Global;
use std::process::Abort;
use text_core::Writes;

// The text of the fault that a file is refused for.
fn fault_text(alloc: Global, error: WatchError) -> Option<String> {
    format!(in alloc; "{error}").ok()
}

// What is written of a file, or the fault of one of which nothing is written.
fn reported(alloc: Global, file: &[u8]) -> Option<String> {
    let mut out = Vec::new(alloc);
    match watch(alloc, file, &mut Writes::new(&mut out)) {
        Ok(()) => String::from_utf8(out).ok(),
        Err(error) if out.is_empty() => fault_text(alloc, error),
        Err(_) => None,
    }
}

// A file, and its readings or its fault.
type Case = (&'static str, &'static str);

// The rise of the start bit, and the fall after it, at each border of their windows and one beside it.
const STARTS: &[Case] = &[
    ("1000 0\n4499 1\n20000 end", "1000 4499 bad-start -\n"),
    ("1000 0\n4500 1\n20000 end", "1000 5701 bad-start -\n"),
    ("1000 0\n4700 1\n20000 end", "1000 5701 bad-start -\n"),
    ("1000 0\n4900 1\n20000 end", "1000 5701 bad-start -\n"),
    ("1000 0\n4901 1\n20000 end", "1000 4901 bad-start -\n"),
    (
        "1000 0\n4700 1\n5299 0\n20000 end",
        "1000 5299 bad-start -\n",
    ),
    ("1000 0\n4700 1\n5300 0\n20000 end", "1000 8051 silent 0\n"),
    ("1000 0\n4700 1\n5700 0\n20000 end", "1000 8451 silent 0\n"),
    (
        "1000 0\n4700 1\n5701 0\n20000 end",
        "1000 5701 bad-start -\n5701 9602 bad-start -\n",
    ),
];

// The next slot's fall, and the sample.
const SLOTS: &[Case] = &[
    (
        "1000 0\n4700 1\n5500 0\n6100 1\n20000 end",
        "1000 8251 silent 1\n",
    ),
    (
        "1000 0\n4700 1\n5500 0\n6100 1\n7549 0\n20000 end",
        "1000 7549 short 1\n",
    ),
    (
        "1000 0\n4700 1\n5500 0\n6100 1\n7550 0\n20000 end",
        "1000 10301 silent 10\n",
    ),
    (
        "1000 0\n4700 1\n5500 0\n6100 1\n8250 0\n20000 end",
        "1000 11001 silent 10\n",
    ),
    (
        "1000 0\n4700 1\n5500 0\n6100 1\n8251 0\n20000 end",
        "1000 8251 silent 1\n8251 12152 bad-start -\n",
    ),
    (
        "1000 0\n4700 1\n5500 0\n6550 1\n20000 end",
        "1000 8251 silent 1\n",
    ),
    (
        "1000 0\n4700 1\n5500 0\n6551 1\n20000 end",
        "1000 8251 silent 0\n",
    ),
    (
        "1000 0\n4700 1\n5500 0\n6100 1\n6550 0\n20000 end",
        "1000 6550 short -\n",
    ),
    (
        "1000 0\n4700 1\n5500 0\n6100 1\n6551 0\n20000 end",
        "1000 6551 short 1\n",
    ),
];

// The file ends where the receiver stands in each of its places, and at an ending.
const ENDS: &[Case] = &[
    ("0 end", ""),
    ("1000 0\n1000 end", "1000 1000 open -\n"),
    ("1000 0\n2000 end", "1000 2000 open -\n"),
    ("1000 0\n4700 1\n5000 end", "1000 5000 open -\n"),
    ("1000 0\n4700 1\n5500 0\n6000 end", "1000 6000 open -\n"),
    (
        "1000 0\n4700 1\n5500 0\n6100 1\n7000 end",
        "1000 7000 open 1\n",
    ),
    (
        "1000 0\n4700 1\n5500 0\n6100 1\n8250 end",
        "1000 8250 open 1\n",
    ),
    (
        "1000 0\n4700 1\n5500 0\n6100 1\n8251 end",
        "1000 8251 silent 1\n",
    ),
    ("1000 0\n20000 end", "1000 4901 bad-start -\n"),
    (
        "# a comment\n\n1000 0\n4700 1\n\n20000 end\n# and another\n\n",
        "1000 5701 bad-start -\n",
    ),
];

// A poll that nobody acknowledges, a frame that is acknowledged, a broadcast that is taken and one that is refused,
// and sixteen blocks none of which is the last.
const FRAMES: &[Case] = &[
    (
        "12000 0\n15700 1\n16500 0\n18000 1\n18900 0\n20400 1\n21300 0\n22800 1\n23700 0\n25200 1\n26100 0\n27600 1\n28500 0\n30000 1\n30900 0\n32400 1\n33300 0\n34800 1\n35700 0\n36300 1\n38100 0\n38700 1\n40000 end",
        "12000 39150 complete 0>0 nack\n",
    ),
    (
        "1000000 0\n1003700 1\n1004500 0\n1006000 1\n1006900 0\n1007500 1\n1009300 0\n1010800 1\n1011700 0\n1013200 1\n1014100 0\n1015600 1\n1016500 0\n1018000 1\n1018900 0\n1020400 1\n1021300 0\n1022800 1\n1023700 0\n1025200 1\n1026100 0\n1027600 1\n1028500 0\n1030000 1\n1030900 0\n1032400 1\n1033300 0\n1034800 1\n1035700 0\n1037200 1\n1038100 0\n1039600 1\n1040500 0\n1041100 1\n1042900 0\n1044400 1\n1045300 0\n1046800 1\n1047700 0\n1048300 1\n1050100 0\n1051600 1\n1060000 end",
        "1000000 1051150 complete 4>0 image-view-on ack\n",
    ),
    (
        "55500 0\n59200 1\n60000 0\n61500 1\n62400 0\n63900 1\n64800 0\n66300 1\n67200 0\n68700 1\n69600 0\n70200 1\n72000 0\n72600 1\n74400 0\n75000 1\n76800 0\n77400 1\n79200 0\n80700 1\n81600 0\n82200 1\n84000 0\n84600 1\n86400 0\n87900 1\n88800 0\n90300 1\n91200 0\n92700 1\n93600 0\n95100 1\n96000 0\n96600 1\n98400 0\n99900 1\n100800 0\n102300 1\n103200 0\n104700 1\n105600 0\n106200 1\n108000 0\n109500 1\n110400 0\n111900 1\n112800 0\n114300 1\n115200 0\n116700 1\n117600 0\n119100 1\n120000 0\n121500 1\n122400 0\n123900 1\n124800 0\n126300 1\n127200 0\n128700 1\n129600 0\n130200 1\n132000 0\n133500 1\n134400 0\n135900 1\n136800 0\n138300 1\n139200 0\n140700 1\n141600 0\n143100 1\n144000 0\n145500 1\n146400 0\n147900 1\n148800 0\n150300 1\n151200 0\n152700 1\n153600 0\n154200 1\n156000 0\n157500 1\n158400 0\n159900 1\n160800 0\n162300 1\n163200 0\n164700 1\n165600 0\n167100 1\n168000 0\n169500 1\n170400 0\n171900 1\n172800 0\n174300 1\n175200 0\n175800 1\n177600 0\n178200 1\n200000 end",
        "55500 178650 complete 0>f report-physical-address 0.0.0.0 tv ok\n",
    ),
    (
        "55500 0\n59200 1\n60000 0\n61500 1\n62400 0\n63900 1\n64800 0\n66300 1\n67200 0\n68700 1\n69600 0\n70200 1\n72000 0\n72600 1\n74400 0\n75000 1\n76800 0\n77400 1\n79200 0\n80700 1\n81600 0\n82200 1\n84000 0\n84600 1\n86400 0\n87900 1\n88800 0\n90300 1\n91200 0\n92700 1\n93600 0\n95100 1\n96000 0\n96600 1\n98400 0\n99900 1\n100800 0\n102300 1\n103200 0\n104700 1\n105600 0\n106200 1\n108000 0\n109500 1\n110400 0\n111900 1\n112800 0\n114300 1\n115200 0\n116700 1\n117600 0\n119100 1\n120000 0\n121500 1\n122400 0\n123900 1\n124800 0\n126300 1\n127200 0\n128700 1\n129600 0\n130200 1\n132000 0\n133500 1\n134400 0\n135900 1\n136800 0\n138300 1\n139200 0\n140700 1\n141600 0\n143100 1\n144000 0\n145500 1\n146400 0\n147900 1\n148800 0\n150300 1\n151200 0\n152700 1\n153600 0\n154200 1\n156000 0\n157500 1\n158400 0\n159900 1\n160800 0\n162300 1\n163200 0\n164700 1\n165600 0\n167100 1\n168000 0\n169500 1\n170400 0\n171900 1\n172800 0\n174300 1\n175200 0\n175800 1\n177600 0\n179100 1\n200000 end",
        "55500 178650 complete 0>f report-physical-address 0.0.0.0 tv refused\n",
    ),
    (
        "1000 0\n4700 1\n5500 0\n7000 1\n7900 0\n8500 1\n10300 0\n11800 1\n12700 0\n14200 1\n15100 0\n16600 1\n17500 0\n19000 1\n19900 0\n21400 1\n22300 0\n23800 1\n24700 0\n26200 1\n27100 0\n28600 1\n29500 0\n31000 1\n31900 0\n32500 1\n34300 0\n35800 1\n36700 0\n38200 1\n39100 0\n40600 1\n41500 0\n43000 1\n43900 0\n45400 1\n46300 0\n47800 1\n48700 0\n50200 1\n51100 0\n52600 1\n53500 0\n55000 1\n55900 0\n56500 1\n58300 0\n59800 1\n60700 0\n62200 1\n63100 0\n64600 1\n65500 0\n67000 1\n67900 0\n69400 1\n70300 0\n71800 1\n72700 0\n74200 1\n75100 0\n76600 1\n77500 0\n79000 1\n79900 0\n80500 1\n82300 0\n83800 1\n84700 0\n86200 1\n87100 0\n88600 1\n89500 0\n91000 1\n91900 0\n93400 1\n94300 0\n95800 1\n96700 0\n98200 1\n99100 0\n100600 1\n101500 0\n103000 1\n103900 0\n104500 1\n106300 0\n107800 1\n108700 0\n110200 1\n111100 0\n112600 1\n113500 0\n115000 1\n115900 0\n117400 1\n118300 0\n119800 1\n120700 0\n122200 1\n123100 0\n124600 1\n125500 0\n127000 1\n127900 0\n128500 1\n130300 0\n131800 1\n132700 0\n134200 1\n135100 0\n136600 1\n137500 0\n139000 1\n139900 0\n141400 1\n142300 0\n143800 1\n144700 0\n146200 1\n147100 0\n148600 1\n149500 0\n151000 1\n151900 0\n152500 1\n154300 0\n155800 1\n156700 0\n158200 1\n159100 0\n160600 1\n161500 0\n163000 1\n163900 0\n165400 1\n166300 0\n167800 1\n168700 0\n170200 1\n171100 0\n172600 1\n173500 0\n175000 1\n175900 0\n176500 1\n178300 0\n179800 1\n180700 0\n182200 1\n183100 0\n184600 1\n185500 0\n187000 1\n187900 0\n189400 1\n190300 0\n191800 1\n192700 0\n194200 1\n195100 0\n196600 1\n197500 0\n199000 1\n199900 0\n200500 1\n202300 0\n203800 1\n204700 0\n206200 1\n207100 0\n208600 1\n209500 0\n211000 1\n211900 0\n213400 1\n214300 0\n215800 1\n216700 0\n218200 1\n219100 0\n220600 1\n221500 0\n223000 1\n223900 0\n224500 1\n226300 0\n227800 1\n228700 0\n230200 1\n231100 0\n232600 1\n233500 0\n235000 1\n235900 0\n237400 1\n238300 0\n239800 1\n240700 0\n242200 1\n243100 0\n244600 1\n245500 0\n247000 1\n247900 0\n248500 1\n250300 0\n251800 1\n252700 0\n254200 1\n255100 0\n256600 1\n257500 0\n259000 1\n259900 0\n261400 1\n262300 0\n263800 1\n264700 0\n266200 1\n267100 0\n268600 1\n269500 0\n271000 1\n271900 0\n272500 1\n274300 0\n275800 1\n276700 0\n278200 1\n279100 0\n280600 1\n281500 0\n283000 1\n283900 0\n285400 1\n286300 0\n287800 1\n288700 0\n290200 1\n291100 0\n292600 1\n293500 0\n295000 1\n295900 0\n296500 1\n298300 0\n299800 1\n300700 0\n302200 1\n303100 0\n304600 1\n305500 0\n307000 1\n307900 0\n309400 1\n310300 0\n311800 1\n312700 0\n314200 1\n315100 0\n316600 1\n317500 0\n319000 1\n319900 0\n320500 1\n322300 0\n323800 1\n324700 0\n326200 1\n327100 0\n328600 1\n329500 0\n331000 1\n331900 0\n333400 1\n334300 0\n335800 1\n336700 0\n338200 1\n339100 0\n340600 1\n341500 0\n343000 1\n343900 0\n344500 1\n346300 0\n347800 1\n348700 0\n350200 1\n351100 0\n352600 1\n353500 0\n355000 1\n355900 0\n357400 1\n358300 0\n359800 1\n360700 0\n362200 1\n363100 0\n364600 1\n365500 0\n367000 1\n367900 0\n368500 1\n370300 0\n371800 1\n372700 0\n374200 1\n375100 0\n376600 1\n377500 0\n379000 1\n379900 0\n381400 1\n382300 0\n383800 1\n384700 0\n386200 1\n387100 0\n388600 1\n400000 end",
        "1000 388150 long 0100000000010000000001000000000100000000010000000001000000000100000000010000000001000000000100000000010000000001000000000100000000010000000001000000000100000000\n",
    ),
];

// Files with a line at fault, its number and its cause.
const FAULTS: &[Case] = &[
    ("1000 0\n4700 1", "line 3: line"),
    ("", "line 1: line"),
    ("1000 2\n20000 end", "line 1: line"),
    ("01000 0\n20000 end", "line 1: line"),
    ("1000  0\n20000 end", "line 1: line"),
    ("1000 0 \n20000 end", "line 1: line"),
    ("1000\n20000 end", "line 1: line"),
    ("2000000000001 0\n20000 end", "line 1: line"),
    ("2000000000001 end", "line 1: line"),
    ("1000 0\n20000 end\n# after\n30000 1", "line 4: line"),
    ("1000 0\n20000 end\n20000 end", "line 3: line"),
    ("# first\n\nfrob", "line 3: line"),
    ("1000 1\n20000 end", "line 1: order"),
    ("1000 0\n1000 1\n20000 end", "line 2: order"),
    ("1000 0\n2000 0\n20000 end", "line 2: order"),
    ("1000 0\n900 1\n20000 end", "line 2: order"),
    ("1000 0\n2000 1\n1999 end", "line 3: order"),
    ("1000 0\n2000 1\n1999 end\nfrob", "line 3: order"),
];

// A file of edges that no run has, with comments and lines left out, and what is read of it.
const FOREIGN: &[u8] =
    b"# a capture\n\n1000 0\n4700 1\n5500 0\n6100 1\n\n9000 0\n20000 end\n# done\n";

const FOREIGN_READINGS: &[u8] = b"1000 8251 silent 1\n9000 12901 bad-start -\n";

// For each of its fronts, the shortest first, the line at which it is refused, a line of the file each: the one that is cut,
// and the one that is not there after a whole one or a comment. A dash stands for a file that has its end.
const FOREIGN_FRONTS: &[u8] = b"\
122222222222\
2\
3333334\
4444445\
5555556\
6666667\
7\
8888889\
999999999-\
--------";

// The front of the foreign file that has so many bytes is read, or refused at its line.
fn is_front_read(alloc: Global, end: usize) -> bool {
    let Some(front) = FOREIGN.get(..end) else {
        return false;
    };
    match FOREIGN_FRONTS.get(end) {
        None => false,
        Some(b'-') => is_read(alloc, front, FOREIGN_READINGS),
        Some(line) => {
            let mut fault = *b"line 0: line";
            fault[5] = *line;
            is_read(alloc, front, &fault)
        }
    }
}

/// The file has these readings, or this fault.
pub(crate) fn is_read(alloc: Global, file: &[u8], wanted: &[u8]) -> bool {
    match reported(alloc, file) {
        Some(text) => text.as_bytes() == wanted,
        None => false,
    }
}

fn read(rt: &impl Abort, alloc: Global, cases: &[Case]) {
    for (file, wanted) in cases {
        assert!(rt;
            is_read(alloc, file.as_bytes(), wanted.as_bytes()),
            "{file}"
        );
    }
}

#[test]
fn files_are_read(rt: HostRuntime) {
    read(&rt, rt.alloc(), STARTS);
    read(&rt, rt.alloc(), SLOTS);
    read(&rt, rt.alloc(), ENDS);
    read(&rt, rt.alloc(), FRAMES);
    read(&rt, rt.alloc(), FAULTS);
    for end in 0..=FOREIGN.len() {
        assert!(&rt; is_front_read(rt.alloc(), end), "{end}");
    }
}

// A writer with room for ten bytes holds the front of the readings.
#[test]
fn writes_that_fail(rt: HostRuntime) {
    let mut room = [0; 10];
    let file = b"1000 0\n4700 1\n20000 end";
    let answer = watch(rt.alloc(), file, &mut Writes::new(room.as_mut_slice()));
    assert!(&rt; matches!(answer, Err(WatchError::Write(10))) && room == *b"1000 5701 ");
}

// Edges of one reading.
const EDGES: &[(u32, bool)] = &[(1000, true), (4700, false), (5500, true), (6100, false)];

fn is_reading(
    reading: Option<Reading>,
    begin: u64,
    at: u64,
    ending: Ending,
    bits: &[bool],
) -> bool {
    match reading {
        None => false,
        Some(reading) => {
            reading.begin == begin
                && reading.at == at
                && reading.ending == ending
                && reading.bits.as_slice() == bits
        }
    }
}

// The monitor itself, edge by edge.
#[test]
fn edge_by_edge(rt: HostRuntime) {
    let mut monitor = Monitor::new();
    for (at, low) in EDGES {
        let edge = Edge {
            at: u64::from(*at),
            low: *low,
        };
        assert!(&rt; monitor.edge(edge).is_none());
    }
    let next = monitor.edge(Edge {
        at: 9000,
        low: true,
    });
    assert!(&rt; is_reading(next, 1000, 8251, Ending::Silent, &[true]));
    assert!(&rt; is_reading(monitor.finish(9500), 9000, 9500, Ending::Open, &[]));
}
