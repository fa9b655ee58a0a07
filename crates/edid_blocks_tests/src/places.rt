//! Where fields stand, and what they say.
use crate::blocks::{block_of, parsed};
use edid_fields::{walk, word_of};
use edid_tables::{body_of, layout_of, parts_of};
use std::process::Abort;

/// A block and its fields: first bit and width, name, value, and what it says.
const PLACES: &str = "\
7 004f|0 1 QY 0 ;1 1 QS 1 RGB range selectable;2 2 S_PT 0 ;4 2 S_IT 3 over- or underscanned;6 2 S_CE 3 over- or underscanned;
7 7802|0 8 EEODB 2 ;
2 9004|0 8 SVD 144 native;8 8 SVD 4 ;
2 db80|0 8 SVD 219 ;8 8 SVD 128 reserved;
7 0e6160|0 8 SVD 97 ;8 8 SVD 96 ;
1 170700|0 1 F17 0 ;1 4 Audio Format Code 2 AC-3;5 3 channels less one 7 ;8 1 F27 0 ;9 7 sampling frequencies 7 ;16 8 bit rate 0 ;
7 ff|none
0 01|none
";

fn fields_of(rt: &(impl Abort + AllocGlobal), words: &str) -> String {
    let ext = parsed(rt, words);
    let block = block_of(rt, &ext);
    let mut text = String::new(rt.alloc());
    match layout_of(block) {
        None => text.push_str("none").expect(rt, "memory"),
        Some(layout) => {
            let walked = walk(parts_of(layout.2), body_of(block, layout));
            for report in walked.fields.as_slice() {
                let (at, width, value) = (report.at, report.width, report.value);
                let (name, word) = (report.row.1, word_of(report));
                let field = format!(in rt.alloc(); "{at} {width} {name} {value} {word};");
                text.push_str(field.expect(rt, "memory").as_str())
                    .expect(rt, "memory");
            }
        }
    }
    text
}

#[test]
fn fields_stand_at_their_places(rt: HostRuntime) {
    for row in PLACES.lines() {
        let (words, want) = row.split_once('|').expect(&rt, row);
        assert!(rt; fields_of(&rt, words).as_str() == want, "{row}");
    }
}
