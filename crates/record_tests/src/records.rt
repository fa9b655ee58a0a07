//! Each value, as a word of a line and as a field of an object.
use record_core::{
    Cell, Form, Out, Part, Position, Stand, Value, add_record, add_record_with, cells,
};
use std::process::Abort;
use text_core::{Counted, Phys, Piece, Writes};

/// The line of cells, or their object.
pub(crate) fn text_of(rt: &(impl Abort + AllocGlobal), form: Form, cells: &[Cell]) -> String {
    let mut out = Vec::new(rt.alloc());
    let mut writes = Writes::new(&mut out);
    let mut text = Counted::new(&mut writes);
    add_record(&mut text, form, "kind", cells);
    assert!(rt; text.written().is_ok(), "room");
    String::from_utf8(out).expect(rt, "a text")
}

/// The value is this word, and this in an object.
fn is_written(rt: &(impl Abort + AllocGlobal), value: Value, word: &str, quoted: &str, json: &str) {
    let cells = cells![both("", "value", value)];
    let line = format!(in rt.alloc(); "{word}\n").expect(rt, word);
    assert!(rt; text_of(rt, Form::Text, &cells) == line, "{word}");
    let (front, type_field, end) = ("{\"line\":\"", "\",\"type\":\"kind\",\"value\":", "}\n");
    let object = format!(in rt.alloc(); "{front}{quoted}{type_field}{json}{end}").expect(rt, word);
    assert!(rt; text_of(rt, Form::Json, &cells) == object, "{word}");
}

fn one(rt: &(impl Abort + AllocGlobal), piece: Piece, word: &str, json: &str) {
    is_written(rt, Value::One(piece), word, word, json);
}

#[test]
fn words_and_numbers(rt: HostRuntime) {
    one(&rt, Piece::Text("ok"), "ok", "\"ok\"");
    one(&rt, Piece::Bytes(b"ok"), "ok", "\"ok\"");
    one(&rt, Piece::Decimal(0), "0", "0");
    one(
        &rt,
        Piece::Decimal(u64::MAX),
        "18446744073709551615",
        "18446744073709551615",
    );
    one(&rt, Piece::DecimalOrDash(Some(7)), "7", "7");
    one(&rt, Piece::Nibble(15), "f", "\"f\"");
    one(&rt, Piece::NibbleOrDash(Some(4)), "4", "\"4\"");
    one(&rt, Piece::HexByte(0x0a), "0a", "\"0a\"");
    one(&rt, Piece::HexByteOrDash(Some(0xff)), "ff", "\"ff\"");
    one(&rt, Piece::Hex(b"\x4f\x82"), "4f82", "\"4f82\"");
    one(&rt, Piece::HexOrDash(b"\x00"), "00", "\"00\"");
    one(&rt, Piece::Switch(true), "on", "true");
    one(&rt, Piece::Switch(false), "off", "false");
}

#[test]
fn addresses(rt: HostRuntime) {
    let phys = Phys {
        high: 0x12,
        low: 0x3f,
    };
    one(&rt, Piece::Phys(phys), "1.2.3.f", "\"1.2.3.f\"");
    one(&rt, Piece::PhysOrDash(Some(phys)), "1.2.3.f", "\"1.2.3.f\"");
}

#[test]
fn a_dash_or_no_byte_is_null(rt: HostRuntime) {
    one(&rt, Piece::Text("-"), "-", "null");
    one(&rt, Piece::Bytes(b"-"), "-", "null");
    one(&rt, Piece::Text(""), "", "null");
    one(&rt, Piece::Text("--"), "--", "\"--\"");
    one(&rt, Piece::DecimalOrDash(None), "-", "null");
    one(&rt, Piece::NibbleOrDash(None), "-", "null");
    one(&rt, Piece::HexByteOrDash(None), "-", "null");
    one(&rt, Piece::PhysOrDash(None), "-", "null");
    one(&rt, Piece::HexOrDash(b""), "-", "null");
    is_written(&rt, Value::Nothing, "", "", "null");
}

#[test]
fn a_string_is_none_of_them(rt: HostRuntime) {
    is_written(&rt, Value::String(b"-"), "-", "-", "\"-\"");
    is_written(&rt, Value::String(b""), "", "", "\"\"");
    is_written(&rt, Value::String(b"a\"b"), "a\"b", "a\\\"b", "\"a\\\"b\"");
}

#[test]
fn lists(rt: HostRuntime) {
    let names = [Piece::Bytes(b"tv"), Piece::Bytes(b"-"), Piece::Text("")];
    is_written(
        &rt,
        Value::List(",", &names),
        "tv,-,",
        "tv,-,",
        "[\"tv\",\"-\",\"\"]",
    );
    is_written(&rt, Value::List(",", &[]), "-", "-", "[]");
    let units = [Piece::NibbleOrDash(Some(1)), Piece::NibbleOrDash(None)];
    is_written(&rt, Value::List("+", &units), "1+-", "1+-", "[\"1\",null]");
    let verdicts = [Piece::Switch(true), Piece::Switch(false)];
    is_written(
        &rt,
        Value::List(" ", &verdicts),
        "on off",
        "on off",
        "[true,false]",
    );
}

#[test]
fn values_of_several_parts(rt: HostRuntime) {
    let parts = [
        Part {
            name: "initiator",
            piece: Piece::Nibble(8),
        },
        Part {
            name: "opcode",
            piece: Piece::HexByte(0x47),
        },
        Part {
            name: "first_operand",
            piece: Piece::HexByte(0x70),
        },
    ];
    is_written(
        &rt,
        Value::Parts(":", &parts),
        "8:47:70",
        "8:47:70",
        "{\"initiator\":\"8\",\"opcode\":\"47\",\"first_operand\":\"70\"}",
    );
    is_written(&rt, Value::Parts(":", &[]), "-", "-", "null");
}

#[test]
fn devices_that_stopped(rt: HostRuntime) {
    let outs = [
        Out {
            name: b"p1",
            slot: 3,
        },
        Out {
            name: b"-",
            slot: 12,
        },
    ];
    is_written(
        &rt,
        Value::Outs(&outs),
        "p1@3,-@12",
        "p1@3,-@12",
        "[{\"device\":\"p1\",\"slot\":3},{\"device\":\"-\",\"slot\":12}]",
    );
    is_written(&rt, Value::Outs(&[]), "-", "-", "[]");
}

#[test]
fn where_receivers_stand(rt: HostRuntime) {
    let stands = [
        Stand {
            name: b"tv",
            position: Position::Named("start-high"),
        },
        Stand {
            name: b"amp",
            position: Position::Slot(3, &[false, true, false]),
        },
        Stand {
            name: b"-",
            position: Position::Slot(1, &[]),
        },
    ];
    is_written(
        &rt,
        Value::Stands(&stands),
        " tv=start-high amp=slot:3:010 -=slot:1:-",
        " tv=start-high amp=slot:3:010 -=slot:1:-",
        "[{\"device\":\"tv\",\"position\":\"start-high\",\"slot\":null,\"bits\":null},\
         {\"device\":\"amp\",\"position\":\"slot\",\"slot\":3,\"bits\":\"010\"},\
         {\"device\":\"-\",\"position\":\"slot\",\"slot\":1,\"bits\":null}]",
    );
    is_written(&rt, Value::Stands(&[]), "", "", "[]");
}

// Test Anything Protocol, version 13: a number sign begins a directive, so in a text it has a backslash before it.
#[test]
fn texts_of_tests(rt: HostRuntime) {
    is_written(
        &rt,
        Value::Escaped(b"at 5 # \\"),
        "at 5 \\# \\\\",
        "at 5 \\\\# \\\\\\\\",
        "\"at 5 # \\\\\"",
    );
    is_written(&rt, Value::Escaped(b"-"), "-", "-", "\"-\"");
    is_written(&rt, Value::Escaped(b""), "", "", "\"\"");
}

#[test]
fn verdicts(rt: HostRuntime) {
    is_written(
        &rt,
        Value::Verdicts(&[true, false, true]),
        " ok not-ok ok",
        " ok not-ok ok",
        "[true,false,true]",
    );
    is_written(&rt, Value::Verdicts(&[]), "", "", "[]");
}

#[test]
fn where_a_value_stands(rt: HostRuntime) {
    let cells = cells![
        both("# ", "at", Value::One(Piece::Decimal(5))),
        hidden("section", Value::One(Piece::Text("9.1"))),
        line(" of ", Value::One(Piece::Decimal(8))),
        hidden("cause", Value::Nothing),
    ];
    assert!(rt;
        text_of(&rt, Form::Text, &cells).as_str() == "# 5 of 8\n",
        "a line"
    );
    assert!(rt;
        text_of(&rt, Form::Json, &cells).as_str()
            == "{\"line\":\"# 5 of 8\",\"type\":\"kind\",\"at\":5,\"section\":\"9.1\",\"cause\":null}\n",
        "its object"
    );
    assert!(rt; text_of(&rt, Form::Text, &[]).as_str() == "\n", "no cell");
    assert!(rt;
        text_of(&rt, Form::Json, &[]).as_str() == "{\"line\":\"\",\"type\":\"kind\"}\n",
        "no cell"
    );
}

#[test]
fn more_cells_stand_after_the_first(rt: HostRuntime) {
    let first = cells![both("", "at", Value::One(Piece::Decimal(5)))];
    let more = cells![both(" ", "verb", Value::One(Piece::Text("press")))];
    let mut out = Vec::new(rt.alloc());
    let mut writes = Writes::new(&mut out);
    let mut text = Counted::new(&mut writes);
    add_record_with(&mut text, Form::Text, "event", &first, &more);
    add_record_with(&mut text, Form::Json, "event", &first, &more);
    assert!(rt; text.written().is_ok(), "room");
    let both = String::from_utf8(out).expect(&rt, "a text");
    assert!(rt;
        both.as_str()
            == "5 press\n{\"line\":\"5 press\",\"type\":\"event\",\"at\":5,\"verb\":\"press\"}\n",
        "both forms"
    );
}
