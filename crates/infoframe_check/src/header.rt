//! The record of an InfoFrame.
ghost use Rattle.std.specs.Prelude.{◌≡◌, ◌≤◌, IsTrue, codes, length, slice_index};
ghost use Rattle.edid_fields.specs.Fields.{end_of, is_table};
ghost use Rattle.edid_fields.specs.Forms.{table_in_code};
ghost use Rattle.infoframe_tables.specs.Kinds.{own_bytes};
ghost use Rattle.infoframe_check.specs.Found.{cut_of, first_cut, is_well_formed, left_of, table_of};
ghost use Rattle.infoframe_check.specs.Records.{header_by, header_record, right_cells, wrong_cells};
ghost use Rattle.record_core.specs.Records.{record_text};
ghost use Rattle.text_core.specs.Adds.{Adds};

use edid_fields::{Part, Place, cut_of, left_of, some_reserved, walk};
use infoframe_tables::{
    beyond_of, checksum_due, frame_parts, is_summed, kind_of, kind_word, length_of, missing_of,
    own_bytes, version_of,
};
use record_core::{Form, Value, add_record, cells};
use text_core::{Counted, Piece, Sink, byte_at};

/// The bytes that an InfoFrame's length counts.
pub(crate) fn own_part(frame: &[u8]) -> &[u8]
    requires few { length frame.now ≤ 31 }
    ensures value { result.now ≡ own_bytes frame.now }
    ensures few { length result.now ≤ 31 }
{
    own_bytes(frame)
}

/// The table of an InfoFrame.
pub(crate) fn table_of(frame: &[u8]) -> &'static [Part]
    ensures value { table_in_code result.now ≡ table_of frame.now }
    ensures table { IsTrue (is_table (table_in_code result.now)) }
{
    frame_parts(kind_of(frame))
}

#[inline(never)]
fn end_in(frame: &[u8]) -> Place
    requires few { length frame.now ≤ 31 }
    ensures { result ≡ end_of (table_of frame.now) (own_bytes frame.now) }
{
    walk(table_of(frame), own_part(frame)).end
}

fn first_cut(missing: usize, cut: usize) -> usize
    ensures { result ≡ first_cut missing cut }
{
    if 0 < missing { missing } else { cut }
}

fn cut_in(frame: &[u8]) -> usize
    requires few { length frame.now ≤ 31 }
    ensures { result ≡ cut_of frame.now }
{
    first_cut(missing_of(frame), cut_of(own_part(frame), end_in(frame)))
}

fn left_in(frame: &[u8]) -> usize
    requires few { length frame.now ≤ 31 }
    ensures { result ≡ left_of frame.now }
{
    beyond_of(frame) + left_of(own_part(frame), end_in(frame))
}

/// Whether an InfoFrame is well-formed.
pub(crate) fn is_well_formed(frame: &[u8]) -> bool
    requires few { length frame.now ≤ 31 }
    ensures { result ≡ is_well_formed frame.now }
{
    is_summed(frame)
        && (cut_in(frame) == 0
            && (left_in(frame) == 0 && !some_reserved(table_of(frame), own_part(frame))))
}

fn add_right<'a, S: Sink>(
    out: &mut Counted<'_, S>,
    form: Form,
    kind: &'a str,
    packet: u8,
    version: u64,
    length: u64,
    checksum: u8,
    cut: u64,
    left: u64,
)
    ensures { Adds out.old out.new (record_text form (codes "infoframe") (right_cells kind.now packet version length checksum cut left)) }
{
    let cells = cells![
        both("", "kind", Value::One(Piece::Text(kind))),
        both(" type ", "packet_type", Value::One(Piece::HexByte(packet))),
        both(" version ", "version", Value::One(Piece::Decimal(version))),
        both(" length ", "length", Value::One(Piece::Decimal(length))),
        both(
            " checksum ",
            "checksum",
            Value::One(Piece::HexByte(checksum))
        ),
        both(" ", "sum", Value::One(Piece::Text("right"))),
        hidden("due", Value::One(Piece::HexByte(checksum))),
        both(" cut ", "cut", Value::One(Piece::Decimal(cut))),
        both(" left ", "left", Value::One(Piece::Decimal(left))),
    ];
    add_record(out, form, "infoframe", &cells);
}

fn add_wrong<'a, S: Sink>(
    out: &mut Counted<'_, S>,
    form: Form,
    kind: &'a str,
    packet: u8,
    version: u64,
    length: u64,
    checksum: u8,
    due: u8,
    cut: u64,
    left: u64,
)
    ensures { Adds out.old out.new (record_text form (codes "infoframe") (wrong_cells kind.now packet version length checksum due cut left)) }
{
    let cells = cells![
        both("", "kind", Value::One(Piece::Text(kind))),
        both(" type ", "packet_type", Value::One(Piece::HexByte(packet))),
        both(" version ", "version", Value::One(Piece::Decimal(version))),
        both(" length ", "length", Value::One(Piece::Decimal(length))),
        both(
            " checksum ",
            "checksum",
            Value::One(Piece::HexByte(checksum))
        ),
        both(" ", "sum", Value::One(Piece::Text("wrong"))),
        both(" due ", "due", Value::One(Piece::HexByte(due))),
        both(" cut ", "cut", Value::One(Piece::Decimal(cut))),
        both(" left ", "left", Value::One(Piece::Decimal(left))),
    ];
    add_record(out, form, "infoframe", &cells);
}

// Adds the record of an InfoFrame whose checksum is right or wrong.
fn add_header_by<S: Sink>(
    out: &mut Counted<'_, S>,
    form: Form,
    summed: bool,
    kind: &str,
    packet: u8,
    version: u64,
    length: u64,
    checksum: u8,
    due: u8,
    cut: u64,
    left: u64,
)
    ensures { Adds out.old out.new (header_by form summed kind.now packet version length checksum due cut left) }
{
    if summed {
        add_right(
            out, form, kind, packet, version, length, checksum, cut, left,
        );
    } else {
        add_wrong(
            out, form, kind, packet, version, length, checksum, due, cut, left,
        );
    }
}

/// Adds the record of an InfoFrame.
pub(crate) fn add_header<S: Sink>(out: &mut Counted<'_, S>, form: Form, frame: &[u8])
    requires few { length frame.now ≤ 31 }
    ensures { Adds out.old out.new (header_record form frame.now) }
{
    add_header_by(
        out,
        form,
        is_summed(frame),
        kind_word(kind_of(frame)),
        byte_at(frame, 0),
        u64::from(version_of(frame)),
        u64::from(length_of(frame)),
        byte_at(frame, 3),
        checksum_due(frame),
        cut_in(frame) as u64,
        left_in(frame) as u64,
    );
}
