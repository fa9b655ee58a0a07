//! The records of an ELD.
ghost use Rattle.std.specs.Prelude.{◌≡◌, ◌∷◌, [], codes};
ghost use Rattle.edid_eld.specs.Eld.{parts_of};
ghost use Rattle.meaning_eld.specs.Records.{audio_record, audio_records, eld_cells, eld_record, eld_text, meant_cells, speakers_record};
ghost use Rattle.record_core.specs.Records.{record_text};
ghost use Rattle.text_core.specs.Adds.{Adds};

use crate::words::{connection_name, maker_word, name_word, words_or_dash};
use edid_eld::Eld;
use meaning_cta::{audio_note, speaker_note};
use record_core::{Form, Value, add_record, cells};
use text_core::{Counted, Piece, Sink};

/// A unit of the delay, in ms.
const DELAY: u64 = 2;

fn add_cells<'a, S: Sink>(
    out: &mut Counted<'_, S>,
    form: Form,
    version: u64,
    cta: u64,
    connection: &'a str,
    ai: bool,
    hdcp: bool,
    delay: u64,
    port: &'a [u8],
    letters: &'a [u8],
    maker: &'a [u8],
    product: u64,
    name: &'a [u8],
)
    ensures { Adds out.old out.new (record_text form (codes "eld") (eld_cells version cta connection.now ai hdcp delay port.now letters.now maker.now product name.now)) }
{
    let cells = cells![
        both(
            "eld version ",
            "version",
            Value::One(Piece::Decimal(version))
        ),
        both(" cta ", "cta", Value::One(Piece::Decimal(cta))),
        both(
            " connection ",
            "connection",
            Value::One(Piece::Text(connection))
        ),
        both(" ai ", "ai", Value::One(Piece::Switch(ai))),
        both(" hdcp ", "hdcp", Value::One(Piece::Switch(hdcp))),
        both(" delay ", "delay", Value::One(Piece::Decimal(delay))),
        both(" port ", "port", Value::One(Piece::Hex(port))),
        both(" maker ", "maker", Value::One(Piece::Bytes(letters))),
        both(" ", "maker_bytes", Value::One(Piece::Hex(maker))),
        both(" product ", "product", Value::One(Piece::Decimal(product))),
        both(" name ", "name", Value::One(Piece::Bytes(name))),
    ];
    add_record(out, form, "eld", &cells);
}

fn add_fields<S: Sink>(out: &mut Counted<'_, S>, form: Form, eld: &Eld)
    ensures { Adds out.old out.new (eld_record form (parts_of eld.now)) }
{
    let letters = maker_word(&eld.maker);
    let name = name_word(eld.name.as_slice());
    add_cells(
        out,
        form,
        u64::from(eld.version.number()),
        u64::from(eld.cta_version),
        connection_name(eld.connection),
        eld.ai,
        eld.hdcp,
        DELAY * u64::from(eld.delay),
        &eld.port,
        letters.as_slice(),
        &eld.maker,
        u64::from(eld.product),
        name.as_slice(),
    );
}

fn add_speakers_with<'a, S: Sink>(
    out: &mut Counted<'_, S>,
    form: Form,
    bytes: &'a [u8],
    meaning: &'a [u8],
)
    ensures { Adds out.old out.new (record_text form (codes "speakers") (meant_cells (codes "speakers ") bytes.now meaning.now)) }
{
    let cells = cells![
        both("speakers ", "bytes", Value::One(Piece::Hex(bytes))),
        both(" ", "meaning", Value::One(Piece::Bytes(meaning))),
    ];
    add_record(out, form, "speakers", &cells);
}

fn add_speakers<S: Sink>(out: &mut Counted<'_, S>, form: Form, speakers: u8)
    ensures { Adds out.old out.new (speakers_record form speakers) }
{
    let words = speaker_note(&[speakers]);
    add_speakers_with(out, form, &[speakers], words_or_dash(words.as_slice()));
}

fn add_audio_with<'a, S: Sink>(
    out: &mut Counted<'_, S>,
    form: Form,
    bytes: &'a [u8],
    meaning: &'a [u8],
)
    ensures { Adds out.old out.new (record_text form (codes "audio") (meant_cells (codes "audio ") bytes.now meaning.now)) }
{
    let cells = cells![
        both("audio ", "bytes", Value::One(Piece::Hex(bytes))),
        both(" ", "meaning", Value::One(Piece::Bytes(meaning))),
    ];
    add_record(out, form, "audio", &cells);
}

fn add_descriptor<S: Sink>(out: &mut Counted<'_, S>, form: Form, first: u8, second: u8, third: u8)
    ensures { Adds out.old out.new (audio_record form first second third) }
{
    let note = audio_note(first, second, third);
    add_audio_with(out, form, &[first, second, third], note.as_slice());
}

#[tactic(auto, using(text_core::proofs::Adding::nothing, text_core::proofs::Adding::then), unfolding(crate::specs::Records::audio_records))]
fn add_audio<S: Sink>(out: &mut Counted<'_, S>, form: Form, audio: &[u8])
    ensures { Adds out.old out.new (audio_records form audio.now) }
{
    if let [first, second, third, others @ ..] = audio {
        add_descriptor(out, form, *first, *second, *third);
        add_audio(out, form, others);
    }
}

/// Adds the records of an ELD.
#[tactic(auto, using(text_core::proofs::Adding::then))]
pub(crate) fn add_eld<S: Sink>(out: &mut Counted<'_, S>, form: Form, eld: &Eld)
    ensures { Adds out.old out.new (eld_text form (parts_of eld.now)) }
{
    add_fields(out, form, eld);
    add_speakers(out, form, eld.speakers);
    add_audio(out, form, eld.audio.as_slice());
}
