//! The flags of `edid`.
ghost use Rattle.std.specs.Prelude.{◌≡◌, map, string_bytes, option_and_then};
ghost use Rattle.cli_edid.specs.EdidFlags.{amplified_of, are_dumps, edid_asked, edid_choice, edid_diff, edid_flags, edid_place, edid_sound, edid_whole, is_alone, edid_source, edid_view, eld_choice, eld_view, frame_choice, is_infoframe, view_by, has_objects, nth_of, one_source, output_of, own_shape, own_view, pair_source, place_by, port_of, reading_by, spoken_of, waited_edid, with_edid_flag, with_edid_value, with_edid_word, with_form_flag, with_place_flag};

use crate::rows::rows_of;
use cli_choice::{
    Asked, CommandChoice, EdidReading, EdidShape, EldShape, Recipient, Sound, Source, View,
    form_by, joined,
};
use edid_merge::Table;
use infoframe_tables::InfoFrame;
use record_core::Form;
use text_core::{Phys, number_in};

/// A flag of `edid` that a value follows.
#[derive(Clone, Copy, Debug)]
pub enum EdidValue {
    Address,
    Port,
    Below,
    Speakers,
    Nth,
    Rows,
    As,
    InfoFrame,
}

/// A flag of `edid` that says what is written.
#[derive(Clone, Copy, Debug)]
pub enum EdidOutput {
    Raw,
    C,
    Xml,
    Meaning,
    Check,
    OnlyAddress,
    Ddc,
    Room,
}

/// The flags that `edid` was given.
#[derive(Clone, Copy)]
pub struct EdidFlags {
    /// What `--text`, `--words` or `--hex` says that the input is.
    pub source: Option<Source>,
    /// Which of the EDIDs of a dump is read.
    pub nth: Option<u64>,
    /// What `--eeodb` or `--as-source` says of how it is read.
    pub reading: Option<EdidReading>,
    /// Its checksums and its count are set right.
    pub mends: bool,
    pub wanted: Option<EdidOutput>,
    /// What is written is the ELD of it.
    pub eld: bool,
    /// An InfoFrame is held against it, which `named_in` returns.
    pub framed: bool,
    /// Its lines are objects of JSON.
    pub json: bool,
    pub address: Option<Phys>,
    pub port: Option<u8>,
    pub amplified: bool,
    /// The amplifier's speakers are its own.
    pub spoken: bool,
    /// The EDID is made of two.
    pub merges: bool,
    /// The input is an ELD.
    pub reads_eld: bool,
    /// Two are compared.
    pub compares: bool,
    /// The rows of the table by which it is.
    pub rows: Option<Table>,
    pub explains: bool,
    /// The flag whose value comes next.
    pub waits: Option<EdidValue>,
}

impl EdidFlags {
    /// No flag.
    pub const NONE: EdidFlags = EdidFlags {
        source: None,
        nth: None,
        reading: None,
        mends: false,
        wanted: None,
        eld: false,
        framed: false,
        json: false,
        address: None,
        port: None,
        amplified: false,
        spoken: false,
        merges: false,
        reads_eld: false,
        compares: false,
        rows: None,
        explains: false,
        waits: None,
    };
}

// The number of a port: 1 to 15.
fn port_of(word: &str) -> Option<u8>
    ensures { result ≡ port_of word.now }
{
    match number_in(word.as_bytes()) {
        Some(number) if 1 <= number && number <= 15 => Some(number as u8),
        _ => None,
    }
}

// The number of an EDID among several: from 1.
fn nth_of(word: &str) -> Option<u64>
    ensures { result ≡ nth_of word.now }
{
    match number_in(word.as_bytes()) {
        Some(number) if 1 <= number => Some(number),
        _ => None,
    }
}

// Whether a word says that the device is an amplifier.
fn amplified_of(word: &str) -> bool
    ensures { result ≡ amplified_of word.now }
{
    word == "amp"
}

// Whether a word says that speakers are the amplifier's own.
fn spoken_of(word: &str) -> bool
    ensures { result ≡ spoken_of word.now }
{
    word == "own"
}

// The form of a word in which the whole EDID is written. A kernel takes its bytes as they are.
fn output_of(word: &str) -> Option<EdidOutput>
    ensures { result ≡ output_of word.now }
{
    match word {
        "c" => Some(EdidOutput::C),
        "xml" => Some(EdidOutput::Xml),
        "firmware" => Some(EdidOutput::Raw),
        _ => None,
    }
}

// Whether a word spells an InfoFrame.
fn is_infoframe(word: &str) -> bool
    ensures { result ≡ is_infoframe word.now }
{
    InfoFrame::read(word.as_bytes()).is_ok()
}

// The flags with the value of the last.
fn with_edid_value(flags: EdidFlags, value: EdidValue, word: &str) -> Option<EdidFlags>
    ensures { result ≡ with_edid_value flags value word.now }
{
    match value {
        EdidValue::Address => {
            let address = Phys::read(word.as_bytes())?;
            Some(EdidFlags {
                address: Some(address),
                waits: None,
                ..flags
            })
        }
        EdidValue::Port => {
            let port = port_of(word)?;
            Some(EdidFlags {
                port: Some(port),
                waits: None,
                ..flags
            })
        }
        EdidValue::Below if amplified_of(word) => Some(EdidFlags {
            amplified: true,
            waits: None,
            ..flags
        }),
        EdidValue::Below => None,
        EdidValue::Speakers if spoken_of(word) => Some(EdidFlags {
            spoken: true,
            waits: None,
            ..flags
        }),
        EdidValue::Speakers => None,
        EdidValue::Rows => {
            let rows = rows_of(Table::RECEIVER, word)?;
            Some(EdidFlags {
                rows: Some(rows),
                waits: None,
                ..flags
            })
        }
        EdidValue::Nth => {
            let nth = nth_of(word)?;
            Some(EdidFlags {
                nth: Some(nth),
                waits: None,
                ..flags
            })
        }
        EdidValue::As => {
            let output = output_of(word)?;
            Some(EdidFlags {
                wanted: Some(output),
                waits: None,
                ..flags
            })
        }
        EdidValue::InfoFrame if is_infoframe(word) => Some(EdidFlags {
            framed: true,
            waits: None,
            ..flags
        }),
        EdidValue::InfoFrame => None,
    }
}

// The flags with one that says for whom an EDID is, or of one of several.
fn with_place_flag(flags: EdidFlags, word: &str) -> Option<EdidFlags>
    ensures { result ≡ with_place_flag flags word.now }
{
    match word {
        "--address" if flags.address.is_none() => Some(EdidFlags {
            waits: Some(EdidValue::Address),
            ..flags
        }),
        "--port" if flags.port.is_none() => Some(EdidFlags {
            waits: Some(EdidValue::Port),
            ..flags
        }),
        "--below" if !flags.amplified => Some(EdidFlags {
            waits: Some(EdidValue::Below),
            ..flags
        }),
        "--speakers" if !flags.spoken => Some(EdidFlags {
            waits: Some(EdidValue::Speakers),
            ..flags
        }),
        "--merge" if !flags.merges => Some(EdidFlags {
            merges: true,
            ..flags
        }),
        "--from-eld" if !flags.reads_eld => Some(EdidFlags {
            reads_eld: true,
            ..flags
        }),
        "--diff" if !flags.compares => Some(EdidFlags {
            compares: true,
            ..flags
        }),
        "--rows" if flags.rows.is_none() => Some(EdidFlags {
            waits: Some(EdidValue::Rows),
            ..flags
        }),
        "--nth" if flags.nth.is_none() => Some(EdidFlags {
            waits: Some(EdidValue::Nth),
            ..flags
        }),
        "--explain" if !flags.explains => Some(EdidFlags {
            explains: true,
            ..flags
        }),
        _ => None,
    }
}

// The flags with one that says how an EDID is read, or what is written of it.
fn with_form_flag(flags: EdidFlags, word: &str) -> Option<EdidFlags>
    ensures { result ≡ with_form_flag flags word.now }
{
    match word {
        "--text" if flags.source.is_none() => Some(EdidFlags {
            source: Some(Source::Text),
            ..flags
        }),
        "--words" if flags.source.is_none() => Some(EdidFlags {
            source: Some(Source::Words),
            ..flags
        }),
        "--hex" if flags.source.is_none() => Some(EdidFlags {
            source: Some(Source::Dump { nth: 1 }),
            ..flags
        }),
        "--eeodb" if flags.reading.is_none() => Some(EdidFlags {
            reading: Some(EdidReading::Overridden),
            ..flags
        }),
        "--as-source" if flags.reading.is_none() => Some(EdidFlags {
            reading: Some(EdidReading::AsSource),
            ..flags
        }),
        "--mend" if !flags.mends => Some(EdidFlags {
            mends: true,
            ..flags
        }),
        "--raw" if flags.wanted.is_none() => Some(EdidFlags {
            wanted: Some(EdidOutput::Raw),
            ..flags
        }),
        "--as" if flags.wanted.is_none() => Some(EdidFlags {
            waits: Some(EdidValue::As),
            ..flags
        }),
        "--infoframe" if !flags.framed => Some(EdidFlags {
            waits: Some(EdidValue::InfoFrame),
            ..flags
        }),
        "--check" if flags.wanted.is_none() => Some(EdidFlags {
            wanted: Some(EdidOutput::Check),
            ..flags
        }),
        "--meaning" if flags.wanted.is_none() => Some(EdidFlags {
            wanted: Some(EdidOutput::Meaning),
            ..flags
        }),
        "--only-address" if flags.wanted.is_none() => Some(EdidFlags {
            wanted: Some(EdidOutput::OnlyAddress),
            ..flags
        }),
        "--ddc" if flags.wanted.is_none() => Some(EdidFlags {
            wanted: Some(EdidOutput::Ddc),
            ..flags
        }),
        "--room" if flags.wanted.is_none() => Some(EdidFlags {
            wanted: Some(EdidOutput::Room),
            ..flags
        }),
        "--eld" if !flags.eld => Some(EdidFlags { eld: true, ..flags }),
        "--json" if !flags.json => Some(EdidFlags {
            json: true,
            ..flags
        }),
        _ => None,
    }
}

/// The flags with one more. Each stands once at most, and those that exclude one another not together.
pub fn with_edid_flag(flags: EdidFlags, word: &str) -> Option<EdidFlags>
    ensures { result ≡ with_edid_flag flags word.now }
{
    with_form_flag(flags, word).or(with_place_flag(flags, word))
}

// The flags with a flag that waits for this value.
fn with_edid_pair(flags: EdidFlags, flag: &str, word: &str) -> Option<EdidFlags>
    ensures { result ≡ option_and_then (waited_edid word.now) (with_edid_flag flags flag.now) }
{
    let flags = with_edid_flag(flags, flag)?;
    with_edid_value(flags, flags.waits?, word)
}

/// The flags with one word more: a value where a flag waits for one, else a flag, or a flag and its value.
pub fn with_edid_word(flags: EdidFlags, word: &str) -> Option<EdidFlags>
    ensures { result ≡ with_edid_word flags flags.waits word.now }
{
    match flags.waits {
        Some(value) => with_edid_value(flags, value, word),
        None => match joined(word) {
            Some((flag, value)) => with_edid_pair(flags, flag, value),
            None => with_edid_flag(flags, word),
        },
    }
}

/// The flags with those that these words are, and their values.
pub fn edid_flags(flags: EdidFlags, words: &[String]) -> Option<EdidFlags>
    ensures { result ≡ edid_flags flags (map string_bytes words.now) }
{
    match words {
        [] => Some(flags),
        [word, rest @ ..] => edid_flags(with_edid_word(flags, word.as_str())?, rest),
    }
}

// Whose sound is passed on. The speakers are an amplifier's with its audio alone.
fn edid_sound(amplified: bool, spoken: bool) -> Option<Sound>
    ensures { result ≡ edid_sound amplified spoken }
{
    match (amplified, spoken) {
        (false, false) => Some(Sound::Kept),
        (true, false) => Some(Sound::Amplified),
        (true, true) => Some(Sound::Spoken),
        (false, true) => None,
    }
}

// The device that the EDID is for, with this sound. Only in a port it is an amplifier's.
fn place_with(flags: &EdidFlags, sound: Sound) -> Option<Recipient>
    ensures { result ≡ place_by flags.now.address flags.now.port sound }
{
    match flags.port {
        Some(port) if flags.address.is_none() => Some(Recipient::Port { port, sound }),
        Some(_) => None,
        None => match sound {
            Sound::Kept => match flags.address {
                Some(address) => Some(Recipient::At(address)),
                None => Some(Recipient::Own),
            },
            Sound::Amplified | Sound::Spoken => None,
        },
    }
}

// The device that the EDID is for.
fn edid_place(flags: &EdidFlags) -> Option<Recipient>
    ensures { result ≡ edid_place flags.now }
{
    place_with(flags, edid_sound(flags.amplified, flags.spoken)?)
}

// How an EDID is written where no flag says it: that of a text as hex, and else as its text.
fn own_shape(source: Source) -> EdidShape
    ensures { result ≡ own_shape source }
{
    match source {
        Source::Text | Source::Words => EdidShape::Hex,
        Source::Bytes | Source::Dump { .. } | Source::Pair { .. } => EdidShape::Text,
    }
}

// One EDID. Of a dump alone one of several is chosen.
fn one_source(source: Option<Source>, nth: Option<u64>) -> Option<Source>
    ensures { result ≡ one_source source nth }
{
    let Some(nth) = nth else {
        return Some(source.unwrap_or(Source::Bytes));
    };
    match source {
        Some(Source::Dump { .. }) => Some(Source::Dump { nth }),
        _ => None,
    }
}

// Two EDIDs, as bytes or as dumps.
fn pair_source(source: Option<Source>, table: Table) -> Option<Source>
    ensures { result ≡ pair_source source table }
{
    match source {
        None => Some(Source::Pair {
            dumps: false,
            table,
        }),
        Some(Source::Dump { .. }) => Some(Source::Pair { dumps: true, table }),
        Some(_) => None,
    }
}

// What the EDID is read from. Rows go with two EDIDs alone, which are read as they stand, and of which none is chosen.
fn edid_source(flags: &EdidFlags) -> Option<Source>
    ensures { result ≡ edid_source flags.now }
{
    if flags.merges {
        if flags.nth.is_some() || flags.reading.is_some() || flags.mends {
            return None;
        }
        return pair_source(flags.source, flags.rows.unwrap_or(Table::RECEIVER));
    }
    if flags.rows.is_some() {
        return None;
    }
    one_source(flags.source, flags.nth)
}

// How the EDID is read. What a source reads is mended its own way.
fn reading_by(reading: Option<EdidReading>, mends: bool) -> Option<EdidReading>
    ensures { result ≡ reading_by reading mends }
{
    if !mends {
        return Some(reading.unwrap_or(EdidReading::Strict));
    }
    match reading {
        None => Some(EdidReading::Mended),
        Some(EdidReading::Overridden) => Some(EdidReading::MendedOverridden),
        Some(_) => None,
    }
}

// What is written of the EDID itself.
fn own_view(form: Form, place: Recipient, shape: EdidShape) -> View
    ensures { result ≡ own_view form place shape }
{
    match form {
        Form::Text => View::Whole(place, shape),
        Form::Json => View::Fields(place),
    }
}

// What is written.
fn edid_view(wanted: Option<EdidOutput>, form: Form, place: Recipient, shape: EdidShape) -> View
    ensures { result ≡ edid_view wanted form place shape }
{
    match wanted {
        None => own_view(form, place, shape),
        Some(EdidOutput::Raw) => View::Whole(place, EdidShape::Bytes),
        Some(EdidOutput::C) => View::Whole(place, EdidShape::C),
        Some(EdidOutput::Xml) => View::Whole(place, EdidShape::Xml),
        Some(EdidOutput::Check) => View::Findings(place, form),
        Some(EdidOutput::Meaning) => View::Meaning(place),
        Some(EdidOutput::OnlyAddress) => View::Address(place),
        Some(EdidOutput::Ddc) => View::Readout(place),
        Some(EdidOutput::Room) => View::Room(place, form),
    }
}

// Whether the output has objects of JSON.
fn has_objects(wanted: Option<EdidOutput>) -> bool
    ensures { result ≡ has_objects wanted }
{
    matches!(wanted, None | Some(EdidOutput::Check | EdidOutput::Room))
}

// What is written of its ELD.
fn eld_view(wanted: Option<EdidOutput>, form: Form, place: Recipient) -> Option<View>
    ensures { result ≡ eld_view wanted form place }
{
    let shape = match (wanted, form) {
        (None, Form::Text) => EldShape::Hex,
        (None, Form::Json) => EldShape::Fields(Form::Json),
        (Some(EdidOutput::Raw), Form::Text) => EldShape::Bytes,
        (Some(EdidOutput::Meaning), Form::Text) => EldShape::Fields(Form::Text),
        _ => return None,
    };
    Some(View::Eld(place, shape))
}

// What is written of an EDID or of its ELD, for a device.
fn view_by(flags: &EdidFlags, source: Source, place: Recipient) -> Option<View>
    ensures { result ≡ view_by flags.now source place }
{
    let form = form_by(flags.json);
    if flags.eld {
        return eld_view(flags.wanted, form, place);
    }
    if flags.json && !has_objects(flags.wanted) {
        return None;
    }
    Some(edid_view(flags.wanted, form, place, own_shape(source)))
}

// What is asked for of one EDID.
fn edid_whole(flags: &EdidFlags) -> Option<CommandChoice>
    ensures { result ≡ edid_whole flags.now }
{
    let source = edid_source(flags)?;
    let place = edid_place(flags)?;
    let view = view_by(flags, source, place)?;
    let reading = reading_by(flags.reading, flags.mends)?;
    Some(CommandChoice::Edid {
        source: Some(source),
        reading,
        view,
    })
}

// What an InfoFrame says, and whether an EDID offers that, of which nothing else is written.
fn frame_choice(flags: &EdidFlags) -> Option<CommandChoice>
    ensures { result ≡ frame_choice flags.now }
{
    if flags.wanted.is_some() || flags.eld {
        return None;
    }
    let source = edid_source(flags)?;
    let place = edid_place(flags)?;
    let reading = reading_by(flags.reading, flags.mends)?;
    Some(CommandChoice::InfoFrame {
        source: Some(source),
        reading,
        place,
        form: form_by(flags.json),
    })
}

// Whether two EDIDs are read as dumps, and else as bytes.
fn are_dumps(source: Option<Source>) -> Option<bool>
    ensures { result ≡ are_dumps source }
{
    match source {
        None => Some(false),
        Some(Source::Dump { .. }) => Some(true),
        Some(_) => None,
    }
}

// Whether no flag says which EDID is read, how, for which device, and what of it is written.
fn is_alone(flags: &EdidFlags) -> bool
    ensures { result ≡ is_alone flags.now }
{
    flags.nth.is_none()
        && flags.reading.is_none()
        && !flags.mends
        && flags.wanted.is_none()
        && !flags.eld
        && !flags.framed
        && flags.address.is_none()
        && flags.port.is_none()
        && !flags.amplified
        && !flags.spoken
        && !flags.merges
        && flags.rows.is_none()
}

// Where two EDIDs differ, which are read as they stand.
fn edid_diff(flags: &EdidFlags) -> Option<CommandChoice>
    ensures { result ≡ edid_diff flags.now }
{
    if !is_alone(flags) {
        return None;
    }
    let dumps = are_dumps(flags.source)?;
    Some(CommandChoice::EdidDiff {
        dumps,
        form: form_by(flags.json),
    })
}

// What the fields of an ELD say, which is read in one way.
fn eld_choice(flags: &EdidFlags) -> Option<CommandChoice>
    ensures { result ≡ eld_choice flags.now }
{
    if !is_alone(flags) || flags.source.is_some() || flags.compares {
        return None;
    }
    Some(CommandChoice::Eld {
        form: form_by(flags.json),
    })
}

fn edid_choice(flags: &EdidFlags) -> Option<CommandChoice>
    ensures { result ≡ edid_choice flags.now }
{
    if flags.reads_eld {
        return eld_choice(flags);
    }
    if flags.compares {
        return edid_diff(flags);
    }
    if flags.framed {
        frame_choice(flags)
    } else {
        edid_whole(flags)
    }
}

/// What `edid` with these flags asks for.
pub fn edid_asked(flags: &EdidFlags) -> Option<Asked>
    ensures { result ≡ edid_asked flags.now }
{
    if flags.waits.is_some() {
        return None;
    }
    let choice = edid_choice(flags)?;
    Some(Asked {
        choice,
        explains: flags.explains,
    })
}
