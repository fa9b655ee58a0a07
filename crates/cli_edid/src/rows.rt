//! The rows of the table by which the EDIDs of a display and of a receiver are made one.
ghost use Rattle.std.specs.Prelude.{◌≡◌};
ghost use Rattle.cli_edid.specs.Rows.{bits_of, numbers_of, parted, rows_of, rows_within, videos_of, whose_of, with_row, with_row_in};
ghost use Rattle.std.specs.Option.{option_map};

use cli_choice::joined;
use edid_merge::{Bits, Formats, Numbers, Table, Whose};

fn whose_of(word: &str) -> Option<Whose>
    ensures { result ≡ whose_of word.now }
{
    match word {
        "keep" => Some(Whose::Keep),
        "own" => Some(Whose::Own),
        _ => None,
    }
}

// Whose video blocks they are, and what of them stays.
fn videos_of(word: &str) -> Option<(Whose, Formats)>
    ensures { result ≡ videos_of word.now }
{
    match word {
        "keep" => Some((Whose::Keep, Formats::All)),
        "own" => Some((Whose::Own, Formats::All)),
        "link" => Some((Whose::Keep, Formats::Carried)),
        _ => None,
    }
}

fn bits_of(word: &str) -> Option<Bits>
    ensures { result ≡ bits_of word.now }
{
    match word {
        "keep" => Some(Bits::Keep),
        "own" => Some(Bits::Own),
        "and" => Some(Bits::And),
        _ => None,
    }
}

fn numbers_of(word: &str) -> Option<Numbers>
    ensures { result ≡ numbers_of word.now }
{
    match word {
        "keep" => Some(Numbers::Keep),
        "own" => Some(Numbers::Own),
        "least" => Some(Numbers::Least),
        _ => None,
    }
}

// A table with the row of a name.
fn with_row(table: Table, name: &str, word: &str) -> Option<Table>
    ensures { result ≡ with_row table name.now word.now }
{
    match name {
        "product" => {
            let product = whose_of(word)?;
            Some(Table { product, ..table })
        }
        "video" => {
            let (video, formats) = videos_of(word)?;
            Some(Table {
                video,
                formats,
                ..table
            })
        }
        "audio" => {
            let audio = whose_of(word)?;
            Some(Table { audio, ..table })
        }
        "speakers" => {
            let speakers = bits_of(word)?;
            Some(Table { speakers, ..table })
        }
        "hdmi" => {
            let hdmi = numbers_of(word)?;
            Some(Table { hdmi, ..table })
        }
        "forum" => {
            let forum = numbers_of(word)?;
            Some(Table { forum, ..table })
        }
        "capability" => {
            let capability = bits_of(word)?;
            Some(Table {
                capability,
                ..table
            })
        }
        "colorimetry" => {
            let colorimetry = bits_of(word)?;
            Some(Table {
                colorimetry,
                ..table
            })
        }
        "hdr" => {
            let hdr = bits_of(word)?;
            Some(Table { hdr, ..table })
        }
        "maker-video" => {
            let maker_video = whose_of(word)?;
            Some(Table {
                maker_video,
                ..table
            })
        }
        "maker-audio" => {
            let maker_audio = whose_of(word)?;
            Some(Table {
                maker_audio,
                ..table
            })
        }
        "other" => {
            let other = whose_of(word)?;
            Some(Table { other, ..table })
        }
        _ => None,
    }
}

// A table with a row as `video=keep`.
fn with_row_in(table: Table, text: &str) -> Option<Table>
    ensures { result ≡ with_row_in table text.now }
{
    match joined(text) {
        Some((name, word)) => with_row(table, name, word),
        None => None,
    }
}

// What stands before the first comma of a text, and what stands after it, where it has one.
fn parted(text: &str) -> Option<(&str, &str)>
    ensures { option_map (λ parts. (parts.0.now, parts.1.now)) result ≡ parted text.now }
{
    text.split_once(',')
}

// A table with the rows of a text, of which there are so many more than one at most.
#[tactic(auto, using(crate::proofs::RowLemmas::rows_more))]
fn rows_within(most: u8, table: Table, text: &str) -> Option<Table>
    ensures { result ≡ rows_within most table text.now }
{
    if most == 0 {
        return with_row_in(table, text);
    }
    match parted(text) {
        None => with_row_in(table, text),
        Some((row, rest)) => {
            let more = with_row_in(table, row)?;
            rows_within(most - 1, more, rest)
        }
    }
}

/// A table with the rows of a text, a comma apart, twelve at most. The last of several for one kind holds.
#[tactic(auto, unfolding(crate::specs::Rows::rows_of))]
pub(crate) fn rows_of(table: Table, text: &str) -> Option<Table>
    ensures { result ≡ rows_of table text.now }
{
    rows_within(11, table, text)
}
