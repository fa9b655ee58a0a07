//! Words of an ELD.
ghost use Rattle.std.specs.Prelude.{◌≡◌, ◌≤◌, ◌*◌, ◌+◌, length, map};
ghost use Rattle.meaning_eld.specs.Words.{connection_name, letters_of, maker_letters, maker_word, name_word, words_or_dash};
ghost use Rattle.meaning_words.specs.Notes.{printable};

use arrayvec::ArrayVec;
use edid_base::{Maker, append};
use edid_eld::Connection;

pub(crate) fn connection_name(connection: Connection) -> &'static str
    ensures { result.now ≡ connection_name connection }
{
    match connection {
        Connection::Hdmi => "hdmi",
        Connection::DisplayPort => "displayport",
        Connection::Reserved2 => "reserved-2",
        Connection::Reserved3 => "reserved-3",
    }
}

fn letters_of(high: u8, low: u8) -> [u8; 3]
    ensures { result ≡ letters_of (high * 256 + low) }
{
    let number = u16::from(high) * 256 + u16::from(low);
    [
        (number / 1024) as u8 + b'@',
        (number / 32 % 32) as u8 + b'@',
        (number % 32) as u8 + b'@',
    ]
}

fn word_of(chars: &[u8]) -> ArrayVec<u8, 3>
    requires { length chars.now ≤ 3 }
    ensures { result.items ≡ chars.now }
{
    let mut word = ArrayVec::new();
    append(&mut word, chars);
    word
}

fn maker_letters(high: u8, low: u8) -> ArrayVec<u8, 3>
    ensures { result.items ≡ maker_letters high low }
{
    match Maker::read(high, low) {
        None => word_of(b"-"),
        Some(_) => word_of(&letters_of(high, low)),
    }
}

/// The three letters of a maker, or a dash.
pub(crate) fn maker_word(maker: &[u8; 2]) -> ArrayVec<u8, 3>
    ensures { result.items ≡ maker_word maker.now }
{
    maker_letters(maker[0], maker[1])
}

fn printable(byte: u8) -> u8
    ensures { result ≡ printable byte }
{
    if 0x20 <= byte && byte <= 0x7e {
        byte
    } else {
        b'.'
    }
}

fn all_printable(name: &[u8]) -> ArrayVec<u8, 16>
    requires { length name.now ≤ 16 }
    ensures { result.items ≡ map printable name.now }
{
    let mut word = ArrayVec::new();
    for byte in name {
        word.push(printable(*byte));
    }
    word
}

/// The characters of a name, or a dash.
pub(crate) fn name_word(name: &[u8]) -> ArrayVec<u8, 16>
    requires { length name.now ≤ 16 }
    ensures { result.items ≡ name_word name.now }
{
    match name {
        [] => all_printable(b"-"),
        _ => all_printable(name),
    }
}

/// Words without the first comma, or a dash.
pub(crate) fn words_or_dash(words: &[u8]) -> &[u8]
    ensures { result.now ≡ words_or_dash words.now }
{
    match words {
        [_, _, text @ ..] => text,
        _ => b"-",
    }
}
