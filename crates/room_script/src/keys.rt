//! Keys of scripts.
ghost use Rattle.std.specs.Prelude.{◌≡◌};
ghost use Rattle.std.specs.List.{list_all};
ghost use Rattle.std.specs.Char.{is_ascii_lowercase};
ghost use Rattle.text_forms.specs.Forms.{values_of};
ghost use Rattle.room_script.specs.Keys.{language_of, destination_of, code_of, control_of, key_or_cause, key_said, remote_by};
ghost use Rattle.room_script.specs.Script.{key_time};

use crate::script::ScriptCause;
use device_features::{Key, KeyWord, VolumeKey};
use line_frames::Addr;
use message_table::{Triple, UserControl, WordSet};
use room_lines::ScriptVerb;
use text_core::{AtWord, Phys, at_word, digit_value, is_hex_digit};
use text_forms::FormLine;

fn are_letters(word: &[u8]) -> bool
    ensures { result ≡ list_all is_ascii_lowercase word.now }
{
    word.iter().all(|byte| byte.is_ascii_lowercase())
}

fn language_in(word: &[u8]) -> Option<Triple>
    ensures { result ≡ language_of word.now }
{
    if word.len() != 3 || !are_letters(word) {
        return None;
    }
    Some(Triple {
        first: word[0],
        second: word[1],
        third: word[2],
    })
}

// The logical address of a device that may be remote-controlled: 1 to e.
fn destination_in(word: &[u8]) -> Option<Addr>
    ensures { result ≡ destination_of word.now }
{
    if word.len() != 1 || !is_hex_digit(word[0]) || word[0] <= b'0' || word[0] >= b'f' {
        return None;
    }
    Some(Addr::new(digit_value(word[0])))
}

fn code_in(word: &[u8]) -> Option<u8>
    ensures { result ≡ code_of word.now }
{
    WordSet::UserControl.byte(word)
}

fn control_in(word: &[u8]) -> Option<UserControl>
    ensures { result ≡ control_of word.now }
{
    Some(UserControl::from_byte(code_in(word)?))
}

fn key_or_cause(key: Option<Key>) -> Result<Key, AtWord<ScriptCause>>
    ensures { result ≡ key_or_cause key }
{
    key.ok_or(at_word(5, ScriptCause::Word))
}

fn remote_by(to: Option<Addr>, code: Option<UserControl>) -> Result<Key, AtWord<ScriptCause>>
    ensures { result ≡ remote_by to code }
{
    let Some(to) = to else {
        return Err(at_word(5, ScriptCause::Word));
    };
    let Some(code) = code else {
        return Err(at_word(6, ScriptCause::Word));
    };
    Ok(Key::Remote { to, code })
}

/// The key that the values of its form say.
pub(crate) fn key_said(
    word: KeyWord,
    line: &FormLine<'_, ScriptVerb>,
) -> Result<Key, AtWord<ScriptCause>>
    ensures { result ≡ key_said word (values_of line.now) }
{
    match word {
        KeyWord::Play => Ok(Key::Play),
        KeyWord::Stop => Ok(Key::Stop),
        KeyWord::Eject => Ok(Key::Eject),
        KeyWord::Load => Ok(Key::Load),
        KeyWord::Menu => Ok(Key::Menu),
        KeyWord::Power => Ok(Key::Power),
        KeyWord::VolumeUp => Ok(Key::Volume(VolumeKey::Up)),
        KeyWord::VolumeDown => Ok(Key::Volume(VolumeKey::Down)),
        KeyWord::Mute => Ok(Key::Volume(VolumeKey::Mute)),
        KeyWord::Port => Ok(Key::Port(line.port(5))),
        KeyWord::Watch => key_or_cause(Phys::read(line.text(5)).map(Key::Watch)),
        KeyWord::Language => key_or_cause(language_in(line.text(5)).map(Key::Language)),
        KeyWord::Audio => Ok(Key::Audio { on: line.level(5) }),
        KeyWord::Arc => Ok(Key::Arc { on: line.level(5) }),
        KeyWord::Remote => remote_by(destination_in(line.text(5)), control_in(line.text(6))),
    }
}

/// The time of its line: what a key takes comes before it, in the order of causes.
pub(crate) fn key_time(word: KeyWord, line: &FormLine<'_, ScriptVerb>) -> Option<u64>
    ensures { result ≡ key_time word (values_of line.now) }
{
    match word {
        KeyWord::Watch | KeyWord::Language | KeyWord::Remote => line.late_time(1),
        KeyWord::Play
        | KeyWord::Stop
        | KeyWord::Eject
        | KeyWord::Load
        | KeyWord::Menu
        | KeyWord::Power
        | KeyWord::VolumeUp
        | KeyWord::VolumeDown
        | KeyWord::Mute
        | KeyWord::Port
        | KeyWord::Audio
        | KeyWord::Arc => Some(line.time(1)),
    }
}
