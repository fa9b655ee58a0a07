//! What the words of a line say.
ghost use Rattle.std.specs.Prelude.{◌≡◌, min};
ghost use Rattle.std.specs.Option.{option_map};
ghost use Rattle.text_core.specs.Hex.{hex_byte};
ghost use Rattle.text_core.specs.Number.{number_of};
ghost use Rattle.text_forms.specs.Limits.{at_most, last_port, most_ports};
ghost use Rattle.text_forms.specs.Forms.{KindOf, Level, Number, PortOf, PortsOf, level_of, meaning_of, meant, switch_of};

use crate::form::Slot;
use crate::limits::{LAST_PORT, LATEST, MOST_PORTS};
use text_core::{Kind, hex_byte, number_in};

/// The value of a word.
#[derive(Clone, Copy, Default)]
pub enum Value<'t> {
    /// None: the word stands for itself.
    #[default]
    Itself,
    Number(u64),
    /// A port.
    Port(u8),
    /// A count of ports.
    Ports(u8),
    Level(bool),
    Kind(Kind),
    /// The word.
    Text(&'t [u8]),
    /// All that stands from here on.
    Rest(&'t [u8]),
}

fn at_most(limit: u64, number: Option<u64>) -> Option<u64>
    ensures { result ≡ at_most limit number }
{
    let number = number?;
    if number > limit { None } else { Some(number) }
}

fn level_in(word: &[u8]) -> Option<bool>
    ensures { result ≡ level_of word.now }
{
    if word == b"0".as_slice() {
        Some(false)
    } else if word == b"1".as_slice() {
        Some(true)
    } else {
        None
    }
}

fn switch_in(word: &[u8]) -> Option<bool>
    ensures { result ≡ switch_of word.now }
{
    if word == b"off".as_slice() {
        Some(false)
    } else if word == b"on".as_slice() {
        Some(true)
    } else {
        None
    }
}

fn port_in(word: &[u8]) -> Option<u8>
    ensures { result ≡ option_map (λ n. min n last_port) (number_of word.now) }
{
    let port = number_in(word)?;
    Some(port.min(LAST_PORT) as u8)
}

fn ports_in(word: &[u8]) -> Option<u8>
    ensures { result ≡ at_most most_ports (number_of word.now) }
{
    let ports = number_in(word)?;
    if ports > MOST_PORTS {
        None
    } else {
        Some(ports as u8)
    }
}

fn byte_in(word: &[u8]) -> Option<u64>
    ensures { result ≡ hex_byte word.now }
{
    match hex_byte(word) {
        Some(byte) => Some(u64::from(byte)),
        None => None,
    }
}

fn of_ports<'t>(ports: Option<u8>) -> Option<Value<'t>>
    ensures { option_map meant result ≡ option_map PortsOf ports }
{
    match ports {
        Some(ports) => Some(Value::Ports(ports)),
        None => None,
    }
}

fn of_port<'t>(port: Option<u8>) -> Option<Value<'t>>
    ensures { option_map meant result ≡ option_map PortOf port }
{
    match port {
        Some(port) => Some(Value::Port(port)),
        None => None,
    }
}

fn of_number<'t>(number: Option<u64>) -> Option<Value<'t>>
    ensures { option_map meant result ≡ option_map Number number }
{
    match number {
        Some(number) => Some(Value::Number(number)),
        None => None,
    }
}

fn of_level<'t>(level: Option<bool>) -> Option<Value<'t>>
    ensures { option_map meant result ≡ option_map Level level }
{
    match level {
        Some(level) => Some(Value::Level(level)),
        None => None,
    }
}

fn of_kind<'t>(kind: Option<Kind>) -> Option<Value<'t>>
    ensures { option_map meant result ≡ option_map KindOf kind }
{
    match kind {
        Some(kind) => Some(Value::Kind(kind)),
        None => None,
    }
}

/// The value of a word at a place of a form.
pub(crate) fn value_in(slot: Slot, word: &[u8]) -> Option<Value<'_>>
    ensures { option_map meant result ≡ meaning_of slot word.now }
{
    match slot {
        Slot::Word | Slot::Key => Some(Value::Itself),
        Slot::Time | Slot::LateTime => of_number(at_most(LATEST, number_in(word))),
        Slot::Number => of_number(number_in(word)),
        Slot::Opcode => of_number(byte_in(word)),
        Slot::Port | Slot::KeyPort => of_port(port_in(word)),
        Slot::Ports => of_ports(ports_in(word)),
        Slot::Level => of_level(level_in(word)),
        Slot::Switch => of_level(switch_in(word)),
        Slot::Kind => of_kind(Kind::named(word)),
        Slot::Text | Slot::Rest => Some(Value::Text(word)),
    }
}
