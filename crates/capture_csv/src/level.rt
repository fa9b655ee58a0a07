//! What a field says of the line: a level, or a voltage.
ghost use Rattle.std.specs.Prelude.{◌≡◌};
ghost use Rattle.capture_csv.specs.Level.{is_high, is_low, is_sign, is_voltage, level_of, low_by, said_by, voltage_of, without_sign};

use crate::column::TimeUnit;
use crate::nanos::nanos_of;
use text_core::{after, byte_at, len_before};

/// Up to this many billionths of a volt an input takes for a logical 0.
const MOST_LOW: u64 = 800_000_000;

/// From this many on it takes for a logical 1.
const LEAST_HIGH: u64 = 2_000_000_000;

/// What a field says of the line.
#[derive(Clone, Copy, Debug, PartialEq, Eq)]
pub enum Said {
    Low,
    High,
    /// A voltage between the thresholds: the line is as it was.
    Between,
}

fn is_low(field: &[u8]) -> bool
    ensures { result ≡ is_low field.now }
{
    field == b"0".as_slice() || field.eq_ignore_ascii_case(b"low")
}

fn is_high(field: &[u8]) -> bool
    ensures { result ≡ is_high field.now }
{
    field == b"1".as_slice() || field.eq_ignore_ascii_case(b"high")
}

fn is_sign(byte: u8) -> bool
    ensures { result ≡ is_sign byte }
{
    byte == b'+' || byte == b'-'
}

// Whether a field has a sign or a dot, so that 0 and 1 are no voltages.
fn is_voltage(field: &[u8]) -> bool
    ensures { result ≡ is_voltage field.now }
{
    is_sign(byte_at(field, 0)) || len_before(field, b'.') < field.len()
}

fn without_sign(field: &[u8]) -> &[u8]
    ensures { result.now ≡ without_sign field.now }
{
    if is_sign(byte_at(field, 0)) {
        after(field, 1)
    } else {
        field
    }
}

// What this many billionths of a volt say, or that many below zero.
fn said_by(is_below: bool, billionths: Option<u64>) -> Option<Said>
    ensures { result ≡ said_by is_below billionths }
{
    let billionths = billionths?;
    if is_below || billionths <= MOST_LOW {
        Some(Said::Low)
    } else if LEAST_HIGH <= billionths {
        Some(Said::High)
    } else {
        Some(Said::Between)
    }
}

// Volts and their decimals are read as seconds are.
fn voltage_of(field: &[u8]) -> Option<Said>
    ensures { result ≡ voltage_of field.now }
{
    let is_below = byte_at(field, 0) == b'-';
    said_by(is_below, nanos_of(TimeUnit::Seconds, without_sign(field)))
}

/// What a field says of the line.
pub fn level_of(field: &[u8]) -> Option<Said>
    ensures { result ≡ level_of field.now }
{
    if is_low(field) {
        Some(Said::Low)
    } else if is_high(field) {
        Some(Said::High)
    } else if is_voltage(field) {
        voltage_of(field)
    } else {
        None
    }
}

/// Whether the line is low after a field, by whether it was before it.
pub fn low_by(said: Said, was_low: bool) -> bool
    ensures { result ≡ low_by said was_low }
{
    match said {
        Said::Low => true,
        Said::High => false,
        Said::Between => was_low,
    }
}
