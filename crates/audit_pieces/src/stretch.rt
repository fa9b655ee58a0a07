//! The low stretches of a capture, and of what class each is.
ghost use Rattle.std.specs.Prelude.{◌≡◌, ◌-◌};
ghost use Rattle.audit_pieces.specs.Stretches.{class_by, class_of, classed, is_long_by, is_start_before, rise_by};

use audit_widths::Low;

/// A stretch is long from so much on, in microseconds: half way from the longest low of a bit, 1,700 (CEC 5.2.2), to the shortest
/// one of a start bit, 3,500 (CEC 5.2.1).
pub const LONG_FROM: u64 = 2_600;

/// How long a start bit lasts, 4,300 to 4,700 (CEC 5.2.1), and 400 less or more.
const SHORTEST_START: u64 = 3_900;

const LONGEST_START: u64 = 5_100;

/// What a low stretch may be, by its width and by what follows it.
#[derive(Clone, Copy, Debug, PartialEq, Eq)]
pub enum Class {
    /// Low for as long as a bit.
    Bit,
    /// Low for longer, and no start bit: a low drive perhaps (CEC 7.4).
    Long,
    /// Low for longer, and a bit falls after it as after a start bit.
    Start,
    /// The capture ends before it rises.
    Cut,
}

/// A low stretch of a captured line. Instants are in microseconds.
#[derive(Clone, Copy, Debug, PartialEq, Eq)]
pub struct LowStretch {
    pub fall: u64,
    /// Where it rises, or the capture ends.
    pub rise: u64,
    pub class: Class,
}

fn rise_by(end: u64, rise: Option<u64>) -> u64
    ensures { result ≡ rise_by end rise }
{
    match rise {
        None => end,
        Some(rise) => rise,
    }
}

fn is_long_by(end: u64, low: Low) -> bool
    ensures { result ≡ is_long_by end low }
{
    rise_by(end, low.rise).saturating_sub(low.fall) >= LONG_FROM
}

fn is_start_before(end: u64, low: Low, next: Option<Low>) -> bool
    ensures { result ≡ is_start_before end low next }
{
    match next {
        None => false,
        Some(next) => {
            let total = next.fall.saturating_sub(low.fall);
            SHORTEST_START <= total
                && total <= LONGEST_START
                && rise_by(end, next.rise).saturating_sub(next.fall) < LONG_FROM
        }
    }
}

fn class_by(is_long: bool, starts: bool) -> Class
    ensures { result ≡ class_by is_long starts }
{
    if !is_long {
        Class::Bit
    } else if starts {
        Class::Start
    } else {
        Class::Long
    }
}

fn class_of(end: u64, low: Low, next: Option<Low>) -> Class
    ensures { result ≡ class_of end low next low.rise }
{
    match low.rise {
        None => Class::Cut,
        Some(_) => class_by(is_long_by(end, low), is_start_before(end, low, next)),
    }
}

impl LowStretch {
    /// A low stretch of a capture that ends at `end`, by the one after it.
    pub fn new(end: u64, low: Low, next: Option<Low>) -> Self
        ensures { result ≡ classed end low next }
    {
        LowStretch {
            fall: low.fall,
            rise: rise_by(end, low.rise),
            class: class_of(end, low, next),
        }
    }
}
