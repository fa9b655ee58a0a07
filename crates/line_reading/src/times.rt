//! The times at which the line is read, in microseconds. The standard's nominal bits are low for 3,700 of 4,500 in
//! the start bit, and for 600 or 1,500 of 2,400 in a data bit (CEC 5.2.1 and 5.2.2). The windows about them and the
//! sampling instant are this profile's own. Each time is counted from the fall with which its bit begins, and each
//! window has both its ends:
//!
//! ```text
//!  start bit                              slot                    next slot
//! ‾‾\________________/‾‾‾‾‾‾‾‾‾‾‾‾‾\____________/‾‾‾‾‾‾‾‾‾‾‾\______
//!   |                |             |      |                 |
//!   0       3,500 to 3,900         |      |                 |
//!   0                       4,300 to 4,700|                 |
//!                                  0    1,050               |
//!                                  0                 2,050 to 2,750
//! ```
ghost use Rattle.std.specs.Prelude.{◌≡◌, ◌+◌, ◌<◌, ◌≤◌, ◌^◌};
ghost use Rattle.line_reading.specs.Windows.{AreWindows, most_margin, wider, wider_span};

/// The least and the most that a width may be, in microseconds.
#[derive(Clone, Copy, Debug, PartialEq, Eq)]
pub struct Span {
    pub least: u64,
    pub most: u64,
}

/// The windows by which a line is read.
#[derive(Clone, Copy, Debug, PartialEq, Eq)]
pub struct Windows {
    /// How long a start bit is low.
    pub start_low: Span,
    /// From a start bit's fall to the first slot's.
    pub start_total: Span,
    /// From a slot's fall to the next one's.
    pub bit_total: Span,
}

/// A slot is sampled so long after its fall.
pub const SAMPLE: u64 = 1050;

/// The windows by which the devices read.
pub const STANDARD: Windows = Windows {
    start_low: Span {
        least: 3500,
        most: 3900,
    },
    start_total: Span {
        least: 4300,
        most: 4700,
    },
    bit_total: Span {
        least: 2050,
        most: 2750,
    },
};

/// The most by which windows are made wider, at either side.
pub const MOST_MARGIN: u64 = 300;

impl Windows {
    /// The standard's windows, `margin` wider at either side.
    #[tactic(auto, using(crate::proofs::Standard::wider_are))]
    pub fn wider(margin: u64) -> Windows
        requires few { margin ≤ most_margin }
        ensures wider { result ≡ wider margin }
        ensures are { AreWindows result }
    {
        Windows {
            start_low: STANDARD.start_low.wider(margin),
            start_total: STANDARD.start_total.wider(margin),
            bit_total: STANDARD.bit_total.wider(margin),
        }
    }
}

impl Span {
    fn wider(self, margin: u64) -> Span
        requires few { margin ≤ self.least }
        requires small { self.most + margin < 2 ^ 64 }
        ensures { result ≡ wider_span margin self }
    {
        Span {
            least: self.least - margin,
            most: self.most + margin,
        }
    }
}
