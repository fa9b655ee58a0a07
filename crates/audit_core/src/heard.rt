//! A reading, with what the line did while it was heard.
ghost use Rattle.std.specs.Prelude.{◌≡◌};
ghost use Rattle.line_reading.specs.Reports.{listed_as};
ghost use Rattle.audit_core.specs.Audit.{IsHeard, drive_of, falls_until, lows_of, unfinished_of};
ghost use Rattle.audit_remarks.specs.Endings.{ending_of};
ghost use Rattle.audit_widths.specs.Spreads.{no_widths, with_slots};

use arrayvec::ArrayVec;
use audit_judged::Said;
use audit_remarks::{
    BadStartSeries, Previous, delivered_frame, ending_of, last_says, sent_frame, unfinished,
};
use audit_widths::{Cursor, Low, Widths, drive_within, first_low, low_drive, lows_before};
use line_frames::{Ending, Reading};
use line_wave::{Edge, MOST_SENT};

/// A reading and the edges of its capture from its fall on, with its low stretches, the frame that it delivers, and the one
/// that was sent. The low stretches are the caller's, since they take 6 KB.
#[derive(Drop)]
pub(crate) struct Heard<'a> {
    pub(crate) reading: &'a Reading,
    pub(crate) edges: &'a [Edge],
    pub(crate) lows: &'a ArrayVec<Low, MOST_SENT>,
    pub(crate) frame: ArrayVec<u8, 16>,
    pub(crate) sent: ArrayVec<u8, 16>,
}

// The instant before which the slots of a reading fall.
fn falls_until(ending: Ending, at: u64) -> u64
    ensures { result ≡ falls_until ending at }
{
    match ending {
        Ending::Open => at.saturating_add(1),
        Ending::Complete | Ending::Short | Ending::Silent | Ending::BadStart | Ending::Long => at,
    }
}

/// The low stretches of a reading.
pub(crate) fn lows_of(reading: &Reading, edges: &[Edge]) -> ArrayVec<Low, MOST_SENT>
    ensures { result.items ≡ lows_of (listed_as reading.now) edges.now }
{
    lows_before(edges, falls_until(reading.ending, reading.at))
}

impl<'a> Heard<'a> {
    pub(crate) fn new(
        reading: &'a Reading,
        edges: &'a [Edge],
        lows: &'a ArrayVec<Low, MOST_SENT>,
    ) -> Self
        requires { lows.now.items ≡ lows_of (listed_as reading.now) edges.now }
        ensures reading { result.reading.now ≡ reading.now }
        ensures edges { result.edges.now ≡ edges.now }
        ensures heard { IsHeard result }
    {
        Heard {
            reading,
            edges,
            lows,
            frame: delivered_frame(reading),
            sent: sent_frame(reading),
        }
    }

    /// The low drive that follows it.
    pub(crate) fn drive(&self) -> Option<u64>
        ensures { result ≡ drive_of (listed_as self.now.reading.now) self.now.edges.now }
    {
        let mut end = Cursor::new(self.edges);
        end.go_to(self.reading.at);
        match first_low(end.edges()) {
            None => None,
            Some(low) => low_drive(self.reading.ending, low),
        }
    }

    /// The block after which it breaks off, where no low drive and no width breaks it.
    pub(crate) fn unfinished(&self) -> Option<usize>
        ensures { result ≡ unfinished_of (listed_as self.now.reading.now) self.now.lows.now.items }
    {
        let reading = self.reading;
        let lows = self.lows.as_slice();
        if drive_within(lows).is_some() || last_says(reading.ending, &reading.bits, 0, lows) {
            None
        } else {
            unfinished(reading.ending, &reading.bits)
        }
    }

    /// What is said of how it ends, where nothing else says it.
    pub(crate) fn ending(
        &self,
        previous: Previous,
        series: BadStartSeries,
        drive: Option<u64>,
    ) -> Said
        ensures { result ≡ ending_of previous series drive (listed_as self.now.reading.now) self.now.lows.now.items }
    {
        ending_of(previous, series, drive, self.reading, self.lows.as_slice())
    }

    /// Its widths alone.
    pub(crate) fn widths(&self) -> Widths
        ensures { result ≡ with_slots self.now.reading.now.ending self.now.reading.now.bits.items 0 self.now.lows.now.items no_widths }
    {
        let mut widths = Widths::new();
        widths.add(
            self.reading.ending,
            &self.reading.bits,
            0,
            self.lows.as_slice(),
        );
        widths
    }
}
