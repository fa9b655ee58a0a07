//! Bad starts in a row.
ghost use Rattle.std.specs.Prelude.{◌≡◌};
ghost use Rattle.audit_remarks.specs.Series.{after_start, no_series, series_over};

use crate::free::is_bad_start;
use line_frames::Ending;

/// How many bad starts there were in a row, and where the first one began.
#[derive(Clone, Copy, Debug, PartialEq, Eq)]
pub struct BadStartSeries {
    pub count: u64,
    pub since: u64,
}

impl BadStartSeries {
    /// Of none.
    pub fn new() -> Self
        ensures { result ≡ no_series }
    {
        BadStartSeries { count: 0, since: 0 }
    }

    /// The series that a reading ends, where it was one of two or more.
    pub fn over(self, ending: Ending) -> Option<BadStartSeries>
        ensures { result ≡ series_over self ending }
    {
        if is_bad_start(ending) || self.count <= 1 {
            return None;
        }
        Some(self)
    }

    /// The series with a reading that ended so.
    pub fn with(self, ending: Ending, begin: u64) -> Self
        ensures { result ≡ after_start self ending begin }
    {
        if !is_bad_start(ending) {
            return BadStartSeries::new();
        }
        let is_first = self.count == 0;
        BadStartSeries {
            count: self.count.saturating_add(1),
            since: if is_first { begin } else { self.since },
        }
    }
}
