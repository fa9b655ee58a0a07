//! A capture that is followed line by line.
ghost use Rattle.std.specs.Prelude.{◌≡◌, [], ℕ, List, IfErr, IfOk, OnOk};
ghost use Rattle.line_reading.specs.Windows.{AreWindows};
ghost use Rattle.follow_core.specs.declared.view.ReadingView.{ReadingView};
ghost use Rattle.follow_core.specs.Follow.{HearsEnd, HearsLine, IsFollowed, IsPrompt, IsReady, start_of};

use crate::lines::LineForm;
use crate::passing::PassingLines;
use crate::reception::Reception;
use crate::shown::Shown;
use crate::teller::{PassedReadings, Teller};
use capture_core::Cause;
use capture_csv::csv_lines_go_on;
use capture_monitor::edge_lines_go_on;
use capture_pin::pin_lines_go_on;
use line_frames::Reading;
use text_core::At;

/// What has ended by a line: by the edges that come of its own edge, by those that come as none comes before an instant, and by that.
#[derive(Debug, Drop)]
pub struct EndedReadings {
    pub by_edge: PassedReadings,
    pub by_calm: PassedReadings,
    pub last: Option<Reading>,
}

/// What has ended with the end, the first idle instant or the end, and what was held back.
#[derive(Drop)]
pub struct LastReadings {
    pub ended: EndedReadings,
    pub idle: u64,
    pub shown: Shown,
}

/// Follows a capture line by line, and answers each reading as soon as it is over by what the lines say. It takes no memory.
#[derive(Drop)]
pub struct Follower {
    lines: PassingLines,
    teller: Teller,
    /// What is held back of the readings that have ended.
    pub(crate) shown: Shown,
}

impl Follower {
    /// A follower of a capture in this form, which is read so, and of which no line has come.
    pub fn new(form: LineForm, how: Reception) -> Self
        requires { AreWindows how.windows }
        ensures followed { (signal : List ℕ) (view : ReadingView) → IsFollowed form signal view how [] 1 result [] }
        ensures prompt { IsPrompt result }
        ensures ready { IsReady result }
    {
        // No effect at run time. The proof reads from them how the lines of a form go on.
        edge_lines_go_on();
        pin_lines_go_on();
        csv_lines_go_on();
        Follower {
            lines: PassingLines::new(form, how.inverted, how.glitch),
            teller: Teller::new(how.windows),
            shown: Shown::new(),
        }
    }

    /// The instant from which readings are by themselves, where it is known: with all readings 0, else the first idle one.
    pub fn start(&self, from_idle: bool) -> Option<u64>
        ensures { result ≡ start_of from_idle self.now }
    {
        if from_idle {
            self.teller.idle()
        } else {
            Some(0)
        }
    }

    /// Takes the line of this number, and answers what has ended by it on the wire of this name; an empty one stands for the first.
    ///
    /// # Errors
    ///
    /// The line is at fault.
    pub fn line(
        &mut self,
        signal: &[u8],
        number: u64,
        line: &[u8],
    ) -> Result<EndedReadings, At<Cause>>
        requires ready { IsReady self.old }
        ensures hears { HearsLine signal.now number line.now self.old result self.new }
        ensures shown { self.new.shown ≡ self.old.shown }
        ensures place { IfErr result (λ fault. fault.line ≡ number) }
        ensures prompt { OnOk result (IsPrompt self.new) }
        ensures ready { OnOk result (IsReady self.new) }
    {
        let passed = self.lines.take(signal, number, line)?;
        let by_edge = self.teller.pass(passed.by_edge);
        let by_calm = self.teller.pass(passed.by_calm);
        let lines = self.lines;
        let last = self.teller.calm(lines.known());
        Ok(EndedReadings {
            by_edge,
            by_calm,
            last,
        })
    }

    /// No line is left: answers what is left of the readings, the one that is open at the end too. This number is that of the line
    /// after the last.
    ///
    /// # Errors
    ///
    /// The end is missing.
    pub fn end(self, number: u64) -> Result<LastReadings, At<Cause>>
        requires ready { IsReady self }
        ensures hears { HearsEnd number self result }
        ensures shown { IfOk result (λ last. last.shown ≡ self.shown) }
        ensures place { IfErr result (λ fault. fault.line ≡ number) }
    {
        let mut teller = self.teller;
        match self.lines.end(number) {
            Err(fault) => Err(fault),
            Ok(last) => {
                let by_edge = teller.pass(last.edges.by_edge);
                let by_calm = teller.pass(last.edges.by_calm);
                let idle = teller.idle_by_end(last.end);
                let running = teller.end(last.end);
                let ended = EndedReadings {
                    by_edge,
                    by_calm,
                    last: running,
                };
                Ok(LastReadings {
                    ended,
                    idle,
                    shown: self.shown,
                })
            }
        }
    }
}
