//! The parts of a file of the line.
ghost use Rattle.text_core.specs.Adds.{Adds};
ghost use Rattle.capture_forms.specs.Format.{line_end, line_round, line_start};

use crate::form::CaptureForm;
use line_wave::Stretch;
use text_core::{Counted, Sink};

/// Adds what stands before the first round.
#[tactic(auto, using(text_core::proofs::Adding::nothing))]
pub fn add_start<S: Sink>(out: &mut Counted<'_, S>, format: CaptureForm)
    ensures { Adds out.old out.new (line_start format) }
{
    match format {
        CaptureForm::Edges => {}
        CaptureForm::Vcd => capture_vcd::add_head(out),
        CaptureForm::Pin => capture_pin::add_head(out),
        CaptureForm::Csv => capture_csv::add_head(out),
    }
}

/// Adds the line of a round, given by its low stretches.
pub fn add_round<S: Sink>(out: &mut Counted<'_, S>, format: CaptureForm, stretches: &[Stretch])
    ensures { Adds out.old out.new (line_round format stretches.now) }
{
    match format {
        CaptureForm::Edges => capture_monitor::add_edges(out, stretches),
        CaptureForm::Vcd => capture_vcd::add_changes(out, stretches),
        CaptureForm::Pin => capture_pin::add_round(out, stretches),
        CaptureForm::Csv => capture_csv::add_changes(out, stretches),
    }
}

/// Adds what stands after the last round: the instant with which the line ends, in microseconds.
pub fn add_end<S: Sink>(out: &mut Counted<'_, S>, format: CaptureForm, end: u64)
    ensures { Adds out.old out.new (line_end format end) }
{
    match format {
        CaptureForm::Edges => capture_monitor::add_last(out, end),
        CaptureForm::Vcd => capture_vcd::add_last(out, end),
        CaptureForm::Pin => capture_pin::add_rise(out, end),
        CaptureForm::Csv => capture_csv::add_last(out, end),
    }
}
