//! The text of a session, as what hears of its turns.
ghost use Rattle.std.specs.Prelude.{◌≡◌, false, slice_index_or};
ghost use Rattle.edid_core.specs.Root.{HasAddress};
ghost use Rattle.text_core.specs.Adds.{Adds};
ghost use Rattle.live_session.specs.Turns.{moved_if, sent_if};

use crate::edges::{InstantRange, add_edges};
use device_core::Device;
use edid_core::Edid;
use line_rounds::Outcome;
use record_core::Form;
use room_net::Net;
use room_run::{AppliedEvent, Passed, Reporter};
use room_trace::{add_event, add_moved_notes, add_new_ports, add_round, add_sent_notes};
use text_core::{Counted, Sink};

/// The text of a session, as far as it is written, in lines or in objects: what the trace has of each turn, before each round its
/// edges that lie in a span, and after each turn its notes, where they are asked for.
#[derive(Drop)]
pub(crate) struct SessionText<'a, 'e, S: Sink> {
    pub text: Counted<'a, S>,
    pub seats: bool,
    pub form: Form,
    pub passed: Passed<'e>,
    pub span: InstantRange,
}

impl<'a, 'e, S: Sink> SessionText<'a, 'e, S> {
    /// A session with this EDID that goes on with this text.
    #[tactic(auto, using(crate::proofs::Addressed::each_address))]
    pub fn new(
        text: Counted<'a, S>,
        seats: bool,
        form: Form,
        edid: &'e Option<Edid>,
        span: InstantRange,
    ) -> Self
        requires { HasAddress edid.now }
        ensures text { result.text ≡ text.entry }
        ensures seats { result.seats ≡ seats }
        ensures form { result.form ≡ form }
        ensures edid { result.passed.edid.now ≡ edid.now }
        ensures span { result.span ≡ span }
    {
        SessionText {
            text,
            seats,
            form,
            passed: Passed { edid },
            span,
        }
    }

    /// The text again.
    pub fn into_text(self) -> Counted<'a, S>
        ensures { result ≡ self.entry.text }
    {
        let SessionText {
            text,
            seats: _seats,
            form: _form,
            passed: _passed,
            span: _span,
        } = self;
        text
    }
}

// Adds where devices from outside came or left by an event, where notes are asked for.
#[tactic(auto, using(text_core::proofs::Adding::nothing))]
fn add_moved<S: Sink>(
    out: &mut Counted<'_, S>,
    seats: bool,
    form: Form,
    was: &[bool],
    devices: &[Device<16>],
)
    ensures { Adds out.old out.new (moved_if seats form (λ device. slice_index_or was.now device false) devices.now) }
{
    if seats {
        add_moved_notes(out, form, was, 0, devices);
    }
}

// Adds what became of frames that were handed in, in a round, where notes are asked for.
#[tactic(auto, using(text_core::proofs::Adding::nothing))]
fn add_sent<S: Sink>(
    out: &mut Counted<'_, S>,
    seats: bool,
    form: Form,
    outcome: &Outcome,
    devices: &[Device<16>],
)
    ensures { Adds out.old out.new (sent_if seats form outcome.now devices.now) }
{
    if seats {
        add_sent_notes(out, form, outcome, 0, devices);
    }
}

impl<'a, 'e, S: Sink> Reporter for SessionText<'a, 'e, S> {
    ghost use Rattle.std.specs.Prelude.{◌≡◌, not};
    ghost use Rattle.text_core.specs.Adds.{Adds};
    ghost use Rattle.live_session.specs.Turns.{keys, text_with};

    ghost hears = { λ r x s. Adds r.text s.text (text_with r.seats r.form r.passed.edid.now r.span x) × (keys s.seats s.form s.passed.edid.now s.span ≡ keys r.seats r.form r.passed.edid.now r.span) };

    ghost goes_on = { λ r. not r.text.failed };

    #[tactic(auto, using(crate::proofs::Addressed::has_address))]
    fn event<W>(&mut self, applied: &AppliedEvent<'_>, net: &Net<W>) {
        add_event(
            &mut self.text,
            self.form,
            applied.at,
            applied.event.line,
            applied.refused,
        );
        add_new_ports(
            &mut self.text,
            self.form,
            applied.at,
            self.passed.edid,
            net.tree(),
            applied.was,
        );
        net.has_each_device();
        let was = applied.was;
        add_moved(&mut self.text, self.seats, self.form, was, net.devices());
    }

    fn round<W>(&mut self, _begin: u64, outcome: &Outcome, net: &Net<W>) {
        add_edges(
            &mut self.text,
            self.form,
            self.span,
            outcome.wave.as_slice(),
        );
        add_round(&mut self.text, self.form, net.devices(), outcome);
        add_sent(
            &mut self.text,
            self.seats,
            self.form,
            outcome,
            net.devices(),
        );
    }

    fn wants_more(&self) -> bool {
        !self.text.has_failed()
    }
}
