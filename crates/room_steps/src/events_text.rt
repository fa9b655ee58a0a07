//! What a run reports of its events, line by line, or as objects, as what hears of it.
ghost use Rattle.std.specs.Prelude.{◌≡◌};
ghost use Rattle.edid_core.specs.Root.{HasAddress};

use edid_core::Edid;
use line_rounds::Outcome;
use record_core::Form;
use room_net::Net;
use room_run::{AppliedEvent, Reporter, TraceText};
use room_trace::{add_event, add_new_ports, add_round};
use text_core::{Counted, Sink};

/// The text of events in a form, as far as it is written.
#[derive(Drop)]
pub(crate) struct EventsText<'a, 'e, S: Sink> {
    pub trace: TraceText<'a, 'e, S>,
    pub form: Form,
}

impl<'a, 'e, S: Sink> EventsText<'a, 'e, S> {
    /// A text in this form, of a run with this EDID, that goes on with that one.
    pub fn new(text: Counted<'a, S>, form: Form, edid: &'e Option<Edid>) -> Self
        requires { HasAddress edid.now }
        ensures text { result.trace.text ≡ text.entry }
        ensures edid { result.trace.passed.edid.now ≡ edid.now }
        ensures form { result.form ≡ form }
    {
        EventsText {
            trace: TraceText::new(text, edid),
            form,
        }
    }

    /// The text again.
    pub fn into_text(self) -> Counted<'a, S>
        ensures { result ≡ self.entry.trace.text }
    {
        let EventsText { trace, form: _form } = self;
        trace.into_text()
    }
}

impl<'a, 'e, S: Sink> Reporter for EventsText<'a, 'e, S> {
    ghost use Rattle.std.specs.Prelude.{◌≡◌, not};
    ghost use Rattle.text_core.specs.Adds.{Adds};
    ghost use Rattle.room_steps.specs.Steps.{reporting_by, told_of};

    ghost hears = { λ r x s. Adds r.trace.text s.trace.text (told_of (reporting_by r.form r.trace.passed.edid.now) x)
        × (reporting_by s.form s.trace.passed.edid.now ≡ reporting_by r.form r.trace.passed.edid.now) };

    ghost goes_on = { λ r. not r.trace.text.failed };

    #[tactic(auto, using(crate::proofs::Told::has_address))]
    fn event<W>(&mut self, applied: &AppliedEvent<'_>, net: &Net<W>) {
        let form = self.form;
        let edid = self.trace.passed.edid;
        add_event(
            &mut self.trace.text,
            form,
            applied.at,
            applied.event.line,
            applied.refused,
        );
        add_new_ports(
            &mut self.trace.text,
            form,
            applied.at,
            edid,
            net.tree(),
            applied.was,
        );
    }

    fn round<W>(&mut self, _begin: u64, outcome: &Outcome, net: &Net<W>) {
        let form = self.form;
        add_round(&mut self.trace.text, form, net.devices(), outcome);
    }

    fn wants_more(&self) -> bool {
        self.trace.wants_more()
    }
}
