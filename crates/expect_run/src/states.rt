//! The states that the lines of a script speak of: how they are judged, and what stands below their tests.
ghost use Rattle.std.specs.Prelude.{◌≡◌, ◌≤◌, ◌∷◌, ◌++◌, [], codes, option_map, IfOk, OnOk};
ghost use Rattle.std.specs.List.{list_any};
ghost use Rattle.std.specs.Option.{option_copied};
ghost use Rattle.line_wave.specs.Bounds.{latest_event};
ghost use Rattle.record_core.specs.Records.{record_text};
ghost use Rattle.record_core.specs.declared.cell.Form.TheVariants.{Text};
ghost use Rattle.room_trace.specs.Records.{state_text};
ghost use Rattle.text_core.specs.Cut.{WrittenText};
ghost use Rattle.text_core.specs.Lines.{lines_of};
ghost use Rattle.expect_text.specs.Line.{plain_script};
ghost use Rattle.expect_judge.specs.Judged.{is_of_state, states_for};
ghost use Rattle.expect_remarks.specs.Kept.{audit_remarks};
ghost use Rattle.expect_remarks.specs.Met.{remarks_met, shown_remarks};
ghost use Rattle.expect_told.specs.Shown.{marked};
ghost use Rattle.expect_run.specs.States.{AreStates, IsEndAt, IsRemarkedOf, IsStateAt, IsStateRead, IsTraced, device_of, read_as, said_in, shown_in, state_said, state_shown};
ghost use Rattle.expect_run.specs.States.StateView.{Below, Said};

use crate::run::run_told;
use audit_notes::AuditNote;
use capture_core::Capture;
use capture_forms::{CaptureForm, read_capture};
use device_core::Device;
use expect_judge::is_of_state;
use expect_remarks::{append_record, append_remarks, audit_remarks, remarks_met};
use expect_text::{ExpectLine, cut_script, form_in, plain_script, unlabelled};
use expect_told::marked;
use line_rounds::Outcome;
use line_wire::EdgeWire;
use record_core::Form;
use room_net::Net;
use room_run::edges::emulate_edges;
use room_run::emulate::EmulateError;
use room_run::{AppliedEvent, Reporter, ScriptText};
use room_script::one_script;
use room_trace::{add_state, write_state};
use std::alloc::{AllocError, Global};
use text_core::{Counted, Held, Sink, WriteFault, first_line};

/// A state: by what it is judged, and what stands below its test where that fails.
#[derive(Drop)]
pub(crate) struct StateRead {
    said: Vec<u8>,
    shown: Vec<u8>,
}

/// The states of the lines of a script that speak of one, in order.
#[derive(Drop)]
pub(crate) struct StateTexts {
    pub said: Vec<Vec<u8>>,
    pub shown: Vec<Vec<u8>>,
}

/// What hears nothing of a run.
#[derive(Clone, Copy)]
struct Unheard;

impl Reporter for Unheard {
    ghost use Rattle.std.specs.Prelude.{true};

    ghost hears = { λ r x s. Unit {0} };

    ghost goes_on = { λ r. true };

    fn event<W>(&mut self, _applied: &AppliedEvent<'_>, _net: &Net<W>) {}

    fn round<W>(&mut self, _begin: u64, _outcome: &Outcome, _net: &Net<W>) {}

    fn wants_more(&self) -> bool {
        true
    }
}

// The first device of a name.
fn device_of<'a>(name: &[u8], devices: &'a [Device<16>]) -> Option<&'a Device<16>>
    ensures { option_map (λ device. device.now) result ≡ device_of name.now devices.now }
{
    let mut rest = devices;
    'devices: while let [device, others @ ..] = rest {
        if device.name() == name {
            return Some(device);
        }
        rest = others;
    }
    None
}

// What the line of a device's state says, without its end.
fn state_said(alloc: Global, device: Option<&Device<16>>) -> Result<Vec<u8>, AllocError>
    ensures { IfOk result (λ state. state.items ≡ state_said (option_map (λ device. device.now) device.entry)) }
{
    let mut state = Vec::new(alloc);
    let Some(device) = device else {
        return Ok(state);
    };
    let mut held = Held::new(alloc);
    match write_state(&mut held, device) {
        Ok(_) => {}
        Err(_) => return Err(AllocError),
    }
    let line = held.bytes();
    let (said, _end) = line.split_at(line.len().saturating_sub(1));
    state.extend_from_slice(said)?;
    Ok(state)
}

// Writes the line of a device's state, or its object.
fn write_shown<S: Sink>(out: &mut S, form: Form, device: &Device<16>) -> Result<u128, WriteFault>
    ensures { WrittenText (S.contents out.old) (S.contents out.new) (S.is_stuck out.old) (S.is_stuck out.new) (state_text form device.now) result }
{
    let mut text = Counted::new(out);
    add_state(&mut text, form, device);
    let written = text.written();
    // No effect at run time. The proof reads what `out` holds from the sink that comes back.
    let _below = text.into_sink();
    written
}

fn device_shown(alloc: Global, form: Form, device: &Device<16>) -> Result<Vec<u8>, AllocError>
    ensures { IfOk result (λ text. text.items ≡ marked form (state_text form device.now)) }
{
    let mut held = Held::new(alloc);
    match write_shown(&mut held, form, device) {
        Ok(_) => {}
        Err(_) => return Err(AllocError),
    }
    let shown = marked(alloc, form, held.bytes())?;
    Ok(shown)
}

fn nothing_shown(alloc: Global, form: Form) -> Result<Vec<u8>, AllocError>
    ensures { IfOk result (λ text. text.items ≡ marked form (record_text form (codes "other") [])) }
{
    let mut held = Held::new(alloc);
    append_record(&mut held, form, "other", &[])?;
    let shown = marked(alloc, form, held.bytes())?;
    Ok(shown)
}

// What stands of a device's state below a test that failed.
fn state_shown(
    alloc: Global,
    form: Form,
    device: Option<&Device<16>>,
) -> Result<Vec<u8>, AllocError>
    ensures { IfOk result (λ text. text.items ≡ state_shown form (option_map (λ device. device.now) device.entry)) }
{
    match device {
        None => nothing_shown(alloc, form),
        Some(device) => device_shown(alloc, form, device),
    }
}

// The network at the end of a run of the plain script up to a time.
fn end_at(
    alloc: Global,
    topology: &[u8],
    plain: &[u8],
    time: u64,
) -> Result<Box<Net<EdgeWire>>, AllocError>
    requires traced { IsTraced topology.now plain.now }
    requires early { time ≤ latest_event }
    ensures { IfOk result (λ net. IsEndAt topology.now plain.now time net.value) }
{
    // No effect at run time. The proof reads from it that the earlier script is read in one way.
    one_script();
    let cut = cut_script(alloc, time, plain)?;
    let mut unheard = Unheard;
    match run_told(alloc, topology, &ScriptText { text: &cut }, &mut unheard) {
        Ok(net) => Ok(net),
        Err(error) => match error {
            EmulateError::Topology { .. } => unreachable!(),
            EmulateError::Script { .. } => unreachable!(),
            EmulateError::Edid(_) => unreachable!(),
            EmulateError::Write(_) => Err(AllocError),
            EmulateError::Memory => Err(AllocError),
        },
    }
}

// What a device's state is at the end of a run of the plain script up to a time.
fn state_at(
    alloc: Global,
    form: Form,
    topology: &[u8],
    plain: &[u8],
    time: u64,
    device: &[u8],
) -> Result<StateRead, AllocError>
    requires traced { IsTraced topology.now plain.now }
    requires early { time ≤ latest_event }
    ensures said { IfOk result (λ state. IsStateAt Said topology.now plain.now time device.now state.said.items) }
    ensures shown { IfOk result (λ state. IsStateAt (Below form) topology.now plain.now time device.now state.shown.items) }
{
    let net = end_at(alloc, topology, plain, time)?;
    let device = device_of(device, net.devices());
    let said = state_said(alloc, device)?;
    let shown = state_shown(alloc, form, device)?;
    Ok(StateRead { said, shown })
}

// The first eight of remarks, in a form.
fn remarks_text(alloc: Global, form: Form, remarks: &[AuditNote]) -> Result<Vec<u8>, AllocError>
    ensures { IfOk result (λ text. text.items ≡ shown_remarks form remarks.now) }
{
    let mut held = Held::new(alloc);
    append_remarks(alloc, &mut held, form, remarks)?;
    let mut text = Vec::new(alloc);
    text.extend_from_slice(held.bytes())?;
    Ok(text)
}

// What is told of the remarks of a capture's audit that meet a pattern.
fn told_of(
    alloc: Global,
    form: Form,
    pattern: Option<&[u8]>,
    capture: &Capture,
) -> Result<StateRead, AllocError>
    ensures said { IfOk result (λ told. told.said.items ≡ shown_remarks Text (remarks_met (option_copied pattern.entry) (audit_remarks capture.now))) }
    ensures shown { IfOk result (λ told. told.shown.items ≡ shown_remarks form (remarks_met (option_copied pattern.entry) (audit_remarks capture.now))) }
{
    let remarks = audit_remarks(alloc, capture)?;
    let met = remarks_met(alloc, &remarks, pattern)?;
    let said = remarks_text(alloc, Form::Text, &met)?;
    let shown = remarks_text(alloc, form, &met)?;
    Ok(StateRead { said, shown })
}

// What is told of the audit of the line of a run of the plain script.
#[tactic(auto, using(crate::proofs::Remarked::remarked))]
fn run_audited(
    alloc: Global,
    form: Form,
    topology: &[u8],
    plain: &[u8],
    pattern: Option<&[u8]>,
) -> Result<StateRead, AllocError>
    ensures said { IfOk result (λ told. IsRemarkedOf Said topology.now plain.now (option_copied pattern.entry) told.said.items) }
    ensures shown { IfOk result (λ told. IsRemarkedOf (Below form) topology.now plain.now (option_copied pattern.entry) told.shown.items) }
{
    let mut edges = Held::new(alloc);
    match emulate_edges(alloc, topology, plain, &mut edges) {
        Ok(_) => {}
        Err(_) => return Err(AllocError),
    }
    let Ok(capture) = read_capture(alloc, CaptureForm::Edges, &[], edges.bytes()) else {
        return Err(AllocError);
    };
    told_of(alloc, form, pattern, &capture)
}

// The state that a line of the script speaks of, or what is told of the audit, where it speaks of one.
fn state_for(
    alloc: Global,
    form: Form,
    topology: &[u8],
    plain: &[u8],
    line: &[u8],
) -> Result<Option<StateRead>, AllocError>
    requires traced { IsTraced topology.now plain.now }
    ensures { IfOk result (λ state. IsStateRead form topology.now plain.now line.now (option_map read_as state)) }
{
    match form_in(unlabelled(line).rest) {
        Err(_) => Ok(None),
        Ok(expected) => match expected {
            ExpectLine::State { time, device, .. } => {
                Ok(Some(state_at(alloc, form, topology, plain, time, device)?))
            }
            ExpectLine::Unremarked { pattern } => {
                Ok(Some(run_audited(alloc, form, topology, plain, pattern)?))
            }
            ExpectLine::Other => Ok(None),
            ExpectLine::Rounds { .. } => Ok(None),
            ExpectLine::Refused { .. } => Ok(None),
        },
    }
}

// Whether a line of a script speaks of a state.
fn has_state(script: &[u8]) -> bool
    ensures { result ≡ list_any is_of_state (lines_of script.now) }
{
    let mut rest = script;
    'lines: while let Some((line, after)) = first_line(rest) {
        if is_of_state(line) {
            return true;
        }
        rest = after;
    }
    false
}

fn no_states(alloc: Global) -> StateTexts
    ensures said { said_in result ≡ [] }
    ensures shown { shown_in result ≡ [] }
{
    StateTexts {
        said: Vec::new(alloc),
        shown: Vec::new(alloc),
    }
}

// Adds a state.
fn push_state(texts: &mut StateTexts, state: StateRead) -> Result<(), AllocError>
    ensures said { OnOk result (said_in texts.new ≡ said_in texts.old ++ state.said.items ∷ []) }
    ensures shown { OnOk result (shown_in texts.new ≡ shown_in texts.old ++ state.shown.items ∷ []) }
{
    let StateRead { said, shown } = state;
    texts.said.push(said)?;
    texts.shown.push(shown)?;
    Ok(())
}

// The states of the lines of a script that speak of one, in order, by a run for each.
#[tactic(auto, using(crate::proofs::Stated::none_more, crate::proofs::Stated::one_more, crate::proofs::Stated::no_more))]
fn states_of(
    alloc: Global,
    form: Form,
    topology: &[u8],
    plain: &[u8],
    script: &[u8],
) -> Result<StateTexts, AllocError>
    requires traced { IsTraced topology.now plain.now }
    ensures said { IfOk result (λ states. AreStates Said topology.now plain.now (lines_of script.now) (states_for (lines_of script.now) (said_in states))) }
    ensures shown { IfOk result (λ states. AreStates (Below form) topology.now plain.now (lines_of script.now) (states_for (lines_of script.now) (shown_in states))) }
{
    let mut states = no_states(alloc);
    let mut rest = script;
    'lines: while let Some((line, after)) = first_line(rest) {
        match state_for(alloc, form, topology, plain, line)? {
            None => {}
            Some(state) => push_state(&mut states, state)?,
        }
        rest = after;
    }
    Ok(states)
}

/// The states of the lines of a script that speak of one, in order, by a run of its plain script for each. Only where one does is the
/// plain script made.
///
/// # Errors
///
/// Want of memory.
#[tactic(auto, using(crate::proofs::Stated::stateless))]
pub(crate) fn all_states(
    alloc: Global,
    form: Form,
    topology: &[u8],
    script: &[u8],
) -> Result<StateTexts, AllocError>
    requires traced { IsTraced topology.now (plain_script script.now) }
    ensures said { IfOk result (λ states. AreStates Said topology.now (plain_script script.now) (lines_of script.now) (states_for (lines_of script.now) (said_in states))) }
    ensures shown { IfOk result (λ states. AreStates (Below form) topology.now (plain_script script.now) (lines_of script.now) (states_for (lines_of script.now) (shown_in states))) }
{
    if !has_state(script) {
        return Ok(no_states(alloc));
    }
    let plain = plain_script(alloc, script)?;
    states_of(alloc, form, topology, &plain, script)
}
