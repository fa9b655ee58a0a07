//! The lines of answer, or their objects.
ghost use Rattle.std.specs.Prelude.{◌≡◌, ◌++◌, codes, drop, IfSome};
ghost use Rattle.room_script.specs.Script.{script_cause};
ghost use Rattle.message_text.specs.Causes.{assemble_cause};
ghost use Rattle.record_core.specs.declared.cell.Form.TheVariants.{Json};
ghost use Rattle.room_trace.specs.Records.{state_text};
ghost use Rattle.room_trace.specs.StateText.{state_line};
ghost use Rattle.text_core.specs.Adds.{Adds};
ghost use Rattle.text_core.specs.Cut.{WrittenText};
ghost use Rattle.text_core.specs.Held.{held_bytes};
ghost use Rattle.live_session.specs.Session.{idle_text, refusal_cause, refused_text, shown_text, taken_text};
ghost use Rattle.live_session.specs.Shown.{IsStateMade};

use crate::note::after;
use device_core::Device;
use record_core::{Form, Value, add_record, cells};
use room_script::{AssembleError, ScriptCause};
use room_trace::add_state;
use std::alloc::Global;
use text_core::{Counted, Held, Piece, Sink, WriteFault};

/// Why a line is refused: the first that applies.
#[derive(Clone, Copy, Debug, Drop, PartialEq, Eq)]
pub enum RefusalCause {
    /// As a line of a script is.
    Script(ScriptCause),
    /// It is for an instant before the horizon.
    Past,
}

/// Why a line is refused, and the word at fault, counted from 0; where a word is missing, the number that it would have.
#[derive(Clone, Copy, Debug, Drop, PartialEq, Eq)]
pub struct Refusal {
    pub cause: RefusalCause,
    pub word: usize,
}

// The words of a frame's cause.
fn frame_cause(cause: AssembleError) -> &'static str
    ensures { result.now ≡ codes "frame " ++ assemble_cause cause }
{
    match cause {
        AssembleError::Name => "frame name",
        AssembleError::Operand => "frame operand",
        AssembleError::Count => "frame count",
        AssembleError::Address => "frame address",
        AssembleError::TooLong => "frame too-long",
    }
}

fn script_cause(cause: ScriptCause) -> &'static str
    ensures { result.now ≡ script_cause cause }
{
    match cause {
        ScriptCause::Word => "word",
        ScriptCause::Number => "number",
        ScriptCause::Name => "name",
        ScriptCause::Frame(cause) => frame_cause(cause),
        ScriptCause::Hex => "hex",
        ScriptCause::Width => "width",
        ScriptCause::Order => "order",
        ScriptCause::Close => "close",
        ScriptCause::TooMany => "too-many",
        ScriptCause::End => "end",
    }
}

fn refusal_cause(cause: RefusalCause) -> &'static str
    ensures { result.now ≡ refusal_cause cause }
{
    match cause {
        RefusalCause::Script(cause) => script_cause(cause),
        RefusalCause::Past => "past",
    }
}

/// Adds that a line was taken, and the horizon.
pub(crate) fn add_taken<S: Sink>(out: &mut Counted<'_, S>, form: Form, horizon: u64)
    ensures { Adds out.old out.new (taken_text form horizon) }
{
    let cells = cells![
        both("= ", "at", Value::One(Piece::Decimal(horizon))),
        hidden("idle", Value::One(Piece::Switch(false))),
    ];
    add_record(out, form, "horizon", &cells);
}

/// Adds that nothing comes any more, unless a line does.
pub(crate) fn add_idle<S: Sink>(out: &mut Counted<'_, S>, form: Form, horizon: u64)
    ensures { Adds out.old out.new (idle_text form horizon) }
{
    let cells = cells![
        both("= ", "at", Value::One(Piece::Decimal(horizon))),
        line(" idle", Value::Nothing),
        hidden("idle", Value::One(Piece::Switch(true))),
    ];
    add_record(out, form, "horizon", &cells);
}

/// Adds that a line was refused, its number and its cause.
pub(crate) fn add_refused<S: Sink>(
    out: &mut Counted<'_, S>,
    form: Form,
    line: u64,
    refusal: Refusal,
)
    ensures { Adds out.old out.new (refused_text form line refusal) }
{
    let cause = refusal_cause(refusal.cause);
    let cells = cells![
        both("! ", "script_line", Value::One(Piece::Decimal(line))),
        both(" ", "cause", Value::One(Piece::Text(cause))),
    ];
    add_record(out, form, "refusal", &cells);
}

// Writes the object of a device's state, as a trace has it.
fn write_state_object<S: Sink>(out: &mut S, device: &Device<16>) -> Result<u128, WriteFault>
    ensures { WrittenText (S.contents out.old) (S.contents out.new) (S.is_stuck out.old) (S.is_stuck out.new) (state_text Json device.now) result }
{
    let mut text = Counted::new(out);
    add_state(&mut text, Form::Json, device);
    let written = text.written();
    // No effect at run time. The proof reads what `out` holds from the sink that comes back.
    let _below = text.into_sink();
    written
}

// The object of a device's state, as a trace has it. None where memory ran out.
fn state_object(alloc: Global, device: &Device<16>) -> Option<Held>
    ensures { IfSome result (λ held. held_bytes held ≡ state_text Json device.now) }
{
    let mut held = Held::new(alloc);
    match write_state_object(&mut held, device) {
        Ok(_) => Some(held),
        Err(_) => None,
    }
}

/// What [`add_shown`] needs of a device's state: for an object that of the trace, for a line nothing. None where memory ran out.
pub(crate) fn state_made(alloc: Global, form: Form, device: &Device<16>) -> Option<Held>
    ensures { IfSome result (λ held. IsStateMade form device.now (held_bytes held)) }
{
    match form {
        Form::Text => Some(Held::new(alloc)),
        Form::Json => state_object(alloc, device),
    }
}

// Adds what stands before a state.
fn add_mark<S: Sink>(out: &mut Counted<'_, S>)
    ensures { Adds out.old out.new (codes "= ") }
{
    out.add_line(&[Piece::Text("= ")]);
}

// Adds the line of a state after the mark of an answer.
#[tactic(auto, using(text_core::proofs::Adding::then))]
fn add_marked_line<S: Sink>(out: &mut Counted<'_, S>, device: &Device<16>)
    ensures { Adds out.old out.new (codes "= " ++ state_line device.now) }
{
    add_mark(out);
    add_state(out, Form::Text, device);
}

/// How many bytes stand before the line in its object: `{"line":"`.
const HEAD: usize = 9;

// Adds the object of a state with the mark of an answer before its line.
fn add_marked_object<S: Sink>(out: &mut Counted<'_, S>, state: &[u8])
    ensures { Adds out.old out.new (codes "{\"line\":\"= " ++ drop 9 state.now) }
{
    out.add(b"{\"line\":\"= ");
    out.add(after(state, HEAD));
}

/// Adds the state of a device, from what [`state_made`] made of it.
pub(crate) fn add_shown<S: Sink>(
    out: &mut Counted<'_, S>,
    form: Form,
    device: &Device<16>,
    state: &[u8],
)
    requires { IsStateMade form device.now state.now }
    ensures { Adds out.old out.new (shown_text form device.now) }
{
    match form {
        Form::Text => add_marked_line(out, device),
        Form::Json => add_marked_object(out, state),
    }
}
