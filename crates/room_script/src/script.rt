//! The texts of scripts.
ghost use Rattle.std.specs.Prelude.{◌≡◌, ◌+◌, ◌<◌, ◌≤◌, true, length, Result, Ok, Err, Some, None, IfOk, OnErr};
ghost use Rattle.line_wave.specs.Bounds.{latest_event};
ghost use Rattle.line_wave.specs.Pulls.{are_timely};
ghost use Rattle.text_core.specs.Words.{words_of};
ghost use Rattle.text_forms.specs.Forms.{late_time_at, port_at, said, text_at, time_at, values_of};
ghost use Rattle.edid_tree.specs.Tree.{device_named};
ghost use Rattle.device_core.specs.declared.outside.Act.TheVariants.{Empty};
ghost use Rattle.room_script.specs.Holding.{hold_of};
ghost use Rattle.room_script.specs.Keys.{key_said};
ghost use Rattle.room_script.specs.Script.{no_notes, notes_of, course_of, time_of, last_time, last_end, notes_with_event, plug_checked, unplug_checked, key_read, key_time, act_read, pulse_fault, pulse_refusal, notes_with_pulse, pulse_of, touches, notes_with_pull, end_checked, fault_as, line_said, course_at_end, error_at, IsSaid, IsSaidRead, IsLineRead, GivesNotes, Gives, GivesCourse, GivesScript, IsScript};

use crate::course::Script;
use crate::holding::hold_in;
use crate::keys::{key_said, key_time};
use crate::pin::{end_pull, take_level};
use crate::sending::take_send;
use crate::topology::Topology;
use device_core::Act;
use device_features::KeyWord;
use edid_tree::Tree;
use line_wave::{
    LATEST_EVENT, MOST_PULLS, MOST_PULSES, PulsesError, Stretch, WIDEST_PULL, stretch_fault,
};
use message_text::AssembleError;
use room_event::Event;
use room_lines::{SCRIPT, ScriptVerb};
use std::alloc::{AllocError, AllocFailed, Global};
use std::fmt::{self, Write};
use text_core::{At, AtWord, at_word, first_line, is_skipped, number_in};
use text_forms::{FormLine, LineCause, read_line};
use thiserror::Error;

/// Widths of pulses above this many microseconds count as this many.
const WIDEST_COUNTED: u64 = 65_535;

/// Why a line of a script is refused: the first of these that applies.
#[derive(Clone, Copy, Debug, Drop, PartialEq, Eq)]
pub enum ScriptCause {
    /// No such line, no such key, or no such addresses.
    Word,
    /// An ill-formed number, a time past 1,000,000,000,000, or another number of attempts than 1 to 6.
    Number,
    /// No device of the topology, also in the header of a frame.
    Name,
    /// No text of a frame, and why.
    Frame(AssembleError),
    /// No bytes of a frame in hex.
    Hex,
    /// A pulse that is not 1 to 10,000 microseconds wide, or a pull that is not 1 to 10,000,000.
    Width,
    /// A time before that of the event above, a pulse that begins before the end of the pulse or pull above, a pull that
    /// does not begin after it, a pulse or pull while the pin is low, or a time of the pin before what it did last.
    Order,
    /// A pulse less than 25,000 microseconds after the end of the pulse or pull above.
    Close,
    /// A pulse after 4,096 pulses and pulls that wait, or a pull, of the pin too, after 16,384.
    TooMany,
    /// No `end`, a line after it, or one that is not after every event.
    End,
}

impl fmt::Display for ScriptCause {
    ghost use Rattle.std.specs.Prelude.{Some};
    ghost use Rattle.room_script.specs.Script.{script_cause};

    ghost output = { λ cause. Some (script_cause cause) };

    fn fmt<W: Write>(&self, f: &mut fmt::Formatter<W>) -> fmt::Result {
        match self {
            ScriptCause::Word => f.write_str("word"),
            ScriptCause::Number => f.write_str("number"),
            ScriptCause::Name => f.write_str("name"),
            ScriptCause::Frame(cause) => write!(f, "frame {cause}"),
            ScriptCause::Hex => f.write_str("hex"),
            ScriptCause::Width => f.write_str("width"),
            ScriptCause::Order => f.write_str("order"),
            ScriptCause::Close => f.write_str("close"),
            ScriptCause::TooMany => f.write_str("too-many"),
            ScriptCause::End => f.write_str("end"),
        }
    }
}

/// Why a script's text is refused.
#[derive(Debug, Drop, Error)]
pub enum ScriptError {
    /// The first line at fault.
    #[error(transparent)]
    At(At<ScriptCause>),
    #[error("no memory")]
    Memory,
}

/// Why a line is not taken.
#[derive(Debug, Drop)]
pub enum ScriptLineError {
    Fault(AtWord<ScriptCause>),
    Memory,
}

impl<T: Drop> From<AllocFailed<T>> for ScriptLineError {
    ghost use Rattle.std.specs.Prelude.{◌≡◌};
    ghost use Rattle.room_script.specs.declared.script.ScriptLineError.TheVariants.{Memory};

    ghost from_gives = { λ _ error. error ≡ Memory };

    fn from(_error: AllocFailed<T>) -> ScriptLineError {
        ScriptLineError::Memory
    }
}

impl From<AllocError> for ScriptLineError {
    ghost use Rattle.std.specs.Prelude.{◌≡◌};
    ghost use Rattle.room_script.specs.declared.script.ScriptLineError.TheVariants.{Memory};

    ghost from_gives = { λ _ error. error ≡ Memory };

    fn from(_error: AllocError) -> ScriptLineError {
        ScriptLineError::Memory
    }
}

/// An event, the line of the script that it stands on, and its time in microseconds.
#[derive(Drop)]
pub struct TimedEvent {
    pub line: u64,
    pub at: u64,
    pub event: Event,
}

/// What the lines so far say. Pulses and pulls are one list, and the pin's pulls are in it once it goes high. Where the pin is
/// low, `pin` is the instant from which on it is.
#[derive(Drop)]
pub struct ScriptDraft {
    pub events: Vec<TimedEvent>,
    pub pulses: Vec<Stretch>,
    pub end: Option<u64>,
    pub pin: Option<u64>,
    pub(crate) alloc: Global,
}

impl ScriptDraft {
    /// No line yet.
    pub fn new(alloc: Global) -> Self
        ensures { notes_of result ≡ no_notes }
    {
        ScriptDraft {
            events: Vec::new(alloc),
            pulses: Vec::new(alloc),
            end: None,
            pin: None,
            alloc,
        }
    }

    /// The script that these lines say, which end before the line of this number.
    ///
    /// # Errors
    ///
    /// `End` on that line where no `end` stands above it.
    pub fn finish(self, line: u64) -> Result<Script, ScriptError>
        requires { are_timely self.pulses.items ≡ true }
        ensures { GivesCourse result (course_at_end (notes_of self) line self.end) }
    {
        let Some(end) = self.end else {
            return Err(ScriptError::At(At {
                line,
                cause: ScriptCause::End,
                word: 0,
            }));
        };
        Ok(Script {
            events: self.events,
            pulses: self.pulses,
            end,
        })
    }
}

/// The time that a word of a line is, in microseconds.
pub fn time_in(word: &[u8]) -> Option<u64>
    ensures { result ≡ time_of word.now }
{
    let time = number_in(word)?;
    if time > LATEST_EVENT {
        None
    } else {
        Some(time)
    }
}

fn last_time(events: &[TimedEvent]) -> u64
    ensures { result ≡ last_time events.now }
{
    match events.last() {
        None => 0,
        Some(event) => event.at,
    }
}

/// Where the last pulse or pull ends.
pub(crate) fn last_end(pulses: &[Stretch]) -> Option<u64>
    ensures { result ≡ last_end pulses.now }
{
    match pulses.last() {
        None => None,
        Some(pulse) => Some(pulse.to),
    }
}

pub(crate) fn schedule(
    draft: &mut ScriptDraft,
    line: u64,
    time: u64,
    event: Event,
) -> Result<(), ScriptLineError>
    ensures gives { GivesNotes (notes_of draft.new) result (notes_with_event (notes_of draft.old) line time event) }
    ensures kept { OnErr result (notes_of draft.new ≡ notes_of draft.old) }
{
    if time < last_time(&draft.events) {
        return Err(ScriptLineError::Fault(at_word(1, ScriptCause::Order)));
    }
    if draft.end.is_some() {
        return Err(ScriptLineError::Fault(at_word(0, ScriptCause::End)));
    }
    draft.events.push(TimedEvent {
        line,
        at: time,
        event,
    })?;
    Ok(())
}

/// Plugs one device into a port of another.
fn take_plug(
    tree: &Tree<15>,
    draft: &mut ScriptDraft,
    number: u64,
    line: &FormLine<'_, ScriptVerb>,
) -> Result<(), ScriptLineError>
    ensures gives { GivesNotes (notes_of draft.new) result (plug_checked (notes_of draft.old) number (time_at (values_of line.now) 1) (port_at (values_of line.now) 5)
        (device_named tree.now (text_at (values_of line.now) 3)) (device_named tree.now (text_at (values_of line.now) 4))) }
    ensures kept { OnErr result (notes_of draft.new ≡ notes_of draft.old) }
{
    let Some(child) = tree.device_named(line.text(3)) else {
        return Err(ScriptLineError::Fault(at_word(3, ScriptCause::Name)));
    };
    let Some(parent) = tree.device_named(line.text(4)) else {
        return Err(ScriptLineError::Fault(at_word(4, ScriptCause::Name)));
    };
    let port = line.port(5);
    schedule(
        draft,
        number,
        line.time(1),
        Event::Plug {
            child,
            parent,
            port,
        },
    )
}

/// Unplugs a device.
fn take_unplug(
    tree: &Tree<15>,
    draft: &mut ScriptDraft,
    number: u64,
    line: &FormLine<'_, ScriptVerb>,
) -> Result<(), ScriptLineError>
    ensures gives { GivesNotes (notes_of draft.new) result (unplug_checked (notes_of draft.old) number (time_at (values_of line.now) 1) (device_named tree.now (text_at (values_of line.now) 3))) }
    ensures kept { OnErr result (notes_of draft.new ≡ notes_of draft.old) }
{
    let Some(child) = tree.device_named(line.text(3)) else {
        return Err(ScriptLineError::Fault(at_word(3, ScriptCause::Name)));
    };
    schedule(draft, number, line.time(1), Event::Unplug { child })
}

/// Takes a key that goes down or comes up.
fn take_key(
    tree: &Tree<15>,
    draft: &mut ScriptDraft,
    number: u64,
    press: bool,
    word: KeyWord,
    line: &FormLine<'_, ScriptVerb>,
) -> Result<(), ScriptLineError>
    ensures gives { GivesNotes (notes_of draft.new) result (key_read (notes_of draft.old) number press (key_said word (values_of line.now)) (key_time word (values_of line.now))
        (device_named tree.now (text_at (values_of line.now) 3))) }
    ensures kept { OnErr result (notes_of draft.new ≡ notes_of draft.old) }
{
    let key = match key_said(word, line) {
        Ok(key) => key,
        Err(fault) => return Err(ScriptLineError::Fault(fault)),
    };
    let Some(time) = key_time(word, line) else {
        return Err(ScriptLineError::Fault(at_word(1, ScriptCause::Number)));
    };
    let Some(device) = tree.device_named(line.text(3)) else {
        return Err(ScriptLineError::Fault(at_word(3, ScriptCause::Name)));
    };
    schedule(draft, number, time, Event::Key { device, key, press })
}

fn schedule_act(
    draft: &mut ScriptDraft,
    line: u64,
    act: Option<Act>,
    time: Option<u64>,
    device: Option<usize>,
) -> Result<(), ScriptLineError>
    ensures gives { GivesNotes (notes_of draft.new) result (act_read (notes_of draft.old) line act time device) }
    ensures kept { OnErr result (notes_of draft.new ≡ notes_of draft.old) }
{
    let Some(act) = act else {
        return Err(ScriptLineError::Fault(at_word(4, ScriptCause::Word)));
    };
    let Some(time) = time else {
        return Err(ScriptLineError::Fault(at_word(1, ScriptCause::Number)));
    };
    let Some(device) = device else {
        return Err(ScriptLineError::Fault(at_word(3, ScriptCause::Name)));
    };
    schedule(draft, line, time, Event::Outside { device, act })
}

/// Takes what a device from outside holds from now on.
fn take_hold(
    tree: &Tree<15>,
    draft: &mut ScriptDraft,
    number: u64,
    line: &FormLine<'_, ScriptVerb>,
) -> Result<(), ScriptLineError>
    ensures gives { GivesNotes (notes_of draft.new) result (act_read (notes_of draft.old) number (hold_of (text_at (values_of line.now) 4)) (late_time_at (values_of line.now) 1)
        (device_named tree.now (text_at (values_of line.now) 3))) }
    ensures kept { OnErr result (notes_of draft.new ≡ notes_of draft.old) }
{
    let act = hold_in(line.text(4));
    let time = line.late_time(1);
    schedule_act(draft, number, act, time, tree.device_named(line.text(3)))
}

/// Empties the queue of a device from outside.
fn take_drop(
    tree: &Tree<15>,
    draft: &mut ScriptDraft,
    number: u64,
    line: &FormLine<'_, ScriptVerb>,
) -> Result<(), ScriptLineError>
    ensures gives { GivesNotes (notes_of draft.new) result (act_read (notes_of draft.old) number (Some Empty) (Some (time_at (values_of line.now) 1)) (device_named tree.now (text_at (values_of line.now) 3))) }
    ensures kept { OnErr result (notes_of draft.new ≡ notes_of draft.old) }
{
    let act = Some(Act::Empty);
    let time = Some(line.time(1));
    schedule_act(draft, number, act, time, tree.device_named(line.text(3)))
}

fn pulse_fault(fault: PulsesError) -> AtWord<ScriptCause>
    ensures { result ≡ pulse_fault fault }
{
    match fault {
        PulsesError::Width => at_word(2, ScriptCause::Width),
        PulsesError::Close => at_word(1, ScriptCause::Close),
        PulsesError::Order => at_word(1, ScriptCause::Order),
        PulsesError::TooMany => at_word(0, ScriptCause::TooMany),
    }
}

/// Why a pulse is refused, after one that ends so; while the pin is low none may begin.
fn pulse_refusal(pin: Option<u64>, before: Option<u64>, pulse: Stretch) -> Option<PulsesError>
    ensures { result ≡ pulse_refusal pin before pulse }
{
    if pin.is_none() {
        return stretch_fault(before, pulse);
    }
    match stretch_fault(None, pulse) {
        Some(fault) => Some(fault),
        None => Some(PulsesError::Order),
    }
}

fn add_pulse(draft: &mut ScriptDraft, waiting: usize, pulse: Stretch) -> Result<(), ScriptLineError>
    ensures gives { GivesNotes (notes_of draft.new) result (notes_with_pulse (notes_of draft.old) waiting pulse) }
    ensures kept { OnErr result (notes_of draft.new ≡ notes_of draft.old) }
{
    if let Some(fault) = pulse_refusal(draft.pin, last_end(&draft.pulses), pulse) {
        return Err(ScriptLineError::Fault(pulse_fault(fault)));
    }
    if waiting >= MOST_PULSES {
        return Err(ScriptLineError::Fault(at_word(0, ScriptCause::TooMany)));
    }
    if draft.end.is_some() {
        return Err(ScriptLineError::Fault(at_word(0, ScriptCause::End)));
    }
    draft.pulses.push(pulse)?;
    Ok(())
}

/// Takes a pulse; a width above 65,535 counts as 65,535.
fn take_pulse(
    draft: &mut ScriptDraft,
    waiting: usize,
    from: u64,
    width: u64,
) -> Result<(), ScriptLineError>
    requires early { from ≤ latest_event }
    ensures gives { GivesNotes (notes_of draft.new) result (notes_with_pulse (notes_of draft.old) waiting (pulse_of from width)) }
    ensures kept { OnErr result (notes_of draft.new ≡ notes_of draft.old) }
{
    let to = from + width.min(WIDEST_COUNTED);
    add_pulse(draft, waiting, Stretch { from, to })
}

/// Whether a pull from an instant on would overlap or touch one that ends so.
pub(crate) fn touches(end: Option<u64>, time: u64) -> bool
    ensures { result ≡ touches end time }
{
    match end {
        None => false,
        Some(end) => time <= end,
    }
}

/// Takes a pull.
fn take_pull(
    draft: &mut ScriptDraft,
    waiting: usize,
    from: u64,
    width: u64,
) -> Result<(), ScriptLineError>
    requires early { from ≤ latest_event }
    ensures gives { GivesNotes (notes_of draft.new) result (notes_with_pull (notes_of draft.old) waiting from width) }
    ensures kept { OnErr result (notes_of draft.new ≡ notes_of draft.old) }
{
    if width == 0 || width > WIDEST_PULL {
        return Err(ScriptLineError::Fault(at_word(2, ScriptCause::Width)));
    }
    if draft.pin.is_some() || touches(last_end(&draft.pulses), from) {
        return Err(ScriptLineError::Fault(at_word(1, ScriptCause::Order)));
    }
    if waiting >= MOST_PULLS {
        return Err(ScriptLineError::Fault(at_word(0, ScriptCause::TooMany)));
    }
    if draft.end.is_some() {
        return Err(ScriptLineError::Fault(at_word(0, ScriptCause::End)));
    }
    let to = from + width;
    draft.pulses.push(Stretch { from, to })?;
    Ok(())
}

/// Takes the end.
fn take_end(draft: &mut ScriptDraft, time: u64) -> Result<(), ScriptLineError>
    ensures gives { GivesNotes (notes_of draft.new) result (end_checked (notes_of draft.old) time) }
    ensures kept { OnErr result (notes_of draft.new ≡ notes_of draft.old) }
{
    if draft.end.is_some() {
        return Err(ScriptLineError::Fault(at_word(0, ScriptCause::End)));
    }
    if !draft.events.is_empty() && time <= last_time(&draft.events) {
        return Err(ScriptLineError::Fault(at_word(1, ScriptCause::End)));
    }
    if let Some(from) = draft.pin {
        draft.pulses.push(end_pull(from, time))?;
    }
    draft.pin = None;
    draft.end = Some(time);
    Ok(())
}

/// Takes what a line of a form says.
fn take_form(
    tree: &Tree<15>,
    draft: &mut ScriptDraft,
    waiting: usize,
    number: u64,
    line: &FormLine<'_, ScriptVerb>,
) -> Result<(), ScriptLineError>
    ensures gives { Gives (notes_of draft.new) result (IsSaid tree.now (notes_of draft.old) waiting number line.now.verb (values_of line.now)) }
    ensures kept { OnErr result (notes_of draft.new ≡ notes_of draft.old) }
{
    match line.verb {
        ScriptVerb::Press(word) => take_key(tree, draft, number, true, word, line),
        ScriptVerb::Release(word) => take_key(tree, draft, number, false, word, line),
        ScriptVerb::Plug => take_plug(tree, draft, number, line),
        ScriptVerb::Unplug => take_unplug(tree, draft, number, line),
        ScriptVerb::Send => take_send(tree, draft, number, line),
        ScriptVerb::Hold => take_hold(tree, draft, number, line),
        ScriptVerb::Drop => take_drop(tree, draft, number, line),
        ScriptVerb::Pulse => take_pulse(draft, waiting, line.time(1), line.number(2)),
        ScriptVerb::Pull => take_pull(draft, waiting, line.time(1), line.number(2)),
        ScriptVerb::Pin => take_level(draft, waiting, line.time(1), line.level(2)),
        ScriptVerb::End => take_end(draft, line.time(1)),
    }
}

/// The form of a line, and its values.
#[tactic(auto, unfolding(crate::specs::Script::line_said))]
fn line_said(line: &[u8]) -> Result<FormLine<'_, ScriptVerb>, AtWord<LineCause>>
    ensures { said result ≡ line_said (words_of line.now) }
{
    read_line(SCRIPT, line)
}

fn script_fault(fault: AtWord<LineCause>) -> AtWord<ScriptCause>
    ensures { result ≡ fault_as fault }
{
    match fault.cause {
        LineCause::Word => at_word(fault.word, ScriptCause::Word),
        LineCause::Number => at_word(fault.word, ScriptCause::Number),
    }
}

/// Takes what the words of a line say by the table of forms.
fn take_said(
    tree: &Tree<15>,
    draft: &mut ScriptDraft,
    waiting: usize,
    number: u64,
    line: &[u8],
) -> Result<(), ScriptLineError>
    ensures gives { Gives (notes_of draft.new) result (IsSaidRead tree.now (notes_of draft.old) waiting number (line_said (words_of line.now))) }
    ensures kept { OnErr result (notes_of draft.new ≡ notes_of draft.old) }
{
    match line_said(line) {
        Ok(line) => take_form(tree, draft, waiting, number, &line),
        Err(fault) => Err(ScriptLineError::Fault(script_fault(fault))),
    }
}

/// Takes a line, the one of this number. So many pulses and pulls of the lines before it wait to be taken into a round: all
/// of them, where the run has not begun.
pub fn take_line(
    tree: &Tree<15>,
    draft: &mut ScriptDraft,
    waiting: usize,
    number: u64,
    line: &[u8],
) -> Result<(), ScriptLineError>
    ensures gives { Gives (notes_of draft.new) result (IsLineRead tree.now (notes_of draft.old) waiting number line.now) }
    ensures kept { OnErr result (notes_of draft.new ≡ notes_of draft.old) }
{
    if is_skipped(line) {
        return Ok(());
    }
    take_said(tree, draft, waiting, number, line)
}

/// The error of a line that is not taken.
pub fn error_at(line: u64, error: ScriptLineError) -> ScriptError
    ensures { result ≡ error_at line error }
{
    match error {
        ScriptLineError::Fault(fault) => ScriptError::At(fault.on_line(line)),
        ScriptLineError::Memory => ScriptError::Memory,
    }
}

/// Reads a script for the devices of a topology: lines `at T EVENT`, `pulse T WIDTH`, `pull T WIDTH`, `pin T LEVEL` and last
/// `end T`, where EVENT is `plug CHILD PARENT PORT`, `unplug CHILD`, `press NAME KEY`, `release NAME KEY`, `send NAME FRAME`, `hold NAME ADDRS`
/// or `drop NAME`; in the header of a FRAME `@NAME` may stand in the place of an address, and a FRAME may be `hex` and its bytes, with
/// `attempts N` before it or not; empty lines and lines that begin with `#` are skipped. Times are microseconds. Those of events do not go back and are before
/// the end; pulses and pulls are in order, and none touches another. A device's number is below the count of devices, and no frame
/// is empty.
///
/// # Errors
///
/// `At` with the first line at fault, counted from 1, the first cause that applies to it, and the word at fault; `Memory`
/// where there is none for the events, the pulses and the pulls.
pub fn parse_script(alloc: Global, topology: &Topology, text: &[u8]) -> Result<Script, ScriptError>
    ensures gives { GivesScript topology.now.tree text.now result }
    ensures script { IfOk result (λ script. IsScript (length topology.now.tree) (course_of script)) }
{
    let tree = &topology.tree;
    let mut draft = ScriptDraft::new(alloc);
    let mut rest = text;
    let mut number = 1;
    while let Some((line, after)) = first_line(rest) {
        let waiting = draft.pulses.len();
        if let Err(error) = take_line(tree, &mut draft, waiting, number, line) {
            return Err(error_at(number, error));
        }
        rest = after;
        number += 1;
    }
    draft.finish(number)
}
