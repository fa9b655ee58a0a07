//! Topologies and their texts.
ghost use Rattle.std.specs.Prelude.{◌≡◌, ◌+◌, ◌≤◌, Result, Ok, Err, Some};
ghost use Rattle.text_forms.specs.Forms.{values_of};
ghost use Rattle.text_forms.specs.Limits.{most_ports};
ghost use Rattle.edid_tree.specs.Tree.{device_named};
ghost use Rattle.room_script.specs.declared.topology.TopologyLineError.TheVariants.{Fault};
ghost use Rattle.room_script.specs.Topology.{plan_of, checked, device_checked, edid_checked, plug_checked, line_read, topology_of, error_at, GivesLine, GivesTopology};
ghost use Rattle.text_core.specs.At.{at_word};

use edid_tree::{AddError, PlugError, Tree, is_name};
use hex::FromHexError;
use room_lines::{TOPOLOGY, TopologyVerb};
use std::alloc::Global;
use std::fmt::{self, Write};
use text_core::{At, AtWord, Kind, at_word, first_line, is_skipped};
use text_forms::{FormLine, LineCause, read_line};
use thiserror::Error;

/// Why a line of a topology is refused: the first of these that applies.
#[derive(Clone, Copy, Debug, Drop, PartialEq, Eq)]
pub enum TopologyCause {
    /// No such line, or a second `edid` line.
    Word,
    /// An ill-formed number, or more than 15 ports.
    Number,
    /// An ill-formed name, one that is taken, or one that is not declared above.
    Name,
    /// A 16th device.
    Full,
    /// A second television.
    SecondRoot,
    /// No television, told of the line after the last.
    NoRoot,
    /// The parent has no such port.
    PortRange,
    /// A device is plugged in there.
    PortTaken,
    /// The child is plugged in already or is the television.
    NotLoose,
    /// The parent is the child or hangs below it.
    Loop,
    /// No pairs of hex digits.
    Hex,
}

impl fmt::Display for TopologyCause {
    ghost use Rattle.std.specs.Prelude.{Some};
    ghost use Rattle.room_script.specs.Topology.{topology_cause};

    ghost output = { λ cause. Some (topology_cause cause) };

    fn fmt<W: Write>(&self, f: &mut fmt::Formatter<W>) -> fmt::Result {
        f.write_str(match self {
            TopologyCause::Word => "word",
            TopologyCause::Number => "number",
            TopologyCause::Name => "name",
            TopologyCause::Full => "full",
            TopologyCause::SecondRoot => "second-root",
            TopologyCause::NoRoot => "no-root",
            TopologyCause::PortRange => "port-range",
            TopologyCause::PortTaken => "port-taken",
            TopologyCause::NotLoose => "not-loose",
            TopologyCause::Loop => "loop",
            TopologyCause::Hex => "hex",
        })
    }
}

/// Why a topology's text is refused.
#[derive(Debug, Drop, Error)]
pub enum TopologyError {
    /// The first line at fault.
    #[error(transparent)]
    At(At<TopologyCause>),
    #[error("no memory")]
    Memory,
}

/// Why a line is not taken.
#[derive(Debug, Drop)]
enum TopologyLineError {
    Fault(AtWord<TopologyCause>),
    Memory,
}

fn fault(word: usize, cause: TopologyCause) -> TopologyLineError
    ensures { result ≡ Fault (at_word word cause) }
{
    TopologyLineError::Fault(at_word(word, cause))
}

impl From<AtWord<LineCause>> for TopologyLineError {
    ghost use Rattle.std.specs.Prelude.{◌≡◌};
    ghost use Rattle.room_script.specs.Topology.{fault_as};
    ghost use Rattle.room_script.specs.declared.topology.TopologyLineError.TheVariants.{Fault};

    ghost from_gives = { λ error given. given ≡ Fault (fault_as error) };

    fn from(error: AtWord<LineCause>) -> TopologyLineError {
        match error.cause {
            LineCause::Word => fault(error.word, TopologyCause::Word),
            LineCause::Number => fault(error.word, TopologyCause::Number),
        }
    }
}

impl From<AddError> for TopologyLineError {
    ghost use Rattle.std.specs.Prelude.{◌≡◌};
    ghost use Rattle.room_script.specs.Topology.{add_fault_of};
    ghost use Rattle.room_script.specs.declared.topology.TopologyLineError.TheVariants.{Fault};

    ghost from_gives = { λ error given. given ≡ Fault (add_fault_of error) };

    fn from(error: AddError) -> TopologyLineError {
        match error {
            AddError::Full => fault(0, TopologyCause::Full),
            AddError::Name => fault(1, TopologyCause::Name),
            AddError::SecondRoot => fault(2, TopologyCause::SecondRoot),
        }
    }
}

impl From<PlugError> for TopologyLineError {
    ghost use Rattle.std.specs.Prelude.{◌≡◌};
    ghost use Rattle.room_script.specs.Topology.{plug_fault_of};
    ghost use Rattle.room_script.specs.declared.topology.TopologyLineError.TheVariants.{Fault};

    ghost from_gives = { λ error given. given ≡ Fault (plug_fault_of error) };

    fn from(error: PlugError) -> TopologyLineError {
        match error {
            PlugError::PortRange => fault(3, TopologyCause::PortRange),
            PlugError::PortTaken => fault(3, TopologyCause::PortTaken),
            PlugError::NotLoose => fault(1, TopologyCause::NotLoose),
            PlugError::Loop => fault(2, TopologyCause::Loop),
        }
    }
}

/// A network: its devices, and the bytes of the television's EDID, if they are given.
#[derive(Debug, Drop)]
pub struct Topology {
    pub tree: Tree<15>,
    pub edid: Option<Vec<u8>>,
}

// Adds a device.
fn add_device(
    topology: &mut Topology,
    name: &[u8],
    kind: Kind,
    ports: u8,
) -> Result<(), TopologyLineError>
    requires { ports ≤ most_ports }
    ensures { GivesLine (plan_of topology.new) result (device_checked (plan_of topology.old) name.now kind ports) }
{
    if !is_name(name) || topology.tree.device_named(name).is_some() {
        return Err(fault(1, TopologyCause::Name));
    }
    topology.tree.add(name, kind, ports)?;
    Ok(())
}

// Plugs one device into a port of another.
fn add_plug(
    topology: &mut Topology,
    child: &[u8],
    parent: &[u8],
    port: u8,
) -> Result<(), TopologyLineError>
    ensures { GivesLine (plan_of topology.new) result (plug_checked (plan_of topology.old) (device_named (plan_of topology.old).tree child.now)
        (device_named (plan_of topology.old).tree parent.now) port) }
{
    let Some(child) = topology.tree.device_named(child) else {
        return Err(fault(1, TopologyCause::Name));
    };
    let Some(parent) = topology.tree.device_named(parent) else {
        return Err(fault(2, TopologyCause::Name));
    };
    topology.tree.plug(child, parent, port)?;
    Ok(())
}

// Takes the television's EDID in hex.
fn add_edid(alloc: Global, topology: &mut Topology, word: &[u8]) -> Result<(), TopologyLineError>
    ensures { GivesLine (plan_of topology.new) result (edid_checked (plan_of topology.old) word.now) }
{
    if topology.edid.is_some() {
        return Err(fault(0, TopologyCause::Word));
    }
    if word.is_empty() {
        return Err(fault(1, TopologyCause::Hex));
    }
    match hex::decode(alloc, word) {
        Ok(bytes) => {
            topology.edid = Some(bytes);
            Ok(())
        }
        Err(FromHexError::OutOfMemory) => Err(TopologyLineError::Memory),
        Err(_) => Err(fault(1, TopologyCause::Hex)),
    }
}

// Takes what a line of a form says.
fn take_form(
    alloc: Global,
    topology: &mut Topology,
    line: &FormLine<'_, TopologyVerb>,
) -> Result<(), TopologyLineError>
    ensures { GivesLine (plan_of topology.new) result (checked (plan_of topology.old) line.now.verb (values_of line.now)) }
{
    match line.verb {
        TopologyVerb::Device => add_device(topology, line.text(1), line.kind(2), line.ports(3)),
        TopologyVerb::Plug => add_plug(topology, line.text(1), line.text(2), line.port(3)),
        TopologyVerb::Edid => add_edid(alloc, topology, line.text(1)),
    }
}

// Takes a line.
fn take_line(alloc: Global, topology: &mut Topology, line: &[u8]) -> Result<(), TopologyLineError>
    ensures { GivesLine (plan_of topology.new) result (line_read (plan_of topology.old) line.now) }
{
    if is_skipped(line) {
        return Ok(());
    }
    let line = read_line(TOPOLOGY, line)?;
    take_form(alloc, topology, &line)
}

fn error_at(line: u64, error: TopologyLineError) -> TopologyError
    ensures { result ≡ error_at line error }
{
    match error {
        TopologyLineError::Fault(fault) => TopologyError::At(fault.on_line(line)),
        TopologyLineError::Memory => TopologyError::Memory,
    }
}

/// Reads a topology: lines of the forms of [`TOPOLOGY`], of which `edid HEX` stands once at most; empty lines and lines that
/// begin with `#` are skipped.
///
/// # Errors
///
/// `At` with the first line at fault, counted from 1, the first cause that applies to it, and the word at fault; `Memory`
/// where there is none.
pub fn parse_topology(alloc: Global, text: &[u8]) -> Result<Topology, TopologyError>
    ensures { GivesTopology result (topology_of text.now) }
{
    let mut topology = Topology {
        tree: Tree::new(),
        edid: None,
    };
    let mut rest = text;
    let mut number = 1;
    while let Some((line, after)) = first_line(rest) {
        if let Err(error) = take_line(alloc, &mut topology, line) {
            return Err(error_at(number, error));
        }
        rest = after;
        number += 1;
    }
    if !topology.tree.has_root() {
        return Err(TopologyError::At(at_word(0, TopologyCause::NoRoot).on_line(number)));
    }
    Ok(topology)
}
