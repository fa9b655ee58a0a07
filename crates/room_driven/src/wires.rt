//! Which wires a dump has.

/// Which wires a dump has: the line, a wire for each device and one for the pulses, or beside them the two of text that name what
/// one sees, what is read in each round and which bit of it is on the line.
#[derive(Clone, Copy, Debug, PartialEq, Eq)]
pub enum Wires {
    Plain,
    Named,
}
