//! What a table of fields is made of. What holds a reference is a tuple, since a definition cites no constant of a struct that
//! holds one.

/// Values of a field that mean the same: the least, the greatest, and the word for them. A value of no code of its row is reserved.
pub type Code = (u8, u8, &'static str);

/// Bits `high` to `low` of a byte of a part.
#[derive(Clone, Copy)]
pub struct Run {
    pub byte: usize,
    pub high: u8,
    pub low: u8,
}

/// A field: its bits, its name in the standard's words, and its codes. No field crosses a byte: a number of several bytes is a row
/// a byte.
pub type Row = (Run, &'static str, &'static [Code]);

/// Bits `high` to `low` of a byte of a part that stands before, or of the part itself.
#[derive(Clone, Copy)]
pub struct Bits {
    pub part: usize,
    pub byte: usize,
    pub high: u8,
    pub low: u8,
}

/// What a test asks about.
#[derive(Clone, Copy)]
pub enum Asked {
    Value(Bits),
    /// How many bytes the block has.
    Length,
}

/// Whether a value is one of some.
#[derive(Clone, Copy)]
pub struct Test {
    pub asked: Asked,
    pub least: usize,
    pub greatest: usize,
}

/// How many bytes a part has, and how many are to be there.
#[derive(Clone, Copy)]
pub struct Size {
    pub bytes: usize,
    pub least: usize,
}

/// One form of a part: when it has that form, its size, and its fields.
pub type Shape = (&'static [Test], Size, &'static [Row]);

/// How often a part stands.
#[derive(Clone, Copy)]
pub enum Times {
    Once,
    /// As often as a value says.
    Counted(Bits),
    /// As often as it begins within so many bytes as a value says, less some.
    Within(Bits, usize),
    /// As often as it begins within the block.
    ToEnd,
}

/// A part of a block. Each time it has the first of its shapes whose tests pass; where there is none, it is absent.
pub type Part = (Times, &'static [Shape]);
