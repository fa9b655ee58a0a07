//! Cells, of which a line is made.

use text_core::Piece;

/// A device that stopped, and the slot at which it did.
#[derive(Clone, Copy)]
pub struct Out<'a> {
    pub name: &'a [u8],
    pub slot: u64,
}

impl Default for Out<'_> {
    fn default() -> Self {
        Out { name: b"", slot: 0 }
    }
}

/// Where a receiver stands in what it reads.
#[derive(Clone, Copy)]
pub enum Position<'a> {
    /// At a place of this name, outside of the slots of a frame.
    Named(&'a str),
    /// In the slot of this number, with the bits sampled so far.
    Slot(u64, &'a [bool]),
}

/// A device, and where its receiver stands.
#[derive(Clone, Copy)]
pub struct Stand<'a> {
    pub name: &'a [u8],
    pub position: Position<'a>,
}

impl Default for Stand<'_> {
    fn default() -> Self {
        Stand {
            name: b"",
            position: Position::Named(""),
        }
    }
}

/// A part of a value that has several, and the name that its field has in the value's object.
#[derive(Clone, Copy)]
pub struct Part<'a> {
    pub name: &'a str,
    pub piece: Piece<'a>,
}

impl Default for Part<'_> {
    fn default() -> Self {
        Part {
            name: "",
            piece: Piece::Text(""),
        }
    }
}

/// What a cell has: in a line a word or several, in an object a value.
#[derive(Clone, Copy)]
pub enum Value<'a> {
    /// No word, and null.
    Nothing,
    /// A word. Numbers are numbers, switches true or false, all else strings; a dash, or no byte, is null.
    One(Piece<'a>),
    /// Bytes as they stand, and the string of them: `-` is no null here.
    String(&'a [u8]),
    /// Bytes with a backslash before each number sign and each backslash, as a test's line has them (Test Anything Protocol), and the
    /// string of the bytes alone.
    Escaped(&'a [u8]),
    /// Words with a sign between them, or a dash. A list of their values; of texts it has strings, and no null.
    List(&'a str, &'a [Piece<'a>]),
    /// Words with a sign between them, or a dash. One object of their values, or null.
    Parts(&'a str, &'a [Part<'a>]),
    /// Devices with their slots, with commas between them, or a dash. A list of objects.
    Outs(&'a [Out<'a>]),
    /// Devices with where they stand, each after a space. A list of objects.
    Stands(&'a [Stand<'a>]),
    /// `ok` or `not-ok` of each, after a space. A list of true and false.
    Verdicts(&'a [bool]),
}

/// Where the value of a cell stands.
#[derive(Clone, Copy, Debug, PartialEq, Eq)]
pub enum Shown {
    /// In the line, and as a field of the object.
    Both,
    /// In the line alone.
    Line,
    /// In the object alone.
    Object,
}

/// A value, with what stands before it in the line, and the name that its field has in the object.
#[derive(Clone, Copy)]
pub struct Cell<'a> {
    pub lead: &'a str,
    pub shown: Shown,
    pub name: &'a str,
    pub value: Value<'a>,
}

/// A cell. `both(LEAD, NAME, VALUE)`: a word of the line and a field of the object. `hidden(NAME, VALUE)`: a field alone.
/// `line(LEAD, VALUE)`: a word alone.
#[macro_export]
macro_rules! cell {
    (both $lead:expr, $name:expr, $value:expr) => {
        $crate::Cell { lead: $lead, shown: $crate::Shown::Both, name: $name, value: $value }
    };
    (hidden $name:expr, $value:expr) => {
        $crate::Cell { lead: "", shown: $crate::Shown::Object, name: $name, value: $value }
    };
    (line $lead:expr, $value:expr) => {
        $crate::Cell { lead: $lead, shown: $crate::Shown::Line, name: "", value: $value }
    };
}

/// The cells of a kind of line, one after another, each as `cell` has it: `cells![both("", "at", VALUE), line(" end", VALUE)]`.
#[macro_export]
macro_rules! cells {
    ($($shown:ident($($part:expr),+ $(,)?)),* $(,)?) => {
        [$($crate::cell!($shown $($part),+)),*]
    };
}

/// What is written of the cells of a line.
#[derive(Clone, Copy, Debug, PartialEq, Eq)]
pub enum Form {
    /// The line.
    Text,
    /// The object of JSON, on a line of its own.
    Json,
}
