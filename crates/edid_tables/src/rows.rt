//! Rows of a table, a line each: byte, highest and lowest bit, the standard's name, and the codes in brackets.

/// Codes of a field: `any` value, `clear` where every value but 0 is reserved, a `flag` and what it says where it is set, or each
/// code as least and greatest value and what it says.
macro_rules! codes {
    (any) => {
        &[(0, 255, "")]
    };
    (clear) => {
        &[(0, 0, "")]
    };
    (flag $text:literal) => {
        &[(0, 0, ""), (1, 1, $text)]
    };
    ($($least:literal $greatest:literal $text:literal),*) => {
        &[$(($least, $greatest, $text),)*]
    };
}

macro_rules! field_row {
    ($byte:literal $high:literal $low:literal $name:literal [$($codes:tt)*]) => {
        (
            edid_fields::Run {
                byte: $byte,
                high: $high,
                low: $low,
            },
            $name,
            $crate::rows::codes!($($codes)*),
        )
    };
}

macro_rules! field_rows {
    ($($byte:literal $high:literal $low:literal $name:literal [$($codes:tt)*];)*) => {
        &[$($crate::rows::field_row!($byte $high $low $name [$($codes)*]),)*]
    };
}

/// Whether bits have one of some values.
macro_rules! test {
    ($bits:expr, $least:literal, $greatest:literal) => {
        edid_fields::Test {
            asked: edid_fields::Asked::Value($bits),
            least: $least,
            greatest: $greatest,
        }
    };
}

pub(crate) use codes;
pub(crate) use field_row;
pub(crate) use field_rows;
pub(crate) use test;
