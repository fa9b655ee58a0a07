//! Rows of a table, a line each: byte, highest and lowest bit, the standard's name, and the codes in brackets.

/// Codes of a field: `any` value, `clear` where every value but 0 is reserved, a `flag` and what it says where it is set, or each
/// code as least and greatest value and what it says.
macro_rules! codes {
    (any) => {
        &[(0, 255, "")]
    };
    (clear) => {
        &[(0, 0, "")]
    };
    (flag $text:literal) => {
        &[(0, 0, ""), (1, 1, $text)]
    };
    ($($least:literal $greatest:literal $text:literal),*) => {
        &[$(($least, $greatest, $text),)*]
    };
}

macro_rules! field_rows {
    ($($byte:literal $high:literal $low:literal $name:literal [$($codes:tt)*];)*) => {
        &[$((
            edid_fields::Run {
                byte: $byte,
                high: $high,
                low: $low,
            },
            $name,
            $crate::rows::codes!($($codes)*),
        ),)*]
    };
}

/// Whether bits of a part have one of some values.
macro_rules! test {
    ($part:literal $byte:literal $high:literal $low:literal is $least:literal to $greatest:literal) => {
        edid_fields::Test {
            asked: edid_fields::Asked::Value(edid_fields::Bits {
                part: $part,
                byte: $byte,
                high: $high,
                low: $low,
            }),
            least: $least,
            greatest: $greatest,
        }
    };
}

/// The four bytes before the data bytes: the header, and the checksum (CTA-861-H, section 6; HDMI 1.4b, section 5.3.5).
macro_rules! header_rows {
    ([$($kind:tt)*] [$($version:tt)*] [$($length:tt)*]) => {
        $crate::rows::field_rows! {
            0 7 0 "InfoFrame type" [$($kind)*];
            1 7 0 "version" [$($version)*];
            2 7 5 "reserved" [clear];
            2 4 0 "length" [$($length)*];
            3 7 0 "checksum" [any];
        }
    };
}

pub(crate) use codes;
pub(crate) use field_rows;
pub(crate) use header_rows;
pub(crate) use test;
