//! Fields of a line, with commas between them.
ghost use Rattle.std.specs.Prelude.{◌≡◌, ◌∷◌, ◌+◌, ◌-◌, ◌<◌, ◌==◌, length, position, IfSome};
ghost use Rattle.std.specs.Option.{option_copied};
ghost use Rattle.capture_csv.specs.Csv.{column_from, field_at, fields_after, fields_of, is_named, field_without_space, without_return};

use text_core::{after, before, byte_at};

// Where the first comma stands.
fn comma_in(line: &[u8]) -> Option<usize>
    ensures { result ≡ position (λ b. b == 44) line.now }
{
    line.iter().position(|b| *b == b',')
}

/// The first field of a line, and what stands after its comma.
pub fn first_field(line: &[u8]) -> (&[u8], Option<&[u8]>)
    ensures fields { fields_of line.now ≡ result.0.now ∷ fields_after (option_copied result.1) }
    ensures shorter { IfSome result.1 (λ rest. length rest.now < length line.now) }
{
    match comma_in(line) {
        None => (line, None),
        Some(end) => (&line[..end], Some(&line[end + 1..])),
    }
}

/// The field of this column of what is left of a line, counted from 0.
pub fn field_at(fields: Option<&[u8]>, column: usize) -> Option<&[u8]>
    ensures { option_copied result ≡ field_at column (fields_after (option_copied fields.entry)) }
{
    let mut left = fields;
    let mut count = column;
    'fields: while let Some(rest) = left {
        let (field, more) = first_field(rest);
        if count == 0 {
            return Some(field);
        }
        left = more;
        count -= 1;
    }
    None
}

/// A field without the space before it.
pub fn field_without_space(field: &[u8]) -> &[u8]
    ensures { result.now ≡ field_without_space field.now }
{
    if byte_at(field, 0) == b' ' {
        after(field, 1)
    } else {
        field
    }
}

/// A line without the carriage return at its end.
pub fn without_return(line: &[u8]) -> &[u8]
    ensures { result.now ≡ without_return line.now }
{
    let last = line.len().saturating_sub(1);
    if byte_at(line, last) == b'\r' {
        before(line, last)
    } else {
        line
    }
}

fn is_named(field: &[u8], signal: &[u8]) -> bool
    ensures { result ≡ is_named field.now signal.now }
{
    signal.is_empty() || field_without_space(field) == signal
}

/// The column of a signal among the fields of what is left of a line after the time, whose column is 0. An empty name stands for
/// the first.
pub fn column_in(fields: Option<&[u8]>, signal: &[u8]) -> Option<usize>
    ensures { result ≡ column_from 1 signal.now (fields_after (option_copied fields.entry)) }
{
    let mut left = fields;
    let mut column = 1;
    'fields: while let Some(rest) = left {
        let (field, more) = first_field(rest);
        if is_named(field, signal) {
            return Some(column);
        }
        left = more;
        column += 1;
    }
    None
}
