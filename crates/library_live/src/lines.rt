//! Lines of a pin and of edges.
ghost use Rattle.std.specs.Prelude.{◌≡◌, ◌+◌, ◌≤◌, ◌++◌, length};
ghost use Rattle.std.specs.Fmt.{decimal};
ghost use Rattle.library_live.specs.Live.{edge_line, pin_line};

use arrayvec::ArrayVec;
use itoa::Buffer;

// Room for a word, a number and a level.
const MOST: usize = 64;

// Adds bytes to a line that has room for them.
fn add(line: &mut ArrayVec<u8, MOST>, bytes: &[u8])
    requires { length line.old.items + length bytes.now ≤ 64 }
    ensures { line.new.items ≡ line.old.items ++ bytes.now }
{
    let _ = line.try_extend_from_slice(bytes);
}

// A word and a number.
fn word_and_number(word: &[u8], t: u64) -> ArrayVec<u8, MOST>
    requires { length word.now ≤ 8 }
    ensures line { result.items ≡ word.now ++ decimal t }
    ensures short { length result.items ≤ 48 }
{
    let mut digits = Buffer::new();
    let mut line = ArrayVec::new();
    add(&mut line, word);
    add(&mut line, digits.format(t).as_bytes());
    line
}

/// The line `pin T 0`, or `pin T 1`.
pub(crate) fn pin_line(t: u64, is_low: bool) -> ArrayVec<u8, MOST>
    ensures { result.items ≡ pin_line t is_low }
{
    let mut line = word_and_number(b"pin ", t);
    if is_low {
        add(&mut line, b" 0");
    } else {
        add(&mut line, b" 1");
    }
    line
}

/// The line `edge T`.
pub(crate) fn edge_line(t: u64) -> ArrayVec<u8, MOST>
    ensures { result.items ≡ edge_line t }
{
    word_and_number(b"edge ", t)
}
