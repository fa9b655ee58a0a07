//! A text without the byte order mark at its front.
ghost use Rattle.std.specs.Prelude.{◌≡◌, ◌≤◌, ◌<◌, ◌++◌, ℕ, [], take, drop, length, true, false, min, OnOk, OnErr};
ghost use Rattle.std.specs.Str.{bytes_eq};
ghost use Rattle.std.specs.Io.KnownBytes.{IsAtEnd, Keeps, Consumes, prepend_known};
ghost use Rattle.program_input.specs.Plain.{mark};
ghost use Rattle.program_input.specs.PlainReading.{IsWidened, still_unmarked, unmarked_left};

use arrayvec::ArrayVec;
use std::io;
use std::io::Read;

/// The byte order mark of UTF-8.
const MARK: [u8; 3] = [0xef, 0xbb, 0xbf];

/// A reader's text without the byte order mark at its front.
#[derive(Drop)]
pub struct WithoutMark<R> {
    below: R,
    /// Whether a mark may still come.
    is_front: bool,
    /// What was read and is not handed out.
    front: ArrayVec<u8, 3>,
}

// Whether a text is the mark.
fn is_mark(text: &[u8]) -> bool
    ensures { result ≡ bytes_eq text.now mark }
{
    text == MARK.as_slice()
}

impl<R: Read> WithoutMark<R> {
    /// The text of a reader, of which nothing is read yet; with its mark, where that is to stay.
    pub(crate) fn new(below: R, leaves_out: bool) -> Self
        ensures { (result.below ≡ below) × (result.is_front ≡ leaves_out) × (result.front.items ≡ []) }
    {
        WithoutMark {
            below,
            is_front: leaves_out,
            front: ArrayVec::new(),
        }
    }

    // Reads one byte more, where there is room and one is left.
    fn widen(&mut self) -> io::Result<()>
        ensures widened { IsWidened (R.remaining self.old.below) (R.remaining self.new.below) self.old.front.items self.new.front.items result }
        ensures same { self.new.is_front ≡ self.old.is_front }
    {
        if self.front.is_full() {
            return Ok(());
        }
        let mut byte = [0; 1];
        match self.below.read(&mut byte) {
            Ok(0) => Ok(()),
            Ok(_) => {
                self.front.push(byte[0]);
                Ok(())
            }
            Err(fault) => Err(fault),
        }
    }

    // Leaves out the mark that stands at the front, if one does.
    #[tactic(auto, using(crate::proofs::Marking::is_mark, crate::proofs::Marking::is_none))]
    fn leave_out(&mut self)
        ensures kept { (length self.old.front.items < 3 → IsAtEnd (R.remaining self.old.below)) → Keeps (unmarked_left true self.old.front.items (R.remaining self.old.below)) (unmarked_left false self.new.front.items (R.remaining self.new.below)) }
        ensures begun { self.new.is_front ≡ false }
    {
        self.is_front = false;
        if is_mark(self.front.as_slice()) {
            self.front.clear();
        }
    }

    // Hands out the first byte of what was read.
    #[tactic(auto, using(crate::proofs::Marking::first_is))]
    fn hand_first(&mut self, buf: &mut [u8]) -> usize
        requires some { 0 < length self.old.front.items }
        requires room { 0 < length buf.old }
        requires begun { self.old.is_front ≡ false }
        ensures one { result ≡ 1 }
        ensures bound { result ≤ length buf.new }
        ensures handed { Consumes (still_unmarked self.old (R.remaining self.old.below)) (still_unmarked self.new (R.remaining self.new.below)) (take result buf.new) }
    {
        buf[0] = self.front.remove(0);
        1
    }

    // Leaves the mark out, once what may be one was read.
    #[tactic(auto, using(crate::proofs::Marking::begun_is))]
    fn begin(&mut self) -> io::Result<()>
        ensures ok { OnOk result (Keeps (still_unmarked self.old (R.remaining self.old.below)) (still_unmarked self.new (R.remaining self.new.below))) }
        ensures begun { OnOk result (self.new.is_front ≡ false) }
        ensures err { OnErr result (Keeps (still_unmarked self.old (R.remaining self.old.below)) (still_unmarked self.new (R.remaining self.new.below))) }
    {
        if !self.is_front {
            return Ok(());
        }
        self.widen()?;
        self.widen()?;
        self.widen()?;
        self.leave_out();
        Ok(())
    }
}

impl<R: Read> Read for WithoutMark<R> {
    ghost use Rattle.program_input.specs.PlainReading.{still_unmarked};

    ghost remaining = { λ text. still_unmarked text (R.remaining text.below) };

    fn read(&mut self, buf: &mut [u8]) -> io::Result<usize> {
        self.begin()?;
        if self.front.is_empty() {
            return self.below.read(buf);
        }
        if buf.is_empty() {
            return Ok(0);
        }
        Ok(self.hand_first(buf))
    }
}
