//! Writers that take one byte a call, and that fail: what a frame's text has then.
use arrayvec::ArrayVec;
use line_frames::Frame;
use message_text::write_frame;
use std::io::{self, ErrorKind, Write};
use std::process::Abort;
use text_core::{WriteFault, Writes};

const PLAY: [u8; 3] = [0x40, 0x41, 0x24];

const PLAY_TEXT: &[u8] = b"4>0 play forward";

/// A writer that takes one byte at a time, and fails once it holds `room`.
#[derive(Drop)]
struct Stingy {
    held: ArrayVec<u8, 32>,
    room: usize,
}

impl Write for Stingy {
    fn write(&mut self, bytes: &[u8]) -> io::Result<usize> {
        if self.held.len() >= self.room {
            return Err(io::Error::from(ErrorKind::Other));
        }
        match bytes.first() {
            None => Ok(0),
            Some(byte) => {
                let _ = self.held.try_push(*byte);
                Ok(1)
            }
        }
    }

    fn flush(&mut self) -> io::Result<()> {
        Ok(())
    }
}

/// A writer with room for the whole text is told of no fault, one with less is told how many bytes were written.
fn is_right(reported: Result<(), WriteFault>, room: usize) -> bool {
    match reported {
        Ok(()) => room == PLAY_TEXT.len(),
        Err(fault) => room < PLAY_TEXT.len() && fault.count == room as u128,
    }
}

/// A writer that has so much room holds so much of the text.
fn is_cut_at(room: usize) -> bool {
    let Ok(frame) = Frame::new(&PLAY) else {
        return false;
    };
    let mut out = Stingy {
        held: ArrayVec::new(),
        room,
    };
    let reported = write_frame(&frame, &mut Writes::new(&mut out));
    is_right(reported, room) && PLAY_TEXT.get(..room) == Some(out.held.as_slice())
}

#[test]
fn a_frame_is_cut_at_each_byte(rt: HostRuntime) {
    for room in 0..=PLAY_TEXT.len() {
        assert!(rt; is_cut_at(room), "{room}");
    }
}
