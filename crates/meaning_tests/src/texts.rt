//! The text of an EDID with what it means, over writers that take few bytes and that fail.
use conversion_calls::EdidToTextError;
use conversion_notes::edid_to_meaning;
use std::io::{self, ErrorKind, Write};
use std::process::Abort;
use text_core::Writes;

/// The bytes of a television's EDID, in hex.
const EDID: &str =
    "00ffffffffffff004c2d0201010000000a15010380341d780eee91a3544c99260f505420000001010101010101010101010101010101023a801871382d40582c450008222100001e011d007251d01e206e28550008222100001e000000fc004c4f554e47452054560a202020000000fd00173d0f440f000a20202020202001d402031af14490040301230907078301000065030c000000e2004f0000000000000000000000000000000000000000000000000000000000000000000000000000000000000000000000000000000000000000000000000000000000000000000000000000000000000000000000000000000000000000000000000000000000b1";

/// Its text, with what each line means.
const MEANING: &str = "\
edid 1.3
maker SAM
product 258
serial 1
made 10 2011
  week 10 of 2011
input 80
  digital
size 52 29
  52 x 29 cm
gamma 120
  2.20
features 0e
  RGB colour, sRGB by default, first timing preferred
chroma 655 338 307 614 154 61 320 337
  red 0.6396 0.3301, green 0.2998 0.5996, blue 0.1504 0.0596, white 0.3125 0.3291
established 200000
  640x480 at 60 Hz
standard unused
standard unused
standard unused
standard unused
standard unused
standard unused
standard unused
standard unused
timing 14850 1920 280 1080 45 88 44 4 5 520 290 0 0 1e
  1920x1080 at 60.000 Hz, 67.500 kHz, 148.50 MHz, +h +v, 520 x 290 mm
timing 7425 1280 370 720 30 110 40 5 5 520 290 0 0 1e
  1280x720 at 60.000 Hz, 45.000 kHz, 74.25 MHz, +h +v, 520 x 290 mm
name \"LOUNGE TV\"
range 00173d0f440f000a202020202020
  23 to 61 Hz, 15 to 68 kHz, up to 150 MHz, no formula
cta f1
  underscans, basic audio, YCbCr 4:4:4, YCbCr 4:2:2, 1 native timing
video 90040301
  16 native: 1920x1080 at 60 Hz 16:9
  4: 1280x720 at 60 Hz 16:9
  3: 720x480 at 60 Hz 16:9
  1: 640x480 at 60 Hz 4:3
audio 090707
  linear PCM, 2 channels, 32 44.1 48 kHz, 16 20 24 bits
speakers 010000
  FL FR
hdmi 0.0.0.0 -
extended 004f
  video capability
  RGB range selectable, IT formats over- or underscanned, CE formats over- or underscanned
tail -
";

/// A writer that takes at most so many bytes a call, and none where it has no room left.
#[derive(Drop)]
struct Narrow {
    bytes: Vec<u8>,
    most: usize,
    room: usize,
}

impl Write for Narrow {
    fn write(&mut self, bytes: &[u8]) -> io::Result<usize> {
        let left = self.room.saturating_sub(self.bytes.len());
        if left == 0 {
            return Err(io::Error::from(ErrorKind::Other));
        }
        let taken = bytes.get(..left.min(self.most)).unwrap_or(bytes);
        self.bytes.extend_from_slice(taken)?;
        Ok(taken.len())
    }

    fn flush(&mut self) -> io::Result<()> {
        Ok(())
    }
}

fn make_narrow(rt: &impl AllocGlobal, most: usize, room: usize) -> Narrow {
    Narrow {
        bytes: Vec::new(rt.alloc()),
        most,
        room,
    }
}

/// What is written of the EDID, and why no more was.
fn reported(
    rt: &(impl Abort + AllocGlobal),
    digits: &str,
    writer: &mut Narrow,
) -> Result<(), EdidToTextError> {
    let bytes = hex::decode(rt.alloc(), digits).expect(rt, "hex digits");
    let mut out = Writes::new(writer);
    edid_to_meaning(&bytes, &mut out)
}

#[test]
fn whole_text(rt: HostRuntime) {
    for most in [1, 7, 10_000] {
        let mut writer = make_narrow(&rt, most, 10_000);
        assert!(rt; reported(&rt, EDID, &mut writer).is_ok(), "an edid");
        assert!(rt; writer.bytes.as_slice() == MEANING.as_bytes(), "the text");
    }
}

#[test]
fn fronts(rt: HostRuntime) {
    for part in 0..12 {
        let room = part * 100;
        let mut writer = make_narrow(&rt, 64, room);
        let outcome = reported(&rt, EDID, &mut writer);
        assert!(rt;
            outcome == Err(EdidToTextError::Write(room as u128)),
            "a fault"
        );
        assert!(rt;
            Some(writer.bytes.as_slice()) == MEANING.as_bytes().get(..room),
            "the front"
        );
    }
}

#[test]
fn no_edid(rt: HostRuntime) {
    let mut writer = make_narrow(&rt, 64, 10_000);
    let outcome = reported(&rt, "00ff", &mut writer);
    assert!(rt; matches!(outcome, Err(EdidToTextError::Edid(_))), "refused");
    assert!(rt; writer.bytes.is_empty(), "nothing written");
}
