//! The bytes of an ELD.
ghost use Rattle.std.specs.Prelude.{◌≡◌, ◌≤◌, ◌-◌, ◌*◌, length, replicate};
ghost use Rattle.edid_eld.specs.Eld.{audio_byte, block_len, block_units, eld_bytes, header_bytes, name_byte, parts_of};

use crate::codes::bit;
use crate::eld::Eld;
use arrayvec::ArrayVec;
use edid_base::append;

/// The bytes of the baseline block before the name.
const FIXED: usize = 16;
/// The bytes in a unit of the baseline block's length.
const UNIT: usize = 4;
/// The bytes of a short audio descriptor.
const DESCRIPTOR: usize = 3;
/// The longest padding.
const ZEROS: &[u8] = &[0, 0, 0];

impl Eld {
    /// How long the baseline block is without padding.
    fn block_len(&self) -> usize
        ensures value { result ≡ block_len (parts_of self.now) }
        ensures short { result ≤ 77 }
    {
        FIXED + self.name.len() + self.audio.len()
    }

    fn header(&self) -> [u8; 4]
        ensures { result ≡ header_bytes (parts_of self.now) }
    {
        let units = (self.block_len() + UNIT - 1) / UNIT;
        [self.version.number() * 8, 0, units as u8, 0]
    }

    fn name_byte(&self) -> u8
        ensures { result ≡ name_byte (parts_of self.now) }
    {
        self.cta_version * 32 + self.name.len() as u8
    }

    fn audio_byte(&self) -> u8
        ensures { result ≡ audio_byte (parts_of self.now) }
    {
        let count = (self.audio.len() / DESCRIPTOR) as u8;
        count * 16 + self.connection.number() * 4 + bit(self.ai) * 2 + bit(self.hdcp)
    }

    /// Zeros that make the baseline block a whole number of units.
    #[tactic(auto, using(crate::proofs::Zeros::zeros_taken))]
    fn padding(&self) -> &'static [u8]
        ensures value { result.now ≡ replicate (4 * block_units (parts_of self.now) - block_len (parts_of self.now)) 0 }
        ensures short { length result.now ≤ 3 }
    {
        let len = self.block_len();
        &ZEROS[..(len + UNIT - 1) / UNIT * UNIT - len]
    }

    /// Its bytes.
    pub fn write(&self) -> ArrayVec<u8, 84>
        ensures { result.items ≡ eld_bytes (parts_of self.now) }
    {
        let mut bytes = ArrayVec::new();
        append(&mut bytes, &self.header());
        append(
            &mut bytes,
            &[
                self.name_byte(),
                self.audio_byte(),
                self.delay,
                self.speakers,
            ],
        );
        append(&mut bytes, &self.port);
        append(&mut bytes, &self.maker);
        append(
            &mut bytes,
            &[(self.product % 256) as u8, (self.product / 256) as u8],
        );
        append(&mut bytes, self.name.as_slice());
        append(&mut bytes, self.audio.as_slice());
        append(&mut bytes, self.padding());
        bytes
    }
}
