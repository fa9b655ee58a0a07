//! A data block: its kind, and up to 31 bytes.
ghost use Rattle.std.specs.Prelude.{◌≡◌, ◌<◌, ◌≤◌, ◌/◌, length, IsTrue};
ghost use Rattle.edid_base.specs.Bytes.{are_bytes};

use crate::hdmi::has_identifier;
use arrayvec::ArrayVec;
use edid_base::append;

/// What a data block is, by the tag in the top three bits of its first byte (CTA-861-D, 7.5, the data block
/// collection): an audio data block, a video data block, a vendor specific data block (VSDB), a speaker allocation data
/// block, or one with an extended tag. Tag 5 is VESA's display transfer characteristic; tags 0 and 6 are reserved.
#[derive(Clone, Copy, Debug, PartialEq, Eq)]
pub enum BlockKind {
    Tag0,
    Audio,
    Video,
    Vendor,
    Speakers,
    Tag5,
    Tag6,
    Extended,
}

impl BlockKind {
    ghost use Rattle.edid_cta.specs.Block.{kind_number};

    /// The kind that a block's first byte names.
    pub fn of_byte(byte: u8) -> BlockKind
        ensures { kind_number result ≡ byte / 32 }
    {
        match byte / 32 {
            0 => BlockKind::Tag0,
            1 => BlockKind::Audio,
            2 => BlockKind::Video,
            3 => BlockKind::Vendor,
            4 => BlockKind::Speakers,
            5 => BlockKind::Tag5,
            6 => BlockKind::Tag6,
            _ => BlockKind::Extended,
        }
    }

    /// Its tag, 0 to 7.
    pub fn number(self) -> u8
        ensures number { result ≡ kind_number self }
        ensures small { result < 8 }
    {
        match self {
            BlockKind::Tag0 => 0,
            BlockKind::Audio => 1,
            BlockKind::Video => 2,
            BlockKind::Vendor => 3,
            BlockKind::Speakers => 4,
            BlockKind::Tag5 => 5,
            BlockKind::Tag6 => 6,
            BlockKind::Extended => 7,
        }
    }
}

/// A data block: its kind and its payload, without the byte of tag and length.
#[derive(Drop)]
pub struct DataBlock {
    pub kind: BlockKind,
    pub payload: ArrayVec<u8, 31>,
    ghost short: { length payload.items < 32 },
    ghost bytes_fit: { IsTrue (are_bytes payload.items) },
}

impl Default for DataBlock {
    fn default() -> Self {
        DataBlock {
            kind: BlockKind::Tag0,
            payload: ArrayVec::new(),
        }
    }
}

impl DataBlock {
    ghost use Rattle.edid_cta.specs.Block.{block_bytes};
    ghost use Rattle.edid_cta.specs.Audio.{is_audio};
    ghost use Rattle.edid_cta.specs.Hdmi.{is_hdmi};

    /// Whether it is an HDMI block (HDMI VSDB): a vendor block of five bytes and more that begins 03 0C 00
    /// (HDMI 1.4, section 8.3.2).
    pub fn is_hdmi(&self) -> bool
        ensures { result ≡ is_hdmi self.now }
    {
        self.kind == BlockKind::Vendor && has_identifier(self.payload.as_slice())
    }

    /// Whether it is an audio block.
    pub fn is_audio(&self) -> bool
        ensures { result ≡ is_audio self.now }
    {
        matches!(self.kind, BlockKind::Audio)
    }

    /// The same data block.
    pub fn copy(&self) -> DataBlock
        ensures { result ≡ self.now }
    {
        let mut payload = ArrayVec::new();
        append(&mut payload, self.payload.as_slice());
        DataBlock {
            kind: self.kind,
            payload,
        }
    }

    /// Its bytes.
    pub fn write(&self) -> ArrayVec<u8, 32>
        ensures { result.items ≡ block_bytes self.now }
    {
        let mut bytes = ArrayVec::new();
        bytes.push(self.kind.number() * 32 + self.payload.len() as u8);
        append(&mut bytes, self.payload.as_slice());
        bytes
    }
}

/// The same data blocks.
pub(crate) fn copies_of(blocks: &[DataBlock]) -> ArrayVec<DataBlock, 123>
    requires { length blocks.now ≤ 123 }
    ensures { result.items ≡ blocks.now }
{
    let mut copies = ArrayVec::new();
    for block in blocks {
        copies.push(block.copy());
    }
    copies
}
