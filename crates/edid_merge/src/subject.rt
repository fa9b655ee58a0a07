//! What a data block tells of.
ghost use Rattle.std.specs.Prelude.{◌≡◌};
ghost use Rattle.edid_merge.specs.Subjects.{extended_subject, is_forum, is_of, subject_number, subject_of, tag_subject, vendor_subject};

use edid_cta::{BlockKind, DataBlock, has_identifier};
use text_core::byte_at;

/// What a data block tells of: a row of the table.
#[derive(Clone, Copy, Debug, PartialEq, Eq)]
pub enum Subject {
    Video,
    Audio,
    Speakers,
    Hdmi,
    Forum,
    Capability,
    Colorimetry,
    Hdr,
    MakerVideo,
    MakerAudio,
    /// The HDMI Forum's override of the count of extensions, which is of the EDID that it stands in alone.
    Override,
    Other,
}

impl Subject {
    /// Its number, by which subjects are compared.
    pub fn number(self) -> u8
        ensures { result ≡ subject_number self }
    {
        match self {
            Subject::Video => 0,
            Subject::Audio => 1,
            Subject::Speakers => 2,
            Subject::Hdmi => 3,
            Subject::Forum => 4,
            Subject::Capability => 5,
            Subject::Colorimetry => 6,
            Subject::Hdr => 7,
            Subject::MakerVideo => 8,
            Subject::MakerAudio => 9,
            Subject::Override => 10,
            Subject::Other => 11,
        }
    }
}

// What an extended block with this tag tells of.
fn extended_subject(tag: u8) -> Subject
    ensures { result ≡ extended_subject tag }
{
    match tag {
        0 => Subject::Capability,
        1 | 7 => Subject::MakerVideo,
        5 => Subject::Colorimetry,
        6 => Subject::Hdr,
        14 | 15 => Subject::Video,
        17 | 18 | 19 | 20 => Subject::MakerAudio,
        0x78 => Subject::Override,
        _ => Subject::Other,
    }
}

// Whether the payload of a vendor block is the HDMI Forum's.
fn is_forum(payload: &[u8]) -> bool
    ensures { result ≡ is_forum payload.now }
{
    matches!(payload, [0xd8, 0x5d, 0xc4, ..])
}

// What a vendor block tells of.
fn vendor_subject(payload: &[u8]) -> Subject
    ensures { result ≡ vendor_subject payload.now }
{
    if has_identifier(payload) {
        Subject::Hdmi
    } else if is_forum(payload) {
        Subject::Forum
    } else {
        Subject::Other
    }
}

// What an extended block tells of. One without a tag tells of nothing known.
fn tag_subject(payload: &[u8]) -> Subject
    ensures { result ≡ tag_subject payload.now }
{
    if payload.is_empty() {
        Subject::Other
    } else {
        extended_subject(byte_at(payload, 0))
    }
}

/// What a data block tells of.
pub fn subject_of(block: &DataBlock) -> Subject
    ensures { result ≡ subject_of block.now }
{
    match block.kind {
        BlockKind::Video => Subject::Video,
        BlockKind::Audio => Subject::Audio,
        BlockKind::Speakers => Subject::Speakers,
        BlockKind::Vendor => vendor_subject(block.payload.as_slice()),
        BlockKind::Extended => tag_subject(block.payload.as_slice()),
        BlockKind::Tag0 | BlockKind::Tag5 | BlockKind::Tag6 => Subject::Other,
    }
}

/// Whether a data block tells of a subject.
pub fn is_of(subject: Subject, block: &DataBlock) -> bool
    ensures { result ≡ is_of subject block.now }
{
    subject_of(block).number() == subject.number()
}
