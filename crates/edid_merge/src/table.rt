//! What of a display's EDID a receiver passes on, and what it answers with of its own.

/// Whose blocks of a kind are passed on.
#[derive(Clone, Copy, Debug, PartialEq, Eq)]
pub enum Whose {
    /// The display's.
    Keep,
    /// The receiver's own.
    Own,
}

/// What is passed on of a block of bits.
#[derive(Clone, Copy, Debug, PartialEq, Eq)]
pub enum Bits {
    /// The display's blocks.
    Keep,
    /// The receiver's own.
    Own,
    /// One block, with the bits that both have.
    And,
}

/// What is passed on of a block of bits and numbers.
#[derive(Clone, Copy, Debug, PartialEq, Eq)]
pub enum Numbers {
    /// The display's blocks.
    Keep,
    /// The receiver's own.
    Own,
    /// One block, with the bits that both have and the lesser of two numbers.
    Least,
}

/// Whether formats that the link does not carry are passed on.
#[derive(Clone, Copy, Debug, PartialEq, Eq)]
pub enum Formats {
    /// All of them.
    All,
    /// Those that it carries.
    Carried,
    /// Those that it carries, where the receiver has no block of the HDMI Forum; else all.
    ByForum,
}

/// A row for each kind of block.
#[derive(Clone, Copy, Debug, PartialEq, Eq)]
pub struct Table {
    /// The maker, the product, its serial number and date, and the descriptors of its name and serial number.
    pub product: Whose,
    /// Video blocks, and those of formats in 4:2:0, one of which goes by the places of the codes in the others.
    pub video: Whose,
    /// What of them stays, and of timings.
    pub formats: Formats,
    pub audio: Whose,
    pub speakers: Bits,
    /// The HDMI block.
    pub hdmi: Numbers,
    /// The HDMI Forum's block.
    pub forum: Numbers,
    /// The video capability block.
    pub capability: Bits,
    pub colorimetry: Bits,
    /// Static metadata of high dynamic range.
    pub hdr: Bits,
    /// Video blocks of makers, as that of Dolby Vision, and dynamic metadata.
    pub maker_video: Whose,
    /// Audio blocks of makers, and the other extended blocks of audio.
    pub maker_audio: Whose,
    /// Blocks of any other kind.
    pub other: Whose,
}

impl Table {
    /// What receivers do that decode sound and pass on pictures: their name and sound are their own, and of clocks and bits it is
    /// what both have.
    pub const RECEIVER: Table = Table {
        product: Whose::Own,
        video: Whose::Keep,
        formats: Formats::ByForum,
        audio: Whose::Own,
        speakers: Bits::Own,
        hdmi: Numbers::Least,
        forum: Numbers::Least,
        capability: Bits::Keep,
        colorimetry: Bits::And,
        hdr: Bits::And,
        maker_video: Whose::Keep,
        maker_audio: Whose::Own,
        other: Whose::Keep,
    };
}
