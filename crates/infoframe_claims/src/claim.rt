//! What an InfoFrame says that a display has to offer.

/// What is said of a stream of audio, by the codes of an Audio InfoFrame; 0 says nothing.
#[derive(Clone, Copy)]
pub struct Sound {
    /// CT
    pub coding: u8,
    /// CXT
    pub extension: u8,
    /// CC: the channels less one.
    pub channels: u8,
    /// SF
    pub rate: u8,
    /// SS
    pub size: u8,
}

/// A bit of a data block.
#[derive(Clone, Copy)]
pub enum Feature {
    XvYcc601,
    XvYcc709,
    SYcc601,
    OpYcc601,
    OpRgb,
    Bt2020CYcc,
    Bt2020Ycc,
    Bt2020Rgb,
    /// SMPTE ST 2113
    St2113,
    ICtCp,
    SRgb,
    DefaultRgb,
    /// QS: the range of RGB can be chosen.
    RgbRange,
    /// QY: the range of YCbCr can be chosen.
    YccRange,
    GammaSdr,
    GammaHdr,
    /// SMPTE ST 2084
    St2084,
    /// Hybrid log-gamma
    Hlg,
    /// Static metadata of type 1
    MetadataOne,
    Allm,
    /// CCBPCI: the depth of the content's colours is told.
    ContentDepth,
}

/// What an InfoFrame says that a display has to offer.
#[derive(Clone, Copy)]
pub enum Claim {
    /// Nothing more than each display offers.
    Nothing,
    /// A video code, in RGB, YCbCr 4:4:4 or YCbCr 4:2:2.
    Code(u8),
    /// A video code in YCbCr 4:2:0.
    Code420(u8),
    /// YCbCr 4:2:0 of no video code.
    Chroma420,
    Chroma422,
    Chroma444,
    Feature(Feature),
    /// The coding of audio.
    Coding(Sound),
    /// So many channels of it.
    Channels(Sound),
    /// These at a sampling frequency.
    Rate(Sound),
    /// These in samples of a size.
    Size(Sound),
    /// A code of HDMI's own.
    HdmiCode(u8),
    /// A structure of 3D.
    Stereo(u8),
}
