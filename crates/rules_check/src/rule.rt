//! Rules, and what is found.
use rules_contents::Slip;

/// A rule for an EDID.
#[derive(Clone, Copy, Debug, PartialEq, Eq)]
pub enum Rule {
    /// The features say that the first timing is the preferred one.
    FirstTimingPreferred,
    /// A preferred timing stands first.
    PreferredTiming,
    /// A descriptor has the product's name.
    ProductName,
    /// A descriptor has the limits of ranges.
    RangeLimits,
    /// A display of some frequencies has limits alone, and no formula for timings.
    LimitsAlone,
    /// The greatest rate of range limits is not below the least.
    LimitsOrder,
    /// The week is one of the revision.
    Week,
    /// The features say sRGB where the chromaticities are its own, and only there.
    Srgb,
    /// No descriptor is all zeros.
    NoEmptyDescriptor,
    /// A standard timing that is unused is 01 01.
    UnusedStandard,
    /// Several extensions come after a map of them.
    BlockMap,
    /// An EDID with an HDMI block is of revision 3.
    HdmiRevision,
    /// A serial number is told once.
    OneSerial,
    /// 640x480 at 60 Hz is there.
    Vga,
    /// A video code is listed once.
    VideoCodeOnce,
    /// There are no fewer detailed timings than native ones.
    NativeCount,
    /// Native pictures are of one size.
    NativeSize,
    /// Formats of computers are shown whole.
    Underscan,
    /// Sound is told where there is basic audio.
    BasicAudio,
    /// More than two channels have speakers, told in three bytes.
    Speakers,
    /// Zeros follow the timings of an extension.
    Padding,
    /// A video capability data block is there.
    VideoCapability,
    /// The range of RGB values can be chosen.
    RgbRange,
    /// The clock of an HDMI block is at most 340 MHz.
    TmdsClock,
    /// The physical address is that of a place in a tree, and in a port not that of the root.
    Address,
    /// There is one HDMI block.
    OneHdmi,
    /// A format of HDMI's own codes is listed by its video code too.
    HdmiVideoCode,
    /// An HDMI Forum block comes after an HDMI block.
    ForumAfterHdmi,
    /// A CTA block of revision 3 has the form of one.
    CtaForm,
    /// A CTA block is of revision 3.
    CtaRevision,
    /// The tag of an extension is a known one.
    ExtensionTag,
    /// No data block has this slip.
    Block(Slip),
    /// A data block of a sort that stands once stands once.
    BlockOnce,
    /// The HDMI Forum's count of extensions stands first.
    OverrideFirst,
    /// The HDMI Forum's count of extensions is not below that of the base block.
    OverrideCount,
    /// A map of 4:2:0 formats marks no place after the last video code.
    MapWithinCodes,
    /// A format in 4:2:0 is fast enough for it.
    FastYcc420,
    /// The range of YCbCr values can be chosen where there is YCbCr.
    YccRange,
    /// Video codes, established, standard and DisplayID timings are within the range limits of revision 3.
    FormatsWithinLimits,
    /// Video codes, established, standard and DisplayID timings are within the range limits of revision 4.
    FormatsNearLimits,
    /// The link carries the formats of video codes and of DisplayID.
    FormatsCarried,
    /// A name, a text and a serial number have the form of a text.
    TextForm,
    /// The week is one of a year.
    WeekKnown,
    /// The year is one in which displays are made.
    YearKnown,
    /// A display of sRGB has its gamma.
    SrgbGamma,
    /// A digital input has no reserved depth and no reserved interface.
    InputKnown,
    /// The section of a DisplayID extension has a right checksum.
    SectionSum,
    /// No descriptor has a reserved value.
    DescriptorKnown,
}

/// A rule for a detailed timing.
#[derive(Clone, Copy, Debug, PartialEq, Eq)]
pub enum TimingRule {
    /// The pixel clock is 10 MHz or more.
    Clock,
    /// No field is 0 that a picture needs.
    Fields,
    /// Something is left of the horizontal blanking after the sync.
    HorizontalBackPorch,
    /// Something is left of the vertical blanking after the sync.
    VerticalBackPorch,
    /// The image has a size where the display has one.
    SizeThere,
    /// The image is as large as the display.
    SizeFits,
    /// Its rates are within the range limits of revision 3.
    WithinLimits,
    /// Its rates are within the range limits of revision 4.
    NearLimits,
    /// The link carries it.
    Carried,
}

/// Whose EDID is looked at.
#[derive(Clone, Copy, Debug, PartialEq, Eq)]
pub enum Origin {
    /// A display's own, which has the address 0.0.0.0.
    Display,
    /// The one that a port passes on, which has the address of the device in it.
    Port,
}

/// How much a broken rule matters.
#[derive(Clone, Copy, Debug, PartialEq, Eq)]
pub enum Severity {
    /// A standard forbids it, or a display does not work with it.
    Fail,
    /// It may be meant.
    Warn,
}

/// A rule that is broken.
#[derive(Clone, Copy, Debug, PartialEq, Eq)]
pub enum Finding {
    Edid(Rule),
    /// By the detailed timing with this number, from 1.
    Timing(u8, TimingRule),
}

/// A rule that fills the free places of an array.
impl Default for Finding {
    fn default() -> Self {
        Finding::Edid(Rule::ProductName)
    }
}
