//! What each rule asks, with the clause of the standard that it is from.
use rules_check::{Finding, Rule, TimingRule};
use rules_contents::Slip;

/// What a rule for the base block asks.
fn asked_of_base(rule: Rule) -> Option<&'static str> {
    match rule {
        Rule::FirstTimingPreferred => Some(
            "in 1.3 bit 1 of the features is set: the first detailed timing is the preferred one (E-EDID A, 3.6.4)",
        ),
        Rule::PreferredTiming => Some(
            "the first descriptor is a detailed timing, the preferred one (E-EDID A, 3.10.1)",
        ),
        Rule::ProductName => {
            Some("a descriptor with tag fc has the product's name (E-EDID A, 3.10.3)")
        }
        Rule::RangeLimits => Some(
            "a descriptor with tag fd has the range limits, in 1.4 where bit 0 of the features is set (E-EDID A, 3.10.3; 1.4, 3.10.3.3)",
        ),
        Rule::LimitsAlone => Some(
            "in 1.4 range limits name GTF or CVT only where bit 0 of the features is set (E-EDID 1.4, 3.10.3.3)",
        ),
        Rule::LimitsOrder => Some(
            "the greatest rate of range limits is not below the least (E-EDID A, 3.10.3.3)",
        ),
        Rule::Week => Some(
            "in 1.3 the week is at most 53; 54, and 255 for a model year, came with 1.4 (E-EDID A, 3.4.4)",
        ),
        Rule::Srgb => Some(
            "bit 2 of the features is set exactly where the chromaticities are those of sRGB (E-EDID A, 3.6.4)",
        ),
        Rule::NoEmptyDescriptor => {
            Some("a descriptor that is not used has tag 10 (E-EDID A, 3.10.3)")
        }
        Rule::UnusedStandard => Some("a standard timing that is not used is 01 01 (E-EDID A, 3.9)"),
        Rule::BlockMap => {
            Some(
                "in 1.3 a block map comes before two and more extensions (E-EDID A, 4.1), but where the first one begins with the HDMI Forum's override of their count (HDMI 2.1, 10.3.7)",
            )
        }
        Rule::OneSerial => {
            Some("where a descriptor has the serial number as a text, the four bytes of it are 0")
        }
        _ => None,
    }
}

/// What a rule for extensions asks.
fn asked_of_extensions(rule: Rule) -> &'static str {
    match rule {
        Rule::HdmiRevision => "an EDID with an HDMI block is of revision 1.3 (HDMI 1.4, 8.3)",
        Rule::Vga => {
            "640x480 at 60 Hz is there: bit 5 of the established timings, or video code 1 (CTA-861-D, 3.1)"
        }
        Rule::VideoCodeOnce => "a video code is listed once (CTA-861-D, 7.5.1)",
        Rule::NativeCount => {
            "the low four bits of a CTA block's flags are at most the detailed timings (CTA-861-D, 7.5)"
        }
        Rule::NativeSize => {
            "native timings and video codes are of one size, those of two fields by themselves (native: CTA-861-D, 7.5, 7.5.1)"
        }
        Rule::Underscan => {
            "bit 7 of a CTA block's flags is set: formats of computers are shown whole (CTA-861-D, 7.5)"
        }
        Rule::BasicAudio => {
            "bit 6 of a CTA block's flags is set where it has audio or speakers, also of extended tags 17 to 20 (CTA-861-D, 7.5)"
        }
        Rule::Speakers => {
            "more than two channels of linear PCM come with a speaker block, of three bytes (CTA-861-D, 7.5.3)"
        }
        Rule::Padding => {
            "whole dummy descriptors and zeros follow the timings of a CTA block (CTA-861-D, 7.5; E-EDID A, 3.10.3)"
        }
        Rule::VideoCapability => {
            "an EDID with a CTA block has a video capability block (CTA-861-D, 7.5.6)"
        }
        Rule::RgbRange => {
            "bit 6 of a video capability block is set: the range of RGB values can be chosen (CTA-861-D, 7.5.6)"
        }
        Rule::TmdsClock => {
            "the clock in an HDMI block is at most 340 MHz, a byte of 68 (HDMI 1.4, 8.3.2)"
        }
        Rule::Address => {
            "an address has no port after a 0 and is not f.f.f.f, nor 0.0.0.0 in a port (HDMI 1.4, 8.7.2, 8.7.3)"
        }
        Rule::OneHdmi => "there is one HDMI block: of several the address of the first is read",
        Rule::HdmiVideoCode => {
            "a format that an HDMI block lists is listed by its video code too: 1 to 4 are 95, 94, 93 and 98 (HDMI 1.4, 8.2.3)"
        }
        Rule::ForumAfterHdmi => "an HDMI Forum block comes after the HDMI block",
        Rule::CtaForm => {
            "the data blocks of a CTA block end where its third byte says, and its timings within it (CTA-861-D, 7.5)"
        }
        Rule::CtaRevision => {
            "a CTA block is of revision 3, the only one with data blocks (CTA-861-D, 7.5)"
        }
        Rule::ExtensionTag => {
            "the first byte of an extension is 02, 10, 40, 50, 60, 70, f0 or ff (E-EDID A, 2.2.1)"
        }
        Rule::Block(Slip::Length) => {
            "an audio block has three bytes a format; after its tag a video capability block has one at least, a colorimetry and an HDR block two (CTA-861-G, 7.5.2, 7.5.5, 7.5.6, 7.5.13)"
        }
        Rule::BlockOnce => {
            "a CTA block has one block at most of video capability, colorimetry, static HDR, 4:2:0 map, speakers and HDMI Forum each (CTA-861-G, 7.5)"
        }
        Rule::OverrideFirst => {
            "the HDMI Forum's override of the count of extensions is the first data block of the first extension (HDMI 2.1, 10.3.7)"
        }
        Rule::OverrideCount => {
            "the HDMI Forum's override of the count of extensions is not below byte 126, and not 0 (HDMI 2.1, 10.3.7)"
        }
        Rule::Block(Slip::Tag) => {
            "no data block has tag 0, which is reserved (CTA-861-G, table 55)"
        }
        Rule::Block(Slip::AudioFormat) => {
            "bits 6 to 3 of the first byte of an audio format are above 0 (CTA-861-G, table 34)"
        }
        Rule::Block(Slip::HdrBits) => {
            "bits 7 to 4 of the first byte of an HDR block are clear, and bits 7 to 1 of the second (CTA-861-G, 7.5.13)"
        }
        Rule::Block(Slip::VideoCode) => {
            "a video code is at most 219, the last one of a format (CTA-861-G, table 3)"
        }
        Rule::Block(Slip::HdmiCode) => { "a code of HDMI's own is 1, 2, 3 or 4 (HDMI 1.4, 8.2.3)" }
        Rule::Block(Slip::ForumClock) => {
            "the clock in an HDMI Forum block is 0, or above 340 MHz and at most 600 MHz: a byte of 69 to 120 (HDMI 2.1, 10.3.2)"
        }
        Rule::Block(Slip::ForumScdc) => {
            "a fixed rate link comes with SCDC, bit 7 of byte 2 of an HDMI Forum block (HDMI 2.1, 10.3.2)"
        }
        Rule::Block(Slip::ForumRates) => {
            "the least rate of variable refresh is at most 48 Hz; the greatest is 0, or 100 Hz and more with a least one (HDMI 2.1, 10.3.2)"
        }
        Rule::MapWithinCodes => {
            "the 4:2:0 map has a bit for each video code at most (CTA-861-G, 7.5.11)"
        }
        Rule::FastYcc420 => {
            "a format in 4:2:0 has a pixel clock of 590 MHz at least (HDMI 2.1, 7.1)"
        }
        Rule::YccRange => {
            "bit 7 of a video capability block is set where the flags have YCbCr: the range of its values can be chosen (CTA-861-G, 7.5.6)"
        }
        Rule::Block(Slip::Latency) => {
            "the audio latency of an HDMI block is at most 20 ms above the video latency (HDMI 1.4, 8.3.2)"
        }
        Rule::FormatsWithinLimits => {
            "video codes, established, standard and DisplayID timings are within the range limits (E-EDID A, 3.10.3.3)"
        }
        Rule::FormatsNearLimits => {
            "video codes, established, standard and DisplayID timings are within the range limits; in 1.4 they may be outside (E-EDID 1.4, 3.10.3.3)"
        }
        Rule::FormatsCarried => {
            "the link carries each video code and DisplayID timing: its clock, halved in 4:2:0 alone, is at most that of the HDMI and HDMI Forum blocks, 165 MHz where none is given, or it fits their fixed rate link (HDMI 1.4, 8.3.2; HDMI 2.1, 10.3.2)"
        }
        Rule::TextForm => {
            "a name, a text and a serial number are printable characters, with a line feed and spaces after fewer than 13 (E-EDID A, 3.10.3)"
        }
        Rule::WeekKnown => { "a week is at most 54, or 255 (E-EDID 1.4, 3.4.4)" }
        Rule::YearKnown => { "a display is made before 2051" }
        Rule::SrgbGamma => {
            "where bit 2 of the features says sRGB, the gamma is 2.2, a byte of 120 (E-EDID A, 3.6.3, 3.6.4)"
        }
        Rule::InputKnown => {
            "of a digital input bits 6 to 1 are clear in 1.3; in 1.4 bits 6 to 4 are at most 6, and bits 3 to 0 at most 5 (E-EDID A, 3.6.1; 1.4, 3.6.1)"
        }
        Rule::Block(Slip::Reserved) => {
            "no field of a data block has a value that its standard reserves (CTA-861-H, 7.5; HDMI 1.4, 8.3.2; HDMI 2.1, 10.3)"
        }
        Rule::Block(Slip::Bytes) => {
            "a data block has all bytes of its fields, and no others (CTA-861-H, 7.5; HDMI 1.4, 8.3.2; HDMI 2.1, 10.3)"
        }
        Rule::SectionSum => {
            "the bytes of a DisplayID section after the extension's tag, with its checksum, have the sum 0 modulo 256, and stand within the extension (DisplayID 1.3, 3)"
        }
        Rule::DescriptorKnown => {
            "no field of a descriptor has a value that the standard reserves (E-EDID A, 3.10)"
        }
        _ => "",
    }
}

/// What a rule for detailed timings asks.
fn asked_of_timing(rule: TimingRule) -> &'static str {
    match rule {
        TimingRule::Clock => "the pixel clock is at least 10 MHz",
        TimingRule::Fields => {
            "picture, blanking, sync offset and sync width are above 0 (E-EDID A, 3.10.2)"
        }
        TimingRule::HorizontalBackPorch => {
            "some of the horizontal blanking is left after sync offset, sync width and both borders (E-EDID A, 3.10.2)"
        }
        TimingRule::VerticalBackPorch => {
            "some of the vertical blanking is left after sync offset, sync width and both borders (E-EDID A, 3.10.2)"
        }
        TimingRule::SizeThere => {
            "the image has a size where the display has one (E-EDID A, 3.10.2, 3.6.2)"
        }
        TimingRule::SizeFits => {
            "the image is at most 9 mm larger than the display, and not more than 9 mm smaller both ways (E-EDID A, 3.10.2, 3.6.2)"
        }
        TimingRule::WithinLimits => {
            "the field rate, the line rate and the pixel clock are within the range limits (E-EDID A, 3.10.3.3)"
        }
        TimingRule::NearLimits => {
            "the field rate, the line rate and the pixel clock are within the range limits; in 1.4 a timing may be outside (E-EDID 1.4, 3.10.3.3)"
        }
        TimingRule::Carried => {
            "the link carries the timing: its clock is at most that of the HDMI and HDMI Forum blocks, 165 MHz where none is given, or it fits their fixed rate link (HDMI 1.4, 8.3.2; HDMI 2.1, 10.3.2)"
        }
    }
}

/// What the rule of a finding asks.
pub fn asked(finding: Finding) -> &'static str {
    match finding {
        Finding::Edid(rule) => match asked_of_base(rule) {
            Some(text) => text,
            None => asked_of_extensions(rule),
        },
        Finding::Timing(_, rule) => asked_of_timing(rule),
    }
}
