//! Video formats by their codes (CTA-861-G, table 3).
ghost use Rattle.std.specs.Prelude.{◌≡◌};
ghost use Rattle.meaning_words.specs.Formats.{format_of, find_code};

/// The shape of a picture: width to height.
#[derive(Clone, Copy, Debug, PartialEq, Eq)]
pub enum Aspect {
    /// 4:3
    FourThirds,
    /// 16:9
    SixteenNinths,
    /// 64:27
    SixtyFourTwentySevenths,
    /// 256:135
    Cinema,
}

/// A video format.
#[derive(Clone, Copy, Debug, PartialEq, Eq)]
pub struct VideoFormat {
    /// Its video identification code.
    pub code: u8,
    /// Pixels of a line.
    pub width: u16,
    /// Lines of a picture, of both fields where it is interlaced.
    pub height: u16,
    pub interlaced: bool,
    /// The nominal rate of fields in Hz; 24, 30, 48, 60, 120 and 240 stand for that less a thousandth too.
    pub rate: u8,
    pub aspect: Aspect,
}

macro_rules! formats {
    ($($code:literal $width:literal $height:literal $interlaced:literal $rate:literal $aspect:ident;)*) => {
        &[$(VideoFormat {
            code: $code,
            width: $width,
            height: $height,
            interlaced: $interlaced,
            rate: $rate,
            aspect: Aspect::$aspect,
        },)*]
    };
}

// Code, width, height, whether it is interlaced, rate and aspect, in the order of the codes.
const FORMATS: &[VideoFormat] = formats! {
    1 640 480 false 60 FourThirds;
    2 720 480 false 60 FourThirds;
    3 720 480 false 60 SixteenNinths;
    4 1280 720 false 60 SixteenNinths;
    5 1920 1080 true 60 SixteenNinths;
    6 1440 480 true 60 FourThirds;
    7 1440 480 true 60 SixteenNinths;
    8 1440 240 false 60 FourThirds;
    9 1440 240 false 60 SixteenNinths;
    10 2880 480 true 60 FourThirds;
    11 2880 480 true 60 SixteenNinths;
    12 2880 240 false 60 FourThirds;
    13 2880 240 false 60 SixteenNinths;
    14 1440 480 false 60 FourThirds;
    15 1440 480 false 60 SixteenNinths;
    16 1920 1080 false 60 SixteenNinths;
    17 720 576 false 50 FourThirds;
    18 720 576 false 50 SixteenNinths;
    19 1280 720 false 50 SixteenNinths;
    20 1920 1080 true 50 SixteenNinths;
    21 1440 576 true 50 FourThirds;
    22 1440 576 true 50 SixteenNinths;
    23 1440 288 false 50 FourThirds;
    24 1440 288 false 50 SixteenNinths;
    25 2880 576 true 50 FourThirds;
    26 2880 576 true 50 SixteenNinths;
    27 2880 288 false 50 FourThirds;
    28 2880 288 false 50 SixteenNinths;
    29 1440 576 false 50 FourThirds;
    30 1440 576 false 50 SixteenNinths;
    31 1920 1080 false 50 SixteenNinths;
    32 1920 1080 false 24 SixteenNinths;
    33 1920 1080 false 25 SixteenNinths;
    34 1920 1080 false 30 SixteenNinths;
    35 2880 480 false 60 FourThirds;
    36 2880 480 false 60 SixteenNinths;
    37 2880 576 false 50 FourThirds;
    38 2880 576 false 50 SixteenNinths;
    39 1920 1080 true 50 SixteenNinths;
    40 1920 1080 true 100 SixteenNinths;
    41 1280 720 false 100 SixteenNinths;
    42 720 576 false 100 FourThirds;
    43 720 576 false 100 SixteenNinths;
    44 1440 576 true 100 FourThirds;
    45 1440 576 true 100 SixteenNinths;
    46 1920 1080 true 120 SixteenNinths;
    47 1280 720 false 120 SixteenNinths;
    48 720 480 false 120 FourThirds;
    49 720 480 false 120 SixteenNinths;
    50 1440 480 true 120 FourThirds;
    51 1440 480 true 120 SixteenNinths;
    52 720 576 false 200 FourThirds;
    53 720 576 false 200 SixteenNinths;
    54 1440 576 true 200 FourThirds;
    55 1440 576 true 200 SixteenNinths;
    56 720 480 false 240 FourThirds;
    57 720 480 false 240 SixteenNinths;
    58 1440 480 true 240 FourThirds;
    59 1440 480 true 240 SixteenNinths;
    60 1280 720 false 24 SixteenNinths;
    61 1280 720 false 25 SixteenNinths;
    62 1280 720 false 30 SixteenNinths;
    63 1920 1080 false 120 SixteenNinths;
    64 1920 1080 false 100 SixteenNinths;
    65 1280 720 false 24 SixtyFourTwentySevenths;
    66 1280 720 false 25 SixtyFourTwentySevenths;
    67 1280 720 false 30 SixtyFourTwentySevenths;
    68 1280 720 false 50 SixtyFourTwentySevenths;
    69 1280 720 false 60 SixtyFourTwentySevenths;
    70 1280 720 false 100 SixtyFourTwentySevenths;
    71 1280 720 false 120 SixtyFourTwentySevenths;
    72 1920 1080 false 24 SixtyFourTwentySevenths;
    73 1920 1080 false 25 SixtyFourTwentySevenths;
    74 1920 1080 false 30 SixtyFourTwentySevenths;
    75 1920 1080 false 50 SixtyFourTwentySevenths;
    76 1920 1080 false 60 SixtyFourTwentySevenths;
    77 1920 1080 false 100 SixtyFourTwentySevenths;
    78 1920 1080 false 120 SixtyFourTwentySevenths;
    79 1680 720 false 24 SixtyFourTwentySevenths;
    80 1680 720 false 25 SixtyFourTwentySevenths;
    81 1680 720 false 30 SixtyFourTwentySevenths;
    82 1680 720 false 50 SixtyFourTwentySevenths;
    83 1680 720 false 60 SixtyFourTwentySevenths;
    84 1680 720 false 100 SixtyFourTwentySevenths;
    85 1680 720 false 120 SixtyFourTwentySevenths;
    86 2560 1080 false 24 SixtyFourTwentySevenths;
    87 2560 1080 false 25 SixtyFourTwentySevenths;
    88 2560 1080 false 30 SixtyFourTwentySevenths;
    89 2560 1080 false 50 SixtyFourTwentySevenths;
    90 2560 1080 false 60 SixtyFourTwentySevenths;
    91 2560 1080 false 100 SixtyFourTwentySevenths;
    92 2560 1080 false 120 SixtyFourTwentySevenths;
    93 3840 2160 false 24 SixteenNinths;
    94 3840 2160 false 25 SixteenNinths;
    95 3840 2160 false 30 SixteenNinths;
    96 3840 2160 false 50 SixteenNinths;
    97 3840 2160 false 60 SixteenNinths;
    98 4096 2160 false 24 Cinema;
    99 4096 2160 false 25 Cinema;
    100 4096 2160 false 30 Cinema;
    101 4096 2160 false 50 Cinema;
    102 4096 2160 false 60 Cinema;
    103 3840 2160 false 24 SixtyFourTwentySevenths;
    104 3840 2160 false 25 SixtyFourTwentySevenths;
    105 3840 2160 false 30 SixtyFourTwentySevenths;
    106 3840 2160 false 50 SixtyFourTwentySevenths;
    107 3840 2160 false 60 SixtyFourTwentySevenths;
    108 1280 720 false 48 SixteenNinths;
    109 1280 720 false 48 SixtyFourTwentySevenths;
    110 1680 720 false 48 SixtyFourTwentySevenths;
    111 1920 1080 false 48 SixteenNinths;
    112 1920 1080 false 48 SixtyFourTwentySevenths;
    113 2560 1080 false 48 SixtyFourTwentySevenths;
    114 3840 2160 false 48 SixteenNinths;
    115 4096 2160 false 48 Cinema;
    116 3840 2160 false 48 SixtyFourTwentySevenths;
    117 3840 2160 false 100 SixteenNinths;
    118 3840 2160 false 120 SixteenNinths;
    119 3840 2160 false 100 SixtyFourTwentySevenths;
    120 3840 2160 false 120 SixtyFourTwentySevenths;
    121 5120 2160 false 24 SixtyFourTwentySevenths;
    122 5120 2160 false 25 SixtyFourTwentySevenths;
    123 5120 2160 false 30 SixtyFourTwentySevenths;
    124 5120 2160 false 48 SixtyFourTwentySevenths;
    125 5120 2160 false 50 SixtyFourTwentySevenths;
    126 5120 2160 false 60 SixtyFourTwentySevenths;
    127 5120 2160 false 100 SixtyFourTwentySevenths;
    193 5120 2160 false 120 SixtyFourTwentySevenths;
    194 7680 4320 false 24 SixteenNinths;
    195 7680 4320 false 25 SixteenNinths;
    196 7680 4320 false 30 SixteenNinths;
    197 7680 4320 false 48 SixteenNinths;
    198 7680 4320 false 50 SixteenNinths;
    199 7680 4320 false 60 SixteenNinths;
    200 7680 4320 false 100 SixteenNinths;
    201 7680 4320 false 120 SixteenNinths;
    202 7680 4320 false 24 SixtyFourTwentySevenths;
    203 7680 4320 false 25 SixtyFourTwentySevenths;
    204 7680 4320 false 30 SixtyFourTwentySevenths;
    205 7680 4320 false 48 SixtyFourTwentySevenths;
    206 7680 4320 false 50 SixtyFourTwentySevenths;
    207 7680 4320 false 60 SixtyFourTwentySevenths;
    208 7680 4320 false 100 SixtyFourTwentySevenths;
    209 7680 4320 false 120 SixtyFourTwentySevenths;
    210 10240 4320 false 24 SixtyFourTwentySevenths;
    211 10240 4320 false 25 SixtyFourTwentySevenths;
    212 10240 4320 false 30 SixtyFourTwentySevenths;
    213 10240 4320 false 48 SixtyFourTwentySevenths;
    214 10240 4320 false 50 SixtyFourTwentySevenths;
    215 10240 4320 false 60 SixtyFourTwentySevenths;
    216 10240 4320 false 100 SixtyFourTwentySevenths;
    217 10240 4320 false 120 SixtyFourTwentySevenths;
    218 4096 2160 false 100 Cinema;
    219 4096 2160 false 120 Cinema;
};

/// The first format of a list that has this code.
fn find(formats: &[VideoFormat], code: u8) -> Option<VideoFormat>
    ensures { result ≡ find_code formats.now code }
{
    if let [format, rest @ ..] = formats {
        if format.code == code {
            return Some(*format);
        }
        return find(rest, code);
    }
    None
}

/// The format that a video identification code stands for.
pub fn format_of(code: u8) -> Option<VideoFormat>
    ensures { result ≡ format_of code }
{
    find(FORMATS, code)
}
