//! What the fields of the lines of an EDID's text are.

const TEXT: &str = "a text is at most 13 printable characters, in double quotes";

const BLOCK: &str = "a data block has at most 31 bytes, two hex digits each";

/// The fields of lines, by the word that each begins with.
const FIELDS: &[(&str, &str)] = &[
    ("edid", "the revision is `1.3` or `1.4`"),
    ("maker", "a maker is three letters, A to Z"),
    ("product", "a product is a number of at most 65535"),
    ("serial", "a serial number is one of at most 4294967295"),
    ("made", "the week is 0 to 255, and the year 1990 to 2245"),
    ("input", "the byte is two hex digits"),
    ("size", "each side is 0 to 255 cm"),
    ("gamma", "the byte is a number, 0 to 255"),
    ("features", "the byte is two hex digits"),
    ("chroma", "there are eight numbers, each 0 to 1023"),
    ("established", "there are three bytes, six hex digits"),
    (
        "standard",
        "the width is a multiple of 8 from 248 to 2288, the aspect bits 0 to 3, the rate 60 to 123 Hz; 256 0 61 is `unused`",
    ),
    (
        "timing",
        "the clock is 1 to 65535, in 10 kHz; active and blanking, across and down, are 0 to 4095; sync offset and width are 0 to 1023 across, and 0 to 63 down; the size is 0 to 4095 mm each way, borders 0 to 255, flags two hex digits",
    ),
    (
        "range",
        "there are 14 bytes, 28 hex digits: those after the descriptor's tag",
    ),
    ("cta", "the flags are a byte, two hex digits"),
    ("cta-none", "the flags are a byte, two hex digits"),
    ("name", TEXT),
    ("text", TEXT),
    ("serial-text", TEXT),
    ("audio", BLOCK),
    ("video", BLOCK),
    ("vendor", BLOCK),
    ("speakers", BLOCK),
    ("extended", BLOCK),
    ("tag0", BLOCK),
    ("tag5", BLOCK),
    ("tag6", BLOCK),
    (
        "hdmi",
        "PA is a physical address, as 1.0.0.0, and at most 26 bytes stand after it",
    ),
    (
        "tail",
        "the bytes after the last block or timing, where one is no zero, two hex digits each; `-` where all are",
    ),
];

/// What the words of lines are, by the word that each begins with.
const IN_WORDS: &[(&str, &str)] = &[
    (
        "video",
        "in words there are at most 31 codes, 0 to 128 or 193 to 255, with `*` after a native one of 1 to 64",
    ),
    (
        "audio",
        "in words there are four a format, ten formats at most, as `pcm 2 32,44.1,48 16,20,24`: pcm, ac-3, mpeg-1, mp3, mpeg-2, aac-lc, dts, atrac, one-bit-audio, enhanced-ac-3, dts-hd, mat, dst or wma-pro; 1 to 8 channels; of 32,44.1,48,88.2,96,176.4,192 kHz some in this order, or `-`; of pcm sizes, of 16,20,24 some or `-`, of the seven after it kbit/s, up to 2040 in steps of 8, of the others a byte, two hex digits",
    ),
    (
        "speakers",
        "in words there are some of these, in this order: FL/FR LFE FC BL/BR BC FLc/FRc RLC/RRC FLw/FRw TpFL/TpFR TpC TpFC LS/RS LFE2 TpBC SiL/SiR TpSiL/TpSiR TpBL/TpBR BtFC BtFL/BtFR TpLS/TpRS LSd/RSd",
    ),
    (
        "hdmi",
        "in words some of these stand after PA, in this order: ai 30-bit 36-bit 48-bit y444 dvi-dual, `tmds N` with MHz of 5 to 1275 in steps of 5, graphics-content photo-content cinema-content game-content, `latency V A` and `interlaced-latency V A` with even ms up to 500, `unknown` or `none`, 3d-present vic-1 vic-2 vic-3 vic-4",
    ),
    (
        "timing",
        "`timing vic N`, and after it perhaps the image's sides in mm, 0 to 4095: N is 2 to 7, 16 to 22, 31 to 34, 40, 41, 46, 47, 63, 64, 95 or 97; or `timing dmt ID`, where ID is two hex digits, 01 to 56 but 04; or by a formula `timing cvt W H HZ`, `timing cvt-rb W H HZ` or `timing gtf W H HZ`, and perhaps the sides: W is a multiple of 8, W and H are 1 to 4095, HZ is 1 to 500, and where a detailed timing has no room for what the formula gives, as its clock is above 65535 times 10 kHz, HZ is at fault",
    ),
];

// What a table has of a word.
fn row_of(rows: &[(&str, &'static str)], word: &str) -> Option<&'static str> {
    for (known, text) in rows {
        if *known == word {
            return Some(*text);
        }
    }
    None
}

/// What the fields of a line are that begins with a word.
pub fn fields_of(word: &str) -> Option<&'static str> {
    row_of(FIELDS, word)
}

/// What the words of a line are that begins with a word, where its payload may stand in words.
pub fn words_of(word: &str) -> Option<&'static str> {
    row_of(IN_WORDS, word)
}
