//! The chromaticities, numbers of ten bits.
ghost use Rattle.std.specs.Prelude.{◌≡◌, ◌<◌, ◌+◌, ◌*◌, ◌/◌, ◌%◌, ◌^◌, MatchOption};
ghost use Rattle.edid_base.specs.Pairs.{low_pairs};

/// A point of the colour space, in parts of 1024.
#[derive(Clone, Copy, Debug, PartialEq, Eq)]
pub struct Point {
    pub x: u16,
    pub y: u16,
    ghost x_fits: { x < 1024 },
    ghost y_fits: { y < 1024 },
}

/// The chromaticities of a display (E-EDID Release A, section 3.7).
#[derive(Clone, Copy, Debug, PartialEq, Eq)]
pub struct Chroma {
    pub red: Point,
    pub green: Point,
    pub blue: Point,
    pub white: Point,
}

/// The low two bits of four numbers, the first on top.
fn low_pairs(a: u16, b: u16, c: u16, d: u16) -> u8
    ensures { result ≡ low_pairs a b c d }
{
    ((a & 3) << 6 | (b & 3) << 4 | (c & 3) << 2 | d & 3) as u8
}

/// A number of ten bits by its high byte and the pair of bits at a place.
fn ten_bits(high: u8, pairs: u8, place: u8) -> u16
    requires { place < 7 }
    ensures { result ≡ high * 4 + pairs / 2 ^ place % 4 }
{
    u16::from(high) << 2 | u16::from(pairs >> place & 3)
}

impl Chroma {
    ghost use Rattle.edid_base.specs.Chroma.{chroma_bytes, chroma_numbers};
    ghost use Rattle.edid_base.specs.declared.chroma.Chroma.{Chroma as ChromaValue};

    /// The chromaticities that eight numbers are: those of red, green, blue and white, each with `x` before `y`.
    pub fn new(numbers: &[u32]) -> Option<Chroma>
        ensures { MatchOption result ((c : ChromaValue) → chroma_numbers c ≡ numbers.now → ⊥) (λ c. chroma_numbers c ≡ numbers.now) }
    {
        let n = numbers;
        if n.len() != 8 {
            return None;
        }
        if n[0] > 1023 || n[1] > 1023 || n[2] > 1023 || n[3] > 1023 {
            return None;
        }
        if n[4] > 1023 || n[5] > 1023 || n[6] > 1023 || n[7] > 1023 {
            return None;
        }
        Some(Chroma {
            red: Point {
                x: n[0] as u16,
                y: n[1] as u16,
            },
            green: Point {
                x: n[2] as u16,
                y: n[3] as u16,
            },
            blue: Point {
                x: n[4] as u16,
                y: n[5] as u16,
            },
            white: Point {
                x: n[6] as u16,
                y: n[7] as u16,
            },
        })
    }

    /// Its eight numbers.
    pub fn numbers(&self) -> [u32; 8]
        ensures { result ≡ chroma_numbers self.now }
    {
        [
            u32::from(self.red.x),
            u32::from(self.red.y),
            u32::from(self.green.x),
            u32::from(self.green.y),
            u32::from(self.blue.x),
            u32::from(self.blue.y),
            u32::from(self.white.x),
            u32::from(self.white.y),
        ]
    }

    /// The chromaticities that ten bytes spell.
    pub fn read(bytes: &[u8; 10]) -> Chroma
        ensures { chroma_bytes result ≡ bytes.now }
    {
        Chroma {
            red: Point {
                x: ten_bits(bytes[2], bytes[0], 6),
                y: ten_bits(bytes[3], bytes[0], 4),
            },
            green: Point {
                x: ten_bits(bytes[4], bytes[0], 2),
                y: ten_bits(bytes[5], bytes[0], 0),
            },
            blue: Point {
                x: ten_bits(bytes[6], bytes[1], 6),
                y: ten_bits(bytes[7], bytes[1], 4),
            },
            white: Point {
                x: ten_bits(bytes[8], bytes[1], 2),
                y: ten_bits(bytes[9], bytes[1], 0),
            },
        }
    }

    /// Its ten bytes.
    pub fn write(&self) -> [u8; 10]
        ensures { result ≡ chroma_bytes self.now }
    {
        let Chroma {
            red,
            green,
            blue,
            white,
        } = *self;
        [
            low_pairs(red.x, red.y, green.x, green.y),
            low_pairs(blue.x, blue.y, white.x, white.y),
            (red.x >> 2) as u8,
            (red.y >> 2) as u8,
            (green.x >> 2) as u8,
            (green.y >> 2) as u8,
            (blue.x >> 2) as u8,
            (blue.y >> 2) as u8,
            (white.x >> 2) as u8,
            (white.y >> 2) as u8,
        ]
    }
}
