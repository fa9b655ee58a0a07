//! Standard timings, of two bytes each.
ghost use Rattle.std.specs.Prelude.{◌≡◌, ◌∷◌, [], ◌≤◌, ◌<◌, ◌%◌, ◌==◌, ◌&&◌, IsTrue, MatchOption, not, flat_map};

/// A standard timing (E-EDID Release A, section 3.9).
#[derive(Clone, Copy, Debug, PartialEq, Eq)]
pub struct StandardTiming {
    /// The width in pixels: a multiple of 8 from 248 to 2288.
    pub width: u16,
    /// The two bits of the aspect ratio.
    pub aspect: u8,
    /// The rate in Hz, 60 to 123.
    pub rate: u8,
    ghost least_width: { 248 ≤ width },
    ghost most_width: { width ≤ 2288 },
    ghost by_eight: { width % 8 ≡ 0 },
    ghost aspect_fits: { aspect < 4 },
    ghost least_rate: { 60 ≤ rate },
    ghost most_rate: { rate < 124 },
    ghost used: { IsTrue (not (width == 256 && aspect == 0 && rate == 61)) },
}

impl StandardTiming {
    ghost use Rattle.edid_base.specs.declared.standard.StandardTiming.{StandardTiming as StandardValue};
    ghost use Rattle.edid_base.specs.Standard.{standard_bytes, standard_numbers};

    /// The timing that three numbers are: the width, the bits of the aspect ratio, and the rate.
    pub fn new(numbers: &[u32]) -> Option<StandardTiming>
        ensures { MatchOption result ((s : StandardValue) → standard_numbers s ≡ numbers.now → ⊥) (λ s. standard_numbers s ≡ numbers.now) }
    {
        if numbers.len() != 3 {
            return None;
        }
        let (width, aspect, rate) = (numbers[0], numbers[1], numbers[2]);
        if width < 248 || width > 2288 || width % 8 != 0 {
            return None;
        }
        if aspect > 3 || rate < 60 || rate > 123 {
            return None;
        }
        if width == 256 && aspect == 0 && rate == 61 {
            return None;
        }
        Some(StandardTiming {
            width: width as u16,
            aspect: aspect as u8,
            rate: rate as u8,
        })
    }

    /// Its three numbers.
    pub fn numbers(self) -> [u32; 3]
        ensures { result ≡ standard_numbers self }
    {
        [
            u32::from(self.width),
            u32::from(self.aspect),
            u32::from(self.rate),
        ]
    }

    /// The timing that two bytes spell: 01 01 is none.
    pub fn read(first: u8, second: u8) -> Option<StandardTiming>
        ensures { standard_bytes result ≡ first ∷ second ∷ [] }
    {
        if first == 1 && second == 1 {
            return None;
        }
        Some(StandardTiming {
            width: (u16::from(first) + 31) * 8,
            aspect: second / 64,
            rate: second % 64 + 60,
        })
    }

    /// The two bytes of a timing or of none.
    pub fn write(standard: Option<StandardTiming>) -> [u8; 2]
        ensures { result ≡ standard_bytes standard }
    {
        match standard {
            None => [1, 1],
            Some(timing) => [
                (timing.width / 8 - 31) as u8,
                timing.aspect * 64 + (timing.rate - 60),
            ],
        }
    }

    /// The eight timings that 16 bytes spell.
    pub fn read_all(bytes: &[u8; 16]) -> [Option<StandardTiming>; 8]
        ensures { flat_map standard_bytes result ≡ bytes.now }
    {
        [
            StandardTiming::read(bytes[0], bytes[1]),
            StandardTiming::read(bytes[2], bytes[3]),
            StandardTiming::read(bytes[4], bytes[5]),
            StandardTiming::read(bytes[6], bytes[7]),
            StandardTiming::read(bytes[8], bytes[9]),
            StandardTiming::read(bytes[10], bytes[11]),
            StandardTiming::read(bytes[12], bytes[13]),
            StandardTiming::read(bytes[14], bytes[15]),
        ]
    }
}
