//! A maker's three letters, of five bits each (E-EDID Release A, section 3.4.1).
ghost use Rattle.std.specs.Prelude.{◌≡◌, ◌∷◌, [], ◌&&◌, IsTrue, false, true, MatchOption};
ghost use Rattle.edid_base.specs.Letters.{is_letter, has_letters};

/// The letters of a maker, `A` to `Z`.
#[derive(Clone, Copy, Debug, PartialEq, Eq)]
pub struct Maker {
    pub first: u8,
    pub second: u8,
    pub third: u8,
    ghost letters: { IsTrue (is_letter first && is_letter second && is_letter third) },
}

impl Maker {
    ghost use Rattle.edid_base.specs.declared.maker.Maker.{Maker as MakerValue};
    ghost use Rattle.edid_base.specs.Maker.{maker_bytes, maker_letters};

    /// The maker with these letters, where they are three from `A` to `Z`.
    pub fn new(letters: &[u8]) -> Option<Maker>
        ensures { MatchOption result ((m : MakerValue) → maker_letters m ≡ letters.now → ⊥) (λ m. maker_letters m ≡ letters.now) }
    {
        if letters.len() != 3 {
            return None;
        }
        let (first, second, third) = (letters[0], letters[1], letters[2]);
        if first < b'A'
            || b'Z' < first
            || second < b'A'
            || b'Z' < second
            || third < b'A'
            || b'Z' < third
        {
            return None;
        }
        Some(Maker {
            first,
            second,
            third,
        })
    }

    /// The maker that two bytes spell.
    pub fn read(high: u8, low: u8) -> Option<Maker>
        ensures { MatchOption result (has_letters high low ≡ false) (λ m. (has_letters high low ≡ true) × (maker_bytes m ≡ high ∷ low ∷ [])) }
    {
        let number = u16::from_be_bytes([high, low]);
        let (first, second, third) = (number / 1024, number / 32 % 32, number % 32);
        if 1 <= first && first <= 26 && 1 <= second && second <= 26 && 1 <= third && third <= 26 {
            Some(Maker {
                first: first as u8 + b'@',
                second: second as u8 + b'@',
                third: third as u8 + b'@',
            })
        } else {
            None
        }
    }

    /// Its two bytes.
    pub fn write(self) -> [u8; 2]
        ensures { result ≡ maker_bytes self }
    {
        let number = u16::from(self.first - b'@') * 1024
            + u16::from(self.second - b'@') * 32
            + u16::from(self.third - b'@');
        number.to_be_bytes()
    }
}
