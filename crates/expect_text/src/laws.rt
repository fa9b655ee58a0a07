//! Laws of counts, of patterns and of words of states.
ghost use Rattle.std.specs.Prelude.{◌≡◌, ◌+◌, ◌<◌, ℕ, List, [], ◌∷◌, if◌then◌else◌, nat_lt, true};
ghost use Rattle.std.specs.List.{flat_map, list_all};
ghost use Rattle.text_core.specs.Bytes.{are_bytes};
ghost use Rattle.text_core.specs.Piece.{hex_text};
ghost use Rattle.expect_text.specs.Parts.{has};
ghost use Rattle.expect_text.specs.declared.part.Class.TheVariants.{Hex};
ghost use Rattle.expect_text.specs.Laws.{CountsAreOfBounds, NamesAreMet, PatternsAreMet, StateWordsAreMet};

/// `at most` a number allows what `at least` one more does not; `exactly` a number what both of these allow of it.
pub fn counts_are_of_bounds()
    ensures { CountsAreOfBounds }
{}

/// A pattern is refused exactly where no text that the line of a round can have meets it: no frame's with a verdict and those who
/// sent, and no bits.
pub fn patterns_are_met()
    ensures { PatternsAreMet }
{}

/// A pattern with names is refused exactly where no such text meets it, whichever addresses the devices hold.
pub fn names_are_met()
    ensures { NamesAreMet }
{}

/// A word of a state is refused exactly where no state line can have it.
pub fn state_words_are_met()
    ensures { StateWordsAreMet }
{}

/// The digit that is written of a number below 16 is one of the class of hex digits, and so are those that are written of bytes.
/// Each of the class is the digit of such a number, and each two of them are those of a byte.
pub fn hex_is_written_in_its_class()
    ensures digit { (n : ℕ) → n < 16 → has Hex (if nat_lt n 10 then 48 + n else 87 + n) ≡ true }
    ensures bytes { (xs : List ℕ) → are_bytes xs ≡ true → list_all (has Hex) (flat_map hex_text xs) ≡ true }
    ensures one { (b : ℕ) → has Hex b ≡ true → (n : ℕ) × (n < 16) × ((if nat_lt n 10 then 48 + n else 87 + n) ≡ b) }
    ensures two { (a b : ℕ) → has Hex a ≡ true → has Hex b ≡ true → (n : ℕ) × (nat_lt n 256 ≡ true) × (hex_text n ≡ a ∷ b ∷ []) }
{}
