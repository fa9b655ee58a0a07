//! Laws of the definitions.
ghost use Rattle.std.specs.Prelude.{ℕ, ◌≡◌, ◌<◌, ◌++◌, List, flat_map};
ghost use Rattle.meaning_words.specs.Notes.{own_line};
ghost use Rattle.meaning_words.specs.Rates.{IsNearest, nearest};

/// The number that is nearest to a quotient is one number, and `nearest` is it.
pub fn nearest_is_one()
    ensures nearest { (number by : ℕ) → 0 < by → IsNearest number by (nearest number by) }
    ensures one { (number by r s : ℕ) → IsNearest number by r → IsNearest number by s → r ≡ s }
{}

/// A text to which lines are added, and then further ones, is that text with all these lines.
pub fn lines_join()
    ensures { (x y z : List ℕ) (a b : List (List ℕ)) → y ≡ x ++ flat_map own_line a → z ≡ y ++ flat_map own_line b
        → z ≡ x ++ flat_map own_line (a ++ b) }
{}
