//! Laws of the words of lines.
ghost use Rattle.std.specs.Prelude.{◌++◌, ◌<◌, ◌==◌, ◌^◌, ◌≡◌, List, length, not, true, ℕ};
ghost use Rattle.std.specs.Fmt.{decimal};
ghost use Rattle.std.specs.List.{list_all, position_or_len};
ghost use Rattle.edid_text_lines.specs.Formed.{BeginsSpaced, is_spaceless};
ghost use Rattle.edid_text_lines.specs.Text.{fields_text, word_text};
ghost use Rattle.edid_text_lines.specs.declared.line.Fields.{Fields};
ghost use Rattle.edid_text_lines.specs.declared.line.Keyword.{Keyword};

/// No two words of lines have the same text.
pub fn one_text_of_words()
    ensures { (a b : Keyword) → word_text a ≡ word_text b → a ≡ b }
{}

/// A line's first space ends its first word.
/// - `word`: a word has no space in it;
/// - `fields`: what stands after it is nothing, or begins with a space;
/// - `cut`: the first space of such a line stands where the word ends;
/// - `number`: the digits of a number are none of the characters below `0`, a space among them.
pub fn words_end_at_the_first_space()
    ensures word { (w : Keyword) → is_spaceless (word_text w) ≡ true }
    ensures fields { (f : Fields) → BeginsSpaced (fields_text f) }
    ensures cut { (w t : List ℕ) → is_spaceless w ≡ true → BeginsSpaced t → position_or_len (λ b. b == 32) (w ++ t) ≡ length w }
    ensures number { (k n : ℕ) → k < 48 → n < 2 ^ 64 → list_all (λ c. not (c == k)) (decimal n) ≡ true }
{}
