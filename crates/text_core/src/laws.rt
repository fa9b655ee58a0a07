//! What holds of the words of kinds, of lines and their words, and of texts that go to a sink.
ghost use Rattle.std.specs.Prelude.{◌≡◌, ◌+◌, ◌-◌, ◌++◌, ◌∷◌, ◌<◌, ℕ, Bool, Err, List, None, Ok, Option, Result, Some, [], drop, false, get_or, length, position, take, true};
ghost use Rattle.std.specs.List.{flat_map, slice_split};
ghost use Rattle.text_core.specs.Adds.{Adds, PartsAdded, Tally, TextEnded};
ghost use Rattle.text_core.specs.Cut.{CutLater, CutOff, CutPart, WritesText, WrittenText};
ghost use Rattle.text_core.specs.Kind.{kind_named, kind_word};
ghost use Rattle.text_core.specs.Words.{FoundByWord, words_of};
ghost use Rattle.text_core.specs.declared.kind.Kind.{Kind};
ghost use Rattle.text_core.specs.declared.sink.WriteFault.{WriteFault};

/// A word stands for a kind exactly where it is that kind's word.
pub fn kinds_are_named_by_their_words()
    ensures read { (kind : Kind) → kind_named (kind_word kind) ≡ Some kind }
    ensures only { (word : List ℕ) (kind : Kind) → kind_named word ≡ Some kind → word ≡ kind_word kind }
{}

/// What is found in a list by a word has that word.
pub fn found_by_its_word<T>()
    ensures { FoundByWord T }
{}

/// A list in which no element parts it is one part; else its first part ends before the first such element, and the other parts
/// are those of what stands after it.
pub fn lists_are_parted()
    ensures none { (parts : ℕ → Bool) (xs : List ℕ) → position parts xs ≡ None → slice_split parts xs ≡ xs ∷ [] }
    ensures some { (parts : ℕ → Bool) (xs : List ℕ) (end : ℕ) → position parts xs ≡ Some end
        → slice_split parts xs ≡ take end xs ∷ slice_split parts (take (length xs - (end + 1)) (drop (end + 1) xs)) }
{}

/// Each line has a word, which may be empty.
pub fn lines_have_a_word()
    ensures { (line : List ℕ) → 0 < length (words_of line) }
{}

/// A text and then another one are added as one text. Where nothing is written, the empty text is added.
pub fn texts_add_up()
    ensures then { (a b c : Tally) (xs ys : List ℕ) → Adds a b xs → Adds b c ys → Adds a c (xs ++ ys) }
    ensures nothing { (a : Tally) → Adds a a [] }
{}

/// Where the texts of the items of a list are added up to one of them, and then its text, they are added up to the next one.
pub fn parts_add_up<X>()
    ensures { PartsAdded X }
{}

/// A text that failed is also the front of any longer text, of which no more is written. After a failure nothing is taken, and what
/// has not failed by now had not failed before.
pub fn failures_last()
    ensures cut_short { (a b : Tally) (xs ys : List ℕ) → b.failed ≡ true → Adds a b xs → Adds a b (xs ++ ys) }
    ensures after_failure { (a b : Tally) (xs : List ℕ) → a.failed ≡ true → Adds a b xs → b ≡ a }
    ensures not_yet { (a b : Tally) (xs : List ℕ) → b.failed ≡ false → Adds a b xs → a.failed ≡ false }
{}

/// A sink that was lent for a text is at the end of the loan as the text left it: of the text it holds what was written.
pub fn lent_sinks_come_back<V>()
    ensures { TextEnded V }
{}

/// A text is written as its count says: whole where there is one, and up to the fault otherwise.
pub fn counts_are_of_texts()
    ensures whole { (old new : Option (List ℕ)) (was is : Bool) (text : List ℕ) (written : Result ℕ WriteFault) (count : ℕ) → written ≡ Ok count
        → WrittenText old new was is text written → WritesText old new was is text (Ok tt) }
    ensures cut { (old new : Option (List ℕ)) (was is : Bool) (text : List ℕ) (written : Result ℕ WriteFault) (fault : WriteFault) → written ≡ Err fault
        → WrittenText old new was is text written → WritesText old new was is text (Err fault) }
{}

/// A fault that cuts off the front of a text, or the text after one that is written, cuts off the whole of it.
pub fn faults_cut_the_whole_off()
    ensures front { (a b : Option (List ℕ)) (xs ys : List ℕ) (fault : WriteFault) → CutOff a b xs fault → CutOff a b (xs ++ ys) fault }
    ensures later { CutLater }
{}

/// Where the texts of the items of a list are written up to one of them, and then the front of its text, a front of the text of the
/// list is written.
pub fn cut_parts_are_a_front<X>()
    ensures { CutPart X }
{}
