//! Laws of texts, edges, tracks and readers.
ghost use Rattle.std.specs.Prelude.{◌≡◌, ℕ, ◌*◌, ◌^◌, ◌<◌, ◌==◌, not, Bool, true, false, List, [], ◌∷◌, ◌++◌, length, Some};
ghost use Rattle.std.specs.Char.{digit_value};
ghost use Rattle.std.specs.Fmt.{decimal};
ghost use Rattle.std.specs.List.{list_all};
ghost use Rattle.std.specs.Str.Parse.{AllDigits};
ghost use Rattle.text_core.specs.Lines.{lines_of};
ghost use Rattle.text_core.specs.Number.{is_numeral, number_of, value_of};
ghost use Rattle.capture_core.specs.Edges.{EdgesAreInTurnSooner, HighLinesHaveEnded, KnownEdgesAreEarly, LevelsStayBefore};
ghost use Rattle.capture_core.specs.Onward.{LinesArePassed, ReadTextsPassLines, ReadTextsTakeWords, StepsStay, WordsAloneArePassed, WordsAreTaken};
ghost use Rattle.capture_core.specs.Recording.{EndsAreRecorded, LevelsAreRecorded, MovesAreRecorded, RecordsAreCaptures, RecordsAreTheLine};
ghost use Rattle.capture_core.specs.Samples.{Level, level_in, level_of, rounded, samples_of};
ghost use Rattle.capture_core.specs.Seconds.{decimals_of, dot_in, nine_digits};
ghost use Rattle.capture_core.specs.Texts.{Lacks};
ghost use Rattle.capture_core.specs.Track.{MovesComeThere, MovesInPlace, QuietMoves, TurnsAreReported};

/// A number is read from its decimal text, which is a numeral of that value.
pub fn numbers_are_read_again()
    ensures read { (n : ℕ) → n < 2 ^ 64 → number_of (decimal n) ≡ Some n }
    ensures numeral { (n : ℕ) → n < 2 ^ 64 → is_numeral (decimal n) ≡ true }
    ensures value { (n : ℕ) → n < 2 ^ 64 → value_of (decimal n) ≡ n }
{}

/// The empty text lacks all bytes. A text lacks some bytes where its first byte is none of them and the others lack them, and
/// where a test finds none of them.
pub fn texts_lack_bytes()
    ensures none { (p : ℕ → Bool) → Lacks p [] }
    ensures more { (p : ℕ → Bool) (c : ℕ) (bytes : List ℕ) → p c ≡ false → Lacks p bytes → Lacks p (c ∷ bytes) }
    ensures shown { (p : ℕ → Bool) (text : List ℕ) → list_all (λ c. not (p c)) text ≡ true → Lacks p text }
{}

/// Digits, and so the decimal text of a number, lack every byte that is no digit: each byte below the digits, and so the line
/// feed.
pub fn digits_lack_other_bytes()
    ensures digits { (p : ℕ → Bool) (ds : List ℕ) → ((c : ℕ) → digit_value c < 10 → p c ≡ false) → AllDigits 10 ds → Lacks p ds }
    ensures number { (p : ℕ → Bool) (n : ℕ) → n < 2 ^ 64 → ((c : ℕ) → digit_value c < 10 → p c ≡ false) → Lacks p (decimal n) }
    ensures below { (b c : ℕ) → digit_value c < 10 → b < 48 → (c == b) ≡ false }
    ensures line_feed { (n : ℕ) → n < 2 ^ 64 → Lacks (λ c. c == 10) (decimal n) }
{}

/// Bytes without a line feed, before one, are the first line of a text, and the lines after that line feed are the others.
pub fn lines_end_at_line_feeds()
    ensures { (line rest : List ℕ) → Lacks (λ c. c == 10) line → lines_of (line ++ 10 ∷ rest) ≡ line ∷ lines_of rest }
{}

/// The nine decimals of microseconds are read as they were, and the dot before decimals is the first one.
pub fn decimals_are_read_again()
    ensures decimals { (n : ℕ) → n < 1000000 → decimals_of (nine_digits n) ≡ Some (n * 1000) }
    ensures dot { (xs r : List ℕ) → Lacks (λ c. c == 46) xs → dot_in (xs ++ 46 ∷ r) ≡ length xs }
{}

/// Levels in nanoseconds and their samples in microseconds tell one line. The samples of further levels come after those of
/// the levels before them, and whole microseconds stay as they are.
pub fn levels_are_sampled()
    ensures line { (b : Bool) (ls : List Level) (u : ℕ) → level_in b (samples_of ls) u ≡ level_of b ls u }
    ensures both { (a b : List Level) → samples_of (a ++ b) ≡ samples_of a ++ samples_of b }
    ensures whole { (at : ℕ) → at ≡ rounded (at * 1000) }
{}

/// Edges in turn keep the level before the first of them, and are in turn from each earlier instant on. An edge that is known
/// before others is not after their end.
pub fn edges_are_in_turn()
    ensures before { LevelsStayBefore }
    ensures sooner { EdgesAreInTurnSooner }
    ensures early { KnownEdgesAreEarly }
{}

/// A wave that is high from an end on has no stretch past it.
pub fn high_lines_have_ended()
    ensures { HighLinesHaveEnded }
{}

/// A track that comes to an instant stands there. It tells the edge at the instant before where the line turned, and none
/// where it did not, nor at the same instant.
pub fn tracks_tell_turns()
    ensures at { MovesComeThere }
    ensures reported { TurnsAreReported }
    ensures kept { QuietMoves }
    ensures same { MovesInPlace }
{}

/// The edges that a track makes of what it is told, level by level and instant by instant, are those of a capture, and tell
/// the line as it was sampled.
pub fn tracks_record_what_is_told()
    ensures end { EndsAreRecorded }
    ensures level { LevelsAreRecorded }
    ensures moved { MovesAreRecorded }
    ensures capture { RecordsAreCaptures }
    ensures line { RecordsAreTheLine }
{}

/// The edges of a word that is taken come before those of the words after it, and those of a line that is passed before those
/// of the lines after it; a line of one word is passed where its word is taken.
pub fn texts_are_read_in_order<S>()
    ensures word { WordsAreTaken S }
    ensures line { LinesArePassed S }
    ensures alone { WordsAloneArePassed S }
{}

/// Of a text that is read the first line is passed, or the one word of that line is taken, and the rest is read. What a word
/// leads to is the same where a refusal has the number of its word.
pub fn read_texts_go_on<S>()
    ensures lines { ReadTextsPassLines S }
    ensures words { ReadTextsTakeWords S }
    ensures steps { StepsStay S }
{}
