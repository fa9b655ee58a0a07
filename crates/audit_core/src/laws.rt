//! Laws of audits, and of texts without a line feed.
ghost use Rattle.std.specs.Prelude.{◌++◌, ◌==◌, ◌≡◌, ◌∷◌, Bool, List, Option, [], find, if◌then◌else◌, not, option_map, true, unwrap_or, ℕ};
ghost use Rattle.std.specs.Fmt.{decimal};
ghost use Rattle.std.specs.List.{list_all};
ghost use Rattle.text_core.specs.Piece.{hex_text, nibble_text, phys_text};
ghost use Rattle.text_core.specs.declared.phys.Phys.{Phys};
ghost use Rattle.line_frames.specs.declared.Reading.{Reading};
ghost use Rattle.message_table.specs.Table.{Row};
ghost use Rattle.message_table.specs.WordSets.{NamedByte, word_of};
ghost use Rattle.message_text.specs.FrameText.{frame_text};
ghost use Rattle.message_text.specs.ReadingText.{reading_text};
ghost use Rattle.audit_core.specs.Audit.{AuditsAreLines, ReadingsAreLines};
ghost use Rattle.audit_core.specs.Endings.{EndingsAreSaid};
ghost use Rattle.audit_core.specs.Kept.{AuditsKeepReadings, IsPlain, IsRemark, PlainIf, is_remark, shown, without_remarks};

/// Without the lines that begin with a space an audit is what a monitor writes of the capture, to the byte; and those lines
/// begin with two, and stand below the reading that they are remarked of, or at the end.
pub fn audits_keep_readings()
    ensures { AuditsKeepReadings }
{}

/// Of each reading that is not whole is said how it ends, by a width of its last slot, a low drive, a block, or a line of its own: what
/// the standard has otherwise, or a lawful cause. Only a bit behind a frame that broke, and bad starts after a bad start, are passed
/// over.
pub fn endings_are_said()
    ensures { EndingsAreSaid }
{}

/// The text of an audit, and that of readings, is that of its lines.
pub fn audits_are_lines()
    ensures audits { AuditsAreLines }
    ensures readings { ReadingsAreLines }
{}

/// Which lines are left out of a text without its remarks.
/// - `line`: a line before others is left out where it begins with a space, and else stays before what is left of them;
/// - `remark`: a remark before others is left out.
pub fn remarks_are_left_out()
    ensures line { (line rest : List ℕ) (b : Bool) → is_remark line ≡ b → IsPlain line
        → without_remarks ((line ++ 10 ∷ []) ++ rest) ≡ (if b then without_remarks rest else (line ++ 10 ∷ []) ++ without_remarks rest) }
    ensures remark { (line rest : List ℕ) → IsRemark line → without_remarks (line ++ rest) ≡ without_remarks rest }
{}

/// Texts in which there is no line feed.
/// - `joined`: one such text after another;
/// - `tested`: a text whose characters were tested;
/// - `number`, `byte`, `digit`: a number in decimal, a byte in hex, and a hex digit;
/// - `address`: a physical address;
/// - `otherwise`: a text that stands in for one that may be absent.
pub fn texts_without_a_line_feed()
    ensures joined { (xs ys : List ℕ) → IsPlain xs → IsPlain ys → IsPlain (xs ++ ys) }
    ensures tested { (xs : List ℕ) → list_all (λ c. not (c == 10)) xs ≡ true → IsPlain xs }
    ensures number { (n : ℕ) → IsPlain (decimal n) }
    ensures byte { (n : ℕ) → IsPlain (hex_text n) }
    ensures digit { (n : ℕ) → IsPlain (nibble_text n) }
    ensures address { (p : Phys) → IsPlain (phys_text p) }
    ensures otherwise { (o : Option (List ℕ)) (other : List ℕ) → PlainIf o → IsPlain other → IsPlain (unwrap_or o other) }
{}

/// The words of a table in which no word has a line feed have none.
/// - `named`: the name of a code in a table of messages;
/// - `worded`: the word of a byte in a table of words.
pub fn words_without_a_line_feed()
    ensures named { (table : List Row) → list_all (λ (r : Row). shown r.name) table ≡ true
        → (code : ℕ) → PlainIf (option_map (λ (r : Row). r.name) (find (λ (r : Row). r.code == code) table)) }
    ensures worded { (table : List NamedByte) → list_all (λ (w : NamedByte). shown w.text) table ≡ true → (byte : ℕ) → PlainIf (word_of table byte) }
{}

/// The text of a frame, and that of a reading, has no line feed in it.
pub fn frames_and_readings_are_one_line()
    ensures frame { (frame : List ℕ) → IsPlain (frame_text frame) }
    ensures reading { (r : Reading) → IsPlain (reading_text r) }
{}
