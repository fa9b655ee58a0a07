//! Laws of the text of an EDID and its lines.
ghost use Rattle.std.specs.Prelude.{◌+◌, ◌++◌, ◌<◌, ◌==◌, ◌≡◌, ◌≤◌, ◌∷◌, List, None, Some, [], drop, length, position, take, true, ℕ};
ghost use Rattle.edid_base.specs.declared.base.Base.{Base};
ghost use Rattle.edid_cta.specs.declared.raw.Ext.{Ext};
ghost use Rattle.edid_core.specs.declared.edid.Edid.{Edid as EdidValue};
ghost use Rattle.edid_texts.specs.Cut.{AreLines, has_no_feed, lines_with_feeds};
ghost use Rattle.edid_texts.specs.Lines.{edid_lines, part_lines};

/// A line of a text ends with the first line feed in it.
/// - `ended`: the first line of a text ends with the text's first line feed;
/// - `alone`: a text that is not empty and has no line feed is one line;
/// - `split`: a text without a line feed is a line with the line feed after it.
pub fn lines_end_with_feeds()
    ensures ended { (text : List ℕ) (end : ℕ) → position (λ b. b == 10) text ≡ Some end
        → lines_with_feeds text ≡ take (end + 1) text ∷ lines_with_feeds (drop (end + 1) text) }
    ensures alone { (text : List ℕ) → 0 < length text → position (λ b. b == 10) text ≡ None → lines_with_feeds text ≡ text ∷ [] }
    ensures split { (line rest : List ℕ) → has_no_feed line ≡ true
        → lines_with_feeds (line ++ (10 ∷ rest)) ≡ (line ++ (10 ∷ [])) ∷ lines_with_feeds rest }
{}

/// Each line of an EDID is one line of a text, whatever follows it.
pub fn lines_of_edids_are_lines()
    ensures { (e : EdidValue) → AreLines (edid_lines e) }
{}

/// A base block with up to three extensions has 398 lines at most.
pub fn edids_have_few_lines()
    ensures { (b : Base) (xs : List Ext) → length xs ≤ 3 → length (part_lines b xs) ≤ 398 }
{}

/// Two EDIDs with the same lines are the same.
pub fn lines_are_of_one_edid()
    ensures { (e f : EdidValue) → edid_lines e ≡ edid_lines f → e ≡ f }
{}
