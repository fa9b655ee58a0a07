//! The laws.
ghost use Rattle.std.specs.Prelude.{ℕ, ◌≡◌, ◌<◌, true, Some, length, map, slice_get, count_by};
ghost use Rattle.edid_base.specs.declared.standard.StandardTiming.{StandardTiming as StandardValue};
ghost use Rattle.meaning_words.specs.Notes.{is_set, set_lines};
ghost use Rattle.meaning_words.specs.Formats.{formats, format_of};
ghost use Rattle.meaning_words.specs.declared.formats.VideoFormat.{VideoFormat as FormatValue};
ghost use Rattle.meaning_base.specs.Established.{established_rows};
ghost use Rattle.meaning_base.specs.Figures.{standard_height};
ghost use Rattle.edid_laws.specs.Rising.{rise};

/// The codes of the video formats rise, and each format is found by its own code: so a code stands for one format at most.
pub fn a_code_has_one_format()
    ensures rising { rise (map (λ (f : FormatValue). f.code) formats) ≡ true }
    ensures found { (f : FormatValue) (k : ℕ) → slice_get formats k ≡ Some f → format_of f.code ≡ Some f }
{}

/// The established timings have as many lines as bits that are set among the 17.
pub fn a_line_for_each_established_timing()
    ensures { (bits : ℕ) → length (set_lines established_rows bits) ≡ count_by (λ r. is_set bits r.weight) established_rows }
{}

/// A standard timing has lines, whatever its aspect is.
pub fn standard_timings_have_lines()
    ensures { (s : StandardValue) → 0 < standard_height s.width s.aspect }
{}
