//! Laws of the spellings: no two values have the same bytes, and the bytes of a base block are accepted. Laws of lists of bytes
//! and of checksums.
ghost use Rattle.std.specs.Prelude.{◌%◌, ◌++◌, ◌<◌, ◌≡◌, ◌∷◌, List, None, Option, [], drop, get_or, sum, take, true, ℕ};
ghost use Rattle.edid_base.specs.Base.{base_bytes};
ghost use Rattle.edid_base.specs.Bytes.{are_bytes};
ghost use Rattle.edid_base.specs.Check.{block_with_checksum};
ghost use Rattle.edid_base.specs.Chroma.{chroma_bytes};
ghost use Rattle.edid_base.specs.Refusals.{refusal};
ghost use Rattle.edid_base.specs.Standard.{standard_bytes};
ghost use Rattle.edid_base.specs.declared.base.Base.{Base};
ghost use Rattle.edid_base.specs.declared.chroma.Chroma.{Chroma};
ghost use Rattle.edid_base.specs.declared.standard.StandardTiming.{StandardTiming};
ghost use Rattle.edid_base.specs.Maker.{maker_bytes};
ghost use Rattle.edid_base.specs.Timing.{timing_bytes};
ghost use Rattle.edid_base.specs.Descriptor.{descriptor_bytes};
ghost use Rattle.edid_base.specs.declared.descriptor.Descriptor.{Descriptor};
ghost use Rattle.edid_base.specs.declared.maker.Maker.{Maker};
ghost use Rattle.edid_base.specs.declared.timing.Timing.{Timing};

/// 18 bytes spell one timing at most.
pub fn one_spelling_of_timings()
    ensures { (a b : Timing) → timing_bytes a ≡ timing_bytes b → a ≡ b }
{}

/// Two bytes spell one maker at most.
pub fn one_spelling_of_makers()
    ensures { (a b : Maker) → maker_bytes a ≡ maker_bytes b → a ≡ b }
{}

/// 18 bytes spell one descriptor at most.
pub fn one_spelling_of_descriptors()
    ensures { (a b : Descriptor) → descriptor_bytes a ≡ descriptor_bytes b → a ≡ b }
{}

/// Two bytes spell one standard timing at most, or an unused place.
pub fn one_spelling_of_standards()
    ensures { (a b : Option StandardTiming) → standard_bytes a ≡ standard_bytes b → a ≡ b }
{}

/// Ten bytes spell the chromaticities of one display at most.
pub fn one_spelling_of_chromaticities()
    ensures { (a b : Chroma) → chroma_bytes a ≡ chroma_bytes b → a ≡ b }
{}

/// 128 bytes spell one base block at most.
pub fn one_spelling_of_bases()
    ensures { (a b : Base) → base_bytes a ≡ base_bytes b → a ≡ b }
{}

/// The bytes of a base block are not refused.
pub fn spelled_bases_are_accepted()
    ensures { (b : Base) → refusal (base_bytes b) ≡ None }
{}

/// What makes a list one of bytes, and what lists of bytes consist of.
/// - `each`: a list is one of bytes where each of its places holds a number below 256;
/// - `first`: a byte before bytes makes bytes;
/// - `joined`: bytes after bytes are bytes;
/// - `front`: the front of bytes is bytes;
/// - `rest`: what follows a front of bytes is bytes;
/// - `last`: what a list of bytes ends with is bytes;
/// - `place`: each place of a list of bytes holds a number below 256.
pub fn lists_of_bytes()
    ensures each { (xs : List ℕ) → ((i : ℕ) → get_or xs i 0 < 256) → are_bytes xs ≡ true }
    ensures first { (x : ℕ) (xs : List ℕ) → x < 256 → are_bytes xs ≡ true → are_bytes (x ∷ xs) ≡ true }
    ensures joined { (xs ys : List ℕ) → are_bytes xs ≡ true → are_bytes ys ≡ true → are_bytes (xs ++ ys) ≡ true }
    ensures front { (n : ℕ) (xs : List ℕ) → are_bytes xs ≡ true → are_bytes (take n xs) ≡ true }
    ensures rest { (n : ℕ) (xs : List ℕ) → are_bytes xs ≡ true → are_bytes (drop n xs) ≡ true }
    ensures last { (xs ys : List ℕ) → are_bytes (xs ++ ys) ≡ true → are_bytes ys ≡ true }
    ensures place { (xs : List ℕ) (i : ℕ) → are_bytes xs ≡ true → get_or xs i 0 < 256 }
{}

/// The checksum of a block.
/// - `zero`: a block with its checksum has a sum of 0 modulo 256;
/// - `only`: a list of bytes whose sum is 0 modulo 256 is its front with the checksum of that.
pub fn checksums_make_sums_zero()
    ensures zero { (front : List ℕ) → sum (block_with_checksum front) % 256 ≡ 0 }
    ensures only { (front : List ℕ) (last : ℕ) (xs : List ℕ) → last < 256 → sum xs % 256 ≡ 0 → front ++ (last ∷ []) ≡ xs
        → block_with_checksum front ≡ xs }
{}
