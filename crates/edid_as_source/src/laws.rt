//! Laws of what a source takes.
ghost use Rattle.std.specs.Prelude.{◌≡◌, ℕ, List, [], Ok};
ghost use Rattle.edid_as_source.specs.Count.{counted};
ghost use Rattle.edid_as_source.specs.Laws.{IsTakenStrictly};
ghost use Rattle.edid_as_source.specs.Mend.{OthersStay, SumsAreRight};
ghost use Rattle.edid_as_source.specs.Notes.{notes_text};
ghost use Rattle.edid_as_source.specs.Source.{as_source};

/// What `as_source` gives is an EDID: the strict reader refuses it for no reason.
pub fn mended_bytes_are_taken()
    ensures { IsTakenStrictly }
{}

/// What `as_source` gives is as a source takes it.
/// - `again`: what a source takes of it is the same bytes;
/// - `silent`: nothing of it is mended or passed over;
/// - `counted`: as many extensions are counted by the override as by byte 126.
pub fn mended_bytes_stay()
    ensures again { (bytes mended : List ℕ) → as_source bytes ≡ Ok mended → as_source mended ≡ Ok mended }
    ensures silent { (bytes mended : List ℕ) → as_source bytes ≡ Ok mended → notes_text mended ≡ [] }
    ensures counted { (bytes mended : List ℕ) → as_source bytes ≡ Ok mended → counted mended ≡ Ok mended }
{}

/// What `mended` gives has right sums, and is otherwise the bytes that it was given.
/// - `sums`: the bytes of each block sum to 0 modulo 256;
/// - `others`: there are as many bytes, and each is the same but the last of a block, byte 126 and the override's count.
pub fn mended_sums_are_right()
    ensures sums { SumsAreRight }
    ensures others { OthersStay }
{}
