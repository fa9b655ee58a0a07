//! Laws of whole EDIDs: no two have the same bytes, and their bytes are accepted.
ghost use Rattle.std.specs.Prelude.{◌*◌, ◌+◌, ◌≡◌, ◌≤◌, List, length, true, ℕ};
ghost use Rattle.edid_core.specs.Bytes.{HasCount, HasLength, IsCounted, IsRefused, edid_bytes, has_length};
ghost use Rattle.edid_core.specs.declared.bytes.EdidError.{EdidError};
ghost use Rattle.edid_core.specs.declared.edid.Edid.{Edid};

/// Bytes spell one EDID at most.
pub fn one_spelling_of_edids()
    ensures { (a b : Edid) → edid_bytes a ≡ edid_bytes b → a ≡ b }
{}

/// The bytes of an EDID are in order.
/// - `whole`: they are one block to four;
/// - `count`: byte 126 of them says how many blocks follow the first;
/// - `accepted`: they are refused for no reason.
pub fn spelled_edids_are_accepted()
    ensures whole { (e : Edid) → HasLength (edid_bytes e) }
    ensures count { (e : Edid) → HasCount (edid_bytes e) }
    ensures accepted { (e : Edid) (cause : EdidError) → IsRefused (edid_bytes e) cause → ⊥ }
{}

/// The lengths that an EDID can have.
/// - `blocks`: bytes of such a length are one whole block to four;
/// - `known`: a block and up to three more have such a length.
pub fn lengths_are_of_whole_blocks()
    ensures blocks { (bytes : List ℕ) → has_length bytes ≡ true → IsCounted bytes }
    ensures known { (bytes : List ℕ) (more : ℕ) → more ≤ 3 → length bytes ≡ 128 + 128 * more → has_length bytes ≡ true }
{}
