//! What a receiver answers with.
ghost use Rattle.std.specs.Prelude.{◌≡◌, IfErr, IfOk};
ghost use Rattle.std.specs.List.{list_any};
ghost use Rattle.edid_merge.specs.Merge.{IsNoAnswer};
ghost use Rattle.rules_contents.specs.Contents.{is_forum_block};
ghost use Rattle.rules_values.specs.ExtParts.{some_block};
ghost use Rattle.conversion_fit.specs.Answers.{IsAnswer, IsPassed, leaves_out};

use crate::edid::fitted_edid;
use arrayvec::ArrayVec;
use edid_core::{Edid, edid_to_bytes};
use edid_cta::{DataBlock, Ext};
use edid_merge::{Formats, MergeError, Table, merge, one_edid};
use rules_contents::is_forum_block;
use rules_values::blocks_of;

fn some_forum_in(blocks: &[DataBlock]) -> bool
    ensures { result ≡ list_any is_forum_block blocks.now }
{
    blocks.iter().any(|block| is_forum_block(block))
}

/// Whether there is a block of the HDMI Forum.
fn some_forum(extensions: &[Ext]) -> bool
    ensures { result ≡ some_block is_forum_block extensions.now }
{
    extensions.iter().any(|ext| some_forum_in(blocks_of(ext)))
}

/// Whether formats are left out.
fn leaves_out(formats: Formats, own: &Edid) -> bool
    ensures { result ≡ leaves_out formats own.now }
{
    match formats {
        Formats::All => false,
        Formats::Carried => true,
        Formats::ByForum => !some_forum(own.extensions.as_slice()),
    }
}

/// What is passed on of what was made of two EDIDs.
fn passed(table: &Table, own: &Edid, merged: Edid) -> Edid
    ensures { IsPassed table.now own.now merged result }
{
    if leaves_out(table.formats, own) {
        fitted_edid(&merged)
    } else {
        merged
    }
}

/// The bytes of the EDID that a receiver answers with by a table, of the bytes of a display's and of its own.
///
/// # Errors
///
/// The first reason why there is none.
pub fn merge_bytes(
    table: &Table,
    display: &[u8],
    own: &[u8],
) -> Result<ArrayVec<u8, 512>, MergeError>
    ensures merged { IfOk result (λ bytes. IsAnswer table.now display.now own.now bytes.items) }
    ensures refused { IfErr result (λ error. IsNoAnswer table.now display.now own.now error) }
{
    let shown = match one_edid(display) {
        Err(cause) => return Err(MergeError::Display(cause)),
        Ok(edid) => edid,
    };
    let known = match one_edid(own) {
        Err(cause) => return Err(MergeError::Receiver(cause)),
        Ok(edid) => edid,
    };
    match merge(table, &shown, &known) {
        Err(_) => Err(MergeError::Long),
        Ok(merged) => Ok(edid_to_bytes(&passed(table, &known, merged))),
    }
}
