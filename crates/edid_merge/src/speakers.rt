//! The speakers of an amplifier.
ghost use Rattle.std.specs.Prelude.{◌≡◌, ◌≤◌, ◌<◌, ◌+◌, ◌++◌, IfErr, IfOk, true, flat_map, length, not, filter};
ghost use Rattle.arrayvec.specs.ArrayVec.{array_vec_len};
ghost use Rattle.std.specs.List.{list_any};
ghost use Rattle.edid_cta.specs.Audio.{is_audio};
ghost use Rattle.edid_cta.specs.Block.{block_bytes};
ghost use Rattle.edid_cta.specs.Ext.{ext_bytes};
ghost use Rattle.edid_core.specs.Address.{has_address};
ghost use Rattle.edid_core.specs.Bytes.{edid_bytes};
ghost use Rattle.edid_base.specs.Timing.{timing_bytes};
ghost use Rattle.edid_merge.specs.Speakers.{IsSpoken, IsSpokenOf, IsUnspoken, fits, fits_ext, has_room, has_sound, mute_blocks, spoken_after, spoken_body, spoken_cta, spoken_ext, spoken_extensions};

use crate::extension::{cta_block, with_zeros};
use crate::subject::{Subject, is_of};
use arrayvec::ArrayVec;
use edid_base::{Timing, append, are_zeros};
use edid_core::{Edid, EdidError, edid_from_bytes, edid_to_bytes};
use edid_cta::{Cta, DataBlock, Ext, hdmi_address};
use thiserror::Error;

/// Why an EDID does not get the speakers of an amplifier.
#[derive(Clone, Copy, Debug, PartialEq, Eq, Error)]
pub enum SpeakersError {
    /// The bytes are no EDID.
    #[error("{0}")]
    Edid(EdidError),
    /// The extension has no room for them, or something else than zeros after its timings.
    #[error("no-room")]
    NoRoom,
}

/// The data block of six speakers, and two behind.
const SPEAKERS: [u8; 4] = [0x83, 0x4f, 0, 0];

/// Room for the data blocks and timings of an extension, and for the speakers.
const ROOM: usize = 256;

// Adds data blocks but those of speakers.
fn add_mute(out: &mut ArrayVec<u8, ROOM>, blocks: &[DataBlock])
    requires { array_vec_len out.old + length (flat_map block_bytes blocks.now) ≤ 256 }
    ensures items { out.new.items ≡ out.old.items ++ mute_blocks blocks.now }
    ensures len { array_vec_len out.new ≤ array_vec_len out.old + length (flat_map block_bytes blocks.now) }
{
    let [block, rest @ ..] = blocks else {
        return;
    };
    if is_of(Subject::Speakers, block) {
        add_mute(out, rest);
    } else {
        append(out, block.write().as_slice());
        add_mute(out, rest);
    }
}

// Adds data blocks, of which those of speakers are the amplifier's.
fn add_spoken(out: &mut ArrayVec<u8, ROOM>, blocks: &[DataBlock])
    requires { array_vec_len out.old + length (flat_map block_bytes blocks.now) ≤ 252 }
    ensures items { out.new.items ≡ out.old.items ++ spoken_after blocks.now }
    ensures len { array_vec_len out.new ≤ array_vec_len out.old + length (flat_map block_bytes blocks.now) + 4 }
{
    let [block, rest @ ..] = blocks else {
        return;
    };
    if block.is_audio() {
        append(out, block.write().as_slice());
        append(out, &SPEAKERS);
        add_mute(out, rest);
    } else if is_of(Subject::Speakers, block) {
        add_spoken(out, rest);
    } else {
        append(out, block.write().as_slice());
        add_spoken(out, rest);
    }
}

// Adds timings.
fn add_timings(out: &mut ArrayVec<u8, ROOM>, timings: &[Timing])
    requires { array_vec_len out.old + length (flat_map timing_bytes timings.now) ≤ 256 }
    ensures { out.new.items ≡ out.old.items ++ flat_map timing_bytes timings.now }
{
    let [timing, rest @ ..] = timings else {
        return;
    };
    append(out, &timing.write());
    add_timings(out, rest);
}

fn has_sound(cta: &Cta) -> bool
    ensures { result ≡ has_sound cta.now }
{
    cta.blocks.as_slice().iter().any(|block| block.is_audio())
}

// Data blocks with the speakers, and the timings, and where the data blocks end.
fn spoken_body(cta: &Cta) -> (ArrayVec<u8, ROOM>, usize)
    ensures items { result.0.items ≡ spoken_body cta.now }
    ensures end { result.1 ≡ length (spoken_after cta.now.blocks.items) }
    ensures front { result.1 ≤ length result.0.items }
{
    let mut body = ArrayVec::new();
    add_spoken(&mut body, cta.blocks.as_slice());
    let end = body.len();
    add_timings(&mut body, cta.timings.as_slice());
    (body, end)
}

fn has_room(cta: &Cta) -> bool
    ensures { result ≡ has_room cta.now }
{
    let (body, _end) = spoken_body(cta);
    are_zeros(cta.tail.as_slice()) && body.len() < 124
}

// The extension with the speakers, which have room.
fn spoken_cta(cta: &Cta) -> Ext
    requires { has_room cta.now ≡ true }
    ensures { ext_bytes result ≡ spoken_cta cta.now }
{
    let (body, end) = spoken_body(cta);
    cta_block(
        cta.flags,
        end as u8 + 4,
        with_zeros(body.as_slice()).as_slice(),
    )
}

fn fits_ext(ext: &Ext) -> bool
    ensures { result ≡ fits_ext ext.now }
{
    match ext {
        Ext::Cta(cta) => !has_sound(cta) || has_room(cta),
        Ext::Bare(_) | Ext::Raw(_) => true,
    }
}

fn spoken_ext(ext: &Ext) -> Ext
    requires { fits_ext ext.now ≡ true }
    ensures { ext_bytes result ≡ spoken_ext ext.now }
{
    match ext {
        Ext::Cta(cta) => {
            if has_sound(cta) {
                spoken_cta(cta)
            } else {
                ext.copy()
            }
        }
        Ext::Bare(_) | Ext::Raw(_) => ext.copy(),
    }
}

fn has_address(ext: &Ext) -> bool
    ensures { result ≡ has_address ext.now }
{
    hdmi_address(ext).is_some()
}

// Whether the speakers have room in the first extension with an HDMI block.
fn fits(extensions: &[Ext]) -> bool
    ensures { result ≡ fits extensions.now }
{
    let [ext, rest @ ..] = extensions else {
        return true;
    };
    if has_address(ext) {
        fits_ext(ext)
    } else {
        fits(rest)
    }
}

// Adds extensions as they are.
fn add_extensions(out: &mut ArrayVec<Ext, 3>, extensions: &[Ext])
    requires { length out.old.items + length extensions.now ≤ 3 }
    ensures bytes { flat_map ext_bytes out.new.items ≡ flat_map ext_bytes out.old.items ++ flat_map ext_bytes extensions.now }
    ensures count { length out.new.items ≡ length out.old.items + length extensions.now }
{
    let [ext, rest @ ..] = extensions else {
        return;
    };
    out.push(ext.copy());
    add_extensions(out, rest);
}

// Adds extensions, of which the first one with an HDMI block has the speakers.
fn add_spoken_extensions(out: &mut ArrayVec<Ext, 3>, extensions: &[Ext])
    requires room { length out.old.items + length extensions.now ≤ 3 }
    requires fits { fits extensions.now ≡ true }
    ensures bytes { flat_map ext_bytes out.new.items ≡ flat_map ext_bytes out.old.items ++ spoken_extensions extensions.now }
    ensures count { length out.new.items ≡ length out.old.items + length extensions.now }
{
    let [ext, rest @ ..] = extensions else {
        return;
    };
    if has_address(ext) {
        out.push(spoken_ext(ext));
        add_extensions(out, rest);
    } else {
        out.push(ext.copy());
        add_spoken_extensions(out, rest);
    }
}

// The EDID with the speakers, which have room.
fn spoken_edid(edid: &Edid) -> Edid
    requires { fits edid.now.extensions.items ≡ true }
    ensures { IsSpokenOf edid.now result }
{
    let mut extensions = ArrayVec::new();
    add_spoken_extensions(&mut extensions, edid.extensions.as_slice());
    Edid {
        base: edid.base.copy(),
        extensions,
    }
}

/// The bytes of an EDID with the speakers of an amplifier: in the first extension that has an HDMI block, where it has an audio
/// block, they stand after that, in the place of others; what follows moves, zeros at the end make up for it, and the checksum is
/// mended.
///
/// # Errors
///
/// `Edid` with the first reason why the bytes spell none; `NoRoom` where they have no room, or something else than zeros stands
/// after the timings.
pub fn with_speakers(bytes: &[u8]) -> Result<ArrayVec<u8, 512>, SpeakersError>
    ensures spoken { IfOk result (λ new. IsSpoken bytes.now new.items) }
    ensures refused { IfErr result (λ error. IsUnspoken bytes.now error) }
{
    match edid_from_bytes(bytes) {
        Err(cause) => Err(SpeakersError::Edid(cause)),
        Ok(edid) => {
            if fits(edid.extensions.as_slice()) {
                Ok(edid_to_bytes(&spoken_edid(&edid)))
            } else {
                Err(SpeakersError::NoRoom)
            }
        }
    }
}
