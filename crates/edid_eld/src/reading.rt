//! Reading an ELD.
ghost use Rattle.std.specs.Prelude.{◌≡◌, ◌≤◌, ◌+◌, ◌*◌, ◌/◌, length, IfErr, IfOk, MatchOption, MatchResult, None, OnOk, Some, drop, false, take, true};
ghost use Rattle.edid_eld.specs.Eld.{parts_of};
ghost use Rattle.edid_eld.specs.Reading.{audio_len, byte, connection_at, is_version, name_len, parts_at, refusal, stated_len, version_at};

use crate::codes::{Connection, EldVersion};
use crate::eld::Eld;
use arrayvec::ArrayVec;
use edid_base::{append, part};
use thiserror::Error;

/// The bytes before the name.
const FRONT: usize = 20;
/// The bytes of the header.
const HEADER: usize = 4;
/// The characters that a name has at most.
const NAME: usize = 16;

/// Why bytes are no ELD: the first of these that applies.
#[derive(Clone, Copy, Debug, PartialEq, Eq, Error)]
pub enum EldError {
    /// They are fewer than the 20 before the name.
    #[error("fewer than 20 bytes")]
    Short,
    /// ELD_Ver is neither 2 nor 31.
    #[error("an unknown version")]
    Version,
    /// They are fewer than the baseline block is long.
    #[error("fewer bytes than its length says")]
    Cut,
    /// The name has more than 16 characters.
    #[error("a name of more than 16 characters")]
    Name,
    /// The name and the audio descriptors are longer than the baseline block.
    #[error("a baseline block that is shorter than its parts")]
    Parts,
}

fn version_of(number: u8) -> Option<EldVersion>
    ensures { MatchOption result (is_version number ≡ false) (λ v. (is_version number ≡ true) × (v ≡ version_at number)) }
{
    match number {
        2 => Some(EldVersion::Cta861D),
        31 => Some(EldVersion::Partial),
        _ => None,
    }
}

fn connection_of(number: u8) -> Connection
    ensures { result ≡ connection_at number }
{
    match number {
        0 => Connection::Hdmi,
        1 => Connection::DisplayPort,
        2 => Connection::Reserved2,
        _ => Connection::Reserved3,
    }
}

fn name_len(bytes: &[u8]) -> usize
    requires { 20 ≤ length bytes.now }
    ensures { result ≡ name_len bytes.now }
{
    usize::from(bytes[4] % 32)
}

fn audio_len(bytes: &[u8]) -> usize
    requires { 20 ≤ length bytes.now }
    ensures value { result ≡ audio_len bytes.now }
    ensures few { result ≤ 45 }
{
    3 * usize::from(bytes[5] / 16)
}

/// Refuses bytes that are no ELD.
fn check(bytes: &[u8]) -> Result<EldVersion, EldError>
    ensures { MatchResult result (λ v. (refusal bytes.now ≡ None) × (v ≡ version_at (byte bytes.now 0 / 8))) (λ e. refusal bytes.now ≡ Some e) }
{
    if bytes.len() < FRONT {
        return Err(EldError::Short);
    }
    let version = version_of(bytes[0] / 8).ok_or(EldError::Version)?;
    let stated = HEADER + 4 * usize::from(bytes[2]);
    if bytes.len() < stated {
        return Err(EldError::Cut);
    }
    if NAME < name_len(bytes) {
        return Err(EldError::Name);
    }
    if stated < FRONT + name_len(bytes) + audio_len(bytes) {
        return Err(EldError::Parts);
    }
    Ok(version)
}

/// Bytes from a place on.
fn copied<const N: usize>(bytes: &[u8], at: usize, len: usize) -> ArrayVec<u8, N>
    requires within { at + len ≤ length bytes.now }
    requires few { len ≤ N }
    ensures items { result.items ≡ take len (drop at bytes.now) }
    ensures len { length result.items ≡ len }
{
    let mut copy = ArrayVec::new();
    append(&mut copy, &bytes[at..at + len]);
    copy
}

/// The ELD that bytes begin with, or the first reason why they are none. Bytes after the baseline block are the graphics driver's
/// own.
pub fn read_eld(bytes: &[u8]) -> Result<Eld, EldError>
    ensures read { IfOk result (λ e. parts_of e ≡ parts_at bytes.now) }
    ensures accepted { OnOk result (refusal bytes.now ≡ None) }
    ensures refused { IfErr result (λ e. refusal bytes.now ≡ Some e) }
{
    let version = check(bytes)?;
    let (name, audio) = (name_len(bytes), audio_len(bytes));
    Ok(Eld {
        version,
        cta_version: bytes[4] / 32,
        connection: connection_of(bytes[5] / 4 % 4),
        ai: bytes[5] / 2 % 2 == 1,
        hdcp: bytes[5] % 2 == 1,
        delay: bytes[6],
        speakers: bytes[7],
        port: part(bytes, 8),
        maker: part(bytes, 16),
        product: u16::from(bytes[18]) + 256 * u16::from(bytes[19]),
        name: copied(bytes, FRONT, name),
        audio: copied(bytes, FRONT + name, audio),
    })
}
