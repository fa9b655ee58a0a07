//! The EDID that a device is given, what is wrong with it, and the address in an EDID.
ghost use Rattle.std.specs.Prelude.{◌≡◌, ◌↔◌, false, IsTrue};
ghost use Rattle.text_core.specs.Written.{WrittenLine};
ghost use Rattle.conversion_calls.specs.PassedOn.{AddressAnswers, PassedAnswers, PassedFindingAnswers, address_line, is_cut, is_check_cut};

use crate::form::{EdidForm, write_in};
use crate::passing::{PassOnError, Passing, pass_on};
use arrayvec::ArrayVec;
use edid_core::{first_address, read_parts};
use edid_cta::Ext;
use rules_check::{Origin, check, has_failure, write_findings};
use text_core::{Phys, Piece, Sink, WriteFault, write_line};

/// Writes the EDID that is passed on of the one that some bytes spell, to a device at a place: its address stands in the
/// first HDMI block, the audio is the amplifier's where it is asked for, and the checksum is mended; all other bytes stay
/// (HDMI 1.4, section 8.7.3).
///
/// # Errors
///
/// `PortRange` where no device has such a port, `Edid` with the first reason why the bytes spell none, `NoHdmiBlock` where
/// it has no HDMI block, in this order: then nothing was written. `Write` where the sink takes no more: then the front of
/// what was to be written was, as long as it reports.
#[inline(never)]
pub fn write_passed_on<S: Sink>(
    bytes: &[u8],
    passing: Passing,
    form: EdidForm,
    out: &mut S,
) -> Result<(), PassOnError>
    ensures answers { PassedAnswers (S.contents out.old) (S.contents out.new) (S.is_stuck out.old) (S.is_stuck out.new) bytes.now passing form result }
    ensures write { S.is_stuck out.old ≡ false → (IsTrue (is_cut result) ↔ IsTrue (S.is_stuck out.new)) }
{
    let mut extensions = ArrayVec::new();
    match &pass_on(bytes, passing, &mut extensions) {
        Err(error) => Err(*error),
        Ok(base) => match write_in(base, &extensions, form, out) {
            Ok(()) => Ok(()),
            Err(fault) => Err(PassOnError::Write(fault.count)),
        },
    }
}

/// Writes a line for each rule that the EDID breaks that is passed on of the one that some bytes spell, as
/// `edid_to_findings` does. One rule is asked of it alone: its address is not that of the root, 0.0.0.0. Returns whether
/// one of them is a failure, and not a warning alone.
///
/// # Errors
///
/// As of `write_passed_on`.
#[inline(never)]
pub fn check_passed_on<S: Sink>(
    bytes: &[u8],
    passing: Passing,
    out: &mut S,
) -> Result<bool, PassOnError>
    ensures answers { PassedFindingAnswers (S.contents out.old) (S.contents out.new) (S.is_stuck out.old) (S.is_stuck out.new) bytes.now passing result }
    ensures write { S.is_stuck out.old ≡ false → (IsTrue (is_check_cut result) ↔ IsTrue (S.is_stuck out.new)) }
{
    let mut extensions = ArrayVec::new();
    match &pass_on(bytes, passing, &mut extensions) {
        Err(error) => Err(*error),
        Ok(base) => {
            let found = check(Origin::Port, base, extensions.as_slice());
            match write_findings(out, found.as_slice()) {
                Ok(()) => Ok(has_failure(found.as_slice())),
                Err(fault) => Err(PassOnError::Write(fault.count)),
            }
        }
    }
}

// Writes an address as a line.
fn write_address_line<S: Sink>(address: Phys, out: &mut S) -> Result<u128, WriteFault>
    ensures { WrittenLine (S.contents out.old) (S.contents out.new) (S.is_stuck out.old) (S.is_stuck out.new) (address_line address) result }
{
    write_line(out, &[Piece::Phys(address), Piece::Text("\n")])
}

/// Writes the physical address in the first HDMI block of the EDID that some bytes spell, as a line.
///
/// # Errors
///
/// `Edid` with the first reason why the bytes spell none, `NoHdmiBlock` where it has no HDMI block: then nothing was
/// written. `Write` where the sink takes no more: then the front of the line was written, as long as it reports.
#[inline(never)]
pub fn write_address<S: Sink>(bytes: &[u8], out: &mut S) -> Result<(), PassOnError>
    ensures answers { AddressAnswers (S.contents out.old) (S.contents out.new) (S.is_stuck out.old) (S.is_stuck out.new) bytes.now result }
    ensures write { S.is_stuck out.old ≡ false → (IsTrue (is_cut result) ↔ IsTrue (S.is_stuck out.new)) }
{
    let mut extensions = ArrayVec::new();
    match &read_parts(bytes, &mut extensions) {
        Err(cause) => Err(PassOnError::Edid(*cause)),
        Ok(_base) => match first_address(extensions.as_slice()) {
            None => Err(PassOnError::NoHdmiBlock),
            Some(address) => match write_address_line(address, out) {
                Ok(_) => Ok(()),
                Err(fault) => Err(PassOnError::Write(fault.count)),
            },
        },
    }
}
