//! The EDID that is passed on to a device: with another address, and with an amplifier's audio.
ghost use Rattle.std.specs.Prelude.{◌≡◌, ◌≤◌, [], IfOk, IfErr, IsTrue};
ghost use Rattle.conversion_calls.specs.Passing.{address_in, is_place, place_address, IsPassedOnIn, IsNotPassedOn};

use arrayvec::ArrayVec;
use edid_base::Base;
use edid_core::{AudioFrom, EdidError, first_address, pass_on_extensions, read_parts};
use edid_cta::Ext;
use text_core::Phys;
use thiserror::Error;

/// The greatest number of a port.
const LAST_PORT: u8 = 15;

/// Where the device stands that an EDID is passed on to.
#[derive(Clone, Copy, Debug, PartialEq, Eq)]
pub enum Destination {
    /// At this address.
    Address(Phys),
    /// In this port, from 1 to 15, of the device that has the EDID's own address.
    Port(u8),
}

/// What is passed on of an EDID.
#[derive(Clone, Copy, Debug, PartialEq, Eq)]
pub struct Passing {
    pub place: Destination,
    /// Whose audio it has: an amplifier's where one is on the way.
    pub audio: AudioFrom,
}

/// Why an EDID is not passed on, or has no address.
#[derive(Clone, Copy, Debug, PartialEq, Eq, Error)]
pub enum PassOnError {
    /// No device has a port of this number. Nothing was written.
    #[error("edid: port-range")]
    PortRange,
    /// The bytes are no EDID. Nothing was written.
    #[error("edid: {0}")]
    Edid(EdidError),
    /// No HDMI block is in it, so no address. Nothing was written.
    #[error("edid: no-hdmi-block")]
    NoHdmiBlock,
    /// A `put` took none. So many bytes were written.
    #[error("write fault after {0} bytes")]
    Write(u128),
}

/// The address in a port of the device with an address: the port stands in its first free place (HDMI 1.4, section 8.7.2).
fn address_in(own: Phys, port: u8) -> Phys
    requires { port ≤ 15 }
    ensures { result ≡ address_in own port }
{
    let (a, b, c, d) = (own.high / 16, own.high % 16, own.low / 16, own.low % 16);
    if a == 0 {
        Phys::of_nibbles(port, 0, 0, 0)
    } else if b == 0 {
        Phys::of_nibbles(a, port, 0, 0)
    } else if c == 0 {
        Phys::of_nibbles(a, b, port, 0)
    } else if d == 0 {
        Phys::of_nibbles(a, b, c, port)
    } else {
        Phys::of_nibbles(15, 15, 15, 15)
    }
}

fn is_place(place: Destination) -> bool
    ensures { result ≡ is_place place }
{
    match place {
        Destination::Address(_) => true,
        Destination::Port(port) => 0 < port && port <= LAST_PORT,
    }
}

fn place_address(place: Destination, own: Phys) -> Phys
    requires { IsTrue (is_place place) }
    ensures { result ≡ place_address place own }
{
    match place {
        Destination::Address(address) => address,
        Destination::Port(port) => address_in(own, port),
    }
}

/// The EDID that is passed on of the one that some bytes spell: its base block. Its extensions are put into an empty list
/// of the caller's, since an EDID is large.
#[inline(never)]
pub(crate) fn pass_on(
    bytes: &[u8],
    passing: Passing,
    extensions: &mut ArrayVec<Ext, 3>,
) -> Result<Base, PassOnError>
    requires fresh { extensions.old.items ≡ [] }
    ensures passed { IfOk result (λ base. IsPassedOnIn bytes.now passing base extensions.new.items) }
    ensures refused { IfErr result (λ e. IsNotPassedOn bytes.now passing e) }
{
    if !is_place(passing.place) {
        return Err(PassOnError::PortRange);
    }
    let base = match read_parts(bytes, extensions) {
        Err(cause) => return Err(PassOnError::Edid(cause)),
        Ok(base) => base,
    };
    let Some(own) = first_address(extensions.as_slice()) else {
        return Err(PassOnError::NoHdmiBlock);
    };
    match pass_on_extensions(extensions, passing.audio, place_address(passing.place, own)) {
        Err(_) => Err(PassOnError::NoHdmiBlock),
        Ok(()) => Ok(base),
    }
}
