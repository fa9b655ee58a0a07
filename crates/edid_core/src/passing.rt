//! The EDID that is passed on to the device in a port.
ghost use Rattle.std.specs.Prelude.{◌≡◌, ◌≤◌, ◌<◌, ◌+◌, ◌*◌, ◌++◌, ◌↔◌, None, Some, IsErr, IfOk, OnOk, length, slice_set, flat_map};
ghost use Rattle.arrayvec.specs.ArrayVec.{array_vec_len};
ghost use Rattle.edid_cta.specs.Ext.{ext_bytes};
ghost use Rattle.edid_cta.specs.Hdmi.{address_of};
ghost use Rattle.edid_base.specs.Base.{base_bytes};
ghost use Rattle.edid_core.specs.Address.{edid_address, first_address};
ghost use Rattle.edid_core.specs.Bytes.{edid_bytes};
ghost use Rattle.edid_core.specs.Passing.{passed_bytes, passed_extensions, passed_on_bytes};

use crate::address::{first_address, first_addressed};
use crate::edid::Edid;
use arrayvec::ArrayVec;
use edid_base::{Base, append, write_base};
use edid_cta::{
    Ext, NoHdmiBlock, with_address, with_audio, write_ext, write_with_address, write_with_audio,
};
use text_core::Phys;

/// Whose audio an EDID reports when it is passed on.
#[derive(Clone, Copy, Debug, PartialEq, Eq)]
pub enum AudioFrom {
    Television,
    Amplifier,
}

/// An extension with another physical address, and with an amplifier's audio. What is made on the way has a frame of its own.
#[inline(never)]
fn amplified(ext: &Ext, address: Phys) -> Result<Ext, NoHdmiBlock>
    ensures bytes { IfOk result (λ e. ext_bytes e ≡ passed_bytes AudioFrom.Amplifier address ext.now) }
    ensures addressed { IfOk result (λ e. address_of e ≡ Some address) }
    ensures refused { IsErr result ↔ (address_of ext.now ≡ None) }
{
    with_address(&with_audio(ext), address)
}

/// An extension with another physical address, and with an amplifier's audio where it is asked for.
#[inline(never)]
fn passed_extension(ext: &Ext, audio: AudioFrom, address: Phys) -> Result<Ext, NoHdmiBlock>
    ensures bytes { IfOk result (λ e. ext_bytes e ≡ passed_bytes audio address ext.now) }
    ensures addressed { IfOk result (λ e. address_of e ≡ Some address) }
    ensures refused { IsErr result ↔ (address_of ext.now ≡ None) }
{
    match audio {
        AudioFrom::Television => with_address(ext, address),
        AudioFrom::Amplifier => amplified(ext, address),
    }
}

/// The bytes of that extension.
fn write_passed(ext: &Ext, audio: AudioFrom, address: Phys) -> Result<[u8; 128], NoHdmiBlock>
    ensures bytes { IfOk result (λ bytes. bytes ≡ passed_bytes audio address ext.now) }
    ensures refused { IsErr result ↔ (address_of ext.now ≡ None) }
{
    match audio {
        AudioFrom::Television => write_with_address(ext, address),
        AudioFrom::Amplifier => write_with_audio(ext, address),
    }
}

/// Appends the bytes of extensions for which there is room.
pub fn append_extensions(bytes: &mut ArrayVec<u8, 512>, extensions: &[Ext])
    requires { array_vec_len bytes.old + 128 * length extensions.now ≤ 512 }
    ensures { bytes.new.items ≡ bytes.old.items ++ flat_map ext_bytes extensions.now }
{
    let Some((ext, others)) = extensions.split_first() else {
        return;
    };
    append(bytes, &write_ext(ext));
    append_extensions(bytes, others);
}

/// Appends the bytes of extensions for which there is room; the first one that has an HDMI block is passed on.
fn append_passed(bytes: &mut ArrayVec<u8, 512>, extensions: &[Ext], audio: AudioFrom, address: Phys)
    requires { array_vec_len bytes.old + 128 * length extensions.now ≤ 512 }
    ensures { bytes.new.items ≡ bytes.old.items ++ passed_extensions audio address extensions.now }
{
    let Some((ext, others)) = extensions.split_first() else {
        return;
    };
    match write_passed(ext, audio, address) {
        Ok(block) => {
            append(bytes, &block);
            append_extensions(bytes, others);
        }
        Err(NoHdmiBlock) => {
            append(bytes, &write_ext(ext));
            append_passed(bytes, others, audio, address);
        }
    }
}

/// The bytes of the EDID that a port passes on of the one with this base block and these extensions, as
/// [`passed_on`](Edid::passed_on) gives it: as one value an EDID is large.
pub fn write_passed_parts(
    base: &Base,
    extensions: &[Ext],
    audio: AudioFrom,
    address: Phys,
) -> Result<ArrayVec<u8, 512>, NoHdmiBlock>
    requires { length extensions.now ≤ 3 }
    ensures bytes { IfOk result (λ bytes. bytes.items ≡ base_bytes base.now ++ passed_extensions audio address extensions.now) }
    ensures refused { IsErr result ↔ (first_address extensions.now ≡ None) }
{
    if first_address(extensions).is_none() {
        return Err(NoHdmiBlock);
    }
    let mut bytes = ArrayVec::new();
    append(&mut bytes, &write_base(base));
    append_passed(&mut bytes, extensions, audio, address);
    Ok(bytes)
}

/// The same extensions.
fn copies_of(extensions: &[Ext]) -> ArrayVec<Ext, 3>
    requires { length extensions.now ≤ 3 }
    ensures { result.items ≡ extensions.now }
{
    let mut copies = ArrayVec::new();
    for ext in extensions {
        copies.push(ext.copy());
    }
    copies
}

/// Puts an extension in the place of another.
fn put(extensions: &mut ArrayVec<Ext, 3>, index: usize, ext: Ext)
    requires { index < length extensions.old.items }
    ensures { extensions.new.items ≡ slice_set extensions.old.items index ext }
{
    extensions[index] = ext;
}

/// Puts another address, and an amplifier's audio where it is asked for, into the first extension that has an HDMI block: an
/// EDID is large.
///
/// # Errors
///
/// None has one.
#[inline(never)]
pub fn pass_on_extensions(
    list: &mut ArrayVec<Ext, 3>,
    audio: AudioFrom,
    address: Phys,
) -> Result<(), NoHdmiBlock>
    ensures bytes { OnOk result (flat_map ext_bytes list.new.items ≡ passed_extensions audio address list.old.items) }
    ensures addressed { OnOk result (first_address list.new.items ≡ Some address) }
    ensures count { length list.new.items ≡ length list.old.items }
    ensures refused { IsErr result ↔ (first_address list.old.items ≡ None) }
{
    let extensions = list.as_slice();
    let Some(index) = first_addressed(extensions) else {
        return Err(NoHdmiBlock);
    };
    match passed_extension(&extensions[index], audio, address) {
        Err(refused) => Err(refused),
        Ok(passed) => {
            put(list, index, passed);
            Ok(())
        }
    }
}

impl Edid {
    /// The EDID that a port with this address passes on. In the first extension that has an HDMI block, the audio is
    /// the amplifier's where it is asked for, the two bytes of the address in that block are the port's, and the
    /// checksum is mended; all other bytes stay (HDMI 1.4, section 8.7.3).
    pub fn passed_on(&self, audio: AudioFrom, address: Phys) -> Result<Edid, NoHdmiBlock>
        ensures bytes { IfOk result (λ e. edid_bytes e ≡ passed_on_bytes audio address self.now) }
        ensures addressed { IfOk result (λ e. edid_address e ≡ Some address) }
        ensures refused { IsErr result ↔ (edid_address self.now ≡ None) }
    {
        let mut extensions = copies_of(self.extensions.as_slice());
        match pass_on_extensions(&mut extensions, audio, address) {
            Err(refused) => Err(refused),
            Ok(()) => Ok(Edid {
                base: self.base.copy(),
                extensions,
            }),
        }
    }

    /// The bytes of the EDID that [`passed_on`](Edid::passed_on) gives.
    pub fn write_passed_on(
        &self,
        audio: AudioFrom,
        address: Phys,
    ) -> Result<ArrayVec<u8, 512>, NoHdmiBlock>
        ensures bytes { IfOk result (λ bytes. bytes.items ≡ passed_on_bytes audio address self.now) }
        ensures refused { IsErr result ↔ (edid_address self.now ≡ None) }
    {
        write_passed_parts(&self.base, self.extensions.as_slice(), audio, address)
    }
}
