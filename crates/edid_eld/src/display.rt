//! The ELD of a display.
ghost use Rattle.std.specs.Prelude.{◌≡◌, ◌<◌, ◌≤◌, ◌+◌, [], drop, flat_map, length, option_to_list, IfSome};
ghost use Rattle.std.specs.List.{prefix_len};
ghost use Rattle.edid_base.specs.Descriptor.{descriptor_bytes};
ghost use Rattle.edid_eld.specs.Display.{before_feed, display_parts, first_of, is_before_feed, is_named, last_of, named_in, names_in, version_in};
ghost use Rattle.edid_eld.specs.Eld.{eld_bytes, parts_of};

use crate::codes::{Connection, EldVersion};
use crate::eld::Eld;
use crate::sound::Sound;
use arrayvec::ArrayVec;
use edid_base::{Base, Descriptor, append};
use edid_cta::Ext;

/// How many characters stand before the line feed.
fn feed_place(chars: &[u8]) -> usize
    ensures { result ≡ prefix_len is_before_feed chars.now }
{
    chars.iter().take_while(|byte| **byte != 0x0a).count()
}

/// The characters before the line feed.
#[tactic(auto, using(crate::proofs::Joined::prefix_short))]
fn before_feed(chars: &[u8]) -> &[u8]
    ensures value { result.now ≡ before_feed chars.now }
    ensures short { length result.now ≤ length chars.now }
{
    &chars[..feed_place(chars)]
}

fn is_named(bytes: &[u8; 18]) -> bool
    ensures { result ≡ is_named bytes.now }
{
    bytes[0] == 0 && bytes[1] == 0 && bytes[2] == 0 && bytes[3] == 0xfc
}

/// The bytes from a place on.
fn rest(bytes: &[u8], at: usize) -> &[u8]
    requires { at ≤ length bytes.now }
    ensures value { result.now ≡ drop at bytes.now }
    ensures len { at + length result.now ≡ length bytes.now }
{
    &bytes[at..]
}

fn name_from(chars: &[u8]) -> ArrayVec<u8, 16>
    requires { length chars.now ≤ 16 }
    ensures items { result.items ≡ chars.now }
    ensures short { length result.items ≤ 16 }
{
    let mut name = ArrayVec::new();
    append(&mut name, chars);
    name
}

fn name_in(bytes: &[u8; 18]) -> ArrayVec<u8, 16>
    ensures items { result.items ≡ before_feed (drop 5 bytes.now) }
    ensures short { length result.items ≤ 16 }
{
    name_from(before_feed(rest(bytes, 5)))
}

fn named_or(bytes: &[u8; 18], other: ArrayVec<u8, 16>) -> ArrayVec<u8, 16>
    requires { length other.items ≤ 16 }
    ensures items { result.items ≡ last_of other.items (named_in bytes.now) }
    ensures short { length result.items ≤ 16 }
{
    if is_named(bytes) {
        name_in(bytes)
    } else {
        other
    }
}

fn name_or(descriptor: &Descriptor, other: ArrayVec<u8, 16>) -> ArrayVec<u8, 16>
    requires { length other.items ≤ 16 }
    ensures items { result.items ≡ last_of other.items (names_in descriptor.now) }
    ensures short { length result.items ≤ 16 }
{
    let bytes = descriptor.write();
    named_or(&bytes, other)
}

fn name_of(descriptors: &[Descriptor], other: ArrayVec<u8, 16>) -> ArrayVec<u8, 16>
    requires { length other.items ≤ 16 }
    ensures items { result.items ≡ last_of other.items (flat_map names_in descriptors.now) }
    ensures short { length result.items ≤ 16 }
{
    if let [descriptor, others @ ..] = descriptors {
        name_of(others, name_or(descriptor, other))
    } else {
        other
    }
}

fn version_in(ext: &Ext) -> Option<u8>
    ensures value { option_to_list result ≡ version_in ext.now }
    ensures small { IfSome result (λ v. v < 8) }
{
    match ext {
        Ext::Cta(_) | Ext::Bare(_) => Some(3),
        Ext::Raw(raw) if raw.bytes[0] == 2 && raw.bytes[1] != 0 => Some(raw.bytes[1] % 8),
        Ext::Raw(_) => None,
    }
}

/// The version of the first extension of CTA-861.
fn cta_version(extensions: &[Ext]) -> u8
    ensures value { result ≡ first_of 0 (flat_map version_in extensions.now) }
    ensures small { result < 8 }
{
    let [ext, others @ ..] = extensions else {
        return 0;
    };
    match version_in(ext) {
        Some(version) => version,
        None => cta_version(others),
    }
}

/// The ELD of a display, as the graphics driver of a source makes it.
#[tactic(auto, unfolding(crate::specs::Display::display_parts))]
pub fn display_eld(base: &Base, extensions: &[Ext], connection: Connection) -> Eld
    ensures { parts_of result ≡ display_parts base.now extensions.now connection }
{
    let mut sound = Sound::new();
    sound.hear_all(extensions);
    Eld {
        version: EldVersion::Cta861D,
        cta_version: cta_version(extensions),
        connection,
        ai: sound.ai,
        hdcp: false,
        delay: sound.delay,
        speakers: sound.speakers,
        port: [0; 8],
        maker: base.maker.write(),
        product: base.product,
        name: name_of(&base.descriptors, ArrayVec::new()),
        audio: sound.audio,
    }
}

/// The bytes of the ELD of a display.
pub fn eld_of(base: &Base, extensions: &[Ext], connection: Connection) -> ArrayVec<u8, 84>
    ensures { result.items ≡ eld_bytes (display_parts base.now extensions.now connection) }
{
    display_eld(base, extensions, connection).write()
}
