//! A descriptor, of 18 bytes.
ghost use Rattle.std.specs.Prelude.{◌≡◌, ◌∷◌, ◌+◌, IsTrue, false, true, length, MatchOption, slice_index, drop};
ghost use Rattle.edid_base.specs.Bytes.{are_bytes};
ghost use Rattle.edid_base.specs.Chars.{text_bytes};
ghost use Rattle.edid_base.specs.Forms.{fits_no_form, has_text, is_labelled};

use crate::parts::are_zeros;
use crate::text::Text;
use crate::timing::Timing;

/// The limits of a display's ranges, as they are sent.
#[derive(Clone, Copy)]
pub struct RangeLimits {
    pub bytes: [u8; 14],
    ghost whole: { length bytes ≡ 14 },
    ghost bytes_fit: { IsTrue (are_bytes bytes) },
}

/// A descriptor of no known form.
#[derive(Clone, Copy)]
pub struct RawDescriptor {
    pub bytes: [u8; 18],
    ghost whole: { length bytes ≡ 18 },
    ghost bytes_fit: { IsTrue (are_bytes bytes) },
    ghost of_no_form: { IsTrue (fits_no_form bytes) },
}

/// A descriptor (E-EDID Release A, section 3.10).
#[derive(Drop)]
pub enum Descriptor {
    /// A detailed timing descriptor (section 3.10.2).
    Timing(Timing),
    /// The display's name, tag FC.
    Name(Text),
    /// A text, tag FE.
    Text(Text),
    /// The serial number as a text, tag FF.
    SerialText(Text),
    /// The limits of the display's ranges, tag FD.
    Range(RangeLimits),
    /// An unused descriptor, tag 10.
    Dummy,
    /// Any other bytes.
    Raw(RawDescriptor),
}

/// The text of a descriptor that has one.
fn text_in(bytes: &[u8; 18]) -> Option<Text>
    ensures { MatchOption result (has_text bytes.now ≡ false) (λ t. (has_text bytes.now ≡ true) × (0 ∷ text_bytes t.chars.items ≡ drop 4 bytes.now)) }
{
    if bytes[4] != 0 {
        return None;
    }
    Text::read(&bytes[5..])
}

impl Descriptor {
    ghost use Rattle.edid_base.specs.Descriptor.{descriptor_bytes};

    /// The descriptor that a tag names.
    fn labelled(bytes: &[u8; 18]) -> Option<Descriptor>
        requires { slice_index bytes.now 0 + slice_index bytes.now 1 ≡ 0 }
        ensures { MatchOption result (is_labelled bytes.now ≡ false) (λ d. descriptor_bytes d ≡ bytes.now) }
    {
        if bytes[2] != 0 {
            return None;
        }
        match bytes[3] {
            0xff => Some(Descriptor::SerialText(text_in(bytes)?)),
            0xfe => Some(Descriptor::Text(text_in(bytes)?)),
            0xfc => Some(Descriptor::Name(text_in(bytes)?)),
            0xfd => {
                let bytes = <[u8; 14]>::try_from(&bytes[4..]).unwrap();
                Some(Descriptor::Range(RangeLimits { bytes }))
            }
            0x10 if are_zeros(&bytes[4..]) => Some(Descriptor::Dummy),
            _ => None,
        }
    }

    /// The descriptor that 18 bytes spell.
    pub fn read(bytes: &[u8; 18]) -> Descriptor
        ensures { descriptor_bytes result ≡ bytes.now }
    {
        if let Some(timing) = Timing::read(bytes) {
            return Descriptor::Timing(timing);
        }
        match Descriptor::labelled(bytes) {
            Some(descriptor) => descriptor,
            None => Descriptor::Raw(RawDescriptor { bytes: *bytes }),
        }
    }

    /// The same descriptor.
    pub fn copy(&self) -> Descriptor
        ensures { result ≡ self.now }
    {
        match self {
            Descriptor::Timing(timing) => Descriptor::Timing(*timing),
            Descriptor::Name(text) => Descriptor::Name(text.copy()),
            Descriptor::Text(text) => Descriptor::Text(text.copy()),
            Descriptor::SerialText(text) => Descriptor::SerialText(text.copy()),
            Descriptor::Range(limits) => Descriptor::Range(*limits),
            Descriptor::Dummy => Descriptor::Dummy,
            Descriptor::Raw(raw) => Descriptor::Raw(*raw),
        }
    }

    /// Its 18 bytes.
    pub fn write(&self) -> [u8; 18]
        ensures { result ≡ descriptor_bytes self.now }
    {
        match self {
            Descriptor::Timing(timing) => timing.write(),
            Descriptor::Name(text) => after_tag(0xfc, text),
            Descriptor::Text(text) => after_tag(0xfe, text),
            Descriptor::SerialText(text) => after_tag(0xff, text),
            Descriptor::Range(limits) => {
                let mut bytes = [0; 18];
                bytes[3] = 0xfd;
                bytes[4..].copy_from_slice(&limits.bytes);
                bytes
            }
            Descriptor::Dummy => {
                let mut bytes = [0; 18];
                bytes[3] = 0x10;
                bytes
            }
            Descriptor::Raw(raw) => raw.bytes,
        }
    }
}

/// The 18 bytes of a text after a tag.
fn after_tag(tag: u8, text: &Text) -> [u8; 18]
    ensures { result ≡ 0 ∷ 0 ∷ 0 ∷ tag ∷ 0 ∷ text_bytes text.now.chars.items }
{
    let mut bytes = [0; 18];
    bytes[3] = tag;
    bytes[5..].copy_from_slice(&text.write());
    bytes
}
