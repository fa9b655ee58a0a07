//! The base block.
ghost use Rattle.std.specs.Prelude.{◌≡◌, ◌∷◌, [], slice_index, IsTrue, IfOk, IfErr, OnOk, ◌<◌, ◌≤◌, ◌+◌, ◌^◌, ◌++◌, length, MatchResult, Some, None, flat_map, Option};
ghost use Rattle.arrayvec.specs.ArrayVec.{array_vec_len};
ghost use Rattle.edid_base.specs.Descriptor.{descriptor_bytes};
ghost use Rattle.edid_base.specs.Standard.{standard_bytes};
ghost use Rattle.edid_base.specs.Maker.{maker_bytes};
ghost use Rattle.edid_base.specs.Bytes.{are_bytes};
ghost use Rattle.edid_base.specs.Revisions.{revision_bytes};
ghost use Rattle.edid_base.specs.Refusals.{refusal};

use crate::block::Block;
use crate::checksum::is_summed;
use crate::chroma::Chroma;
use crate::descriptor::Descriptor;
use crate::maker::Maker;
use crate::parts::{append, part};
use crate::standard::StandardTiming;
use arrayvec::ArrayVec;
use thiserror::Error;

/// Why 128 bytes are no base block: the first of these that applies.
#[derive(Clone, Copy, Debug, PartialEq, Eq, Error)]
pub enum BaseError {
    /// The first eight bytes are not 00 FF FF FF FF FF FF 00.
    #[error("no header")]
    Header,
    /// The sum of the bytes is not 0 modulo 256.
    #[error("a wrong checksum")]
    Checksum,
    /// The version is not 1, or the revision neither 3 nor 4.
    #[error("an unknown revision")]
    Revision,
    /// The maker's two bytes are not three letters.
    #[error("no maker")]
    Maker,
}

/// The structure's version and revision (section 3.5).
#[derive(Clone, Copy, Debug, PartialEq, Eq)]
pub enum Revision {
    /// 1.3
    Three,
    /// 1.4
    Four,
}

/// What a base block says.
#[derive(Drop)]
pub struct Base {
    /// The letters of the manufacturer (section 3.4.1).
    pub maker: Maker,
    /// The manufacturer's code of the product (section 3.4.2).
    pub product: u16,
    pub serial: u32,
    /// The week of manufacture as it is sent: 0 is none, 255 marks a model year (section 3.4.4).
    pub week: u8,
    /// The year of manufacture or of the model, 1990 to 2245 (section 3.4.4).
    pub year: u16,
    pub revision: Revision,
    /// The video input definition as it is sent (section 3.6.1).
    pub input: u8,
    /// The width in centimetres, or 0 (section 3.6.2).
    pub width: u8,
    /// The height in centimetres, or 0.
    pub height: u8,
    /// The gamma times 100, less 100 (section 3.6.3).
    pub gamma: u8,
    /// The feature bits as they are sent (section 3.6.4).
    pub features: u8,
    /// The chromaticities (section 3.7).
    pub chroma: Chroma,
    /// The established timings as they are sent (section 3.8).
    pub established: [u8; 3],
    /// The standard timings; an unused place is `None` (section 3.9).
    pub standard: [Option<StandardTiming>; 8],
    /// The detailed timings and display descriptors (section 3.10).
    pub descriptors: [Descriptor; 4],
    /// How many blocks follow (section 3.11).
    pub extensions: u8,
    ghost product_fits: { product < 2 ^ 16 },
    ghost serial_fits: { serial < 2 ^ 32 },
    ghost bytes_fit: { IsTrue (are_bytes (week ∷ input ∷ width ∷ height ∷ gamma ∷ features ∷ extensions ∷ established)) },
    ghost first_year: { 1990 ≤ year },
    ghost last_year: { year < 2246 },
    ghost three: { length established ≡ 3 },
    ghost eight: { length standard ≡ 8 },
    ghost four: { length descriptors ≡ 4 },
}

/// The bytes that each base block begins with (section 3.3).
const HEADER: [u8; 8] = [0x00, 0xff, 0xff, 0xff, 0xff, 0xff, 0xff, 0x00];

fn read_descriptors(bytes: &[u8; 72]) -> [Descriptor; 4]
    ensures { flat_map descriptor_bytes result ≡ bytes.now }
{
    [
        Descriptor::read(&part(bytes, 0)),
        Descriptor::read(&part(bytes, 18)),
        Descriptor::read(&part(bytes, 36)),
        Descriptor::read(&part(bytes, 54)),
    ]
}

/// Refuses bytes that are no base block.
fn check(bytes: &[u8; 128]) -> Result<(Revision, Maker), BaseError>
    ensures { MatchResult result (λ r. (refusal bytes.now ≡ None) × (maker_bytes r.1 ≡ slice_index bytes.now 8 ∷ slice_index bytes.now 9 ∷ []) × (revision_bytes r.0 ≡ slice_index bytes.now 18 ∷ slice_index bytes.now 19 ∷ [])) (λ e. refusal bytes.now ≡ Some e) }
{
    if !bytes.starts_with(&HEADER) {
        return Err(BaseError::Header);
    }
    if !is_summed(bytes) {
        return Err(BaseError::Checksum);
    }
    let revision = match (bytes[18], bytes[19]) {
        (1, 3) => Revision::Three,
        (1, 4) => Revision::Four,
        _ => return Err(BaseError::Revision),
    };
    let maker = Maker::read(bytes[8], bytes[9]).ok_or(BaseError::Maker)?;
    Ok((revision, maker))
}

impl Base {
    ghost use Rattle.edid_base.specs.Base.{base_bytes, product_bytes, display_bytes};
    ghost use Rattle.edid_base.specs.Header.{header};

    /// A base block that 128 bytes spell.
    pub(crate) fn read(bytes: &[u8; 128]) -> Result<Base, BaseError>
        ensures read { IfOk result (λ b. base_bytes b ≡ bytes.now) }
        ensures accepted { OnOk result (refusal bytes.now ≡ None) }
        ensures refused { IfErr result (λ e. refusal bytes.now ≡ Some e) }
    {
        let (revision, maker) = check(bytes)?;
        Ok(Base {
            maker,
            product: u16::from_le_bytes([bytes[10], bytes[11]]),
            serial: u32::from_le_bytes([bytes[12], bytes[13], bytes[14], bytes[15]]),
            week: bytes[16],
            year: u16::from(bytes[17]) + 1990,
            revision,
            input: bytes[20],
            width: bytes[21],
            height: bytes[22],
            gamma: bytes[23],
            features: bytes[24],
            chroma: Chroma::read(&part(bytes, 25)),
            established: part(bytes, 35),
            standard: StandardTiming::read_all(&part(bytes, 38)),
            descriptors: read_descriptors(&part(bytes, 54)),
            extensions: bytes[126],
        })
    }

    /// The same base block.
    pub fn copy(&self) -> Base
        ensures { result ≡ self.now }
    {
        Base {
            maker: self.maker,
            product: self.product,
            serial: self.serial,
            week: self.week,
            year: self.year,
            revision: self.revision,
            input: self.input,
            width: self.width,
            height: self.height,
            gamma: self.gamma,
            features: self.features,
            chroma: self.chroma,
            established: self.established,
            standard: self.standard,
            descriptors: copies_of(&self.descriptors),
            extensions: self.extensions,
        }
    }

    /// The header, and bytes 8 to 24.
    fn front(&self) -> ArrayVec<u8, 128>
        ensures items { result.items ≡ header ++ product_bytes self.now }
        ensures len { array_vec_len result ≡ 25 }
    {
        let mut block = ArrayVec::new();
        append(&mut block, &HEADER);
        append(&mut block, &self.maker.write());
        append(&mut block, &self.product.to_le_bytes());
        append(&mut block, &self.serial.to_le_bytes());
        append(&mut block, &[self.week, (self.year - 1990) as u8]);
        append(&mut block, &self.revision.write());
        append(
            &mut block,
            &[
                self.input,
                self.width,
                self.height,
                self.gamma,
                self.features,
            ],
        );
        block
    }

    /// Appends bytes 25 to 126.
    fn append_display(&self, block: &mut ArrayVec<u8, 128>)
        requires { array_vec_len block.old ≡ 25 }
        ensures items { block.new.items ≡ block.old.items ++ display_bytes self.now }
        ensures len { array_vec_len block.new ≡ 127 }
    {
        append(block, &self.chroma.write());
        append(block, &self.established);
        append_standards(block, &self.standard);
        append_descriptors(block, &self.descriptors);
        append(block, &[self.extensions]);
    }

    /// The 128 bytes of the block.
    pub(crate) fn write(&self) -> [u8; 128]
        ensures { result ≡ base_bytes self.now }
    {
        let mut block = self.front();
        self.append_display(&mut block);
        Block::ending(block.as_slice()).bytes
    }
}

impl Revision {
    /// The version and the revision.
    pub fn write(self) -> [u8; 2]
        ensures { result ≡ revision_bytes self }
    {
        match self {
            Revision::Three => [1, 3],
            Revision::Four => [1, 4],
        }
    }
}

/// The same descriptors.
fn copies_of(descriptors: &[Descriptor; 4]) -> [Descriptor; 4]
    ensures { result ≡ descriptors.now }
{
    let [first, second, third, fourth] = descriptors;
    [first.copy(), second.copy(), third.copy(), fourth.copy()]
}

fn append_standards(block: &mut ArrayVec<u8, 128>, standards: &[Option<StandardTiming>; 8])
    requires { array_vec_len block.old ≡ 38 }
    ensures items { block.new.items ≡ block.old.items ++ flat_map standard_bytes standards.now }
    ensures len { array_vec_len block.new ≡ 54 }
{
    for standard in standards {
        append(block, &StandardTiming::write(*standard));
    }
}

fn append_descriptors(block: &mut ArrayVec<u8, 128>, descriptors: &[Descriptor; 4])
    requires { array_vec_len block.old ≡ 54 }
    ensures items { block.new.items ≡ block.old.items ++ flat_map descriptor_bytes descriptors.now }
    ensures len { array_vec_len block.new ≡ 126 }
{
    for descriptor in descriptors {
        append(block, &descriptor.write());
    }
}
