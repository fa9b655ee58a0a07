//! The formats of the data blocks of a DisplayID extension.
ghost use Rattle.std.specs.Prelude.{◌≡◌, ◌≤◌, false, ◌+◌, ◌-◌, ◌++◌, drop, length, slice_index, take};
ghost use Rattle.arrayvec.specs.ArrayVec.{array_vec_len};
ghost use Rattle.edid_displayid.specs.Formats.{block_formats, data_formats, data_len, first_formats, formats_in, found, is_cut, section_data, section_formats};

use crate::bytes::{part, rest};
use crate::extensions::MAX_FORMATS;
use crate::listing::{Listing, listing_len, listing_of};
use crate::timing::TypedFormat;
use arrayvec::ArrayVec;

/// The tag of a DisplayID extension.
const DISPLAYID: u8 = 0x70;
/// The bytes of its header.
const HEADER: usize = 5;
/// The most bytes of data.
const DATA: usize = 121;
/// The bytes of a data block before its payload.
const HEAD: usize = 3;

fn append_found(out: &mut ArrayVec<TypedFormat, MAX_FORMATS>, format: Option<TypedFormat>)
    requires room { array_vec_len out.old + 1 ≤ 369 }
    ensures items { out.new.items ≡ out.old.items ++ found format }
    ensures len { array_vec_len out.new ≤ array_vec_len out.old + 1 }
{
    if let Some(format) = format {
        out.push(format);
    }
}

/// Appends the formats that bytes begin with.
#[tactic(auto, unfolding(crate::specs::Formats::formats_in))]
fn append_formats(
    out: &mut ArrayVec<TypedFormat, MAX_FORMATS>,
    count: &[u8],
    listing: Listing,
    bytes: &[u8],
)
    requires room { array_vec_len out.old + length bytes.now ≤ 369 }
    ensures items { out.new.items ≡ out.old.items ++ formats_in count.now listing bytes.now }
    ensures len { array_vec_len out.new ≤ array_vec_len out.old + length bytes.now }
{
    if let [_, fewer @ ..] = count {
        let len = listing_len(listing, bytes);
        if len <= bytes.len() {
            append_found(out, listing.layout.format(part(bytes, 0, len)));
            append_formats(out, fewer, listing, rest(bytes, len));
        }
    }
}

/// Appends the formats of a data block.
pub(crate) fn append_block(
    out: &mut ArrayVec<TypedFormat, MAX_FORMATS>,
    tag: u8,
    revision: u8,
    payload: &[u8],
)
    requires room { array_vec_len out.old + length payload.now ≤ 369 }
    ensures items { out.new.items ≡ out.old.items ++ block_formats tag revision payload.now }
    ensures len { array_vec_len out.new ≤ array_vec_len out.old + length payload.now }
{
    if let Some(listing) = listing_of(tag, revision) {
        append_formats(out, payload, listing, payload);
    }
}

/// Whether no whole data block stands in front.
pub fn is_cut(bytes: &[u8]) -> bool
    ensures { result ≡ is_cut bytes.now }
{
    bytes.len() < HEAD || bytes.len() < HEAD + usize::from(bytes[2])
}

/// How long the data block in front is.
pub fn data_len(bytes: &[u8]) -> usize
    requires { is_cut bytes.now ≡ false }
    ensures value { result ≡ data_len bytes.now }
    ensures head { 3 ≤ result }
    ensures within { result ≤ length bytes.now }
{
    HEAD + usize::from(bytes[2])
}

/// Appends the formats of the data block in front.
#[tactic(auto, unfolding(crate::specs::Formats::first_formats))]
fn append_first(out: &mut ArrayVec<TypedFormat, MAX_FORMATS>, bytes: &[u8])
    requires whole { is_cut bytes.now ≡ false }
    requires room { array_vec_len out.old + (data_len bytes.now - 3) ≤ 369 }
    ensures items { out.new.items ≡ out.old.items ++ first_formats bytes.now }
    ensures len { array_vec_len out.new ≤ array_vec_len out.old + (data_len bytes.now - 3) }
{
    append_block(
        out,
        bytes[0],
        bytes[1],
        part(bytes, HEAD, usize::from(bytes[2])),
    );
}

/// The formats of the data block in front.
pub fn first_formats(bytes: &[u8]) -> ArrayVec<TypedFormat, MAX_FORMATS>
    requires { is_cut bytes.now ≡ false }
    ensures { result.items ≡ first_formats bytes.now }
{
    let mut formats = ArrayVec::new();
    append_first(&mut formats, bytes);
    formats
}

/// Appends the formats of data blocks.
#[tactic(auto, unfolding(crate::specs::Formats::data_formats))]
fn append_data(out: &mut ArrayVec<TypedFormat, MAX_FORMATS>, count: &[u8], bytes: &[u8])
    requires room { array_vec_len out.old + length bytes.now ≤ 369 }
    ensures items { out.new.items ≡ out.old.items ++ data_formats count.now bytes.now }
    ensures len { array_vec_len out.new ≤ array_vec_len out.old + length bytes.now }
{
    if let [_, fewer @ ..] = count {
        if !is_cut(bytes) {
            append_first(out, bytes);
            append_data(out, fewer, rest(bytes, data_len(bytes)));
        }
    }
}

/// The data blocks of a DisplayID extension, none of another one.
pub fn section_data(bytes: &[u8; 128]) -> &[u8]
    ensures value { result.now ≡ section_data bytes.now }
    ensures few { length result.now ≤ 121 }
{
    if bytes[0] != DISPLAYID {
        return &[];
    }
    let len = usize::from(bytes[2]).min(DATA);
    part(bytes, HEADER, len)
}

/// Appends the formats of an extension of 128 bytes, where it is one of DisplayID.
pub(crate) fn append_section(out: &mut ArrayVec<TypedFormat, MAX_FORMATS>, bytes: &[u8; 128])
    requires room { array_vec_len out.old + 123 ≤ 369 }
    ensures items { out.new.items ≡ out.old.items ++ section_formats bytes.now }
    ensures len { array_vec_len out.new ≤ array_vec_len out.old + 123 }
{
    let data = section_data(bytes);
    append_data(out, data, data);
}

/// The formats of an extension of 128 bytes, where it is one of DisplayID.
pub fn section_formats(bytes: &[u8; 128]) -> ArrayVec<TypedFormat, MAX_FORMATS>
    ensures { result.items ≡ section_formats bytes.now }
{
    let mut formats = ArrayVec::new();
    append_section(&mut formats, bytes);
    formats
}
