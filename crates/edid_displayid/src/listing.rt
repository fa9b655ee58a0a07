//! Which formats a data block lists, by its tag and the byte after it.
ghost use Rattle.std.specs.Prelude.{◌≡◌, ◌≤◌, length};
ghost use Rattle.edid_displayid.specs.Listings.{by_codes, by_one_byte, extra_of, has_size, listed, listing_len, listing_of};

use crate::bytes::byte_at;
use crate::layouts::Layout;

/// What a data block lists.
#[derive(Clone, Copy, Debug, PartialEq, Eq)]
pub struct Listing {
    pub layout: Layout,
    /// The bytes of each timing past those of its layout.
    pub extra: u8,
}

fn extra_of(revision: u8) -> u8
    ensures { result ≡ extra_of revision }
{
    revision / 16 % 8
}

fn listed(layout: Layout, extra: u8) -> Option<Listing>
    ensures { result ≡ listed layout extra }
{
    Some(Listing { layout, extra })
}

/// What a list of codes of one byte has, by the kind of its codes.
fn by_codes(revision: u8) -> Option<Listing>
    ensures { result ≡ by_codes revision }
{
    match revision / 64 {
        0 => listed(Layout::Dmt, 0),
        1 => listed(Layout::Vic, 0),
        _ => None,
    }
}

/// The same where codes may have two bytes.
fn by_one_byte(revision: u8) -> Option<Listing>
    ensures { result ≡ by_one_byte revision }
{
    if revision / 8 % 2 == 0 {
        by_codes(revision)
    } else {
        None
    }
}

/// What a data block lists, by its tag and the byte after it.
pub(crate) fn listing_of(tag: u8, revision: u8) -> Option<Listing>
    ensures { result ≡ listing_of tag revision }
{
    match tag {
        0x03 => listed(Layout::TypeI, 0),
        0x04 => listed(Layout::TypeII, 0),
        0x05 => listed(Layout::TypeIII, 0),
        0x06 => by_codes(revision),
        0x11 => listed(Layout::TypeV, 0),
        0x13 => listed(Layout::TypeVI, 0),
        0x22 => listed(Layout::TypeVII, extra_of(revision)),
        0x23 => by_one_byte(revision),
        0x24 => listed(Layout::TypeIX, 0),
        0x2a | 0x32 => listed(Layout::TypeIX, extra_of(revision)),
        _ => None,
    }
}

/// Whether a timing of type VI is followed by its size.
fn has_size(layout: Layout, bytes: &[u8]) -> bool
    ensures { result ≡ has_size layout bytes.now }
{
    matches!(layout, Layout::TypeVI) && byte_at(bytes, 2) / 64 % 2 == 1
}

/// The bytes of the timing in front.
#[tactic(auto, unfolding(crate::specs::Listings::listing_len))]
pub(crate) fn listing_len(listing: Listing, bytes: &[u8]) -> usize
    ensures value { result ≡ listing_len listing bytes.now }
    ensures some { 1 ≤ result }
{
    let size = if has_size(listing.layout, bytes) {
        3
    } else {
        0
    };
    listing.layout.len() + usize::from(listing.extra) + size
}
