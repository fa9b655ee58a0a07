//! Active sources of which nobody reports the physical address.
ghost use Rattle.std.specs.Prelude.{◌≡◌, ◌≤◌, length};
ghost use Rattle.audit_remarks.specs.Places.{claimed_address, reported_address};
ghost use Rattle.audit_remarks.specs.Sources.{is_among, is_unreported, no_sources, with_mention, with_sources};

use crate::places::{REPORT, phys_in, same_phys};
use arrayvec::ArrayVec;
use text_core::Phys;

/// The opcode of Active Source.
const ACTIVE_SOURCE: u8 = 0x82;

/// The most addresses that are kept.
const ADDRESSES: usize = 64;

/// An address that frames name.
#[derive(Clone, Copy, Debug, PartialEq, Eq)]
pub struct Mention {
    pub phys: Phys,
    /// Where the reading that first named it ended.
    pub since: u64,
}

impl Default for Mention {
    fn default() -> Self {
        Mention {
            phys: Phys { high: 0, low: 0 },
            since: 0,
        }
    }
}

/// The physical addresses that were reported, and those that active sources have, each once.
#[derive(Debug, Drop)]
pub struct Sources {
    reported: ArrayVec<Mention, ADDRESSES>,
    active: ArrayVec<Mention, ADDRESSES>,
}

fn is_among(mentions: &[Mention], phys: Phys) -> bool
    ensures { result ≡ is_among mentions.now phys }
{
    let [mention, mentions @ ..] = mentions else {
        return false;
    };
    same_phys(mention.phys, phys) || is_among(mentions, phys)
}

fn push_mention(phys: Option<Phys>, at: u64, mentions: &mut ArrayVec<Mention, ADDRESSES>)
    ensures { mentions.new.items ≡ with_mention at phys mentions.old.items }
{
    let Some(phys) = phys else {
        return;
    };
    if is_among(mentions, phys) || mentions.is_full() {
        return;
    }
    mentions.push(Mention { phys, since: at });
}

impl Sources {
    /// Nothing was said.
    pub fn new() -> Self
        ensures { result ≡ no_sources }
    {
        Sources {
            reported: ArrayVec::new(),
            active: ArrayVec::new(),
        }
    }

    /// A frame was delivered, whose reading ended then.
    pub fn note(&mut self, frame: &[u8], at: u64)
        ensures { self.new ≡ with_sources frame.now at self.old }
    {
        push_mention(phys_in(REPORT, frame), at, &mut self.reported);
        push_mention(phys_in(ACTIVE_SOURCE, frame), at, &mut self.active);
    }

    /// The addresses of active sources.
    pub fn active(&self) -> &[Mention]
        ensures { result.now ≡ self.now.active.items }
    {
        &self.active
    }

    /// Whether nobody reported an address. It is not known where more than 63 addresses were reported.
    pub fn is_unreported(&self, phys: Phys) -> bool
        ensures { result ≡ is_unreported self.now.reported.items phys }
    {
        !self.reported.is_full() && !is_among(&self.reported, phys)
    }
}
