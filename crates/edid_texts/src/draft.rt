//! What some first lines of a text say.
ghost use Rattle.edid_texts.specs.Draft.{StageFits};

use crate::stage::Stage;
use arrayvec::ArrayVec;
use edid_base::{Base, Timing};
use edid_cta::{DataBlock, Ext};

/// What the lines so far say. It is large, and is changed where it stands.
#[derive(Drop)]
pub struct EdidDraft {
    pub base: Base,
    /// The whole extensions.
    pub extensions: ArrayVec<Ext, 3>,
    /// The data blocks and the timings so far of the CTA block that is open.
    pub blocks: ArrayVec<DataBlock, 123>,
    pub timings: ArrayVec<Timing, 6>,
    pub stage: Stage,
    ghost fits: { StageFits stage extensions.items blocks.items timings.items },
}
