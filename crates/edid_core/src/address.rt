//! The physical address that an EDID reports.
ghost use Rattle.std.specs.Prelude.{◌≡◌, position};
ghost use Rattle.edid_core.specs.Address.{edid_address, first_address, has_address};

use crate::edid::Edid;
use edid_cta::{Ext, hdmi_address};
use text_core::Phys;

fn has_address(ext: &Ext) -> bool
    ensures { result ≡ has_address ext.now }
{
    hdmi_address(ext).is_some()
}

/// The first extension that has an HDMI block.
pub(crate) fn first_addressed(extensions: &[Ext]) -> Option<usize>
    ensures { result ≡ position has_address extensions.now }
{
    extensions.iter().position(|ext| has_address(ext))
}

/// The physical address in the first HDMI block of some extensions, where there is one.
pub fn first_address(extensions: &[Ext]) -> Option<Phys>
    ensures { result ≡ first_address extensions.now }
{
    match first_addressed(extensions) {
        None => None,
        Some(index) => hdmi_address(&extensions[index]),
    }
}

impl Edid {
    /// The physical address in the first HDMI block, where there is one.
    pub fn address(&self) -> Option<Phys>
        ensures { result ≡ edid_address self.now }
    {
        first_address(self.extensions.as_slice())
    }
}
