//! A law of reading an ELD.
ghost use Rattle.edid_eld.specs.Display.{display_parts};
ghost use Rattle.edid_eld.specs.Reading.{IsReadBack};

use crate::codes::Connection;
use crate::display::display_eld;
use edid_base::Base;
use edid_cta::Ext;

/// What the ELD of a display says is read from its bytes: the display's name, maker and product, its speakers and audio descriptors,
/// its latency, and all else.
pub fn eld_reads_back(base: &Base, extensions: &[Ext], connection: Connection)
    ensures { IsReadBack (display_parts base.now extensions.now connection) }
{
    let _eld = display_eld(base, extensions, connection);
}
