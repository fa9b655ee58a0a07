//! The base block that a receiver answers with.
ghost use Rattle.edid_merge.specs.Bases.{IsMergedBase, IsRenamed};

use crate::labels::merged_descriptors;
use crate::table::Whose;
use edid_base::Base;

// The display's base block as the receiver's product.
fn renamed(display: &Base, own: &Base) -> Base
    ensures { IsRenamed display.now own.now result }
{
    Base {
        maker: own.maker,
        product: own.product,
        serial: own.serial,
        week: own.week,
        year: own.year,
        revision: display.revision,
        input: display.input,
        width: display.width,
        height: display.height,
        gamma: display.gamma,
        features: display.features,
        chroma: display.chroma,
        established: display.established,
        standard: display.standard,
        descriptors: merged_descriptors(&own.descriptors, &display.descriptors),
        extensions: display.extensions,
    }
}

/// The base block that a receiver answers with.
pub fn merged_base(whose: Whose, display: &Base, own: &Base) -> Base
    ensures { IsMergedBase whose display.now own.now result }
{
    match whose {
        Whose::Keep => display.copy(),
        Whose::Own => renamed(display, own),
    }
}
