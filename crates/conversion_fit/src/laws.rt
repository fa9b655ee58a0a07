//! The law of an EDID that is fitted to its link.
ghost use Rattle.conversion_fit.specs.Laws.{AreCarried};

/// The link of an EDID that was fitted to it carries each of its video codes, timings and formats of DisplayID.
pub fn nothing_is_beyond()
    ensures { AreCarried }
{}
