//! Laws of the tables.
ghost use Rattle.meaning_fields.specs.Luminance.{LeastLuminancesAreNearest, LuminancesAreNearest};

/// Each luminance of the table is the whole number nearest to 50 * 2 ^ (code / 32).
pub fn luminances_are_nearest()
    ensures { LuminancesAreNearest }
{}

/// Each least luminance, of all codes of it and of the greatest one, is nearest to its value, in the unit that it is told in: thousandths of
/// 1 cd/m2, or tenths, hundredths or thousandths of these.
pub fn least_luminances_are_nearest()
    ensures { LeastLuminancesAreNearest }
{}
