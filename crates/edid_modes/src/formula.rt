//! The formulas of VESA.
ghost use Rattle.std.specs.Prelude.{◌≡◌};
ghost use Rattle.edid_modes.specs.Formulas.{formula_of, timing_by};
ghost use Rattle.edid_modes.specs.Modes.{IsMode};

use crate::coordinated::coordinated;
use crate::generalized::generalized;
use crate::mode::{Mode, ModeFault};
use crate::reduced::reduced;
use crate::timing::ModeTiming;

/// A formula that gives a mode its timing.
#[derive(Clone, Copy, Debug, PartialEq, Eq)]
pub enum Formula {
    /// CVT 1.2.
    Coordinated,
    /// CVT 1.2 with reduced blanking, version 1.
    Reduced,
    /// GTF 1.1, the default curve.
    Generalized,
}

impl Formula {
    // What it gives a mode; none where a detailed timing has no room for it.
    fn given(self, mode: Mode) -> Option<ModeTiming>
        requires { IsMode mode }
        ensures { result ≡ formula_of self mode }
    {
        match self {
            Formula::Coordinated => coordinated(mode),
            Formula::Reduced => reduced(mode),
            Formula::Generalized => generalized(mode),
        }
    }

    /// The timing of a mode by this formula.
    ///
    /// # Errors
    ///
    /// The first number of the mode that is none. Then the rate, where a detailed timing has no room for what the formula gives.
    pub fn timing(self, mode: Mode) -> Result<ModeTiming, ModeFault>
        ensures { result ≡ timing_by self mode }
    {
        match mode.fault() {
            Some(fault) => Err(fault),
            None => match self.given(mode) {
                Some(timing) => Ok(timing),
                None => Err(ModeFault::Rate),
            },
        }
    }
}
