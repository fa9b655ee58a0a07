//! The numbers of a detailed timing.
ghost use Rattle.std.specs.Prelude.{◌≡◌};
ghost use Rattle.edid_modes.specs.Modes.{has_room, where_room};

/// A timing: the pixel clock in 10 kHz, and what stands across, in pixels, and down, in lines, of one field where the picture is two.
#[derive(Clone, Copy, Debug, PartialEq, Eq)]
pub struct ModeTiming {
    pub clock: u32,
    pub width: u32,
    pub horizontal_blanking: u32,
    pub height: u32,
    pub vertical_blanking: u32,
    pub horizontal_offset: u32,
    pub horizontal_sync: u32,
    pub vertical_offset: u32,
    pub vertical_sync: u32,
    /// Digital separate sync, its polarities, and bit 7 of two fields.
    pub flags: u8,
}

/// The greatest clock of a detailed timing, in 10 kHz.
const FASTEST: u32 = 65_535;
/// The greatest blanking.
const LONGEST: u32 = 4095;
/// The greatest sync offset and width across.
const WIDEST: u32 = 1023;
/// The greatest sync offset and width down.
const DEEPEST: u32 = 63;
/// A clock that stands for all that are too fast, and a blanking for all that are too long.
pub(crate) const TOO_FAST: u64 = FASTEST as u64 + 1;

pub(crate) const TOO_LONG: u64 = LONGEST as u64 + 1;

impl ModeTiming {
    // Whether a detailed timing has room for it, and its sync stands within its blanking.
    fn has_room(self) -> bool
        ensures { result ≡ has_room self }
    {
        0 < self.clock
            && self.clock <= FASTEST
            && self.horizontal_blanking <= LONGEST
            && self.vertical_blanking <= LONGEST
            && 0 < self.horizontal_offset
            && self.horizontal_offset <= WIDEST
            && 0 < self.horizontal_sync
            && self.horizontal_sync <= WIDEST
            && self.vertical_offset <= DEEPEST
            && self.vertical_sync <= DEEPEST
            && self.horizontal_offset + self.horizontal_sync <= self.horizontal_blanking
            && self.vertical_offset + self.vertical_sync <= self.vertical_blanking
    }

    // This timing, where a detailed timing has room for it.
    pub(crate) fn where_room(self) -> Option<ModeTiming>
        ensures { result ≡ where_room self }
    {
        if self.has_room() { Some(self) } else { None }
    }
}
