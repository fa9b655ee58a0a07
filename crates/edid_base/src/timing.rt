//! A detailed timing descriptor, of 18 bytes (E-EDID Release A, section 3.10.2).
ghost use Rattle.std.specs.Prelude.{◌≡◌, ◌<◌, ◌+◌, ◌^◌, MatchOption, slice_index};

/// A detailed timing. Lengths are in pixels and lines, the image's size in millimetres.
#[derive(Clone, Copy, Debug, PartialEq, Eq)]
pub struct Timing {
    /// The pixel clock in units of 10 kHz, and not 0.
    pub clock: u16,
    pub horizontal_active: u16,
    pub horizontal_blanking: u16,
    pub vertical_active: u16,
    pub vertical_blanking: u16,
    pub horizontal_sync_offset: u16,
    pub horizontal_sync_width: u16,
    pub vertical_sync_offset: u8,
    pub vertical_sync_width: u8,
    pub width: u16,
    pub height: u16,
    pub horizontal_border: u8,
    pub vertical_border: u8,
    pub flags: u8,
    ghost runs: { 0 < clock },
    ghost clock_fits: { clock < 2 ^ 16 },
    ghost horizontal_active_fits: { horizontal_active < 4096 },
    ghost horizontal_blanking_fits: { horizontal_blanking < 4096 },
    ghost vertical_active_fits: { vertical_active < 4096 },
    ghost vertical_blanking_fits: { vertical_blanking < 4096 },
    ghost horizontal_sync_offset_fits: { horizontal_sync_offset < 1024 },
    ghost horizontal_sync_width_fits: { horizontal_sync_width < 1024 },
    ghost vertical_sync_offset_fits: { vertical_sync_offset < 64 },
    ghost vertical_sync_width_fits: { vertical_sync_width < 64 },
    ghost width_fits: { width < 4096 },
    ghost height_fits: { height < 4096 },
    ghost horizontal_border_fits: { horizontal_border < 256 },
    ghost vertical_border_fits: { vertical_border < 256 },
    ghost flags_fit: { flags < 256 },
}

impl Timing {
    ghost use Rattle.edid_base.specs.Timing.{timing_bytes, timing_numbers};
    ghost use Rattle.edid_base.specs.declared.timing.Timing.{Timing as TimingValue};

    /// The timing that 13 numbers, in the order of its fields, and flags are.
    pub fn new(numbers: &[u32], flags: u8) -> Option<Timing>
        ensures { MatchOption result
            ((t : TimingValue) → timing_numbers t ≡ numbers.now → t.flags ≡ flags → ⊥)
            (λ t. (timing_numbers t ≡ numbers.now) × (t.flags ≡ flags)) }
    {
        let n = numbers;
        if n.len() != 13 || n[0] == 0 || n[0] > 65535 {
            return None;
        }
        if n[1] > 4095 || n[2] > 4095 || n[3] > 4095 || n[4] > 4095 {
            return None;
        }
        if n[5] > 1023 || n[6] > 1023 || n[7] > 63 || n[8] > 63 {
            return None;
        }
        if n[9] > 4095 || n[10] > 4095 || n[11] > 255 || n[12] > 255 {
            return None;
        }
        Some(Timing {
            clock: n[0] as u16,
            horizontal_active: n[1] as u16,
            horizontal_blanking: n[2] as u16,
            vertical_active: n[3] as u16,
            vertical_blanking: n[4] as u16,
            horizontal_sync_offset: n[5] as u16,
            horizontal_sync_width: n[6] as u16,
            vertical_sync_offset: n[7] as u8,
            vertical_sync_width: n[8] as u8,
            width: n[9] as u16,
            height: n[10] as u16,
            horizontal_border: n[11] as u8,
            vertical_border: n[12] as u8,
            flags,
        })
    }

    /// Its 13 numbers.
    pub fn numbers(&self) -> [u32; 13]
        ensures { result ≡ timing_numbers self.now }
    {
        [
            u32::from(self.clock),
            u32::from(self.horizontal_active),
            u32::from(self.horizontal_blanking),
            u32::from(self.vertical_active),
            u32::from(self.vertical_blanking),
            u32::from(self.horizontal_sync_offset),
            u32::from(self.horizontal_sync_width),
            u32::from(self.vertical_sync_offset),
            u32::from(self.vertical_sync_width),
            u32::from(self.width),
            u32::from(self.height),
            u32::from(self.horizontal_border),
            u32::from(self.vertical_border),
        ]
    }

    /// The timing that 18 bytes spell: a clock of 0 is none.
    pub fn read(bytes: &[u8; 18]) -> Option<Timing>
        ensures { MatchOption result (slice_index bytes.now 0 + slice_index bytes.now 1 ≡ 0) (λ t. timing_bytes t ≡ bytes.now) }
    {
        let clock = u16::from_le_bytes([bytes[0], bytes[1]]);
        if clock == 0 {
            return None;
        }
        Some(Timing {
            clock,
            horizontal_active: bytes[2] as u16 + (bytes[4] / 16) as u16 * 256,
            horizontal_blanking: bytes[3] as u16 + (bytes[4] % 16) as u16 * 256,
            vertical_active: bytes[5] as u16 + (bytes[7] / 16) as u16 * 256,
            vertical_blanking: bytes[6] as u16 + (bytes[7] % 16) as u16 * 256,
            horizontal_sync_offset: bytes[8] as u16 + (bytes[11] / 64) as u16 * 256,
            horizontal_sync_width: bytes[9] as u16 + (bytes[11] / 16 % 4) as u16 * 256,
            vertical_sync_offset: bytes[10] / 16 + bytes[11] / 4 % 4 * 16,
            vertical_sync_width: bytes[10] % 16 + bytes[11] % 4 * 16,
            width: bytes[12] as u16 + (bytes[14] / 16) as u16 * 256,
            height: bytes[13] as u16 + (bytes[14] % 16) as u16 * 256,
            horizontal_border: bytes[15],
            vertical_border: bytes[16],
            flags: bytes[17],
        })
    }

    /// Its 18 bytes.
    pub fn write(&self) -> [u8; 18]
        ensures { result ≡ timing_bytes self.now }
    {
        let [clock_low, clock_high] = self.clock.to_le_bytes();
        [
            clock_low,
            clock_high,
            (self.horizontal_active % 256) as u8,
            (self.horizontal_blanking % 256) as u8,
            (self.horizontal_active / 256 * 16 + self.horizontal_blanking / 256) as u8,
            (self.vertical_active % 256) as u8,
            (self.vertical_blanking % 256) as u8,
            (self.vertical_active / 256 * 16 + self.vertical_blanking / 256) as u8,
            (self.horizontal_sync_offset % 256) as u8,
            (self.horizontal_sync_width % 256) as u8,
            self.vertical_sync_offset % 16 * 16 + self.vertical_sync_width % 16,
            (self.horizontal_sync_offset / 256 * 64 + self.horizontal_sync_width / 256 * 16) as u8
                + self.vertical_sync_offset / 16 * 4
                + self.vertical_sync_width / 16,
            (self.width % 256) as u8,
            (self.height % 256) as u8,
            (self.width / 256 * 16 + self.height / 256) as u8,
            self.horizontal_border,
            self.vertical_border,
            self.flags,
        ]
    }
}

/// A timing with the least clock, and 0 in the other fields.
impl Default for Timing {
    fn default() -> Self {
        Timing {
            clock: 1,
            horizontal_active: 0,
            horizontal_blanking: 0,
            vertical_active: 0,
            vertical_blanking: 0,
            horizontal_sync_offset: 0,
            horizontal_sync_width: 0,
            vertical_sync_offset: 0,
            vertical_sync_width: 0,
            width: 0,
            height: 0,
            horizontal_border: 0,
            vertical_border: 0,
            flags: 0,
        }
    }
}
