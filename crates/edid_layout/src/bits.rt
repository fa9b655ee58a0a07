//! Bits of a byte.
ghost use Rattle.std.specs.Prelude.{◌≡◌, ◌<◌};
ghost use Rattle.edid_layout.specs.HdmiBlock.{has_bit};

/// Whether a bit is set, by its weight.
#[tactic(auto, unfolding(crate::specs::HdmiBlock::has_bit))]
pub(crate) fn has_bit(byte: u8, weight: u8) -> bool
    requires { 0 < weight }
    ensures { result ≡ has_bit byte weight }
{
    byte / weight % 2 == 1
}
