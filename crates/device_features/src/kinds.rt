//! What a device is, as the tables go by it.
ghost use Rattle.std.specs.Prelude.{◌≡◌, IsTrue, nat_lt};
ghost use Rattle.std.specs.List.{list_all};
ghost use Rattle.device_features.specs.Kinds.{addresses, is_deck, is_in, recorders, second_addresses};

use crate::record::Port;
use text_core::{Kind, Phys};

/// What a device is beside its record.
#[derive(Clone, Copy)]
pub struct Identity {
    pub kind: Kind,
    /// Its physical address.
    pub phys: Phys,
    /// How many input ports it has.
    pub ports: Port,
}

/// Whether a kind has a deck: a player, a recorder, or both in a box.
pub(crate) fn is_deck(kind: Kind) -> bool
    ensures { result ≡ is_deck kind }
{
    matches!(kind, Kind::Player | Kind::Recorder | Kind::Combo)
}

/// The logical addresses that the first unit of a kind may take, in order (CEC 10.2).
pub fn addresses(kind: Kind) -> &'static [u8]
    ensures list { result.now ≡ addresses kind }
    ensures small { IsTrue (list_all (λ a. nat_lt a 16) result.now) }
{
    match kind {
        Kind::Tv => &[0, 14],
        Kind::Recorder | Kind::Combo => &[1, 2, 9],
        Kind::Player => &[4, 8, 11],
        Kind::Amp => &[5],
        Kind::Switch | Kind::Outside | Kind::OutsideTv => &[],
    }
}

/// Those that the second unit may take; none where a kind has one unit.
pub fn second_addresses(kind: Kind) -> &'static [u8]
    ensures list { result.now ≡ second_addresses kind }
    ensures small { IsTrue (list_all (λ a. nat_lt a 16) result.now) }
{
    match kind {
        Kind::Combo => addresses(Kind::Player),
        _ => &[],
    }
}

/// Whether an address is a recorder's.
pub(crate) fn is_recorders(address: u8) -> bool
    ensures { result ≡ is_in recorders address }
{
    addresses(Kind::Recorder).contains(&address)
}
