//! The devices at logical addresses, in words (HDMI 1.4, CEC 10.2, table 5).
ghost use Rattle.std.specs.Prelude.{◌≡◌};
ghost use Rattle.message_meaning.specs.Addresses.{address_name, receiver, sender};

#[tactic(auto, unfolding(crate::specs::Addresses::address_name))]
fn address_name(address: u8) -> &'static str
    ensures { result.now ≡ address_name address }
{
    match address {
        0 => "TV",
        1 => "Recording Device 1",
        2 => "Recording Device 2",
        3 => "Tuner 1",
        4 => "Playback Device 1",
        5 => "Audio System",
        6 => "Tuner 2",
        7 => "Tuner 3",
        8 => "Playback Device 2",
        9 => "Recording Device 3",
        10 => "Tuner 4",
        11 => "Playback Device 3",
        12 => "the reserved address 12",
        13 => "the reserved address 13",
        14 => "Specific Use",
        _ => "an unregistered device",
    }
}

/// Who sends a frame of this header.
pub fn sender(header: u8) -> &'static str
    ensures { result.now ≡ sender header }
{
    address_name(header / 16)
}

/// To whom it goes.
pub fn receiver(header: u8) -> &'static str
    ensures { result.now ≡ receiver header }
{
    if header % 16 == 15 {
        "all devices"
    } else {
        address_name(header % 16)
    }
}
