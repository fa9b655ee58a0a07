//! Codes of an ELD.
ghost use Rattle.std.specs.Prelude.{◌≡◌, ◌<◌, ◌≤◌};
ghost use Rattle.edid_eld.specs.Codes.{bit, connection_number, version_number};

/// ELD_Ver: which fields an ELD has.
#[derive(Clone, Copy, Debug, PartialEq, Eq)]
pub enum EldVersion {
    /// 2: those of CEA-861-D and below.
    Cta861D,
    /// 31: an ELD that the graphics driver has filled in part.
    Partial,
}

impl EldVersion {
    /// Its number, in five bits.
    pub fn number(self) -> u8
        ensures number { result ≡ version_number self }
        ensures small { result < 32 }
    {
        match self {
            EldVersion::Cta861D => 2,
            EldVersion::Partial => 31,
        }
    }
}

/// Conn_Type: how the display is connected.
#[derive(Clone, Copy, Debug, PartialEq, Eq)]
pub enum Connection {
    Hdmi,
    DisplayPort,
    Reserved2,
    Reserved3,
}

impl Connection {
    /// Its number, in two bits.
    pub fn number(self) -> u8
        ensures number { result ≡ connection_number self }
        ensures small { result < 4 }
    {
        match self {
            Connection::Hdmi => 0,
            Connection::DisplayPort => 1,
            Connection::Reserved2 => 2,
            Connection::Reserved3 => 3,
        }
    }
}

/// A bit.
pub(crate) fn bit(is_set: bool) -> u8
    ensures value { result ≡ bit is_set }
    ensures small { result ≤ 1 }
{
    if is_set { 1 } else { 0 }
}
