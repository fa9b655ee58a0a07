//! Which version of the calls this is.
ghost use Rattle.std.specs.Prelude.{◌≡◌};

/// The version of the calls, a thousand times the major one, and the minor one: HDMINET_VERSION of include/hdminet_wire.h. The minor
/// version rises where calls or numbers are added, the major one where something that was there changes.
#[unsafe(no_mangle)]
pub extern "C" fn hdminet_version() -> u32
    ensures { result ≡ 1001 }
{
    1001
}
