//! Ways through switches, by physical addresses.
ghost use Rattle.std.specs.Prelude.{◌≡◌};
ghost use Rattle.device_features.specs.Kinds.{is_nowhere};
ghost use Rattle.device_features.specs.Ways.{port_towards, below, nibbles, next_nibble};

use crate::record::Port;
use text_core::Phys;

/// F.F.F.F, which stands for no physical address.
pub const NOWHERE: Phys = Phys {
    high: 0xff,
    low: 0xff,
};

/// Whether it is F.F.F.F.
pub fn is_nowhere(address: Phys) -> bool
    ensures { result ≡ is_nowhere address }
{
    address.high == 0xff && address.low == 0xff
}

fn nibbles(address: Phys) -> [Port; 4]
    ensures { result ≡ nibbles address }
{
    [
        Port::new(address.high / 16),
        Port::new(address.high % 16),
        Port::new(address.low / 16),
        Port::new(address.low % 16),
    ]
}

// What follows in the second address where the first one ends.
fn next_nibble(own: &[Port], to: &[Port]) -> Option<Port>
    ensures { result ≡ next_nibble own.now to.now }
{
    match own.split_first() {
        None => None,
        Some((first, own)) => match to.split_first() {
            None => None,
            Some((next, to)) => {
                if first.value() == 0 {
                    Some(*next)
                } else if first == next {
                    next_nibble(own, to)
                } else {
                    None
                }
            }
        },
    }
}

/// The port that leads to an address, if it lies below the device's own and that is below the root.
pub(crate) fn port_towards(own: Phys, to: Phys) -> Option<Port>
    ensures { result ≡ port_towards own to }
{
    if own.high / 16 == 0 {
        return None;
    }
    let own = nibbles(own);
    let to = nibbles(to);
    next_nibble(&own, &to)
}

/// The address of a port.
pub(crate) fn below(own: Phys, port: Port) -> Phys
    ensures { result ≡ below own port }
{
    let port = port.value();
    if own.high / 16 == 0 {
        Phys {
            high: port * 16,
            low: 0,
        }
    } else if own.high % 16 == 0 {
        Phys {
            high: own.high + port,
            low: 0,
        }
    } else if own.low / 16 == 0 {
        Phys {
            high: own.high,
            low: port * 16,
        }
    } else if own.low % 16 == 0 {
        Phys {
            high: own.high,
            low: own.low + port,
        }
    } else {
        NOWHERE
    }
}
