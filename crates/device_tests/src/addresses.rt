//! The logical addresses that each kind tries, in order, written by hand.
use device_features::{addresses, second_addresses};
use text_core::Kind;

// A kind, the addresses of its unit, and those of its second unit.
const ROWS: &[(Kind, &[u8], &[u8])] = &[
    (Kind::Tv, &[0, 14], &[]),
    (Kind::Recorder, &[1, 2, 9], &[]),
    (Kind::Player, &[4, 8, 11], &[]),
    (Kind::Amp, &[5], &[]),
    (Kind::Switch, &[], &[]),
    (Kind::Combo, &[1, 2, 9], &[4, 8, 11]),
    (Kind::Outside, &[], &[]),
    (Kind::OutsideTv, &[], &[]),
];

#[test]
fn kinds_have_their_addresses(rt: HostRuntime) {
    for (kind, first, second) in ROWS {
        assert!(rt; addresses(*kind) == *first, "{kind:?}");
        assert!(rt; second_addresses(*kind) == *second, "{kind:?}");
    }
}
