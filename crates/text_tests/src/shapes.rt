//! Shapes, written by hand from the standard's table of opcodes.
use crate::cases::case_holds;
use message_shapes::frame_shape;
use std::process::Abort;

const SHAPES: &[(u8, &str)] = &[
    (0x00, "feature-abort BYTE REASON"),
    (0x04, "image-view-on"),
    (0x32, "set-menu-language LANG"),
    (0x47, "set-osd-name TEXT"),
    (0x64, "set-osd-string DISPLAY [TEXT]"),
    (0x70, "system-audio-mode-request [PA]"),
    (0x7a, "report-audio-status VOLUME"),
    (0x80, "routing-change PA PA"),
    (0x87, "device-vendor-id ID"),
    (0x89, "vendor-command :HEX"),
];

fn is_shape_of(code: u8, shape: &str) -> bool {
    match frame_shape(code) {
        Some(found) => found.as_slice() == shape.as_bytes(),
        None => false,
    }
}

#[test]
fn shapes(rt: HostRuntime) {
    for (code, shape) in SHAPES {
        case_holds(&rt, is_shape_of(*code, shape), shape);
    }
    assert!(rt; frame_shape(0xe5).is_none());
}
