//! An amplifier's audio in place of the television's.
use crate::samples::block_of;
use edid_cta::{Ext, hdmi_address, read_ext, with_address, with_audio, write_ext};
use std::process::Abort;
use text_core::Phys;

/// An extension, and what an amplifier passes on for a device with the address 1.1.0.0; extensions, and what an amplifier
/// passes on: one whose end is not zeros as it is; and the address of an extension's first HDMI block. That is a vendor's
/// block of at least five bytes that begins with HDMI's identifier: one of four, another vendor's, and one in an extension
/// that is kept raw are none.
pub(crate) const CASES: &str = "\
addressed speaking..e8 => 020319f143900403260f7f071507508301000065030c001100..e7
heard 020308f123090707..c8 => 02030bf1260f7f07150750..d8
heard 020308f123090707..01c7 => 020308f123090707..01c7
heard 020308f123090707..010000c7 => 020308f123090707..010000c7
heard 02030ef1290907070f7f07150750..bb => 02030bf1260f7f07150750..d8
heard 020304f1..06 => 020304f1..06
address speaking..e8 => Some(Phys { high: 0, low: 0 })
address 02030af165030c001234..46 => Some(Phys { high: 18, low: 52 })
address 020310f165030c00100065030c002000..e2 => Some(Phys { high: 16, low: 0 })
address 020310f165d85dc4100065030c002000..f8 => Some(Phys { high: 32, low: 0 })
address 020309f164030c0010..7e => None
address 02030af165d85dc41000..92 => None
address 020304f1..06 => None
address 020300f1..0a => None
address 020306f14390..31 => None
";

/// An extension that hears an amplifier.
fn heard(rt: &(impl Abort + AllocGlobal), words: &str) -> Ext {
    let ext = read_ext(&block_of(rt, words)).expect(rt, "an extension");
    with_audio(&ext)
}

pub(crate) fn heard_reported(rt: &(impl Abort + AllocGlobal), words: &str) -> String {
    let heard = heard(rt, words);
    hex::encode(rt.alloc(), write_ext(&heard).as_slice()).expect(rt, "hex digits")
}

pub(crate) fn addressed_reported(rt: &(impl Abort + AllocGlobal), words: &str) -> String {
    let address = Phys {
        high: 0x11,
        low: 0x00,
    };
    let passed = with_address(&heard(rt, words), address).expect(rt, "an address");
    hex::encode(rt.alloc(), write_ext(&passed).as_slice()).expect(rt, "hex digits")
}

/// The address that the first HDMI block of an extension reports.
pub(crate) fn address_reported(rt: &(impl Abort + AllocGlobal), words: &str) -> String {
    let ext = read_ext(&block_of(rt, words)).expect(rt, "an extension");
    format!(in rt.alloc(); "{:?}", hdmi_address(&ext)).expect(rt, "a text")
}
