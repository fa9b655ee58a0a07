//! Which form a data block has.
ghost use Rattle.std.specs.Prelude.{◌≡◌, ◌≤◌, Some, None, length, option_map, IfSome, IsTrue};
ghost use Rattle.meaning_displayid.specs.Forms.{form_in_code, is_form};
ghost use Rattle.meaning_displayid.specs.Sections.{codes_form, colours_form, eight_form, extra_of, form_of, interface_form, is_ten, is_vendor, is_vesa, limits_form, new_timings_form, one_form, parameters_form, revision_of, seven_form, ten_form, tiles_form, timings_form, two_form, vendor_form};

use crate::forms::Form;
use crate::{one, two};
use meaning_words::byte_at;

/// The bytes of the whole topology of tiles, and of the whole display interface of DisplayID 1.3.
const TILES: usize = 22;

const INTERFACE: usize = 10;
/// The first tag of DisplayID 2.0.
const FIRST_OF_TWO: u8 = 0x20;

fn extra_of(revision: u8) -> usize
    ensures value { result ≡ extra_of revision }
    ensures small { result ≤ 7 }
{
    usize::from(revision / 16 % 8)
}

fn codes_form(revision: u8) -> Option<Form>
    ensures value { option_map form_in_code result ≡ codes_form revision }
    ensures form { IfSome result (λ f. IsTrue (is_form f)) }
{
    match revision / 64 {
        0 => Some(one::dmt_codes()),
        1 => Some(one::vic_codes()),
        2 => Some(one::hdmi_vic_codes()),
        _ => None,
    }
}

fn colours_form(payload: &[u8]) -> Form
    ensures value { form_in_code result ≡ colours_form payload.now }
    ensures form { IsTrue (is_form result) }
{
    if byte_at(payload, 0) / 16 % 8 == 0 {
        one::space()
    } else {
        one::colours()
    }
}

fn interface_form(payload: &[u8]) -> Form
    ensures value { form_in_code result ≡ interface_form payload.now }
    ensures form { IsTrue (is_form result) }
{
    if INTERFACE <= payload.len() {
        one::interface()
    } else {
        one::short_interface()
    }
}

fn tiles_form(tiles: Form, payload: &[u8]) -> Form
    requires { IsTrue (is_form tiles) }
    ensures value { form_in_code result ≡ tiles_form (form_in_code tiles) payload.now }
    ensures form { IsTrue (is_form result) }
{
    if TILES <= payload.len() {
        tiles
    } else {
        one::short_tiles()
    }
}

#[tactic(auto, unfolding(crate::specs::Sections::timings_form))]
fn timings_form(tag: u8, revision: u8) -> Option<Form>
    ensures value { option_map form_in_code result ≡ timings_form tag revision }
    ensures form { IfSome result (λ f. IsTrue (is_form f)) }
{
    match tag {
        0x03 => Some(one::timings_i()),
        0x04 => Some(one::timings_ii()),
        0x05 => Some(one::timings_iii()),
        0x06 => codes_form(revision),
        0x09 => Some(one::limits()),
        0x11 => Some(one::timings_v()),
        0x13 => Some(one::timings_vi()),
        _ => None,
    }
}

#[tactic(auto, unfolding(crate::specs::Sections::one_form))]
fn one_form(tag: u8, revision: u8, payload: &[u8]) -> Option<Form>
    ensures value { option_map form_in_code result ≡ one_form tag revision payload.now }
    ensures form { IfSome result (λ f. IsTrue (is_form f)) }
{
    match tag {
        0x00 => Some(one::product()),
        0x01 => Some(one::parameters()),
        0x02 => Some(colours_form(payload)),
        0x0a => Some(one::serial()),
        0x0b => Some(one::string()),
        0x0c => Some(one::device()),
        0x0d => Some(one::power()),
        0x0e => Some(one::curves()),
        0x0f => Some(interface_form(payload)),
        0x10 => Some(one::stereo()),
        0x12 => Some(tiles_form(one::tiles(), payload)),
        _ => timings_form(tag, revision),
    }
}

fn parameters_form(revision: u8) -> Form
    ensures value { form_in_code result ≡ parameters_form revision }
    ensures form { IsTrue (is_form result) }
{
    if revision < 128 {
        two::parameters()
    } else {
        two::parameters_in_mm()
    }
}

fn seven_form(revision: u8) -> Form
    ensures value { form_in_code result ≡ seven_form revision }
    ensures form { IsTrue (is_form result) }
{
    if revision % 8 < 2 {
        two::timings_vii(extra_of(revision))
    } else {
        two::timings_vii_420(extra_of(revision))
    }
}

fn eight_form(revision: u8) -> Option<Form>
    ensures value { option_map form_in_code result ≡ eight_form revision }
    ensures form { IfSome result (λ f. IsTrue (is_form f)) }
{
    if revision / 8 % 2 == 0 {
        codes_form(revision)
    } else {
        None
    }
}

fn ten_form(revision: u8) -> Form
    ensures value { form_in_code result ≡ ten_form revision }
    ensures form { IsTrue (is_form result) }
{
    let extra = extra_of(revision);
    if extra == 0 {
        two::timings_x()
    } else {
        two::long_timings_x(extra)
    }
}

fn limits_form(revision: u8) -> Form
    ensures value { form_in_code result ≡ limits_form revision }
    ensures form { IsTrue (is_form result) }
{
    if revision % 8 == 0 {
        two::limits()
    } else {
        two::long_limits()
    }
}

fn is_vesa(payload: &[u8]) -> bool
    ensures { result ≡ is_vesa payload.now }
{
    5 <= payload.len()
        && byte_at(payload, 0) == 0x3a
        && byte_at(payload, 1) == 0x02
        && byte_at(payload, 2) == 0x92
}

fn vendor_form(payload: &[u8]) -> Form
    ensures value { form_in_code result ≡ vendor_form payload.now }
    ensures form { IsTrue (is_form result) }
{
    if is_vesa(payload) {
        two::vesa()
    } else {
        two::vendor()
    }
}

#[tactic(auto, unfolding(crate::specs::Sections::new_timings_form))]
fn new_timings_form(tag: u8, revision: u8) -> Option<Form>
    ensures value { option_map form_in_code result ≡ new_timings_form tag revision }
    ensures form { IfSome result (λ f. IsTrue (is_form f)) }
{
    match tag {
        0x22 => Some(seven_form(revision)),
        0x23 => eight_form(revision),
        0x24 => Some(two::timings_ix()),
        0x25 => Some(limits_form(revision)),
        0x2b => Some(two::adaptive_sync(extra_of(revision))),
        0x2a | 0x32 => Some(ten_form(revision)),
        _ => None,
    }
}

#[tactic(auto, unfolding(crate::specs::Sections::two_form))]
fn two_form(tag: u8, revision: u8, payload: &[u8]) -> Option<Form>
    ensures value { option_map form_in_code result ≡ two_form tag revision payload.now }
    ensures form { IfSome result (λ f. IsTrue (is_form f)) }
{
    match tag {
        0x20 => Some(two::product()),
        0x21 => Some(parameters_form(revision)),
        0x26 => Some(two::features()),
        0x27 => Some(one::stereo()),
        0x28 => Some(tiles_form(two::tiles(), payload)),
        0x29 => Some(two::container()),
        0x7e | 0x7f => Some(vendor_form(payload)),
        _ => new_timings_form(tag, revision),
    }
}

/// How a data block is told, of its tag, the byte after it and the payload; none where its bytes are not read.
#[tactic(auto, unfolding(crate::specs::Sections::form_of))]
pub(crate) fn form_of(tag: u8, revision: u8, payload: &[u8]) -> Option<Form>
    ensures value { option_map form_in_code result ≡ form_of tag revision payload.now }
    ensures form { IfSome result (λ f. IsTrue (is_form f)) }
{
    if tag < FIRST_OF_TWO {
        one_form(tag, revision, payload)
    } else {
        two_form(tag, revision, payload)
    }
}
