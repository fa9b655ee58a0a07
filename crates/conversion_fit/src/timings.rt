//! Detailed timings without those that the link does not carry.
ghost use Rattle.std.specs.Prelude.{◌≡◌, ◌≤◌, ◌+◌, ◌++◌, length, find, drop, Some};
ghost use Rattle.std.specs.List.{list_any};
ghost use Rattle.arrayvec.specs.ArrayVec.{array_vec_len};
ghost use Rattle.conversion_fit.specs.Timings.{area, begins_lost, carried_timings, greatest, greatest_area, has_area, has_area_there, is_carried_timing, is_lost, leader, led_descriptors, led_timings, left_descriptor, left_descriptors, without_first};
ghost use Rattle.rules_link.specs.Offers.{is_timing_beyond};
ghost use Rattle.rules_values.specs.ExtParts.{timings_of};

use arrayvec::ArrayVec;
use edid_base::{Base, Descriptor, Timing};
use edid_cta::Ext;
use rules_link::is_timing_beyond;
use rules_values::{MAX_TIMINGS, timings_of};

/// The most timings of an extension.
const MOST: usize = 6;

fn is_carried_timing(extensions: &[Ext], timing: &Timing) -> bool
    ensures { result ≡ is_carried_timing extensions.now timing.now }
{
    !is_timing_beyond(extensions, timing)
}

/// Appends those of some timings that the link carries.
fn add_carried(out: &mut ArrayVec<Timing, MAX_TIMINGS>, extensions: &[Ext], timings: &[Timing])
    requires { array_vec_len out.old + length timings.now ≤ MAX_TIMINGS }
    ensures items { out.new.items ≡ out.old.items ++ carried_timings extensions.now timings.now }
    ensures len { array_vec_len out.new ≤ array_vec_len out.old + length timings.now }
{
    if let [timing, rest @ ..] = timings {
        if is_carried_timing(extensions, timing) {
            out.push(*timing);
        }
        add_carried(out, extensions, rest);
    }
}

/// Those of some timings that the link carries.
fn carried_timings(extensions: &[Ext], timings: &[Timing]) -> ArrayVec<Timing, MAX_TIMINGS>
    requires { length timings.now ≤ MAX_TIMINGS }
    ensures items { result.items ≡ carried_timings extensions.now timings.now }
    ensures len { array_vec_len result ≤ length timings.now }
{
    let mut out = ArrayVec::new();
    add_carried(&mut out, extensions, timings);
    out
}

/// The pixels of a picture.
fn area(timing: &Timing) -> u32
    ensures { result ≡ area timing.now }
{
    u32::from(timing.horizontal_active) * u32::from(timing.vertical_active)
}

fn has_area(pixels: u32, timing: &Timing) -> bool
    ensures { result ≡ has_area pixels timing.now }
{
    area(timing) == pixels
}

/// The pixels of the greatest picture.
fn greatest_area(timings: &[Timing]) -> u32
    ensures { result ≡ greatest_area timings.now }
{
    match timings {
        [] => 0,
        [timing, rest @ ..] => {
            let others = greatest_area(rest);
            if others < area(timing) {
                area(timing)
            } else {
                others
            }
        }
    }
}

/// The first timing with so many pixels.
fn first_with(pixels: u32, timings: &[Timing]) -> Option<Timing>
    ensures { result ≡ find (has_area pixels) timings.now }
{
    match timings {
        [] => None,
        [timing, rest @ ..] => {
            if has_area(pixels, timing) {
                Some(*timing)
            } else {
                first_with(pixels, rest)
            }
        }
    }
}

/// The first one with the greatest picture.
fn greatest(timings: &[Timing]) -> Option<Timing>
    ensures { result ≡ greatest timings.now }
{
    first_with(greatest_area(timings), timings)
}

fn is_lost(extensions: &[Ext], descriptor: &Descriptor) -> bool
    ensures { result ≡ is_lost extensions.now descriptor.now }
{
    match descriptor {
        Descriptor::Timing(timing) => is_timing_beyond(extensions, timing),
        _ => false,
    }
}

fn begins_lost(extensions: &[Ext], descriptors: &[Descriptor]) -> bool
    ensures { result ≡ begins_lost extensions.now descriptors.now }
{
    match descriptors {
        [] => false,
        [descriptor, ..] => is_lost(extensions, descriptor),
    }
}

/// What stands in the place of a preferred timing that goes.
pub fn leader(extensions: &[Ext], base: &Base) -> Option<Timing>
    requires { length extensions.now ≤ 3 }
    ensures { result ≡ leader extensions.now base.now }
{
    if begins_lost(extensions, &base.descriptors) {
        let timings = timings_of(base, extensions);
        greatest(carried_timings(extensions, timings.as_slice()).as_slice())
    } else {
        None
    }
}

/// Whether some timing goes.
pub fn some_lost(base: &Base, extensions: &[Ext]) -> bool
    requires { length extensions.now ≤ 3 }
    ensures { result ≡ list_any (is_timing_beyond extensions.now) (timings_of base.now extensions.now) }
{
    timings_of(base, extensions)
        .as_slice()
        .iter()
        .any(|timing| is_timing_beyond(extensions, timing))
}

fn left_descriptor(extensions: &[Ext], descriptor: &Descriptor) -> Descriptor
    ensures { result ≡ left_descriptor extensions.now descriptor.now }
{
    if is_lost(extensions, descriptor) {
        Descriptor::Dummy
    } else {
        descriptor.copy()
    }
}

fn left_descriptors(extensions: &[Ext], descriptors: &[Descriptor; 4]) -> [Descriptor; 4]
    ensures { result ≡ left_descriptors extensions.now descriptors.now }
{
    let [first, second, third, fourth] = descriptors;
    [
        left_descriptor(extensions, first),
        left_descriptor(extensions, second),
        left_descriptor(extensions, third),
        left_descriptor(extensions, fourth),
    ]
}

fn has_area_there(pixels: u32, descriptor: &Descriptor) -> bool
    ensures { result ≡ has_area_there pixels descriptor.now }
{
    match descriptor {
        Descriptor::Timing(timing) => has_area(pixels, timing),
        _ => false,
    }
}

/// The descriptors with another one in the first place, whose own place is free.
fn led_by(extensions: &[Ext], descriptors: &[Descriptor; 4], timing: Timing) -> [Descriptor; 4]
    ensures { result ≡ led_descriptors extensions.now descriptors.now (Some timing) }
{
    let [_first, second, third, fourth] = descriptors;
    let pixels = area(&timing);
    let second = left_descriptor(extensions, second);
    let third = left_descriptor(extensions, third);
    let fourth = left_descriptor(extensions, fourth);
    let first = Descriptor::Timing(timing);
    if has_area_there(pixels, &second) {
        [first, Descriptor::Dummy, third, fourth]
    } else if has_area_there(pixels, &third) {
        [first, second, Descriptor::Dummy, fourth]
    } else if has_area_there(pixels, &fourth) {
        [first, second, third, Descriptor::Dummy]
    } else {
        [first, second, third, fourth]
    }
}

/// The descriptors without the timings that the link does not carry.
pub fn led_descriptors(
    extensions: &[Ext],
    descriptors: &[Descriptor; 4],
    leader: Option<Timing>,
) -> [Descriptor; 4]
    ensures { result ≡ led_descriptors extensions.now descriptors.now leader }
{
    match leader {
        None => left_descriptors(extensions, descriptors),
        Some(timing) => led_by(extensions, descriptors, timing),
    }
}

/// Whether a descriptor but the first one has so many pixels, and stays.
fn some_area_there(extensions: &[Ext], descriptors: &[Descriptor; 4], pixels: u32) -> bool
    ensures { result ≡ list_any (has_area_there pixels) (left_descriptors extensions.now (drop 1 descriptors.now)) }
{
    let [_first, second, third, fourth] = descriptors;
    has_area_there(pixels, &left_descriptor(extensions, second))
        || has_area_there(pixels, &left_descriptor(extensions, third))
        || has_area_there(pixels, &left_descriptor(extensions, fourth))
}

/// Appends timings without the first one of so many pixels.
fn add_others(out: &mut ArrayVec<Timing, MOST>, pixels: u32, timings: &[Timing])
    requires { array_vec_len out.old + length timings.now ≤ MOST }
    ensures items { out.new.items ≡ out.old.items ++ without_first pixels timings.now }
    ensures len { array_vec_len out.new ≤ array_vec_len out.old + length timings.now }
{
    if let [timing, rest @ ..] = timings {
        if has_area(pixels, timing) {
            add_all(out, rest);
        } else {
            out.push(*timing);
            add_others(out, pixels, rest);
        }
    }
}

fn add_all(out: &mut ArrayVec<Timing, MOST>, timings: &[Timing])
    requires { array_vec_len out.old + length timings.now ≤ MOST }
    ensures items { out.new.items ≡ out.old.items ++ timings.now }
    ensures len { array_vec_len out.new ≤ array_vec_len out.old + length timings.now }
{
    if let [timing, rest @ ..] = timings {
        out.push(*timing);
        add_all(out, rest);
    }
}

/// The timings of an extension without those that the link does not carry, nor the one that is preferred then.
pub fn led_timings(
    extensions: &[Ext],
    descriptors: &[Descriptor; 4],
    leader: Option<Timing>,
    timings: &[Timing],
) -> ArrayVec<Timing, MOST>
    requires { length timings.now ≤ MOST }
    ensures { result.items ≡ led_timings extensions.now descriptors.now leader timings.now }
{
    let carried = carried_timings(extensions, timings);
    let mut out = ArrayVec::new();
    match leader {
        None => add_all(&mut out, carried.as_slice()),
        Some(timing) => {
            if some_area_there(extensions, descriptors, area(&timing)) {
                add_all(&mut out, carried.as_slice());
            } else {
                add_others(&mut out, area(&timing), carried.as_slice());
            }
        }
    }
    out
}
