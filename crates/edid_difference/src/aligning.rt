//! The parts of two EDIDs side by side.
ghost use Rattle.std.specs.Prelude.{◌≡◌, ◌≤◌, length, map};
ghost use Rattle.std.specs.List.{flat_map};
ghost use Rattle.edid_difference.specs.Alignment.{has_kind, is_first_lone, is_lone, lone_second};
ghost use Rattle.edid_difference.specs.Parts.{IsPlace, place_after, rest_at};
ghost use Rattle.edid_difference.specs.Records.{difference_text, entry_text};
ghost use Rattle.text_core.specs.Adds.{Adds};

use crate::part::{Part, Place, part_at, place_after};
use crate::records::{add_both, add_first, add_second};
use edid_base::Base;
use edid_cta::Ext;
use record_core::Form;
use text_core::{Counted, Sink};

// Whether a part of this kind comes after a place.
fn has_kind(kind: u64, base: &Base, extensions: &[Ext], place: Place) -> bool
    requires few { length extensions.now ≤ 3 }
    requires inside { IsPlace place }
    ensures { result ≡ has_kind kind (rest_at base.now extensions.now place) }
{
    let mut place = place;
    while let Some(part) = part_at(base, extensions, place) {
        if part.kind == kind {
            return true;
        }
        place = place_after(&part);
    }
    false
}

// Whether the first of two parts is alone, by whether its kind comes in the second EDID, whether that of the other comes in the first
// EDID, and whether it is the lesser one.
fn is_lone(first: bool, second: bool, less: bool) -> bool
    ensures { result ≡ is_lone first second less }
{
    (second && !first) || (!(first && !second) && less)
}

// Whether the first of two parts of different kinds is alone.
#[inline(never)]
fn is_first_lone(
    part: &Part,
    first: &Base,
    first_extensions: &[Ext],
    other: &Part,
    second: &Base,
    second_extensions: &[Ext],
) -> bool
    requires first { length first_extensions.now ≤ 3 }
    requires second { length second_extensions.now ≤ 3 }
    requires one { IsPlace (place_after part.now) }
    requires other { IsPlace (place_after other.now) }
    ensures { result ≡ is_first_lone part.now (rest_at first.now first_extensions.now (place_after part.now)) other.now (rest_at second.now second_extensions.now (place_after other.now)) }
{
    is_lone(
        has_kind(part.kind, second, second_extensions, place_after(other)),
        has_kind(other.kind, first, first_extensions, place_after(part)),
        part.kind < other.kind,
    )
}

// Adds the parts that the second EDID has after a place.
fn add_seconds<S: Sink>(
    out: &mut Counted<'_, S>,
    form: Form,
    base: &Base,
    extensions: &[Ext],
    place: Place,
)
    requires few { length extensions.now ≤ 3 }
    requires inside { IsPlace place }
    ensures { Adds out.old out.new (flat_map (entry_text form) (map lone_second (rest_at base.now extensions.now place))) }
{
    let mut place = place;
    while let Some(part) = part_at(base, extensions, place) {
        add_second(out, form, &part);
        place = place_after(&part);
    }
}

/// Adds how two EDIDs differ.
pub(crate) fn add_difference<S: Sink>(
    out: &mut Counted<'_, S>,
    form: Form,
    first: &Base,
    first_extensions: &[Ext],
    second: &Base,
    second_extensions: &[Ext],
)
    requires first { length first_extensions.now ≤ 3 }
    requires second { length second_extensions.now ≤ 3 }
    ensures { Adds out.old out.new (difference_text form first.now first_extensions.now second.now second_extensions.now) }
{
    let mut here = Place {
        block: 0,
        number: 0,
    };
    let mut there = here;
    while let Some(part) = part_at(first, first_extensions, here) {
        match part_at(second, second_extensions, there) {
            None => {
                add_first(out, form, &part);
                here = place_after(&part);
            }
            Some(other) => {
                if part.kind == other.kind {
                    add_both(out, form, &part, &other);
                    here = place_after(&part);
                    there = place_after(&other);
                } else if is_first_lone(
                    &part,
                    first,
                    first_extensions,
                    &other,
                    second,
                    second_extensions,
                ) {
                    add_first(out, form, &part);
                    here = place_after(&part);
                } else {
                    add_second(out, form, &other);
                    there = place_after(&other);
                }
            }
        }
    }
    add_seconds(out, form, second, second_extensions, there);
}
