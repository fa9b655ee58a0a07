//! The detailed timings of an EDID.
ghost use Rattle.std.specs.Prelude.{◌≡◌, ◌≤◌, ◌+◌, ◌*◌, ◌++◌, length, flat_map};
ghost use Rattle.arrayvec.specs.ArrayVec.{array_vec_len};
ghost use Rattle.rules_values.specs.ExtParts.{descriptor_timings, ext_timings, timings_of};

use arrayvec::ArrayVec;
use edid_base::{Base, Descriptor, Timing};
use edid_cta::Ext;

/// The most detailed timings: four of the base block, and six of each of three extensions.
pub const MAX_TIMINGS: usize = 22;

/// Appends timings for which there is room.
fn append(timings: &mut ArrayVec<Timing, MAX_TIMINGS>, more: &[Timing])
    requires { array_vec_len timings.old + length more.now ≤ MAX_TIMINGS }
    ensures items { timings.new.items ≡ timings.old.items ++ more.now }
    ensures len { array_vec_len timings.new ≡ array_vec_len timings.old + length more.now }
{
    let _ = timings.try_extend_from_slice(more);
}

/// Appends the timing of a descriptor that is one.
fn append_descriptor(timings: &mut ArrayVec<Timing, MAX_TIMINGS>, descriptor: &Descriptor)
    requires { array_vec_len timings.old + 1 ≤ MAX_TIMINGS }
    ensures items { timings.new.items ≡ timings.old.items ++ descriptor_timings descriptor.now }
    ensures len { array_vec_len timings.new ≤ array_vec_len timings.old + 1 }
{
    if let Descriptor::Timing(timing) = descriptor {
        timings.push(*timing);
    }
}

fn append_descriptors(timings: &mut ArrayVec<Timing, MAX_TIMINGS>, descriptors: &[Descriptor; 4])
    requires { array_vec_len timings.old ≡ 0 }
    ensures items { timings.new.items ≡ timings.old.items ++ flat_map descriptor_timings descriptors.now }
    ensures len { array_vec_len timings.new ≤ 4 }
{
    for descriptor in descriptors {
        append_descriptor(timings, descriptor);
    }
}

/// Appends the timings of an extension, up to six.
fn append_ext(timings: &mut ArrayVec<Timing, MAX_TIMINGS>, ext: &Ext)
    requires { array_vec_len timings.old + 6 ≤ MAX_TIMINGS }
    ensures items { timings.new.items ≡ timings.old.items ++ ext_timings ext.now }
    ensures len { array_vec_len timings.new ≤ array_vec_len timings.old + 6 }
{
    if let Ext::Cta(cta) = ext {
        append(timings, cta.timings.as_slice());
    }
}

fn append_extensions(timings: &mut ArrayVec<Timing, MAX_TIMINGS>, extensions: &[Ext])
    requires few { length extensions.now ≤ 3 }
    requires room { array_vec_len timings.old ≤ 4 }
    ensures items { timings.new.items ≡ timings.old.items ++ flat_map ext_timings extensions.now }
{
    for ext in extensions {
        append_ext(timings, ext);
    }
}

/// The detailed timings in the order of the bytes.
pub fn timings_of(base: &Base, extensions: &[Ext]) -> ArrayVec<Timing, MAX_TIMINGS>
    requires { length extensions.now ≤ 3 }
    ensures { result.items ≡ timings_of base.now extensions.now }
{
    let mut timings = ArrayVec::new();
    append_descriptors(&mut timings, &base.descriptors);
    append_extensions(&mut timings, extensions);
    timings
}
