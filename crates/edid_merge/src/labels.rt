//! The names and serial numbers of a product among its descriptors, and the places where they stand.
ghost use Rattle.std.specs.Prelude.{◌≡◌, ◌≤◌, drop, length, slice_index_or};
ghost use Rattle.edid_base.specs.declared.descriptor.Descriptor.TheVariants.{Dummy};
ghost use Rattle.edid_merge.specs.Labels.{free_seat, is_labelled, labelled, merged_descriptors, names_after, seat_for, seat_of, seated, serials_after};

use edid_base::Descriptor;

/// What a descriptor says of a product.
#[derive(Clone, Copy, Debug, PartialEq, Eq)]
pub enum Label {
    /// Its name.
    Name,
    /// Its serial number as a text.
    Serial,
}

/// What stands in a place for a descriptor.
#[derive(Clone, Copy, Debug, PartialEq, Eq)]
pub enum Seat {
    /// A name of the receiver's.
    Name,
    /// A serial number of the receiver's.
    Serial,
    /// Nothing.
    Unused,
    /// What the display has there.
    Shown,
}

pub fn is_labelled(label: Label, descriptor: &Descriptor) -> bool
    ensures { result ≡ is_labelled label descriptor.now }
{
    match label {
        Label::Name => matches!(descriptor, Descriptor::Name(_)),
        Label::Serial => matches!(descriptor, Descriptor::SerialText(_)),
    }
}

// How many have a label.
pub fn label_count(label: Label, descriptors: &[Descriptor]) -> usize
    ensures value { result ≡ length (labelled label descriptors.now) }
    ensures few { result ≤ length descriptors.now }
{
    let [descriptor, rest @ ..] = descriptors else {
        return 0;
    };
    let others = label_count(label, rest);
    if is_labelled(label, descriptor) {
        others + 1
    } else {
        others
    }
}

// What stands in a place that is free.
fn free_seat(names: usize, serials: usize, later: &[Descriptor]) -> Seat
    ensures { result ≡ free_seat names serials later.now }
{
    if label_count(Label::Name, later) < names {
        Seat::Name
    } else if label_count(Label::Serial, later) < serials {
        Seat::Serial
    } else {
        Seat::Unused
    }
}

// What stands in a place where so many names and serial numbers are left.
fn seat_of(names: usize, serials: usize, shown: &Descriptor, later: &[Descriptor]) -> Seat
    ensures { result ≡ seat_of names serials shown.now later.now }
{
    match shown {
        Descriptor::Name(_) if names > 0 => Seat::Name,
        Descriptor::SerialText(_) if serials > 0 => Seat::Serial,
        Descriptor::Name(_) | Descriptor::SerialText(_) | Descriptor::Dummy => {
            free_seat(names, serials, later)
        }
        Descriptor::Timing(_) | Descriptor::Text(_) | Descriptor::Range(_) | Descriptor::Raw(_) => {
            Seat::Shown
        }
    }
}

// The first one with a label, or an unused one.
fn first_labelled(label: Label, descriptors: &[Descriptor]) -> Descriptor
    ensures { result ≡ slice_index_or (labelled label descriptors.now) 0 Dummy }
{
    match descriptors {
        [] => Descriptor::Dummy,
        [first, rest @ ..] => {
            if is_labelled(label, first) {
                first.copy()
            } else {
                first_labelled(label, rest)
            }
        }
    }
}

// What comes after it.
fn after_labelled(label: Label, descriptors: &[Descriptor]) -> &[Descriptor]
    ensures { labelled label result.now ≡ drop 1 (labelled label descriptors.now) }
{
    match descriptors {
        [] => descriptors,
        [first, rest @ ..] => {
            if is_labelled(label, first) {
                rest
            } else {
                after_labelled(label, rest)
            }
        }
    }
}

/// Descriptors of the receiver's, of which the names that have no place yet are among the ones and the serial numbers among the others.
#[derive(Clone, Copy)]
struct Left<'a> {
    names: &'a [Descriptor],
    serials: &'a [Descriptor],
}

impl Left<'_> {
    // What stands in a place.
    fn seat(self, shown: &Descriptor, later: &[Descriptor]) -> Seat
        ensures { result ≡ seat_for (labelled Label.Name self.entry.names.now) (labelled Label.Serial self.entry.serials.now) shown.now later.now }
    {
        seat_of(
            label_count(Label::Name, self.names),
            label_count(Label::Serial, self.serials),
            shown,
            later,
        )
    }

    // The descriptor that stands there.
    fn seated(self, seat: Seat, shown: &Descriptor) -> Descriptor
        ensures { result ≡ seated seat (labelled Label.Name self.entry.names.now) (labelled Label.Serial self.entry.serials.now) shown.now }
    {
        match seat {
            Seat::Name => first_labelled(Label::Name, self.names),
            Seat::Serial => first_labelled(Label::Serial, self.serials),
            Seat::Unused => Descriptor::Dummy,
            Seat::Shown => shown.copy(),
        }
    }

    // What is left after it.
    fn after(self, seat: Seat) -> Self
        ensures names { labelled Label.Name result.names.now ≡ names_after seat (labelled Label.Name self.entry.names.now) }
        ensures serials { labelled Label.Serial result.serials.now ≡ serials_after seat (labelled Label.Serial self.entry.serials.now) }
    {
        match seat {
            Seat::Name => Left {
                names: after_labelled(Label::Name, self.names),
                serials: self.serials,
            },
            Seat::Serial => Left {
                names: self.names,
                serials: after_labelled(Label::Serial, self.serials),
            },
            Seat::Unused | Seat::Shown => self,
        }
    }
}

/// A display's descriptors, with the receiver's names and serial numbers in place of its own.
pub fn merged_descriptors(own: &[Descriptor], display: &[Descriptor; 4]) -> [Descriptor; 4]
    ensures { result ≡ merged_descriptors own.now display.now }
{
    let [first, second, third, fourth] = display;
    let places = &display[..];
    let whole = Left {
        names: own,
        serials: own,
    };
    let one = whole.seat(first, &places[1..]);
    let after_one = whole.after(one);
    let two = after_one.seat(second, &places[2..]);
    let after_two = after_one.after(two);
    let three = after_two.seat(third, &places[3..]);
    let after_three = after_two.after(three);
    let four = after_three.seat(fourth, &[]);
    [
        whole.seated(one, first),
        after_one.seated(two, second),
        after_two.seated(three, third),
        after_three.seated(four, fourth),
    ]
}
