//! How often each kind of remark came.
ghost use Rattle.std.specs.Prelude.{◌≡◌, ◌≤◌, length, replicate};
ghost use Rattle.audit_report.specs.Kinds.{holds, no_kinds, none_yet, place_in, same_text, with_kind};

use audit_notes::NoteKind;

/// The most kinds that are counted. An audit has fewer.
pub(crate) const MOST_KINDS: usize = 32;

/// A kind of remark, and how often it came. One that came 0 times is none.
#[derive(Clone, Copy)]
pub struct KindCount {
    pub(crate) kind: NoteKind,
    pub(crate) count: u64,
}

/// The kinds that came, in the order of their first ones, and then none.
pub(crate) type KindCounts = [KindCount; MOST_KINDS];

/// No kind came.
pub(crate) const NO_KINDS: KindCounts = [KindCount {
    kind: NoteKind::Read,
    count: 0,
}; MOST_KINDS];

fn same_text(left: &[u8], right: &[u8]) -> bool
    ensures { result ≡ same_text left.now right.now }
{
    match left {
        [] => match right {
            [] => true,
            [_, ..] => false,
        },
        [byte, left @ ..] => match right {
            [] => false,
            [other, right @ ..] => *byte == *other && same_text(left, right),
        },
    }
}

impl KindCount {
    // Whether a kind is counted here: it is called so, or nothing was counted here.
    fn holds(self, kind: NoteKind) -> bool
        ensures { result ≡ holds kind self }
    {
        self.count == 0 || same_text(self.kind.name().as_bytes(), kind.name().as_bytes())
    }
}

// Where a kind is counted.
fn place_in(kind: NoteKind, counts: &[KindCount]) -> usize
    requires { length counts.now ≤ 32 }
    ensures value { result ≡ place_in kind counts.now }
    ensures within { result ≤ length counts.now }
{
    let [first, counts @ ..] = counts else {
        return 0;
    };
    if first.holds(kind) {
        0
    } else {
        1 + place_in(kind, counts)
    }
}

/// A remark of a kind came.
pub(crate) fn count_kind(kind: NoteKind, counts: &mut KindCounts)
    ensures { counts.new ≡ with_kind kind counts.old }
{
    let place = place_in(kind, &*counts);
    if place >= MOST_KINDS {
        return;
    }
    let count = counts[place].count.saturating_add(1);
    counts[place] = KindCount { kind, count };
}
