//! The lines of expectations.
use text_forms::Slot;

/// How many rounds are expected.
#[derive(Clone, Copy, Debug, PartialEq, Eq)]
pub enum How {
    /// No word says it: at least one.
    AtLeastOnce,
    Never,
    Once,
    Exactly,
    AtMost,
    AtLeast,
}

/// A line of an expectation.
#[derive(Clone, Copy, Debug, PartialEq, Eq)]
pub enum ExpectVerb {
    /// So many rounds, so long from the instant of a label on.
    Within(How),
    /// So many rounds, from one time to another.
    From(How),
    State,
    /// The event of a label is refused.
    Refused,
    /// That of the line above is.
    RefusedAbove,
    /// The audit has no remark.
    NoRemark,
    /// It has none that meets a pattern.
    NoRemarkOf,
}

/// Each form, with what stands at its places. The numbers of a count and of a window are words here: the fault of a pattern comes
/// before theirs, and the caller tells both.
pub const EXPECT: &[(ExpectVerb, &[(Slot, &str)])] = &[
    (
        ExpectVerb::Within(How::AtLeastOnce),
        &[
            (Slot::Word, "expect"),
            (Slot::Word, "within"),
            (Slot::Text, "D"),
            (Slot::Word, "of"),
            (Slot::Text, "NAME"),
            (Slot::Rest, "PATTERN"),
        ],
    ),
    (
        ExpectVerb::From(How::AtLeastOnce),
        &[
            (Slot::Word, "expect"),
            (Slot::Word, "from"),
            (Slot::Text, "T"),
            (Slot::Word, "to"),
            (Slot::Text, "U"),
            (Slot::Rest, "PATTERN"),
        ],
    ),
    (
        ExpectVerb::Within(How::Never),
        &[
            (Slot::Word, "expect"),
            (Slot::Word, "none"),
            (Slot::Word, "within"),
            (Slot::Text, "D"),
            (Slot::Word, "of"),
            (Slot::Text, "NAME"),
            (Slot::Rest, "PATTERN"),
        ],
    ),
    (
        ExpectVerb::From(How::Never),
        &[
            (Slot::Word, "expect"),
            (Slot::Word, "none"),
            (Slot::Word, "from"),
            (Slot::Text, "T"),
            (Slot::Word, "to"),
            (Slot::Text, "U"),
            (Slot::Rest, "PATTERN"),
        ],
    ),
    (
        ExpectVerb::Within(How::Once),
        &[
            (Slot::Word, "expect"),
            (Slot::Word, "once"),
            (Slot::Word, "within"),
            (Slot::Text, "D"),
            (Slot::Word, "of"),
            (Slot::Text, "NAME"),
            (Slot::Rest, "PATTERN"),
        ],
    ),
    (
        ExpectVerb::From(How::Once),
        &[
            (Slot::Word, "expect"),
            (Slot::Word, "once"),
            (Slot::Word, "from"),
            (Slot::Text, "T"),
            (Slot::Word, "to"),
            (Slot::Text, "U"),
            (Slot::Rest, "PATTERN"),
        ],
    ),
    (
        ExpectVerb::Within(How::Exactly),
        &[
            (Slot::Word, "expect"),
            (Slot::Word, "exactly"),
            (Slot::Text, "N"),
            (Slot::Word, "within"),
            (Slot::Text, "D"),
            (Slot::Word, "of"),
            (Slot::Text, "NAME"),
            (Slot::Rest, "PATTERN"),
        ],
    ),
    (
        ExpectVerb::From(How::Exactly),
        &[
            (Slot::Word, "expect"),
            (Slot::Word, "exactly"),
            (Slot::Text, "N"),
            (Slot::Word, "from"),
            (Slot::Text, "T"),
            (Slot::Word, "to"),
            (Slot::Text, "U"),
            (Slot::Rest, "PATTERN"),
        ],
    ),
    (
        ExpectVerb::Within(How::AtMost),
        &[
            (Slot::Word, "expect"),
            (Slot::Word, "at"),
            (Slot::Word, "most"),
            (Slot::Text, "N"),
            (Slot::Word, "within"),
            (Slot::Text, "D"),
            (Slot::Word, "of"),
            (Slot::Text, "NAME"),
            (Slot::Rest, "PATTERN"),
        ],
    ),
    (
        ExpectVerb::From(How::AtMost),
        &[
            (Slot::Word, "expect"),
            (Slot::Word, "at"),
            (Slot::Word, "most"),
            (Slot::Text, "N"),
            (Slot::Word, "from"),
            (Slot::Text, "T"),
            (Slot::Word, "to"),
            (Slot::Text, "U"),
            (Slot::Rest, "PATTERN"),
        ],
    ),
    (
        ExpectVerb::Within(How::AtLeast),
        &[
            (Slot::Word, "expect"),
            (Slot::Word, "at"),
            (Slot::Word, "least"),
            (Slot::Text, "N"),
            (Slot::Word, "within"),
            (Slot::Text, "D"),
            (Slot::Word, "of"),
            (Slot::Text, "NAME"),
            (Slot::Rest, "PATTERN"),
        ],
    ),
    (
        ExpectVerb::From(How::AtLeast),
        &[
            (Slot::Word, "expect"),
            (Slot::Word, "at"),
            (Slot::Word, "least"),
            (Slot::Text, "N"),
            (Slot::Word, "from"),
            (Slot::Text, "T"),
            (Slot::Word, "to"),
            (Slot::Text, "U"),
            (Slot::Rest, "PATTERN"),
        ],
    ),
    (
        ExpectVerb::State,
        &[
            (Slot::Word, "expect"),
            (Slot::Word, "state"),
            (Slot::LateTime, "T"),
            (Slot::Text, "NAME"),
            (Slot::Rest, "WORD"),
        ],
    ),
    (
        ExpectVerb::Refused,
        &[
            (Slot::Word, "expect"),
            (Slot::Word, "refused"),
            (Slot::Text, "NAME"),
            (Slot::Text, "WORD"),
        ],
    ),
    (
        ExpectVerb::RefusedAbove,
        &[
            (Slot::Word, "expect"),
            (Slot::Word, "refused"),
            (Slot::Text, "WORD"),
        ],
    ),
    (
        ExpectVerb::NoRemark,
        &[(Slot::Word, "expect"), (Slot::Word, "no-remark")],
    ),
    (
        ExpectVerb::NoRemarkOf,
        &[
            (Slot::Word, "expect"),
            (Slot::Word, "no-remark"),
            (Slot::Rest, "PATTERN"),
        ],
    ),
];
