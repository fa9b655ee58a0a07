//! The lines that a session has besides those of a script.
use text_forms::Slot;

/// A line of a session that is none of a script.
#[derive(Clone, Copy, Debug, PartialEq, Eq)]
pub enum SessionVerb {
    Wait,
    WaitUntil,
    RunTo,
    Show,
    Edge,
    Edges,
    Seats,
}

/// Each form, with what stands at its places.
pub const SESSION: &[(SessionVerb, &[(Slot, &str)])] = &[
    (
        SessionVerb::RunTo,
        &[
            (Slot::Word, "run"),
            (Slot::Word, "to"),
            (Slot::LateTime, "T"),
        ],
    ),
    (SessionVerb::Wait, &[(Slot::Word, "wait")]),
    (
        SessionVerb::WaitUntil,
        &[(Slot::Word, "wait"), (Slot::LateTime, "T")],
    ),
    (
        SessionVerb::Show,
        &[(Slot::Word, "show"), (Slot::Text, "NAME")],
    ),
    (
        SessionVerb::Edge,
        &[(Slot::Word, "edge"), (Slot::LateTime, "T")],
    ),
    (
        SessionVerb::Edges,
        &[(Slot::Word, "edges"), (Slot::Switch, "on|off")],
    ),
    (
        SessionVerb::Seats,
        &[(Slot::Word, "seats"), (Slot::Switch, "on|off")],
    ),
];
