//! The lines of steps.
use text_forms::Slot;

/// A line of steps.
#[derive(Clone, Copy, Debug, PartialEq, Eq)]
pub enum StepVerb {
    Edge,
    Round,
    UntilOpcode,
    UntilDevice,
    UntilBreak,
    Show,
}

/// Each form, with what stands at its places.
pub const STEPS: &[(StepVerb, &[(Slot, &str)])] = &[
    (StepVerb::Edge, &[(Slot::Word, "edge")]),
    (StepVerb::Round, &[(Slot::Word, "round")]),
    (
        StepVerb::UntilOpcode,
        &[
            (Slot::Word, "until"),
            (Slot::Word, "opcode"),
            (Slot::Opcode, "XX"),
        ],
    ),
    (
        StepVerb::UntilDevice,
        &[
            (Slot::Word, "until"),
            (Slot::Word, "device"),
            (Slot::Text, "NAME"),
        ],
    ),
    (
        StepVerb::UntilBreak,
        &[(Slot::Word, "until"), (Slot::Word, "break")],
    ),
    (
        StepVerb::Show,
        &[(Slot::Word, "show"), (Slot::Text, "NAME")],
    ),
];
