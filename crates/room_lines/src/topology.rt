//! The lines of topologies.
use text_forms::Slot;

/// A line of a topology.
#[derive(Clone, Copy, Debug, PartialEq, Eq)]
pub enum TopologyVerb {
    Device,
    Plug,
    Edid,
}

/// Each form, with what stands at its places.
pub const TOPOLOGY: &[(TopologyVerb, &[(Slot, &str)])] = &[
    (
        TopologyVerb::Device,
        &[
            (Slot::Word, "device"),
            (Slot::Text, "NAME"),
            (Slot::Kind, "KIND"),
            (Slot::Ports, "PORTS"),
        ],
    ),
    (
        TopologyVerb::Plug,
        &[
            (Slot::Word, "plug"),
            (Slot::Text, "CHILD"),
            (Slot::Text, "PARENT"),
            (Slot::Port, "PORT"),
        ],
    ),
    (
        TopologyVerb::Edid,
        &[(Slot::Word, "edid"), (Slot::Text, "HEX")],
    ),
];
