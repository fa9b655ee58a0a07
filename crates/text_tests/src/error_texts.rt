//! The text of each error, written by hand.
use device_core::{KeyError, SubmitError};
use edid_base::BaseError;
use edid_cta::{ExtError, NoHdmiBlock};
use edid_ddc::DdcError;
use edid_tree::{AddError, PlugError, PortEdidError, UnplugError};
use line_frames::FrameError;
use line_wave::PulsesError;
use message_table::EncodeError;
use message_text::{AssembleError, FrameLinesError};
use std::alloc::Global;
use std::fmt::Display;
use std::process::Abort;
use std::test::Fail;
use text_core::{At, WriteFault};

const FRAMES: &[(FrameError, &str)] = &[
    (FrameError::Empty, "a frame has at least one block"),
    (FrameError::TooLong, "a frame has at most 16 blocks"),
];

const PULSES: &[(PulsesError, &str)] = &[
    (
        PulsesError::Width,
        "a pulse is 1 to 10,000 microseconds wide",
    ),
    (
        PulsesError::Close,
        "a pulse begins at least 25,000 microseconds after the end of the one before",
    ),
    (
        PulsesError::Order,
        "a pulse begins after the end of the one before",
    ),
    (PulsesError::TooMany, "there are at most 4,096 pulses"),
];

const SUBMITS: &[(SubmitError, &str)] = &[
    (SubmitError::QueueFull, "the queue is full"),
    (
        SubmitError::OwnAddress,
        "the frame goes to the device itself",
    ),
    (
        SubmitError::NoAddress,
        "the frame's initiator is not the device's address",
    ),
    (SubmitError::OffWire, "the device is off the wire"),
];

const KEYS: &[(KeyError, &str)] = &[
    (KeyError::NotForKind, "the device has no such key"),
    (KeyError::OffWire, "the device is off the wire"),
];

const ADDS: &[(AddError, &str)] = &[
    (AddError::Full, "the tree is full"),
    (AddError::Name, "the name is ill-formed or taken"),
    (AddError::SecondRoot, "there is a television already"),
];

const PLUGS: &[(PlugError, &str)] = &[
    (PlugError::PortRange, "the device above has no such port"),
    (PlugError::PortTaken, "the port is taken"),
    (
        PlugError::NotLoose,
        "the device is plugged in already, or is the television",
    ),
    (PlugError::Loop, "the device above hangs below the device"),
];

const UNPLUGS: &[(UnplugError, &str)] = &[(
    UnplugError::NotPlugged,
    "the device is not plugged in",
)];

const PORTS: &[(PortEdidError, &str)] = &[
    (PortEdidError::NoHdmiBlock, "the EDID has no HDMI block"),
    (PortEdidError::PortRange, "the device has no such port"),
];

const BASES: &[(BaseError, &str)] = &[
    (BaseError::Header, "no header"),
    (BaseError::Checksum, "a wrong checksum"),
    (BaseError::Revision, "an unknown revision"),
    (BaseError::Maker, "no maker"),
];

const EXTENSIONS: &[(ExtError, &str)] = &[(ExtError::Checksum, "a wrong checksum")];

const WITHOUT_HDMI: &[(NoHdmiBlock, &str)] = &[(NoHdmiBlock, "no HDMI block")];

const DDC: &[(DdcError, &str)] = &[
    (DdcError::NoAck, "no acknowledgement"),
    (DdcError::NoHdmiBlock, "no HDMI block"),
    (
        DdcError::Length,
        "no whole number of blocks from one to four",
    ),
];

const MESSAGES: &[(EncodeError, &str)] = &[
    (
        EncodeError::Operand,
        "the message has an operand that its opcode has not",
    ),
    (
        EncodeError::Addressing,
        "the message does not go to this destination",
    ),
    (EncodeError::TooLong, "a frame has at most 16 blocks"),
];

const WRITES: &[(WriteFault, &str)] = &[(WriteFault { count: 12 }, "write fault after 12 bytes")];

const FRAME_LINES: &[(FrameLinesError, &str)] = &[
    (
        FrameLinesError::Line(At {
            line: 7,
            cause: AssembleError::TooLong,
            word: 2,
        }),
        "line 7: too-long",
    ),
    (
        FrameLinesError::Write(WriteFault { count: 0 }),
        "write fault after 0 bytes",
    ),
];

// Each error prints its text.
fn print<E: Display>(rt: &impl Abort, alloc: Global, rows: &[(E, &str)]) -> Result<(), Fail> {
    for (error, text) in rows {
        let printed = format!(in alloc; "{error}")?;
        assert!(rt; printed.as_str() == *text, "{text}");
    }
    Ok(())
}

#[test]
fn errors_of_the_wire_and_of_devices(rt: HostRuntime) -> Result<(), Fail> {
    print(&rt, rt.alloc(), FRAMES)?;
    print(&rt, rt.alloc(), PULSES)?;
    print(&rt, rt.alloc(), SUBMITS)?;
    print(&rt, rt.alloc(), KEYS)
}

#[test]
fn errors_of_trees(rt: HostRuntime) -> Result<(), Fail> {
    print(&rt, rt.alloc(), ADDS)?;
    print(&rt, rt.alloc(), PLUGS)?;
    print(&rt, rt.alloc(), UNPLUGS)?;
    print(&rt, rt.alloc(), PORTS)
}

#[test]
fn errors_of_edids(rt: HostRuntime) -> Result<(), Fail> {
    print(&rt, rt.alloc(), BASES)?;
    print(&rt, rt.alloc(), EXTENSIONS)?;
    print(&rt, rt.alloc(), WITHOUT_HDMI)?;
    print(&rt, rt.alloc(), DDC)
}

#[test]
fn errors_of_messages_and_texts(rt: HostRuntime) -> Result<(), Fail> {
    print(&rt, rt.alloc(), MESSAGES)?;
    print(&rt, rt.alloc(), WRITES)?;
    print(&rt, rt.alloc(), FRAME_LINES)
}
