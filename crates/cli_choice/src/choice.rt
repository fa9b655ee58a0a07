//! What a command line asks for.
use capture_forms::CaptureForm;
use edid_merge::Table;
use follow_core::LineForm;
use record_core::Form;
use text_core::Phys;

/// What is written of a run.
#[derive(Clone, Copy, Debug)]
pub enum Listing {
    /// Its trace.
    Trace,
    /// Its line, as a capture in this form.
    Line(CaptureForm),
    /// Its line as a Value Change Dump, and below it who drives it.
    Drives,
    /// The same, and its frames and bits as strings.
    Named,
}

/// What is written of a capture as its lines come.
#[derive(Clone, Copy, Debug)]
pub enum FollowReport {
    /// Its readings.
    Readings {
        /// Those from where the line was first idle, as of a capture that begins in the middle of a frame.
        from_idle: bool,
        /// With bad starts one after another as one line.
        folded: bool,
    },
    /// Its audit.
    Audit {
        /// With the widths of the parts of each reading.
        timing: bool,
        /// A remark is a fault.
        strict: bool,
    },
}

/// What is written of a capture.
#[derive(Clone, Copy, Debug)]
pub enum CaptureReport {
    /// Its readings.
    Readings,
    /// Those from where the line was first idle, as of a capture that begins in the middle of a frame.
    FromIdle,
    /// Its readings, and below each what the standard would have otherwise.
    Audit {
        /// With the widths of the parts of each reading.
        timing: bool,
        /// A remark is a fault.
        strict: bool,
    },
}

/// What is said of a whole capture, in place of its readings.
#[derive(Clone, Copy, Debug)]
pub enum CaptureSummary {
    /// The devices on its line.
    Devices,
    /// What its line looks like, as a whole.
    Verdict,
    /// Expectations that it meets, for `check --capture`.
    Test,
    /// What the device of a logical address, 0 to 14, drove, as lines of a script.
    Replay(u8),
}

/// What is written of a test: a topology, and a script with expectations.
#[derive(Clone, Copy, Debug)]
pub enum TestView {
    /// The report of whether its run is as they have it.
    Report,
    /// The same, and on standard error how far a sweep is.
    Progress,
    /// The report, and after it the trace of its run.
    Traced,
    /// The input of its run, without labels and expectations.
    Plain,
}

/// What is written as objects of JSON, a line each.
#[derive(Clone, Copy, Debug)]
pub enum Objects {
    /// The lines of the trace of a run. Where it is strict, an event that is refused is a fault.
    Trace {
        strict: bool,
    },
    /// The same, after the lines of the topology and the pulses of the script, and with each event's line of the script.
    Room {
        strict: bool,
    },
    /// The lines of the report of a test of a run, with its trace after it or without.
    Test {
        traced: bool,
    },
    /// The lines of the report of a test of a capture.
    CaptureTest {
        form: Option<CaptureForm>,
        glitch: u64,
    },
}

/// What an EDID is read from.
#[derive(Clone, Copy, Debug)]
pub enum Source {
    /// Its bytes.
    Bytes,
    /// A hex dump of its bytes: of several in a text the one with this number, from 1.
    Dump { nth: u64 },
    /// Its text.
    Text,
    /// Its text, in which payloads may stand in words.
    Words,
    /// The EDIDs of a display and of a receiver, of which that is made that the receiver answers with by a table: their bytes one
    /// after the other, or the first two hex dumps of a text.
    Pair { dumps: bool, table: Table },
}

/// How the bytes of an EDID are read.
#[derive(Clone, Copy, Debug)]
pub enum EdidReading {
    /// As they stand.
    Strict,
    /// With the count of extensions that the HDMI Forum's override of it has.
    Overridden,
    /// As a source reads them, which mends some and passes over others.
    AsSource,
    /// With right checksums, and the count of the extensions that are there.
    Mended,
    /// With right checksums, and that count in the HDMI Forum's override.
    MendedOverridden,
}

/// Whose sound an EDID reports that is passed on.
#[derive(Clone, Copy, Debug)]
pub enum Sound {
    /// That of the device that has the EDID.
    Kept,
    /// The audio of an amplifier that has its address.
    Amplified,
    /// The audio and the speakers of that amplifier.
    Spoken,
}

/// The device that an EDID is for.
#[derive(Clone, Copy, Debug)]
pub enum Recipient {
    /// The one that has it.
    Own,
    /// One at this address.
    At(Phys),
    /// One in this port, from 1 to 15, of the device that has it.
    Port { port: u8, sound: Sound },
}

/// How an EDID is written.
#[derive(Clone, Copy, Debug)]
pub enum EdidShape {
    /// Its text.
    Text,
    /// Its bytes, as one line of hex.
    Hex,
    /// Its bytes.
    Bytes,
    /// Its bytes, as an array of C.
    C,
    /// Its blocks, as the XML of Quantum Data's tools.
    Xml,
}

/// How the ELD of an EDID is written.
#[derive(Clone, Copy, Debug)]
pub enum EldShape {
    /// As one line of hex.
    Hex,
    /// As its bytes.
    Bytes,
    /// What its fields say.
    Fields(Form),
}

/// What is written of an EDID.
#[derive(Clone, Copy, Debug)]
pub enum View {
    /// The EDID for a device.
    Whole(Recipient, EdidShape),
    /// Its text for a device, and below each line what it means.
    Meaning(Recipient),
    /// The fields of it for a device, as objects of JSON.
    Fields(Recipient),
    /// The rules that it breaks.
    Findings(Recipient, Form),
    /// The physical address in it.
    Address(Recipient),
    /// What a device reads of it over DDC.
    Readout(Recipient),
    /// The room in each of its blocks for a device.
    Room(Recipient, Form),
    /// What a sound driver makes of it for a device.
    Eld(Recipient, EldShape),
}

/// How a capture is read, and what is reported of it.
#[derive(Clone, Copy, Debug)]
pub struct MonChoice {
    /// Where none is given, its first line reports it.
    pub form: Option<CaptureForm>,
    /// Its times are multiplied by so many ten-thousandths.
    pub scale: u64,
    /// Pulses and gaps shorter than so many microseconds are passed over.
    pub glitch: u64,
    /// The windows are so many microseconds wider, 300 at most.
    pub margin: u64,
    /// Whether its levels are read the other way round.
    pub inverted: bool,
    /// Whether bad starts one after another are one line.
    pub folded: bool,
    /// Where none is given, that is by the form.
    pub report: Option<CaptureReport>,
    /// Whether its lines are written, or their objects.
    pub written: Form,
}

/// How a whole capture is read, and what is said of it in place of its readings.
#[derive(Clone, Copy, Debug)]
pub struct SummaryChoice {
    /// Where none is given, its first line reports it.
    pub form: Option<CaptureForm>,
    /// Its times are multiplied by so many ten-thousandths.
    pub scale: u64,
    /// Pulses and gaps shorter than so many microseconds are passed over.
    pub glitch: u64,
    /// The windows are so many microseconds wider, 300 at most.
    pub margin: u64,
    /// Whether its levels are read the other way round.
    pub inverted: bool,
    pub summary: CaptureSummary,
    /// Whether a remark of its audit is a fault.
    pub strict: bool,
    /// Whether its lines are written, or their objects.
    pub written: Form,
}

/// How two captures are read, and in which form their first difference is written.
#[derive(Clone, Copy, Debug)]
pub struct CapturePair {
    /// Where none is given, the first line of each reports it.
    pub form: Option<CaptureForm>,
    /// Their times are multiplied by so many ten-thousandths.
    pub scale: u64,
    /// Pulses and gaps shorter than so many microseconds are passed over.
    pub glitch: u64,
    /// The windows are so many microseconds wider, 300 at most.
    pub margin: u64,
    /// Whether their levels are read the other way round.
    pub inverted: bool,
    /// Whether lines are written, or their objects.
    pub written: Form,
}

/// How a capture is followed, and what is reported of it as its lines come.
#[derive(Clone, Copy, Debug)]
pub struct FollowChoice {
    pub form: LineForm,
    /// Pulses and gaps shorter than so many microseconds are passed over.
    pub glitch: u64,
    /// Whether its levels are read the other way round.
    pub inverted: bool,
    /// The windows are so many microseconds wider, 300 at most.
    pub margin: u64,
    pub report: FollowReport,
    /// Whether its lines are written, or their objects.
    pub written: Form,
}

/// What the words of a command line ask for.
#[derive(Clone, Copy, Debug)]
pub enum CommandChoice {
    /// A run of a topology and a script. Where it is strict, an event that is refused is a fault.
    Run {
        listing: Listing,
        strict: bool,
    },
    /// A test of a run.
    Check(TestView),
    /// A test of a capture. Its first line reports its form where none is given; pulses and gaps shorter than so many microseconds
    /// are passed over.
    CheckCapture {
        form: Option<CaptureForm>,
        glitch: u64,
    },
    /// Steps of a run, edge by edge and round by round.
    Step {
        form: Form,
    },
    /// A session: a run whose script comes line by line, each answered as it comes, in lines or, where it is wanted, in objects of
    /// JSON.
    Live {
        json: bool,
    },
    /// The bytes of frames, from their texts.
    Asm,
    /// The texts of frames, from their bytes in hex, and below each, where it is wanted, what it means.
    Dis {
        meaning: bool,
        form: Form,
    },
    /// The pulls that lay frames on the line, whole or with a fault, from their instants and texts.
    Lay {
        form: Form,
    },
    /// What a capture reports.
    Mon(MonChoice),
    /// What is said of a whole capture, in place of its readings.
    Summary(SummaryChoice),
    /// Where two captures differ.
    CaptureDiff(CapturePair),
    /// What a capture reports as its lines come.
    Follow(FollowChoice),
    /// The line of a capture, as an edge file: with its levels read the other way round where it is inverted, its times multiplied by
    /// so many ten-thousandths, and without pulses and gaps shorter than so many microseconds. Where no form is given, its first line
    /// reports it.
    CapturedLine {
        form: Option<CaptureForm>,
        inverted: bool,
        scale: u64,
        glitch: u64,
    },
    /// Lines of a run or of a test, as objects.
    Json(Objects),
    /// Where two EDIDs differ: their bytes one after the other, or the first two hex dumps of a text.
    EdidDiff {
        dumps: bool,
        form: Form,
    },
    /// What an InfoFrame says, which `named_in` returns, and whether an EDID for a device offers that.
    InfoFrame {
        source: Option<Source>,
        reading: EdidReading,
        place: Recipient,
        form: Form,
    },
    /// What the fields of an ELD say.
    Eld {
        form: Form,
    },
    /// An EDID. Where no flag says what a file holds, its first bytes do.
    Edid {
        source: Option<Source>,
        reading: EdidReading,
        view: View,
    },
}

/// What a command line asks for.
#[derive(Clone, Copy, Debug)]
pub struct Asked {
    pub choice: CommandChoice,
    /// Whether faults are explained, and runs counted, on standard error.
    pub explains: bool,
}
