//! The numbers of answers.
ghost use Rattle.std.specs.Prelude.{◌≡◌};
ghost use Rattle.library_answers.specs.Codes.{number_of};

/// How a call went.
#[derive(Clone, Copy, Debug, PartialEq, Eq)]
pub enum Code {
    /// It is done.
    Done,
    /// The room is too small; the answer has the length that is needed.
    Room,
    /// The state is none that a call leaves.
    State,
    /// The instant is after 3,000,000,000,000 microseconds.
    Late,
    /// There is none.
    Absent,
    /// What was heard is nothing that a receiver reports.
    Heard,
    /// No session is open, or its script has ended.
    Closed,
    /// The line has an end in it, or more than 4,096 bytes.
    Line,
    /// A frame has at least one byte.
    FrameEmpty,
    /// A frame has at most 16 bytes.
    FrameTooLong,
    /// The text does not begin with two addresses.
    TextAddress,
    /// What follows the addresses is no opcode's name.
    TextName,
    /// There are more than fourteen raw operands.
    TextTooLong,
    /// The operands are not as many as the opcode has.
    TextCount,
    /// The operands are no words of the opcode.
    TextOperand,
    /// The bytes are neither 128, 256, 384 nor 512.
    EdidLength,
    /// Byte 126 is not the number of extensions that are there.
    EdidCount,
    /// The base block does not begin as one.
    EdidHeader,
    /// The sum of the base block is wrong.
    EdidChecksum,
    /// The base block is of neither revision 1.3 nor 1.4.
    EdidRevision,
    /// The maker is no three letters.
    EdidMaker,
    /// The sum of the first extension is wrong.
    EdidFirst,
    /// The sum of the second extension is wrong.
    EdidSecond,
    /// The sum of the third extension is wrong.
    EdidThird,
    /// The EDID has no HDMI block.
    EdidNoHdmiBlock,
    /// On this line of an EDID's text another line has to stand.
    EdidTextSyntax,
    /// A word of this line of an EDID's text is at fault.
    EdidTextField,
    /// Memory ran out.
    Memory,
    /// There is no such line of a topology, or a second `edid` line.
    TopologyWord,
    /// A number is ill-formed, or there are more than 15 ports.
    TopologyNumber,
    /// A name is ill-formed, taken, or not declared above.
    TopologyName,
    /// It is the 16th device.
    TopologyFull,
    /// It is the second television.
    TopologySecondRoot,
    /// There is no television.
    TopologyNoRoot,
    /// The parent has no such port.
    TopologyPortRange,
    /// A device is plugged in there.
    TopologyPortTaken,
    /// The child is plugged in already, or is the television.
    TopologyNotLoose,
    /// The parent is the child or hangs below it.
    TopologyLoop,
    /// These are no pairs of hex digits.
    TopologyHex,
    /// There is no such line of a script, or no such key.
    ScriptWord,
    /// A number is ill-formed, or a time is past 1,000,000,000,000.
    ScriptNumber,
    /// The topology has no such device.
    ScriptName,
    /// A pulse is not 1 to 10,000 microseconds wide, or a pull not 1 to 10,000,000.
    ScriptWidth,
    /// A time is before that of the event above, a pulse begins before the end of the pulse or pull above, a pull not after it, or
    /// the pin goes back in time.
    ScriptOrder,
    /// A pulse is less than 25,000 microseconds after the end of the pulse or pull above.
    ScriptClose,
    /// A pulse stands after 4,096 pulses and pulls, or a pull after 16,384.
    ScriptTooMany,
    /// There is no `end`, a line after it, or it is not after every event.
    ScriptEnd,
    /// There are no bytes of a frame in hex.
    ScriptHex,
    /// There is no such expectation, its pattern is too long, or nothing follows a label.
    ExpectWord,
    /// There is no number in an expectation.
    ExpectNumber,
    /// A label stands above already, or none above is the one that is named.
    ExpectLabel,
    /// The window of an expectation ends before it begins.
    ExpectOrder,
    /// The line of an edge file is ill-formed, its time is past the limit, or it stands after the end, or there is no end.
    EdgesLine,
    /// The edge is out of turn, or its time goes back.
    EdgesOrder,
}

impl Code {
    /// Its number.
    pub fn number(self) -> u32
        ensures { result ≡ number_of self }
    {
        match self {
            Code::Done => 0,
            Code::Room => 1,
            Code::State => 2,
            Code::Late => 3,
            Code::Absent => 4,
            Code::Heard => 5,
            Code::Closed => 6,
            Code::Line => 7,
            Code::FrameEmpty => 10,
            Code::FrameTooLong => 11,
            Code::TextAddress => 20,
            Code::TextName => 21,
            Code::TextTooLong => 22,
            Code::TextCount => 23,
            Code::TextOperand => 24,
            Code::EdidLength => 30,
            Code::EdidCount => 31,
            Code::EdidHeader => 32,
            Code::EdidChecksum => 33,
            Code::EdidRevision => 34,
            Code::EdidMaker => 35,
            Code::EdidFirst => 36,
            Code::EdidSecond => 37,
            Code::EdidThird => 38,
            Code::EdidNoHdmiBlock => 39,
            Code::EdidTextSyntax => 40,
            Code::EdidTextField => 41,
            Code::Memory => 50,
            Code::TopologyWord => 60,
            Code::TopologyNumber => 61,
            Code::TopologyName => 62,
            Code::TopologyFull => 63,
            Code::TopologySecondRoot => 64,
            Code::TopologyNoRoot => 65,
            Code::TopologyPortRange => 66,
            Code::TopologyPortTaken => 67,
            Code::TopologyNotLoose => 68,
            Code::TopologyLoop => 69,
            Code::TopologyHex => 70,
            Code::ScriptWord => 80,
            Code::ScriptNumber => 81,
            Code::ScriptName => 82,
            Code::ScriptWidth => 83,
            Code::ScriptOrder => 84,
            Code::ScriptClose => 85,
            Code::ScriptTooMany => 86,
            Code::ScriptEnd => 87,
            Code::ScriptHex => 88,
            Code::ExpectWord => 90,
            Code::ExpectNumber => 91,
            Code::ExpectLabel => 92,
            Code::ExpectOrder => 93,
            Code::EdgesLine => 100,
            Code::EdgesOrder => 101,
        }
    }
}
