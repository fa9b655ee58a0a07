//! The sentence of each opcode with a name (HDMI 1.4, CEC 13 and 15).
ghost use Rattle.std.specs.Prelude.{◌≡◌, map, option_map};
ghost use Rattle.message_meaning.specs.Sentences.{gives_back, sentence_for, sentence_in, sentence_in_code, sentence_of, sentences};

/// What the sender of an opcode says: `FROM verb TO text`, then the words of its operands.
#[derive(Clone, Copy, Debug)]
pub struct Sentence {
    pub opcode: u8,
    /// `asks`, `tells` or `sends`.
    pub verb: &'static str,
    pub text: &'static str,
    /// What stands before the first word of the operands.
    pub lead: &'static str,
    /// What stands before their other words.
    pub joint: &'static str,
}

macro_rules! sentences {
    ($($opcode:literal $verb:literal $text:literal $lead:literal $joint:literal;)*) => {
        &[$(Sentence { opcode: $opcode, verb: $verb, text: $text, lead: $lead, joint: $joint },)*]
    };
}

const SENTENCES: &[Sentence] = sentences! {
    0x00 "tells" "that it refuses" " " ": ";
    0x04 "asks" "to turn on and show its picture" "" "";
    0x0d "asks" "to turn on, show its picture and take away texts and menus" "" "";
    0x1a "asks" "what its deck does" ": " "";
    0x1b "tells" "what its deck does" ": " "";
    0x32 "tells" "the language of menus" ": " "";
    0x36 "asks" "to go to standby" "" "";
    0x41 "asks" "to play" ": " "";
    0x42 "asks" "to control its deck" ": " "";
    0x44 "tells" "that a key of the remote control is pressed" ": " "";
    0x45 "tells" "that the key of the remote control is released" "" "";
    0x46 "asks" "for its name" "" "";
    0x47 "tells" "its name" ": " " ";
    0x64 "asks" "to show a text on the screen" ": " " ";
    0x70 "asks" "to take over the sound" " of the source at " "";
    0x71 "asks" "for its volume" "" "";
    0x72 "tells" "whether it has the sound" ": " "";
    0x7a "tells" "its volume" ": " " ";
    0x7d "asks" "whether it has the sound" "" "";
    0x7e "tells" "whether it has the sound" ": " "";
    0x80 "tells" "that a switch went from one input to another" ": from " " to ";
    0x81 "tells" "which input it has selected" ": " "";
    0x82 "tells" "that it is the active source" ", at " "";
    0x83 "asks" "for its physical address" "" "";
    0x84 "tells" "its physical address and its type" ": " ", ";
    0x85 "asks" "which of them is the active source" "" "";
    0x86 "asks" "for the picture of the source" " at " "";
    0x87 "tells" "the number of its vendor" ": " "";
    0x8c "asks" "for the number of its vendor" "" "";
    0x8d "asks" "for its menu" ": " "";
    0x8e "tells" "how its menu is" ": " "";
    0x8f "asks" "for its power" "" "";
    0x90 "tells" "its power" ": " "";
    0x91 "asks" "for the language of menus" "" "";
    0x9d "tells" "that it has no picture to show any more" ", at " "";
    0x9e "tells" "its version of CEC" ": " "";
    0x9f "asks" "for its version of CEC" "" "";
    0xc0 "asks" "to turn on its audio return channel" "" "";
    0xc1 "tells" "that its audio return channel is on" "" "";
    0xc2 "tells" "that its audio return channel is off" "" "";
    0xc3 "asks" "to begin the audio return channel" "" "";
    0xc4 "asks" "to end the audio return channel" "" "";
    0xc5 "asks" "to turn off its audio return channel" "" "";
    0xff "asks" "to refuse this, as a test" "" "";
    0x05 "asks" "to go to the next channel" "" "";
    0x06 "asks" "to go to the channel before" "" "";
    0x07 "tells" "how its tuner is" "" "";
    0x08 "asks" "how its tuner is" "" "";
    0x09 "asks" "to record" "" "";
    0x0a "tells" "how its recording is" "" "";
    0x0b "asks" "to stop recording" "" "";
    0x0f "asks" "for the source on its screen, to record it" "" "";
    0x33 "asks" "to take away a timer of an analogue service" "" "";
    0x34 "asks" "to set a timer of an analogue service" "" "";
    0x35 "tells" "how a timer is" "" "";
    0x43 "tells" "whether a timer was taken away" "" "";
    0x67 "tells" "the title of a timer" "" "";
    0x89 "sends" "a command of its vendor" "" "";
    0x8a "tells" "that a key of its vendor is pressed" "" "";
    0x8b "tells" "that the key of its vendor is released" "" "";
    0x92 "asks" "to select an analogue service" "" "";
    0x93 "asks" "to select a digital service" "" "";
    0x97 "asks" "to set a timer of a digital service" "" "";
    0x99 "asks" "to take away a timer of a digital service" "" "";
    0x9a "asks" "to play at an audio rate" "" "";
    0xa0 "sends" "a command of the vendor whose number comes first" "" "";
    0xa1 "asks" "to take away a timer of an external input" "" "";
    0xa2 "asks" "to set a timer of an external input" "" "";
};

/// System Audio Mode Request, which without an operand ends that mode (CEC 13.15).
const SYSTEM_AUDIO_MODE_REQUEST: u8 = 0x70;

fn table() -> &'static [Sentence]
    ensures { map sentence_in_code result.now ≡ sentences }
{
    SENTENCES
}

// The first of these sentences that an opcode has.
fn sentence_in(sentences: &[Sentence], opcode: u8) -> Option<Sentence>
    ensures { option_map sentence_in_code result ≡ sentence_in (map sentence_in_code sentences.now) opcode }
{
    let mut rest = sentences;
    'sentences: while let [sentence, others @ ..] = rest {
        if sentence.opcode == opcode {
            return Some(*sentence);
        }
        rest = others;
    }
    None
}

/// The sentence of an opcode, if it has a name.
pub fn sentence_of(opcode: u8) -> Option<Sentence>
    ensures { option_map sentence_in_code result ≡ sentence_of opcode }
{
    sentence_in(table(), opcode)
}

// What a request without an operand says.
fn gives_back() -> Sentence
    ensures { sentence_in_code result ≡ gives_back }
{
    Sentence {
        opcode: SYSTEM_AUDIO_MODE_REQUEST,
        verb: "asks",
        text: "to give the sound back",
        lead: "",
        joint: "",
    }
}

/// The sentence of an opcode with these operands.
pub(crate) fn sentence_for(opcode: u8, operands: &[u8]) -> Option<Sentence>
    ensures { option_map sentence_in_code result ≡ sentence_for opcode operands.now }
{
    if opcode == SYSTEM_AUDIO_MODE_REQUEST && operands.is_empty() {
        return Some(gives_back());
    }
    sentence_of(opcode)
}
