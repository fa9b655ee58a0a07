//! A line of an EDID's text: its first word, and the fields after it.
ghost use Rattle.std.specs.Prelude.{◌≡◌, ◌↔◌, ◌≤◌, length, IsTrue};
ghost use Rattle.edid_text_lines.specs.Formed.{form_of};
ghost use Rattle.edid_text_lines.specs.Text.{word_text};

use arrayvec::ArrayVec;
use edid_cta::BlockKind;
use text_core::Phys;

/// The first word of a line.
#[derive(Clone, Copy, Debug, PartialEq, Eq)]
pub enum Keyword {
    Edid,
    Maker,
    Product,
    Serial,
    Made,
    Input,
    Size,
    Gamma,
    Features,
    Chroma,
    Established,
    Standard,
    Timing,
    Name,
    Text,
    SerialText,
    Range,
    Dummy,
    Raw,
    Cta,
    CtaNone,
    /// A data block of this kind.
    Block(BlockKind),
    Hdmi,
    Tail,
    Ext,
}

/// What stands after a word: nothing, three letters, so many numbers, `unused` or three numbers, a
/// detailed timing, bytes in hex, a physical address and bytes, characters in quotes.
#[derive(Clone, Copy, Debug, PartialEq, Eq)]
pub enum LineContent {
    Empty,
    Three,
    One,
    Two,
    Eight,
    Unused,
    Timing,
    Hex,
    Address,
    Quoted,
}

/// What stands after the first word.
#[derive(Drop)]
pub enum Fields {
    /// Nothing.
    Nothing,
    /// A word as it stands.
    Letters(ArrayVec<u8, 8>),
    /// Numbers in decimal digits.
    Numbers(ArrayVec<u32, 13>),
    /// Numbers in decimal digits, and a byte as two hex digits.
    Timed(ArrayVec<u32, 13>, u8),
    /// Bytes, each as two hex digits, or `-` for none.
    Bytes(ArrayVec<u8, 128>),
    /// A physical address, as `1.2.0.0`, and bytes.
    Address(Phys, ArrayVec<u8, 26>),
    /// Characters in quotes.
    Quoted(ArrayVec<u8, 13>),
}

/// A line of the text.
#[derive(Drop)]
pub struct Line {
    pub word: Keyword,
    pub fields: Fields,
}

// The words, a row each, in the order of their declaration: how a word stands in a text, and what stands after it.
macro_rules! words {
    ($make:ident, $word:expr) => {
        $make! {
            $word,
            Edid "edid" Three;
            Maker "maker" Three;
            Product "product" One;
            Serial "serial" One;
            Made "made" Two;
            Input "input" Hex;
            Size "size" Two;
            Gamma "gamma" One;
            Features "features" Hex;
            Chroma "chroma" Eight;
            Established "established" Hex;
            Standard "standard" Unused;
            Timing "timing" Timing;
            Name "name" Quoted;
            Text "text" Quoted;
            SerialText "serial-text" Quoted;
            Range "range" Hex;
            Dummy "dummy" Empty;
            Raw "raw" Hex;
            Cta "cta" Hex;
            CtaNone "cta-none" Hex;
            Block(Tag0) "tag0" Hex;
            Block(Audio) "audio" Hex;
            Block(Video) "video" Hex;
            Block(Vendor) "vendor" Hex;
            Block(Speakers) "speakers" Hex;
            Block(Tag5) "tag5" Hex;
            Block(Tag6) "tag6" Hex;
            Block(Extended) "extended" Hex;
            Hdmi "hdmi" Address;
            Tail "tail" Hex;
            Ext "ext" Hex;
        }
    };
}

macro_rules! listed {
    ($unused:expr, $($word:ident $(($kind:ident))? $text:literal $form:ident;)*) => {
        [$(Keyword::$word $((BlockKind::$kind))?,)*]
    };
}

macro_rules! spelled {
    ($unused:expr, $($word:ident $(($kind:ident))? $text:literal $form:ident;)*) => {
        &[$($text,)*]
    };
}

macro_rules! form_match {
    ($at:expr, $($word:ident $(($kind:ident))? $text:literal $form:ident;)*) => {
        match $at {
            $(Keyword::$word $((BlockKind::$kind))? => LineContent::$form,)*
        }
    };
}

macro_rules! text_match {
    ($at:expr, $($word:ident $(($kind:ident))? $text:literal $form:ident;)*) => {
        match $at {
            $(Keyword::$word $((BlockKind::$kind))? => $text,)*
        }
    };
}

/// All words.
pub const WORDS: [Keyword; 32] = words!(listed, 0);

/// All words, as they stand in a text.
pub const WORD_TEXTS: &[&str] = words!(spelled, 0);

impl Keyword {
    /// What stands after the word.
    pub fn form(self) -> LineContent
        ensures { result ≡ form_of self }
    {
        words!(form_match, self)
    }

    /// The word as it stands in a text.
    pub fn text(self) -> &'static str
        ensures value { result.now ≡ word_text self }
        ensures short { length result.now ≤ 11 }
    {
        words!(text_match, self)
    }
}

fn is_same(left: &[u8], right: &[u8]) -> bool
    ensures { IsTrue result ↔ (left.now ≡ right.now) }
{
    left == right
}

impl Line {
    /// Whether this is its first word: no two have the same text.
    pub fn begins_with(&self, word: Keyword) -> bool
        ensures { IsTrue result ↔ (self.now.word ≡ word) }
    {
        is_same(self.word.text().as_bytes(), word.text().as_bytes())
    }
}
