//! The values that lines report.
ghost use Rattle.std.specs.Prelude.{◌≡◌, ℕ, ◌≤◌, ◌<◌, List, [], ◌∷◌, length, IsTrue, MatchOption, MatchBool, Option};
ghost use Rattle.edid_base.specs.Bytes.{are_bytes};
ghost use Rattle.edid_base.specs.declared.base.Revision.{Revision as RevisionValue};
ghost use Rattle.edid_base.specs.declared.chroma.Chroma.{Chroma as ChromaValue};
ghost use Rattle.edid_base.specs.declared.descriptor.Descriptor.{Descriptor as DescriptorValue};
ghost use Rattle.edid_base.specs.Chroma.{chroma_numbers};
ghost use Rattle.edid_base.specs.Maker.{maker_letters};
ghost use Rattle.edid_base.specs.declared.descriptor.RangeLimits.{RangeLimits as RangeValue};
ghost use Rattle.edid_base.specs.declared.descriptor.RawDescriptor.{RawDescriptor as RawValue};
ghost use Rattle.edid_base.specs.declared.maker.Maker.{Maker as MakerValue};
ghost use Rattle.edid_base.specs.declared.standard.StandardTiming.{StandardTiming as StandardValue};
ghost use Rattle.edid_base.specs.declared.text.Text.{Text as TextValue};
ghost use Rattle.edid_base.specs.declared.timing.Timing.{Timing as TimingValue};
ghost use Rattle.edid_texts.specs.Lines.{letters_line, numbers_line, bytes_line, quoted_line, revision_letters, standard_line, timing_line, descriptor_line};

use edid_base::{
    Chroma, Descriptor, Maker, RangeLimits, RawDescriptor, Revision, StandardTiming, Text, Timing,
};
use edid_text_lines::{Fields, Keyword, Line};

/// The letters after a word.
fn letters_of(line: &Line, word: Keyword) -> Option<&[u8]>
    ensures { MatchOption result ((xs : List ℕ) → letters_line word xs ≡ line.now → ⊥) (λ xs. letters_line word xs.now ≡ line.now) }
{
    if !line.begins_with(word) {
        return None;
    }
    match &line.fields {
        Fields::Letters(letters) => Some(letters.as_slice()),
        _ => None,
    }
}

/// The numbers after a word.
fn numbers_of(line: &Line, word: Keyword) -> Option<&[u32]>
    ensures { MatchOption result ((ns : List ℕ) → numbers_line word ns ≡ line.now → ⊥) (λ ns. numbers_line word ns.now ≡ line.now) }
{
    if !line.begins_with(word) {
        return None;
    }
    match &line.fields {
        Fields::Numbers(numbers) => Some(numbers.as_slice()),
        _ => None,
    }
}

/// The bytes after a word.
pub fn bytes_of(line: &Line, word: Keyword) -> Option<&[u8]>
    ensures { MatchOption result ((bs : List ℕ) → bytes_line word bs ≡ line.now → ⊥) (λ bs. bytes_line word bs.now ≡ line.now) }
{
    if !line.begins_with(word) {
        return None;
    }
    match &line.fields {
        Fields::Bytes(bytes) => Some(bytes.as_slice()),
        _ => None,
    }
}

/// The characters after a word.
fn quoted_of(line: &Line, word: Keyword) -> Option<&[u8]>
    ensures { MatchOption result ((xs : List ℕ) → quoted_line word xs ≡ line.now → ⊥) (λ xs. quoted_line word xs.now ≡ line.now) }
{
    if !line.begins_with(word) {
        return None;
    }
    match &line.fields {
        Fields::Quoted(chars) => Some(chars.as_slice()),
        _ => None,
    }
}

/// The only number after a word, where it is not too large.
pub fn one_number(line: &Line, word: Keyword, most: u32) -> Option<u32>
    ensures { MatchOption result ((n : ℕ) → n ≤ most → numbers_line word (n ∷ []) ≡ line.now → ⊥) (λ n. (n ≤ most) × (numbers_line word (n ∷ []) ≡ line.now)) }
{
    let Some(numbers) = numbers_of(line, word) else {
        return None;
    };
    if numbers.len() != 1 || numbers[0] > most {
        return None;
    }
    Some(numbers[0])
}

/// The two numbers after a word, where they are within bounds.
pub fn two_numbers(line: &Line, word: Keyword, least: u32, most: u32) -> Option<(u8, u32)>
    ensures { MatchOption result
        ((m n : ℕ) → m < 256 → least ≤ n → n ≤ most → numbers_line word (m ∷ n ∷ []) ≡ line.now → ⊥)
        (λ r. (least ≤ r.1) × (r.1 ≤ most) × (numbers_line word (r.0 ∷ r.1 ∷ []) ≡ line.now)) }
{
    let Some(numbers) = numbers_of(line, word) else {
        return None;
    };
    if numbers.len() != 2 || numbers[0] > 255 || numbers[1] < least || numbers[1] > most {
        return None;
    }
    Some((numbers[0] as u8, numbers[1]))
}

/// The only byte after a word.
pub fn one_byte(line: &Line, word: Keyword) -> Option<u8>
    ensures { MatchOption result ((b : ℕ) → bytes_line word (b ∷ []) ≡ line.now → ⊥) (λ b. bytes_line word (b ∷ []) ≡ line.now) }
{
    let Some(bytes) = bytes_of(line, word) else {
        return None;
    };
    if bytes.len() != 1 {
        return None;
    }
    Some(bytes[0])
}

/// The three bytes after a word.
pub fn three_bytes(line: &Line, word: Keyword) -> Option<[u8; 3]>
    ensures { MatchOption result ((bs : List ℕ) → length bs ≡ 3 → bytes_line word bs ≡ line.now → ⊥) (λ bs. (bytes_line word bs ≡ line.now) × IsTrue (are_bytes bs)) }
{
    let Some(bytes) = bytes_of(line, word) else {
        return None;
    };
    if bytes.len() != 3 {
        return None;
    }
    Some(array_from(bytes))
}

/// The revision that a line gives.
pub fn revision_of(line: &Line) -> Option<Revision>
    ensures { MatchOption result ((r : RevisionValue) → letters_line Keyword.Edid (revision_letters r) ≡ line.now → ⊥) (λ r. letters_line Keyword.Edid (revision_letters r) ≡ line.now) }
{
    let Some(letters) = letters_of(line, Keyword::Edid) else {
        return None;
    };
    if letters == b"1.3".as_slice() {
        Some(Revision::Three)
    } else if letters == b"1.4".as_slice() {
        Some(Revision::Four)
    } else {
        None
    }
}

/// The maker that a line gives.
pub fn maker_of(line: &Line) -> Option<Maker>
    ensures { MatchOption result
        ((m : MakerValue) → letters_line Keyword.Maker (maker_letters m) ≡ line.now → ⊥)
        (λ m. letters_line Keyword.Maker (maker_letters m) ≡ line.now) }
{
    let Some(letters) = letters_of(line, Keyword::Maker) else {
        return None;
    };
    Maker::new(letters)
}

/// The chromaticities that a line gives.
pub fn chroma_of(line: &Line) -> Option<Chroma>
    ensures { MatchOption result ((c : ChromaValue) → numbers_line Keyword.Chroma (chroma_numbers c) ≡ line.now → ⊥) (λ c. numbers_line Keyword.Chroma (chroma_numbers c) ≡ line.now) }
{
    let Some(numbers) = numbers_of(line, Keyword::Chroma) else {
        return None;
    };
    Chroma::new(numbers)
}

/// The standard timing that a line gives, or that one is unused.
pub fn standard_of(line: &Line) -> Option<Option<StandardTiming>>
    ensures { MatchOption result ((s : Option StandardValue) → standard_line s ≡ line.now → ⊥) (λ s. standard_line s ≡ line.now) }
{
    if let Some(letters) = letters_of(line, Keyword::Standard) {
        return if letters == b"unused".as_slice() {
            Some(None)
        } else {
            None
        };
    }
    let Some(numbers) = numbers_of(line, Keyword::Standard) else {
        return None;
    };
    match StandardTiming::new(numbers) {
        None => None,
        Some(standard) => Some(Some(standard)),
    }
}

/// The detailed timing that a line gives.
pub fn timing_of(line: &Line) -> Option<Timing>
    ensures { MatchOption result ((t : TimingValue) → timing_line t ≡ line.now → ⊥) (λ t. timing_line t ≡ line.now) }
{
    if line.word != Keyword::Timing {
        return None;
    }
    match &line.fields {
        Fields::Timed(numbers, flags) => Timing::new(numbers.as_slice(), *flags),
        _ => None,
    }
}

/// The text of a descriptor that a line gives.
fn text_of(line: &Line, word: Keyword) -> Option<Text>
    ensures { MatchOption result ((t : TextValue) → quoted_line word t.chars.items ≡ line.now → ⊥) (λ t. quoted_line word t.chars.items ≡ line.now) }
{
    let Some(chars) = quoted_of(line, word) else {
        return None;
    };
    Text::new(chars)
}

/// The N bytes of a list.
pub fn array_from<const N: usize>(bytes: &[u8]) -> [u8; N]
    requires { length bytes.now ≡ N }
    ensures value { result ≡ bytes.now }
    ensures fit { IsTrue (are_bytes result) }
{
    <[u8; N]>::try_from(bytes).unwrap()
}

/// The range limits that 14 bytes are.
fn limits_from(bytes: &[u8]) -> RangeLimits
    requires { length bytes.now ≡ 14 }
    ensures { result.bytes ≡ bytes.now }
{
    RangeLimits {
        bytes: array_from(bytes),
    }
}

/// The range limits that a line gives.
fn range_of(line: &Line) -> Option<RangeLimits>
    ensures { MatchOption result ((r : RangeValue) → bytes_line Keyword.Range r.bytes ≡ line.now → ⊥) (λ r. bytes_line Keyword.Range r.bytes ≡ line.now) }
{
    let Some(bytes) = bytes_of(line, Keyword::Range) else {
        return None;
    };
    if bytes.len() != 14 {
        return None;
    }
    Some(limits_from(bytes))
}

/// The descriptor of no known form that a line gives.
fn raw_of(line: &Line) -> Option<RawDescriptor>
    ensures { MatchOption result ((r : RawValue) → bytes_line Keyword.Raw r.bytes ≡ line.now → ⊥) (λ r. bytes_line Keyword.Raw r.bytes ≡ line.now) }
{
    let Some(bytes) = bytes_of(line, Keyword::Raw) else {
        return None;
    };
    if bytes.len() != 18 {
        return None;
    }
    match Descriptor::read(&array_from(bytes)) {
        Descriptor::Raw(raw) => Some(raw),
        _ => None,
    }
}

/// Whether a line is `dummy`.
fn is_dummy(line: &Line) -> bool
    ensures { MatchBool result (descriptor_line Descriptor.Dummy ≡ line.now) (descriptor_line Descriptor.Dummy ≡ line.now → ⊥) }
{
    line.word == Keyword::Dummy && matches!(&line.fields, Fields::Nothing)
}

/// The descriptor that a line gives.
pub fn descriptor_of(line: &Line) -> Option<Descriptor>
    ensures { MatchOption result ((d : DescriptorValue) → descriptor_line d ≡ line.now → ⊥) (λ d. descriptor_line d ≡ line.now) }
{
    if let Some(timing) = timing_of(line) {
        return Some(Descriptor::Timing(timing));
    }
    if let Some(text) = text_of(line, Keyword::Name) {
        return Some(Descriptor::Name(text));
    }
    if let Some(text) = text_of(line, Keyword::Text) {
        return Some(Descriptor::Text(text));
    }
    if let Some(text) = text_of(line, Keyword::SerialText) {
        return Some(Descriptor::SerialText(text));
    }
    if let Some(limits) = range_of(line) {
        return Some(Descriptor::Range(limits));
    }
    if is_dummy(line) {
        return Some(Descriptor::Dummy);
    }
    match raw_of(line) {
        None => None,
        Some(raw) => Some(Descriptor::Raw(raw)),
    }
}
