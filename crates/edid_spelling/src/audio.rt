//! An audio data block in words.
ghost use Rattle.std.specs.Prelude.{◌≡◌, ◌+◌, ◌<◌, ◌≤◌, ◌++◌, [], MatchResult, Ok, Err};
ghost use Rattle.arrayvec.specs.ArrayVec.{array_vec_len};
ghost use Rattle.std.specs.Option.{option_copied};
ghost use Rattle.text_core.specs.Words.{words_after};
ghost use Rattle.edid_spelling.specs.Rows.{bits_of, parts_of, stands_for};
ghost use Rattle.edid_spelling.specs.Audio.{bit_rate_of, channels_of, descriptor_bytes, descriptor_of, descriptors_of, first_byte, format_rows, rate_rows, set_of, size_rows, third_of};

use crate::rows::{Named, bits_in, named_rows, next_word, stands_for};
use arrayvec::ArrayVec;
use edid_base::append;
use text_core::{first_word, hex_byte, number_in};

/// The three bytes of a descriptor.
#[derive(Clone, Copy)]
struct AudioDescriptor {
    first: u8,
    rates: u8,
    third: u8,
}

/// The most bytes of whole descriptors in a data block.
const MOST: usize = 30;
/// The format of linear PCM, and the last one with a bit rate.
const LINEAR_PCM: u32 = 1;

const ATRAC: u32 = 8;
/// The greatest bit rate in kbit/s, and its unit.
const GREATEST_RATE: u64 = 2040;

const BIT_RATE: u64 = 8;

const FORMATS: &[Named] = named_rows! {
    "pcm" 1;
    "ac-3" 2;
    "mpeg-1" 3;
    "mp3" 4;
    "mpeg-2" 5;
    "aac-lc" 6;
    "dts" 7;
    "atrac" 8;
    "one-bit-audio" 9;
    "enhanced-ac-3" 10;
    "dts-hd" 11;
    "mat" 12;
    "dst" 13;
    "wma-pro" 14;
};

const RATES: &[Named] = named_rows! {
    "32" 1;
    "44.1" 2;
    "48" 4;
    "88.2" 8;
    "96" 16;
    "176.4" 32;
    "192" 64;
};

const SIZES: &[Named] = named_rows! {
    "16" 1;
    "20" 2;
    "24" 4;
};

#[tactic(auto, unfolding(crate::specs::Audio::format_rows))]
fn format_of(word: &[u8]) -> Option<u32>
    ensures { result ≡ stands_for format_rows word.now }
{
    stands_for(FORMATS, word)
}

#[tactic(auto, unfolding(crate::specs::Audio::rate_rows))]
fn rate_bits(word: &[u8]) -> Result<u32, usize>
    ensures { result ≡ bits_of rate_rows 0 (parts_of 44 word.now) }
{
    bits_in(RATES, b',', 0, Some(word))
}

#[tactic(auto, unfolding(crate::specs::Audio::size_rows))]
fn size_bits(word: &[u8]) -> Result<u32, usize>
    ensures { result ≡ bits_of size_rows 0 (parts_of 44 word.now) }
{
    bits_in(SIZES, b',', 0, Some(word))
}

// Sampling rates in kHz, with commas between them.
fn rates_of(word: &[u8]) -> Option<u8>
    ensures { result ≡ set_of rate_rows word.now }
{
    if word == b"-".as_slice() {
        return Some(0);
    }
    match rate_bits(word) {
        Ok(bits) => Some((bits % 256) as u8),
        Err(_) => None,
    }
}

// Sizes of samples in bits, with commas between them.
fn sizes_of(word: &[u8]) -> Option<u8>
    ensures { result ≡ set_of size_rows word.now }
{
    if word == b"-".as_slice() {
        return Some(0);
    }
    match size_bits(word) {
        Ok(bits) => Some((bits % 256) as u8),
        Err(_) => None,
    }
}

// The channels less one.
fn channels_of(count: Option<u64>) -> Option<u32>
    ensures { result ≡ channels_of count }
{
    match count {
        Some(count) if 1 <= count && count <= 8 => Some(count as u32 - 1),
        _ => None,
    }
}

fn bit_rate_of(rate: Option<u64>) -> Option<u8>
    ensures { result ≡ bit_rate_of rate }
{
    match rate {
        Some(rate) if rate % BIT_RATE == 0 && rate <= GREATEST_RATE => {
            Some((rate / BIT_RATE) as u8)
        }
        _ => None,
    }
}

// The third byte of a descriptor of a format.
fn third_of(format: u32, word: &[u8]) -> Option<u8>
    ensures { result ≡ third_of format word.now }
{
    if format == LINEAR_PCM {
        sizes_of(word)
    } else if format <= ATRAC {
        bit_rate_of(number_in(word))
    } else {
        hex_byte(word)
    }
}

// The first byte of a descriptor, of its format and its channels less one.
fn first_byte(format: u32, others: u32) -> u8
    ensures { result ≡ first_byte format others }
{
    (format % 16 * 8 + others % 8) as u8
}

// The bytes of a descriptor, or which of its words is at fault.
#[tactic(auto, unfolding(crate::specs::Audio::descriptor_of))]
fn descriptor_of(
    format: &[u8],
    channels: &[u8],
    rates: &[u8],
    third: &[u8],
) -> Result<AudioDescriptor, usize>
    ensures { MatchResult result (λ d. descriptor_of format.now channels.now rates.now third.now ≡ Ok (descriptor_bytes d)) (λ word. (descriptor_of format.now channels.now rates.now third.now ≡ Err word) × (word < 4)) }
{
    let Some(format) = format_of(format) else {
        return Err(0);
    };
    let Some(channels) = channels_of(number_in(channels)) else {
        return Err(1);
    };
    let Some(rates) = rates_of(rates) else {
        return Err(2);
    };
    let Some(third) = third_of(format, third) else {
        return Err(3);
    };
    Ok(AudioDescriptor {
        first: first_byte(format, channels),
        rates,
        third,
    })
}

fn push_descriptor(payload: &mut ArrayVec<u8, 128>, descriptor: AudioDescriptor)
    requires { array_vec_len payload.old ≤ 32 }
    ensures items { payload.new.items ≡ payload.old.items ++ descriptor_bytes descriptor }
    ensures len { array_vec_len payload.new ≡ array_vec_len payload.old + 3 }
{
    append(
        payload,
        &[descriptor.first, descriptor.rates, descriptor.third],
    );
}

// The bytes of the words that are left, or the number of the word at fault.
#[tactic(auto, using(crate::proofs::AudioLemmas::all_descriptors))]
pub(crate) fn descriptors_in(given: Option<&[u8]>) -> Result<ArrayVec<u8, 128>, usize>
    ensures { MatchResult result (λ p. descriptors_of (words_after (option_copied given.entry)) ≡ Ok p.items) (λ k. descriptors_of (words_after (option_copied given.entry)) ≡ Err k) }
{
    let mut payload = ArrayVec::new();
    let mut rest = given;
    'descriptors: while let Some(text) = rest {
        let number = payload.len() / 3 * 4 + 1;
        let (format, after_format) = first_word(text);
        let (channels, after_channels) = next_word(after_format);
        let (rates, after_rates) = next_word(after_channels);
        let (third, after_third) = next_word(after_rates);
        if payload.len() >= MOST {
            return Err(number);
        }
        let descriptor = match descriptor_of(format, channels, rates, third) {
            Err(word) => return Err(number + word),
            Ok(descriptor) => descriptor,
        };
        push_descriptor(&mut payload, descriptor);
        rest = after_third;
    }
    Ok(payload)
}
