//! The laws.
ghost use Rattle.std.specs.Prelude.{◌≡◌, ℕ, ◌∷◌, [], not, true, List, Some, Ok};
ghost use Rattle.std.specs.List.{list_all};
ghost use Rattle.text_core.specs.Number.{number_of};
ghost use Rattle.edid_layout.specs.HdmiBlock.{hdmi_block, video_bytes};
ghost use Rattle.edid_spelling.specs.Audio.{descriptor_of, format_rows, rate_rows, set_of, third_of};
ghost use Rattle.edid_spelling.specs.Canonical.{is_hex};
ghost use Rattle.edid_spelling.specs.Hdmi.{formats_of, hdmi_bytes, hdmi_rows};
ghost use Rattle.edid_spelling.specs.Rows.{stands_for};
ghost use Rattle.edid_spelling.specs.Speakers.{speaker_rows, speakers_of};
ghost use Rattle.edid_spelling.specs.Video.{code_of as word_code, is_marked};
ghost use Rattle.edid_spelling.specs.declared.hdmi.Said.{Said as SaidValue};
ghost use Rattle.meaning_cta.specs.Audio.{channel_count, format_number};
ghost use Rattle.meaning_cta.specs.Speakers.{speaker_bits};
ghost use Rattle.meaning_words.specs.Videos.{code_of, is_native};
ghost use Rattle.edid_laws.specs.Named.{digits_of, named_block, named_codes, words_set};

/// No word of an HDMI block or of speakers is hex where it stands alone, so that a line of it is read as words.
pub fn no_word_is_hex()
    ensures hdmi { list_all (λ r. not (is_hex (r.word ∷ []))) hdmi_rows ≡ true }
    ensures speakers { list_all (λ r. not (is_hex (r.word ∷ []))) speaker_rows ≡ true }
{}

/// Of the byte of a word of a video line the word's code is read, as native where `*` ends the word (CTA-861-G, section 7.5.1).
pub fn video_words_are_read_back()
    ensures native { (word : List ℕ) (byte : ℕ) → word_code word ≡ Some byte → is_native byte ≡ is_marked word }
    ensures code { (word : List ℕ) (byte : ℕ) → word_code word ≡ Some byte → number_of (digits_of word) ≡ Some (code_of byte) }
{}

/// Of the three bytes of four words of an audio line the format and the count of channels are read, and the bits of bytes 2 and 3
/// are those of the last two words (CTA-861-G, section 7.5.2).
pub fn audio_words_are_read_back()
    ensures format { (f c r t : List ℕ) (first rates third : ℕ) → descriptor_of f c r t ≡ Ok (first ∷ rates ∷ third ∷ []) → stands_for format_rows f ≡ Some (format_number first) }
    ensures channels { (f c r t : List ℕ) (first rates third : ℕ) → descriptor_of f c r t ≡ Ok (first ∷ rates ∷ third ∷ []) → number_of c ≡ Some (channel_count first rates third) }
    ensures rates { (f c r t : List ℕ) (first rates third : ℕ) → descriptor_of f c r t ≡ Ok (first ∷ rates ∷ third ∷ []) → set_of rate_rows r ≡ Some rates }
    ensures third { (f c r t : List ℕ) (first rates third : ℕ) → descriptor_of f c r t ≡ Ok (first ∷ rates ∷ third ∷ []) → third_of (format_number first) t ≡ Some third }
{}

/// The words of a speaker line are those of the bits that are set in its bytes, in the order of the bits (CTA-861-G, section 7.5.3).
pub fn speakers_words_are_read_back()
    ensures { (words : List (List ℕ)) (bytes : List ℕ) → speakers_of words ≡ Ok bytes → words ≡ words_set 0 speaker_rows (speaker_bits bytes) }
{}

/// Of the bytes that the words of an HDMI block stand for what they say is read (HDMI 1.4, section 8.3.2).
pub fn hdmi_words_are_read_back()
    ensures { (s : SaidValue) → hdmi_block (hdmi_bytes s) ≡ named_block s }
{}

/// And so are HDMI's own codes.
pub fn hdmi_codes_are_read_back()
    ensures { (s : SaidValue) → named_codes s (video_bytes (hdmi_bytes s)) ≡ formats_of s }
{}
