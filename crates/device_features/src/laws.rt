//! What holds of the words of keys.
ghost use Rattle.std.specs.Prelude.{◌≡◌, ℕ, List, Some};
ghost use Rattle.device_features.specs.KeyWords.{key_named, key_text};
ghost use Rattle.device_features.specs.declared.key_word.KeyWord.{KeyWord};

/// A text is a key's word exactly where it is that word's text.
pub fn keys_are_named_by_their_words()
    ensures read { (word : KeyWord) → key_named (key_text word) ≡ Some word }
    ensures only { (text : List ℕ) (word : KeyWord) → key_named text ≡ Some word → text ≡ key_text word }
{}
