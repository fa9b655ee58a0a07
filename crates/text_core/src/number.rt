//! Decimal numbers.
ghost use Rattle.std.specs.Prelude.{◌≡◌, ◌+◌, ◌-◌, ◌*◌, ◌%◌, ◌<◌, ◌==◌, false, fold, Some, None};
ghost use Rattle.std.specs.List.{list_all};
ghost use Rattle.std.specs.Char.{is_ascii_digit};
ghost use Rattle.text_core.specs.Number.{number_of, value_of, is_numeral, small_number};

fn all_digits(word: &[u8]) -> bool
    ensures { result ≡ list_all is_ascii_digit word.now }
{
    word.iter().all(|b| b.is_ascii_digit())
}

fn is_numeral(word: &[u8]) -> bool
    ensures { result ≡ is_numeral word.now }
{
    if word.is_empty() {
        return false;
    }
    if word[0] == b'0' {
        return word.len() == 1;
    }
    all_digits(word)
}

fn value_of(word: &[u8]) -> u64
    ensures { result ≡ value_of word.now }
{
    word.iter().fold(0u64, |n, b| {
        n.saturating_mul(10)
            .saturating_add(u64::from(b.saturating_sub(b'0')))
    })
}

/// A number in digits without leading zeros. One past the greatest `u64` counts as the greatest.
pub fn number_in(word: &[u8]) -> Option<u64>
    ensures { result ≡ number_of word.now }
{
    if is_numeral(word) {
        Some(value_of(word))
    } else {
        None
    }
}

/// A number of one or two digits; 100 for any other text. The text may be anything.
pub fn small_number(digits: &[u8]) -> u8
    ensures { result ≡ small_number digits.now }
{
    match digits {
        [one] => one.saturating_sub(b'0'),
        [ten, one] => ten.saturating_sub(b'0') % 16 * 10 + one.saturating_sub(b'0') % 16,
        _ => 100,
    }
}
