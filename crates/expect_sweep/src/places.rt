//! Where times stand in the lines of a script.
ghost use Rattle.std.specs.Prelude.{◌≡◌, ◌||◌};
ghost use Rattle.expect_sweep.specs.Places.{after_expect, after_verb, after_window, is_time, is_time_verb, next_place};

/// What a word of a line is, by the words before it.
#[derive(Clone, Copy, Debug, PartialEq, Eq)]
pub(crate) enum WordRole {
    /// The first word.
    Begin,
    /// The name of a label.
    Name,
    /// The first word after a label.
    Verb,
    /// The first word after `expect`.
    Expectation,
    /// The word after `expect at`.
    Bound,
    /// The number of a count.
    Number,
    /// The first word of a window.
    Window,
    /// The time at which a window begins.
    From,
    /// The word between the times of a window.
    To,
    /// Another time.
    Time,
    /// Something else.
    Other,
}

fn is_time_verb(word: &[u8]) -> bool
    ensures { result ≡ is_time_verb word.now }
{
    word == b"at".as_slice()
        || word == b"pulse".as_slice()
        || word == b"pull".as_slice()
        || word == b"pin".as_slice()
        || word == b"end".as_slice()
}

// What stands after the first word of a line without its label.
fn after_verb(word: &[u8]) -> WordRole
    ensures { result ≡ after_verb word.now }
{
    if is_time_verb(word) {
        WordRole::Time
    } else if word == b"expect".as_slice() {
        WordRole::Expectation
    } else {
        WordRole::Other
    }
}

// What stands after the first word of a window.
fn after_window(word: &[u8]) -> WordRole
    ensures { result ≡ after_window word.now }
{
    if word == b"from".as_slice() {
        WordRole::From
    } else if word == b"within".as_slice() || word == b"state".as_slice() {
        WordRole::Time
    } else {
        WordRole::Other
    }
}

fn after_expect(word: &[u8]) -> WordRole
    ensures { result ≡ after_expect word.now }
{
    if word == b"none".as_slice() || word == b"once".as_slice() {
        WordRole::Window
    } else if word == b"exactly".as_slice() {
        WordRole::Number
    } else if word == b"at".as_slice() {
        WordRole::Bound
    } else {
        after_window(word)
    }
}

fn after_bound(word: &[u8]) -> WordRole
    ensures { result ≡ next_place WordRole.Bound word.now }
{
    if word == b"most".as_slice() || word == b"least".as_slice() {
        WordRole::Number
    } else {
        WordRole::Other
    }
}

fn after_begin(word: &[u8]) -> WordRole
    ensures { result ≡ next_place WordRole.Begin word.now }
{
    if word == b"label".as_slice() {
        WordRole::Name
    } else {
        after_verb(word)
    }
}

fn after_from(word: &[u8]) -> WordRole
    ensures { result ≡ next_place WordRole.To word.now }
{
    if word == b"to".as_slice() {
        WordRole::Time
    } else {
        WordRole::Other
    }
}

impl WordRole {
    /// The place of the next word.
    pub(crate) fn next(self, word: &[u8]) -> WordRole
        ensures { result ≡ next_place self word.now }
    {
        match self {
            WordRole::Begin => after_begin(word),
            WordRole::Name => WordRole::Verb,
            WordRole::Verb => after_verb(word),
            WordRole::Expectation => after_expect(word),
            WordRole::Bound => after_bound(word),
            WordRole::Number => WordRole::Window,
            WordRole::Window => after_window(word),
            WordRole::From => WordRole::To,
            WordRole::To => after_from(word),
            WordRole::Time | WordRole::Other => WordRole::Other,
        }
    }

    /// Whether a time stands there.
    pub(crate) fn is_time(self) -> bool
        ensures { result ≡ is_time self }
    {
        match self {
            WordRole::From | WordRole::Time => true,
            WordRole::Begin
            | WordRole::Name
            | WordRole::Verb
            | WordRole::Expectation
            | WordRole::Bound
            | WordRole::Number
            | WordRole::Window
            | WordRole::To
            | WordRole::Other => false,
        }
    }
}
