//! The kinds of device that stand on the wire, and their words.
ghost use Rattle.std.specs.Prelude.{◌≡◌};
ghost use Rattle.text_core.specs.Kind.{is_outside, is_television, kind_named, kind_word};

/// What a device is. Its kind decides the logical addresses it may take and what it does with a frame.
#[derive(Clone, Copy, Debug, PartialEq, Eq)]
pub enum Kind {
    Tv,
    Amp,
    Player,
    Recorder,
    Switch,
    /// A recorder and a player in one box: one device with two logical addresses.
    Combo,
    /// A device whose behaviour comes from outside: it holds and sends what it is told, and follows nothing.
    Outside,
    /// A television whose behaviour comes from outside.
    OutsideTv,
}

impl Kind {
    /// Each kind once.
    pub const ALL: &'static [Kind] = &[
        Kind::Tv,
        Kind::Amp,
        Kind::Player,
        Kind::Recorder,
        Kind::Switch,
        Kind::Combo,
        Kind::Outside,
        Kind::OutsideTv,
    ];

    /// The word for it in topologies and traces.
    pub fn word(self) -> &'static str
        ensures { result.now ≡ kind_word self }
    {
        match self {
            Kind::Tv => "tv",
            Kind::Amp => "amp",
            Kind::Player => "player",
            Kind::Recorder => "recorder",
            Kind::Switch => "switch",
            Kind::Combo => "combo",
            Kind::Outside => "outside",
            Kind::OutsideTv => "outside-tv",
        }
    }

    /// Whether it is a television, the root of the tree.
    pub fn is_television(self) -> bool
        ensures { result ≡ is_television self }
    {
        matches!(self, Kind::Tv | Kind::OutsideTv)
    }

    /// Whether its behaviour comes from outside.
    pub fn is_outside(self) -> bool
        ensures { result ≡ is_outside self }
    {
        matches!(self, Kind::Outside | Kind::OutsideTv)
    }

    /// The kind that a word stands for.
    pub fn named(word: &[u8]) -> Option<Kind>
        ensures { result ≡ kind_named word.now }
    {
        Kind::ALL
            .iter()
            .copied()
            .find(|kind| kind.word().as_bytes() == word)
    }
}
