//! The table of rules: what each is called, the section of the standard, and whether the standard has it otherwise.
ghost use Rattle.std.specs.Prelude.{◌≡◌, ◌<◌};
ghost use Rattle.audit_contents.specs.Names.{all_rules, grade_of, is_fault, name_of, number_of, section_of};

/// What the standard has of what a device says.
#[derive(Clone, Copy)]
pub enum ContentRule {
    /// An opcode that a device has to follow is refused as unknown.
    Refuses,
    /// Feature Abort answers Feature Abort, or a frame to all.
    Unasked,
    /// A value that the standard keeps free.
    Reserved,
    /// A character that its text can't have.
    Misspelled,
    /// A physical address that its device can't have.
    Misplaced,
    /// A device with two vendors, and one with two versions.
    OtherVendor,
    OtherVersion,
    /// A message that another type of device says.
    Foreign,
    /// A device type that is not of the logical address.
    OtherType,
    /// A device with two names.
    OtherName,
    /// A device where one of another vendor was.
    Shared,
}

/// How many rules there are.
pub(crate) const RULES: usize = 11;

/// All of them, in the order of a report.
pub(crate) fn all_rules() -> [ContentRule; RULES]
    ensures { result ≡ all_rules }
{
    [
        ContentRule::Refuses,
        ContentRule::Unasked,
        ContentRule::Reserved,
        ContentRule::Misspelled,
        ContentRule::Misplaced,
        ContentRule::OtherVendor,
        ContentRule::OtherVersion,
        ContentRule::Foreign,
        ContentRule::OtherType,
        ContentRule::OtherName,
        ContentRule::Shared,
    ]
}

impl ContentRule {
    /// Its place among them.
    pub(crate) fn number(self) -> usize
        ensures value { result ≡ number_of self }
        ensures within { result < 11 }
    {
        match self {
            ContentRule::Refuses => 0,
            ContentRule::Unasked => 1,
            ContentRule::Reserved => 2,
            ContentRule::Misspelled => 3,
            ContentRule::Misplaced => 4,
            ContentRule::OtherVendor => 5,
            ContentRule::OtherVersion => 6,
            ContentRule::Foreign => 7,
            ContentRule::OtherType => 8,
            ContentRule::OtherName => 9,
            ContentRule::Shared => 10,
        }
    }

    /// What it is called.
    pub(crate) fn name(self) -> &'static str
        ensures { result.now ≡ name_of self }
    {
        match self {
            ContentRule::Refuses => "refuses-mandatory",
            ContentRule::Unasked => "aborts-unasked",
            ContentRule::Reserved => "reserved-value",
            ContentRule::Misspelled => "other-characters",
            ContentRule::Misplaced => "no-such-place",
            ContentRule::OtherVendor => "other-vendor",
            ContentRule::OtherVersion => "other-version",
            ContentRule::Foreign => "not-its-message",
            ContentRule::OtherType => "other-type",
            ContentRule::OtherName => "other-name",
            ContentRule::Shared => "shared-place",
        }
    }

    /// The section of HDMI 1.4, CEC that it goes by.
    pub(crate) fn section(self) -> &'static str
        ensures { result.now ≡ section_of self }
    {
        match self {
            ContentRule::Refuses | ContentRule::Unasked => "12.3",
            ContentRule::Reserved | ContentRule::Misspelled => "17",
            ContentRule::Misplaced | ContentRule::Shared => "10.1",
            ContentRule::OtherVendor => "13.9",
            ContentRule::OtherVersion => "13.6",
            ContentRule::Foreign => "13",
            ContentRule::OtherType => "10.2",
            ContentRule::OtherName => "13.11",
        }
    }

    /// Whether the standard has it otherwise. A device that combines several, one that was plugged in the place of another one, and a new
    /// name are lawful.
    pub(crate) fn is_fault(self) -> bool
        ensures { result ≡ is_fault self }
    {
        match self {
            ContentRule::Refuses
            | ContentRule::Unasked
            | ContentRule::Reserved
            | ContentRule::Misspelled
            | ContentRule::Misplaced
            | ContentRule::OtherVendor
            | ContentRule::OtherVersion
            | ContentRule::Foreign => true,
            ContentRule::OtherType | ContentRule::OtherName | ContentRule::Shared => false,
        }
    }

    /// The word for that.
    pub(crate) fn grade(self) -> &'static str
        ensures { result.now ≡ grade_of self }
    {
        match self {
            ContentRule::Refuses
            | ContentRule::Unasked
            | ContentRule::Reserved
            | ContentRule::Misspelled
            | ContentRule::Misplaced
            | ContentRule::OtherVendor
            | ContentRule::OtherVersion
            | ContentRule::Foreign => "fault",
            ContentRule::OtherType | ContentRule::OtherName | ContentRule::Shared => "note",
        }
    }
}
