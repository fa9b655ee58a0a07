//! Laws of the records of findings.
ghost use Rattle.rules_records.specs.Records.{FindingLines, FindingsAreReadBack};

/// The line of a finding's record is `SEVERITY RULE`, or `SEVERITY timing N RULE`.
pub fn finding_records_are_lines()
    ensures { FindingLines }
{}

/// In the object of a finding stands that line.
pub fn finding_objects_are_read_back()
    ensures { FindingsAreReadBack }
{}
