//! The records of findings.
ghost use Rattle.std.specs.Prelude.{◌≡◌};
ghost use Rattle.std.specs.List.{flat_map};
ghost use Rattle.rules_records.specs.Records.{edid_cells, finding_record, findings_record, severity_name, timing_cells};
ghost use Rattle.record_core.specs.Records.{record_text};
ghost use Rattle.std.specs.Prelude.{codes};
ghost use Rattle.text_core.specs.Adds.{Adds};
ghost use Rattle.text_core.specs.Cut.{WritesText};

use record_core::{Form, Value, add_record, cells};
use rules_check::{Finding, Severity, rule_name, timing_rule_name};
use text_core::{Counted, Piece, Sink, WriteFault};

fn severity_name(severity: Severity) -> &'static str
    ensures { result.now ≡ severity_name severity }
{
    match severity {
        Severity::Fail => "fail",
        Severity::Warn => "warn",
    }
}

// A rule of the EDID that is broken.
fn add_rule<'a, S: Sink>(out: &mut Counted<'_, S>, form: Form, severity: &'a str, rule: &'a str)
    ensures { Adds out.old out.new (record_text form (codes "finding") (edid_cells severity.now rule.now)) }
{
    let cells = cells![
        both("", "severity", Value::One(Piece::Text(severity))),
        hidden("timing", Value::Nothing),
        both(" ", "rule", Value::One(Piece::Text(rule))),
    ];
    add_record(out, form, "finding", &cells);
}

// A rule that the detailed timing with a number breaks.
fn add_timing<'a, S: Sink>(
    out: &mut Counted<'_, S>,
    form: Form,
    severity: &'a str,
    number: u64,
    rule: &'a str,
)
    ensures { Adds out.old out.new (record_text form (codes "finding") (timing_cells severity.now number rule.now)) }
{
    let cells = cells![
        both("", "severity", Value::One(Piece::Text(severity))),
        both(" timing ", "timing", Value::One(Piece::Decimal(number))),
        both(" ", "rule", Value::One(Piece::Text(rule))),
    ];
    add_record(out, form, "finding", &cells);
}

// Adds the record of a finding.
fn add_finding<S: Sink>(out: &mut Counted<'_, S>, form: Form, finding: Finding)
    ensures { Adds out.old out.new (finding_record form finding) }
{
    let severity = severity_name(finding.severity());
    match finding {
        Finding::Edid(rule) => add_rule(out, form, severity, rule_name(rule)),
        Finding::Timing(number, rule) => {
            add_timing(
                out,
                form,
                severity,
                u64::from(number),
                timing_rule_name(rule),
            );
        }
    }
}

fn add_findings<S: Sink>(out: &mut Counted<'_, S>, form: Form, found: &[Finding])
    ensures { Adds out.old out.new (flat_map (finding_record form) found.now) }
{
    'findings: for finding in found {
        add_finding(out, form, *finding);
    }
}

/// Writes a record for each finding.
///
/// # Errors
///
/// Where the sink takes no more: then the front of the records was written, as long as it says.
pub fn write_findings<S: Sink>(out: &mut S, form: Form, found: &[Finding]) -> Result<(), WriteFault>
    ensures { WritesText (S.contents out.old) (S.contents out.new) (S.is_stuck out.old) (S.is_stuck out.new) (findings_record form found.now) result }
{
    let mut text = Counted::new(out);
    add_findings(&mut text, form, found);
    let written = text.written();
    // No effect at run time. The proof reads what `out` holds from the sink that comes back.
    let _below = text.into_sink();
    match written {
        Ok(_) => Ok(()),
        Err(fault) => Err(fault),
    }
}
