//! The lines of what a device says against the rules, and their objects.
ghost use Rattle.std.specs.Prelude.{◌≡◌, codes};
ghost use Rattle.text_core.specs.Adds.{Adds};
ghost use Rattle.record_core.specs.Records.{record_text};
ghost use Rattle.audit_contents.specs.Texts.{contents_text, finding_cells, finding_text, findings_text};

use crate::contents::Contents;
use crate::finding::{Finding, Findings, finding_of};
use crate::rule::{ContentRule, all_rules};
use record_core::{Form, Value, add_record, cells};
use text_core::{Counted, Piece, Sink};

fn add_cells<'a, S: Sink>(
    out: &mut Counted<'_, S>,
    form: Form,
    address: u8,
    grade: &'a str,
    name: &'a str,
    finding: Finding,
    section: &'a str,
)
    ensures { Adds out.old out.new (record_text form (codes "content") (finding_cells address grade.now name.now finding section.now)) }
{
    let cells = cells![
        hidden(
            "logical_address",
            Value::One(Piece::NibbleOrDash(Some(address)))
        ),
        both("  ", "grade", Value::One(Piece::Text(grade))),
        both(" ", "rule", Value::One(Piece::Text(name))),
        both(" ", "count", Value::One(Piece::Decimal(finding.count))),
        both(
            ", first at ",
            "first",
            Value::One(Piece::Decimal(finding.first))
        ),
        both(" by ", "section", Value::One(Piece::Text(section))),
    ];
    add_record(out, form, "content", &cells);
}

fn add_finding<S: Sink>(
    out: &mut Counted<'_, S>,
    form: Form,
    address: u8,
    rule: ContentRule,
    finding: Finding,
)
    ensures { Adds out.old out.new (finding_text form address rule finding) }
{
    if finding.count != 0 {
        let section = rule.section();
        add_cells(
            out,
            form,
            address,
            rule.grade(),
            rule.name(),
            finding,
            section,
        );
    }
}

fn add_findings<S: Sink>(
    out: &mut Counted<'_, S>,
    form: Form,
    address: u8,
    rules: &[ContentRule],
    findings: &Findings,
)
    ensures { Adds out.old out.new (findings_text form address rules.now findings.now) }
{
    let [rule, rules @ ..] = rules else {
        return;
    };
    add_finding(out, form, address, *rule, finding_of(*rule, findings));
    add_findings(out, form, address, rules, findings);
}

/// Adds a line for each rule that the device at an address broke, or its object.
pub fn add_contents<S: Sink>(
    out: &mut Counted<'_, S>,
    form: Form,
    who: Option<u8>,
    contents: &Contents,
)
    ensures { Adds out.old out.new (contents_text form who contents.now) }
{
    let Some(address) = who else {
        return;
    };
    let findings = contents.findings[(address as usize).min(15)];
    add_findings(out, form, address, &all_rules(), &findings);
}
