//! How many frames of a device break a rule.
ghost use Rattle.std.specs.Prelude.{◌≡◌, ◌<◌};
ghost use Rattle.audit_contents.specs.Contents.{finding_of, has_fault_by, no_findings, one_more, with_finding, with_rules};

use crate::rule::{ContentRule, RULES};
use crate::rules::Saids;

/// How many frames break a rule, and where the reading of the first one begins.
#[derive(Clone, Copy)]
pub struct Finding {
    pub(crate) count: u64,
    pub(crate) first: u64,
}

/// Of a device, by the numbers of the rules.
pub(crate) type Findings = [Finding; RULES];

/// None does.
pub(crate) const NO_FINDINGS: Findings = [Finding { count: 0, first: 0 }; RULES];

impl Finding {
    fn one_more(self, at: u64) -> Finding
        ensures { result ≡ one_more at self }
    {
        Finding {
            count: self.count.saturating_add(1),
            first: if self.count == 0 { at } else { self.first },
        }
    }
}

/// What was found by a rule.
pub(crate) fn finding_of(rule: ContentRule, findings: &Findings) -> Finding
    ensures { result ≡ finding_of rule findings.now }
{
    findings[rule.number()]
}

fn add_finding(is_broken: bool, rule: ContentRule, at: u64, findings: &mut Findings)
    ensures { findings.new ≡ with_finding is_broken rule at findings.old }
{
    if !is_broken {
        return;
    }
    let finding = findings[rule.number()];
    findings[rule.number()] = finding.one_more(at);
}

/// A frame, whose reading began then, was delivered after what the devices said.
pub(crate) fn add_findings(
    rules: &[ContentRule],
    at: u64,
    frame: &[u8],
    saids: &Saids,
    findings: &mut Findings,
)
    ensures { findings.new ≡ with_rules rules.now at frame.now saids.now findings.old }
{
    let [rule, rules @ ..] = rules else {
        return;
    };
    add_finding(rule.is_broken(frame, saids), *rule, at, findings);
    add_findings(rules, at, frame, saids, findings);
}

/// Whether one of them is a fault.
pub(crate) fn has_fault_by(rules: &[ContentRule], findings: &Findings) -> bool
    ensures { result ≡ has_fault_by rules.now findings.now }
{
    let [rule, rules @ ..] = rules else {
        return false;
    };
    (rule.is_fault() && finding_of(*rule, findings).count != 0) || has_fault_by(rules, findings)
}
