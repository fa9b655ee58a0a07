//! What devices say, reading by reading.
ghost use Rattle.std.specs.Prelude.{◌≡◌, ◌<◌};
ghost use Rattle.line_reading.specs.Reports.{listed_as};
ghost use Rattle.audit_contents.specs.Contents.{after_frame, after_reading, any_fault, findings_at, forget, has_fault, is_own_poll, no_contents, with_findings, with_saids};

use crate::finding::{Findings, NO_FINDINGS, add_findings, has_fault_by};
use crate::rule::all_rules;
use crate::rules::{Saids, said_of};
use crate::said::Said;
use audit_remarks::{delivered_frame, initiator_of, seeks_address, sender};
use line_frames::{Addr, Reading};

/// The bits of a header's initiator and destination (CEC 6.1.1).
const HEADER: usize = 8;

/// What each device said, and how often its frames broke each rule.
#[derive(Clone, Copy)]
pub struct Contents {
    pub(crate) said: Saids,
    pub(crate) findings: [Findings; 16],
}

// Nothing is kept of address 15, which several devices may have.
fn note_said(frame: &[u8], saids: &mut Saids)
    ensures { saids.new ≡ with_saids frame.now saids.old }
{
    let initiator = sender(frame);
    if initiator == Addr::BROADCAST {
        return;
    }
    let said = said_of(initiator, &*saids).after(frame);
    saids[initiator as usize] = said;
}

// What was found of the device at an address.
fn findings_at(initiator: u8, all: &[Findings; 16]) -> Findings
    requires { initiator < 16 }
    ensures { result ≡ findings_at initiator all.now }
{
    all[initiator as usize]
}

fn note_findings(at: u64, frame: &[u8], saids: &Saids, all: &mut [Findings; 16])
    ensures { all.new ≡ with_findings at frame.now saids.now all.old }
{
    let initiator = sender(frame);
    let mut findings = findings_at(initiator, &*all);
    add_findings(&all_rules(), at, frame, saids, &mut findings);
    all[initiator as usize] = findings;
}

// Whether a device polls its own address.
fn is_own_poll(bits: &[bool]) -> bool
    ensures { result ≡ is_own_poll bits.now }
{
    bits.len() >= HEADER && seeks_address(bits)
}

fn any_fault(all: &[Findings]) -> bool
    ensures { result ≡ any_fault all.now }
{
    let [findings, all @ ..] = all else {
        return false;
    };
    has_fault_by(&all_rules(), findings) || any_fault(all)
}

impl Contents {
    /// Nothing was said.
    pub fn new() -> Self
        ensures { result ≡ no_contents }
    {
        Contents {
            said: [Said::NOTHING; 16],
            findings: [NO_FINDINGS; 16],
        }
    }

    fn note_frame(&mut self, at: u64, frame: &[u8])
        ensures { self.new ≡ after_frame at frame.now self.old }
    {
        if frame.len() < 2 {
            return;
        }
        note_findings(at, frame, &self.said, &mut self.findings);
        note_said(frame, &mut self.said);
    }

    fn forget(&mut self, initiator: u8)
        requires { initiator < 16 }
        ensures { self.new ≡ forget initiator self.old }
    {
        self.said[initiator as usize] = Said::NOTHING;
    }

    /// A reading has come.
    pub fn note(&mut self, reading: &Reading)
        ensures { self.new ≡ after_reading (listed_as reading.now) self.old }
    {
        if is_own_poll(&reading.bits) {
            self.forget(initiator_of(&reading.bits));
            return;
        }
        self.note_frame(reading.begin, &delivered_frame(reading));
    }

    /// Whether a device broke a rule that is no note.
    pub fn has_fault(&self) -> bool
        ensures { result ≡ has_fault self.now }
    {
        any_fault(&self.findings)
    }
}
