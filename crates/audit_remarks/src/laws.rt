//! Laws of what is kept.
ghost use Rattle.audit_remarks.specs.Free.{FreeTimesAreDue};

/// A frame comes too soon exactly where the free time before it is shorter than the one that was due, and both are told then.
pub fn free_times_are_due()
    ensures { FreeTimesAreDue }
{}
