//! What is written of an audit.
use record_core::Form;

/// What is written of an audit: the widths of each reading too or not, and its lines or their objects.
#[derive(Clone, Copy, Debug)]
pub struct AuditView {
    pub timing: bool,
    pub written: Form,
}
