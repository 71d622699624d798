//! The forms in which rules are written.

/// The form in which rules are written.
#[derive(Clone, Copy, Debug, PartialEq, Eq)]
pub enum OutputForm {
    /// As the text of a policy.
    Sudoers,
    /// As JSON.
    Json,
}
