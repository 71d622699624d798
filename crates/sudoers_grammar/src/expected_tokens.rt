//! What may stand at a place of a line.

/// What may come next, as far as the cause of a fault depends on it.
#[derive(Clone, Copy)]
pub struct ExpectedTokens {
    /// A word that is the name of a user or a host.
    pub word: bool,
    /// A word that is a time stamp.
    pub stamp: bool,
    /// A path.
    pub path: bool,
}
