//! The shape in which `edit` is given a policy.

/// The shape in which the files of a policy are given, and written.
#[derive(Clone, Copy)]
pub enum EditInputShape {
    /// The bytes of one file, whose name is `policy`.
    OneText,
    /// A bundle of files, each with its name.
    Bundle,
}
