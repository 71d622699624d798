//! Changes of the lines of a policy.

ghost use Rattle.std.specs.Prelude.{◌≡◌, ◌<◌, ◌^◌, option_map};
ghost use Rattle.std.specs.Option.{option_copied};
ghost use Rattle.sudoers_tree.specs.Changed.{file_number_of_change, min_line_number_after_change, line_number_of_change, text_of_change};

use sudoers_grammar::Items;

/// A change of the lines of a policy. `file` is the number of the file whose line it changes, and `at` the number of a line of that file
/// before the change, both from 0.
#[derive(Debug, Drop)]
pub enum LineChange {
    /// Puts the line `text` before the line with the number `at`, or after the last line.
    Put {
        file: usize,
        at: usize,
        text: Items<u8>,
    },
    /// Replaces the line with the number `at` by the line `text`.
    Swap {
        file: usize,
        at: usize,
        text: Items<u8>,
    },
    /// Takes out the line with the number `at`.
    Take {
        file: usize,
        at: usize,
    },
}

impl LineChange {
    /// Returns the number of the file whose line it changes.
    pub(crate) fn file_number(&self) -> usize
        ensures { result ≡ file_number_of_change self.now }
    {
        match self {
            LineChange::Put { file, .. }
            | LineChange::Swap { file, .. }
            | LineChange::Take { file, .. } => *file,
        }
    }

    /// Returns its place.
    pub(crate) fn changed_line_number(&self) -> usize
        ensures { result ≡ line_number_of_change self.now }
    {
        match self {
            LineChange::Put { at, .. }
            | LineChange::Swap { at, .. }
            | LineChange::Take { at, .. } => *at,
        }
    }

    /// Returns the first place that a change after it may have.
    pub(crate) fn min_next_line_number(&self) -> usize
        requires { min_line_number_after_change self.now < 2 ^ 64 }
        ensures { result ≡ min_line_number_after_change self.now }
    {
        match self {
            LineChange::Put { at, .. } => *at,
            LineChange::Swap { at, .. } | LineChange::Take { at, .. } => *at + 1,
        }
    }

    /// Returns the text that it brings.
    pub(crate) fn text(&self) -> Option<&[u8]>
        ensures { option_copied result ≡ text_of_change self.now }
    {
        match self {
            LineChange::Put { text, .. } | LineChange::Swap { text, .. } => Some(text.as_slice()),
            LineChange::Take { .. } => None,
        }
    }
}
