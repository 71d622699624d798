//! How many rows tables have, so that they can be cut back.

ghost use Rattle.std.specs.Prelude.{◌≡◌, take};
ghost use Rattle.sudoers_line_rows.specs.Counts.{row_counts_of_tables, IsTruncatedToCounts};

use crate::rows::Tables;

/// The number of rows of each table.
#[derive(Clone, Copy)]
pub struct TableRowCounts {
    bytes: usize,
    digests: usize,
    members: usize,
    options: usize,
    tags: usize,
    commands: usize,
    groups: usize,
    defs: usize,
    params: usize,
}

impl Tables {
    /// Returns the number of rows of each table.
    pub fn row_counts(&self) -> TableRowCounts
        ensures { result ≡ row_counts_of_tables self.now }
    {
        TableRowCounts {
            bytes: self.bytes.len(),
            digests: self.digests.len(),
            members: self.members.len(),
            options: self.options.len(),
            tags: self.tags.len(),
            commands: self.commands.len(),
            groups: self.groups.len(),
            defs: self.defs.len(),
            params: self.params.len(),
        }
    }

    /// Removes the rows behind these numbers of rows.
    pub fn cut_back_to_counts(&mut self, counts: TableRowCounts)
        ensures { IsTruncatedToCounts counts self.old self.new }
    {
        self.bytes.truncate(counts.bytes);
        self.digests.truncate(counts.digests);
        self.members.truncate(counts.members);
        self.options.truncate(counts.options);
        self.tags.truncate(counts.tags);
        self.commands.truncate(counts.commands);
        self.groups.truncate(counts.groups);
        self.defs.truncate(counts.defs);
        self.params.truncate(counts.params);
    }
}
