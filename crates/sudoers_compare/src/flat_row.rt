//! A row with its lists flat.

use sudoers_line_rows::{Member, MemberRow, RowsOfTable};
use sudoers_match::{CommandOptions, CommandTags};

/// The lists of a Runas_Spec, flat. A list is None where nothing stands on its side of the colon.
#[derive(Clone, Copy)]
pub struct FlatRunasView<'a> {
    pub users: Option<RowsOfTable<'a, MemberRow>>,
    pub groups: Option<RowsOfTable<'a, MemberRow>>,
}

/// A row: a command that is no defined alias, and all that holds of it. Its lists name no defined alias.
#[derive(Clone, Copy)]
pub struct FlatRow<'a> {
    pub users: RowsOfTable<'a, MemberRow>,
    pub hosts: RowsOfTable<'a, MemberRow>,
    pub runas: Option<FlatRunasView<'a>>,
    pub options: CommandOptions<'a>,
    pub tags: CommandTags,
    pub member: Member<'a>,
}
