//! One rule of a policy.

use sudoers_grammar::Kind;
use sudoers_line_rows::{Def, HostGroupRow, MemberRow, ParamRow, RowsOfTable, Scope};

/// A rule: a Defaults line, a definition of an alias or a user specification (sudoers(5), SUDOERS FILE FORMAT).
#[derive(Clone, Copy)]
pub enum Rule<'a> {
    Defaults {
        scope: Option<Scope<'a>>,
        params: RowsOfTable<'a, ParamRow>,
    },
    Def {
        kind: Kind,
        def: Def<'a>,
    },
    Spec {
        users: RowsOfTable<'a, MemberRow>,
        groups: RowsOfTable<'a, HostGroupRow>,
    },
}
