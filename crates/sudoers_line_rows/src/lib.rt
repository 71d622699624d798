//! The rows of tables in which the lines of a policy are kept, and views of them.
#![tactic(auto)]

mod alias_members;
mod alike;
mod debug;
pub mod laws;
mod row_counts;
mod row_lists;
mod rows;
mod table_appending;
mod view;

pub use alias_members::{find_alias_members, find_aliases_in_list};
pub use alike::{ComparableRow, are_row_lists_alike, is_same_atom};
pub use row_counts::TableRowCounts;
pub use row_lists::{RowsOfTable, rows_in};
pub use rows::{
    AliasDefinitionRow, ArgsRow, AtomRow, ByteRange, CommandRow, DigestRow, HostGroupRow,
    MemberRow, NONE, NodeRow, OptionRow, ParamRow, RowRange, RunasRow, ScopeRow, SettingRow,
    Tables, TagRow,
};
pub use table_appending::{
    append_table_rows, convert_offset_to_u32, store_atom, store_atom_of_member_token,
    store_command_args, store_text, store_token_text,
};
pub use view::{
    BorrowedArgs, BorrowedAtom, CmdSpec, Def, Digest, HostGroup, Member, Node, Param, RunasSpec,
    Scope, Setting,
};
