//! One line of a sudoers policy: the call that reads it, and the types of what it says.
#![tactic(auto)]

pub use sudoers_grammar::{
    Address, AliasMember, DigestKind, Kind, LineFault, Mask, Operator, OptionName, Tag, Why,
};
pub use sudoers_line_reader::{ParsedLine, parse};
pub use sudoers_line_rows::{
    BorrowedArgs, BorrowedAtom, CmdSpec, Def, Digest, HostGroup, Member, Node, Param, RowsOfTable,
    RunasSpec, Scope, Setting, find_alias_members, find_aliases_in_list,
};
