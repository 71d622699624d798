//! A sudoers policy: its lines with what they say, and the definitions and mentions of its aliases.
#![tactic(auto)]

mod alias_index;
mod alias_mentions;
mod alias_names_update;
mod change_reading;
mod defined_names;
mod defined_names_change;
mod fault;
mod files;
mod files_and_walk;
mod files_with_changes;
mod in_place_update;
mod include_leads;
mod include_targets;
pub mod laws;
mod line;
mod line_change;
mod line_in_place;
mod line_kind;
mod line_texts;
mod load_fault;
mod moved_lines;
mod name_bits;
mod name_entering;
mod named_files;
mod off_walk;
mod old_and_new_lines;
mod physical_position;
mod place;
mod policy;
mod policy_names;
mod reading;
mod row_reading;
mod single_line;
mod walk;
mod walking;

pub use alias_index::ALIAS_LIMIT;
pub use alias_mentions::is_same_kind;
pub use fault::{ReadFault, SyntaxFault};
pub use include_leads::{Lead, folder_of, lead_of_include_node, leads, may_include_files};
pub use include_targets::{base_name_of_path, is_included_base_name};
pub use line::{Line, LineRow};
pub use line_change::LineChange;
pub use line_kind::LineKind;
pub use line_texts::append_texts_of_rows;
pub use load_fault::LoadFault;
pub use name_bits::{ALL_NAME_BITS, NameFilterBits};
pub use named_files::{FILE_LIMIT, NamedFile, has_file_named};
pub use physical_position::{column_behind, lf_count};
pub use place::{DefinitionFilePlace, FileSpan, Place, Span, WalkLineSpot};
pub use policy::Policy;
pub use single_line::read_line;
pub use sudoers_grammar::{
    Address, AliasMember, DigestKind, Items, Kind, LineFault, Mask, Operator, OptionName, Tag, Why,
};
pub use sudoers_line_reader::ParsedLine;
pub use sudoers_line_rows::{
    AliasDefinitionRow, BorrowedArgs, BorrowedAtom, CmdSpec, CommandRow, Def, Digest, DigestRow,
    HostGroup, HostGroupRow, Member, MemberRow, Node, NodeRow, OptionRow, Param, ParamRow,
    RowsOfTable, RunasSpec, Scope, Setting, Tables, TagRow, find_alias_members,
    find_aliases_in_list,
};
pub use walk::Walk;
