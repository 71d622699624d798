//! What lists of users, hosts and commands say, their aliases replaced.
#![tactic(auto)]

mod acyclic;
mod alias_cycles;
mod alias_shortcuts;
mod alias_verdicts;
mod deciding;
mod definition_rows;
mod expansion_source;
mod flatten;
mod flatten_size_fault;
mod kind;
pub mod laws;
mod list_kinds;
mod numbered_alias;
mod verdict;

pub use acyclic::AcyclicWalk;
pub use alias_cycles::has_reachable_cycle_in_policy;
pub use alias_verdicts::AliasVerdictCache;
pub use deciding::decide;
pub use definition_rows::DefinitionKindAndMembers;
pub use expansion_source::ExpansionSource;
pub use flatten::{MEMBER_LIMIT, flatten_member_list};
pub use flatten_size_fault::FlattenSizeFault;
pub use kind::MemberKind;
pub use list_kinds::{CommandListKind, HostListKind, RunasGroupListKind, UserListKind};
pub use verdict::{AskFault, LastHitOrCycle, MemberHit, Verdict};
