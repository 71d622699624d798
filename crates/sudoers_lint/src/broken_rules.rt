//! Which rules a row breaks.

ghost use Rattle.std.specs.Prelude.{◌≡◌, Option};
ghost use Rattle.sudoers_line_rows.specs.View.{args_of_view, atom_of_view, member_of_view};
ghost use Rattle.sudoers_match_list.specs.Flat.{is_all_atom, signed_atom_of_member};
ghost use Rattle.sudoers_compare.specs.FlatSpecs.{PlacedRow};
ghost use Rattle.sudoers_lint.specs.Lint.{AllowedAll, broken_rules_of_row, does_allow_any_command, is_any_args, is_any_command, is_behind_all, is_tag_off, is_tag_on, is_way_out_atom};
ghost use Rattle.sudoers_lint.specs.RuleSets.{rules_in_set};
ghost use Rattle.sudoers_lint.specs.Views.{AreFactsOfRow};

use crate::programs::is_way_out_program;
use crate::rule_set::RuleSet;
use sudoers_line_rows::{BorrowedArgs, BorrowedAtom, Member};
use sudoers_match::CommandTags;
use sudoers_tree::base_name_of_path;

/// What holds of all rows of a command: where it stands, and what is said of its users, its Runas_Spec and its tags.
#[derive(Clone, Copy)]
pub struct CommandFacts {
    pub line: usize,
    pub start: usize,
    pub is_for_root: bool,
    pub is_open: bool,
    pub is_but_some: bool,
    pub tags: CommandTags,
}

/// Returns whether `tag` stands without `NO`.
fn is_tag_on(tag: Option<bool>) -> bool
    ensures { result ≡ is_tag_on tag }
{
    match tag {
        Some(on) => on,
        None => false,
    }
}

/// Returns whether `tag` stands with `NO`.
fn is_tag_off(tag: Option<bool>) -> bool
    ensures { result ≡ is_tag_off tag }
{
    match tag {
        Some(on) => !on,
        None => false,
    }
}

/// Returns whether `member` is `ALL`, without digests.
fn is_any_command(member: &Member<'_>) -> bool
    ensures { result ≡ is_any_command (signed_atom_of_member (member_of_view member.now)) }
{
    member.digests.rows.is_empty() && is_all_atom(&member.atom)
}

/// Returns whether `member` allows `ALL`, without digests.
pub fn allows_any_command(member: &Member<'_>) -> bool
    ensures { result ≡ does_allow_any_command (signed_atom_of_member (member_of_view member.now)) }
{
    !member.negated && is_any_command(member)
}

/// Returns whether `atom` is `ALL`.
fn is_all_atom(atom: &BorrowedAtom<'_>) -> bool
    ensures { result ≡ is_all_atom (atom_of_view atom.now) }
{
    matches!(*atom, BorrowedAtom::All)
}

/// Returns whether `args` are any arguments.
fn is_any_args(args: &BorrowedArgs<'_>) -> bool
    ensures { result ≡ is_any_args (args_of_view args.now) }
{
    matches!(*args, BorrowedArgs::Any)
}

/// Returns whether `atom` is a program, with any arguments, that can start any other.
fn is_way_out_atom(atom: &BorrowedAtom<'_>) -> bool
    ensures { result ≡ is_way_out_atom (atom_of_view atom.now) }
{
    match atom {
        BorrowedAtom::Path { path, args } => {
            is_any_args(args) && is_way_out_program(base_name_of_path(path))
        }
        _ => false,
    }
}

/// Returns the rules that the row of `member` breaks, of which `facts` hold. With `is_behind`, the last row that allows any command stands on
/// its line for the same hosts.
pub fn find_broken_rules(facts: &CommandFacts, is_behind: bool, member: &Member<'_>) -> RuleSet
    ensures { (before : Option AllowedAll) (placed : PlacedRow) → AreFactsOfRow facts.now placed → is_behind ≡ is_behind_all before placed.line placed.row.hosts
        → placed.row.grant.atom ≡ signed_atom_of_member (member_of_view member.now) → rules_in_set result ≡ broken_rules_of_row before placed }
{
    if facts.is_for_root {
        return RuleSet::new();
    }
    let allows = !member.negated;
    RuleSet {
        everyone: allows && facts.is_open,
        all_but: allows && facts.is_but_some,
        nopasswd_any: allows_any_command(member) && is_tag_off(facts.tags.passwd),
        deny_list: !allows && !is_all_atom(&member.atom) && is_behind,
        environment: allows && is_tag_on(facts.tags.setenv),
        way_out: allows && !is_tag_off(facts.tags.exec) && is_way_out_atom(&member.atom),
    }
}
