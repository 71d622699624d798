//! What matches a member of a list.

ghost use Rattle.std.specs.Prelude.{◌≡◌};
ghost use Rattle.sudoers_line_rows.specs.View.{args_of_view, atom_of_view};
ghost use Rattle.sudoers_match_member.specs.Hits.{is_name_equal_ignoring_case, is_name_among_groups, is_number_among_groups, is_user_atom_match, is_runas_group_atom_match, has_dot, is_host_name_match, is_host_atom_match, path_split_at_last_slash, is_command_path_match, is_command_args_match, is_command_atom_match};

use crate::network::network_hits;
use crate::people_and_commands::{CommandLine, Group, Person, Who};
use crate::wildcards::{GlobMode, glob, matches_glob_folding_case_if_wanted};
use sudoers_grammar::ends_with_byte;
use sudoers_line_rows::{BorrowedArgs, BorrowedAtom};

/// Returns whether the names are one, letter case ignored.
#[tactic(auto, using(crate::proofs::Names::case_folded_equality_is_ignore_case_equality))]
pub fn is_same_name_ignoring_case(a: &[u8], b: &[u8]) -> bool
    ensures { result ≡ is_name_equal_ignoring_case a.now b.now }
{
    a.eq_ignore_ascii_case(b)
}

/// Returns whether `atom` matches `person`: a user, or as whom a command runs (sudoers(5), User_List).
pub fn matches_user_atom(atom: &BorrowedAtom<'_>, person: &Person) -> bool
    ensures { result ≡ is_user_atom_match person.now (atom_of_view atom.now) }
{
    match *atom {
        BorrowedAtom::All => true,
        BorrowedAtom::Alias(name) | BorrowedAtom::Name(name) => is_same_name_ignoring_case(
            name,
            person.name.as_slice(),
        ),
        BorrowedAtom::Id(number) => number == person.uid,
        BorrowedAtom::Group(name) => person.groups.has_name(name),
        BorrowedAtom::GroupId(number) => person.groups.has_number(number),
        _ => false,
    }
}

/// Returns whether `atom` matches a group as which a command runs (sudoers(5), Runas_Spec).
pub fn matches_runas_group_atom(atom: &BorrowedAtom<'_>, group: &Group) -> bool
    ensures { result ≡ is_runas_group_atom_match group.now (atom_of_view atom.now) }
{
    match *atom {
        BorrowedAtom::All => true,
        BorrowedAtom::Alias(name) | BorrowedAtom::Name(name) | BorrowedAtom::Group(name) => {
            is_same_name_ignoring_case(name, group.name.as_slice())
        }
        BorrowedAtom::Id(number) | BorrowedAtom::GroupId(number) => number == group.gid,
        _ => false,
    }
}

/// Returns whether `pattern` matches the name of the host.
fn matches_host_name(pattern: &[u8], who: &Who) -> bool
    ensures { result ≡ is_host_name_match who.now pattern.now }
{
    let name = if pattern.contains(&b'.') {
        who.long_host.as_slice()
    } else {
        who.short_host.as_slice()
    };
    matches_glob_folding_case_if_wanted(pattern, name, GlobMode::Args, true)
}

/// Returns whether `atom` matches the host (sudoers(5), Host_List).
pub fn matches_host_atom(atom: &BorrowedAtom<'_>, who: &Who) -> bool
    ensures { result ≡ is_host_atom_match who.now (atom_of_view atom.now) }
{
    match *atom {
        BorrowedAtom::All => true,
        BorrowedAtom::Alias(name) | BorrowedAtom::Host(name) => matches_host_name(name, who),
        BorrowedAtom::Address(address) => network_hits(address, None, &who.interfaces),
        BorrowedAtom::Network(address, mask) => network_hits(address, Some(mask), &who.interfaces),
        _ => false,
    }
}

/// Returns the text up to its last slash, and what stands behind that.
fn split_at_last_slash(path: &[u8]) -> (&[u8], &[u8])
    ensures { (result.0.now, result.1.now) ≡ path_split_at_last_slash path.now }
{
    let mut at = path.len();
    while at > 0 && path[at - 1] != b'/' {
        at -= 1;
    }
    path.split_at(at)
}

/// Returns whether `pattern` matches the path of a command.
fn matches_command_path(pattern: &[u8], path: &[u8]) -> bool
    ensures { result ≡ is_command_path_match path.now pattern.now }
{
    if ends_with_byte(b'/', pattern) {
        let (directory, file) = split_at_last_slash(path);
        !file.is_empty() && glob(pattern, directory, GlobMode::Path)
    } else {
        glob(pattern, path, GlobMode::Path)
    }
}

/// Returns whether the arguments of a member match those of a command.
fn matches_command_args(args: &BorrowedArgs<'_>, text: &[u8], mode: GlobMode) -> bool
    ensures { result ≡ is_command_args_match mode text.now (args_of_view args.now) }
{
    match *args {
        BorrowedArgs::Any => true,
        BorrowedArgs::Nothing => text.is_empty(),
        BorrowedArgs::Pattern(pattern) => glob(pattern, text, mode),
    }
}

/// Returns whether `atom` matches a command with its arguments (sudoers(5), Cmnd_List).
pub fn matches_command_atom(atom: &BorrowedAtom<'_>, asked: &CommandLine) -> bool
    ensures { result ≡ is_command_atom_match asked.now (atom_of_view atom.now) }
{
    let path = asked.path.as_slice();
    let text = asked.args.as_slice();
    match *atom {
        BorrowedAtom::All => true,
        BorrowedAtom::Listing => path == b"list".as_slice(),
        BorrowedAtom::Path {
            path: pattern,
            args,
        } => matches_command_path(pattern, path)
            && matches_command_args(&args, text, GlobMode::Args),
        BorrowedAtom::Sudoedit { args } => path == b"sudoedit".as_slice()
            && matches_command_args(&args, text, GlobMode::Path),
        _ => false,
    }
}
