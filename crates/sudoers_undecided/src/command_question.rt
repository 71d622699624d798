//! Commands that are not known to be the one that is asked for.

ghost use Rattle.std.specs.Prelude.{◌≡◌};
ghost use Rattle.std.specs.Option.{is_some};
ghost use Rattle.sudoers_line_rows.specs.View.{args_of_view, atom_of_view, member_of_view};
ghost use Rattle.sudoers_match_list.specs.Flat.{signed_atom_of_member};
ghost use Rattle.sudoers_match_member.specs.declared.wildcards.GlobMode.TheVariants.{Args};
ghost use Rattle.sudoers_match_member.specs.Hits.{is_command_args_match, path_split_at_last_slash};
ghost use Rattle.sudoers_undecided.specs.MatchTests.{is_same_last_name_elsewhere};
ghost use Rattle.sudoers_undecided.specs.MemberQuestions.{is_command_undecided};

use crate::undecided_member::WhyUndecided;
use sudoers_match_member::{CommandLine, GlobMode, glob, matches_command_atom};
use sudoers_tree::{BorrowedArgs, BorrowedAtom, Member};

/// Returns the text behind the last slash of `path`.
fn last_name_of_path(path: &[u8]) -> &[u8]
    ensures { result.now ≡ (path_split_at_last_slash path.now).1 }
{
    let mut at = path.len();
    while at > 0 && path[at - 1] != b'/' {
        at -= 1;
    }
    let (_, name) = path.split_at(at);
    name
}

/// Returns whether the arguments of a member match those of a command.
fn matches_command_args(args: &BorrowedArgs<'_>, text: &[u8]) -> bool
    ensures { result ≡ is_command_args_match Args text.now (args_of_view args.now) }
{
    match *args {
        BorrowedArgs::Any => true,
        BorrowedArgs::Nothing => text.is_empty(),
        BorrowedArgs::Pattern(pattern) => glob(pattern, text, GlobMode::Args),
    }
}

/// Returns whether `atom` does not match `command`, and is a path with its last name whose arguments match.
fn is_same_command_elsewhere(atom: &BorrowedAtom<'_>, command: &CommandLine) -> bool
    ensures { result ≡ is_same_last_name_elsewhere command.now (atom_of_view atom.now) }
{
    match *atom {
        BorrowedAtom::Path { path, args } => {
            last_name_of_path(path) == last_name_of_path(command.path.as_slice())
                && matches_command_args(&args, command.args.as_slice())
                && !matches_command_atom(atom, command)
        }
        _ => false,
    }
}

/// Returns why it is not known whether `member`, which is no defined alias, matches `command`, if that is not known.
pub fn find_reason_of_command(member: &Member<'_>, command: &CommandLine) -> Option<WhyUndecided>
    ensures { is_some result ≡ is_command_undecided command.now (signed_atom_of_member (member_of_view member.now)) }
{
    if matches_command_atom(&member.atom, command) && !member.digests.rows.is_empty() {
        Some(WhyUndecided::Digest)
    } else if is_same_command_elsewhere(&member.atom, command) {
        Some(WhyUndecided::OtherPath)
    } else {
        None
    }
}
