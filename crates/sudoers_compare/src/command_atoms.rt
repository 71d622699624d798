//! Whether one command matches everything that another matches.

ghost use Rattle.std.specs.Prelude.{◌≡◌};
ghost use Rattle.sudoers_line_rows.specs.Alike.{is_same_atom};
ghost use Rattle.sudoers_line_rows.specs.View.{args_of_view, atom_of_view};
ghost use Rattle.sudoers_match_list.specs.Flat.{is_all_atom};
ghost use Rattle.laws_compare.specs.Decided.{is_any_arguments, is_command_atom_wider, is_same_command_with_any_arguments};

use sudoers_line_rows::{BorrowedArgs, BorrowedAtom, is_same_atom};

/// Returns whether `atom` is `ALL`.
pub fn is_all_atom(atom: &BorrowedAtom<'_>) -> bool
    ensures { result ≡ is_all_atom (atom_of_view atom.now) }
{
    matches!(*atom, BorrowedAtom::All)
}

/// Returns whether `wide` matches each command that `narrow` matches. It is `ALL`, the same, or the same path or `sudoedit` with any
/// arguments.
pub fn is_command_atom_wider(wide: &BorrowedAtom<'_>, narrow: &BorrowedAtom<'_>) -> bool
    ensures { result ≡ is_command_atom_wider (atom_of_view wide.now) (atom_of_view narrow.now) }
{
    is_all_atom(wide)
        || is_same_atom(wide, narrow)
        || is_same_command_with_any_arguments(wide, narrow)
}

/// Returns whether `wide` is the path or `sudoedit` of `narrow`, with any arguments.
fn is_same_command_with_any_arguments(wide: &BorrowedAtom<'_>, narrow: &BorrowedAtom<'_>) -> bool
    ensures { result ≡ is_same_command_with_any_arguments (atom_of_view wide.now) (atom_of_view narrow.now) }
{
    match (wide, narrow) {
        (BorrowedAtom::Path { path: a, args: m }, BorrowedAtom::Path { path: b, args: _ }) => {
            a == b && is_any_arguments(m)
        }
        (BorrowedAtom::Sudoedit { args: m }, BorrowedAtom::Sudoedit { args: _ }) => {
            is_any_arguments(m)
        }
        _ => false,
    }
}

/// Returns whether `args` are any arguments.
fn is_any_arguments(args: &BorrowedArgs<'_>) -> bool
    ensures { result ≡ is_any_arguments (args_of_view args.now) }
{
    matches!(*args, BorrowedArgs::Any)
}
