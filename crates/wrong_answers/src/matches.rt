//! What matches one member of a list.

ghost use Rattle.std.specs.Prelude.{◌≡◌};
ghost use Rattle.sudoers_match_member.specs.Hits.{is_command_atom_match, is_runas_group_atom_match, is_host_atom_match, is_user_atom_match};
ghost use Rattle.sudoers_match_member.specs.Network.{is_any_interface_hit as network};
ghost use Rattle.sudoers_match_member.specs.Wildcard.{is_pattern_match};
ghost use Rattle.sudoers_line_rows.specs.View.{atom_of_view};

use sudoers_grammar::{Address, Mask};
use sudoers_line_rows::BorrowedAtom;
use sudoers_match_member::{
    CommandLine, GlobMode, Group, Interfaces, Person, Who, glob, matches_command_atom,
    matches_host_atom, matches_runas_group_atom, matches_user_atom, network_hits,
};

/// Returns whether `text` matches `pattern`.
pub fn matches_pattern(pattern: &[u8], text: &[u8], mode: GlobMode) -> bool
    ensures { result ≡ is_pattern_match mode pattern.now text.now }
{
    glob(pattern, text, mode)
}

/// Returns whether an address, or with `mask` a network, hits one of `interfaces`.
pub fn hits_network(address: Address, mask: Option<Mask>, interfaces: &Interfaces) -> bool
    ensures { result ≡ network address mask interfaces.now }
{
    network_hits(address, mask, interfaces)
}

/// Returns whether `atom` matches the user `person`.
pub fn matches_user(atom: &BorrowedAtom<'_>, person: &Person) -> bool
    ensures { result ≡ is_user_atom_match person.now (atom_of_view atom.now) }
{
    matches_user_atom(atom, person)
}

/// Returns whether `atom` matches `group`.
pub fn matches_group(atom: &BorrowedAtom<'_>, group: &Group) -> bool
    ensures { result ≡ is_runas_group_atom_match group.now (atom_of_view atom.now) }
{
    matches_runas_group_atom(atom, group)
}

/// Returns whether `atom` matches the host of `who`.
pub fn matches_host(atom: &BorrowedAtom<'_>, who: &Who) -> bool
    ensures { result ≡ is_host_atom_match who.now (atom_of_view atom.now) }
{
    matches_host_atom(atom, who)
}

/// Returns whether `atom` matches the command `asked`.
pub fn matches_command(atom: &BorrowedAtom<'_>, asked: &CommandLine) -> bool
    ensures { result ≡ is_command_atom_match asked.now (atom_of_view atom.now) }
{
    matches_command_atom(atom, asked)
}
