//! The kinds of values of a filter, and what matches each.

ghost use Rattle.std.specs.Prelude.{◌≡◌};
ghost use Rattle.std.specs.List.{list_any};
ghost use Rattle.sudoers_grammar.specs.Pattern.{is_special_in_patterns};
ghost use Rattle.sudoers_line_rows.specs.View.{atom_of_view};
ghost use Rattle.sudoers_cvt_rewrite.specs.Filter.{is_atom_matching_user_name, is_atom_matching_group_name, host_name_before_dot, is_host_pattern_match, is_atom_matching_host_name};
ghost use Rattle.sudoers_cvt_rewrite.specs.internal.Values.{is_all_or_name_of_value};

use crate::filter_text::FilterKey;
use crate::filter_values::FilterValues;
use sudoers_match_list::MemberKind;
use sudoers_match_member::{
    GlobMode, is_same_name_ignoring_case, matches_glob_folding_case_if_wanted,
};
use sudoers_tree::{BorrowedAtom, Items};

/// Users of a name, whose numbers and groups are not known.
pub struct UserNameMatching;

/// Users in the group of a name, whose own names and numbers are not known.
pub struct GroupNameMatching;

/// Hosts of a name, whose addresses are not known.
pub struct HostNameMatching;

impl MemberKind for UserNameMatching {
    type Asked = Items<u8>;

    ghost use Rattle.sudoers_cvt_rewrite.specs.Filter.{is_atom_matching_user_name as test_of_names};

    ghost test = { test_of_names };

    fn hits(atom: &BorrowedAtom<'_>, asked: &Items<u8>) -> bool {
        is_user_matched_by_atom(asked.as_slice(), atom)
    }
}

impl MemberKind for GroupNameMatching {
    type Asked = Items<u8>;

    ghost use Rattle.sudoers_cvt_rewrite.specs.Filter.{is_atom_matching_group_name as test_of_groups};

    ghost test = { test_of_groups };

    fn hits(atom: &BorrowedAtom<'_>, asked: &Items<u8>) -> bool {
        is_group_matched_by_atom(asked.as_slice(), atom)
    }
}

impl MemberKind for HostNameMatching {
    type Asked = Items<u8>;

    ghost use Rattle.sudoers_cvt_rewrite.specs.Filter.{is_atom_matching_host_name as test_of_hosts};

    ghost test = { test_of_hosts };

    fn hits(atom: &BorrowedAtom<'_>, asked: &Items<u8>) -> bool {
        is_host_matched_by_atom(asked.as_slice(), atom)
    }
}

/// Users, users in groups, or hosts, of any of the names.
pub struct AnyValueMatching;

impl MemberKind for AnyValueMatching {
    type Asked = FilterValues;

    ghost use Rattle.sudoers_cvt_rewrite.specs.internal.Values.{is_atom_matching_any_value as test_of_values};

    ghost test = { test_of_values };

    fn hits(atom: &BorrowedAtom<'_>, asked: &FilterValues) -> bool {
        is_any_value_matched_by_atom(asked, atom)
    }
}

/// Returns whether `pattern` matches a host of one of these names.
pub fn is_any_host_matched(names: &[Items<u8>], pattern: &[u8]) -> bool
    ensures { result ≡ list_any (λ name. is_host_pattern_match name pattern.now) names.now }
{
    names
        .iter()
        .any(|name| matches_host_name_pattern(name.as_slice(), pattern))
}

/// Returns whether the bytes have a wildcard, or a backslash.
fn has_special_byte(pattern: &[u8]) -> bool
    ensures { result ≡ list_any is_special_in_patterns pattern.now }
{
    pattern
        .iter()
        .any(|byte| matches!(*byte, b'*' | b'?' | b'[' | b'\\'))
}

/// Returns whether `pattern` matches a host of one of the values.
fn is_any_host_value_matched(values: &FilterValues, pattern: &[u8]) -> bool
    ensures { result ≡ list_any (λ name. is_host_pattern_match name pattern.now) values.now.names.items }
{
    if has_special_byte(pattern) {
        is_any_host_matched(values.names.as_slice(), pattern)
    } else {
        values.has_host(pattern)
    }
}

/// Returns whether `atom` matches one of the values.
fn is_any_value_matched_by_atom(values: &FilterValues, atom: &BorrowedAtom<'_>) -> bool
    ensures { result ≡ is_all_or_name_of_value values.now.key values.now.names.items (atom_of_view atom.now) }
{
    match values.key {
        FilterKey::User => match *atom {
            BorrowedAtom::All => !values.names.is_empty(),
            BorrowedAtom::Alias(name) | BorrowedAtom::Name(name) => values.has_name(name),
            _ => false,
        },
        FilterKey::Group => match *atom {
            BorrowedAtom::All => !values.names.is_empty(),
            BorrowedAtom::Group(name) => values.has_name(name),
            _ => false,
        },
        FilterKey::Host => match *atom {
            BorrowedAtom::All => !values.names.is_empty(),
            BorrowedAtom::Alias(pattern) | BorrowedAtom::Host(pattern) => is_any_host_value_matched(
                values, pattern,
            ),
            _ => false,
        },
    }
}

/// Returns whether `atom` matches the user of this name.
fn is_user_matched_by_atom(name: &[u8], atom: &BorrowedAtom<'_>) -> bool
    ensures { result ≡ is_atom_matching_user_name name.now (atom_of_view atom.now) }
{
    match *atom {
        BorrowedAtom::All => true,
        BorrowedAtom::Alias(other) | BorrowedAtom::Name(other) => is_same_name_ignoring_case(
            other, name,
        ),
        _ => false,
    }
}

/// Returns whether `atom` matches a user in the group of this name.
fn is_group_matched_by_atom(name: &[u8], atom: &BorrowedAtom<'_>) -> bool
    ensures { result ≡ is_atom_matching_group_name name.now (atom_of_view atom.now) }
{
    match *atom {
        BorrowedAtom::All => true,
        BorrowedAtom::Group(other) => is_same_name_ignoring_case(other, name),
        _ => false,
    }
}

/// Returns the name of a host up to its first dot.
pub fn cut_host_at_first_dot(name: &[u8]) -> &[u8]
    ensures { result.now ≡ host_name_before_dot name.now }
{
    for (i, byte) in name.iter().enumerate() {
        if *byte == b'.' {
            return &name[..i];
        }
    }
    name
}

/// Returns whether `pattern` matches the name of a host.
fn matches_host_name_pattern(name: &[u8], pattern: &[u8]) -> bool
    ensures { result ≡ is_host_pattern_match name.now pattern.now }
{
    let asked = if pattern.contains(&b'.') {
        name
    } else {
        cut_host_at_first_dot(name)
    };
    matches_glob_folding_case_if_wanted(pattern, asked, GlobMode::Args, true)
}

/// Returns whether `atom` matches the host of this name.
fn is_host_matched_by_atom(name: &[u8], atom: &BorrowedAtom<'_>) -> bool
    ensures { result ≡ is_atom_matching_host_name name.now (atom_of_view atom.now) }
{
    match *atom {
        BorrowedAtom::All => true,
        BorrowedAtom::Alias(pattern) | BorrowedAtom::Host(pattern) => matches_host_name_pattern(
            name, pattern,
        ),
        _ => false,
    }
}
