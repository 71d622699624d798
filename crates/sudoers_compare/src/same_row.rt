//! Rows that say the same.

ghost use Rattle.std.specs.Prelude.{◌≡◌, ◌↔◌, true};
ghost use Rattle.std.specs.Option.{option_map};
ghost use Rattle.sudoers_line_rows.specs.View.{member_of_view};
ghost use Rattle.sudoers_match_list.specs.Flat.{signed_atom_of_member};
ghost use Rattle.sudoers_match.specs.Values.{option_value_of_view, option_values_of_view};
ghost use Rattle.laws_compare.specs.Decided.{is_same_flat_list, is_same_signed_atom};
ghost use Rattle.sudoers_compare.specs.FlatRow.{flat_row_of_view, flat_runas_spec_of_view, grant_of_view, optional_signed_atoms_of_view, signed_atoms_of_view};
ghost use Rattle.sudoers_compare.specs.SameRow.{are_same_option_values, are_same_tags, have_same_effect, is_same_flat_row, is_same_flat_runas_spec, is_same_grant, is_same_option_value, is_same_optional_flat_list, is_same_tag};

use crate::flat_lists::is_same_flat_list;
use crate::flat_row::{FlatRow, FlatRunasView};
use sudoers_line_rows::{Member, MemberRow, RowsOfTable, are_row_lists_alike, is_same_atom};
use sudoers_match::{CommandOptions, CommandTags};

/// Which changes of rows count.
#[derive(Clone, Copy)]
pub enum CountedChanges {
    /// All of them.
    All,
    /// Those that may grant something.
    Granting,
}

/// Returns whether neither of the flat lists is there, or both are and they are the same.
fn is_same_optional_list(
    list: &Option<RowsOfTable<'_, MemberRow>>,
    other: &Option<RowsOfTable<'_, MemberRow>>,
) -> bool
    ensures { result ≡ is_same_optional_flat_list (optional_signed_atoms_of_view list.now) (optional_signed_atoms_of_view other.now) }
{
    match (list, other) {
        (None, None) => true,
        (Some(list), Some(other)) => is_same_flat_list(list, other),
        _ => false,
    }
}

/// Returns whether the Runas_Specs are the same. Either may be absent.
fn is_same_runas_spec(runas: &Option<FlatRunasView<'_>>, other: &Option<FlatRunasView<'_>>) -> bool
    ensures { result ≡ is_same_flat_runas_spec (option_map flat_runas_spec_of_view runas.now) (option_map flat_runas_spec_of_view other.now) }
{
    match (runas, other) {
        (None, None) => true,
        (Some(runas), Some(other)) => {
            is_same_optional_list(&runas.users, &other.users)
                && is_same_optional_list(&runas.groups, &other.groups)
        }
        _ => false,
    }
}

/// Returns whether neither value is set, or both are and they are the same.
fn is_same_value(value: Option<&[u8]>, other: Option<&[u8]>) -> bool
    ensures { result ≡ is_same_option_value (option_value_of_view value.entry) (option_value_of_view other.entry) }
{
    match (value, other) {
        (None, None) => true,
        (Some(value), Some(other)) => value == other,
        _ => false,
    }
}

/// Returns whether each option has the same value in both.
pub fn are_same_options(options: &CommandOptions<'_>, others: &CommandOptions<'_>) -> bool
    ensures { result ≡ are_same_option_values (option_values_of_view options.now) (option_values_of_view others.now) }
{
    is_same_value(options.role, others.role)
        && is_same_value(options.kind, others.kind)
        && is_same_value(options.apparmor_profile, others.apparmor_profile)
        && is_same_value(options.privs, others.privs)
        && is_same_value(options.limitprivs, others.limitprivs)
        && is_same_value(options.notbefore, others.notbefore)
        && is_same_value(options.notafter, others.notafter)
        && is_same_value(options.timeout, others.timeout)
        && is_same_value(options.cwd, others.cwd)
        && is_same_value(options.chroot, others.chroot)
}

/// Returns whether a tag is set the same.
fn is_same_tag(tag: Option<bool>, other: Option<bool>) -> bool
    ensures { result ≡ is_same_tag tag other }
{
    match (tag, other) {
        (None, None) => true,
        (Some(tag), Some(other)) => tag == other,
        _ => false,
    }
}

/// Returns whether each tag is set the same in both.
pub fn are_same_tags(tags: &CommandTags, others: &CommandTags) -> bool
    ensures { result ≡ are_same_tags tags.now others.now }
{
    is_same_tag(tags.exec, others.exec)
        && is_same_tag(tags.follow, others.follow)
        && is_same_tag(tags.intercept, others.intercept)
        && is_same_tag(tags.log_input, others.log_input)
        && is_same_tag(tags.log_output, others.log_output)
        && is_same_tag(tags.mail, others.mail)
        && is_same_tag(tags.passwd, others.passwd)
        && is_same_tag(tags.setenv, others.setenv)
}

/// Returns whether the members are the same, wherever they stand.
fn is_same_member(member: &Member<'_>, other: &Member<'_>) -> bool
    ensures { result ≡ is_same_signed_atom (signed_atom_of_member (member_of_view member.now)) (signed_atom_of_member (member_of_view other.now)) }
{
    member.negated == other.negated
        && are_row_lists_alike(&member.digests, &other.digests)
        && is_same_atom(&member.atom, &other.atom)
}

/// Returns whether the rows allow or forbid the same. Users and hosts do not count.
pub fn is_same_grant(row: &FlatRow<'_>, other: &FlatRow<'_>) -> bool
    ensures { result ≡ is_same_grant (grant_of_view row.now) (grant_of_view other.now) }
{
    is_same_runas_spec(&row.runas, &other.runas)
        && are_same_options(&row.options, &other.options)
        && are_same_tags(&row.tags, &other.tags)
        && is_same_member(&row.member, &other.member)
}

/// Returns whether the sign, the tags and the options of the rows are the same.
pub fn has_same_effect(row: &FlatRow<'_>, other: &FlatRow<'_>) -> bool
    ensures { result ≡ have_same_effect (grant_of_view row.now) (grant_of_view other.now) }
{
    row.member.negated == other.member.negated
        && are_same_tags(&row.tags, &other.tags)
        && are_same_options(&row.options, &other.options)
}

/// Returns whether the rows are the same part by part.
pub fn has_same_parts(row: &FlatRow<'_>, other: &FlatRow<'_>) -> bool
    ensures { result ≡ is_same_flat_row (flat_row_of_view row.now) (flat_row_of_view other.now) }
{
    is_same_flat_list(&row.users, &other.users)
        && is_same_flat_list(&row.hosts, &other.hosts)
        && is_same_grant(row, other)
}

/// Returns whether `row` and `other` say the same.
pub fn is_same_row(row: &FlatRow<'_>, other: &FlatRow<'_>) -> bool
    ensures { (result ≡ true) ↔ (flat_row_of_view row.now ≡ flat_row_of_view other.now) }
{
    has_same_parts(row, other)
}
