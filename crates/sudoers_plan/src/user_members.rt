//! Which members of lists are a user's.

ghost use Rattle.std.specs.Prelude.{◌≡◌, map, not, IfOk};
ghost use Rattle.std.specs.List.{filter, list_any, list_all};
ghost use Rattle.std.specs.Option.{option_copied};
ghost use Rattle.sudoers_line_rows.specs.Tables.{member_in_tables};
ghost use Rattle.sudoers_line_rows.specs.View.{atom_of_view, members_of_view};
ghost use Rattle.sudoers_plan.specs.Numbers.{numbers_of_passing};
ghost use Rattle.sudoers_plan.specs.User.{is_atom_of_user, is_member_of_user, is_name_of_user, is_user_alias_defined, is_user_denied_in_list};

use std::alloc::{AllocError, Global};
use sudoers_grammar::Kind;
use sudoers_line_rows::{BorrowedAtom, MemberRow, RowsOfTable, Tables, convert_offset_to_u32};
use sudoers_match_member::is_same_name_ignoring_case;
use sudoers_names::NameSet;
use sudoers_tree::Policy;

/// How many members of a list are asked for.
#[derive(Clone, Copy)]
pub enum ListPart {
    /// Any of them.
    Any,
    /// All of them, and one at least.
    All,
}

/// A test of members: a member passes that is the name of the user, if there is one, or one of the aliases.
#[derive(Clone, Copy)]
pub struct UserMembers<'a> {
    pub policy: &'a Policy,
    pub user: Option<&'a [u8]>,
    pub aliases: &'a NameSet,
}

impl UserMembers<'_> {
    /// Returns whether the name is the user's.
    fn is_user(&self, name: &[u8]) -> bool
        ensures { result ≡ is_name_of_user (option_copied self.now.user) name.now }
    {
        match self.user {
            Some(user) => is_same_name_ignoring_case(name, user),
            None => false,
        }
    }

    /// Returns whether an alias of users has this name.
    fn is_defined(&self, name: &[u8]) -> bool
        ensures { result ≡ is_user_alias_defined self.now.policy.now.walk.lines name.now }
    {
        self.policy
            .walk()
            .place_of_definition(Kind::User, name)
            .is_some()
    }

    /// Returns whether what a member is passes.
    fn has_atom(&self, atom: &BorrowedAtom<'_>) -> bool
        ensures { result ≡ is_atom_of_user (option_copied self.now.user) self.now.policy.now.walk.lines self.now.aliases.now (atom_of_view atom.now) }
    {
        match *atom {
            BorrowedAtom::Name(name) => self.is_user(name),
            BorrowedAtom::Alias(name) => {
                self.aliases.has(name) || self.is_user(name) && !self.is_defined(name)
            }
            _ => false,
        }
    }

    /// Returns whether the member passes.
    pub fn has(&self, tables: &Tables, row: &MemberRow) -> bool
        ensures { result ≡ is_member_of_user (option_copied self.now.user) self.now.policy.now.walk.lines self.now.aliases.now (member_in_tables tables.now row.now) }
    {
        self.has_atom(&tables.member_of_row(row).atom)
    }

    /// Returns whether any of `members` passes.
    pub fn has_any(&self, members: &RowsOfTable<'_, MemberRow>) -> bool
        ensures { result ≡ list_any (is_member_of_user (option_copied self.now.user) self.now.policy.now.walk.lines self.now.aliases.now) (members_of_view members.now) }
    {
        let mut left = members.rows;
        while let Some((row, behind)) = left.split_first() {
            if self.has(members.tables, row) {
                return true;
            }
            left = behind;
        }
        false
    }

    /// Returns whether all of `members` pass.
    pub fn has_all(&self, members: &RowsOfTable<'_, MemberRow>) -> bool
        ensures { result ≡ list_all (is_member_of_user (option_copied self.now.user) self.now.policy.now.walk.lines self.now.aliases.now) (members_of_view members.now) }
    {
        let mut left = members.rows;
        while let Some((row, behind)) = left.split_first() {
            if !self.has(members.tables, row) {
                return false;
            }
            left = behind;
        }
        true
    }

    /// Returns whether a negated one of `members` passes.
    pub fn has_negated(&self, members: &RowsOfTable<'_, MemberRow>) -> bool
        ensures { result ≡ is_user_denied_in_list (option_copied self.now.user) self.now.policy.now.walk.lines self.now.aliases.now (members_of_view members.now) }
    {
        let mut left = members.rows;
        while let Some((row, behind)) = left.split_first() {
            if members.tables.member_of_row(row).negated && self.has(members.tables, row) {
                return true;
            }
            left = behind;
        }
        false
    }

    /// Returns the numbers, from 0, of those of `members` that pass.
    pub fn list_numbers(
        &self,
        alloc: Global,
        members: &RowsOfTable<'_, MemberRow>,
    ) -> Result<Vec<u32>, AllocError>
        ensures { IfOk result (λ numbers. numbers.items
            ≡ numbers_of_passing (is_member_of_user (option_copied self.now.user) self.now.policy.now.walk.lines self.now.aliases.now) 0 (members_of_view members.now)) }
    {
        let mut numbers = Vec::new(alloc);
        for (number, row) in members.rows.iter().enumerate() {
            if self.has(members.tables, row) {
                numbers.push(convert_offset_to_u32(number)?)?;
            }
        }
        Ok(numbers)
    }

    /// Returns those of `members` that do not pass.
    pub fn list_others(
        &self,
        alloc: Global,
        members: &RowsOfTable<'_, MemberRow>,
    ) -> Result<Vec<MemberRow>, AllocError>
        ensures { IfOk result (λ others. map (member_in_tables members.now.tables.now) others.items
            ≡ filter (λ m. not (is_member_of_user (option_copied self.now.user) self.now.policy.now.walk.lines self.now.aliases.now m)) (members_of_view members.now)) }
    {
        let mut others = Vec::new(alloc);
        for row in members.rows {
            if !self.has(members.tables, row) {
                others.push(*row)?;
            }
        }
        Ok(others)
    }
}
