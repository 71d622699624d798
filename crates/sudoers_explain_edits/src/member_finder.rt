//! Members that are a user or a denial, in lists and in the aliases of these.

use std::alloc::{AllocError, Global};
use sudoers_grammar::Kind;
use sudoers_line_rows::{
    AliasDefinitionRow, BorrowedAtom, Member, MemberRow, NodeRow, RowsOfTable, rows_in,
};
use sudoers_match_member::is_same_name_ignoring_case;
use sudoers_names::{NameSet, NumbersByName};
use sudoers_tree::{Policy, is_same_kind};

/// What is looked for.
#[derive(Clone, Copy)]
pub enum SearchedMember<'a> {
    /// The user with this name, without `!`.
    User(&'a [u8]),
    /// A member with `!`.
    Denial,
}

/// A finder of members in lists of one kind, with the aliases of this kind in which such a member stands.
#[derive(Drop)]
pub struct MemberFinder<'a> {
    policy: &'a Policy,
    kind: Kind,
    wanted: SearchedMember<'a>,
    aliases: NameSet,
}

/// Returns whether `atom` is the name `user` in a list of the kind `kind`. The name of an alias that is not defined is one.
pub fn is_name_of_user(policy: &Policy, kind: Kind, atom: &BorrowedAtom<'_>, user: &[u8]) -> bool {
    match *atom {
        BorrowedAtom::Name(name) => is_same_name_ignoring_case(name, user),
        BorrowedAtom::Alias(name) => {
            is_same_name_ignoring_case(name, user) && policy.definition(kind, name).is_none()
        }
        _ => false,
    }
}

/// Returns the definitions of aliases of the kind `kind`, in the order of the walk.
fn list_definitions_of_kind(
    policy: &Policy,
    kind: Kind,
) -> Result<Vec<AliasDefinitionRow>, AllocError> {
    let mut definitions = Vec::new(policy.allocator());
    let lines = policy.lines();
    for row in lines.rows {
        if let NodeRow::Alias { kind: own, defs } = row.node
            && is_same_kind(own, kind)
        {
            definitions.extend_from_slice(rows_in(lines.tables.defs.as_slice(), defs))?;
        }
    }
    Ok(definitions)
}

/// Returns for each name the numbers of those of `defs` that have it as a member without `!`.
fn list_mentions(
    alloc: Global,
    defs: &RowsOfTable<'_, AliasDefinitionRow>,
) -> Result<NumbersByName, AllocError> {
    let mut mentions = NumbersByName::new(alloc);
    for (number, row) in defs.rows.iter().enumerate() {
        let def = defs.tables.alias_definition_of_row(row);
        add_mentions_of_members(alloc, &mut mentions, number, &def.members)?;
    }
    Ok(mentions)
}

/// Adds `number` to `mentions` under each alias that is one of `members`, without `!`.
fn add_mentions_of_members(
    alloc: Global,
    mentions: &mut NumbersByName,
    number: usize,
    members: &RowsOfTable<'_, MemberRow>,
) -> Result<(), AllocError> {
    for row in members.rows {
        let member = members.tables.member_of_row(row);
        if let BorrowedAtom::Alias(name) = member.atom
            && !member.negated
        {
            mentions.add_number(alloc, name, number)?;
        }
    }
    Ok(())
}

impl<'a> MemberFinder<'a> {
    /// Returns the finder of `wanted` in lists of the kind `kind`.
    ///
    /// # Errors
    ///
    /// Memory ran out.
    pub fn from_policy(
        policy: &'a Policy,
        kind: Kind,
        wanted: SearchedMember<'a>,
    ) -> Result<MemberFinder<'a>, AllocError> {
        let mut finder = MemberFinder {
            policy,
            kind,
            wanted,
            aliases: NameSet::new(policy.allocator()),
        };
        let rows = list_definitions_of_kind(policy, kind)?;
        finder.add_aliases_of_definitions(&RowsOfTable {
            tables: policy.lines().tables,
            rows: rows.as_slice(),
        })?;
        Ok(finder)
    }

    /// Adds the aliases of `defs` that have a member which is looked for, and then those that mention them.
    fn add_aliases_of_definitions(
        &mut self,
        defs: &RowsOfTable<'_, AliasDefinitionRow>,
    ) -> Result<(), AllocError> {
        let mentions = list_mentions(self.policy.allocator(), defs)?;
        let mut found = self.find_definitions_with_member(defs)?;
        for reached in 0..defs.rows.len() {
            let Some(number) = found.get(reached).copied() else {
                break;
            };
            if let Some(row) = defs.rows.get(number) {
                let def = defs.tables.alias_definition_of_row(row);
                self.add_aliases_with_numbers(
                    defs,
                    mentions.numbers_of_name(def.name),
                    &mut found,
                )?;
            }
        }
        Ok(())
    }

    /// Adds the aliases of `defs` that have a member which is looked for, and returns their numbers.
    fn find_definitions_with_member(
        &mut self,
        defs: &RowsOfTable<'_, AliasDefinitionRow>,
    ) -> Result<Vec<usize>, AllocError> {
        let alloc = self.policy.allocator();
        let mut found = Vec::new(alloc);
        for (number, row) in defs.rows.iter().enumerate() {
            let def = defs.tables.alias_definition_of_row(row);
            if self.has_member_among(&def.members) && self.aliases.add(alloc, def.name)? {
                found.push(number)?;
            }
        }
        Ok(found)
    }

    /// Adds the aliases of those of `defs` that have these numbers. Appends the numbers of the new ones to `found`.
    fn add_aliases_with_numbers(
        &mut self,
        defs: &RowsOfTable<'_, AliasDefinitionRow>,
        numbers: &[usize],
        found: &mut Vec<usize>,
    ) -> Result<(), AllocError> {
        let alloc = self.policy.allocator();
        for number in numbers {
            if let Some(row) = defs.rows.get(*number) {
                let def = defs.tables.alias_definition_of_row(row);
                if self.aliases.add(alloc, def.name)? {
                    found.push(*number)?;
                }
            }
        }
        Ok(())
    }

    /// Returns whether `member` is looked for, or is an alias with such a member.
    pub fn matches_member(&self, member: &Member<'_>) -> bool {
        let is_wanted = match self.wanted {
            SearchedMember::User(user) => {
                !member.negated && is_name_of_user(self.policy, self.kind, &member.atom, user)
            }
            SearchedMember::Denial => member.negated,
        };
        match member.atom {
            BorrowedAtom::Alias(name) => is_wanted || !member.negated && self.aliases.has(name),
            _ => is_wanted,
        }
    }

    /// Returns whether one of `members` is looked for, or is an alias with such a member.
    pub fn has_member_among(&self, members: &RowsOfTable<'_, MemberRow>) -> bool {
        members.rows.iter().any(|row| self.matches_member(&members.tables.member_of_row(row)))
    }
}
