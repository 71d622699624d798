//! Notes about what may still concern users who leave a policy.

use crate::member_finder::{MemberFinder, SearchedMember, is_name_of_user};
use crate::shown_lines::ShownLine;
use std::alloc::{AllocError, Global};
use sudoers_explain::make_shown_row;
use sudoers_grammar::Kind;
use sudoers_line_rows::{
    AliasDefinitionRow, BorrowedAtom, CommandRow, HostGroup, HostGroupRow, Member, MemberRow, Node,
    RowsOfTable,
};
use sudoers_plan::Wish;
use sudoers_text::append_decimal_number;
use sudoers_tree::{Line, Policy};

/// How many notes a call prints.
const MOST_NOTES: usize = 32;

/// What is said before the name of a user, of the first denied command of a rule that this user leaves.
const DENIED_COMMANDS: &[u8] = b"the rule denied commands to ";

/// A list of which members are noted.
#[derive(Clone, Copy)]
enum NotedList {
    /// The users of a rule, or the members of a User_Alias.
    Users,
    /// The scope of a Defaults line, with members of this kind.
    Scope(Kind),
    /// The users as whom a rule lets commands run.
    Runas,
    /// The members of a Runas_Alias.
    RunasAlias,
}

/// A user who leaves a policy.
#[derive(Drop)]
struct LeavingUser<'a> {
    policy: &'a Policy,
    name: &'a [u8],
    /// Finds the user in lists of users.
    named: MemberFinder<'a>,
    /// Finds denied commands.
    denied: MemberFinder<'a>,
}

/// Notes, one on a line.
#[derive(Drop)]
struct UserNotes<'a> {
    alloc: Global,
    /// What each line begins with.
    start: &'a [u8],
    text: Vec<u8>,
    /// How many notes there are, also those that are not in the text.
    count: usize,
}

/// Returns notes about what may still concern the users whom `wishes` remove from `policy`: lines, each with `start` before it.
///
/// # Errors
///
/// Memory ran out.
pub fn make_user_notes(
    policy: &Policy,
    wishes: &[Wish],
    start: &[u8],
) -> Result<Vec<u8>, AllocError> {
    let alloc = policy.allocator();
    let mut notes = UserNotes {
        alloc,
        start,
        text: Vec::new(alloc),
        count: 0,
    };
    for wish in wishes {
        if let Wish::NoUser { user, .. } = wish {
            notes.append_notes_of_user(&find_leaving_user(policy, user.as_slice())?)?;
        }
    }
    notes.append_count_of_others()?;
    Ok(notes.text)
}

/// Returns the user `name`, who leaves `policy`.
fn find_leaving_user<'a>(
    policy: &'a Policy,
    name: &'a [u8],
) -> Result<LeavingUser<'a>, AllocError> {
    Ok(LeavingUser {
        policy,
        name,
        named: MemberFinder::from_policy(policy, Kind::User, SearchedMember::User(name))?,
        denied: MemberFinder::from_policy(policy, Kind::Cmnd, SearchedMember::Denial)?,
    })
}

/// Returns what is said of a user after the name, where `atom` may be this user among others.
fn words_of_wider_atom(atom: &BorrowedAtom<'_>) -> Option<&'static [u8]> {
    match atom {
        BorrowedAtom::All => Some(b" is one of all users"),
        BorrowedAtom::Id(_) => Some(b" may have this ID"),
        BorrowedAtom::Group(_) | BorrowedAtom::GroupId(_) | BorrowedAtom::NonUnix(_) => {
            Some(b" may be in this group")
        }
        BorrowedAtom::Netgroup(_) => Some(b" may be in this netgroup"),
        _ => None,
    }
}

impl UserNotes<'_> {
    /// Appends the notes about `user`, in the order of the walk.
    fn append_notes_of_user(&mut self, user: &LeavingUser<'_>) -> Result<(), AllocError> {
        let lines = user.policy.lines();
        for (row, spot) in lines
            .rows
            .iter()
            .zip(user.policy.spots_of_walk_lines().iter())
        {
            let says = Line::from_line_row(lines.tables, row);
            let line = ShownLine {
                file: user.policy.file_name(spot.file),
                row: spot.row,
                text: says.text,
            };
            self.append_notes_of_line(line, &says.node, user)?;
        }
        Ok(())
    }

    /// Appends the notes about `user` of the line `line`, which says `node`.
    fn append_notes_of_line(
        &mut self,
        line: ShownLine<'_>,
        node: &Node<'_>,
        user: &LeavingUser<'_>,
    ) -> Result<(), AllocError> {
        match node {
            Node::Alias { kind, defs } => self.append_notes_of_definitions(line, *kind, defs, user),
            Node::Spec { users, groups } => {
                self.append_notes_of_members(line, users, NotedList::Users, user)?;
                if user.named.has_member_among(users) {
                    self.append_first_denial(line, groups, user)?;
                }
                self.append_notes_of_host_groups(line, groups, user)
            }
            Node::Defaults {
                scope: Some(scope),
                ..
            } => {
                let list = NotedList::Scope(scope.kind);
                self.append_notes_of_members(line, &scope.members, list, user)
            }
            _ => Ok(()),
        }
    }

    /// Appends the notes about `user` of the definitions `defs` of aliases of the kind `kind`.
    fn append_notes_of_definitions(
        &mut self,
        line: ShownLine<'_>,
        kind: Kind,
        defs: &RowsOfTable<'_, AliasDefinitionRow>,
        user: &LeavingUser<'_>,
    ) -> Result<(), AllocError> {
        let list = match kind {
            Kind::User => NotedList::Users,
            Kind::Runas => NotedList::RunasAlias,
            _ => return Ok(()),
        };
        for row in defs.rows {
            let members = defs.tables.alias_definition_of_row(row).members;
            self.append_notes_of_members(line, &members, list, user)?;
        }
        Ok(())
    }

    /// Appends the notes about `user` of the runas lists of the host groups `groups`.
    fn append_notes_of_host_groups(
        &mut self,
        line: ShownLine<'_>,
        groups: &RowsOfTable<'_, HostGroupRow>,
        user: &LeavingUser<'_>,
    ) -> Result<(), AllocError> {
        for row in groups.rows {
            let group = groups.tables.host_group_of_row(row);
            self.append_notes_of_commands(line, &group.commands, user)?;
        }
        Ok(())
    }

    /// Appends the notes about `user` of the runas lists of the commands `commands`.
    fn append_notes_of_commands(
        &mut self,
        line: ShownLine<'_>,
        commands: &RowsOfTable<'_, CommandRow>,
        user: &LeavingUser<'_>,
    ) -> Result<(), AllocError> {
        for row in commands.rows {
            if let Some(runas) = commands.tables.command_of_row(row).runas {
                self.append_notes_of_members(line, &runas.users, NotedList::Runas, user)?;
            }
        }
        Ok(())
    }

    /// Appends the notes about `user` of the members `members` of the list `list`.
    fn append_notes_of_members(
        &mut self,
        line: ShownLine<'_>,
        members: &RowsOfTable<'_, MemberRow>,
        list: NotedList,
        user: &LeavingUser<'_>,
    ) -> Result<(), AllocError> {
        for row in members.rows {
            let member = members.tables.member_of_row(row);
            if let Some(words) = user.words_of_member(&member.atom, list) {
                self.append_note(line, &member, user.name, words)?;
            }
        }
        Ok(())
    }

    /// Appends a note for the first command of a rule of `user` that is denied, if there is one.
    fn append_first_denial(
        &mut self,
        line: ShownLine<'_>,
        groups: &RowsOfTable<'_, HostGroupRow>,
        user: &LeavingUser<'_>,
    ) -> Result<(), AllocError> {
        for row in groups.rows {
            let group = groups.tables.host_group_of_row(row);
            if let Some(member) = user.find_denied_command(&group) {
                return self.append_note(line, &member, DENIED_COMMANDS, user.name);
            }
        }
        Ok(())
    }

    /// Appends a note about the member `member` of the line: the words `words`, and then `end`.
    fn append_note(
        &mut self,
        line: ShownLine<'_>,
        member: &Member<'_>,
        words: &[u8],
        end: &[u8],
    ) -> Result<(), AllocError> {
        self.count = self.count.saturating_add(1);
        if self.count > MOST_NOTES {
            return Ok(());
        }
        let mut note = Vec::new(self.alloc);
        line.append_place(self.alloc, &mut note, member.start)?;
        note.extend_from_slice(b": ")?;
        line.append_bytes_between(&mut note, member.start, member.stop)?;
        note.extend_from_slice(b": ")?;
        note.extend_from_slice(words)?;
        note.extend_from_slice(end)?;
        self.append_line(note.as_slice())
    }

    /// Appends how many notes there are besides those in the text, if there are any.
    fn append_count_of_others(&mut self) -> Result<(), AllocError> {
        if self.count <= MOST_NOTES {
            return Ok(());
        }
        let mut note = Vec::from_slice(self.alloc, b".. and ")?;
        append_decimal_number(self.alloc, &mut note, self.count.saturating_sub(MOST_NOTES))?;
        note.extend_from_slice(b" more")?;
        self.append_line(note.as_slice())
    }

    /// Appends the line `note`, with what each line begins with before it.
    fn append_line(&mut self, note: &[u8]) -> Result<(), AllocError> {
        let shown = make_shown_row(self.alloc, note)?;
        self.text.extend_from_slice(self.start)?;
        self.text.extend_from_slice(shown.as_slice())?;
        self.text.extend_from_slice(b"\n")
    }
}

impl LeavingUser<'_> {
    /// Returns what is said of this user after the name, where the list `list` has `atom` as a member.
    fn words_of_member(&self, atom: &BorrowedAtom<'_>, list: NotedList) -> Option<&'static [u8]> {
        match list {
            NotedList::Users => words_of_wider_atom(atom),
            NotedList::Scope(kind) if self.is_named_by(atom, kind) => {
                Some(b" stays in the scope of a Defaults line")
            }
            NotedList::Scope(Kind::User) => words_of_wider_atom(atom),
            NotedList::Runas if self.is_named_by(atom, Kind::Runas) => Some(
                b" stays in a runas list",
            ),
            NotedList::RunasAlias if self.is_named_by(atom, Kind::Runas) => {
                Some(b" stays in a Runas_Alias")
            }
            _ => None,
        }
    }

    /// Returns whether `atom` is the name of this user in a list of the kind `kind`.
    fn is_named_by(&self, atom: &BorrowedAtom<'_>, kind: Kind) -> bool {
        matches!(kind, Kind::User | Kind::Runas)
            && is_name_of_user(self.policy, kind, atom, self.name)
    }

    /// Returns the first command of the host group `group` that is denied.
    fn find_denied_command<'b>(&self, group: &HostGroup<'b>) -> Option<Member<'b>> {
        for row in group.commands.rows {
            let member = group.commands.tables.command_of_row(row).member;
            if self.denied.matches_member(&member) {
                return Some(member);
            }
        }
        None
    }
}
