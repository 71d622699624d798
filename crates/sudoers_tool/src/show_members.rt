//! The members of a policy, with their places and numbers.

use crate::files::KeptDisk;
use crate::json_output::{JSON, write_document};
use clap::{Arg, ArgAction, ArgMatches};
use std::alloc::{AllocError, Global};
use sudoers_explain_edits::ShownLine;
use sudoers_files::gather;
use sudoers_grammar::{Kind, alias_keyword_of_kind};
use sudoers_run::{LayerFault, ToolFault};
use sudoers_text::append_decimal_number;
use sudoers_tree::{
    AliasDefinitionRow, HostGroup, HostGroupRow, Line, Member, MemberRow, Node, Policy,
    RowsOfTable, lf_count,
};

/// The flag that asks for the members.
const MEMBERS: &str = "members";

/// Members as they are shown, one on a line.
#[derive(Drop)]
struct ShownMembers {
    alloc: Global,
    text: Vec<u8>,
}

/// Returns the flag that asks for the members.
pub fn make_members_flag<'a>(alloc: Global) -> Result<Arg<'a>, AllocError> {
    Arg::new(alloc, MEMBERS)
        .long(MEMBERS)
        .action(ArgAction::SetTrue)
        .help(
            "Print each member of aliases and rules instead: its place, its list with its number there, and its text, with tabs between them",
        )
        .conflicts_with(JSON)
}

/// Returns whether `words` ask for the members.
pub fn are_members_asked(words: &ArgMatches<'_>) -> bool {
    words.get_flag(MEMBERS)
}

/// Shows the members of the policy `root`.
pub fn run_show_members(
    rt: &HostRuntime,
    root: &str,
    files: &mut KeptDisk,
) -> Result<u8, ToolFault> {
    let alloc = rt.alloc();
    let found = gather(alloc, root.as_bytes(), files).map_err(LayerFault::from)?;
    let policy = Policy::load(alloc, found.as_slice()).map_err(LayerFault::from)?;
    let mut shown = ShownMembers {
        alloc,
        text: Vec::new(alloc),
    };
    for file in 0..policy.files() {
        shown.append_file(&policy, file)?;
    }
    write_document(rt, shown.text.as_slice())?;
    Ok(0)
}

impl ShownMembers {
    /// Appends the members of the file `file`.
    fn append_file(&mut self, policy: &Policy, file: usize) -> Result<(), AllocError> {
        let lines = policy.lines_of_file(file);
        let mut row: usize = 1;
        for line_row in lines.rows {
            let says = Line::from_line_row(lines.tables, line_row);
            let line = ShownLine {
                file: policy.file_name(file),
                row,
                text: says.text,
            };
            self.append_line(line, &says.node)?;
            row = row.saturating_add(lf_count(says.text));
        }
        Ok(())
    }

    /// Appends the members of the line `line`, which says `node`.
    fn append_line(&mut self, line: ShownLine<'_>, node: &Node<'_>) -> Result<(), AllocError> {
        match node {
            Node::Alias { kind, defs } => self.append_definitions(line, *kind, defs),
            Node::Spec { users, groups } => {
                self.append_list(line, b"rule users ", users)?;
                self.append_host_groups(line, groups)
            }
            _ => Ok(()),
        }
    }

    /// Appends the members of the definitions `defs`.
    fn append_definitions(
        &mut self,
        line: ShownLine<'_>,
        kind: Kind,
        defs: &RowsOfTable<'_, AliasDefinitionRow>,
    ) -> Result<(), AllocError> {
        for row in defs.rows {
            let def = defs.tables.alias_definition_of_row(row);
            let mut label = Vec::from_slice(self.alloc, alias_keyword_of_kind(kind))?;
            label.push(b' ')?;
            label.extend_from_slice(def.name)?;
            label.push(b' ')?;
            self.append_list(line, label.as_slice(), &def.members)?;
        }
        Ok(())
    }

    /// Appends the hosts and the commands of the host groups `groups`.
    fn append_host_groups(
        &mut self,
        line: ShownLine<'_>,
        groups: &RowsOfTable<'_, HostGroupRow>,
    ) -> Result<(), AllocError> {
        for (place, row) in groups.rows.iter().enumerate() {
            let group = groups.tables.host_group_of_row(row);
            let hosts = self.make_group_label(b"rule hosts ", place)?;
            self.append_list(line, hosts.as_slice(), &group.hosts)?;
            let commands = self.make_group_label(b"rule commands ", place)?;
            self.append_commands(line, commands.as_slice(), &group)?;
        }
        Ok(())
    }

    /// Returns the label `word` of a list of the host group with the number `place`, from 0.
    fn make_group_label(&self, word: &[u8], place: usize) -> Result<Vec<u8>, AllocError> {
        let mut label = Vec::from_slice(self.alloc, word)?;
        append_decimal_number(self.alloc, &mut label, place.saturating_add(1))?;
        label.push(b'.')?;
        Ok(label)
    }

    /// Appends the commands of the host group `group`.
    fn append_commands(
        &mut self,
        line: ShownLine<'_>,
        label: &[u8],
        group: &HostGroup<'_>,
    ) -> Result<(), AllocError> {
        for (place, row) in group.commands.rows.iter().enumerate() {
            let member = group.commands.tables.command_of_row(row).member;
            self.append_member(line, &member, label, place)?;
        }
        Ok(())
    }

    /// Appends the members `members`.
    fn append_list(
        &mut self,
        line: ShownLine<'_>,
        label: &[u8],
        members: &RowsOfTable<'_, MemberRow>,
    ) -> Result<(), AllocError> {
        for (place, row) in members.rows.iter().enumerate() {
            let member = members.tables.member_of_row(row);
            self.append_member(line, &member, label, place)?;
        }
        Ok(())
    }

    /// Appends the place and the text of `member` of the line, the label `label`, and the number `place`, from 0.
    fn append_member(
        &mut self,
        line: ShownLine<'_>,
        member: &Member<'_>,
        label: &[u8],
        place: usize,
    ) -> Result<(), AllocError> {
        line.append_place(self.alloc, &mut self.text, member.start)?;
        self.text.push(b'\t')?;
        self.text.extend_from_slice(label)?;
        append_decimal_number(self.alloc, &mut self.text, place.saturating_add(1))?;
        self.text.push(b'\t')?;
        line.append_bytes_between(&mut self.text, member.start, member.stop)?;
        Ok(self.text.push(b'\n')?)
    }
}
