//! What a user may run on a host, with the place of each command.

use crate::defaults_of_user::{DefaultsOfUser, append_defaults_of_user, list_defaults_of_user};
use crate::placed_text::{
    PlacedText, WalkPlace, append_joined_text, append_placed_lines, make_placed_command,
    place_of_member,
};
use crate::rights_fault::RightsFault;
use crate::undecided_lines::append_undecided_lines;
use std::alloc::{AllocError, Global};
use sudoers_cvt_rules::print_command;
use sudoers_cvt_spell::append_printed_member_list;
use sudoers_line_rows::{
    CommandRow, HostGroupRow, Member, MemberRow, Node, RowsOfTable, RunasSpec, Tables,
};
use sudoers_list::{UserAndRunasDefaultNames, append_runas_name};
use sudoers_match::{
    CommandSettings, HostGroupPlace, find_places_of_matching_host_groups, find_runas_default_for,
};
use sudoers_match_list::{AcyclicWalk, ExpansionSource, flatten_member_list};
use sudoers_match_member::Who;
use sudoers_tree::{Kind, Policy};
use sudoers_undecided::{UndecidedMember, list_undecided_members_of_rights};

/// A user specification: the number of its line on the walk, from 0, and its host groups.
#[derive(Drop)]
struct SpecOnLine<'a> {
    line: usize,
    groups: RowsOfTable<'a, HostGroupRow>,
}

/// The policy of a listing, and what is the same on all its lines.
#[derive(Drop)]
struct Listing<'a, 'b, 'c> {
    source: ExpansionSource<'a, 'b>,
    user: &'c [u8],
    default: &'a [u8],
}

/// What a user may run, as a text, and whether he may run anything.
#[derive(Drop)]
pub struct RightsText {
    pub text: Vec<u8>,
    pub has_any: bool,
    /// The members that were not decided and could have changed where the user has rules, or which Defaults lines hold of him, a line for
    /// each.
    pub undecided: Vec<u8>,
}

/// What a user may run: his commands, the Defaults lines that hold of him, and whether he may run anything.
#[derive(Drop)]
pub struct Rights<'a> {
    pub commands: Vec<PlacedText>,
    pub defaults: DefaultsOfUser,
    pub has_any: bool,
    /// The members that were not decided and could have changed where the user has rules, or which Defaults lines hold of him.
    pub undecided: Vec<UndecidedMember<'a>>,
}

/// Returns what `who` may run by `policy`: each command of the host groups whose users and hosts match, and the Defaults lines that hold of
/// him. With `expand` a command that names an alias is there as each of its members, and aliases of runas users and groups are replaced too.
///
/// # Errors
///
/// `Cycle`: a reachable alias is cyclic. `TooLarge`: a list has more than 65,536 members when its aliases are replaced. `NoMemory`: memory
/// ran out.
pub fn list_rights<'a>(
    alloc: Global,
    policy: &'a Policy,
    who: &Who,
    expand: bool,
) -> Result<Rights<'a>, RightsFault> {
    let acyclic = AcyclicWalk::new(alloc, policy.walk())?;
    let default = find_runas_default_for(alloc, &acyclic, who)?;
    let listing = Listing {
        source: ExpansionSource::new(alloc, &acyclic, expand)?,
        user: who.user.name.as_slice(),
        default,
    };
    let places = find_places_of_matching_host_groups(alloc, &acyclic, who)?;
    let mut commands = Vec::new(alloc);
    listing.append_host_groups(alloc, &mut commands, places.as_slice())?;
    Ok(Rights {
        commands,
        defaults: list_defaults_of_user(alloc, &acyclic, who)?,
        has_any: !places.is_empty(),
        undecided: list_undecided_members_of_rights(alloc, &acyclic, who)?,
    })
}

/// Returns what `who` may run by `policy`, as [`list_rights`] lists it, as a text: a heading, a line for each command with its place, and the
/// Defaults lines.
///
/// # Errors
///
/// Those of [`list_rights`].
pub fn list_rights_with_places(
    alloc: Global,
    policy: &Policy,
    who: &Who,
    expand: bool,
) -> Result<RightsText, RightsFault> {
    let rights = list_rights(alloc, policy, who, expand)?;
    let mut text = Vec::new(alloc);
    append_heading(alloc, &mut text, policy, who, !rights.has_any)?;
    append_placed_lines(alloc, &mut text, policy, rights.commands.as_slice())?;
    append_defaults_of_user(alloc, &mut text, policy, &rights.defaults)?;
    let mut undecided = Vec::new(alloc);
    append_undecided_lines(
        alloc,
        &mut undecided,
        policy,
        rights.undecided.as_slice(),
        b"",
    )?;
    Ok(RightsText {
        text,
        has_any: rights.has_any,
        undecided,
    })
}

/// Appends the first line: the user and the host, and whether he may run `nothing` there.
fn append_heading(
    alloc: Global,
    out: &mut Vec<u8>,
    policy: &Policy,
    who: &Who,
    nothing: bool,
) -> Result<(), AllocError> {
    append_runas_name(alloc, out, policy.lines().tables, who.user.name.as_slice())?;
    out.extend_from_slice(if nothing {
        b" may run nothing on "
    } else {
        b" on "
    })?;
    out.extend_from_slice(who.long_host.as_slice())?;
    out.extend_from_slice(if nothing { b".\n" } else { b":\n" })
}

/// Returns the user specifications of the lines of `policy`.
fn list_specs<'a>(
    alloc: Global,
    policy: &AcyclicWalk<'a>,
) -> Result<Vec<SpecOnLine<'a>>, AllocError> {
    let mut specs = Vec::new(alloc);
    let lines = policy.lines();
    for (line, row) in lines.rows.iter().enumerate() {
        if let Node::Spec { groups, .. } = lines.tables.node_of_row(&row.node) {
            specs.push(SpecOnLine { line, groups })?;
        }
    }
    Ok(specs)
}

impl<'a, 'b, 'c> Listing<'a, 'b, 'c> {
    /// Appends the commands of the host groups at `places`.
    fn append_host_groups(
        &self,
        alloc: Global,
        out: &mut Vec<PlacedText>,
        places: &[HostGroupPlace],
    ) -> Result<(), RightsFault> {
        let specs = list_specs(alloc, self.source.policy)?;
        for place in places {
            if let Some(spec) = specs.get(place.spec)
                && let Some(row) = spec.groups.rows.get(place.host_group)
            {
                let group = spec.groups.tables.host_group_of_row(row);
                self.append_commands(alloc, out, spec.line, &group.commands)?;
            }
        }
        Ok(())
    }

    /// Appends the commands `commands`, which stand on the line with the number `line`.
    fn append_commands(
        &self,
        alloc: Global,
        out: &mut Vec<PlacedText>,
        line: usize,
        commands: &RowsOfTable<'a, CommandRow>,
    ) -> Result<(), RightsFault> {
        let mut head = CommandSettings::make_empty_settings();
        let tables = commands.tables;
        for row in commands.rows {
            head.apply_settings_of_command(&tables.command_of_row(row));
            let member = tables.member_of_row(&row.member);
            if self.source.expand {
                let place = place_of_member(line, &member);
                self.append_expanded_command(alloc, out, place, &head, tables, &row.member)?;
            } else {
                self.append_command(alloc, out, line, &head, &member)?;
            }
        }
        Ok(())
    }

    /// Appends each command to which the member `member` leads, which stands at `place`. What stands before it is `head`.
    fn append_expanded_command(
        &self,
        alloc: Global,
        out: &mut Vec<PlacedText>,
        place: WalkPlace,
        head: &CommandSettings<'a>,
        tables: &'a Tables,
        member: &'a MemberRow,
    ) -> Result<(), RightsFault> {
        let flat = flatten_member_list(
            alloc,
            &self.source,
            Kind::Cmnd,
            std::slice::from_ref(member),
        )?;
        let runas = self.make_expanded_runas(alloc, tables, &head.runas)?;
        let bare = CommandSettings {
            runas: None,
            options: head.options,
            tags: head.tags,
        };
        for row in flat.as_slice() {
            let command = print_command(alloc, &bare, &tables.member_of_row(row))?;
            append_joined_text(alloc, out, place, runas.as_slice(), command.as_slice())?;
        }
        Ok(())
    }

    /// Returns as whom a command with `runas` is listed, with the members of aliases in place of their names, and a blank.
    fn make_expanded_runas(
        &self,
        alloc: Global,
        tables: &'a Tables,
        runas: &Option<RunasSpec<'a>>,
    ) -> Result<Vec<u8>, RightsFault> {
        let mut out = Vec::from_slice(alloc, b"(")?;
        match runas {
            None => append_runas_name(alloc, &mut out, tables, self.default)?,
            Some(runas) => {
                if runas.users.rows.is_empty() {
                    append_runas_name(alloc, &mut out, tables, self.user)?;
                } else {
                    self.append_expanded_list(alloc, &mut out, &runas.users)?;
                }
                if !runas.groups.rows.is_empty() {
                    out.extend_from_slice(b" : ")?;
                    self.append_expanded_list(alloc, &mut out, &runas.groups)?;
                }
            }
        }
        out.extend_from_slice(b") ")?;
        Ok(out)
    }

    /// Appends the list `list` of runas users or groups, with the members of aliases in place of their names.
    fn append_expanded_list(
        &self,
        alloc: Global,
        out: &mut Vec<u8>,
        list: &RowsOfTable<'a, MemberRow>,
    ) -> Result<(), RightsFault> {
        let flat = flatten_member_list(alloc, &self.source, Kind::Runas, list.rows)?;
        append_runas_rows(alloc, out, list.tables, flat.as_slice())?;
        Ok(())
    }

    /// Appends the command `member`, which stands on the line with the number `line`, and before which `head` holds.
    fn append_command(
        &self,
        alloc: Global,
        out: &mut Vec<PlacedText>,
        line: usize,
        head: &CommandSettings<'_>,
        member: &Member<'_>,
    ) -> Result<(), AllocError> {
        let names = UserAndRunasDefaultNames {
            user: self.user,
            default: self.default,
        };
        out.push(make_placed_command(alloc, line, &names, head, member)?)?;
        Ok(())
    }
}

/// Appends the members `rows` of a list of runas users or groups.
fn append_runas_rows(
    alloc: Global,
    out: &mut Vec<u8>,
    tables: &Tables,
    rows: &[MemberRow],
) -> Result<(), AllocError> {
    append_printed_member_list(
        alloc,
        out,
        false,
        Kind::Runas,
        &RowsOfTable { tables, rows },
    )
}
