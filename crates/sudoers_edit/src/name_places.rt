//! Where the name of an alias stands in a line.
ghost use Rattle.std.specs.Prelude.{◌≡◌, ◌++◌, IfOk, OnOk};
ghost use Rattle.std.specs.List.{flat_map};
ghost use Rattle.sudoers_line_rows.specs.View.{alias_definition_of_view, alias_definitions_of_view, members_of_view, node_of_view};
ghost use Rattle.sudoers_edit.specs.internal.NameOffsets.{name_offset_if_alias_member_matches, mention_offsets_in_members, name_offsets_in_definition, name_offsets_in_line};

use std::alloc::{AllocError, Global};
use sudoers_tree::{
    AliasDefinitionRow, AliasMember, Def, Kind, MemberRow, Node, RowsOfTable, find_alias_members,
    find_aliases_in_list, is_same_kind,
};

/// Returns the offsets at which `name` stands as the name of an alias of the kind `kind` in a line that says `node`.
pub fn find_alias_name_offsets(
    alloc: Global,
    kind: Kind,
    name: &[u8],
    node: &Node<'_>,
) -> Result<Vec<usize>, AllocError>
    ensures { IfOk result (λ starts. starts.items ≡ name_offsets_in_line kind name.now (node_of_view node.now)) }
{
    let mut starts = Vec::new(alloc);
    match *node {
        Node::Alias { kind: other, defs } => {
            if is_same_kind(kind, other) {
                append_offsets_in_definitions(alloc, kind, name, &defs, &mut starts)?;
            }
            Ok(starts)
        }
        _ => {
            let aliases = find_alias_members(alloc, node)?;
            append_offsets_of_matching_aliases(kind, name, aliases.as_slice(), &mut starts)?;
            Ok(starts)
        }
    }
}

/// Adds where those of the aliases stand that have this kind and this name.
fn append_offsets_of_matching_aliases(
    kind: Kind,
    name: &[u8],
    aliases: &[AliasMember<'_>],
    starts: &mut Vec<usize>,
) -> Result<(), AllocError>
    ensures { OnOk result (starts.new.items ≡ starts.old.items ++ flat_map (name_offset_if_alias_member_matches kind name.now) aliases.now) }
{
    for alias in aliases {
        if is_same_kind(kind, alias.kind) && name == alias.name {
            starts.push(alias.stop.saturating_sub(name.len()))?;
        }
    }
    Ok(())
}

/// Adds where the name stands in definitions.
fn append_offsets_in_definitions(
    alloc: Global,
    kind: Kind,
    name: &[u8],
    defs: &RowsOfTable<'_, AliasDefinitionRow>,
    starts: &mut Vec<usize>,
) -> Result<(), AllocError>
    ensures { OnOk result (starts.new.items ≡ starts.old.items ++ flat_map (name_offsets_in_definition name.now) (alias_definitions_of_view defs.now)) }
{
    for row in defs.rows {
        append_offsets_in_definition(
            alloc,
            kind,
            name,
            &defs.tables.alias_definition_of_row(row),
            starts,
        )?;
    }
    Ok(())
}

fn append_offsets_in_definition(
    alloc: Global,
    kind: Kind,
    name: &[u8],
    def: &Def<'_>,
    starts: &mut Vec<usize>,
) -> Result<(), AllocError>
    ensures { OnOk result (starts.new.items ≡ starts.old.items ++ name_offsets_in_definition name.now (alias_definition_of_view def.now)) }
{
    if name == def.name {
        starts.push(def.start)?;
    }
    append_offsets_in_members(alloc, kind, name, &def.members, starts)
}

#[tactic(auto, using(crate::proofs::StartLemmas::offsets_of_listed_members_are_mentions))]
fn append_offsets_in_members(
    alloc: Global,
    kind: Kind,
    name: &[u8],
    members: &RowsOfTable<'_, MemberRow>,
    starts: &mut Vec<usize>,
) -> Result<(), AllocError>
    ensures { OnOk result (starts.new.items ≡ starts.old.items ++ mention_offsets_in_members name.now (members_of_view members.now)) }
{
    let aliases = find_aliases_in_list(alloc, kind, members)?;
    append_offsets_of_matching_aliases(kind, name, aliases.as_slice(), starts)
}
