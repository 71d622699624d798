//! Mentions of aliases.

ghost use Rattle.std.specs.Prelude.{◌≡◌, ◌++◌, OnOk};
ghost use Rattle.std.specs.List.{flat_map};
ghost use Rattle.sudoers_line_rows.specs.View.{node_of_view};
ghost use Rattle.sudoers_tree.specs.Definition.{is_equal_kind as same_kind};
ghost use Rattle.sudoers_tree.specs.Mention.{mentions_in_line, mention_span_if_alias_named};

use crate::place::Span;
use std::alloc::{AllocError, Global};
use sudoers_grammar::{AliasMember, Kind};
use sudoers_line_rows::{Node, find_alias_members};

/// Appends where the line with the number `line`, from 0, mentions the name `name` in a list of the kind `kind`. The line says `node`.
///
/// # Errors
///
/// Want of memory alone.
#[tactic(auto, using(crate::proofs::ListedMembers::mentions_in_line_are_those_of_its_aliases))]
pub fn append_mentions_in_line(
    alloc: Global,
    kind: Kind,
    name: &[u8],
    line: usize,
    node: &Node<'_>,
    spans: &mut Vec<Span>,
) -> Result<(), AllocError>
    ensures { OnOk result (spans.new.items ≡ spans.old.items ++ mentions_in_line kind name.now line (node_of_view node.now)) }
{
    let aliases = find_alias_members(alloc, node)?;
    append_mention_spans(kind, name, line, aliases.as_slice(), spans)
}

fn append_mention_spans(
    kind: Kind,
    name: &[u8],
    line: usize,
    aliases: &[AliasMember<'_>],
    spans: &mut Vec<Span>,
) -> Result<(), AllocError>
    ensures { OnOk result (spans.new.items ≡ spans.old.items ++ flat_map (mention_span_if_alias_named kind name.now line) aliases.now) }
{
    for alias in aliases {
        if is_same_kind(kind, alias.kind) && name == alias.name {
            spans.push(Span {
                line,
                start: alias.stop.saturating_sub(name.len()),
                stop: alias.stop,
            })?;
        }
    }
    Ok(())
}

/// Returns whether the kinds `kind` and `other` are the same.
pub fn is_same_kind(kind: Kind, other: Kind) -> bool
    ensures { result ≡ same_kind kind other }
{
    match (kind, other) {
        (Kind::User, Kind::User)
        | (Kind::Runas, Kind::Runas)
        | (Kind::Host, Kind::Host)
        | (Kind::Cmnd, Kind::Cmnd) => true,
        _ => false,
    }
}
