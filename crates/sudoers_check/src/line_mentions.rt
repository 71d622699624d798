//! What a line mentions, in the order in which it stands there.

ghost use Rattle.std.specs.Prelude.{◌≡◌, map, IfOk};
ghost use Rattle.sudoers_line_rows.specs.View.{node_of_view};
ghost use Rattle.sudoers_check.specs.Mentioned.{mention_of_alias_member, mentions_in_node};

use std::alloc::{AllocError, Global};
use std::marker::Model;
use sudoers_tree::{AliasMember, Kind, Node, Span, find_alias_members};

/// A name that stands as a member of a list of this kind, and where.
#[derive(Drop)]
pub struct Mention<'a> {
    pub kind: Kind,
    pub name: &'a [u8],
    pub span: Span,
}

impl<'a> Model for Mention<'a> {
    ghost use Rattle.sudoers_check.specs.Mentioned.{Mention};

    ghost Value = { Mention };

    ghost view = { λ m. record { kind = m.kind; name = m.name.now; span = m.span } };
}

/// Returns the alias mentions in line `line` (counted from 0), which was parsed as `node`.
///
/// # Errors
///
/// Want of memory alone.
#[tactic(auto, using(crate::proofs::Mentions::mentions_of_node_aliases_are_in_node))]
pub fn find_mentions_in_line<'a>(
    alloc: Global,
    line: usize,
    node: &Node<'a>,
) -> Result<Vec<Mention<'a>>, AllocError>
    ensures { IfOk result (λ mentions. mentions.items ≡ mentions_in_node line (node_of_view node.now)) }
{
    let aliases = find_alias_members(alloc, node)?;
    make_mentions_at_line(alloc, line, aliases.as_slice())
}

/// Returns the mentions that aliases are in the line with this number.
fn make_mentions_at_line<'a>(
    alloc: Global,
    line: usize,
    aliases: &[AliasMember<'a>],
) -> Result<Vec<Mention<'a>>, AllocError>
    ensures { IfOk result (λ mentions. mentions.items ≡ map (mention_of_alias_member line) aliases.now) }
{
    let mut mentions = Vec::with_capacity(alloc, aliases.len())?;
    for alias in aliases {
        let start = alias.stop.saturating_sub(alias.name.len());
        mentions.push(Mention {
            kind: alias.kind,
            name: alias.name,
            span: Span {
                line,
                start,
                stop: alias.stop,
            },
        })?;
    }
    Ok(mentions)
}
