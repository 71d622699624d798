//! The definitions of a walk as the nodes of a graph, numbered in its order from 0.

ghost use Rattle.std.specs.Prelude.{◌≡◌, ◌≢◌, ◌<◌, ◌≤◌, ◌++◌, ◌||◌, [], ℕ, List, length, map, slice_index_or, None, if◌then◌else◌, IfOk, IfSome, OnOk};
ghost use Rattle.std.specs.List.{list_any};
ghost use Rattle.sudoers_grammar.specs.Listed.{aliases_in_node};
ghost use Rattle.sudoers_grammar.specs.Node.{Def as DefOf};
ghost use Rattle.sudoers_line_rows.specs.View.{alias_definitions_of_view, members_of_view, node_of_view};
ghost use Rattle.sudoers_tree.specs.Definition.{definitions_of_lines, definitions_in_line};
ghost use Rattle.sudoers_tree.specs.Line.{lines_of_rows};
ghost use Rattle.sudoers_check.specs.Chains.{alias_names_among_members};
ghost use Rattle.sudoers_check.specs.declared.definition_numbers.AliasLineFirstNumber.{AliasLineFirstNumber as FirstOf};
ghost use Rattle.sudoers_check.specs.Numbers.{alias_line_if_any, alias_lines_of_lines_numbered_from, is_spec_or_defaults_line_node as may_root, number_of_definition, numbers_of_defined_names, numbers_of_defined_aliases, graph_nodes_of_definitions, mention_graph_of_definitions, root_numbers_in_lines_numbered_from, numbers_of_defined_mentions};
ghost use Rattle.sudoers_check.specs.Mentioned.{mentions_in_node as mentions_of};
ghost use Rattle.sudoers_check.specs.internal.Noting.{has_undefined_alias, has_undefined_alias_among_members, has_undefined_alias_in_line};

use crate::definition_counts_and_line_kinds::count_definitions_in_row;
use crate::graph::Graph;
use std::alloc::{AllocError, Global};
use sudoers_tree::{
    AliasDefinitionRow, AliasMember, Kind, LineRow, MemberRow, Node, RowsOfTable, Walk,
    find_alias_members, find_aliases_in_list,
};

/// A line that defines aliases, and how many definitions stand before it.
#[derive(Clone, Copy)]
pub struct AliasLineFirstNumber {
    pub line: usize,
    pub number: usize,
}

/// What lines mention.
#[derive(Drop)]
pub struct MentionLinks {
    /// The definitions, each with those that it mentions.
    pub graph: Graph,
    /// The definitions that user specifications and Defaults lines mention.
    pub roots: Vec<usize>,
    /// A mark for each line: whether it mentions a name that is not defined.
    pub undefined: Vec<bool>,
}

/// The numbers of the definitions of a walk, in its order from 0.
#[derive(Drop)]
pub struct DefinitionNumbers<'a> {
    pub walk: Walk<'a>,
    /// The lines that define aliases, in the order of the walk.
    firsts: Vec<AliasLineFirstNumber>,
    count: usize,
    ghost firsts_are: { firsts.items ≡ alias_lines_of_lines_numbered_from 0 0 walk },
    ghost count_is: { count ≡ length (definitions_of_lines walk) },
}

/// Adds the line with this number, before which `number` definitions stand, if it defines any aliases.
fn append_alias_line(
    line: usize,
    number: usize,
    many: usize,
    firsts: &mut Vec<AliasLineFirstNumber>,
) -> Result<(), AllocError>
    ensures { OnOk result (firsts.new.items ≡ firsts.old.items ++ alias_line_if_any line number many) }
{
    if many > 0 {
        firsts.push(AliasLineFirstNumber { line, number })?;
    }
    Ok(())
}

/// Returns the place of a line among lines in rising order, if it is there.
fn index_of_alias_line(firsts: &[AliasLineFirstNumber], line: usize) -> Option<usize>
    requires { (i j : ℕ) (d : FirstOf) → i ≤ j → j < length firsts.now → (slice_index_or firsts.now i d).line ≤ (slice_index_or firsts.now j d).line }
    ensures found { IfSome result (λ at. (at < length firsts.now) × ((d : FirstOf) → (slice_index_or firsts.now at d).line ≡ line)) }
    ensures missing { result ≡ None → (i : ℕ) (d : FirstOf) → i < length firsts.now → (slice_index_or firsts.now i d).line ≢ line }
{
    match firsts.binary_search_by_key(&line, |first| first.line) {
        Ok(at) => Some(at),
        Err(_) => None,
    }
}

impl<'a> DefinitionNumbers<'a> {
    /// Returns the numbers of the definitions of `walk`.
    ///
    /// # Errors
    ///
    /// Memory ran out.
    pub fn new(alloc: Global, walk: Walk<'a>) -> Result<DefinitionNumbers<'a>, AllocError>
        ensures { IfOk result (λ numbers. numbers.walk ≡ walk.entry) }
    {
        // laws
        walk.is_walk();
        let mut firsts = Vec::new(alloc);
        let mut count = 0;
        let lines = walk.lines();
        for (line, row) in lines.rows.iter().enumerate() {
            let many = count_definitions_in_row(lines.tables, &row.node);
            append_alias_line(line, count, many, &mut firsts)?;
            count += many;
        }
        Ok(DefinitionNumbers {
            walk,
            firsts,
            count,
        })
    }

    /// Returns how many definitions there are.
    pub fn len(&self) -> usize
        ensures { result ≡ length (definitions_of_lines self.now.walk) }
    {
        self.count
    }

    /// Returns the number of the definition of the alias `name` of this kind, if it is defined.
    pub fn of(&self, kind: Kind, name: &[u8]) -> Option<usize>
        ensures { result ≡ number_of_definition kind name.now (definitions_of_lines self.now.walk) }
    {
        // laws
        self.walk.is_walk();
        let place = self.walk.place_of_definition(kind, name)?;
        let at = index_of_alias_line(self.firsts.as_slice(), place.line)?;
        Some(self.firsts[at].number + place.def)
    }

    /// Returns the lines that define aliases, in the order of the walk.
    pub fn alias_lines(&self) -> &[AliasLineFirstNumber]
        ensures { result.now ≡ alias_lines_of_lines_numbered_from 0 0 self.now.walk }
    {
        self.firsts.as_slice()
    }

    /// Returns the definitions among `lines`, each with those that it mentions, those that the user specifications and Defaults lines
    /// there mention, and the lines that mention names which are not defined. The lines define what the walk defines.
    #[tactic(auto, using(crate::proofs::Nodes::graph_nodes_of_appended_are_appended))]
    pub(crate) fn make_mention_links(
        &self,
        alloc: Global,
        lines: &RowsOfTable<'_, LineRow>,
    ) -> Result<MentionLinks, AllocError>
        requires { definitions_of_lines (lines_of_rows lines.now) ≡ definitions_of_lines self.now.walk }
        ensures graph { IfOk result (λ links. links.graph ≡ mention_graph_of_definitions (definitions_of_lines self.now.walk)) }
        ensures roots { IfOk result (λ links. links.roots.items ≡ root_numbers_in_lines_numbered_from (definitions_of_lines self.now.walk) 0 (lines_of_rows lines.now)) }
        ensures undefined { IfOk result (λ links. links.undefined.items ≡ map (has_undefined_alias_in_line (definitions_of_lines self.now.walk)) (lines_of_rows lines.now)) }
    {
        let mut nodes = Vec::new(alloc);
        let mut roots = Vec::new(alloc);
        let mut undefined = Vec::with_capacity(alloc, lines.rows.len())?;
        for (number, row) in lines.rows.iter().enumerate() {
            let node = lines.tables.node_of_row(&row.node);
            undefined.push(self.append_links_of_line(alloc, &node, &mut nodes, &mut roots)?)?;
        }
        let graph = Graph::from_nodes(nodes);
        Ok(MentionLinks {
            graph,
            roots,
            undefined,
        })
    }

    /// Adds to `nodes` the definitions of an alias line, each with those that it mentions, and to `roots` what a user specification or a
    /// Defaults line mentions. Returns whether the line mentions a name that is not defined.
    #[tactic(auto, using(crate::proofs::Nodes::graph_nodes_from_place_are_mentioned_numbers, crate::proofs::Undefined::numbers_of_mentions_in_node_are_of_aliases))]
    fn append_links_of_line(
        &self,
        alloc: Global,
        node: &Node<'_>,
        nodes: &mut Vec<Vec<usize>>,
        roots: &mut Vec<usize>,
    ) -> Result<bool, AllocError>
        ensures nodes { OnOk result ((n : ℕ) → map (λ edges. edges.items) nodes.new.items ≡ map (λ edges. edges.items) nodes.old.items
            ++ graph_nodes_of_definitions (definitions_of_lines self.now.walk) (definitions_in_line n (node_of_view node.now))) }
        ensures roots { OnOk result ((n : ℕ) → roots.new.items ≡ roots.old.items ++ (if may_root (node_of_view node.now) then numbers_of_defined_mentions (definitions_of_lines self.now.walk) (mentions_of n (node_of_view node.now)) else [])) }
        ensures undefined { IfOk result (λ undefined. undefined ≡ has_undefined_alias (definitions_of_lines self.now.walk) (aliases_in_node (node_of_view node.now))) }
    {
        match node {
            Node::Alias { kind, defs } => self.append_nodes_of_definitions(
                alloc, *kind, defs, nodes,
            ),
            Node::Spec { .. } | Node::Defaults { .. } => {
                let aliases = find_alias_members(alloc, node)?;
                self.append_numbers_of_aliases(aliases.as_slice(), roots)
            }
            _ => Ok(false),
        }
    }

    /// Adds the definitions `defs` to `nodes`, each with those that it mentions. Returns whether one mentions a name that is not defined.
    fn append_nodes_of_definitions(
        &self,
        alloc: Global,
        kind: Kind,
        defs: &RowsOfTable<'_, AliasDefinitionRow>,
        nodes: &mut Vec<Vec<usize>>,
    ) -> Result<bool, AllocError>
        ensures nodes { OnOk result (map (λ edges. edges.items) nodes.new.items ≡ map (λ edges. edges.items) nodes.old.items
            ++ map (λ (d : DefOf). numbers_of_defined_names kind (alias_names_among_members d.members) (definitions_of_lines self.now.walk)) (alias_definitions_of_view defs.now)) }
        ensures undefined { IfOk result (λ undefined. undefined ≡ list_any (λ (d : DefOf). has_undefined_alias_among_members (definitions_of_lines self.now.walk) kind d.members) (alias_definitions_of_view defs.now)) }
    {
        let mut has_undefined = false;
        let tables = defs.tables;
        for row in defs.rows {
            let members = tables.members_of_row_range(row.members);
            nodes.push(self.numbers_of_members(alloc, kind, &members, &mut has_undefined)?)?;
        }
        Ok(has_undefined)
    }

    /// Returns the numbers of the definitions that members name. Sets `has_undefined` if one names none.
    #[tactic(auto, using(crate::proofs::Nodes::numbers_of_listed_aliases_are_of_names))]
    fn numbers_of_members(
        &self,
        alloc: Global,
        kind: Kind,
        members: &RowsOfTable<'_, MemberRow>,
        has_undefined: &mut bool,
    ) -> Result<Vec<usize>, AllocError>
        ensures numbers { IfOk result (λ numbers. numbers.items
            ≡ numbers_of_defined_names kind (alias_names_among_members (members_of_view members.now)) (definitions_of_lines self.now.walk)) }
        ensures undefined { OnOk result (has_undefined.new
            ≡ has_undefined.old || has_undefined_alias_among_members (definitions_of_lines self.now.walk) kind (members_of_view members.now)) }
    {
        let aliases = find_aliases_in_list(alloc, kind, members)?;
        let mut numbers = Vec::new(alloc);
        if self.append_numbers_of_aliases(aliases.as_slice(), &mut numbers)? {
            *has_undefined = true;
        }
        Ok(numbers)
    }

    /// Adds the numbers of the definitions that aliases name. Returns whether one names none.
    fn append_numbers_of_aliases(
        &self,
        aliases: &[AliasMember<'_>],
        numbers: &mut Vec<usize>,
    ) -> Result<bool, AllocError>
        ensures numbers { OnOk result (numbers.new.items ≡ numbers.old.items ++ numbers_of_defined_aliases (definitions_of_lines self.now.walk) aliases.now) }
        ensures undefined { IfOk result (λ undefined. undefined ≡ has_undefined_alias (definitions_of_lines self.now.walk) aliases.now) }
    {
        let mut has_undefined = false;
        for alias in aliases {
            match self.of(alias.kind, alias.name) {
                Some(number) => numbers.push(number)?,
                None => has_undefined = true,
            }
        }
        Ok(has_undefined)
    }
}
