//! Nodes on cycles.

ghost use Rattle.std.specs.Prelude.{◌≡◌, ◌<◌, ◌≤◌, [], ◌↔◌, ℕ, Some, slice_get, length, IfOk, OnOk, IsTrue};
ghost use Rattle.sudoers_check.specs.internal.Graph.{edge_targets_of_node, HasEdge, IsOnCycle, MarksDecidePredicate};
ghost use Rattle.sudoers_check.specs.declared.cycles.NodeSearchState.TheVariants.{Open};
ghost use Rattle.sudoers_check.specs.internal.Search.{HasAscendingKeys, ClosesOpenNodes, SearchHasMetNode, EntersNewNode, AreGroupsJoined, HasSearchInvariant, HasSearchInvariantWithLastPathNode, SearchStepLeadsTo};

use crate::graph::Graph;
use std::alloc::{AllocError, Global};

/// Returns which nodes are on a cycle.
///
/// # Errors
///
/// Want of memory alone.
pub fn find_nodes_on_cycles(alloc: Global, graph: &Graph) -> Result<Vec<bool>, AllocError>
    ensures { IfOk result (λ marks. MarksDecidePredicate (IsOnCycle graph.now) (length graph.now) marks.items) }
{
    let mut search = CycleSearch::new(alloc, graph)?;
    for node in 0..graph.len() {
        search.search_from_node(graph, node)?;
    }
    Ok(search.marks)
}

/// How a node stands in the search.
#[derive(Clone, Copy)]
enum NodeSearchState {
    /// It was not met.
    New,
    /// It was met, and stands at this place among the open ones.
    Open(usize),
    /// All that is reached from it was met.
    Closed,
}

/// A node on the way, its place among the open ones, and how many of its edges were looked at.
#[derive(Clone, Copy)]
struct NodeOnSearchPath {
    node: usize,
    place: usize,
    edges: usize,
}

/// A search in depth. The open nodes form groups, one after another. In a group each node reaches every other. Each group
/// is reached from those before it.
#[derive(Drop)]
struct CycleSearch {
    standings: Vec<NodeSearchState>,
    /// The open nodes.
    nodes: Vec<usize>,
    /// Where the groups of open nodes begin.
    groups: Vec<usize>,
    /// The way to the node that is looked at.
    way: Vec<NodeOnSearchPath>,
    /// Which of the closed nodes are on a cycle.
    marks: Vec<bool>,
}

impl CycleSearch {
    fn new(alloc: Global, graph: &Graph) -> Result<CycleSearch, AllocError>
        ensures kept { IfOk result (λ s. HasSearchInvariant graph.now s) }
        ensures way { IfOk result (λ s. s.way.items ≡ []) }
    {
        Ok(CycleSearch {
            standings: Vec::from_elem(alloc, NodeSearchState::New, graph.len())?,
            nodes: Vec::new(alloc),
            groups: Vec::new(alloc),
            way: Vec::new(alloc),
            marks: Vec::from_elem(alloc, false, graph.len())?,
        })
    }

    /// Looks at all that is reached from the node, unless it was met.
    fn search_from_node(&mut self, graph: &Graph, node: usize) -> Result<(), AllocError>
        requires kept { HasSearchInvariant graph.now self.old }
        requires way { self.old.way.items ≡ [] }
        requires node { node < length graph.now }
        ensures met { OnOk result (SearchHasMetNode graph.now self.old.standings.items node self.new) }
        ensures way { OnOk result (self.new.way.items ≡ []) }
    {
        if let NodeSearchState::New = self.standings[node] {
            self.enter(node)?;
        }
        while let Some(step) = self.way.pop() {
            self.look(graph, step)?;
        }
        Ok(())
    }

    /// Looks at the next edge of the last node of the way, or leaves it where there is none.
    fn look(&mut self, graph: &Graph, step: NodeOnSearchPath) -> Result<(), AllocError>
        requires { HasSearchInvariantWithLastPathNode graph.now self.old step }
        ensures { OnOk result (SearchStepLeadsTo graph.now self.old step self.new) }
    {
        let Some(next) = graph.edges_of_node(step.node).get(step.edges).copied() else {
            self.leave_last_node(graph, step);
            return Ok(());
        };
        self.way.push(NodeOnSearchPath {
            edges: step.edges + 1,
            ..step
        })?;
        match self.standings[next] {
            NodeSearchState::New => self.enter(next),
            NodeSearchState::Open(place) => {
                join_open_groups(&mut self.groups, place);
                Ok(())
            }
            NodeSearchState::Closed => Ok(()),
        }
    }

    /// Adds a node that was not met, in a group of its own.
    fn enter(&mut self, node: usize) -> Result<(), AllocError>
        requires { node < length self.old.standings.items }
        ensures { OnOk result (EntersNewNode node self.old self.new) }
    {
        let place = self.nodes.len();
        self.standings[node] = NodeSearchState::Open(place);
        self.groups.push(place)?;
        self.nodes.push(node)?;
        self.way.push(NodeOnSearchPath {
            node,
            place,
            edges: 0,
        })?;
        Ok(())
    }

    /// Leaves the last node of the way. Where its group begins with it, all of the group was looked at.
    fn leave_last_node(&mut self, graph: &Graph, step: NodeOnSearchPath)
        requires kept { HasSearchInvariantWithLastPathNode graph.now self.old step }
        requires edges { length (edge_targets_of_node graph.now step.node) ≤ step.edges }
        ensures { SearchStepLeadsTo graph.now self.old step self.new }
    {
        let Some(start) = self.groups.last().copied() else {
            return;
        };
        if start == step.place {
            self.groups.pop();
            self.close_open_nodes(graph, step.place);
        }
    }

    /// Closes the open nodes from this place on.
    fn close_open_nodes(&mut self, graph: &Graph, place: usize)
        requires standings { length self.old.standings.items ≡ length graph.now }
        requires marks { length self.old.marks.items ≡ length graph.now }
        requires stands { (p v : ℕ) → slice_get self.old.nodes.items p ≡ Some v → slice_get self.old.standings.items v ≡ Some (Open p) }
        requires place { place < length self.old.nodes.items }
        ensures closed { ClosesOpenNodes graph.now place self.old self.new }
        ensures groups { self.new.groups.items ≡ self.old.groups.items }
        ensures way { self.new.way.items ≡ self.old.way.items }
    {
        let alone = place + 1 == self.nodes.len();
        while place < self.nodes.len() {
            let Some(node) = self.nodes.pop() else {
                return;
            };
            self.standings[node] = NodeSearchState::Closed;
            self.marks[node] = !alone || has_edge_to_itself(graph, node);
        }
    }
}

/// Makes one group of those from that of this place on.
fn join_open_groups(groups: &mut Vec<usize>, place: usize)
    requires { HasAscendingKeys (λ n. n) groups.old.items }
    ensures { AreGroupsJoined groups.old.items place groups.new.items }
{
    while let Some(start) = groups.last().copied() {
        if start <= place {
            break;
        }
        groups.pop();
    }
}

/// Returns whether an edge leads from the node to itself.
fn has_edge_to_itself(graph: &Graph, node: usize) -> bool
    requires { node < length graph.now }
    ensures { IsTrue result ↔ HasEdge graph.now node node }
{
    graph.edges_of_node(node).contains(&node)
}
