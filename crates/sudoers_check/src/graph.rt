//! Graphs whose nodes are numbers.

ghost use Rattle.std.specs.Prelude.{◌≡◌, ◌<◌, length, map, [], List, ℕ, IfOk, OnOk};
ghost use Rattle.std.specs.List.{AllByRecursion};
ghost use Rattle.sudoers_check.specs.internal.Found.{ListsMarkedNodes, MarksNodesAdded};
ghost use Rattle.sudoers_check.specs.internal.Graph.{edge_targets_of_node, AreNodesOfGraph, HasAllEdgeTargetsInGraph, IsReachedFromNodes, MarksDecidePredicate};

use std::alloc::{AllocError, Global};
use std::marker::Model;

/// A graph. Nodes are numbered from 0; contracts see the list of nodes, each with those to which its edges lead.
#[derive(Drop)]
pub struct Graph {
    nodes: Vec<Vec<usize>>,
}

impl Model for Graph {
    ghost use Rattle.std.specs.Prelude.{ℕ, List, map};
    ghost use Rattle.std.specs.declared.vec.Vec.{Vec};
    ghost use Rattle.sudoers_check.specs.internal.Graph.{HasAllEdgeTargetsInGraph};

    ghost Value = { List (List ℕ) };

    ghost view = { λ graph. map (λ edges. edges.items) graph.nodes.items };

    ghost invariant = { λ graph. HasAllEdgeTargetsInGraph (map (λ edges. edges.items) graph.nodes.items) };
}

impl Graph {
    /// Returns the graph of these nodes.
    pub fn from_nodes(nodes: Vec<Vec<usize>>) -> Graph
        requires { HasAllEdgeTargetsInGraph (map (λ edges. edges.items) nodes.items) }
        ensures { result ≡ map (λ edges. edges.items) nodes.items }
    {
        Graph { nodes }
    }

    /// Returns how many nodes there are.
    pub fn len(&self) -> usize
        ensures { result ≡ length self.now }
    {
        self.nodes.len()
    }

    /// Returns the nodes to which the edges of a node lead.
    pub fn edges_of_node(&self, node: usize) -> &[usize]
        requires { node < length self.now }
        ensures edges { result.now ≡ edge_targets_of_node self.now node }
        ensures nodes { AreNodesOfGraph self.now result.now }
    {
        self.nodes[node].as_slice()
    }

    /// Returns which nodes are reached from these.
    ///
    /// # Errors
    ///
    /// Want of memory alone.
    pub fn find_reached_nodes(&self, alloc: Global, from: &[usize]) -> Result<Vec<bool>, AllocError>
        requires { AreNodesOfGraph self.now from.now }
        ensures { IfOk result (λ marks. MarksDecidePredicate (IsReachedFromNodes self.now from.now) (length self.now) marks.items) }
    {
        let mut found = ReachedNodes::new(alloc, self.len())?;
        found.mark_all_nodes(from)?;
        let mut next = 0;
        while next < found.nodes.len() {
            let node = found.nodes[next];
            found.mark_all_nodes(self.edges_of_node(node))?;
            next += 1;
        }
        Ok(found.marks)
    }
}

/// The nodes that were found, and a mark for each node that tells whether it was.
#[derive(Drop)]
struct ReachedNodes {
    nodes: Vec<usize>,
    marks: Vec<bool>,
}

impl ReachedNodes {
    fn new(alloc: Global, len: usize) -> Result<ReachedNodes, AllocError>
        ensures nodes { IfOk result (λ found. found.nodes.items ≡ []) }
        ensures found { IfOk result (λ found. ListsMarkedNodes len found.nodes.items found.marks.items) }
    {
        Ok(ReachedNodes {
            nodes: Vec::new(alloc),
            marks: Vec::from_elem(alloc, false, len)?,
        })
    }

    /// Marks those of these that are not marked yet.
    fn mark_all_nodes(&mut self, nodes: &[usize]) -> Result<(), AllocError>
        requires found { ListsMarkedNodes (length self.old.marks.items) self.old.nodes.items self.old.marks.items }
        requires nodes { AllByRecursion (λ node. node < length self.old.marks.items) nodes.now }
        ensures { OnOk result (MarksNodesAdded (length self.old.marks.items) self.old.nodes.items self.old.marks.items nodes.now (length nodes.now) self.new.nodes.items self.new.marks.items) }
    {
        for node in nodes {
            if !self.marks[*node] {
                self.marks[*node] = true;
                self.nodes.push(*node)?;
            }
        }
        Ok(())
    }
}
