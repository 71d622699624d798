//! The rules of a policy.

ghost use Rattle.std.specs.Prelude.{◌≡◌, ◌++◌, length, map, IfOk, IfErr, OnOk};
ghost use Rattle.sudoers_line_rows.specs.View.{alias_definitions_of_view, node_of_view};
ghost use Rattle.sudoers_cvt_rules.specs.declared.fault.CvtFault.TheVariants.{NoMemory};
ghost use Rattle.sudoers_cvt_rules.specs.Rule.{node_of_rule_view};
ghost use Rattle.sudoers_cvt_rules.specs.Rules.{defaults_nodes_of_line_node, one_definition_nodes_of_line_node, alias_node_of_one_definition, rules_of_policy_lines, effective_spec_nodes_of_line_node, marked_items, rules_with_marked_definitions};
ghost use Rattle.sudoers_tree.specs.Line.{lines_of_rows};

use crate::fault::CvtFault;
use crate::rule::Rule;
use std::alloc::{AllocError, Global};
use std::marker::Model;
use sudoers_grammar::Kind;
use sudoers_line_rows::{AliasDefinitionRow, Node, RowsOfTable};
use sudoers_tree::LineRow;

/// The rules of a policy: its Defaults lines, its definitions of aliases and its user specifications, each in file order. Contracts
/// see three lists of what lines say. There each command says all that holds of it.
#[derive(Drop)]
pub struct Rules<'a> {
    defaults: Vec<Rule<'a>>,
    defs: Vec<Rule<'a>>,
    specs: Vec<Rule<'a>>,
}

impl<'a> Model for Rules<'a> {
    ghost use Rattle.std.specs.Prelude.{map};
    ghost use Rattle.sudoers_cvt_rules.specs.Rules.{Rules as RulesOf};
    ghost use Rattle.sudoers_cvt_rules.specs.Rule.{node_of_rule_view};

    ghost Value = { RulesOf };

    ghost view = { λ rules. record {
      defaults = map node_of_rule_view rules.defaults.items;
      defs = map node_of_rule_view rules.defs.items;
      specs = map node_of_rule_view rules.specs.items;
    } };
}

/// Appends the definitions of an alias line.
fn push_rules_of_alias_definitions<'a>(
    out: &mut Vec<Rule<'a>>,
    kind: Kind,
    defs: &RowsOfTable<'a, AliasDefinitionRow>,
) -> Result<(), AllocError>
    ensures { OnOk result (map node_of_rule_view out.new.items ≡ map node_of_rule_view out.old.items ++ map (alias_node_of_one_definition kind) (alias_definitions_of_view defs.now)) }
{
    for row in defs.rows {
        let def = defs.tables.alias_definition_of_row(row);
        out.push(Rule::Def { kind, def })?;
    }
    Ok(())
}

/// Returns those of the rules that have a mark.
fn keep_marked_rules<'a>(
    alloc: Global,
    rules: &[Rule<'a>],
    marks: &[bool],
) -> Result<Vec<Rule<'a>>, AllocError>
    requires { length marks.now ≡ length rules.now }
    ensures { IfOk result (λ kept. map node_of_rule_view kept.items ≡ marked_items marks.now (map node_of_rule_view rules.now)) }
{
    let mut kept = Vec::new(alloc);
    for (i, rule) in rules.iter().enumerate() {
        if marks[i] {
            kept.push(*rule)?;
        }
    }
    Ok(kept)
}

impl<'a> Rules<'a> {
    /// Returns the rules of `lines`. Blank lines, comments and includes are passed over.
    ///
    /// # Errors
    ///
    /// `NoMemory`: memory ran out.
    pub fn from_policy_lines(
        alloc: Global,
        lines: &RowsOfTable<'a, LineRow>,
    ) -> Result<Rules<'a>, CvtFault>
        ensures rules { IfOk result (λ rules. rules ≡ rules_of_policy_lines (lines_of_rows lines.now)) }
        ensures fault { IfErr result (λ fault. fault ≡ NoMemory) }
    {
        let mut rules = Rules {
            defaults: Vec::new(alloc),
            defs: Vec::new(alloc),
            specs: Vec::new(alloc),
        };
        for row in lines.rows {
            rules.add_rules_of_line(&lines.tables.node_of_row(&row.node))?;
        }
        Ok(rules)
    }

    /// Returns the Defaults lines.
    pub fn defaults(&self) -> &[Rule<'a>]
        ensures { map node_of_rule_view result.now ≡ self.now.defaults }
    {
        self.defaults.as_slice()
    }

    /// Returns the definitions of aliases.
    pub fn alias_definitions(&self) -> &[Rule<'a>]
        ensures { map node_of_rule_view result.now ≡ self.now.defs }
    {
        self.defs.as_slice()
    }

    /// Returns the user specifications.
    pub fn user_specs(&self) -> &[Rule<'a>]
        ensures { map node_of_rule_view result.now ≡ self.now.specs }
    {
        self.specs.as_slice()
    }

    /// Returns the rules, of definitions only those with a mark. There is one for each definition.
    ///
    /// # Errors
    ///
    /// `NoMemory`: memory ran out.
    pub fn keep_marked_definitions(
        mut self,
        alloc: Global,
        marks: &[bool],
    ) -> Result<Rules<'a>, CvtFault>
        requires { length marks.now ≡ length self.defs }
        ensures rules { IfOk result (λ rules. rules ≡ rules_with_marked_definitions marks.now self.entry) }
        ensures fault { IfErr result (λ fault. fault ≡ NoMemory) }
    {
        self.defs = keep_marked_rules(alloc, self.defs.as_slice(), marks)?;
        Ok(self)
    }

    /// Appends what a line says, if it is a rule.
    fn add_rules_of_line(&mut self, node: &Node<'a>) -> Result<(), AllocError>
        ensures defaults { OnOk result (self.new.defaults ≡ self.old.defaults ++ defaults_nodes_of_line_node (node_of_view node.now)) }
        ensures defs { OnOk result (self.new.defs ≡ self.old.defs ++ one_definition_nodes_of_line_node (node_of_view node.now)) }
        ensures specs { OnOk result (self.new.specs ≡ self.old.specs ++ effective_spec_nodes_of_line_node (node_of_view node.now)) }
    {
        match *node {
            Node::Defaults { scope, params } => {
                self.defaults.push(Rule::Defaults { scope, params })?;
                Ok(())
            }
            Node::Alias { kind, defs } => push_rules_of_alias_definitions(
                &mut self.defs,
                kind,
                &defs,
            ),
            Node::Spec { users, groups } => {
                self.specs.push(Rule::Spec { users, groups })?;
                Ok(())
            }
            Node::Blank | Node::Comment | Node::Include { .. } => Ok(()),
        }
    }
}
