//! Comments that allow rules to be broken.

ghost use Rattle.std.specs.Prelude.{◌≡◌, ◌||◌, length, All, OnOk};
ghost use Rattle.std.specs.List.{flat_map, list_any};
ghost use Rattle.sudoers_text.specs.Token.{IsTokenWithinLine};
ghost use Rattle.sudoers_grammar.specs.Piece.{tokens_with_bytes};
ghost use Rattle.sudoers_grammar.specs.Seen.{model_of_token_part};
ghost use Rattle.sudoers_lint.specs.declared.lint_rule.LintRule.{LintRule as LintRuleOf};
ghost use Rattle.sudoers_lint.specs.Comments.{rules_allowed_by_text, rules_allowed_by_token, rules_allowed_by_words, rules_of_first_words};
ghost use Rattle.sudoers_lint.specs.Names.{texts_of_view};
ghost use Rattle.sudoers_lint.specs.RuleSets.{is_in_rule_set};
ghost use Rattle.sudoers_lint.specs.Rules.{is_same_rule};

use crate::lint_rule::find_rule_of_name;
use crate::rule_set::RuleSet;
use crate::words::list_words_of_comment;
use std::alloc::{AllocError, Global};
use sudoers_grammar::{TokenWithText, add_text_to_token};
use sudoers_text::{Token, TokenKind, choose_line_mode, tokens};

/// Adds to `allowed` the rules that `words` name, up to the first word that names none.
fn add_rules_of_first_words(words: &[&[u8]], allowed: &mut RuleSet)
    ensures { (rule : LintRuleOf) → is_in_rule_set allowed.new rule ≡ (is_in_rule_set allowed.old rule || list_any (is_same_rule rule) (rules_of_first_words (texts_of_view words.now))) }
{
    for word in words {
        let Some(rule) = find_rule_of_name(word) else {
            return;
        };
        allowed.add_rule(rule);
    }
}

/// Adds to `allowed` the rules that a comment of these words allows to break.
fn add_rules_allowed_by_words(words: &[&[u8]], allowed: &mut RuleSet)
    ensures { (rule : LintRuleOf) → is_in_rule_set allowed.new rule ≡ (is_in_rule_set allowed.old rule || list_any (is_same_rule rule) (rules_allowed_by_words (texts_of_view words.now))) }
{
    let [first, second, names @ ..] = words else {
        return;
    };
    if *first == b"lint:".as_slice() && *second == b"allow".as_slice() {
        add_rules_of_first_words(names, allowed);
    }
}

/// Adds to `allowed` the rules that a token allows to break, if it is a comment.
fn add_rules_allowed_by_token(
    alloc: Global,
    token: &TokenWithText<'_>,
    allowed: &mut RuleSet,
) -> Result<(), AllocError>
    ensures { OnOk result ((rule : LintRuleOf) → is_in_rule_set allowed.new rule ≡ (is_in_rule_set allowed.old rule || list_any (is_same_rule rule) (rules_allowed_by_token (model_of_token_part token.now)))) }
{
    if token.kind != TokenKind::Comment {
        return Ok(());
    }
    let words = list_words_of_comment(alloc, token.text.get(1..).unwrap_or(&[]))?;
    add_rules_allowed_by_words(words.as_slice(), allowed);
    Ok(())
}

/// Adds to `allowed` the rules that `tokens`, those of `text`, allow to break.
fn add_rules_allowed_by_tokens(
    alloc: Global,
    text: &[u8],
    tokens: &[Token],
    allowed: &mut RuleSet,
) -> Result<(), AllocError>
    requires { All (IsTokenWithinLine (length text.now)) tokens.now }
    ensures { OnOk result ((rule : LintRuleOf) → is_in_rule_set allowed.new rule ≡ (is_in_rule_set allowed.old rule || list_any (is_same_rule rule) (flat_map rules_allowed_by_token (tokens_with_bytes text.now tokens.now)))) }
{
    for token in tokens {
        add_rules_allowed_by_token(alloc, &add_text_to_token(text, token), allowed)?;
    }
    Ok(())
}

/// Adds to `allowed` the rules that the line `text` allows to break.
pub fn add_rules_allowed_by_text(
    alloc: Global,
    text: &[u8],
    allowed: &mut RuleSet,
) -> Result<(), AllocError>
    ensures { OnOk result ((rule : LintRuleOf) → is_in_rule_set allowed.new rule ≡ (is_in_rule_set allowed.old rule || list_any (is_same_rule rule) (rules_allowed_by_text text.now))) }
{
    let Ok(tokens) = tokens(alloc, text, choose_line_mode(text)) else {
        return Err(AllocError);
    };
    add_rules_allowed_by_tokens(alloc, text, tokens.as_slice(), allowed)
}
