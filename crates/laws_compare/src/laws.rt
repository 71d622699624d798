//! Laws of rows that never decide, and of policies that are compared. Each is the contract of a function that does nothing.

ghost use Rattle.std.specs.Prelude.{◌≡◌, ◌↔◌, ℕ, true, List, Option, Some};
ghost use Rattle.sudoers_check.specs.Chains.{HasCyclicAliasReachedFromSpecOrDefaults};
ghost use Rattle.sudoers_tree.specs.Line.{Line as LineOf};
ghost use Rattle.sudoers_tree.specs.Policy.{AreValidWalkLines};
ghost use Rattle.sudoers_match_member.specs.declared.people_and_commands.Who.{Who as WhoOf};
ghost use Rattle.sudoers_match_member.specs.declared.request.Request.{Request as RequestOf};
ghost use Rattle.sudoers_match.specs.Alike.{AreAnswersSameButNumbers};
ghost use Rattle.sudoers_match.specs.Answer.{Answer as AnswerOf, IsAnswerOfRows, RowFitsRequest, IsAnswerToRequest};
ghost use Rattle.sudoers_match.specs.Default.{IsRunasDefault};
ghost use Rattle.sudoers_match.specs.Rows.{PrivilegeRow};
ghost use Rattle.laws_compare.specs.Content.{PolicyContent, FlatPrivilegeRow, Grant, IsContentOfPolicy, IsFlatRowOf};
ghost use Rattle.laws_compare.specs.Computed.{content_of_lines};
ghost use Rattle.laws_compare.specs.Covers.{AreRowsWithoutSomeOverruled, RowCoversRow, GrantCoversGrant, IsEffectOfPolicy};
ghost use Rattle.laws_compare.specs.Decided.{is_covering_grant, is_covering_row};
ghost use Rattle.laws_compare.specs.Effective.{effect_of_lines, grants_for_user_on_host};
ghost use Rattle.laws_compare.specs.Granted.{AreGrantsForUserOnHost};
ghost use Rattle.laws_compare.specs.NoMore.{GrantsNoMore};

use sudoers_match::laws::{alike_defaults_are_same, alike_rows_answer, one_runas_default};
use sudoers_match_list::laws::{
    flat_or_cycle, flattened_is_flat, one_flat, same_flat_lists_are_alike,
};

/// A row that is decided to cover another covers it. So does a grant.
pub fn decided_is_covered()
    ensures row { (wide narrow : FlatPrivilegeRow) → is_covering_row wide narrow ≡ true → RowCoversRow wide narrow }
    ensures grant { (wide narrow : Grant) → is_covering_grant wide narrow ≡ true → GrantCoversGrant wide narrow }
{}

/// A row that covers another fits each request that the other fits.
pub fn covering_row_fits()
    ensures { (lines : List LineOf) (row later : PrivilegeRow) (narrow wide : FlatPrivilegeRow) → IsFlatRowOf lines row narrow → IsFlatRowOf lines later wide
        → RowCoversRow wide narrow → (request : RequestOf) → RowFitsRequest lines request row → RowFitsRequest lines request later }
{
    one_flat();
}

/// Rows answer each request the same without some that a later row covers, numbers included.
pub fn overruled_rows_change_no_answer()
    ensures { (lines : List LineOf) (rows deciding : List PrivilegeRow) → AreRowsWithoutSomeOverruled lines rows deciding → (request : RequestOf) (answer : Option AnswerOf)
        → IsAnswerOfRows lines request rows answer ↔ IsAnswerOfRows lines request deciding answer }
{
    one_flat();
}

/// A policy has one content.
pub fn one_content()
    ensures { (lines : List LineOf) (content other : PolicyContent) → IsContentOfPolicy lines content → IsContentOfPolicy lines other → content ≡ other }
{
    one_flat();
}

/// The computed content is the content of the policy, if no reachable alias is cyclic.
pub fn content_is()
    ensures { (lines : List LineOf) → AreValidWalkLines lines → (HasCyclicAliasReachedFromSpecOrDefaults lines → ⊥) → IsContentOfPolicy lines (content_of_lines lines) }
{
    flat_or_cycle();
    flattened_is_flat();
}

/// The computed effect is an effect of such a policy. The computed grants are what it grants a user on a host.
pub fn effect_is()
    ensures effect { (lines : List LineOf) → AreValidWalkLines lines → (HasCyclicAliasReachedFromSpecOrDefaults lines → ⊥) → IsEffectOfPolicy lines (effect_of_lines lines) }
    ensures granted { (lines : List LineOf) → AreValidWalkLines lines → (HasCyclicAliasReachedFromSpecOrDefaults lines → ⊥) → (who : WhoOf) → AreGrantsForUserOnHost lines who (grants_for_user_on_host lines who) }
{
    content_is();
    one_flat();
}

/// Policies with one effect answer each request the same, numbers aside, and give each user the same runas_default. The effect has their
/// rows and their settings of runas_default, with the aliases replaced. Rows that are overruled may be left out on either side.
pub fn same_effect_answers_same()
    ensures answer { (lines others : List LineOf) (content : PolicyContent) → IsEffectOfPolicy lines content → IsEffectOfPolicy others content
        → (request : RequestOf) (answer : Option AnswerOf) → IsAnswerToRequest lines request answer
        → (other : Option AnswerOf) × IsAnswerToRequest others request other × AreAnswersSameButNumbers answer other }
    ensures default { (lines others : List LineOf) (content : PolicyContent) → IsEffectOfPolicy lines content → IsEffectOfPolicy others content
        → (who : WhoOf) (name : List ℕ) → IsRunasDefault lines who name ↔ IsRunasDefault others who name }
{
    one_flat();
    same_flat_lists_are_alike();
    alike_defaults_are_same();
    alike_rows_answer();
}

/// Policies whose computed effects are equal answer each request the same, numbers aside, if no reachable alias is cyclic in either. They
/// give each user the same runas_default.
pub fn equal_effects_answer_same()
    ensures answer { (lines others : List LineOf) → AreValidWalkLines lines → AreValidWalkLines others → (HasCyclicAliasReachedFromSpecOrDefaults lines → ⊥) → (HasCyclicAliasReachedFromSpecOrDefaults others → ⊥)
        → effect_of_lines lines ≡ effect_of_lines others → (request : RequestOf) (answer : Option AnswerOf) → IsAnswerToRequest lines request answer
        → (other : Option AnswerOf) × IsAnswerToRequest others request other × AreAnswersSameButNumbers answer other }
    ensures default { (lines others : List LineOf) → AreValidWalkLines lines → AreValidWalkLines others → (HasCyclicAliasReachedFromSpecOrDefaults lines → ⊥) → (HasCyclicAliasReachedFromSpecOrDefaults others → ⊥)
        → effect_of_lines lines ≡ effect_of_lines others → (who : WhoOf) (name : List ℕ) → IsRunasDefault lines who name ↔ IsRunasDefault others who name }
{
    effect_is();
    same_effect_answers_same();
}

/// A policy allows nothing that another does not allow, if its rows are those of the other without some that allow, and with some more that
/// deny. In the place of some that allow, rows may stand that they cover. Both have the same settings of runas_default.
pub fn policy_that_grants_no_more_allows_no_more()
    ensures { (lines others : List LineOf) (old new : PolicyContent) → IsContentOfPolicy lines old → IsContentOfPolicy others new
        → old.runas_defaults ≡ new.runas_defaults → GrantsNoMore old.rows new.rows → (request : RequestOf) (answer : AnswerOf) (other : Option AnswerOf)
        → IsAnswerToRequest others request (Some answer) → answer.allow ≡ true → IsAnswerToRequest lines request other
        → (allowed : AnswerOf) × (other ≡ Some allowed) × (allowed.allow ≡ true) }
{
    one_flat();
    same_flat_lists_are_alike();
    alike_defaults_are_same();
}

/// Policies that grant a user the same on a host answer each of his requests there the same, numbers aside. He has the same runas_default
/// in both. Grants that are overruled may be left out on either side.
pub fn same_grants_answer_same()
    ensures { (lines others : List LineOf) (request : RequestOf) (granted : List Grant) → AreGrantsForUserOnHost lines request.who granted
        → AreGrantsForUserOnHost others request.who granted → (name : List ℕ) → IsRunasDefault lines request.who name → IsRunasDefault others request.who name
        → (answer : Option AnswerOf) → IsAnswerToRequest lines request answer
        → (other : Option AnswerOf) × IsAnswerToRequest others request other × AreAnswersSameButNumbers answer other }
{
    one_flat();
    one_runas_default();
}

/// Policies whose computed grants for a user on a host are equal answer each of his requests there the same, numbers aside. No reachable
/// alias is cyclic in either, and he has the same runas_default in both.
pub fn equal_grants_answer_same()
    ensures { (lines others : List LineOf) → AreValidWalkLines lines → AreValidWalkLines others → (HasCyclicAliasReachedFromSpecOrDefaults lines → ⊥) → (HasCyclicAliasReachedFromSpecOrDefaults others → ⊥)
        → (request : RequestOf) → grants_for_user_on_host lines request.who ≡ grants_for_user_on_host others request.who
        → (name : List ℕ) → IsRunasDefault lines request.who name → IsRunasDefault others request.who name
        → (answer : Option AnswerOf) → IsAnswerToRequest lines request answer
        → (other : Option AnswerOf) × IsAnswerToRequest others request other × AreAnswersSameButNumbers answer other }
{
    effect_is();
    same_grants_answer_same();
}
