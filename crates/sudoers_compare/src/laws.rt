//! Laws of rows at their places. Each is the contract of a function that does nothing.

ghost use Rattle.std.specs.Prelude.{◌≡◌, ◌↔◌, ◌⊎◌, ℕ, ◌<◌, true, false, List, map, Option, Some, None, slice_get};
ghost use Rattle.sudoers_check.specs.Chains.{HasCyclicAliasReachedFromSpecOrDefaults};
ghost use Rattle.sudoers_tree.specs.Line.{Line as LineOf};
ghost use Rattle.sudoers_tree.specs.Policy.{AreValidWalkLines};
ghost use Rattle.sudoers_match_member.specs.declared.people_and_commands.Who.{Who as WhoOf};
ghost use Rattle.sudoers_match_member.specs.declared.request.Request.{Request as RequestOf};
ghost use Rattle.sudoers_match.specs.Alike.{AreAnswersSameButNumbers};
ghost use Rattle.sudoers_match.specs.Answer.{Answer as AnswerOf, IsAnswerToRequest};
ghost use Rattle.sudoers_match.specs.Default.{IsRunasDefault};
ghost use Rattle.laws_compare.specs.Computed.{content_of_lines};
ghost use Rattle.laws_compare.specs.Content.{FlatPrivilegeRow};
ghost use Rattle.laws_compare.specs.Covers.{RowCoversRow};
ghost use Rattle.laws_compare.specs.Decided.{is_covering_row};
ghost use Rattle.sudoers_compare.specs.declared.overruled.Overruling.{Overruling as OverrulingOf};
ghost use Rattle.sudoers_compare.specs.Overruled.{overrulings_of_rows};
ghost use Rattle.sudoers_compare.specs.SameRow.{is_unchanged_row};
ghost use Rattle.sudoers_compare.specs.declared.same_row.CountedChanges.TheVariants as counted;
ghost use Rattle.sudoers_compare.specs.FlatSpecs.{PlacedRow, placed_rows_of_policy};

use laws_compare::laws::{content_is, decided_is_covered, same_effect_answers_same};

/// The rows of a policy at their places are those of its content, in the same order.
pub fn placed_rows_are_content()
    ensures { (lines : List LineOf) → map (λ (placed : PlacedRow). placed.row) (placed_rows_of_policy lines) ≡ (content_of_lines lines).rows }
{}

/// Where a row is found that overrules row `i`, it stands behind row `i` and covers it.
pub fn overruled_row_is_covered()
    ensures { (rows : List FlatPrivilegeRow) (i number : ℕ) (row : FlatPrivilegeRow) (found : OverrulingOf) → slice_get rows i ≡ Some row
        → slice_get (overrulings_of_rows 0 rows) i ≡ Some found → found.by ≡ Some number
        → (i < number) × ((later : FlatPrivilegeRow) × (slice_get rows number ≡ Some later) × (is_covering_row later row ≡ true)) }
{}

/// Where no row is found that overrules row `i`, and no row was left out, no row behind it covers it.
pub fn row_that_stays_is_not_covered()
    ensures { (rows : List FlatPrivilegeRow) (i : ℕ) (row : FlatPrivilegeRow) (found : OverrulingOf) → slice_get rows i ≡ Some row
        → slice_get (overrulings_of_rows 0 rows) i ≡ Some found → found.by ≡ None → found.are_rows_left_out ≡ false
        → (j : ℕ) (later : FlatPrivilegeRow) → i < j → slice_get rows j ≡ Some later → is_covering_row later row ≡ false }
{}

/// Policies with the same rows and the same settings of runas_default answer each request the same, numbers aside, if no reachable alias is
/// cyclic in either. They give each user the same runas_default.
pub fn equal_rows_and_settings_answer_same()
    ensures answer { (lines others : List LineOf) → AreValidWalkLines lines → AreValidWalkLines others → (HasCyclicAliasReachedFromSpecOrDefaults lines → ⊥) → (HasCyclicAliasReachedFromSpecOrDefaults others → ⊥)
        → (content_of_lines lines).rows ≡ (content_of_lines others).rows → (content_of_lines lines).runas_defaults ≡ (content_of_lines others).runas_defaults
        → (request : RequestOf) (answer : Option AnswerOf) → IsAnswerToRequest lines request answer
        → (other : Option AnswerOf) × IsAnswerToRequest others request other × AreAnswersSameButNumbers answer other }
    ensures default { (lines others : List LineOf) → AreValidWalkLines lines → AreValidWalkLines others → (HasCyclicAliasReachedFromSpecOrDefaults lines → ⊥) → (HasCyclicAliasReachedFromSpecOrDefaults others → ⊥)
        → (content_of_lines lines).rows ≡ (content_of_lines others).rows → (content_of_lines lines).runas_defaults ≡ (content_of_lines others).runas_defaults
        → (who : WhoOf) (name : List ℕ) → IsRunasDefault lines who name ↔ IsRunasDefault others who name }
{
    content_is();
    same_effect_answers_same();
}

/// A row that is unchanged but for what does not count is the other, or it is narrowed: the other allows, and covers it.
pub fn unchanged_row_is_same_or_covered()
    ensures { (old new : FlatPrivilegeRow) → is_unchanged_row counted.Granting old new ≡ true → (old ≡ new) ⊎ ((old.grant.atom.allow ≡ true) × RowCoversRow old new) }
{
    decided_is_covered();
}
