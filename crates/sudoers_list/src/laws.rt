//! Laws of listings and of reasons. Each is the contract of a function that does nothing.

ghost use Rattle.std.specs.Prelude.{◌≡◌, ℕ, List, Option, Some};
ghost use Rattle.sudoers_grammar.specs.Node.{HostGroup as HostGroupOf};
ghost use Rattle.sudoers_tree.specs.Line.{Line as LineOf};
ghost use Rattle.sudoers_tree.specs.Load.{LoadedPolicy as LoadedOf};
ghost use Rattle.sudoers_check.specs.Chain.{ListHasElement};
ghost use Rattle.sudoers_match_member.specs.declared.people_and_commands.Who.{Who as WhoOf};
ghost use Rattle.sudoers_match.specs.declared.matching_host_groups.HostGroupPlace.{HostGroupPlace as GroupPlaceOf};
ghost use Rattle.sudoers_match_member.specs.declared.request.Request.{Request as RequestOf};
ghost use Rattle.sudoers_match.specs.Answer.{Answer as AnswerOf, IsAnswerToRequest};
ghost use Rattle.sudoers_match.specs.Groups.{ArePlacesOfMatchingHostGroups, host_group_place_from_spec_number};
ghost use Rattle.sudoers_list.specs.Listing.{IsListingOfUser, host_group_at_spec_and_group_number, host_groups_of_each_user_spec};
ghost use Rattle.sudoers_list.specs.Reason.{IsReasonText};
ghost use Rattle.sudoers_list.specs.Rule.{DecidingRuleOnLine as RuleOf, deciding_rule};

use sudoers_match::laws::{one_list_of_host_groups, one_runas_default};

/// A user on a host has one listing.
pub fn one_listing()
    ensures { (lines : List LineOf) (who : WhoOf) (text other : List ℕ) → IsListingOfUser lines who text → IsListingOfUser lines who other → text ≡ other }
{
    one_list_of_host_groups();
    one_runas_default();
}

/// A request with its answer has at most one text of `explain`.
pub fn one_reason()
    ensures { (policy : LoadedOf) (request : RequestOf) (answer : Option AnswerOf) (text other : List ℕ)
        → IsReasonText policy request answer text → IsReasonText policy request answer other → text ≡ other }
{
    one_runas_default();
}

/// At the place of an answer there is a rule.
pub fn answer_has_rule()
    ensures { (lines : List LineOf) (request : RequestOf) (answer : AnswerOf) → IsAnswerToRequest lines request (Some answer)
        → (rule : RuleOf) × (deciding_rule lines answer ≡ Some rule) }
{}

/// At each place that is listed for a user there is a host group.
pub fn places_have_groups()
    ensures { (lines : List LineOf) (who : WhoOf) (places : List GroupPlaceOf) (place : GroupPlaceOf) → ArePlacesOfMatchingHostGroups lines who places
        → ListHasElement places place → (group : HostGroupOf) × (host_group_at_spec_and_group_number (host_groups_of_each_user_spec lines) place ≡ Some group) }
{}

/// The host group of the rule that decides is one of those that are listed for the user.
pub fn deciding_rule_is_listed()
    ensures { (lines : List LineOf) (request : RequestOf) (answer : AnswerOf) (places : List GroupPlaceOf) → IsAnswerToRequest lines request (Some answer)
        → ArePlacesOfMatchingHostGroups lines request.who places → ListHasElement places (host_group_place_from_spec_number answer.spec answer.host_group) }
{}
