//! The rule that decides, and where it stands.

ghost use Rattle.std.specs.Prelude.{◌≡◌, slice_get, Some, IfSome};
ghost use Rattle.std.specs.Option.{option_map};
ghost use Rattle.sudoers_tree.specs.Line.{line_of_view};
ghost use Rattle.sudoers_match.specs.Found.{HasMemberAndSettingsFromLines, answer_without_member_and_settings};
ghost use Rattle.sudoers_list.specs.internal.Inside.{IsHeldDecidingRule, numbered_line_of_view};
ghost use Rattle.sudoers_list.specs.Rule.{deciding_rule, lines_with_numbers};

use sudoers_line_rows::Member;
use sudoers_match::{AnswerWithMemberAndSettings, CommandSettings};
use sudoers_tree::{Line, Policy};

/// A line of the walk, and its number there, from 0.
#[derive(Clone, Copy)]
pub struct NumberedLine<'a> {
    pub number: usize,
    pub line: Line<'a>,
}

/// A command, and what holds of it beside its member.
#[derive(Clone, Copy)]
pub struct CommandWithSettings<'a> {
    pub head: CommandSettings<'a>,
    pub member: Member<'a>,
}

/// A command by which a request is answered, and the line on which it stands.
#[derive(Clone, Copy)]
pub struct DecidingRule<'a> {
    pub at: NumberedLine<'a>,
    pub command: CommandWithSettings<'a>,
}

/// Returns what stands on the line with the number `number` of the walk, from 0.
pub fn walk_line_at<'a>(policy: &'a Policy, number: usize) -> Option<Line<'a>>
    ensures { option_map line_of_view result ≡ slice_get policy.now.walk.lines number }
{
    let lines = policy.lines();
    match lines.rows.get(number) {
        Some(row) => Some(Line::from_line_row(lines.tables, row)),
        None => None,
    }
}

/// Returns the line with the number `number` of the walk, from 0.
pub fn find_walk_line_by_number<'a>(policy: &'a Policy, number: usize) -> Option<NumberedLine<'a>>
    ensures line { option_map numbered_line_of_view result ≡ slice_get (lines_with_numbers 0 policy.now.walk.lines) number }
    ensures there { IfSome result (λ at. slice_get policy.now.walk.lines at.number ≡ Some (line_of_view at.line)) }
{
    match walk_line_at(policy, number) {
        Some(line) => Some(NumberedLine { number, line }),
        None => None,
    }
}

/// Returns the command by which a request is answered, with the tags of the answer.
pub fn deciding_rule_of_found_answer<'a>(
    policy: &'a Policy,
    found: &AnswerWithMemberAndSettings<'a>,
) -> DecidingRule<'a>
    requires { HasMemberAndSettingsFromLines policy.now.walk.lines found.now }
    ensures rule { IsHeldDecidingRule result (deciding_rule policy.now.walk.lines (answer_without_member_and_settings found.now)) }
    ensures there { slice_get policy.now.walk.lines result.at.number ≡ Some (line_of_view result.at.line) }
{
    let Some(at) = find_walk_line_by_number(policy, found.line) else {
        unreachable!()
    };
    let head = CommandSettings {
        tags: found.answer.tags,
        ..found.head
    };
    let member = found.member;
    DecidingRule {
        at,
        command: CommandWithSettings { head, member },
    }
}
