//! The answer of a row, and where its command stands.

ghost use Rattle.std.specs.Prelude.{◌≡◌};
ghost use Rattle.std.specs.Option.{option_map};
ghost use Rattle.sudoers_match.specs.Answer.{answer_of_view};
ghost use Rattle.sudoers_match.specs.Heads.{AccumulatedCommandSettings as HeadOf};
ghost use Rattle.sudoers_match.specs.IsHead.{HoldsCommandSettings};
ghost use Rattle.sudoers_match.specs.Found.{answer_without_member_and_settings};
ghost use Rattle.sudoers_match.specs.internal.Question.{answer_with_member_and_settings, spec_group_command_numbers_of_answer, answer_of_command_hit};

use crate::command_settings::CommandSettings;
use crate::options::CommandOptions;
use crate::tags::CommandTags;
use sudoers_line_rows::Member;
use sudoers_match_list::MemberHit;

/// The row that answers a request: where it stands, and what it says of the command.
#[derive(Clone, Copy, Debug)]
pub struct Answer<'a> {
    /// Whether the command may run.
    pub allow: bool,
    /// The number of the user specification among all of them, from 0.
    pub spec: usize,
    /// The number of the host group in the user specification, from 0.
    pub host_group: usize,
    /// The number of the command among those that are written in the host group, from 0.
    pub command: usize,
    /// The tags that hold of the command.
    pub tags: CommandTags,
    /// The options that hold of the command.
    pub options: CommandOptions<'a>,
}

/// The row that answers a request, and its command.
#[derive(Clone, Copy)]
pub struct AnswerWithMemberAndSettings<'a> {
    pub answer: Answer<'a>,
    /// The number of the line of its user specification, from 0.
    pub line: usize,
    /// What holds of the command beside its member.
    pub head: CommandSettings<'a>,
    pub member: Member<'a>,
}

/// Where a command stands.
#[derive(Clone, Copy)]
pub struct SpecGroupCommandNumbers {
    pub spec: usize,
    pub host_group: usize,
    pub command: usize,
}

/// Returns the answer of a row whose atom says `hit`.
pub fn make_row_answer<'a>(
    place: SpecGroupCommandNumbers,
    head: &CommandSettings<'a>,
    hit: MemberHit,
) -> Answer<'a>
    ensures told { (h : HeadOf) → HoldsCommandSettings head.now h → answer_of_view result ≡ answer_of_command_hit place h hit }
    ensures place { spec_group_command_numbers_of_answer result ≡ place }
{
    let mut tags = head.tags;
    if hit.by_all {
        tags.setenv = tags.setenv.or(Some(true));
    }
    Answer {
        allow: hit.allow,
        spec: place.spec,
        host_group: place.host_group,
        command: place.command,
        tags,
        options: head.options,
    }
}

/// Returns what is found where a command gives `answer`: the command has the head `head` and the member `member`, and stands on the
/// line with the number `line`.
pub fn add_member_and_settings_to_answer<'a>(
    answer: Option<Answer<'a>>,
    line: usize,
    head: &CommandSettings<'a>,
    member: Member<'a>,
) -> Option<AnswerWithMemberAndSettings<'a>>
    ensures { result ≡ option_map (answer_with_member_and_settings line head.now member.entry) answer.entry }
{
    match answer {
        Some(answer) => Some(AnswerWithMemberAndSettings {
            answer,
            line,
            head: *head,
            member,
        }),
        None => None,
    }
}

/// Returns the answer of what is found.
pub fn take_answer_without_member_and_settings<'a>(
    found: Option<AnswerWithMemberAndSettings<'a>>,
) -> Option<Answer<'a>>
    ensures { option_map answer_of_view result ≡ option_map answer_without_member_and_settings found.entry }
{
    match found {
        Some(found) => Some(found.answer),
        None => None,
    }
}
