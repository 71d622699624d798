//! What `sudoers_list_people` says of the texts of passwd and group and of who asks what, and what `sudoers_list` and `sudoers_match` say
//! of him.

use crate::answer_output::{
    push_people_fault, push_target_moment_and_command_of_request,
    push_user_groups_host_and_interfaces, push_users_and_groups, push_who_fault,
};
use crate::case_frames::{CaseCall, split_first_part, split_first_part_or_empty, words_of_parts};
use crate::policy_questions::{self, PolicyQuestion};
use std::alloc::{AllocError, Global};
use sudoers_list_people::{People, WhoFault, request_for, who_for};
use sudoers_match::Request;
use sudoers_match_member::Who;

/// What is asked.
#[derive(Clone, Copy)]
enum PeopleTopic {
    /// All users and groups.
    People,
    /// Something about a user on a host.
    User(UserInquiryTopic),
}

impl PeopleTopic {
    /// Returns what `byte` asks.
    fn from_topic_byte(byte: u8) -> Option<PeopleTopic> {
        match byte {
            b'P' => Some(PeopleTopic::People),
            b'W' => Some(PeopleTopic::User(UserInquiryTopic::Who)),
            b'R' => Some(PeopleTopic::User(UserInquiryTopic::Request)),
            b'L' => Some(PeopleTopic::User(UserInquiryTopic::Listing)),
            b'D' => Some(PeopleTopic::User(UserInquiryTopic::Default)),
            b'A' => Some(PeopleTopic::User(UserInquiryTopic::Allowed)),
            _ => None,
        }
    }
}

/// What is asked about a user on a host.
#[derive(Clone, Copy)]
enum UserInquiryTopic {
    /// Who he is: his groups, and the host.
    Who,
    /// What he asks for.
    Request,
    /// What he may run.
    Listing,
    /// As whom his commands run where nothing else is said.
    Default,
    /// Whether a policy allows what he asks for.
    Allowed,
}

/// The parts of a body behind the two files of people. A part that is missing is empty.
#[derive(Clone, Copy)]
struct InquiryParts<'a> {
    user: &'a [u8],
    host: &'a [u8],
    interfaces: &'a [u8],
    policy: &'a [u8],
    target: &'a [u8],
    /// A part that names the group, if one is asked for.
    target_group: &'a [u8],
    stamp: &'a [u8],
    /// Parts that are the words of the command.
    command: &'a [u8],
}

impl InquiryParts<'_> {
    /// Returns the words that `parts` are.
    fn from_inquiry_parts(parts: &[u8]) -> InquiryParts<'_> {
        let (user, rest) = split_first_part_or_empty(parts);
        let (host, rest) = split_first_part_or_empty(rest);
        let (interfaces, rest) = split_first_part_or_empty(rest);
        let (policy, rest) = split_first_part_or_empty(rest);
        let (target, rest) = split_first_part_or_empty(rest);
        let (target_group, rest) = split_first_part_or_empty(rest);
        let (stamp, rest) = split_first_part_or_empty(rest);
        let (command, _) = split_first_part_or_empty(rest);
        InquiryParts {
            user,
            host,
            interfaces,
            policy,
            target,
            target_group,
            stamp,
            command,
        }
    }
}

/// Adds the answer to `call`, or why its people are not read; `unknown` if this is not known.
pub fn push_answer_of_people_call(
    alloc: Global,
    call: CaseCall<'_>,
    answers: &mut String,
) -> Result<(), AllocError> {
    let Some(topic) = PeopleTopic::from_topic_byte(call.asked) else {
        return answers.push_str("unknown");
    };
    let (passwd, rest) = split_first_part_or_empty(call.body);
    let (group, parts) = split_first_part_or_empty(rest);
    match People::read(alloc, passwd, group) {
        Ok(people) => push_people_topic_answer(
            alloc,
            &people,
            topic,
            InquiryParts::from_inquiry_parts(parts),
            answers,
        ),
        Err(fault) => push_people_fault(fault, answers),
    }
}

/// Adds what is asked of `people`, or why `words` name nobody.
fn push_people_topic_answer(
    alloc: Global,
    people: &People,
    topic: PeopleTopic,
    words: InquiryParts<'_>,
    answers: &mut String,
) -> Result<(), AllocError> {
    let PeopleTopic::User(inquiry) = topic else {
        return push_users_and_groups(people, answers);
    };
    match push_user_inquiry_answer(alloc, people, inquiry, words, answers) {
        Ok(()) => Ok(()),
        Err(fault) => push_who_fault(fault, answers),
    }
}

/// Adds what is asked about the user and the host that `words` name.
///
/// # Errors
///
/// Those of `who_for` and `request_for`, before anything is added; and `NoMemory`.
fn push_user_inquiry_answer(
    alloc: Global,
    people: &People,
    inquiry: UserInquiryTopic,
    words: InquiryParts<'_>,
    answers: &mut String,
) -> Result<(), WhoFault> {
    let who = who_for(alloc, people, words.user, words.host, words.interfaces)?;
    match inquiry {
        UserInquiryTopic::Who => push_user_groups_host_and_interfaces(&who, answers)?,
        UserInquiryTopic::Listing => {
            policy_questions::push_answer_of_policy_text(
                alloc,
                words.policy,
                PolicyQuestion::Listing(&who),
                answers,
            )?;
        }
        UserInquiryTopic::Default => {
            policy_questions::push_answer_of_policy_text(
                alloc,
                words.policy,
                PolicyQuestion::Default(&who),
                answers,
            )?;
        }
        UserInquiryTopic::Request => push_target_moment_and_command_of_request(
            &request_of_who_and_inquiry_parts(alloc, people, who, words)?,
            answers,
        )?,
        UserInquiryTopic::Allowed => {
            let request = request_of_who_and_inquiry_parts(alloc, people, who, words)?;
            policy_questions::push_answer_of_policy_text(
                alloc,
                words.policy,
                PolicyQuestion::Allowed(&request),
                answers,
            )?;
        }
    }
    Ok(())
}

/// Returns the request of `who` that `words` make.
fn request_of_who_and_inquiry_parts(
    alloc: Global,
    people: &People,
    who: Who,
    words: InquiryParts<'_>,
) -> Result<Request, WhoFault> {
    let group = split_first_part(words.target_group).map(|(name, _)| name);
    let command = words_of_parts(alloc, words.command)?;
    request_for(
        alloc,
        people,
        who,
        words.target,
        group,
        command.as_slice(),
        words.stamp,
    )
}
