//! What is asked of a policy.

use std::alloc::AllocError;
use sudoers_grammar::Items;
use sudoers_list_people::WhoFault;
use sudoers_match_list::AskFault;
use thiserror::Error;

/// Two names of one folder, without a `/` at the end.
#[derive(Clone, Copy)]
pub struct FolderPair<'a> {
    pub first: &'a [u8],
    pub second: &'a [u8],
}

/// A command that users ask for: as whom it is to run, where and when.
#[derive(Clone, Copy)]
pub struct CommandQuestion<'a> {
    /// The command and its arguments.
    pub words: &'a [Items<u8>],
    /// Folders that are one: a path below a folder of a pair may be spelled below the other too.
    pub same: &'a [FolderPair<'a>],
    /// The user as whom the command is to run, if one is named.
    pub target: Option<&'a [u8]>,
    /// The group as which it is to run, if one is named.
    pub group: Option<&'a [u8]>,
    /// The long name of the host.
    pub host: &'a [u8],
    /// The interfaces of the host: `ADDRESS/BITS`, joined by `,`.
    pub interfaces: &'a [u8],
    /// The moment, as a time stamp with a `Z`.
    pub moment: &'a [u8],
}

/// Why a question has no answer.
#[derive(Clone, Copy, Debug, PartialEq, Eq, Error)]
pub enum QuestionFault {
    /// The words of the question name nobody, no address or no moment.
    #[error("{0}")]
    Who(WhoFault),
    /// The policy gives no answer.
    #[error("{0:?}")]
    Ask(AskFault),
}

impl From<WhoFault> for QuestionFault {
    ghost use Rattle.std.specs.Prelude.{◌≡◌};
    ghost use Rattle.sudoers_ask.specs.declared.question.QuestionFault.TheVariants.{Who};

    ghost from_gives = { λ fault e. e ≡ Who fault };

    fn from(fault: WhoFault) -> QuestionFault {
        QuestionFault::Who(fault)
    }
}

impl From<AskFault> for QuestionFault {
    ghost use Rattle.std.specs.Prelude.{◌≡◌};
    ghost use Rattle.sudoers_ask.specs.declared.question.QuestionFault.TheVariants.{Ask};

    ghost from_gives = { λ fault e. e ≡ Ask fault };

    fn from(fault: AskFault) -> QuestionFault {
        QuestionFault::Ask(fault)
    }
}

impl From<AllocError> for QuestionFault {
    ghost use Rattle.std.specs.Prelude.{◌≡◌};
    ghost use Rattle.sudoers_match_list.specs.declared.verdict.AskFault.TheVariants.{NoMemory};
    ghost use Rattle.sudoers_ask.specs.declared.question.QuestionFault.TheVariants.{Ask};

    ghost from_gives = { λ _ e. e ≡ Ask NoMemory };

    fn from(_: AllocError) -> QuestionFault {
        QuestionFault::Ask(AskFault::NoMemory)
    }
}
