//! What to do about an error of an edit script or of an edit: a table of hints.

use std::alloc::{AllocError, Global};
use sudoers_explain::append_help;
use sudoers_text::append_decimal_number;

/// What to do about an error of an edit script or of an edit.
#[derive(Clone, Copy, Debug, PartialEq, Eq)]
pub enum EditHint {
    /// A line of a script has no byte.
    EmptyLine,
    /// A line of a script ends in a carriage return.
    CarriageReturnAtEnd,
    /// A line of a script has a comment.
    Comment,
    /// A line of a script begins with a blank.
    BlankAtBeginning,
    /// A line of a script ends in a blank.
    BlankAtEnd,
    /// Two blanks stand between words of a script.
    TwoBlanks,
    /// A tab stands in a line of a script.
    Tab,
    /// A command is written in capitals.
    SmallLetters,
    /// A word is almost a command.
    NearestCommand,
    /// A word asks to take edits back.
    Undo,
    /// A word is no command.
    Command,
    /// The last line of a script has no LF.
    LineEnd,
    /// A command has too few or too many words.
    Form,
    /// A kind of aliases is none.
    Kind,
    /// A number is none.
    Number,
    /// A `file` line sets the file that is set.
    FileIsSet,
    /// No command that names lines follows a `file` line.
    FileBeforeCommand,
    /// A text line stands where none may.
    TextLine,
    /// A text line follows a `>` line.
    LastTextLine,
    /// A `>` line without a text follows `|` lines.
    EmptyTextLine,
    /// A line that may be part of a text lacks its mark.
    TextMark,
    /// The line to insert is missing.
    LineText,
    /// The member to add is missing.
    MemberText,
    /// The definition to add is missing.
    DefinitionText,
    /// A script has too many commands.
    ScriptLimit,
    /// The undo script has too many commands.
    UndoLimit,
    /// A number is above the greatest.
    Range,
    /// A number is above the greatest that the edits before leave.
    RangeAfterEdits,
    /// The policy has one file.
    OneFile,
    /// The file has no line.
    NoLines,
    /// The text to insert has several lines.
    OneInsertEach,
    /// The text to insert has no byte.
    EmptyInsert,
    /// The text to insert ends in a backslash.
    Continued,
    /// The text to insert has a NUL byte.
    Nul,
    /// The text to insert is too long.
    LineLimit,
    /// The text to insert has no LF, and another line follows.
    LineFeed,
    /// The last line has no LF.
    EndLineFirst,
    /// The alias has another kind.
    OtherKind,
    /// A file that no line includes defines the alias.
    IncludeFile,
    /// An alias is not defined.
    ShowNames,
    /// A line is no alias line.
    AliasLine,
    /// The only definition of a line.
    DeleteLine,
    /// The only member of one definition of several.
    DropDefinition,
    /// A reserved word as a name.
    ReservedName,
    /// A name that no alias has.
    FreshName,
    /// A name that another alias has.
    OtherName,
    /// An edit that would change nothing.
    LeaveOut,
    /// A result that is too large.
    SizeLimits,
    /// A member without its comma.
    CommaBefore,
    /// A first member without its comma.
    CommaAfter,
    /// A definition without its colon.
    ColonBefore,
    /// A first definition without its colon.
    ColonAfter,
    /// A text of a member or definition ends in LF.
    SpliceLineEnd,
    /// A text of a member or definition has LF inside.
    InnerLineEnd,
    /// A blank at the end of a text.
    BlankBehind,
    /// A blank at the beginning of a text.
    BlankInFront,
    /// A backslash at the end of a text.
    BackslashBehind,
    /// Two members.
    OneAddEach,
    /// Two definitions.
    OneAddDefEach,
    /// A definition in the place of a member.
    AddDefinition,
    /// A comment in a text.
    CommentInText,
    /// With the text the rest of the line would say something else.
    OtherText,
    /// Without a member or a definition the rest of the line would say something else.
    OtherReading,
    /// The definitions of a prune cannot be dropped.
    PruneByHand,
    /// No mark between script and policy.
    Mark,
    /// No input.
    EmptyInput,
    /// A carriage return behind the mark.
    MarkCarriageReturn,
    /// A mark without LF.
    MarkLineEnd,
    /// A mark that is no line of its own.
    MarkOwnLine,
    /// A blank behind the mark.
    MarkBlank,
    /// A file of a bundle has no header.
    Header,
    /// A file of a bundle has too few bytes.
    HeaderLength,
    /// A name of a file of a bundle.
    HeaderName,
    /// An input that is too large.
    InputLimit,
    /// A file of `--also` that is there already.
    AlsoTwice,
}

/// Returns the words of the hint `hint`: an advice, without a full stop. Of some hints a word in backquotes or a number follows.
pub fn words_of_edit_hint(hint: EditHint) -> &'static str {
    match hint {
        EditHint::EmptyLine => "remove the empty line",
        EditHint::CarriageReturnAtEnd => "remove the carriage return at the end of the line",
        EditHint::Comment => "remove the comment: a script has none",
        EditHint::BlankAtBeginning => "remove the blank at the beginning of the line",
        EditHint::BlankAtEnd => "remove the blank at the end of the line",
        EditHint::TwoBlanks => "write one blank between two words",
        EditHint::Tab => "write a blank in place of the tab",
        EditHint::SmallLetters => "write the command in small letters:",
        EditHint::NearestCommand => "the command is spelled",
        EditHint::Undo => "use the option `--undo N` of `edit`: a script has no such command",
        EditHint::Command =>
            "a command is `insert`, `delete`, `move`, `add`, `drop`, `adddef`, `dropdef`, `rename`, `endline`, `openend` or `prune`",
        EditHint::LineEnd => "write a line feed at the end of the last line",
        EditHint::Form => "write the command as",
        EditHint::Kind => "write `user`, `runas`, `host` or `cmnd` as the kind of the alias",
        EditHint::Number => "write a decimal number from 1 to 4294967296, without a leading zero",
        EditHint::FileIsSet => "remove the line: this file is set already",
        EditHint::FileBeforeCommand =>
            "write a `file` line directly before `insert`, `delete`, `move`, `adddef`, `dropdef`, `endline` or `openend`",
        words => words_of_text_hint(words),
    }
}

/// Returns the words of the hint `hint`, if it is about the text of an edit or the size of a script.
fn words_of_text_hint(hint: EditHint) -> &'static str {
    match hint {
        EditHint::TextLine => "write `|` and `>` lines only after `insert`, `add` or `adddef`",
        EditHint::LastTextLine => "begin each line of a text but its last with `|`",
        EditHint::EmptyTextLine => "remove the line: after `|` lines a `>` line has a text",
        EditHint::TextMark => "begin the line with `|` if it belongs to the text before it",
        EditHint::LineText => "write the line to insert after the command, with `|` before it",
        EditHint::MemberText =>
            "write the member after the command, as `>, dan`, or as `>dan, ` for the first place",
        EditHint::DefinitionText =>
            "write the definition after the command, as `> : B = x`, or as `>B = x : ` for the first place",
        EditHint::ScriptLimit => "split the script: it has at most 65536 commands",
        EditHint::UndoLimit => "split the script: its undo script has at most 65536 commands",
        EditHint::OneInsertEach => "write one `insert` for each line",
        EditHint::EmptyInsert => "write `|` for an empty line",
        EditHint::Continued => "remove the backslash, or write the line that goes on",
        EditHint::Nul => "remove the byte: a policy is text",
        EditHint::LineLimit => "a line has at most 65536 bytes, with the lines that continue it",
        EditHint::LineFeed => "begin the line with `|`, which adds the line feed",
        words => words_of_refusal_hint(words),
    }
}

/// Returns the words of the hint `hint`, if it is about what a policy has.
fn words_of_refusal_hint(hint: EditHint) -> &'static str {
    match hint {
        EditHint::Range => "write a number from 1 to",
        EditHint::RangeAfterEdits => "the edits before changed the numbers: write one from 1 to",
        EditHint::OneFile => "remove the `file` line: the policy has one file",
        EditHint::NoLines => "insert a line first: the file is empty",
        EditHint::EndLineFirst => "write `endline` before this command",
        EditHint::OtherKind => "write the kind of the alias:",
        EditHint::IncludeFile => "include the file, or edit its lines by their numbers",
        EditHint::ShowNames => "`sudoers_tool show` prints the names of the aliases",
        EditHint::AliasLine =>
            "name an alias line: `sudoers_tool show` prints the numbers of the lines",
        EditHint::DeleteLine => "delete the line, or add another member first",
        EditHint::DropDefinition => "use `dropdef` for the definition, or add another member first",
        EditHint::ReservedName => "choose another name: this is a reserved word",
        EditHint::FreshName =>
            "begin the name of an alias with a capital letter, and go on with capitals, digits and `_`",
        EditHint::OtherName => "choose another name, or rename that alias first",
        EditHint::LeaveOut => "leave this command out",
        EditHint::SizeLimits => "a file has at most 1048576 bytes, and a line 65536",
        words => words_of_splice_hint(words),
    }
}

/// Returns the words of the hint `hint`, if it is about the text of a member or a definition.
fn words_of_splice_hint(hint: EditHint) -> &'static str {
    match hint {
        EditHint::CommaBefore => "write a comma before the member, as `>, dan`",
        EditHint::CommaAfter => "write a comma after the first member, as `>dan, `",
        EditHint::ColonBefore => "write a colon before the definition, as `> : B = x`",
        EditHint::ColonAfter => "write a colon after the first definition, as `>B = x : `",
        EditHint::SpliceLineEnd => "write `>` before the text: `|` adds a line feed",
        EditHint::InnerLineEnd => "remove the line end, or write a backslash before it",
        EditHint::BlankBehind => "remove the blank at the end of the text",
        EditHint::BlankInFront => "remove the blank at the beginning of the text",
        EditHint::BackslashBehind =>
            "remove the backslash at the end of the text: it would belong to what follows",
        EditHint::OneAddEach => "write one `add` for each member",
        EditHint::OneAddDefEach => "write one `adddef` for each definition",
        EditHint::AddDefinition => "use `adddef` for a definition: `add` takes a member",
        EditHint::CommentInText => "remove the comment: it would take the rest of the line",
        EditHint::OtherText =>
            "write another text: with this one the rest of the line would say something else",
        EditHint::OtherReading =>
            "delete the line and insert it anew: the rest of it would say something else",
        EditHint::PruneByHand =>
            "delete the line of an unused alias and insert it anew: the rest of it would say something else",
        words => words_of_input_hint(words),
    }
}

/// Returns the words of the hint `hint`, which is about the input of `edit`.
fn words_of_input_hint(hint: EditHint) -> &'static str {
    match hint {
        EditHint::Mark => "write a line `%%` between the script and the policy",
        EditHint::MarkCarriageReturn => "remove the carriage return after `%%`",
        EditHint::MarkLineEnd => "write a line feed after `%%`",
        EditHint::MarkOwnLine => "write a line feed before `%%`",
        EditHint::MarkBlank => "remove the blank after `%%`: with it a bundle begins",
        EditHint::Header =>
            "write a line `%% LENGTH NAME` before each file, with the number of its bytes",
        EditHint::HeaderLength => "write how many bytes the file has: at most",
        EditHint::HeaderName => "rename the file: a bundle has no name with a line feed",
        EditHint::InputLimit =>
            "split the script and apply its parts one after another: the input has at most 4000000 bytes",
        EditHint::AlsoTwice => "leave out `--also`: the policy has this file already",
        _ => "write SCRIPT, a line `%%` and POLICY to standard input",
    }
}

/// Appends the line with the advice of `hint`.
///
/// # Errors
///
/// Memory ran out.
pub fn append_advice(out: &mut Vec<u8>, hint: EditHint) -> Result<(), AllocError> {
    append_help(out, &[words_of_edit_hint(hint).as_bytes()])
}

/// Appends the line with the advice of `hint`, and the word `word` in backquotes behind it.
///
/// # Errors
///
/// Memory ran out.
pub fn append_advice_with_word(
    alloc: Global,
    out: &mut Vec<u8>,
    hint: EditHint,
    word: &[u8],
) -> Result<(), AllocError> {
    let mut advice = Vec::from_slice(alloc, words_of_edit_hint(hint).as_bytes())?;
    advice.extend_from_slice(b" `")?;
    advice.extend_from_slice(word)?;
    advice.extend_from_slice(b"`")?;
    append_help(out, &[advice.as_slice()])
}

/// Appends the line with the advice of `hint`, and the number `number` behind it.
///
/// # Errors
///
/// Memory ran out.
pub fn append_advice_with_number(
    alloc: Global,
    out: &mut Vec<u8>,
    hint: EditHint,
    number: usize,
) -> Result<(), AllocError> {
    let mut advice = Vec::from_slice(alloc, words_of_edit_hint(hint).as_bytes())?;
    advice.extend_from_slice(b" ")?;
    append_decimal_number(alloc, &mut advice, number)?;
    append_help(out, &[advice.as_slice()])
}
