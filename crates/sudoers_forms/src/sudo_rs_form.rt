//! The forms that sudo-rs refuses.

/// A form that visudo of sudo-rs refuses.
#[derive(Clone, Copy, PartialEq, Eq)]
pub enum SudoRsForm {
    /// A name with `+`.
    Netgroup,
    /// A name with `%` among groups.
    GroupSign,
    /// A name in quotes among hosts or groups.
    QuotedName,
    /// A user in quotes with a byte that sudo-rs does not take there.
    QuotedUser,
    /// A name of a user or a group with a byte that sudo-rs does not take there.
    NameByte,
    /// A host of other bytes than those of names, as a network or a wildcard.
    HostByte,
    /// The command `list`.
    ListCommand,
    /// `sudoedit` in a rule.
    Editor,
    /// The digest of a command.
    Digest,
    /// An option that is not CWD.
    UnknownOption,
    /// `NOEXEC` or `INTERCEPT`.
    UnknownTag,
    /// An escape in a command of a byte that sudo-rs does not escape.
    Escape,
    /// A `[` in a path that no `]` closes.
    OpenSet,
    /// A tab or a continuation before or in an argument.
    ArgumentGap,
    /// A value of CWD that is no folder.
    Folder,
    /// Two `!` before a parameter.
    TwoMarks,
    /// CR before a line end.
    Return,
}

/// Returns what is wrong with the form `form`, and what to write.
pub fn words_of_sudo_rs_form(form: SudoRsForm) -> &'static str {
    match form {
        SudoRsForm::Netgroup => "no netgroups",
        SudoRsForm::GroupSign => "% among groups; write the name alone",
        SudoRsForm::QuotedName => "no quotes among hosts and groups",
        SudoRsForm::QuotedUser =>
            "a quoted name with a quote, a tab or a line end, or that begins with another byte than a letter, a digit and ! ( ) , - . : = \\",
        SudoRsForm::NameByte =>
            "another byte than a letter, a digit, - . and _ in a name, or _ before it; write it in quotes",
        SudoRsForm::HostByte =>
            "another byte than a letter, a digit, - . and _ in a host; no networks and wildcards",
        SudoRsForm::ListCommand => "no command list",
        SudoRsForm::Editor => "no sudoedit in a rule",
        SudoRsForm::Digest => "no digests",
        _ => words_of_command(form),
    }
}

/// Returns the words of a form of a command, a parameter or a line end.
fn words_of_command(form: SudoRsForm) -> &'static str {
    match form {
        SudoRsForm::UnknownOption => "no options but CWD",
        SudoRsForm::UnknownTag => "no NOEXEC and INTERCEPT",
        SudoRsForm::Escape => "an escape of another byte than , : = # a backslash and a space",
        SudoRsForm::OpenSet => "a [ in a path that no ] closes",
        SudoRsForm::ArgumentGap => "a tab or a continuation before an argument; write a space",
        SudoRsForm::Folder =>
            "takes a folder without quotes and wildcards that begins with / or ~, or *",
        SudoRsForm::TwoMarks => "two ! before a parameter; write none",
        _ => "CR before a line end; write LF alone",
    }
}
