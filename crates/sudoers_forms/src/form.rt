//! The forms that sudo refuses, or reads otherwise.

/// A form that sudo refuses, or reads otherwise.
#[derive(Clone, Copy, PartialEq, Eq)]
pub enum Form {
    /// A comment begins with a number.
    NumberedComment,
    /// A line begins with `#-` and a digit, and may be a rule.
    NumberedLine,
    /// A comment is `#-`, or CR follows its `#` or `#-`.
    BrokenComment,
    /// A path has an escape that sudo does not know.
    PathEscape,
    /// A path goes on with an escape that sudo knows in arguments alone.
    PathArguments,
    /// A quote follows a path directly.
    PathQuote,
    /// A path has 4,096 bytes or more.
    LongPath,
    /// The path `/` alone.
    RootPath,
    /// `sudoedit` with a path.
    EditorPath,
    /// An argument has an escape that sudo does not know.
    ArgumentEscape,
    /// A quoted argument has a `#` without a backslash.
    ArgumentHash,
    /// A backslash and blanks end a line.
    BlankContinuation,
    /// A digest has another size than those of its kind.
    DigestSize,
    /// CR LF follows a command.
    CommandReturn,
    /// A backslash and CR LF follow a word or a path directly.
    WordReturn,
    /// The same behind the last word of an alias.
    LastWordReturn,
    /// A word holds `>` without a backslash, or an escaped tab.
    WordByte,
    /// A name begins with `/`.
    SlashName,
    /// A name is a regular expression.
    RegexName,
    /// A name begins a command for sudo.
    ReservedName,
    /// A name is an option for sudo.
    OptionName,
    /// A group among hosts or groups, or a netgroup among groups.
    GroupName,
    /// An address as a user or a group.
    AddressName,
    /// `%` or `+` without a name.
    EmptyGroup,
    /// A tag with its `:` among names.
    TagName,
    /// A continuation before the `:` of a tag.
    TagContinuation,
    /// An option that sudo was built without.
    UnknownOption,
    /// A value of CWD or CHROOT that is no folder.
    FolderValue,
    /// A value of TIMEOUT that is no time.
    TimeValue,
    /// A value of an option that is no name.
    ValueWord,
    /// A text in quotes ends with a backslash.
    QuotedBackslash,
    /// Something stands between two `!`.
    SplitMarks,
    /// A continuation before the first word of Defaults, aliases or an include line.
    FirstContinuation,
    /// A name that begins a line for sudo.
    LineWord,
    /// Something ends a scope of Defaults.
    SplitScope,
    /// No blank follows Defaults or its scope.
    ScopeEnd,
    /// A scope begins with a quoted name of a blank or a mark.
    ScopeQuote,
    /// A comment that begins with `#include`, in a row of its own.
    IncludeComment,
    /// A comment that begins with `#include`, alone in its line.
    HashInclude,
    /// Blanks stand before `#include`.
    IndentedInclude,
    /// The name of an included file goes on behind its end.
    IncludeEnd,
    /// The name of an included file ends before its end.
    IncludeSpace,
    /// A quoted name of an included file has an escape with `x`.
    IncludeEscape,
    /// The name of an included file has `%h`.
    IncludeHost,
    /// A quoted name of an included file begins with `%` or `+`.
    IncludeSign,
}

impl Form {
    /// Returns whether sudo reads the form, and reads it otherwise. A policy with it may be refused all the same.
    pub fn is_read_otherwise(self) -> bool {
        matches!(
            self,
            Form::NumberedLine
                | Form::ArgumentHash
                | Form::LastWordReturn
                | Form::PathArguments
                | Form::PathQuote
                | Form::BlankContinuation
                | Form::HashInclude
                | Form::IndentedInclude
                | Form::IncludeEnd
                | Form::IncludeSpace
                | Form::IncludeEscape
                | Form::IncludeHost
        )
    }
}

/// Returns what sudo makes of the form `form`, and what both programs read in its place.
pub fn words_of_form(form: Form) -> &'static str {
    match form {
        Form::NumberedComment => "# and a number are a user ID; write a blank behind #",
        Form::NumberedLine => "#- and a digit are a user ID; write a blank behind #",
        Form::BrokenComment => "#- or CR behind #; write a blank behind #",
        Form::ArgumentEscape => {
            "an escape in arguments of another byte than , : = # * ? [ ] ! ^, a backslash and blanks"
        }
        Form::ArgumentHash => "# in quotes begins a comment; write a backslash before it",
        Form::BlankContinuation => "a backslash and blanks at a line end continue the line",
        Form::DigestSize => "a digest of a wrong length",
        Form::QuotedBackslash => "a backslash before the closing quote",
        Form::SplitMarks => "something between two !; write them together",
        Form::FirstContinuation => "a continuation before the first word",
        Form::SplitScope =>
            "a blank or a continuation that ends the scope; write the scope without it",
        Form::ScopeEnd => "no blank behind Defaults or its scope",
        Form::ScopeQuote =>
            "a quoted name that begins with a blank or a mark; write a backslash before these, without quotes",
        _ => words_of_include(form),
    }
}

/// Returns the words of a form of an include line, or of another form.
fn words_of_include(form: Form) -> &'static str {
    match form {
        Form::LineWord =>
            "a name that begins a line of Defaults, aliases or includes; write it in quotes",
        Form::IncludeComment | Form::HashInclude => {
            "#include begins a row; write a blank behind #"
        }
        Form::IndentedInclude => "blanks before #include make it a comment; remove them",
        Form::IncludeEnd =>
            "# or a backslash directly behind a name is a part of it; write a blank before it",
        Form::IncludeSpace => "a name ends at an unusual space; write it in quotes",
        Form::IncludeEscape => "\\x in quotes is no escape; write the byte",
        Form::IncludeHost => "%h is the name of the host; write the whole name",
        Form::IncludeSign => "a quoted name that begins with % or +; write it without quotes",
        _ => words_of_command_or_name(form),
    }
}

/// Returns the words of a form of a command, a name or a value.
fn words_of_command_or_name(form: Form) -> &'static str {
    match form {
        Form::PathEscape => "an escape in a path of another byte than , : = # and blanks",
        Form::PathArguments => "an escape in a path that begins the arguments",
        Form::PathQuote => "a quote in a path is a byte of it; write a blank before it",
        Form::LongPath => "a path of more than 4095 bytes",
        Form::RootPath => "the command /",
        Form::EditorPath => "sudoedit with a path; write sudoedit alone",
        Form::CommandReturn => "CR LF directly behind a command; write LF",
        Form::WordReturn | Form::LastWordReturn =>
            "a backslash and CR LF directly behind a word; write LF",
        Form::WordByte => "> without a backslash in a word, or a tab with one",
        Form::SlashName => "a name that begins with /; write it in quotes",
        Form::RegexName => "a name that is a regular expression; write it in quotes",
        Form::ReservedName => "a word that begins a command; write it in quotes",
        Form::OptionName => "an option among names; a tag before it may be misspelt",
        Form::GroupName => "a name with % or +, which may not stand here",
        Form::AddressName => "an address as a user or a group; write it in quotes",
        Form::EmptyGroup => "% or + without a name",
        Form::TagName => "a tag and : among names",
        Form::TagContinuation => "a continuation before the : of a tag",
        Form::UnknownOption => "an option that sudo of Debian does not have",
        Form::FolderValue => "takes a folder without quotes that begins with / or ~, or *",
        Form::TimeValue => "takes a time below 2147483648 seconds, as 90 or 1h30m",
        _ => "a value that is no name; write it in quotes",
    }
}
