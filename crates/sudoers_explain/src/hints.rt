//! What to do about a mistake: a table of hints.

/// What to do about a mistake.
#[derive(Clone, Copy, Debug, PartialEq, Eq)]
pub enum Hint {
    /// The mark of a merge conflict begins the line.
    MergeMark,
    /// A comment of another language begins the line.
    CommentMark,
    /// A byte order mark begins the line.
    ByteOrderMark,
    /// A keyword of an alias line or a Defaults line is written otherwise.
    Keyword(&'static str),
    /// `Defaults` may be written otherwise, and else a command has no path.
    DefaultsOrRule,
    /// A blank stands behind a backslash.
    BlankAfterBackslash,
    /// A carriage return stands inside the line.
    CarriageReturn,
    /// A curly quotation mark.
    CurlyQuote,
    /// `;` at the end of the line.
    Semicolon,
    /// A regular expression.
    Regex,
    /// A value of NOTBEFORE or NOTAFTER that is no time stamp.
    Stamp,
    /// Digits, `.` and `/` that are no address.
    Address,
    /// An ID above the greatest.
    Id,
    /// A quotation mark that is never closed.
    OpenQuote,
    /// A prefix or quotes without a name.
    EmptyName,
    /// An address of IPv6.
    Ipv6,
    /// A tag that is written otherwise.
    Tag(&'static str),
    /// A sign before a tag.
    SignBeforeTag,
    /// A tag, an option or `(` in an alias line.
    OnlyInRules,
    /// An option or `ALL` in lower case.
    Capitals,
    /// A tag without its colon, or behind its command.
    TagColon,
    /// `=` among the arguments of a command.
    EqualInArguments,
    /// `,` among the arguments of a command.
    CommaInArguments,
    /// `,` at the end of the line.
    CommaAtEnd,
    /// `,` without a member on one of its sides.
    StrayComma,
    /// `,` between a digest and a command.
    CommaBehindDigest,
    /// `:` among the arguments of a command.
    ColonInArguments,
    /// `)` without `(`.
    OpeningParenthesis,
    /// `(` without `)`.
    ClosingParenthesis,
    /// `:` without a group behind it.
    GroupBehindColon,
    /// A path that only a shell would expand.
    ShellPath,
    /// A command without its path.
    FullPath,
    /// A name of an alias that is not in capitals.
    AliasName,
    /// A group whose name has a blank.
    BlankInGroup,
    /// No `=` between hosts and commands.
    EqualBeforeCommands,
    /// No `=` between a parameter and its value.
    EqualBeforeValue,
    /// No `=` behind the name of an alias.
    EqualAfterAlias,
    /// No `=` behind the name of an option.
    EqualAfterOption,
    /// `:` at the end of an alias line.
    ColonAtEnd,
    /// `:` at the end of a rule.
    HostsBehindColon,
    /// A command in quotes.
    QuotedCommand,
    /// A value of several words without quotes.
    QuotedValue,
    /// No `,` between members.
    CommaBetweenMembers,
    /// An include line without a path.
    IncludePath,
    /// A user specification without hosts and commands.
    UserSpecification,
}

/// Returns the spelling that is printed in backquotes behind the words of the hint `hint`; nothing if there is none.
pub fn spelling_of_hint(hint: Hint) -> Option<&'static str> {
    match hint {
        Hint::Keyword(spelling) | Hint::Tag(spelling) => Some(spelling),
        _ => None,
    }
}

/// Returns the words of the hint `hint`: an advice, without a full stop. What `spelling_of_hint` returns follows.
pub fn words_of_hint(hint: Hint) -> &'static str {
    match hint {
        Hint::MergeMark => "resolve the merge conflict: this line is a mark of it",
        Hint::CommentMark => "begin a comment with `#`",
        Hint::ByteOrderMark =>
            "remove the byte order mark before the first word: save the file as UTF-8 without it",
        Hint::Keyword(_) => "the keyword is spelled",
        Hint::DefaultsOrRule =>
            "if the line sets parameters, begin it with `Defaults`; in a rule, write the full path of the command without quotes",
        Hint::BlankAfterBackslash =>
            "remove the blank after the backslash: only a line end continues a line",
        Hint::CarriageReturn => "remove the carriage return: lines end in a line feed",
        Hint::CurlyQuote => "remove the typographic quotes: only the straight `\"` is a quote here",
        Hint::Semicolon => "remove the `;`: a line ends without a sign",
        Hint::Regex =>
            "sudo's regular expressions are not read here: write the arguments, or `*` and `?`",
        Hint::Stamp => "write the time in UTC as YYYYMMDDHHMMSSZ, with `Z` at its end",
        Hint::Address => "write four numbers up to 255, and a mask up to 32 behind `/`",
        Hint::Id => "an ID is at most 4294967295",
        Hint::OpenQuote => "close the quotation mark, or write `\\\"` for the byte itself",
        Hint::EmptyName => "write a name behind the prefix, or between the quotes",
        Hint::Ipv6 => "addresses of IPv6 are not read here",
        words => words_of_mark_hint(words),
    }
}

/// Returns the words of the hint `hint`, if it is about a mark of a line.
fn words_of_mark_hint(hint: Hint) -> &'static str {
    match hint {
        Hint::EqualInArguments => "write `\\=` for `=` in an argument",
        Hint::CommaInArguments =>
            "a comma ends the command: write `\\,` in an argument, and a path from `/` for the next command",
        Hint::CommaAtEnd => "remove the comma at the end, or write a command after it",
        Hint::StrayComma => "remove the comma, or write a member of the list on each side of it",
        Hint::CommaBehindDigest =>
            "remove the comma before the command: behind a digest, a comma leads to another digest",
        Hint::ColonInArguments => "a colon ends the commands: write `\\:` in an argument",
        Hint::OpeningParenthesis => "write `(` before the users as whom the command runs",
        Hint::ClosingParenthesis => "write `)` after the users as whom the command runs",
        Hint::GroupBehindColon => "write a group behind the colon, or remove the colon",
        Hint::EqualBeforeCommands =>
            "write `=` between the hosts and the commands: `USER HOST = COMMAND`",
        Hint::EqualBeforeValue => "write `=` between the parameter and its value",
        Hint::EqualAfterAlias => "write `=` after the name of the alias",
        Hint::EqualAfterOption =>
            "write `=` and the value directly after the option, as `CWD=/dir`",
        Hint::ColonAtEnd => "remove the colon at the end, or write a definition after it",
        Hint::HostsBehindColon =>
            "remove the colon at the end, or write `HOST = COMMAND` after it; in an argument write `\\:`",
        Hint::CommaBetweenMembers => "write `,` between the members of a list",
        words => words_of_word_hint(words),
    }
}

/// Returns the words of the hint `hint`, if it is about a word of a line.
fn words_of_word_hint(hint: Hint) -> &'static str {
    match hint {
        Hint::Tag(_) => "the tag is spelled",
        Hint::SignBeforeTag =>
            "remove the sign before the tag: the opposite of `NOPASSWD:` is `PASSWD:`",
        Hint::OnlyInRules =>
            "write tags, options and `(USERS)` in the rule, before the alias: an alias has commands only",
        Hint::Capitals => "write options and `ALL` in capitals, as `TIMEOUT=5m`",
        Hint::TagColon => "write the tag with its colon before the command: `NOPASSWD: /bin/ls`",
        Hint::ShellPath => "write the full path from `/`: only a shell expands `~` and `$HOME`",
        Hint::FullPath => "write the full path of the command, as `/usr/bin/ls`",
        Hint::AliasName =>
            "begin the name of an alias with a capital letter, and go on with capitals, digits and `_`",
        Hint::BlankInGroup =>
            "write the blank in a name as `\\ `, or the name in quotes: `\"%domain admins\"`",
        Hint::QuotedCommand => "remove the quotes around the command",
        Hint::QuotedValue => "write a value of several words in one pair of quotes: `\"A B\"`",
        Hint::IncludePath =>
            "write the path of a file after `@include`, of a folder after `@includedir`",
        _ => "a rule has the form `USER HOST = COMMAND`",
    }
}
