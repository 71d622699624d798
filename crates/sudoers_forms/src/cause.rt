//! Why sudo answers a request otherwise than this toolkit.

/// Why sudo answers a request otherwise than this toolkit.
#[derive(Clone, Copy, PartialEq, Eq)]
pub enum Cause {
    /// An alias among the users of a Runas_Spec with groups.
    AliasBesideGroup,
    /// A user of a Runas_Spec with groups.
    UserBesideGroup,
    /// Groups alone in a Runas_Spec.
    GroupAlone,
    /// An alias among the groups of a Runas_Spec.
    GroupAlias,
    /// An empty Runas_Spec.
    EmptyRunas,
    /// A network with a mask of 0 bits.
    NoMaskBits,
    /// An address or a network of the loopback.
    Loopback,
    /// A wildcard in a quoted host.
    QuotedWildcard,
    /// An escaped wildcard or backslash in a host.
    EscapedWildcard,
    /// `\x` in a host without quotes.
    HostEscape,
    /// A set `[^x]` in a host.
    SetInHost,
    /// A set `[^x]` in arguments.
    SetInArgument,
    /// Two backslashes in arguments.
    TwoBackslashes,
    /// The one argument `""`.
    EmptyArgument,
    /// `\x` in a quoted name.
    QuotedEscape,
    /// The digest of a command.
    Digest,
    /// A netgroup of users or hosts.
    Netgroup,
    /// A group that is none of the system's.
    NonUnixGroup,
    /// `!case_insensitive_user`.
    CaseOfUsers,
    /// `!case_insensitive_group`.
    CaseOfGroups,
    /// `requiretty`.
    Terminal,
    /// `runas_check_shell`.
    Shell,
    /// `runchroot`.
    OtherRoot,
    /// `!root_sudo`.
    RootUser,
    /// `match_group_by_gid`.
    GroupNumbers,
    /// `runas_default` of targets or commands.
    OtherTarget,
}

/// Returns what sudo does for the cause `cause`, and what to write.
pub fn words_of_cause(cause: Cause) -> &'static str {
    match cause {
        Cause::AliasBesideGroup => "with -g no alias before : matches; write its members",
        Cause::UserBesideGroup => "with -g alone a user may run it as himself",
        Cause::GroupAlone => "without -g the user may not run it as himself",
        Cause::GroupAlias => "no alias behind : matches; write its members",
        Cause::EmptyRunas => "without -u the user runs it as himself",
        Cause::Digest => "a digest is compared with the file, and matches nothing here",
        Cause::Netgroup => "a netgroup has members, and matches nothing here",
        Cause::NonUnixGroup => "a group of a plugin has members, and matches nothing here",
        _ => words_of_spelling(cause),
    }
}

/// Returns the words of a cause that is a spelling, or of a parameter.
fn words_of_spelling(cause: Cause) -> &'static str {
    match cause {
        Cause::NoMaskBits => "a mask of 0 bits matches no host; write ALL",
        Cause::Loopback => "an address of the loopback matches no host; write the name of the host",
        Cause::QuotedWildcard => "a wildcard in quotes is one; write it without quotes",
        Cause::EscapedWildcard =>
            "an escaped wildcard of a host is one; write it without a backslash",
        Cause::HostEscape => "\\x in a host is an escape; write the byte",
        Cause::SetInHost => "[^ begins a set of other bytes; write [\\!",
        Cause::SetInArgument => "[^ begins a set of other bytes; write [!",
        Cause::TwoBackslashes =>
            "two backslashes escape the byte behind them; write ? for a backslash",
        Cause::EmptyArgument => "one empty argument does not match",
        Cause::QuotedEscape => "\\x in quotes is no escape; write the byte",
        _ => words_of_parameter(cause),
    }
}

/// Returns the words of a cause that is a parameter.
fn words_of_parameter(cause: Cause) -> &'static str {
    match cause {
        Cause::CaseOfUsers => "names of users are compared with their case",
        Cause::CaseOfGroups => "names of groups are compared with their case",
        Cause::Terminal => "nothing is allowed without a terminal",
        Cause::Shell => "a target needs a shell of /etc/shells",
        Cause::OtherRoot => "commands are looked for below another root",
        Cause::RootUser => "root may run nothing",
        Cause::GroupNumbers => "groups are compared by their numbers",
        _ => "another target holds where none is asked for",
    }
}
