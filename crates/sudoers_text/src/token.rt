//! Tokens, and the modes in which a line is read.

/// What a token is.
#[derive(Clone, Copy, Debug, PartialEq, Eq)]
pub enum TokenKind {
    /// One of `!`, `=`, `:`, `,`, `(` and `)`; a scope's sign; `+=` and `-=`.
    Punct,
    /// A number behind `#`, `%#` or `%:#`.
    Id,
    /// A word.
    Word,
    /// A part in double quotes.
    Quoted,
    /// A comment, without its line end.
    Comment,
    /// A command's path.
    Path,
    /// An argument of a command.
    Arg,
    /// The digest of a command.
    Digest,
    /// The name of a parameter.
    Name,
    /// The value of a parameter.
    Value,
    /// A byte with which no piece begins, or all from a `"` on that is never closed.
    Bad,
}

/// A token: its text is the part of the line from `start` up to `stop`, in bytes from 0.
#[derive(Clone, Copy, Debug, PartialEq, Eq)]
pub struct Token {
    pub kind: TokenKind,
    pub start: usize,
    pub stop: usize,
}

/// How a line is read, by what it begins with.
#[derive(Clone, Copy, Debug, PartialEq, Eq)]
pub enum Mode {
    /// Aliases of users, runas users and hosts; includes.
    Words,
    /// Aliases of commands; user specifications.
    Commands,
    /// `Defaults` lines.
    Parameters,
}
