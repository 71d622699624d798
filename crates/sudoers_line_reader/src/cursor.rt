//! A cursor over the tokens of a line.

ghost use Rattle.std.specs.Prelude.{◌≡◌, Bool, Option, drop, map, not, option_and_then, option_map};
ghost use Rattle.sudoers_grammar.specs.Seen.{model_of_token_part};
ghost use Rattle.sudoers_text.specs.LineMode.{line_mode};
ghost use Rattle.sudoers_text.specs.Found.{tokens_of_line};
ghost use Rattle.sudoers_grammar.specs.Piece.{TokenWithBytes, tokens_with_bytes, is_mark_of_byte, is_alias_name, alias_kind_of_token, include_is_dir_of_token, option_of_token, tag_and_sign_of_token, digest_kind_of_token};
ghost use Rattle.sudoers_grammar.specs.Grammar.{is_defaults, start_of_first_token};
ghost use Rattle.sudoers_line_reader.specs.Reader.{is_next_token, one_token_reader, passing_token_reader};
ghost use Rattle.sudoers_line_reader.specs.Descent.{is_any_token, is_argument_token, is_comment_token, is_digest_token, is_argument_token_but_no_regex, is_inside_runas_users, has_meaning_by};
ghost use Rattle.sudoers_line_reader.specs.internal.Cursor.{first_token_option, value_itself, ReadsAsOutcome};
ghost use Rattle.sudoers_line_reader.specs.internal.Source.{tokens_of_source};

use std::alloc::AllocError;
use std::marker::Model;
use sudoers_grammar::{
    DigestKind, Kind, OptionName, Tag, TokenWithText, add_text_to_token, begins_with_byte,
};
use sudoers_text::{LineTokens, TokenKind, choose_line_mode};

/// Why a reader halts.
#[derive(Clone, Copy)]
pub enum HaltCause {
    /// The next token, or the end of the line, is the line's first error.
    Fault,
    /// A growth of memory was refused.
    NoMemory,
}

/// What a reader answers.
pub type ReadResult<T> = Result<T, HaltCause>;

impl From<AllocError> for HaltCause {
    ghost use Rattle.std.specs.Prelude.{◌≡◌};
    ghost use Rattle.sudoers_line_reader.specs.declared.cursor.HaltCause.TheVariants.{NoMemory};

    ghost from_gives = { λ _ e. e ≡ NoMemory };

    fn from(_error: AllocError) -> HaltCause {
        HaltCause::NoMemory
    }
}

/// Where the tokens behind the next one come from.
#[derive(Drop)]
enum TokenSource<'a> {
    /// A line, in which each is found as it is taken.
    Line(LineTokens<'a>),
    /// These tokens.
    List(&'a [TokenWithText<'a>]),
}

/// The tokens that are left of a line.
#[derive(Drop)]
pub struct TokenCursor<'a> {
    /// The next token, if one is left.
    next: TokenWithText<'a>,
    is_one_left: bool,
    behind: TokenSource<'a>,
    /// Where the line stands in the table of bytes, if it does.
    place: usize,
}

impl<'a> Model for TokenCursor<'a> {
    ghost use Rattle.std.specs.Prelude.{List};
    ghost use Rattle.sudoers_grammar.specs.Piece.{TokenWithBytes};
    ghost use Rattle.sudoers_line_reader.specs.internal.Source.{tokens_from_next, tokens_of_source};

    ghost Value = { List TokenWithBytes };

    ghost view = { λ c. tokens_from_next c.is_one_left c.next (tokens_of_source c.behind) };
}

/// A token that stands before all others, and is passed at once.
const BEFORE_ALL: TokenWithText<'static> = TokenWithText {
    kind: TokenKind::Bad,
    text: b"",
    start: 0,
    stop: 0,
    last: false,
};

impl<'a> TokenCursor<'a> {
    /// Returns a cursor before all tokens of `source`, whose line stands at `place` of the table of bytes, if it does.
    fn from_source(source: TokenSource<'a>, place: usize) -> Self
        ensures { result ≡ tokens_of_source source.entry }
    {
        let mut cursor = TokenCursor {
            next: BEFORE_ALL,
            is_one_left: true,
            behind: source,
            place,
        };
        cursor.pass_next_token();
        cursor
    }

    /// Returns a cursor before all tokens of `line`, which stands at `place` of the table of bytes, if it does.
    pub fn from_line(line: &'a [u8], place: usize) -> Self
        ensures { result ≡ tokens_with_bytes line.now (tokens_of_line (line_mode line.now) line.now) }
    {
        let tokens = LineTokens::from_line(line, choose_line_mode(line));
        Self::from_source(TokenSource::Line(tokens), place)
    }

    /// Returns a cursor before all these tokens.
    pub fn new(left: &'a [TokenWithText<'a>]) -> Self
        ensures { result ≡ map model_of_token_part left.now }
    {
        Self::from_source(TokenSource::List(left), 0)
    }

    /// Returns the next token.
    pub fn peek(&self) -> Option<TokenWithText<'a>>
        ensures { option_map model_of_token_part result ≡ first_token_option self.now }
    {
        if self.is_one_left {
            Some(self.next)
        } else {
            None
        }
    }

    /// Returns where the byte `stop` of the line stands in the table of bytes, if the line stands there.
    pub fn find_end_in_bytes(&self, stop: usize) -> usize {
        self.place.saturating_add(stop)
    }

    /// Passes the next token.
    #[inline(never)]
    pub fn pass_next_token(&mut self)
        ensures { self.new ≡ drop 1 self.old }
    {
        if !self.is_one_left {
            return;
        }
        match &mut self.behind {
            TokenSource::Line(left) => {
                let line = left.line();
                match left.take_next_token() {
                    Some(token) => {
                        let part = add_text_to_token(line, &token);
                        self.next.kind = part.kind;
                        self.next.text = part.text;
                        self.next.start = part.start;
                        self.next.stop = part.stop;
                        self.next.last = part.last;
                    }
                    None => {
                        self.is_one_left = false;
                    }
                }
            }
            TokenSource::List(tokens) => {
                match *tokens {
                    [token, left @ ..] => {
                        *tokens = left;
                        self.next = *token;
                    }
                    [] => {
                        self.is_one_left = false;
                    }
                }
            }
        }
    }

    /// Returns whether the next token is this mark.
    pub fn is_at_mark(&self, mark: u8) -> bool
        ensures { result ≡ is_next_token (is_mark_of_byte mark) self.now }
    {
        self.peek().is_some_and(|part| part.is_punct_mark(mark))
    }

    /// Returns where the next token begins; 0 if none is left.
    pub fn start_of_next_token_or_zero(&self) -> usize
        ensures { result ≡ start_of_first_token self.now }
    {
        match self.peek() {
            None => 0,
            Some(part) => part.start,
        }
    }

    /// Passes the next token, if it is said to be one that may stand here.
    pub fn pass_token_if_allowed_or_halt(&mut self, holds: bool) -> ReadResult<TokenWithText<'a>>
        ensures { (test : TokenWithBytes → Bool) → holds ≡ is_next_token test self.old → ReadsAsOutcome (passing_token_reader test self.old) model_of_token_part result self.new }
    {
        match self.peek() {
            Some(part) if holds => {
                self.pass_next_token();
                Ok(part)
            }
            _ => Err(HaltCause::Fault),
        }
    }

    /// Passes the next token, which says this, if it says anything.
    pub fn pass_token_with_meaning_or_halt<T: Drop>(&mut self, found: Option<T>) -> ReadResult<T>
        ensures { (says : TokenWithBytes → Option T) → found ≡ option_and_then says (first_token_option self.old) → ReadsAsOutcome (one_token_reader says self.old) value_itself result self.new }
    {
        match found {
            None => Err(HaltCause::Fault),
            Some(found) => {
                self.pass_next_token();
                Ok(found)
            }
        }
    }

    /// Passes this mark.
    pub fn expect_mark(&mut self, mark: u8) -> ReadResult<TokenWithText<'a>>
        ensures { ReadsAsOutcome (passing_token_reader (is_mark_of_byte mark) self.old) model_of_token_part result self.new }
    {
        self.pass_token_if_allowed_or_halt(self.is_at_mark(mark))
    }

    /// Passes the text of a digest.
    pub fn expect_digest_text(&mut self) -> ReadResult<TokenWithText<'a>>
        ensures { ReadsAsOutcome (passing_token_reader is_digest_token self.old) model_of_token_part result self.new }
    {
        self.pass_token_if_allowed_or_halt(self.peek().is_some_and(|part| part.is_digest()))
    }

    /// Passes the name of an alias.
    pub fn expect_alias_name(&mut self) -> ReadResult<TokenWithText<'a>>
        ensures { ReadsAsOutcome (passing_token_reader is_alias_name self.old) model_of_token_part result self.new }
    {
        self.pass_token_if_allowed_or_halt(self.peek().is_some_and(|part| part.is_alias_name()))
    }

    /// Passes the word `Defaults`.
    pub fn expect_defaults_word(&mut self) -> ReadResult<TokenWithText<'a>>
        ensures { ReadsAsOutcome (passing_token_reader is_defaults self.old) model_of_token_part result self.new }
    {
        self.pass_token_if_allowed_or_halt(self.is_at_defaults_word())
    }

    /// Passes a word with which a line of aliases begins.
    pub fn expect_alias_keyword(&mut self) -> ReadResult<Kind>
        ensures { ReadsAsOutcome (one_token_reader alias_kind_of_token self.old) value_itself result self.new }
    {
        self.pass_token_with_meaning_or_halt(self.peek().and_then(|part| part.alias_kind()))
    }

    /// Passes a word with which an include begins.
    pub fn expect_include_word(&mut self) -> ReadResult<bool>
        ensures { ReadsAsOutcome (one_token_reader include_is_dir_of_token self.old) value_itself result self.new }
    {
        self.pass_token_with_meaning_or_halt(self.peek().and_then(|part| part.include_is_dir()))
    }

    /// Passes the name of an option.
    pub fn expect_option_name(&mut self) -> ReadResult<OptionName>
        ensures { ReadsAsOutcome (one_token_reader option_of_token self.old) value_itself result self.new }
    {
        self.pass_token_with_meaning_or_halt(self.peek().and_then(|part| part.option_name()))
    }

    /// Passes a tag.
    pub fn expect_tag(&mut self) -> ReadResult<(Tag, bool)>
        ensures { ReadsAsOutcome (one_token_reader tag_and_sign_of_token self.old) value_itself result self.new }
    {
        self.pass_token_with_meaning_or_halt(self.peek().and_then(|part| part.tag_with_sign()))
    }

    /// Passes the kind of a digest.
    pub fn expect_digest_kind(&mut self) -> ReadResult<DigestKind>
        ensures { ReadsAsOutcome (one_token_reader digest_kind_of_token self.old) value_itself result self.new }
    {
        self.pass_token_with_meaning_or_halt(self.peek().and_then(|part| part.digest_kind()))
    }

    /// Returns whether the next token is the kind of a digest.
    pub fn is_at_digest_kind(&self) -> bool
        ensures { result ≡ is_next_token (has_meaning_by digest_kind_of_token) self.now }
    {
        self.peek().is_some_and(|part| part.digest_kind().is_some())
    }

    /// Returns whether the next token is the name of an option.
    pub fn is_at_option_name(&self) -> bool
        ensures { result ≡ is_next_token (has_meaning_by option_of_token) self.now }
    {
        self.peek().is_some_and(|part| part.option_name().is_some())
    }

    /// Returns whether the next token is a tag.
    pub fn is_at_tag(&self) -> bool
        ensures { result ≡ is_next_token (has_meaning_by tag_and_sign_of_token) self.now }
    {
        self.peek()
            .is_some_and(|part| part.tag_with_sign().is_some())
    }

    /// Returns whether a token is left that ends no list of runas users.
    pub fn is_inside_runas_user_list(&self) -> bool
        ensures { result ≡ is_next_token is_inside_runas_users self.now }
    {
        self.peek().is_some_and(|part| !(part.is_punct_mark(b')') || part.is_punct_mark(b':')))
    }

    /// Returns whether the next token is an argument.
    pub fn is_at_argument(&self) -> bool
        ensures { result ≡ is_next_token is_argument_token self.now }
    {
        self.peek().is_some_and(|part| part.is_arg())
    }

    /// Passes the first argument of a command.
    pub fn expect_argument_that_is_no_regex(&mut self) -> ReadResult<TokenWithText<'a>>
        ensures { ReadsAsOutcome (passing_token_reader is_argument_token_but_no_regex self.old) model_of_token_part result self.new }
    {
        let holds = self
            .peek()
            .is_some_and(|part| part.is_arg() && !begins_with_byte(b'^', part.text));
        self.pass_token_if_allowed_or_halt(holds)
    }

    /// Passes a further argument of a command.
    pub fn expect_argument(&mut self) -> ReadResult<TokenWithText<'a>>
        ensures { ReadsAsOutcome (passing_token_reader is_argument_token self.old) model_of_token_part result self.new }
    {
        self.pass_token_if_allowed_or_halt(self.is_at_argument())
    }

    /// Returns whether the next token is a comment.
    pub fn is_at_comment(&self) -> bool
        ensures { result ≡ is_next_token is_comment_token self.now }
    {
        self.peek().is_some_and(|part| part.is_comment())
    }

    /// Returns whether the next token is a word with which a line of aliases begins.
    pub fn is_at_alias_keyword(&self) -> bool
        ensures { result ≡ is_next_token (has_meaning_by alias_kind_of_token) self.now }
    {
        self.peek().is_some_and(|part| part.alias_kind().is_some())
    }

    /// Returns whether the next token is a word with which an include begins.
    pub fn is_at_include_word(&self) -> bool
        ensures { result ≡ is_next_token (has_meaning_by include_is_dir_of_token) self.now }
    {
        self.peek()
            .is_some_and(|part| part.include_is_dir().is_some())
    }

    /// Returns whether the next token is the word `Defaults`.
    pub fn is_at_defaults_word(&self) -> bool
        ensures { result ≡ is_next_token is_defaults self.now }
    {
        self.peek().is_some_and(|part| part.is_defaults_word())
    }

    /// Returns whether no token is left.
    pub fn has_no_tokens_left(&self) -> bool
        ensures { is_next_token is_any_token self.now ≡ not result }
    {
        self.peek().is_none()
    }

    /// Passes a comment.
    pub fn expect_comment(&mut self) -> ReadResult<TokenWithText<'a>>
        ensures { ReadsAsOutcome (passing_token_reader is_comment_token self.old) model_of_token_part result self.new }
    {
        self.pass_token_if_allowed_or_halt(self.is_at_comment())
    }
}
