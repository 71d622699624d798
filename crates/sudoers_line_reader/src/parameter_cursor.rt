//! What a cursor passes on `Defaults` lines alone.

ghost use Rattle.sudoers_grammar.specs.Seen.{model_of_token_part};
ghost use Rattle.sudoers_grammar.specs.Piece.{operator_of_token, scope_kind_of_sign_token_after};
ghost use Rattle.sudoers_line_reader.specs.Reader.{is_next_token, one_token_reader, passing_token_reader};
ghost use Rattle.sudoers_line_reader.specs.Descent.{is_parameter_name_token, has_meaning_by, is_parameter_value_token};
ghost use Rattle.sudoers_line_reader.specs.internal.Cursor.{value_itself, ReadsAsOutcome};
ghost use Rattle.std.specs.Prelude.{◌≡◌};

use crate::cursor::{ReadResult, TokenCursor};
use sudoers_grammar::{Kind, Operator, TokenWithText};

impl<'a> TokenCursor<'a> {
    /// Passes the name of a parameter.
    pub fn expect_parameter_name(&mut self) -> ReadResult<TokenWithText<'a>>
        ensures { ReadsAsOutcome (passing_token_reader is_parameter_name_token self.old) model_of_token_part result self.new }
    {
        self.pass_token_if_allowed_or_halt(self.peek().is_some_and(|part| part.is_parameter_name()))
    }

    /// Passes the value of a parameter.
    pub fn expect_parameter_value(&mut self) -> ReadResult<TokenWithText<'a>>
        ensures { ReadsAsOutcome (passing_token_reader is_parameter_value_token self.old) model_of_token_part result self.new }
    {
        self.pass_token_if_allowed_or_halt(self.peek().is_some_and(|part| part.is_value()))
    }

    /// Passes the operator of a parameter.
    pub fn expect_operator(&mut self) -> ReadResult<Operator>
        ensures { ReadsAsOutcome (one_token_reader operator_of_token self.old) value_itself result self.new }
    {
        self.pass_token_with_meaning_or_halt(self.peek().and_then(|part| part.operator()))
    }

    /// Returns whether the next token is the operator of a parameter.
    pub fn is_at_operator(&self) -> bool
        ensures { result ≡ is_next_token (has_meaning_by operator_of_token) self.now }
    {
        self.peek().is_some_and(|part| part.operator().is_some())
    }

    /// Returns whether the next token is the sign of a scope, directly behind the word that ends at this byte.
    pub fn is_at_scope_sign(&self, stop: usize) -> bool
        ensures { result ≡ is_next_token (has_meaning_by (scope_kind_of_sign_token_after stop)) self.now }
    {
        self.peek()
            .is_some_and(|part| part.scope_kind_of_sign_after(stop).is_some())
    }

    /// Passes the sign of a scope, directly behind the word that ends at this byte.
    pub fn expect_scope_sign(&mut self, stop: usize) -> ReadResult<Kind>
        ensures { ReadsAsOutcome (one_token_reader (scope_kind_of_sign_token_after stop) self.old) value_itself result self.new }
    {
        self.pass_token_with_meaning_or_halt(
            self.peek()
                .and_then(|part| part.scope_kind_of_sign_after(stop)),
        )
    }
}
