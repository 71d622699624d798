//! Why sudo refuses what begins a row. A row is a physical line.

ghost use Rattle.std.specs.Prelude.{◌≡◌, []};
ghost use Rattle.sudoers_text.specs.Unit.{is_empty};
ghost use Rattle.sudoers_forms.specs.Forms.{ends_in_blank, form_of_first_gap, form_of_row, is_behind_command, is_line_word};

use crate::form::Form;
use crate::line_part::LinePart;
use crate::names::choose_form_if;
use crate::spelling::has_byte;
use crate::words::{
    begins_with_first_word, is_at_include, is_comment_of_include, is_first_word, is_hash_include,
};
use sudoers_grammar::ends_with_byte;
use sudoers_text::TokenKind;

/// Returns whether a blank ends `gap`.
fn ends_in_blank(gap: &[u8]) -> bool
    ensures { result ≡ ends_in_blank gap.now }
{
    ends_with_byte(b' ', gap) || ends_with_byte(b'\t', gap)
}

/// Returns whether sudo reads the word `text`, behind the token `before` and `gap`, as the beginning of a line.
fn is_line_word(before: &[u8], gap: &[u8], text: &[u8]) -> bool
    ensures { result ≡ is_line_word before.now gap.now text.now }
{
    if before.is_empty() {
        begins_with_first_word(text) && !is_first_word(text) && ends_in_blank(gap)
    } else {
        is_at_include(text)
            || (has_byte(b'\n', gap)
                && (is_first_word(text) || (begins_with_first_word(text) && ends_in_blank(gap))))
    }
}

/// Returns whether arguments go on behind the token `before` of the kind `kind`.
fn is_behind_command(kind: TokenKind, before: &[u8]) -> bool
    ensures { result ≡ is_behind_command kind before.now }
{
    match kind {
        TokenKind::Arg => true,
        TokenKind::Path => !ends_with_byte(b'/', before),
        _ => before == b"sudoedit".as_slice(),
    }
}

impl LinePart {
    /// Returns why sudo refuses the first token `text` of a line, behind `gap`.
    pub fn find_form_of_first_gap(self, gap: &[u8], text: &[u8]) -> Option<Form>
        ensures { result ≡ form_of_first_gap self gap.now text.now }
    {
        if is_comment_of_include(text) && !ends_in_blank(gap) {
            if has_byte(b'\n', gap) {
                Some(Form::IncludeComment)
            } else {
                Some(Form::HashInclude)
            }
        } else if self.is_include() && is_hash_include(text) && ends_in_blank(gap) {
            Some(Form::IndentedInclude)
        } else if has_byte(b'\n', gap) && (self.is_include() || is_first_word(text)) {
            Some(Form::FirstContinuation)
        } else {
            choose_form_if(is_line_word(&[], gap, text), Form::LineWord)
        }
    }

    /// Returns why sudo refuses the further token `text` of the kind `kind`, behind the token `before` and `gap`.
    pub fn find_form_of_row(
        self,
        kind_before: TokenKind,
        before: &[u8],
        gap: &[u8],
        kind: TokenKind,
        text: &[u8],
    ) -> Option<Form>
        ensures { result ≡ form_of_row self kind_before before.now gap.now kind text.now }
    {
        if kind == TokenKind::Comment {
            choose_form_if(
                is_comment_of_include(text)
                    && ends_with_byte(b'\n', gap)
                    && !is_behind_command(kind_before, before),
                Form::IncludeComment,
            )
        } else {
            choose_form_if(
                kind == TokenKind::Word && !self.is_include() && is_line_word(before, gap, text),
                Form::LineWord,
            )
        }
    }
}
