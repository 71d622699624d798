//! Why sudo refuses a path, an argument, a comment or the value of a parameter.

ghost use Rattle.std.specs.Prelude.{◌≡◌};
ghost use Rattle.sudoers_forms.specs.Forms.{ends_in_escaped_blank, form_of_argument, form_of_comment, form_of_hash, form_of_path, form_of_path_reach, form_of_path_text, form_of_value};

use crate::form::Form;
use crate::names::{PATH_SIZE_LIMIT, choose_first_form, choose_form_if};
use crate::spelling::{
    Spelling, has_byte, is_broken_comment, is_numbered, size_of_path, size_of_word,
};
use sudoers_grammar::{begins_with_byte, ends_with_byte};

/// Returns why sudo refuses a path of `size` bytes. sudo reads `path` bytes of it as a path, and `word` bytes as a word.
fn find_form_of_path_reach(path: usize, word: usize, size: usize) -> Option<Form>
    ensures { result ≡ form_of_path_reach path word size }
{
    if path < word {
        if path < size {
            Some(Form::PathEscape)
        } else {
            Some(Form::WordReturn)
        }
    } else if path < size {
        Some(Form::PathArguments)
    } else {
        choose_form_if(size < path, Form::PathQuote)
    }
}

/// Returns why sudo refuses the path `text`, which it reads.
fn find_form_of_path_text(is_at_return: bool, text: &[u8]) -> Option<Form>
    ensures { result ≡ form_of_path_text is_at_return text.now }
{
    if text.ends_with(b"/sudoedit") {
        Some(Form::EditorPath)
    } else if text.len() >= PATH_SIZE_LIMIT {
        Some(Form::LongPath)
    } else {
        choose_form_if(
            is_at_return && !ends_with_byte(b'/', text),
            Form::CommandReturn,
        )
    }
}

/// Returns why sudo refuses the path `text`. `rest` begins with it.
pub fn find_form_of_path(is_at_return: bool, rest: &[u8], text: &[u8]) -> Option<Form>
    ensures { result ≡ form_of_path is_at_return rest.now text.now }
{
    if text == b"/".as_slice() {
        return Some(Form::RootPath);
    }
    let reach = find_form_of_path_reach(size_of_path(rest), size_of_word(rest), text.len());
    choose_first_form(reach, find_form_of_path_text(is_at_return, text))
}

/// Returns why sudo does not read the argument that goes on with `rest`.
fn find_form_of_hash(rest: &[u8]) -> Option<Form>
    ensures { result ≡ form_of_hash rest.now }
{
    if !begins_with_byte(b'#', rest) {
        Some(Form::ArgumentEscape)
    } else if is_numbered(rest) {
        Some(Form::NumberedComment)
    } else {
        Some(Form::ArgumentHash)
    }
}

/// Returns whether `text` ends with an escaped blank.
fn ends_in_escaped_blank(text: &[u8]) -> bool
    ensures { result ≡ ends_in_escaped_blank text.now }
{
    text.ends_with(b"\\ ") || text.ends_with(b"\\\t")
}

/// Returns why sudo refuses the argument `text`.
pub fn find_form_of_argument(is_last: bool, is_at_return: bool, text: &[u8]) -> Option<Form>
    ensures { result ≡ form_of_argument is_last is_at_return text.now }
{
    let size = Spelling::Argument.size_of(text);
    if size != text.len() {
        find_form_of_hash(&text[size..])
    } else if is_last && ends_in_escaped_blank(text) {
        Some(Form::BlankContinuation)
    } else {
        choose_form_if(is_at_return, Form::CommandReturn)
    }
}

/// Returns why sudo refuses the comment `text`. A line that begins with a number may be a rule, which has a `=`.
pub fn find_form_of_comment(is_first: bool, text: &[u8]) -> Option<Form>
    ensures { result ≡ form_of_comment is_first text.now }
{
    if is_broken_comment(text) {
        Some(Form::BrokenComment)
    } else if is_first && has_byte(b'=', text) {
        choose_form_if(is_numbered(text), Form::NumberedLine)
    } else {
        choose_form_if(is_numbered(text), Form::NumberedComment)
    }
}

/// Returns why sudo refuses the value `text` of a parameter.
pub fn find_form_of_value(text: &[u8]) -> Option<Form>
    ensures { result ≡ form_of_value text.now }
{
    choose_form_if(
        begins_with_byte(b'"', text) && text.ends_with(b"\\\""),
        Form::QuotedBackslash,
    )
}
