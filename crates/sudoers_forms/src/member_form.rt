//! Why sudo refuses a word or a quoted text.

ghost use Rattle.std.specs.Prelude.{◌≡◌, ◌≤◌, false, length};
ghost use Rattle.sudoers_forms.specs.Forms.{form_of_member, form_of_quoted, form_of_return, form_of_word, form_of_word_of_include, form_of_word_reach, has_return_behind, is_command_part, is_regex, size_of_regex_rest};

use crate::form::Form;
use crate::line_part::LinePart;
use crate::names::{
    choose_first_form, choose_form_if, find_form_of_folder, find_form_of_plain_value,
    is_folder_option,
};
use crate::spelling::{size_of_path, size_of_word};
use crate::words::is_unknown_option;
use sudoers_text::TokenKind;

/// Returns how many bytes a regular expression has behind its `^`, which `bytes` go on with; 0 of none.
fn size_of_regex_rest(bytes: &[u8]) -> usize
    ensures same { result ≡ size_of_regex_rest false bytes.now }
    ensures within { result ≤ length bytes.now }
{
    let mut size = 0;
    // up to the last `$` with a backslash before it
    let mut found = 0;
    let mut is_escaped = false;
    for byte in bytes {
        if *byte == b'$' {
            if !is_escaped {
                return size + 1;
            }
            found = size + 1;
            is_escaped = false;
        } else if *byte == b'\n' || *byte == b'\r' || (*byte == b'#' && !is_escaped) {
            return found;
        } else {
            is_escaped = *byte == b'\\';
        }
        size += 1;
    }
    found
}

/// Returns whether sudo reads a regular expression in the place of the word with which `bytes` begin.
fn is_regex(bytes: &[u8]) -> bool
    ensures { result ≡ is_regex bytes.now }
{
    match bytes {
        [b'^', rest @ ..] => {
            let size = size_of_regex_rest(rest);
            0 < size && size_of_word(bytes) <= size + 1
        }
        _ => false,
    }
}

/// Returns whether a backslash and CR come behind the first `size` bytes of `rest`.
fn has_return_behind(size: usize, rest: &[u8]) -> bool
    ensures { result ≡ has_return_behind size rest.now }
{
    rest.get(size..).unwrap_or(&[]).starts_with(b"\\\r")
}

/// Returns why sudo refuses a word of `size` bytes. sudo reads `path` bytes of it as a path, and `word` bytes as a word. It ends the line
/// with a backslash and a tab or not.
fn find_form_of_word_reach(is_at_tab: bool, path: usize, word: usize, size: usize) -> Option<Form>
    ensures { result ≡ form_of_word_reach is_at_tab path word size }
{
    if 0 < path && word <= path {
        Some(Form::SlashName)
    } else if is_at_tab && word < size && size - word == 2 {
        Some(Form::BlankContinuation)
    } else {
        choose_form_if(word < size, Form::WordByte)
    }
}

impl LinePart {
    /// Returns whether commands or parameters stand in the part.
    pub fn has_commands(self) -> bool
        ensures { result ≡ is_command_part self }
    {
        matches!(
            self,
            LinePart::Commands
                | LinePart::OptionName
                | LinePart::TagOrDigestKind
                | LinePart::CommandScope
                | LinePart::Parameters
                | LinePart::NegatedParameters
        )
    }

    /// Returns the form of a word before a backslash and CR LF, if it is the last of its line or not.
    fn find_form_of_return(self, is_last: bool) -> Form
        ensures { result ≡ form_of_return self is_last }
    {
        match self {
            LinePart::AliasUsers | LinePart::AliasHosts if is_last => Form::LastWordReturn,
            _ => Form::WordReturn,
        }
    }

    /// Returns why sudo refuses the word or the quoted text `text`, a token of this kind. `option` has this value, if it is one.
    fn find_form_of_member(
        self,
        option: &[u8],
        is_at_return: bool,
        kind: TokenKind,
        text: &[u8],
    ) -> Option<Form>
        ensures { result ≡ form_of_member self option.now is_at_return kind text.now }
    {
        if self == LinePart::OptionValue {
            find_form_of_plain_value(option, kind, text)
        } else if !self.has_commands() {
            self.find_form_of_name(kind, text)
        } else if kind == TokenKind::Word && is_unknown_option(text) {
            Some(Form::UnknownOption)
        } else {
            choose_form_if(
                kind == TokenKind::Word && is_at_return && text == b"sudoedit".as_slice(),
                Form::CommandReturn,
            )
        }
    }
}

/// Returns why sudo refuses the word `text`. `rest` begins with it.
pub fn find_form_of_word(
    part: LinePart,
    option: &[u8],
    is_last: bool,
    is_at_return: bool,
    rest: &[u8],
    text: &[u8],
) -> Option<Form>
    ensures { result ≡ form_of_word part option.now is_last is_at_return rest.now text.now }
{
    if part == LinePart::OptionValue && is_folder_option(option) {
        return find_form_of_folder(TokenKind::Word, rest, text);
    }
    if has_return_behind(text.len(), rest) {
        return Some(part.find_form_of_return(is_last));
    }
    if is_last && text == b"\\ ".as_slice() {
        return Some(Form::BlankContinuation);
    }
    let is_at_tab = is_last && text.ends_with(b"\\\t");
    let reach = find_form_of_word_reach(
        is_at_tab,
        size_of_path(rest),
        size_of_word(rest),
        text.len(),
    );
    let regex = choose_form_if(is_regex(rest), Form::RegexName);
    let member = part.find_form_of_member(option, is_at_return, TokenKind::Word, text);
    choose_first_form(reach, choose_first_form(regex, member))
}

/// Returns why sudo refuses the word `text` of an include line, behind the token `before`, or reads another name. `rest` begins with it.
pub fn find_form_of_word_of_include(
    part: LinePart,
    before: &[u8],
    rest: &[u8],
    text: &[u8],
) -> Option<Form>
    ensures { result ≡ form_of_word_of_include part before.now rest.now text.now }
{
    if before.is_empty() {
        choose_form_if(has_return_behind(text.len(), rest), Form::WordReturn)
    } else {
        part.find_form_of_include_word(rest, text)
    }
}

/// Returns why sudo refuses the quoted text `text`. `rest` begins with it.
pub fn find_form_of_quoted(part: LinePart, option: &[u8], rest: &[u8], text: &[u8]) -> Option<Form>
    ensures { result ≡ form_of_quoted part option.now rest.now text.now }
{
    if text.ends_with(b"\\\"") {
        Some(Form::QuotedBackslash)
    } else if part.is_include() {
        part.find_form_of_include_quoted(text)
    } else if part == LinePart::OptionValue && is_folder_option(option) {
        find_form_of_folder(TokenKind::Quoted, rest, text)
    } else {
        part.find_form_of_member(option, false, TokenKind::Quoted, text)
    }
}
