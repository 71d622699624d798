//! Why sudo reads another name of an included file, or none.

ghost use Rattle.std.specs.Prelude.{◌≡◌, ◌≤◌, false, length};
ghost use Rattle.sudoers_text.specs.Unit.{is_blank};
ghost use Rattle.sudoers_text.specs.Value.{begins_hex_escape, is_hex};
ghost use Rattle.sudoers_forms.specs.HostMark.{has_host_mark};
ghost use Rattle.sudoers_forms.specs.Includes.{form_of_host_mark, form_of_include_quoted, form_of_include_word, has_hex_escape, is_include, is_space, size_as_include_name, size_of_name_rest};

use crate::form::Form;
use crate::line_part::LinePart;
use crate::names::content_of_token;
use sudoers_grammar::begins_with_byte;
use sudoers_text::TokenKind;

/// Returns whether `byte` is a blank.
fn is_blank(byte: u8) -> bool
    ensures { result ≡ is_blank byte }
{
    byte == b' ' || byte == b'\t'
}

/// Returns whether `byte` is a space, which ends a name.
fn is_space(byte: u8) -> bool
    ensures { result ≡ is_space byte }
{
    is_blank(byte) || byte == b'\n' || byte == 11 || byte == 12 || byte == b'\r'
}

/// Returns how many bytes of `bytes` stand before a space that ends the name.
fn size_of_name_rest(bytes: &[u8]) -> usize
    ensures same { result ≡ size_of_name_rest false bytes.now }
    ensures within { result ≤ length bytes.now }
{
    let mut size = 0;
    let mut is_escaped = false;
    for byte in bytes {
        if is_space(*byte) && !(is_escaped && is_blank(*byte)) {
            return size;
        }
        size += 1;
        is_escaped = *byte == b'\\';
    }
    size
}

/// Returns the size of the name without quotes with which `bytes` begin for sudo.
fn size_of_include_name(bytes: &[u8]) -> usize
    ensures { result ≡ size_as_include_name bytes.now }
{
    match bytes {
        [first, rest @ ..] if !is_space(*first) => 1 + size_of_name_rest(rest),
        _ => 0,
    }
}

/// Returns whether `bytes` begin with `x` and two hexadecimal digits.
fn begins_hex_escape(bytes: &[u8]) -> bool
    ensures { result ≡ begins_hex_escape bytes.now }
{
    match bytes {
        [b'x', high, low, ..] => high.is_ascii_hexdigit() && low.is_ascii_hexdigit(),
        _ => false,
    }
}

/// Returns whether a backslash of `text` has `x` and two hexadecimal digits behind it.
pub fn has_hex_escape(text: &[u8]) -> bool
    ensures { result ≡ has_hex_escape false text.now }
{
    let mut rest = text;
    let mut is_escaped = false;
    while let Some((first, behind)) = rest.split_first() {
        if is_escaped && begins_hex_escape(rest) {
            return true;
        }
        is_escaped = !is_escaped && *first == b'\\';
        rest = behind;
    }
    false
}

/// Returns whether `path` has `%h`, for which sudo writes the name of the host.
pub fn has_host_mark(path: &[u8]) -> bool
    ensures { result ≡ has_host_mark path.now }
{
    let mut rest = path;
    while let Some((first, behind)) = rest.split_first() {
        if *first == b'%' && begins_with_byte(b'h', behind) {
            return true;
        }
        rest = behind;
    }
    false
}

impl LinePart {
    /// Returns whether the part is an include line.
    pub fn is_include(self) -> bool
        ensures { result ≡ is_include self }
    {
        matches!(self, LinePart::IncludeLine | LinePart::HostIncludeLine)
    }

    /// Returns the form of a name with `%h`.
    fn find_form_of_host_mark(self) -> Option<Form>
        ensures { result ≡ form_of_host_mark self }
    {
        match self {
            LinePart::HostIncludeLine => Some(Form::IncludeHost),
            _ => None,
        }
    }

    /// Returns why sudo reads another name than `text`, which has no quotes. `rest` begins with it.
    pub fn find_form_of_include_word(self, rest: &[u8], text: &[u8]) -> Option<Form>
        ensures { result ≡ form_of_include_word self rest.now text.now }
    {
        let size = size_of_include_name(rest);
        if text.len() < size {
            Some(Form::IncludeEnd)
        } else if size < text.len() {
            Some(Form::IncludeSpace)
        } else {
            self.find_form_of_host_mark()
        }
    }

    /// Returns why sudo reads another name than `text`, which stands in quotes, or none.
    pub fn find_form_of_include_quoted(self, text: &[u8]) -> Option<Form>
        ensures { result ≡ form_of_include_quoted self text.now }
    {
        let content = content_of_token(TokenKind::Quoted, text);
        if begins_with_byte(b'%', content) || begins_with_byte(b'+', content) {
            Some(Form::IncludeSign)
        } else if has_hex_escape(text) {
            Some(Form::IncludeEscape)
        } else {
            self.find_form_of_host_mark()
        }
    }
}
