//! What sudo takes as names and as values of options.

ghost use Rattle.std.specs.Prelude.{◌≡◌, ◌==◌, ◌||◌, false};
ghost use Rattle.sudoers_text.specs.Unit.{is_blank};
ghost use Rattle.sudoers_forms.specs.Names.{begins_folder, bytes_behind_continuations, content_of_token, form_if, form_of_bare_name, form_of_folder, form_of_name, form_of_plain_value, form_or, has_wrong_sign, is_bare_sign, is_folder, is_folder_option, is_hosts, is_option_of_part, is_plain_value, is_scope_of_names, text_without_first_backslash};

use crate::address::is_address;
use crate::form::Form;
use crate::line_part::LinePart;
use crate::spelling::{size_of_path, size_of_word};
use crate::words::{is_command_word, is_known_option};
use sudoers_defaults::is_time;
use sudoers_grammar::begins_with_byte;
use sudoers_text::{TokenKind, begins_line_end, is_name};

/// The number of bytes that no path of the system has: PATH_MAX of Linux.
pub const PATH_SIZE_LIMIT: usize = 4096;

/// Returns `form`, if the test is passed.
pub fn choose_form_if(is_passed: bool, form: Form) -> Option<Form>
    ensures { result ≡ form_if is_passed form }
{
    if is_passed { Some(form) } else { None }
}

/// Returns the first of two forms.
pub fn choose_first_form<T: Copy>(first: Option<T>, second: Option<T>) -> Option<T>
    ensures { result ≡ form_or first second }
{
    match first {
        Some(form) => Some(form),
        None => second,
    }
}

/// Returns the bytes of `content` without the continuations that it begins with, and the blanks behind these.
fn skip_continuations(content: &[u8]) -> &[u8]
    ensures { result.now ≡ bytes_behind_continuations false content.now }
{
    let mut rest = content;
    let mut is_within = false;
    while let Some((first, behind)) = rest.split_first() {
        if *first == b'\\' && begins_line_end(behind) {
            is_within = true;
        } else if !(is_within && is_blank_or_line_end(*first)) {
            break;
        }
        rest = behind;
    }
    rest
}

/// Returns whether `byte` is a blank, CR or LF.
fn is_blank_or_line_end(byte: u8) -> bool
    ensures { result ≡ (is_blank byte || byte == 13 || byte == 10) }
{
    byte == b' ' || byte == b'\t' || byte == b'\r' || byte == b'\n'
}

/// Returns the content of a token that stands in quotes, behind continuations, or its text.
pub fn content_of_token(kind: TokenKind, text: &[u8]) -> &[u8]
    ensures { result.now ≡ content_of_token kind text.now }
{
    if kind != TokenKind::Quoted {
        return text;
    }
    let behind = text.get(1..).unwrap_or(&[]);
    skip_continuations(&behind[..text.len().saturating_sub(2)])
}

/// Returns whether `text` is a sign of a group or a netgroup alone.
fn is_bare_sign(text: &[u8]) -> bool
    ensures { result ≡ is_bare_sign text.now }
{
    text == b"%".as_slice() || text == b"%:".as_slice() || text == b"+".as_slice()
}

impl LinePart {
    /// Returns whether hosts stand in the part.
    pub fn has_hosts(self) -> bool
        ensures { result ≡ is_hosts self }
    {
        matches!(
            self,
            LinePart::AliasHosts | LinePart::Hosts | LinePart::HostScope
        )
    }

    /// Returns whether `%` or `+` begins `text`, and sudo takes no such name in this part.
    fn has_wrong_sign(self, text: &[u8]) -> bool
        ensures { result ≡ has_wrong_sign self text.now }
    {
        (begins_with_byte(b'%', text) && (self.has_hosts() || self == LinePart::Groups))
            || (begins_with_byte(b'+', text) && self == LinePart::Groups)
    }

    /// Returns whether the part is a scope of names.
    pub fn is_scope_of_names(self) -> bool
        ensures { result ≡ is_scope_of_names self }
    {
        matches!(
            self,
            LinePart::UserScope | LinePart::RunasScope | LinePart::HostScope
        )
    }

    /// Returns whether the word `text` is an option for sudo in this part.
    fn has_option(self, text: &[u8]) -> bool
        ensures { result ≡ is_option_of_part self text.now }
    {
        !self.is_scope_of_names() && is_known_option(text)
    }

    /// Returns why sudo refuses the name `text`, a token of this kind.
    pub fn find_form_of_name(self, kind: TokenKind, text: &[u8]) -> Option<Form>
        ensures { result ≡ form_of_name self kind text.now }
    {
        let content = content_of_token(kind, text);
        if is_bare_sign(content) {
            Some(Form::EmptyGroup)
        } else if self.has_wrong_sign(content) {
            Some(Form::GroupName)
        } else if kind == TokenKind::Quoted {
            None
        } else {
            self.find_form_of_bare_name(text)
        }
    }

    /// Returns why sudo refuses the name `text`, which has no quotes.
    fn find_form_of_bare_name(self, text: &[u8]) -> Option<Form>
        ensures { result ≡ form_of_bare_name self text.now }
    {
        if is_command_word(text) {
            Some(Form::ReservedName)
        } else if self.has_option(text) {
            Some(Form::OptionName)
        } else {
            choose_form_if(!self.has_hosts() && is_address(text), Form::AddressName)
        }
    }
}

/// Returns whether sudo reads the value `text` as a name.
fn is_plain_value(kind: TokenKind, text: &[u8]) -> bool
    ensures { result ≡ is_plain_value kind text.now }
{
    let content = content_of_token(kind, text);
    !(begins_with_byte(b'%', content) || begins_with_byte(b'+', content))
        && (kind == TokenKind::Quoted
            || !(is_name(text) || is_command_word(text) || is_address(text)))
}

/// Returns `text` without a backslash before its first byte.
fn skip_first_backslash(text: &[u8]) -> &[u8]
    ensures { result.now ≡ text_without_first_backslash text.now }
{
    match text {
        [b'\\', rest @ ..] => rest,
        _ => text,
    }
}

/// Returns whether `text` begins at the root or at a home, or is `*`.
fn begins_folder(text: &[u8]) -> bool
    ensures { result ≡ begins_folder text.now }
{
    begins_with_byte(b'/', text) || begins_with_byte(b'~', text) || text == b"*".as_slice()
}

/// Returns whether sudo reads the whole `text` as a folder. `rest` begins with it.
fn is_folder(rest: &[u8], text: &[u8]) -> bool
    ensures { result ≡ is_folder rest.now text.now }
{
    let path = size_of_path(rest);
    let word = size_of_word(rest);
    (path == text.len() || word == text.len())
        && path <= text.len()
        && word <= text.len()
        && begins_folder(skip_first_backslash(text))
        && text.len() < PATH_SIZE_LIMIT
}

/// Returns why sudo refuses the folder `text`, a token of this kind. `rest` begins with it.
pub fn find_form_of_folder(kind: TokenKind, rest: &[u8], text: &[u8]) -> Option<Form>
    ensures { result ≡ form_of_folder kind rest.now text.now }
{
    choose_form_if(
        kind == TokenKind::Quoted || !is_folder(rest, text),
        Form::FolderValue,
    )
}

/// Returns why sudo refuses the value `text` of the option `option`, which takes no folder.
pub fn find_form_of_plain_value(option: &[u8], kind: TokenKind, text: &[u8]) -> Option<Form>
    ensures { result ≡ form_of_plain_value option.now kind text.now }
{
    let content = content_of_token(kind, text);
    if content.is_empty() || !is_plain_value(kind, text) {
        Some(Form::ValueWord)
    } else {
        choose_form_if(
            option == b"TIMEOUT".as_slice() && !is_time(content),
            Form::TimeValue,
        )
    }
}

/// Returns whether the option `option` takes a folder.
pub fn is_folder_option(option: &[u8]) -> bool
    ensures { result ≡ is_folder_option option.now }
{
    option == b"CWD".as_slice() || option == b"CHROOT".as_slice()
}
