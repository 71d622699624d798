//! A name in quotes, or with backslashes.

ghost use Rattle.std.specs.Prelude.{◌≡◌, ◌++◌, false, OnOk};
ghost use Rattle.sudoers_cvt_sudo.specs.Names.{bytes_in_quotes, bytes_of_spelling, bytes_without_quotes, escaped_name, is_form_of_spelling, is_refused_in_quotes, quoted_name, spelled_name, spelled_text, text_of_spelling};

use crate::bare_quotes::{append_backslash_if, begins_pair};
use std::alloc::AllocError;
use sudoers_forms::Form;
use sudoers_grammar::begins_with_byte;

/// How names are spelled that sudo refuses as they stand.
#[derive(Clone, Copy)]
pub enum NameSpelling {
    /// In quotes, where sudo reads these.
    Quoted,
    /// With a backslash before the first byte, and before each `>`.
    Escaped,
}

impl NameSpelling {
    /// Appends the text `text` that sudo refuses for the form `form`, spelled so if it has no quotes.
    pub fn append_text(self, form: Form, text: &[u8], out: &mut Vec<u8>) -> Result<(), AllocError>
        ensures { OnOk result (out.new.items ≡ out.old.items ++ spelled_text self form text.now) }
    {
        if is_form_of_spelling(form) && !begins_with_byte(b'"', text) {
            self.append_name(form, text, out)
        } else {
            out.extend_from_slice(text)
        }
    }

    /// Appends the name `text` that sudo refuses for the form `form`, spelled so.
    fn append_name(self, form: Form, text: &[u8], out: &mut Vec<u8>) -> Result<(), AllocError>
        ensures { OnOk result (out.new.items ≡ out.old.items ++ spelled_name self form text.now) }
    {
        match self {
            NameSpelling::Quoted if !is_refused_in_quotes(form, text) => {
                append_quoted_name(text, out)
            }
            _ => append_escaped_name(text, out),
        }
    }

    /// Appends the bytes of the name `text`, spelled so, without quotes around them.
    fn append_bytes(self, text: &[u8], out: &mut Vec<u8>) -> Result<(), AllocError>
        ensures { OnOk result (out.new.items ≡ out.old.items ++ text_of_spelling self false text.now) }
    {
        let mut is_escaped = false;
        for byte in text {
            self.append_byte(is_escaped, *byte, out)?;
            is_escaped = begins_pair(is_escaped, *byte);
        }
        Ok(())
    }

    /// Appends what stands for `byte`, behind a backslash that begins a pair or not.
    fn append_byte(self, is_escaped: bool, byte: u8, out: &mut Vec<u8>) -> Result<(), AllocError>
        ensures { OnOk result (out.new.items ≡ out.old.items ++ bytes_of_spelling self is_escaped byte) }
    {
        match self {
            NameSpelling::Quoted => append_byte_in_quotes(is_escaped, byte, out),
            NameSpelling::Escaped => append_byte_without_quotes(is_escaped, byte, out),
        }
    }
}

/// Appends what stands in quotes for `byte`, behind a backslash that begins a pair or not.
fn append_byte_in_quotes(is_escaped: bool, byte: u8, out: &mut Vec<u8>) -> Result<(), AllocError>
    ensures { OnOk result (out.new.items ≡ out.old.items ++ bytes_in_quotes is_escaped byte) }
{
    if begins_pair(is_escaped, byte) {
        return Ok(());
    }
    append_backslash_if(is_escaped && byte == b'"', out)?;
    out.extend_from_slice(&[byte])
}

/// Appends what stands without quotes for `byte`, behind a backslash that begins a pair or not.
fn append_byte_without_quotes(
    is_escaped: bool,
    byte: u8,
    out: &mut Vec<u8>,
) -> Result<(), AllocError>
    ensures { OnOk result (out.new.items ≡ out.old.items ++ bytes_without_quotes is_escaped byte) }
{
    append_backslash_if(!is_escaped && byte == b'>', out)?;
    out.extend_from_slice(&[byte])
}

/// Returns whether sudo refuses a text of the form `form` for how it is spelled.
fn is_form_of_spelling(form: Form) -> bool
    ensures { result ≡ is_form_of_spelling form }
{
    matches!(
        form,
        Form::SlashName
            | Form::WordByte
            | Form::RegexName
            | Form::ReservedName
            | Form::OptionName
            | Form::AddressName
            | Form::ValueWord
            | Form::FolderValue
            | Form::LineWord
            | Form::BlankContinuation
    )
}

/// Returns whether sudo refuses the text `text` of the form `form` in quotes too.
fn is_refused_in_quotes(form: Form, text: &[u8]) -> bool
    ensures { result ≡ is_refused_in_quotes form text.now }
{
    match form {
        Form::FolderValue => true,
        Form::ValueWord => begins_with_byte(b'%', text) || begins_with_byte(b'+', text),
        _ => false,
    }
}

/// Appends the name `text` without its backslashes, in quotes.
fn append_quoted_name(text: &[u8], out: &mut Vec<u8>) -> Result<(), AllocError>
    ensures { OnOk result (out.new.items ≡ out.old.items ++ quoted_name text.now) }
{
    out.extend_from_slice(b"\"")?;
    NameSpelling::Quoted.append_bytes(text, out)?;
    out.extend_from_slice(b"\"")
}

/// Appends the name `text` with a backslash before its first byte, and before each `>`.
fn append_escaped_name(text: &[u8], out: &mut Vec<u8>) -> Result<(), AllocError>
    ensures { OnOk result (out.new.items ≡ out.old.items ++ escaped_name text.now) }
{
    let has_mark = begins_with_byte(b'\\', text) || begins_with_byte(b'>', text);
    append_backslash_if(!has_mark, out)?;
    NameSpelling::Escaped.append_bytes(text, out)
}
