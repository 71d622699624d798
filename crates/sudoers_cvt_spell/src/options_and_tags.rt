//! Options and tags as they are printed (sudoers(5), Option_Spec, Tag_Spec).

ghost use Rattle.std.specs.Prelude.{◌≡◌, ◌++◌, codes, OnErr, OnOk};
ghost use Rattle.sudoers_cvt_spell.specs.internal.Fronts.{IsFront};
ghost use Rattle.sudoers_cvt_spell.specs.Commands.{option_keyword, printed_option_value, printed_option, tag_keyword_without_no, tag_keyword_or_negated};

use crate::appending::append_bytes;
use crate::words_and_patterns::append_spelled_word;
use std::alloc::AllocError;
use sudoers_grammar::{OptionName, Tag};

/// Returns the name of an option.
fn keyword_of_option(name: OptionName) -> &'static [u8]
    ensures { result.now ≡ option_keyword name }
{
    match name {
        OptionName::Role => b"ROLE",
        OptionName::Type => b"TYPE",
        OptionName::ApparmorProfile => b"APPARMOR_PROFILE",
        OptionName::Privs => b"PRIVS",
        OptionName::Limitprivs => b"LIMITPRIVS",
        OptionName::Notbefore => b"NOTBEFORE",
        OptionName::Notafter => b"NOTAFTER",
        OptionName::Timeout => b"TIMEOUT",
        OptionName::Cwd => b"CWD",
        OptionName::Chroot => b"CHROOT",
    }
}

/// Appends the option `name` with its value.
///
/// # Errors
///
/// Memory ran out.
pub fn append_option_text(
    out: &mut Vec<u8>,
    name: OptionName,
    value: &[u8],
) -> Result<(), AllocError>
    ensures appended { OnOk result (out.new.items ≡ out.old.items ++ printed_option name value.now) }
    ensures front { IsFront out.old.items out.new.items }
{
    append_bytes(out, keyword_of_option(name))?;
    append_bytes(out, b"=")?;
    if value.is_empty() {
        append_bytes(out, b"\"\"")
    } else {
        append_spelled_word(out, value)
    }
}

/// Returns the word of a tag.
fn keyword_of_tag_without_no(tag: Tag) -> &'static [u8]
    ensures { result.now ≡ tag_keyword_without_no tag }
{
    match tag {
        Tag::Exec => b"EXEC",
        Tag::Follow => b"FOLLOW",
        Tag::Intercept => b"INTERCEPT",
        Tag::LogInput => b"LOG_INPUT",
        Tag::LogOutput => b"LOG_OUTPUT",
        Tag::Mail => b"MAIL",
        Tag::Passwd => b"PASSWD",
        Tag::Setenv => b"SETENV",
    }
}

/// Returns the word of a tag, with `NO` before it.
fn keyword_of_tag_with_no(tag: Tag) -> &'static [u8]
    ensures { result.now ≡ codes "NO" ++ tag_keyword_without_no tag }
{
    match tag {
        Tag::Exec => b"NOEXEC",
        Tag::Follow => b"NOFOLLOW",
        Tag::Intercept => b"NOINTERCEPT",
        Tag::LogInput => b"NOLOG_INPUT",
        Tag::LogOutput => b"NOLOG_OUTPUT",
        Tag::Mail => b"NOMAIL",
        Tag::Passwd => b"NOPASSWD",
        Tag::Setenv => b"NOSETENV",
    }
}

/// Returns a tag, with `NO` before it if it is not `on`.
fn keyword_of_tag_or_negated(tag: Tag, on: bool) -> &'static [u8]
    ensures { result.now ≡ tag_keyword_or_negated tag on }
{
    if on {
        keyword_of_tag_without_no(tag)
    } else {
        keyword_of_tag_with_no(tag)
    }
}

/// Appends a tag, with `NO` before it if it is not `on`. Where memory runs out, the text stays as it was.
///
/// # Errors
///
/// Memory ran out.
pub fn append_keyword_of_tag_or_negated(
    out: &mut Vec<u8>,
    tag: Tag,
    on: bool,
) -> Result<(), AllocError>
    ensures appended { OnOk result (out.new.items ≡ out.old.items ++ tag_keyword_or_negated tag on) }
    ensures kept { OnErr result (out.new.items ≡ out.old.items) }
{
    out.extend_from_slice(keyword_of_tag_or_negated(tag, on))
}
