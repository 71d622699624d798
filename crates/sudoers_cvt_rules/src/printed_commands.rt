//! Commands as they are printed, with all that holds of them.

ghost use Rattle.std.specs.Prelude.{◌≡◌, ◌++◌, OnOk};
ghost use Rattle.std.specs.Option.{option_map};
ghost use Rattle.sudoers_grammar.specs.declared.node.Kind.TheVariants.{Cmnd};
ghost use Rattle.sudoers_line_rows.specs.View.{member_of_view, runas_of_view};
ghost use Rattle.sudoers_match.specs.Heads.{AccumulatedCommandSettings as HeadOf};
ghost use Rattle.sudoers_match.specs.IsHead.{HoldsCommandSettings};
ghost use Rattle.sudoers_match.specs.Values.{option_values_of_view, option_value_of_view};
ghost use Rattle.sudoers_cvt_spell.specs.Commands.{printed_runas_prefix, printed_runas_options_tags_and_command};
ghost use Rattle.sudoers_cvt_rules.specs.Effective.{effective_command};
ghost use Rattle.sudoers_cvt_rules.specs.internal.Said.{printed_option_if_given, printed_label_and_privilege_options, printed_time_place_options, printed_given_options, printed_tag_if_given, printed_first_four_tags, printed_last_four_tags, printed_given_tags};

use std::alloc::{AllocError, Global};
use sudoers_cvt_spell::{
    append_keyword_of_tag_or_negated, append_member, append_option, append_runas,
};
use sudoers_grammar::{Kind, OptionName, Tag};
use sudoers_line_rows::{Member, RunasSpec};
use sudoers_match::{CommandOptions, CommandSettings, CommandTags};

/// Appends an option, if it is set, and a blank.
fn append_option_if_given(
    alloc: Global,
    out: &mut Vec<u8>,
    name: OptionName,
    value: Option<&[u8]>,
) -> Result<(), AllocError>
    ensures { OnOk result (out.new.items ≡ out.old.items ++ printed_option_if_given name (option_value_of_view value.entry)) }
{
    let Some(value) = value else {
        return Ok(());
    };
    append_option(alloc, out, name, value)?;
    out.extend_from_slice(b" ")
}

/// Appends the options of security labels and privileges that are set.
fn append_label_and_privilege_options(
    alloc: Global,
    out: &mut Vec<u8>,
    options: &CommandOptions<'_>,
) -> Result<(), AllocError>
    ensures { OnOk result (out.new.items ≡ out.old.items ++ printed_label_and_privilege_options (option_values_of_view options.now)) }
{
    append_option_if_given(alloc, out, OptionName::Role, options.role)?;
    append_option_if_given(alloc, out, OptionName::Type, options.kind)?;
    append_option_if_given(
        alloc,
        out,
        OptionName::ApparmorProfile,
        options.apparmor_profile,
    )?;
    append_option_if_given(alloc, out, OptionName::Privs, options.privs)?;
    append_option_if_given(alloc, out, OptionName::Limitprivs, options.limitprivs)
}

/// Appends the options of time and place that are set.
fn append_time_place_options(
    alloc: Global,
    out: &mut Vec<u8>,
    options: &CommandOptions<'_>,
) -> Result<(), AllocError>
    ensures { OnOk result (out.new.items ≡ out.old.items ++ printed_time_place_options (option_values_of_view options.now)) }
{
    append_option_if_given(alloc, out, OptionName::Notbefore, options.notbefore)?;
    append_option_if_given(alloc, out, OptionName::Notafter, options.notafter)?;
    append_option_if_given(alloc, out, OptionName::Timeout, options.timeout)?;
    append_option_if_given(alloc, out, OptionName::Cwd, options.cwd)?;
    append_option_if_given(alloc, out, OptionName::Chroot, options.chroot)
}

/// Appends the options that are set, each with a blank after it.
fn append_options(
    alloc: Global,
    out: &mut Vec<u8>,
    options: &CommandOptions<'_>,
) -> Result<(), AllocError>
    ensures { OnOk result (out.new.items ≡ out.old.items ++ printed_given_options (option_values_of_view options.now)) }
{
    append_label_and_privilege_options(alloc, out, options)?;
    append_time_place_options(alloc, out, options)
}

/// Appends a tag, if it stands, with `: `.
fn append_tag_if_given(out: &mut Vec<u8>, tag: Tag, said: Option<bool>) -> Result<(), AllocError>
    ensures { OnOk result (out.new.items ≡ out.old.items ++ printed_tag_if_given tag said) }
{
    let Some(on) = said else {
        return Ok(());
    };
    append_keyword_of_tag_or_negated(out, tag, on)?;
    out.extend_from_slice(b": ")
}

/// Appends the first half of the tags, those that stand.
fn append_first_four_tags(out: &mut Vec<u8>, tags: &CommandTags) -> Result<(), AllocError>
    ensures { OnOk result (out.new.items ≡ out.old.items ++ printed_first_four_tags tags.now) }
{
    append_tag_if_given(out, Tag::Exec, tags.exec)?;
    append_tag_if_given(out, Tag::Follow, tags.follow)?;
    append_tag_if_given(out, Tag::Intercept, tags.intercept)?;
    append_tag_if_given(out, Tag::LogInput, tags.log_input)
}

/// Appends the second half of the tags, those that stand.
fn append_last_four_tags(out: &mut Vec<u8>, tags: &CommandTags) -> Result<(), AllocError>
    ensures { OnOk result (out.new.items ≡ out.old.items ++ printed_last_four_tags tags.now) }
{
    append_tag_if_given(out, Tag::LogOutput, tags.log_output)?;
    append_tag_if_given(out, Tag::Mail, tags.mail)?;
    append_tag_if_given(out, Tag::Passwd, tags.passwd)?;
    append_tag_if_given(out, Tag::Setenv, tags.setenv)
}

/// Appends the tags that stand, each with `: ` after it.
fn append_tags(out: &mut Vec<u8>, tags: &CommandTags) -> Result<(), AllocError>
    ensures { OnOk result (out.new.items ≡ out.old.items ++ printed_given_tags tags.now) }
{
    append_first_four_tags(out, tags)?;
    append_last_four_tags(out, tags)
}

/// Appends a Runas_Spec, if there is one, and a blank.
fn append_runas_prefix(
    alloc: Global,
    out: &mut Vec<u8>,
    runas: &Option<RunasSpec<'_>>,
) -> Result<(), AllocError>
    ensures { OnOk result (out.new.items ≡ out.old.items ++ printed_runas_prefix (option_map runas_of_view runas.now)) }
{
    let Some(runas) = runas else {
        return Ok(());
    };
    append_runas(alloc, out, runas)?;
    out.extend_from_slice(b" ")
}

/// Appends the command `member`, of which `head` holds.
///
/// # Errors
///
/// Memory ran out.
pub fn append_effective_command(
    alloc: Global,
    out: &mut Vec<u8>,
    head: &CommandSettings<'_>,
    member: &Member<'_>,
) -> Result<(), AllocError>
    ensures { OnOk result ((h : HeadOf) → HoldsCommandSettings head.now h
        → out.new.items ≡ out.old.items ++ printed_runas_options_tags_and_command (effective_command (h, member_of_view member.now))) }
{
    append_runas_prefix(alloc, out, &head.runas)?;
    append_options(alloc, out, &head.options)?;
    append_tags(out, &head.tags)?;
    append_member(alloc, out, false, Kind::Cmnd, member)
}
