//! The text of rules, spelled for sudo.

ghost use Rattle.std.specs.Prelude.{◌≡◌, ◌++◌, map, IfOk, OnOk};
ghost use Rattle.std.specs.Option.{option_map};
ghost use Rattle.sudoers_text.specs.Line.{join};
ghost use Rattle.sudoers_cvt_rules.specs.Rules.{rules_of_policy_lines};
ghost use Rattle.sudoers_cvt_sudo.specs.Printed.{are_no_forms, first_spelling_for_sudo, is_read_by_sudo, is_spelling_for_sudo, is_text_of_rules_of, line_for_sudo, lines_for_sudo, printed_rules_of_text, printed_rules_within_limits, spellings_of_line, text_for_sudo};

use crate::bare_quotes::strip_backslashes_before_quotes;
use crate::name_spelling::NameSpelling;
use crate::names::{list_refused_forms_of_text, spell_names};
use std::alloc::{AllocError, Global};
use sudoers_cvt_rules::{CvtFault, Rules, print};
use sudoers_forms::RefusedForm;
use sudoers_text::{Lines, TextFault, cut};
use sudoers_tree::{LoadFault, Policy};

/// Returns `text`, which is printed of rules, spelled for sudo. A line that sudo refuses is in a spelling that it reads, if it says the same
/// so.
///
/// # Errors
///
/// Memory ran out.
#[tactic(auto, unfolding(crate::specs::Printed::text_for_sudo))]
pub fn spell_for_sudo(alloc: Global, text: &[u8]) -> Result<Vec<u8>, AllocError>
    ensures { IfOk result (λ spelled. spelled.items ≡ text_for_sudo text.now) }
{
    let spelled = spell_lines_for_sudo(alloc, text)?;
    if is_text_of_rules_of(alloc, text, spelled.as_slice())? {
        return Ok(spelled);
    }
    Vec::from_slice(alloc, text)
}

/// Returns the lines of `text`, each spelled for sudo. A text that cannot be cut stays as it is.
fn spell_lines_for_sudo(alloc: Global, text: &[u8]) -> Result<Vec<u8>, AllocError>
    ensures { IfOk result (λ spelled. spelled.items ≡ lines_for_sudo text.now) }
{
    match cut(alloc, text) {
        Ok(lines) => join_lines_for_sudo(alloc, &lines),
        Err(TextFault::NoMemory) => Err(AllocError),
        Err(_) => Vec::from_slice(alloc, text),
    }
}

/// Returns the lines `lines`, each spelled for sudo, one behind another.
fn join_lines_for_sudo(alloc: Global, lines: &Lines<'_>) -> Result<Vec<u8>, AllocError>
    ensures { IfOk result (λ spelled. spelled.items ≡ join (map line_for_sudo lines.now)) }
{
    let mut spelled = Vec::new(alloc);
    for number in 0..lines.len() {
        let Some(line) = lines.get(number) else {
            return Ok(spelled);
        };
        append_line_for_sudo(alloc, line, &mut spelled)?;
    }
    Ok(spelled)
}

/// Appends `line`, spelled for sudo, to `out`.
fn append_line_for_sudo(alloc: Global, line: &[u8], out: &mut Vec<u8>) -> Result<(), AllocError>
    ensures { OnOk result (out.new.items ≡ out.old.items ++ line_for_sudo line.now) }
{
    let spelled = spell_line_for_sudo(alloc, line)?;
    out.extend_from_slice(spelled.as_slice())
}

/// Returns `line`, if sudo reads it, and else the first of its spellings that sudo reads and that says the same. Without one it returns `line`.
fn spell_line_for_sudo(alloc: Global, line: &[u8]) -> Result<Vec<u8>, AllocError>
    ensures { IfOk result (λ spelled. spelled.items ≡ line_for_sudo line.now) }
{
    if is_read_by_sudo(alloc, line)? {
        return Vec::from_slice(alloc, line);
    }
    let bare = strip_backslashes_before_quotes(alloc, line)?;
    choose_spelling_for_sudo(alloc, line, bare)
}

/// Returns the first spelling of `line` that sudo reads and that says the same, or `line`: `bare`, or `bare` with other names.
fn choose_spelling_for_sudo(
    alloc: Global,
    line: &[u8],
    bare: Vec<u8>,
) -> Result<Vec<u8>, AllocError>
    ensures { IfOk result (λ spelled. spelled.items ≡ first_spelling_for_sudo line.now (spellings_of_line bare.items)) }
{
    if is_spelling_for_sudo(alloc, line, bare.as_slice())? {
        return Ok(bare);
    }
    let quoted = spell_names(alloc, NameSpelling::Quoted, bare.as_slice())?;
    if is_spelling_for_sudo(alloc, line, quoted.as_slice())? {
        return Ok(quoted);
    }
    let escaped = spell_names(alloc, NameSpelling::Escaped, bare.as_slice())?;
    if is_spelling_for_sudo(alloc, line, escaped.as_slice())? {
        return Ok(escaped);
    }
    Vec::from_slice(alloc, line)
}

/// Returns whether sudo reads `spelled`, and its rules are printed as `line`.
fn is_spelling_for_sudo(alloc: Global, line: &[u8], spelled: &[u8]) -> Result<bool, AllocError>
    ensures { IfOk result (λ is_chosen. is_chosen ≡ is_spelling_for_sudo line.now spelled.now) }
{
    if is_read_by_sudo(alloc, spelled)? {
        is_text_of_rules_of(alloc, line, spelled)
    } else {
        Ok(false)
    }
}

/// Returns whether no form of `text` is refused by sudo.
fn is_read_by_sudo(alloc: Global, text: &[u8]) -> Result<bool, AllocError>
    ensures { IfOk result (λ is_read. is_read ≡ is_read_by_sudo text.now) }
{
    let refused = list_refused_forms_of_text(alloc, text)?;
    Ok(has_no_forms(refused.as_slice()))
}

/// Returns whether `refused` has no forms.
fn has_no_forms(refused: &[RefusedForm]) -> bool
    ensures { result ≡ are_no_forms refused.now }
{
    match refused {
        [] => true,
        _ => false,
    }
}

/// Returns whether the rules of `other` are printed as `text`.
fn is_text_of_rules_of(alloc: Global, text: &[u8], other: &[u8]) -> Result<bool, AllocError>
    ensures { IfOk result (λ same. same ≡ is_text_of_rules_of text.now other.now) }
{
    match print_rules_of_text(alloc, other)? {
        Some(printed) => Ok(printed.as_slice() == text),
        None => Ok(false),
    }
}

/// Returns the text as which the rules of `text` are printed, which is the only file of its policy. Returns nothing if it is no policy, or if
/// the rules pass a limit.
fn print_rules_of_text(alloc: Global, text: &[u8]) -> Result<Option<Vec<u8>>, AllocError>
    ensures { IfOk result (λ printed. option_map (λ text. text.items) printed ≡ printed_rules_of_text text.now) }
{
    match Policy::read(alloc, text) {
        Ok(policy) => print_rules_of_policy(alloc, &policy),
        Err(LoadFault::NoMemory) => Err(AllocError),
        Err(_) => Ok(None),
    }
}

/// Returns the text as which the rules of `policy` are printed, if it is within the limits.
fn print_rules_of_policy(alloc: Global, policy: &Policy) -> Result<Option<Vec<u8>>, AllocError>
    ensures { IfOk result (λ printed. option_map (λ text. text.items) printed
        ≡ printed_rules_within_limits (rules_of_policy_lines policy.now.walk.lines)) }
{
    let Ok(rules) = Rules::from_policy_lines(alloc, &policy.lines()) else {
        return Err(AllocError);
    };
    match print(alloc, &rules) {
        Ok(text) => Ok(Some(text)),
        Err(CvtFault::TooLarge) => Ok(None),
        Err(_) => Err(AllocError),
    }
}
