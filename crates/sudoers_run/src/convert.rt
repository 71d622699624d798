//! Printing the rules of a policy in another form.
ghost use Rattle.std.specs.Prelude.{ℕ, List, ◌≡◌, ◌≢◌, ◌⊎◌, ◌+◌, ◌<◌, ◌≤◌, length, Ok, Err, IfOk, IfErr, IfSome, IsOkAnd, MatchResult, min, ◌-◌, ◌^◌};
ghost use Rattle.std.specs.Io.KnownBytes.{Keeps, Appends};
ghost use Rattle.sudoers_files.specs.Device.{AppendsPrefixOfBytes};
ghost use Rattle.sudoers_run.specs.Writing.{IsWriterStateAfterCommand};
ghost use Rattle.sudoers_edit.specs.Memory.{IsMemoryFreeLoadFault};
ghost use Rattle.sudoers_run.specs.Policy.{CommandLeavesFilesUnchanged};
ghost use Rattle.sudoers_run.specs.Edit.{IsStatedLayerFaultOrMemory};
ghost use Rattle.std.specs.Borrow.{Bor};
ghost use Rattle.std.specs.Option.{option_map};
ghost use Rattle.sudoers_cvt_rewrite.specs.Changed.{changes_of_view};
ghost use Rattle.sudoers_run.specs.Convert.{convert_output_of_lines, convert_output, convert_output_of_loading, rules_text_in_form, optional_filter_of_optional_text, fault_of_output_form, rewritten_rules_text, IsStatedOrOutsideConvertFault, IsConvertFault, IsFilterFault, IsRewriteFault, IsGatheredConvertFault};

use crate::command_words::ConvertWords;
use crate::fault::{LayerFault, ToolFault};
use crate::loading::gather_and_load_policy;
use crate::output::write_all_to_sink;
use crate::output_form::OutputForm;
use std::alloc::Global;
use sudoers_cvt_json::json;
use sudoers_cvt_rewrite::{Filter, RewriteChanges, read_filter, rewrite_policy_lines};
use sudoers_cvt_rules::{Rules, print};
use sudoers_files::{Files, Sink};
use sudoers_tree::{LoadFault, Policy};

/// Reads the policy `root` with the files that it includes, and writes its rules as `words` ask for (cvtsudoers(1)). As the text of a
/// policy they are all Defaults lines, then all definitions of aliases, then all user specifications. The other form is JSON. A filter
/// leaves out what does not match it. After that, aliases may be replaced by their members.
///
/// # Errors
///
/// [`ToolFault`]: of gathering the files, then of the policy, then of the filter, then of a cyclic alias and of too many members, then of
/// the limits of a policy or of bytes that are not UTF-8, then of writing. Nothing is written before a fault other than `Write`.
pub fn run_convert<F: Files, W: Sink>(
    alloc: Global,
    files: &mut F,
    root: &[u8],
    words: &ConvertWords<'_>,
    writer: &mut W,
) -> Result<u8, ToolFault>
    // Status 0, and what is written is the stated function of the files.
    ensures ok { IfOk result (λ status. (status ≡ 0) × IfSome (F.shelf files.old).files (λ known.
        IsOkAnd (convert_output words.now root.now known) (Appends (W.contents writer.old) (W.contents writer.new)))) }
    // A fault of the files and of the filter is the stated one.
    ensures fault { IfErr result (λ fault. IfSome (F.shelf files.old).files (IsStatedOrOutsideConvertFault words.now root.now fault)) }
    // There are no other faults.
    ensures named { IfErr result (IsConvertFault words.now) }
    // After `Write`, what was written is a beginning of the output.
    ensures front { result ≡ Err ToolFault.Write → IfSome (F.shelf files.old).files (λ known.
        IsOkAnd (convert_output words.now root.now known) (AppendsPrefixOfBytes (W.contents writer.old) (W.contents writer.new))) }
    // What the counts of the files show, and that nothing is written before a fault, as the counts of the writer show.
    ensures searches { CommandLeavesFilesUnchanged result (F.shelf files.old) (F.shelf files.new) }
    ensures writes { IsWriterStateAfterCommand result (W.Sink.failures writer.old) (W.Sink.failures writer.new)
        (W.contents writer.old) (W.contents writer.new) }
{
    let policy = gather_and_load_policy(alloc, files, root)?;
    let text = make_converted_text(alloc, policy, words)?;
    write_all_to_sink(writer, text.as_slice())?;
    Ok(0)
}

/// Returns the rules of `policy` as `words` ask for them, or its error.
fn make_converted_text(
    alloc: Global,
    policy: Result<Policy, LoadFault>,
    words: &ConvertWords<'_>,
) -> Result<Vec<u8>, LayerFault>
    requires { IfErr policy IsMemoryFreeLoadFault }
    ensures { MatchResult result (λ text. convert_output_of_loading words.now policy ≡ Ok text.items)
        (λ fault. IsStatedLayerFaultOrMemory fault (convert_output_of_loading words.now policy) × IsGatheredConvertFault words.now fault) }
{
    let policy = policy?;
    convert_policy(alloc, &policy, words)
}

/// Returns the filter with the text `text`, if there is a text.
fn read_optional_filter(alloc: Global, text: Option<&[u8]>) -> Result<Option<Filter>, LayerFault>
    ensures { MatchResult result (λ filter. optional_filter_of_optional_text (option_map (λ (text : Bor (List ℕ)). text.now) text.entry) ≡ Ok filter)
        (λ fault. (fault ≡ LayerFault.NoMemory) ⊎ ((optional_filter_of_optional_text (option_map (λ (text : Bor (List ℕ)). text.now) text.entry) ≡ Err fault) × IsFilterFault fault)) }
{
    match text {
        None => Ok(None),
        Some(text) => Ok(Some(read_filter(alloc, text)?)),
    }
}

/// Returns the rules of `policy` as `words` ask for.
fn convert_policy(
    alloc: Global,
    policy: &Policy,
    words: &ConvertWords<'_>,
) -> Result<Vec<u8>, LayerFault>
    ensures { MatchResult result (λ out. convert_output_of_lines words.now policy.now.walk.lines ≡ Ok out.items)
        (λ fault. (fault ≡ LayerFault.NoMemory) ⊎ ((convert_output_of_lines words.now policy.now.walk.lines ≡ Err fault) × IsGatheredConvertFault words.now fault)) }
{
    let filter = read_optional_filter(alloc, words.filter)?;
    let changes = RewriteChanges {
        filter: filter.as_ref(),
        prune: words.prune,
        expand: words.expand,
    };
    if filter.is_none() && !words.expand {
        let rules = Rules::from_policy_lines(alloc, &policy.lines())?;
        return print_rules_in_form(alloc, words.form, &rules);
    }
    print_rewritten_rules(alloc, policy, words.form, &changes)
}

/// Returns the rules of `policy`, filtered or expanded by `changes`, in the form `form`.
fn print_rewritten_rules(
    alloc: Global,
    policy: &Policy,
    form: OutputForm,
    changes: &RewriteChanges<'_>,
) -> Result<Vec<u8>, LayerFault>
    ensures { MatchResult result (λ out. rewritten_rules_text form (changes_of_view changes.now) policy.now.walk.lines ≡ Ok out.items)
        (λ fault. (fault ≡ LayerFault.NoMemory) ⊎ ((rewritten_rules_text form (changes_of_view changes.now) policy.now.walk.lines ≡ Err fault)
        × IsRewriteFault form changes.now.expand fault)) }
{
    let rewritten = rewrite_policy_lines(alloc, policy, changes)?;
    let rules = rewritten.collect_used_rules(alloc)?;
    print_rules_in_form(alloc, form, &rules)
}

/// Returns `rules` in the form `form`.
fn print_rules_in_form(
    alloc: Global,
    form: OutputForm,
    rules: &Rules<'_>,
) -> Result<Vec<u8>, LayerFault>
    ensures { MatchResult result (λ out. rules_text_in_form form rules.now ≡ Ok out.items)
        (λ fault. (fault ≡ LayerFault.NoMemory) ⊎ ((rules_text_in_form form rules.now ≡ Err fault) × (fault ≡ LayerFault.Convert (fault_of_output_form form)))) }
{
    match form {
        OutputForm::Sudoers => Ok(print(alloc, rules)?),
        OutputForm::Json => Ok(json(alloc, rules)?),
    }
}
