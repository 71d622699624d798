//! The files of an output of `edit`, before its edits and after them.

ghost use Rattle.std.specs.Prelude.{◌≡◌, ◌⊎◌, Err, IfErr, IfOk, MatchResult, Ok};
ghost use Rattle.sudoers_run.specs.Edit.{IsStatedLayerFaultOrMemory};
ghost use Rattle.sudoers_run.specs.OutputFiles.{files_of_output, policy_with_edits_taken_back};

use crate::edit::{INPUT_LIMIT, read_files_of_text_in_shape, split_script_shape_and_policy};
use crate::fault::{LayerFault, ToolFault};
use crate::input_shape::EditInputShape;
use crate::loading::load_gathered_files;
use std::alloc::Global;
use sudoers_edit::{Editor, read_script};
use sudoers_tree::NamedFile;

/// The files of an output of `edit`. Both lists have them in the order of the output.
#[derive(Drop)]
pub struct OutputFiles {
    /// The files as they were before the edits.
    pub before: Vec<NamedFile>,
    /// The files as they are after the edits.
    pub after: Vec<NamedFile>,
}

/// Reads `output`, an undo script and then a bundle, and takes the edits back.
///
/// # Errors
///
/// [`ToolFault`]: `InputTooLarge`; `NoMark` where no line is the header of a file, or a line `%%` stands before it; then of the bundle, the
/// script, the policy and the edits.
pub fn read_output_files(alloc: Global, output: &[u8]) -> Result<OutputFiles, ToolFault>
    ensures ok { IfOk result (λ files. files_of_output output.now ≡ Ok (record { before = files.before.items; after = files.after.items })) }
    ensures fault { IfErr result (λ fault. (fault ≡ ToolFault.Layer LayerFault.NoMemory) ⊎ (files_of_output output.now ≡ Err fault)) }
{
    if output.len() > INPUT_LIMIT {
        return Err(ToolFault::InputTooLarge);
    }
    let Some((script, shape, text)) = split_script_shape_and_policy(output) else {
        return Err(ToolFault::NoMark);
    };
    let EditInputShape::Bundle = shape else {
        return Err(ToolFault::NoMark);
    };
    let after = read_files_of_text_in_shape(alloc, shape, text)?;
    let editor = take_edits_back(alloc, script, after.as_slice())?;
    let before = editor.policy().copy_named_files()?;
    Ok(OutputFiles { before, after })
}

/// Returns the policy of the files `files`, with the edits of the script `script` made in it.
fn take_edits_back(alloc: Global, script: &[u8], files: &[NamedFile]) -> Result<Editor, LayerFault>
    ensures { MatchResult result (λ editor. policy_with_edits_taken_back script.now files.now ≡ Ok editor.policy)
        (λ fault. IsStatedLayerFaultOrMemory fault (policy_with_edits_taken_back script.now files.now)) }
{
    let edits = read_script(alloc, script)?;
    let policy = load_gathered_files(alloc, files)??;
    let mut editor = Editor::new(policy);
    editor.apply_all(edits.as_slice())?;
    Ok(editor)
}
