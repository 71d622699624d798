//! A law of `edit`: what it wrote leads back.
ghost use Rattle.std.specs.Prelude.{◌≡◌, ◌≤◌, ℕ, List, Ok, length};
ghost use Rattle.sudoers_run.specs.Edit.{edit_input_limit, edit_output_of_input};
ghost use Rattle.laws_program.specs.WayBack.{EditOutputRestoresPolicy};

use sudoers_bundle::laws::{bundle_is_read, read_is_bundle};
use sudoers_edit::laws::{edits_keep_names, inverse_leads_back, named_are_written};
use sudoers_edit_script::laws::{
    physical_lines_join, read_is_spelling, spelling_is_read, spelling_is_whole_lines,
};
use sudoers_text::laws::lines_stand_alone;
use sudoers_tree::laws::{loaded_files_are, loaded_files_are_cut};

/// What `edit` wrote, given to it again, leads back to the policy that was read, byte for byte, if it is not too large an input.
/// This holds whatever numbers of edits were taken back and made again for it.
pub fn edit_leads_back()
    ensures { (undo redo : ℕ) (input out : List ℕ) → edit_output_of_input undo redo input ≡ Ok out → length out ≤ edit_input_limit → EditOutputRestoresPolicy input out }
{
    loaded_files_are();
    loaded_files_are_cut();
    lines_stand_alone();
    bundle_is_read();
    read_is_bundle();
    read_is_spelling();
    spelling_is_read();
    spelling_is_whole_lines();
    physical_lines_join();
    named_are_written();
    inverse_leads_back();
    edits_keep_names();
}
