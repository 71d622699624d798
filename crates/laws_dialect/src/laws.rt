//! Laws of lines, texts and policies in the dialect of sudo. Each is the contract of a function that does nothing.

ghost use Rattle.std.specs.Prelude.{◌≡◌, ℕ, List, Ok, map};
ghost use Rattle.std.specs.List.{AllByRecursion};
ghost use Rattle.sudoers_text.specs.Cut.{cut_outcome_of_text};
ghost use Rattle.sudoers_text.specs.Fault.{lf_count};
ghost use Rattle.sudoers_text.specs.Adapted.{IsRespelledLine, respelled_line, adapted_line};
ghost use Rattle.sudoers_grammar.specs.Node.{Node as NodeOf};
ghost use Rattle.sudoers_grammar.specs.Line.{LineReadsAsNode};
ghost use Rattle.sudoers_tree.specs.declared.named_files.NamedFile.{NamedFile as NamedFileOf};
ghost use Rattle.sudoers_tree.specs.Load.{LoadedPolicy, policy_or_load_fault};
ghost use Rattle.sudoers_dialect.specs.Output.{adapted_file};
ghost use Rattle.sudoers_dialect.specs.Text.{adapted_text};
ghost use Rattle.laws_dialect.specs.ReadLines.{IsReadLine};
ghost use Rattle.laws_dialect.specs.Slashed.{IsSlashed};

use sudoers_text::laws::{lines_stand_alone, one_respelled_line, respelled_line_is};
use sudoers_tree::laws::{loaded_files_are, loaded_files_are_cut, loaded_lines_are_said};

/// A line that this toolkit reads is the same line in sudo's dialect, byte for byte.
pub fn read_line_is_adapted()
    ensures respelled { (line : List ℕ) (says : NodeOf) → LineReadsAsNode line says → IsRespelledLine line line }
    ensures computed { (line : List ℕ) (says : NodeOf) → LineReadsAsNode line says → respelled_line line ≡ line }
    ensures adapted { (line : List ℕ) (says : NodeOf) → LineReadsAsNode line says → adapted_line line ≡ line }
{
    respelled_line_is();
    one_respelled_line();
}

/// A text of which this toolkit reads each line is the same text in sudo's dialect, byte for byte.
pub fn read_text_is_adapted()
    ensures { (text : List ℕ) (lines : List (List ℕ)) → cut_outcome_of_text text ≡ Ok lines → AllByRecursion IsReadLine lines → adapted_text text ≡ text }
{
    respelled_line_is();
    one_respelled_line();
    lines_stand_alone();
}

/// The files of a policy are the same files in sudo's dialect, byte for byte.
pub fn policy_is_adapted()
    ensures { (files : List NamedFileOf) (policy : LoadedPolicy) → policy_or_load_fault files ≡ Ok policy → map adapted_file files ≡ files }
{
    read_text_is_adapted();
    loaded_files_are();
    loaded_files_are_cut();
    loaded_lines_are_said();
}

/// A respelled line is the line, but for what is put before some `=`, and for blanks in place of some `:`. So is an adapted line.
pub fn respelled_line_is_slashed()
    ensures respelled { (line respelled : List ℕ) → IsRespelledLine line respelled → IsSlashed line respelled }
    ensures adapted { (line : List ℕ) → IsSlashed line (adapted_line line) }
{
    respelled_line_is();
}

/// An adapted line has as many physical lines as the line.
pub fn adapted_line_keeps_rows()
    ensures { (line : List ℕ) → lf_count (adapted_line line) ≡ lf_count line }
{
    respelled_line_is();
}
