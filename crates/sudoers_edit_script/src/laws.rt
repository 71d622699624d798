//! Laws of scripts and their spellings. Each is the contract of a function that does nothing.

ghost use Rattle.std.specs.Prelude.{◌≡◌, ◌⊎◌, ◌+◌, ◌≤◌, ◌<◌, ◌++◌, ◌≢◌, ℕ, List, true, length, take, slice_index, Ok, Err};
ghost use Rattle.std.specs.List.{AllByRecursion};
ghost use Rattle.sudoers_text.specs.Ended.{ends_in_lf as has_lf};
ghost use Rattle.sudoers_edit_script.specs.Script.{one_based_decimal, spelling_of_edits, script_or_first_fault, edit_limit, HaveFittingNumbers, AreSpellable, IsScriptPrefix, IsFirstBadScriptLine, IsUnfinishedScriptUpToLine, HasMaxEditsBeforeLine};
ghost use Rattle.sudoers_edit_script.specs.ScriptReading.{edits_spelled_by_text, IsFaultFoundWhenReadingLine};
ghost use Rattle.sudoers_edit_script.specs.declared.edit.Edit.{Edit as AnEdit};
ghost use Rattle.sudoers_text.specs.Line.{join};
ghost use Rattle.sudoers_edit_script.specs.Physical.{physical_lines};

use crate::script_reader::ScriptFault;

/// A law: the physical lines of a text are its pieces.
pub fn physical_lines_join()
    ensures { (text : List ℕ) → join (physical_lines text) ≡ text }
{}

/// The spelling of a list of edits is read as that list.
pub fn spelling_is_read()
    ensures { (edits : List AnEdit) → AreSpellable edits → length edits ≤ edit_limit
        → edits_spelled_by_text (spelling_of_edits edits) ≡ Ok edits }
{}

/// What is read as a list of edits is the spelling of that list, of at most so many edits, with numbers that fit and names that are words.
pub fn read_is_spelling()
    ensures { (text : List ℕ) (edits : List AnEdit) → edits_spelled_by_text text ≡ Ok edits → (text ≡ spelling_of_edits edits)
        × (length edits ≤ edit_limit) × AreSpellable edits }
{}

/// What is written, where numbers fit, is read as the list that it was written of; and what is read as a list is written of it.
pub fn written_is_read()
    ensures read { (edits : List AnEdit) (text : List ℕ) → HaveFittingNumbers edits → script_or_first_fault edits ≡ Ok text → edits_spelled_by_text text ≡ Ok edits }
    ensures written { (edits : List AnEdit) (text : List ℕ) → edits_spelled_by_text text ≡ Ok edits → script_or_first_fault edits ≡ Ok text }
{}

/// Two lists of edits have two spellings.
pub fn one_spelling()
    ensures { (edits others : List AnEdit) → AreSpellable edits → AreSpellable others → spelling_of_edits edits
        ≡ spelling_of_edits others → edits ≡ others }
{}

/// The lines of a spelling stand before those of what follows it, and none of them begins with `%`.
pub fn spelling_is_whole_lines()
    ensures before { (edits : List AnEdit) (rest : List ℕ) → AreSpellable edits
        → physical_lines (spelling_of_edits edits ++ rest) ≡ physical_lines (spelling_of_edits edits) ++ physical_lines rest }
    ensures plain { (edits : List AnEdit) → AreSpellable edits
        → AllByRecursion (λ line. slice_index line 0 ≢ 37) (physical_lines (spelling_of_edits edits)) }
{}

/// A line with a bad number is the first line with which the lines of the text are no front of a script. `BadWord` names such a
/// line too, or a `file` line that wants a command which does not follow.
pub fn word_fault_is_at_the_first_dead_line()
    ensures word { (text : List ℕ) (line : ℕ) → edits_spelled_by_text text ≡ Err (ScriptFault.BadWord line)
        → IsFirstBadScriptLine line (physical_lines text) ⊎ IsUnfinishedScriptUpToLine line (physical_lines text) }
    ensures number { (text : List ℕ) (line : ℕ) → edits_spelled_by_text text ≡ Err (ScriptFault.BadNumber line)
        → IsFirstBadScriptLine line (physical_lines text) }
{}

/// `NoPayload` names a command that needs a text which does not follow.
pub fn payload_fault_is_at_a_command_without_text()
    ensures { (text : List ℕ) (line : ℕ) → edits_spelled_by_text text ≡ Err (ScriptFault.NoPayload line)
        → IsUnfinishedScriptUpToLine line (physical_lines text) }
{}

/// A text with the fault `TooMany` has a dead line. The lines before it are a script with as many edits as there may be.
pub fn too_many_is_behind_the_most_edits()
    ensures { (text : List ℕ) → edits_spelled_by_text text ≡ Err ScriptFault.TooMany → (line : ℕ)
        × IsFirstBadScriptLine line (physical_lines text) × HasMaxEditsBeforeLine line (physical_lines text) }
{}

/// The bytes of a front begin a spelling, and the first lines of a text, if they end in LF and their bytes begin a
/// spelling, are a front.
pub fn front_is_by_bytes()
    ensures bytes { (lines : List (List ℕ)) → IsScriptPrefix lines → (more : List ℕ) × (edits : List AnEdit)
        × AreSpellable edits × (length edits ≤ edit_limit) × (join lines ++ more ≡ spelling_of_edits edits) }
    ensures lines { (text more : List ℕ) (n : ℕ) (edits : List AnEdit) → AreSpellable edits
        → length edits ≤ edit_limit → (n < length (physical_lines text)) ⊎ (has_lf text ≡ true)
        → join (take n (physical_lines text)) ++ more ≡ spelling_of_edits edits
        → IsScriptPrefix (take n (physical_lines text)) }
{}

/// Lines have at most one first dead line, and a text that has one is refused when that line is read.
pub fn first_dead_line_is_told()
    ensures one { (lines : List (List ℕ)) (line other : ℕ) → IsFirstBadScriptLine line lines
        → IsFirstBadScriptLine other lines → line ≡ other }
    ensures told { (text : List ℕ) (line : ℕ) → IsFirstBadScriptLine line (physical_lines text)
        → IsFaultFoundWhenReadingLine line (edits_spelled_by_text text) }
{}
