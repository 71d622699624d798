//! Laws of policies. Each is the contract of a function that does nothing.

ghost use Rattle.std.specs.Prelude.{◌≡◌, ◌≤◌, ◌<◌, ◌+◌, ◌-◌, ◌*◌, List, [], ◌∷◌, ◌++◌, ℕ, Option, option_to_list, length, map, take, drop, insert, remove, nat_eq, Ok, Result, Some, None};
ghost use Rattle.sudoers_text.specs.Line.{join};
ghost use Rattle.sudoers_text.specs.Whole.{IsLogicalLine};
ghost use Rattle.sudoers_tree.specs.Line.{Line as LineOf};
ghost use Rattle.sudoers_tree.specs.ChangedFiles.{AreApplicableChanges, changes_of_file, files_after_changes};
ghost use Rattle.sudoers_tree.specs.Mapped.{AreFilesMapped, CanReplaceFiles, IsMappedWalk, MakeMappedLines, LineToLinesMapping, AreDefinedNamesValid, file_names, mapped_lines_at_spots};
ghost use Rattle.sudoers_tree.specs.Changed.{lines_after_changes, lines_changed_from_number, lines_with_one_replaced, line_number_of_change, min_line_number_after_change, text_of_change, AreChangesInOrder};
ghost use Rattle.sudoers_tree.specs.declared.line_change.LineChange.{LineChange as LineChangeOf};
ghost use Rattle.sudoers_tree.specs.declared.line_change.LineChange.TheVariants.{Put, Swap, Take};
ghost use Rattle.sudoers_tree.specs.Reading.{policy_lines_of_text, IsPolicyOrFirstFaultOfText};
ghost use Rattle.std.specs.List.{AllByRecursion, IsDistinct};
ghost use Rattle.sudoers_text.specs.Cut.{cut_outcome_of_text};
ghost use Rattle.sudoers_tree.specs.declared.fault.ReadFault.{ReadFault as FaultOf};
ghost use Rattle.sudoers_grammar.specs.declared.node.Kind.{Kind as KindOf};
ghost use Rattle.sudoers_grammar.specs.Node.{Node as NodeOf};
ghost use Rattle.sudoers_grammar.specs.Listed.{listed_members_of_node};
ghost use Rattle.sudoers_tree.specs.Mention.{members_of_kind_in_line, members_of_kind_among_listed};
ghost use Rattle.sudoers_tree.specs.Policy.{AreValidWalkLines, IsCorrectlyParsed, texts_of_lines};
ghost use Rattle.sudoers_tree.specs.Load.{LoadedPolicy, AreLinesAtSpots, file_limit, named_file_of_parsed, named_files_of_policy, policy_or_load_fault};
ghost use Rattle.sudoers_text.specs.Fault.{text_limit};
ghost use Rattle.sudoers_tree.specs.declared.named_files.NamedFile.{NamedFile as NamedFileOf};
ghost use Rattle.sudoers_tree.specs.Single.{reading_of_single_line};
ghost use Rattle.sudoers_tree.specs.Files.{ParsedFile, AreParsedUntilFault, lines_of_numbered_file, lines_parsed_until_fault};
ghost use Rattle.sudoers_tree.specs.declared.fault.SyntaxFault.{SyntaxFault as SyntaxFaultOf};
ghost use Rattle.sudoers_tree.specs.Goes.{IsWalkOfFiles};
ghost use Rattle.sudoers_tree.specs.Walk.{WalkState, walk_or_fault_of_files};
ghost use Rattle.sudoers_tree.specs.declared.load_fault.LoadFault.{LoadFault as LoadFaultOf};

use sudoers_grammar::laws::{no_fault, one_fault};
use sudoers_line_reader::laws::{one_reading, outcome_is};
use sudoers_text::laws::{
    cut_is, line_alone_is_whole, lines_of_join, lines_stand_alone, one_list,
    one_outcome as one_cut, whole_line_is, whole_lines_of_join,
};

/// A text has an outcome: the policy that it is, or its first fault.
pub fn read_is()
    ensures { (text : List ℕ) → IsPolicyOrFirstFaultOfText text (policy_lines_of_text text) }
{
    cut_is();
    outcome_is();
}

/// A text has one outcome only.
pub fn one_outcome()
    ensures { (text : List ℕ) (outcome other : Result (List LineOf) FaultOf) → IsPolicyOrFirstFaultOfText text outcome
        → IsPolicyOrFirstFaultOfText text other → outcome ≡ other }
{
    cut_is();
    one_cut();
    outcome_is();
    one_reading();
    no_fault();
    one_fault();
}

/// The lines of the policy that a text is are those of its cut.
pub fn policy_is_cut()
    ensures { (text : List ℕ) (lines : List LineOf) → policy_lines_of_text text ≡ Ok lines → cut_outcome_of_text text ≡ Ok (texts_of_lines lines) }
{
    read_is();
    cut_is();
    one_cut();
}

/// What is kept of each line of a policy is what its text says alone.
pub fn lines_are_said()
    ensures { (text : List ℕ) (lines : List LineOf) → policy_lines_of_text text ≡ Ok lines
        → AllByRecursion (λ (line : LineOf). reading_of_single_line line.text ≡ Some line.node) lines }
{
    read_is();
    policy_is_cut();
    lines_stand_alone();
    line_alone_is_whole();
    outcome_is();
    one_reading();
    no_fault();
}

/// The members of lists of a kind are those of all members that stand in such lists.
pub fn members_are_listed()
    ensures { (kind : KindOf) (says : NodeOf) → members_of_kind_in_line kind says ≡ members_of_kind_among_listed kind (listed_members_of_node says) }
{}

/// Lines after changes are made of the first change and the others: the lines up to its place, the text that it brings, and what the others
/// make of the lines behind. Without changes they are as they were.
pub fn changed_by_first()
    ensures none { (n : ℕ) (lines : List (List ℕ)) → lines_changed_from_number n [] lines ≡ lines }
    ensures first { (n : ℕ) (change : LineChangeOf) (changes : List LineChangeOf) (lines : List (List ℕ))
        → AreChangesInOrder n (change ∷ changes) (n + length lines) → lines_changed_from_number n (change ∷ changes) lines
        ≡ take (line_number_of_change change - n) lines ++ (option_to_list (text_of_change change)
        ++ lines_changed_from_number (min_line_number_after_change change) changes (drop (min_line_number_after_change change - n) lines)) }
{}

/// One change puts, takes out or replaces one line.
pub fn one_change()
    ensures put { (lines : List (List ℕ)) (file at : ℕ) (text : List ℕ) → at ≤ length lines → lines_after_changes (Put file at text ∷ []) lines ≡ insert lines at text }
    ensures take { (lines : List (List ℕ)) (file at : ℕ) → at < length lines → lines_after_changes (Take file at ∷ []) lines ≡ remove lines at }
    ensures swap { (lines : List (List ℕ)) (file at : ℕ) (text : List ℕ) → at < length lines → lines_after_changes (Swap file at text ∷ []) lines ≡ lines_with_one_replaced at text lines }
{}

/// `lines_parsed_until_fault` computes of the lines of a text what `AreParsedUntilFault` defines, and `AreParsedUntilFault` defines no other outcome.
pub fn reads_is()
    ensures is { (lines : List (List ℕ)) → AreParsedUntilFault lines (lines_parsed_until_fault [] lines).0 (lines_parsed_until_fault [] lines).1 }
    ensures one { (lines : List (List ℕ)) (read : List LineOf) (fault : Option SyntaxFaultOf) → AreParsedUntilFault lines read fault → lines_parsed_until_fault [] lines ≡ (read, fault) }
{
    outcome_is();
    one_reading();
    no_fault();
    one_fault();
}

/// The lines of the walk over loaded files are a walk: each says what is kept of it, and no name that they define has a fault.
pub fn loaded_is_walk()
    ensures { (files : List NamedFileOf) (policy : LoadedPolicy) → policy_or_load_fault files ≡ Ok policy → AreValidWalkLines policy.walk.lines }
{}

/// Each line of the walk over loaded files stands at its spot.
pub fn loaded_lines_stand()
    ensures { (files : List NamedFileOf) (policy : LoadedPolicy) → policy_or_load_fault files ≡ Ok policy → AreLinesAtSpots policy.files policy.walk.spots policy.walk.lines }
{}

/// Each line of the walk over loaded files is one logical line.
pub fn loaded_lines_are_whole()
    ensures { (files : List NamedFileOf) (policy : LoadedPolicy) → policy_or_load_fault files ≡ Ok policy → AllByRecursion IsLogicalLine (texts_of_lines policy.walk.lines) }
{
    loaded_lines_stand();
    lines_stand_alone();
    line_alone_is_whole();
    whole_line_is();
}

/// Each file is at most once on the walk over loaded files. The lines of the walk together are at most as long as the limit of a text
/// times the limit of files.
pub fn loaded_is_within()
    ensures once { (files : List NamedFileOf) (policy : LoadedPolicy) → policy_or_load_fault files ≡ Ok policy → IsDistinct nat_eq policy.walk.on }
    ensures within { (files : List NamedFileOf) (policy : LoadedPolicy) → policy_or_load_fault files ≡ Ok policy → length (join (texts_of_lines policy.walk.lines)) ≤ file_limit * text_limit }
{}

/// Loaded files keep their names and their bytes. Each of their lines parses.
pub fn loaded_files_are()
    ensures bytes { (files : List NamedFileOf) (policy : LoadedPolicy) → policy_or_load_fault files ≡ Ok policy → named_files_of_policy policy ≡ files }
    ensures parse { (files : List NamedFileOf) (policy : LoadedPolicy) → policy_or_load_fault files ≡ Ok policy
        → AllByRecursion (λ (file : ParsedFile). file.fault ≡ None) policy.files }
{}

/// A law: the lines of each loaded file are those of its text.
pub fn loaded_files_are_cut()
    ensures { (files : List NamedFileOf) (policy : LoadedPolicy) → policy_or_load_fault files ≡ Ok policy → (f : ℕ)
        → cut_outcome_of_text (join (texts_of_lines (lines_of_numbered_file policy.files f))) ≡ Ok (texts_of_lines (lines_of_numbered_file policy.files f)) }
{
    cut_is();
    reads_is();
    lines_of_join();
}

/// A law: each line of loaded files says what is kept of it.
pub fn loaded_lines_are_said()
    ensures { (files : List NamedFileOf) (policy : LoadedPolicy) → policy_or_load_fault files ≡ Ok policy → (f : ℕ)
        → AllByRecursion IsCorrectlyParsed (lines_of_numbered_file policy.files f) }
{
    outcome_is();
}

/// A law: the walk of a policy is the walk over its files.
pub fn loaded_walk_is()
    ensures { (files : List NamedFileOf) (policy : LoadedPolicy) → policy_or_load_fault files ≡ Ok policy → walk_or_fault_of_files policy.files ≡ Ok policy.walk }
{}

/// A law: lines that have the same texts are the same, if each says what is kept of it.
pub fn texts_tell_lines()
    ensures { (lines others : List LineOf) → AllByRecursion IsCorrectlyParsed lines → AllByRecursion IsCorrectlyParsed others → texts_of_lines lines ≡ texts_of_lines others
        → lines ≡ others }
{
    one_reading();
}

/// A law: changed files that are loaded have the names that they had. The lines of each file are its lines before, after the changes of
/// that file.
pub fn changed_files_have_lines()
    ensures names { (changes : List LineChangeOf) (old new : LoadedPolicy) → policy_or_load_fault (files_after_changes changes old.files) ≡ Ok new
        → file_names new.files ≡ file_names old.files }
    ensures lines { (changes : List LineChangeOf) (old new : LoadedPolicy) → policy_or_load_fault (named_files_of_policy old) ≡ Ok old → AreApplicableChanges changes old.files
        → policy_or_load_fault (files_after_changes changes old.files) ≡ Ok new → (f : ℕ)
        → texts_of_lines (lines_of_numbered_file new.files f) ≡ lines_after_changes (changes_of_file f changes) (texts_of_lines (lines_of_numbered_file old.files f)) }
{
    loaded_files_are();
    loaded_files_are_cut();
    cut_is();
    one_list();
    lines_stand_alone();
    line_alone_is_whole();
    whole_line_is();
    whole_lines_of_join();
}

/// `walk_or_fault_of_files` computes the walk over files that `IsWalkOfFiles` defines, and `IsWalkOfFiles` defines no other.
#[tactic(auto, using(crate::proofs::WalkOutcomes::computed_walk_is_walk_of_files, crate::proofs::WalkOutcomes::walk_of_files_is_computed_walk))]
pub fn walk_is()
    ensures is { (files : List ParsedFile) → IsWalkOfFiles files (walk_or_fault_of_files files) }
    ensures one { (files : List ParsedFile) (outcome : Result WalkState LoadFaultOf) → IsWalkOfFiles files outcome → walk_or_fault_of_files files ≡ outcome }
{}

/// A law: lines of files change, and each keeps its lead. The walk over the changed files then passes the same files in the same order. Its
/// lines are those that come of the lines of the walk before. There is that walk if no name that they define has a fault. Any walk over
/// the changed files is that one.
pub fn walk_is_mapped()
    ensures stands { (g : LineToLinesMapping) (files others : List ParsedFile) (w : WalkState) → walk_or_fault_of_files files ≡ Ok w → AreFilesMapped g files others w
        → AreDefinedNamesValid (mapped_lines_at_spots g w.spots w.lines) → (other : WalkState) × (walk_or_fault_of_files others ≡ Ok other) × IsMappedWalk g w other }
    ensures agrees { (g : LineToLinesMapping) (files others : List ParsedFile) (w other : WalkState) → walk_or_fault_of_files files ≡ Ok w → AreFilesMapped g files others w
        → walk_or_fault_of_files others ≡ Ok other → IsMappedWalk g w other }
{}

/// A law: lines of the files of a policy change, and each keeps its lead. If no name has a fault then, the changed files load. Their policy
/// has the walk of `walk_is_mapped`.
pub fn mapped_files_load()
    ensures { (g : LineToLinesMapping) (policy : LoadedPolicy) (others : List ParsedFile) → policy_or_load_fault (named_files_of_policy policy) ≡ Ok policy
        → AreFilesMapped g policy.files others policy.walk → CanReplaceFiles policy.files others policy.walk
        → AreDefinedNamesValid (mapped_lines_at_spots g policy.walk.spots policy.walk.lines)
        → (other : WalkState) × (policy_or_load_fault (map named_file_of_parsed others) ≡ Ok (record { files = others; walk = other })) × (walk_or_fault_of_files others ≡ Ok other)
        × IsMappedWalk g policy.walk other }
{
    cut_is();
    reads_is();
    lines_of_join();
    outcome_is();
}

/// A law: changes of a policy make the lines that come of its lines, and each line keeps its lead. Where the changed files load, their walk
/// is that of `walk_is_mapped`.
pub fn changed_walk_is_mapped()
    ensures { (g : LineToLinesMapping) (changes : List LineChangeOf) (old new : LoadedPolicy) → policy_or_load_fault (named_files_of_policy old) ≡ Ok old → AreApplicableChanges changes old.files
        → policy_or_load_fault (files_after_changes changes old.files) ≡ Ok new → MakeMappedLines g changes old.files old.walk → IsMappedWalk g old.walk new.walk }
{
    loaded_files_are();
    loaded_lines_are_said();
    loaded_walk_is();
    texts_tell_lines();
    changed_files_have_lines();
    walk_is_mapped();
}
