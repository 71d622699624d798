//! Laws of lines, for the layers above. Each is the contract of a function that does nothing.

ghost use Rattle.std.specs.Prelude.{◌≡◌, ℕ, List, [], map, length};
ghost use Rattle.std.specs.List.{AllByRecursion};
ghost use Rattle.sudoers_grammar.specs.declared.fault.Why.{Why as WhyOf};
ghost use Rattle.sudoers_grammar.specs.Node.{Def as DefOf, Node as NodeOf};
ghost use Rattle.sudoers_grammar.specs.declared.node.Kind.{Kind as KindOf};
ghost use Rattle.sudoers_grammar.specs.Node as node_of;
ghost use Rattle.sudoers_text.specs.Word.{is_among, is_tag, is_option_name, digest_kinds as digest_words, include_words as words_of_includes};
ghost use Rattle.sudoers_grammar.specs.Piece.{is_some, value_of_matching_row, options_by_name, tag_and_sign_of_word, digest_kinds_by_word, include_is_dir_by_word};
ghost use Rattle.sudoers_grammar.specs.Line.{LineReadsAsNode, IsLineSyntaxFault};
ghost use Rattle.sudoers_grammar.specs.Ascend.{AreOrderedAliasDefinitions, AreOrderedNameOffsets};
ghost use Rattle.sudoers_text.specs.Ended.{ends_in_lf};
ghost use Rattle.sudoers_text.specs.Whole.{IsLogicalLine};
ghost use Rattle.sudoers_text.specs.Renamed.{IsDefinableName};
ghost use Rattle.sudoers_grammar.specs.Renamed.{NamedAlias as AliasOf, NameStandsAtOffset, renamed_alias, node_with_alias_renamed, alias_offsets_in_node, line_text_after_rename, renaming_of_alias_in_node, bytes_replaced_at_offsets, offset_after_renames};

use sudoers_text::laws::{one_token_list, renamed_tokens, tokens_ascend};

/// A line that says something has no fault.
pub fn no_fault()
    ensures { (line : List ℕ) (node : NodeOf) (at : ℕ) (why : WhyOf) → LineReadsAsNode line node → IsLineSyntaxFault line at why → ⊥ }
{
    one_token_list();
}

/// A line has one first fault at most.
pub fn one_fault()
    ensures { (line : List ℕ) (at other : ℕ) (why cause : WhyOf) → IsLineSyntaxFault line at why → IsLineSyntaxFault line other cause
        → (at ≡ other) × (why ≡ cause) }
{
    one_token_list();
}

/// The words that tell how a line is cut into tokens are those that the grammar knows.
pub fn words_agree()
    ensures tags { (word : List ℕ) → is_tag word ≡ is_some (tag_and_sign_of_word word) }
    ensures options { (word : List ℕ) → is_option_name word ≡ is_some (value_of_matching_row options_by_name word) }
    ensures digests { (word : List ℕ) → is_among digest_words word ≡ is_some (value_of_matching_row digest_kinds_by_word word) }
    ensures includes { (word : List ℕ) → is_among words_of_includes word ≡ is_some (value_of_matching_row include_is_dir_by_word word) }
{}

/// The definitions of a line stand one behind another in it, and the members of each in their definition.
pub fn definitions_ascend()
    ensures { (line : List ℕ) (kind : KindOf) (defs : List DefOf) → LineReadsAsNode line (node_of.Alias kind defs)
        → AreOrderedAliasDefinitions 0 (length line) defs }
{
    tokens_ascend();
}

/// Where a line says that an alias is named, the name stands in it; and the names stand one behind another.
pub fn names_stand()
    ensures stands { (alias : AliasOf) (line : List ℕ) (node : NodeOf) → LineReadsAsNode line node
        → AllByRecursion (NameStandsAtOffset line alias.name) (alias_offsets_in_node alias node) }
    ensures ascend { (alias : AliasOf) (line : List ℕ) (node : NodeOf) → LineReadsAsNode line node
        → AreOrderedNameOffsets (length alias.name) 0 (length line) (alias_offsets_in_node alias node) }
{
    tokens_ascend();
}

/// A line that says something, with another name at each place where an alias is named, says the same with that name. It is one logical
/// line if it was, and ends in LF if it did. The old name, given back at these places, gives the old line. If the line did not name it
/// before, the new name stands at these places alone. So a rename back gives the old line.
pub fn renamed_line()
    ensures same { (alias : AliasOf) (fresh line : List ℕ) (node : NodeOf) → IsDefinableName alias.name → IsDefinableName fresh → LineReadsAsNode line node
        → LineReadsAsNode (line_text_after_rename alias fresh node line) (node_with_alias_renamed (renaming_of_alias_in_node alias fresh node) node) }
    ensures line { (alias : AliasOf) (fresh line : List ℕ) (node : NodeOf) → IsDefinableName alias.name → IsDefinableName fresh → LineReadsAsNode line node
        → IsLogicalLine line → IsLogicalLine (line_text_after_rename alias fresh node line) }
    ensures ends { (alias : AliasOf) (fresh line : List ℕ) (node : NodeOf) → IsDefinableName alias.name → IsDefinableName fresh → LineReadsAsNode line node
        → ends_in_lf line ≡ ends_in_lf (line_text_after_rename alias fresh node line) }
    ensures back { (alias : AliasOf) (fresh line : List ℕ) (node : NodeOf) → LineReadsAsNode line node
        → bytes_replaced_at_offsets (length fresh) alias.name
        (map (offset_after_renames (length alias.name) (length fresh) (alias_offsets_in_node alias node)) (alias_offsets_in_node alias node))
        (line_text_after_rename alias fresh node line) ≡ line }
    ensures starts { (alias : AliasOf) (fresh line : List ℕ) (node : NodeOf) → LineReadsAsNode line node → alias_offsets_in_node (renamed_alias alias fresh) node ≡ []
        → alias_offsets_in_node (renamed_alias alias fresh) (node_with_alias_renamed (renaming_of_alias_in_node alias fresh node) node)
        ≡ map (offset_after_renames (length alias.name) (length fresh) (alias_offsets_in_node alias node)) (alias_offsets_in_node alias node) }
    ensures undone { (alias : AliasOf) (fresh line : List ℕ) (node : NodeOf) → LineReadsAsNode line node → alias_offsets_in_node (renamed_alias alias fresh) node ≡ []
        → line_text_after_rename (renamed_alias alias fresh) alias.name (node_with_alias_renamed (renaming_of_alias_in_node alias fresh node) node)
        (line_text_after_rename alias fresh node line) ≡ line }
{
    tokens_ascend();
    renamed_tokens();
}
