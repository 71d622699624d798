//! Laws of logical lines and tokens, for the layers above. Each is the contract of a function that does nothing.

ghost use Rattle.std.specs.Prelude.{◌≡◌, ◌≢◌, ◌<◌, ◌≤◌, ℕ, List, [], ◌∷◌, ◌++◌, length, Result, Ok, true, false};
ghost use Rattle.std.specs.List.{AllByRecursion};
ghost use Rattle.sudoers_text.specs.declared.context.TokenContext.{TokenContext as ContextOf};
ghost use Rattle.sudoers_text.specs.declared.fault.TextFault.{TextFault as Fault};
ghost use Rattle.sudoers_text.specs.declared.token.Mode.{Mode as ModeOf};
ghost use Rattle.sudoers_text.specs.declared.token.Token.{Token as TokenOf};
ghost use Rattle.sudoers_text.specs.declared.token.TokenKind.{TokenKind as Kind};
ghost use Rattle.sudoers_text.specs.Unit.{LineUnit};
ghost use Rattle.sudoers_text.specs.Line.{IsLogicalLineBefore, IsUnfinishedLine, AreLinesOfText, join};
ghost use Rattle.sudoers_text.specs.Ended.{ends_in_lf, has_inner_line_without_lf};
ghost use Rattle.sudoers_text.specs.Fault.{IsOutcomeOfCut, text_limit, line_limit};
ghost use Rattle.sudoers_text.specs.Cut.{cut_outcome_of_text, EachIsOneLineWhenCut};
ghost use Rattle.sudoers_text.specs.Whole.{IsLogicalLine, is_logical_line};
ghost use Rattle.sudoers_text.specs.Context.{token_forms_in_context};
ghost use Rattle.sudoers_text.specs.Token.{IsTokenOfKindAndSize, IsLongestPieceOrBad, HasTokens};
ghost use Rattle.sudoers_text.specs.Ascend.{AreOrderedTokens};
ghost use Rattle.sudoers_text.specs.Found.{tokens_of_line};
ghost use Rattle.sudoers_text.specs.LineMode.{line_mode};
ghost use Rattle.sudoers_text.specs.Adapted.{IsRespelledLine, respelled_line};
ghost use Rattle.sudoers_text.specs.Renamed.{IsDefinableName, token_of_name_after, tokens_after_replacement};

/// A text has a list of logical lines.
pub fn some_list()
    ensures { (text : List ℕ) → (lines : List (List ℕ)) × AreLinesOfText text lines }
{}

/// A text has one list of logical lines only.
pub fn one_list()
    ensures { (text : List ℕ) (lines others : List (List ℕ)) → AreLinesOfText text lines → AreLinesOfText text others
        → lines ≡ others }
{}

/// A text has an outcome: its lines, or the fault with which it is refused.
pub fn cut_is()
    ensures { (text : List ℕ) → IsOutcomeOfCut text (cut_outcome_of_text text) }
{}

/// A text has one outcome only.
pub fn one_outcome()
    ensures { (text : List ℕ) (outcome other : Result (List (List ℕ)) Fault) → IsOutcomeOfCut text outcome
        → IsOutcomeOfCut text other → outcome ≡ other }
{}

/// A logical line before some text is one before any text.
pub fn line_anywhere()
    ensures { (line rest other : List ℕ) → IsLogicalLineBefore line rest → rest ≢ [] → IsLogicalLineBefore line other }
{}

/// A logical line of a text is one alone.
pub fn line_alone()
    ensures { (line rest : List ℕ) → IsLogicalLineBefore line rest → IsLogicalLineBefore line [] }
{}

/// A logical line that ends in LF and is not open is one before any text.
pub fn closed_line_anywhere()
    ensures { (line other : List ℕ) → IsLogicalLineBefore line [] → ends_in_lf line ≡ true → (IsUnfinishedLine line → ⊥)
        → IsLogicalLineBefore line other }
{}

/// A logical line before some text ends in LF, and is not open.
pub fn inner_line_ends()
    ensures { (line rest : List ℕ) → IsLogicalLineBefore line rest → rest ≢ [] → (ends_in_lf line ≡ true)
        × (IsUnfinishedLine line → ⊥) }
{}

/// Lines that are each the one line of a text, all but the last ending in LF, are the lines of their join.
pub fn lines_of_join()
    ensures { (lines : List (List ℕ)) → EachIsOneLineWhenCut lines → has_inner_line_without_lf lines ≡ false
        → length (join lines) ≤ text_limit → cut_outcome_of_text (join lines) ≡ Ok lines }
{}

/// The lines of a text are each the one line of a text, all but the last end in LF, and they join to the text, which is
/// within the limit.
pub fn lines_stand_alone()
    ensures { (text : List ℕ) (lines : List (List ℕ)) → cut_outcome_of_text text ≡ Ok lines
        → EachIsOneLineWhenCut lines × (has_inner_line_without_lf lines ≡ false) × (join lines ≡ text) × (length text ≤ text_limit) }
{}

/// A line that is the one line of a text is not empty, and within the limit.
pub fn line_alone_size()
    ensures { (line : List ℕ) → cut_outcome_of_text line ≡ Ok (line ∷ []) → (0 < length line) × (length line ≤ line_limit) }
{}

/// With LF behind a last line that lacks it, the lines of a text are as many as before: the last has it, the others are the same.
pub fn lf_behind_last_line()
    ensures { (front : List (List ℕ)) (last : List ℕ) (lines : List (List ℕ)) → EachIsOneLineWhenCut (front ++ last ∷ [])
        → has_inner_line_without_lf (front ++ last ∷ []) ≡ false → ends_in_lf last ≡ false
        → cut_outcome_of_text (join (front ++ (last ++ 10 ∷ []) ∷ [])) ≡ Ok lines → lines ≡ front ++ (last ++ 10 ∷ []) ∷ [] }
{}

/// Without the LF of a last line that has more than it, the lines of a text are as many as before: the last lacks it, the others are
/// the same.
pub fn lf_from_last_line()
    ensures { (front : List (List ℕ)) (last : List ℕ) (lines : List (List ℕ)) → EachIsOneLineWhenCut (front ++ (last ++ 10 ∷ []) ∷ [])
        → has_inner_line_without_lf (front ++ (last ++ 10 ∷ []) ∷ []) ≡ false → last ≢ []
        → cut_outcome_of_text (join (front ++ last ∷ [])) ≡ Ok lines → (lines ≡ front ++ last ∷ []) × (ends_in_lf last ≡ false) }
{}

/// What is computed tells whether a text is one logical line.
pub fn whole_line_is()
    ensures tells { (text : List ℕ) → is_logical_line text ≡ true → IsLogicalLine text }
    ensures told { (text : List ℕ) → IsLogicalLine text → is_logical_line text ≡ true }
{}

/// A line is the one line of a text exactly where it is one logical line, and within the limit.
pub fn line_alone_is_whole()
    ensures whole { (line : List ℕ) → cut_outcome_of_text line ≡ Ok (line ∷ []) → is_logical_line line ≡ true }
    ensures alone { (line : List ℕ) → is_logical_line line ≡ true → length line ≤ line_limit
        → cut_outcome_of_text line ≡ Ok (line ∷ []) }
{
    cut_is();
    one_outcome();
    whole_line_is();
}

/// Lines that are each one logical line, all but the last ending in LF, are the lines of their join.
pub fn whole_lines_of_join()
    ensures { (lines : List (List ℕ)) → AllByRecursion IsLogicalLine lines → has_inner_line_without_lf lines ≡ false
        → AreLinesOfText (join lines) lines }
{
    closed_line_anywhere();
}

/// A line has a list of tokens in each mode: the one that is computed.
pub fn tokens_are()
    ensures { (mode : ModeOf) (line : List ℕ) → HasTokens mode line (tokens_of_line mode line) }
{}

/// A line has one list of tokens only in each mode.
pub fn one_token_list()
    ensures { (mode : ModeOf) (line : List ℕ) (tokens others : List TokenOf) → HasTokens mode line tokens
        → HasTokens mode line others → tokens ≡ others }
{}

/// A line is respelled to a line: the one that is computed.
pub fn respelled_line_is()
    ensures { (line : List ℕ) → IsRespelledLine line (respelled_line line) }
{}

/// A line is respelled to one line only.
pub fn one_respelled_line()
    ensures { (line respelled other : List ℕ) → IsRespelledLine line respelled → IsRespelledLine line other → respelled ≡ other }
{}

/// A token that is not Bad is a piece of its kind, of a form that may stand there, and no piece of that form with which the bytes begin is
/// longer. Where it is Bad, none of the pieces that may stand there begins.
pub fn longest_or_none()
    ensures { (here : ContextOf) (before : List LineUnit) (bytes : List ℕ) (kind : Kind) (size : ℕ)
        → IsTokenOfKindAndSize (token_forms_in_context here) before bytes kind size → IsLongestPieceOrBad (token_forms_in_context here) before bytes kind size }
{}

/// The tokens of a line stand one behind another in it, and none is empty.
pub fn tokens_ascend()
    ensures { (mode : ModeOf) (line : List ℕ) (tokens : List TokenOf) → HasTokens mode line tokens → AreOrderedTokens 0 (length line) tokens }
{}

/// A name in a line is replaced by another, and an alias may be defined by each. The tokens of the line are the same but for that one;
/// those behind it are moved. The line has the same mode. It is one logical line if it was, limits aside, and ends in LF if it did.
pub fn renamed_tokens()
    ensures same { (mode : ModeOf) (front word other rest : List ℕ) (before behind : List TokenOf) → IsDefinableName word → IsDefinableName other
        → HasTokens mode (front ++ (word ++ rest)) (before ++ token_of_name_after front word ∷ behind)
        → HasTokens mode (front ++ (other ++ rest)) (before ++ token_of_name_after front other ∷ tokens_after_replacement (length word) (length other) behind) }
    ensures mode { (mode : ModeOf) (front word other rest : List ℕ) (before behind : List TokenOf) → IsDefinableName word → IsDefinableName other
        → HasTokens mode (front ++ (word ++ rest)) (before ++ token_of_name_after front word ∷ behind)
        → line_mode (front ++ (word ++ rest)) ≡ line_mode (front ++ (other ++ rest)) }
    ensures line { (mode : ModeOf) (front word other rest : List ℕ) (before behind : List TokenOf) → IsDefinableName word → IsDefinableName other
        → HasTokens mode (front ++ (word ++ rest)) (before ++ token_of_name_after front word ∷ behind)
        → IsLogicalLine (front ++ (word ++ rest)) → IsLogicalLine (front ++ (other ++ rest)) }
    ensures ends { (front word other rest : List ℕ) → IsDefinableName word → IsDefinableName other
        → ends_in_lf (front ++ (word ++ rest)) ≡ ends_in_lf (front ++ (other ++ rest)) }
{}
