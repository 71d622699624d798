//! Patterns with wildcards.

ghost use Rattle.std.specs.Prelude.{◌≡◌, ◌↔◌, ◌≤◌, ◌∷◌, List, ℕ, None, length, IsTrue, IfSome};
ghost use Rattle.std.specs.List.{list_all};
ghost use Rattle.sudoers_match_member.specs.Wildcard.{Star, items_of_pattern, may_wildcard_take, is_pattern_match};
ghost use Rattle.sudoers_match_member.specs.internal.Known.{IsCorrectSetCache, IsKnownBehindStar};
ghost use Rattle.sudoers_match_member.specs.Folded.{byte_case_folded_if_wanted, bytes_case_folded_if_wanted};
ghost use Rattle.sudoers_match_member.specs.internal.Run.{IsMatchOutcomeUpToStar, IsMatchOutcomeOfWholePattern, IsMatchReducedToRest, remaining_pattern_measure, DoItemsMatch, DoesPatternMatch};
ghost use Rattle.sudoers_match_member.specs.internal.Count.{IsStarlessItemCountUpToLimit};

use crate::byte_classes::fold_byte_case_if_wanted;
use crate::place_search::find_place_to_try;
use crate::set_cache::SetMatchCache;

/// How many places are tried one by one before they are searched.
const FEW_TRIES: u32 = 4;

/// Which bytes wildcards match.
#[derive(Clone, Copy)]
pub enum GlobMode {
    /// All but `/`.
    Path,
    /// All.
    Args,
}

impl GlobMode {
    /// Returns whether a wildcard may take the byte.
    pub(crate) fn may_wildcard_take_byte(self, byte: u8) -> bool
        ensures { result ≡ may_wildcard_take self byte }
    {
        match self {
            GlobMode::Path => byte != b'/',
            GlobMode::Args => true,
        }
    }

    /// Returns whether wildcards may take all the bytes.
    fn may_wildcard_take_all(self, bytes: &[u8], lower: bool) -> bool
        ensures { result ≡ list_all (λ b. may_wildcard_take self (byte_case_folded_if_wanted lower b)) bytes.now }
    {
        bytes.iter().all(|byte| self.may_wildcard_take_byte(fold_byte_case_if_wanted(lower, *byte)))
    }
}

/// How far a pattern goes up to its next `*`.
#[derive(Clone, Copy)]
enum MatchOutcomeUpToStar<'a> {
    /// To the end of the pattern and of the text.
    Matched,
    /// No text matches from here on.
    Failed,
    /// To a `*`: what is behind it, and the rest of the text.
    Star(&'a [u8], &'a [u8]),
}

/// Matches the items of `pattern` up to its next `*`. `known` is what is known of its sets.
fn match_up_to_star<'a>(
    pattern: &'a [u8],
    text: &'a [u8],
    mode: GlobMode,
    lower: bool,
    known: &mut SetMatchCache,
) -> MatchOutcomeUpToStar<'a>
    requires known { IsCorrectSetCache mode lower pattern.now known.old }
    ensures outcome { IsMatchOutcomeUpToStar mode lower pattern.now text.now result }
    ensures known { IsCorrectSetCache mode lower pattern.now known.new }
    ensures behind { IsKnownBehindStar lower known.new result }
{
    let mut at = 0;
    let mut place = 0;
    while at < pattern.len() {
        if fold_byte_case_if_wanted(lower, pattern[at]) == b'*' {
            return MatchOutcomeUpToStar::Star(&pattern[at + 1..], &text[place..]);
        }
        if place == text.len() {
            return MatchOutcomeUpToStar::Failed;
        }
        let front = known.match_item_at(
            pattern,
            at,
            fold_byte_case_if_wanted(lower, text[place]),
            mode,
            lower,
        );
        if !front.takes {
            return MatchOutcomeUpToStar::Failed;
        }
        at += front.len;
        place += 1;
    }
    if place == text.len() {
        MatchOutcomeUpToStar::Matched
    } else {
        MatchOutcomeUpToStar::Failed
    }
}

/// Returns how many items `pattern` has, if no `*` is among them. It counts no further than one more than `most`.
fn count_items_if_no_star(
    pattern: &[u8],
    most: usize,
    mode: GlobMode,
    lower: bool,
    known: &mut SetMatchCache,
) -> Option<usize>
    requires known { IsCorrectSetCache mode lower pattern.now known.old }
    ensures count { IfSome result (IsStarlessItemCountUpToLimit (bytes_case_folded_if_wanted lower pattern.now) most) }
    ensures known { IsCorrectSetCache mode lower pattern.now known.new }
{
    let mut at = 0;
    let mut count = 0;
    while at < pattern.len() && count <= most {
        if fold_byte_case_if_wanted(lower, pattern[at]) == b'*' {
            return None;
        }
        at += known.match_item_at(pattern, at, 0, mode, lower).len;
        count += 1;
    }
    Some(count)
}

/// Returns whether `text` ends with bytes that match `pattern`, and a `*` may take those before them. `pattern` has `count` items, and
/// no `*`: each takes one byte.
fn matches_star_and_last_items(
    pattern: &[u8],
    text: &[u8],
    count: usize,
    mode: GlobMode,
    lower: bool,
    known: &mut SetMatchCache,
) -> bool
    requires known { IsCorrectSetCache mode lower pattern.now known.old }
    requires count { IsStarlessItemCountUpToLimit (bytes_case_folded_if_wanted lower pattern.now) (length text.now) count }
    ensures { IsTrue result ↔ DoesPatternMatch mode (42 ∷ bytes_case_folded_if_wanted lower pattern.now) (bytes_case_folded_if_wanted lower text.now) }
{
    if text.len() < count {
        return false;
    }
    let place = text.len() - count;
    if !mode.may_wildcard_take_all(&text[..place], lower) {
        return false;
    }
    matches!(
        match_up_to_star(pattern, &text[place..], mode, lower, known),
        MatchOutcomeUpToStar::Matched
    )
}

/// Returns the rest of `text` from the first place on from which the items of `pattern` up to its next `*` may match, if a `*` may take
/// what is before it.
fn skip_places_without_match<'a>(
    pattern: &[u8],
    text: &'a [u8],
    mode: GlobMode,
    lower: bool,
    known: &mut SetMatchCache,
) -> Option<&'a [u8]>
    requires known { IsCorrectSetCache mode lower pattern.now known.old }
    ensures rest { IfSome result (λ rest. (before tried : List ℕ)
        → IsMatchReducedToRest mode before tried (bytes_case_folded_if_wanted lower pattern.now) (bytes_case_folded_if_wanted lower text.now)
        → IsMatchReducedToRest mode before tried (bytes_case_folded_if_wanted lower pattern.now) (bytes_case_folded_if_wanted lower rest.now)) }
    ensures shorter { IfSome result (λ rest. length rest.now ≤ length text.now) }
    ensures blocked { result ≡ None → DoItemsMatch mode (Star ∷ items_of_pattern (bytes_case_folded_if_wanted lower pattern.now)) (bytes_case_folded_if_wanted lower text.now) → ⊥ }
    ensures known { IsCorrectSetCache mode lower pattern.now known.new }
    ensures tail { known.new.tail ≡ known.old.tail }
{
    let place = find_place_to_try(pattern, text, mode, lower, known);
    if mode.may_wildcard_take_all(&text[..place], lower) {
        Some(&text[place..])
    } else {
        None
    }
}

/// Matches a `*` and the items of `pattern` up to its next `*`. Of all runs that the first `*` may take, it takes the shortest.
fn match_star_and_items<'a>(
    pattern: &'a [u8],
    text: &'a [u8],
    mode: GlobMode,
    lower: bool,
    known: &mut SetMatchCache,
) -> MatchOutcomeUpToStar<'a>
    requires known { IsCorrectSetCache mode lower pattern.now known.old }
    ensures outcome { IsMatchOutcomeOfWholePattern mode lower (42 ∷ bytes_case_folded_if_wanted lower pattern.now) (bytes_case_folded_if_wanted lower text.now) result }
    ensures shorter { remaining_pattern_measure result ≤ length pattern.now }
    ensures behind { IsKnownBehindStar lower known.new result }
{
    let mut text = text;
    let mut tries = FEW_TRIES;
    loop {
        match match_up_to_star(pattern, text, mode, lower, known) {
            MatchOutcomeUpToStar::Failed => {
                if text.is_empty()
                    || !mode.may_wildcard_take_byte(fold_byte_case_if_wanted(lower, text[0]))
                {
                    return MatchOutcomeUpToStar::Failed;
                }
                text = &text[1..];
                if tries > 0 {
                    tries -= 1;
                } else {
                    match skip_places_without_match(pattern, text, mode, lower, known) {
                        Some(rest) => text = rest,
                        None => return MatchOutcomeUpToStar::Failed,
                    }
                }
            }
            run => return run,
        }
    }
}

/// Returns whether `text` matches `pattern`. Of several `*` the last alone is tried again, each time with a byte more. What is behind the
/// last of all is tried at the end of the text alone.
fn matches_whole_pattern(pattern: &[u8], text: &[u8], mode: GlobMode, lower: bool) -> bool
    ensures { IsTrue result ↔ DoesPatternMatch mode (bytes_case_folded_if_wanted lower pattern.now) (bytes_case_folded_if_wanted lower text.now) }
{
    let mut known = SetMatchCache::make_for_pattern(pattern);
    let mut run = match_up_to_star(pattern, text, mode, lower, &mut known);
    while let MatchOutcomeUpToStar::Star(pattern, text) = run {
        known.forget_read_set();
        if let Some(count) = count_items_if_no_star(pattern, text.len(), mode, lower, &mut known) {
            return matches_star_and_last_items(pattern, text, count, mode, lower, &mut known);
        }
        run = match_star_and_items(pattern, text, mode, lower, &mut known);
    }
    matches!(run, MatchOutcomeUpToStar::Matched)
}

/// Returns whether `text` matches `pattern` (sudoers(5), Wildcards).
pub fn matches_glob_folding_case_if_wanted(
    pattern: &[u8],
    text: &[u8],
    mode: GlobMode,
    lower: bool,
) -> bool
    ensures { result ≡ is_pattern_match mode (bytes_case_folded_if_wanted lower pattern.now) (bytes_case_folded_if_wanted lower text.now) }
{
    matches_whole_pattern(pattern, text, mode, lower)
}

/// Returns whether `text` matches `pattern` (sudoers(5), Wildcards).
pub fn glob(pattern: &[u8], text: &[u8], mode: GlobMode) -> bool
    ensures { result ≡ is_pattern_match mode pattern.now text.now }
{
    matches_glob_folding_case_if_wanted(pattern, text, mode, false)
}
