//! The places of a text from which the items behind a `*` may match, found for 256 items at once.

ghost use Rattle.std.specs.Prelude.{◌≡◌, ◌≢◌, ◌<◌, ◌≤◌, ◌+◌, ◌∷◌, ℕ, true, false, length, drop, get_or, [], None, IfSome};
ghost use Rattle.sudoers_grammar.specs.Pattern.{is_special_in_patterns};
ghost use Rattle.sudoers_match_member.specs.declared.wildcards.GlobMode.{GlobMode as GlobModeOf};
ghost use Rattle.sudoers_match_member.specs.Folded.{byte_case_folded_if_wanted, bytes_case_folded_if_wanted};
ghost use Rattle.sudoers_match_member.specs.Wildcard.{is_byte_taken_by_item, pattern_item_at, Star};
ghost use Rattle.sudoers_match_member.specs.internal.Known.{IsCorrectSetCache};
ghost use Rattle.sudoers_match_member.specs.internal.Places.{items_from_place, BeginWithStarless, IsTaker, IsTakerOrOfAll, IsItemRow, DoTakersTakeFrom, DoesMatchFromNoneBefore};

use crate::byte_classes::fold_byte_case_if_wanted;
use crate::item_set::{ItemSet, MOST_ITEMS};
use crate::set_cache::SetMatchCache;
use crate::wildcards::GlobMode;
use memchr::memmem;

/// How many places are searched first.
const FIRST_PLACES: usize = 64;
/// How many places are searched at once.
const MOST_PLACES: usize = 16_384;

/// Items of a pattern in a row.
#[derive(Drop)]
struct ItemRow {
    /// Which of them take a byte, for each byte.
    takers: [ItemSet; 256],
    /// How many they are.
    count: usize,
    /// Where in the pattern they end.
    end: usize,
}

/// Returns the one byte that the item takes that begins `rest` and is so long, if its first bytes tell.
fn find_only_byte_of_item(rest: &[u8], len: usize, lower: bool) -> Option<u8>
    requires some { rest.now ≢ [] }
    requires len { len ≡ (pattern_item_at (bytes_case_folded_if_wanted lower rest.now)).1 }
    requires within { len ≤ length rest.now }
    requires no_star { (pattern_item_at (bytes_case_folded_if_wanted lower rest.now)).0 ≢ Star }
    ensures { IfSome result (λ only. (mode : GlobModeOf) (b : ℕ) → is_byte_taken_by_item mode (pattern_item_at (bytes_case_folded_if_wanted lower rest.now)).0 b ≡ true → b ≡ only) }
{
    let first = fold_byte_case_if_wanted(lower, rest[0]);
    match first {
        b'?' => None,
        b'[' if len > 1 => None,
        b'\\' if len > 1 => Some(fold_byte_case_if_wanted(lower, rest[1])),
        _ => Some(first),
    }
}

/// Adds the item with this number to those that take a byte, for each byte that is taken.
fn add_item_for_taken_bytes(takers: &mut [ItemSet; 256], item: usize, taken: &[bool; 256])
    requires item { item < 256 }
    ensures taker { (b : ℕ) → b < 256 → get_or taken.now b false ≡ true → IsTaker takers.new b item }
    ensures kept { (b i : ℕ) → IsTaker takers.old b i → IsTaker takers.new b i }
{
    for byte in 0..256 {
        if taken[byte] {
            takers[byte].add(item);
        }
    }
}

/// Adds the item with this number, which begins at `at`, to those that take a byte, for each byte that it takes. What takes several bytes and is
/// not the last set that was read is added to `of_all`.
fn add_item_for_its_bytes(
    takers: &mut [ItemSet; 256],
    of_all: &mut ItemSet,
    item: usize,
    pattern: &[u8],
    at: usize,
    len: usize,
    lower: bool,
    known: &SetMatchCache,
)
    requires item { item < 256 }
    requires within { at < length pattern.now }
    requires no_star { (pattern_item_at (bytes_case_folded_if_wanted lower (drop at pattern.now))).0 ≢ Star }
    requires len { len ≡ (pattern_item_at (bytes_case_folded_if_wanted lower (drop at pattern.now))).1 }
    requires inside { len ≤ length (drop at pattern.now) }
    ensures taker { (mode : GlobModeOf) → IsCorrectSetCache mode lower pattern.now known.now → (b : ℕ) → b < 256
        → is_byte_taken_by_item mode (pattern_item_at (bytes_case_folded_if_wanted lower (drop at pattern.now))).0 b ≡ true → IsTakerOrOfAll takers.new of_all.new b item }
    ensures kept { (b i : ℕ) → IsTakerOrOfAll takers.old of_all.old b i → IsTakerOrOfAll takers.new of_all.new b i }
{
    if let Some(byte) = find_only_byte_of_item(&pattern[at..], len, lower) {
        takers[byte as usize].add(item);
    } else if let Some(taken) = known.find_taken_bytes(at) {
        add_item_for_taken_bytes(takers, item, taken);
    } else {
        of_all.add(item);
    }
}

/// Adds the items `of_all` to those that take a byte, for each byte.
fn add_items_for_all_bytes(takers: &mut [ItemSet; 256], of_all: &ItemSet)
    ensures { (b i : ℕ) → b < 256 → i < 256 → IsTakerOrOfAll takers.old of_all.now b i → IsTaker takers.new b i }
{
    for byte in 0..256 {
        takers[byte].add_all(of_all);
    }
}

/// Has each capital taken by what takes its small letter.
fn take_capitals_as_small(takers: &mut [ItemSet; 256])
    ensures { (b i : ℕ) → b < 256 → IsTaker takers.old (byte_case_folded_if_wanted true b) i → IsTaker takers.new b i }
{
    for byte in b'A'..=b'Z' {
        takers[byte as usize] = takers[fold_byte_case_if_wanted(true, byte) as usize];
    }
}

/// Returns the items of `pattern` from `at` on up to the next `*`, or the first 256 of them.
fn read_item_row(
    pattern: &[u8],
    at: usize,
    mode: GlobMode,
    lower: bool,
    known: &mut SetMatchCache,
) -> ItemRow
    requires within { at ≤ length pattern.now }
    requires known { IsCorrectSetCache mode lower pattern.now known.old }
    ensures row { IsItemRow mode lower pattern.now at result }
    ensures known { IsCorrectSetCache mode lower pattern.now known.new }
    ensures tail { known.new.tail ≡ known.old.tail }
{
    let mut takers = [ItemSet::new(); 256];
    let mut of_all = ItemSet::new();
    let mut count = 0;
    let mut end = at;
    while end < pattern.len()
        && count < MOST_ITEMS
        && fold_byte_case_if_wanted(lower, pattern[end]) != b'*'
    {
        let len = known.match_item_at(pattern, end, 0, mode, lower).len;
        add_item_for_its_bytes(
            &mut takers,
            &mut of_all,
            count,
            pattern,
            end,
            len,
            lower,
            known,
        );
        end += len;
        count += 1;
    }
    add_items_for_all_bytes(&mut takers, &of_all);
    if lower {
        take_capitals_as_small(&mut takers);
    }
    ItemRow { takers, count, end }
}

/// Of the places of `text` that `places` begins with, drops those from which the items of `row` do not match.
fn drop_places(row: &ItemRow, text: &[u8], many: usize, places: &mut [bool])
    requires some { 0 < row.now.count }
    requires few { row.now.count ≤ 256 }
    requires within { many + row.now.count ≤ length text.now + 1 }
    requires room { many + row.now.count ≤ length places.old + 1 }
    ensures length { length places.new ≡ length places.old }
    ensures kept { (place : ℕ) → place < many → get_or places.old place false ≡ true
        → DoTakersTakeFrom row.now.takers row.now.count text.now place → get_or places.new place false ≡ true }
{
    let last = row.count - 1;
    let mut last_item = ItemSet::new();
    last_item.add(last);
    let mut reached = ItemSet::new();
    for number in 0..last {
        reached = reached.advance(places[number], &row.takers[text[number] as usize]);
    }
    for place in 0..many {
        let number = place + last;
        reached = reached.advance(places[number], &row.takers[text[number] as usize]);
        places[place] = reached.has_one_of(&last_item);
    }
}

/// Returns the first of the places that is not dropped.
fn find_first_place(places: &[bool]) -> Option<usize>
    ensures found { IfSome result (λ first. (first < length places.now) × ((place : ℕ) → place < first → get_or places.now place false ≡ false)) }
    ensures missing { result ≡ None → (place : ℕ) → get_or places.now place false ≡ false }
{
    for (place, may) in places.iter().enumerate() {
        if *may {
            return Some(place);
        }
    }
    None
}

/// Returns the first of the first `most` places of `text` from which the items of `pattern` up to its next `*` may match. They are at least
/// `count`, which becomes as many as were read.
fn find_place_among_first(
    pattern: &[u8],
    text: &[u8],
    most: usize,
    mode: GlobMode,
    lower: bool,
    known: &mut SetMatchCache,
    count: &mut usize,
) -> Option<usize>
    requires most { most ≤ 16384 }
    requires within { most ≤ length text.now }
    requires known { IsCorrectSetCache mode lower pattern.now known.old }
    requires count { BeginWithStarless (items_from_place lower pattern.now 0) count.old }
    ensures found { IfSome result (λ place. (place ≤ most) × DoesMatchFromNoneBefore mode lower pattern.now text.now place) }
    ensures missing { result ≡ None → DoesMatchFromNoneBefore mode lower pattern.now text.now most }
    ensures count { BeginWithStarless (items_from_place lower pattern.now 0) count.new }
    ensures known { IsCorrectSetCache mode lower pattern.now known.new }
    ensures tail { known.new.tail ≡ known.old.tail }
{
    let mut places = [true; MOST_PLACES + MOST_ITEMS];
    let mut width = most;
    let mut passed = 0;
    let mut at = 0;
    loop {
        let row = read_item_row(pattern, at, mode, lower, known);
        if row.count == 0 {
            return find_first_place(&places[..width]);
        }
        let left = text.len() - passed;
        if left < row.count {
            return None;
        }
        width = width.min(left - row.count + 1);
        drop_places(&row, &text[passed..], width, &mut places);
        if find_first_place(&places[..width]).is_none() {
            return None;
        }
        passed += row.count;
        *count = passed.max(*count);
        at = row.end;
    }
}

/// Returns the first place of `text` at which the bytes stand with which `pattern` begins and that are no wildcards. Where case does not
/// count, it is the first of all.
fn find_plain_front(pattern: &[u8], text: &[u8], lower: bool) -> Option<usize>
    ensures within { IfSome result (λ place. place ≤ length text.now) }
    ensures found { IfSome result (λ place. (mode : GlobModeOf) → DoesMatchFromNoneBefore mode lower pattern.now text.now place) }
    ensures missing { result ≡ None → (mode : GlobModeOf) → DoesMatchFromNoneBefore mode lower pattern.now text.now (length text.now) }
{
    if lower {
        return Some(0);
    }
    memmem::find(text, &pattern[..count_plain_bytes(pattern)])
}

/// Returns how many bytes `pattern` begins with that are no wildcards.
fn count_plain_bytes(pattern: &[u8]) -> usize
    ensures within { result ≤ length pattern.now }
    ensures plain { (i : ℕ) → i < result → is_special_in_patterns (get_or pattern.now i 0) ≡ false }
{
    for (place, byte) in pattern.iter().enumerate() {
        if matches!(*byte, b'*' | b'?' | b'[' | b'\\') {
            return place;
        }
    }
    pattern.len()
}

/// Returns a place of `text`: the items of `pattern` up to its next `*` match from none before it.
pub fn find_place_to_try(
    pattern: &[u8],
    text: &[u8],
    mode: GlobMode,
    lower: bool,
    known: &mut SetMatchCache,
) -> usize
    requires { IsCorrectSetCache mode lower pattern.now known.old }
    ensures within { result ≤ length text.now }
    ensures none { DoesMatchFromNoneBefore mode lower pattern.now text.now result }
    ensures known { IsCorrectSetCache mode lower pattern.now known.new }
    ensures tail { known.new.tail ≡ known.old.tail }
{
    let Some(mut passed) = find_plain_front(pattern, text, lower) else {
        return text.len();
    };
    let mut most = FIRST_PLACES;
    let mut count = 0;
    while passed < text.len() {
        let rest = &text[passed..];
        if rest.len() < count {
            return text.len();
        }
        let places = most.min(rest.len()).min(rest.len() - count + 1);
        if let Some(place) = find_place_among_first(
            pattern, rest, places, mode, lower, known, &mut count,
        ) {
            return passed + place;
        }
        passed += places;
        most = MOST_PLACES.min(16 * most);
    }
    text.len()
}
