//! Sets of bytes.

ghost use Rattle.std.specs.Prelude.{◌≡◌, ◌≢◌, ◌<◌, ◌≤◌, ◌||◌, ℕ, [], false, length, get_or, IfSome};
ghost use Rattle.sudoers_match_member.specs.Sets.{is_byte_in_set_item, range_bound_at, upper_bound_after_dash, set_item_at, set_items_behind_opening_bracket};
ghost use Rattle.sudoers_match_member.specs.internal.Seen.{set_end_and_byte_seen, set_end_and_byte_of_table};
ghost use Rattle.sudoers_match_member.specs.Class.{is_between, is_byte_of_class};
ghost use Rattle.sudoers_match_member.specs.Folded.{bytes_case_folded_if_wanted};

use crate::byte_classes::{PosixByteClass, find_class_named_at, fold_byte_case_if_wanted};

/// What a set has as one item: a class, or the bytes from one to another.
#[derive(Clone, Copy)]
pub enum SetItem {
    Of(PosixByteClass),
    Range(u8, u8),
}

/// Returns the end of a range that begins `bytes`, and its length.
fn read_range_bound(bytes: &[u8], lower: bool) -> Option<(u8, usize)>
    ensures { result ≡ range_bound_at (bytes_case_folded_if_wanted lower bytes.now) }
{
    match bytes {
        [] => None,
        [first, rest @ ..] => {
            match (fold_byte_case_if_wanted(lower, *first), rest) {
                (b'\\', []) => None,
                (b'\\', [byte, ..]) => Some((fold_byte_case_if_wanted(lower, *byte), 2)),
                (byte, _) => Some((byte, 1)),
            }
        }
    }
}

/// Returns the upper end of a range, and its length. `bytes` begin with its `-`.
fn read_bound_after_dash(bytes: &[u8], lower: bool) -> Option<(u8, usize)>
    ensures { result ≡ upper_bound_after_dash (bytes_case_folded_if_wanted lower bytes.now) }
{
    let [first, rest @ ..] = bytes else {
        return None;
    };
    if fold_byte_case_if_wanted(lower, *first) != b'-' {
        return None;
    }
    let [second, ..] = rest else {
        return None;
    };
    if fold_byte_case_if_wanted(lower, *second) == b']' {
        return None;
    }
    read_range_bound(rest, lower)
}

/// Returns the item that begins `bytes`, and its length.
pub fn read_set_item(bytes: &[u8], lower: bool) -> (SetItem, usize)
    requires { bytes.now ≢ [] }
    ensures item { result ≡ set_item_at (bytes_case_folded_if_wanted lower bytes.now) }
    ensures some { 0 < result.1 }
    ensures within { result.1 ≤ length bytes.now }
{
    if let Some(class) = find_class_named_at(bytes, lower) {
        return (SetItem::Of(class), class.to_bracketed_name().len());
    }
    let Some((low, len)) = read_range_bound(bytes, lower) else {
        return (SetItem::Range(b'\\', b'\\'), 1);
    };
    match read_bound_after_dash(&bytes[len..], lower) {
        Some((high, more)) => (SetItem::Range(low, high), len + 1 + more),
        None => (SetItem::Range(low, low), len),
    }
}

/// Adds the bytes from `low` to `high` to those that a set has.
fn add_range(has: &mut [bool; 256], low: u8, high: u8)
    ensures { (b : ℕ) → b < 256 → get_or has.new b false ≡ (get_or has.old b false || is_between low high b) }
{
    for byte in low as usize..high as usize + 1 {
        has[byte] = true;
    }
}

/// Adds the bytes of a class to those that a set has.
fn add_class(has: &mut [bool; 256], class: PosixByteClass)
    ensures { (b : ℕ) → b < 256 → get_or has.new b false ≡ (get_or has.old b false || is_byte_of_class class b) }
{
    for byte in 0..256 {
        if class.has(byte as u8) {
            has[byte] = true;
        }
    }
}

/// Adds the bytes of an item to those that a set has.
fn add_item(has: &mut [bool; 256], item: SetItem)
    ensures { (b : ℕ) → b < 256 → get_or has.new b false ≡ (get_or has.old b false || is_byte_in_set_item b item) }
{
    match item {
        SetItem::Of(class) => add_class(has, class),
        SetItem::Range(low, high) => add_range(has, low, high),
    }
}

/// Returns where a set ends whose first item begins `bytes`, and puts into `has` which bytes it has.
pub fn read_set(bytes: &[u8], lower: bool, has: &mut [bool; 256]) -> Option<usize>
    ensures set { (b : ℕ) → b < 256 → set_end_and_byte_of_table b has.new result ≡ set_end_and_byte_seen b 0 false (set_items_behind_opening_bracket (bytes_case_folded_if_wanted lower bytes.now)) }
    ensures within { IfSome result (λ end. end < length bytes.now) }
{
    *has = [false; 256];
    if bytes.is_empty() {
        return None;
    }
    let (first, len) = read_set_item(bytes, lower);
    add_item(has, first);
    let mut at = len;
    while at < bytes.len() {
        if fold_byte_case_if_wanted(lower, bytes[at]) == b']' {
            return Some(at);
        }
        let (item, len) = read_set_item(&bytes[at..], lower);
        add_item(has, item);
        at += len;
    }
    None
}
