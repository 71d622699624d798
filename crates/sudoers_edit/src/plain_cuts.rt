//! Bytes that can go from a line of aliases, or come into it, while what it says then is known without a reading.
ghost use Rattle.std.specs.Prelude.{◌≡◌, ◌⊎◌, ◌∷◌, true, Some, IfOk, IfSome};
ghost use Rattle.std.specs.List.{list_all};
ghost use Rattle.sudoers_line_rows.specs.View.{node_of_view};
ghost use Rattle.sudoers_tree.specs.Single.{reading_of_single_line};
ghost use Rattle.sudoers_text.specs.Part.{is_word_byte as the_word_byte};
ghost use Rattle.sudoers_tree.specs.Line.{line_of_view};
ghost use Rattle.sudoers_edit.specs.Splice.{line_with_splice, line_without_bytes};
ghost use Rattle.sudoers_edit.specs.internal.OneMore.{IsLineTextWithItemCutOut, IsLineTextWithItemPutIn};
ghost use Rattle.sudoers_edit.specs.internal.Plain.{CanBeMember, IsPlainCut, IsPlainLine, IsWordSplice, begins_no_word, begins_with_word_alias_head, is_kind_of_words as kind_of_words, is_plain_byte as the_plain_byte};

use crate::extra_item::{ExtraItem, ItemListKind, members_of_nth_definition, starts_at};
use std::alloc::{AllocError, Global};
use sudoers_grammar::{TokenWithText, parse_single_token_atom};
use sudoers_text::TokenKind;
use sudoers_tree::{Kind, Line, Node};

/// Returns whether the byte stands for itself, whatever stands around it.
#[inline(always)]
fn is_plain_byte(byte: u8) -> bool
    ensures { result ≡ the_plain_byte byte }
{
    !matches!(byte, 0 | b'\n' | b'\r' | b'"' | b'#' | b'%' | b'\\')
}

/// Returns whether each byte stands for itself.
fn are_plain_bytes(bytes: &[u8]) -> bool
    ensures { result ≡ list_all the_plain_byte bytes.now }
{
    bytes.iter().all(|byte| is_plain_byte(*byte))
}

/// Returns whether the bytes begin a line of aliases of users, of runas users or of hosts.
fn begins_word_aliases(bytes: &[u8]) -> bool
    ensures { result ≡ begins_with_word_alias_head bytes.now }
{
    bytes.starts_with(b"User_Alias ")
        || bytes.starts_with(b"Runas_Alias ")
        || bytes.starts_with(b"Host_Alias ")
}

/// Returns whether the bytes begin with a blank, a `,`, a `:` or a LF, before which each word ends.
fn begins_no_word(bytes: &[u8]) -> bool
    ensures { result ≡ begins_no_word bytes.now }
{
    match bytes {
        [byte, ..] => matches!(*byte, b' ' | b'\t' | b',' | b':' | b'\n'),
        [] => false,
    }
}

/// Returns whether the bytes from `from` up to `to` can go from a line of aliases in which each byte stands for itself.
pub fn is_plain_cut(line: &[u8], from: usize, to: usize) -> bool
    ensures { result ≡ true → IsPlainCut from to line.now }
{
    if !is_plain_line(line) {
        return false;
    }
    is_cut_of_plain_line(line, from, to)
}

/// Returns whether the line ends in LF, and each byte before that stands for itself.
fn is_plain_line(line: &[u8]) -> bool
    ensures { result ≡ true → IsPlainLine line.now }
{
    let Some((last, plain)) = line.split_last() else {
        return false;
    };
    if *last != b'\n' {
        return false;
    }
    are_plain_bytes(plain)
}

/// Returns whether the bytes from `from` up to `to` can go from such a line.
pub fn is_cut_of_plain_line(line: &[u8], from: usize, to: usize) -> bool
    requires { IsPlainLine line.now }
    ensures { result ≡ true → IsPlainCut from to line.now }
{
    if from > to || to >= line.len() {
        return false;
    }
    begins_word_aliases(&line[..from])
        && begins_no_word(&line[from..])
        && begins_no_word(&line[to..])
}

/// Returns whether the lists of an alias of this kind have words for members.
pub fn is_kind_of_words(kind: Kind) -> bool
    ensures { result ≡ kind_of_words kind }
{
    match kind {
        Kind::User | Kind::Runas | Kind::Host => true,
        Kind::Cmnd => false,
    }
}

/// Returns whether it is sure that the line `line`, which says `says`, reads as before but for this one without its bytes.
pub fn is_sure_cut(one: ExtraItem, among: ItemListKind, line: &[u8], says: &Node<'_>) -> bool
    ensures { result ≡ true → reading_of_single_line line.now ≡ Some (node_of_view says.now)
        → IsLineTextWithItemCutOut among one.at one.from one.to (record { text = line.now; node = node_of_view says.now }) (line_without_bytes one.from one.to line.now) }
{
    match among {
        ItemListKind::Definitions => is_sure_definition_cut(one, line, says),
        ItemListKind::Members { def } => is_sure_member_cut(one, def, line, says),
    }
}

/// Returns whether that is sure of a definition.
fn is_sure_definition_cut(one: ExtraItem, line: &[u8], says: &Node<'_>) -> bool
    ensures { result ≡ true → reading_of_single_line line.now ≡ Some (node_of_view says.now)
        → IsLineTextWithItemCutOut ItemListKind.Definitions one.at one.from one.to (record { text = line.now; node = node_of_view says.now }) (line_without_bytes one.from one.to line.now) }
{
    let Node::Alias { kind, defs } = *says else {
        return false;
    };
    if one.at == 0 || !is_kind_of_words(kind) || !one.owns_its_bytes(&defs) {
        return false;
    }
    is_plain_cut(line, one.from, one.to)
}

/// Returns whether that is sure of a member of a definition.
fn is_sure_member_cut(one: ExtraItem, def: usize, line: &[u8], says: &Node<'_>) -> bool
    ensures { result ≡ true → reading_of_single_line line.now ≡ Some (node_of_view says.now)
        → IsLineTextWithItemCutOut (ItemListKind.Members def) one.at one.from one.to (record { text = line.now; node = node_of_view says.now }) (line_without_bytes one.from one.to line.now) }
{
    let Node::Alias { kind, defs } = *says else {
        return false;
    };
    let members = members_of_nth_definition(&defs, def);
    if one.at == 0 || !is_kind_of_words(kind) || !one.owns_its_bytes(&members) {
        return false;
    }
    is_plain_cut(line, one.from, one.to)
}

/// Returns whether the byte is one of a word.
#[inline(always)]
fn is_word_byte(byte: u8) -> bool
    ensures { result ≡ the_word_byte byte }
{
    !matches!(
        byte,
        0 | b'\n'
            | b'\r'
            | b' '
            | b'\t'
            | b'"'
            | b'#'
            | b'\\'
            | b'!'
            | b'='
            | b':'
            | b','
            | b'('
            | b')'
    )
}

/// Returns whether each byte is one of a word.
fn are_word_bytes(bytes: &[u8]) -> bool
    ensures { result ≡ list_all the_word_byte bytes.now }
{
    bytes.iter().all(|byte| is_word_byte(*byte))
}

/// Returns what stands behind the `,` that begins the bytes, and behind a blank there.
fn skip_comma(splice: &[u8]) -> Option<&[u8]>
    ensures { IfSome result (λ word. (splice.now ≡ 44 ∷ word.now) ⊎ (splice.now ≡ 44 ∷ 32 ∷ word.now)) }
{
    match splice {
        [b',', b' ', word @ ..] => Some(word),
        [b',', word @ ..] => Some(word),
        _ => None,
    }
}

/// Returns the word of a splice that is a `,`, a blank or none, and a word.
fn word_of_splice(splice: &[u8]) -> Option<&[u8]>
    ensures { IfSome result (λ word. IsWordSplice splice.now word.now) }
{
    let word = skip_comma(splice)?;
    if word.is_empty() || !are_word_bytes(word) || !are_plain_bytes(word) {
        return None;
    }
    Some(word)
}

/// Returns whether a word can be a member of a list of this kind.
fn can_be_member(alloc: Global, kind: Kind, word: &[u8]) -> Result<bool, AllocError>
    ensures { IfOk result (λ can. can ≡ true → CanBeMember kind word.now) }
{
    let part = TokenWithText {
        kind: TokenKind::Word,
        text: word,
        start: 0,
        stop: 0,
        last: false,
    };
    match parse_single_token_atom(alloc, kind, &part)? {
        Some(_) => Ok(true),
        None => Ok(false),
    }
}

/// Returns whether it is sure that the line reads as before but for one member more of a definition, at the place `at`, once the bytes
/// `splice` stand at the offset `from`.
pub fn is_sure_put(
    alloc: Global,
    def: usize,
    at: usize,
    from: usize,
    splice: &[u8],
    line: &Line<'_>,
) -> Result<bool, AllocError>
    ensures { IfOk result (λ sure. sure ≡ true → reading_of_single_line (line_of_view line.now).text ≡ Some (line_of_view line.now).node
        → IsLineTextWithItemPutIn (ItemListKind.Members def) at from splice.now (line_of_view line.now) (line_with_splice from splice.now (line_of_view line.now).text)) }
{
    let Node::Alias { kind, defs } = line.node else {
        return Ok(false);
    };
    let members = members_of_nth_definition(&defs, def);
    if at == 0
        || !is_kind_of_words(kind)
        || !starts_at(&members, at, from)
        || !is_plain_cut(line.text, from, from)
    {
        return Ok(false);
    }
    match word_of_splice(splice) {
        Some(word) => Ok(can_be_member(alloc, kind, word)?),
        None => Ok(false),
    }
}
