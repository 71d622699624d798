//! Members of lists as they are printed (sudoers(5), Aliases).

ghost use Rattle.std.specs.Prelude.{◌≡◌, ◌++◌, ◌+◌, ◌<◌, ◌==◌, ◌∷◌, [], codes, drop, false, if◌then◌else◌, length, not, slice_index, OnOk};
ghost use Rattle.sudoers_line_rows.specs.View.{args_of_view, atom_of_view, digest_of_view, digests_of_view, member_of_view};
ghost use Rattle.sudoers_text.specs.Word.{is_among};
ghost use Rattle.sudoers_cvt_spell.specs.internal.Fronts.{IsFront};
ghost use Rattle.sudoers_cvt_spell.specs.Members.{non_spec_line_keywords, is_start_of_non_spec_line, is_read_as_other_than_user_name, printed_user_name, spelled_command_args, printed_args, printed_netgroup, printed_atom, digest_kind_keyword, printed_digest, printed_digests, negation_sign, printed_member};
ghost use Rattle.std.specs.Fmt.{decimal};
ghost use Rattle.sudoers_cvt_spell.specs.Spelling.{spelled_word};

use crate::addresses::{append_address, append_mask_without_slash};
use crate::appending::{append_bytes, append_number};
use crate::host_name_patterns::append_host_name_pattern;
use crate::words_and_patterns::{
    append_escaped_pattern, append_spelled_word, insert_backslash_if_misread,
    is_backslash_before_pattern_byte_dropped,
};
use std::alloc::{AllocError, Global};
use sudoers_grammar::{DigestKind, Kind, PatternSpelling, begins_with_byte};
use sudoers_line_rows::{BorrowedArgs, BorrowedAtom, Digest, DigestRow, Member, RowsOfTable};
use sudoers_text::is_name;

/// Returns whether `text` is a word with which a line begins that is no user specification.
fn is_line_keyword(text: &[u8]) -> bool
    ensures { result ≡ is_among non_spec_line_keywords text.now }
{
    text == b"Defaults".as_slice()
        || text == b"User_Alias".as_slice()
        || text == b"Runas_Alias".as_slice()
        || text == b"Host_Alias".as_slice()
        || text == b"Cmnd_Alias".as_slice()
        || text == b"Cmd_Alias".as_slice()
        || text == b"@include".as_slice()
        || text == b"@includedir".as_slice()
}

/// Returns whether a line that begins with the word `text` is no user specification.
fn begins_non_spec_line(text: &[u8]) -> bool
    ensures { result ≡ is_start_of_non_spec_line text.now }
{
    is_line_keyword(text) || text.starts_with(b"Defaults@") || text.starts_with(b"Defaults>")
}

/// Returns whether the word `text` would be read as no plain name. With `first`, it stands at the beginning of its line.
fn reads_as_other_than_user_name(first: bool, text: &[u8]) -> bool
    ensures { result ≡ is_read_as_other_than_user_name first text.now }
{
    is_name(text)
        || begins_with_byte(b'%', text)
        || begins_with_byte(b'+', text)
        || (first && begins_non_spec_line(text))
}

/// Appends the name of a user.
fn append_user_name(out: &mut Vec<u8>, first: bool, name: &[u8]) -> Result<(), AllocError>
    ensures appended { OnOk result (out.new.items ≡ out.old.items ++ printed_user_name first name.now) }
    ensures front { IsFront out.old.items out.new.items }
{
    let start = out.len();
    append_spelled_word(out, name)?;
    let reads_else = reads_as_other_than_user_name(first, &out[start..]);
    insert_backslash_if_misread(out, start, reads_else)
}

/// Returns whether a backslash stands before the byte at `at` of the arguments. With `behind`, a byte stands before it that is no space.
fn is_backslash_needed_in_args(behind: bool, pattern: &[u8], at: usize) -> bool
    requires { at < length pattern.now }
    ensures { spelled_command_args behind (drop at pattern.now)
        ≡ (if result then codes "\\" else []) ++ (slice_index pattern.now at ∷ spelled_command_args (not (slice_index pattern.now at == 32)) (drop (at + 1) pattern.now)) }
{
    let byte = pattern[at];
    let separates = byte == b' ' && behind && !matches!(pattern.get(at + 1), Some(b' ') | None);
    is_backslash_before_pattern_byte_dropped(PatternSpelling::Command, byte) && !separates
}

/// Appends the pattern of arguments.
fn append_args_pattern(out: &mut Vec<u8>, pattern: &[u8]) -> Result<(), AllocError>
    ensures appended { OnOk result (out.new.items ≡ out.old.items ++ spelled_command_args false pattern.now) }
    ensures front { IsFront out.old.items out.new.items }
{
    let mut printed = 0;
    let mut behind = false;
    for (at, byte) in pattern.iter().enumerate() {
        if is_backslash_needed_in_args(behind, pattern, at) {
            append_bytes(out, &pattern[printed..at])?;
            append_bytes(out, &[b'\\', *byte])?;
            printed = at + 1;
        }
        behind = *byte != b' ';
    }
    append_bytes(out, &pattern[printed..])
}

/// Appends the arguments of a command, with the blank before them.
fn append_args(out: &mut Vec<u8>, args: &BorrowedArgs<'_>) -> Result<(), AllocError>
    ensures appended { OnOk result (out.new.items ≡ out.old.items ++ printed_args (args_of_view args.now)) }
    ensures front { IsFront out.old.items out.new.items }
{
    match args {
        BorrowedArgs::Any => Ok(()),
        BorrowedArgs::Nothing => append_bytes(out, b" \"\""),
        BorrowedArgs::Pattern(pattern) => {
            append_bytes(out, b" ")?;
            append_args_pattern(out, pattern)
        }
    }
}

/// Appends a netgroup.
fn append_netgroup(out: &mut Vec<u8>, kind: Kind, name: &[u8]) -> Result<(), AllocError>
    ensures appended { OnOk result (out.new.items ≡ out.old.items ++ printed_netgroup kind name.now) }
    ensures front { IsFront out.old.items out.new.items }
{
    match kind {
        Kind::Host => {
            append_bytes(out, b"+")?;
            append_bytes(out, name)
        }
        Kind::User | Kind::Runas | Kind::Cmnd => append_word_after_mark(out, b"+", name),
    }
}

/// Appends what stands behind a mark, spelled as a word.
fn append_word_after_mark(out: &mut Vec<u8>, mark: &[u8], name: &[u8]) -> Result<(), AllocError>
    ensures appended { OnOk result (out.new.items ≡ out.old.items ++ mark.now ++ spelled_word name.now) }
    ensures front { IsFront out.old.items out.new.items }
{
    append_bytes(out, mark)?;
    append_spelled_word(out, name)
}

/// Appends a number behind a mark.
fn append_number_after_mark(
    alloc: Global,
    out: &mut Vec<u8>,
    mark: &[u8],
    id: u32,
) -> Result<(), AllocError>
    ensures appended { OnOk result (out.new.items ≡ out.old.items ++ mark.now ++ decimal id) }
    ensures front { IsFront out.old.items out.new.items }
{
    append_bytes(out, mark)?;
    append_number(alloc, out, id as usize)
}

/// Appends what a member of a list of `kind` is. With `first`, the line begins with it.
fn append_atom(
    alloc: Global,
    out: &mut Vec<u8>,
    first: bool,
    kind: Kind,
    atom: &BorrowedAtom<'_>,
) -> Result<(), AllocError>
    ensures appended { OnOk result (out.new.items ≡ out.old.items ++ printed_atom first kind (atom_of_view atom.now)) }
    ensures front { IsFront out.old.items out.new.items }
{
    match atom {
        BorrowedAtom::All => append_bytes(out, b"ALL"),
        BorrowedAtom::Alias(name) => append_bytes(out, name),
        BorrowedAtom::Name(name) => append_user_name(out, first, name),
        BorrowedAtom::Id(id) => append_number_after_mark(alloc, out, b"#", *id),
        BorrowedAtom::Group(name) => append_word_after_mark(out, b"%", name),
        BorrowedAtom::GroupId(id) => append_number_after_mark(alloc, out, b"%#", *id),
        BorrowedAtom::NonUnix(name) => append_word_after_mark(out, b"%:", name),
        BorrowedAtom::Netgroup(name) => append_netgroup(out, kind, name),
        BorrowedAtom::Host(pattern) => append_host_name_pattern(alloc, out, pattern),
        BorrowedAtom::Address(address) => append_address(alloc, out, *address),
        BorrowedAtom::Network(address, mask) => {
            append_address(alloc, out, *address)?;
            append_bytes(out, b"/")?;
            append_mask_without_slash(alloc, out, *mask)
        }
        BorrowedAtom::Listing => append_bytes(out, b"list"),
        BorrowedAtom::Path { path, args } => {
            append_escaped_pattern(out, PatternSpelling::Command, path)?;
            append_args(out, args)
        }
        BorrowedAtom::Sudoedit { args } => {
            append_bytes(out, b"sudoedit")?;
            append_args(out, args)
        }
    }
}

/// Returns the word for a kind of digests.
fn keyword_of_digest_kind(kind: DigestKind) -> &'static [u8]
    ensures { result.now ≡ digest_kind_keyword kind }
{
    match kind {
        DigestKind::Sha224 => b"sha224",
        DigestKind::Sha256 => b"sha256",
        DigestKind::Sha384 => b"sha384",
        DigestKind::Sha512 => b"sha512",
    }
}

/// Appends a digest.
fn append_digest(out: &mut Vec<u8>, digest: &Digest<'_>) -> Result<(), AllocError>
    ensures appended { OnOk result (out.new.items ≡ out.old.items ++ printed_digest (digest_of_view digest.now)) }
    ensures front { IsFront out.old.items out.new.items }
{
    append_bytes(out, keyword_of_digest_kind(digest.kind))?;
    append_bytes(out, b":")?;
    append_bytes(out, digest.text)
}

/// Appends the digests before a command.
fn append_digests(out: &mut Vec<u8>, digests: &RowsOfTable<'_, DigestRow>) -> Result<(), AllocError>
    ensures appended { OnOk result (out.new.items ≡ out.old.items ++ printed_digests (digests_of_view digests.now)) }
    ensures front { IsFront out.old.items out.new.items }
{
    let tables = digests.tables;
    let Some((first, rest)) = digests.rows.split_first() else {
        return Ok(());
    };
    append_digest(out, &tables.digest_of_row(*first))?;
    for row in rest {
        append_bytes(out, b", ")?;
        append_digest(out, &tables.digest_of_row(*row))?;
    }
    append_bytes(out, b" ")
}

/// Appends a member of a list of `kind`. With `first`, the line begins with it.
///
/// # Errors
///
/// Memory ran out.
pub fn append_member_text_without_separator(
    alloc: Global,
    out: &mut Vec<u8>,
    first: bool,
    kind: Kind,
    member: &Member<'_>,
) -> Result<(), AllocError>
    ensures appended { OnOk result (out.new.items ≡ out.old.items ++ printed_member first kind (member_of_view member.now)) }
    ensures front { IsFront out.old.items out.new.items }
{
    append_digests(out, &member.digests)?;
    if member.negated {
        append_bytes(out, b"!")?;
    }
    append_atom(alloc, out, first && !member.negated, kind, &member.atom)
}
