//! What is kept in tables.

ghost use Rattle.std.specs.Prelude.{◌≡◌, ◌≤◌, ◌++◌, length, slice_range, IfOk, IfSome, OnOk};
ghost use Rattle.sudoers_grammar.specs.Seen.{model_of_token_part};
ghost use Rattle.sudoers_grammar.specs.Atom.{atom_of_token};
ghost use Rattle.sudoers_grammar.specs.Plain.{atom_of_plain};
ghost use Rattle.sudoers_line_rows.specs.declared.rows.Tables.{Tables as TablesOf};
ghost use Rattle.sudoers_line_rows.specs.Tables.{IsExtendedList, TablesHaveGrown, RowMeansForGood, IsRowRangeFromTo, OptionalRowMeansForGood, text_in_tables, args_in_tables, atom_in_tables};

use crate::rows::{ArgsRow, AtomRow, ByteRange, RowRange, Tables};
use std::alloc::{AllocError, Global};
use sudoers_grammar::{
    Args, Atom, Kind, PlainAtom, TokenWithText, parse_single_token_atom, plain_atom_of_token,
};

impl Tables {
    /// Returns tables without rows.
    pub fn new(alloc: Global) -> Self {
        Tables {
            bytes: Vec::new(alloc),
            digests: Vec::new(alloc),
            members: Vec::new(alloc),
            options: Vec::new(alloc),
            tags: Vec::new(alloc),
            commands: Vec::new(alloc),
            groups: Vec::new(alloc),
            defs: Vec::new(alloc),
            params: Vec::new(alloc),
        }
    }
}

/// Returns the rows from one count to another. More than 2^32 rows are want of memory.
fn make_row_range_from_to(from: usize, to: usize) -> Result<RowRange, AllocError>
    ensures { IfOk result (λ r. IsRowRangeFromTo r from to) }
{
    match (u32::try_from(from), u32::try_from(to)) {
        (Ok(from), Ok(to)) => Ok(RowRange { from, to }),
        _ => Err(AllocError),
    }
}

/// Appends rows to a table, and returns where they stand.
pub fn append_table_rows<T: Copy>(table: &mut Vec<T>, rows: &[T]) -> Result<RowRange, AllocError>
    ensures kept { IfOk result (λ r. (table.new.items ≡ table.old.items ++ rows.now) × IsRowRangeFromTo r (length table.old.items) (length table.new.items)) }
    ensures grown { IsExtendedList table.old.items table.new.items }
{
    let from = table.len();
    table.extend_from_slice(rows)?;
    make_row_range_from_to(from, table.len())
}

/// Keeps the bytes.
pub fn store_text(tables: &mut Tables, text: &[u8]) -> Result<ByteRange, AllocError>
    ensures keeps { IfOk result (λ x. RowMeansForGood text_in_tables tables.new x text.now) }
    ensures grown { TablesHaveGrown tables.old tables.new }
{
    let range = append_table_rows(&mut tables.bytes, text)?;
    Ok(ByteRange {
        from: range.from,
        to: range.to,
    })
}

/// Returns where `text` stands directly before the byte `end` of `bytes`, if it does.
fn find_text_before(bytes: &[u8], end: usize, text: &[u8]) -> Option<ByteRange>
    ensures { IfSome result (λ x. (slice_range bytes.now x.from x.to ≡ text.now) × (x.to ≤ length bytes.now)) }
{
    let from = end.checked_sub(text.len())?;
    if end > bytes.len() || &bytes[from..end] != text {
        return None;
    }
    match (u32::try_from(from), u32::try_from(end)) {
        (Ok(from), Ok(to)) => Some(ByteRange { from, to }),
        _ => None,
    }
}

/// Keeps the bytes `text`. Where they stand before the byte `end` of the table of bytes already, they are not copied.
pub fn store_token_text(
    tables: &mut Tables,
    end: usize,
    text: &[u8],
) -> Result<ByteRange, AllocError>
    ensures keeps { IfOk result (λ x. RowMeansForGood text_in_tables tables.new x text.now) }
    ensures grown { TablesHaveGrown tables.old tables.new }
{
    match find_text_before(tables.bytes.as_slice(), end, text) {
        Some(range) => Ok(range),
        None => store_text(tables, text),
    }
}

/// Keeps the arguments of a command, whose last token ends before the byte `end` of the table of bytes, if its line stands there.
pub fn store_command_args(
    tables: &mut Tables,
    end: usize,
    args: &Args<'_>,
) -> Result<ArgsRow, AllocError>
    ensures keeps { IfOk result (λ r. RowMeansForGood args_in_tables tables.new r args.now) }
    ensures grown { TablesHaveGrown tables.old tables.new }
{
    match args {
        Args::Any => Ok(ArgsRow::Any),
        Args::Nothing => Ok(ArgsRow::Nothing),
        Args::Pattern(pattern) => {
            Ok(ArgsRow::Pattern(store_token_text(tables, end, pattern.as_slice())?))
        }
    }
}

/// Keeps what a member is, whose token ends before the byte `end` of the table of bytes, if its line stands there.
pub fn store_atom(tables: &mut Tables, end: usize, atom: &Atom<'_>) -> Result<AtomRow, AllocError>
    ensures keeps { IfOk result (λ r. RowMeansForGood atom_in_tables tables.new r atom.now) }
    ensures grown { TablesHaveGrown tables.old tables.new }
{
    match atom {
        Atom::All => Ok(AtomRow::All),
        Atom::Alias(name) => Ok(AtomRow::Alias(store_token_text(tables, end, name.as_slice())?)),
        Atom::Name(name) => Ok(AtomRow::Name(store_token_text(tables, end, name.as_slice())?)),
        Atom::Id(number) => Ok(AtomRow::Id(*number)),
        Atom::Group(name) => Ok(AtomRow::Group(store_token_text(tables, end, name.as_slice())?)),
        Atom::GroupId(number) => Ok(AtomRow::GroupId(*number)),
        Atom::NonUnix(name) => Ok(AtomRow::NonUnix(store_token_text(
            tables,
            end,
            name.as_slice(),
        )?)),
        Atom::Netgroup(name) => Ok(AtomRow::Netgroup(store_token_text(
            tables,
            end,
            name.as_slice(),
        )?)),
        Atom::Host(name) => Ok(AtomRow::Host(store_token_text(tables, end, name.as_slice())?)),
        Atom::Address(address) => Ok(AtomRow::Address(*address)),
        Atom::Network(address, mask) => Ok(AtomRow::Network(*address, *mask)),
        Atom::Listing => Ok(AtomRow::Listing),
        Atom::Path { path, args } => {
            let path = store_token_text(tables, end, path.as_slice())?;
            let args = store_command_args(tables, end, args)?;
            Ok(AtomRow::Path { path, args })
        }
        Atom::Sudoedit { args } => Ok(AtomRow::Sudoedit {
            args: store_command_args(tables, end, args)?,
        }),
    }
}

/// Returns the row of a member whose text stands in the table of bytes.
#[inline(always)]
fn make_plain_atom_row(plain: PlainAtom, text: ByteRange) -> AtomRow
    ensures { (t : TablesOf) → atom_in_tables t result ≡ atom_of_plain plain (text_in_tables t text) }
{
    match plain {
        PlainAtom::All => AtomRow::All,
        PlainAtom::Alias => AtomRow::Alias(text),
        PlainAtom::Name => AtomRow::Name(text),
        PlainAtom::Host => AtomRow::Host(text),
        PlainAtom::Path => AtomRow::Path {
            path: text,
            args: ArgsRow::Any,
        },
    }
}

/// Keeps a member whose token is its text. The token ends before the byte `end` of the table of bytes, if its line stands there.
#[inline(always)]
fn store_plain_atom(
    tables: &mut Tables,
    end: usize,
    plain: PlainAtom,
    text: &[u8],
) -> Result<AtomRow, AllocError>
    ensures keeps { IfOk result (λ r. RowMeansForGood atom_in_tables tables.new r (atom_of_plain plain text.now)) }
    ensures grown { TablesHaveGrown tables.old tables.new }
{
    if matches!(plain, PlainAtom::All) {
        return Ok(AtomRow::All);
    }
    let text = store_token_text(tables, end, text)?;
    Ok(make_plain_atom_row(plain, text))
}

/// Keeps what the token is as a member of a list of this kind, if it is one. It is read first, whatever it is.
#[inline(never)]
fn store_parsed_atom(
    alloc: Global,
    tables: &mut Tables,
    kind: Kind,
    part: TokenWithText<'_>,
    end: usize,
) -> Result<Option<AtomRow>, AllocError>
    ensures keeps { IfOk result (λ row. OptionalRowMeansForGood atom_in_tables tables.new row (atom_of_token kind (model_of_token_part part.entry))) }
    ensures grown { TablesHaveGrown tables.old tables.new }
{
    match parse_single_token_atom(alloc, kind, &part)? {
        Some(atom) => Ok(Some(store_atom(tables, end, &atom)?)),
        None => Ok(None),
    }
}

/// Keeps what the token is as a member of a list of this kind, if it is one. The token ends before the byte `end` of the table of bytes,
/// if its line stands there.
#[inline(always)]
pub fn store_atom_of_member_token(
    alloc: Global,
    tables: &mut Tables,
    kind: Kind,
    part: &TokenWithText<'_>,
    end: usize,
) -> Result<Option<AtomRow>, AllocError>
    ensures keeps { IfOk result (λ row. OptionalRowMeansForGood atom_in_tables tables.new row (atom_of_token kind (model_of_token_part part.now))) }
    ensures grown { TablesHaveGrown tables.old tables.new }
{
    match plain_atom_of_token(kind, part) {
        Some(plain) => Ok(Some(store_plain_atom(tables, end, plain, part.text)?)),
        None => store_parsed_atom(alloc, tables, kind, *part, end),
    }
}

/// Returns a byte's place as rows hold it. A place past 2^32 is want of memory.
pub fn convert_offset_to_u32(at: usize) -> Result<u32, AllocError>
    ensures { IfOk result (λ n. n ≡ at) }
{
    match u32::try_from(at) {
        Ok(at) => Ok(at),
        Err(_) => Err(AllocError),
    }
}
