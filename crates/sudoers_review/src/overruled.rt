//! What is printed of commands that never decide.

ghost use Rattle.std.specs.Prelude.{◌≡◌, ◌⊎◌, ◌++◌, List, [], length, map, slice_get, option_and_then, IfOk, IfErr, OnOk};
ghost use Rattle.std.specs.Borrow.{Bor};
ghost use Rattle.std.specs.Option.{option_map};
ghost use Rattle.sudoers_check.specs.Chains.{HasCyclicAliasReachedFromSpecOrDefaults};
ghost use Rattle.sudoers_compare.specs.declared.flat_rows.PlacedFlatRow.{PlacedFlatRow as PlacedFlatRowOf};
ghost use Rattle.sudoers_compare.specs.FlatSpecs.{PlacedRow, placed_row_of_view};
ghost use Rattle.sudoers_review.specs.Faults.{IsMemoryOrSizeFault};
ghost use Rattle.sudoers_review.specs.Undecided.{AreCountedRows};
ghost use Rattle.sudoers_review.specs.declared.compare_fault.CompareFault.TheVariants.{Cycle, NoMemory, TooLarge};
ghost use Rattle.sudoers_review.specs.OverruledText.{command_text_of_row, overruled_lines, overruled_row_line, overruled_row_line_if_any, overruled_text, place_text_of_row, text_of_overrulings, undecided_rows, undecided_rows_line, useless_or_overruled_words};

use crate::change_lines::{PlaceOnWalk, TextPart};
use crate::changed_rows::place_of_row;
use crate::compare_fault::CompareFault;
use crate::flat_policy::FlatPolicy;
use crate::row_text::TEXT_LIMIT;
use std::alloc::{AllocError, Global};
use sudoers_compare::{
    Overruling, PlacedFlatRow, RowsOfSpecs, find_overrulings_of_specs, has_same_effect,
};
use sudoers_cvt_spell::append_member;
use sudoers_list::append_place_on_walk_line;
use sudoers_text::append_decimal_number;
use sudoers_tree::{Kind, Policy};

/// Returns what is said of a command that never decides.
fn choose_words(is_useless: bool) -> &'static [u8]
    ensures { result.now ≡ useless_or_overruled_words is_useless }
{
    if is_useless {
        b": useless "
    } else {
        b": overruled "
    }
}

/// Appends to `out` where the command of `placed` stands.
pub fn append_place_of_row(
    alloc: Global,
    out: &mut Vec<u8>,
    policy: &Policy,
    placed: &PlacedFlatRow<'_>,
) -> Result<(), AllocError>
    ensures { OnOk result (out.new.items ≡ out.old.items ++ place_text_of_row policy.now (placed_row_of_view placed.now)) }
{
    append_place_on_walk_line(alloc, out, policy, placed.line, placed.start as usize)
}

/// Appends the command of `placed` to `out`.
fn append_command_text(
    alloc: Global,
    out: &mut Vec<u8>,
    placed: &PlacedFlatRow<'_>,
) -> Result<(), AllocError>
    ensures { OnOk result (out.new.items ≡ out.old.items ++ command_text_of_row (placed_row_of_view placed.now)) }
{
    append_member(alloc, out, false, Kind::Cmnd, &placed.row.member)
}

/// A command that never decides.
#[derive(Clone, Copy)]
pub struct OverruledCommand {
    /// Whether the row that decides has the sign, the tags and the options of its row.
    pub is_useless: bool,
    /// The command, as it is printed.
    pub command: TextPart,
    /// Where it stands.
    pub place: PlaceOnWalk,
    /// Where the command stands that decides.
    pub decider: PlaceOnWalk,
}

/// The commands of which it is not decided whether they never decide: how many they are, and where the first stands.
#[derive(Clone, Copy)]
pub struct UndecidedCommands {
    pub count: usize,
    pub first: PlaceOnWalk,
}

/// The lines on the commands of a policy that never decide, and what they say.
#[derive(Drop)]
pub struct OverruledCommands {
    pub text: Vec<u8>,
    pub commands: Vec<OverruledCommand>,
    pub undecided: Option<UndecidedCommands>,
}

impl OverruledCommands {
    /// Returns no lines.
    fn new(alloc: Global) -> OverruledCommands
        ensures { result.text.items ≡ [] }
    {
        OverruledCommands {
            text: Vec::new(alloc),
            commands: Vec::new(alloc),
            undecided: None,
        }
    }
}

/// Appends the line on `placed` to `out`, which `later` covers.
fn append_overruled_row_line(
    alloc: Global,
    out: &mut OverruledCommands,
    policy: &Policy,
    placed: &PlacedFlatRow<'_>,
    later: &PlacedFlatRow<'_>,
) -> Result<(), AllocError>
    ensures { OnOk result (out.new.text.items ≡ out.old.text.items ++ overruled_row_line policy.now (placed_row_of_view placed.now) (placed_row_of_view later.now)) }
{
    let is_useless = has_same_effect(&placed.row, &later.row);
    append_place_of_row(alloc, &mut out.text, policy, placed)?;
    out.text.extend_from_slice(choose_words(is_useless))?;
    let start = out.text.len();
    append_command_text(alloc, &mut out.text, placed)?;
    let stop = out.text.len();
    out.text.extend_from_slice(b": ")?;
    append_place_of_row(alloc, &mut out.text, policy, later)?;
    out.text.extend_from_slice(b" decides\n")?;
    out.commands.push(OverruledCommand {
        is_useless,
        command: TextPart { start, stop },
        place: place_of_row(placed),
        decider: place_of_row(later),
    })?;
    Ok(())
}

/// Returns the row with this number, if there is one.
fn find_row<'r, 'f>(
    rows: &'r [PlacedFlatRow<'f>],
    number: Option<usize>,
) -> Option<&'r PlacedFlatRow<'f>>
    ensures { option_map (λ (row : Bor PlacedFlatRowOf). placed_row_of_view row.now) result ≡ option_and_then (slice_get (map placed_row_of_view rows.now)) number }
{
    match number {
        Some(number) => rows.get(number),
        None => None,
    }
}

/// Appends the line on `placed` to `out`, if `later` covers it.
fn append_line_of_overruling(
    alloc: Global,
    out: &mut OverruledCommands,
    policy: &Policy,
    placed: &PlacedFlatRow<'_>,
    later: Option<&PlacedFlatRow<'_>>,
) -> Result<(), AllocError>
    ensures { OnOk result (out.new.text.items ≡ out.old.text.items
        ++ overruled_row_line_if_any policy.now (placed_row_of_view placed.now) (option_map (λ (row : Bor PlacedFlatRowOf). placed_row_of_view row.now) later.entry)) }
{
    match later {
        Some(later) => append_overruled_row_line(alloc, out, policy, placed, later),
        None => Ok(()),
    }
}

/// Appends to `out` the lines on those of `rows` that later ones cover. `found` says which.
fn append_overruled_lines(
    alloc: Global,
    out: &mut OverruledCommands,
    policy: &Policy,
    rows: &[PlacedFlatRow<'_>],
    found: &[Overruling],
) -> Result<(), CompareFault>
    ensures lines { OnOk result (out.new.text.items ≡ out.old.text.items ++ overruled_lines policy.now (map placed_row_of_view rows.now) (map placed_row_of_view rows.now) found.now) }
    ensures fault { IfErr result IsMemoryOrSizeFault }
{
    for number in 0..rows.len().min(found.len()) {
        let later = find_row(rows, found[number].by);
        append_line_of_overruling(alloc, out, policy, &rows[number], later)?;
        if out.text.len() > TEXT_LIMIT {
            return Err(CompareFault::TooLarge);
        }
    }
    Ok(())
}

/// The rows of which it is not decided whether a later one covers them: the number of the first, and how many they are.
#[derive(Clone, Copy)]
struct UndecidedRows {
    first: usize,
    count: usize,
}

/// Returns the rows of which it is not decided whether a later one covers them.
fn count_undecided_rows(found: &[Overruling]) -> UndecidedRows
    ensures { (rows : List PlacedRow) → length rows ≡ length found.now → AreCountedRows rows result (undecided_rows rows found.now) }
{
    let mut undecided = UndecidedRows { first: 0, count: 0 };
    for number in 0..found.len() {
        if found[number].are_rows_left_out {
            if undecided.count == 0 {
                undecided.first = number;
            }
            undecided.count += 1;
        }
    }
    undecided
}

/// Appends to `out` the line on those of `rows` of which it is not decided whether a later one covers them.
fn append_undecided_rows_line(
    alloc: Global,
    out: &mut OverruledCommands,
    policy: &Policy,
    rows: &[PlacedFlatRow<'_>],
    found: &[Overruling],
) -> Result<(), AllocError>
    requires { length found.now ≡ length rows.now }
    ensures { OnOk result (out.new.text.items ≡ out.old.text.items ++ undecided_rows_line policy.now (undecided_rows (map placed_row_of_view rows.now) found.now)) }
{
    let undecided = count_undecided_rows(found);
    if undecided.count == 0 {
        return Ok(());
    }
    let Some(first) = rows.get(undecided.first) else {
        return Ok(());
    };
    append_place_of_row(alloc, &mut out.text, policy, first)?;
    out.text.extend_from_slice(b": not decided: ")?;
    append_command_text(alloc, &mut out.text, first)?;
    out.text
        .extend_from_slice(b"; commands with more than 64 later rows: ")?;
    append_decimal_number(alloc, &mut out.text, undecided.count)?;
    out.text.extend_from_slice(b"\n")?;
    out.undecided = Some(UndecidedCommands {
        count: undecided.count,
        first: place_of_row(first),
    });
    Ok(())
}

/// Returns a line for each command of `policy` that never decides, since a later row covers its row: where it stands, the command, and where
/// the later one stands. A command of an alias counts as each of the alias's commands. Behind them stands a line on the rows that have too
/// many later ones, if there are any.
///
/// # Errors
///
/// `Cycle`: a reachable alias is cyclic. `TooLarge`: more than 65,536 members come in the place of aliases, or the lines have more than
/// 16 MiB. `NoMemory`: memory ran out.
pub fn list_overruled_commands(
    alloc: Global,
    policy: &Policy,
) -> Result<OverruledCommands, CompareFault>
    ensures text { IfOk result (λ found. found.text.items ≡ overruled_text policy.now) }
    ensures straight { IfOk result (λ _. HasCyclicAliasReachedFromSpecOrDefaults policy.now.walk.lines → ⊥) }
    ensures fault { IfErr result (λ fault. (fault ≡ NoMemory) ⊎ ((fault ≡ TooLarge) ⊎ ((fault ≡ Cycle) × HasCyclicAliasReachedFromSpecOrDefaults policy.now.walk.lines))) }
{
    let flat = FlatPolicy::new(alloc, policy)?;
    let rows = flat.list_rows(alloc)?;
    let given = RowsOfSpecs {
        tables: flat.tables,
        specs: flat.specs.as_slice(),
        rows: rows.as_slice(),
    };
    let found = find_overrulings_of_specs(alloc, given)?;
    let mut out = OverruledCommands::new(alloc);
    append_overruled_lines(alloc, &mut out, policy, rows.as_slice(), found.as_slice())?;
    append_undecided_rows_line(alloc, &mut out, policy, rows.as_slice(), found.as_slice())?;
    Ok(out)
}
