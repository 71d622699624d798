//! Where bytes of a policy stand.

ghost use Rattle.std.specs.Prelude.{◌≡◌, ◌++◌, slice_get, Some, OnOk};
ghost use Rattle.sudoers_tree.specs.Line.{line_of_view};
ghost use Rattle.sudoers_tree.specs.Walk.{spot_of_walk_line};
ghost use Rattle.sudoers_list.specs.Reason.{byte_place_text, file_row_column_text, place_text_on_walk_line};

use crate::deciding_rule::NumberedLine;
use std::alloc::{AllocError, Global};
use sudoers_check::{BytePlace, WalkCursor};
use sudoers_text::append_decimal_number;
use sudoers_tree::{Policy, WalkLineSpot, column_behind, lf_count};

/// Returns where the line with the number `number` of the walk, from 0, stands.
fn walk_line_spot_at(policy: &Policy, number: usize) -> WalkLineSpot
    ensures { result ≡ spot_of_walk_line policy.now.walk number }
{
    match policy.spots_of_walk_lines().get(number) {
        Some(spot) => *spot,
        None => WalkLineSpot {
            file: 0,
            line: 0,
            row: 1,
        },
    }
}

/// Appends the place `place` in the files of `policy`.
fn append_place_in_files(
    alloc: Global,
    out: &mut Vec<u8>,
    policy: &Policy,
    place: BytePlace,
) -> Result<(), AllocError>
    ensures { OnOk result (out.new.items ≡ out.old.items ++ byte_place_text policy.now place) }
{
    out.extend_from_slice(policy.file_name(place.file))?;
    out.extend_from_slice(b":")?;
    append_decimal_number(alloc, out, place.row)?;
    out.extend_from_slice(b":")?;
    append_decimal_number(alloc, out, place.column)
}

/// Appends the place of the byte `start` of a line, from 0: its file, its physical line there and its column.
///
/// # Errors
///
/// Memory ran out.
pub fn append_byte_place(
    alloc: Global,
    out: &mut Vec<u8>,
    policy: &Policy,
    at: &NumberedLine<'_>,
    start: usize,
) -> Result<(), AllocError>
    requires { slice_get policy.now.walk.lines at.now.number ≡ Some (line_of_view at.now.line) }
    ensures { OnOk result (out.new.items ≡ out.old.items ++ file_row_column_text policy.now at.now.number at.now.line.text.now start) }
{
    // laws
    policy.lines_stand();
    let text = at.line.text;
    let before = &text[..start.min(text.len())];
    let spot = walk_line_spot_at(policy, at.number);
    let place = BytePlace {
        file: spot.file,
        row: spot.row + lf_count(before),
        column: column_behind(before),
    };
    append_place_in_files(alloc, out, policy, place)
}

/// Appends the place of a byte of the walk of `cursor`, as `append_place_on_walk_line` does. Places of one line are quick in rising order.
///
/// # Errors
///
/// Memory ran out.
pub fn append_place_at_cursor(
    alloc: Global,
    out: &mut Vec<u8>,
    cursor: &mut WalkCursor<'_>,
    number: usize,
    start: usize,
) -> Result<(), AllocError>
    ensures text { OnOk result (out.new.items ≡ out.old.items ++ place_text_on_walk_line cursor.old.policy.now number start) }
    ensures policy { cursor.new.policy.now ≡ cursor.old.policy.now }
{
    match cursor.find_place_of_byte(number, start) {
        Some(place) => append_place_in_files(alloc, out, cursor.policy, place),
        None => Ok(()),
    }
}

/// Appends the place of a byte of the walk: of the byte `start`, from 0, of the line with the number `number`, from 0. The place is a
/// file, a physical line there and a column. Appends nothing if the walk has no such line.
///
/// # Errors
///
/// Memory ran out.
pub fn append_place_on_walk_line(
    alloc: Global,
    out: &mut Vec<u8>,
    policy: &Policy,
    number: usize,
    start: usize,
) -> Result<(), AllocError>
    ensures { OnOk result (out.new.items ≡ out.old.items ++ place_text_on_walk_line policy.now number start) }
{
    append_place_at_cursor(alloc, out, &mut WalkCursor::new(policy), number, start)
}
