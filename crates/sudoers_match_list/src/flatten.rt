//! Lists, their aliases replaced.

ghost use Rattle.std.specs.Prelude.{◌≡◌, ◌⊎◌, ◌<◌, ◌≤◌, ◌++◌, ◌∷◌, [], length, map, IfOk, IfErr, OnOk, MatchOption};
ghost use Rattle.sudoers_line_rows.specs.declared.rows.Tables.{Tables as TablesOf};
ghost use Rattle.sudoers_line_rows.specs.Tables.{member_in_tables};
ghost use Rattle.sudoers_match_list.specs.Flattened.{expanded_member_limit, fully_expanded_list, list_expanded_n_times, member_under_negation};
ghost use Rattle.sudoers_match_list.specs.declared.flatten_size_fault.FlattenSizeFault.TheVariants.{TooLarge, NoMemory};
ghost use Rattle.sudoers_match_list.specs.internal.Parts.{IsPendingPartInPlaceOfAliasMember, members_left_to_write, expansion_steps_left};

use crate::alias_shortcuts::flip_sign_if_negated;
use crate::expansion_source::ExpansionSource;
use crate::flatten_size_fault::FlattenSizeFault;
use std::alloc::Global;
use sudoers_line_rows::MemberRow;
use sudoers_tree::Kind;

/// How many members a list may have whose aliases are replaced.
pub const MEMBER_LIMIT: usize = 65_536;

/// Members that are left to be written. Their signs are turned if `negated`, and their aliases are replaced so many times.
#[derive(Clone, Copy)]
struct PendingListPart<'a> {
    rows: &'a [MemberRow],
    negated: bool,
    times: usize,
}

/// Returns the list `rows` of this kind with its aliases replaced by their members, signs turned under an odd number of `!`.
///
/// # Errors
///
/// `TooLarge`: the list has more than 65,536 members then. `NoMemory`: memory ran out.
pub fn flatten_member_list<'a>(
    alloc: Global,
    source: &ExpansionSource<'a, '_>,
    kind: Kind,
    rows: &'a [MemberRow],
) -> Result<Vec<MemberRow>, FlattenSizeFault>
    ensures rows { IfOk result (λ new. map (member_in_tables source.now.lines.tables.now) new.items
        ≡ fully_expanded_list kind source.now.policy.now (map (member_in_tables source.now.lines.tables.now) rows.now)) }
    ensures fault { IfErr result (λ fault. (fault ≡ NoMemory) ⊎ ((fault ≡ TooLarge)
        × (expanded_member_limit < length (fully_expanded_list kind source.now.policy.now (map (member_in_tables source.now.lines.tables.now) rows.now))))) }
{
    let mut flat = Vec::new(alloc);
    let mut parts = Vec::new(alloc);
    parts.push(PendingListPart {
        rows,
        negated: false,
        times: source.policy.definition_numbers().len(),
    })?;
    while let Some(part) = parts.pop() {
        write_next_pending_member(source, kind, &part, &mut parts, &mut flat)?;
    }
    Ok(flat)
}

/// Appends the next member of a part to the list `flat`. If it names an alias that is to be replaced, the members of the alias are left
/// to be written in its place.
fn write_next_pending_member<'a>(
    source: &ExpansionSource<'a, '_>,
    kind: Kind,
    part: &PendingListPart<'a>,
    parts: &mut Vec<PendingListPart<'a>>,
    flat: &mut Vec<MemberRow>,
) -> Result<(), FlattenSizeFault>
    ensures rows { OnOk result (map (member_in_tables source.now.lines.tables.now) flat.new.items
        ++ members_left_to_write kind source.now.policy.now source.now.lines.tables.now parts.new.items
        ≡ map (member_in_tables source.now.lines.tables.now) flat.old.items
        ++ members_left_to_write kind source.now.policy.now source.now.lines.tables.now (parts.old.items ++ part.now ∷ [])) }
    ensures fewer { OnOk result (expansion_steps_left kind source.now.policy.now source.now.lines.tables.now parts.new.items
        < expansion_steps_left kind source.now.policy.now source.now.lines.tables.now (parts.old.items ++ part.now ∷ [])) }
    ensures fault { IfErr result (λ fault. (fault ≡ NoMemory) ⊎ ((fault ≡ TooLarge)
        × (expanded_member_limit < length (map (member_in_tables source.now.lines.tables.now) flat.old.items
        ++ members_left_to_write kind source.now.policy.now source.now.lines.tables.now (parts.old.items ++ part.now ∷ []))))) }
{
    let Some((row, rest)) = part.rows.split_first() else {
        return Ok(());
    };
    parts.push(PendingListPart {
        rows: rest,
        ..*part
    })?;
    let row = flip_member_sign_if_negated(part.negated, row);
    match find_pending_part_in_place_of_alias_member(source, kind, &row, part.times) {
        None => push_member_within_limit(flat, row),
        Some(members) => {
            parts.push(members)?;
            Ok(())
        }
    }
}

/// Returns what comes in the place of a member, if it names an alias and aliases are still replaced, so many times.
fn find_pending_part_in_place_of_alias_member<'a>(
    source: &ExpansionSource<'a, '_>,
    kind: Kind,
    row: &MemberRow,
    times: usize,
) -> Option<PendingListPart<'a>>
    ensures { MatchOption result (list_expanded_n_times times kind source.now.policy.now (member_in_tables source.now.lines.tables.now row.now ∷ [])
        ≡ member_in_tables source.now.lines.tables.now row.now ∷ [])
        (λ part. IsPendingPartInPlaceOfAliasMember kind source.now.policy.now source.now.lines.tables.now times (member_in_tables source.now.lines.tables.now row.now) part) }
{
    let left = times.checked_sub(1)?;
    let chain = source.find_alias_chain_ends_of_atom(kind, row.atom)?;
    let Some(times) = left.checked_sub(chain.times) else {
        return Some(PendingListPart {
            rows: chain.first,
            negated: row.negated,
            times: left,
        });
    };
    Some(PendingListPart {
        rows: chain.last,
        negated: flip_sign_if_negated(row.negated, chain.negated),
        times,
    })
}

/// Appends a member, if there is room for it.
fn push_member_within_limit(
    flat: &mut Vec<MemberRow>,
    row: MemberRow,
) -> Result<(), FlattenSizeFault>
    ensures pushed { OnOk result (flat.new.items ≡ flat.old.items ++ row ∷ []) }
    ensures fault { IfErr result (λ fault. (fault ≡ NoMemory) ⊎ ((fault ≡ TooLarge) × (expanded_member_limit ≤ length flat.old.items))) }
{
    if flat.len() >= MEMBER_LIMIT {
        return Err(FlattenSizeFault::TooLarge);
    }
    flat.push(row)?;
    Ok(())
}

/// Returns the member, its sign turned if `negated`.
fn flip_member_sign_if_negated(negated: bool, row: &MemberRow) -> MemberRow
    ensures { (t : TablesOf) → member_in_tables t result ≡ member_under_negation negated (member_in_tables t row.now) }
{
    MemberRow {
        negated: flip_sign_if_negated(negated, row.negated),
        ..*row
    }
}
