//! The edits that wishes of members want.

ghost use Rattle.std.specs.Prelude.{◌≡◌, ◌++◌, codes, map, reverse, IfOk, OnOk};
ghost use Rattle.sudoers_plan.specs.GivenText.{text_with_percents_quoted};
ghost use Rattle.sudoers_plan.specs.Plan.{IsOutcomeUnlessNoMemory, edits_to_have_member, edits_to_lack_member};

use crate::fault::PlanFault;
use crate::member_text::{
    append_member_text, head_len_of_lone_list, only_member_of_line, read_lone_list,
};
use std::alloc::{AllocError, Global};
use sudoers_edit_script::{Edit, Edits, Text};
use sudoers_grammar::Kind;
use sudoers_line_rows::convert_offset_to_u32;
use sudoers_tree::Policy;

/// Returns the edits after which a member of the alias says what `text` says.
#[tactic(auto, unfolding(crate::specs::GivenText::member_of_text))]
pub fn find_edits_to_have_member(
    policy: &Policy,
    kind: Kind,
    alias: &[u8],
    text: &[u8],
) -> Result<Edits, PlanFault>
    ensures { IsOutcomeUnlessNoMemory result (edits_to_have_member kind alias.now text.now policy.now) }
{
    let alloc = policy.allocator();
    let Some(reading) = read_lone_list(alloc, kind, text)? else {
        return Err(PlanFault::BadMember);
    };
    let node = reading.node();
    let from = head_len_of_lone_list(kind);
    let Some(member) = only_member_of_line(&node, from, from + text.len()) else {
        return Err(PlanFault::BadMember);
    };
    let Some(members) = policy.walk().members_of_alias(kind, alias) else {
        return Err(PlanFault::NoAlias);
    };
    if member.is_listed_in(&members) {
        return Ok(Edits::new(alloc));
    }
    let edit = make_member_addition(alloc, kind, alias, members.rows.len(), text)?;
    Ok(Edits::list_of_one_item(alloc, edit)?)
}

/// Returns the edits after which no member of the alias says what `text` says.
#[tactic(auto, unfolding(crate::specs::GivenText::member_of_text))]
pub fn find_edits_to_lack_member(
    policy: &Policy,
    kind: Kind,
    alias: &[u8],
    text: &[u8],
) -> Result<Edits, PlanFault>
    ensures { IsOutcomeUnlessNoMemory result (edits_to_lack_member kind alias.now text.now policy.now) }
{
    let alloc = policy.allocator();
    let Some(reading) = read_lone_list(alloc, kind, text)? else {
        return Err(PlanFault::BadMember);
    };
    let node = reading.node();
    let from = head_len_of_lone_list(kind);
    let Some(member) = only_member_of_line(&node, from, from + text.len()) else {
        return Err(PlanFault::BadMember);
    };
    let Some(members) = policy.walk().members_of_alias(kind, alias) else {
        return Err(PlanFault::NoAlias);
    };
    let mut edits = Edits::new(alloc);
    append_member_drops(
        alloc,
        kind,
        alias,
        member.numbers_of_alike(alloc, &members)?,
        &mut edits,
    )?;
    Ok(edits)
}

/// Returns the edit that adds the member `text` after the last one, at the place `at`.
fn make_member_addition(
    alloc: Global,
    kind: Kind,
    alias: &[u8],
    at: usize,
    text: &[u8],
) -> Result<Edit, AllocError>
    ensures { IfOk result (λ edit. edit ≡ Edit.AddMember kind alias.now at (codes ", " ++ text_with_percents_quoted text.now)) }
{
    let mut splice = Text::from_slice(alloc, b", ")?;
    append_member_text(&mut splice, text)?;
    Ok(Edit::AddMember {
        kind,
        name: Text::from_slice(alloc, alias)?,
        at: convert_offset_to_u32(at)?,
        splice,
    })
}

/// Appends the edits that take out the members with these numbers, which ascend, the last first.
pub fn append_member_drops(
    alloc: Global,
    kind: Kind,
    alias: &[u8],
    numbers: Vec<u32>,
    edits: &mut Edits,
) -> Result<(), AllocError>
    ensures { OnOk result (edits.new ≡ edits.old ++ map (λ at. Edit.DropMember kind alias.now at) (reverse numbers.items)) }
{
    let mut numbers = numbers;
    while let Some(number) = numbers.pop() {
        edits.push(Edit::DropMember {
            kind,
            name: Text::from_slice(alloc, alias)?,
            at: number,
        })?;
    }
    Ok(())
}
