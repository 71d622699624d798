//! Edits made in place.
ghost use Rattle.std.specs.Prelude.{◌≡◌, OnErr};
ghost use Rattle.sudoers_edit.specs.internal.Leading.{IsPlanOutcome};
ghost use Rattle.sudoers_edit.specs.internal.Undone.{IsReversibleEditOutcome};

use crate::edit_plan::{EditPlan, carry_out_plan};
use crate::edit_reversal::{EditReversal, inverse_of_line_changes};
use crate::fault::EditFault;
use crate::line_edits::{
    plan_final_lf_addition, plan_final_lf_removal, plan_line_deletion, plan_line_insertion,
    plan_line_move,
};
use crate::prune_plan::plan_prune;
use crate::rename_plan::plan_alias_rename;
use crate::splice_edits::{
    plan_definition_addition, plan_drop_of_definition_unless_only_one, plan_member_addition,
    plan_member_drop,
};
use sudoers_edit_script::Edit;
use sudoers_tree::Policy;

/// Makes an edit, and returns what takes it back. A refused edit leaves the policy as it was.
pub fn make_edit_in_place(policy: &mut Policy, edit: &Edit) -> Result<EditReversal, EditFault>
    ensures made { IsReversibleEditOutcome edit.now policy.old policy.new result }
    ensures unchanged { OnErr result (policy.new ≡ policy.old) }
{
    // laws
    policy.is_loaded();
    let plan = match plan_edit(policy, edit) {
        Ok(plan) => plan,
        Err(fault) => return Err(fault),
    };
    let changes = match edit {
        Edit::Prune => Some(inverse_of_line_changes(policy, plan.changes.as_slice())?),
        _ => None,
    };
    let inverse = carry_out_plan(plan, policy)?;
    Ok(EditReversal { inverse, changes })
}

/// Plans an edit.
fn plan_edit(policy: &Policy, edit: &Edit) -> Result<EditPlan, EditFault>
    ensures { IsPlanOutcome edit.now policy.now result }
{
    match edit {
        Edit::Insert { file, at, text } => plan_line_insertion(policy, *file, *at, text.as_slice()),
        Edit::Delete { file, at } => plan_line_deletion(policy, *file, *at),
        Edit::Move { file, from, to } => plan_line_move(policy, *file, *from, *to),
        Edit::AddMember {
            kind,
            name,
            at,
            splice,
        } => plan_member_addition(policy, *kind, name.as_slice(), *at, splice.as_slice()),
        Edit::DropMember { kind, name, at } => plan_member_drop(
            policy,
            *kind,
            name.as_slice(),
            *at,
        ),
        Edit::AddDef {
            file,
            line,
            at,
            splice,
        } => plan_definition_addition(policy, *file, *line, *at, splice.as_slice()),
        Edit::DropDef { file, line, at } => plan_drop_of_definition_unless_only_one(
            policy, *file, *line, *at,
        ),
        Edit::Rename { kind, name, fresh } => {
            plan_alias_rename(policy, *kind, name.as_slice(), fresh.as_slice())
        }
        Edit::EndLine { file } => plan_final_lf_addition(policy, *file),
        Edit::OpenEnd { file } => plan_final_lf_removal(policy, *file),
        Edit::Prune => plan_prune(policy),
    }
}
