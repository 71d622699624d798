//! The edits that make wishes true.

ghost use Rattle.std.specs.Prelude.{◌≡◌, ◌⊎◌, ◌++◌, [], IfOk, MatchResult, Ok, Err};
ghost use Rattle.sudoers_edit.specs.Editing.{edits_of_entries, initial_policy_of_editor};
ghost use Rattle.sudoers_plan.specs.Plan.{IsOutcomeUnlessNoMemory, IsFaultOrNoMemory, LeadsToAllWishes, MeetsAllWishes, edits_wanted_by, first_unmet_wish as first_unmet, is_nothing_wanted, plan_of_wishes, planned_for_wish, planned_for_wishes};

use crate::fault::{PlanFault, PlanRefusal};
use crate::line_wishes::{find_edits_to_have_line, find_edits_to_lack_line};
use crate::member_wishes::{find_edits_to_have_member, find_edits_to_lack_member};
use crate::user_wish::find_edits_to_lose_user;
use crate::wish::Wish;
use std::alloc::AllocError;
use sudoers_edit::{Edit, Editor, Edits};
use sudoers_tree::Policy;

/// Returns the edits that make the wishes `wishes` true of `policy`, in their order. A wish that is true already wants no edit.
///
/// # Errors
///
/// The first wish that cannot be made true, and why; or the first that is not met after the edits of all wishes.
pub fn plan(policy: &Policy, wishes: &[Wish]) -> Result<Edits, PlanRefusal>
    // The plan and each refusal are those of the definition, unless memory ran out.
    ensures outcome { MatchResult result (λ edits. plan_of_wishes wishes.now policy.now ≡ Ok edits)
        (λ refusal. (refusal.fault ≡ PlanFault.NoMemory) ⊎ (plan_of_wishes wishes.now policy.now ≡ Err (refusal.wish, refusal.fault))) }
    // The edits are accepted. The policy to which they lead meets each wish.
    ensures met { IfOk result (λ edits. LeadsToAllWishes edits policy.now wishes.now) }
    // Where the policy meets each wish, there is nothing to do.
    ensures nothing { MeetsAllWishes policy.now wishes.now → MatchResult result (λ edits. edits ≡ []) (λ refusal. refusal.fault ≡ PlanFault.NoMemory) }
{
    let mut editor = Editor::new(copy_policy(policy)?);
    let edits = make_edits_for_wishes(&mut editor, wishes)?;
    match find_unmet_wish(editor.policy(), wishes)? {
        None => Ok(edits),
        Some(wish) => Err(PlanRefusal {
            wish,
            fault: PlanFault::NotMet,
        }),
    }
}

/// Returns a copy of `policy`.
fn copy_policy(policy: &Policy) -> Result<Policy, AllocError>
    ensures { IfOk result (λ copy. copy ≡ policy.now) }
{
    policy.is_loaded();
    let files = policy.copy_named_files()?;
    match Policy::load(policy.allocator(), files.as_slice()) {
        Ok(copy) => Ok(copy),
        Err(_) => Err(AllocError),
    }
}

/// Makes the edits that the wishes want, one wish after another, and returns them.
fn make_edits_for_wishes(editor: &mut Editor, wishes: &[Wish]) -> Result<Edits, PlanRefusal>
    ensures planned { MatchResult result (λ edits. planned_for_wishes 0 [] wishes.now editor.old.policy ≡ Ok (edits, editor.new.policy))
        (λ refusal. (refusal.fault ≡ PlanFault.NoMemory) ⊎ (planned_for_wishes 0 [] wishes.now editor.old.policy ≡ Err (refusal.wish, refusal.fault))) }
    ensures journal { IfOk result (λ edits. edits_of_entries editor.new.journal ≡ edits_of_entries editor.old.journal ++ edits) }
    ensures begun { IfOk result (λ _. initial_policy_of_editor editor.new ≡ initial_policy_of_editor editor.old) }
{
    let mut edits = Vec::new(editor.policy().allocator());
    for (number, wish) in wishes.iter().enumerate() {
        match make_edits_for_wish(editor, wish) {
            Ok(wanted) => edits.append(&mut wanted.into_vec())?,
            Err(fault) => return Err(PlanRefusal {
                wish: number,
                fault,
            }),
        }
    }
    Ok(Edits::from_vec(edits))
}

/// Makes the edits that the wish wants, and returns them.
#[tactic(auto, unfolding(crate::specs::Plan::planned_for_wish))]
fn make_edits_for_wish(editor: &mut Editor, wish: &Wish) -> Result<Edits, PlanFault>
    ensures planned { MatchResult result (λ edits. planned_for_wish wish.now editor.old.policy ≡ Ok (edits, editor.new.policy))
        (λ fault. IsFaultOrNoMemory fault (planned_for_wish wish.now editor.old.policy)) }
    ensures journal { IfOk result (λ edits. edits_of_entries editor.new.journal ≡ edits_of_entries editor.old.journal ++ edits) }
    ensures begun { initial_policy_of_editor editor.new ≡ initial_policy_of_editor editor.old }
{
    let wanted = find_wanted_edits(editor.policy(), wish)?;
    match editor.apply_all(wanted.as_slice()) {
        Ok(()) => Ok(wanted),
        Err((_, fault)) => Err(PlanFault::from(fault)),
    }
}

/// Returns the number, from 0, of the first wish that `policy` does not meet.
fn find_unmet_wish(policy: &Policy, wishes: &[Wish]) -> Result<Option<usize>, AllocError>
    ensures { IfOk result (λ number. number ≡ first_unmet 0 wishes.now policy.now) }
{
    for (number, wish) in wishes.iter().enumerate() {
        if !is_met(policy, wish)? {
            return Ok(Some(number));
        }
    }
    Ok(None)
}

/// Returns whether the wish wants no edit of `policy`.
fn is_met(policy: &Policy, wish: &Wish) -> Result<bool, AllocError>
    ensures { IfOk result (λ met. met ≡ is_nothing_wanted (edits_wanted_by wish.now policy.now)) }
{
    match find_wanted_edits(policy, wish) {
        Ok(edits) => Ok(edits.as_slice().is_empty()),
        Err(PlanFault::NoMemory) => Err(AllocError),
        Err(_) => Ok(false),
    }
}

/// Returns the edits that the wish wants of `policy`.
#[tactic(auto, unfolding(crate::specs::Plan::edits_wanted_by))]
fn find_wanted_edits(policy: &Policy, wish: &Wish) -> Result<Edits, PlanFault>
    ensures { IsOutcomeUnlessNoMemory result (edits_wanted_by wish.now policy.now) }
{
    match wish {
        Wish::HasMember {
            kind,
            alias,
            member,
        } => find_edits_to_have_member(policy, *kind, alias.as_slice(), member.as_slice()),
        Wish::LacksMember {
            kind,
            alias,
            member,
        } => find_edits_to_lack_member(policy, *kind, alias.as_slice(), member.as_slice()),
        Wish::HasLine { file, text, place } => {
            find_edits_to_have_line(policy, file.as_slice(), text.as_slice(), place)
        }
        Wish::LacksLine {
            file,
            text,
            even_includes,
        } => find_edits_to_lack_line(policy, file.as_slice(), text.as_slice(), *even_includes),
        Wish::NoUser { user, even_denials } => {
            find_edits_to_lose_user(policy, user.as_slice(), *even_denials)
        }
    }
}
