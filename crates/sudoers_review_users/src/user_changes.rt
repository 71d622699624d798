//! What is printed of one user.

ghost use Rattle.std.specs.Prelude.{◌≡◌, ◌++◌, ℕ, List, IfErr, OnOk};
ghost use Rattle.sudoers_review.specs.Faults.{IsMemoryOrSizeFault};
ghost use Rattle.sudoers_review_users.specs.Ready.{new_policy, old_policy, AreChangedRules, IsReadyReview, IsReadyComparison};
ghost use Rattle.sudoers_review_users.specs.UserChanges.{IsUserChangesText};

use crate::changed_rules::ChangedRules;
use crate::compared_policies::ComparedPolicies;
use crate::deciding_rows::{list_deciding_rows, list_marked_rows};
use crate::examples::UserReview;
use crate::user_lines::{append_default_lines, append_user_row_lines};
use std::alloc::Global;
use sudoers_compare::{CountedChanges, mark_changed_rows};
use sudoers_list_people::People;
use sudoers_match::{Request, find_runas_default_for};
use sudoers_review::{ChangeLines, CompareFault, RuleChange};

/// Appends to `out` what the policies of `review` grant its user otherwise. `request` is one of his. `rules` are the rows in which they differ.
/// Takes from `left` what is looked at for examples.
fn append_changes_of_review(
    alloc: Global,
    out: &mut ChangeLines,
    review: &UserReview<'_, '_, '_, '_>,
    rules: &ChangedRules<'_>,
    request: &mut Request,
    left: &mut usize,
) -> Result<(), CompareFault>
    requires review { IsReadyReview request.old.who review.now }
    requires rules { AreChangedRules review.now.compared.now rules.now }
    ensures text { OnOk result ((text : List ℕ) × (out.new.text.items ≡ out.old.text.items ++ text)
        × IsUserChangesText (old_policy review.now.compared.now) (new_policy review.now.compared.now) review.now.moment review.now.name.now request.old.who text) }
    ensures fault { IfErr result IsMemoryOrSizeFault }
{
    append_default_lines(out, review)?;
    if !rules.has_row_of_user(&request.who) {
        return Ok(());
    }
    let (old, new) = (&review.compared.old, &review.compared.new);
    let olds = list_deciding_rows(alloc, old.tables, old.specs.as_slice(), &request.who)?;
    let news = list_deciding_rows(alloc, new.tables, new.specs.as_slice(), &request.who)?;
    let (olds, news) = (olds.as_slice(), news.as_slice());
    let marks = mark_changed_rows(alloc, CountedChanges::All, olds, news)?;
    let went = list_marked_rows(alloc, olds, marks.gone.as_slice())?;
    let came = list_marked_rows(alloc, news, marks.came.as_slice())?;
    append_user_row_lines(
        alloc,
        out,
        RuleChange::Went,
        old.policy,
        went.as_slice(),
        review,
        request,
        left,
    )?;
    append_user_row_lines(
        alloc,
        out,
        RuleChange::Came,
        new.policy,
        came.as_slice(),
        review,
        request,
        left,
    )
}

/// Appends to `out` what the policies of `compared` grant the user `name` of `people` otherwise, at the moment `moment`. `request` is one of his.
/// `rules` are the rows in which the policies differ. Takes from `left` what is looked at for examples.
///
/// # Errors
///
/// `TooLarge`: the lines have more than 16 MiB. `NoMemory`: memory ran out.
pub fn append_user_changes(
    alloc: Global,
    out: &mut ChangeLines,
    compared: &ComparedPolicies<'_>,
    rules: &ChangedRules<'_>,
    people: &People,
    name: &[u8],
    moment: u64,
    request: &mut Request,
    left: &mut usize,
) -> Result<(), CompareFault>
    requires compared { IsReadyComparison compared.now }
    requires rules { AreChangedRules compared.now rules.now }
    ensures text { OnOk result ((text : List ℕ) × (out.new.text.items ≡ out.old.text.items ++ text)
        × IsUserChangesText (old_policy compared.now) (new_policy compared.now) moment name.now request.old.who text) }
    ensures fault { IfErr result IsMemoryOrSizeFault }
{
    let review = UserReview {
        compared,
        people,
        name,
        old_default: find_runas_default_for(alloc, &compared.old_walk, &request.who)?,
        new_default: find_runas_default_for(alloc, &compared.new_walk, &request.who)?,
        moment,
    };
    append_changes_of_review(alloc, out, &review, rules, request, left)
}
