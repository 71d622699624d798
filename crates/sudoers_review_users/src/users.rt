//! What two policies grant users otherwise.

ghost use Rattle.std.specs.Prelude.{◌≡◌, ◌⊎◌, ◌++◌, ℕ, List, Err, IfOk, IfErr, OnOk};
ghost use Rattle.sudoers_check.specs.Chains.{HasCyclicAliasReachedFromSpecOrDefaults};
ghost use Rattle.sudoers_review.specs.declared.compare_fault.CompareFault.TheVariants.{Cycle};
ghost use Rattle.sudoers_review_users.specs.declared.users_fault.UserChangesFault.TheVariants.{Compare};
ghost use Rattle.sudoers_review_users.specs.AllUsers.{IsTextOfNamedUser, IsTextOfNamedUsers};
ghost use Rattle.sudoers_review_users.specs.Faults.{IsFaultOfNamedUser, IsFaultOfNamedUsers, IsMemoryOrSizeFaultForUsers};
ghost use Rattle.sudoers_review_users.specs.Ready.{new_policy, old_policy, AreChangedRules, IsReadyComparison};

use crate::changed_rules::ChangedRules;
use crate::compared_policies::ComparedPolicies;
use crate::example_requests::MOST_LOOKED_AT;
use crate::left_rules::{LeftRulesAsked, TakenRules, list_left_rules};
use crate::user_changes::append_user_changes;
use crate::users_fault::UserChangesFault;
use std::alloc::Global;
use sudoers_grammar::Items;
use sudoers_list_people::{People, who_for};
use sudoers_match::{Groups, Person, Request, Who};
use sudoers_review::{ChangeLines, list_changed_other_defaults};
use sudoers_tree::Policy;

/// The users for whom two policies are compared, and where and when.
#[derive(Clone, Copy)]
pub struct AskedUsers<'w> {
    /// Their names.
    pub names: &'w [Items<u8>],
    /// Whether these are all users of the machine.
    pub are_all: bool,
    /// The long name of the host.
    pub host: &'w [u8],
    /// The interfaces of the host: `ADDRESS/BITS`, joined by `,`.
    pub interfaces: &'w [u8],
    /// The moment of examples, as a number of 14 digits in UTC.
    pub moment: u64,
}

/// What is printed of users whom two policies grant something otherwise.
#[derive(Drop)]
pub struct UserChanges {
    /// The lines of each user.
    pub users: ChangeLines,
    /// The rules that changed and are of none of the users, or are not decided, behind a heading.
    pub left: ChangeLines,
    /// The lines on other parameters of Defaults, behind a heading. No answer depends on them.
    pub others: ChangeLines,
}

/// Returns a request of `who` at the moment `now`, which asks for nothing yet.
fn make_empty_request(alloc: Global, who: Who, now: u64) -> Request
    ensures { result.who ≡ who }
{
    Request {
        who,
        target: Person {
            name: Items::new(alloc),
            uid: 0,
            groups: Groups::new(alloc),
        },
        target_group: None,
        command: Items::new(alloc),
        args: Items::new(alloc),
        moment: now,
    }
}

/// Appends to `out` what the policies of `compared` grant the user `name` of `people` otherwise. Takes his rows among `rules`, in
/// which the policies differ, and from `left` what is looked at for examples.
fn append_changes_of_named_user(
    alloc: Global,
    out: &mut ChangeLines,
    compared: &ComparedPolicies<'_>,
    people: &People,
    asked: &AskedUsers<'_>,
    name: &[u8],
    rules: &ChangedRules<'_>,
    taken: &mut TakenRules,
    left: &mut usize,
) -> Result<(), UserChangesFault>
    requires compared { IsReadyComparison compared.now }
    requires rules { AreChangedRules compared.now rules.now }
    ensures text { OnOk result ((text : List ℕ) × (out.new.text.items ≡ out.old.text.items ++ text)
        × IsTextOfNamedUser (old_policy compared.now) (new_policy compared.now) asked.now.moment people.now asked.now.host.now asked.now.interfaces.now name.now text) }
    ensures fault { IfErr result (λ fault. IsMemoryOrSizeFaultForUsers fault ⊎ IsFaultOfNamedUser people.now asked.now.host.now asked.now.interfaces.now name.now fault) }
{
    let who = who_for(alloc, people, name, asked.host, asked.interfaces)?;
    taken.take_rules_of(rules, &who);
    let mut request = make_empty_request(alloc, who, asked.moment);
    append_user_changes(
        alloc,
        out,
        compared,
        rules,
        people,
        name,
        asked.moment,
        &mut request,
        left,
    )?;
    Ok(())
}

/// Returns the lines of the users `asked.names` of `people`, in their order, on what the policies of `compared` grant them
/// otherwise. Takes their rows among `rules`, in which the policies differ.
fn list_changes_of_users(
    alloc: Global,
    compared: &ComparedPolicies<'_>,
    people: &People,
    asked: &AskedUsers<'_>,
    rules: &ChangedRules<'_>,
    taken: &mut TakenRules,
) -> Result<ChangeLines, UserChangesFault>
    requires compared { IsReadyComparison compared.now }
    requires rules { AreChangedRules compared.now rules.now }
    ensures text { IfOk result (λ lines. IsTextOfNamedUsers (old_policy compared.now) (new_policy compared.now) asked.now.moment people.now asked.now.host.now asked.now.interfaces.now asked.now.names.now lines.text.items) }
    ensures fault { IfErr result (λ fault. IsMemoryOrSizeFaultForUsers fault ⊎ IsFaultOfNamedUsers people.now asked.now.host.now asked.now.interfaces.now asked.now.names.now fault) }
{
    let mut out = ChangeLines::new(alloc);
    let mut left = MOST_LOOKED_AT;
    for name in asked.names {
        append_changes_of_named_user(
            alloc,
            &mut out,
            compared,
            people,
            asked,
            name.as_slice(),
            rules,
            taken,
            &mut left,
        )?;
    }
    Ok(out)
}

/// Returns what is printed of the users `asked.names` of `people`, for whom the policies of `compared` are compared.
fn list_changes_of_compared(
    alloc: Global,
    compared: &ComparedPolicies<'_>,
    people: &People,
    asked: &AskedUsers<'_>,
) -> Result<UserChanges, UserChangesFault>
    requires { IsReadyComparison compared.now }
    ensures users { IfOk result (λ changes. IsTextOfNamedUsers (old_policy compared.now) (new_policy compared.now) asked.now.moment people.now asked.now.host.now asked.now.interfaces.now asked.now.names.now changes.users.text.items) }
    ensures fault { IfErr result (λ fault. IsMemoryOrSizeFaultForUsers fault ⊎ IsFaultOfNamedUsers people.now asked.now.host.now asked.now.interfaces.now asked.now.names.now fault) }
{
    let rules = ChangedRules::new(alloc, compared)?;
    let mut taken = TakenRules::new(alloc, &rules)?;
    let users = list_changes_of_users(alloc, compared, people, asked, &rules, &mut taken)?;
    let left = list_left_rules(
        alloc,
        compared,
        &rules,
        &taken,
        LeftRulesAsked {
            is_everyone_asked: asked.are_all,
            has_interfaces: !asked.interfaces.is_empty(),
        },
    )?;
    let others = list_changed_other_defaults(alloc, &compared.old, &compared.new)?;
    Ok(UserChanges {
        users,
        left,
        others,
    })
}

/// Returns what `old` and `new` grant users of `people` otherwise on a host: of each user the rows that went behind `-`, and those that came
/// behind `+`, without those that a later one is found to cover. Each has an example, if one is found: a command that the policies answer
/// otherwise. A user without a line has the same answers in both, to each command, as each target and at each moment.
///
/// # Errors
///
/// `Compare(Cycle)`: a reachable alias of a policy is cyclic. `Compare(TooLarge)`: in one of them more than 65,536 members come in the place of
/// aliases, or the lines have more than 16 MiB. `Compare(NoMemory)`: memory ran out. `Who(NoUser)`: no user has a name of `asked`.
/// `Who(BadAddress)`: the interfaces are not in their form.
pub fn list_user_changes(
    alloc: Global,
    old: &Policy,
    new: &Policy,
    people: &People,
    asked: &AskedUsers<'_>,
) -> Result<UserChanges, UserChangesFault>
    ensures users { IfOk result (λ changes. IsTextOfNamedUsers old.now new.now asked.now.moment people.now asked.now.host.now asked.now.interfaces.now asked.now.names.now changes.users.text.items) }
    ensures straight { IfOk result (λ _. (HasCyclicAliasReachedFromSpecOrDefaults old.now.walk.lines → ⊥) × (HasCyclicAliasReachedFromSpecOrDefaults new.now.walk.lines → ⊥)) }
    ensures fault { IfErr result (λ fault. IsMemoryOrSizeFaultForUsers fault ⊎ (((fault ≡ Compare Cycle)
        × (HasCyclicAliasReachedFromSpecOrDefaults old.now.walk.lines ⊎ HasCyclicAliasReachedFromSpecOrDefaults new.now.walk.lines))
        ⊎ IsFaultOfNamedUsers people.now asked.now.host.now asked.now.interfaces.now asked.now.names.now fault)) }
{
    let compared = ComparedPolicies::new(alloc, old, new)?;
    list_changes_of_compared(alloc, &compared, people, asked)
}
