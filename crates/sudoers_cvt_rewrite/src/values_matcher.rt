//! Lists that allow a value of a filter, or name one.

ghost use Rattle.std.specs.Prelude.{◌≡◌, ◌≤◌, ◌∷◌, [], true, length, IfOk, IfSome, OnOk};
ghost use Rattle.std.specs.List.{list_any};
ghost use Rattle.sudoers_grammar.specs.declared.node.Kind.{Kind as KindOf};
ghost use Rattle.sudoers_line_rows.specs.Tables.{member_in_tables};
ghost use Rattle.sudoers_line_rows.specs.View.{members_of_view};
ghost use Rattle.sudoers_match_list.specs.Search.{IsValidVerdictCache};
ghost use Rattle.sudoers_match.specs.internal.Straight.{LeadsToNoCyclicAlias};
ghost use Rattle.sudoers_cvt_rewrite.specs.Filter.{last_hit_in_expanded_list, is_allowing_hit};
ghost use Rattle.sudoers_cvt_rewrite.specs.internal.Values.{IsEffectOfLastAtoms, is_atom_matching_value, signed_atoms_of_expanded_list};
ghost use Rattle.sudoers_cvt_rewrite.specs.internal.Matcher.{AreValidVerdictCaches, AreCachesOfValuesValid, HasVerdictCacheAt, IsValidValuesMatcher, is_any_value_matched_or_allowed};

use crate::filter_atom_matching::{
    AnyValueMatching, GroupNameMatching, HostNameMatching, UserNameMatching,
};
use crate::filter_text::FilterKey;
use crate::filter_values::FilterValues;
use crate::member_effects::MemberEffect;
use std::alloc::{AllocError, Global};
use std::slice;
use sudoers_grammar::Items;
use sudoers_match_list::{AcyclicWalk, AliasVerdictCache, LastHitOrCycle, MemberHit, MemberKind};
use sudoers_names::NameSet;
use sudoers_tree::{Kind, MemberRow, RowsOfTable, Tables};

/// The values of a filter with one key, and what is known of the aliases: for any of the values, and for as many of them as were asked
/// for one by one. It is of no use after an error.
#[derive(Drop)]
pub struct ValuesMatcher<'a> {
    pub values: FilterValues,
    any: AliasVerdictCache<'a>,
    each: Vec<AliasVerdictCache<'a>>,
}

/// Returns what the list `members` says of `asked`. The list leads to no cyclic alias.
fn find_filter_hit<'a, K: MemberKind>(
    verdicts: &mut AliasVerdictCache<'a>,
    policy: &AcyclicWalk<'a>,
    kind: Kind,
    members: &RowsOfTable<'_, MemberRow>,
    asked: &K::Asked,
) -> Result<Option<MemberHit>, AllocError>
    requires verdicts { IsValidVerdictCache kind policy.now (K.test asked.now) verdicts.old }
    requires straight { LeadsToNoCyclicAlias kind policy.now (members_of_view members.now) }
    ensures kept { IfOk result (λ _. IsValidVerdictCache kind policy.now (K.test asked.now) verdicts.new) }
    ensures hit { IfOk result (λ hit. last_hit_in_expanded_list policy.now kind (K.test asked.now) (members_of_view members.now) ≡ hit) }
{
    // laws
    policy.is_acyclic();
    match verdicts.find_last_hit::<K>(policy.definition_numbers(), kind, members, asked)? {
        LastHitOrCycle::Latest(hit) => Ok(hit),
        LastHitOrCycle::Cyclic => unreachable!(),
    }
}

/// Returns whether `hit` is one that allows.
fn is_allowing(hit: Option<MemberHit>) -> bool
    ensures { result ≡ is_allowing_hit hit }
{
    match hit {
        Some(hit) => hit.allow,
        None => false,
    }
}

/// Adds verdicts that hold no alias yet, if there are none at the place `at`.
fn add_verdict_cache_if_missing<'a>(
    alloc: Global,
    policy: &AcyclicWalk<'a>,
    at: usize,
    verdicts: &mut Vec<AliasVerdictCache<'a>>,
) -> Result<(), AllocError>
    requires { at ≤ length verdicts.old.items }
    ensures { OnOk result (HasVerdictCacheAt policy.now at verdicts.old.items verdicts.new.items) }
{
    if at < verdicts.len() {
        return Ok(());
    }
    verdicts.push(policy.make_verdict_cache(alloc)?)?;
    Ok(())
}

/// Returns whether the list `members` allows one of the values, each of which is asked for. The list leads to no cyclic alias.
fn has_allowed_value<'a, K: MemberKind>(
    alloc: Global,
    verdicts: &mut Vec<AliasVerdictCache<'a>>,
    policy: &AcyclicWalk<'a>,
    kind: Kind,
    values: &[K::Asked],
    members: &RowsOfTable<'_, MemberRow>,
) -> Result<bool, AllocError>
    requires verdicts { AreValidVerdictCaches kind policy.now K.test values.now verdicts.old.items }
    requires straight { LeadsToNoCyclicAlias kind policy.now (members_of_view members.now) }
    ensures kept { IfOk result (λ _. AreValidVerdictCaches kind policy.now K.test values.now verdicts.new.items) }
    ensures says { IfOk result (λ says. says ≡ list_any (λ value. is_allowing_hit (last_hit_in_expanded_list policy.now kind (K.test value) (members_of_view members.now))) values.now) }
{
    for (n, value) in values.iter().enumerate() {
        add_verdict_cache_if_missing(alloc, policy, n, verdicts)?;
        let hit = find_filter_hit::<K>(&mut verdicts[n], policy, kind, members, value)?;
        if is_allowing(hit) {
            return Ok(true);
        }
    }
    Ok(false)
}

/// Returns what [`has_allowed_value`] does, whatever the key of the values.
fn has_allowed_value_of_key<'a>(
    values: &FilterValues,
    verdicts: &mut Vec<AliasVerdictCache<'a>>,
    policy: &AcyclicWalk<'a>,
    kind: Kind,
    members: &RowsOfTable<'_, MemberRow>,
) -> Result<bool, AllocError>
    requires verdicts { AreValidVerdictCaches kind policy.now (is_atom_matching_value values.now.key) values.now.names.items verdicts.old.items }
    requires straight { LeadsToNoCyclicAlias kind policy.now (members_of_view members.now) }
    ensures kept { IfOk result (λ _. AreValidVerdictCaches kind policy.now (is_atom_matching_value values.now.key) values.now.names.items verdicts.new.items) }
    ensures says { IfOk result (λ says. says ≡ list_any (λ value. is_allowing_hit (last_hit_in_expanded_list policy.now kind (is_atom_matching_value values.now.key value) (members_of_view members.now))) values.now.names.items) }
{
    let alloc = values.alloc;
    let names = values.names.as_slice();
    match values.key {
        FilterKey::User => {
            has_allowed_value::<UserNameMatching>(alloc, verdicts, policy, kind, names, members)
        }
        FilterKey::Group => {
            has_allowed_value::<GroupNameMatching>(alloc, verdicts, policy, kind, names, members)
        }
        FilterKey::Host => {
            has_allowed_value::<HostNameMatching>(alloc, verdicts, policy, kind, names, members)
        }
    }
}

impl<'a> ValuesMatcher<'a> {
    /// Returns a matcher of `values`, which have the key `key`. It knows no alias yet.
    ///
    /// # Errors
    ///
    /// Memory ran out.
    pub fn new(
        alloc: Global,
        policy: &AcyclicWalk<'a>,
        key: FilterKey,
        values: &[Items<u8>],
    ) -> Result<ValuesMatcher<'a>, AllocError>
        ensures { IfOk result (λ matcher. (kind : KindOf) → IsValidValuesMatcher kind policy.now key values.now matcher) }
    {
        Ok(ValuesMatcher {
            values: FilterValues::new(alloc, key, values)?,
            any: policy.make_verdict_cache(alloc)?,
            each: Vec::new(alloc),
        })
    }

    /// Returns what the last member of a list says of the values outside `denied`. Adds the values that it denies to `denied`. The member
    /// leads to no cyclic alias.
    fn decide_last_row(
        &mut self,
        policy: &AcyclicWalk<'a>,
        kind: Kind,
        tables: &Tables,
        row: &MemberRow,
        denied: &mut NameSet,
    ) -> Result<MemberEffect, AllocError>
        requires caches { AreCachesOfValuesValid kind policy.now self.old }
        requires straight { LeadsToNoCyclicAlias kind policy.now (member_in_tables tables.now row.now ∷ []) }
        ensures kept { IfOk result (λ _. AreCachesOfValuesValid kind policy.now self.new) }
        ensures values { self.new.values ≡ self.old.values }
        ensures effect { IfOk result (λ effect. IsEffectOfLastAtoms self.old.values.key self.old.values.names.items denied.old denied.new
            (signed_atoms_of_expanded_list policy.now kind (member_in_tables tables.now row.now ∷ [])) effect) }
    {
        let rows = slice::from_ref(row);
        let one = RowsOfTable { tables, rows };
        let any = &mut self.any;
        match find_filter_hit::<AnyValueMatching>(any, policy, kind, &one, &self.values)? {
            None => Ok(MemberEffect::Nothing),
            Some(hit) => {
                let member = tables.member_of_row(row);
                self.values
                    .decide_last_member(policy, kind, &member, hit, denied)
            }
        }
    }

    /// Returns whether the list `members` allows one of the values, if that is known from the names of its members, of which the last
    /// comes first. The list leads to no cyclic alias.
    fn find_answer_by_names(
        &mut self,
        policy: &AcyclicWalk<'a>,
        kind: Kind,
        members: &RowsOfTable<'_, MemberRow>,
    ) -> Result<Option<bool>, AllocError>
        requires caches { AreCachesOfValuesValid kind policy.now self.old }
        requires straight { LeadsToNoCyclicAlias kind policy.now (members_of_view members.now) }
        ensures kept { IfOk result (λ _. AreCachesOfValuesValid kind policy.now self.new) }
        ensures values { self.new.values ≡ self.old.values }
        ensures says { IfOk result (λ answer. IfSome answer (λ says. says ≡ is_any_value_matched_or_allowed true policy.now kind (is_atom_matching_value self.old.values.key) self.old.values.names.items (members_of_view members.now))) }
    {
        let mut denied = NameSet::new(self.values.alloc);
        let mut left = members.rows.len();
        while left > 0 {
            left -= 1;
            let row = &members.rows[left];
            match self.decide_last_row(policy, kind, members.tables, row, &mut denied)? {
                MemberEffect::Nothing => {}
                MemberEffect::Answer(says) => return Ok(Some(says)),
                MemberEffect::Unknown => return Ok(None),
            }
        }
        Ok(Some(false))
    }

    /// Returns whether the list `members` allows one of the values. The list leads to no cyclic alias.
    fn allows_value(
        &mut self,
        policy: &AcyclicWalk<'a>,
        kind: Kind,
        members: &RowsOfTable<'_, MemberRow>,
    ) -> Result<bool, AllocError>
        requires caches { AreCachesOfValuesValid kind policy.now self.old }
        requires straight { LeadsToNoCyclicAlias kind policy.now (members_of_view members.now) }
        ensures kept { IfOk result (λ _. AreCachesOfValuesValid kind policy.now self.new) }
        ensures values { self.new.values ≡ self.old.values }
        ensures says { IfOk result (λ says. says ≡ is_any_value_matched_or_allowed true policy.now kind (is_atom_matching_value self.old.values.key) self.old.values.names.items (members_of_view members.now)) }
    {
        match self.find_answer_by_names(policy, kind, members)? {
            Some(says) => Ok(says),
            None => {
                has_allowed_value_of_key(&self.values, &mut self.each, policy, kind, members)
            }
        }
    }

    /// Returns whether the list `members` allows one of the values if `allowing`, or else names one. The list leads to no cyclic alias.
    ///
    /// # Errors
    ///
    /// Memory ran out.
    pub fn matches_or_allows_value(
        &mut self,
        policy: &AcyclicWalk<'a>,
        kind: Kind,
        members: &RowsOfTable<'_, MemberRow>,
        allowing: bool,
    ) -> Result<bool, AllocError>
        requires caches { AreCachesOfValuesValid kind policy.now self.old }
        requires straight { LeadsToNoCyclicAlias kind policy.now (members_of_view members.now) }
        ensures kept { IfOk result (λ _. AreCachesOfValuesValid kind policy.now self.new) }
        ensures values { self.new.values ≡ self.old.values }
        ensures says { IfOk result (λ says. says ≡ is_any_value_matched_or_allowed allowing policy.now kind (is_atom_matching_value self.old.values.key) self.old.values.names.items (members_of_view members.now)) }
    {
        if allowing {
            return self.allows_value(policy, kind, members);
        }
        let hit = find_filter_hit::<AnyValueMatching>(
            &mut self.any,
            policy,
            kind,
            members,
            &self.values,
        )?;
        Ok(hit.is_some())
    }
}
