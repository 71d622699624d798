//! The values of a filter with one key.

ghost use Rattle.std.specs.Prelude.{◌≡◌, ◌||◌, ℕ, Bool, List, false, map, not, IfOk, IfSome, OnOk};
ghost use Rattle.sudoers_grammar.specs.Pattern.{is_special_in_patterns};
ghost use Rattle.std.specs.List.{list_any};
ghost use Rattle.std.specs.Str.{str_to_ascii_lowercase};
ghost use Rattle.sudoers_match_member.specs.Hits.{is_name_equal_ignoring_case};
ghost use Rattle.sudoers_cvt_rewrite.specs.Filter.{host_name_before_dot, is_host_pattern_match};
ghost use Rattle.sudoers_cvt_rewrite.specs.internal.SameNames.{AreSameNamesIgnoringCase, is_name_denied};

use crate::filter_atom_matching::{cut_host_at_first_dot, is_any_host_matched};
use crate::filter_text::FilterKey;
use std::alloc::{AllocError, Global};
use sudoers_grammar::Items;
use sudoers_match_member::is_same_name_ignoring_case;
use sudoers_names::NameSet;

/// So many values are compared one by one.
const FEW_VALUES: usize = 4;

/// The values of a filter with one key, each once, letter case ignored. In lower case are their names, and these up to the first dot.
#[derive(Drop)]
pub struct FilterValues {
    pub key: FilterKey,
    pub names: Vec<Items<u8>>,
    pub alloc: Global,
    lower: NameSet,
    short: NameSet,
    ghost same: { lower ≡ map str_to_ascii_lowercase names.items },
    ghost short_are: { (test : List ℕ → Bool) → list_any test short ≡ list_any (λ name. test (str_to_ascii_lowercase (host_name_before_dot name))) names.items },
}

/// Adds the name `value` up to its first dot, in lower case.
fn add_name_before_dot(alloc: Global, value: &[u8], short: &mut NameSet) -> Result<(), AllocError>
    ensures { OnOk result ((test : List ℕ → Bool) → list_any test short.new ≡ (list_any test short.old || test (str_to_ascii_lowercase (host_name_before_dot value.now)))) }
{
    let folded = cut_host_at_first_dot(value).to_ascii_lowercase(alloc)?;
    short.add(alloc, folded.as_slice())?;
    Ok(())
}

impl FilterValues {
    /// Returns `values`, which have the key `key`.
    ///
    /// # Errors
    ///
    /// Memory ran out.
    pub fn new(
        alloc: Global,
        key: FilterKey,
        values: &[Items<u8>],
    ) -> Result<FilterValues, AllocError>
        ensures key { IfOk result (λ all. all.key ≡ key) }
        ensures same { IfOk result (λ all. AreSameNamesIgnoringCase all.names.items values.now) }
    {
        let mut names = Vec::new(alloc);
        let mut lower = NameSet::new(alloc);
        let mut short = NameSet::new(alloc);
        for value in values {
            let folded = value.as_slice().to_ascii_lowercase(alloc)?;
            if lower.add(alloc, folded.as_slice())? {
                names.push(Items::from_vec(Vec::from_slice(alloc, value.as_slice())?))?;
                add_name_before_dot(alloc, value.as_slice(), &mut short)?;
            }
        }
        Ok(FilterValues {
            key,
            names,
            alloc,
            lower,
            short,
        })
    }

    /// Returns the name `name` in lower case, to look it up. There is none without memory, nor where few values are sooner compared.
    fn fold_to_look_up(&self, name: &[u8]) -> Option<Vec<u8>>
        ensures { IfSome result (λ folded. folded.items ≡ str_to_ascii_lowercase name.now) }
    {
        if self.names.len() <= FEW_VALUES {
            return None;
        }
        match name.to_ascii_lowercase(self.alloc) {
            Ok(folded) => Some(folded),
            Err(_) => None,
        }
    }

    /// Returns whether `name` is one of the values, letter case ignored.
    pub fn has_name(&self, name: &[u8]) -> bool
        ensures { result ≡ list_any (is_name_equal_ignoring_case name.now) self.now.names.items }
    {
        match self.fold_to_look_up(name) {
            Some(folded) => self.lower.has(folded.as_slice()),
            None => {
                self.names
                    .iter()
                    .any(|value| is_same_name_ignoring_case(name, value.as_slice()))
            }
        }
    }

    /// Returns whether the pattern `pattern`, which has no wildcard, matches a host of one of these names.
    pub fn has_host(&self, pattern: &[u8]) -> bool
        requires { list_any is_special_in_patterns pattern.now ≡ false }
        ensures { result ≡ list_any (λ name. is_host_pattern_match name pattern.now) self.now.names.items }
    {
        if pattern.contains(&b'.') {
            return self.has_name(pattern);
        }
        match self.fold_to_look_up(pattern) {
            Some(folded) => self.short.has(folded.as_slice()),
            None => is_any_host_matched(self.names.as_slice(), pattern),
        }
    }

    /// Returns whether one of the values is not among `denied`, which are in lower case.
    ///
    /// # Errors
    ///
    /// Memory ran out.
    pub fn has_name_outside(&self, denied: &NameSet) -> Result<bool, AllocError>
        ensures { IfOk result (λ has. has ≡ list_any (λ name. not (is_name_denied denied.now name)) self.now.names.items) }
    {
        for value in self.names.as_slice() {
            let folded = value.as_slice().to_ascii_lowercase(self.alloc)?;
            if !denied.has(folded.as_slice()) {
                return Ok(true);
            }
        }
        Ok(false)
    }
}
