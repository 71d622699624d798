//! The names that were seen.

ghost use Rattle.std.specs.Prelude.{◌≡◌, ◌∷◌, [], not, ◌||◌, List, ℕ, IfOk, OnOk};
ghost use Rattle.std.specs.Str.{bytes_eq};
ghost use Rattle.sudoers_grammar.specs.declared.node.Kind.{Kind as KindOf};
ghost use Rattle.sudoers_check.specs.internal.Seen.{key_of_kind_and_name, is_name_key_among_keys};

use indexmap::IndexSet;
use std::alloc::{AllocError, Global};
use std::marker::Model;
use sudoers_tree::Kind;

/// Names with their kinds.
#[derive(Drop)]
pub struct SeenAliasNames {
    keys: IndexSet<Vec<u8>>,
}

impl Model for SeenAliasNames {
    ghost use Rattle.std.specs.Prelude.{ℕ, List, map};

    ghost Value = { List (List ℕ) };

    ghost view = { λ seen. map (λ key. key.items) seen.keys.keys };
}

impl SeenAliasNames {
    /// Returns the set without names.
    pub fn new(alloc: Global) -> SeenAliasNames
        ensures { result ≡ [] }
    {
        SeenAliasNames {
            keys: IndexSet::new(alloc),
        }
    }

    /// Inserts the name `name` of kind `kind`. Returns true if it is new.
    ///
    /// # Errors
    ///
    /// A growth of memory was refused.
    pub fn add_alias_name(
        &mut self,
        alloc: Global,
        kind: Kind,
        name: &[u8],
    ) -> Result<bool, AllocError>
        ensures new { IfOk result (λ is_new. is_new ≡ not (is_name_key_among_keys self.old kind name.now)) }
        ensures added { OnOk result ((k : KindOf) (other : List ℕ) → is_name_key_among_keys self.new k other
            ≡ is_name_key_among_keys self.old k other || bytes_eq (key_of_kind_and_name k other) (key_of_kind_and_name kind name.now)) }
    {
        let key = key_of_name(alloc, kind, name)?;
        Ok(self.keys.insert(key)?)
    }
}

/// Returns the name behind a byte for its kind.
fn key_of_name(alloc: Global, kind: Kind, name: &[u8]) -> Result<Vec<u8>, AllocError>
    ensures { IfOk result (λ bytes. bytes.items ≡ key_of_kind_and_name kind name.now) }
{
    let mut key = Vec::with_capacity(alloc, name.len().saturating_add(1))?;
    key.push(byte_of_kind(kind))?;
    key.extend_from_slice(name)?;
    Ok(key)
}

fn byte_of_kind(kind: Kind) -> u8
    ensures { key_of_kind_and_name kind [] ≡ result ∷ [] }
{
    match kind {
        Kind::User => b'u',
        Kind::Runas => b'r',
        Kind::Host => b'h',
        Kind::Cmnd => b'c',
    }
}
