//! The files of an included folder.

ghost use Rattle.std.specs.Prelude.{◌≡◌, ◌++◌, ◌∷◌, [], ℕ, Vec, map, IfOk, OnOk};
ghost use Rattle.std.specs.Cmp.Lexicographic.{slice_cmp};
ghost use Rattle.std.specs.BTreeSet.{insert_key};
ghost use Rattle.std.specs.Ordering.{nat_cmp};
ghost use Rattle.std.specs.declared.alloc.Global.{Global as GlobalOf};
ghost use Rattle.sudoers_files.specs.Folder.{sorted_names_with_names_inserted, file_name_of_base_in_folder, sorted_file_names_in_folder};

use std::alloc::{AllocError, Global};
use std::collections::BTreeSet;
use sudoers_tree::Items;

/// Returns the whole name of the file `base` in the folder `dir`.
fn join_folder_and_base(alloc: Global, dir: &[u8], base: &[u8]) -> Result<Items<u8>, AllocError>
    ensures { IfOk result (λ name. name ≡ file_name_of_base_in_folder dir.now base.now) }
{
    let mut name = Vec::from_slice(alloc, dir)?;
    name.push(b'/')?;
    name.extend_from_slice(base)?;
    Ok(Items::from_vec(name))
}

/// Returns the names `names` in the order of their bytes, each once.
///
/// # Errors
///
/// Memory ran out.
pub fn sort_unique_names(
    alloc: Global,
    names: &[Items<u8>],
) -> Result<BTreeSet<Vec<u8>>, AllocError>
    ensures { IfOk result (λ order. map (λ (name : Vec ℕ GlobalOf). name.items) order.keys ≡ sorted_names_with_names_inserted [] names.now) }
{
    let mut order = BTreeSet::new(alloc);
    for name in names {
        insert_name_in_order(alloc, name.as_slice(), &mut order)?;
    }
    Ok(order)
}

/// Inserts the name `name` into `order`, whose names are in the order of their bytes.
fn insert_name_in_order(
    alloc: Global,
    name: &[u8],
    order: &mut BTreeSet<Vec<u8>>,
) -> Result<(), AllocError>
    ensures { OnOk result (map (λ (name : Vec ℕ GlobalOf). name.items) order.new.keys
        ≡ insert_key (slice_cmp nat_cmp) (map (λ (name : Vec ℕ GlobalOf). name.items) order.old.keys) name.now) }
{
    order.insert(Vec::from_slice(alloc, name)?)?;
    Ok(())
}

/// Returns the whole names of the files `bases` of the folder `dir`, in the order of their bytes.
///
/// # Errors
///
/// Memory ran out.
pub fn sort_bases_and_join_folder(
    alloc: Global,
    dir: &[u8],
    bases: &[Items<u8>],
) -> Result<Vec<Items<u8>>, AllocError>
    ensures { IfOk result (λ names. names.items ≡ sorted_file_names_in_folder dir.now bases.now) }
{
    let mut order = sort_unique_names(alloc, bases)?;
    let mut names = Vec::new(alloc);
    while let Some(base) = order.pop_first() {
        names.push(join_folder_and_base(alloc, dir, base.as_slice())?)?;
    }
    Ok(names)
}
