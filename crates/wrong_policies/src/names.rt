//! The names of a policy: their definitions and mentions.

ghost use Rattle.std.specs.Prelude.{◌≡◌, false, slice_get, Some, IfOk};
ghost use Rattle.sudoers_tree.specs.ChangedFiles.{AreApplicableChanges};
ghost use Rattle.sudoers_tree.specs.FilePlaces.{mention_file_spans, file_place_of_definition};
ghost use Rattle.sudoers_tree.specs.Files.{lines_of_numbered_file};
ghost use Rattle.sudoers_tree.specs.Line.{Line as LineOf};
ghost use Rattle.sudoers_tree.specs.Standing.{IsAliasNameAbsent};

use std::alloc::AllocError;
use sudoers_tree::{
    DefinitionFilePlace, FileSpan, Kind, LineChange, LoadFault, NameFilterBits, Policy,
};

/// Returns where the alias `name` of `kind` is defined.
pub fn definition_of(policy: &Policy, kind: Kind, name: &[u8]) -> Option<DefinitionFilePlace>
    ensures { result ≡ file_place_of_definition kind name.now policy.now.walk }
{
    policy.definition(kind, name)
}

/// Makes the changes `changes` of the lines of the files of `policy` at once. Returns where the alias `name` of `kind` is defined then.
///
/// # Errors
///
/// The first fault of the changed files, or memory ran out.
pub fn find_definition_after_changes(
    policy: &mut Policy,
    changes: &[LineChange],
    kind: Kind,
    name: &[u8],
) -> Result<Option<DefinitionFilePlace>, LoadFault>
    requires { AreApplicableChanges changes.now policy.old.files }
    ensures { IfOk result (λ found. found ≡ file_place_of_definition kind name.now policy.new.walk) }
{
    policy.changed(changes)?;
    Ok(policy.definition(kind, name))
}

/// Returns the mentions of the alias `name` of `kind`.
///
/// # Errors
///
/// Memory ran out.
pub fn mentions_of(policy: &Policy, kind: Kind, name: &[u8]) -> Result<Vec<FileSpan>, AllocError>
    ensures { IfOk result (λ spans. spans.items ≡ mention_file_spans kind name.now policy.now.walk) }
{
    policy.mentions(kind, name)
}

/// Returns whether an alias of the name `name` may stand in the line with the number `line` of the file with the number `file`, both
/// from 0.
pub fn may_stand(policy: &Policy, file: usize, line: usize, name: &[u8]) -> bool
    ensures { (says : LineOf) → result ≡ false → slice_get (lines_of_numbered_file policy.now.files file) line ≡ Some says → IsAliasNameAbsent name.now says.node }
{
    policy.may_have_alias_with_bits_in_line(file, line, NameFilterBits::from_alias_name(name))
}
