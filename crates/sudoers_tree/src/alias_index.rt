//! The index of the names of aliases.

ghost use Rattle.std.specs.Prelude.{◌≡◌, ◌<◌, [], ◌∷◌, ◌++◌, if◌then◌else◌, List, None, Ok, length, IfOk, IfErr, OnErr, OnOk, drop};
ghost use Rattle.sudoers_grammar.specs.declared.node.Kind.{Kind as KindOf};
ghost use Rattle.sudoers_line_rows.specs.View.{alias_definitions_of_view, node_of_view};
ghost use Rattle.sudoers_tree.specs.Definition.{PlacedDefinition, definitions_from_place, definitions_in_line, is_equal_kind};
ghost use Rattle.sudoers_tree.specs.Load.{reserved_name_fault_of_definitions};
ghost use Rattle.sudoers_tree.specs.internal.Index.{place_of_named_entry, index_entries_of_kind, IsIndexOfDefinitions, fault_of_new_entry, entries_with_definitions, entries_after_update, index_after_update, IsEntryOutcome, IsIndexEntryOutcome};
ghost use Rattle.std.specs.List.{All};
ghost use Rattle.std.specs.Prelude.{map};
ghost use Rattle.sudoers_tree.specs.internal.InPlace.{HasRoomToMove, IsPlaceWithinReach, moved_entry};
ghost use Rattle.sudoers_tree.specs.internal.Keys.{entries_with_one_renamed};

use crate::alias_names_update::AliasNamesUpdate;
use crate::defined_names::DefinedAliasNames;
use crate::fault::ReadFault;
use crate::moved_lines::LineMove;
use crate::place::Place;
use std::alloc::{AllocError, Global};
use sudoers_grammar::{Items, Kind};
use sudoers_line_rows::{AliasDefinitionRow, Node, RowsOfTable};
use sudoers_text::is_reserved;

/// How many definitions of one kind a policy may have.
pub const ALIAS_LIMIT: usize = 4_096;

/// The names that are defined, by kind.
#[derive(Drop)]
pub struct AliasNameIndex {
    user: DefinedAliasNames,
    runas: DefinedAliasNames,
    host: DefinedAliasNames,
    cmnd: DefinedAliasNames,
}

impl AliasNameIndex {
    /// Returns an index without names.
    pub fn new(alloc: Global) -> AliasNameIndex
        ensures { IsIndexOfDefinitions result [] }
    {
        AliasNameIndex {
            user: DefinedAliasNames::new(alloc),
            runas: DefinedAliasNames::new(alloc),
            host: DefinedAliasNames::new(alloc),
            cmnd: DefinedAliasNames::new(alloc),
        }
    }

    /// Returns the names of the kind `kind`.
    pub fn names_of_alias_kind(&self, kind: Kind) -> &DefinedAliasNames
        ensures { result.now ≡ index_entries_of_kind kind self.now }
    {
        match kind {
            Kind::User => &self.user,
            Kind::Runas => &self.runas,
            Kind::Host => &self.host,
            Kind::Cmnd => &self.cmnd,
        }
    }

    /// Gives the name of the kind `kind` with the number `number`, from 0, the name `name` in its place.
    ///
    /// # Errors
    ///
    /// A growth of memory was refused. The names stay as they are.
    pub fn rename_alias_at(
        &mut self,
        kind: Kind,
        number: usize,
        name: Vec<u8>,
    ) -> Result<(), AllocError>
        requires within { number < length (index_entries_of_kind kind self.old) }
        requires fresh { place_of_named_entry name.items (index_entries_of_kind kind self.old) ≡ None }
        ensures renamed { OnOk result ((k : KindOf) → index_entries_of_kind k self.new
            ≡ (if is_equal_kind k kind then entries_with_one_renamed number name.items (index_entries_of_kind k self.old) else index_entries_of_kind k self.old)) }
        ensures stay { OnErr result (self.new ≡ self.old) }
    {
        match kind {
            Kind::User => self.user.rename_name_at(number, name),
            Kind::Runas => self.runas.rename_name_at(number, name),
            Kind::Host => self.host.rename_name_at(number, name),
            Kind::Cmnd => self.cmnd.rename_name_at(number, name),
        }
    }

    /// Moves the places of all names by `by`, from the line with the number `from` on.
    pub fn move_places(&mut self, from: usize, by: LineMove)
        requires reach { (k : KindOf) → All (λ e. IsPlaceWithinReach e.1) (index_entries_of_kind k self.old) }
        requires room { HasRoomToMove by }
        ensures { (k : KindOf) → index_entries_of_kind k self.new ≡ map (moved_entry from by) (index_entries_of_kind k self.old) }
    {
        self.user.move_places(from, by);
        self.runas.move_places(from, by);
        self.host.move_places(from, by);
        self.cmnd.move_places(from, by);
    }

    /// Puts the names that `new` has beside these in their place. It takes no memory.
    pub fn apply_index_update(&mut self, new: AliasIndexUpdate)
        ensures { self.new ≡ index_after_update self.old new }
    {
        let AliasIndexUpdate {
            user,
            runas,
            host,
            cmnd,
        } = new;
        self.user.apply_names_update(user);
        self.runas.apply_names_update(runas);
        self.host.apply_names_update(host);
        self.cmnd.apply_names_update(cmnd);
    }
}

/// Names that are entered beside those of an index, by kind.
#[derive(Drop)]
pub struct AliasIndexUpdate {
    user: AliasNamesUpdate,
    runas: AliasNamesUpdate,
    host: AliasNamesUpdate,
    cmnd: AliasNamesUpdate,
}

impl AliasIndexUpdate {
    /// Returns no names, with room for the places of those of `known`.
    ///
    /// # Errors
    ///
    /// A growth of memory was refused.
    pub fn new(alloc: Global, known: &AliasNameIndex) -> Result<AliasIndexUpdate, AllocError>
        ensures { IfOk result (λ new. IsIndexOfDefinitions (index_after_update known.now new) []) }
    {
        Ok(AliasIndexUpdate {
            user: AliasNamesUpdate::new(alloc, &known.user)?,
            runas: AliasNamesUpdate::new(alloc, &known.runas)?,
            host: AliasNamesUpdate::new(alloc, &known.host)?,
            cmnd: AliasNamesUpdate::new(alloc, &known.cmnd)?,
        })
    }

    /// Enters the names that the line with the number `line`, from 0, defines, beside those of `known`. The line says `node`.
    ///
    /// # Errors
    ///
    /// The fault of the first name that cannot be entered. `NoMemory`: memory ran out.
    pub fn enter_names_of_line(
        &mut self,
        alloc: Global,
        known: &AliasNameIndex,
        line: usize,
        node: &Node<'_>,
    ) -> Result<(), ReadFault>
        ensures { (before : List PlacedDefinition) → IsIndexOfDefinitions (index_after_update known.now self.old) before
            → IsIndexEntryOutcome result (index_after_update known.now self.new) before (definitions_in_line line (node_of_view node.now)) }
    {
        let Node::Alias { kind, defs } = *node else {
            return Ok(());
        };
        match kind {
            Kind::User => enter_names_of_definitions(
                alloc,
                &known.user,
                &mut self.user,
                Kind::User,
                line,
                &defs,
            ),
            Kind::Runas => enter_names_of_definitions(
                alloc,
                &known.runas,
                &mut self.runas,
                Kind::Runas,
                line,
                &defs,
            ),
            Kind::Host => enter_names_of_definitions(
                alloc,
                &known.host,
                &mut self.host,
                Kind::Host,
                line,
                &defs,
            ),
            Kind::Cmnd => enter_names_of_definitions(
                alloc,
                &known.cmnd,
                &mut self.cmnd,
                Kind::Cmnd,
                line,
                &defs,
            ),
        }
    }
}

/// Enters into `names`, beside `known`, the names of the definitions `defs` of the line with the number `line`. They are of the kind
/// `kind`.
fn enter_names_of_definitions(
    alloc: Global,
    known: &DefinedAliasNames,
    names: &mut AliasNamesUpdate,
    kind: Kind,
    line: usize,
    defs: &RowsOfTable<'_, AliasDefinitionRow>,
) -> Result<(), ReadFault>
    ensures { IsEntryOutcome result (entries_after_update known.now names.new) (entries_with_definitions kind line 0 (entries_after_update known.now names.old) (alias_definitions_of_view defs.now)) }
{
    let tables = defs.tables;
    for (number, row) in defs.rows.iter().enumerate() {
        let name = tables.bytes_of_text_row(row.name);
        if let Some(fault) = entry_fault_of_name(alloc, known, names, kind, name)? {
            return Err(fault);
        }
        let place = Place { line, def: number };
        names.push(alloc, known, name, place)?;
    }
    Ok(())
}

/// Returns why the name `name` of the kind `kind` cannot be entered into `names`, beside `known`. Returns nothing if it can.
fn entry_fault_of_name(
    alloc: Global,
    known: &DefinedAliasNames,
    names: &AliasNamesUpdate,
    kind: Kind,
    name: &[u8],
) -> Result<Option<ReadFault>, ReadFault>
    ensures is { IfOk result (λ fault. fault ≡ fault_of_new_entry kind (entries_after_update known.now names.now) name.now) }
    ensures memory { IfErr result (λ fault. fault ≡ ReadFault.NoMemory) }
{
    if is_reserved(name) {
        let name = Items::from_slice(alloc, name)?;
        return Ok(Some(ReadFault::Reserved { kind, name }));
    }
    if names.has_entered_name(known, name) {
        let name = Items::from_slice(alloc, name)?;
        return Ok(Some(ReadFault::Duplicate { kind, name }));
    }
    if names.len(known) >= ALIAS_LIMIT {
        return Ok(Some(ReadFault::TooMany { kind }));
    }
    Ok(None)
}

/// Returns the fault of the first reserved word that a line defines which says `node`. Returns nothing if it defines none.
///
/// # Errors
///
/// Memory ran out.
pub fn find_reserved_name_fault_in_line(
    alloc: Global,
    node: &Node<'_>,
) -> Result<Option<ReadFault>, AllocError>
    ensures { IfOk result (λ fault. fault ≡ reserved_name_fault_of_definitions (definitions_in_line 0 (node_of_view node.now))) }
{
    match *node {
        Node::Alias { kind, defs } => find_reserved_name_fault_of_definitions(alloc, kind, &defs),
        _ => Ok(None),
    }
}

/// Returns the fault of the first reserved word that the definitions `defs` define. Returns nothing if they define none.
fn find_reserved_name_fault_of_definitions(
    alloc: Global,
    kind: Kind,
    defs: &RowsOfTable<'_, AliasDefinitionRow>,
) -> Result<Option<ReadFault>, AllocError>
    ensures { IfOk result (λ fault. fault ≡ reserved_name_fault_of_definitions (definitions_from_place kind 0 0 (alias_definitions_of_view defs.now))) }
{
    let tables = defs.tables;
    for row in defs.rows {
        let name = tables.bytes_of_text_row(row.name);
        if is_reserved(name) {
            let name = Items::from_slice(alloc, name)?;
            return Ok(Some(ReadFault::Reserved { kind, name }));
        }
    }
    Ok(None)
}
