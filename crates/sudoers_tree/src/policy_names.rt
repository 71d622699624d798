//! The definitions and mentions on the walk of a policy, by the files in which they stand.

ghost use Rattle.std.specs.Prelude.{◌≡◌, IfOk};
ghost use Rattle.std.specs.Option.{option_map};
ghost use Rattle.sudoers_line_rows.specs.View.{members_of_view};
ghost use Rattle.sudoers_tree.specs.Definition.{members_of_alias_definition};
ghost use Rattle.sudoers_tree.specs.FilePlaces.{mention_file_spans, file_place_of_definition, file_place_of_walk_place, file_span_from_walk};
ghost use Rattle.sudoers_tree.specs.Walk.{spot_of_walk_line};

use crate::place::{DefinitionFilePlace, FileSpan, Place, Span, WalkLineSpot};
use crate::policy::Policy;
use std::alloc::AllocError;
use sudoers_grammar::Kind;
use sudoers_line_rows::{MemberRow, RowsOfTable};

impl Policy {
    /// Returns where the name `name` is defined on the walk as an alias of the kind `kind` (sudoers(5), Aliases).
    pub fn definition(&self, kind: Kind, name: &[u8]) -> Option<DefinitionFilePlace>
        ensures { result ≡ file_place_of_definition kind name.now self.now.walk }
    {
        let place = self.walk().place_of_definition(kind, name)?;
        Some(self.file_place_of_walk_place(place))
    }

    /// Returns the place in its file of the definition that has the place `place` on the walk.
    pub fn file_place_of_walk_place(&self, place: Place) -> DefinitionFilePlace
        ensures { result ≡ file_place_of_walk_place self.now.walk place }
    {
        let spot = self.spot_of_line_on_walk(place.line);
        DefinitionFilePlace {
            file: spot.file,
            line: spot.line,
            def: place.def,
        }
    }

    /// Returns the members of the alias `name` of the kind `kind` that is defined on the walk.
    pub fn members(&self, kind: Kind, name: &[u8]) -> Option<RowsOfTable<'_, MemberRow>>
        ensures { option_map members_of_view result ≡ members_of_alias_definition kind name.now self.now.walk.lines }
    {
        self.walk().members_of_alias(kind, name)
    }

    /// Returns where the name `name` stands on the walk as a member of a list of the kind `kind`, in its order.
    ///
    /// # Errors
    ///
    /// Memory ran out.
    pub fn mentions(&self, kind: Kind, name: &[u8]) -> Result<Vec<FileSpan>, AllocError>
        ensures { IfOk result (λ spans. spans.items ≡ mention_file_spans kind name.now self.now.walk) }
    {
        let alloc = self.allocator();
        let on_walk = self.walk().find_mentions_of(alloc, kind, name)?;
        let mut spans = Vec::with_capacity(alloc, on_walk.len())?;
        for span in on_walk.as_slice() {
            spans.push(self.file_span_of_walk_span(*span))?;
        }
        Ok(spans)
    }

    /// Returns the part of a file that `span` is on the walk.
    fn file_span_of_walk_span(&self, span: Span) -> FileSpan
        ensures { result ≡ file_span_from_walk self.now.walk span }
    {
        let spot = self.spot_of_line_on_walk(span.line);
        FileSpan {
            file: spot.file,
            line: spot.line,
            start: span.start,
            stop: span.stop,
        }
    }

    /// Returns where the line with the number `number` of the walk stands.
    fn spot_of_line_on_walk(&self, number: usize) -> WalkLineSpot
        ensures { result ≡ spot_of_walk_line self.now.walk number }
    {
        match self.spots_of_walk_lines().get(number) {
            Some(spot) => *spot,
            None => WalkLineSpot {
                file: 0,
                line: 0,
                row: 1,
            },
        }
    }
}
