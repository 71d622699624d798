//! A line of which definitions are taken out one after another, from the last on.
ghost use Rattle.std.specs.Prelude.{◌≡◌, false, true, ◌≤◌, ℕ, List, None, Ok, Some, IfOk, IfSome, MatchResult, length, slice_get};
ghost use Rattle.sudoers_line_rows.specs.View.{node_of_view};
ghost use Rattle.sudoers_tree.specs.Line.{Line as LineOf};
ghost use Rattle.sudoers_tree.specs.Policy.{texts_of_lines};
ghost use Rattle.sudoers_tree.specs.Single.{reading_of_single_line};
ghost use Rattle.sudoers_edit.specs.Editing.{IsRefusalOrNoMemory};
ghost use Rattle.sudoers_edit.specs.SpliceEdits.{definitions_of_alias_line, lines_with_definition_dropped, lines_with_item_cut_out as with_less, replaced_lines_unless_too_long};
ghost use Rattle.sudoers_edit.specs.internal.Drafts.{IsDefinitionCut, IsDefinitionCutOutcome};
ghost use Rattle.sudoers_edit.specs.internal.LineCuts.{IsLineKnown, IsSureToCut};
ghost use Rattle.sudoers_edit.specs.internal.OneMore.{IsLineTextWithItemCutOut};
ghost use Rattle.sudoers_edit.specs.internal.Plain.{IsPlainCut};

use crate::extra_item::{ExtraItem, ItemListKind};
use crate::fault::EditFault;
use crate::owned_bytes::{
    drop_bytes_from_line, find_bytes_to_drop_item, owned_start_of_item, owned_stop_of_item,
};
use crate::plain_cuts::{is_cut_of_plain_line, is_kind_of_words, is_plain_cut};
use std::alloc::{AllocError, Global};
use sudoers_edit_script::Text;
use sudoers_tree::{Node, ParsedLine, read_line};

/// What is known of a line of which definitions are taken out.
#[derive(Drop)]
pub struct LineBeingCut {
    /// What the line said when it was read.
    reading: ParsedLine,
    /// The definitions before this place end where they did then.
    at: usize,
    /// How many definitions there are now.
    count: usize,
    /// Each byte of the line now stands for itself, as is known.
    is_plain: bool,
}

/// Reads a line of which definitions are to be taken out.
pub fn read_line_to_cut(alloc: Global, text: &[u8]) -> Result<LineBeingCut, EditFault>
    ensures said { IfOk result (λ known. reading_of_single_line text.now ≡ Some known.reading) }
    ensures known { MatchResult result (λ known. IsLineKnown known text.now)
        (λ fault. (n at : ℕ) (lines : List LineOf) (line : LineOf) → reading_of_single_line line.text ≡ Some line.node → slice_get lines n ≡ Some line → line.text ≡ text.now
        → IsRefusalOrNoMemory fault (lines_with_definition_dropped n at lines)) }
{
    let Some(reading) = read_line(alloc, text)? else {
        return Err(EditFault::NoAlias);
    };
    match LineBeingCut::from_reading(reading) {
        Some(known) => Ok(known),
        None => Err(EditFault::NoAlias),
    }
}

impl LineBeingCut {
    /// Returns what is known of a line that was read, if it is one of definitions.
    fn from_reading(reading: ParsedLine) -> Option<LineBeingCut>
        ensures says { IfSome result (λ known. known.reading ≡ reading) }
        ensures some { IfSome result (λ known. (text : List ℕ) → reading_of_single_line text ≡ Some reading → IsLineKnown known text) }
        ensures none { result ≡ None → definitions_of_alias_line reading ≡ None }
    {
        let count = match reading.node() {
            Node::Alias { defs, .. } => defs.rows.len(),
            _ => return None,
        };
        Some(LineBeingCut {
            reading,
            at: count,
            count,
            is_plain: false,
        })
    }

    /// Returns the line `text` without the definition at the place `at`, and the bytes that go with that definition.
    pub fn cut_definition(
        &mut self,
        alloc: Global,
        text: &[u8],
        at: usize,
    ) -> Result<(Text, Text), EditFault>
        requires { IsLineKnown self.old text.now }
        ensures outcome { (n : ℕ) (lines : List LineOf) (line : LineOf) → reading_of_single_line line.text ≡ Some line.node → slice_get lines n ≡ Some line → line.text ≡ text.now
            → IsDefinitionCutOutcome n at lines line result }
        ensures known { IfOk result (λ cut. IsLineKnown self.new cut.0) }
    {
        if let Some(cut) = self.cut_definition_without_reading(alloc, text, at)? {
            return Ok(cut);
        }
        if self.is_cut() {
            match read_line_to_cut(alloc, text) {
                Ok(known) => *self = known,
                Err(fault) => return Err(fault),
            }
            return self.cut_definition_by_reading(alloc, text, at);
        }
        self.cut_definition_by_reading(alloc, text, at)
    }

    /// Returns the line `text`, which says what was read, without the definition at the place `at`, and the bytes that go with that definition.
    fn cut_definition_by_reading(
        &mut self,
        alloc: Global,
        text: &[u8],
        at: usize,
    ) -> Result<(Text, Text), EditFault>
        requires { reading_of_single_line text.now ≡ Some self.old.reading }
        ensures outcome { (n : ℕ) (lines : List LineOf) (line : LineOf) → reading_of_single_line line.text ≡ Some line.node → slice_get lines n ≡ Some line → line.text ≡ text.now
            → IsDefinitionCutOutcome n at lines line result }
        ensures known { IfOk result (λ cut. IsLineKnown self.new cut.0) }
    {
        match cut_read_definition(alloc, text, at, &self.reading.node()) {
            Ok((less, splice, known)) => {
                *self = known;
                Ok((less, splice))
            }
            Err(fault) => Err(fault),
        }
    }

    /// Returns whether a definition was taken out since the line was read.
    fn is_cut(&self) -> bool
        ensures { (text : List ℕ) → IsLineKnown self.now text → result ≡ false → reading_of_single_line text ≡ Some self.now.reading }
    {
        match self.reading.node() {
            Node::Alias { defs, .. } => defs.rows.len() != self.count,
            _ => true,
        }
    }

    /// Returns the line without the definition at the place `at`, and the bytes that go with it, if it is sure without a reading how it reads.
    fn cut_definition_without_reading(
        &mut self,
        alloc: Global,
        text: &[u8],
        at: usize,
    ) -> Result<Option<(Text, Text)>, AllocError>
        requires { IsLineKnown self.old text.now }
        ensures cut { IfOk result (λ found. IfSome found (λ cut. ((n : ℕ) (lines : List LineOf) (line : LineOf) → reading_of_single_line line.text ≡ Some line.node → slice_get lines n ≡ Some line
            → line.text ≡ text.now → IsDefinitionCut n at lines line cut.0 cut.1) × IsLineKnown self.new cut.0)) }
        ensures none { result ≡ Ok None → self.new ≡ self.old }
    {
        let Some((from, to)) = self.find_sure_bytes(text, at) else {
            return Ok(None);
        };
        let less = drop_bytes_from_line(alloc, text, from, to)?;
        let splice = Text::from_slice(alloc, &text[from..to])?;
        self.at = at;
        self.count -= 1;
        self.is_plain = true;
        Ok(Some((Text::from_vec(less), splice)))
    }

    /// Returns which bytes go with the definition at the place `at`, if it is sure without a reading how the line reads without them.
    fn find_sure_bytes(&self, text: &[u8], at: usize) -> Option<(usize, usize)>
        requires { IsLineKnown self.now text.now }
        ensures { IfSome result (λ bytes. IsSureToCut self.now text.now at bytes.0 bytes.1) }
    {
        let Node::Alias { kind, defs } = self.reading.node() else {
            return None;
        };
        if at == 0 || at >= self.at || self.count < 2 || !is_kind_of_words(kind) {
            return None;
        }
        let from = owned_start_of_item(&defs, at)?;
        let to = owned_stop_of_item(&defs, at)?;
        if !self.is_plain_cut_of(text, from, to) {
            return None;
        }
        Some((from, to))
    }

    /// Returns whether these bytes can go from the line, in which each byte stands for itself.
    fn is_plain_cut_of(&self, text: &[u8], from: usize, to: usize) -> bool
        requires { IsLineKnown self.now text.now }
        ensures { result ≡ true → IsPlainCut from to text.now }
    {
        if self.is_plain {
            return is_cut_of_plain_line(text, from, to);
        }
        is_plain_cut(text, from, to)
    }
}

/// Returns the line `text`, which says `says`, without the definition at the place `at`, the bytes that go with that definition, and what is
/// known of the line then.
fn cut_read_definition(
    alloc: Global,
    text: &[u8],
    at: usize,
    says: &Node<'_>,
) -> Result<(Text, Text, LineBeingCut), EditFault>
    requires { reading_of_single_line text.now ≡ Some (node_of_view says.now) }
    ensures outcome { (n : ℕ) (lines : List LineOf) (line : LineOf) → reading_of_single_line line.text ≡ Some line.node → slice_get lines n ≡ Some line → line.text ≡ text.now
        → MatchResult result (λ cut. IsDefinitionCut n at lines line cut.0 cut.1) (λ fault. IsRefusalOrNoMemory fault (lines_with_definition_dropped n at lines)) }
    ensures known { IfOk result (λ cut. IsLineKnown cut.2 cut.0) }
{
    let Node::Alias { defs, .. } = *says else {
        return Err(EditFault::NoAlias);
    };
    let (from, to) = match find_bytes_to_drop_item(&defs, at) {
        Ok(bytes) => bytes,
        Err(fault) => return Err(fault),
    };
    let (less, known) = match cut_read_bytes(alloc, at, from, to, text, says) {
        Ok(cut) => cut,
        Err(fault) => return Err(fault),
    };
    let splice = Text::from_slice(alloc, &text[from..to])?;
    Ok((Text::from_vec(less), splice, known))
}

/// Returns the line `old`, which says `says`, without the definition at the place `at`, which owns the bytes from `from` up to `to`, and what
/// is known of the line then.
fn cut_read_bytes(
    alloc: Global,
    at: usize,
    from: usize,
    to: usize,
    old: &[u8],
    says: &Node<'_>,
) -> Result<(Vec<u8>, LineBeingCut), EditFault>
    requires { (from ≤ to) × (to ≤ length old.now) }
    ensures cut { IfOk result (λ cut. IsLineTextWithItemCutOut ItemListKind.Definitions at from to (record { text = old.now; node = node_of_view says.now }) cut.0.items) }
    ensures outcome { (n : ℕ) (lines : List LineOf) → MatchResult result
        (λ cut. with_less ItemListKind.Definitions at from to n (record { text = old.now; node = node_of_view says.now }) lines ≡ replaced_lines_unless_too_long n cut.0.items (texts_of_lines lines))
        (λ fault. IsRefusalOrNoMemory fault (with_less ItemListKind.Definitions at from to n (record { text = old.now; node = node_of_view says.now }) lines)) }
    ensures known { IfOk result (λ cut. IsLineKnown cut.1 cut.0.items) }
{
    let text = drop_bytes_from_line(alloc, old, from, to)?;
    let Some(reading) = read_line(alloc, text.as_slice())? else {
        return Err(EditFault::BadSplice);
    };
    let one = ExtraItem { at, from, to };
    if !one.is_only_difference(ItemListKind::Definitions, says, &reading.node()) {
        return Err(EditFault::BadSplice);
    }
    match LineBeingCut::from_reading(reading) {
        Some(known) => Ok((text, known)),
        None => Err(EditFault::BadSplice),
    }
}
