//! An order of definitions in which each alias stands behind those that it mentions. No contract rests on it: aliases are decided soon
//! in this order, and in any other too.

use crate::definitions::{DefinitionOnLine, find_number_of_alias_atom};
use std::alloc::{AllocError, Global};
use sudoers_check::DefinitionNumbers;

/// For each definition, how many mentions of others it waits for, and which definitions mention it.
#[derive(Drop)]
struct WaitingDefinitions {
    waits: Vec<usize>,
    mentioned_by: Vec<Vec<usize>>,
}

impl WaitingDefinitions {
    /// Notes that the definition `number` waits for the one with the number `mentioned`.
    fn note_mention(&mut self, number: usize, mentioned: usize) -> Result<(), AllocError> {
        if let Some(users) = self.mentioned_by.get_mut(mentioned) {
            users.push(number)?;
        }
        if let Some(count) = self.waits.get_mut(number) {
            *count = count.saturating_add(1);
        }
        Ok(())
    }

    /// Notes what the definition `number` mentions.
    fn note_mentions_of_definition(
        &mut self,
        numbers: &DefinitionNumbers<'_>,
        number: usize,
        definition: &DefinitionOnLine<'_>,
    ) -> Result<(), AllocError> {
        let tables = definition.members.tables;
        for row in definition.members.rows {
            let atom = tables.atom_of_row(row.atom);
            if let Some(mentioned) = find_number_of_alias_atom(numbers, definition.kind, &atom) {
                self.note_mention(number, mentioned)?;
            }
        }
        Ok(())
    }

    /// Returns what each of `definitions` waits for.
    fn new(
        alloc: Global,
        numbers: &DefinitionNumbers<'_>,
        definitions: &[DefinitionOnLine<'_>],
    ) -> Result<WaitingDefinitions, AllocError> {
        let mut waiting = WaitingDefinitions {
            waits: Vec::new(alloc),
            mentioned_by: Vec::new(alloc),
        };
        for _ in definitions {
            waiting.waits.push(0)?;
            waiting.mentioned_by.push(Vec::new(alloc))?;
        }
        for (number, definition) in definitions.iter().enumerate() {
            waiting.note_mentions_of_definition(numbers, number, definition)?;
        }
        Ok(waiting)
    }

    /// Appends to `order` the definitions that wait for nothing.
    fn append_ready(&self, order: &mut Vec<usize>) -> Result<(), AllocError> {
        for (number, count) in self.waits.iter().enumerate() {
            if *count == 0 {
                order.push(number)?;
            }
        }
        Ok(())
    }

    /// Takes a mention from those for which the definition `number` waits. Appends it to `order` if that was the last.
    fn take_mention(&mut self, number: usize, order: &mut Vec<usize>) -> Result<(), AllocError> {
        if let Some(count) = self.waits.get_mut(number) {
            *count = count.saturating_sub(1);
            if *count == 0 {
                order.push(number)?;
            }
        }
        Ok(())
    }

    /// Appends to `order` the definitions that waited for the one with the number `number` alone.
    fn append_followers(
        &mut self,
        number: usize,
        order: &mut Vec<usize>,
    ) -> Result<(), AllocError> {
        let Some(slot) = self.mentioned_by.get_mut(number) else {
            return Ok(());
        };
        let users = std::mem::try_take(slot)?;
        for user in &users {
            self.take_mention(*user, order)?;
        }
        Ok(())
    }
}

/// Returns the numbers of those of `definitions` that lead to no cycle. Each stands behind those that it mentions.
///
/// # Errors
///
/// Memory ran out.
pub fn sort_definitions_by_mentions(
    alloc: Global,
    numbers: &DefinitionNumbers<'_>,
    definitions: &[DefinitionOnLine<'_>],
) -> Result<Vec<usize>, AllocError> {
    let mut waiting = WaitingDefinitions::new(alloc, numbers, definitions)?;
    let mut order = Vec::new(alloc);
    waiting.append_ready(&mut order)?;
    for at in 0..definitions.len() {
        if let Some(number) = order.get(at).copied() {
            waiting.append_followers(number, &mut order)?;
        }
    }
    Ok(order)
}
