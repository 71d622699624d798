//! How many members are written.

ghost use Rattle.std.specs.Prelude.{◌≡◌, ◌+◌, ◌<◌, ◌≤◌, length, IfErr, OnOk};
ghost use Rattle.sudoers_line_rows.specs.Tables.{optional_runas_in_tables};
ghost use Rattle.sudoers_cvt_rules.specs.declared.fault.CvtFault.TheVariants.{TooLarge};
ghost use Rattle.sudoers_cvt_rewrite.specs.Count.{runas_member_count_or_inherited};
ghost use Rattle.sudoers_match_list.specs.Flattened.{expanded_member_limit};
ghost use Rattle.sudoers_cvt_rewrite.specs.internal.Marked.{marked_definitions_member_count};

use sudoers_cvt_rules::CvtFault;
use sudoers_line_rows::{RunasRow, Tables, rows_in};
use sudoers_match_list::{DefinitionKindAndMembers, MEMBER_LIMIT};

/// How many members are written, and how many the Runas_Spec has that a next command inherits.
#[derive(Drop)]
pub struct MemberTally {
    pub count: usize,
    pub inherited: usize,
    ghost within: { count ≤ expanded_member_limit },
}

impl MemberTally {
    /// Counts the members of a list.
    ///
    /// # Errors
    ///
    /// `TooLarge`: there are more than 65,536 then.
    pub fn count_list_of_length(&mut self, length: usize) -> Result<(), CvtFault>
        ensures counted { OnOk result (self.new.count ≡ self.old.count + length) }
        ensures fault { IfErr result (λ fault. (fault ≡ TooLarge) × (expanded_member_limit < self.old.count + length)) }
    {
        let count = self.count.saturating_add(length);
        if count > MEMBER_LIMIT {
            return Err(CvtFault::TooLarge);
        }
        self.count = count;
        Ok(())
    }

    /// Counts a command, and the members of its Runas_Spec, its own or the one that it inherits.
    ///
    /// # Errors
    ///
    /// `TooLarge`: there are more than 65,536 then.
    pub fn count_command_and_runas_members(
        &mut self,
        tables: &Tables,
        runas: Option<RunasRow>,
    ) -> Result<(), CvtFault>
        ensures inherited { OnOk result (self.new.inherited ≡ runas_member_count_or_inherited self.old.inherited (optional_runas_in_tables tables.now runas)) }
        ensures counted { OnOk result (self.new.count ≡ self.old.count + (1 + runas_member_count_or_inherited self.old.inherited (optional_runas_in_tables tables.now runas))) }
        ensures fault { IfErr result (λ fault. (fault ≡ TooLarge)
            × (expanded_member_limit < self.old.count + (1 + runas_member_count_or_inherited self.old.inherited (optional_runas_in_tables tables.now runas)))) }
    {
        let length = match runas {
            None => self.inherited,
            Some(runas) => {
                let members = tables.members.as_slice();
                let users = rows_in(members, runas.users).len();
                users.saturating_add(rows_in(members, runas.groups).len())
            }
        };
        let count = self.count.saturating_add(length).saturating_add(1);
        if count > MEMBER_LIMIT {
            return Err(CvtFault::TooLarge);
        }
        self.inherited = length;
        self.count = count;
        Ok(())
    }
    /// Counts the members of the definitions that have a mark.
    ///
    /// # Errors
    ///
    /// `TooLarge`: there are more than 65,536 then.
    pub fn count_marked_definitions(
        &mut self,
        definitions: &[DefinitionKindAndMembers<'_>],
        marks: &[bool],
    ) -> Result<(), CvtFault>
        requires { length marks.now ≡ length definitions.now }
        ensures fits { OnOk result (self.old.count + marked_definitions_member_count marks.now definitions.now ≤ expanded_member_limit) }
        ensures fault { IfErr result (λ fault. (fault ≡ TooLarge) × (expanded_member_limit < self.old.count + marked_definitions_member_count marks.now definitions.now)) }
    {
        for (number, definition) in definitions.iter().enumerate() {
            if marks[number] {
                self.count_list_of_length(definition.members.len())?;
            }
        }
        Ok(())
    }
}
