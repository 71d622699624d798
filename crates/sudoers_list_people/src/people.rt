//! The people of a machine.

ghost use Rattle.std.specs.Prelude.{◌≡◌, ◌⊎◌, Ok, Err, IfOk, IfErr};
ghost use Rattle.sudoers_list_people.specs.declared.fault.PeopleFault.TheVariants.{NoMemory};
ghost use Rattle.sudoers_list_people.specs.People.{people_read_result};

use crate::account_and_group_row_types::{GroupFileRow, PasswdAccount};
use crate::fault::PeopleFault;
use crate::reading::{read_group_text, read_passwd_text};
use std::alloc::Global;
use std::marker::Model;

/// The people of a machine. Contracts see the users of passwd and the groups of group, in file order, each name once.
#[derive(Drop)]
pub struct People {
    accounts: Vec<PasswdAccount>,
    groups: Vec<GroupFileRow>,
}

impl Model for People {
    ghost use Rattle.sudoers_list_people.specs.People.{People as PeopleOf};

    ghost Value = { PeopleOf };

    ghost view = { λ people. record {
      accounts = people.accounts.items;
      groups = people.groups.items;
    } };
}

impl People {
    /// Reads the texts of passwd and of group (passwd(5), group(5)). Of rows with one name the first counts.
    ///
    /// # Errors
    ///
    /// `TooLarge`: a text is longer than 1,048,576 bytes. `BadRow`: a row is in no form of its file; the first such row counts.
    /// `NoMemory`: memory ran out. The errors of passwd come before those of group.
    pub fn read(alloc: Global, passwd: &[u8], group: &[u8]) -> Result<People, PeopleFault>
        ensures people { IfOk result (λ people. people_read_result passwd.now group.now ≡ Ok people) }
        ensures fault { IfErr result (λ fault. (fault ≡ NoMemory) ⊎ (people_read_result passwd.now group.now ≡ Err fault)) }
    {
        let accounts = read_passwd_text(alloc, passwd)?;
        let groups = read_group_text(alloc, group)?;
        Ok(People { accounts, groups })
    }

    /// Returns the users.
    pub fn accounts(&self) -> &[PasswdAccount]
        ensures { result.now ≡ self.now.accounts }
    {
        self.accounts.as_slice()
    }

    /// Returns the groups.
    pub fn groups(&self) -> &[GroupFileRow]
        ensures { result.now ≡ self.now.groups }
    {
        self.groups.as_slice()
    }
}
