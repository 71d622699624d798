//! Views printed as lists and records, for tests and for users of the library.

use crate::row_lists::RowsOfTable;
use crate::rows::{
    AliasDefinitionRow, CommandRow, DigestRow, HostGroupRow, MemberRow, OptionRow, ParamRow, TagRow,
};
use std::fmt;

impl fmt::Debug for RowsOfTable<'_, DigestRow> {
    fn fmt<W: fmt::Write>(&self, f: &mut fmt::Formatter<W>) -> fmt::Result {
        let mut list = f.debug_list();
        for row in self.rows {
            list.entry(&self.tables.digest_of_row(*row));
        }
        list.finish()
    }
}

impl fmt::Debug for RowsOfTable<'_, MemberRow> {
    fn fmt<W: fmt::Write>(&self, f: &mut fmt::Formatter<W>) -> fmt::Result {
        let mut list = f.debug_list();
        for row in self.rows {
            list.entry(&self.tables.member_of_row(row));
        }
        list.finish()
    }
}

impl fmt::Debug for RowsOfTable<'_, CommandRow> {
    fn fmt<W: fmt::Write>(&self, f: &mut fmt::Formatter<W>) -> fmt::Result {
        let mut list = f.debug_list();
        for row in self.rows {
            list.entry(&self.tables.command_of_row(row));
        }
        list.finish()
    }
}

impl fmt::Debug for RowsOfTable<'_, HostGroupRow> {
    fn fmt<W: fmt::Write>(&self, f: &mut fmt::Formatter<W>) -> fmt::Result {
        let mut list = f.debug_list();
        for row in self.rows {
            list.entry(&self.tables.host_group_of_row(row));
        }
        list.finish()
    }
}

impl fmt::Debug for RowsOfTable<'_, AliasDefinitionRow> {
    fn fmt<W: fmt::Write>(&self, f: &mut fmt::Formatter<W>) -> fmt::Result {
        let mut list = f.debug_list();
        for row in self.rows {
            list.entry(&self.tables.alias_definition_of_row(row));
        }
        list.finish()
    }
}

impl fmt::Debug for RowsOfTable<'_, ParamRow> {
    fn fmt<W: fmt::Write>(&self, f: &mut fmt::Formatter<W>) -> fmt::Result {
        let mut list = f.debug_list();
        for row in self.rows {
            list.entry(&self.tables.parameter_of_row(row));
        }
        list.finish()
    }
}

impl fmt::Debug for RowsOfTable<'_, OptionRow> {
    fn fmt<W: fmt::Write>(&self, f: &mut fmt::Formatter<W>) -> fmt::Result {
        let mut list = f.debug_list();
        for row in self.rows {
            list.entry(&(row.name, self.tables.bytes_of_text_row(row.value)));
        }
        list.finish()
    }
}

impl fmt::Debug for RowsOfTable<'_, TagRow> {
    fn fmt<W: fmt::Write>(&self, f: &mut fmt::Formatter<W>) -> fmt::Result {
        let mut list = f.debug_list();
        for row in self.rows {
            list.entry(&(row.tag, row.on));
        }
        list.finish()
    }
}
