//! The options of a command.

ghost use Rattle.std.specs.Prelude.{◌≡◌, ◌++◌, ℕ, List, []};
ghost use Rattle.sudoers_grammar.specs.declared.node.OptionName.{OptionName as NameOf};
ghost use Rattle.sudoers_line_rows.specs.View.{options_of_view};
ghost use Rattle.sudoers_match.specs.Values.{final_values_of_options, option_values_of_view, values_with_option_set};

use sudoers_grammar::OptionName;
use sudoers_line_rows::{OptionRow, RowsOfTable};

/// The options of a command: the value of each, if it is set (sudoers(5), Option_Spec).
#[derive(Clone, Copy, Debug)]
pub struct CommandOptions<'a> {
    pub role: Option<&'a [u8]>,
    pub kind: Option<&'a [u8]>,
    pub apparmor_profile: Option<&'a [u8]>,
    pub privs: Option<&'a [u8]>,
    pub limitprivs: Option<&'a [u8]>,
    pub notbefore: Option<&'a [u8]>,
    pub notafter: Option<&'a [u8]>,
    pub timeout: Option<&'a [u8]>,
    pub cwd: Option<&'a [u8]>,
    pub chroot: Option<&'a [u8]>,
}

impl<'a> CommandOptions<'a> {
    /// Returns the options of which none is set.
    pub fn make_unset_options() -> CommandOptions<'a>
        ensures { option_values_of_view result ≡ final_values_of_options [] }
    {
        CommandOptions {
            role: None,
            kind: None,
            apparmor_profile: None,
            privs: None,
            limitprivs: None,
            notbefore: None,
            notafter: None,
            timeout: None,
            cwd: None,
            chroot: None,
        }
    }

    /// Sets an option.
    fn set(&mut self, name: OptionName, value: &'a [u8])
        ensures { option_values_of_view self.new ≡ values_with_option_set name value.now (option_values_of_view self.old) }
    {
        match name {
            OptionName::Role => self.role = Some(value),
            OptionName::Type => self.kind = Some(value),
            OptionName::ApparmorProfile => self.apparmor_profile = Some(value),
            OptionName::Privs => self.privs = Some(value),
            OptionName::Limitprivs => self.limitprivs = Some(value),
            OptionName::Notbefore => self.notbefore = Some(value),
            OptionName::Notafter => self.notafter = Some(value),
            OptionName::Timeout => self.timeout = Some(value),
            OptionName::Cwd => self.cwd = Some(value),
            OptionName::Chroot => self.chroot = Some(value),
        }
    }

    /// Sets the options of a command.
    pub fn set_all(&mut self, options: &RowsOfTable<'a, OptionRow>)
        ensures { (before : List (NameOf × List ℕ)) → option_values_of_view self.old ≡ final_values_of_options before → option_values_of_view self.new ≡ final_values_of_options (before ++ options_of_view options.now) }
    {
        let tables = options.tables;
        for row in options.rows {
            self.set(row.name, tables.bytes_of_text_row(row.value));
        }
    }
}
