//! The options and words of a command line.

use crate::output_form::OutputForm;
use sudoers_grammar::Items;

/// What `check` is to do (visudo(8)).
#[derive(Clone, Copy)]
pub struct CheckWords {
    /// Nothing is written.
    pub quiet: bool,
    /// Undefined names and cyclic aliases are errors.
    pub strict: bool,
    /// After the report, the skipped files of included folders are listed.
    pub skipped: bool,
}

/// What `convert` is to do (cvtsudoers(1)).
#[derive(Clone, Copy)]
pub struct ConvertWords<'a> {
    pub form: OutputForm,
    /// The text of a filter. Rules for other users, groups and hosts are left out.
    pub filter: Option<&'a [u8]>,
    /// Users and hosts that do not match the filter are left out of lists.
    pub prune: bool,
    /// Aliases are replaced by their members.
    pub expand: bool,
}

/// What `list` is to do (sudo(8), the option `-l`).
#[derive(Clone, Copy)]
pub struct ListWords<'a> {
    /// The name of the user who is asked about.
    pub user: &'a [u8],
    /// The long name of the host.
    pub host: &'a [u8],
    /// The moment as `yyyymmddHH[MM[SS]]Z`. A listing does not look at it.
    pub moment: &'a [u8],
    /// The interfaces of the host as `ADDRESS/BITS`, joined by `,`; empty if there are none.
    pub interfaces: &'a [u8],
    /// The user as whom the command is to run. A listing does not look at it.
    pub target: Option<&'a [u8]>,
    /// The group as which the command is to run. A listing does not look at it.
    pub group: Option<&'a [u8]>,
    /// The command and its arguments. Without words all that the user may run is listed.
    pub words: &'a [Items<u8>],
    /// The rule that decides is written instead of the command, with the name of its file.
    pub why: bool,
}
