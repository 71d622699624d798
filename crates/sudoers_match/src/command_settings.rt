//! What stands before a command: as whom it runs, its options and its tags.

ghost use Rattle.sudoers_line_rows.specs.View.{command_of_view};
ghost use Rattle.sudoers_match.specs.Heads.{AccumulatedCommandSettings as HeadOf, empty_command_settings, settings_after_command};
ghost use Rattle.sudoers_match.specs.IsHead.{HoldsCommandSettings};

use crate::options::CommandOptions;
use crate::tags::CommandTags;
use sudoers_line_rows::{CmdSpec, RunasSpec};

/// What holds of a command beside its member.
#[derive(Clone, Copy)]
pub struct CommandSettings<'a> {
    pub runas: Option<RunasSpec<'a>>,
    pub options: CommandOptions<'a>,
    pub tags: CommandTags,
}

impl<'a> CommandSettings<'a> {
    /// Returns what holds of a command before which nothing stands.
    pub fn make_empty_settings() -> CommandSettings<'a>
        ensures { HoldsCommandSettings result empty_command_settings }
    {
        CommandSettings {
            runas: None,
            options: CommandOptions::make_unset_options(),
            tags: CommandTags::make_unset_tags(),
        }
    }

    /// Adds what stands before a later command of the same list.
    pub fn apply_settings_of_command(&mut self, command: &CmdSpec<'a>)
        ensures { (before : HeadOf) → HoldsCommandSettings self.old before → HoldsCommandSettings self.new (settings_after_command before (command_of_view command.now)) }
    {
        self.runas = command.runas.or(self.runas);
        self.options.set_all(&command.options);
        self.tags.set_all(&command.tags);
    }
}
