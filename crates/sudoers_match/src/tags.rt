//! The tags of a command.

ghost use Rattle.std.specs.Prelude.{◌≡◌, ◌++◌, ◌∷◌, [], Bool, List};
ghost use Rattle.sudoers_grammar.specs.declared.node.Tag.{Tag as TagOf};
ghost use Rattle.sudoers_line_rows.specs.View.{tags_of_view};
ghost use Rattle.sudoers_match.specs.Heads.{final_tags_of, tags_with_tag_set};

use sudoers_grammar::Tag;
use sudoers_line_rows::{RowsOfTable, TagRow};

/// The tags of a command: each with whether it stands without `NO`, if it stands (sudoers(5), Tag_Spec).
#[derive(Clone, Copy, Debug, PartialEq, Eq)]
pub struct CommandTags {
    pub exec: Option<bool>,
    pub follow: Option<bool>,
    pub intercept: Option<bool>,
    pub log_input: Option<bool>,
    pub log_output: Option<bool>,
    pub mail: Option<bool>,
    pub passwd: Option<bool>,
    pub setenv: Option<bool>,
}

impl CommandTags {
    /// Returns the tags of which none stands.
    pub fn make_unset_tags() -> CommandTags
        ensures { result ≡ final_tags_of [] }
    {
        CommandTags {
            exec: None,
            follow: None,
            intercept: None,
            log_input: None,
            log_output: None,
            mail: None,
            passwd: None,
            setenv: None,
        }
    }

    /// Sets a tag.
    fn set(&mut self, tag: Tag, on: bool)
        ensures { self.new ≡ tags_with_tag_set tag on self.old }
    {
        match tag {
            Tag::Exec => self.exec = Some(on),
            Tag::Follow => self.follow = Some(on),
            Tag::Intercept => self.intercept = Some(on),
            Tag::LogInput => self.log_input = Some(on),
            Tag::LogOutput => self.log_output = Some(on),
            Tag::Mail => self.mail = Some(on),
            Tag::Passwd => self.passwd = Some(on),
            Tag::Setenv => self.setenv = Some(on),
        }
    }

    /// Sets the tags of a command.
    pub fn set_all(&mut self, tags: &RowsOfTable<'_, TagRow>)
        ensures { (before : List (TagOf × Bool)) → self.old ≡ final_tags_of before → self.new ≡ final_tags_of (before ++ tags_of_view tags.now) }
    {
        for row in tags.rows {
            self.set(row.tag, row.on);
        }
    }
}
