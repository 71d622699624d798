//! Lines that are given as text.

ghost use Rattle.std.specs.Prelude.{◌≡◌, ◌++◌, ◌∷◌, [], IfOk};
ghost use Rattle.sudoers_plan.specs.GivenText.{is_line_of_text as line_is_text, is_text_of_include_line as text_includes, is_text_of_one_line as text_is_one_line};

use std::alloc::{AllocError, Global};
use std::marker::Model;
use sudoers_edit_script::Text;
use sudoers_line_rows::Node;
use sudoers_text::is_logical_line;
use sudoers_tree::read_line;

/// A line given as its text, with the forms that it has in a file. Contracts see the text.
#[derive(Drop)]
pub struct GivenLine {
    text: Text,
    with_lf: Text,
    with_crlf: Text,
}

impl Model for GivenLine {
    ghost use Rattle.std.specs.Prelude.{◌≡◌, ◌++◌, ◌∷◌, [], List, ℕ};

    ghost Value = { List ℕ };

    ghost view = { λ line. line.text };

    ghost invariant = { λ line. (line.with_lf ≡ line.text ++ 10 ∷ []) × (line.with_crlf ≡ line.text ++ 13 ∷ 10 ∷ []) };
}

impl GivenLine {
    /// Returns the line whose text is `text`.
    ///
    /// # Errors
    ///
    /// Memory ran out.
    pub fn from_text(alloc: Global, text: &[u8]) -> Result<GivenLine, AllocError>
        ensures { IfOk result (λ line. line ≡ text.now) }
    {
        let mut with_lf = Text::from_slice(alloc, text)?;
        with_lf.extend_from_slice(b"\n")?;
        let mut with_crlf = Text::from_slice(alloc, text)?;
        with_crlf.extend_from_slice(b"\r\n")?;
        Ok(GivenLine {
            text: Text::from_slice(alloc, text)?,
            with_lf,
            with_crlf,
        })
    }

    /// Returns whether the text is one line.
    pub fn is_one_line(&self) -> bool
        ensures { result ≡ text_is_one_line self.now }
    {
        is_logical_line(self.with_lf.as_slice())
    }

    /// Returns whether `line` is the text, but for its line end.
    pub fn is_text_of(&self, line: &[u8]) -> bool
        ensures { result ≡ line_is_text self.now line.now }
    {
        line == self.text.as_slice()
            || line == self.with_lf.as_slice()
            || line == self.with_crlf.as_slice()
    }

    /// Returns whether the text is that of an include line.
    ///
    /// # Errors
    ///
    /// Memory ran out.
    #[tactic(auto, unfolding(crate::specs::GivenText::is_text_of_include_line))]
    pub fn is_include_line(&self, alloc: Global) -> Result<bool, AllocError>
        ensures { IfOk result (λ is. is ≡ text_includes self.now) }
    {
        let Some(reading) = read_line(alloc, self.with_lf.as_slice())? else {
            return Ok(false);
        };
        Ok(matches!(reading.node(), Node::Include { .. }))
    }

    /// Returns the text with LF behind it.
    pub fn into_text_with_lf(self) -> Text
        ensures { result ≡ self ++ 10 ∷ [] }
    {
        self.with_lf
    }
}
