//! Lines on what two policies grant otherwise: their text, and the parts of each.

ghost use Rattle.std.specs.Prelude.{◌≡◌, ◌++◌, [], Some, OnOk};
ghost use Rattle.sudoers_review.specs.ChangedText.{sign_of_change};
ghost use Rattle.sudoers_review.specs.LineEnd.{line_end};

use std::alloc::{AllocError, Global};
use sudoers_list::append_place_on_walk_line;
use sudoers_tree::Policy;

/// Whether a line is on something that went with a change, or on something that came.
#[derive(Clone, Copy)]
pub enum RuleChange {
    Went,
    Came,
}

/// A part of a text: from byte `start` up to byte `stop`.
#[derive(Clone, Copy)]
pub struct TextPart {
    pub start: usize,
    pub stop: usize,
}

/// Where something stands in a policy: the number of its line on the walk, from 0, and the number of its first byte there, from 0.
#[derive(Clone, Copy)]
pub struct PlaceOnWalk {
    pub line: usize,
    pub start: usize,
}

/// What a line says.
#[derive(Clone, Copy)]
pub struct ChangeLine {
    pub change: RuleChange,
    /// The user whom it is about, if it is about one.
    pub user: Option<TextPart>,
    /// The rule, the setting or the parameter.
    pub rule: TextPart,
    /// A request that both policies answer otherwise, if one was looked for and found.
    pub example: Option<TextPart>,
    /// Where the rule stands: in the old policy if it went, and in the new one if it came.
    pub place: Option<PlaceOnWalk>,
}

/// Lines as they are printed, and what each of them says.
#[derive(Drop)]
pub struct ChangeLines {
    pub text: Vec<u8>,
    pub lines: Vec<ChangeLine>,
}

impl PlaceOnWalk {
    /// Returns where the line with the number `line` begins.
    pub fn from_line(line: usize) -> PlaceOnWalk
        ensures line { result.line ≡ line }
        ensures start { result.start ≡ 0 }
    {
        PlaceOnWalk { line, start: 0 }
    }
}

impl ChangeLine {
    /// Returns that `change` happened to `rule`, which stands at `place`. It is about no user.
    pub fn from_rule(change: RuleChange, rule: TextPart, place: PlaceOnWalk) -> ChangeLine
        ensures { result.place ≡ Some place }
    {
        ChangeLine {
            change,
            user: None,
            rule,
            example: None,
            place: Some(place),
        }
    }
}

impl ChangeLines {
    /// Returns no lines.
    pub fn new(alloc: Global) -> ChangeLines
        ensures { result.text.items ≡ [] }
    {
        ChangeLines {
            text: Vec::new(alloc),
            lines: Vec::new(alloc),
        }
    }
}

/// Returns what stands before a line.
pub fn sign_of(change: RuleChange) -> &'static [u8]
    ensures { result.now ≡ sign_of_change change }
{
    match change {
        RuleChange::Went => b"- ",
        RuleChange::Came => b"+ ",
    }
}

/// Appends to `out` where the rule of `line` stands in `policy`, if it has a place, and the end of the line.
///
/// # Errors
///
/// Memory ran out.
pub fn append_line_end(
    alloc: Global,
    out: &mut ChangeLines,
    policy: &Policy,
    line: ChangeLine,
) -> Result<(), AllocError>
    ensures { OnOk result (out.new.text.items ≡ out.old.text.items ++ line_end policy.now line.place) }
{
    if let Some(place) = line.place {
        out.text.extend_from_slice(b"  ")?;
        append_place_on_walk_line(alloc, &mut out.text, policy, place.line, place.start)?;
    }
    out.text.extend_from_slice(b"\n")?;
    out.lines.push(line)?;
    Ok(())
}
