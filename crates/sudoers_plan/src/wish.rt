//! What is wished of a policy.

use sudoers_edit_script::Text;
use sudoers_grammar::Kind;

/// What is wished of a policy. A member is given as its text, which is compared by what it says. A line is given as its text without
/// the line end. A file is given by its name.
#[derive(Debug, Drop)]
pub enum Wish {
    /// A member of the alias says what the text says.
    HasMember {
        kind: Kind,
        alias: Text,
        member: Text,
    },
    /// No member of the alias says what the text says.
    LacksMember {
        kind: Kind,
        alias: Text,
        member: Text,
    },
    /// A line of the file is the text. `place` says where a new one goes.
    HasLine {
        file: Text,
        text: Text,
        place: LinePlace,
    },
    /// No line of the file is the text. `even_includes` says whether an include line may be removed.
    LacksLine {
        file: Text,
        text: Text,
        even_includes: bool,
    },
    /// No rule and no alias names the user. Letter case does not matter. `even_denials` says whether members may go that deny him
    /// something.
    NoUser {
        user: Text,
        even_denials: bool,
    },
}

/// Where a new line goes.
#[derive(Debug, Drop)]
pub enum LinePlace {
    /// After the last line.
    End,
    /// After the only line with this text.
    After(Text),
    /// Before the only line with this text.
    Before(Text),
}
