//! Why sudo-rs refuses what stands among commands.

ghost use Rattle.std.specs.Prelude.{◌≡◌, false};
ghost use Rattle.sudoers_forms.specs.SudoRs.{escapes_of_rs_commands, has_escape_beside, has_open_set, is_list_of_commands, is_outside, is_rs_folder, place_behind, rs_form_of_argument, rs_form_of_command_word, rs_form_of_path, rs_form_of_value};

use crate::line_part::LinePart;
use crate::spelling::has_byte;
use crate::sudo_rs_form::SudoRsForm;
use crate::words::is_option;
use sudoers_grammar::begins_with_byte;
use sudoers_text::TokenKind;

/// The bytes that sudo-rs escapes in paths and arguments, and in the value of CWD.
const ESCAPES_OF_COMMANDS: &[u8] = b",:=#\\ ";

/// The bytes that sudo-rs escapes in the value of CWD in quotes.
const ESCAPES_OF_FOLDERS: &[u8] = b" \"\\";

/// A place in a path: in no set, behind `[`, behind `[!`, or further on in a set.
#[derive(Clone, Copy, PartialEq, Eq)]
pub enum SetPlace {
    Outside,
    Opened,
    Marked,
    Inside,
}

impl SetPlace {
    /// Returns the place behind the byte `byte`.
    fn move_behind(self, byte: u8) -> SetPlace
        ensures { result ≡ place_behind self byte }
    {
        match self {
            SetPlace::Outside if byte == b'[' => SetPlace::Opened,
            SetPlace::Outside => SetPlace::Outside,
            SetPlace::Opened if byte == b'!' => SetPlace::Marked,
            SetPlace::Inside if byte == b']' => SetPlace::Outside,
            SetPlace::Opened | SetPlace::Marked | SetPlace::Inside => SetPlace::Inside,
        }
    }
}

/// Returns whether a set of the path `text` is not closed.
fn has_open_set(text: &[u8]) -> bool
    ensures { result ≡ has_open_set SetPlace.Outside text.now }
{
    let mut place = SetPlace::Outside;
    for byte in text {
        place = place.move_behind(*byte);
    }
    place != SetPlace::Outside
}

/// Returns whether an escape of another byte than those of `known` stands in `text`.
fn has_escape_beside(known: &[u8], text: &[u8]) -> bool
    ensures { result ≡ has_escape_beside known.now false text.now }
{
    let mut is_escaped = false;
    for byte in text {
        if is_escaped && !has_byte(*byte, known) {
            return true;
        }
        is_escaped = !is_escaped && *byte == b'\\';
    }
    false
}

/// Returns why sudo-rs refuses the path `text`.
pub fn find_sudo_rs_form_of_path(text: &[u8]) -> Option<SudoRsForm>
    ensures { result ≡ rs_form_of_path text.now }
{
    if has_escape_beside(ESCAPES_OF_COMMANDS, text) {
        Some(SudoRsForm::Escape)
    } else if has_open_set(text) {
        Some(SudoRsForm::OpenSet)
    } else {
        None
    }
}

/// Returns why sudo-rs refuses the argument `text` behind `gap`.
pub fn find_sudo_rs_form_of_argument(gap: &[u8], text: &[u8]) -> Option<SudoRsForm>
    ensures { result ≡ rs_form_of_argument gap.now text.now }
{
    if has_byte(b'\t', gap) || has_byte(b'\n', gap) || has_byte(b'\n', text) {
        Some(SudoRsForm::ArgumentGap)
    } else if has_escape_beside(ESCAPES_OF_COMMANDS, text) {
        Some(SudoRsForm::Escape)
    } else {
        None
    }
}

/// Returns whether sudo-rs takes `text` as the value of CWD.
fn is_folder(text: &[u8]) -> bool
    ensures { result ≡ is_rs_folder text.now }
{
    text == b"*".as_slice()
        || ((begins_with_byte(b'/', text) || begins_with_byte(b'~', text))
            && !has_byte(b'*', text)
            && !has_escape_beside(ESCAPES_OF_FOLDERS, text))
}

/// Returns why sudo-rs refuses the value `text` of the option `option`, a token of this kind.
pub fn find_sudo_rs_form_of_value(option: &[u8], kind: TokenKind, text: &[u8]) -> Option<SudoRsForm>
    ensures { result ≡ rs_form_of_value option.now kind text.now }
{
    if option == b"CWD".as_slice() && (kind == TokenKind::Quoted || !is_folder(text)) {
        Some(SudoRsForm::Folder)
    } else {
        None
    }
}

impl LinePart {
    /// Returns whether commands stand in the part.
    pub fn is_list_of_commands(self) -> bool
        ensures { result ≡ is_list_of_commands self }
    {
        matches!(self, LinePart::Commands | LinePart::CommandScope)
    }

    /// Returns why sudo-rs refuses the word `text` among commands, behind the token `before`, in a line that begins with this part.
    pub fn find_sudo_rs_form_of_command_word(self, before: &[u8], text: &[u8]) -> Option<SudoRsForm>
        ensures { result ≡ rs_form_of_command_word self before.now text.now }
    {
        if is_option(text) && text != b"CWD".as_slice() {
            Some(SudoRsForm::UnknownOption)
        } else if text == b"NOEXEC".as_slice() || text == b"INTERCEPT".as_slice() {
            Some(SudoRsForm::UnknownTag)
        } else if text == b"list".as_slice() {
            Some(SudoRsForm::ListCommand)
        } else if self == LinePart::Users
            && text == b"sudoedit".as_slice()
            && before != b"!".as_slice()
        {
            Some(SudoRsForm::Editor)
        } else {
            None
        }
    }
}
