//! The wishes that the command line gives, and the options that hold for all of them.

use crate::edit_command::read_script_file;
use crate::file_trouble::FileTrouble;
use crate::files::STDIN;
use clap::{Arg, ArgAction, ArgMatches, Command};
use std::alloc::{AllocError, AllocFailed, Global};
use sudoers_explain::make_shown_row;
use sudoers_plan::{Wish, WishFault, WishOptions, WishPart, read_wish};

/// The argument or option that gives a wish.
pub const WISH: &str = "WISH";

/// The option that puts a new line after a line.
const AFTER: &str = "after";

/// The option that puts a new line before a line.
const BEFORE: &str = "before";

/// The flag that lets include lines be removed.
const EVEN_INCLUDES: &str = "even-includes";

/// The flag that lets members be removed that deny a user something.
const EVEN_DENIALS: &str = "even-denials";

/// What help says of a wish.
pub const FORMS_OF_WISHES: &str =
    "`has KIND ALIAS MEMBER`, `lacks KIND ALIAS MEMBER`, `has-line FILE TEXT`, `lacks-line FILE TEXT` or `no-user NAME`, as one word; or `-` for wishes on standard input, one on a line. KIND is user, runas, host or cmnd; a blank in FILE is written `\\ `";

/// The wishes of a call, and the text of each.
#[derive(Drop)]
pub struct GivenWishes {
    texts: Vec<Vec<u8>>,
    wishes: Vec<Wish>,
}

/// Why the wishes of a call cannot be read.
#[derive(Drop)]
pub enum WishError {
    /// This text is no wish.
    Text(Vec<u8>, WishFault),
    /// No wish uses an option: the message of the usage error.
    UnusedOption(&'static str),
    /// The standard input cannot be read, or memory ran out.
    Trouble(FileTrouble),
}

impl GivenWishes {
    /// Returns the wishes.
    pub fn wishes(&self) -> &[Wish] {
        self.wishes.as_slice()
    }

    /// Returns the wish with the number `number`, from 0, and its text.
    pub fn find_wish(&self, number: usize) -> Option<(&Wish, &[u8])> {
        match (self.wishes.get(number), self.texts.get(number)) {
            (Some(wish), Some(text)) => Some((wish, text.as_slice())),
            _ => None,
        }
    }

    /// Adds the wish `text`.
    fn add_wish(
        &mut self,
        alloc: Global,
        text: &[u8],
        options: &WishOptions<'_>,
    ) -> Result<(), WishError> {
        match read_wish(alloc, text, options) {
            Ok(wish) => self.wishes.push(wish)?,
            Err(fault) => return Err(WishError::Text(Vec::from_slice(alloc, text)?, fault)),
        }
        Ok(self.texts.push(Vec::from_slice(alloc, text)?)?)
    }

    /// Adds the wishes on standard input, one on a line. A line without bytes is none.
    fn add_wishes_of_standard_input(
        &mut self,
        rt: &HostRuntime,
        options: &WishOptions<'_>,
    ) -> Result<(), WishError> {
        let bytes = read_script_file(rt, STDIN)?;
        for text in bytes.as_slice().split(|byte| *byte == b'\n') {
            if !text.is_empty() {
                self.add_wish(rt.alloc(), text, options)?;
            }
        }
        Ok(())
    }
}

/// Returns the option that gives a wish.
pub fn make_wish_option<'a>(alloc: Global) -> Arg<'a> {
    Arg::new(alloc, WISH)
        .long("wish")
        .action(ArgAction::Append)
        .help(FORMS_OF_WISHES)
}

/// Adds to `command` the options that hold for all wishes.
pub fn add_wish_options<'a>(
    alloc: Global,
    command: Command<'a>,
) -> Result<Command<'a>, AllocError> {
    let after = Arg::new(alloc, AFTER)
        .long(AFTER)
        .value_name("TEXT")
        .help(
            "Put a new line after the only line that is TEXT; without this option, after the last line",
        )
        .requires_arg(WISH)?
        .conflicts_with(BEFORE)?;
    let before = Arg::new(alloc, BEFORE)
        .long(BEFORE)
        .value_name("TEXT")
        .help("Put a new line before the only line that is TEXT")
        .requires_arg(WISH)?;
    let even_includes = Arg::new(alloc, EVEN_INCLUDES)
        .long(EVEN_INCLUDES)
        .action(ArgAction::SetTrue)
        .help("Let `lacks-line` remove an include line")
        .requires_arg(WISH)?;
    let even_denials = Arg::new(alloc, EVEN_DENIALS)
        .long(EVEN_DENIALS)
        .action(ArgAction::SetTrue)
        .help("Let `no-user` remove a user to whom a line denies something")
        .requires_arg(WISH)?;
    command
        .arg(after)?
        .arg(before)?
        .arg(even_includes)?
        .arg(even_denials)
}

/// Returns whether `words` give wishes.
pub fn has_wishes(words: &ArgMatches<'_>) -> bool {
    words.get_strs(WISH).is_some()
}

/// Returns whether `words` take wishes of the standard input more than once.
pub fn has_standard_input_twice(words: &ArgMatches<'_>) -> bool {
    match words.get_strs(WISH) {
        Some(texts) => texts.iter().filter(|text| **text == STDIN).count() > 1,
        None => false,
    }
}

/// Reads the wishes that `words` give.
///
/// # Errors
///
/// The first text that is no wish; an option that no wish uses; the standard input cannot be read; memory ran out.
pub fn read_given_wishes(
    rt: &HostRuntime,
    words: &ArgMatches<'_>,
) -> Result<GivenWishes, WishError> {
    let options = WishOptions {
        after: words.get_str(AFTER),
        before: words.get_str(BEFORE),
        even_includes: words.get_flag(EVEN_INCLUDES),
        even_denials: words.get_flag(EVEN_DENIALS),
    };
    let mut given = GivenWishes {
        texts: Vec::new(rt.alloc()),
        wishes: Vec::new(rt.alloc()),
    };
    let Some(texts) = words.get_strs(WISH) else {
        return Ok(given);
    };
    for text in texts {
        if *text == STDIN {
            given.add_wishes_of_standard_input(rt, &options)?;
        } else {
            given.add_wish(rt.alloc(), text.as_bytes(), &options)?;
        }
    }
    match find_unused_option(given.wishes(), &options) {
        Some(message) => Err(WishError::UnusedOption(message)),
        None => Ok(given),
    }
}

/// Returns the message of a usage error: none of `wishes` uses an option of `options`.
fn find_unused_option(wishes: &[Wish], options: &WishOptions<'_>) -> Option<&'static str> {
    let has_new_line = wishes
        .iter()
        .any(|wish| matches!(wish, Wish::HasLine { .. }));
    if options.after.is_some() && !has_new_line {
        return Some("--after: no wish of the call is has-line");
    }
    if options.before.is_some() && !has_new_line {
        return Some("--before: no wish of the call is has-line");
    }
    if options.even_includes
        && !wishes
            .iter()
            .any(|wish| matches!(wish, Wish::LacksLine { .. }))
    {
        return Some("--even-includes: no wish of the call is lacks-line");
    }
    if options.even_denials
        && !wishes
            .iter()
            .any(|wish| matches!(wish, Wish::NoUser { .. }))
    {
        return Some("--even-denials: no wish of the call is no-user");
    }
    None
}

/// Returns the message of a usage error: the text `text`, given as `place`, is no wish for `fault`.
///
/// # Errors
///
/// Memory ran out.
pub fn make_wish_message(
    alloc: Global,
    text: &[u8],
    place: &str,
    fault: &WishFault,
) -> Result<String, AllocError> {
    let shown = make_shown_row(alloc, text)?;
    let shown = str::from_utf8(shown.as_slice()).unwrap_or("..");
    let wrong = words_of_wish_fault(fault);
    format!(in alloc; "invalid value '{shown}' for '{place}': {wrong}")
}

/// Returns the words for `fault`.
fn words_of_wish_fault(fault: &WishFault) -> &'static str {
    match fault {
        WishFault::UnknownWish =>
            "a wish begins with `has`, `lacks`, `has-line`, `lacks-line` or `no-user`, and one blank",
        WishFault::UnknownKind => "the kind is `user`, `runas`, `host` or `cmnd`, behind one blank",
        WishFault::MissingPart(WishPart::Alias) => "the alias is missing",
        WishFault::MissingPart(WishPart::Member) => "the member is missing",
        WishFault::MissingPart(WishPart::File) => "the file is missing",
        WishFault::MissingPart(WishPart::Text) => "the text is missing",
        WishFault::MissingPart(WishPart::User) => "the name of the user is missing",
        WishFault::NoMemory => "memory ran out",
    }
}

impl From<FileTrouble> for WishError {
    fn from(trouble: FileTrouble) -> WishError {
        WishError::Trouble(trouble)
    }
}

impl From<AllocError> for WishError {
    fn from(error: AllocError) -> WishError {
        WishError::Trouble(FileTrouble::from(error))
    }
}

impl<T: Drop> From<AllocFailed<T>> for WishError {
    fn from(_error: AllocFailed<T>) -> WishError {
        WishError::from(AllocError)
    }
}
