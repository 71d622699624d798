//! Parameters of Defaults lines, in groups by what they take.

ghost use Rattle.std.specs.Prelude.{◌≡◌};
ghost use Rattle.std.specs.Option.{option_copied};
ghost use Rattle.sudoers_defaults.specs.Parameter.{group_of_name, is_name_in_group, may_stand_without_value};

/// Parameters of Defaults lines that take the same (sudoers(5), SUDOERS OPTIONS).
#[derive(Clone, Copy)]
pub struct ParameterGroup {
    pub takes: ParameterType,
    pub without_value: UseWithoutValue,
    pub names: &'static [&'static str],
}

/// What a parameter takes as a value.
#[derive(Clone, Copy)]
pub enum ParameterType {
    /// None: it is on or off.
    Flag,
    /// Any text.
    Text,
    /// A path from the root.
    Path,
    /// A path from the root or from a home, or `*`.
    PathOrStar,
    /// A number from -2,147,483,648 to 2,147,483,647.
    Integer,
    /// A number up to 4,294,967,295.
    Unsigned,
    /// An octal mode up to 0777.
    Mode,
    /// Minutes, perhaps with a fraction.
    Minutes,
    /// Seconds, or days, hours, minutes and seconds, as `1h30m`.
    Time,
    /// A limit of a resource, or two with a comma between them.
    ResourceLimit,
    /// One of the words of this set.
    OneOf(WordSet),
    /// Words, to which `+=` adds others.
    List,
    /// The name of a locale. Only the machine knows which there are.
    Locale,
    /// Any text, with or without quotes.
    FreeText,
    /// A number up to 1,000, of at most 18 digits.
    SmallNumber,
    /// Minutes, perhaps with a fraction, of at most 18 bytes.
    PlainMinutes,
}

/// A set of words, of which a parameter takes one.
#[derive(Clone, Copy)]
pub enum WordSet {
    /// `never`, `once`, `always`.
    Lecture,
    /// `never`, `any`, `all`, `always`.
    Commands,
    /// `never`, `digest_only`, `always`.
    Execution,
    /// `global`, `ppid`, `tty`, `kernel`.
    Tickets,
    /// `sudo`, `json`.
    LogFormat,
    /// `dso`, `trace`.
    Interception,
    /// The facilities of syslog.
    Facility,
    /// The priorities of syslog, and `none`.
    Priority,
}

/// Whether a parameter may stand without a value.
#[derive(Clone, Copy)]
pub enum UseWithoutValue {
    /// Alone, and behind `!`.
    Both,
    /// Behind `!` only.
    Negated,
    /// Never.
    Never,
}

impl UseWithoutValue {
    /// Returns whether a parameter may stand without a value. With `negated` it stands behind `!`.
    pub fn is_allowed(self, negated: bool) -> bool
        ensures { result ≡ may_stand_without_value self negated }
    {
        match self {
            UseWithoutValue::Both => true,
            UseWithoutValue::Negated => negated,
            UseWithoutValue::Never => false,
        }
    }
}

impl ParameterGroup {
    /// Returns whether `name` is the name of a parameter of the group.
    pub fn has_name(&self, name: &[u8]) -> bool
        ensures { result ≡ is_name_in_group name.now self.now }
    {
        for known in self.names {
            if known.as_bytes() == name {
                return true;
            }
        }
        false
    }
}

/// Returns the group of `known` that has a parameter of the name `name`.
pub fn find_group_of_name<'a>(
    known: &'a [ParameterGroup],
    name: &[u8],
) -> Option<&'a ParameterGroup>
    ensures { option_copied result ≡ group_of_name name.now known.now }
{
    for group in known {
        if group.has_name(name) {
            return Some(group);
        }
    }
    None
}
