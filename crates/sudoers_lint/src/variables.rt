//! Variables of the environment that can change what a command does.

ghost use Rattle.std.specs.Prelude.{◌≡◌};
ghost use Rattle.sudoers_lint.specs.Names.{can_name_one_of, can_name_same, is_end_of_pattern, is_risky_variable, is_star};

/// The variables, in the order of their names. A `*` at the end stands for any bytes.
pub const VARIABLES: [&[u8]; 38] = [
    b"BASHOPTS",
    b"BASH_ENV",
    b"CDPATH",
    b"ENV",
    b"FPATH",
    b"GLOBIGNORE",
    b"HOME",
    b"HOSTALIASES",
    b"IFS",
    b"JAVA_TOOL_OPTIONS",
    b"LD_*",
    b"LOCALDOMAIN",
    b"NLSPATH",
    b"NULLCMD",
    b"PATH",
    b"PATH_LOCALE",
    b"PERL5DB",
    b"PERL5LIB",
    b"PERL5OPT",
    b"PERLIO_DEBUG",
    b"PERLLIB",
    b"PS4",
    b"PYTHONHOME",
    b"PYTHONINSPECT",
    b"PYTHONPATH",
    b"PYTHONUSERBASE",
    b"READNULLCMD",
    b"RES_OPTIONS",
    b"RUBYLIB",
    b"RUBYOPT",
    b"SHELLOPTS",
    b"TERMCAP",
    b"TERMINFO",
    b"TERMINFO_DIRS",
    b"TERMPATH",
    b"TMPPREFIX",
    b"ZDOTDIR",
    b"_RLD*",
];

/// Returns whether `pattern` is `*`.
fn is_star(pattern: &[u8]) -> bool
    ensures { result ≡ is_star pattern.now }
{
    pattern == b"*".as_slice()
}

/// Returns whether nothing is left of a name behind `pattern`, or anything may be.
fn is_end_of_pattern(pattern: &[u8]) -> bool
    ensures { result ≡ is_end_of_pattern pattern.now }
{
    pattern.is_empty() || is_star(pattern)
}

/// Returns whether `pattern` and `other` can name the same variable. A `*` at the end stands for any bytes.
fn can_name_same(pattern: &[u8], other: &[u8]) -> bool
    ensures { result ≡ can_name_same pattern.now other.now }
{
    let mut left = pattern;
    let mut right = other;
    while let (Some((byte, behind)), Some((other_byte, other_behind))) = (
        left.split_first(),
        right.split_first(),
    ) {
        if is_star(left) || is_star(right) {
            return true;
        }
        if byte != other_byte {
            return false;
        }
        left = behind;
        right = other_behind;
    }
    is_end_of_pattern(left) && is_end_of_pattern(right)
}

/// Returns whether `word` can name a variable that one of `patterns` names.
fn can_name_one_of(patterns: &[&[u8]], word: &[u8]) -> bool
    ensures { result ≡ can_name_one_of patterns.now word.now }
{
    for pattern in patterns {
        if can_name_same(pattern, word) {
            return true;
        }
    }
    false
}

/// Returns whether `word` can name a variable that can change what a command does.
pub fn is_risky_variable(word: &[u8]) -> bool
    ensures { result ≡ is_risky_variable word.now }
{
    can_name_one_of(&VARIABLES, word)
}
