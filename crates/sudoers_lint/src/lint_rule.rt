//! The rules, with their names and what is said where one is broken.

ghost use Rattle.std.specs.Prelude.{◌≡◌};
ghost use Rattle.sudoers_grammar.specs.Piece.{value_of_matching_row};
ghost use Rattle.sudoers_lint.specs.Rules.{named_rules, rule_name, words_of_rule};

/// What a rule of a policy, or a parameter of Defaults, is not to do.
#[derive(Clone, Copy, Debug, PartialEq, Eq)]
pub enum LintRule {
    /// It allows something to every user.
    Everyone,
    /// It leaves some out of `ALL`, of its users or of the users of its Runas_Spec.
    AllBut,
    /// It allows any command without a password.
    NopasswdAny,
    /// It denies a command behind `ALL`.
    DenyList,
    /// It lets the user set variables of the environment.
    Environment,
    /// It allows a program that can start any other.
    WayOut,
}

impl LintRule {
    /// Returns the name of the rule.
    pub fn name(&self) -> &'static [u8]
        ensures { result.now ≡ rule_name self.now }
    {
        match self {
            LintRule::Everyone => b"everyone",
            LintRule::AllBut => b"all-but",
            LintRule::NopasswdAny => b"nopasswd-any",
            LintRule::DenyList => b"deny-list",
            LintRule::Environment => b"environment",
            LintRule::WayOut => b"way-out",
        }
    }

    /// Returns what is said where the rule is broken.
    pub fn words(&self) -> &'static [u8]
        ensures { result.now ≡ words_of_rule self.now }
    {
        match self {
            LintRule::Everyone => b"every user may run it",
            LintRule::AllBut => b"who is left out of ALL by name can come under another name",
            LintRule::NopasswdAny => b"any command without a password",
            LintRule::DenyList => b"a copy of it under another name is still allowed",
            LintRule::Environment => b"the user may set variables that change what runs",
            LintRule::WayOut => b"it can start any other program",
        }
    }
}

/// Returns the rule with this name.
pub fn find_rule_of_name(name: &[u8]) -> Option<LintRule>
    ensures { result ≡ value_of_matching_row named_rules name.now }
{
    if name == b"everyone".as_slice() {
        Some(LintRule::Everyone)
    } else if name == b"all-but".as_slice() {
        Some(LintRule::AllBut)
    } else if name == b"nopasswd-any".as_slice() {
        Some(LintRule::NopasswdAny)
    } else if name == b"deny-list".as_slice() {
        Some(LintRule::DenyList)
    } else if name == b"environment".as_slice() {
        Some(LintRule::Environment)
    } else if name == b"way-out".as_slice() {
        Some(LintRule::WayOut)
    } else {
        None
    }
}
