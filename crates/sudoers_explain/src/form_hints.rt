//! The hints for the form of a line, by what may stand at the place of a mistake.

use crate::expected_pieces::ExpectedPiece;
use crate::hints::Hint;
use crate::mistake::{Mistake, is_rest_empty, is_space_or_tab, last_mark_of, strip_leading_blanks};
use sudoers_text::is_reserved;

/// Returns how many `:` stand in `text`.
fn colon_count(text: &[u8]) -> usize {
    text.iter().filter(|byte| **byte == b':').count()
}

impl Mistake<'_> {
    /// Returns the hint for the form of the line, by what may stand at the place.
    pub fn hint_of_pieces(&self) -> Option<Hint> {
        if self.is_inside_ipv6() {
            return Some(Hint::Ipv6);
        }
        if self.pieces.len() == 1 && self.may_be(ExpectedPiece::Colon) {
            return Some(Hint::TagColon);
        }
        if self.may_be(ExpectedPiece::Digest) && !self.may_be(ExpectedPiece::Path) {
            return Some(Hint::CommaBehindDigest);
        }
        if self.is_beside_stray_comma() {
            return Some(Hint::StrayComma);
        }
        if self.is_place_of_command() {
            return self.hint_of_command();
        }
        if self.may_be(ExpectedPiece::Name) {
            return self.hint_of_name();
        }
        if self.may_be(ExpectedPiece::Close) {
            return self.hint_of_missing_parenthesis();
        }
        if self.may_be(ExpectedPiece::Alias) && !self.may_be(ExpectedPiece::Path) {
            return self.hint_of_alias_name();
        }
        self.hint_of_mark()
    }

    /// Returns whether a member of a list is missing at the place, beside a comma; but not a command at the end of the line.
    fn is_beside_stray_comma(&self) -> bool {
        let is_place_of_name = self.may_be(ExpectedPiece::Name);
        let is_place_of_member = is_place_of_name || self.is_place_of_command();
        let is_behind_comma = last_mark_of(self.before) == Some(b',');
        match self.behind.first() {
            Some(b',') => is_place_of_member && !self.may_be(ExpectedPiece::Comma),
            Some(b')' | b':' | b'=') => is_place_of_member && is_behind_comma,
            _ => is_place_of_name && is_behind_comma && is_rest_empty(self.behind),
        }
    }

    /// Returns whether the place is in an address of IPv6, where a host may stand.
    fn is_inside_ipv6(&self) -> bool {
        let last = match self.before.split(|byte| is_space_or_tab(*byte)).last() {
            Some(word) => word,
            None => b"",
        };
        let next = match self
            .behind
            .split(|byte| is_space_or_tab(*byte) || *byte == b'=')
            .next()
        {
            Some(word) => word,
            None => b"",
        };
        let is_first = !self.before.contains(&b'=') && last.len() < self.before.len();
        let is_host = is_first || self.is_after_separate_colon(last.len());
        is_host
            && colon_count(last).saturating_add(colon_count(next)) >= 2
            && last
                .iter()
                .all(|byte| byte.is_ascii_hexdigit() || *byte == b':')
    }

    /// Returns whether a `:` and a blank stand before the last word before the place, which has `size` bytes.
    fn is_after_separate_colon(&self, size: usize) -> bool {
        let front = self
            .before
            .len()
            .saturating_sub(size)
            .min(self.before.len());
        let (front, _) = self.before.split_at(front);
        last_mark_of(front) == Some(b':') && !front.ends_with(b":")
    }

    /// Returns the hint where a command may stand.
    fn hint_of_command(&self) -> Option<Hint> {
        if is_rest_empty(self.behind) {
            return if last_mark_of(self.before) == Some(b',') {
                Some(Hint::CommaAtEnd)
            } else {
                None
            };
        }
        match self.behind.first() {
            Some(b'"' | b'\'') if self.may_be_rule_of_default() => {
                return Some(Hint::DefaultsOrRule);
            }
            Some(b'"' | b'\'') => return Some(Hint::QuotedCommand),
            Some(b'(') if self.is_alias_line() => return Some(Hint::OnlyInRules),
            Some(byte) if byte.is_ascii_alphanumeric() || b"._~-$`".contains(byte) => {}
            _ => return None,
        }
        match self.behind.get(self.word().len()) {
            Some(b')') if self.may_be(ExpectedPiece::Open) => Some(Hint::OpeningParenthesis),
            _ if last_mark_of(self.before) == Some(b',') && self.has_option_among_arguments() =>
                Some(Hint::CommaInArguments),
            _ if matches!(self.behind, [b'~' | b'$', ..]) => Some(Hint::ShellPath),
            _ if self.may_be_rule_of_default() => Some(Hint::DefaultsOrRule),
            _ => Some(Hint::FullPath),
        }
    }

    /// Returns whether an argument that begins with `-` stands before the place.
    fn has_option_among_arguments(&self) -> bool {
        let mut is_after_blank = false;
        for byte in self.before {
            if is_after_blank && *byte == b'-' {
                return true;
            }
            is_after_blank = is_space_or_tab(*byte);
        }
        false
    }

    /// Returns the hint where a name may stand.
    fn hint_of_name(&self) -> Option<Hint> {
        if self.is_include_line() {
            return Some(Hint::IncludePath);
        }
        let is_host = self.may_be(ExpectedPiece::Group) && !self.may_be(ExpectedPiece::Number);
        if is_host
            && !self.before.contains(&b'=')
            && !self.is_defaults_line()
            && !self.is_alias_line()
        {
            return Some(Hint::UserSpecification);
        }
        if last_mark_of(self.before) != Some(b':') {
            return None;
        }
        if is_host && let Some(hint) = self.hint_of_last_colon() {
            return Some(hint);
        }
        match self.behind.first() {
            Some(b')') => Some(Hint::GroupBehindColon),
            _ if is_host && is_rest_empty(self.behind) => Some(Hint::HostsBehindColon),
            _ => None,
        }
    }

    /// Returns the hint for the last `:` before the place, if it was to end no commands: behind a misspelled tag, or among arguments.
    fn hint_of_last_colon(&self) -> Option<Hint> {
        if let Some((_, tag)) = self.find_misspelled_tag() {
            return Some(Hint::Tag(tag));
        }
        if self.is_last_colon_in_arguments() {
            return Some(Hint::ColonInArguments);
        }
        None
    }

    /// Returns the hint where `)` may stand.
    fn hint_of_missing_parenthesis(&self) -> Option<Hint> {
        if !self.behind.contains(&b')') {
            return Some(Hint::ClosingParenthesis);
        }
        if self.word().is_empty() {
            return None;
        }
        Some(Hint::CommaBetweenMembers)
    }

    /// Returns the hint where the name of an alias has to stand.
    fn hint_of_alias_name(&self) -> Option<Hint> {
        if last_mark_of(self.before) == Some(b':') {
            if is_rest_empty(self.behind) {
                return Some(Hint::ColonAtEnd);
            }
            if self.is_last_colon_in_arguments() {
                return Some(Hint::ColonInArguments);
            }
        }
        Some(Hint::AliasName)
    }

    /// Returns the hint where only marks may stand.
    fn hint_of_mark(&self) -> Option<Hint> {
        if self.may_be(ExpectedPiece::Adding) {
            return Some(Hint::EqualBeforeValue);
        }
        if self.may_be(ExpectedPiece::Equal) && self.may_be(ExpectedPiece::Comma) {
            return match self.hint_of_last_colon() {
                Some(hint) => Some(hint),
                None => Some(self.hint_of_missing_equal()),
            };
        }
        if self.may_be(ExpectedPiece::Equal) {
            return Some(if self.is_alias_line() {
                Hint::EqualAfterAlias
            } else {
                Hint::EqualAfterOption
            });
        }
        if !self.may_be(ExpectedPiece::Comma) || !self.may_be(ExpectedPiece::End) {
            return None;
        }
        if is_reserved(self.word())
            && self.word() != b"ALL".as_slice()
            && !self.is_defaults_line()
        {
            return Some(Hint::TagColon);
        }
        if self.is_alias_line() && !self.word().is_empty() {
            return Some(Hint::CommaBetweenMembers);
        }
        if self.is_defaults_line() && self.before.contains(&b'=') && !self.word().is_empty() {
            return Some(Hint::QuotedValue);
        }
        None
    }

    /// Returns the hint where `=` has to stand after the hosts of a rule.
    fn hint_of_missing_equal(&self) -> Hint {
        let is_word_before_equal = match self.behind.split_at_checked(self.word().len()) {
            Some((word, rest)) => !word.is_empty() && strip_leading_blanks(rest).starts_with(b"="),
            None => false,
        };
        if strip_leading_blanks(self.before).starts_with(b"%")
            && is_word_before_equal
            && !self.before.contains(&b'=')
        {
            return Hint::BlankInGroup;
        }
        Hint::EqualBeforeCommands
    }
}
