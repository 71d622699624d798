//! Laws of patterns. Each is the contract of a function that does nothing.

ghost use Rattle.std.specs.Prelude.{◌≡◌, ◌==◌, ◌&&◌, ◌++◌, ◌∷◌, ◌↔◌, ℕ, List, [], false, true};
ghost use Rattle.std.specs.List.{list_all};
ghost use Rattle.sudoers_match_member.specs.declared.wildcards.GlobMode.{GlobMode as ModeOf};
ghost use Rattle.sudoers_match_member.specs.Wildcard.{may_wildcard_take, is_pattern_match};
ghost use Rattle.sudoers_grammar.specs.Pattern.{is_special_in_patterns};
ghost use Rattle.sudoers_match_member.specs.declared.people_and_commands.Who.{Who as WhoOf};
ghost use Rattle.sudoers_match_member.specs.Hits.{is_host_name_match};

/// A `*` matches a run of bytes that it may take, in paths none with a slash; the rest of the pattern matches what follows.
pub fn star_is()
    ensures { (mode : ModeOf) (pattern text : List ℕ) → is_pattern_match mode (42 ∷ pattern) text ≡ true
        ↔ ((run : List ℕ) × (rest : List ℕ) × (text ≡ run ++ rest) × (list_all (may_wildcard_take mode) run ≡ true) × (is_pattern_match mode pattern rest ≡ true)) }
{}

/// A byte with a backslash before it matches itself alone.
pub fn escaped_is()
    ensures byte { (mode : ModeOf) (c b : ℕ) (pattern text : List ℕ) → is_pattern_match mode (92 ∷ c ∷ pattern) (b ∷ text) ≡ (b == c && is_pattern_match mode pattern text) }
    ensures end { (mode : ModeOf) (c : ℕ) (pattern : List ℕ) → is_pattern_match mode (92 ∷ c ∷ pattern) [] ≡ false }
{}

/// A backslash before the first byte of a pattern changes nothing, unless that byte is a wildcard or a backslash.
pub fn plain_first_is()
    ensures pattern { (mode : ModeOf) (c : ℕ) (pattern text : List ℕ) → is_special_in_patterns c ≡ false
        → is_pattern_match mode (92 ∷ c ∷ pattern) text ≡ is_pattern_match mode (c ∷ pattern) text }
    ensures host { (who : WhoOf) (c : ℕ) (pattern : List ℕ) → is_special_in_patterns c ≡ false
        → is_host_name_match who (92 ∷ c ∷ pattern) ≡ is_host_name_match who (c ∷ pattern) }
{}
