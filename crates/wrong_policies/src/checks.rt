//! What is noted of a policy, and which aliases are unused.

ghost use Rattle.std.specs.Prelude.{◌≡◌, IfOk, map};
ghost use Rattle.sudoers_check.specs.Led.{unused_definitions_of_lines};
ghost use Rattle.sudoers_check.specs.Places.{byte_place_on_walk};
ghost use Rattle.sudoers_check.specs.Report.{is_report_parsed_ok, report_of_walk, report_text as text_of_report};
ghost use Rattle.sudoers_tree.specs.Definition.{PlacedDefinition};
ghost use Rattle.sudoers_tree.specs.FilePlaces.{file_place_of_walk_place};

use std::alloc::{AllocError, Global};
use sudoers_check::{BytePlace, Report, WalkCursor, check, report_text, unused};
use sudoers_tree::{DefinitionFilePlace, Kind, Policy};

/// Returns what is noted of `policy`.
///
/// # Errors
///
/// Memory ran out.
pub fn check_policy(alloc: Global, policy: &Policy) -> Result<Report, AllocError>
    ensures { IfOk result (λ report. report ≡ report_of_walk policy.now.walk) }
{
    check(alloc, policy)
}

/// Returns whether a policy with this report passes; with `strict`, undefined names and cyclic aliases count.
pub fn is_fine_report(report: &Report, strict: bool) -> bool
    ensures { result ≡ is_report_parsed_ok strict report.now }
{
    report.is_parsed_ok(strict)
}

/// Returns the text of `report`, a report on `policy`.
///
/// # Errors
///
/// Memory ran out.
pub fn report_of_policy(
    alloc: Global,
    policy: &Policy,
    report: &Report,
    strict: bool,
) -> Result<Vec<u8>, AllocError>
    ensures { IfOk result (λ text. text.items ≡ text_of_report policy.now strict report.now) }
{
    report_text(alloc, policy, report, strict)
}

/// Returns the aliases to which no user specification and no Defaults line leads.
///
/// # Errors
///
/// Memory ran out.
pub fn unused_aliases(
    alloc: Global,
    policy: &Policy,
) -> Result<Vec<(Kind, DefinitionFilePlace)>, AllocError>
    ensures { IfOk result (λ places. places.items
        ≡ map (λ (d : PlacedDefinition). (d.kind, file_place_of_walk_place policy.now.walk d.place)) (unused_definitions_of_lines policy.now.walk.lines)) }
{
    unused(alloc, policy)
}

/// Returns where the byte `start` of the line with the number `number` of the walk of `policy` stands, both from 0.
pub fn place_of_byte(policy: &Policy, number: usize, start: usize) -> Option<BytePlace>
    ensures { result ≡ byte_place_on_walk policy.now.walk number start }
{
    WalkCursor::new(policy).find_place_of_byte(number, start)
}
