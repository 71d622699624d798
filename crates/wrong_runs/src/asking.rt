//! What `list` writes.

ghost use Rattle.std.specs.Io.KnownBytes.{Appends};
ghost use Rattle.std.specs.Prelude.{ℕ, List, Ok, IfOk, IfErr, IfSome};
ghost use Rattle.sudoers_run.specs.List.{HoldsOfPeopleTexts, IsListOutcome, IsStatedOrOutsideListFault};

use std::alloc::Global;
use sudoers_files::Files;
use sudoers_run::{ListWords, Sink, Source, ToolFault, run_list};

/// Reads a policy, passwd and group, and writes what a user may run, or whether he may run a command.
///
/// # Errors
///
/// Those of `run_list`.
pub fn list_rules<F: Files, U: Source, G: Source, W: Sink>(
    alloc: Global,
    files: &mut F,
    root: &[u8],
    passwd: &mut U,
    group: &mut G,
    words: &ListWords<'_>,
    writer: &mut W,
) -> Result<u8, ToolFault>
    ensures ok { IfOk result (λ status. IfSome (F.shelf files.old).files (λ known. HoldsOfPeopleTexts (U.meter passwd.old) (G.meter group.old) (λ u g.
        (text : List ℕ) × IsListOutcome words.now root.now known u g (Ok (text, status)) × Appends (W.contents writer.old) (W.contents writer.new) text))) }
    ensures fault { IfErr result (λ fault. IfSome (F.shelf files.old).files (λ known. HoldsOfPeopleTexts (U.meter passwd.old) (G.meter group.old) (IsStatedOrOutsideListFault words.now root.now known fault))) }
{
    run_list(alloc, files, root, passwd, group, words, writer)
}
