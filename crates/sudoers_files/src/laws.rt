//! Laws of gathering. Each is the contract of a function that does nothing.

ghost use Rattle.std.specs.Prelude.{◌≡◌, List, ℕ, Result};
ghost use Rattle.sudoers_tree.specs.declared.named_files.NamedFile.{NamedFile as NamedFileOf};
ghost use Rattle.sudoers_files.specs.declared.fault.GatherFault.{GatherFault as GatherFaultOf};
ghost use Rattle.sudoers_files.specs.Gather.{gathered_files_or_fault};
ghost use Rattle.sudoers_files.specs.Gathers.{IsGatherOutcome};

/// A law: `gathered_files_or_fault` computes the outcome that `IsGatherOutcome` defines, and `IsGatherOutcome` defines no other.
#[tactic(auto, using(crate::proofs::Gathered::computed_gathering_is_gather_outcome, crate::proofs::Gathered::gather_outcome_is_computed_gathering))]
pub fn gather_is()
    ensures is { (files : List NamedFileOf) (root : List ℕ) → IsGatherOutcome files root (gathered_files_or_fault files root) }
    ensures one { (files : List NamedFileOf) (root : List ℕ) (outcome : Result (List NamedFileOf) GatherFaultOf)
        → IsGatherOutcome files root outcome → gathered_files_or_fault files root ≡ outcome }
{}
