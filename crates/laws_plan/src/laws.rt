//! Laws of plans. Each is the contract of a function that does nothing.

ghost use Rattle.std.specs.Prelude.{◌≡◌, ℕ, true, List};
ghost use Rattle.std.specs.List.{list_any};
ghost use Rattle.std.specs.Str.{bytes_eq};
ghost use Rattle.sudoers_tree.specs.Line.{Line as LineOf};
ghost use Rattle.sudoers_tree.specs.Policy.{AreValidWalkLines};
ghost use Rattle.sudoers_plan.specs.declared.user_members.ListPart.{ListPart as PartOf};
ghost use Rattle.sudoers_plan.specs.User.{aliases_of_user};
ghost use Rattle.laws_plan.specs.AliasesOfUser.{HaveAliasesOfUser};

/// The aliases of a user have each user alias whose list is the user's, by his name or by these aliases. Other names that have each have
/// all of these.
pub fn aliases_of_user_are_fewest()
    ensures each { (part : PartOf) (user : List ℕ) (lines : List LineOf) → AreValidWalkLines lines → HaveAliasesOfUser part user lines (aliases_of_user part user lines) }
    ensures fewest { (part : PartOf) (user : List ℕ) (lines : List LineOf) (names : List (List ℕ)) → HaveAliasesOfUser part user lines names
        → (name : List ℕ) → list_any (bytes_eq name) (aliases_of_user part user lines) ≡ true → list_any (bytes_eq name) names ≡ true }
{}
