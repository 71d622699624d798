//! Laws of bundles. Each is the contract of a function that does nothing.

ghost use Rattle.std.specs.Prelude.{◌≡◌, ◌<◌, ◌^◌, List, ℕ, length, Ok};
ghost use Rattle.sudoers_bundle.specs.Bundle.{AllFitInBundle, bundle_of_files, files_of_bundle_text};
ghost use Rattle.sudoers_tree.specs.declared.named_files.NamedFile.{NamedFile as NamedFileOf};

/// The bundle of files that it can hold is read as these files.
pub fn bundle_is_read()
    ensures { (files : List NamedFileOf) → AllFitInBundle files → files_of_bundle_text (bundle_of_files files) ≡ Ok files }
{}

/// A text that is read as files is their bundle, and a bundle can hold each of them.
pub fn read_is_bundle()
    ensures bundle { (text : List ℕ) (files : List NamedFileOf) → files_of_bundle_text text ≡ Ok files → text ≡ bundle_of_files files }
    ensures held { (text : List ℕ) (files : List NamedFileOf) → files_of_bundle_text text ≡ Ok files → length text < 2 ^ 64 → AllFitInBundle files }
{}
